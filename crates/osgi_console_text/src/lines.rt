//! Lines of a word, and what follows it.

ghost use Rattle.std.specs.Prelude.{◌≡◌, ◌++◌, codes, OnOk};
ghost use Rattle.std.specs.Fmt.{decimal};
ghost use Rattle.osgi_session.specs.RefusalTexts.{spaced};
ghost use Rattle.osgi_session.specs.Rendering.{bundles_text, event_text, held_text, line_at, loaded_text, peek_text, quoted, services_text, truth};

use crate::ids::{add_bundle_ids, add_service_ids};
use crate::writing::{add_indent, add_number, add_quoted, add_spaced, add_spaced_number};
use osgi_base::{BundleId, ListenerId, RevisionId, ServiceId};
use osgi_ops::{Event, ObjectId, Peek};
use std::alloc::AllocError;

/// Adds a line that is this text.
pub fn add_text_line(out: &mut Vec<u8>, depth: usize, text: &[u8]) -> Result<(), AllocError>
    ensures added { OnOk result (out.new.items ≡ out.old.items ++ line_at depth text.now) }
{
    add_indent(out, depth)?;
    out.extend_from_slice(text)?;
    out.push(b'\n')?;
    Ok(())
}

/// Adds a line of a word and an id.
pub fn add_id_line(out: &mut Vec<u8>, depth: usize, word: &[u8], id: u64) -> Result<(), AllocError>
    ensures added { OnOk result
        (out.new.items ≡ out.old.items ++ line_at depth (word.now ++ spaced (decimal id))) }
{
    add_indent(out, depth)?;
    out.extend_from_slice(word)?;
    add_spaced_number(out, id)?;
    out.push(b'\n')?;
    Ok(())
}

/// Adds a line of a word and a bundle.
pub fn add_bundle_line(
    out: &mut Vec<u8>,
    depth: usize,
    word: &[u8],
    bundle: BundleId,
) -> Result<(), AllocError>
    ensures added { OnOk result
        (out.new.items ≡ out.old.items ++ line_at depth (word.now ++ spaced (decimal bundle.0))) }
{
    add_id_line(out, depth, word, u64::from(bundle.0))
}

/// Adds a line of a word and two numbers.
pub fn add_numbers_line(
    out: &mut Vec<u8>,
    depth: usize,
    word: &[u8],
    first: u64,
    second: u64,
) -> Result<(), AllocError>
    ensures added { OnOk result
        (out.new.items
        ≡ out.old.items ++ line_at depth
        (word.now ++ (spaced (decimal first) ++ spaced (decimal second)))) }
{
    add_indent(out, depth)?;
    out.extend_from_slice(word)?;
    add_spaced_number(out, first)?;
    add_spaced_number(out, second)?;
    out.push(b'\n')?;
    Ok(())
}

/// Adds the line that says which services were found.
pub fn add_found(out: &mut Vec<u8>, depth: usize, ids: &[ServiceId]) -> Result<(), AllocError>
    ensures added { OnOk result
        (out.new.items ≡ out.old.items ++ line_at depth (codes "found" ++ services_text ids.now)) }
{
    add_indent(out, depth)?;
    out.extend_from_slice(b"found")?;
    add_service_ids(out, ids)?;
    out.push(b'\n')?;
    Ok(())
}

/// Adds a line of a word and bundles.
pub fn add_bundles_line(
    out: &mut Vec<u8>,
    depth: usize,
    word: &[u8],
    ids: &[BundleId],
) -> Result<(), AllocError>
    ensures added { OnOk result
        (out.new.items ≡ out.old.items ++ line_at depth (word.now ++ bundles_text ids.now)) }
{
    add_indent(out, depth)?;
    out.extend_from_slice(word)?;
    add_bundle_ids(out, ids)?;
    out.push(b'\n')?;
    Ok(())
}

/// Adds a line of a word and a text between quotes.
pub fn add_quoted_line(
    out: &mut Vec<u8>,
    depth: usize,
    word: &[u8],
    text: &[u8],
) -> Result<(), AllocError>
    ensures added { OnOk result
        (out.new.items ≡ out.old.items ++ line_at depth (word.now ++ spaced (quoted text.now))) }
{
    add_indent(out, depth)?;
    out.extend_from_slice(word)?;
    out.push(b' ')?;
    add_quoted(out, text)?;
    out.push(b'\n')?;
    Ok(())
}

/// The word for a truth value.
fn truth(value: bool) -> &'static [u8]
    ensures word { result.now ≡ truth value }
{
    if value { b"true" } else { b"false" }
}

/// Adds a line of a word, and whether something was so.
pub fn add_flag_line(
    out: &mut Vec<u8>,
    depth: usize,
    word: &[u8],
    value: bool,
) -> Result<(), AllocError>
    ensures added { OnOk result
        (out.new.items ≡ out.old.items ++ line_at depth (word.now ++ spaced (truth value))) }
{
    add_indent(out, depth)?;
    out.extend_from_slice(word)?;
    add_spaced(out, truth(value))?;
    out.push(b'\n')?;
    Ok(())
}

/// Adds a line of a word, a bundle, and the name of a section of its script.
pub fn add_section_line(
    out: &mut Vec<u8>,
    depth: usize,
    word: &[u8],
    owner: BundleId,
    name: &[u8],
) -> Result<(), AllocError>
    ensures added { OnOk result
        (out.new.items
        ≡ out.old.items ++ line_at depth
        (word.now ++ (spaced (decimal owner.0) ++ spaced name.now))) }
{
    add_indent(out, depth)?;
    out.extend_from_slice(word)?;
    add_spaced_number(out, u64::from(owner.0))?;
    add_spaced(out, name)?;
    out.push(b'\n')?;
    Ok(())
}

/// Adds the number of an object that a factory made, after a space.
fn add_object_id(out: &mut Vec<u8>, object: ObjectId) -> Result<(), AllocError>
    ensures added { OnOk result
        (out.new.items ≡ out.old.items ++ spaced (codes "o" ++ decimal object.0)) }
{
    out.extend_from_slice(b" o")?;
    add_number(out, object.0)
}

/// Adds the line of a peek: how many entries there were, and the services that it found.
pub fn add_peek(out: &mut Vec<u8>, peek: &Peek) -> Result<(), AllocError>
    ensures added { OnOk result (out.new.items ≡ out.old.items ++ peek_text peek.now) }
{
    out.extend_from_slice(b"peek")?;
    add_spaced_number(out, peek.place)?;
    add_service_ids(out, peek.services.items())?;
    out.push(b'\n')?;
    Ok(())
}

/// Adds the line of an object that a factory made.
pub fn add_held(
    out: &mut Vec<u8>,
    depth: usize,
    object: ObjectId,
    text: &[u8],
) -> Result<(), AllocError>
    ensures added { OnOk result
        (out.new.items ≡ out.old.items ++ line_at depth (held_text object text.now)) }
{
    add_indent(out, depth)?;
    out.extend_from_slice(b"object")?;
    add_object_id(out, object)?;
    out.push(b' ')?;
    add_quoted(out, text)?;
    out.push(b'\n')?;
    Ok(())
}

/// Adds the line of an object that was given back.
pub fn add_given_back(out: &mut Vec<u8>, depth: usize, object: ObjectId) -> Result<(), AllocError>
    ensures added { OnOk result
        (out.new.items
        ≡ out.old.items ++ line_at depth
        (codes "ungetown" ++ spaced (codes "o" ++ decimal object.0))) }
{
    add_indent(out, depth)?;
    out.extend_from_slice(b"ungetown")?;
    add_object_id(out, object)?;
    out.push(b'\n')?;
    Ok(())
}

/// Adds an event after a space.
fn add_event(out: &mut Vec<u8>, event: Event) -> Result<(), AllocError>
    ensures added { OnOk result (out.new.items ≡ out.old.items ++ spaced (event_text event)) }
{
    match event {
        Event::Service { code, service } => {
            add_kind_of_event(out, b" service", u64::from(code), service.0)
        }
        Event::Bundle { code, bundle } => {
            add_kind_of_event(out, b" bundle", u64::from(code), u64::from(bundle.0))
        }
        Event::Framework { code } => {
            out.extend_from_slice(b" framework")?;
            add_spaced_number(out, u64::from(code))
        }
    }
}

/// Adds what an event is about, its code, and whose it is.
fn add_kind_of_event(out: &mut Vec<u8>, word: &[u8], code: u64, id: u64) -> Result<(), AllocError>
    ensures added { OnOk result
        (out.new.items
        ≡ out.old.items ++ (word.now ++ (spaced (decimal code) ++ spaced (decimal id)))) }
{
    out.extend_from_slice(word)?;
    add_spaced_number(out, code)?;
    add_spaced_number(out, id)
}

/// Adds the line of an event that is handed to a listener.
pub fn add_handed(
    out: &mut Vec<u8>,
    depth: usize,
    listener: ListenerId,
    event: Event,
) -> Result<(), AllocError>
    ensures added { OnOk result
        (out.new.items
        ≡ out.old.items ++ line_at depth
        (codes "event" ++ (spaced (decimal listener.0) ++ spaced (event_text event)))) }
{
    add_indent(out, depth)?;
    out.extend_from_slice(b"event")?;
    add_spaced_number(out, u64::from(listener.0))?;
    add_event(out, event)?;
    out.push(b'\n')?;
    Ok(())
}

/// Adds the revision that a class was loaded from after a space, or `none`.
fn add_loaded_from(out: &mut Vec<u8>, by: Option<RevisionId>) -> Result<(), AllocError>
    ensures added { OnOk result (out.new.items ≡ out.old.items ++ spaced (loaded_text by)) }
{
    match by {
        Some(revision) => {
            out.extend_from_slice(b" r")?;
            add_number(out, u64::from(revision.0))
        }
        None => out.extend_from_slice(b" none"),
    }
}

/// Adds the line that says which revision a class was loaded from.
pub fn add_loaded(out: &mut Vec<u8>, depth: usize, by: Option<RevisionId>) -> Result<(), AllocError>
    ensures added { OnOk result
        (out.new.items
        ≡ out.old.items ++ line_at depth (codes "loaded" ++ spaced (loaded_text by))) }
{
    add_indent(out, depth)?;
    out.extend_from_slice(b"loaded")?;
    add_loaded_from(out, by)?;
    out.push(b'\n')?;
    Ok(())
}
