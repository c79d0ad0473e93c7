//! The lines of a list of wires.

ghost use Rattle.std.specs.Prelude.{◌≡◌, ◌++◌, ◌∷◌, [], codes, map, OnOk};
ghost use Rattle.osgi_session.specs.RefusalTexts.{spaced};
ghost use Rattle.osgi_session.specs.Rendering.{added_lines, fragment_row_text, line_at, lines_at, loaded_text, revision_text, wire_lines, wire_row_text};

use crate::lines::add_loaded;
use crate::writing::{add_indent, add_number, add_spaced, add_spaced_number};
use osgi_base::RevisionId;
use osgi_ops::WireRow;
use std::alloc::{AllocError, Global};

/// Adds the bundle, the version and the revision of a provider or of a fragment.
fn add_revision(alloc: Global, out: &mut Vec<u8>, row: &WireRow) -> Result<(), AllocError>
    ensures added { OnOk result (out.new.items ≡ out.old.items ++ revision_text row.now) }
{
    add_spaced_number(out, u64::from(row.bundle.0))?;
    add_spaced(out, row.version.print(alloc)?.as_slice())?;
    out.extend_from_slice(b" r")?;
    add_number(out, u64::from(row.revision.0))
}

/// Adds a line of a word, and a wire as it is shown.
fn add_wire_line(
    alloc: Global,
    out: &mut Vec<u8>,
    depth: usize,
    word: &[u8],
    row: &WireRow,
) -> Result<(), AllocError>
    ensures added { OnOk result
        (out.new.items
        ≡ out.old.items ++ line_at depth
        (word.now ++
        (spaced row.now.namespace ++ (spaced row.now.name ++ revision_text row.now)))) }
{
    add_indent(out, depth)?;
    out.extend_from_slice(word)?;
    add_spaced(out, row.namespace.bytes())?;
    add_spaced(out, row.name.bytes())?;
    add_revision(alloc, out, row)?;
    out.push(b'\n')?;
    Ok(())
}

/// Adds the line of a wire.
fn add_wire_row(
    alloc: Global,
    out: &mut Vec<u8>,
    depth: usize,
    row: &WireRow,
) -> Result<(), AllocError>
    ensures added { OnOk result
        (out.new.items ≡ out.old.items ++ line_at depth (wire_row_text row.now)) }
{
    add_wire_line(alloc, out, depth, b"wire", row)
}

/// Adds the line of the wire that a load added, if it added one.
fn add_added(
    alloc: Global,
    out: &mut Vec<u8>,
    depth: usize,
    wire: &Option<WireRow>,
) -> Result<(), AllocError>
    ensures added { OnOk result
        (out.new.items ≡ out.old.items ++ lines_at depth (added_lines wire.now)) }
{
    match wire {
        Some(row) => add_wire_line(alloc, out, depth, b"wired", row),
        None => Ok(()),
    }
}

/// Adds the line of the wire that a load added, if it added one, and the line that says which revision the class was loaded from.
pub fn add_loaded_more(
    alloc: Global,
    out: &mut Vec<u8>,
    depth: usize,
    by: Option<RevisionId>,
    wire: &Option<WireRow>,
) -> Result<(), AllocError>
    ensures added { OnOk result
        (out.new.items
        ≡ out.old.items ++ lines_at depth
        (added_lines wire.now ++ (codes "loaded" ++ spaced (loaded_text by)) ∷ [])) }
{
    add_added(alloc, out, depth, wire)?;
    add_loaded(out, depth, by)
}

/// Adds the line of a fragment.
fn add_fragment_row(
    alloc: Global,
    out: &mut Vec<u8>,
    depth: usize,
    row: &WireRow,
) -> Result<(), AllocError>
    ensures added { OnOk result
        (out.new.items ≡ out.old.items ++ line_at depth (fragment_row_text row.now)) }
{
    add_indent(out, depth)?;
    out.extend_from_slice(b"fragment")?;
    add_revision(alloc, out, row)?;
    out.push(b'\n')?;
    Ok(())
}

/// Adds the lines of the wires.
fn add_wire_rows(
    alloc: Global,
    out: &mut Vec<u8>,
    depth: usize,
    rows: &[WireRow],
) -> Result<(), AllocError>
    ensures added { OnOk result
        (out.new.items ≡ out.old.items ++ lines_at depth (map wire_row_text rows.now)) }
{
    for row in rows {
        add_wire_row(alloc, out, depth, row)?;
    }
    Ok(())
}

/// Adds the lines of the fragments.
fn add_fragment_rows(
    alloc: Global,
    out: &mut Vec<u8>,
    depth: usize,
    rows: &[WireRow],
) -> Result<(), AllocError>
    ensures added { OnOk result
        (out.new.items ≡ out.old.items ++ lines_at depth (map fragment_row_text rows.now)) }
{
    for row in rows {
        add_fragment_row(alloc, out, depth, row)?;
    }
    Ok(())
}

/// Adds the lines of a list of wires and fragments.
pub fn add_wires(
    alloc: Global,
    out: &mut Vec<u8>,
    depth: usize,
    rows: &[WireRow],
    fragments: &[WireRow],
) -> Result<(), AllocError>
    ensures added { OnOk result
        (out.new.items ≡ out.old.items ++ lines_at depth (wire_lines rows.now fragments.now)) }
{
    if rows.is_empty() && fragments.is_empty() {
        add_indent(out, depth)?;
        return out.extend_from_slice(b"none\n");
    }
    add_wire_rows(alloc, out, depth, rows)?;
    add_fragment_rows(alloc, out, depth, fragments)
}
