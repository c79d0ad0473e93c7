//! The lines of an entry of the history.

ghost use Rattle.std.specs.Prelude.{◌≡◌, ◌++◌, OnOk};
ghost use Rattle.osgi_session.specs.Rendering.{done_lines, entry_lines, lines_at};

use crate::lines::{
    add_bundle_line, add_bundles_line, add_flag_line, add_found, add_given_back, add_handed,
    add_held, add_id_line, add_loaded, add_numbers_line, add_quoted_line, add_section_line,
    add_text_line,
};
use crate::refusals::add_refusal;
use crate::rows::{add_bundles, add_services};
use crate::wires::{add_loaded_more, add_wires};
use osgi_ops::{Entry, Op, Reply};
use std::alloc::{AllocError, Global};

/// Adds the line of an operation that was done, where this is the active start level.
fn add_done(out: &mut Vec<u8>, depth: usize, level: u8, op: &Op) -> Result<(), AllocError>
    ensures added { OnOk result
        (out.new.items ≡ out.old.items ++ lines_at depth (done_lines level op.now)) }
{
    match op {
        Op::Modify { service, .. } => add_id_line(out, depth, b"modified", service.0),
        Op::Unregister { service, .. } => add_id_line(out, depth, b"unregistered", service.0),
        Op::UngetOwn { object, .. } => add_given_back(out, depth, *object),
        Op::QueueJob { .. } => add_text_line(out, depth, b"queued"),
        Op::Print { text, .. } => add_text_line(out, depth, text.bytes()),
        Op::Fail { text, .. } => add_quoted_line(out, depth, b"fail", text.bytes()),
        Op::EndStart { bundle, .. } => add_bundle_line(out, depth, b"started", *bundle),
        Op::EndStop { bundle, .. } => add_bundle_line(out, depth, b"stopped", *bundle),
        Op::Update { bundle, .. } => add_bundle_line(out, depth, b"updated", *bundle),
        Op::Uninstall { bundle } => add_bundle_line(out, depth, b"uninstalled", *bundle),
        Op::EndRefresh => add_text_line(out, depth, b"refreshed"),
        Op::EndLevel => add_id_line(out, depth, b"level done", u64::from(level)),
        _ => Ok(()),
    }
}

/// Adds the lines of an entry, each at this depth, where this was the active start level before the entry.
pub fn add_entry(
    alloc: Global,
    out: &mut Vec<u8>,
    depth: usize,
    level: u8,
    entry: &Entry,
) -> Result<(), AllocError>
    ensures added { OnOk result
        (out.new.items
        ≡ out.old.items ++ lines_at depth (entry_lines level entry.now.op entry.now.reply)) }
{
    match (&entry.op, &entry.reply) {
        (_, Reply::Service { service }) => add_id_line(out, depth, b"service", service.0),
        (_, Reply::Best { service }) => add_found(out, depth, service.as_slice()),
        (_, Reply::Services { services }) => add_found(out, depth, services.items()),
        (_, Reply::Object { text }) => add_quoted_line(out, depth, b"object", text.bytes()),
        (_, Reply::Held { object, text }) => add_held(out, depth, *object, text.bytes()),
        (_, Reply::Make { owner, name, .. }) => {
            add_section_line(out, depth, b"making", *owner, name.bytes())
        }
        (_, Reply::Waiting { bundle }) => add_bundle_line(out, depth, b"waiting", *bundle),
        (_, Reply::LoadedMore { by, wire, .. }) => add_loaded_more(alloc, out, depth, *by, wire),
        (_, Reply::Listener { listener }) => {
            add_id_line(out, depth, b"listener", u64::from(listener.0))
        }
        (
            _,
            Reply::Handed {
                listener,
                event,
                ..
            },
        ) => add_handed(out, depth, *listener, *event),
        (_, Reply::Job { owner, name, .. }) => {
            add_section_line(out, depth, b"job", *owner, name.bytes())
        }
        (_, Reply::Bundle { bundle, .. }) => { add_bundle_line(out, depth, b"bundle", *bundle) }
        (_, Reply::Resolved { added }) => {
            add_bundles_line(out, depth, b"resolved", added.items())
        }
        (_, Reply::Kept { bundle }) => add_bundle_line(out, depth, b"kept", *bundle),
        (_, Reply::Active { bundle }) => add_bundle_line(out, depth, b"active", *bundle),
        (Op::BeginStart { .. }, Reply::Begun { bundle, .. }) => {
            add_bundle_line(out, depth, b"starting", *bundle)
        }
        (Op::BeginStop { .. }, Reply::Begun { bundle, .. }) => {
            add_bundle_line(out, depth, b"stopping", *bundle)
        }
        (_, Reply::Idle { bundle }) => add_bundle_line(out, depth, b"idle", *bundle),
        (_, Reply::Closure { all, .. }) => {
            add_bundles_line(out, depth, b"refreshing", all.items())
        }
        (Op::DropWirings, Reply::Ids { ids }) => {
            add_bundles_line(out, depth, b"unresolved", ids.items())
        }
        (_, Reply::Level { from, to }) => {
            add_numbers_line(out, depth, b"level", u64::from(*from), u64::from(*to))
        }
        (Op::MoveLevel { to }, Reply::Moved { .. }) => {
            add_id_line(out, depth, b"level at", u64::from(*to))
        }
        (Op::SetBundleLevel { bundle, level }, Reply::Leveled { .. }) => {
            add_numbers_line(
                out,
                depth,
                b"blevel",
                u64::from(bundle.0),
                u64::from(*level),
            )
        }
        (_, Reply::Loaded { by }) => add_loaded(out, depth, *by),
        (_, Reply::Bundles { rows }) => add_bundles(alloc, out, depth, rows.items()),
        (_, Reply::ServiceRows { rows }) => add_services(out, depth, rows.items()),
        (_, Reply::Wires { rows, fragments }) => {
            add_wires(alloc, out, depth, rows.items(), fragments.items())
        }
        (_, Reply::Refused { refusal }) => add_refusal(out, depth, refusal),
        (Op::Unget { .. }, Reply::Flag { value }) => add_flag_line(out, depth, b"unget", *value),
        (Op::RemoveListener { .. }, Reply::Flag { value }) => {
            add_flag_line(out, depth, b"unlisten", *value)
        }
        (op, Reply::Done) => add_done(out, depth, level, op),
        _ => Ok(()),
    }
}
