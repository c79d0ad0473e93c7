//! The state of a bundle, found by going over all entries: simple and slow.

ghost use Rattle.std.specs.Prelude.{◌≡◌, ◌≢◌, ◌<◌};
ghost use Rattle.std.specs.Option.{option_map};
ghost use Rattle.osgi_history.specs.computed.States.{installs, is_live_after, number_in};
ghost use Rattle.osgi_legal.specs.States.{resolved_at, resolves_by, state_at};
ghost use Rattle.osgi_ops.specs.Bundles.{is_live, is_uninstall, lists_bundle, number_of, phase, put_into, state};
ghost use Rattle.osgi_legal.specs.Legal.{IsReplayed};
ghost use Rattle.osgi_ops.specs.Replies.{took_effect};
ghost use Rattle.osgi_ops.specs.Settings.{Setting};
ghost use Rattle.osgi_world.specs.declared.world.World.{World};

use osgi_base::BundleId;
use osgi_ops::{
    ACTIVE, Entry, INSTALLED, Op, RESOLVED, Refusal, Reply, STARTING, STOPPING, UNINSTALLED,
};

/// Whether the entry installs a bundle.
fn installs(entry: &Entry) -> bool
    ensures installs { result ≡ installs entry.now.op entry.now.reply }
{
    match (&entry.op, &entry.reply) {
        (Op::Install { .. }, Reply::Bundle { known, .. }) => !*known,
        _ => false,
    }
}

/// Whether the entry uninstalls the bundle.
fn uninstalls(entry: &Entry, bundle: BundleId) -> bool
    ensures uninstalls { result ≡ is_uninstall bundle entry.now.op entry.now.reply }
{
    match &entry.op {
        Op::Uninstall { bundle: gone } => !entry.reply.is_refusal() && *gone == bundle,
        _ => false,
    }
}

/// Whether the bundle is live after the entry, where it was live before or not, and so many were installed before.
fn is_live_after(entry: &Entry, bundle: BundleId, before: bool, earlier: u64) -> bool
    requires countable { earlier < u64.MAX }
    ensures live { result ≡ is_live_after bundle earlier before entry.now.op entry.now.reply }
{
    if installs(entry) {
        before || earlier + 1 == u64::from(bundle.0)
    } else {
        before && !uninstalls(entry, bundle)
    }
}

/// Whether the bundle is live after these entries. It is not the system bundle.
fn is_live(entries: &[Entry], bundle: BundleId) -> bool
    requires other { bundle.0 ≢ 0 }
    ensures live { result ≡ is_live bundle entries.now }
{
    let mut live = false;
    let mut earlier = 0;
    for entry in entries {
        live = is_live_after(entry, bundle, live, earlier);
        earlier += u64::from(installs(entry));
    }
    live
}

/// Whether the reply says that a start or a stop ended, well or not.
fn took_effect(reply: &Reply) -> bool
    ensures effective { result ≡ took_effect reply.now }
{
    match reply {
        Reply::Refused { refusal } => matches!(refusal, Refusal::ActivatorError),
        _ => true,
    }
}

/// The state that the entry puts the bundle into, if it does; a bundle that it leaves at rest counts as resolved.
fn put_into(entry: &Entry, bundle: BundleId) -> Option<u8>
    ensures put { result ≡ option_map number_in (put_into bundle entry.now.op entry.now.reply) }
{
    let reply = &entry.reply;
    match (&entry.op, reply) {
        (Op::BeginStart { bundle: begun, .. }, Reply::Begun { .. }) => {
            (*begun == bundle).then_some(STARTING)
        }
        (Op::BeginStop { .. }, Reply::Begun { bundle: begun, .. }) => {
            (*begun == bundle).then_some(STOPPING)
        }
        (Op::EndStart { bundle: ended, .. }, _) => (took_effect(reply)
            && *ended == bundle).then_some(if reply.is_refusal() { RESOLVED } else { ACTIVE }),
        (Op::EndStop { bundle: ended, .. }, _) => {
            (took_effect(reply) && *ended == bundle).then_some(RESOLVED)
        }
        _ => None,
    }
}

/// The state that the entries put the bundle into last; at rest it counts as resolved.
fn put_last(entries: &[Entry], bundle: BundleId) -> u8
    ensures put { result ≡ number_in (phase bundle entries.now) }
{
    let mut state = RESOLVED;
    for entry in entries {
        state = put_into(entry, bundle).unwrap_or(state);
    }
    state
}

/// Whether the bundle is among these.
fn lists_bundle(bundles: &[BundleId], bundle: BundleId) -> bool
    ensures member { result ≡ lists_bundle bundles.now bundle.0 }
{
    bundles.iter().any(|member| *member == bundle)
}

/// Whether the entry resolves the bundle, or leaves it unresolved.
fn resolves_by(entry: &Entry, bundle: BundleId) -> Option<bool>
    ensures resolves { result ≡ resolves_by bundle entry.now.op entry.now.reply }
{
    let reply = &entry.reply;
    match (&entry.op, reply) {
        (Op::Resolve { .. }, Reply::Resolved { added }) => {
            lists_bundle(added.items(), bundle).then_some(true)
        }
        (Op::DropWirings, Reply::Ids { ids }) => lists_bundle(ids.items(), bundle).then_some(false),
        (
            Op::Update {
                bundle: updated,
                ..
            },
            _,
        ) => (!reply.is_refusal() && *updated == bundle).then_some(false),
        _ => None,
    }
}

/// Whether the entries leave the bundle resolved. It is not the system bundle.
fn is_resolved(entries: &[Entry], bundle: BundleId) -> bool
    requires other { bundle.0 ≢ 0 }
    ensures resolved { result ≡ resolved_at bundle entries.now }
{
    let mut resolved = false;
    for entry in entries {
        resolved = resolves_by(entry, bundle).unwrap_or(resolved);
    }
    resolved
}

/// The state of the bundle after these entries, by OSGi's number. What was never given counts as uninstalled.
pub fn state(entries: &[Entry], bundle: BundleId) -> u8
    ensures state { result ≡ number_of (state_at entries.now bundle) }
    ensures replayed { (setting : Setting) (world : World)
        → IsReplayed setting entries.now world
        → result ≡ number_of (state world entries.now bundle) }
{
    if bundle == BundleId(0) {
        return ACTIVE;
    }
    if !is_live(entries, bundle) {
        return UNINSTALLED;
    }
    let put = put_last(entries, bundle);
    if put == RESOLVED && !is_resolved(entries, bundle) {
        return INSTALLED;
    }
    put
}
