//! The live services and their uses, found by going over all entries. Simple and slow: tests compare the registry with it.

ghost use Rattle.std.specs.Prelude.{◌≡◌, ◌<◌, [], count_by, filter, map, IfOk};
ghost use Rattle.std.specs.List.{list_any};
ghost use Rattle.std.specs.Option.{option_map_or, option_to_list};
ghost use Rattle.osgi_ops.specs.Cleaning.{cleaned_by, cleans};
ghost use Rattle.osgi_ops.specs.Services.{gets_object, is_live_service, is_unget, live_services, made_uses, registered_by, since_cleaning, takes_out, uses};
ghost use Rattle.osgi_history.specs.computed.Scans.{has_failed, held, is_registration, uses_shared};

use osgi_base::{BundleId, List, ServiceId};
use osgi_ops::{Entry, Op, Refusal, Reply};
use std::alloc::{AllocError, Global};

/// Whether the reply refuses because a section failed.
fn has_failed(reply: &Reply) -> bool
    ensures failed { result ≡ has_failed reply.now }
{
    match reply {
        Reply::Refused { refusal } => matches!(refusal, Refusal::ActivatorError),
        _ => false,
    }
}

/// The bundle that the entry cleans: a start of it failed, or a stop of it ended.
fn cleaned_by(entry: &Entry) -> Option<BundleId>
    ensures cleaned { result ≡ cleaned_by entry.now.op entry.now.reply }
{
    let reply = &entry.reply;
    match &entry.op {
        Op::EndStart { bundle, .. } => has_failed(reply).then_some(*bundle),
        Op::EndStop { bundle, .. } => (!reply.is_refusal() || has_failed(reply)).then_some(*bundle),
        _ => None,
    }
}

/// Whether the entry cleans the bundle.
fn cleans(entry: &Entry, bundle: BundleId) -> bool
    ensures cleaned { result ≡ cleans bundle entry.now.op entry.now.reply }
{
    cleaned_by(entry) == Some(bundle)
}

/// Whether the entry takes the service out: it is an accepted Unregister of it, or cleans its owner.
fn takes_out(entry: &Entry, service: ServiceId, owner: BundleId) -> bool
    ensures taken { result ≡ takes_out service owner entry.now.op entry.now.reply }
{
    match &entry.op {
        Op::Unregister { service: taken, .. } => !entry.reply.is_refusal() && *taken == service,
        _ => cleans(entry, owner),
    }
}

/// Whether one of the entries takes the service out.
fn is_taken_out(entries: &[Entry], service: ServiceId, owner: BundleId) -> bool
    ensures taken { result ≡ list_any (λ e. takes_out service owner e.op e.reply) entries.now }
{
    entries.iter().any(|entry| takes_out(entry, service, owner))
}

/// Whether the entry is an accepted Register.
fn is_registration(entry: &Entry) -> bool
    ensures registers { result ≡ is_registration entry.now.op entry.now.reply }
{
    match &entry.op {
        Op::Register { .. } => !entry.reply.is_refusal(),
        _ => false,
    }
}

/// The service that the entry registered after so many earlier ones, where the entries since leave it live.
fn registered(earlier: u64, entry: &Entry, since: &[Entry]) -> Option<ServiceId>
    requires countable { earlier < u64.MAX }
    ensures registered { option_to_list result
        ≡ map (λ r. r.service)
        (filter is_live_service (registered_by earlier entry.now.op entry.now.reply since.now)) }
{
    let Op::Register { owner, .. } = &entry.op else {
        return None;
    };
    if entry.reply.is_refusal() {
        return None;
    }
    let service = ServiceId(earlier + 1);
    (!is_taken_out(since, service, *owner)).then_some(service)
}

/// The live services after these entries, in order of their registration.
pub fn live(alloc: Global, entries: &[Entry]) -> Result<List<ServiceId>, AllocError>
    ensures live { IfOk result (λ ids. ids ≡ map (λ r. r.service) (live_services entries.now)) }
{
    let mut ids = List::new(alloc)?;
    let mut earlier = 0;
    for (place, entry) in entries.iter().enumerate() {
        if let Some(service) = registered(earlier, entry, &entries[place + 1..]) {
            ids.push(service)?;
        }
        earlier += u64::from(is_registration(entry));
    }
    Ok(ids)
}

/// Whether the entry is a Get of the service by the user, or a GetOwn, that answered an object which all share or which the user has.
fn gets_object(entry: &Entry, user: BundleId, service: ServiceId) -> bool
    ensures got { result ≡ gets_object user service entry.now.op entry.now.reply }
{
    match (&entry.op, &entry.reply) {
        (
            Op::Get {
                user: by,
                service: got,
            }
            | Op::GetOwn {
                user: by,
                service: got,
            },
            Reply::Object { .. } | Reply::Held { .. },
        ) => *by == user && *got == service,
        _ => false,
    }
}

/// Whether the entry is an Unget of the service by the user that answered true.
fn is_unget(entry: &Entry, user: BundleId, service: ServiceId) -> bool
    ensures let_go { result ≡ is_unget user service entry.now.op entry.now.reply }
{
    match (&entry.op, &entry.reply) {
        (
            Op::Unget {
                user: by,
                service: let_go,
            },
            Reply::Flag { value },
        ) => *value && *by == user && *let_go == service,
        _ => false,
    }
}

/// The entries since the bundle's last cleaning.
fn since_cleaning(entries: &[Entry], bundle: BundleId) -> &[Entry]
    ensures since { result.now ≡ since_cleaning bundle entries.now }
{
    let mut start = 0;
    for (place, entry) in entries.iter().enumerate() {
        if cleans(entry, bundle) {
            start = place + 1;
        }
    }
    &entries[start..]
}

/// How many of the entries are such a Get.
fn gets(entries: &[Entry], user: BundleId, service: ServiceId) -> usize
    ensures count { result ≡ count_by (λ e. gets_object user service e.op e.reply) entries.now }
{
    entries
        .iter()
        .filter(|entry| gets_object(entry, user, service))
        .count()
}

/// How many of the entries are an Unget of the service by the user that answered true.
fn ungets(entries: &[Entry], user: BundleId, service: ServiceId) -> usize
    ensures count { result ≡ count_by (λ e. is_unget user service e.op e.reply) entries.now }
{
    entries
        .iter()
        .filter(|entry| is_unget(entry, user, service))
        .count()
}

/// The entries since the Register of the service, where it is live.
fn since_registered(entries: &[Entry], service: ServiceId) -> Option<&[Entry]>
    ensures since { (user : BundleId)
        → uses_shared user service entries.now
        ≡ option_map_or (λ since. held user service since.now) result 0 }
{
    let mut earlier = 0;
    for (place, entry) in entries.iter().enumerate() {
        let since = &entries[place + 1..];
        if registered(earlier, entry, since) == Some(service) {
            return Some(since);
        }
        earlier += u64::from(is_registration(entry));
    }
    None
}

/// How often the user holds the service after these entries by its Gets alone: the use that begins as an object is made is not counted,
/// the Ungets are. 0 where it is not live.
fn uses_shared(entries: &[Entry], user: BundleId, service: ServiceId) -> u64
    ensures uses { result ≡ uses_shared user service entries.now }
{
    let Some(since) = since_registered(entries, service) else {
        return 0;
    };
    let since = since_cleaning(since, user);
    let held = gets(since, user, service).saturating_sub(ungets(since, user, service));
    held as u64
}

/// How often the user holds the service after these entries, where none of its uses began with a make; 0 where it is not live.
pub fn uses(entries: &[Entry], user: BundleId, service: ServiceId) -> u64
    ensures uses { made_uses entries.now ≡ [] → result ≡ uses user service entries.now }
{
    uses_shared(entries, user, service)
}
