//! Which revisions have a file.

ghost use Rattle.std.specs.Prelude.{◌≡◌, bytes_eq, find};
ghost use Rattle.std.specs.List.{list_any};
ghost use Rattle.osgi_ops.specs.Loading.{all_with_fragments, has_file, with_fragments};

use crate::lookups::{fragments_of, revision_at};
use osgi_base::RevisionId;
use osgi_wiring::Wirings;
use osgi_world::Revision;

/// Whether a revision has the file.
fn has_path(path: &[u8], revision: &Revision) -> bool
    ensures has { result ≡ list_any (bytes_eq path.now) revision.now.files }
{
    revision
        .files
        .items()
        .iter()
        .any(|file| path == file.bytes())
}

/// Whether the revision that is known by this id has it.
fn has_file(wirings: &Wirings, path: &[u8], revision: RevisionId) -> bool
    ensures has { result ≡ has_file wirings.now.world path.now revision }
{
    revision_at(wirings, revision).map_or(false, |revision| has_path(path, revision))
}

/// The first of these that has it.
fn first_among(wirings: &Wirings, path: &[u8], revisions: &[RevisionId]) -> Option<RevisionId>
    ensures first { result ≡ find (has_file wirings.now.world path.now) revisions.now }
{
    revisions
        .iter()
        .copied()
        .find(|revision| has_file(wirings, path, *revision))
}

/// The first that has it: the host, or one of its fragments.
fn first_of(wirings: &Wirings, path: &[u8], host: RevisionId) -> Option<RevisionId>
    ensures first { result
        ≡ find (has_file wirings.now.world path.now) (with_fragments wirings.now.world host) }
{
    if has_file(wirings, path, host) {
        return Some(host);
    }
    first_among(wirings, path, fragments_of(wirings, host))
}

/// The first that has it, of these hosts, each with its fragments.
pub fn first_with(wirings: &Wirings, path: &[u8], hosts: &[RevisionId]) -> Option<RevisionId>
    ensures first { result
        ≡ find (has_file wirings.now.world path.now)
        (all_with_fragments wirings.now.world hosts.now) }
{
    for host in hosts {
        if let Some(found) = first_of(wirings, path, *host) {
            return Some(found);
        }
    }
    None
}
