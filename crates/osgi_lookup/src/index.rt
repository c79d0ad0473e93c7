//! The known revisions by their ids.

ghost use Rattle.std.specs.Prelude.{◌≡◌, ◌↔◌, IfOk, IfSome, IsTrue};
ghost use Rattle.std.specs.Option.{option_copied};
ghost use Rattle.osgi_lookup.specs.computed.Index.{AreRising, IsIndexOf};
ghost use Rattle.osgi_world.specs.Lookups.{known_at};

use osgi_base::RevisionId;
use osgi_world::Known;
use std::alloc::{AllocError, Global};
use std::collections::BTreeMap;
use std::marker::Model;

/// The known revisions, found by their ids. Contracts see the known revisions. Of several with one id the first counts.
pub struct KnownIndex<'w> {
    all: &'w [Known],
    /// The first revision of each id; not needed where the ids rise from one revision to the next.
    by_id: Option<BTreeMap<u32, &'w Known>>,
}

/// Not derived, so that each exit at which one is dropped is a single call, which is cheap to prove.
impl Drop for KnownIndex<'_> {
    fn drop(self) {
        let KnownIndex { all: _, by_id: _ } = self;
    }
}

impl<'w> Model for KnownIndex<'w> {
    ghost use Rattle.std.specs.Prelude.{List, MatchOption};
    ghost use Rattle.osgi_lookup.specs.computed.Index.{AreRising, IsIndexOf};
    ghost use Rattle.osgi_world.specs.declared.world.Known.{Known};
    ghost use Rattle.std.specs.Coded.{codes};
    ghost use Rattle.osgi_model.specs.contracts.filter.Filter as filter;
    ghost use Rattle.osgi_model.specs.contracts.value.Value as value;

    ghost Value = { List Known };

    ghost coded = { Prim.hlevel (codes, filter.the_row.coded, value.the_row.coded) };

    ghost view = { λ i. i.all.now };

    ghost invariant = { λ i. MatchOption i.by_id (AreRising i.all.now) (λ by_id. IsIndexOf by_id i.all.now) };
}

impl<'w> KnownIndex<'w> {
    /// The index of these revisions.
    pub fn new(alloc: Global, all: &'w [Known]) -> Result<KnownIndex<'w>, AllocError>
        ensures known { IfOk result (λ made. made ≡ all.now) }
    {
        if do_ids_rise(all) {
            return Ok(KnownIndex { all, by_id: None });
        }
        let by_id = first_by_id(alloc, all)?;
        Ok(KnownIndex {
            all,
            by_id: Some(by_id),
        })
    }

    /// The known revisions, as they were given.
    pub fn all(&self) -> &'w [Known]
        ensures known { result.now ≡ self.now }
    {
        self.all
    }

    /// What is known of a revision.
    pub fn known(&self, id: RevisionId) -> Option<&'w Known>
        ensures known { option_copied result ≡ known_at self.now id }
    {
        match &self.by_id {
            Some(by_id) => by_id.get(&id.0).copied(),
            None => found(self.all, id),
        }
    }
}

/// Whether the ids rise from one revision to the next.
fn do_ids_rise(all: &[Known]) -> bool
    ensures rise { IsTrue result ↔ AreRising all.now }
{
    all.is_sorted_by(|known, next| known.id.0 < next.id.0)
}

/// The revision with the id: mostly where the ids say that it stands, else by a binary search.
fn found<'w>(all: &'w [Known], id: RevisionId) -> Option<&'w Known>
    requires rising { AreRising all.now }
    ensures known { option_copied result ≡ known_at all.now id }
{
    if let Some(known) = guessed(all, id) {
        return Some(known);
    }
    match all.binary_search_by_key(&id.0, |known| known.id.0) {
        Ok(place) => all.get(place),
        Err(_) => None,
    }
}

/// The revision with the id, if it stands as far from the first as their ids lie apart, as it does where no id is left out.
fn guessed<'w>(all: &'w [Known], id: RevisionId) -> Option<&'w Known>
    requires rising { AreRising all.now }
    ensures known { IfSome result (λ known. known_at all.now id ≡ Some known.now) }
{
    let place = distance(all, id)?;
    match all.get(place) {
        Some(known) if known.id.0 == id.0 => Some(known),
        _ => None,
    }
}

/// How far the id is above that of the first revision.
fn distance(all: &[Known], id: RevisionId) -> Option<usize> {
    match all.first() {
        Some(first) if first.id.0 <= id.0 => Some((id.0 - first.id.0) as usize),
        _ => None,
    }
}

/// The first revision of each id.
fn first_by_id<'w>(alloc: Global, all: &'w [Known]) -> Result<BTreeMap<u32, &'w Known>, AllocError>
    ensures index { IfOk result (λ by_id. IsIndexOf by_id all.now) }
{
    let mut by_id = BTreeMap::new(alloc);
    for known in all {
        if !by_id.contains_key(&known.id.0) {
            by_id.insert(known.id.0, known)?;
        }
    }
    Ok(by_id)
}
