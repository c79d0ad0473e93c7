//! How often each of a service's users but the first holds it.

ghost use Rattle.std.specs.Prelude.{◌≡◌, ◌==◌, ◌+◌, ◌<◌, ◌-◌, nat_lt, filter, not, [], OnOk, OnErr};
ghost use Rattle.std.specs.Bool.{OnTrue, OnFalse};
ghost use Rattle.osgi_registry_index.specs.Counts.{count_of, with_count};

use indexmap::IndexMap;
use osgi_base::BundleId;
use std::alloc::{AllocError, Global};
use std::marker::Model;

/// The counts of uses by the ids of the users, in the order of their first uses.
///
/// Most services have none. They stand behind a pointer, so that where there are none they take no memory but its own.
#[derive(Drop)]
pub struct Others {
    counts: Option<Box<IndexMap<u32, u64>>>,
}

impl Model for Others {
    ghost use Rattle.std.specs.Prelude.{ℕ, List, []};
    ghost use Rattle.std.specs.Option.{option_map_or};

    ghost Value = { List (ℕ × ℕ) };

    ghost view = { λ o. option_map_or (λ counts. counts.value.entries) o.counts [] };
}

impl Others {
    /// Nobody else uses it.
    pub fn none() -> Others
        ensures none { result ≡ [] }
    {
        Others { counts: None }
    }

    /// Whether nobody else ever used it.
    pub fn is_none(&self) -> bool
        ensures none { OnTrue result (self.now ≡ []) }
    {
        self.counts.is_none()
    }

    /// Counts one more use by the user.
    pub fn add(&mut self, alloc: Global, user: BundleId) -> Result<(), AllocError>
        requires room { count_of user self.old < u64.MAX }
        ensures added { OnOk result
            (self.new ≡ with_count user (count_of user self.old + 1) self.old) }
        ensures unchanged { OnErr result (self.new ≡ self.old) }
    {
        if let Some(counts) = &mut self.counts {
            return add_to(counts, user);
        }
        let mut counts = IndexMap::new(alloc);
        counts.insert(user.0, 1)?;
        self.counts = Some(Box::new(alloc, counts)?);
        Ok(())
    }

    /// Whether the user's count is above 0.
    pub fn is_counted(&self, user: BundleId) -> bool
        ensures counted { result ≡ nat_lt 0 (count_of user self.now) }
    {
        match &self.counts {
            Some(counts) => is_in(counts, user),
            None => false,
        }
    }

    /// Counts one use less by the user, and answers whether there was one.
    pub fn take(&mut self, user: BundleId) -> bool
        ensures answer { result ≡ nat_lt 0 (count_of user self.old) }
        ensures taken { OnTrue result
            (self.new ≡ with_count user (count_of user self.old - 1) self.old) }
        ensures unchanged { OnFalse result (self.new ≡ self.old) }
    {
        let Some(counts) = &mut self.counts else {
            return false;
        };
        take_from(counts, user)
    }

    /// Forgets the uses by the user.
    pub fn forget(&mut self, user: BundleId)
        ensures forgotten { self.new ≡ filter (λ other. not (user.0 == other.0)) self.old }
    {
        if let Some(counts) = &mut self.counts {
            forget_from(counts, user);
        }
    }
}

/// Takes one from the count, if it is not 0.
pub fn take_one(count: &mut u64) -> bool
    ensures answer { result ≡ nat_lt 0 count.old }
    ensures taken { count.new ≡ count.old - 1 }
    ensures unchanged { OnFalse result (count.new ≡ count.old) }
{
    if *count == 0 {
        return false;
    }
    *count -= 1;
    true
}

fn add_to(uses: &mut IndexMap<u32, u64>, user: BundleId) -> Result<(), AllocError>
    requires room { count_of user uses.old.entries < u64.MAX }
    ensures added { OnOk result
        (uses.new.entries ≡ with_count user (count_of user uses.old.entries + 1) uses.old.entries) }
    ensures unchanged { OnErr result (uses.new.entries ≡ uses.old.entries) }
{
    let count = uses.get(&user.0).copied().unwrap_or(0);
    uses.insert(user.0, count + 1)?;
    Ok(())
}

fn is_in(uses: &IndexMap<u32, u64>, user: BundleId) -> bool
    ensures counted { result ≡ nat_lt 0 (count_of user uses.now.entries) }
{
    match uses.get(&user.0) {
        Some(count) => *count > 0,
        None => false,
    }
}

fn take_from(uses: &mut IndexMap<u32, u64>, user: BundleId) -> bool
    ensures answer { result ≡ nat_lt 0 (count_of user uses.old.entries) }
    ensures taken { OnTrue result
        (uses.new.entries ≡ with_count user (count_of user uses.old.entries - 1) uses.old.entries) }
    ensures unchanged { OnFalse result (uses.new.entries ≡ uses.old.entries) }
{
    let Some(count) = uses.get_mut(&user.0) else {
        return false;
    };
    take_one(count)
}

fn forget_from(uses: &mut IndexMap<u32, u64>, user: BundleId)
    ensures forgotten { uses.new.entries
        ≡ filter (λ other. not (user.0 == other.0)) uses.old.entries }
{
    uses.shift_remove(&user.0);
}
