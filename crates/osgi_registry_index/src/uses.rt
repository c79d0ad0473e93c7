//! How often each user holds a service.

ghost use Rattle.std.specs.Prelude.{◌≡◌, ◌==◌, ◌+◌, ◌<◌, ◌-◌, nat_lt, filter, not, [], OnOk, OnErr};
ghost use Rattle.std.specs.Bool.{OnTrue, OnFalse};
ghost use Rattle.osgi_registry_index.specs.Counts.{count_of, with_count};
ghost use Rattle.osgi_registry_index.specs.computed.Uses.{all_uses};

use crate::others::{Others, take_one};
use osgi_base::BundleId;
use std::alloc::{AllocError, Global};
use std::marker::Model;

/// The counts of uses by the ids of the users, in the order of their first uses.
///
/// Most services have one user. It stands beside the others, so that its count takes no memory of its own.
#[derive(Drop)]
pub struct Uses {
    first: Option<(u32, u64)>,
    others: Others,
}

impl Model for Uses {
    ghost use Rattle.std.specs.Prelude.{ℕ, List};
    ghost use Rattle.osgi_registry_index.specs.computed.Uses.{all_uses};

    ghost Value = { List (ℕ × ℕ) };

    ghost view = { λ u. all_uses u.first u.others };
}

impl Uses {
    /// Nobody uses it yet.
    pub fn new() -> Uses
        ensures none { result ≡ [] }
    {
        Uses {
            first: None,
            others: Others::none(),
        }
    }

    /// Counts one more use by the user.
    pub fn add(&mut self, alloc: Global, user: BundleId) -> Result<(), AllocError>
        requires room { count_of user self.old < u64.MAX }
        ensures added { OnOk result
            (self.new ≡ with_count user (count_of user self.old + 1) self.old) }
        ensures unchanged { OnErr result (self.new ≡ self.old) }
    {
        if let Some((first, count)) = &mut self.first {
            if *first == user.0 {
                *count += 1;
                return Ok(());
            }
        } else if self.others.is_none() {
            self.first = Some((user.0, 1));
            return Ok(());
        }
        self.others.add(alloc, user)
    }

    /// Whether the user's count is above 0.
    pub fn is_counted(&self, user: BundleId) -> bool
        ensures counted { result ≡ nat_lt 0 (count_of user self.now) }
    {
        match self.first {
            Some((first, count)) if first == user.0 => count > 0,
            _ => self.others.is_counted(user),
        }
    }

    /// Counts one use less by the user, and answers whether there was one.
    pub fn take(&mut self, user: BundleId) -> bool
        ensures answer { result ≡ nat_lt 0 (count_of user self.old) }
        ensures taken { OnTrue result
            (self.new ≡ with_count user (count_of user self.old - 1) self.old) }
        ensures unchanged { OnFalse result (self.new ≡ self.old) }
    {
        if let Some((first, count)) = &mut self.first
            && *first == user.0
        {
            return take_one(count);
        }
        self.others.take(user)
    }

    /// Forgets the uses by the user.
    pub fn forget(&mut self, user: BundleId)
        ensures forgotten { self.new ≡ filter (λ other. not (user.0 == other.0)) self.old }
    {
        self.first = other_than(user, self.first);
        self.others.forget(user);
    }
}

/// The count, if it is of another user.
fn other_than(user: BundleId, first: Option<(u32, u64)>) -> Option<(u32, u64)>
    ensures other { all_uses result []
        ≡ filter (λ other. not (user.0 == other.0)) (all_uses first []) }
{
    let (other, _) = first?;
    if other == user.0 {
        return None;
    }
    first
}
