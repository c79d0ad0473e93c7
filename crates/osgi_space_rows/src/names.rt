//! Numbers for names.

ghost use Rattle.std.specs.Prelude.{◌≡◌, ◌↔◌, ℕ, [], ◌∷◌, ◌++◌, length, slice_get, IfOk, IsTrue, OnOk, OnErr, MatchOption};
ghost use Rattle.std.specs.Option.{option_copied};
ghost use Rattle.osgi_space_rows.specs.Names.{AreOnce, HasNumber, Interns};

use crate::digest::digest;
use osgi_base::Text;
use std::alloc::{AllocError, Global};
use std::collections::BTreeMap;
use std::marker::Model;

/// Names, each once, by the order in which they came. Contracts see the list of the names: the number of a name is its place.
///
/// A name is found by its digest, which is compared at the cost of a number. Names of one digest are told apart by an ordered
/// map of their own, so no choice of names makes a search slow, and the digest need not be a good hash.
pub struct Names {
    alloc: Global,
    texts: Vec<Text>,
    /// By each digest of a name, the first name that has it.
    by_digest: BTreeMap<u64, u32>,
    /// The names whose digest an earlier name has.
    by_text: BTreeMap<Text, u32>,
}

/// Not derived, so that each exit at which one is dropped is a single call, which is cheap to prove.
impl Drop for Names {
    fn drop(self) {
        let Names {
            alloc: _,
            texts: _,
            by_digest: _,
            by_text: _,
        } = self;
    }
}

impl Model for Names {
    ghost use Rattle.std.specs.Prelude.{List, ℕ};
    ghost use Rattle.osgi_space_rows.specs.computed.Numbers.{AreNumbersOf};

    ghost Value = { List (List ℕ) };

    ghost view = { λ n. n.texts.items };

    ghost invariant = { λ n. AreNumbersOf n.by_digest n.by_text n.texts.items };
}

impl Names {
    pub fn new(alloc: Global) -> Names
        ensures empty { result ≡ [] }
    {
        Names {
            alloc,
            texts: Vec::new(alloc),
            by_digest: BTreeMap::new(alloc),
            by_text: BTreeMap::new(alloc),
        }
    }

    /// The number of a name; None exactly where it has none.
    pub fn number(&self, text: &Text) -> Option<u32>
        ensures number { MatchOption result
            ((number : ℕ) → ¬ HasNumber self.now text.now number)
            (λ number. HasNumber self.now text.now number) }
        ensures once { AreOnce self.now }
    {
        match self.by_digest.get(&digest(text)).copied() {
            Some(number) if self.is_name(number, text) => Some(number),
            _ => self.by_text.get(text).copied(),
        }
    }

    /// Whether the name has this number.
    fn is_name(&self, number: u32, text: &Text) -> bool
        ensures is { IsTrue result ↔ HasNumber self.now text.now number }
    {
        match self.name(number) {
            Some(name) => name == text,
            None => false,
        }
    }

    /// The name with a number; None exactly where no name has it.
    pub fn name(&self, number: u32) -> Option<&Text>
        ensures name { option_copied result ≡ slice_get self.now number }
    {
        self.texts.get(number as usize)
    }

    /// The number of a name, the next if it has none yet. More names than numbers count as out of memory.
    pub fn intern(&mut self, text: &Text) -> Result<u32, AllocError>
        ensures number { IfOk result (λ number. HasNumber self.new text.now number) }
        ensures names { OnOk result (Interns self.old self.new text.now) }
        ensures once { OnOk result (AreOnce self.new) }
        ensures unchanged { OnErr result (self.new ≡ self.old) }
    {
        match self.number(text) {
            Some(number) => Ok(number),
            None => Ok(self.add(text)?),
        }
    }

    /// Adds a name that has no number.
    fn add(&mut self, text: &Text) -> Result<u32, AllocError>
        requires new { (number : ℕ) → ¬ HasNumber self.old text.now number }
        ensures number { IfOk result (λ number. number ≡ length self.old) }
        ensures added { OnOk result (self.new ≡ self.old ++ text.now ∷ []) }
        ensures once { OnOk result (AreOnce self.new) }
        ensures unchanged { OnErr result (self.new ≡ self.old) }
    {
        let Ok(next) = u32::try_from(self.texts.len()) else {
            return Err(AllocError);
        };
        let name = text.copy(self.alloc)?;
        self.texts.reserve(1)?;
        let digest = digest(text);
        if self.by_digest.contains_key(&digest) {
            self.by_text.insert(text.copy(self.alloc)?, next)?;
        } else {
            self.by_digest.insert(digest, next)?;
        }
        self.texts.push(name)?;
        Ok(next)
    }
}
