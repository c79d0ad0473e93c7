//! Qualifiers of versions. Contracts see one as the list of its bytes.

ghost use Rattle.std.specs.Prelude.{◌≡◌, ◌==◌, ◌↔◌, [], IfOk, IsTrue};
ghost use Rattle.std.proofs.Common.{rules};
ghost use Rattle.std.specs.Cmp.{partial_order_from_own_ties};
ghost use Rattle.std.specs.Cmp.Lexicographic.{slice_cmp, pointwise, bytes_decides};
ghost use Rattle.std.specs.Cmp.Rules.{comparing};
ghost use Rattle.std.specs.Ordering.{nat_cmp, as_partial_cmp};
ghost use Rattle.osgi_version.specs.Bytes.{Each, IsWordByte};

use osgi_base::{Copied, ExactEq, Text};
use std::alloc::{AllocError, Global};
use std::cmp::Ordering;
use std::marker::Model;

/// The last part of a version: letters, digits, `_` and `-`. It may be empty.
///
/// Qualifiers are equal where their bytes are, and ordered by their bytes.
#[derive(Drop)]
pub struct Qualifier {
    bytes: Text,
}

impl Model for Qualifier {
    ghost use Rattle.std.specs.Prelude.{ℕ, List};
    ghost use Rattle.osgi_version.specs.Bytes.{Each, IsWordByte};

    ghost Value = { List ℕ };

    ghost view = { λ q. q.bytes };

    ghost invariant = { λ q. Each IsWordByte q.bytes };
}

impl Qualifier {
    pub fn empty() -> Qualifier
        ensures bytes { result ≡ [] }
    {
        Qualifier {
            bytes: Text::empty(),
        }
    }

    /// A qualifier of these bytes.
    pub fn of(alloc: Global, bytes: &[u8]) -> Result<Qualifier, AllocError>
        requires words { Each IsWordByte bytes.now }
        ensures bytes { IfOk result (λ qualifier. qualifier ≡ bytes.now) }
    {
        Ok(Qualifier {
            bytes: Text::of(alloc, bytes)?,
        })
    }

    pub fn bytes(&self) -> &[u8]
        ensures bytes { result.now ≡ self.now }
        ensures words { Each IsWordByte self.now }
    {
        self.bytes.bytes()
    }

    pub fn copy(&self, alloc: Global) -> Result<Qualifier, AllocError>
        ensures same { IfOk result (λ copy. copy ≡ self.now) }
    {
        Ok(Qualifier {
            bytes: self.bytes.copy(alloc)?,
        })
    }
}

impl Copied for Qualifier {
    fn copied(&self, alloc: Global) -> Result<Qualifier, AllocError> {
        self.copy(alloc)
    }
}

impl PartialEq for Qualifier {
    ghost eq = { pointwise ◌==◌ };

    ghost laws = { Prim.search (comparing, rules) };

    fn eq(&self, other: &Qualifier) -> bool
        ensures bytes { result ≡ pointwise ◌==◌ self.now other.now }
        ensures same { IsTrue result ↔ self.now ≡ other.now }
    {
        self.bytes() == other.bytes()
    }
}

impl Eq for Qualifier {
    ghost laws = { Prim.search (comparing, rules) };
}

impl ExactEq for Qualifier {
    ghost exact = { bytes_decides };
}

impl PartialOrd for Qualifier {
    ghost partial_cmp = { as_partial_cmp (slice_cmp nat_cmp) };

    ghost laws = { partial_order_from_own_ties (Prim.search (comparing, rules)) (Prim.search (comparing, rules)) };

    fn partial_cmp(&self, other: &Qualifier) -> Option<Ordering> {
        Some(self.cmp(other))
    }
}

impl Ord for Qualifier {
    ghost cmp = { slice_cmp nat_cmp };

    ghost total = { Prim.search (comparing, rules) };

    ghost matches_partial_cmp = { Prim.search (comparing, rules) };

    ghost matches_eq = { Prim.search (comparing, rules) };

    fn cmp(&self, other: &Qualifier) -> Ordering {
        self.bytes().cmp(other.bytes())
    }
}
