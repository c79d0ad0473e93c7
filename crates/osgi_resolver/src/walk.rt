//! A walk over the words of the problem of resolving a root in a world.

ghost use Rattle.osgi_resolver_theory.specs.WorldProblems.{the_problem};

use osgi_resolver_hopeless::{has_become_hopeless, is_hopeless};
use osgi_resolver_path::Path;
use osgi_resolver_search::Walker;
use std::alloc::{AllocError, Global};
use std::marker::Model;

/// A path of the problem that lists all candidates. Contracts see where the path stands.
#[derive(Drop)]
pub struct Walk<'w> {
    pub alloc: Global,
    pub path: Path<'w>,
}

impl<'w> Model for Walk<'w> {
    ghost use Rattle.std.specs.Coded.{codes};
    ghost use Rattle.osgi_model.specs.contracts.filter.Filter as filter;
    ghost use Rattle.osgi_model.specs.contracts.value.Value as value;
    ghost use Rattle.osgi_resolver_path.specs.Standing.{Standing};
    ghost use Rattle.osgi_resolver_theory.specs.WorldProblems.{the_problem};
    ghost use Rattle.osgi_world.specs.Candidates.{IsProblem};

    ghost Value = { Standing };

    ghost coded = { Prim.hlevel (codes, filter.the_row.coded, value.the_row.coded) };

    ghost view = { λ w. w.path };

    ghost invariant = { λ w. IsProblem (the_problem w.path.world w.path.root) };
}

impl<'w> Walker for Walk<'w> {
    ghost problem = { λ s. the_problem s.world s.root };

    ghost word = { λ s. s.word };

    fn is_hopeless(&self) -> Result<bool, AllocError> {
        is_hopeless(self.alloc, &self.path)
    }

    fn has_become_hopeless(&self) -> Result<bool, AllocError> {
        has_become_hopeless(self.alloc, &self.path)
    }

    fn is_complete(&self) -> bool {
        self.path.is_complete()
    }

    fn values(&self) -> u64 {
        self.path.values()
    }

    /// It knows none to be hopeless before it stands there.
    fn next_value(&self, from: u64) -> u64 {
        from
    }

    fn longer(&mut self, value: u64) -> Result<(), AllocError> {
        self.path.longer(value)
    }

    fn shorter(&mut self) -> Option<u64> {
        self.path.shorter()
    }
}
