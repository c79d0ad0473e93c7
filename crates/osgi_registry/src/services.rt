//! The live services, one after another.

ghost use Rattle.std.specs.Prelude.{◌≡◌, length};
ghost use Rattle.std.specs.Iterator.{at_most};
ghost use Rattle.std.specs.Map.Iter.{TakesFirst, deref};
ghost use Rattle.osgi_registry.specs.Rows.{services_in};
ghost use Rattle.osgi_ops.specs.declared.service.Service as declared;

use crate::held::Held;
use osgi_ops::Service;
use std::collections::btree_map::Values;
use std::marker::Model;

/// The services that are left to give, by rising id.
#[derive(Drop)]
pub struct Services<'a> {
    held: Values<'a, u64, Held>,
}

impl<'a> Model for Services<'a> {
    ghost use Rattle.std.specs.Prelude.{List};
    ghost use Rattle.osgi_ops.specs.declared.service.Service.{Service};
    ghost use Rattle.osgi_registry.specs.Rows.{services_in};
    ghost use Rattle.std.specs.Coded.{codes};
    ghost use Rattle.osgi_model.specs.contracts.value.Value as value;

    ghost Value = { List Service };

    ghost coded = { Prim.hlevel (codes, value.the_row.coded) };

    ghost view = { λ s. services_in s.held };
}

impl<'a> Services<'a> {
    pub(crate) fn new(held: Values<'a, u64, Held>) -> Services<'a>
        ensures services { result ≡ services_in held.entry }
    {
        Services { held }
    }
}

impl<'a> Iterator for Services<'a> {
    type Item = &'a Service;

    ghost next_gives = { TakesFirst (deref {X = declared.Service}) };

    ghost remaining = { λ s. at_most (length s) };

    fn next(&mut self) -> Option<&'a Service> {
        let held = self.held.next()?;
        Some(held.service())
    }
}
