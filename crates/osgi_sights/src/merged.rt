//! Two lists of rising ids as one.

ghost use Rattle.std.specs.Prelude.{◌≡◌};
ghost use Rattle.std.specs.Iterator.{YieldsFirst, item_count};
ghost use Rattle.osgi_sights.specs.computed.Asking.{merged};

use osgi_base::ListenerId;
use std::marker::Model;

/// The listeners that are left of two lists, the lowest first.
#[derive(Drop)]
pub struct Merged<'a> {
    ones: &'a [ListenerId],
    others: &'a [ListenerId],
}

impl<'a> Model for Merged<'a> {
    ghost use Rattle.std.specs.Prelude.{List};
    ghost use Rattle.osgi_base.specs.declared.ids.ListenerId.{ListenerId};
    ghost use Rattle.osgi_sights.specs.computed.Asking.{merged};

    ghost Value = { List ListenerId };

    ghost view = { λ m. merged m.ones.now m.others.now };
}

impl<'a> Merged<'a> {
    pub fn new(ones: &'a [ListenerId], others: &'a [ListenerId]) -> Merged<'a>
        ensures merged { result ≡ merged ones.now others.now }
    {
        Merged { ones, others }
    }
}

impl<'a> Iterator for Merged<'a> {
    type Item = ListenerId;

    ghost next_gives = { YieldsFirst (λ left. left) };

    ghost remaining = { item_count (λ left. left) };

    fn next(&mut self) -> Option<ListenerId> {
        let Some((one, ones)) = self.ones.split_first() else {
            let (other, others) = self.others.split_first()?;
            self.others = others;
            return Some(*other);
        };
        if let Some((other, others)) = self.others.split_first() {
            if other.0 < one.0 {
                self.others = others;
                return Some(*other);
            }
        }
        self.ones = ones;
        Some(*one)
    }
}
