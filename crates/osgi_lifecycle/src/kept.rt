//! What a plan keeps for its later steps.

ghost use Rattle.std.specs.Prelude.{◌≡◌, ◌∷◌, [], MatchOption, unwrap_or};
ghost use Rattle.osgi_lifecycle.specs.Following.{ahead};

use osgi_base::{BundleId, List, Text};
use std::mem;

pub struct Kept {
    /// What a later operation needs: the location of an update, the class that is to be loaded.
    pub text: Text,
    /// The bundles that a refresh or a change of level starts and stops.
    pub bundles: Vec<BundleId>,
    /// How many of them were started or stopped, from the first on. On the way back of a refresh they are taken from the end.
    pub place: usize,
}

/// Not derived, so that each exit at which one is dropped is a single call, which is cheap to prove.
impl Drop for Kept {
    fn drop(self) {
        let Kept {
            text: _,
            bundles: _,
            place: _,
        } = self;
    }
}

impl Kept {
    /// The text.
    pub fn take_text(&mut self) -> Text
        ensures text { result ≡ self.old.text }
    {
        mem::replace(&mut self.text, Text::empty())
    }

    /// These bundles are next, if any were named.
    pub fn put_bundles(&mut self, named: Option<List<BundleId>>)
        ensures bundles { self.new.bundles.items ≡ unwrap_or named [] }
        ensures ahead { ahead self.new ≡ unwrap_or named [] }
    {
        self.place = 0;
        match named {
            Some(bundles) => self.bundles = bundles.into_items(),
            None => self.bundles.clear(),
        }
    }

    /// The next of the bundles, from the first on.
    pub fn next_bundle(&mut self) -> Option<BundleId>
        ensures bundle { MatchOption result (ahead self.old ≡ []) (λ bundle.
            ahead self.old ≡ bundle ∷ ahead self.new) }
        ensures bundles { self.new.bundles.items ≡ self.old.bundles.items }
    {
        let bundle = *self.bundles.get(self.place)?;
        self.place += 1;
        Some(bundle)
    }
}
