//! The places of the services of each class, best first.

ghost use Rattle.std.specs.Prelude.{◌≡◌, List, ℕ, [], ◌∷◌, OnOk, OnErr, true, false};
ghost use Rattle.std.specs.Option.{option_map_or};

use crate::place::Place;
use osgi_base::Text;
use std::alloc::{AllocError, Global};
use std::collections::{BTreeMap, BTreeSet};

/// The places of the services of each class, in their order. A class without services is not kept.
///
/// A place has the id of its service, and nothing else that changes with it but its ranking: so a service that keeps its ranking
/// keeps its places.
#[derive(Drop)]
pub struct ClassIndex {
    alloc: Global,
    classes: BTreeMap<Text, BTreeSet<Place>>,
}

impl ClassIndex {
    ghost use Rattle.osgi_registry_index.specs.Places.{classes_in, holds, HoldsSame, IsFresh, Moves, places_at, Puts, same_place, StandsUnder};
    ghost use Rattle.osgi_registry_index.specs.declared.place.Place.{Place};

    pub fn new(alloc: Global) -> ClassIndex
        ensures empty { (c : List ℕ) (p : Place) → holds (classes_in result) c p ≡ false }
    {
        ClassIndex {
            alloc,
            classes: BTreeMap::new(alloc),
        }
    }

    /// Adds the place under the class.
    fn add(&mut self, class: &Text, place: Place) -> Result<(), AllocError>
        ensures added { OnOk result
            (Puts (classes_in self.old) (classes_in self.new) (class.now ∷ []) place true) }
        ensures unchanged { OnErr result (HoldsSame (classes_in self.old) (classes_in self.new)) }
    {
        if let Some(places) = self.classes.get_mut(class) {
            places.insert(place)?;
            return Ok(());
        }
        let mut places = BTreeSet::new(self.alloc);
        places.insert(place)?;
        self.classes.insert(class.copy(self.alloc)?, places)?;
        Ok(())
    }

    /// Takes out the place under the class.
    fn take(&mut self, class: &Text, place: Place)
        ensures taken { Puts (classes_in self.old) (classes_in self.new) (class.now ∷ []) place
            false }
    {
        let Some(places) = self.classes.get_mut(class) else {
            return;
        };
        places.remove(&place);
        if places.is_empty() {
            self.classes.remove(class);
        }
    }

    /// Takes out the place under the classes.
    pub fn take_all(&mut self, classes: &[Text], place: Place)
        ensures taken { Puts (classes_in self.old) (classes_in self.new) classes.now place false }
    {
        for class in classes {
            self.take(class, place);
        }
    }

    /// Adds the place under the classes. If memory runs out, it stands under none of them.
    pub fn add_all(&mut self, classes: &[Text], place: Place) -> Result<(), AllocError>
        requires { IsFresh (classes_in self.old) place }
        ensures added { OnOk result
            (Puts (classes_in self.old) (classes_in self.new) classes.now place true) }
        ensures unchanged { OnErr result (HoldsSame (classes_in self.old) (classes_in self.new)) }
    {
        for class in classes {
            if let Err(error) = self.add(class, place) {
                self.take_all(classes, place);
                return Err(error);
            }
        }
        Ok(())
    }

    /// Puts one place in the stead of another under the classes. If memory runs out, nothing changes.
    pub fn move_all(&mut self, classes: &[Text], from: Place, to: Place) -> Result<(), AllocError>
        requires stands { StandsUnder (classes_in self.old) classes.now from }
        requires fresh { same_place from to ≡ false → IsFresh (classes_in self.old) to }
        ensures moved { OnOk result
            (Moves (classes_in self.old) (classes_in self.new) classes.now from to) }
        ensures unchanged { OnErr result (HoldsSame (classes_in self.old) (classes_in self.new)) }
    {
        if from == to {
            return Ok(());
        }
        self.add_all(classes, to)?;
        self.take_all(classes, from);
        Ok(())
    }

    /// The places of the class, in their order.
    pub fn places(&self, class: &Text) -> Option<&BTreeSet<Place>>
        ensures places { option_map_or (λ places. places.now.keys) result []
            ≡ places_at (classes_in self.now) class.now }
    {
        self.classes.get(class)
    }
}
