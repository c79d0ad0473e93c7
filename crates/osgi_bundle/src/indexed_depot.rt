//! The depot, found by location without a scan.

ghost use Rattle.std.specs.Prelude.{◌≡◌, ◌<◌, length, None, Some, IfOk, MatchOption};
ghost use Rattle.osgi_bundle.specs.computed.Places.{AreFirstPlaces};
ghost use Rattle.osgi_ops.specs.Depots.{row_number, stored_at};

use osgi_base::Text;
use osgi_ops::{Depot, DepotRow, Stored};
use std::alloc::{AllocError, Global};
use std::collections::BTreeMap;
use std::marker::Model;

/// A depot with an index by location. Contracts see the depot.
#[derive(Drop)]
pub struct IndexedDepot {
    depot: Depot,
    places: BTreeMap<Text, u32>,
}

impl Model for IndexedDepot {
    ghost use Rattle.osgi_bundle.specs.computed.Places.{AreFirstPlaces};
    ghost use Rattle.osgi_ops.specs.declared.depot.Depot.{Depot};
    ghost use Rattle.std.specs.Coded.{codes};
    ghost use Rattle.osgi_model.specs.contracts.filter.Filter as filter;
    ghost use Rattle.osgi_model.specs.contracts.value.Value as value;

    ghost Value = { Depot };

    ghost coded = { Prim.hlevel (codes, filter.the_row.coded, value.the_row.coded) };

    ghost view = { λ d. d.depot };

    ghost invariant = { λ d. AreFirstPlaces d.places d.depot.rows };
}

impl IndexedDepot {
    pub fn new(alloc: Global, depot: Depot) -> Result<IndexedDepot, AllocError>
        ensures depot { IfOk result (λ made. made ≡ depot) }
    {
        let places = first_places(alloc, depot.rows.items())?;
        Ok(IndexedDepot { depot, places })
    }

    /// What the depot has at a location, with the number of its row.
    pub fn find(&self, location: &Text) -> Option<(u32, &Stored)>
        ensures found { MatchOption result (stored_at self.now.rows location.now ≡ None) (λ r.
            (stored_at self.now.rows location.now ≡ Some r.1.now)
            × (r.0 ≡ row_number self.now.rows location.now)) }
    {
        let &place = self.places.get(location)?;
        Some((place, &self.depot.rows.items()[place as usize].stored))
    }

    /// The depot, without a copy.
    pub fn into_depot(self) -> Depot
        ensures depot { result ≡ self }
    {
        self.depot
    }
}

/// The number of the first row of each location.
fn first_places(alloc: Global, rows: &[DepotRow]) -> Result<BTreeMap<Text, u32>, AllocError>
    requires fit { length rows.now < u32.MAX }
    ensures places { IfOk result (λ places. AreFirstPlaces places rows.now) }
{
    let mut places = BTreeMap::new(alloc);
    let mut number = 0;
    for row in rows {
        if !places.contains_key(&row.location) {
            places.insert(row.location.copy(alloc)?, number)?;
        }
        number += 1;
    }
    Ok(places)
}
