//! Where the candidates of each provider stand.

use osgi_base::{NumberMap, RevisionId};
use osgi_world::{CapRef, Choice};
use std::alloc::{AllocError, Global};

/// A candidate, by its row and its place there.
#[derive(Clone, Copy)]
pub struct Spot {
    pub row: usize,
    pub place: usize,
}

/// The candidates of each provider, by their spots. Contracts say nothing of them: whose candidate stands at a spot is looked at
/// where it is taken out.
#[derive(Drop)]
pub struct Spots {
    alloc: Global,
    by_provider: NumberMap<Vec<Spot>>,
}

impl Spots {
    pub fn new(alloc: Global, choices: &[Choice]) -> Result<Spots, AllocError> {
        let mut spots = Spots {
            alloc,
            by_provider: NumberMap::new(alloc),
        };
        for row in 0..choices.len() {
            spots.add_row(row, choices[row].candidates.items())?;
        }
        Ok(spots)
    }

    fn add_row(&mut self, row: usize, candidates: &[CapRef]) -> Result<(), AllocError> {
        for place in 0..candidates.len() {
            self.add(candidates[place].provider, Spot { row, place })?;
        }
        Ok(())
    }

    fn add(&mut self, provider: RevisionId, spot: Spot) -> Result<(), AllocError> {
        if let Some(spots) = self.by_provider.get_mut(provider.0) {
            spots.push(spot)?;
            return Ok(());
        }
        let mut spots = Vec::with_capacity(self.alloc, 1)?;
        spots.push(spot)?;
        self.by_provider.insert(provider.0, spots)?;
        Ok(())
    }

    /// Those of one provider.
    pub fn of(&self, provider: RevisionId) -> &[Spot] {
        match self.by_provider.get(provider.0) {
            Some(spots) => spots.as_slice(),
            None => &[],
        }
    }
}
