//! The depot and its scripts, read from a shelf.

ghost use Rattle.std.specs.Prelude.{◌≡◌, ◌≤◌, IfOk};
ghost use Rattle.osgi_depot.specs.Depots.{AreKeptAt, IsDepotOf, IsKeptAt};
ghost use Rattle.osgi_depot.specs.computed.Rows.{AreRowsOf, IsStoredAt};
ghost use Rattle.osgi_ops.specs.declared.limits.TheConstants.{MAX_LOCATIONS};

use crate::locations::locations;
use crate::storing::{Kept, keep};
use osgi_base::{List, Text};
use osgi_ops::{Depot, DepotRow, MAX_LOCATIONS, Stored};
use osgi_outside::Shelf;
use osgi_session::{Line, Script, Scripts};
use std::alloc::{AllocError, Global};

/// The most rows that a depot may have.
const MAX_ROWS: usize = 4_294_967_294;

/// What came of the folders of a session's locations.
pub struct Folders {
    pub depot: Depot,
    /// The script of each row of the depot.
    pub scripts: Scripts,
}

/// Not derived, so that each exit at which one is dropped is a single call, which is cheap to prove.
impl Drop for Folders {
    fn drop(self) {
        let Folders {
            depot: _,
            scripts: _,
        } = self;
    }
}

impl Folders {
    /// The depot and the scripts.
    pub fn into_parts(self) -> (Depot, Scripts)
        ensures depot { result.0 ≡ self.depot }
        ensures scripts { result.1 ≡ self.scripts }
    {
        let Folders { depot, scripts } = self;
        (depot, scripts)
    }
}

/// Reads the folder of the location with this number, or skips it.
fn store<F: Shelf>(
    alloc: Global,
    shelf: &mut F,
    location: &Text,
    number: usize,
) -> Result<Kept, AllocError>
    ensures stored { IfOk result (λ kept.
        IsStoredAt MAX_LOCATIONS number (F.faults shelf.old) (F.faults shelf.new) kept.stored) }
    ensures kept { IfOk result (λ kept.
        IsKeptAt (F.told shelf.old) location.now kept.stored kept.script) }
    ensures told { F.told shelf.new ≡ F.told shelf.old }
    ensures later { F.faults shelf.old ≤ F.faults shelf.new }
{
    if number >= MAX_LOCATIONS {
        return Kept::without_script(alloc, Stored::Skipped);
    }
    let before = shelf.count();
    let found = shelf.read(alloc, location)?;
    let after = shelf.count();
    keep(alloc, found, before, after)
}

/// A row for each of the locations and the script of each row, in order.
fn read_rows<F: Shelf>(
    alloc: Global,
    shelf: &mut F,
    locations: &[Text],
) -> Result<(List<DepotRow>, List<Script>), AllocError>
    ensures rows { IfOk result (λ read.
        AreRowsOf MAX_LOCATIONS locations.now (F.faults shelf.old) (F.faults shelf.new) read.0) }
    ensures kept { IfOk result (λ read. AreKeptAt (F.told shelf.old) read.0 read.1) }
    ensures told { F.told shelf.new ≡ F.told shelf.old }
    ensures later { F.faults shelf.old ≤ F.faults shelf.new }
{
    let mut rows = List::new(alloc)?;
    let mut scripts = List::new(alloc)?;
    for (number, location) in locations.iter().enumerate() {
        let Kept { stored, script } = store(alloc, shelf, location, number)?;
        let location = location.copy(alloc)?;
        rows.push(DepotRow { location, stored })?;
        scripts.push(script)?;
    }
    Ok((rows, scripts))
}

/// Reads the folder of each location that the lines name, once, in order of first naming, up to `MAX_LOCATIONS` of them; further
/// locations are skipped. A folder that cannot be read is noted with the shelf's count of faults before and after. Each row has
/// the script of its bundle's activator, or one without sections where no revision was read or it has no activator.
///
/// If memory runs out, the shelf may have been read. No memory holds more locations than a depot may have rows, so that is the
/// answer for them too.
pub fn read_depot<F: Shelf>(
    alloc: Global,
    lines: &[Line],
    shelf: &mut F,
) -> Result<Folders, AllocError>
    ensures depot { IfOk result (λ folders.
        IsDepotOf lines.now (F.told shelf.old) (F.faults shelf.old) (F.faults shelf.new)
        folders.depot.rows folders.scripts.rows) }
    ensures told { F.told shelf.new ≡ F.told shelf.old }
    ensures later { F.faults shelf.old ≤ F.faults shelf.new }
{
    let locations = locations(alloc, lines)?;
    if locations.len() > MAX_ROWS {
        return Err(AllocError);
    }
    let (rows, scripts) = read_rows(alloc, shelf, &locations)?;
    Ok(Folders {
        depot: Depot { rows },
        scripts: Scripts { rows: scripts },
    })
}
