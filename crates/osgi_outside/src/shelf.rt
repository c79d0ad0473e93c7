//! Where bundles are found.

ghost use Rattle.std.specs.Prelude.{◌≡◌, ◌≤◌, ℕ, List, Option, IfOk, OnErr};
ghost use Rattle.osgi_base.specs.declared.folder.Folder.{Folder};

use osgi_base::{Folder, Text};
use std::alloc::{AllocError, Global};

/// The most bytes that the files of a folder may have together.
pub const MAX_BYTES: u64 = 4_194_304;

/// The most files that a folder may have.
pub const MAX_FILES: u32 = 4_096;

/// What stands at a location.
#[derive(Drop, PartialEq, Eq)]
pub enum Found {
    /// A folder of at most `MAX_BYTES` bytes in at most `MAX_FILES` files.
    Folder(Folder),
    /// Nothing.
    NoFolder,
    /// A folder with more bytes or more files. The two numbers are those of all its files, or the
    /// greatest of their types.
    TooLarge { bytes: u64, files: u32 },
    /// The read failed.
    Failed,
}

/// A place that bundles are installed from, each by its location. It counts its failures.
pub trait Shelf {
    ghost use Rattle.osgi_outside.specs.Shelves.{IsAsTold, KeepsLimits, RoseWhereFailed};

    /// The folders with their locations, if the shelf exposes them. The first of a location counts.
    ghost told: { Self → Option (List (List ℕ × Folder)) };

    /// How often a read has failed.
    ghost faults: { Self → ℕ };

    /// Reads the folder at a location. If memory runs out, the shelf is as before.
    fn read(&mut self, alloc: Global, location: &Text) -> Result<Found, AllocError>
        ensures told { told self.new ≡ told self.old }
        ensures answer { IfOk result (λ found. IsAsTold (told self.old) location.now found) }
        ensures limits { IfOk result (λ found. KeepsLimits found) }
        ensures later { faults self.old ≤ faults self.new }
        ensures cause { IfOk result (λ found. RoseWhereFailed (faults self.old) (faults self.new) found) }
        ensures unchanged { OnErr result (self.new ≡ self.old) };

    /// How often a read has failed. The count stands still at the end of its type.
    fn count(&self) -> u64
        ensures faults { result ≡ faults self.now };
}
