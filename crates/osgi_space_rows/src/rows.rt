//! Rows: which revision is wired to which, and what payloads export and use. Revisions are the numbers of their ids, packages
//! the numbers of their names.

ghost use Rattle.std.specs.Prelude.{◌≡◌};
ghost use Rattle.osgi_space_rows.specs.Rows.{no_rows};

use crate::spots::Spots;
use crate::table::Table;
use std::alloc::Global;

/// The revision has a wire for the package to the provider.
#[derive(Clone, Copy, PartialEq, Eq)]
pub struct Import {
    pub revision: u32,
    pub imported: u32,
    pub provider: u32,
}

/// The revision has a wire for a required bundle to the provider.
#[derive(Clone, Copy, PartialEq, Eq)]
pub struct Required {
    pub revision: u32,
    pub provider: u32,
    /// Whether those who require the revision see what the provider gives.
    pub reexport: bool,
}

/// The fragment is attached to the host.
#[derive(Clone, Copy, PartialEq, Eq)]
pub struct Attachment {
    pub host: u32,
    pub fragment: u32,
}

/// The owner has an export of the package.
#[derive(Clone, Copy, PartialEq, Eq)]
pub struct Export {
    pub owner: u32,
    pub exported: u32,
}

/// An export of a package that the owner has uses another package.
#[derive(Clone, Copy, PartialEq, Eq)]
pub struct Use {
    pub owner: u32,
    pub exported: u32,
    pub used: u32,
}

/// Rows, found by the numbers that they begin with. Each kind can be added to, and its last row taken off.
pub struct Rows {
    pub imports: Spots<Import>,
    pub required: Table<Required>,
    pub attached: Table<Attachment>,
    pub exports: Spots<Export>,
    pub uses: Spots<Use>,
}

/// Not derived, so that each exit at which one is dropped is a single call, which is cheap to prove.
impl Drop for Rows {
    fn drop(self) {
        let Rows {
            imports: _,
            required: _,
            attached: _,
            exports: _,
            uses: _,
        } = self;
    }
}

impl Rows {
    pub fn new(alloc: Global) -> Rows
        ensures empty { result ≡ no_rows }
    {
        Rows {
            imports: Spots::new(alloc),
            required: Table::new(alloc),
            attached: Table::new(alloc),
            exports: Spots::new(alloc),
            uses: Spots::new(alloc),
        }
    }
}
