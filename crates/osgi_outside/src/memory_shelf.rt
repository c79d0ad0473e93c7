//! A shelf in memory, some of whose reads fail.

ghost use Rattle.std.specs.Prelude.{◌≡◌, ◌-◌, ◌^◌, ◌≤◌, Some, min, IfOk, OnOk, OnErr, if◌then◌else◌};
ghost use Rattle.std.specs.Option.{option_copied};
ghost use Rattle.osgi_outside.specs.Scripted.{is_failing, after_call};
ghost use Rattle.osgi_outside.specs.Shelves.{folder_at, bytes_of, files_of, found_of, found_at, IsAsTold, KeepsLimits, RoseWhereFailed};

use crate::fault_script::FaultScript;
use crate::shelf::{Found, MAX_BYTES, MAX_FILES, Shelf};
use crate::source::Failed;
use osgi_base::{Folder, Text};
use std::alloc::{AllocError, Global};
use std::marker::Model;

/// Folders with their locations, and the numbers of the reads that are to fail, counted from 1. The first
/// row of a location counts.
#[derive(Drop)]
pub struct MemoryShelf {
    rows: Vec<(Text, Folder)>,
    script: FaultScript,
}

impl Model for MemoryShelf {
    ghost use Rattle.osgi_outside.specs.Shelves.{ShelfState};

    ghost Value = { ShelfState };

    ghost view = { λ s. record { rows = s.rows.items; script = s.script } };
}

impl MemoryShelf {
    pub fn new(rows: Vec<(Text, Folder)>, fail: Vec<u64>) -> MemoryShelf
        ensures rows { result.rows ≡ rows.items }
        ensures fail { result.script.fail ≡ fail.items }
        ensures calls { result.script.calls ≡ 0 }
        ensures faults { result.script.faults ≡ 0 }
    {
        MemoryShelf {
            rows,
            script: FaultScript::new(fail),
        }
    }
}

impl Shelf for MemoryShelf {
    ghost told = { λ s. Some s.rows };

    ghost faults = { λ s. s.script.faults };

    /// Answers what the rows have, and fails exactly where the call is to fail.
    fn read(&mut self, alloc: Global, location: &Text) -> Result<Found, AllocError>
        ensures told { Some self.new.rows ≡ Some self.old.rows }
        ensures answer { IfOk result (λ found. IsAsTold (Some self.old.rows) location.now found) }
        ensures limits { IfOk result (λ found. KeepsLimits found) }
        ensures later { self.old.script.faults ≤ self.new.script.faults }
        ensures cause { IfOk result (λ found. RoseWhereFailed self.old.script.faults self.new.script.faults found) }
        ensures unchanged { OnErr result (self.new ≡ self.old) }
        ensures found { IfOk result (λ found. found ≡ (if is_failing self.old.script then Found.Failed else found_at self.old.rows location.now)) }
        ensures counted { OnOk result (self.new.script ≡ after_call self.old.script) }
    {
        let found = look_up(alloc, self.rows.as_slice(), location)?;
        match self.script.next() {
            Ok(()) => Ok(found),
            Err(Failed) => Ok(Found::Failed),
        }
    }

    fn count(&self) -> u64
        ensures faults { result ≡ self.now.script.faults }
    {
        self.script.faults()
    }
}

/// What the rows have at a location.
fn look_up(alloc: Global, rows: &[(Text, Folder)], location: &Text) -> Result<Found, AllocError>
    ensures found { IfOk result (λ found. found ≡ found_at rows.now location.now) }
{
    match first_at(rows, location) {
        Some(folder) => measured(alloc, folder),
        None => Ok(Found::NoFolder),
    }
}

/// The folder of the first row of a location.
fn first_at<'a>(rows: &'a [(Text, Folder)], location: &Text) -> Option<&'a Folder>
    ensures folder { option_copied result ≡ folder_at rows.now location.now }
{
    for row in rows {
        if row.0 == *location {
            return Some(&row.1);
        }
    }
    None
}

/// A copy of a folder, or its size where that is above a limit.
fn measured(alloc: Global, folder: &Folder) -> Result<Found, AllocError>
    ensures found { IfOk result (λ found. found ≡ found_of folder.now) }
{
    let bytes = total_bytes(folder);
    let files = file_count(folder);
    if bytes > MAX_BYTES || files > MAX_FILES {
        return Ok(Found::TooLarge { bytes, files });
    }
    Ok(Found::Folder(folder.copy(alloc)?))
}

fn total_bytes(folder: &Folder) -> u64
    ensures bytes { result ≡ min (bytes_of folder.now) (2 ^ 64 - 1) }
{
    let mut total: u64 = 0;
    for file in folder.files.items() {
        total = total.saturating_add(file.bytes.bytes().len() as u64);
    }
    total
}

fn file_count(folder: &Folder) -> u32
    ensures files { result ≡ min (files_of folder.now) (2 ^ 32 - 1) }
{
    let count = folder.files.items().len();
    count.min(u32::MAX as usize) as u32
}
