//! The shelf that a process has: folders of the file system.

ghost use Rattle.std.specs.Prelude.{◌≡◌, ◌≤◌, None, IfOk, OnErr};
ghost use Rattle.osgi_outside.specs.Shelves.{IsAsTold, IsInOrder, KeepsLimits, RoseWhereFailed};

use crate::counted::Counted;
use crate::dir_walk;
use crate::dir_walk::Trouble;
use crate::shelf::{Found, Shelf};
use osgi_base::Text;
use std::alloc::{AllocError, Global};
use std::rt::Files;

/// The most levels of folders below a location's folder.
pub const MAX_LEVELS: u32 = 32;

/// The most folders of a location, its own among them.
pub const MAX_FOLDERS: u32 = 65_536;

/// The file system as a shelf, by a runtime or a reference to one. It does not expose its folders.
///
/// A location is a path from the working folder, as it is written: it may be absolute, or lead up by `..`.
/// If what stands there is a folder, its files are all those in it and below it, by rising bytes of their
/// paths, whatever the order in which the file system lists them. If nothing stands there, or something
/// that is not a folder, there is no folder.
///
/// Links are followed: a link to a file is a file, one to a folder a folder, wherever they lead. Apart from
/// that, nothing outside a location's folder is read.
///
/// These fail:
/// - a location that is not UTF-8, that the system refuses as a path, or below a folder that may not be
///   searched;
/// - a name below a location that is not UTF-8;
/// - more than `MAX_LEVELS` levels of folders below a location's, so also a link to a folder that it lies in;
/// - more than `MAX_FOLDERS` folders;
/// - a file or folder that cannot be read, a link that leads nowhere among them;
/// - what is neither a file nor a folder, as a pipe: it is not opened;
/// - a file that is gone, or whose length is another, once it is read. Other changes during a read are not
///   noticed.
///
/// Files are read only while they are within the limits of a folder: those of one that is too large are
/// counted, with the lengths that the file system gives.
pub type DirShelf<R> = Counted<R>;

impl<R: Files + AllocGlobal + Clone + Drop> Shelf for Counted<R> {
    ghost told = { λ _. None };

    ghost faults = { λ s. s.faults };

    /// The files of a folder that is answered stand by rising bytes of their paths.
    fn read(&mut self, alloc: Global, location: &Text) -> Result<Found, AllocError>
        ensures answer { IfOk result (λ found. IsAsTold None location.now found) }
        ensures limits { IfOk result (λ found. KeepsLimits found) }
        ensures later { self.old.faults ≤ self.new.faults }
        ensures cause { IfOk result (λ found. RoseWhereFailed self.old.faults self.new.faults found) }
        ensures unchanged { OnErr result (self.new ≡ self.old) }
        ensures order { IfOk result (λ found. IsInOrder found) }
        ensures files { self.new.inner ≡ self.old.inner }
    {
        let found = look(&self.inner, alloc, location)?;
        if matches!(found, Found::Failed) {
            self.fail();
        }
        Ok(found)
    }

    fn count(&self) -> u64
        ensures faults { result ≡ self.now.faults }
    {
        self.faults()
    }
}

/// What stands at a location, `Failed` for all trouble but out of memory.
fn look<R: Files + AllocGlobal + Clone + Drop>(
    rt: &R,
    alloc: Global,
    location: &Text,
) -> Result<Found, AllocError>
    ensures limits { IfOk result (λ found. KeepsLimits found) }
    ensures order { IfOk result (λ found. IsInOrder found) }
{
    match dir_walk::found_at(rt, alloc, location) {
        Ok(found) => Ok(found),
        Err(Trouble::Unreadable) => Ok(Found::Failed),
        Err(Trouble::OutOfMemory) => Err(AllocError),
    }
}
