//! A folder of the file system and those below it, listed one after another.

ghost use Rattle.std.specs.Prelude.{IfOk};
ghost use Rattle.osgi_outside.specs.Shelves.{IsInOrder, KeepsLimits};

use crate::dir_shelf::{MAX_FOLDERS, MAX_LEVELS};
use crate::gathered::Gathered;
use crate::shelf::Found;
use osgi_base::Text;
use std::alloc::{AllocError, Global};
use std::fs::DirEntry;
use std::io::ErrorKind;
use std::rt::Files;
use std::{fs, io};

/// Why a location was not read.
#[derive(Clone, Copy, PartialEq, Eq)]
pub enum Trouble {
    OutOfMemory,
    Unreadable,
}

impl From<AllocError> for Trouble {
    fn from(_error: AllocError) -> Trouble {
        Trouble::OutOfMemory
    }
}

impl From<io::Error> for Trouble {
    fn from(error: io::Error) -> Trouble {
        if error.kind() == ErrorKind::OutOfMemory {
            return Trouble::OutOfMemory;
        }
        Trouble::Unreadable
    }
}

/// A folder that is still to be listed.
#[derive(Drop)]
struct Unlisted {
    /// Its path from the location's folder: empty, or ending in `/`.
    path: String,
    /// How many levels below the location's folder it lies.
    level: u32,
}

/// What was met below a location.
#[derive(Drop)]
struct Met {
    unlisted: Vec<Unlisted>,
    gathered: Gathered,
}

/// What stands at a location.
pub fn found_at<R: Files + AllocGlobal + Clone + Drop>(
    rt: &R,
    alloc: Global,
    location: &Text,
) -> Result<Found, Trouble>
    ensures limits { IfOk result (λ found. KeepsLimits found) }
    ensures order { IfOk result (λ found. IsInOrder found) }
{
    let Ok(location) = str::from_utf8(location.bytes()) else {
        return Err(Trouble::Unreadable);
    };
    if !is_folder(rt, location)? {
        return Ok(Found::NoFolder);
    }
    let root = joined(alloc, location, "/")?;
    Ok(walked(rt, alloc, root.as_str())?.into_found()?)
}

/// Whether a folder stands at a path, or at the end of its links.
fn is_folder<R: Files>(rt: &R, path: &str) -> Result<bool, Trouble> {
    match fs::metadata(rt, path) {
        Ok(metadata) => Ok(metadata.is_dir()),
        Err(error) if is_nothing(error.kind()) => Ok(false),
        Err(error) => Err(Trouble::from(error)),
    }
}

/// Whether nothing stands at a path.
fn is_nothing(kind: ErrorKind) -> bool {
    kind == ErrorKind::NotFound || kind == ErrorKind::NotADirectory
}

/// Two texts as one.
fn joined(alloc: Global, first: &str, second: &str) -> Result<String, AllocError> {
    let mut whole = String::from_str(alloc, first)?;
    whole.push_str(second)?;
    Ok(whole)
}

/// The files below a folder, whose path ends in `/`.
fn walked<R: Files + AllocGlobal + Clone + Drop>(
    rt: &R,
    alloc: Global,
    root: &str,
) -> Result<Gathered, Trouble> {
    let mut met = Met::start(alloc)?;
    for _ in 0..=MAX_FOLDERS {
        match met.unlisted.pop() {
            Some(folder) => list(rt, alloc, root, &folder, &mut met)?,
            None => return Ok(met.gathered),
        }
    }
    Err(Trouble::Unreadable)
}

/// Lists one folder.
fn list<R: Files + AllocGlobal + Clone + Drop>(
    rt: &R,
    alloc: Global,
    root: &str,
    folder: &Unlisted,
    met: &mut Met,
) -> Result<(), Trouble> {
    let at = joined(alloc, root, folder.path.as_str())?;
    for entry in fs::read_dir(rt, at.as_str())? {
        met.add(rt, alloc, folder, &entry?)?;
    }
    Ok(())
}

impl Met {
    /// Nothing but the location's folder.
    fn start(alloc: Global) -> Result<Met, AllocError> {
        let mut met = Met {
            unlisted: Vec::new(alloc),
            gathered: Gathered::new(alloc),
        };
        met.put_off(String::new(alloc), 0)?;
        Ok(met)
    }

    /// Adds what a name of a folder stands for.
    fn add<R: Files + AllocGlobal + Clone + Drop>(
        &mut self,
        rt: &R,
        alloc: Global,
        folder: &Unlisted,
        entry: &DirEntry<R, Global>,
    ) -> Result<(), Trouble> {
        let at = entry.path();
        let path = joined(alloc, folder.path.as_str(), entry.file_name())?;
        let metadata = fs::metadata(rt, at)?;
        if metadata.is_dir() {
            return self.enter(path, folder.level);
        }
        if !metadata.is_file() {
            return Err(Trouble::Unreadable);
        }
        let path = Text::from_vec(alloc, path.into_bytes())?;
        self.gathered.add(rt, alloc, at, path, metadata.len())
    }

    /// Adds a folder in one of a level.
    fn enter(&mut self, path: String, level: u32) -> Result<(), Trouble> {
        if level >= MAX_LEVELS || self.unlisted.len() >= MAX_FOLDERS as usize {
            return Err(Trouble::Unreadable);
        }
        let mut path = path;
        path.push('/')?;
        self.put_off(path, level + 1)?;
        Ok(())
    }

    fn put_off(&mut self, path: String, level: u32) -> Result<(), AllocError> {
        self.unlisted.push(Unlisted { path, level })?;
        Ok(())
    }
}
