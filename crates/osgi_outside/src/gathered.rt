//! The files of a folder while they are met one after another.

ghost use Rattle.std.specs.Prelude.{◌≡◌, ◌≤◌, length, sum_by, IfOk};
ghost use Rattle.std.specs.List.Sorted.{IsPermutation, IsSortedByKey};
ghost use Rattle.std.specs.Cmp.Lexicographic.{slice_cmp};
ghost use Rattle.std.specs.Ordering.{nat_cmp};

use crate::counted::Counted;
use crate::dir_walk::Trouble;
use crate::input::{Input, read_all};
use crate::shelf::{Found, MAX_BYTES, MAX_FILES};
use osgi_base::{File, Folder, List, Text};
use std::alloc::{AllocError, Global};
use std::fs;
use std::path::Path;
use std::rt::Files;

/// The files that were met so far, how many they are, and how many bytes they have together; both numbers
/// stand still at the end of their types. Beyond a limit files are counted and no longer read.
#[derive(Drop)]
pub struct Gathered {
    files: List<File>,
    bytes: u64,
    count: u32,
    ghost bytes_counted: { sum_by (λ file. length file.bytes) files ≤ bytes },
    ghost files_counted: { length files ≤ count },
}

impl Gathered {
    ghost use Rattle.osgi_outside.specs.Shelves.{IsInOrder, KeepsLimits};

    pub fn new(alloc: Global) -> Gathered {
        Gathered {
            files: List::from(Vec::new(alloc)),
            bytes: 0,
            count: 0,
        }
    }

    /// Adds the file at a path from the working folder: its path from the location's folder, and its length.
    pub fn add<R: Files>(
        &mut self,
        rt: &R,
        alloc: Global,
        at: Path<'_>,
        path: Text,
        len: u64,
    ) -> Result<(), Trouble> {
        let bytes = self.bytes.saturating_add(len);
        let count = self.count.saturating_add(1);
        if bytes <= MAX_BYTES && count <= MAX_FILES {
            let content = content(rt, alloc, at, len)?;
            self.files.push(File {
                path,
                bytes: content,
            })?;
        }
        self.bytes = bytes;
        self.count = count;
        Ok(())
    }

    /// What the folder of these files is answered as.
    pub fn into_found(self) -> Result<Found, AllocError>
        ensures limits { IfOk result (λ found. KeepsLimits found) }
        ensures order { IfOk result (λ found. IsInOrder found) }
    {
        let Gathered {
            files,
            bytes,
            count,
        } = self;
        if bytes > MAX_BYTES || count > MAX_FILES {
            return Ok(Found::TooLarge {
                bytes,
                files: count,
            });
        }
        Ok(Found::Folder(in_order(files.into_items())?))
    }
}

/// The bytes of a file, if they are as many as is said.
fn content<R: Files>(rt: &R, alloc: Global, at: Path<'_>, len: u64) -> Result<Text, Trouble>
    ensures len { IfOk result (λ content. length content ≡ len) }
{
    let mut source = Counted::new(fs::open(rt, at)?);
    match read_all(alloc, &mut source, len as usize)? {
        Input::All(content) => of_len(content, len),
        Input::TooMuch | Input::Failed => Err(Trouble::Unreadable),
    }
}

fn of_len(content: Text, len: u64) -> Result<Text, Trouble>
    ensures len { IfOk result (λ content. length content ≡ len) }
    ensures same { IfOk result (λ same. same ≡ content) }
{
    if content.bytes().len() as u64 != len {
        return Err(Trouble::Unreadable);
    }
    Ok(content)
}

/// The folder of these files, by rising bytes of their paths.
fn in_order(files: Vec<File>) -> Result<Folder, AllocError>
    ensures moved { IfOk result (λ folder. IsPermutation files.items folder.files) }
    ensures order { IfOk result (λ folder. IsSortedByKey (λ file. file.path) (slice_cmp nat_cmp) folder.files) }
{
    let mut files = files;
    files.sort_by(|a, b| a.path.cmp(&b.path))?;
    Ok(Folder {
        files: List::from(files),
    })
}
