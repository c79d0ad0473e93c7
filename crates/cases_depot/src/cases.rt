//! Cases by their first word.

use crate::folders::folders;
use crate::lines::{add_lines, installs, lines_of};
use crate::shown::{push_all, push_last};
use cases_text::Cases;
use osgi_depot::{Folders, read_depot};
use osgi_outside::{MemoryShelf, Shelf};
use osgi_session::Line;
use std::alloc::{AllocError, Global};
use std::fmt::Write;

/// The numbers that a text has, with blanks between; 0 for a word that is none.
fn numbers(alloc: Global, text: &str) -> Result<Vec<u64>, AllocError> {
    let mut numbers = Vec::new(alloc);
    for word in text.split_whitespace() {
        numbers.push(word.parse::<u64>().unwrap_or(0))?;
    }
    Ok(numbers)
}

/// The depot of the lines and its scripts, read from a shelf some of whose reads fail, and the shelf's count of faults.
fn read(alloc: Global, lines: &[Line], fail: &str) -> Result<(Folders, u64), AllocError> {
    let mut shelf = MemoryShelf::new(folders(alloc)?, numbers(alloc, fail)?);
    let folders = read_depot(alloc, lines, &mut shelf)?;
    Ok((folders, shelf.count()))
}

/// Adds all rows of the depot of `FAIL..: LINE; LINE..`.
fn add_depot(alloc: Global, out: &mut String, text: &str) -> Result<(), AllocError> {
    let (fail, lines) = text.split_once(':').unwrap_or(("", text));
    let (folders, faults) = read(alloc, lines_of(alloc, lines)?.as_slice(), fail)?;
    push_all(out, &folders)?;
    write!(out, "faults {faults}")
}

/// Adds the last rows of the depot of `COUNT FAIL..`.
fn add_many(alloc: Global, out: &mut String, text: &str) -> Result<(), AllocError> {
    let (count, fail) = text.split_once(' ').unwrap_or((text, ""));
    let count: u64 = count.parse().unwrap_or(0);
    let (folders, faults) = read(alloc, installs(alloc, count)?.as_slice(), fail)?;
    push_last(out, &folders)?;
    write!(out, "faults {faults}")
}

/// Adds the last rows of the depot of `COUNT: LINE; LINE..`.
fn add_more(alloc: Global, out: &mut String, text: &str) -> Result<(), AllocError> {
    let (count, more) = text.split_once(':').unwrap_or((text, ""));
    let mut lines = installs(alloc, count.parse().unwrap_or(0))?;
    add_lines(alloc, &mut lines, more)?;
    let (folders, _) = read(alloc, lines.as_slice(), "")?;
    push_last(out, &folders)
}

/// Depots.
#[derive(Drop)]
pub struct DepotCases;

impl Cases for DepotCases {
    fn add_answer(
        &mut self,
        alloc: Global,
        out: &mut String,
        case: &str,
    ) -> Result<(), AllocError> {
        let (name, rest) = case.split_once(' ').unwrap_or((case, ""));
        if name == "depot" {
            add_depot(alloc, out, rest)
        } else if name == "many" {
            add_many(alloc, out, rest)
        } else if name == "more" {
            add_more(alloc, out, rest)
        } else {
            out.push_str("not a case")
        }
    }
}
