//! Cases: what the program is run on, read from their lines.

use crate::bundles::bundle;
use cases_text::bytes_of;
use osgi_base::{Folder, Text};
use std::alloc::{AllocError, Global};

/// What the program is run on.
#[derive(Drop)]
pub struct Case {
    /// The words of the command line, without the program's name.
    pub words: Vec<Text>,
    pub input: Vec<u8>,
    /// The numbers of the reads that fail, and of the writes and flushes, counted from 1.
    pub reads: Vec<u64>,
    pub writes: Vec<u64>,
    /// The folders that the shelf has, with their locations.
    pub folders: Vec<(Text, Folder)>,
    /// Whether the answer says how often the gate was come to.
    pub counts: bool,
    times: u64,
}

impl Case {
    /// The case of a line, or `None` where something else stands in its brackets.
    pub fn read(alloc: Global, line: &str) -> Result<Option<Case>, AllocError> {
        let mut case = Case::plain(alloc)?;
        let mut rest = line;
        for _ in 0..line.len() {
            let Some((head, more)) = split_head(rest) else {
                break;
            };
            if !case.set(alloc, head)? {
                return Ok(None);
            }
            rest = more;
        }
        case.input = repeated(alloc, bytes_of(alloc, rest)?.as_slice(), case.times)?;
        Ok(Some(case))
    }

    /// The word `run`, an empty shelf, and no call that fails or is counted.
    fn plain(alloc: Global) -> Result<Case, AllocError> {
        Ok(Case {
            words: words_of(alloc, "run")?,
            input: Vec::new(alloc),
            reads: Vec::new(alloc),
            writes: Vec::new(alloc),
            folders: Vec::new(alloc),
            counts: false,
            times: 1,
        })
    }

    /// Takes what stands between brackets, and says whether it is of a known form.
    fn set(&mut self, alloc: Global, head: &str) -> Result<bool, AllocError> {
        let (name, rest) = head.split_once(" ").unwrap_or((head, ""));
        if name == "words" {
            self.words = words_of(alloc, rest)?;
        } else if name == "reads" {
            self.reads = numbers_of(alloc, rest)?;
        } else if name == "writes" {
            self.writes = numbers_of(alloc, rest)?;
        } else if name == "bundle" {
            self.folders.push(bundle(alloc, rest)?)?;
        } else if name == "gate" {
            self.counts = true;
        } else if name == "times" {
            self.times = rest.parse::<u64>().unwrap_or(0);
        } else {
            return Ok(false);
        }
        Ok(true)
    }
}

/// What stands between brackets at the beginning of a line, and the rest of the line.
fn split_head(line: &str) -> Option<(&str, &str)> {
    line.strip_prefix("[")?.split_once("] ")
}

/// The bytes so many times.
fn repeated(alloc: Global, bytes: &[u8], times: u64) -> Result<Vec<u8>, AllocError> {
    let mut all = Vec::new(alloc);
    for _ in 0..times {
        all.extend_from_slice(bytes)?;
    }
    Ok(all)
}

fn words_of(alloc: Global, text: &str) -> Result<Vec<Text>, AllocError> {
    let mut words = Vec::new(alloc);
    for word in text.split_whitespace() {
        let spelled = if word == "''" { "" } else { word };
        words.push(Text::from_vec(alloc, bytes_of(alloc, spelled)?)?)?;
    }
    Ok(words)
}

fn numbers_of(alloc: Global, text: &str) -> Result<Vec<u64>, AllocError> {
    text.split_whitespace()
        .map(|word| word.parse::<u64>().unwrap_or(0))
        .collect(alloc)
}
