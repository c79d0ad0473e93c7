//! Texts read again and again.

use crate::filters::count_matches;
use anyhow::{Result, bail};
use osgi_filter::parse;
use osgi_header::{clauses, unfold};
use osgi_version::{Version, VersionRange};
use std::alloc::{AllocError, Global};

/// What a text is read by.
#[derive(Clone, Copy)]
enum Grammar {
    Version,
    Range,
    Manifest,
    Clauses,
    Filter,
}

/// Whether the text can be read.
fn can_read(alloc: Global, grammar: Grammar, text: &[u8]) -> Result<bool, AllocError> {
    match grammar {
        Grammar::Version => Ok(Version::parse(alloc, text)?.is_ok()),
        Grammar::Range => Ok(VersionRange::parse(alloc, text)?.is_ok()),
        Grammar::Manifest => Ok(unfold(alloc, text)?.is_ok()),
        Grammar::Clauses => Ok(clauses(alloc, text)?.is_ok()),
        Grammar::Filter => Ok(parse(alloc, text)?.is_ok()),
    }
}

/// Reads the text so many times, and answers how often it could be read.
fn count_read(alloc: Global, grammar: Grammar, text: &[u8], count: u32) -> Result<u32, AllocError> {
    let mut read: u32 = 0;
    for _ in 0..count {
        if can_read(alloc, grammar, text)? {
            read = read.saturating_add(1);
        }
    }
    Ok(read)
}

fn grammar_named(name: &str) -> Option<Grammar> {
    for (word, grammar) in [
        ("version", Grammar::Version),
        ("range", Grammar::Range),
        ("manifest", Grammar::Manifest),
        ("clauses", Grammar::Clauses),
        ("filter", Grammar::Filter),
    ] {
        if word == name {
            return Some(grammar);
        }
    }
    None
}

/// Does what is asked for so many times, and answers how often it could be done.
pub fn repeat(alloc: Global, what: &str, text: &str, count: u32) -> Result<u32> {
    if what == "match" {
        return count_matches(alloc, text.as_bytes(), count);
    }
    let Some(grammar) = grammar_named(what) else {
        bail!("reads a version, range, manifest, clauses or filter, or matches one");
    };
    Ok(count_read(alloc, grammar, text.as_bytes(), count)?)
}
