//! Operations that a row asks for by the thousand, with numbers for names.

use cases_text::{put_shown, text_of};
use osgi_base::{BundleId, Text};
use osgi_ops::{Kind, Op};
use std::alloc::{AllocError, Global};

/// What a row has so many of.
#[derive(Clone, Copy)]
pub enum Filled {
    Listeners,
    Jobs,
}

/// What a word has so many of.
pub fn filled_named(word: &str) -> Option<Filled> {
    match word {
        "fill" => Some(Filled::Listeners),
        "fill_jobs" => Some(Filled::Jobs),
        _ => None,
    }
}

/// A number as a name.
fn name_of(alloc: Global, number: u32) -> Result<Text, AllocError> {
    let mut name = String::new(alloc);
    put_shown(&mut name, &number)?;
    text_of(alloc, name.as_str())
}

/// The addition of a listener of the bundle that is told of the framework, or of a job of the bundle; its name is a number.
pub fn numbered(
    alloc: Global,
    filled: Filled,
    owner: BundleId,
    number: u32,
) -> Result<Op, AllocError> {
    let name = name_of(alloc, number)?;
    Ok(match filled {
        Filled::Listeners => Op::AddListener {
            owner,
            name,
            kind: Kind::Framework,
            filter: None,
        },
        Filled::Jobs => Op::QueueJob { owner, name },
    })
}
