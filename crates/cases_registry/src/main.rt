//! Reads rows, and prints each with what the registry answers to it, beside plain scans of the calls so far.
//!
//! An empty row, and one that begins with `#`, says nothing. The first word of any other says what it asks for:
//!
//! | Row | Asks for |
//! |---|---|
//! | `registry` | a new registry |
//! | `BUNDLE COMMAND` | what the registry answers to a command of the console, asked by the bundle |
//! | `where TEST: BUNDLE COMMAND` | the same, where TEST says which services are assignable |
//! | `release BUNDLE`, `count` | the same calls of the registry |
//! | `has BUNDLE modify ID PROP..` | whether the service is the bundle's, and has just these properties |
//! | `check` | the services, their uses, and the services of each class, as the registry has them. The answer says so where plain scans of its calls have other services or uses |
//! | `left WORD BUNDLE` | nothing: after the calls so far comes the entry after which the bundle is what the word says, `installed`, `known`, `resolved`, `starting`, `started`, `failed`, `stopping`, `stopped`, `updated`, `dropped` or `uninstalled` |
//! | `state BUNDLE` | the bundle's state by OSGi's number, as plain scans read it off all entries |
//!
//! TEST is `all`, `none`, `owner BUNDLE` or `owner BUNDLE class CLASS`. Each operation, reply and entry of a row is compared
//! with its copy; the answer says so where they differ.
#![tactic(auto)]

mod assignable;
mod calls;
mod checked;
mod rows;
mod scanned;
mod states;
mod trial;
mod uses;

use cases_text::{Cases, answer_lines};
use rows::add_answer;
use std::alloc::{AllocError, Global};
use std::io;
use trial::Trial;

impl Cases for Trial {
    fn add_answer(
        &mut self,
        alloc: Global,
        out: &mut String,
        case: &str,
    ) -> Result<(), AllocError> {
        add_answer(alloc, out, self, case)
    }
}

fn main(rt: HostRuntime) -> io::Result<()> {
    let mut trial = Trial::new(rt.alloc())?;
    answer_lines(&rt, &mut trial)
}
