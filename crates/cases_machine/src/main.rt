//! Reads rows, and prints each with what the machine answers to it.
//!
//! An empty row, and one that begins with `#`, says nothing. The first word of any other says what it asks for:
//!
//! | Row | Asks for |
//! |---|---|
//! | `core ENTRIES [LOCATION [FILE]]` | a new machine whose history has room for so many entries, and whose depot has a bundle at the location, if one is given, of that name and version 1.0.0, with the file, if one is given; where `fragment` stands in its place, a fragment |
//! | `core_of ENTRIES COUNT [HANDINGS]` | the same, where the depot has so many bundles, at the locations `0`, `1` and so on, each of the name of its location; it hands so many events at most, or a million |
//! | `CALLER.NUMBER BUNDLE COMMAND` | what the machine answers to the first operation of a command of the console, asked by the bundle in that line |
//! | `CALLER.NUMBER BUNDLE direct BeginStart [-t]`, `.. EndStart [failed]`, `.. EndStop [failed]`, `.. Load CLASS`, `.. Print TEXT`, `.. Fail TEXT` | the same of an operation that no command of the console is, about the bundle |
//! | `CALLER.NUMBER BUNDLE direct AddListener NAME KIND [FILTER]`, `.. RemoveListener NAME`, `.. Hand`, `.. EndHand LISTENER` | the same; KIND is `service`, `all`, `bundle` or `framework` |
//! | `CALLER.NUMBER BUNDLE direct QueueJob NAME`, `.. TakeJob`, `.. EndJob` | the same |
//! | `CALLER.NUMBER BUNDLE fill COUNT` | the same of so many listeners of the bundle that are added one after another, named by the numbers from 0 on and told of the framework; the last answer |
//! | `CALLER.NUMBER BUNDLE fill_jobs COUNT` | the same of so many jobs of the bundle that are queued |
//! | `CALLER.NUMBER BUNDLE direct WishStart NAME`, `.. BeginStop NAME` | the same about the bundle of that name |
//! | `CALLER.NUMBER BUNDLE later NAME` | the same of an operation about the bundle, by its name, that the framework does not have yet |
//! | `CALLER.NUMBER BUNDLE later_with_text NAME` | the same where the operation has a text or a list |
//! | `entries` | the machine's history |
//! | `handed LISTENER` | the events that were handed to the listener, as a plain scan of the history finds them |
//! | `due LISTENER` | the events that the listener sees in the machine's history, when its calls are made again; the machine is a new one then |
//! | `line NAME` | what the console writes of a refusal |
//! | `refusal NAME`, `many NAME`, `join`, `limits` | numbers and names of refusals, a line that joins, the standard limits |
//!
//! Each operation, reply, entry and line of a row is compared with its copy; the answer says so where they differ.
#![tactic(auto)]

mod depot;
mod direct;
mod filling;
mod hands;
mod later;
mod listening;
mod machine;
mod names;
mod refusals;
mod rows;

use cases_text::{Cases, answer_lines};
use depot::depot_of;
use osgi_core::Core;
use osgi_ops::Limits;
use rows::add_answer;
use std::alloc::{AllocError, Global};
use std::io;

/// The machine that rows ask, one after another.
#[derive(Drop)]
struct MachineCases<'a> {
    core: &'a mut Core,
}

impl Cases for MachineCases<'_> {
    fn add_answer(
        &mut self,
        alloc: Global,
        out: &mut String,
        case: &str,
    ) -> Result<(), AllocError> {
        add_answer(alloc, out, self.core, case)
    }
}

fn main(rt: HostRuntime) -> io::Result<()> {
    let mut core = Core::new(rt.alloc(), Limits::standard(), depot_of(rt.alloc(), "")?)?;
    let answered = answer_lines(&rt, &mut MachineCases { core: &mut core });
    // Its parts are few, and its tables many: a machine that is dropped whole takes minutes of proof.
    let _ = core.into_parts();
    answered
}
