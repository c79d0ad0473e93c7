//! Reads calls of the live listeners, and prints what each answers.
//!
//! A line is a case, and is printed again with its answer: `CASE => ANSWER`. An empty line, or one that begins with `#`, is
//! printed as it is. At first no listener is live. The calls of a case stand with `; ` between:
//!
//! | Call | Answer |
//! |---|---|
//! | `add OWNER NAME KIND FILTER` | the id, or `refused NUMBER`; KIND is `service`, `all`, `bundle` or `framework` |
//! | `fill COUNT` | the last id of so many listeners of bundle 9, or `refused NUMBER`; their names are numbers from 0 |
//! | `remove OWNER NAME` | `true` where there was one, else `false` |
//! | `remove_all OWNER` | `ok` |
//! | `reserve COUNT` | `ok` |
//! | `see ENTRY PLACE:ID:CODE ..` | `ok` where these events of the framework may be seen of the entry, else `no` |
//! | `post PLACE CODE ID ..` | `ok` where the event may be posted for these listeners, else `no` |
//! | `hand CALLER LINE` | `ID CODE`, or `nothing` and the busy ones as `(ID by CALLER LINE)` |
//! | `end CALLER LINE ID` | `ok` or `refused NUMBER` |
//! | `next`, `ready` | `ID CODE` or `none`; `true` or `false` |
//! | `busy` | `busy` and the busy ones as with `hand` |
//! | `next_id` | the id of the listener that is added next |
//! | `has OWNER NAME` | `true` or `false` |
//! | `refusal OWNER NAME` | why none is added: `refused NUMBER`, or `none` |
//! | `seen BUNDLE HAPPENING ..` | `seen`, and `PLACE:ID:CODE` for each sight |
//! | `count`, `at PLACE`, `row ID` | how many are live; `ID OWNER NAME`, or `none` |
//! | `owned OWNER`, `kind KIND` | the ids, or `none` |
//!
//! FILTER may be missing. A HAPPENING is `s:CODE:ID:OWNER:CLASS=X`, a service that came or went, with X as its property `x`;
//! `m:ID:OWNER:CLASS=X>Y`, one whose property changed so; `b:CODE:ID:NAME`, a bundle, of version 1.2.0; or `f:CODE`, the
//! framework. Behind the code of a sight stands `/` with the id of the service or bundle. The listeners of BUNDLE go and see
//! nothing; `-` stands for no bundle. Bundles 1 and 2 are installed, and not resolved: a service is assignable to its own
//! bundle alone.
#![tactic(auto)]

mod calls;
mod kept;
mod seeing;
mod shown;
mod words;

use crate::calls::add_calls;
use cases_text::{Cases, answer_lines};
use std::alloc::{AllocError, Global};
use std::io;

/// Live listeners.
#[derive(Drop)]
struct ListenerCases;

impl Cases for ListenerCases {
    fn add_answer(
        &mut self,
        alloc: Global,
        out: &mut String,
        case: &str,
    ) -> Result<(), AllocError> {
        add_calls(alloc, out, case)
    }
}

fn main(rt: HostRuntime) -> io::Result<()> {
    answer_lines(&rt, &mut ListenerCases)
}
