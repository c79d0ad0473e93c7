//! Reads worlds that standard input gives, a row each, and prints how bundles are resolved in them.
//!
//! A row is printed again with its answers: `ROW => ANSWER; ANSWER`. An empty line, or one that begins with `#`, is printed as
//! it is. A row is what is known at first, and steps:
//!
//!     REVISION; REVISION | STEP; STEP
//!
//! `cases_worlds` says how a REVISION is written. Revision 0 is that of the framework, which is in force. The others have
//! the numbers 1, 2 and so on in the order in which they become known, and each is the only one of its bundle: a row with
//! other numbers says `cannot be known`. Each step sees what those before it did.
//!
//! | Step | What is answered |
//! |---|---|
//! | `resolve ID`, `resolve ID BUDGET` | how the revision is resolved, with a budget of 1,000,000 where none is given: one of the answers below |
//! | `anew ID`, `anew ID BUDGET` | the same by a call that keeps nothing of the world from one time to the next; what is found is not put in force |
//! | `problem ID` | all that can be asked for, in its order, each requirement with its candidates, the preferred first: `REQUIREMENT> CAPABILITY CAPABILITY, REQUIREMENT>`, or `none`. A requirement is written `OWNER.PLACE`, a capability as in a wiring |
//! | `solve ID`, `solve ID BUDGET` | the same as `anew`, by the call that is given the problem |
//! | `slowly ID`, `slowly ID BUDGET` | what a search over all words answers, also those that are hopeless: `found [NUMBER NUMBER]`, `none` for `no candidate` and `clash`, or `spent NUMBER`; what is found is not put in force |
//! | `add REVISION` | nothing, or `cannot be known`: the revision becomes known |
//! | `load ID CLASS` | the revision whose folder a class is loaded from for this one: its number, or `none` |
//! | `assignable ID ID CLASS` | whether a service of the class that the first registered is assignable to the second: `yes` or `no`. The ids are those of bundles |
//! | `wires` | the wirings that are in force, but that of the framework: `WIRING, WIRING`, or `none` |
//!
//! | Answer | What it says |
//! |---|---|
//! | `found [NUMBER NUMBER] WIRING, WIRING` | the first good word, and the wirings that it adds, in the form of `cases_worlds`. After `resolve` they are in force: the answer ends with `: taken`, or with `: not taken` where there was no memory for that |
//! | `no candidate NAMESPACE NAME` | the first mandatory requirement of the revision that nothing can meet |
//! | `clash` | nothing consistent can be chosen |
//! | `spent NUMBER` | so many words were looked at, one more than the budget |
//! | `not known`, `not current`, `a fragment`, `in force` | the revision cannot be resolved |
#![tactic(auto)]

mod asked;
mod called;
mod known;
mod loaded;
mod rows;
mod shown;
mod slowly;

use crate::rows::ResolverCases;
use cases_text::answer_lines;
use std::io;

fn main(rt: HostRuntime) -> io::Result<()> {
    answer_lines(&rt, &mut ResolverCases)
}
