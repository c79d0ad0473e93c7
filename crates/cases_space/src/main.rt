//! Reads worlds that standard input gives, a row each, and prints what their class spaces answer.
//!
//! A row is printed again with its answers: `ROW => ANSWER; ANSWER`. An empty line, or one that begins with `#`, is printed as
//! it is. A row is a world and what is asked:
//!
//!     REVISION; REVISION | WIRING; WIRING | QUESTION; QUESTION
//!
//! `cases_worlds` says how a REVISION and a WIRING are written.
//!
//! | Question | What is answered |
//! |---|---|
//! | `sources ID PACKAGE` | the sources of the package for the revision: `[ID ID]` |
//! | `implied ID` | the constraints that `uses` implies for it: `[ID:PACKAGE ID:PACKAGE]` |
//! | `consistent` | whether the wirings are consistent |
//! | `all PACKAGE ..` | of each revision its number, the sources of each of these packages that has some, as `PACKAGE[ID]`, and the constraints; and at the end whether the wirings are consistent |
//! | `copy` | whether a copy of the world has as many revisions and wirings, and is consistent where the world is |
//! | `payload HOST FRAGMENT ..` | the payload of the host with these fragments: the requirements, then the capabilities, each with who provides it: `[OWNER.PLACE ..] [PROVIDER.OWNER.PLACE ..]` |
//! | `attach HOST FRAGMENT`, `wire ID WIRE`, `undo` | nothing. The world that `clash` asks about, and no other, has this fragment or wire more, or loses what was added last |
//! | `clash ID ..` | the first clash of a constraint that comes from these revisions alone: `ID PACKAGE [ID ID] [ID ID]`, whose lists are the sources of the package for this revision, and those for the revision that it is to agree with; or `none` |
//!
//! Sources and constraints are asked for twice, of the world and of what is made of it for many questions, and an answer says so
//! where the two differ.
#![tactic(auto)]

mod questions;
mod shown;
mod steps;

use crate::questions::SpaceCases;
use cases_text::answer_lines;
use std::io;

fn main(rt: HostRuntime) -> io::Result<()> {
    answer_lines(&rt, &mut SpaceCases)
}
