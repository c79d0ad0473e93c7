//! Reads lines of standard input about values and what is written with them, and prints how each line is answered.
//!
//! A line is a word and a text, and is printed with ` => ` and its answer after it; the empty line and one that begins with
//! `#` are printed alone. In a text `\n`, `\r`, `\t` and `\xHH` stand for bytes, and `\\` for a backslash, and in an answer
//! too. Of whatever is read, it is also seen whether its copy equals it: an answer says so where it does not.
//!
//! | Line | What is answered |
//! |---|---|
//! | `type TEXT` | the type of the name |
//! | `long TEXT` | the number that the text writes |
//! | `value TYPE TEXT` | what the text stands for as a value of the type |
//! | `attributes NAME:TYPE=TEXT;..` | the attributes, which the lines below are asked about. The type `[]` is the empty list's |
//! | `match-fold FILTER`, `match-keep FILTER` | whether the filter matches the attributes, by names without case or with it |
//! | `passes NAME:TYPE=TEXT;..\|FILTER` | whether the filter matches these attributes, by names with case |
//! | `satisfies REQUIREMENT \| CAPABILITY \| PROVIDER VERSION` | whether the capability satisfies the requirement; `satisfying.rt` says how they are written |
//! | `script TEXT` | the sections of a script, `HEAD[STATEMENT]..\|` each, or the line of its fault |
//! | `statements COUNT` | how many statements the sections of a script have whose first has so many, and whose second has one; or the line of its fault |
//! | `system` | the ids of the system bundle, its revision, and its capabilities, `\|NAMESPACE NAME: ATTRIBUTES` each |
#![tactic(auto)]

mod attributes;
mod cases;
mod matching;
mod satisfying;
mod scripts;
mod statements;
mod system;
mod values;

use crate::cases::add_answer;
use cases_text::{Cases, answer_lines};
use osgi_base::List;
use osgi_model::Attributes;
use std::alloc::{AllocError, Global};
use std::io;

/// Values, with the attributes that a case reads and later ones match.
#[derive(Drop)]
struct ValueCases {
    attributes: Attributes,
}

impl Cases for ValueCases {
    fn add_answer(
        &mut self,
        alloc: Global,
        out: &mut String,
        case: &str,
    ) -> Result<(), AllocError> {
        add_answer(alloc, out, &mut self.attributes, case)
    }
}

fn main(rt: HostRuntime) -> io::Result<()> {
    let attributes = List::new(rt.alloc())?;
    answer_lines(&rt, &mut ValueCases { attributes })
}
