//! Reads texts that standard input has a line each, and prints what each is read as.
//!
//! A line is a word and a text, and is printed with ` => ` and its answer after it; the empty line and one that begins with
//! `#` are printed alone. In a text `\n`, `\r`, `\t` and `\xHH` stand for bytes, and `\\` for a backslash, and in an answer
//! too. Of whatever is read, it is also seen whether its copy equals it, and whether what is printed of it reads as it again:
//! an answer says so where they do not.
//!
//! | Line | What is answered |
//! |---|---|
//! | `version TEXT`, `range TEXT` | what the text reads as |
//! | `at-least-zero RANGE` | whether the range is at least 0.0.0 |
//! | `numbered VERSION` | the version of the same numbers |
//! | `order VERSION\|VERSION` | how they are ordered, by every comparison that there is |
//! | `within RANGE\|VERSION` | whether the range contains the version |
//! | `qualifier VERSION` | the version's qualifier |
//! | `headers TEXT` | the headers of a manifest, `NAME=VALUE\|` each |
//! | `long-lines FIRST MORE` | whether a manifest of two lines that have so many bytes is read |
//! | `clauses TEXT` | the clauses of a header's value: paths `[PATH]`, directives `{NAME:=VALUE}`, attributes `{NAME:TYPE=VALUE}` |
//! | `read-clauses TEXT` | the clauses before the first faulty one, `BYTE:CLAUSE\|` each, and that fault |
//! | `class TEXT`, `classes TEXT`, `name TEXT`, `bundle-name TEXT`, `id TEXT` | what a word says that is of this kind: `[TEXT]` each, or a number |
//! | `words TEXT` | the words of a line, `[WORD]` each |
//! | `name-list TEXT` | the names that a directive's value lists, `[NAME]` each |
//! | `filter TEXT`, `tree TEXT` | what is printed of the filter; the filter as a tree |
//! | `nested OPERATOR COUNT` | whether `(a=1)` is a filter within so many of the operator |
#![tactic(auto)]

mod cases;
mod clauses;
mod filters;
mod headers;
mod qualifiers;
mod ranges;
mod trees;
mod versions;
mod words;

use crate::cases::ReaderCases;
use cases_text::answer_lines;
use std::io;

fn main(rt: HostRuntime) -> io::Result<()> {
    answer_lines(&rt, &mut ReaderCases)
}
