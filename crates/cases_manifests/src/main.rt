//! Reads bundles' folders and values of headers that standard input has a line each, and prints what each of them means.
//!
//! A line is printed with ` => ` and its answer after it; the empty line and one that begins with `#` are printed alone. Bytes
//! other than printable ASCII stand as `cases_text` writes them, a `|` in a text as `\x7c`.
//!
//! | Line | What is answered |
//! |---|---|
//! | `imports VALUE` | the requirements that the value of Import-Package makes: package, versions, exporter's name or `-`, exporter's versions, attributes, and `optional` or `mandatory` |
//! | `manifest TEXT`, with any number of `|file PATH TEXT` after it | what the folder means whose first file is the manifest with this text, and that has these files besides |
//! | `folder`, with any number of `|file PATH TEXT` after it | the same of the folder that has these files |
//! | `script TEXT`, with any number of `|file PATH TEXT` after it | of the same folder as `manifest`: the bundle's name, its activator, and how many statements each section of its script has |
//! | `long N TEXT|TEXT` | the same of a manifest that has N times the byte `x` between the two texts |
//! | `exports VALUE` | the capabilities that the value of Export-Package makes: package, attributes, packages that are used, and mandatory attributes |
#![tactic(auto)]

mod folders;
mod manifests;
mod members;
mod packages;
mod scripts;
mod shown;

use crate::folders::{with_long_line, with_manifest, without_manifest};
use crate::manifests::meaning;
use crate::packages::{exported, imported};
use crate::scripts::script;
use cases_text::{Cases, answer_lines};
use std::alloc::{AllocError, Global};
use std::io;

/// Readers of manifests and of their headers.
#[derive(Drop)]
struct ManifestCases;

impl Cases for ManifestCases {
    fn add_answer(
        &mut self,
        alloc: Global,
        out: &mut String,
        case: &str,
    ) -> Result<(), AllocError> {
        let (word, value) = case.split_once(' ').unwrap_or((case, ""));
        if word == "imports" {
            imported(alloc, out, value.as_bytes())
        } else if word == "exports" {
            exported(alloc, out, value.as_bytes())
        } else if word == "manifest" {
            meaning(alloc, out, &with_manifest(alloc, value)?)
        } else if word == "script" {
            script(alloc, out, &with_manifest(alloc, value)?)
        } else if word == "folder" {
            meaning(alloc, out, &without_manifest(alloc, value)?)
        } else if word == "long" {
            meaning(alloc, out, &with_long_line(alloc, value)?)
        } else {
            out.push_str("no such word")
        }
    }
}

fn main(rt: HostRuntime) -> io::Result<()> {
    answer_lines(&rt, &mut ManifestCases)
}
