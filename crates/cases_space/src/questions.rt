//! What rows ask of worlds.

use crate::shown::{push_capabilities, push_ids, push_pairs, push_requirements};
use crate::steps::{Steps, is_step};
use cases_text::{Cases, complain};
use cases_worlds::{cut, revision_id, revision_ids, text_of, world};
use osgi_base::{List, RevisionId, Text};
use osgi_fragment::payload;
use osgi_space::{ClassSpaces, Implied, implied, is_consistent, sources};
use osgi_world::World;
use std::alloc::{AllocError, Global};
use std::fmt::Write;

/// A world, what is made of it for many questions, and the wirings that steps change.
#[derive(Drop)]
struct Asked<'w> {
    world: &'w World,
    classes: ClassSpaces<'w>,
    steps: Steps<'w>,
}

impl<'w> Asked<'w> {
    fn new(alloc: Global, world: &'w World) -> Result<Asked<'w>, AllocError> {
        let classes = ClassSpaces::new(alloc, world)?;
        let steps = Steps::new(alloc, world)?;
        Ok(Asked {
            world,
            classes,
            steps,
        })
    }

    /// The sources, and whether they are those that are found of the world alone.
    fn sources(
        &self,
        alloc: Global,
        revision: RevisionId,
        package: &Text,
    ) -> Result<(List<RevisionId>, bool), AllocError> {
        let once = sources(alloc, self.world, revision, package)?;
        let again = self.classes.sources(alloc, revision, package)?;
        let same = once.items() == again.items();
        Ok((again, same))
    }

    /// The constraints, and whether they are those that are found of the world alone.
    fn implied(
        &self,
        alloc: Global,
        revision: RevisionId,
    ) -> Result<(List<Implied>, bool), AllocError> {
        let once = implied(alloc, self.world, revision)?;
        let again = self.classes.implied(alloc, revision)?;
        let same = once.items() == again.items();
        Ok((again, same))
    }
}

fn push_list(out: &mut String, found: &List<RevisionId>, same: bool) -> Result<(), AllocError> {
    push_ids(out, found.items())?;
    complain(out, same, " or others")
}

/// Adds the sources of `ID PACKAGE`.
fn push_sources(
    alloc: Global,
    out: &mut String,
    asked: &Asked,
    text: &str,
) -> Result<(), AllocError> {
    let (revision, package) = cut(text);
    let package = text_of(alloc, package)?;
    let (found, same) = asked.sources(alloc, revision_id(revision), &package)?;
    push_list(out, &found, same)
}

/// Adds ` PACKAGE[ID ID]` where the package has sources for the revision.
fn push_some(
    alloc: Global,
    out: &mut String,
    asked: &Asked,
    of: (RevisionId, &str),
) -> Result<(), AllocError> {
    let package = text_of(alloc, of.1)?;
    let (found, same) = asked.sources(alloc, of.0, &package)?;
    if found.items().is_empty() && same {
        return Ok(());
    }
    write!(out, " {}", of.1)?;
    push_list(out, &found, same)
}

fn push_implied(
    alloc: Global,
    out: &mut String,
    asked: &Asked,
    revision: RevisionId,
) -> Result<(), AllocError> {
    let (pairs, same) = asked.implied(alloc, revision)?;
    push_pairs(out, pairs.items())?;
    complain(out, same, " or others")
}

/// Adds the sources of each of the packages that has some for the revision, and the constraints.
fn push_revision(
    alloc: Global,
    out: &mut String,
    asked: &Asked,
    of: (RevisionId, &str),
) -> Result<(), AllocError> {
    write!(out, "{}", of.0.0)?;
    for package in of.1.split_whitespace() {
        push_some(alloc, out, asked, (of.0, package))?;
    }
    out.push_str(" implied")?;
    push_implied(alloc, out, asked, of.0)?;
    out.push_str(" | ")
}

fn push_truth(out: &mut String, truth: bool) -> Result<(), AllocError> {
    write!(out, "{truth}")
}

fn push_all(
    alloc: Global,
    out: &mut String,
    asked: &Asked,
    packages: &str,
) -> Result<(), AllocError> {
    for known in asked.world.known.items() {
        push_revision(alloc, out, asked, (known.id, packages))?;
    }
    push_truth(out, is_consistent(alloc, asked.world)?)
}

/// Whether two worlds have as many revisions and wirings, and are both consistent or both not.
fn are_alike(alloc: Global, first: &World, second: &World) -> Result<bool, AllocError> {
    Ok(
        first.known.items().len() == second.known.items().len()
            && first.wirings.items().len() == second.wirings.items().len()
            && is_consistent(alloc, first)? == is_consistent(alloc, second)?,
    )
}

/// Adds `equal`, or that a copy of the world is another world.
fn push_copy(alloc: Global, out: &mut String, world: &World) -> Result<(), AllocError> {
    let is_same = are_alike(alloc, &world.copy(alloc)?, world)?;
    out.push_str(if is_same { "equal" } else { "other" })
}

/// Adds the payload of `HOST FRAGMENT ..`: the places of its requirements, then those of its capabilities.
fn push_payload(
    alloc: Global,
    out: &mut String,
    world: &World,
    text: &str,
) -> Result<(), AllocError> {
    let (host, fragments) = cut(text);
    let fragments = revision_ids(alloc, fragments)?;
    let hosted = payload(alloc, world, revision_id(host), fragments.as_slice())?;
    push_requirements(out, hosted.requirements.items())?;
    out.push(' ')?;
    push_capabilities(out, hosted.capabilities.items())
}

/// Adds the answer to a question about the world of a row.
fn push_answer(
    alloc: Global,
    out: &mut String,
    asked: &Asked,
    question: (&str, &str),
) -> Result<(), AllocError> {
    let (word, rest) = question;
    if word == "sources" {
        push_sources(alloc, out, asked, rest)
    } else if word == "implied" {
        push_implied(alloc, out, asked, revision_id(rest))
    } else if word == "consistent" {
        push_truth(out, is_consistent(alloc, asked.world)?)
    } else if word == "all" {
        push_all(alloc, out, asked, rest)
    } else if word == "copy" {
        push_copy(alloc, out, asked.world)
    } else if word == "payload" {
        push_payload(alloc, out, asked.world, rest)
    } else {
        out.push_str("no question")
    }
}

/// Makes a step, or adds the answer to a question.
fn take(
    alloc: Global,
    out: &mut String,
    asked: &mut Asked,
    question: &str,
) -> Result<(), AllocError> {
    let (word, rest) = cut(question);
    if is_step(word) {
        return asked.steps.make(word, rest);
    }
    if !out.is_empty() {
        out.push_str("; ")?;
    }
    if word == "clash" {
        asked.steps.push_first_clash(alloc, out, rest)
    } else {
        push_answer(alloc, out, asked, (word, rest))
    }
}

fn take_all(
    alloc: Global,
    out: &mut String,
    asked: &mut Asked,
    questions: &str,
) -> Result<(), AllocError> {
    for question in questions.split(';') {
        take(alloc, out, asked, question.trim())?;
    }
    Ok(())
}

/// The parts of a row: revisions, wirings and questions.
fn parts(row: &str) -> (&str, &str, &str) {
    let (known, rest) = row.split_once('|').unwrap_or((row, ""));
    let (wirings, questions) = rest.split_once('|').unwrap_or((rest, ""));
    (known, wirings, questions)
}

/// Class spaces.
#[derive(Drop)]
pub struct SpaceCases;

impl Cases for SpaceCases {
    fn add_answer(
        &mut self,
        alloc: Global,
        out: &mut String,
        case: &str,
    ) -> Result<(), AllocError> {
        let (known, wirings, questions) = parts(case);
        let world = world(alloc, known, wirings)?;
        let mut asked = Asked::new(alloc, &world)?;
        take_all(alloc, out, &mut asked, questions)
    }
}
