//! The scripts of the bundles of runs.

use osgi_base::{List, Text};
use osgi_ops::Section;
use osgi_session::{Part, Script, Scripts, Statement};
use std::alloc::{AllocError, Global};

/// A section with this statement.
fn part(alloc: Global, section: Section, statement: Statement) -> Result<Part, AllocError> {
    let mut statements = List::new(alloc)?;
    statements.push(statement)?;
    Ok(Part {
        section,
        statements,
    })
}

/// A script with this section alone.
fn script(alloc: Global, part: Part) -> Result<Script, AllocError> {
    let mut sections = List::new(alloc)?;
    sections.push(part)?;
    Ok(Script { sections })
}

/// One that starts a bundle as its own starts.
fn starting(alloc: Global) -> Result<Script, AllocError> {
    let name = Text::of(alloc, b"b")?;
    script(
        alloc,
        part(alloc, Section::Start, Statement::Start { name })?,
    )
}

/// One that fails as its bundle stops.
fn failing(alloc: Global) -> Result<Script, AllocError> {
    let text = Text::of(alloc, b"no")?;
    script(alloc, part(alloc, Section::Stop, Statement::Fail { text })?)
}

/// The section for the events of a listener of this name, with this statement.
fn on(alloc: Global, name: &[u8], statement: Statement) -> Result<Part, AllocError> {
    let name = Text::of(alloc, name)?;
    part(alloc, Section::On(name), statement)
}

/// The section for jobs of this name, with this statement.
fn job(alloc: Global, name: &[u8], statement: Statement) -> Result<Part, AllocError> {
    let name = Text::of(alloc, name)?;
    part(alloc, Section::Job(name), statement)
}

/// A service without classes and properties.
fn register(alloc: Global) -> Result<Statement, AllocError> {
    Ok(Statement::Register {
        var: Text::of(alloc, b"v")?,
        classes: List::new(alloc)?,
        object: Text::of(alloc, b"o")?,
        properties: List::new(alloc)?,
    })
}

/// Adds the sections for jobs: `n` queues a job of its own name, `r` registers a service, and `f` fails.
fn add_jobs(alloc: Global, sections: &mut List<Part>) -> Result<(), AllocError> {
    let name = Text::of(alloc, b"n")?;
    sections.push(job(alloc, b"n", Statement::Job { name })?)?;
    sections.push(job(alloc, b"r", register(alloc)?)?)?;
    let text = Text::of(alloc, b"no")?;
    sections.push(job(alloc, b"f", Statement::Fail { text })?)
}

/// One that gets the service of an event at `n`, registers a service at `r`, and fails at `f`; and that has jobs.
fn listening(alloc: Global) -> Result<Script, AllocError> {
    let mut sections = List::new(alloc)?;
    add_jobs(alloc, &mut sections)?;
    let var = Text::of(alloc, b"event")?;
    sections.push(on(alloc, b"n", Statement::Get { var })?)?;
    sections.push(on(alloc, b"r", register(alloc)?)?)?;
    let text = Text::of(alloc, b"no")?;
    sections.push(on(alloc, b"f", Statement::Fail { text })?)?;
    Ok(Script { sections })
}

/// The scripts of the rows, the first of which has no sections.
pub fn scripts(alloc: Global) -> Result<Scripts, AllocError> {
    let mut rows = List::new(alloc)?;
    rows.push(Script {
        sections: List::new(alloc)?,
    })?;
    rows.push(starting(alloc)?)?;
    rows.push(failing(alloc)?)?;
    rows.push(listening(alloc)?)?;
    Ok(Scripts { rows })
}
