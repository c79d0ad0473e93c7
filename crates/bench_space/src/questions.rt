//! What is asked of a world.

use osgi_base::RevisionId;
use osgi_space::{ClassSpaces, is_consistent};
use osgi_world::World;
use std::alloc::{AllocError, Global};

/// How many sources the packages have that the revision sees.
fn count_sources(
    alloc: Global,
    spaces: &ClassSpaces,
    revision: RevisionId,
) -> Result<usize, AllocError> {
    let mut count: usize = 0;
    for package in spaces.space(alloc, revision)?.items() {
        count = count.saturating_add(package.sources.items().len());
    }
    Ok(count)
}

/// How many sources the packages have that any known revision sees.
fn count_all_sources(alloc: Global, world: &World) -> Result<usize, AllocError> {
    let spaces = ClassSpaces::new(alloc, world)?;
    let mut count: usize = 0;
    for known in world.known.items() {
        count = count.saturating_add(count_sources(alloc, &spaces, known.id)?);
    }
    Ok(count)
}

fn answer(alloc: Global, question: &str, world: &World) -> Result<usize, AllocError> {
    if question == "sources" {
        count_all_sources(alloc, world)
    } else {
        Ok(usize::from(is_consistent(alloc, world)?))
    }
}

/// Asks so often, and adds up the answers.
pub fn ask(alloc: Global, question: &str, world: &World, times: u32) -> Result<usize, AllocError> {
    let mut sum: usize = 0;
    for _ in 0..times {
        sum = sum.saturating_add(answer(alloc, question, world)?);
    }
    Ok(sum)
}
