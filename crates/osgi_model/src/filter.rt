//! Filters as trees.

ghost use Rattle.std.specs.Prelude.{◌≡◌, IfOk};

use osgi_base::{Boxed, Copied, List, Text};
use std::alloc::{AllocError, Global};

/// How many levels a filter has at most.
pub const MAX_LEVELS: u32 = 64;

/// What an item asks of its attribute.
#[derive(Drop)]
pub enum Test {
    Equal(Text),
    Approx(Text),
    AtLeast(Text),
    AtMost(Text),
    Present,
    /// A text with these pieces in order and anything between them: the first begins it, the last ends it.
    Pieces(List<Text>),
}

impl Test {
    pub fn copy(&self, alloc: Global) -> Result<Test, AllocError>
        ensures same { IfOk result (λ copy. copy ≡ self.now) }
    {
        match self {
            Test::Equal(value) => Ok(Test::Equal(value.copy(alloc)?)),
            Test::Approx(value) => Ok(Test::Approx(value.copy(alloc)?)),
            Test::AtLeast(value) => Ok(Test::AtLeast(value.copy(alloc)?)),
            Test::AtMost(value) => Ok(Test::AtMost(value.copy(alloc)?)),
            Test::Present => Ok(Test::Present),
            Test::Pieces(pieces) => Ok(Test::Pieces(pieces.copy(alloc)?)),
        }
    }
}

impl Copied for Test {
    fn copied(&self, alloc: Global) -> Result<Test, AllocError> {
        self.copy(alloc)
    }
}

/// A filter of attributes.
#[derive(Drop)]
pub enum Filter {
    And(List<Filter>),
    Or(List<Filter>),
    Not(Boxed<Filter>),
    Item { name: Text, test: Test },
}

impl Filter {
    #[cycle(copy)]
    pub fn copy(&self, alloc: Global) -> Result<Filter, AllocError>
        ensures same { IfOk result (λ copy. copy ≡ self.now) }
    {
        match self {
            Filter::And(filters) => Ok(Filter::And(copy_all(filters.items(), alloc)?)),
            Filter::Or(filters) => Ok(Filter::Or(copy_all(filters.items(), alloc)?)),
            Filter::Not(filter) => Ok(Filter::Not(Boxed::new(alloc, filter.get().copy(alloc)?)?)),
            Filter::Item { name, test } => Ok(Filter::Item {
                name: name.copy(alloc)?,
                test: test.copy(alloc)?,
            }),
        }
    }
}

/// Copies filters in order. A list's own copy cannot lead back to the copy of a filter.
#[cycle(copy)]
fn copy_all(filters: &[Filter], alloc: Global) -> Result<List<Filter>, AllocError>
    ensures same { IfOk result (λ copies. copies ≡ filters.now) }
{
    let mut copies = List::with_capacity(alloc, filters.len())?;
    for filter in filters {
        copies.push(filter.copy(alloc)?)?;
    }
    Ok(copies)
}

impl Copied for Filter {
    fn copied(&self, alloc: Global) -> Result<Filter, AllocError> {
        self.copy(alloc)
    }
}
