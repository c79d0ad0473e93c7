//! Packages with their sources.

use crate::found::Node;

/// A package, and a revision that is a source of it.
#[derive(Clone, Copy, PartialEq, Eq, PartialOrd, Ord)]
pub struct Given {
    pub package: u32,
    pub source: u32,
}

impl Node for Given {
    ghost use Rattle.osgi_space_sources.specs.computed.Exact.{exact_given};

    ghost exact = { exact_given };
}
