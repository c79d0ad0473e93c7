//! What an export leads to.

use crate::found::Node;
use crate::given::Given;

/// A source of a package, to which an export leads: the package with its exporter in the place of a source.
#[derive(Clone, Copy, PartialEq, Eq, PartialOrd, Ord)]
pub struct Lead {
    pub export: Given,
    pub source: Given,
}

impl Node for Lead {
    ghost use Rattle.osgi_space_sources.specs.computed.Exact.{exact_lead};

    ghost exact = { exact_lead };
}
