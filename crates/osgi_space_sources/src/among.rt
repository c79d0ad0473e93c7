//! The revisions from which constraints may come.

ghost use Rattle.std.specs.Prelude.{◌↔◌, IsTrue};
ghost use Rattle.osgi_space_sources.specs.computed.Amongst.{IsAmong};

use crate::revision_set::RevisionSet;
use std::collections::BTreeSet;

/// All revisions, those that are listed, or all but those that are listed.
#[derive(Clone, Copy)]
pub enum Among<'a> {
    All,
    Listed(&'a BTreeSet<u32>),
    AllBut(&'a RevisionSet),
}

impl Among<'_> {
    pub fn has(&self, revision: u32) -> bool
        ensures among { IsTrue result ↔ IsAmong self.now revision }
    {
        match self {
            Among::All => true,
            Among::Listed(listed) => listed.contains(&revision),
            Among::AllBut(others) => !others.has(revision),
        }
    }
}
