//! Revisions of a row.

ghost use Rattle.std.specs.Prelude.{◌≤◌, ◌+◌, IsTrue, length};
ghost use Rattle.osgi_world.specs.declared.revision.TheConstants.{MAX_MEMBERS};

use crate::attributes::version;
use crate::members::{capability, requirement};
use crate::numbers::text_of;
use osgi_base::{List, Text};
use osgi_version::Version;
use osgi_world::{Capability, MAX_MEMBERS, Requirement, Revision};
use std::alloc::{AllocError, Global};

/// Half of what a revision may have.
const FEW: usize = MAX_MEMBERS / 2;

/// Capabilities, requirements and dynamic imports.
#[derive(Drop)]
struct Members {
    capabilities: List<Capability>,
    requirements: List<Requirement>,
    dynamics: List<Requirement>,
}

/// What the words of a revision say of it.
#[derive(Drop)]
pub struct Draft {
    pub old: bool,
    single: bool,
    shut: bool,
    version: Version,
    host: Option<Requirement>,
    members: Members,
    files: List<Text>,
}

impl Members {
    fn new(alloc: Global) -> Members {
        Members {
            capabilities: List::from(Vec::new(alloc)),
            requirements: List::from(Vec::new(alloc)),
            dynamics: List::from(Vec::new(alloc)),
        }
    }

    /// Takes what a word with a value says.
    fn take(&mut self, alloc: Global, word: &str, value: &str) -> Result<(), AllocError> {
        if word == "dynamic" {
            self.dynamics.push(requirement(alloc, word, value)?)
        } else if word == "imports" || word == "requires" || word == "needs" {
            self.requirements.push(requirement(alloc, word, value)?)
        } else {
            self.capabilities.push(capability(alloc, word, value)?)
        }
    }

    /// Whether none of the lists is too long.
    fn are_few(&self) -> bool
        ensures few { IsTrue result → (length self.now.capabilities ≤ MAX_MEMBERS) × (length self.now.requirements + length self.now.dynamics ≤ MAX_MEMBERS) }
    {
        self.capabilities.items().len() <= FEW
            && self.requirements.items().len() <= FEW
            && self.dynamics.items().len() <= FEW
    }
}

impl Draft {
    fn new(alloc: Global) -> Draft {
        Draft {
            old: false,
            single: false,
            shut: false,
            version: Version::numbered(0, 0, 0),
            host: None,
            members: Members::new(alloc),
            files: List::from(Vec::new(alloc)),
        }
    }

    /// Takes a word without a value.
    fn set(&mut self, word: &str) {
        self.old = self.old || word == "old";
        self.single = self.single || word == "single";
        self.shut = self.shut || word == "shut";
    }

    fn set_version(&mut self, alloc: Global, text: &str) -> Result<(), AllocError> {
        self.version = version(alloc, text)?;
        Ok(())
    }

    fn set_host(&mut self, alloc: Global, text: &str) -> Result<(), AllocError> {
        self.host = Some(requirement(alloc, "requires", text)?);
        Ok(())
    }

    fn add_file(&mut self, alloc: Global, path: &str) -> Result<(), AllocError> {
        self.files.push(text_of(alloc, path)?)
    }

    /// Takes a word with a value.
    fn take(&mut self, alloc: Global, word: &str, value: &str) -> Result<(), AllocError> {
        if word == "version" {
            self.set_version(alloc, value)
        } else if word == "host" {
            self.set_host(alloc, value)
        } else if word == "file" {
            self.add_file(alloc, value)
        } else {
            self.members.take(alloc, word, value)
        }
    }
}

/// What the words say.
pub fn draft_of(alloc: Global, words: &str) -> Result<Draft, AllocError> {
    let mut draft = Draft::new(alloc);
    for word in words.split_whitespace() {
        match word.split_once('=') {
            Some((word, value)) => draft.take(alloc, word, value)?,
            None => draft.set(word),
        }
    }
    Ok(draft)
}

/// The revision of this name; out of memory where its lists are too long for one.
pub fn revision(alloc: Global, name: Text, draft: Draft) -> Result<Revision, AllocError> {
    if !draft.members.are_few() {
        return Err(AllocError);
    }
    Ok(Revision {
        name,
        version: draft.version,
        singleton: draft.single,
        attach: !draft.shut,
        host: draft.host,
        activator: None,
        capabilities: draft.members.capabilities,
        requirements: draft.members.requirements,
        dynamics: draft.members.dynamics,
        lazy: None,
        files: draft.files,
    })
}
