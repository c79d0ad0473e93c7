//! What a manifest says of its bundle, and what its folder means by that.

ghost use Rattle.std.specs.Prelude.{◌≡◌, IfOk};
ghost use Rattle.osgi_manifest.specs.Manifests.{manifest_faults};
ghost use Rattle.osgi_manifest.specs.computed.Answers.{IsStep};
ghost use Rattle.osgi_manifest.specs.computed.Revisions.{IsMadeOf};
ghost use Rattle.osgi_manifest.specs.computed.Steps.{IsSaid};

use crate::activator::{bundle_activator, native_code};
use crate::host::bundle_host;
use crate::lists::{file_paths, offers_itself};
use crate::meaning::Meaning;
use crate::members::Members;
use crate::naming::bundle_naming;
use crate::versions::{bundle_version, manifest_version};
use osgi_base::{Folder, List, Stop, Text};
use osgi_clause::Naming;
use osgi_header::Header;
use osgi_session::Script;
use osgi_version::Version;
use osgi_world::{ManifestFault, Requirement, Revision};
use std::alloc::{AllocError, Global};

/// What a manifest says of its bundle.
pub struct Said {
    pub naming: Naming,
    pub version: Version,
    /// The host that the bundle is a fragment of, if it is a fragment.
    pub host: Option<Requirement>,
    pub members: Members,
    /// The class that is the activator.
    pub activator: Option<Text>,
    /// The activator's script.
    pub script: Script,
}

/// Not derived, so that each exit at which one is dropped is a single call, which is cheap to prove.
impl Drop for Said {
    fn drop(self) {
        let Said {
            naming: _,
            version: _,
            host: _,
            members: _,
            activator: _,
            script: _,
        } = self;
    }
}

impl Said {
    /// What the headers say, or the first of their faults, in the order in which the rules list them.
    pub fn read(
        alloc: Global,
        folder: &Folder,
        headers: &[Header],
    ) -> Result<Said, Stop<ManifestFault>>
        ensures step { IsStep (manifest_faults folder.now headers.now)
            (IsSaid folder.now headers.now) result }
    {
        manifest_version(alloc, headers)?;
        let naming = bundle_naming(alloc, headers)?;
        let version = bundle_version(alloc, headers)?;
        let host = bundle_host(alloc, headers)?;
        let members = Members::read(alloc, headers)?;
        let (activator, script) = bundle_activator(alloc, folder, headers)?;
        native_code(alloc, headers)?;
        Ok(Said {
            naming,
            version,
            host,
            members,
            activator,
            script,
        })
    }

    /// The revision that the bundle with this folder has, and its script.
    pub fn meaning(self, alloc: Global, folder: &Folder) -> Result<Meaning, AllocError>
        ensures made { IfOk result (λ meaning. IsMadeOf folder.now self meaning.revision) }
        ensures script { IfOk result (λ meaning. meaning.script ≡ self.script) }
    {
        let own = offers_itself(alloc, &self.naming.name, self.host.is_some())?;
        let dynamics = List::new(alloc)?;
        let files = file_paths(alloc, folder)?;
        let Said {
            naming,
            version,
            host,
            members,
            activator,
            script,
        } = self;
        let (capabilities, requirements) = members.lists(own)?;
        Ok(Meaning {
            revision: Revision {
                name: naming.name,
                version,
                singleton: naming.singleton,
                attach: naming.attach,
                host,
                activator,
                capabilities,
                requirements,
                dynamics,
                lazy: None,
                files,
            },
            script,
        })
    }
}
