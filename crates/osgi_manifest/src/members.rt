//! What a manifest asks for and offers, header by header.

ghost use Rattle.std.specs.Prelude.{◌≡◌, ◌≤◌, ◌++◌, length, IfOk};
ghost use Rattle.osgi_world.specs.declared.revision.TheConstants.{MAX_MEMBERS};
ghost use Rattle.osgi_manifest.specs.computed.Answers.{IsStep};
ghost use Rattle.osgi_manifest.specs.computed.Steps.{AreMembers, member_conditions};

use crate::lists::joined;
use crate::sections::{
    ExportPackage, ImportPackage, ProvideCapability, RequireBundle, RequireCapability, read_section,
};
use osgi_base::{List, Stop};
use osgi_header::Header;
use osgi_world::{Capability, ManifestFault, Requirement};
use std::alloc::{AllocError, Global};

/// What the headers of a manifest ask for and offer.
pub struct Members {
    /// The required bundles.
    pub bundles: List<Requirement>,
    /// The imported packages.
    pub imports: List<Requirement>,
    /// The exported packages.
    pub exports: List<Capability>,
    /// The required capabilities.
    pub required: List<Requirement>,
    /// The provided capabilities.
    pub provided: List<Capability>,
}

/// Not derived, so that each exit at which one is dropped is a single call, which is cheap to prove.
impl Drop for Members {
    fn drop(self) {
        let Members {
            bundles: _,
            imports: _,
            exports: _,
            required: _,
            provided: _,
        } = self;
    }
}

impl Members {
    /// What the headers ask for and offer, or the first of their faults.
    pub fn read(alloc: Global, headers: &[Header]) -> Result<Members, Stop<ManifestFault>>
        ensures step { IsStep (member_conditions headers.now) (AreMembers headers.now) result }
    {
        let bundles = read_section::<RequireBundle>(alloc, headers)?;
        let imports = read_section::<ImportPackage>(alloc, headers)?;
        let exports = read_section::<ExportPackage>(alloc, headers)?;
        let required = read_section::<RequireCapability>(alloc, headers)?;
        let provided = read_section::<ProvideCapability>(alloc, headers)?;
        Ok(Members {
            bundles,
            imports,
            exports,
            required,
            provided,
        })
    }

    /// All that is offered, after what the bundle offers of itself, and all that is asked for.
    pub fn lists(
        self,
        own: List<Capability>,
    ) -> Result<(List<Capability>, List<Requirement>), AllocError>
        ensures capabilities { IfOk result (λ all. all.0 ≡ own ++ (self.exports ++ self.provided)) }
        ensures requirements { IfOk result (λ all.
            all.1 ≡ self.bundles ++ (self.imports ++ self.required)) }
        ensures few { IfOk result (λ all.
            (length all.0 ≤ MAX_MEMBERS) × (length all.1 ≤ MAX_MEMBERS)) }
    {
        let Members {
            bundles,
            imports,
            exports,
            required,
            provided,
        } = self;
        let requirements = joined(bundles, imports, required)?;
        let capabilities = joined(own, exports, provided)?;
        Ok((capabilities, requirements))
    }
}
