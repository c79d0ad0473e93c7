//! Why the manifest of a bundle is rejected, and where.

ghost use Rattle.std.specs.Prelude.{◌≡◌, IfOk};

use osgi_base::{Copied, Text};
use std::alloc::{AllocError, Global};

/// What is wrong with a manifest.
#[derive(Clone, Copy, Debug, PartialEq, Eq)]
pub enum ManifestKind {
    /// The folder has no manifest.
    NoManifest,
    /// A line of it is no header.
    Header,
    /// `Bundle-ManifestVersion` is missing or not 2.
    ManifestVersion,
    /// The symbolic name is missing.
    NoName,
    /// The symbolic name is not of letters, digits, `_` and `-` with dots between.
    BadName,
    /// A version cannot be read.
    BadVersion,
    /// The value is not a list of clauses, or a clause has an attribute or a directive twice.
    BadClause,
    /// A range of versions cannot be read.
    BadRange,
    /// The bundle extends the framework itself.
    Extension,
    /// A value has the type Double.
    DoubleType,
    /// A value is not of its type, or the type is unknown.
    BadValue,
    /// A package is imported twice.
    DuplicateImport,
    /// A package of Java is exported.
    JavaExport,
    /// An export gives an attribute that it has from its bundle: the symbolic name or the version.
    ImplicitAttribute,
    /// A filter cannot be read.
    BadFilter,
    /// The namespace is one that other headers are for.
    ReservedNamespace,
    /// The folder has no file for the activator.
    NoScript,
    /// The activator's file is not a script.
    BadScript,
    /// The bundle has native code.
    NativeCode,
}

/// Why a manifest is rejected: the header, what is wrong with it, and the byte of its value at which its first faulty clause
/// begins, 0 where there is no clause. Where no one header is at fault the name is empty, and a line fault counts bytes of the
/// whole manifest.
#[derive(Drop)]
pub struct ManifestFault {
    pub header: Text,
    pub kind: ManifestKind,
    pub at: u64,
}

impl ManifestFault {
    pub fn copy(&self, alloc: Global) -> Result<ManifestFault, AllocError>
        ensures same { IfOk result (λ copy. copy ≡ self.now) }
    {
        Ok(ManifestFault {
            header: self.header.copy(alloc)?,
            kind: self.kind,
            at: self.at,
        })
    }
}

impl Copied for ManifestFault {
    fn copied(&self, alloc: Global) -> Result<ManifestFault, AllocError> {
        self.copy(alloc)
    }
}
