//! What the table keeps of a bundle.

ghost use Rattle.std.specs.Prelude.{◌≡◌, None, if◌then◌else◌};
ghost use Rattle.osgi_ops.specs.States.{is_changing};

use osgi_base::{BundleId, Tag, Text};
use osgi_ops::is_changing;
use osgi_version::Version;

/// A live bundle: where it was installed from, its symbolic name and version, whether it is a fragment, the number of the
/// depot's row that it comes from, its state by OSGi's number, and who last began to start or stop it.
#[derive(Drop, PartialEq, Eq)]
pub struct BundleKept {
    pub bundle: BundleId,
    pub location: Text,
    pub name: Text,
    pub version: Version,
    pub fragment: bool,
    pub row: u32,
    pub state: u8,
    pub by: Option<Tag>,
}

impl BundleKept {
    /// Whose line began the start or the stop of the bundle, where that has not ended.
    pub fn changed_by(&self) -> Option<Tag>
        ensures by { result ≡ (if is_changing self.now.state then self.now.by else None) }
    {
        if is_changing(self.state) {
            self.by
        } else {
            None
        }
    }
}
