//! What happens at an entry.

use osgi_base::{BundleId, Text};
use osgi_ops::Service;
use osgi_version::Version;

/// What happened, by OSGi's code for it, with all that listeners and their filters read of it.
#[derive(Clone, Copy)]
pub enum Happening<'a> {
    /// A service came or went. It is given as it stands or last stood.
    Service {
        code: u8,
        service: &'a Service,
    },
    /// The properties of a service changed: as it stood, and as it stands.
    Modified {
        old: &'a Service,
        new: &'a Service,
    },
    /// Something became of a bundle, whose name and version are those of its current or last current revision.
    Bundle {
        code: u16,
        bundle: BundleId,
        name: &'a Text,
        version: &'a Version,
    },
    Framework {
        code: u8,
    },
}
