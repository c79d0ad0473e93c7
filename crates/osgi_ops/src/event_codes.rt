//! OSGi's codes of events.

/// The service was registered.
pub const SERVICE_REGISTERED: u8 = 1;

/// The properties of the service were changed.
pub const SERVICE_MODIFIED: u8 = 2;

/// The service was unregistered.
pub const SERVICE_UNREGISTERING: u8 = 4;

/// The properties of the service were changed so that the listener's filter does not match them any more.
pub const SERVICE_MODIFIED_ENDMATCH: u8 = 8;

/// The bundle was installed.
pub const BUNDLE_INSTALLED: u16 = 1;

/// The bundle was started.
pub const BUNDLE_STARTED: u16 = 2;

/// The bundle was stopped.
pub const BUNDLE_STOPPED: u16 = 4;

/// The bundle was updated.
pub const BUNDLE_UPDATED: u16 = 8;

/// The bundle was uninstalled.
pub const BUNDLE_UNINSTALLED: u16 = 16;

/// The bundle was resolved.
pub const BUNDLE_RESOLVED: u16 = 32;

/// The bundle is no longer resolved.
pub const BUNDLE_UNRESOLVED: u16 = 64;

/// The bundle is being started.
pub const BUNDLE_STARTING: u16 = 128;

/// The bundle is being stopped.
pub const BUNDLE_STOPPING: u16 = 256;

/// The bundle is to be started when a class that its policy names is loaded.
pub const BUNDLE_LAZY_ACTIVATION: u16 = 512;

/// A refresh has ended.
pub const FRAMEWORK_PACKAGES_REFRESHED: u8 = 4;

/// A walk over start levels has ended.
pub const FRAMEWORK_STARTLEVEL_CHANGED: u8 = 8;
