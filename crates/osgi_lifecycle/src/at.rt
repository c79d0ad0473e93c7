//! Where a plan waits, and what it does then.

use osgi_base::BundleId;

/// What comes after a start, whatever came of it.
#[derive(Clone, Copy)]
pub enum AfterStart {
    /// The plan ends. Whether something before the start was refused.
    End { refused: bool },
    /// The plan ends as done, whether the start was refused or not.
    Loaded,
    /// The next bundle of a refresh is started.
    Refresh,
    /// The next bundle of this level is started, on the way up.
    Climb { level: u8, to: u8 },
}

/// What comes after a stop.
#[derive(Clone, Copy)]
pub enum AfterStop {
    /// The plan ends.
    End,
    /// The bundle is updated.
    Update { bundle: BundleId },
    /// The bundle is uninstalled.
    Uninstall { bundle: BundleId },
    /// The next bundle of a refresh is stopped.
    Refresh,
    /// The next bundle above this level is stopped, on the way down.
    Descend { level: u8, to: u8 },
    /// The bundle's level is set again.
    SetLevel { bundle: BundleId, level: u8 },
}

/// How a stop went.
#[derive(Clone, Copy)]
pub enum HowStopped {
    /// Well, whether or not there was something to stop.
    Stopped { begun: bool },
    /// Its section failed.
    SectionFailed,
    /// It was refused otherwise.
    NotStopped,
}

/// The operation whose reply a plan waits for, or the section whose end, with what is needed to go on.
#[derive(Clone, Copy)]
pub enum At {
    /// The last operation of a plan that ends as it was answered.
    Only,
    Register,
    Find,
    Fail,
    /// The object of a service.
    Get,
    /// The section that makes the object.
    MakeSection,
    WishStart {
        transient: bool,
        after: AfterStart,
    },
    Resolve {
        bundle: BundleId,
        transient: bool,
        after: AfterStart,
    },
    /// The wish to start a bundle, which may wait.
    WishLazy,
    /// The resolve before it is known whether the bundle waits.
    ResolveLazy {
        bundle: BundleId,
    },
    /// Whether the bundle waits.
    Await {
        bundle: BundleId,
    },
    BeginStart {
        bundle: BundleId,
        after: AfterStart,
    },
    StartSection {
        bundle: BundleId,
        after: AfterStart,
    },
    EndStart {
        after: AfterStart,
    },
    BeginStop {
        after: AfterStop,
    },
    StopSection {
        bundle: BundleId,
        after: AfterStop,
    },
    EndStop {
        after: AfterStop,
    },
    /// The resolve before a class is loaded.
    LoadResolve {
        bundle: BundleId,
    },
    /// The load of the class, after which a bundle that waited for it is started.
    Load,
    /// The update, after which the bundle is started again or not.
    Update {
        bundle: BundleId,
        restart: bool,
    },
    BeginRefresh,
    DropWirings,
    BeginLevel,
    /// The move up to the level.
    MoveUp {
        level: u8,
        to: u8,
    },
    /// The list of the level above this one.
    ListLevel {
        level: u8,
        to: u8,
    },
    /// The move down to the level.
    MoveDown {
        level: u8,
        to: u8,
    },
    SetLevel {
        bundle: BundleId,
        level: u8,
    },
    SetLevelAgain {
        bundle: BundleId,
    },
}
