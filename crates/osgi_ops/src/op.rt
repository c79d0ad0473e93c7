//! The operations of the framework. Each is one atomic step.

ghost use Rattle.std.specs.Prelude.{◌≡◌, IfOk};

use crate::kind::Kind;
use crate::object_id::ObjectId;
use crate::scope::Scope;
use crate::target::Target;
use osgi_base::{BundleId, Copied, List, ListenerId, ServiceId, Text, copy_three, copy_two};
use osgi_model::{Attributes, Filter};
use std::alloc::{AllocError, Global};

pub enum Op {
    /// Registers a service object of a scope under one or more class names, with properties.
    Register {
        owner: BundleId,
        classes: List<Text>,
        object: Text,
        scope: Scope,
        properties: Attributes,
    },
    /// Replaces all properties that were given for a service.
    Modify {
        owner: BundleId,
        service: ServiceId,
        properties: Attributes,
    },
    /// Unregisters a service.
    Unregister {
        owner: BundleId,
        service: ServiceId,
    },
    /// Asks for the best of a class's services that the filter, if there is one, matches, and that are assignable to the
    /// asker for each of their classes.
    Find {
        asker: BundleId,
        class: Text,
        filter: Option<Filter>,
    },
    /// Asks for all services of a class that the filter, if there is one, matches, assignable or not.
    FindAll {
        asker: BundleId,
        class: Text,
        filter: Option<Filter>,
    },
    /// Asks for a service's object, and counts one more use of the service by the user.
    Get {
        user: BundleId,
        service: ServiceId,
    },
    /// Counts one use less.
    Unget {
        user: BundleId,
        service: ServiceId,
    },
    /// Asks for an object of a service that is the user's own, where the service's scope gives such; else as `Get`.
    GetOwn {
        user: BundleId,
        service: ServiceId,
    },
    /// Ends the making of an object, whose section failed or did not.
    EndMake {
        failed: bool,
    },
    /// Gives the text of the object that is being made.
    Give {
        owner: BundleId,
        text: Text,
    },
    /// Gives an object of the user's own back.
    UngetOwn {
        user: BundleId,
        service: ServiceId,
        object: ObjectId,
    },
    /// Adds a listener, by the name of its section in the script of its bundle.
    AddListener {
        owner: BundleId,
        name: Text,
        kind: Kind,
        filter: Option<Filter>,
    },
    /// Removes a listener.
    RemoveListener {
        owner: BundleId,
        name: Text,
    },
    /// Hands the next event to the listener that it is for.
    Hand,
    /// Ends the handing of an event to a listener.
    EndHand {
        listener: ListenerId,
    },
    /// Queues a job, by the name of its section.
    QueueJob {
        owner: BundleId,
        name: Text,
    },
    /// Takes the oldest job that is queued.
    TakeJob,
    /// Ends a job that was taken.
    EndJob,
    /// Prints a text.
    Print {
        owner: BundleId,
        text: Text,
    },
    /// Says that a section fails, and why.
    Fail {
        owner: BundleId,
        text: Text,
    },
    /// Installs the bundle at a location.
    Install {
        location: Text,
    },
    /// Resolves a bundle, and those that it needs.
    Resolve {
        bundle: BundleId,
    },
    /// Asks whether a bundle is to be started now. If it is not active yet and the start is not transient, the bundle is marked
    /// to be started with its start level.
    WishStart {
        target: Target,
        transient: bool,
    },
    /// Begins to start a bundle.
    BeginStart {
        bundle: BundleId,
        transient: bool,
    },
    /// Asks whether a bundle is to be started now, or waits until a class of it is loaded.
    Await {
        bundle: BundleId,
    },
    /// Ends the start of a bundle, whose section failed or did not.
    EndStart {
        bundle: BundleId,
        failed: bool,
    },
    /// Begins to stop a bundle.
    BeginStop {
        target: Target,
        transient: bool,
    },
    /// Ends the stop of a bundle, whose section failed or did not.
    EndStop {
        bundle: BundleId,
        failed: bool,
    },
    /// Replaces what the bundle has by the folder at a location.
    Update {
        bundle: BundleId,
        location: Text,
    },
    /// Uninstalls a bundle.
    Uninstall {
        bundle: BundleId,
    },
    /// Begins to refresh the bundles and those that depend on them; an empty list stands for all
    /// that have a revision waiting for removal.
    BeginRefresh {
        bundles: List<BundleId>,
    },
    /// Removes the wirings of the bundles that are refreshed.
    DropWirings,
    /// Ends the refresh.
    EndRefresh,
    /// Begins to change the active start level.
    BeginLevel {
        target_level: u8,
    },
    /// Asks for the bundles of a start level that are starting, active or stopping.
    ListLevel {
        level: u8,
    },
    /// Moves the active start level by one.
    MoveLevel {
        to: u8,
    },
    /// Ends the change of the active start level.
    EndLevel,
    /// Sets a bundle's start level.
    SetBundleLevel {
        bundle: BundleId,
        level: u8,
    },
    /// Asks which revision a bundle loads a class from.
    Load {
        bundle: BundleId,
        class: Text,
    },
    /// Asks for all live bundles.
    ListBundles,
    /// Asks for all live services.
    ListServices,
    /// Asks for the wires of a bundle.
    ListWires {
        bundle: BundleId,
    },
}

/// Not derived, so that each exit at which one is dropped is a single call, which is cheap to prove.
impl Drop for Op {
    fn drop(self) {
        match self {
            Op::Register {
                owner: _,
                classes: _,
                object: _,
                scope: _,
                properties: _,
            } => {}
            Op::Modify {
                owner: _,
                service: _,
                properties: _,
            } => {}
            Op::Unregister {
                owner: _,
                service: _,
            } => {}
            Op::Find {
                asker: _,
                class: _,
                filter: _,
            } => {}
            Op::FindAll {
                asker: _,
                class: _,
                filter: _,
            } => {}
            Op::Get {
                user: _,
                service: _,
            } => {}
            Op::Unget {
                user: _,
                service: _,
            } => {}
            Op::GetOwn {
                user: _,
                service: _,
            } => {}
            Op::EndMake { failed: _ } => {}
            Op::Give { owner: _, text: _ } => {}
            Op::UngetOwn {
                user: _,
                service: _,
                object: _,
            } => {}
            Op::AddListener {
                owner: _,
                name: _,
                kind: _,
                filter: _,
            } => {}
            Op::RemoveListener { owner: _, name: _ } => {}
            Op::Hand => {}
            Op::EndHand { listener: _ } => {}
            Op::QueueJob { owner: _, name: _ } => {}
            Op::TakeJob => {}
            Op::EndJob => {}
            Op::Print { owner: _, text: _ } => {}
            Op::Fail { owner: _, text: _ } => {}
            Op::Install { location: _ } => {}
            Op::Resolve { bundle: _ } => {}
            Op::WishStart {
                target: _,
                transient: _,
            } => {}
            Op::BeginStart {
                bundle: _,
                transient: _,
            } => {}
            Op::Await { bundle: _ } => {}
            Op::EndStart {
                bundle: _,
                failed: _,
            } => {}
            Op::BeginStop {
                target: _,
                transient: _,
            } => {}
            Op::EndStop {
                bundle: _,
                failed: _,
            } => {}
            Op::Update {
                bundle: _,
                location: _,
            } => {}
            Op::Uninstall { bundle: _ } => {}
            Op::BeginRefresh { bundles: _ } => {}
            Op::DropWirings => {}
            Op::EndRefresh => {}
            Op::BeginLevel { target_level: _ } => {}
            Op::ListLevel { level: _ } => {}
            Op::MoveLevel { to: _ } => {}
            Op::EndLevel => {}
            Op::SetBundleLevel {
                bundle: _,
                level: _,
            } => {}
            Op::Load {
                bundle: _,
                class: _,
            } => {}
            Op::ListBundles => {}
            Op::ListServices => {}
            Op::ListWires { bundle: _ } => {}
        }
    }
}

fn register(
    alloc: Global,
    owner: BundleId,
    classes: &List<Text>,
    object: &Text,
    scope: Scope,
    properties: &Attributes,
) -> Result<Op, AllocError>
    ensures made { IfOk result (λ made. made ≡ Op.Register owner classes.now object.now scope properties.now) }
{
    let (classes, object, properties) = copy_three(classes, object, properties, alloc)?;
    Ok(Op::Register {
        owner,
        classes,
        object,
        scope,
        properties,
    })
}

fn modify(
    alloc: Global,
    owner: BundleId,
    service: ServiceId,
    properties: &Attributes,
) -> Result<Op, AllocError>
    ensures made { IfOk result (λ made. made ≡ Op.Modify owner service properties.now) }
{
    Ok(Op::Modify {
        owner,
        service,
        properties: properties.copy(alloc)?,
    })
}

fn find(
    alloc: Global,
    asker: BundleId,
    class: &Text,
    filter: &Option<Filter>,
) -> Result<Op, AllocError>
    ensures made { IfOk result (λ made. made ≡ Op.Find asker class.now filter.now) }
{
    let (class, filter) = copy_two(class, filter, alloc)?;
    Ok(Op::Find {
        asker,
        class,
        filter,
    })
}

fn find_all(
    alloc: Global,
    asker: BundleId,
    class: &Text,
    filter: &Option<Filter>,
) -> Result<Op, AllocError>
    ensures made { IfOk result (λ made. made ≡ Op.FindAll asker class.now filter.now) }
{
    let (class, filter) = copy_two(class, filter, alloc)?;
    Ok(Op::FindAll {
        asker,
        class,
        filter,
    })
}

fn add_listener(
    alloc: Global,
    owner: BundleId,
    name: &Text,
    kind: Kind,
    filter: &Option<Filter>,
) -> Result<Op, AllocError>
    ensures made { IfOk result (λ made. made ≡ Op.AddListener owner name.now kind filter.now) }
{
    let (name, filter) = copy_two(name, filter, alloc)?;
    Ok(Op::AddListener {
        owner,
        name,
        kind,
        filter,
    })
}

impl Op {
    pub fn copy(&self, alloc: Global) -> Result<Op, AllocError>
        ensures same { IfOk result (λ copy. copy ≡ self.now) }
    {
        match self {
            Op::Register {
                owner,
                classes,
                object,
                scope,
                properties,
            } => register(alloc, *owner, classes, object, *scope, properties),
            Op::Modify {
                owner,
                service,
                properties,
            } => modify(alloc, *owner, *service, properties),
            &Op::Unregister { owner, service } => Ok(Op::Unregister { owner, service }),
            Op::Find {
                asker,
                class,
                filter,
            } => find(alloc, *asker, class, filter),
            Op::FindAll {
                asker,
                class,
                filter,
            } => find_all(alloc, *asker, class, filter),
            &Op::Get { user, service } => Ok(Op::Get { user, service }),
            &Op::Unget { user, service } => Ok(Op::Unget { user, service }),
            &Op::GetOwn { user, service } => Ok(Op::GetOwn { user, service }),
            &Op::EndMake { failed } => Ok(Op::EndMake { failed }),
            Op::Give { owner, text } => Ok(Op::Give {
                owner: *owner,
                text: text.copy(alloc)?,
            }),
            &Op::UngetOwn {
                user,
                service,
                object,
            } => Ok(Op::UngetOwn {
                user,
                service,
                object,
            }),
            Op::AddListener {
                owner,
                name,
                kind,
                filter,
            } => add_listener(alloc, *owner, name, *kind, filter),
            Op::RemoveListener { owner, name } => Ok(Op::RemoveListener {
                owner: *owner,
                name: name.copy(alloc)?,
            }),
            Op::Hand => Ok(Op::Hand),
            &Op::EndHand { listener } => Ok(Op::EndHand { listener }),
            Op::QueueJob { owner, name } => Ok(Op::QueueJob {
                owner: *owner,
                name: name.copy(alloc)?,
            }),
            Op::TakeJob => Ok(Op::TakeJob),
            Op::EndJob => Ok(Op::EndJob),
            Op::Print { owner, text } => Ok(Op::Print {
                owner: *owner,
                text: text.copy(alloc)?,
            }),
            Op::Fail { owner, text } => Ok(Op::Fail {
                owner: *owner,
                text: text.copy(alloc)?,
            }),
            Op::Install { location } => Ok(Op::Install {
                location: location.copy(alloc)?,
            }),
            &Op::Resolve { bundle } => Ok(Op::Resolve { bundle }),
            Op::WishStart { target, transient } => Ok(Op::WishStart {
                target: target.copy(alloc)?,
                transient: *transient,
            }),
            &Op::BeginStart { bundle, transient } => Ok(Op::BeginStart { bundle, transient }),
            &Op::Await { bundle } => Ok(Op::Await { bundle }),
            &Op::EndStart { bundle, failed } => Ok(Op::EndStart { bundle, failed }),
            Op::BeginStop { target, transient } => Ok(Op::BeginStop {
                target: target.copy(alloc)?,
                transient: *transient,
            }),
            &Op::EndStop { bundle, failed } => Ok(Op::EndStop { bundle, failed }),
            Op::Update { bundle, location } => Ok(Op::Update {
                bundle: *bundle,
                location: location.copy(alloc)?,
            }),
            &Op::Uninstall { bundle } => Ok(Op::Uninstall { bundle }),
            Op::BeginRefresh { bundles } => Ok(Op::BeginRefresh {
                bundles: bundles.copy(alloc)?,
            }),
            Op::DropWirings => Ok(Op::DropWirings),
            Op::EndRefresh => Ok(Op::EndRefresh),
            &Op::BeginLevel { target_level } => Ok(Op::BeginLevel { target_level }),
            &Op::ListLevel { level } => Ok(Op::ListLevel { level }),
            &Op::MoveLevel { to } => Ok(Op::MoveLevel { to }),
            Op::EndLevel => Ok(Op::EndLevel),
            &Op::SetBundleLevel { bundle, level } => Ok(Op::SetBundleLevel { bundle, level }),
            Op::Load { bundle, class } => Ok(Op::Load {
                bundle: *bundle,
                class: class.copy(alloc)?,
            }),
            Op::ListBundles => Ok(Op::ListBundles),
            Op::ListServices => Ok(Op::ListServices),
            &Op::ListWires { bundle } => Ok(Op::ListWires { bundle }),
        }
    }
}

impl Copied for Op {
    fn copied(&self, alloc: Global) -> Result<Op, AllocError> {
        self.copy(alloc)
    }
}
