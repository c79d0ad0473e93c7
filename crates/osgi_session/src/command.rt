//! The commands of the console and of scripts.

ghost use Rattle.std.specs.Prelude.{◌≡◌, true, false, IfOk};
ghost use Rattle.osgi_ops.specs.declared.target.Target.TheVariants as target;
ghost use Rattle.osgi_session.specs.Beginnings.{is_peek, later_text, op_of};

use osgi_base::{BundleId, Copied, List, ServiceId, Text, copy_three, copy_two};
use osgi_model::{Attributes, Filter};
use osgi_ops::{Kind, ObjectId, Op, Scope, Target};
use std::alloc::{AllocError, Global};

pub enum Command {
    /// `register CLASS[,CLASS].. "TEXT" [PROP]..`
    Register {
        classes: List<Text>,
        object: Text,
        properties: Attributes,
    },
    /// `modify ID [PROP]..`
    Modify {
        service: ServiceId,
        properties: Attributes,
    },
    /// `unregister ID`
    Unregister {
        service: ServiceId,
    },
    /// `find CLASS [FILTER]`
    Find {
        class: Text,
        filter: Option<Filter>,
    },
    /// `findall CLASS [FILTER]`
    FindAll {
        class: Text,
        filter: Option<Filter>,
    },
    /// `get ID`
    Get {
        service: ServiceId,
    },
    /// `unget ID`
    Unget {
        service: ServiceId,
    },
    /// `getown ID`
    GetOwn {
        service: ServiceId,
    },
    /// `ungetown ID N`
    UngetOwn {
        service: ServiceId,
        object: ObjectId,
    },
    /// `factory CLASS[,CLASS].. bundle|prototype NAME [PROP]..`, in scripts
    Factory {
        classes: List<Text>,
        scope: Scope,
        name: Text,
        properties: Attributes,
    },
    /// `give "TEXT"`, in scripts
    Give {
        text: Text,
    },
    /// `peek CLASS [FILTER]`, which asks for no operation
    Peek {
        class: Text,
        filter: Option<Filter>,
    },
    /// `start -p ID`
    StartLazy {
        bundle: BundleId,
    },
    /// `start [-t] ID`
    Start {
        target: Target,
        transient: bool,
    },
    /// `stop [-t] ID`
    Stop {
        target: Target,
        transient: bool,
    },
    /// `load ID CLASS`
    Load {
        bundle: BundleId,
        class: Text,
    },
    /// `install LOCATION`
    Install {
        location: Text,
    },
    /// `update ID LOCATION`
    Update {
        bundle: BundleId,
        location: Text,
    },
    /// `uninstall ID`
    Uninstall {
        bundle: BundleId,
    },
    /// `resolve ID`
    Resolve {
        bundle: BundleId,
    },
    /// `refresh [ID]..`
    Refresh {
        bundles: List<BundleId>,
    },
    /// `wires ID`
    Wires {
        bundle: BundleId,
    },
    /// `level N`
    Level {
        level: u8,
    },
    /// `blevel ID N`
    BundleLevel {
        bundle: BundleId,
        level: u8,
    },
    /// `bundles`
    Bundles,
    /// `services`
    Services,
    /// `listen NAME service|all|bundle|framework [FILTER]`, in scripts
    Listen {
        name: Text,
        kind: Kind,
        filter: Option<Filter>,
    },
    /// `unlisten NAME`, in scripts
    Unlisten {
        name: Text,
    },
    /// `job NAME`, in scripts
    Job {
        name: Text,
    },
    /// `print "TEXT"`, in scripts
    Print {
        text: Text,
    },
    /// `fail "TEXT"`, in scripts
    Fail {
        text: Text,
    },
}

/// Not derived, so that each exit at which one is dropped is a single call, which is cheap to prove.
impl Drop for Command {
    fn drop(self) {
        match self {
            Command::Register {
                classes: _,
                object: _,
                properties: _,
            } => {}
            Command::Modify {
                service: _,
                properties: _,
            } => {}
            Command::Unregister { service: _ } => {}
            Command::Find {
                class: _,
                filter: _,
            } => {}
            Command::FindAll {
                class: _,
                filter: _,
            } => {}
            Command::Get { service: _ } => {}
            Command::GetOwn { service: _ } => {}
            Command::UngetOwn {
                service: _,
                object: _,
            } => {}
            Command::Factory {
                classes: _,
                scope: _,
                name: _,
                properties: _,
            } => {}
            Command::Give { text: _ } => {}
            Command::Peek {
                class: _,
                filter: _,
            } => {}
            Command::StartLazy { bundle: _ } => {}
            Command::Unget { service: _ } => {}
            Command::Start {
                target: _,
                transient: _,
            } => {}
            Command::Stop {
                target: _,
                transient: _,
            } => {}
            Command::Load {
                bundle: _,
                class: _,
            } => {}
            Command::Install { location: _ } => {}
            Command::Update {
                bundle: _,
                location: _,
            } => {}
            Command::Uninstall { bundle: _ } => {}
            Command::Resolve { bundle: _ } => {}
            Command::Refresh { bundles: _ } => {}
            Command::Wires { bundle: _ } => {}
            Command::Level { level: _ } => {}
            Command::BundleLevel {
                bundle: _,
                level: _,
            } => {}
            Command::Bundles => {}
            Command::Services => {}
            Command::Listen {
                name: _,
                kind: _,
                filter: _,
            } => {}
            Command::Unlisten { name: _ } => {}
            Command::Job { name: _ } => {}
            Command::Print { text: _ } => {}
            Command::Fail { text: _ } => {}
        }
    }
}

fn register(
    alloc: Global,
    classes: &List<Text>,
    object: &Text,
    properties: &Attributes,
) -> Result<Command, AllocError>
    ensures made { IfOk result (λ made. made ≡ Command.Register classes.now object.now properties.now) }
{
    let (classes, object, properties) = copy_three(classes, object, properties, alloc)?;
    Ok(Command::Register {
        classes,
        object,
        properties,
    })
}

fn modify(alloc: Global, service: ServiceId, properties: &Attributes) -> Result<Command, AllocError>
    ensures made { IfOk result (λ made. made ≡ Command.Modify service properties.now) }
{
    Ok(Command::Modify {
        service,
        properties: properties.copy(alloc)?,
    })
}

fn find(alloc: Global, class: &Text, filter: &Option<Filter>) -> Result<Command, AllocError>
    ensures made { IfOk result (λ made. made ≡ Command.Find class.now filter.now) }
{
    let (class, filter) = copy_two(class, filter, alloc)?;
    Ok(Command::Find { class, filter })
}

fn find_all(alloc: Global, class: &Text, filter: &Option<Filter>) -> Result<Command, AllocError>
    ensures made { IfOk result (λ made. made ≡ Command.FindAll class.now filter.now) }
{
    let (class, filter) = copy_two(class, filter, alloc)?;
    Ok(Command::FindAll { class, filter })
}

fn listen(
    alloc: Global,
    name: &Text,
    kind: Kind,
    filter: &Option<Filter>,
) -> Result<Command, AllocError>
    ensures made { IfOk result (λ made. made ≡ Command.Listen name.now kind filter.now) }
{
    let (name, filter) = copy_two(name, filter, alloc)?;
    Ok(Command::Listen { name, kind, filter })
}

fn factory(
    alloc: Global,
    classes: &List<Text>,
    scope: Scope,
    name: &Text,
    properties: &Attributes,
) -> Result<Command, AllocError>
    ensures made { IfOk result (λ made. made ≡ Command.Factory classes.now scope name.now properties.now) }
{
    let (classes, name, properties) = copy_three(classes, name, properties, alloc)?;
    Ok(Command::Factory {
        classes,
        scope,
        name,
        properties,
    })
}

fn peek(alloc: Global, class: &Text, filter: &Option<Filter>) -> Result<Command, AllocError>
    ensures made { IfOk result (λ made. made ≡ Command.Peek class.now filter.now) }
{
    let (class, filter) = copy_two(class, filter, alloc)?;
    Ok(Command::Peek { class, filter })
}

impl Command {
    pub fn copy(&self, alloc: Global) -> Result<Command, AllocError>
        ensures same { IfOk result (λ copy. copy ≡ self.now) }
    {
        match self {
            Command::Register {
                classes,
                object,
                properties,
            } => register(alloc, classes, object, properties),
            Command::Modify {
                service,
                properties,
            } => modify(alloc, *service, properties),
            &Command::Unregister { service } => Ok(Command::Unregister { service }),
            Command::Find { class, filter } => find(alloc, class, filter),
            Command::FindAll { class, filter } => find_all(alloc, class, filter),
            &Command::Get { service } => Ok(Command::Get { service }),
            &Command::GetOwn { service } => Ok(Command::GetOwn { service }),
            &Command::UngetOwn { service, object } => Ok(Command::UngetOwn { service, object }),
            Command::Factory {
                classes,
                scope,
                name,
                properties,
            } => factory(alloc, classes, *scope, name, properties),
            Command::Give { text } => Ok(Command::Give {
                text: text.copy(alloc)?,
            }),
            Command::Peek { class, filter } => peek(alloc, class, filter),
            &Command::StartLazy { bundle } => Ok(Command::StartLazy { bundle }),
            &Command::Unget { service } => Ok(Command::Unget { service }),
            Command::Start { target, transient } => Ok(Command::Start {
                target: target.copy(alloc)?,
                transient: *transient,
            }),
            Command::Stop { target, transient } => Ok(Command::Stop {
                target: target.copy(alloc)?,
                transient: *transient,
            }),
            Command::Load { bundle, class } => Ok(Command::Load {
                bundle: *bundle,
                class: class.copy(alloc)?,
            }),
            Command::Install { location } => Ok(Command::Install {
                location: location.copy(alloc)?,
            }),
            Command::Update { bundle, location } => Ok(Command::Update {
                bundle: *bundle,
                location: location.copy(alloc)?,
            }),
            &Command::Uninstall { bundle } => Ok(Command::Uninstall { bundle }),
            &Command::Resolve { bundle } => Ok(Command::Resolve { bundle }),
            Command::Refresh { bundles } => Ok(Command::Refresh {
                bundles: bundles.copy(alloc)?,
            }),
            &Command::Wires { bundle } => Ok(Command::Wires { bundle }),
            &Command::Level { level } => Ok(Command::Level { level }),
            &Command::BundleLevel { bundle, level } => Ok(Command::BundleLevel { bundle, level }),
            Command::Bundles => Ok(Command::Bundles),
            Command::Services => Ok(Command::Services),
            Command::Listen { name, kind, filter } => listen(alloc, name, *kind, filter),
            Command::Unlisten { name } => Ok(Command::Unlisten {
                name: name.copy(alloc)?,
            }),
            Command::Job { name } => Ok(Command::Job {
                name: name.copy(alloc)?,
            }),
            Command::Print { text } => Ok(Command::Print {
                text: text.copy(alloc)?,
            }),
            Command::Fail { text } => Ok(Command::Fail {
                text: text.copy(alloc)?,
            }),
        }
    }

    /// The operation that the command's plan begins with, where the bundle runs it, of the command's own parts, and the text that
    /// a later operation needs, if one does.
    pub fn into_op(self, asker: BundleId) -> (Op, Option<Text>)
        requires asks { is_peek self ≡ false }
        ensures operation { result.0 ≡ op_of asker self }
        ensures later { result.1 ≡ later_text asker self }
    {
        let (owner, user) = (asker, asker);
        let op = match self {
            Command::Load { bundle, class } => return load(asker, bundle, class),
            Command::Update { bundle, location } => return (stop(bundle), Some(location)),
            Command::Uninstall { bundle } => stop(bundle),
            Command::Register {
                classes,
                object,
                properties,
            } => Op::Register {
                owner,
                classes,
                object,
                scope: Scope::Singleton,
                properties,
            },
            Command::Modify {
                service,
                properties,
            } => Op::Modify {
                owner,
                service,
                properties,
            },
            Command::Unregister { service } => Op::Unregister { owner, service },
            Command::Find { class, filter } => Op::Find {
                asker,
                class,
                filter,
            },
            Command::FindAll { class, filter } => Op::FindAll {
                asker,
                class,
                filter,
            },
            Command::Get { service } => Op::Get { user, service },
            Command::GetOwn { service } => Op::GetOwn { user, service },
            Command::UngetOwn { service, object } => Op::UngetOwn {
                user,
                service,
                object,
            },
            Command::Factory {
                classes,
                scope,
                name,
                properties,
            } => Op::Register {
                owner,
                classes,
                object: name,
                scope,
                properties,
            },
            Command::Give { text } => Op::Give { owner, text },
            // It asks for none.
            Command::Peek {
                class: _,
                filter: _,
            } => Op::ListServices,
            Command::StartLazy { bundle } => Op::WishStart {
                target: Target::Id(bundle),
                transient: false,
            },
            Command::Unget { service } => Op::Unget { user, service },
            Command::Start { target, transient } => Op::WishStart { target, transient },
            Command::Stop { target, transient } => Op::BeginStop { target, transient },
            Command::Install { location } => Op::Install { location },
            Command::Resolve { bundle } => Op::Resolve { bundle },
            Command::Refresh { bundles } => Op::BeginRefresh { bundles },
            Command::Wires { bundle } => Op::ListWires { bundle },
            Command::Level { level } => Op::BeginLevel {
                target_level: level,
            },
            Command::BundleLevel { bundle, level } => Op::SetBundleLevel { bundle, level },
            Command::Bundles => Op::ListBundles,
            Command::Services => Op::ListServices,
            Command::Listen { name, kind, filter } => Op::AddListener {
                owner,
                name,
                kind,
                filter,
            },
            Command::Unlisten { name } => Op::RemoveListener { owner, name },
            Command::Job { name } => Op::QueueJob { owner, name },
            Command::Print { text } => Op::Print { owner, text },
            Command::Fail { text } => Op::Fail { owner, text },
        };
        (op, None)
    }
}

/// What a bundle asks for to load a class; the console resolves the bundle first.
fn load(asker: BundleId, bundle: BundleId, class: Text) -> (Op, Option<Text>)
    ensures operation { result.0 ≡ op_of asker (Command.Load bundle class) }
    ensures later { result.1 ≡ later_text asker (Command.Load bundle class) }
{
    if asker.0 == 0 {
        (Op::Resolve { bundle }, Some(class))
    } else {
        (Op::Load { bundle, class }, None)
    }
}

/// The stop with which an update and an uninstall begin. It is transient: a bundle that is marked to be started stays so.
fn stop(bundle: BundleId) -> Op
    ensures stop { result ≡ Op.BeginStop (target.Id bundle) true }
{
    Op::BeginStop {
        target: Target::Id(bundle),
        transient: true,
    }
}

impl Copied for Command {
    fn copied(&self, alloc: Global) -> Result<Command, AllocError> {
        self.copy(alloc)
    }
}
