//! The calls of the registry that operations come to.

ghost use Rattle.std.specs.Prelude.{◌≡◌, ◌+◌, ◌<◌, ◌≤◌};

use crate::assignable::Assignable;
use crate::uses::get;
use osgi_base::{BundleId, List, ServiceId, Text};
use osgi_model::{Attributes, Filter};
use osgi_ops::{Op, Refusal, Reply, Scope, Service, ServiceRow};
use osgi_registry::{Registry, ranking};
use std::alloc::{AllocError, Global};

fn done(answer: Result<(), Refusal>) -> Reply {
    match answer {
        Ok(()) => Reply::Done,
        Err(refusal) => Reply::Refused { refusal },
    }
}

fn registered(answer: Result<ServiceId, Refusal>) -> Reply {
    match answer {
        Ok(service) => Reply::Service { service },
        Err(refusal) => Reply::Refused { refusal },
    }
}

fn object(answer: Result<Text, Refusal>) -> Reply {
    match answer {
        Ok(text) => Reply::Object { text },
        Err(refusal) => Reply::Refused { refusal },
    }
}

fn find(
    registry: &Registry,
    class: &Text,
    filter: Option<&Filter>,
    assignable: Assignable<'_>,
) -> Option<ServiceId> {
    registry.find(
        class,
        filter,
        |registrant: BundleId, class: &Text| -> bool { assignable.allows(registrant, class) },
    )
}

/// What a list of services shows of one.
fn row(alloc: Global, service: &Service) -> Result<ServiceRow, AllocError> {
    Ok(ServiceRow {
        service: service.service,
        owner: service.owner,
        ranking: ranking(service.properties.items()),
        classes: service.classes.copy(alloc)?,
        object: service.object.copy(alloc)?,
    })
}

fn rows(alloc: Global, registry: &Registry) -> Result<List<ServiceRow>, AllocError> {
    let mut rows = List::new(alloc)?;
    for service in registry.services() {
        rows.push(row(alloc, service)?)?;
    }
    Ok(rows)
}

fn register(
    alloc: Global,
    registry: &mut Registry,
    owner: BundleId,
    classes: &List<Text>,
    object: &Text,
    scope: Scope,
    properties: &Attributes,
) -> Result<Reply, AllocError>
    requires { registry.old.issued < u32.MAX }
    ensures issued { registry.new.issued ≤ registry.old.issued + 1 }
{
    let classes = classes.copy(alloc)?;
    let object = object.copy(alloc)?;
    let properties = properties.copy(alloc)?;
    Ok(registered(registry.register(owner, classes, object, scope, properties)?))
}

fn modify(
    alloc: Global,
    registry: &mut Registry,
    owner: BundleId,
    service: ServiceId,
    properties: &Attributes,
) -> Result<Reply, AllocError>
    ensures issued { registry.new.issued ≡ registry.old.issued }
{
    let properties = properties.copy(alloc)?;
    Ok(done(registry.modify(owner, service, properties)?))
}

fn unregister(registry: &mut Registry, owner: BundleId, service: ServiceId) -> Reply
    ensures issued { registry.new.issued ≡ registry.old.issued }
{
    done(registry.unregister(owner, service))
}

fn get_object(
    registry: &mut Registry,
    user: BundleId,
    service: ServiceId,
) -> Result<Reply, AllocError>
    ensures issued { registry.new.issued ≡ registry.old.issued }
{
    Ok(object(get(registry, user, service)?))
}

fn unget(registry: &mut Registry, user: BundleId, service: ServiceId) -> Reply
    ensures issued { registry.new.issued ≡ registry.old.issued }
{
    Reply::Flag {
        value: registry.unget(user, service),
    }
}

fn find_all(
    registry: &Registry,
    class: &Text,
    filter: Option<&Filter>,
) -> Result<Reply, AllocError> {
    Ok(Reply::Services {
        services: registry.find_all(class, filter)?,
    })
}

fn list(alloc: Global, registry: &Registry) -> Result<Reply, AllocError> {
    Ok(Reply::ServiceRows {
        rows: rows(alloc, registry)?,
    })
}

/// What the registry answers to an operation that changes nothing.
fn answer_to(
    alloc: Global,
    registry: &Registry,
    op: &Op,
    assignable: Assignable<'_>,
) -> Result<Reply, AllocError> {
    match op {
        Op::Find { class, filter, .. } => Ok(Reply::Best {
            service: find(registry, class, filter.as_ref(), assignable),
        }),
        Op::FindAll { class, filter, .. } => find_all(registry, class, filter.as_ref()),
        Op::ListServices => list(alloc, registry),
        _ => Ok(Reply::Refused {
            refusal: Refusal::InvalidOperation,
        }),
    }
}

/// What the registry answers to an operation.
pub fn reply_to(
    alloc: Global,
    registry: &mut Registry,
    op: &Op,
    assignable: Assignable<'_>,
) -> Result<Reply, AllocError>
    requires { registry.old.issued < u32.MAX }
    ensures issued { registry.new.issued ≤ registry.old.issued + 1 }
{
    match op {
        Op::Register {
            owner,
            classes,
            object,
            scope,
            properties,
        } => register(alloc, registry, *owner, classes, object, *scope, properties),
        Op::Modify {
            owner,
            service,
            properties,
        } => modify(alloc, registry, *owner, *service, properties),
        &Op::Unregister { owner, service } => Ok(unregister(registry, owner, service)),
        &Op::Get { user, service } => get_object(registry, user, service),
        &Op::Unget { user, service } => Ok(unget(registry, user, service)),
        _ => answer_to(alloc, registry, op, assignable),
    }
}
