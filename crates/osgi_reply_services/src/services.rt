//! What operations on services answer, and change in the registry.

ghost use Rattle.std.specs.Prelude.{◌≡◌, ◌<◌, IfOk, map, None};
ghost use Rattle.osgi_ops.specs.Brackets.{opens};
ghost use Rattle.osgi_ops.specs.rows.Lists.{service_row};
ghost use Rattle.osgi_ops.specs.declared.op.Op.TheVariants as op;
ghost use Rattle.osgi_registry.specs.Rows.{services_in, use_count};
ghost use Rattle.osgi_reply_services.specs.Changes.{IsReplyAndChange};
ghost use Rattle.osgi_reply_services.specs.Served.{IsServedToAll};

use crate::change::ServiceChange;
use osgi_base::{BundleId, List, ServiceId, Text};
use osgi_model::{Attributes, Filter};
use osgi_ops::{Refusal, Reply, Scope, Service, ServiceRow};
use osgi_registry::{Registry, ranking};
use std::alloc::{AllocError, Global};

pub fn register(
    alloc: Global,
    registry: &Registry,
    owner: BundleId,
    classes: &List<Text>,
    object: &Text,
    scope: Scope,
    properties: &Attributes,
) -> Result<(Reply, ServiceChange), AllocError>
    requires ids { registry.now.issued < u32.MAX }
    ensures decided { IfOk result (λ r.
        IsReplyAndChange (op.Register owner classes.now object.now scope properties.now)
        registry.now r.0 r.1) }
{
    let Scope::Singleton = scope else {
        let refusal = Refusal::InvalidOperation;
        return Ok((Reply::Refused { refusal }, ServiceChange::Nothing));
    };
    let made = registry.make(
        owner,
        classes.copy(alloc)?,
        object.copy(alloc)?,
        scope,
        properties.copy(alloc)?,
    )?;
    match made {
        Ok(made) => {
            let service = made.service;
            Ok((
                Reply::Service { service },
                ServiceChange::Insert {
                    service: made,
                    scope,
                },
            ))
        }
        Err(refusal) => Ok((Reply::Refused { refusal }, ServiceChange::Nothing)),
    }
}

pub fn modify(
    alloc: Global,
    registry: &Registry,
    owner: BundleId,
    service: ServiceId,
    properties: &Attributes,
) -> Result<(Reply, ServiceChange), AllocError>
    ensures decided { IfOk result (λ r.
        IsReplyAndChange (op.Modify owner service properties.now) registry.now r.0 r.1) }
{
    if let Some(refusal) = registry.modify_refusal(owner, service, properties)? {
        return Ok((Reply::Refused { refusal }, ServiceChange::Nothing));
    }
    let Some(made) = registry.make_modified(service, properties.copy(alloc)?)? else {
        unreachable!()
    };
    Ok((Reply::Done, ServiceChange::Modify { service: made }))
}

pub fn unregister(
    registry: &Registry,
    owner: BundleId,
    service: ServiceId,
) -> (Reply, ServiceChange)
    ensures decided { IsReplyAndChange (op.Unregister owner service) registry.now result.0
        result.1 }
{
    match registry.refusal_of(owner, service) {
        Some(refusal) => (Reply::Refused { refusal }, ServiceChange::Nothing),
        None => (Reply::Done, ServiceChange::Remove { owner, service }),
    }
}

pub fn find_all(
    registry: &Registry,
    asker: BundleId,
    class: &Text,
    filter: &Option<Filter>,
) -> Result<Reply, AllocError>
    ensures served { IfOk result
        (IsServedToAll (op.FindAll asker class.now filter.now) registry.now registry.now) }
{
    let services = registry.find_all(class, filter.as_ref())?;
    Ok(Reply::Services { services })
}

pub fn get(
    alloc: Global,
    registry: &Registry,
    user: BundleId,
    service: ServiceId,
) -> Result<(Reply, ServiceChange), AllocError>
    requires countable { use_count user service registry.now.rows < u64.MAX }
    ensures decided { IfOk result (λ r.
        IsReplyAndChange (op.Get user service) registry.now r.0 r.1) }
    ensures unopened { IfOk result (λ r. opens (op.Get user service) r.0 ≡ None) }
{
    let Some(object) = registry.object(service) else {
        let refusal = Refusal::NoSuchService;
        return Ok((Reply::Refused { refusal }, ServiceChange::Nothing));
    };
    let text = object.copy(alloc)?;
    Ok((
        Reply::Object { text },
        ServiceChange::AddUse { user, service },
    ))
}

pub fn unget(registry: &Registry, user: BundleId, service: ServiceId) -> (Reply, ServiceChange)
    ensures decided { IsReplyAndChange (op.Unget user service) registry.now result.0 result.1 }
{
    if registry.is_used(user, service) {
        (
            Reply::Flag { value: true },
            ServiceChange::TakeUse { user, service },
        )
    } else {
        (Reply::Flag { value: false }, ServiceChange::Nothing)
    }
}

/// What a list of services shows of one.
fn row(alloc: Global, service: &Service) -> Result<ServiceRow, AllocError>
    ensures row { IfOk result (λ row. row ≡ service_row service.now) }
{
    Ok(ServiceRow {
        service: service.service,
        owner: service.owner,
        ranking: ranking(service.properties.items()),
        classes: service.classes.copy(alloc)?,
        object: service.object.copy(alloc)?,
    })
}

/// All services, by rising id.
fn rows(alloc: Global, registry: &Registry) -> Result<List<ServiceRow>, AllocError>
    ensures rows { IfOk result (λ rows. rows ≡ map service_row (services_in registry.now.rows)) }
{
    let mut rows = List::new(alloc)?;
    for service in registry.services() {
        rows.push(row(alloc, service)?)?;
    }
    Ok(rows)
}

pub fn list_services(alloc: Global, registry: &Registry) -> Result<Reply, AllocError>
    ensures served { IfOk result (IsServedToAll op.ListServices registry.now registry.now) }
{
    let rows = rows(alloc, registry)?;
    Ok(Reply::ServiceRows { rows })
}
