//! Gets, with the uses of the user counted before, so that they are known to stay below the most that there can be.

ghost use Rattle.std.specs.Prelude.{◌≡◌, ◌+◌, ◌<◌, ◌≤◌, IfSome, IfOk, OnOk};
ghost use Rattle.osgi_registry.specs.Rows.{use_count};

use osgi_base::{BundleId, ServiceId, Text};
use osgi_ops::Refusal;
use osgi_registry::Registry;
use std::alloc::AllocError;

/// No user holds a service as often.
const MANY: u64 = 1000;

/// Takes back all uses of the service by the user, and says how many there were; none where there are too many.
fn take_back(registry: &mut Registry, user: BundleId, service: ServiceId) -> Option<u64>
    ensures none { IfSome result (λ uses. use_count user service registry.new.rows ≡ 0) }
    ensures few { IfSome result (λ uses. uses < 1000) }
    ensures issued { registry.new.issued ≡ registry.old.issued }
{
    for uses in 0..MANY {
        if !registry.unget(user, service) {
            return Some(uses);
        }
    }
    None
}

/// Takes one more use.
fn take_one(
    registry: &mut Registry,
    user: BundleId,
    service: ServiceId,
) -> Result<Result<Text, Refusal>, AllocError>
    requires { use_count user service registry.old.rows < 1000 }
    ensures more { use_count user service registry.new.rows ≤ use_count user service registry.old.rows + 1 }
    ensures issued { registry.new.issued ≡ registry.old.issued }
{
    registry.get(user, service)
}

/// Takes so many uses.
fn take(
    registry: &mut Registry,
    user: BundleId,
    service: ServiceId,
    uses: u64,
) -> Result<(), AllocError>
    requires none { use_count user service registry.old.rows ≡ 0 }
    requires few { uses < 1000 }
    ensures few { OnOk result (use_count user service registry.new.rows < 1000) }
    ensures issued { registry.new.issued ≡ registry.old.issued }
{
    for _ in 0..uses {
        let _ = take_one(registry, user, service)?;
    }
    Ok(())
}

/// How often the user holds the service: the uses are taken back one by one, and taken again. None where there are too many.
pub fn count(
    registry: &mut Registry,
    user: BundleId,
    service: ServiceId,
) -> Result<Option<u64>, AllocError>
    ensures few { IfOk result (λ count. IfSome count (λ _. use_count user service registry.new.rows < 1000)) }
    ensures issued { registry.new.issued ≡ registry.old.issued }
{
    let Some(uses) = take_back(registry, user, service) else {
        return Ok(None);
    };
    take(registry, user, service, uses)?;
    Ok(Some(uses))
}

/// Counts one more use, and answers as the registry does; out of memory where there are too many.
pub fn get(
    registry: &mut Registry,
    user: BundleId,
    service: ServiceId,
) -> Result<Result<Text, Refusal>, AllocError>
    ensures issued { registry.new.issued ≡ registry.old.issued }
{
    match count(registry, user, service)? {
        Some(_) => take_one(registry, user, service),
        None => Err(AllocError),
    }
}
