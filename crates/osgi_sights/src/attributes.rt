//! What filters read of happenings that are not of services.

ghost use Rattle.std.specs.Prelude.{◌≡◌, ◌↔◌, [], ◌∷◌, codes, IfOk, IsTrue};
ghost use Rattle.osgi_ops.specs.Listening.{LetsPass, number};
ghost use Rattle.osgi_sights.specs.Shown.{shown};
ghost use Rattle.osgi_sights.specs.Sights.{bundle_attributes};
ghost use Rattle.osgi_sights.specs.computed.Telling.{AreMade, attributes_of};

use crate::happening::Happening;
use osgi_base::{BundleId, List, Text};
use osgi_filter::{Case, matches};
use osgi_model::{Attribute, Attributes, Filter, Value};
use osgi_version::Version;
use std::alloc::{AllocError, Global};

/// Whether the filter, where one is given, matches the attributes.
pub fn passes(filter: &Option<Filter>, attributes: &Attributes) -> bool
    ensures passes { IsTrue result ↔ LetsPass filter.now attributes.now }
{
    match filter {
        Some(filter) => matches(filter, attributes, Case::Fold),
        None => true,
    }
}

/// A name with a number.
fn number(alloc: Global, name: &[u8], held: u32) -> Result<Attribute, AllocError>
    ensures number { IfOk result (λ attribute. attribute ≡ number name.now held) }
{
    Ok(Attribute {
        name: Text::of(alloc, name)?,
        value: Value::Long(i64::from(held)),
    })
}

/// The code of a happening and the id of its bundle.
fn numbers(alloc: Global, code: u16, bundle: BundleId) -> Result<Attributes, AllocError>
    ensures numbers { IfOk result (λ attributes.
        attributes ≡ number (codes "event.type") code ∷ number (codes "bundle.id") bundle.0 ∷ []) }
{
    let mut attributes = List::new(alloc)?;
    attributes.push(number(alloc, b"event.type", u32::from(code))?)?;
    attributes.push(number(alloc, b"bundle.id", bundle.0)?)?;
    Ok(attributes)
}

/// What filters read of a bundle's happening.
fn bundle_attributes(
    alloc: Global,
    code: u16,
    bundle: BundleId,
    name: &Text,
    version: &Version,
) -> Result<Attributes, AllocError>
    ensures attributes { IfOk result (λ attributes.
        attributes ≡ bundle_attributes code bundle name.now version.now) }
{
    let mut attributes = numbers(alloc, code, bundle)?;
    attributes.push(Attribute {
        name: Text::of(alloc, b"bundle.name")?,
        value: Value::Text(name.copy(alloc)?),
    })?;
    attributes.push(Attribute {
        name: Text::of(alloc, b"bundle.version")?,
        value: Value::Version(version.copy(alloc)?),
    })?;
    Ok(attributes)
}

/// What filters read of a happening. Nothing is made of one of a service: there they read its properties.
fn attributes_of(alloc: Global, happening: &Happening<'_>) -> Result<Attributes, AllocError>
    ensures attributes { IfOk result (λ attributes.
        attributes ≡ attributes_of (shown happening.now)) }
{
    match *happening {
        Happening::Bundle {
            code,
            bundle,
            name,
            version,
        } => bundle_attributes(alloc, code, bundle, name, version),
        Happening::Framework { code } => numbers(alloc, u16::from(code), BundleId(0)),
        _ => List::new(alloc),
    }
}

/// Whether the filter, where one is given, matches what is read of the happening, which is made for the first filter that asks.
pub fn passes_made(
    alloc: Global,
    filter: &Option<Filter>,
    happening: &Happening<'_>,
    made: &mut Option<Attributes>,
) -> Result<bool, AllocError>
    requires made { AreMade (shown happening.now) made.old }
    ensures passes { IfOk result (λ passes.
        IsTrue passes ↔ LetsPass filter.now (attributes_of (shown happening.now))) }
    ensures made { AreMade (shown happening.now) made.new }
{
    if filter.is_none() {
        return Ok(true);
    }
    if let Some(attributes) = made {
        return Ok(passes(filter, attributes));
    }
    let attributes = attributes_of(alloc, happening)?;
    let passes = passes(filter, &attributes);
    *made = Some(attributes);
    Ok(passes)
}
