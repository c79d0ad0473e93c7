//! What the framework reads in the properties of services, and what it sets in them.

ghost use Rattle.std.specs.Prelude.{◌≡◌, ◌≤◌, IfOk, OnOk, [], ◌∷◌, ◌++◌, codes, filter, map, not, pos};
ghost use Rattle.std.specs.List.{list_any};
ghost use Rattle.std.specs.Option.{option_copied};
ghost use Rattle.std.specs.Str.{str_to_ascii_lowercase};
ghost use Rattle.osgi_ops.specs.Properties as spec;

use osgi_base::{BundleId, List, ServiceId, Text};
use osgi_model::{Attribute, Attributes, Value};
use osgi_ops::Scope;
use std::alloc::{AllocError, Global};
use std::collections::BTreeSet;

/// Whether the property has the name, which is compared without ASCII case.
fn is_named(name: &[u8], property: &Attribute) -> bool
    ensures named { result ≡ spec.is_named name.now property.now }
{
    property.name.bytes().eq_ignore_ascii_case(name)
}

/// Whether one of the properties has the name.
fn is_among(name: &[u8], properties: &[Attribute]) -> bool
    ensures among { result ≡ list_any (spec.is_named name.now) properties.now }
{
    for property in properties {
        if is_named(name, property) {
            return true;
        }
    }
    false
}

/// Up to so many names are compared with one another, which takes no memory.
const MAX_COMPARED: usize = 16;

/// Whether two of the properties have one name.
pub fn has_twins(alloc: Global, properties: &[Attribute]) -> Result<bool, AllocError>
    ensures twins { IfOk result (λ twins. twins ≡ spec.has_twins properties.now) }
{
    if properties.len() > MAX_COMPARED {
        return has_twins_of_many(alloc, properties);
    }
    Ok(has_twins_of_few(properties))
}

/// Compares each name with those after it.
fn has_twins_of_few(properties: &[Attribute]) -> bool
    ensures twins { result ≡ spec.has_twins properties.now }
{
    let mut left = properties;
    while let Some((first, rest)) = left.split_first() {
        if is_among(first.name.bytes(), rest) {
            return true;
        }
        left = rest;
    }
    false
}

/// Seeks each name among those before it, which an ordered set keeps, so that the time is near linear.
fn has_twins_of_many(alloc: Global, properties: &[Attribute]) -> Result<bool, AllocError>
    ensures twins { IfOk result (λ twins. twins ≡ spec.has_twins properties.now) }
{
    let mut names = BTreeSet::new(alloc);
    let mut left = properties;
    while let Some((first, rest)) = left.split_first() {
        let name = lowercase(alloc, &first.name)?;
        let is_new = names.insert(name)?;
        if !is_new {
            return Ok(true);
        }
        left = rest;
    }
    Ok(false)
}

/// The name in lower case, as names are compared.
fn lowercase(alloc: Global, name: &Text) -> Result<Text, AllocError>
    ensures lowercase { IfOk result (λ low. low ≡ str_to_ascii_lowercase name.now) }
{
    Text::from_vec(alloc, name.bytes().to_ascii_lowercase(alloc)?)
}

/// The value of the first property of the name.
fn property_value<'a>(name: &[u8], properties: &'a [Attribute]) -> Option<&'a Value>
    ensures value { option_copied result ≡ spec.property_value name.now properties.now }
{
    for property in properties {
        if is_named(name, property) {
            return Some(&property.value);
        }
    }
    None
}

/// The ranking that the properties give: that of `service.ranking` where it is a Long of 32 bits, else 0.
pub fn ranking(properties: &[Attribute]) -> i32
    ensures ranking { result ≡ spec.ranking properties.now }
{
    match property_value(b"service.ranking", properties) {
        Some(Value::Long(number)) => within_32_bits(*number),
        _ => 0,
    }
}

fn within_32_bits(number: i64) -> i32
    ensures within { result ≡ spec.within_32_bits number }
{
    if number >= -2_147_483_648 && number <= 2_147_483_647 {
        number as i32
    } else {
        0
    }
}

/// Whether the framework alone sets properties of this name.
fn is_the_frameworks(property: &Attribute) -> bool
    ensures its { result ≡ spec.is_the_frameworks property.now }
{
    is_named(b"objectClass", property)
        || is_named(b"service.id", property)
        || is_named(b"service.bundleid", property)
        || is_named(b"service.scope", property)
}

/// The names of the properties that the framework sets, and those of the scopes. They are made once, and all services share them.
pub struct FrameworkTexts {
    object_class: Text,
    service_id: Text,
    service_bundleid: Text,
    service_scope: Text,
    singleton: Text,
    bundle: Text,
    prototype: Text,
    ghost classes_name: { object_class ≡ codes "objectClass" },
    ghost ids_name: { service_id ≡ codes "service.id" },
    ghost owners_name: { service_bundleid ≡ codes "service.bundleid" },
    ghost scopes_name: { service_scope ≡ codes "service.scope" },
    ghost singletons: { singleton ≡ codes "singleton" },
    ghost bundles: { bundle ≡ codes "bundle" },
    ghost prototypes: { prototype ≡ codes "prototype" },
}

/// Not derived, so that each exit at which one is dropped is a single call, which is cheap to prove.
impl Drop for FrameworkTexts {
    fn drop(self) {
        let FrameworkTexts {
            object_class: _,
            service_id: _,
            service_bundleid: _,
            service_scope: _,
            singleton: _,
            bundle: _,
            prototype: _,
        } = self;
    }
}

impl FrameworkTexts {
    pub fn new(alloc: Global) -> Result<FrameworkTexts, AllocError> {
        Ok(FrameworkTexts {
            object_class: Text::of(alloc, b"objectClass")?,
            service_id: Text::of(alloc, b"service.id")?,
            service_bundleid: Text::of(alloc, b"service.bundleid")?,
            service_scope: Text::of(alloc, b"service.scope")?,
            singleton: Text::of(alloc, b"singleton")?,
            bundle: Text::of(alloc, b"bundle")?,
            prototype: Text::of(alloc, b"prototype")?,
        })
    }

    fn scope_text(&self, scope: Scope) -> &Text
        ensures text { result.now ≡ spec.scope_text scope }
    {
        match scope {
            Scope::Singleton => &self.singleton,
            Scope::Bundle => &self.bundle,
            Scope::Prototype => &self.prototype,
        }
    }

    /// The given properties, then those that the framework sets; given ones of the framework's names are left out.
    pub fn with_framework(
        &self,
        alloc: Global,
        given: Attributes,
        classes: &[Text],
        scope: Scope,
        service: ServiceId,
        owner: BundleId,
    ) -> Result<Attributes, AllocError>
        requires fits { service.0 ≤ u32.MAX }
        ensures all { IfOk result (λ all.
            all ≡ spec.with_framework given classes.now scope service owner) }
    {
        let mut all = others(given)?;
        let names = class_names(alloc, classes)?;
        add(&mut all, alloc, &self.object_class, names)?;
        add(&mut all, alloc, &self.service_id, id_value(service.0))?;
        add(
            &mut all,
            alloc,
            &self.service_bundleid,
            id_value(owner.0 as u64),
        )?;
        let text = self.scope_text(scope).copy(alloc)?;
        add(&mut all, alloc, &self.service_scope, Value::Text(text))?;
        Ok(all)
    }
}

/// How many properties the framework sets.
const OWN_PROPERTIES: usize = 4;

/// Adds a property.
fn add(all: &mut Attributes, alloc: Global, name: &Text, value: Value) -> Result<(), AllocError>
    ensures added { OnOk result (all.new ≡ all.old ++ spec.property name.now value ∷ []) }
{
    all.push(Attribute {
        name: name.copy(alloc)?,
        value,
    })
}

/// The properties whose names are not the framework's, with room for those that are.
fn others(given: Attributes) -> Result<Attributes, AllocError>
    ensures others { IfOk result (λ others.
        others ≡ filter (λ p. not (spec.is_the_frameworks p)) given) }
{
    let mut others = given.into_items();
    others.retain(|property| !is_the_frameworks(property));
    others.reserve_exact(OWN_PROPERTIES)?;
    Ok(List::from(others))
}

/// An id as a value.
fn id_value(id: u64) -> Value
    requires fits { id ≤ u32.MAX }
    ensures value { result ≡ Value.Long (pos id) }
{
    Value::Long(id as i64)
}

/// The class names as a value.
fn class_names(alloc: Global, classes: &[Text]) -> Result<Value, AllocError>
    ensures names { IfOk result (λ names. names ≡ Value.List (map Value.Text classes.now)) }
{
    let mut names = List::with_capacity(alloc, classes.len())?;
    for class in classes {
        names.push(Value::Text(class.copy(alloc)?))?;
    }
    Ok(Value::List(names))
}
