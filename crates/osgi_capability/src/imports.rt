//! Whether an export is one that an import may be wired to.

ghost use Rattle.std.specs.Prelude.{◌≡◌, bytes_eq};
ghost use Rattle.std.specs.Option.{option_copied};
ghost use Rattle.osgi_capability.specs.computed.Satisfied.{all_equal, all_given, fits_import, has_equal, is_at_least_zero, is_exporter, is_given, is_listed};
ghost use Rattle.osgi_model.specs.Matching.{attribute_value};
ghost use Rattle.osgi_world.specs.Satisfaction.{version_of};
ghost use Rattle.osgi_version.specs.RangeValues.{is_within, range_parts};

use osgi_base::Text;
use osgi_model::{Attribute, Value};
use osgi_version::Version;
use osgi_world::{Capability, Requirement, SharedRange};

/// The value of the first attribute of this name.
pub fn value_named<'a>(attributes: &'a [Attribute], name: &[u8]) -> Option<&'a Value>
    ensures value { option_copied result ≡ attribute_value bytes_eq name.now attributes.now }
{
    for attribute in attributes {
        if attribute.name.bytes() == name {
            return Some(&attribute.value);
        }
    }
    None
}

/// Whether the version that a value is, 0.0.0 where it is none, is within the range.
fn is_within(range: &SharedRange, value: Option<&Value>) -> bool
    ensures within { result ≡ is_within (range_parts range.now) (version_of (option_copied value.entry)) }
{
    match value {
        Some(Value::Version(version)) => range.contains(version),
        _ => range.contains(&Version::numbered(0, 0, 0)),
    }
}

/// Whether the attributes have one of this name and with an equal value.
fn has_equal(attributes: &[Attribute], asked: &Attribute) -> bool
    ensures equal { result ≡ has_equal attributes.now asked.now }
{
    match value_named(attributes, asked.name.bytes()) {
        Some(value) => *value == asked.value,
        None => false,
    }
}

fn have_all_equal(attributes: &[Attribute], asked: &[Attribute]) -> bool
    ensures equal { result ≡ all_equal attributes.now asked.now }
{
    for one in asked {
        if !has_equal(attributes, one) {
            return false;
        }
    }
    true
}

/// Whether one of the attributes has this name.
fn is_listed(attributes: &[Attribute], name: &[u8]) -> bool
    ensures listed { result ≡ is_listed attributes.now name.now }
{
    for attribute in attributes {
        if attribute.name.bytes() == name {
            return true;
        }
    }
    false
}

/// Whether the range is the one that stands where none is given.
fn is_any_version(range: &SharedRange) -> bool
    ensures any { result ≡ is_at_least_zero (range_parts range.now) }
{
    range.is_at_least_zero()
}

/// Whether the import gives an attribute of this name.
fn is_given(import: &Requirement, name: &[u8]) -> bool
    ensures given { result ≡ is_given import.now name.now }
{
    if name == b"version".as_slice() {
        return !is_any_version(&import.range);
    }
    if name == b"bundle-version".as_slice() {
        return !is_any_version(&import.from_range);
    }
    if name == b"bundle-symbolic-name".as_slice() {
        return import.from_name.is_some();
    }
    is_listed(import.equal.get().items(), name)
}

/// Whether the import gives all attributes of these names.
fn gives_all(import: &Requirement, names: &[Text]) -> bool
    ensures given { result ≡ all_given import.now names.now }
{
    for name in names {
        if !is_given(import, name.bytes()) {
            return false;
        }
    }
    true
}

/// Whether the provider has the symbolic name and a version that the import asks for, where it asks for any.
fn is_exporter(import: &Requirement, name: &Text, version: &Version) -> bool
    ensures exporter { result ≡ is_exporter import.now name.now version.now }
{
    let is_named = match &import.from_name {
        Some(asked) => asked == name,
        None => true,
    };
    is_named && import.from_range.contains(version)
}

/// Whether the export of a provider of this symbolic name and version is one that the import may be wired to.
pub fn fits_import(
    import: &Requirement,
    export: &Capability,
    name: &Text,
    version: &Version,
) -> bool
    ensures fits { result ≡ fits_import import.now export.now name.now version.now }
{
    let attributes = export.attributes.get().items();
    is_within(&import.range, value_named(attributes, b"version"))
        && is_exporter(import, name, version)
        && have_all_equal(attributes, import.equal.get().items())
        && gives_all(import, export.mandatory.get().items())
}
