//! What a clause says by single attributes and directives.

ghost use Rattle.std.specs.Prelude.{◌≡◌, List, ℕ, IfOk};
ghost use Rattle.std.specs.Option.{option_copied};
ghost use Rattle.osgi_package.specs.Packages as package_spec;
ghost use Rattle.osgi_package.specs.Parameters as spec;

use osgi_base::{List, Text};
use osgi_header::{Clause, Typed, names};
use std::alloc::{AllocError, Global};

/// Whether the attribute has the name.
fn is_named(name: &[u8], attribute: &Typed) -> bool
    ensures named { result ≡ spec.is_attribute_named name.now attribute.now }
{
    attribute.name.bytes() == name
}

/// Whether it is one of those that each export has by itself: the exporting bundle's name or version.
pub fn is_implicit(attribute: &Typed) -> bool
    ensures its { result ≡ spec.is_implicit attribute.now }
{
    is_named(b"bundle-symbolic-name", attribute) || is_named(b"bundle-version", attribute)
}

/// Whether it is neither the version of the package nor one of the exporter's.
pub fn is_other(attribute: &Typed) -> bool
    ensures other { result ≡ spec.is_plain_attribute attribute.now }
{
    !(is_named(b"version", attribute) || is_implicit(attribute))
}

/// Whether it has the type Double.
pub fn is_double(attribute: &Typed) -> bool
    ensures double { result ≡ spec.is_double attribute.now }
{
    attribute.kind.bytes() == b"Double".as_slice()
}

/// The text of the clause's attribute of the name.
pub fn attribute_text<'a>(name: &[u8], clause: &'a Clause) -> Option<&'a Text>
    ensures text { option_copied result ≡ spec.attribute_text name.now clause.now }
{
    for attribute in clause.attributes.items() {
        if is_named(name, attribute) {
            return Some(&attribute.value);
        }
    }
    None
}

/// The text of an attribute that gives a version or a range, which is empty without the attribute.
pub fn version_text<'a>(name: &[u8], clause: &'a Clause) -> &'a [u8]
    ensures text { result.now ≡ spec.version_text name.now clause.now }
{
    match attribute_text(name, clause) {
        Some(text) => text.bytes(),
        None => b"",
    }
}

/// The value of the clause's directive of the name.
pub fn directive_value<'a>(name: &[u8], clause: &'a Clause) -> Option<&'a Text>
    ensures value { option_copied result ≡ spec.directive_value name.now clause.now }
{
    for directive in clause.directives.items() {
        if directive.name.bytes() == name {
            return Some(&directive.value);
        }
    }
    None
}

/// Whether the clause has the directive of the name with the value.
pub fn is_directed(name: &[u8], value: &[u8], clause: &Clause) -> bool
    ensures directed { result ≡ spec.is_directed name.now value.now clause.now }
{
    match directive_value(name, clause) {
        Some(given) => given.bytes() == value,
        None => false,
    }
}

/// The names that the clause's directive of the name lists; none without the directive.
pub fn listed(alloc: Global, name: &[u8], clause: &Clause) -> Result<List<Text>, AllocError>
    ensures reads { IfOk result (spec.Lists (spec.directive_value name.now clause.now)) }
    ensures only { (others : List (List ℕ)) → spec.Lists (spec.directive_value name.now clause.now) others → IfOk result (λ names. names ≡ others) }
{
    match directive_value(name, clause) {
        Some(text) => names(alloc, text.bytes()),
        None => List::new(alloc),
    }
}

/// Whether it is a package of Java.
pub fn is_java(name: &[u8]) -> bool
    ensures java { result ≡ package_spec.is_java name.now }
{
    name == b"java".as_slice() || name.starts_with(b"java.")
}
