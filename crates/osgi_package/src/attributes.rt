//! The attributes of a clause, read by their types.

ghost use Rattle.std.specs.Prelude.{◌≡◌, [], ◌++◌, List, IfOk, IfSome, OnOk, Some};
ghost use Rattle.std.specs.List.{AllZip, list_any};
ghost use Rattle.osgi_model.specs.declared.value.Attribute.{Attribute};
ghost use Rattle.osgi_package.specs.Parameters as spec;
ghost use Rattle.osgi_package.specs.Parameters.{IsAttribute};
ghost use Rattle.osgi_package.specs.computed.AttributeReader.{attribute_of, attributes_of, others_of, values_of, with_other};

use crate::fault::PackageKind;
use crate::parameters::{is_double, is_other};
use osgi_base::List;
use osgi_header::{Clause, Typed};
use osgi_model::{Attribute, Attributes, ValueType, read_value};
use std::alloc::{AllocError, Global};

/// The attribute with its value; none where no type has the name of its type, or its text is no value of that type.
fn attribute(alloc: Global, typed: &Typed) -> Result<Option<Attribute>, AllocError>
    ensures attribute { IfOk result (λ attribute. attribute ≡ attribute_of typed.now) }
{
    let Some(kind) = ValueType::named(typed.kind.bytes()) else {
        return Ok(None);
    };
    let Some(value) = read_value(alloc, kind, typed.value.bytes())? else {
        return Ok(None);
    };
    Ok(Some(Attribute {
        name: typed.name.copy(alloc)?,
        value,
    }))
}

/// Adds an attribute if it is neither the version nor the exporter's.
fn push_other(
    others: &mut Attributes,
    typed: &Typed,
    attribute: Attribute,
) -> Result<(), AllocError>
    ensures added { OnOk result (others.new ≡ others.old ++ with_other typed.now attribute []) }
{
    if is_other(typed) {
        others.push(attribute)?;
    }
    Ok(())
}

/// The attributes other than the version and the exporter's; none where one of all has no value.
fn others(alloc: Global, attributes: &[Typed]) -> Result<Option<Attributes>, AllocError>
    ensures others { IfOk result (λ others. others ≡ others_of attributes.now) }
{
    let mut others = List::new(alloc)?;
    for typed in attributes {
        let Some(attribute) = attribute(alloc, typed)? else {
            return Ok(None);
        };
        push_other(&mut others, typed, attribute)?;
    }
    Ok(Some(others))
}

/// Whether an attribute has the type Double.
pub fn has_double(attributes: &[Typed]) -> bool
    ensures double { result ≡ list_any spec.is_double attributes.now }
{
    attributes.iter().any(|typed| is_double(typed))
}

/// The attributes other than the version and the exporter's, or what is wrong with the values of all.
pub(crate) fn attributes(
    alloc: Global,
    clause: &Clause,
) -> Result<Result<Attributes, PackageKind>, AllocError>
    ensures attributes { IfOk result (λ attributes. attributes ≡ attributes_of clause.now) }
{
    let all = clause.attributes.items();
    if has_double(all) {
        return Ok(Err(PackageKind::DoubleType));
    }
    Ok(others(alloc, all)?.ok_or(PackageKind::BadValue))
}

fn values(alloc: Global, attributes: &[Typed]) -> Result<Option<Attributes>, AllocError>
    ensures values { IfOk result (λ values. values ≡ values_of attributes.now) }
{
    let mut values = List::with_capacity(alloc, attributes.len())?;
    for typed in attributes {
        let Some(attribute) = attribute(alloc, typed)? else {
            return Ok(None);
        };
        values.push(attribute)?;
    }
    Ok(Some(values))
}

/// All attributes with their values, in order; none where one of them has no value: where no type has the name of its type, or
/// its text is no value of that type.
pub fn read_attributes(
    alloc: Global,
    attributes: &[Typed],
) -> Result<Option<Attributes>, AllocError>
    ensures reads { IfOk result (λ read. IfSome read (AllZip IsAttribute attributes.now)) }
    ensures only { (others : List Attribute) → AllZip IsAttribute attributes.now others → IfOk result (λ read. read ≡ Some others) }
{
    values(alloc, attributes)
}
