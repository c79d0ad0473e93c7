//! Attributes that are asked for by name.

ghost use Rattle.std.specs.Prelude.{◌≡◌};
ghost use Rattle.std.specs.Option.{option_copied};
ghost use Rattle.osgi_model.specs.Matching.{attribute_value};
ghost use Rattle.osgi_filter.specs.Names.{same_name};
ghost use Rattle.osgi_filter.specs.computed.NameOrder.{AreInOrder};

use crate::case::Case;
use crate::name_order::first_value;
use osgi_base::Text;
use osgi_model::{Attribute, Value};

/// The value of the first attribute of the name, by a look at each.
#[inline(always)]
fn scanned_value<'a>(name: &Text, attributes: &'a [Attribute], case: Case) -> Option<&'a Value>
    ensures value { option_copied result ≡ attribute_value (same_name case) name.now attributes.now }
{
    for attribute in attributes {
        if case.is_same(&attribute.name, name) {
            return Some(&attribute.value);
        }
    }
    None
}

/// The value of the first attribute of the name: by halving where the places of the attributes in order of their names are
/// given, else by a look at each.
#[inline(always)]
pub fn value_of<'a>(
    name: &Text,
    attributes: &'a [Attribute],
    case: Case,
    places: &[u16],
) -> Option<&'a Value>
    requires order { AreInOrder case attributes.now places.now }
    ensures value { option_copied result ≡ attribute_value (same_name case) name.now attributes.now }
{
    if places.is_empty() {
        scanned_value(name, attributes, case)
    } else {
        first_value(attributes, case, places, name)
    }
}
