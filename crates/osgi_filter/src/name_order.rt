//! The places of attributes in order of their names, by which an attribute is found by halving.

ghost use Rattle.std.specs.Prelude.{◌≡◌, ◌≤◌, length};
ghost use Rattle.std.specs.Cmp.Lexicographic.{slice_cmp};
ghost use Rattle.std.specs.Option.{option_copied};
ghost use Rattle.std.specs.Ordering.{is_lt, nat_cmp};
ghost use Rattle.osgi_model.specs.Matching.{attribute_value};
ghost use Rattle.osgi_filter.specs.Names.{same_name};
ghost use Rattle.osgi_filter.specs.computed.Folded.{folded};
ghost use Rattle.osgi_filter.specs.computed.NameOrder.{IsNameOrder, name_at, place_cmp, places_of};

use crate::case::Case;
use osgi_base::Text;
use osgi_model::{Attribute, Value};
use std::cmp::Ordering;

/// The name of the attribute at a place.
fn name_at(attributes: &[Attribute], place: u16) -> &[u8]
    ensures name { result.now ≡ name_at attributes.now place }
{
    match attributes.get(usize::from(place)) {
        Some(attribute) => attribute.name.bytes(),
        None => &[],
    }
}

/// By the names at the places, and then by the places.
fn compare_places(attributes: &[Attribute], case: Case, one: u16, other: u16) -> Ordering
    ensures order { result ≡ place_cmp case attributes.now one other }
{
    let by_name = case.order(name_at(attributes, one), name_at(attributes, other));
    by_name.then(one.cmp(&other))
}

/// Whether the name at a place comes before this one.
fn precedes(attributes: &[Attribute], case: Case, place: u16, name: &[u8]) -> bool
    ensures precedes { result ≡ is_lt (slice_cmp nat_cmp (folded case (name_at attributes.now place)) (folded case name.now)) }
{
    case.order(name_at(attributes, place), name).is_lt()
}

/// Writes the places 0, 1 and so on.
fn count_up(places: &mut [u16])
    requires few { length places.old ≤ 65536 }
    ensures places { places.new ≡ places_of (length places.old) }
{
    for place in 0..places.len() {
        places[place] = place as u16;
    }
}

/// Writes the places of all attributes, in order of their names and the first of a name first.
pub fn put_in_order(attributes: &[Attribute], case: Case, places: &mut [u16])
    requires few { length places.old ≤ 65536 }
    requires all { length places.old ≡ length attributes.now }
    ensures order { IsNameOrder case attributes.now places.new }
{
    count_up(places);
    places.sort_unstable_by(|one, other| compare_places(attributes, case, *one, *other));
}

/// The value of the first attribute of the name, by halving.
#[inline(never)]
pub fn first_value<'a>(
    attributes: &'a [Attribute],
    case: Case,
    places: &[u16],
    name: &Text,
) -> Option<&'a Value>
    requires order { IsNameOrder case attributes.now places.now }
    ensures value { option_copied result ≡ attribute_value (same_name case) name.now attributes.now }
{
    let sought = name.bytes();
    let at = places.partition_point(|place| precedes(attributes, case, *place, sought));
    let place = places.get(at)?;
    let attribute = attributes.get(usize::from(*place))?;
    if case.is_same(&attribute.name, name) {
        Some(&attribute.value)
    } else {
        None
    }
}
