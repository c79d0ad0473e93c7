//! Whether a filter matches attributes.

ghost use Rattle.std.specs.Prelude.{◌≡◌, ◌≤◌, ◌↔◌, IsTrue, length, map};
ghost use Rattle.std.specs.Option.{option_copied};
ghost use Rattle.osgi_model.specs.Matching.{Matches};
ghost use Rattle.osgi_model.specs.computed.MatchReader as reader;
ghost use Rattle.osgi_filter.specs.Names.{same_name};
ghost use Rattle.osgi_filter.specs.computed.NameOrder.{AreInOrder};
ghost use Rattle.osgi_filter.specs.declared.matching.TheConstants.{LARGE_TABLE, SMALL_TABLE};

use crate::case::Case;
use crate::name_order::put_in_order;
use crate::named::value_of;
use crate::passing::passes;
use osgi_model::{Attribute, Attributes, Filter, Test, Value};

/// So few attributes are looked through for each item.
const FEW_ATTRIBUTES: usize = 64;

/// For fewer items attributes are not put in order: that costs about as much as so many items that look through all.
const MANY_ITEMS: u32 = 64;

/// How many attributes are put in order in a small table.
const SMALL_TABLE: usize = 1024;

/// How many attributes are put in order at all. More than a line has room for.
const LARGE_TABLE: usize = 65_536;

/// Whether the attribute of an item is there and passes its test. Any value is present, an empty list too.
fn item_passes(test: &Test, given: Option<&Value>) -> bool
    ensures passes { result ≡ reader.item_passes test.now (option_copied given.entry) }
{
    match (given, test) {
        (None, _) => false,
        (Some(_), Test::Present) => true,
        (Some(value), _) => passes(test, value),
    }
}

#[cycle(matches)]
fn is_match(filter: &Filter, attributes: &[Attribute], case: Case, places: &[u16]) -> bool
    requires order { AreInOrder case attributes.now places.now }
    ensures matches { result ≡ reader.matches (same_name case) attributes.now filter.now }
{
    match filter {
        Filter::And(filters) => all_match(filters.items(), attributes, case, places),
        Filter::Or(filters) => one_matches(filters.items(), attributes, case, places),
        Filter::Not(filter) => !is_match(filter.get(), attributes, case, places),
        Filter::Item { name, test } => item_passes(test, value_of(name, attributes, case, places)),
    }
}

#[cycle(matches)]
fn all_match(filters: &[Filter], attributes: &[Attribute], case: Case, places: &[u16]) -> bool
    requires order { AreInOrder case attributes.now places.now }
    ensures matches { result ≡ reader.all_of (map (reader.matches (same_name case) attributes.now) filters.now) }
{
    for filter in filters {
        if !is_match(filter, attributes, case, places) {
            return false;
        }
    }
    true
}

#[cycle(matches)]
fn one_matches(filters: &[Filter], attributes: &[Attribute], case: Case, places: &[u16]) -> bool
    requires order { AreInOrder case attributes.now places.now }
    ensures matches { result ≡ reader.one_of (map (reader.matches (same_name case) attributes.now) filters.now) }
{
    for filter in filters {
        if is_match(filter, attributes, case, places) {
            return true;
        }
    }
    false
}

/// How many of so many items are left after those of the filter.
#[cycle(items)]
fn items_left(filter: &Filter, count: u32) -> u32 {
    match filter {
        Filter::And(filters) => items_left_of_all(filters.items(), count),
        Filter::Or(filters) => items_left_of_all(filters.items(), count),
        Filter::Not(filter) => items_left(filter.get(), count),
        Filter::Item { .. } => count.saturating_sub(1),
    }
}

#[cycle(items)]
fn items_left_of_all(filters: &[Filter], count: u32) -> u32 {
    let mut left = count;
    for filter in filters {
        if left == 0 {
            return 0;
        }
        left = items_left(filter, left);
    }
    left
}

/// The table has its own function, so that other calls do not pay for it; so has the large one.
#[inline(never)]
fn is_match_by_small_table(filter: &Filter, attributes: &[Attribute], case: Case) -> bool
    requires room { length attributes.now ≤ SMALL_TABLE }
    ensures matches { result ≡ reader.matches (same_name case) attributes.now filter.now }
{
    let mut table = [0; SMALL_TABLE];
    let places = &mut table[..attributes.len()];
    put_in_order(attributes, case, places);
    is_match(filter, attributes, case, places)
}

#[inline(never)]
fn is_match_by_large_table(filter: &Filter, attributes: &[Attribute], case: Case) -> bool
    requires room { length attributes.now ≤ LARGE_TABLE }
    ensures matches { result ≡ reader.matches (same_name case) attributes.now filter.now }
{
    let mut table = [0; LARGE_TABLE];
    let places = &mut table[..attributes.len()];
    put_in_order(attributes, case, places);
    is_match(filter, attributes, case, places)
}

/// Whether the filter matches the attributes: `&` asks for all of its operands, `|` for one, `!` for none, and an item
/// for the first attribute of its name. A missing attribute matches no item, and a list matches where one of its
/// elements does. An item's text is read as the attribute's type, and matches nothing where it cannot be read so.
pub fn matches(filter: &Filter, attributes: &Attributes, case: Case) -> bool
    ensures matches { IsTrue result ↔ Matches (same_name case) attributes.now filter.now }
{
    let attributes = attributes.items();
    let count = attributes.len();
    if count <= FEW_ATTRIBUTES || LARGE_TABLE < count || items_left(filter, MANY_ITEMS) > 0 {
        return is_match(filter, attributes, case, &[]);
    }
    if count <= SMALL_TABLE {
        is_match_by_small_table(filter, attributes, case)
    } else {
        is_match_by_large_table(filter, attributes, case)
    }
}
