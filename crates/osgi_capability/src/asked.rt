//! A text that a requirement asks for by its filter.

ghost use Rattle.std.specs.Prelude.{◌≡◌, IfSome, IsTrue, List, bytes_eq, map, ℕ};
ghost use Rattle.osgi_capability.specs.HavingText.{HasText};
ghost use Rattle.osgi_capability.specs.computed.HavingText.{has_text};
ghost use Rattle.osgi_model.specs.computed.MatchReader.{all_of, matches};
ghost use Rattle.osgi_model.specs.declared.value.Attribute.{Attribute};
ghost use Rattle.osgi_version.specs.declared.version.Version.{Version};
ghost use Rattle.osgi_world.specs.Satisfaction.{Satisfies};
ghost use Rattle.osgi_world.specs.declared.capability.Capability.{Capability};

use osgi_base::Text;
use osgi_model::{Filter, Test};
use osgi_world::Requirement;

/// An attribute by its name, and a text that it is asked for.
#[derive(Clone, Copy)]
pub struct AskedText<'a> {
    pub attribute: &'a Text,
    pub text: &'a Text,
}

/// What the filter asks for, if it is an item that asks for a text.
fn item_text(filter: &Filter) -> Option<AskedText<'_>>
    ensures item { IfSome result (λ asked. (attributes : List Attribute) → matches bytes_eq attributes filter.now ≡ has_text attributes asked.attribute.now asked.text.now) }
{
    match filter {
        Filter::Item {
            name,
            test: Test::Equal(text),
        } => Some(AskedText {
            attribute: name,
            text,
        }),
        _ => None,
    }
}

/// What the first of the filters asks for that is such an item.
fn first_text(filters: &[Filter]) -> Option<AskedText<'_>>
    ensures first { IfSome result (λ asked. (attributes : List Attribute) → IsTrue (all_of (map (matches bytes_eq attributes) filters.now)) → IsTrue (has_text attributes asked.attribute.now asked.text.now)) }
{
    for filter in filters {
        if let Some(asked) = item_text(filter) {
            return Some(asked);
        }
    }
    None
}

/// What the filter asks for itself, or by an operand of its `&`.
fn filter_text(filter: &Filter) -> Option<AskedText<'_>>
    ensures asked { IfSome result (λ asked. (attributes : List Attribute) → IsTrue (matches bytes_eq attributes filter.now) → IsTrue (has_text attributes asked.attribute.now asked.text.now)) }
{
    match filter {
        Filter::And(filters) => first_text(filters.items()),
        _ => item_text(filter),
    }
}

/// A text that each capability has which satisfies the requirement: that of its filter, if that is an item `(attribute=text)`, or of
/// the first such item of its `&`. Of a requirement of bundles or packages there is none. Where the answer is none, nothing is said.
pub fn asked_text(requirement: &Requirement) -> Option<AskedText<'_>>
    ensures asked { IfSome result (λ asked. (c : Capability) (name : List ℕ) (version : Version) → Satisfies requirement.now c name version → HasText c asked.attribute.now asked.text.now) }
{
    let namespace = requirement.namespace.bytes();
    if namespace == b"osgi.wiring.bundle".as_slice() {
        return None;
    }
    if namespace == b"osgi.wiring.package".as_slice() {
        return None;
    }
    match &requirement.filter {
        Some(filter) => filter_text(filter.get()),
        None => None,
    }
}
