//! Capabilities by the texts of their attributes.

ghost use Rattle.std.specs.Prelude.{◌≡◌, IfOk, IfSome, List, OnOk, bytes_eq, map, ℕ};
ghost use Rattle.osgi_candidates.specs.computed.Texts.{AddsTexts, HasNoTexts, IsSomeText, IsSomeValue, IsTextOf, IsTextOfOne, IsValueText, text_key};
ghost use Rattle.osgi_model.specs.computed.MatchReader.{one_of, passes};
ghost use Rattle.osgi_model.specs.declared.filter.Test.TheVariants.{Equal};

use crate::names::Place;
use osgi_base::Text;
use osgi_capability::AskedText;
use osgi_lookup::{is_bundle, is_package};
use osgi_model::{Attribute, Value};
use osgi_space_rows::Grouped;
use osgi_world::{Capability, Known};
use std::alloc::{AllocError, Global};

/// So many texts of a capability are found by it. One that has more is looked at for each text.
const MOST_TEXTS: usize = 4;

/// An attribute of the capabilities of a name.
#[derive(Drop, PartialEq, Eq, PartialOrd, Ord)]
pub struct AttributeKey {
    pub attribute: Text,
    pub name: Text,
}

/// A text that such an attribute has. Texts stand first, since they differ most.
#[derive(Drop, PartialEq, Eq, PartialOrd, Ord)]
pub struct TextKey {
    pub text: Text,
    pub attribute: AttributeKey,
}

/// The text that is asked for of the capabilities of a name.
pub fn text_key(alloc: Global, name: &Text, asked: AskedText<'_>) -> Result<TextKey, AllocError>
    ensures key { IfOk result (λ key.
        key ≡ text_key name.now asked.entry.attribute.now asked.entry.text.now) }
{
    let attribute = AttributeKey {
        attribute: asked.attribute.copy(alloc)?,
        name: name.copy(alloc)?,
    };
    Ok(TextKey {
        text: asked.text.copy(alloc)?,
        attribute,
    })
}

/// The capabilities that are no bundles and no packages by the texts that they have: as the value of an attribute, or in one that
/// is a list. Those that have another value in an attribute stand under the attribute, and those with too many values under their
/// name. So each that has a text stands in one of three places.
pub struct TextIndex {
    pub texts: Grouped<TextKey, Place>,
    pub others: Grouped<AttributeKey, Place>,
    pub many: Grouped<Text, Place>,
}

/// Not derived, so that each exit at which one is dropped is a single call, which is cheap to prove.
impl Drop for TextIndex {
    fn drop(self) {
        let TextIndex {
            texts: _,
            others: _,
            many: _,
        } = self;
    }
}

/// Whether the attributes have too many values. What it answers decides only how fast capabilities are found.
fn has_many(attributes: &[Attribute]) -> bool {
    let mut left = MOST_TEXTS;
    for attribute in attributes {
        let count = match &attribute.value {
            Value::List(values) => values.items().len(),
            _ => 1,
        };
        if left < count {
            return true;
        }
        left -= count;
    }
    false
}

/// The text that a value is, if it is one.
fn text_of(value: &Value) -> Option<&Text>
    ensures text { IfSome result (λ text. (t : List ℕ)
        → passes (Equal t) value.now ≡ bytes_eq text.now t) }
{
    match value {
        Value::Text(text) => Some(text),
        _ => None,
    }
}

/// The elements of a value, if it is a list.
fn elements_of(value: &Value) -> Option<&[Value]>
    ensures elements { IfSome result (λ elements. (t : List ℕ)
        → passes (Equal t) value.now ≡ one_of (map (passes (Equal t)) elements.now)) }
{
    match value {
        Value::List(values) => Some(values.items()),
        _ => None,
    }
}

impl TextIndex {
    pub fn new(alloc: Global) -> TextIndex
        ensures empty { HasNoTexts result }
    {
        TextIndex {
            texts: Grouped::new(alloc),
            others: Grouped::new(alloc),
            many: Grouped::new(alloc),
        }
    }

    /// Adds the capabilities of a known revision.
    pub fn add(&mut self, alloc: Global, known: &Known) -> Result<(), AllocError>
        ensures added { OnOk result (AddsTexts self.old self.new (IsTextOf known.now)) }
    {
        let revision = known.revision.get();
        for (index, capability) in revision.capabilities.items().iter().enumerate() {
            let place = Place {
                owner: known.id,
                index: index as u32,
            };
            self.add_capability(alloc, place, capability)?;
        }
        Ok(())
    }

    fn add_capability(
        &mut self,
        alloc: Global,
        place: Place,
        capability: &Capability,
    ) -> Result<(), AllocError>
        ensures added { OnOk result (AddsTexts self.old self.new
            (IsTextOfOne place capability.now)) }
    {
        if is_bundle(capability.namespace.bytes()) {
            return Ok(());
        }
        if is_package(capability.namespace.bytes()) {
            return Ok(());
        }
        let attributes = capability.attributes.get().items();
        if has_many(attributes) {
            self.many.push(capability.name.copy(alloc)?, place)?;
            return Ok(());
        }
        self.add_attributes(alloc, place, &capability.name, attributes)?;
        Ok(())
    }

    /// Adds the attributes of a capability of this name.
    fn add_attributes(
        &mut self,
        alloc: Global,
        place: Place,
        name: &Text,
        attributes: &[Attribute],
    ) -> Result<(), AllocError>
        ensures added { OnOk result (AddsTexts self.old self.new
            (IsSomeText place name.now attributes.now)) }
    {
        for attribute in attributes {
            self.add_value(alloc, place, name, &attribute.name, &attribute.value)?;
        }
        Ok(())
    }

    /// Adds a value of the attribute.
    fn add_value(
        &mut self,
        alloc: Global,
        place: Place,
        name: &Text,
        attribute: &Text,
        value: &Value,
    ) -> Result<(), AllocError>
        ensures added { OnOk result (AddsTexts self.old self.new
            (IsValueText place name.now attribute.now value.now)) }
    {
        match elements_of(value) {
            Some(elements) => {
                self.add_elements(alloc, place, name, attribute, elements)?;
                Ok(())
            }
            None => self.add_element(alloc, place, name, attribute, value),
        }
    }

    fn add_elements(
        &mut self,
        alloc: Global,
        place: Place,
        name: &Text,
        attribute: &Text,
        values: &[Value],
    ) -> Result<(), AllocError>
        ensures added { OnOk result (AddsTexts self.old self.new
            (IsSomeValue place name.now attribute.now values.now)) }
    {
        for value in values {
            self.add_element(alloc, place, name, attribute, value)?;
        }
        Ok(())
    }

    /// Adds a text under itself, and what is none under the attribute.
    fn add_element(
        &mut self,
        alloc: Global,
        place: Place,
        name: &Text,
        attribute: &Text,
        value: &Value,
    ) -> Result<(), AllocError>
        ensures added { OnOk result (AddsTexts self.old self.new
            (IsValueText place name.now attribute.now value.now)) }
    {
        let key = AttributeKey {
            attribute: attribute.copy(alloc)?,
            name: name.copy(alloc)?,
        };
        match text_of(value) {
            Some(text) => {
                let key = TextKey {
                    text: text.copy(alloc)?,
                    attribute: key,
                };
                self.texts.push(key, place)?;
                Ok(())
            }
            None => {
                self.others.push(key, place)?;
                Ok(())
            }
        }
    }
}
