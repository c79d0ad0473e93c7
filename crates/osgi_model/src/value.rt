//! The values of properties, and properties by name.

ghost use Rattle.std.specs.Prelude.{◌≡◌, IfOk, map};
ghost use Rattle.std.specs.Cmp.{partial_equiv_from_equiv};
ghost use Rattle.osgi_base.specs.computed.Exact.{exact_equivalence};
ghost use Rattle.osgi_model.specs.Comparing.{each_passes, exact_attribute, exact_value, value_eq};

use osgi_base::{Copied, ExactEq, List, Text};
use osgi_version::Version;
use std::alloc::{AllocError, Global};

/// A value of a property or of an attribute.
#[derive(Drop)]
pub enum Value {
    Text(Text),
    Long(i64),
    Version(Version),
    List(List<Value>),
}

impl Value {
    #[cycle(copy)]
    pub fn copy(&self, alloc: Global) -> Result<Value, AllocError>
        ensures same { IfOk result (λ copy. copy ≡ self.now) }
    {
        match self {
            Value::Text(text) => Ok(Value::Text(text.copy(alloc)?)),
            Value::Long(number) => Ok(Value::Long(*number)),
            Value::Version(version) => Ok(Value::Version(version.copy(alloc)?)),
            Value::List(values) => Ok(Value::List(copy_all(values.items(), alloc)?)),
        }
    }
}

/// Copies values in order. A list's own copy cannot lead back to the copy of a value.
#[cycle(copy)]
fn copy_all(values: &[Value], alloc: Global) -> Result<List<Value>, AllocError>
    ensures same { IfOk result (λ copies. copies ≡ values.now) }
{
    let mut copies = List::with_capacity(alloc, values.len())?;
    for value in values {
        copies.push(value.copy(alloc)?)?;
    }
    Ok(copies)
}

impl Copied for Value {
    fn copied(&self, alloc: Global) -> Result<Value, AllocError> {
        self.copy(alloc)
    }
}

impl PartialEq for Value {
    ghost eq = { value_eq };

    ghost laws = { partial_equiv_from_equiv (exact_equivalence value_eq exact_value) };

    #[cycle(eq)]
    fn eq(&self, other: &Value) -> bool {
        match (self, other) {
            (Value::Text(one), Value::Text(other)) => one == other,
            (Value::Long(one), Value::Long(other)) => one == other,
            (Value::Version(one), Value::Version(other)) => one == other,
            (Value::List(one), Value::List(other)) => are_equal(one.items(), other.items()),
            _ => false,
        }
    }
}

/// Whether there are as many values in one as in the other, and each equals that at its place.
#[cycle(eq)]
fn are_equal(ones: &[Value], others: &[Value]) -> bool
    ensures each { result ≡ each_passes (map value_eq ones.now) others.now }
{
    let mut left = others;
    for one in ones {
        match left.split_first() {
            Some((other, rest)) if *one == *other => left = rest,
            _ => return false,
        }
    }
    left.is_empty()
}

impl Eq for Value {
    ghost laws = { exact_equivalence value_eq exact_value };
}

impl ExactEq for Value {
    ghost exact = { exact_value };
}

/// A property, or an attribute of a capability: a name and its value.
#[derive(Drop, PartialEq, Eq)]
pub struct Attribute {
    pub name: Text,
    pub value: Value,
}

impl Attribute {
    pub fn copy(&self, alloc: Global) -> Result<Attribute, AllocError>
        ensures same { IfOk result (λ copy. copy ≡ self.now) }
    {
        Ok(Attribute {
            name: self.name.copy(alloc)?,
            value: self.value.copy(alloc)?,
        })
    }
}

impl Copied for Attribute {
    fn copied(&self, alloc: Global) -> Result<Attribute, AllocError> {
        self.copy(alloc)
    }
}

impl ExactEq for Attribute {
    ghost exact = { exact_attribute };
}

/// Attributes in the order in which they were given.
pub type Attributes = List<Attribute>;
