//! The types of values, by their names.

ghost use Rattle.std.specs.Prelude.{◌≡◌, ◌↔◌, Some};
ghost use Rattle.osgi_model.specs.Values.{Names, type_name};
ghost use Rattle.osgi_model.specs.computed.ValueReader.{kind_in_full, kind_named};
ghost use Rattle.osgi_model.specs.declared.value_type.ValueType.{ValueType};

/// The types of values that are no lists.
#[derive(Clone, Copy, Debug, PartialEq, Eq)]
pub enum Scalar {
    String,
    Version,
    Long,
}

/// The types of values.
#[derive(Clone, Copy, PartialEq, Eq)]
pub enum ValueType {
    One(Scalar),
    /// A list of values of one type.
    List(Scalar),
}

const KINDS: [ValueType; 6] = [
    ValueType::One(Scalar::String),
    ValueType::One(Scalar::Version),
    ValueType::One(Scalar::Long),
    ValueType::List(Scalar::String),
    ValueType::List(Scalar::Version),
    ValueType::List(Scalar::Long),
];

impl ValueType {
    /// The type of this name; none where no type has it.
    ///
    /// The names are `String`, `Version`, `Long`, `List<String>`, `List<Version>` and `List<Long>`, and `List`, which is a
    /// list of strings.
    pub fn named(name: &[u8]) -> Option<ValueType>
        ensures named { (kind : ValueType) → (result ≡ Some kind) ↔ Names name.now kind }
    {
        kind_named(name)
    }

    fn name(self) -> &'static [u8]
        ensures name { result.now ≡ type_name self }
    {
        match self {
            ValueType::One(Scalar::String) => b"String",
            ValueType::One(Scalar::Version) => b"Version",
            ValueType::One(Scalar::Long) => b"Long",
            ValueType::List(Scalar::String) => b"List<String>",
            ValueType::List(Scalar::Version) => b"List<Version>",
            ValueType::List(Scalar::Long) => b"List<Long>",
        }
    }
}

/// The type whose full name this is; `List` alone is none.
fn kind_in_full(name: &[u8]) -> Option<ValueType>
    ensures kind { result ≡ kind_in_full name.now }
{
    KINDS.iter().copied().find(|kind| kind.name() == name)
}

fn kind_named(name: &[u8]) -> Option<ValueType>
    ensures kind { result ≡ kind_named name.now }
{
    if name == b"List".as_slice() {
        return Some(ValueType::List(Scalar::String));
    }
    kind_in_full(name)
}
