//! Capabilities beside requirements.

use crate::attributes::attributes_of;
use cases_text::{put_shown, split_at, split_word, text_of, value_if_any, value_or};
use osgi_base::{List, Shared, Text};
use osgi_capability::satisfies;
use osgi_filter::parse;
use osgi_model::Attributes;
use osgi_version::{Version, VersionRange};
use osgi_world::{Capability, Requirement, SharedRange};
use std::alloc::{AllocError, Global};

/// None where the word is `-`.
fn name_of(alloc: Global, word: &str) -> Result<Option<Text>, AllocError> {
    if word == "-" {
        Ok(None)
    } else {
        Ok(Some(text_of(alloc, word)?))
    }
}

/// A range; at least 0.0.0 where it is none.
fn range_of(alloc: Global, word: &str) -> Result<SharedRange, AllocError> {
    let range = value_or(
        VersionRange::parse(alloc, word.as_bytes()),
        VersionRange::at_least_zero(),
    )?;
    SharedRange::of(alloc, range)
}

/// A version; 0.0.0 where it is none.
fn version_of(alloc: Global, word: &str) -> Result<Version, AllocError> {
    value_or(
        Version::parse(alloc, word.as_bytes()),
        Version::numbered(0, 0, 0),
    )
}

/// No attributes where the word is `-`.
fn listed(alloc: Global, word: &str) -> Result<Attributes, AllocError> {
    match attributes_of(alloc, word)? {
        Some(attributes) => Ok(attributes),
        None => List::new(alloc),
    }
}

/// The requirement of this namespace and name that asks for nothing else.
fn named(alloc: Global, namespace: Text, name: Text) -> Result<Requirement, AllocError> {
    Ok(Requirement {
        namespace,
        name,
        range: SharedRange::at_least_zero(),
        from_name: None,
        from_range: SharedRange::at_least_zero(),
        equal: Shared::new(alloc, List::new(alloc)?)?,
        filter: None,
        optional: false,
        multiple: false,
        reexport: false,
        effective: true,
    })
}

/// The requirement that is written `NAMESPACE NAME RANGE`.
fn asked(alloc: Global, text: &str) -> Result<Requirement, AllocError> {
    let (namespace, rest) = split_word(text);
    let (name, range) = split_word(rest);
    let namespace = text_of(alloc, namespace)?;
    let mut requirement = named(alloc, namespace, text_of(alloc, name)?)?;
    requirement.range = range_of(alloc, range)?;
    Ok(requirement)
}

/// Has a requirement ask for the exporter that is written `NAME RANGE`.
fn ask_exporter(
    alloc: Global,
    requirement: &mut Requirement,
    text: &str,
) -> Result<(), AllocError> {
    let (name, range) = split_word(text);
    requirement.from_name = name_of(alloc, name)?;
    requirement.from_range = range_of(alloc, range)?;
    Ok(())
}

/// Has a requirement ask for what is written `ATTRIBUTES FILTER`.
fn ask_conditions(
    alloc: Global,
    requirement: &mut Requirement,
    text: &str,
) -> Result<(), AllocError> {
    let (attributes, filter) = split_word(text);
    requirement.equal = Shared::new(alloc, listed(alloc, attributes)?)?;
    requirement.filter = match value_if_any(parse(alloc, filter.as_bytes()))? {
        Some(filter) => Some(Shared::new(alloc, filter)?),
        None => None,
    };
    Ok(())
}

/// The requirement that is written `NAMESPACE NAME RANGE / EXPORTER EXPORTER-RANGE / ATTRIBUTES FILTER`.
fn requirement(alloc: Global, text: &str) -> Result<Requirement, AllocError> {
    let (subject, rest) = split_at(text, " / ");
    let (exporter, conditions) = split_at(rest, " / ");
    let mut requirement = asked(alloc, subject)?;
    ask_exporter(alloc, &mut requirement, exporter)?;
    ask_conditions(alloc, &mut requirement, conditions)?;
    Ok(requirement)
}

/// Names with commas between; none where the word is `-`.
fn names_of(alloc: Global, word: &str) -> Result<List<Text>, AllocError> {
    let mut names = List::new(alloc)?;
    for name in word.split(',') {
        if name != "-" {
            names.push(text_of(alloc, name)?)?;
        }
    }
    Ok(names)
}

/// The capability of this namespace and name with these names and attributes.
fn offered(
    alloc: Global,
    subject: (Text, Text),
    mandatory: List<Text>,
    attributes: Attributes,
) -> Result<Capability, AllocError> {
    let (namespace, name) = subject;
    Ok(Capability {
        namespace,
        name,
        attributes: Shared::new(alloc, attributes)?,
        uses: Shared::new(alloc, List::new(alloc)?)?,
        mandatory: Shared::new(alloc, mandatory)?,
    })
}

/// The capability that is written `NAMESPACE NAME MANDATORY ATTRIBUTES`.
fn capability(alloc: Global, text: &str) -> Result<Capability, AllocError> {
    let (namespace, rest) = split_word(text);
    let (name, rest) = split_word(rest);
    let (mandatory, attributes) = split_word(rest);
    let subject = (text_of(alloc, namespace)?, text_of(alloc, name)?);
    let mandatory = names_of(alloc, mandatory)?;
    offered(alloc, subject, mandatory, listed(alloc, attributes)?)
}

/// Whether a capability satisfies a requirement, for a provider that is written `NAME VERSION`.
fn is_satisfied(
    alloc: Global,
    asked: &Requirement,
    offered: &Capability,
    provider: &str,
) -> Result<bool, AllocError> {
    let (name, version) = split_word(provider);
    let name = text_of(alloc, name)?;
    let version = version_of(alloc, version)?;
    Ok(satisfies(asked, offered, &name, &version))
}

/// Whether a capability that is written so satisfies a requirement.
fn is_satisfied_by(alloc: Global, asked: &Requirement, text: &str) -> Result<bool, AllocError> {
    let (offered, provider) = split_at(text, " | ");
    let offered = capability(alloc, offered)?;
    is_satisfied(alloc, asked, &offered, provider)
}

/// Whether a capability satisfies a requirement: `REQUIREMENT | CAPABILITY | PROVIDER VERSION`.
pub fn satisfied(alloc: Global, out: &mut String, text: &str) -> Result<(), AllocError> {
    let (asked, rest) = split_at(text, " | ");
    let asked = requirement(alloc, asked)?;
    put_shown(out, &is_satisfied_by(alloc, &asked, rest)?)
}
