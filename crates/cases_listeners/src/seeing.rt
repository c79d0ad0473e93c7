//! What listeners see of happenings that words write.

use crate::words::{code, number, small};
use cases_text::{split_at, text_of};
use osgi_base::{BundleId, List, ServiceId, Shared, Text};
use osgi_listeners::{Listeners, Sight};
use osgi_model::{Attribute, Attributes, Value};
use osgi_ops::Service;
use osgi_sights::{Happened, Happening, sights};
use osgi_version::Version;
use osgi_wiring::Wirings;
use osgi_world::{known_system, system_revision};
use std::alloc::{AllocError, Global};

/// What a word writes of a happening.
#[derive(Drop)]
enum Told {
    Service {
        code: u8,
        service: Service,
    },
    Modified {
        old: Service,
        new: Service,
    },
    Bundle {
        code: u16,
        bundle: BundleId,
        name: Text,
        version: Version,
    },
    Framework {
        code: u8,
    },
}

impl Told {
    fn happening(&self) -> Happening<'_> {
        match self {
            Told::Service { code, service } => Happening::Service {
                code: *code,
                service,
            },
            Told::Modified { old, new } => Happening::Modified { old, new },
            Told::Bundle {
                code,
                bundle,
                name,
                version,
            } => Happening::Bundle {
                code: *code,
                bundle: *bundle,
                name,
                version,
            },
            Told::Framework { code } => Happening::Framework { code: *code },
        }
    }
}

/// The number as the property `x`.
fn properties_of(alloc: Global, word: &str) -> Result<Attributes, AllocError> {
    let mut properties = List::new(alloc)?;
    properties.push(Attribute {
        name: Text::of(alloc, b"x")?,
        value: Value::Long(i64::from(small(word))),
    })?;
    Ok(properties)
}

/// The service of an id, an owner and a class, with a number as its property `x`.
fn service_of(alloc: Global, head: &str, x: &str) -> Result<Service, AllocError> {
    let (id, rest) = split_at(head, ":");
    let (owner, class) = split_at(rest, ":");
    let mut classes = List::new(alloc)?;
    classes.push(text_of(alloc, class)?)?;
    Ok(Service {
        service: ServiceId(number(id)),
        owner: BundleId(small(owner)),
        classes,
        object: Text::of(alloc, b"object")?,
        properties: properties_of(alloc, x)?,
    })
}

/// A service that came or went, of `CODE:ID:OWNER:CLASS`.
fn service_told(alloc: Global, text: &str, x: &str) -> Result<Told, AllocError> {
    let (word, head) = split_at(text, ":");
    Ok(Told::Service {
        code: code(word),
        service: service_of(alloc, head, x)?,
    })
}

/// A bundle, of `CODE:ID:NAME`, with version 1.2.0.
fn bundle_told(alloc: Global, text: &str) -> Result<Told, AllocError> {
    let (word, rest) = split_at(text, ":");
    let (bundle, name) = split_at(rest, ":");
    Ok(Told::Bundle {
        code: u16::try_from(small(word)).unwrap_or(u16::MAX),
        bundle: BundleId(small(bundle)),
        name: text_of(alloc, name)?,
        version: Version::numbered(1, 2, 0),
    })
}

/// What a word writes, as the head of `main.rt` says.
fn told_of(alloc: Global, word: &str) -> Result<Told, AllocError> {
    let (kind, rest) = split_at(word, ":");
    let (head, numbers) = split_at(rest, "=");
    match kind {
        "s" => service_told(alloc, head, numbers),
        "m" => {
            let (old, new) = split_at(numbers, ">");
            Ok(Told::Modified {
                old: service_of(alloc, head, old)?,
                new: service_of(alloc, head, new)?,
            })
        }
        "b" => bundle_told(alloc, rest),
        _ => Ok(Told::Framework { code: code(rest) }),
    }
}

/// Makes a revision of the bundle known, unless one is.
fn install(alloc: Global, wirings: &mut Wirings, bundle: BundleId) -> Result<(), AllocError> {
    if wirings.issued() == u32::MAX || wirings.current(bundle).is_some() {
        return Ok(());
    }
    let revision = Shared::new(alloc, system_revision(alloc)?)?;
    wirings.add(bundle, revision)?;
    Ok(())
}

/// The framework, and bundles 1 and 2, which are installed and no more.
fn wirings(alloc: Global) -> Result<Wirings, AllocError> {
    let mut wirings = Wirings::new(alloc, known_system(alloc)?.revision)?;
    for bundle in [BundleId(1), BundleId(2)] {
        install(alloc, &mut wirings, bundle)?;
    }
    Ok(wirings)
}

fn told_all(alloc: Global, words: &str) -> Result<Vec<Told>, AllocError> {
    let mut told = Vec::new(alloc);
    for word in words.split(' ') {
        told.push(told_of(alloc, word)?)?;
    }
    Ok(told)
}

/// What the listeners see of the happenings that the words write, where the listeners of a bundle go, if one is given.
pub fn seen(
    alloc: Global,
    listeners: &Listeners,
    words: &str,
    removed: Option<BundleId>,
) -> Result<Vec<Sight>, AllocError> {
    let told = told_all(alloc, words)?;
    let mut happened = Happened::new(alloc);
    for one in told.iter() {
        happened.push(one.happening())?;
    }
    sights(alloc, listeners, &wirings(alloc)?, &happened, removed)
}
