//! To which services an asker is taken to have access.

use cases_operations::number;
use osgi_base::{BundleId, Text};

#[derive(Clone, Copy)]
pub enum Assignable<'a> {
    All,
    Nothing,
    /// Those of the bundle.
    Of(u32),
    /// Those of the bundle, for this class alone.
    OfClass(u32, &'a str),
}

impl<'a> Assignable<'a> {
    /// The test that a text writes.
    pub fn of(text: &'a str) -> Assignable<'a> {
        if text == "all" {
            Assignable::All
        } else if text == "none" {
            Assignable::Nothing
        } else {
            Assignable::owned(text.strip_prefix("owner ").unwrap_or(""))
        }
    }

    fn owned(text: &'a str) -> Assignable<'a> {
        match text.split_once(" class ") {
            Some((owner, class)) => Assignable::OfClass(number(owner), class),
            None => Assignable::Of(number(text)),
        }
    }

    pub fn allows(self, registrant: BundleId, class: &Text) -> bool {
        match self {
            Assignable::All => true,
            Assignable::Nothing => false,
            Assignable::Of(owner) => registrant.0 == owner,
            Assignable::OfClass(owner, only) => {
                registrant.0 == owner && class.bytes() == only.as_bytes()
            }
        }
    }
}
