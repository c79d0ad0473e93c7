//! Which class is loaded from where, and which bundles' services are assignable to which.

use cases_worlds::{cut, number, revision_id, text_of};
use osgi_base::BundleId;
use osgi_loader::{is_assignable, load};
use osgi_wiring::Wirings;
use std::alloc::{AllocError, Global};
use std::fmt::Write;

/// Adds the number of the revision that a class is loaded from, or `none`. The question is `ID CLASS`.
pub fn push_loaded(
    alloc: Global,
    out: &mut String,
    wirings: &Wirings,
    question: &str,
) -> Result<(), AllocError> {
    let (revision, class) = cut(question);
    let class = text_of(alloc, class)?;
    match load(alloc, wirings, revision_id(revision), &class)? {
        Some(by) => write!(out, "{}", by.0),
        None => out.push_str("none"),
    }
}

/// Adds whether a service is assignable. The question is `ID ID CLASS`.
pub fn push_assignable(
    alloc: Global,
    out: &mut String,
    wirings: &Wirings,
    question: &str,
) -> Result<(), AllocError> {
    let (registrant, rest) = cut(question);
    let (asker, class) = cut(rest);
    let class = text_of(alloc, class)?;
    let registrant = BundleId(number(registrant));
    let asker = BundleId(number(asker));
    let is = is_assignable(alloc, wirings, registrant, asker, &class)?;
    out.push_str(if is { "yes" } else { "no" })
}
