//! Rows about what there can be too many of, a line that joins, and the standard limits.

use cases_text::{put, put_shown};
use osgi_ops::{Limits, Many};
use osgi_session::{Content, Line};
use std::alloc::{AllocError, Global};

const MANY: [(&str, Many); 5] = [
    ("Bundles", Many::Bundles),
    ("Services", Many::Services),
    ("Listeners", Many::Listeners),
    ("Jobs", Many::Jobs),
    ("Locations", Many::Locations),
];

/// What there can be too many of, by its name.
pub fn many_named(name: &str) -> Option<Many> {
    for (word, many) in &MANY {
        if *word == name {
            return Some(*many);
        }
    }
    None
}

/// Adds the name of what there can be too many of.
pub fn add_many(out: &mut String, name: &str) -> Result<(), AllocError> {
    match many_named(name) {
        Some(many) => put(out, many.name()),
        None => put(out, "nothing"),
    }
}

/// Adds whether a line that joins is as its copy.
pub fn add_join(alloc: Global, out: &mut String) -> Result<(), AllocError> {
    let line = Line {
        number: 4,
        lane: 2,
        content: Content::Join,
    };
    let copy = line.copy(alloc)?;
    let is_same = copy.number == 4 && copy.lane == 2 && matches!(&copy.content, Content::Join);
    put(
        out,
        if is_same {
            "as its copy"
        } else {
            "its copy differs"
        },
    )
}

/// Adds the standard limits: the budget, the handings and the entries.
pub fn add_limits(out: &mut String) -> Result<(), AllocError> {
    let limits = Limits::standard();
    put_shown(out, &limits.budget)?;
    put(out, " ")?;
    put_shown(out, &limits.handings)?;
    put(out, " ")?;
    put_shown(out, &limits.entries)
}
