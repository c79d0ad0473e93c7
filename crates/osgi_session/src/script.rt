//! What a script is: its sections, and their statements.

use crate::statement::Statement;
use osgi_base::List;
use osgi_ops::Section;

/// A script: its sections, in the order of their heads. No two parts of one that was read are of one section.
pub struct Script {
    pub sections: List<Part>,
}

/// Not derived, so that each exit at which one is dropped is a single call, which is cheap to prove.
impl Drop for Script {
    fn drop(self) {
        let Script { sections: _ } = self;
    }
}

/// A section of a script, and its statements.
pub struct Part {
    pub section: Section,
    pub statements: List<Statement>,
}

/// Not derived, so that each exit at which one is dropped is a single call, which is cheap to prove.
impl Drop for Part {
    fn drop(self) {
        let Part {
            section: _,
            statements: _,
        } = self;
    }
}
