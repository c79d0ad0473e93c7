//! What a bundle's folder means.

ghost use Rattle.std.specs.Prelude.{◌≡◌};

use osgi_session::Script;
use osgi_world::Revision;

/// What a bundle's folder means: its revision, and the script of its activator.
pub struct Meaning {
    pub revision: Revision,
    /// What the file of the activator's class says. Without an activator it has no sections.
    pub script: Script,
}

/// Not derived, so that each exit at which one is dropped is a single call, which is cheap to prove.
impl Drop for Meaning {
    fn drop(self) {
        let Meaning {
            revision: _,
            script: _,
        } = self;
    }
}

impl Meaning {
    /// The revision and the script.
    pub fn into_parts(self) -> (Revision, Script)
        ensures revision { result.0 ≡ self.revision }
        ensures script { result.1 ≡ self.script }
    {
        let Meaning { revision, script } = self;
        (revision, script)
    }
}
