//! The sections that have a head already.

ghost use Rattle.std.specs.Prelude.{◌≡◌, ◌||◌, not, false, IfOk};
ghost use Rattle.osgi_ops.specs.declared.section.Section.{Section};
ghost use Rattle.osgi_script.specs.computed.ScriptReader.{is_taken};
ghost use Rattle.osgi_session.specs.Scripts.{is_section};

use osgi_base::Text;
use osgi_ops::Section;
use std::alloc::{AllocError, Global};
use std::collections::BTreeSet;

/// The sections that have a head already.
#[derive(Drop)]
pub struct Taken {
    start: bool,
    stop: bool,
    on: BTreeSet<Text>,
    job: BTreeSet<Text>,
    make: BTreeSet<Text>,
}

impl Taken {
    ghost use Rattle.std.specs.Prelude.{◌≡◌, ◌||◌, not, false, IfOk};
    ghost use Rattle.osgi_ops.specs.declared.section.Section.{Section};
    ghost use Rattle.osgi_script.specs.computed.ScriptReader.{is_taken};
    ghost use Rattle.osgi_session.specs.Scripts.{is_section};

    pub fn new(alloc: Global) -> Taken
        ensures none { (section : Section) → is_taken result section ≡ false }
    {
        Taken {
            start: false,
            stop: false,
            on: BTreeSet::new(alloc),
            job: BTreeSet::new(alloc),
            make: BTreeSet::new(alloc),
        }
    }

    /// Takes a section; false where it was taken before.
    pub fn take(&mut self, alloc: Global, section: &Section) -> Result<bool, AllocError>
        ensures first { IfOk result (λ first. first ≡ not (is_taken self.old section.now)) }
        ensures taken { IfOk result (λ first.
            (other : Section)
            → is_taken self.new other
            ≡ (is_section other section.now || is_taken self.old other)) }
    {
        match section {
            Section::Start => {
                let first = !self.start;
                self.start = true;
                Ok(first)
            }
            Section::Stop => {
                let first = !self.stop;
                self.stop = true;
                Ok(first)
            }
            Section::On(name) => Ok(self.on.insert(name.copy(alloc)?)?),
            Section::Job(name) => Ok(self.job.insert(name.copy(alloc)?)?),
            Section::Make(name) => Ok(self.make.insert(name.copy(alloc)?)?),
        }
    }
}
