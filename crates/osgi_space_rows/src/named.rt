//! Rows with the names of their packages, and the exports and uses of known revisions as rows.

ghost use Rattle.std.specs.Prelude.{◌≡◌, ℕ, List, [], ◌∷◌, IfOk, OnOk};
ghost use Rattle.osgi_space_rows.specs.Names.{HasNumber};
ghost use Rattle.osgi_space_rows.specs.Rows.{no_rows};
ghost use Rattle.osgi_space_rows.specs.Worlds.{AreNamed};
ghost use Rattle.osgi_space_rows.specs.computed.Payloads.{Adds, Exported, KnownSays, OneSays, Says, Used};

use crate::names::Names;
use crate::rows::{Export, Rows, Use};
use osgi_base::Text;
use osgi_lookup::{KnownIndex, is_package};
use osgi_world::{Capability, Known};
use std::alloc::{AllocError, Global};

/// The names of packages, and rows that number packages by them.
pub struct Named {
    pub names: Names,
    pub rows: Rows,
}

/// Not derived, so that each exit at which one is dropped is a single call, which is cheap to prove.
impl Drop for Named {
    fn drop(self) {
        let Named { names: _, rows: _ } = self;
    }
}

impl Named {
    pub fn new(alloc: Global) -> Named
        ensures no_names { result.names ≡ [] }
        ensures no_rows { result.rows ≡ no_rows }
    {
        Named {
            names: Names::new(alloc),
            rows: Rows::new(alloc),
        }
    }

    /// Adds what these of the known revisions export and use. If memory runs out, some of it may have been added.
    pub fn add_known(&mut self, known: &KnownIndex, more: &[Known]) -> Result<(), AllocError>
        requires named { AreNamed self.old }
        ensures adds { OnOk result (Adds self.old self.new
            (OneSays (KnownSays known.now) more.now)) }
    {
        for each in more {
            if let Some(revision) = known.revision(each.id) {
                self.add_capabilities(each.id.0, revision.capabilities.items())?;
            }
        }
        Ok(())
    }

    fn add_capabilities(
        &mut self,
        owner: u32,
        capabilities: &[Capability],
    ) -> Result<(), AllocError>
        requires named { AreNamed self.old }
        ensures adds { OnOk result (Adds self.old self.new
            (OneSays (Says owner) capabilities.now)) }
    {
        for capability in capabilities {
            self.add_capability(owner, capability)?;
        }
        Ok(())
    }

    /// Adds an export, if the capability is one, and what it uses.
    fn add_capability(&mut self, owner: u32, capability: &Capability) -> Result<(), AllocError>
        requires named { AreNamed self.old }
        ensures adds { OnOk result (Adds self.old self.new (Says owner capability.now)) }
    {
        if is_package(capability.namespace.bytes()) {
            let exported = self.add_export(owner, &capability.name)?;
            self.add_uses(owner, exported, capability.uses.get().items())?;
        }
        Ok(())
    }

    /// Adds an export, and returns the number of its name.
    fn add_export(&mut self, owner: u32, name: &Text) -> Result<u32, AllocError>
        requires named { AreNamed self.old }
        ensures number { IfOk result (λ number. HasNumber self.new.names name.now number) }
        ensures adds { OnOk result (Adds self.old self.new (Exported owner name.now)) }
    {
        let exported = self.names.intern(name)?;
        self.rows.exports.push(Export { owner, exported })?;
        Ok(exported)
    }

    fn add_uses(&mut self, owner: u32, exported: u32, uses: &[Text]) -> Result<(), AllocError>
        requires named { AreNamed self.old }
        requires known { (name : List ℕ) × HasNumber self.old.names name exported }
        ensures adds { OnOk result ((name : List ℕ) → HasNumber self.old.names name exported
            → Adds self.old self.new (Used owner name uses.now)) }
    {
        for used in uses {
            self.add_use(owner, exported, used)?;
        }
        Ok(())
    }

    fn add_use(&mut self, owner: u32, exported: u32, used: &Text) -> Result<(), AllocError>
        requires named { AreNamed self.old }
        requires known { (name : List ℕ) × HasNumber self.old.names name exported }
        ensures adds { OnOk result ((name : List ℕ) → HasNumber self.old.names name exported
            → Adds self.old self.new (Used owner name (used.now ∷ []))) }
    {
        let used = self.names.intern(used)?;
        self.rows.uses.push(Use {
            owner,
            exported,
            used,
        })?;
        Ok(())
    }
}
