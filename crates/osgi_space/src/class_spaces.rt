//! The class spaces of a world.

ghost use Rattle.std.specs.Prelude.{◌≡◌, ◌↔◌, IfOk, map};
ghost use Rattle.std.specs.List.Sorted.{IsStrictlyIncreasing};
ghost use Rattle.osgi_base.specs.declared.ids.RevisionId.{RevisionId};
ghost use Rattle.osgi_space.specs.ImpliedOrder.{AreInOrder};
ghost use Rattle.osgi_space.specs.Seen.{IsClassSpace};
ghost use Rattle.osgi_space.specs.declared.implied_constraints.Implied.{Implied};
ghost use Rattle.osgi_world.specs.Lists.{In};
ghost use Rattle.osgi_world.specs.Sources as relation;
ghost use Rattle.osgi_world.specs.Sources.{Sources};

use crate::implied_constraints::{Implied, implied_in};
use crate::questions::sources_in;
use crate::seen_packages::{PackageSources, space_in};
use osgi_base::{List, RevisionId, Text};
use osgi_space_rows::WorldRows;
use osgi_world::World;
use std::alloc::{AllocError, Global};
use std::marker::Model;

/// A world, made ready for many questions about where its packages come from. Contracts see the world.
#[derive(Drop)]
pub struct ClassSpaces<'w> {
    world: &'w World,
    rows: WorldRows<'w>,
}

impl<'w> Model for ClassSpaces<'w> {
    ghost use Rattle.osgi_space.specs.computed.Spaces.{AreRowsOfWorld};
    ghost use Rattle.osgi_world.specs.declared.world.World.{World};
    ghost use Rattle.std.specs.Coded.{codes};
    ghost use Rattle.osgi_model.specs.contracts.filter.Filter as filter;
    ghost use Rattle.osgi_model.specs.contracts.value.Value as value;

    ghost Value = { World };

    ghost coded = { Prim.hlevel (codes, filter.the_row.coded, value.the_row.coded) };

    ghost view = { λ s. s.world.now };

    ghost invariant = { λ s. AreRowsOfWorld s.rows s.world.now };
}

impl<'w> ClassSpaces<'w> {
    pub fn new(alloc: Global, world: &'w World) -> Result<ClassSpaces<'w>, AllocError>
        ensures world { IfOk result (λ spaces. spaces ≡ world.now) }
    {
        let rows = WorldRows::new(alloc, world.known.items(), world.wirings.items())?;
        Ok(ClassSpaces { world, rows })
    }

    /// The sources of the package for the revision, rising.
    pub fn sources(
        &self,
        alloc: Global,
        revision: RevisionId,
        package: &Text,
    ) -> Result<List<RevisionId>, AllocError>
        ensures rising { IfOk result (λ list.
            IsStrictlyIncreasing (map (λ (r : RevisionId). r.0) list)) }
        ensures sources { IfOk result (λ list. (x : RevisionId) → In x list
            ↔ Sources self.now.known self.now.wirings revision «package».now x) }
    {
        Ok(sources_in(alloc, &self.rows, revision, package)?)
    }

    /// The packages that have a source for the revision, each once, by their bytes, with their sources, rising.
    pub fn space(
        &self,
        alloc: Global,
        revision: RevisionId,
    ) -> Result<List<PackageSources>, AllocError>
        ensures space { IfOk result (IsClassSpace self.now.known self.now.wirings revision) }
    {
        Ok(space_in(alloc, &self.rows, revision)?)
    }

    /// The implied constraints of the revision, each once, by rising revision that sees the package, then by the package's bytes.
    pub fn implied(&self, alloc: Global, revision: RevisionId) -> Result<List<Implied>, AllocError>
        ensures ordered { IfOk result AreInOrder }
        ensures implied { IfOk result (λ list. (v : Implied) → In v list
            ↔ relation.Implied self.now.known self.now.wirings (λ x. Unit {0})
            revision v.seen_by v.package) }
    {
        Ok(implied_in(alloc, &self.rows, revision)?)
    }
}

/// The sources of the package for the revision, rising.
pub fn sources(
    alloc: Global,
    world: &World,
    revision: RevisionId,
    package: &Text,
) -> Result<List<RevisionId>, AllocError>
    ensures rising { IfOk result (λ list.
        IsStrictlyIncreasing (map (λ (r : RevisionId). r.0) list)) }
    ensures sources { IfOk result (λ list. (x : RevisionId) → In x list
        ↔ Sources world.now.known world.now.wirings revision «package».now x) }
{
    let spaces = ClassSpaces::new(alloc, world)?;
    spaces.sources(alloc, revision, package)
}

/// The implied constraints of the revision, each once, by rising revision that sees the package, then by the package's bytes.
pub fn implied(
    alloc: Global,
    world: &World,
    revision: RevisionId,
) -> Result<List<Implied>, AllocError>
    ensures ordered { IfOk result AreInOrder }
    ensures implied { IfOk result (λ list. (v : Implied) → In v list
        ↔ relation.Implied world.now.known world.now.wirings (λ x. Unit {0})
        revision v.seen_by v.package) }
{
    let spaces = ClassSpaces::new(alloc, world)?;
    spaces.implied(alloc, revision)
}
