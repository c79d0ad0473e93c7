//! Wirings, with what they say of a revision found without a scan.

ghost use Rattle.std.specs.Prelude.{◌≡◌, ◌↔◌, IfOk, IsTrue, OnOk};
ghost use Rattle.osgi_space_rules.specs.computed.Growing.{Grows};
ghost use Rattle.osgi_space_rules.specs.computed.Indexed.{AreAttached, AreInForce, AreWired, IsWired};
ghost use Rattle.osgi_space_rules.specs.computed.Keys.{attachment, wired_place};
ghost use Rattle.osgi_world.specs.Lists.{In};
ghost use Rattle.osgi_world.specs.Wirings.{Attached, InForce, Owns};

use crate::keys::{Attachment, WiredPlace};
use crate::sorted::Sorted;
use osgi_base::RevisionId;
use osgi_world::{ReqRef, Wiring};
use std::alloc::{AllocError, Global};
use std::marker::Model;

/// Wirings, with the revisions that are in force, the fragments that are attached and the requirements that have wires.
/// Contracts see the wirings.
#[derive(Drop)]
pub struct WiringIndex<'w> {
    wirings: &'w [Wiring],
    in_force: Sorted<RevisionId>,
    attached: Sorted<Attachment>,
    wired: Sorted<WiredPlace>,
}

impl<'w> Model for WiringIndex<'w> {
    ghost use Rattle.std.specs.Prelude.{List};
    ghost use Rattle.osgi_space_rules.specs.computed.Indexed.{AreAttached, AreInForce, AreWired};
    ghost use Rattle.osgi_world.specs.declared.wiring.Wiring.{Wiring};

    ghost Value = { List Wiring };

    ghost view = { λ i. i.wirings.now };

    ghost invariant = { λ i. AreInForce i.in_force i.wirings.now
        × AreAttached i.attached i.wirings.now × AreWired i.wired i.wirings.now };
}

impl<'w> WiringIndex<'w> {
    pub fn new(alloc: Global, wirings: &'w [Wiring]) -> Result<WiringIndex<'w>, AllocError>
        ensures wirings { IfOk result (λ made. made ≡ wirings.now) }
    {
        let in_force = Sorted::of(revisions_in_force(alloc, wirings)?)?;
        let attached = Sorted::of(attachments(alloc, wirings)?)?;
        let wired = Sorted::of(wired_places(alloc, wirings)?)?;
        Ok(WiringIndex {
            wirings,
            in_force,
            attached,
            wired,
        })
    }

    pub fn all(&self) -> &'w [Wiring]
        ensures wirings { result.now ≡ self.now }
    {
        self.wirings
    }

    /// Whether the revision has a wiring.
    pub fn is_in_force(&self, id: RevisionId) -> bool
        ensures in_force { IsTrue result ↔ InForce self.now id }
    {
        self.in_force.has(&id)
    }

    /// Whether what the owner has is in the payload of the revision: it is the revision itself, or attached to it.
    pub fn owns(&self, id: RevisionId, owner: RevisionId) -> bool
        ensures owns { IsTrue result ↔ Owns self.now id owner }
    {
        owner == id || self.is_attached(id, owner)
    }

    fn is_attached(&self, host: RevisionId, fragment: RevisionId) -> bool
        ensures attached { IsTrue result ↔ Attached self.now host fragment }
    {
        self.attached.has(&Attachment { host, fragment })
    }

    /// Whether the revision has a wire for the requirement.
    pub fn is_wired(&self, id: RevisionId, requirement: ReqRef) -> bool
        ensures wired { IsTrue result ↔ IsWired self.now id requirement }
    {
        self.wired.has(&WiredPlace::new(id, requirement))
    }
}

fn revisions_in_force(alloc: Global, wirings: &[Wiring]) -> Result<Vec<RevisionId>, AllocError>
    ensures in_force { IfOk result (λ v. AreInForce v.items wirings.now) }
{
    let mut in_force = Vec::new(alloc);
    for wiring in wirings {
        in_force.push(wiring.revision)?;
    }
    Ok(in_force)
}

fn attachments(alloc: Global, wirings: &[Wiring]) -> Result<Vec<Attachment>, AllocError>
    ensures attached { IfOk result (λ v. AreAttached v.items wirings.now) }
{
    let mut attached = Vec::new(alloc);
    for wiring in wirings {
        add_fragments(&mut attached, wiring)?;
    }
    Ok(attached)
}

fn add_fragments(attached: &mut Vec<Attachment>, wiring: &Wiring) -> Result<(), AllocError>
    ensures added { OnOk result (Grows (λ a. In a attached.old.items) (λ a. In a attached.new.items)
        (λ fragment key. key ≡ attachment wiring.now.revision fragment) wiring.now.fragments) }
{
    for fragment in wiring.fragments.items() {
        attached.push(Attachment {
            host: wiring.revision,
            fragment: *fragment,
        })?;
    }
    Ok(())
}

fn wired_places(alloc: Global, wirings: &[Wiring]) -> Result<Vec<WiredPlace>, AllocError>
    ensures wired { IfOk result (λ v. AreWired v.items wirings.now) }
{
    let mut wired = Vec::new(alloc);
    for wiring in wirings {
        add_wired(&mut wired, wiring)?;
    }
    Ok(wired)
}

fn add_wired(wired: &mut Vec<WiredPlace>, wiring: &Wiring) -> Result<(), AllocError>
    ensures added { OnOk result (Grows (λ p. In p wired.old.items) (λ p. In p wired.new.items)
        (λ wire key. key ≡ wired_place wiring.now.revision wire.requirement) wiring.now.wires) }
{
    for wire in wiring.wires.items() {
        let place = WiredPlace::new(wiring.revision, wire.requirement);
        wired.push(place)?;
    }
    Ok(())
}
