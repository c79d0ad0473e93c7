//! The live listeners of each kind, so that an event costs its listeners and no others.

ghost use Rattle.std.specs.Prelude.{◌≡◌, [], ◌∷◌, ◌++◌, filter, map, if◌then◌else◌, OnOk, OnErr};
ghost use Rattle.std.specs.List.Sorted.{IsStrictlyIncreasing};
ghost use Rattle.osgi_ops.specs.declared.kind.Kind.{Kind};
ghost use Rattle.osgi_listeners.specs.Rows.{is_live, listeners_in, number_of, same_kind};
ghost use Rattle.osgi_listeners.specs.computed.Kinds.{ids_in};

use crate::slot::Slot;
use crate::slots::is_live;
use osgi_base::ListenerId;
use osgi_ops::Kind;
use std::alloc::{AllocError, Global};

/// The ids of the live listeners of each kind, rising.
#[derive(Drop)]
pub struct KindIndex {
    service: Vec<ListenerId>,
    all: Vec<ListenerId>,
    bundle: Vec<ListenerId>,
    framework: Vec<ListenerId>,
}

impl KindIndex {
    pub fn new(alloc: Global) -> KindIndex
        ensures none { (kind : Kind) → ids_in kind result ≡ [] }
    {
        KindIndex {
            service: Vec::new(alloc),
            all: Vec::new(alloc),
            bundle: Vec::new(alloc),
            framework: Vec::new(alloc),
        }
    }

    /// The ids of the listeners of a kind.
    pub fn ids(&self, kind: Kind) -> &[ListenerId]
        ensures ids { result.now ≡ ids_in kind self.now }
    {
        match kind {
            Kind::Service => self.service.as_slice(),
            Kind::All => self.all.as_slice(),
            Kind::Bundle => self.bundle.as_slice(),
            Kind::Framework => self.framework.as_slice(),
        }
    }

    /// Adds a listener of a kind behind those that are there.
    pub fn add(&mut self, kind: Kind, listener: ListenerId) -> Result<(), AllocError>
        ensures added { OnOk result
            ((k : Kind)
            → ids_in k self.new
            ≡ ids_in k self.old ++ (if same_kind kind k then listener ∷ [] else [])) }
        ensures unchanged { OnErr result ((k : Kind) → ids_in k self.new ≡ ids_in k self.old) }
    {
        match kind {
            Kind::Service => self.service.push(listener)?,
            Kind::All => self.all.push(listener)?,
            Kind::Bundle => self.bundle.push(listener)?,
            Kind::Framework => self.framework.push(listener)?,
        }
        Ok(())
    }

    /// Takes out the listeners that are not live.
    pub fn keep_live(&mut self, slots: &[Slot])
        requires rising { IsStrictlyIncreasing (map number_of (listeners_in slots.now)) }
        ensures kept { (k : Kind)
            → ids_in k self.new ≡ filter (is_live slots.now) (ids_in k self.old) }
    {
        keep_live_of(&mut self.service, slots);
        keep_live_of(&mut self.all, slots);
        keep_live_of(&mut self.bundle, slots);
        keep_live_of(&mut self.framework, slots);
    }
}

/// Takes out the ids of listeners that are not live.
fn keep_live_of(ids: &mut Vec<ListenerId>, slots: &[Slot])
    requires rising { IsStrictlyIncreasing (map number_of (listeners_in slots.now)) }
    ensures kept { ids.new.items ≡ filter (is_live slots.now) ids.old.items }
{
    ids.retain(
        |id: &ListenerId| -> bool
            requires rising { IsStrictlyIncreasing (map number_of (listeners_in slots.now)) }
            ensures live { result ≡ is_live slots.entry.now id.now }
        { is_live(slots, *id) },
    );
}
