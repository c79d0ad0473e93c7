//! What a listener sees of a happening.

ghost use Rattle.std.specs.Prelude.{◌≡◌, ◌↔◌, All, IfOk, IsTrue};
ghost use Rattle.osgi_ops.specs.Assignable.{IsAssignable};
ghost use Rattle.osgi_ops.specs.Listening.{AsksFor};
ghost use Rattle.osgi_sights.specs.Shown.{shown, Shown};
ghost use Rattle.osgi_sights.specs.Sights.{added_of, goes};
ghost use Rattle.osgi_sights.specs.computed.Telling.{AreMade, attributes_of, IsAnswer, IsAnswerOf, IsEventAsked, IsEventPassed};

use crate::attributes::{passes, passes_made};
use crate::happening::Happening;
use osgi_base::{BundleId, ListenerId};
use osgi_listeners::{ListenerRow, Listeners};
use osgi_loader::is_assignable;
use osgi_model::Attributes;
use osgi_ops::{Event, Kind, SERVICE_MODIFIED, SERVICE_MODIFIED_ENDMATCH, Service};
use osgi_wiring::Wirings;
use std::alloc::{AllocError, Global};

/// Who may see what happens at an entry: the live listeners but those of the bundle that it cleans. Services are assignable by
/// these wirings.
#[derive(Clone, Copy)]
pub struct Onlookers<'a> {
    pub alloc: Global,
    pub listeners: &'a Listeners,
    pub wirings: &'a Wirings,
    pub removed: Option<BundleId>,
}

impl Onlookers<'_> {
    /// Whether the service is assignable to the bundle for each of its classes.
    fn are_assignable(&self, asker: BundleId, service: &Service) -> Result<bool, AllocError>
        ensures assignable { IfOk result (λ are.
            IsTrue are
            ↔ All (λ class. IsAssignable self.now.wirings.now.world service.now.owner asker class)
            service.now.classes) }
    {
        for class in service.classes.items() {
            if !is_assignable(self.alloc, self.wirings, service.owner, asker, class)? {
                return Ok(false);
            }
        }
        Ok(true)
    }

    /// Whether the listener asks for events of services, and of this service's classes.
    fn asks_for(&self, row: &ListenerRow, service: &Service) -> Result<bool, AllocError>
        ensures asks { IfOk result (λ asks.
            IsTrue asks ↔ AsksFor self.now.wirings.now.world (added_of row.now) service.now) }
    {
        match row.kind {
            Kind::All => Ok(true),
            Kind::Service => self.are_assignable(row.owner, service),
            _ => Ok(false),
        }
    }

    /// The event of the service under this code, if the listener asks for it.
    fn event_asked(
        &self,
        row: &ListenerRow,
        code: u8,
        service: &Service,
    ) -> Result<Option<Event>, AllocError>
        ensures event { IfOk result
            (IsEventAsked self.now.wirings.now.world (added_of row.now) code service.now) }
    {
        if self.asks_for(row, service)? {
            let service = service.service;
            return Ok(Some(Event::Service { code, service }));
        }
        Ok(None)
    }

    /// What the listener sees of a service that came or went.
    fn service_seen(
        &self,
        row: &ListenerRow,
        code: u8,
        service: &Service,
    ) -> Result<Option<Event>, AllocError>
        ensures answer { IfOk result
            (IsAnswer self.now.wirings.now.world (added_of row.now)
            (Shown.service code service.now)) }
    {
        if passes(&row.filter, &service.properties) {
            return self.event_asked(row, code, service);
        }
        Ok(None)
    }

    /// What the listener sees of a service whose properties changed.
    fn modified_seen(
        &self,
        row: &ListenerRow,
        old: &Service,
        new: &Service,
    ) -> Result<Option<Event>, AllocError>
        ensures answer { IfOk result
            (IsAnswer self.now.wirings.now.world (added_of row.now)
            (Shown.modified old.now new.now)) }
    {
        if passes(&row.filter, &new.properties) {
            return self.event_asked(row, SERVICE_MODIFIED, new);
        }
        if passes(&row.filter, &old.properties) {
            return self.event_asked(row, SERVICE_MODIFIED_ENDMATCH, new);
        }
        Ok(None)
    }

    /// The event, if the listener is of the kind and its filter matches what is read of the happening.
    fn event_passed(
        &self,
        row: &ListenerRow,
        kind: Kind,
        event: Event,
        happening: &Happening<'_>,
        made: &mut Option<Attributes>,
    ) -> Result<Option<Event>, AllocError>
        requires made { AreMade (shown happening.now) made.old }
        ensures event { IfOk result
            (IsEventPassed (added_of row.now) kind (attributes_of (shown happening.now)) event) }
        ensures made { AreMade (shown happening.now) made.new }
    {
        if row.kind != kind {
            return Ok(None);
        }
        if passes_made(self.alloc, &row.filter, happening, made)? {
            return Ok(Some(event));
        }
        Ok(None)
    }

    /// What the listener sees of a happening. What filters read of it is made for the first that asks.
    fn seen(
        &self,
        row: &ListenerRow,
        happening: &Happening<'_>,
        made: &mut Option<Attributes>,
    ) -> Result<Option<Event>, AllocError>
        requires made { AreMade (shown happening.now) made.old }
        ensures answer { IfOk result
            (IsAnswer self.now.wirings.now.world (added_of row.now) (shown happening.now)) }
        ensures made { AreMade (shown happening.now) made.new }
    {
        match *happening {
            Happening::Service { code, service } => self.service_seen(row, code, service),
            Happening::Modified { old, new } => self.modified_seen(row, old, new),
            Happening::Bundle { code, bundle, .. } => {
                let event = Event::Bundle { code, bundle };
                self.event_passed(row, Kind::Bundle, event, happening, made)
            }
            Happening::Framework { code } => {
                let event = Event::Framework { code };
                self.event_passed(row, Kind::Framework, event, happening, made)
            }
        }
    }

    /// Whether the listeners of the owner go with the entry.
    fn goes(&self, owner: BundleId) -> bool
        ensures goes { result ≡ goes self.now.removed owner }
    {
        match self.removed {
            Some(bundle) => bundle.0 == owner.0,
            None => false,
        }
    }

    /// What the listener of this id sees of a happening, if it is live and stays.
    pub fn seen_by(
        &self,
        listener: ListenerId,
        happening: &Happening<'_>,
        made: &mut Option<Attributes>,
    ) -> Result<Option<Event>, AllocError>
        requires made { AreMade (shown happening.now) made.old }
        ensures answer { IfOk result
            (IsAnswerOf self.now.listeners.now self.now.removed self.now.wirings.now.world
            (shown happening.now) listener) }
        ensures made { AreMade (shown happening.now) made.new }
    {
        let Some(row) = self.listeners.row(listener) else {
            return Ok(None);
        };
        if self.goes(row.owner) {
            return Ok(None);
        }
        self.seen(row, happening, made)
    }
}
