//! Answers as cases show them.

use cases_text::{put, put_shown, put_text};
use osgi_base::ListenerId;
use osgi_listeners::{HandAnswer, ListenerRow, Sight};
use osgi_ops::{Busy, Event, Refusal};
use std::alloc::AllocError;

pub fn put_refusal(out: &mut String, refusal: &Refusal) -> Result<(), AllocError> {
    put(out, "refused ")?;
    put_shown(out, &refusal.number())
}

pub fn put_truth(out: &mut String, truth: bool) -> Result<(), AllocError> {
    put(out, if truth { "true" } else { "false" })
}

pub fn put_ids(out: &mut String, ids: &[ListenerId]) -> Result<(), AllocError> {
    if ids.is_empty() {
        return put(out, "none");
    }
    let mut is_first = true;
    for id in ids {
        if !is_first {
            put(out, " ")?;
        }
        is_first = false;
        put_shown(out, &id.0)?;
    }
    Ok(())
}

/// The code of an event.
fn code_of(event: Event) -> u16 {
    match event {
        Event::Service { code, .. } => u16::from(code),
        Event::Bundle { code, .. } => code,
        Event::Framework { code } => u16::from(code),
    }
}

pub fn put_handed(out: &mut String, listener: ListenerId, event: Event) -> Result<(), AllocError> {
    put_shown(out, &listener.0)?;
    put(out, " ")?;
    put_shown(out, &code_of(event))
}

fn put_turn(out: &mut String, turn: &Busy) -> Result<(), AllocError> {
    put(out, " (")?;
    put_shown(out, &turn.listener.0)?;
    put(out, " by ")?;
    put_shown(out, &turn.tag.caller)?;
    put(out, " ")?;
    put_shown(out, &turn.tag.command)?;
    put(out, ")")
}

pub fn put_busy(out: &mut String, busy: &[Busy]) -> Result<(), AllocError> {
    for turn in busy {
        put_turn(out, turn)?;
    }
    Ok(())
}

pub fn put_hand(out: &mut String, answer: &HandAnswer) -> Result<(), AllocError> {
    match answer {
        HandAnswer::Handed { listener, event } => put_handed(out, *listener, *event),
        HandAnswer::Nothing { busy } => {
            put(out, "nothing")?;
            put_busy(out, busy.items())
        }
    }
}

pub fn put_row(out: &mut String, row: &ListenerRow) -> Result<(), AllocError> {
    put_shown(out, &row.listener.0)?;
    put(out, " ")?;
    put_shown(out, &row.owner.0)?;
    put(out, " ")?;
    put_text(out, &row.name)
}

/// The id of the service or of the bundle that an event is of.
fn subject_of(event: Event) -> Option<u64> {
    match event {
        Event::Service { service, .. } => Some(service.0),
        Event::Bundle { bundle, .. } => Some(u64::from(bundle.0)),
        Event::Framework { .. } => None,
    }
}

fn put_sight(out: &mut String, sight: &Sight) -> Result<(), AllocError> {
    put_shown(out, &sight.place)?;
    put(out, ":")?;
    put_shown(out, &sight.listener.0)?;
    put(out, ":")?;
    put_shown(out, &code_of(sight.event))?;
    if let Some(id) = subject_of(sight.event) {
        put(out, "/")?;
        put_shown(out, &id)?;
    }
    Ok(())
}

pub fn put_sights(out: &mut String, sights: &[Sight]) -> Result<(), AllocError> {
    put(out, "seen")?;
    for sight in sights {
        put(out, " ")?;
        put_sight(out, sight)?;
    }
    Ok(())
}
