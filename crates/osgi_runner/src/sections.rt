//! The sections of scripts, and how they begin.

ghost use Rattle.std.specs.Borrow.{Bor};
ghost use Rattle.std.specs.Option.{option_map, option_map_or};
ghost use Rattle.std.specs.Prelude.{◌≡◌, [], IfOk, find, slice_get};
ghost use Rattle.osgi_session.specs.declared.script.Part.{Part};
ghost use Rattle.osgi_session.specs.declared.script.Script.{Script};
ghost use Rattle.osgi_runner.specs.computed.States.{bindings_of, first_bindings, IsRunning, Opens, OpensBy, service_of};
ghost use Rattle.osgi_runner.specs.computed.Stacks.{CanOpen, SaysSection};
ghost use Rattle.osgi_session.specs.Scripts.{is_section, sections_of};

use crate::frames::{Opening, Running};
use crate::statements::Binding;
use osgi_base::{BundleId, ServiceId, Text};
use osgi_ops::{Event, Reply, Section};
use osgi_session::{Part, Scripts, Statement};
use std::alloc::{AllocError, Global};

/// Whether two sections are the same.
fn is_section(which: &Section, other: &Section) -> bool
    ensures same { result ≡ is_section which.now other.now }
{
    match (which, other) {
        (Section::Start, Section::Start) => true,
        (Section::Stop, Section::Stop) => true,
        (Section::On(name), Section::On(other)) => name == other,
        (Section::Job(name), Section::Job(other)) => name == other,
        (Section::Make(name), Section::Make(other)) => name == other,
        _ => false,
    }
}

/// The parts of the row's script: none where the row has no script.
fn parts_of(scripts: &Scripts, row: u32) -> &[Part]
    ensures parts { result.now
        ≡ option_map_or (λ (script : Script). script.sections) (slice_get scripts.now.rows row) [] }
{
    match scripts.rows.items().get(row as usize) {
        Some(script) => script.sections.items(),
        None => &[],
    }
}

/// The part that is of this section, if there is one.
fn part_of<'s>(parts: &'s [Part], which: &Section) -> Option<&'s Part>
    ensures found { option_map (λ (part : Bor Part). part.now) result
        ≡ find (λ (part : Part). is_section which.now part.section) parts.now }
{
    parts.iter().find(|part| is_section(which, &part.section))
}

/// The statements of a section of the row's script: none where the script does not have it, or the row has no script.
pub fn statements_of<'s>(scripts: &'s Scripts, row: u32, which: &Section) -> &'s [Statement]
    ensures statements { result.now ≡ sections_of scripts.now row which.now }
{
    match part_of(parts_of(scripts, row), which) {
        Some(part) => part.statements.items(),
        None => &[],
    }
}

/// The variable that holds the service of the event.
const EVENT: &[u8] = b"event";

/// The service that an event is of.
fn service_of(event: Event) -> Option<ServiceId>
    ensures service { result ≡ service_of event }
{
    match event {
        Event::Service { code: _, service } => Some(service),
        Event::Bundle { .. } | Event::Framework { .. } => None,
    }
}

/// The bindings with which a section begins that is run for an event of this service, if it is of one.
fn first_bindings(alloc: Global, service: Option<ServiceId>) -> Result<Vec<Binding>, AllocError>
    ensures bindings { IfOk result (λ bindings.
        bindings_of bindings.items ≡ first_bindings service) }
{
    let mut bindings = Vec::new(alloc);
    if let Some(service) = service {
        bindings.push(Binding {
            var: Text::of(alloc, EVENT)?,
            service,
        })?;
    }
    Ok(bindings)
}

/// The section as it begins.
fn began<'s>(
    alloc: Global,
    scripts: &'s Scripts,
    row: u32,
    owner: BundleId,
    section: &Section,
    service: Option<ServiceId>,
) -> Result<Running<'s>, AllocError>
    ensures running { IfOk result (λ running.
        IsRunning running owner (first_bindings service)
        (sections_of scripts.now row section.now)) }
{
    Ok(Running {
        owner,
        bindings: first_bindings(alloc, service)?,
        left: statements_of(scripts, row, section),
    })
}

/// The section that the reply says, as it begins.
fn by_reply<'s>(
    alloc: Global,
    scripts: &'s Scripts,
    reply: &Reply,
) -> Result<Running<'s>, AllocError>
    requires says { SaysSection reply.now }
    ensures running { IfOk result (λ running. OpensBy (sections_of scripts.now) reply.now running) }
{
    match reply {
        Reply::Handed {
            row,
            owner,
            name,
            event,
            ..
        } => {
            let section = Section::On(name.copy(alloc)?);
            began(alloc, scripts, *row, *owner, &section, service_of(*event))
        }
        Reply::Job { row, owner, name } => {
            let section = Section::Job(name.copy(alloc)?);
            began(alloc, scripts, *row, *owner, &section, None)
        }
        _ => unreachable!(),
    }
}

impl Opening {
    /// The section as it begins.
    pub fn opened<'s>(&self, alloc: Global, scripts: &'s Scripts) -> Result<Running<'s>, AllocError>
        requires can { CanOpen self.now }
        ensures running { IfOk result (λ running.
            Opens (sections_of scripts.now) self.now running) }
    {
        match self {
            Opening::ByPlan {
                row,
                owner,
                section,
            } => began(alloc, scripts, *row, *owner, section, None),
            Opening::ByReply(reply) => by_reply(alloc, scripts, reply),
        }
    }
}
