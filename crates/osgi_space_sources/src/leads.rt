//! The sources of disputed packages to which exports lead.

ghost use Rattle.std.specs.Prelude.{Contains, IfOk, OnOk};
ghost use Rattle.std.specs.Option.{ForSome};
ghost use Rattle.osgi_space_sources.specs.computed.Adds.{Adds};
ghost use Rattle.osgi_space_sources.specs.computed.Amongst.{IsAmong};
ghost use Rattle.osgi_space_sources.specs.computed.Disputes.{IsDisputed};
ghost use Rattle.osgi_space_sources.specs.computed.Leads.{IsLead, IsUnder, LeadsBack};
ghost use Rattle.osgi_space_sources.specs.computed.Reach.{Reach};
ghost use Rattle.osgi_space_sources.specs.declared.given.Given.{Given};
ghost use Rattle.osgi_space_sources.specs.declared.lead.Lead.{Lead};

use crate::among::Among;
use crate::disputed::Disputed;
use crate::found::Found;
use crate::given::Given;
use crate::lead::Lead;
use crate::trace::{MOST_LEADS, Trace, trace_from};
use osgi_space_rows::{Grouped, Rows};
use std::alloc::{AllocError, Global};

/// Adds that those who use the export lead to the source, too.
fn add_users(
    leads: &mut Found<Lead>,
    users: &Grouped<Given, Given>,
    lead: Lead,
) -> Result<(), AllocError>
    ensures added { OnOk result (Adds (LeadsBack users.now lead) leads.old leads.new) }
{
    for user in users.of(&lead.export) {
        leads.add(Lead {
            export: *user,
            source: lead.source,
        })?;
    }
    Ok(())
}

/// What the exports lead to, and those that use them, and so on; none, if that is too much: then nothing is said.
fn carried_back(
    leads: Found<Lead>,
    users: &Grouped<Given, Given>,
) -> Result<Option<Found<Lead>>, AllocError>
    ensures carried { IfOk result (λ carried. ForSome carried (λ all. (l : Lead)
        → Reach (Contains leads) (LeadsBack users.now) l → Contains all l)) }
{
    let mut all = leads;
    let mut next = 0;
    while next < all.len() {
        if all.len() > MOST_LEADS {
            return Ok(None);
        }
        let lead = all.items()[next];
        add_users(&mut all, users, lead)?;
        next += 1;
    }
    Ok(Some(all))
}

/// The sources by the exports that lead to them.
fn by_export(alloc: Global, leads: &[Lead]) -> Result<Grouped<Given, Given>, AllocError>
    ensures grouped { IfOk result (λ grouped. (l : Lead) → Contains leads.now l
        → IsUnder grouped l.export l.source) }
{
    let mut grouped = Grouped::new(alloc);
    for lead in leads {
        grouped.push(lead.export, lead.source)?;
    }
    Ok(grouped)
}

/// The sources to which the exports that were traced lead, by the exports; none, if they are too many.
fn leads_in(alloc: Global, trace: Trace) -> Result<Option<Grouped<Given, Given>>, AllocError>
    ensures leads { IfOk result (λ found. ForSome found (λ leads. (l : Lead)
        → Reach (Contains trace.leads) (LeadsBack trace.users) l
        → IsUnder leads l.export l.source)) }
{
    let Trace { users, leads, .. } = trace;
    let Some(all) = carried_back(leads, &users)? else {
        return Ok(None);
    };
    Ok(Some(by_export(alloc, all.items())?))
}

/// The sources of disputed packages to which these exports lead: of each constraint that follows from an export, those of its package
/// for the one that sees it. Others may stand there, too. None, if they are too many; then nothing is said.
pub fn leads_of(
    alloc: Global,
    rows: &Rows,
    disputed: &Disputed,
    among: Among,
    exports: Found<Given>,
) -> Result<Option<Grouped<Given, Given>>, AllocError>
    ensures leads { IfOk result (λ found. ForSome found (λ leads. (h s : Given) → Contains exports h
        → IsLead rows.now (IsAmong among.entry) h s → IsDisputed disputed.now s.package
        → IsUnder leads h s)) }
{
    let Some(trace) = trace_from(alloc, rows, disputed, among, exports)? else {
        return Ok(None);
    };
    Ok(leads_in(alloc, trace)?)
}
