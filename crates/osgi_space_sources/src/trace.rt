//! What exports use, traced from some of them on.

ghost use Rattle.std.specs.Prelude.{◌≡◌, ℕ, Contains, IfOk, OnOk};
ghost use Rattle.std.specs.Option.{ForSome};
ghost use Rattle.osgi_space_rows.specs.Rows.{OwnUse};
ghost use Rattle.osgi_space_sources.specs.computed.Amongst.{IsAmong};
ghost use Rattle.osgi_space_sources.specs.computed.Disputes.{IsDisputed};
ghost use Rattle.osgi_space_sources.specs.computed.RowSources.{Sources};
ghost use Rattle.osgi_space_sources.specs.computed.Traces.{AreTraced, IsFollowed, IsNotedLead, IsTraced, IsTracedTo, Keeps};
ghost use Rattle.osgi_space_sources.specs.declared.given.Given.{Given};

use crate::among::Among;
use crate::constraints::may_use;
use crate::disputed::Disputed;
use crate::found::Found;
use crate::given::Given;
use crate::lead::Lead;
use crate::package_sources::sources_of;
use osgi_space_rows::{Grouped, Rows};
use std::alloc::{AllocError, Global};

/// Once more leads than so many are gathered, none are answered, since they take memory.
pub(crate) const MOST_LEADS: usize = 1 << 18;

/// Exports, each a package with its exporter in the place of a source; by an export those that use it; and the sources of disputed
/// packages that exports use.
#[derive(Drop)]
pub struct Trace {
    pub exports: Found<Given>,
    pub users: Grouped<Given, Given>,
    pub leads: Found<Lead>,
}

impl Trace {
    /// These exports, of which nothing is traced yet.
    pub fn of(alloc: Global, exports: Found<Given>) -> Trace
        ensures exports { result.exports ≡ exports }
    {
        Trace {
            exports,
            users: Grouped::new(alloc),
            leads: Found::new(alloc),
        }
    }

    /// Notes the source as one that the export uses, if its package is disputed.
    fn note(&mut self, disputed: &Disputed, export: Given, source: Given) -> Result<(), AllocError>
        ensures kept { OnOk result (Keeps self.old self.new) }
        ensures noted { OnOk result (IsNotedLead (IsDisputed disputed.now) self.new export source) }
    {
        if !disputed.has(source.package) {
            return Ok(());
        }
        self.leads.add(Lead { export, source })?;
        Ok(())
    }

    /// Adds what the source exports of the package to the exports, as used by the export, if constraints may come from the source
    /// and it may use packages.
    fn follow(
        &mut self,
        rows: &Rows,
        among: Among,
        export: Given,
        source: Given,
    ) -> Result<(), AllocError>
        ensures kept { OnOk result (Keeps self.old self.new) }
        ensures followed { OnOk result (IsFollowed rows.now (IsAmong among.entry)
            self.new export source) }
    {
        if !may_use(rows, source.source, source.package) {
            return Ok(());
        }
        if !among.has(source.source) {
            return Ok(());
        }
        self.users.push(source, export)?;
        self.exports.add(source)?;
        Ok(())
    }
}

/// Traces the export to a source of a package that it uses.
fn trace_source(
    trace: &mut Trace,
    rows: &Rows,
    disputed: &Disputed,
    among: Among,
    export: Given,
    source: Given,
) -> Result<(), AllocError>
    ensures kept { OnOk result (Keeps trace.old trace.new) }
    ensures traced { OnOk result (IsTracedTo rows.now (IsAmong among.entry)
        (IsDisputed disputed.now) trace.new export source) }
{
    trace.note(disputed, export, source)?;
    trace.follow(rows, among, export, source)?;
    Ok(())
}

/// Traces the export to these sources of a package that it uses.
fn trace_sources(
    trace: &mut Trace,
    rows: &Rows,
    disputed: &Disputed,
    among: Among,
    export: Given,
    sources: &[Given],
) -> Result<(), AllocError>
    ensures kept { OnOk result (Keeps trace.old trace.new) }
    ensures traced { OnOk result ((s : Given) → Contains sources.now s
        → IsTracedTo rows.now (IsAmong among.entry) (IsDisputed disputed.now) trace.new export s) }
{
    for source in sources {
        trace_source(trace, rows, disputed, among, export, *source)?;
    }
    Ok(())
}

/// Traces the export to the sources that a package which it uses has for its exporter.
fn trace_use(
    alloc: Global,
    trace: &mut Trace,
    rows: &Rows,
    disputed: &Disputed,
    among: Among,
    export: Given,
    used: u32,
) -> Result<(), AllocError>
    ensures kept { OnOk result (Keeps trace.old trace.new) }
    ensures traced { OnOk result ((x : ℕ) → Sources rows.now export.source used x
        → IsTracedTo rows.now (IsAmong among.entry)
        (IsDisputed disputed.now) trace.new export (record { «package» = used; source = x })) }
{
    let sources = sources_of(alloc, rows, export.source, used)?;
    trace_sources(trace, rows, disputed, among, export, sources.as_slice())?;
    Ok(())
}

/// Traces the export by what an owner's exports of its package use.
fn trace_own_uses(
    alloc: Global,
    trace: &mut Trace,
    rows: &Rows,
    disputed: &Disputed,
    among: Among,
    export: Given,
    owner: u32,
) -> Result<(), AllocError>
    ensures kept { OnOk result (Keeps trace.old trace.new) }
    ensures traced { OnOk result ((u x : ℕ) → OwnUse rows.now owner export.package u
        → Sources rows.now export.source u x
        → IsTracedTo rows.now (IsAmong among.entry)
        (IsDisputed disputed.now) trace.new export (record { «package» = u; source = x })) }
{
    for row in rows.uses.of(owner, export.package) {
        trace_use(alloc, trace, rows, disputed, among, export, row.used)?;
    }
    Ok(())
}

/// Traces the export by what its exporter's exports of the package use, and those of its fragments.
fn trace_export(
    alloc: Global,
    trace: &mut Trace,
    rows: &Rows,
    disputed: &Disputed,
    among: Among,
    export: Given,
) -> Result<(), AllocError>
    ensures kept { OnOk result (Keeps trace.old trace.new) }
    ensures traced { OnOk result (IsTraced rows.now (IsAmong among.entry)
        (IsDisputed disputed.now) trace.new export) }
{
    trace_own_uses(alloc, trace, rows, disputed, among, export, export.source)?;
    for row in rows.attached.of(export.source) {
        trace_own_uses(alloc, trace, rows, disputed, among, export, row.fragment)?;
    }
    Ok(())
}

/// Traces these exports, those that they use, and so on; none, if they have too many leads: then nothing is
/// said.
pub fn trace_from(
    alloc: Global,
    rows: &Rows,
    disputed: &Disputed,
    among: Among,
    exports: Found<Given>,
) -> Result<Option<Trace>, AllocError>
    ensures exports { IfOk result (λ traced. ForSome traced (λ trace. (h : Given)
        → Contains exports h → Contains trace.exports h)) }
    ensures traced { IfOk result (λ traced.
        ForSome traced (AreTraced rows.now (IsAmong among.entry) (IsDisputed disputed.now))) }
{
    let mut trace = Trace::of(alloc, exports);
    let mut next = 0;
    while next < trace.exports.len() {
        if trace.leads.len() > MOST_LEADS {
            return Ok(None);
        }
        let export = trace.exports.items()[next];
        trace_export(alloc, &mut trace, rows, disputed, among, export)?;
        next += 1;
    }
    Ok(Some(trace))
}
