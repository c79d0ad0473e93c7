//! Starts and stops of the bundles in the table, as they begin and end.

ghost use Rattle.std.specs.Prelude.{◌≡◌, ◌≢◌, ⊤, Decides, IfOk, IsOkAnd, OnErr};
ghost use Rattle.osgi_base.specs.Verdict.{Gives};
ghost use Rattle.osgi_base.specs.declared.ids.Tag.{Tag};
ghost use Rattle.osgi_bundle.specs.Rows.{end_refusals, IsInChange, IsInNoChange, IsInState, IsStartable, IsStoppable, rows_begun, start_refusals, StartBegins, started_state, stop_refusals, StopBegins, verdict_of, with_begun, with_state};
ghost use Rattle.osgi_bundle.specs.Stands.{started_phase, StandsPut};
ghost use Rattle.osgi_bundle.specs.declared.life.Begun.TheVariants.{Already};
ghost use Rattle.osgi_ops.specs.Bundles.{idle, starting, stopping};
ghost use Rattle.osgi_ops.specs.declared.state.TheConstants.{RESOLVED, STARTING, STOPPING};

use crate::table::Table;
use osgi_base::{BundleId, Tag};
use osgi_ops::{ACTIVE, INSTALLED, RESOLVED, Refusal, STARTING, STOPPING};

/// What the begin of a start or of a stop came to.
#[derive(Clone, Copy, PartialEq, Eq)]
pub enum Begun {
    /// It began, for a bundle of this row of the depot.
    Run { row: u32 },
    /// There was nothing to do: the bundle is active already, or at rest already.
    Already,
}

impl Table {
    /// The start of a bundle begins, for the line of the tag. Tests alone call it: the program decides by `start`, and changes
    /// the table by `set_starting`.
    pub fn begin_start(&mut self, tag: Tag, bundle: BundleId) -> Result<Begun, Refusal>
        ensures answer { Gives (start_refusals bundle self.old.rows)
            (StartBegins bundle self.old.rows) (verdict_of result) }
        ensures rows { IfOk result (λ begun.
            self.new.rows ≡ rows_begun bundle STARTING tag self.old.rows begun) }
        ensures issued { self.new.issued ≡ self.old.issued }
        ensures stands { IfOk result (λ begun.
            begun ≢ Already → StandsPut starting tag bundle self.old self.new) }
        ensures already { IfOk result (λ begun. begun ≡ Already → self.new ≡ self.old) }
        ensures refused { OnErr result (self.new ≡ self.old) }
        ensures possible { IsStartable bundle self.old.rows
            → IsOkAnd result
            (λ begun. (begun ≢ Already) × StandsPut starting tag bundle self.old self.new) }
    {
        let begun = self.start(bundle)?;
        if let Begun::Run { .. } = begun {
            self.set_starting(tag, bundle);
        }
        Ok(begun)
    }

    /// The start of a bundle ends, which the line of the tag began. Where a section failed, the bundle is not active. Tests alone
    /// call it: the program decides by `is_in_change`, and changes the table by `set_started`.
    pub fn end_start(&mut self, tag: Tag, bundle: BundleId, failed: bool) -> Result<(), Refusal>
        ensures answer { Gives (end_refusals STARTING tag bundle failed self.old.rows) (λ done. ⊤)
            (verdict_of result) }
        ensures rows { IsInChange STARTING tag bundle self.old.rows
            → self.new.rows ≡ with_state bundle (started_state failed) self.old.rows }
        ensures issued { self.new.issued ≡ self.old.issued }
        ensures stands { IsInChange STARTING tag bundle self.old.rows
            → StandsPut (started_phase failed) tag bundle self.old self.new }
        ensures refused { ¬ IsInChange STARTING tag bundle self.old.rows → self.new ≡ self.old }
    {
        if !self.is_in_change(STARTING, tag, bundle) {
            return Err(Refusal::InvalidOperation);
        }
        self.set_started(bundle, failed);
        if failed {
            return Err(Refusal::ActivatorError);
        }
        Ok(())
    }

    /// The stop of a bundle begins, for the line of the tag. Tests alone call it: the program decides by `stop`, and changes the
    /// table by `set_stopping`.
    pub fn begin_stop(&mut self, tag: Tag, bundle: BundleId) -> Result<Begun, Refusal>
        ensures answer { Gives (stop_refusals bundle self.old.rows)
            (StopBegins bundle self.old.rows) (verdict_of result) }
        ensures rows { IfOk result (λ begun.
            self.new.rows ≡ rows_begun bundle STOPPING tag self.old.rows begun) }
        ensures issued { self.new.issued ≡ self.old.issued }
        ensures stands { IfOk result (λ begun.
            begun ≢ Already → StandsPut stopping tag bundle self.old self.new) }
        ensures already { IfOk result (λ begun. begun ≡ Already → self.new ≡ self.old) }
        ensures refused { OnErr result (self.new ≡ self.old) }
        ensures possible { IsStoppable bundle self.old.rows
            → IsOkAnd result
            (λ begun. (begun ≢ Already) × StandsPut stopping tag bundle self.old self.new) }
    {
        let begun = self.stop(bundle)?;
        if let Begun::Run { .. } = begun {
            self.set_stopping(tag, bundle);
        }
        Ok(begun)
    }

    /// The stop of a bundle ends, which the line of the tag began. The bundle is at rest, even where a section failed. Tests
    /// alone call it: the program decides by `is_in_change`, and changes the table by `set_stopped`.
    pub fn end_stop(&mut self, tag: Tag, bundle: BundleId, failed: bool) -> Result<(), Refusal>
        ensures answer { Gives (end_refusals STOPPING tag bundle failed self.old.rows) (λ done. ⊤)
            (verdict_of result) }
        ensures rows { IsInChange STOPPING tag bundle self.old.rows
            → self.new.rows ≡ with_state bundle RESOLVED self.old.rows }
        ensures issued { self.new.issued ≡ self.old.issued }
        ensures stands { IsInChange STOPPING tag bundle self.old.rows
            → StandsPut idle tag bundle self.old self.new }
        ensures refused { ¬ IsInChange STOPPING tag bundle self.old.rows → self.new ≡ self.old }
    {
        if !self.is_in_change(STOPPING, tag, bundle) {
            return Err(Refusal::InvalidOperation);
        }
        self.set_stopped(bundle);
        if failed {
            return Err(Refusal::ActivatorError);
        }
        Ok(())
    }

    /// What a start of the bundle comes to. Nothing changes: `set_starting` begins it. The program decides by this call.
    pub fn start(&self, bundle: BundleId) -> Result<Begun, Refusal>
        ensures answer { Gives (start_refusals bundle self.now.rows)
            (StartBegins bundle self.now.rows) (verdict_of result) }
        ensures possible { IfOk result (λ begun.
            begun ≢ Already → IsStartable bundle self.now.rows) }
    {
        let Some(row) = self.row(bundle) else {
            return Err(Refusal::NoSuchBundle);
        };
        if row.fragment || row.state == INSTALLED {
            return Err(Refusal::InvalidOperation);
        }
        if let Some(by) = row.changed_by() {
            return Err(Refusal::StateChange { by });
        }
        if row.state == ACTIVE {
            return Ok(Begun::Already);
        }
        Ok(Begun::Run { row: row.row })
    }

    /// What a stop of the bundle comes to. Nothing changes: `set_stopping` begins it. The program decides by this call.
    pub fn stop(&self, bundle: BundleId) -> Result<Begun, Refusal>
        ensures answer { Gives (stop_refusals bundle self.now.rows)
            (StopBegins bundle self.now.rows) (verdict_of result) }
        ensures possible { IfOk result (λ begun.
            begun ≢ Already → IsStoppable bundle self.now.rows) }
        ensures settled { IfOk result (λ begun. IsInNoChange bundle self.now.rows) }
    {
        let Some(row) = self.row(bundle) else {
            return Err(Refusal::NoSuchBundle);
        };
        if bundle == BundleId(0) {
            return Err(Refusal::InvalidOperation);
        }
        if let Some(by) = row.changed_by() {
            return Err(Refusal::StateChange { by });
        }
        if row.state == ACTIVE {
            return Ok(Begun::Run { row: row.row });
        }
        Ok(Begun::Already)
    }

    /// Whether the bundle is in this state since the line of the tag began that.
    pub fn is_in_change(&self, state: u8, tag: Tag, bundle: BundleId) -> bool
        ensures change { Decides result (IsInChange state tag bundle self.now.rows) }
    {
        match self.row(bundle) {
            Some(row) => row.state == state && row.by == Some(tag),
            None => false,
        }
    }

    /// The bundle, whose start `start` lets begin, is starting from now on, for the line of the tag.
    pub fn set_starting(&mut self, tag: Tag, bundle: BundleId)
        requires possible { IsStartable bundle self.old.rows }
        ensures rows { self.new.rows ≡ with_begun bundle STARTING tag self.old.rows }
        ensures issued { self.new.issued ≡ self.old.issued }
        ensures stands { StandsPut starting tag bundle self.old self.new }
    {
        self.set_begun(bundle, STARTING, tag);
    }

    /// The bundle, which is starting, is active from now on, or where a section failed at rest again.
    pub fn set_started(&mut self, bundle: BundleId, failed: bool)
        requires starting { IsInState STARTING bundle self.old.rows }
        ensures rows { self.new.rows ≡ with_state bundle (started_state failed) self.old.rows }
        ensures issued { self.new.issued ≡ self.old.issued }
        ensures stands { (tag : Tag)
            → StandsPut (started_phase failed) tag bundle self.old self.new }
    {
        self.set_state(bundle, started_state(failed));
    }

    /// The bundle, whose stop `stop` lets begin, is stopping from now on, for the line of the tag.
    pub fn set_stopping(&mut self, tag: Tag, bundle: BundleId)
        requires possible { IsStoppable bundle self.old.rows }
        ensures rows { self.new.rows ≡ with_begun bundle STOPPING tag self.old.rows }
        ensures issued { self.new.issued ≡ self.old.issued }
        ensures stands { StandsPut stopping tag bundle self.old self.new }
    {
        self.set_begun(bundle, STOPPING, tag);
    }

    /// The bundle, which is stopping, is at rest from now on.
    pub fn set_stopped(&mut self, bundle: BundleId)
        requires stopping { IsInState STOPPING bundle self.old.rows }
        ensures rows { self.new.rows ≡ with_state bundle RESOLVED self.old.rows }
        ensures issued { self.new.issued ≡ self.old.issued }
        ensures stands { (tag : Tag) → StandsPut idle tag bundle self.old self.new }
    {
        self.set_state(bundle, RESOLVED);
    }
}

/// The state of a bundle whose start has ended.
fn started_state(failed: bool) -> u8
    ensures state { result ≡ started_state failed }
{
    if failed { RESOLVED } else { ACTIVE }
}
