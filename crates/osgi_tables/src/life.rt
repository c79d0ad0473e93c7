//! What the tables change as a start, a stop or a job begins, and as a start or a stop ends.

ghost use Rattle.std.specs.Prelude.{◌≡◌, true, OnOk, OnErr};
ghost use Rattle.osgi_bundle.specs.Rows.{IsInChange, IsStartable, IsStoppable};
ghost use Rattle.osgi_bundle.specs.Stands.{started_phase};
ghost use Rattle.osgi_ops.specs.Brackets.{starting as start_of, stopping as stop_of};
ghost use Rattle.osgi_ops.specs.Bundles.{idle, starting, stopping};
ghost use Rattle.osgi_ops.specs.declared.state.TheConstants.{STARTING, STOPPING};
ghost use Rattle.osgi_tables.specs.Changes.{Begins, Cleans, Ends, Takes, without_jobs, without_listeners};
ghost use Rattle.osgi_tables.specs.Replied.{StandsStill};

use crate::tables::Tables;
use osgi_base::{BundleId, Tag};
use osgi_brackets::BracketKind;
use osgi_jobs::Jobs;
use osgi_listeners::Listeners;
use osgi_registry::Registry;
use std::alloc::AllocError;

impl Tables {
    /// The start of the bundle begins, for the line of the tag. If memory runs out, the tables stand for what they did.
    pub(crate) fn begin_start(&mut self, tag: Tag, bundle: BundleId) -> Result<(), AllocError>
        requires possible { IsStartable bundle self.old.bundles.rows }
        ensures begun { OnOk result
            (Begins starting (start_of bundle) tag bundle self.old self.new) }
        ensures unchanged { OnErr result (StandsStill self.old self.new) }
    {
        self.brackets.push(tag, BracketKind::Start(bundle))?;
        self.bundles.set_starting(tag, bundle);
        Ok(())
    }

    /// The start of the bundle ends, which the line of the tag began. If memory runs out, the tables stand for what they did.
    pub(crate) fn end_start(
        &mut self,
        tag: Tag,
        bundle: BundleId,
        failed: bool,
    ) -> Result<(), AllocError>
        requires possible { IsInChange STARTING tag bundle self.old.bundles.rows }
        ensures ended { OnOk result
            (Ends (started_phase failed) failed tag bundle self.old self.new) }
        ensures unchanged { OnErr result (StandsStill self.old self.new) }
    {
        clean(
            &mut self.registry,
            &mut self.listeners,
            &mut self.jobs,
            bundle,
            failed,
        )?;
        self.bundles.set_started(bundle, failed);
        self.brackets.pop(tag.caller);
        Ok(())
    }

    /// The stop of the bundle begins, for the line of the tag. If memory runs out, the tables stand for what they did.
    pub(crate) fn begin_stop(&mut self, tag: Tag, bundle: BundleId) -> Result<(), AllocError>
        requires possible { IsStoppable bundle self.old.bundles.rows }
        ensures begun { OnOk result
            (Begins stopping (stop_of bundle) tag bundle self.old self.new) }
        ensures unchanged { OnErr result (StandsStill self.old self.new) }
    {
        self.brackets.push(tag, BracketKind::Stop(bundle))?;
        self.bundles.set_stopping(tag, bundle);
        Ok(())
    }

    /// The stop of the bundle ends, which the line of the tag began. If memory runs out, the tables stand for what they did.
    pub(crate) fn end_stop(&mut self, tag: Tag, bundle: BundleId) -> Result<(), AllocError>
        requires possible { IsInChange STOPPING tag bundle self.old.bundles.rows }
        ensures ended { OnOk result (Ends idle true tag bundle self.old self.new) }
        ensures unchanged { OnErr result (StandsStill self.old self.new) }
    {
        clean(
            &mut self.registry,
            &mut self.listeners,
            &mut self.jobs,
            bundle,
            true,
        )?;
        self.bundles.set_stopped(bundle);
        self.brackets.pop(tag.caller);
        Ok(())
    }

    /// The oldest job is taken, for the line of the tag. If memory runs out, the tables stand for what they did.
    pub(crate) fn take_job(&mut self, tag: Tag) -> Result<(), AllocError>
        ensures taken { OnOk result (Takes tag self.old self.new) }
        ensures unchanged { OnErr result (StandsStill self.old self.new) }
    {
        self.brackets.push(tag, BracketKind::Job)?;
        self.jobs.take();
        Ok(())
    }
}

/// The bundle's services, uses, listeners and jobs go, if it is to be cleaned.
fn clean(
    registry: &mut Registry,
    listeners: &mut Listeners,
    jobs: &mut Jobs,
    bundle: BundleId,
    cleaned: bool,
) -> Result<(), AllocError>
    ensures cleans { OnOk result (Cleans cleaned bundle registry.old registry.new) }
    ensures listeners { OnOk result
        (listeners.new ≡ without_listeners cleaned bundle listeners.old) }
    ensures jobs { OnOk result (jobs.new ≡ without_jobs cleaned bundle jobs.old) }
    ensures unchanged { OnErr result
        ((registry.new ≡ registry.old) × (listeners.new ≡ listeners.old) × (jobs.new ≡ jobs.old)) }
{
    if cleaned {
        registry.release(bundle)?;
        listeners.remove_all(bundle);
        jobs.clear(bundle);
    }
    Ok(())
}
