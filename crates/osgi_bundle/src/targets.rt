//! The bundle that a target names.

ghost use Rattle.std.specs.Prelude.{IfOk, MatchOption};
ghost use Rattle.osgi_base.specs.declared.ids.BundleId.{BundleId};
ghost use Rattle.osgi_bundle.specs.Targets.{IsTargetRow};

use crate::table::Table;
use osgi_base::BundleId;
use osgi_ops::Target;
use std::alloc::AllocError;

impl Table {
    /// The live bundle that the target names.
    pub fn target(&self, target: &Target) -> Result<Option<BundleId>, AllocError>
        ensures target { IfOk result (λ found.
            MatchOption found ((id : BundleId) → ¬ IsTargetRow target.now self.now.rows id)
            (IsTargetRow target.now self.now.rows)) }
    {
        match target {
            Target::Id(bundle) => Ok(self.row(*bundle).is_some().then_some(*bundle)),
            Target::Name(name) => self.named(name),
        }
    }
}
