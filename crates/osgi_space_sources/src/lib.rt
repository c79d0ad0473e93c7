//! Where packages come from, and what `uses` implies, by the rows of wirings.
#![tactic(auto)]

mod among;
mod breaking;
mod bundles;
mod clash;
mod constraints;
mod disputed;
mod found;
mod given;
mod lead;
mod leads;
mod number_set;
mod package_sources;
mod revision_set;
mod space;
mod trace;
mod uses;

pub use among::Among;
pub use breaking::one_breaks_uses;
pub use bundles::reached_bundles;
pub use clash::clashes;
pub use constraints::{constraints_from, constraints_of};
pub use disputed::{
    Disputed, Possible, note_bundle_wire, note_bundle_wires, note_fragment, note_fragments,
    note_known, note_package_wire, note_package_wires, possible_sources,
};
pub use found::Found;
pub use given::Given;
pub use package_sources::{imports_elsewhere, sources_of};
pub use revision_set::RevisionSet;
pub use space::space_of;
pub use uses::{all_keep_uses, are_kept, keeps_uses};
