//! Worlds as the rows of case programs write them: revisions with what they offer and need, and wirings.
//!
//! A REVISION is `ID NAME WORD ..`, or `ID/BUNDLE NAME WORD ..` where its bundle has another number than it. It is current, no
//! fragment, of version 0 and permits fragments, unless a word says otherwise:
//!
//! | Word | What the revision is or has |
//! |---|---|
//! | `old`, `single`, `shut` | it is not current; is a singleton; permits no fragments |
//! | `version=V`, `host=NAME`, `host=NAME:RANGE` | it is of this version; it is a fragment of this host |
//! | `file=PATH` | its folder has this file |
//! | `exports=PACKAGE`, `bundle=NAME`, `provides=NAME` | a capability: an export, a bundle, or of the namespace NAME |
//! | `exports=PACKAGE(P,Q)` | an export that uses P and Q; the other capabilities too may have names in `(..)` |
//! | `exports=PACKAGE:V`, `exports=PACKAGE{NAME=TEXT,!NAME=TEXT}` | one with the attribute `version`; with other attributes, of which imports have to give those after `!`. Before `(..)` comes first the version, then `{..}` |
//! | `imports=PACKAGE`, `requires=NAME`, `needs=NAME` | a requirement: an import, a required bundle, or of the namespace NAME |
//! | `dynamic=PACKAGE` | a dynamic import |
//! | `imports=PACKAGE:RANGE` | one of these versions |
//! | `imports=PACKAGE@NAME`, `imports=PACKAGE@NAME:RANGE` | one from this exporter, of these versions |
//! | `imports=PACKAGE{NAME=TEXT}` | one that gives attributes |
//! | `imports=PACKAGE/FLAGS` | one that is optional (`o`), multiple (`m`), has reexport (`r`) or is not effective (`i`) |
//! | `needs=NAME?FILTER` | one with a filter. Of several of these, the versions come first, then the exporter, attributes, flags and the filter |
//!
//! Capabilities and requirements stand in the order of their words, and the places of dynamic imports follow those of all
//! requirements; places are counted from 0.
//!
//! A WIRING is `ID +FRAGMENT .. WIRE ..`, and a WIRE `OWNER.PLACE>PROVIDER.PLACE`: the requirement at that place of its owner
//! has a wire to the capability at that place of its provider, or, as `OWNER.PLACE>PROVIDER.FRAGMENT.PLACE`, of the provider's
//! fragment.
#![tactic(auto)]

mod attributes;
mod drafts;
mod members;
mod numbers;
mod worlds;

pub use numbers::{cut, number, revision_id, revision_ids, text_of};
pub use worlds::{known_revision, known_revisions, wire, world};
