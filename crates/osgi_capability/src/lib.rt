//! Whether what one bundle offers is what another needs.
#![tactic(auto)]

mod asked;
mod imports;
mod satisfying;

pub use asked::{AskedText, asked_text};
pub use imports::value_named;
pub use satisfying::satisfies;
