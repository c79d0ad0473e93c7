//! Values of attributes, filters over them, and the values that texts stand for.
#![tactic(auto)]

mod elements;
mod filter;
mod long;
mod value;
mod value_text;
mod value_type;

pub use filter::{Filter, MAX_LEVELS, Test};
pub use value::{Attribute, Attributes, Value};
pub use value_text::{read_long, read_value};
pub use value_type::{Scalar, ValueType};
