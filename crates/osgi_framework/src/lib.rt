//! What machines of a hall are frameworks: whose histories are the legal ones. Whoever calls a framework in a hall knows of it no more than these laws. There is no code here.
#![tactic(auto)]

mod framework;

pub use framework::Framework;
