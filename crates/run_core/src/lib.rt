//! A run of a tool over its inputs: each is fed to an engine of its own, piece by piece, and faults are reported.
#![tactic(auto)]

mod adapter;
mod feeding;
mod inputs;

pub use adapter::Adapter;
pub use feeding::{Fed, feed_input, feed_nothing};
pub use inputs::{is_dash, run_inputs};
