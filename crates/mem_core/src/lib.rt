//! Inputs, outputs and watched names in memory, with visible bytes: for tests, and for whoever runs the tools without files.
#![tactic(auto)]

mod edit;
mod failing;
mod mem_in;
mod mem_out;
mod mem_watch;
mod mem_world;

pub use edit::Edit;
pub use mem_in::MemIn;
pub use mem_out::MemOut;
pub use mem_watch::MemWatch;
