//! Engines: what all tools share around their own work on an input, and files that are written one after another.
#![tactic(auto)]

mod engine;
mod file_writer;
mod laws;
mod names;
mod stage;
mod sweep;

pub use engine::Engine;
pub use file_writer::{Current, FileWriter, Keeps, Opening, Tells};
pub use laws::one_is_agreed;
pub use names::Names;
pub use stage::Stage;
pub use sweep::sweep_files;
