//! What is watched when files are followed: names, the files that they lead to, and what comes to these.
#![tactic(auto)]

mod dir_file;
mod dir_name;
mod dir_watch;
mod input;
mod pace;
mod process;
mod watch;

pub use dir_watch::DirWatch;
pub use input::is_input;
pub use watch::{Broken, Seen, Watch};
