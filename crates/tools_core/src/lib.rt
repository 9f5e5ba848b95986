//! The tools together: what a program's words ask for, run over inputs, outputs and files that are watched.
#![tactic(auto)]

mod about;
mod csplit;
mod ends;
mod follow;
mod program;
pub mod run;
mod split;

pub use follow::run_follow;
pub use program::run_words;
