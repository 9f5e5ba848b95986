//! `tee`: an input copied to standard output and to files, each of which may break without harm to the others.
#![tactic(auto)]

mod laws;
mod run;
mod standing;
mod tee;

pub use laws::{agreed_is_settled, outputs_end};
pub use run::run_tee;
pub use standing::Standing;
pub use tee::Tee;
