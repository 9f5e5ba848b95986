//! The plain matcher of basic regular expressions: a slow program whose result is the definition's at sight, with which the
//! fast one is compared.
#![tactic(auto)]

mod plain;
mod table;

pub use plain::{matches_expression, matches_plain};
