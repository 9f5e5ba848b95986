//! Matching lines against basic regular expressions by sets of positions.
//!
//! `Bre::read` reads a pattern and compiles it to its code; `Scan::matches` says whether a line contains a match, in one pass over the line
//! and without memory, and `Scan::steps` how many positions it entered. Contracts see a `Bre` as its tree, as those of `bre_core` do:
//! `contains` is what matching returns. The code of a tree is `code_of` in `specs/Code`. Its end is entered exactly if the line contains a
//! match, and its positions are the pattern's: these are laws.
#![tactic(auto)]

mod branch;
mod bre;
mod build;
mod closing;
mod closures;
mod compile;
mod emit;
mod few_bytes;
mod hops;
pub mod laws;
mod masks;
mod needle;
mod node;
mod rarest;
mod scan;
mod search;
mod shift_table;
mod shift_walk;
mod table;
mod walk;
mod words;
mod worklist;

pub use bre::Bre;
pub use bre_core::BreFault;
pub use scan::Scan;
pub use walk::Outcome;
