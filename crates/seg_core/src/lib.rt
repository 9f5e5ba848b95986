//! Lines and counts of texts, how texts are counted and cut, and windows over the last bytes or lines of what came in.
#![tactic(auto)]

pub mod byte_window;
pub mod count;
pub mod cut;
pub mod digits;
pub mod fault;
pub mod line;
pub mod line_back;
mod line_block;
mod line_blocks;
pub mod line_iter;
pub mod line_reach;
pub mod line_window;
pub mod unit;
