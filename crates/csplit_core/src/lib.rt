//! The tool that cuts an input where its lines match: `csplit`.
#![tactic(auto)]

mod csplitter;
mod files;
mod holding;
pub mod laws;
mod line_cutter;
mod lines;
mod matcher;
mod next_operand;
mod progress;

pub use csplitter::Csplitter;
pub use operand_core::{
    Offset, Operand, OperandFault, OperandFaultKind, Operands, Style, Target, Times, read_operands,
};
