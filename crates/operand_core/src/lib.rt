//! What `csplit` is asked: its operands, as words spell them, and how it makes files.
#![tactic(auto)]

pub mod laws;
mod operand;
mod operand_fault;
mod operands;
mod style;
mod target;
mod word;

pub use operand::{Offset, Operand, Target, Times};
pub use operand_fault::{OperandFault, OperandFaultKind};
pub use operands::{Operands, read_operands};
pub use style::Style;
