//! Why operands are refused.
ghost use Rattle.std.specs.Prelude.{◌≡◌};
ghost use Rattle.operand_core.specs.{Aiming.refusal_of, Fault.number_of_kind};
ghost use Rattle.operand_core.specs.declared.operand_fault.OperandFaultKind.TheVariants as kind;

use scan_core::BreFault;
use std::alloc::{AllocError, AllocFailed};
use thiserror::Error;

/// What is wrong with an operand. Each kind has a number, 1 to 10 in this order.
#[derive(Clone, Copy, Debug, PartialEq, Eq)]
pub enum OperandFaultKind {
    /// There is no operand at all.
    Missing,
    /// A pattern has no closing delimiter.
    Unclosed,
    /// What follows the closing delimiter is no offset.
    Offset,
    /// The line number is 0.
    LineZero,
    /// A repetition doesn't stand directly after a line number or a pattern.
    RepeatFirst,
    /// The word begins with `{` and is no repetition.
    RepeatText,
    /// The pattern can't be read, for a reason that isn't want of memory.
    Bre(BreFault),
    /// The line number is below the nearest line number before it.
    LineOrder,
    /// A growth was refused.
    Memory,
    /// The word begins with none of `/`, `%` and `{`, and is no number up to 2^63-1.
    Number,
}

impl OperandFaultKind {
    /// The number of the kind, as messages of invalid operands print it.
    pub fn number(&self) -> u8
        ensures { result ≡ number_of_kind self.now }
    {
        match self {
            OperandFaultKind::Missing => 1,
            OperandFaultKind::Unclosed => 2,
            OperandFaultKind::Offset => 3,
            OperandFaultKind::LineZero => 4,
            OperandFaultKind::RepeatFirst => 5,
            OperandFaultKind::RepeatText => 6,
            OperandFaultKind::Bre(_) => 7,
            OperandFaultKind::LineOrder => 8,
            OperandFaultKind::Memory => 9,
            OperandFaultKind::Number => 10,
        }
    }
}

impl From<AllocError> for OperandFaultKind {
    ghost from_gives = { λ _ e. e ≡ kind.Memory };

    fn from(_e: AllocError) -> OperandFaultKind {
        OperandFaultKind::Memory
    }
}

impl<T: Drop> From<AllocFailed<T>> for OperandFaultKind {
    ghost from_gives = { λ _ e. e ≡ kind.Memory };

    fn from(_e: AllocFailed<T>) -> OperandFaultKind {
        OperandFaultKind::Memory
    }
}

impl From<BreFault> for OperandFaultKind {
    ghost from_gives = { λ fault e. e ≡ refusal_of fault };

    fn from(fault: BreFault) -> OperandFaultKind {
        if fault == BreFault::Memory {
            OperandFaultKind::Memory
        } else {
            OperandFaultKind::Bre(fault)
        }
    }
}

/// The first fault of a list of operands.
#[derive(Clone, Copy, Debug, PartialEq, Eq, Error)]
#[error("operand {index}: {kind:?}")]
pub struct OperandFault {
    /// What is wrong.
    pub kind: OperandFaultKind,
    /// The place of the operand among the words that are operands, counted from 0.
    pub index: usize,
}
