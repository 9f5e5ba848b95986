use thiserror::Error;

/// What the work on an input itself ends with if it doesn't end well. Operands and repetitions are counted from 0.
#[derive(Clone, Copy, Debug, PartialEq, Eq, Error)]
pub enum Verdict {
    /// Another file is needed and no name is left.
    #[error("output file suffixes exhausted")]
    Suffixes,
    /// The pattern of this operand, at this repetition, matches no line.
    #[error("operand {0}: match not found on repetition {1}")]
    NoMatch(usize, u64),
    /// The line that the operand asks for, at this repetition, isn't one of those that are left.
    #[error("operand {0}: line number out of range on repetition {1}")]
    Range(usize, u64),
    /// The input has another length at the end than it showed.
    #[error("file changed while it was read")]
    Changed,
}
