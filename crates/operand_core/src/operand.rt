//! What is asked of `csplit`: where to cut, and how often (POSIX.1-2017, XCU csplit, OPERANDS).

use scan_core::Bre;

/// How far a cut is from the line that a pattern finds, in lines.
#[derive(Clone, Copy, Debug, PartialEq, Eq)]
pub enum Offset {
    /// This many lines after it.
    Plus(u64),
    /// This many lines before it.
    Minus(u64),
}

/// Where an operand cuts.
#[derive(Drop)]
pub enum Target {
    /// At the line of this number, counted from 1.
    Number(u64),
    /// From the next line that contains the pattern, at an offset. The section before the cut is kept, or skipped.
    Search {
        /// The pattern, compiled.
        pattern: Bre,
        /// Whether the section makes a file: `/` stands around the pattern, and not `%`.
        is_kept: bool,
        /// How far the cut is from the line that is found.
        offset: Offset,
    },
}

/// How often an operand is performed again.
#[derive(Clone, Copy, Debug, PartialEq, Eq)]
pub enum Times {
    /// This often, at most 2^63-1 times.
    Count(u64),
    /// Until the input is exhausted.
    Endless,
}

/// One operand, with the repetition that stands after it.
#[derive(Drop)]
pub struct Operand {
    /// The operand's place among the words that are operands, counted from 0; a repetition is a word, too.
    pub index: usize,
    /// Where the operand cuts.
    pub target: Target,
    /// How often the operand is performed again.
    pub times: Times,
}
