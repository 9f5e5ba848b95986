ghost use Rattle.std.specs.Prelude.{◌≡◌};
ghost use Rattle.seg_core.specs.Cut.{most};

use crate::unit::Unit;

/// What ends a part, if one part follows another (POSIX.1-2017, XCU split; `LineBytes` is GNU's). Each number is at least 1. The byte is
/// the one that lines end with.
#[derive(Clone, Copy, Debug, PartialEq, Eq)]
pub enum Limit {
    /// This many lines.
    Lines(u64, u8),
    /// This many bytes.
    Bytes(u64),
    /// The last line that ends within this many bytes, or these bytes if none does.
    LineBytes(u64, u8),
}

impl Limit {
    /// How many lines or bytes a part has at the most.
    pub fn most(self) -> u64
        ensures { result ≡ most self }
    {
        match self {
            Limit::Lines(most, _) | Limit::Bytes(most) | Limit::LineBytes(most, _) => most,
        }
    }
}

/// How an input is cut into files.
#[derive(Clone, Copy, Debug, PartialEq, Eq)]
pub enum Cut {
    /// Into parts that follow one another, each ended by this limit.
    Parts(Limit),
    /// By its lines, which end with this byte: they are dealt in turn to this many files, at least 1 (GNU coreutils
    /// manual, split, `-n r/N`).
    Round(u64, u8),
}

/// Chunks of an input, whose lengths differ by one byte at the most, the longer ones first (GNU coreutils manual, split,
/// `-n N` and `-n l/N`).
#[derive(Clone, Copy, Debug, PartialEq, Eq)]
pub struct Chunks {
    /// How many there are, at least 1.
    pub count: u64,
    /// What goes with a chunk: the bytes that stand in it, or the lines that begin in it.
    pub unit: Unit,
    /// The byte that lines end with.
    pub delim: u8,
}

/// What becomes of an input (POSIX.1-2017, XCU split; chunks and lines in turn are GNU's `-n`). Places are counted from 0.
#[derive(Clone, Copy, Debug, PartialEq, Eq)]
pub enum Way {
    /// The input is cut into files, and its length doesn't matter.
    Cut(Cut),
    /// What goes with each of its chunks goes to a file.
    Chunks(Chunks),
    /// What goes with the chunk at this place goes to standard output.
    Chunk(u64, Chunks),
    /// Of lines that are dealt in turn, those of the file at this place go to standard output. After the place come the
    /// number of files among which lines are dealt, and the byte that they end with.
    Turn(u64, u64, u8),
}
