//! Walking along a line with a table of words: no read waits for the one before it, and no jump depends on a byte.

ghost use Rattle.std.specs.Prelude.{◌<◌, ◌≤◌, ◌+◌, ℕ, length};
ghost use Rattle.scan_core.specs.{inner.Shifts.{IsAt, IsShiftTable, IsSized}, Table.IsOutcome};

use crate::node::Node;
use crate::shift_table::ShiftTable;
use crate::walk::Outcome;

/// After this many bytes the walk looks whether it can end early.
const STRIDE: usize = 16;

/// What some bytes lead to.
#[derive(Clone, Copy)]
pub struct Strode {
    /// The state, in the low six bits.
    pub word: u64,
    /// The steps that they took.
    pub steps: u64,
}

/// Goes over the bytes from a place on.
#[inline(always)]
fn stride(
    table: &ShiftTable,
    nodes: &[Node],
    line: &[u8],
    from: usize,
    count: usize,
    word: u64,
) -> Strode
    requires sized { IsSized table.now }
    requires count { count ≤ 16 }
    requires within { from + count ≤ length line.now }
    ensures small { result.steps ≤ 1048592 }
    ensures at { (before : ℕ) → IsAt nodes.now table.now line.now from word before
        → IsAt nodes.now table.now line.now (from + count) result.word (before + result.steps) }
{
    let mut word = word;
    let mut steps: u64 = 0;
    for done in 0..count {
        steps += table.weights[(word % 256) as usize];
        word = table.words[line[from + done] as usize] >> (word % 64);
    }
    Strode { word, steps }
}

/// Whether the line has a match, and the steps. The table is that of these nodes, and the line isn't empty. It is always
/// inlined, so that a caller that wants no steps counts none.
#[inline(always)]
pub fn walk_by_shifts(table: &ShiftTable, nodes: &[Node], line: &[u8]) -> Outcome
    requires table { IsShiftTable nodes.now table.now }
    requires some { 0 < length line.now }
    ensures { IsOutcome nodes.now line.now result }
{
    let mut word: u64 = 0;
    let mut place = 0;
    let mut steps: u128 = 0;
    while line.len() - place >= STRIDE {
        let strode = stride(table, nodes, line, place, STRIDE, word);
        word = strode.word;
        place += STRIDE;
        steps += strode.steps as u128;
        if word % 64 == table.stop {
            return Outcome { found: true, steps };
        }
        let state = table.states[(word % 64 / 6) as usize];
        if state.is_fixed {
            let rest = state.positions as u128 * (line.len() - place) as u128;
            return Outcome {
                found: state.ends,
                steps: steps + rest + state.last_positions as u128,
            };
        }
    }
    let strode = stride(table, nodes, line, place, line.len() - place, word);
    steps += strode.steps as u128;
    if strode.word % 64 == table.stop {
        return Outcome { found: true, steps };
    }
    let state = table.states[(strode.word % 64 / 6) as usize];
    Outcome {
        found: state.ends,
        steps: steps + state.last_positions as u128,
    }
}
