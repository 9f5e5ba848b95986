//! Walking along a line with a pattern's table, one look for each byte.

ghost use Rattle.std.specs.Prelude.{◌≡◌, ◌<◌, ◌≤◌, ◌+◌, ◌*◌, ℕ, IfSome, length, slice_index, slice_index_or};
ghost use Rattle.scan_core.specs.{inner.Table.IsTable, Table.IsOutcome};

use crate::node::Node;
use crate::table::{STOP, Table, UNKNOWN};

/// Whether a line has a match, and the steps that a search takes for it.
#[derive(Clone, Copy, Debug)]
pub struct Outcome {
    /// Whether some stretch of it matches.
    pub found: bool,
    /// How many positions were entered, each once at a place.
    pub steps: u128,
}

/// How far the bytes of the line lead from a state back to it.
#[inline(always)]
fn stay(rows: &[u16], line: &[u8], from: usize, state: usize) -> usize
    requires rows { state * 256 + 256 ≤ length rows.now }
    requires from { from ≤ length line.now }
    ensures low { from ≤ result }
    ensures high { result ≤ length line.now }
    ensures stays { (place : ℕ) → from ≤ place → place < result
        → slice_index_or rows.now (state * 256 + slice_index line.now place) 0 ≡ state }
{
    for place in from..line.len() {
        if rows[state * 256 + line[place] as usize] as usize != state {
            return place;
        }
    }
    line.len()
}

/// The positions of several places that have the same set.
#[inline(always)]
fn positions_of_places(positions: usize, places: usize) -> u128
    ensures { result ≡ positions * places }
{
    positions as u128 * places as u128
}

/// The end of the stretch from a place on in which the state stays: at once the line's end if no byte can change it.
#[tactic(auto, using(crate::proofs::Shiftings::fixed_stays))]
#[inline(always)]
fn stretch_end(table: &Table, nodes: &[Node], line: &[u8], from: usize, state: usize) -> usize
    requires table { IsTable nodes.now table.now }
    requires state { state < length table.now.states.items }
    requires from { from ≤ length line.now }
    ensures low { from ≤ result }
    ensures high { result ≤ length line.now }
    ensures stays { (place : ℕ) → from ≤ place → place < result
        → slice_index_or table.now.rows.items (state * 256 + slice_index line.now place) 0 ≡ state }
{
    if table.states[state].is_fixed {
        line.len()
    } else {
        stay(&table.rows, line, from, state)
    }
}

/// Whether the line has a match, and the steps; `None` if the table has no room for a set that the line comes to. The table is that of
/// these nodes, and the line isn't empty.
pub fn walk(table: &Table, nodes: &[Node], line: &[u8]) -> Option<Outcome>
    requires table { IsTable nodes.now table.now }
    requires some { 0 < length line.now }
    ensures exact { IfSome result (IsOutcome nodes.now line.now) }
{
    let mut state = 0;
    let mut place = 0;
    let mut steps = 0;
    while place < line.len() {
        let end = stretch_end(table, nodes, line, place, state);
        steps += positions_of_places(table.states[state].positions, end - place);
        place = end;
        if place < line.len() {
            let next = table.rows[state * 256 + line[place] as usize];
            steps += table.states[state].positions as u128;
            if next == STOP {
                return Some(Outcome { found: true, steps });
            }
            if next == UNKNOWN {
                return None;
            }
            state = next as usize;
            place += 1;
        }
    }
    let last = table.states[state];
    Some(Outcome {
        found: last.ends,
        steps: steps + last.last_positions as u128,
    })
}
