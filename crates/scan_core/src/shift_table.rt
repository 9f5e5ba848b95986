//! Tables of few states as words: what a byte leads to from each state is read by one shift.

ghost use Rattle.std.specs.Prelude.{◌≡◌, ◌<◌, ◌≤◌, ◌*◌, ◌%◌, IsTrue, IfOk, IfErr, IfSome, length};
ghost use Rattle.bre_core.specs.declared.fault.BreFault.TheVariants.{Memory};
ghost use Rattle.scan_core.specs.inner.{
  Shifts.{AreLight, IsComplete, IsOffset, IsShiftTable, IsWeight, IsWord},
  Table.IsTable,
};

use crate::node::Node;
use crate::table::{State, Table, UNKNOWN};
use bre_core::BreFault;
use std::alloc::Global;

/// The most states of such a table: with the one for the pattern's end they take 60 bits of a word, six each.
const MOST_STATES: usize = 9;

/// A table as words. In a word the state of number n stands at the bits from 6 * n on, where it is written as 6 * n: the
/// word of a byte, shifted right by a state, has the next state in its low six bits.
#[derive(Drop)]
pub struct ShiftTable {
    /// For each byte what it leads to from each state.
    pub words: Vec<u64>,
    /// For each value of eight bits the positions of the state that its low six bits are: so a walk counts without masking,
    /// and nothing but the shift stands between a byte and the next.
    pub weights: Vec<u64>,
    /// What is noted of each state.
    pub states: Vec<State>,
    /// How it is written that the pattern's end was entered.
    pub stop: u64,
}

/// Whether the table had room for each set.
fn is_complete(rows: &[u16]) -> bool
    ensures yes { IsTrue result → IsComplete rows.now }
    ensures no { IsComplete rows.now → IsTrue result }
{
    for at in 0..rows.len() {
        if rows[at] == UNKNOWN {
            return false;
        }
    }
    true
}

/// How the state is written that a byte leads to from a state. The number after the last state stands for the pattern's end,
/// from which each byte leads back to it.
fn offset_of(rows: &[u16], count: usize, state: usize, byte: usize) -> u64
    requires rows { length rows.now ≡ count * 256 }
    requires count { count ≤ 9 }
    requires byte { byte < 256 }
    ensures small { result < 64 }
    ensures exact { IsOffset rows.now count state byte result }
{
    if state < count {
        let next = rows[state * 256 + byte] as usize;
        if next < count {
            return 6 * next as u64;
        }
    }
    6 * count as u64
}

/// A byte's word.
fn word_of(rows: &[u16], count: usize, byte: usize) -> u64
    requires rows { length rows.now ≡ count * 256 }
    requires count { count ≤ 9 }
    requires byte { byte < 256 }
    ensures { IsWord rows.now count byte result }
{
    let mut word: u64 = 0;
    for done in 0..count + 1 {
        word = word * 64 + offset_of(rows, count, count - done, byte);
    }
    word
}

/// The positions of the state that the low six bits are, if they are a state.
fn weight_of(states: &[State], low: usize) -> u64
    requires { AreLight states.now }
    ensures { IsWeight states.now (low % 64) result }
{
    if low % 64 / 6 < states.len() {
        states[low % 64 / 6].positions as u64
    } else {
        0
    }
}

/// The table as words, if there is a table: none if it has too many states, or no room for one.
pub fn shifts_of(
    alloc: Global,
    nodes: &[Node],
    table: &Option<Table>,
) -> Result<Option<ShiftTable>, BreFault>
    requires { IfSome table.now (IsTable nodes.now) }
    ensures ok { IfOk result (λ made. IfSome made (IsShiftTable nodes.now)) }
    ensures err { IfErr result (λ fault. fault ≡ Memory) }
{
    let Some(table) = table else {
        return Ok(None);
    };
    let rows = table.rows.as_slice();
    let noted = table.states.as_slice();
    let count = noted.len();
    if count > MOST_STATES {
        return Ok(None);
    }
    if !is_complete(rows) {
        return Ok(None);
    }
    let mut words = Vec::new(alloc);
    let mut weights = Vec::new(alloc);
    for byte in 0..256usize {
        words.push(word_of(rows, count, byte))?;
        weights.push(weight_of(noted, byte))?;
    }
    let states = Vec::from_slice(alloc, noted)?;
    Ok(Some(ShiftTable {
        words,
        weights,
        states,
        stop: 6 * count as u64,
    }))
}
