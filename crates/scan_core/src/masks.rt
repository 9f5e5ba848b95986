//! The numbers of a pattern's code by what their nodes do, as words of 64 numbers.

ghost use Rattle.std.specs.Prelude.{◌≡◌, ◌↔◌, ◌<◌, ◌+◌, ℕ, IsTrue, IfOk, IfErr};
ghost use Rattle.bre_core.specs.declared.fault.BreFault.TheVariants.{Memory};
ghost use Rattle.scan_core.specs.{
  declared.masks.Kind.TheVariants.Counts,
  inner.{Sets.StepsBy, Words.{IsMask, IsMasks, IsOf, width}},
};

use crate::node::Node;
use bre_core::BreFault;
use std::alloc::Global;

/// What is asked of a number of a code.
#[derive(Clone, Copy)]
pub enum Kind {
    /// The number's node takes this byte.
    Takes(u8),
    /// The number is a position.
    Counts,
}

/// A code's numbers of each kind, a bit for each number: bit n % 64 of word n / 64 for number n.
#[derive(Drop)]
pub struct Masks {
    /// For each byte, one after another, the numbers whose nodes take it.
    pub takes: Vec<u64>,
    /// The numbers that are positions.
    pub counts: Vec<u64>,
}

/// Whether a byte leads on from a number.
fn passes(nodes: &[Node], number: usize, byte: u8) -> bool
    ensures yes { IsTrue result → StepsBy nodes.now byte number (number + 1) }
    ensures no { (to : ℕ) → StepsBy nodes.now byte number to → IsTrue result }
{
    if number < nodes.len() {
        match &nodes[number] {
            Node::Take(set) => set.contains(byte),
            _ => false,
        }
    } else {
        false
    }
}

/// Whether a number is a position.
#[tactic(auto, using(crate::proofs::Enterings::node_here, crate::proofs::Countings::counted_in, crate::proofs::Countings::counted_out))]
fn counts(nodes: &[Node], number: usize) -> bool
    ensures { IsTrue result ↔ IsOf nodes.now Counts number }
{
    if number < nodes.len() {
        nodes[number].weight() == 1
    } else {
        number == nodes.len()
    }
}

/// Whether a number is of a kind.
fn is_of(nodes: &[Node], kind: Kind, number: usize) -> bool
    ensures { IsTrue result ↔ IsOf nodes.now kind number }
{
    match kind {
        Kind::Takes(byte) => passes(nodes, number, byte),
        Kind::Counts => counts(nodes, number),
    }
}

/// The numbers of a kind in a word.
fn word_of(nodes: &[Node], kind: Kind, at: usize) -> u64
    requires { at < width nodes.now }
    ensures { IsMask nodes.now kind at result }
{
    let mut word: u64 = 0;
    for bit in 0..64usize {
        word |= (is_of(nodes, kind, at * 64 + bit) as u64) << bit;
    }
    word
}

/// The numbers of each kind.
pub fn masks_of(alloc: Global, nodes: &[Node]) -> Result<Masks, BreFault>
    ensures ok { IfOk result (IsMasks nodes.now) }
    ensures err { IfErr result (λ fault. fault ≡ Memory) }
{
    let width = nodes.len() / 64 + 1;
    let mut takes = Vec::new(alloc);
    for place in 0..256 * width {
        takes.push(word_of(nodes, Kind::Takes((place / width) as u8), place % width))?;
    }
    let mut counts = Vec::new(alloc);
    for at in 0..width {
        counts.push(word_of(nodes, Kind::Counts, at))?;
    }
    Ok(Masks { takes, counts })
}
