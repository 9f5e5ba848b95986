//! What follows without a byte, ready to be looked up: within a word for eight numbers at once, and out of it by hops.

ghost use Rattle.std.specs.{
  Prelude.{◌≡◌, ◌↔◌, ◌<◌, ◌+◌, ◌*◌, ◌^◌, ℕ, Bool, false, IsFalse, IfOk, IfErr, length},
  Int.bit_at,
};
ghost use Rattle.bre_core.specs.declared.fault.BreFault.TheVariants.{Memory};
ghost use Rattle.scan_core.specs.inner.{
  Closures.{AreClosures, Closes, IsInside, IsLeading, IsPlain},
  Each.AreEach,
  Sets.{IsCode, Flows, LeadsOn},
  Words.width,
};

use crate::branch::{branch_of, is_open};
use crate::hops::{Hops, hops_of, is_within};
use crate::node::Node;
use crate::worklist::begun_of;
use bre_core::BreFault;
use std::alloc::Global;

/// What the numbers of a code lead to without a byte.
#[derive(Drop)]
pub struct Closures {
    /// What number 0 leads to, itself among it: since a search begins at every place, it is in each set.
    pub base: Vec<u64>,
    /// For each word, the numbers whose nodes lead to others than the base.
    pub leads: Vec<u64>,
    /// For each word, each eight of its numbers, and each choice from these: what the chosen ones lead to in the word.
    pub inside: Vec<u64>,
    /// What leads out of a word, and of the base.
    pub hops: Hops,
    /// Whether some node leads on only at a line's front or end.
    pub is_anchored: bool,
}

/// The numbers of a word whose nodes lead out of a set.
fn leading(nodes: &[Node], words: &[u64], at: usize) -> u64
    requires code { IsCode nodes.now }
    requires size { length words.now ≡ width nodes.now }
    requires at { at < width nodes.now }
    ensures { IsLeading nodes.now words.now at result }
{
    let mut word: u64 = 0;
    for bit in 0..64usize {
        word |= (!is_within(nodes, words, at * 64 + bit) as u64) << bit;
    }
    word
}

/// Whether a node leads on only at a line's front or end.
fn is_anchor(node: &Node) -> bool
    ensures { IsFalse result → (at_first at_last : Bool) (from to : ℕ) → LeadsOn node.now at_first at_last from to
        → LeadsOn node.now false false from to }
{
    match node {
        Node::First | Node::Last => true,
        Node::Take(_) | Node::Choose(_) | Node::Back(_) => false,
    }
}

/// Whether some node leads on only at a line's front or end.
fn has_anchors(nodes: &[Node]) -> bool
    ensures { IsFalse result → (number : ℕ) → IsPlain nodes.now number }
{
    for number in 0..nodes.len() {
        if is_anchor(&nodes[number]) {
            return true;
        }
    }
    false
}

/// A number's bit, if it stands in this word.
#[tactic(auto, using(crate::proofs::Insides::bit_is))]
fn bit_in(at: usize, number: usize) -> u64
    ensures { (bit : ℕ) → bit < 64 → (bit_at result bit ≡ 1) ↔ (number ≡ at * 64 + bit) }
{
    if number / 64 == at {
        1u64 << (number % 64)
    } else {
        0
    }
}

/// What a number of a word leads to in it, without a byte.
fn targets(nodes: &[Node], at: usize, bit: usize) -> u64
    requires code { IsCode nodes.now }
    requires bit { bit < 64 }
    requires at { at < width nodes.now }
    ensures { (to : ℕ) → to < 64 → (bit_at result to ≡ 1) ↔ Flows nodes.now false false (at * 64 + bit) (at * 64 + to) }
{
    let branch = branch_of(nodes, at * 64 + bit);
    if !is_open(branch.when, false, false) {
        return 0;
    }
    bit_in(at, branch.one) | bit_in(at, branch.other)
}

/// What some numbers of a word lead to in it, without a byte.
fn inside_of(nodes: &[Node], at: usize, word: u64) -> u64
    requires code { IsCode nodes.now }
    requires at { at < width nodes.now }
    ensures { Closes nodes.now at word result }
{
    let mut all = word;
    let mut done: u64 = 0;
    'bits: while all & !done != 0 {
        let bit = (all & !done).trailing_zeros();
        all |= targets(nodes, at, bit as usize);
        done |= 1u64 << bit;
    }
    all
}

/// What the numbers of a word lead to in it, looked up for eight of them at once.
#[inline(always)]
pub fn looked_up(inside: &[u64], nodes: &[Node], at: usize, word: u64) -> u64
    requires inside { AreEach 0 (IsInside nodes.now) (width nodes.now * 2048) inside.now }
    requires at { at < width nodes.now }
    ensures { Closes nodes.now at word result }
{
    let row = &inside[at * 2048..at * 2048 + 2048];
    let mut all = 0;
    for eight in 0..8usize {
        all |= row[eight * 256 + ((word >> (eight * 8)) % 256) as usize];
    }
    all
}

/// What one choice from eight numbers leads to in their word: what its lower and its higher four lead to is in the table
/// before it, if there are both.
#[tactic(auto, using(crate::proofs::Insides::entry_of_halves))]
fn inside_at(inside: &[u64], nodes: &[Node], place: usize) -> u64
    requires inside { AreEach 0 (IsInside nodes.now) place inside.now }
    requires code { IsCode nodes.now }
    requires place { place < width nodes.now * 2048 }
    ensures { IsInside nodes.now place result }
{
    let low = place % 16;
    let high = place / 16 % 16 * 16;
    if low == 0 || high == 0 {
        return inside_of(
            nodes,
            place / 2048,
            ((place % 256) as u64) << (place / 256 % 8 * 8),
        );
    }
    inside[place - low] | inside[place - high]
}

/// What each choice from each eight numbers leads to in their word.
fn insides_of(alloc: Global, nodes: &[Node]) -> Result<Vec<u64>, BreFault>
    requires { IsCode nodes.now }
    ensures ok { IfOk result (λ inside. AreEach 0 (IsInside nodes.now) (width nodes.now * 2048) inside.items) }
    ensures err { IfErr result (λ fault. fault ≡ Memory) }
{
    let mut inside = Vec::new(alloc);
    for place in 0..(nodes.len() / 64 + 1) * 2048 {
        let entry = inside_at(&inside, nodes, place);
        inside.push(entry)?;
    }
    Ok(inside)
}

/// The closures of a code.
pub fn closures_of(alloc: Global, nodes: &[Node]) -> Result<Closures, BreFault>
    requires code { IsCode nodes.now }
    requires short { length nodes.now < 2 ^ 32 }
    ensures ok { IfOk result (AreClosures nodes.now) }
    ensures err { IfErr result (λ fault. fault ≡ Memory) }
{
    let base = begun_of(alloc, nodes, false)?;
    let inside = insides_of(alloc, nodes)?;
    let begun = base.as_slice();
    let hops = hops_of(alloc, nodes, begun)?;
    let mut leads = Vec::new(alloc);
    for at in 0..nodes.len() / 64 + 1 {
        leads.push(leading(nodes, begun, at))?;
    }
    Ok(Closures {
        base,
        leads,
        inside,
        hops,
        is_anchored: has_anchors(nodes),
    })
}
