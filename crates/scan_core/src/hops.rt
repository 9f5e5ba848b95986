//! Hops: what leads out of a word and of what is in each set. Many numbers of a word may lead to the same number, which is then entered
//! once for all of them.

ghost use Rattle.std.specs.{
  Prelude.{◌≡◌, ◌↔◌, ◌<◌, ◌≤◌, ◌+◌, ◌*◌, ◌/◌, ℕ, false, IsTrue, OnOk, IfOk, IfErr, List, ◌++◌, length},
  Int.bit_at,
};
ghost use Rattle.bre_core.specs.declared.fault.BreFault.TheVariants.{Memory};
ghost use Rattle.scan_core.specs.{
  declared.hops.Hop.Hop,
  inner.{Hops.{AreHops, AreParted, HopsTo, Meets}, Sets.{IsCode, Flows}, Words.{IsIn, width}},
};

use crate::branch::{branch_of, is_open};
use crate::node::Node;
use crate::words::has;
use bre_core::BreFault;
use std::alloc::Global;

/// All numbers of a word that lead to the same number outside of it, at any place of a line.
#[derive(Clone, Copy)]
pub struct Hop {
    /// The word.
    pub at: usize,
    /// The numbers, as the bits of their word.
    pub from: u64,
    /// The word of what they lead to, and its bit there.
    pub word: usize,
    pub bit: usize,
}

/// The hops of a code.
#[derive(Drop)]
pub struct Hops {
    /// The hops to numbers that lead out of what is in each set.
    pub onward: Vec<Hop>,
    /// The other hops: nothing more follows once their ends are entered.
    pub landings: Vec<Hop>,
}

/// Whether a node leads to a number without a byte, at any place of a line.
fn leads_to(nodes: &[Node], number: usize, to: usize) -> bool
    requires { IsCode nodes.now }
    ensures { IsTrue result ↔ Flows nodes.now false false number to }
{
    let branch = branch_of(nodes, number);
    if !is_open(branch.when, false, false) {
        return false;
    }
    if to == branch.one {
        return true;
    }
    to == branch.other
}

/// The numbers of a word that lead to a number.
fn from_of(nodes: &[Node], at: usize, to: usize) -> u64
    requires code { IsCode nodes.now }
    requires at { at < width nodes.now }
    ensures { (bit : ℕ) → bit < 64 → (bit_at result bit ≡ 1) ↔ Flows nodes.now false false (at * 64 + bit) to }
{
    let mut word: u64 = 0;
    for bit in 0..64usize {
        word |= (leads_to(nodes, at * 64 + bit, to) as u64) << bit;
    }
    word
}

/// Whether one of the hops from a place in their list on leads from a word to a number.
fn is_led(hops: &[Hop], start: usize, at: usize, to: usize) -> bool
    ensures { IsTrue result → HopsTo hops.now at to }
{
    for place in start..hops.len() {
        let hop = &hops[place];
        if hop.at == at {
            if hop.word == to / 64 {
                if hop.bit == to % 64 {
                    return true;
                }
            }
        }
    }
    false
}

/// Adds the hop from a word to a number, if the number is neither in the word nor in each set, and there is no such hop
/// from a place in their list on.
fn add_hop(
    hops: &mut Vec<Hop>,
    nodes: &[Node],
    base: &[u64],
    start: usize,
    at: usize,
    to: usize,
) -> Result<(), BreFault>
    requires code { IsCode nodes.now }
    requires size { length base.now ≡ width nodes.now }
    requires at { at < width nodes.now }
    requires to { to ≤ length nodes.now }
    requires sound { AreHops nodes.now hops.old.items }
    ensures sound { OnOk result (AreHops nodes.now hops.new.items) }
    ensures grown { OnOk result ((more : List Hop) × (hops.new.items ≡ hops.old.items ++ more)) }
    ensures met { OnOk result (Meets base.now hops.new.items at to) }
    ensures err { IfErr result (λ fault. fault ≡ Memory) }
{
    if to / 64 == at {
        return Ok(());
    }
    if has(base, to) {
        return Ok(());
    }
    if is_led(hops, start, at, to) {
        return Ok(());
    }
    let from = from_of(nodes, at, to);
    let word = to / 64;
    let bit = to % 64;
    Ok(hops.push(Hop {
        at,
        from,
        word,
        bit,
    })?)
}

/// Adds the hops that a number's node asks for.
fn add_hops(
    hops: &mut Vec<Hop>,
    nodes: &[Node],
    base: &[u64],
    start: usize,
    number: usize,
) -> Result<(), BreFault>
    requires code { IsCode nodes.now }
    requires size { length base.now ≡ width nodes.now }
    requires within { number < length nodes.now }
    requires sound { AreHops nodes.now hops.old.items }
    ensures sound { OnOk result (AreHops nodes.now hops.new.items) }
    ensures grown { OnOk result ((more : List Hop) × (hops.new.items ≡ hops.old.items ++ more)) }
    ensures met { OnOk result ((to : ℕ) → Flows nodes.now false false number to
        → Meets base.now hops.new.items (number / 64) to) }
    ensures err { IfErr result (λ fault. fault ≡ Memory) }
{
    let branch = branch_of(nodes, number);
    if !is_open(branch.when, false, false) {
        return Ok(());
    }
    add_hop(hops, nodes, base, start, number / 64, branch.one)?;
    add_hop(hops, nodes, base, start, number / 64, branch.other)
}

/// All hops of a code, word by word. `base` is what is in each set.
fn all_hops(alloc: Global, nodes: &[Node], base: &[u64]) -> Result<Vec<Hop>, BreFault>
    requires code { IsCode nodes.now }
    requires size { length base.now ≡ width nodes.now }
    ensures sound { IfOk result (λ hops. AreHops nodes.now hops.items) }
    ensures met { IfOk result (λ hops. (number to : ℕ) → Flows nodes.now false false number to
        → Meets base.now hops.items (number / 64) to) }
    ensures err { IfErr result (λ fault. fault ≡ Memory) }
{
    let mut hops = Vec::new(alloc);
    let mut start = 0;
    for number in 0..nodes.len() {
        if number % 64 == 0 {
            start = hops.len();
        }
        add_hops(&mut hops, nodes, base, start, number)?;
    }
    Ok(hops)
}

/// Whether a node leads only to numbers of a set.
pub fn is_within(nodes: &[Node], words: &[u64], number: usize) -> bool
    requires code { IsCode nodes.now }
    requires size { length words.now ≡ width nodes.now }
    ensures { IsTrue result → (to : ℕ) → Flows nodes.now false false number to → IsIn words.now to }
{
    let branch = branch_of(nodes, number);
    if !is_open(branch.when, false, false) {
        return true;
    }
    if !has(words, branch.one) {
        return false;
    }
    has(words, branch.other)
}

/// The hops of a code, in two parts, each word by word. `base` is what is in each set.
pub fn hops_of(alloc: Global, nodes: &[Node], base: &[u64]) -> Result<Hops, BreFault>
    requires code { IsCode nodes.now }
    requires size { length base.now ≡ width nodes.now }
    ensures ok { IfOk result (AreParted nodes.now base.now) }
    ensures err { IfErr result (λ fault. fault ≡ Memory) }
{
    let all = all_hops(alloc, nodes, base)?;
    let mut onward = Vec::new(alloc);
    let mut landings = Vec::new(alloc);
    for place in 0..all.len() {
        let hop = all[place];
        if is_within(nodes, base, hop.word * 64 + hop.bit) {
            landings.push(hop)?;
        } else {
            onward.push(hop)?;
        }
    }
    Ok(Hops { onward, landings })
}
