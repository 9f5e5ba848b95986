//! Sets of a code's numbers as words: a step of the whole set takes a few operations for 64 numbers.

ghost use Rattle.std.specs.Prelude.{◌≡◌, ◌⊎◌, ◌↔◌, ◌<◌, ◌*◌, ℕ, IsTrue, length};
ghost use Rattle.scan_core.specs.{
  declared.masks.Kind.TheVariants.Counts,
  inner.{Each.AreEach, Sets.{IsCode, Flows, StepsBy}, Words.{AreTakes, Grows, IsIn, IsMask, flags_of, width}},
  Sets.positions_among,
};

use crate::branch::{branch_of, is_open};
use crate::node::Node;

/// Whether a number is in a set.
#[tactic(auto, using(crate::proofs::Insides::has_tests))]
#[inline(always)]
pub fn has(words: &[u64], number: usize) -> bool
    requires { number < 64 * length words.now }
    ensures { IsTrue result ↔ IsIn words.now number }
{
    (words[number / 64] >> (number % 64)) & 1 == 1
}

/// Enters a number. Returns the number to go on with: this one, if it is new and stands before.
#[inline(always)]
pub fn enter(words: &mut [u64], number: usize, on: usize) -> usize
    requires { number < 64 * length words.old }
    ensures { Grows (λ other. other ≡ number) words.old words.new on result }
{
    if has(words, number) {
        return on;
    }
    words[number / 64] |= 1u64 << (number % 64);
    on.min(number)
}

/// Enters what a node leads to without a byte at one place: the line's first, its last, or neither.
#[inline(always)]
pub fn lead(
    words: &mut [u64],
    nodes: &[Node],
    number: usize,
    at_first: bool,
    at_last: bool,
    on: usize,
) -> usize
    requires code { IsCode nodes.now }
    requires room { length nodes.now < 64 * length words.old }
    ensures { Grows (Flows nodes.now at_first at_last number) words.old words.new on result }
{
    let branch = branch_of(nodes, number);
    if !is_open(branch.when, at_first, at_last) {
        return on;
    }
    let on = enter(words, branch.one, on);
    enter(words, branch.other, on)
}

/// Makes of a set what a byte leads to from it, with what is in each set. `takes` has the numbers whose nodes take each byte.
#[inline(always)]
pub fn pass(words: &mut [u64], nodes: &[Node], base: &[u64], takes: &[u64], byte: u8)
    requires size { length words.old ≡ width nodes.now }
    requires base { length base.now ≡ width nodes.now }
    requires takes { AreTakes nodes.now takes.now }
    ensures size { length words.new ≡ length words.old }
    ensures exact { (number : ℕ)
        → IsIn words.new number
        ↔ (((before : ℕ) × IsIn words.old before × StepsBy nodes.now byte before number) ⊎ IsIn base.now number) }
{
    let from = byte as usize * words.len();
    let mut carry: u64 = 0;
    for at in 0..words.len() {
        let kept = words[at] & takes[from + at];
        words[at] = (kept << 1) | carry | base[at];
        carry = kept >> 63;
    }
}

/// How many positions are in a set.
#[inline(always)]
pub fn positions(words: &[u64], nodes: &[Node], counts: &[u64]) -> usize
    requires size { length words.now ≡ width nodes.now }
    requires counts { AreEach 0 (IsMask nodes.now Counts) (width nodes.now) counts.now }
    ensures { result ≡ positions_among nodes.now (flags_of words.now) }
{
    let mut positions = 0;
    for at in 0..words.len() {
        positions += (words[at] & counts[at]).count_ones() as usize;
    }
    positions
}
