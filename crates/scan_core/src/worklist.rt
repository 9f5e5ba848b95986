//! Entering all that a set leads to without a byte, number by number.

ghost use Rattle.std.specs.Prelude.{◌≡◌, ◌↔◌, ◌<◌, ◌+◌, ℕ, false, IfOk, IfErr, length};
ghost use Rattle.bre_core.specs.declared.fault.BreFault.TheVariants.{Memory};
ghost use Rattle.scan_core.specs.inner.{
  Closures.IsBegun,
  Sets.{IsCode, Flows, FlowsOn},
  Words.{Grows, IsIn, SpreadsOut, width},
};

use crate::node::Node;
use crate::words::{enter, has, lead};
use bre_core::BreFault;
use std::alloc::Global;

/// Enters what a number leads to without a byte, if it is in the set. Returns the number to go on with: the next, or an
/// earlier one that is new.
fn visit(words: &mut [u64], nodes: &[Node], number: usize, at_first: bool, at_last: bool) -> usize
    requires code { IsCode nodes.now }
    requires size { length words.old ≡ width nodes.now }
    requires within { number < length nodes.now }
    ensures { Grows (λ to. IsIn words.old number × Flows nodes.now at_first at_last number to) words.old words.new
        (number + 1) result }
{
    if !has(words, number) {
        return number + 1;
    }
    lead(words, nodes, number, at_first, at_last, number + 1)
}

/// Enters all that a set leads to at one place, without a byte.
pub fn spread_all(words: &mut [u64], nodes: &[Node], at_first: bool, at_last: bool)
    requires code { IsCode nodes.now }
    requires size { length words.old ≡ width nodes.now }
    ensures { SpreadsOut nodes.now at_first at_last words.old words.new }
{
    let mut number = 0;
    'numbers: while number < nodes.len() {
        number = visit(words, nodes, number, at_first, at_last);
    }
}

/// Makes of an empty set what number 0 leads to without a byte, at a line's front or elsewhere.
fn begin(words: &mut [u64], nodes: &[Node], at_first: bool)
    requires code { IsCode nodes.now }
    requires size { length words.old ≡ width nodes.now }
    requires none { (number : ℕ) → IsIn words.old number → ⊥ }
    ensures size { length words.new ≡ length words.old }
    ensures exact { (number : ℕ) → IsIn words.new number ↔ FlowsOn nodes.now at_first false 0 number }
{
    enter(words, 0, 0);
    spread_all(words, nodes, at_first, false);
}

/// What number 0 leads to without a byte, at a line's front or elsewhere.
pub fn begun_of(alloc: Global, nodes: &[Node], at_first: bool) -> Result<Vec<u64>, BreFault>
    requires { IsCode nodes.now }
    ensures ok { IfOk result (λ begun. IsBegun nodes.now at_first begun.items) }
    ensures err { IfErr result (λ fault. fault ≡ Memory) }
{
    let mut words = vec![in alloc; 0u64; nodes.len() / 64 + 1]?;
    begin(&mut words, nodes, at_first);
    Ok(words)
}
