//! Writing the nodes of a pattern's code, the last first.

ghost use Rattle.std.specs.Prelude.{◌≡◌, ◌<◌, ◌≤◌, ◌+◌, ◌-◌, ◌++◌, ◌∷◌, List, [], length, reverse, OnOk, IfErr};
ghost use Rattle.bre_core.specs.declared.fault.BreFault.TheVariants.{Memory};
ghost use Rattle.scan_core.specs.{
  declared.node.Node.{Node, TheVariants.{Choose, Back}},
  Code.{copies, starred, up_to},
  inner.Backwards.{stretch, HasBegun, Repeats},
};

use crate::node::Node;
use bre_core::BreFault;

/// A duplication whose item is written out: the item's nodes stand from a place on, after a node's room for the step back if there is no
/// bound.
#[derive(Clone, Copy)]
pub struct Duplication {
    /// How many nodes stand before those of the item.
    pub start: usize,
    /// How often the item stands at least.
    pub low: u8,
    /// How often at most, if there is a bound.
    pub high: Option<u8>,
}

/// Writes a node after the others.
pub fn keep(nodes: &mut Vec<Node>, node: Node) -> Result<(), BreFault>
    ensures ok { OnOk result (nodes.new.items ≡ nodes.old.items ++ node ∷ []) }
    ensures err { IfErr result (λ fault. fault ≡ Memory) }
{
    Ok(nodes.push(node)?)
}

/// Writes the choice between what stands from a place on and what follows it.
fn choose(nodes: &mut Vec<Node>, start: usize) -> Result<(), BreFault>
    requires { start ≤ length nodes.old.items }
    ensures ok { OnOk result (nodes.new.items ≡ nodes.old.items ++ Choose (length nodes.old.items - start + 1) ∷ []) }
    ensures err { IfErr result (λ fault. fault ≡ Memory) }
{
    let size = nodes.len() - start;
    keep(nodes, Node::Choose(size + 1))
}

/// Writes the `size` nodes from a place on once more.
fn copy(nodes: &mut Vec<Node>, from: usize, size: usize) -> Result<(), BreFault>
    requires { from + size ≤ length nodes.old.items }
    ensures ok { OnOk result (nodes.new.items ≡ nodes.old.items ++ stretch from size nodes.old.items) }
    ensures err { IfErr result (λ fault. fault ≡ Memory) }
{
    for k in 0..size {
        let node = nodes[from + k].copied();
        keep(nodes, node)?;
    }
    Ok(())
}

/// Writes the `size` nodes from a place on several times more.
fn copy_times(nodes: &mut Vec<Node>, from: usize, size: usize, count: u8) -> Result<(), BreFault>
    requires { from + size ≤ length nodes.old.items }
    ensures ok { OnOk result (nodes.new.items ≡ nodes.old.items ++ copies count (stretch from size nodes.old.items)) }
    ensures err { IfErr result (λ fault. fault ≡ Memory) }
{
    for _done in 0..count {
        copy(nodes, from, size)?;
    }
    Ok(())
}

/// Writes the item of a duplication out as often as the duplication asks for: its nodes stand last, and some are there.
pub fn write_out(nodes: &mut Vec<Node>, duplication: Duplication) -> Result<(), BreFault>
    requires { HasBegun duplication.high duplication.low duplication.start (length nodes.old.items) }
    ensures ok { OnOk result (Repeats duplication nodes.old.items nodes.new.items) }
    ensures more { OnOk result (length nodes.old.items ≤ length nodes.new.items) }
    ensures err { IfErr result (λ fault. fault ≡ Memory) }
{
    match duplication.high {
        None => write_starred(nodes, duplication.start, duplication.low),
        Some(high) => write_bounded(nodes, duplication.start, duplication.low, high),
    }
}

/// At least `low` times, without an upper bound: `low` copies, and then any number of times.
fn write_starred(nodes: &mut Vec<Node>, start: usize, low: u8) -> Result<(), BreFault>
    requires { start < length nodes.old.items }
    ensures ok { OnOk result ((before code : List Node) → length before ≡ start
        → nodes.old.items ≡ before ++ Back 0 ∷ reverse code
        → nodes.new.items ≡ before ++ reverse (copies low code ++ starred code)) }
    ensures more { OnOk result (length nodes.old.items ≤ length nodes.new.items) }
    ensures err { IfErr result (λ fault. fault ≡ Memory) }
{
    let size = nodes.len() - start - 1;
    nodes[start] = Node::Back(size + 1);
    choose(nodes, start)?;
    copy_times(nodes, start + 1, size, low)
}

/// From `low` to `high` times: `low` copies, and then copies of which each may be left out with those after it.
fn write_bounded(nodes: &mut Vec<Node>, start: usize, low: u8, high: u8) -> Result<(), BreFault>
    requires start { start ≤ length nodes.old.items }
    requires order { low ≤ high }
    requires some { 0 < high }
    ensures ok { OnOk result ((before code : List Node) → length before ≡ start
        → nodes.old.items ≡ before ++ reverse code
        → nodes.new.items ≡ before ++ reverse (copies low code ++ up_to (high - low) code)) }
    ensures more { OnOk result (length nodes.old.items ≤ length nodes.new.items) }
    ensures err { IfErr result (λ fault. fault ≡ Memory) }
{
    let size = nodes.len() - start;
    if low == high {
        return copy_times(nodes, start, size, low - 1);
    }
    choose(nodes, start)?;
    for _more in 1..high - low {
        copy(nodes, start, size)?;
        choose(nodes, start)?;
    }
    copy_times(nodes, start, size, low)
}
