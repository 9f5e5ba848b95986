//! Choosing what is looked for: of what each line with a match has, the rarest.

ghost use Rattle.std.specs.Prelude.{◌≡◌, ◌<◌, ◌≤◌, ◌+◌, ℕ, IfOk, IfErr, IfSome, length};
ghost use Rattle.bre_core.specs.declared.fault.BreFault.TheVariants.{Memory};
ghost use Rattle.scan_core.specs.{
  declared.node.Node.TheVariants.Choose,
  Code.At,
  inner.{Needles.{IsLiteral, IsNeedle, IsPassed, IsRarest, TakesOnly}, Sets.IsCode},
};

use crate::branch::branch_of;
use crate::few_bytes::{COMMON, FewBytes};
use crate::needle::Needle;
use crate::node::Node;
use bre_core::BreFault;
use memchr::memmem::Finder;
use std::alloc::Global;

/// The rarest of the nodes that were looked at and that each walk to the end passes.
#[derive(Clone, Copy)]
struct Rarest {
    /// No choice that was looked at leads beyond this number.
    far: usize,
    /// The last nodes that were looked at each take one byte alone, from this number on.
    run: usize,
    /// The first of the rarest nodes.
    from: usize,
    /// How common the rarest nodes are; `COMMON` if there are none.
    rank: u16,
}

/// Where the nodes that take one byte alone begin, of which the last is at a number or before it.
fn begin_of(bytes: FewBytes, run: usize, at: usize) -> usize
    requires { run ≤ at }
    ensures { result ≤ at }
{
    match bytes {
        FewBytes::One(_) => run,
        FewBytes::Zero | FewBytes::Two(_, _) | FewBytes::Three(_, _, _) | FewBytes::More => at,
    }
}

impl Rarest {
    /// With a node that takes these bytes.
    fn with_bytes(self, nodes: &[Node], at: usize, bytes: FewBytes) -> Rarest
        requires so_far { IsRarest nodes.now at self }
        requires within { at < length nodes.now }
        requires takes { (skip : ℕ) → At nodes.now at (Choose skip) → ⊥ }
        ensures { IsRarest nodes.now (at + 1) result }
    {
        let rank = bytes.rank();
        let run = begin_of(bytes, self.run, at + 1);
        let from = begin_of(bytes, self.run, at).max(self.far);
        let far = self.far;
        if far <= at && rank < self.rank {
            return Rarest {
                far,
                run,
                from,
                rank,
            };
        }
        Rarest {
            far,
            run,
            from: self.from,
            rank: self.rank,
        }
    }

    /// The number beyond which no choice leads, of the choices that were looked at and the node at a number.
    fn far_after(self, nodes: &[Node], at: usize) -> usize
        requires { IsCode nodes.now }
        ensures low { self.far ≤ result }
        ensures choice { (skip : ℕ) → At nodes.now at (Choose skip) → at + skip ≤ result }
    {
        let branch = branch_of(nodes, at);
        self.far.max(branch.one).max(branch.other)
    }

    /// With the node at a number.
    fn with(self, nodes: &[Node], at: usize) -> Rarest
        requires so_far { IsRarest nodes.now at self }
        requires within { at < length nodes.now }
        requires code { IsCode nodes.now }
        ensures { IsRarest nodes.now (at + 1) result }
    {
        if let Node::Take(set) = &nodes[at] {
            return self.with_bytes(nodes, at, FewBytes::of(set));
        }
        Rarest {
            far: self.far_after(nodes, at),
            run: at + 1,
            from: self.from,
            rank: self.rank,
        }
    }
}

/// The byte that a node takes alone, if there is one.
fn only_byte(node: &Node) -> Option<u8>
    ensures { IfSome result (TakesOnly node.now) }
{
    match node {
        Node::Take(set) => match FewBytes::of(set) {
            FewBytes::One(byte) => Some(byte),
            FewBytes::Zero | FewBytes::Two(_, _) | FewBytes::Three(_, _, _) | FewBytes::More => {
                None
            }
        },
        Node::First | Node::Last | Node::Choose(_) | Node::Back(_) => None,
    }
}

/// The bytes that nodes from a number on take one after another, as long as each takes one byte alone.
fn literal(alloc: Global, nodes: &[Node], from: usize) -> Result<Vec<u8>, BreFault>
    ensures ok { IfOk result (λ text. IsLiteral nodes.now from text.items) }
    ensures err { IfErr result (λ fault. fault ≡ Memory) }
{
    let mut text = Vec::new(alloc);
    for at in from..nodes.len() {
        let Some(byte) = only_byte(&nodes[at]) else {
            break;
        };
        text.push(byte)?;
    }
    Ok(text)
}

/// What each line with a match has, if it is one of the bytes that this node takes, which each walk to the end passes.
fn byte_needle(nodes: &[Node], number: usize) -> Option<Needle>
    requires { IsPassed nodes.now number }
    ensures { IfSome result (IsNeedle nodes.now) }
{
    if number >= nodes.len() {
        return None;
    }
    match &nodes[number] {
        Node::Take(set) => Some(Needle::Byte(FewBytes::of(set))),
        Node::First | Node::Last | Node::Choose(_) | Node::Back(_) => None,
    }
}

/// What each line with a match has: what nodes take from a number on that each walk to the end passes.
fn needle_from(alloc: Global, nodes: &[Node], from: usize) -> Result<Option<Needle>, BreFault>
    requires { IsPassed nodes.now from }
    ensures ok { IfOk result (λ made. IfSome made (IsNeedle nodes.now)) }
    ensures err { IfErr result (λ fault. fault ≡ Memory) }
{
    let text = literal(alloc, nodes, from)?;
    if text.len() >= 2 {
        let finder = Finder::new(&text).into_owned(alloc)?;
        return Ok(Some(Needle::Text(finder)));
    }
    Ok(byte_needle(nodes, from))
}

/// What each line with a match has, if that is known and rare enough.
pub fn needle_of(alloc: Global, nodes: &[Node]) -> Result<Option<Needle>, BreFault>
    requires { IsCode nodes.now }
    ensures ok { IfOk result (λ made. IfSome made (IsNeedle nodes.now)) }
    ensures err { IfErr result (λ fault. fault ≡ Memory) }
{
    let mut rarest = Rarest {
        far: 0,
        run: 0,
        from: 0,
        rank: COMMON,
    };
    for at in 0..nodes.len() {
        rarest = rarest.with(nodes, at);
    }
    if rarest.rank >= COMMON {
        return Ok(None);
    }
    needle_from(alloc, nodes, rarest.from)
}
