//! Compiling a pattern to its code: its tokens are read from the last to the first, so that a duplication is known
//! before its item, and the code's nodes are written from the last to the first and turned round once.

ghost use Rattle.std.specs.Prelude.{◌≡◌, ◌<◌, ◌≤◌, ◌+◌, ◌++◌, ◌∷◌, ◌-◌, ◌^◌, [], None, OnOk, IfOk, IfErr};
ghost use Rattle.bre_core.specs.{
  Flat.IsBounded,
  declared.{fault.BreFault.TheVariants.Memory, token.Token.TheVariants.Repeat},
};
ghost use Rattle.scan_core.specs.{
  Code.{code_of, IsOrdered},
  inner.Compiling.{Pops, AreBegun, Finishes, Begins, Writes, Passes, Takes, depth_in},
};

use crate::emit::{Duplication, keep, write_out};
use crate::node::Node;
use bre_core::{BreFault, Expression, Token};
use std::alloc::Global;

/// What waits for an item while tokens are read from the last to the first.
#[derive(Clone, Copy)]
pub enum Pending {
    /// A group whose `\(` is still to come.
    Group,
    /// A duplication whose item is still to come.
    Repeated(Duplication),
}

/// The code, as far as it is written.
#[derive(Drop)]
pub struct Compiling {
    /// The nodes, the last first.
    nodes: Vec<Node>,
    /// What waits for an item, the innermost last.
    pending: Vec<Pending>,
    /// How many groups are open in an item that stands no time and is passed over.
    passing: Option<usize>,
}

/// Appends something to what waits for an item.
fn wait(pending: &mut Vec<Pending>, last: Pending) -> Result<(), BreFault>
    ensures ok { OnOk result (pending.new.items ≡ pending.old.items ++ last ∷ []) }
    ensures err { IfErr result (λ fault. fault ≡ Memory) }
{
    Ok(pending.push(last)?)
}

impl Compiling {
    /// Nothing is written.
    fn new(alloc: Global) -> Compiling
        ensures nodes { result.nodes.items ≡ [] }
        ensures pending { result.pending.items ≡ [] }
        ensures passing { result.passing ≡ None }
    {
        Compiling {
            nodes: Vec::new(alloc),
            pending: Vec::new(alloc),
            passing: None,
        }
    }

    /// The duplication that waits for the item that is complete.
    fn next_duplication(&mut self) -> Option<Duplication>
        ensures { Pops self.old result self.new }
    {
        match self.pending.last() {
            Some(Pending::Repeated(duplication)) => {
                let duplication = *duplication;
                self.pending.pop();
                Some(duplication)
            }
            Some(Pending::Group) | None => None,
        }
    }

    /// An item is complete: writes out the duplications that wait for it.
    fn finish(&mut self) -> Result<(), BreFault>
        requires begun { AreBegun self.old }
        requires passing { self.old.passing ≡ None }
        ensures ok { OnOk result (Finishes self.old.nodes.items self.old.pending.items self.new) }
        ensures begun { OnOk result (AreBegun self.new) }
        ensures passed { OnOk result (self.new.passing ≡ None) }
        ensures err { IfErr result (λ fault. fault ≡ Memory) }
    {
        while let Some(duplication) = self.next_duplication() {
            write_out(&mut self.nodes, duplication)?;
        }
        Ok(())
    }

    /// Begins a duplication, or passes its item over if it stands no time.
    fn begin(&mut self, low: u8, high: Option<u8>) -> Result<(), BreFault>
        requires begun { AreBegun self.old }
        requires order { IsBounded (Repeat low high) }
        requires passing { self.old.passing ≡ None }
        ensures ok { OnOk result (Begins low high self.old self.new) }
        ensures begun { OnOk result (AreBegun self.new) }
        ensures depth { OnOk result (depth_in self.new.passing ≤ depth_in self.old.passing + 1) }
        ensures err { IfErr result (λ fault. fault ≡ Memory) }
    {
        let start = self.nodes.len();
        let duplication = Duplication { start, low, high };
        match high {
            Some(most) => {
                if most == 0 {
                    self.passing = Some(0);
                    return Ok(());
                }
                wait(&mut self.pending, Pending::Repeated(duplication))
            }
            None => {
                keep(&mut self.nodes, Node::Back(0))?;
                wait(&mut self.pending, Pending::Repeated(duplication))
            }
        }
    }

    /// Goes over a token outside of what is passed over.
    fn write(&mut self, token: &Token) -> Result<(), BreFault>
        requires begun { AreBegun self.old }
        requires order { IsBounded token.now }
        requires passing { self.old.passing ≡ None }
        ensures ok { OnOk result (Writes token.now self.old self.new) }
        ensures begun { OnOk result (AreBegun self.new) }
        ensures depth { OnOk result (depth_in self.new.passing ≤ depth_in self.old.passing + 1) }
        ensures err { IfErr result (λ fault. fault ≡ Memory) }
    {
        match token {
            Token::Set(set) => {
                keep(&mut self.nodes, Node::Take(set.copied()))?;
                self.finish()
            }
            Token::Front => {
                keep(&mut self.nodes, Node::First)?;
                self.finish()
            }
            Token::End => {
                keep(&mut self.nodes, Node::Last)?;
                self.finish()
            }
            Token::Close => wait(&mut self.pending, Pending::Group),
            Token::Open => {
                self.pending.pop();
                self.finish()
            }
            Token::Repeat(low, high) => self.begin(*low, *high),
        }
    }

    /// Reads a token of an item that isn't written; `depth` groups of the item are open.
    fn pass(&mut self, depth: usize, token: &Token) -> Result<(), BreFault>
        requires begun { AreBegun self.old }
        requires passing { self.old.passing ≡ Some depth }
        requires small { depth < 2 ^ 64 - 1 }
        ensures ok { OnOk result (Passes depth token.now self.old self.new) }
        ensures begun { OnOk result (AreBegun self.new) }
        ensures depth { OnOk result (depth_in self.new.passing ≤ depth_in self.old.passing + 1) }
        ensures err { IfErr result (λ fault. fault ≡ Memory) }
    {
        let left = match token {
            Token::Repeat(_, _) => return Ok(()),
            Token::Close => {
                self.passing = Some(depth + 1);
                return Ok(());
            }
            Token::Open => depth.saturating_sub(1),
            Token::Set(_) | Token::Front | Token::End => depth,
        };
        if left > 0 {
            self.passing = Some(left);
            return Ok(());
        }
        self.passing = None;
        self.finish()
    }

    /// Goes over a token.
    fn take(&mut self, token: &Token) -> Result<(), BreFault>
        requires begun { AreBegun self.old }
        requires order { IsBounded token.now }
        requires small { depth_in self.old.passing < 2 ^ 64 - 1 }
        ensures ok { OnOk result (Takes self.old token.now self.new) }
        ensures begun { OnOk result (AreBegun self.new) }
        ensures depth { OnOk result (depth_in self.new.passing ≤ depth_in self.old.passing + 1) }
        ensures err { IfErr result (λ fault. fault ≡ Memory) }
    {
        match self.passing {
            None => self.write(token),
            Some(depth) => self.pass(depth, token),
        }
    }
}

/// The code of a pattern, in one pass over its tokens. It takes one entry for each token that waits and for each node, of
/// which a pattern has at most two a position.
pub fn compile(alloc: Global, expression: &Expression) -> Result<Vec<Node>, BreFault>
    ensures ok { IfOk result (λ code. code.items ≡ code_of expression.now) }
    ensures order { IfOk result (λ _. IsOrdered expression.now) }
    ensures err { IfErr result (λ fault. fault ≡ Memory) }
{
    let tokens = expression.tokens();
    let mut compiling = Compiling::new(alloc);
    for place in (0..tokens.len()).rev() {
        compiling.take(&tokens[place])?;
    }
    let mut nodes = compiling.nodes;
    nodes.reverse();
    Ok(nodes)
}
