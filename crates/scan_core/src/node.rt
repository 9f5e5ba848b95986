//! The nodes of a pattern's code.

ghost use Rattle.std.specs.Prelude.{◌≡◌};

use bre_core::ByteSet;

/// A node of a pattern's code. All but `Back` are positions of the pattern.
#[derive(Drop)]
pub enum Node {
    /// A byte of the set leads to the next node.
    Take(ByteSet),
    /// The line's front leads to the next node.
    First,
    /// The line's end leads to the next node.
    Last,
    /// The next node, or the node this many further on.
    Choose(usize),
    /// The node this many before.
    Back(usize),
}

impl Node {
    ghost use Rattle.scan_core.specs.Code.{weight_of};

    /// The same node once more.
    pub fn copied(&self) -> Node
        ensures { result ≡ self.now }
    {
        match self {
            Node::Take(set) => Node::Take(set.copied()),
            Node::First => Node::First,
            Node::Last => Node::Last,
            Node::Choose(skip) => Node::Choose(*skip),
            Node::Back(by) => Node::Back(*by),
        }
    }

    /// How many positions it is: 1, or 0 of a step back.
    pub fn weight(&self) -> usize
        ensures { result ≡ weight_of self.now }
    {
        match self {
            Node::Take(_) | Node::First | Node::Last | Node::Choose(_) => 1,
            Node::Back(_) => 0,
        }
    }
}
