//! Where the numbers of a code lead without a byte.

ghost use Rattle.std.specs.Prelude.{IsTrue, ◌↔◌};
ghost use Rattle.scan_core.specs.inner.{Sets.IsCode, Branches.{IsBranch, Opens}};

use crate::node::Node;

/// At which places of a line a branch is open.
#[derive(Clone, Copy)]
pub enum When {
    /// At none.
    Never,
    /// At the line's front.
    AtFront,
    /// At the line's end.
    AtEnd,
    /// At any.
    Always,
}

/// Where a number leads without a byte: to two others, which may be the same.
#[derive(Clone, Copy)]
pub struct Branch {
    pub when: When,
    pub one: usize,
    pub other: usize,
}

/// Where a number leads without a byte.
#[inline(always)]
pub fn branch_of(nodes: &[Node], number: usize) -> Branch
    requires { IsCode nodes.now }
    ensures { IsBranch nodes.now number result }
{
    if number >= nodes.len() {
        return Branch {
            when: When::Never,
            one: 0,
            other: 0,
        };
    }
    match &nodes[number] {
        Node::Take(_) => Branch {
            when: When::Never,
            one: 0,
            other: 0,
        },
        Node::First => Branch {
            when: When::AtFront,
            one: number + 1,
            other: number + 1,
        },
        Node::Last => Branch {
            when: When::AtEnd,
            one: number + 1,
            other: number + 1,
        },
        Node::Choose(skip) => Branch {
            when: When::Always,
            one: number + 1,
            other: number + *skip,
        },
        Node::Back(by) => {
            let to = number - *by;
            Branch {
                when: When::Always,
                one: to,
                other: to,
            }
        }
    }
}

/// Whether a branch is open at one place: the line's front, its end, or neither.
#[inline(always)]
pub fn is_open(when: When, at_first: bool, at_last: bool) -> bool
    ensures { IsTrue result ↔ Opens when at_first at_last }
{
    match when {
        When::Never => false,
        When::AtFront => at_first,
        When::AtEnd => at_last,
        When::Always => true,
    }
}
