//! Searching a line place by place, with the set of what is entered at each.

ghost use Rattle.std.specs.Prelude.{◌≡◌, length};
ghost use Rattle.scan_core.specs.{inner.{Closures.AreClosures, Sets.IsCode, Words.{IsMasks, width}}, Table.IsOutcome};

use crate::closing::spread;
use crate::closures::Closures;
use crate::masks::Masks;
use crate::node::Node;
use crate::walk::Outcome;
use crate::words::{has, pass, positions};

/// Whether the code's end is entered at some place of the line, with the positions that are entered at each place. The
/// masks and closures are those of these nodes, and `words` is room for a set.
pub fn search(
    masks: &Masks,
    closures: &Closures,
    nodes: &[Node],
    line: &[u8],
    words: &mut [u64],
) -> Outcome
    requires masks { IsMasks nodes.now masks.now }
    requires closures { AreClosures nodes.now closures.now }
    requires code { IsCode nodes.now }
    requires room { length words.old ≡ width nodes.now }
    ensures size { length words.new ≡ length words.old }
    ensures outcome { IsOutcome nodes.now line.now result }
{
    let mut steps = 0;
    words.copy_from_slice(&closures.base);
    for place in 0..line.len() {
        spread(words, nodes, closures, place == 0, false);
        steps += positions(words, nodes, &masks.counts) as u128;
        if has(words, nodes.len()) {
            return Outcome { found: true, steps };
        }
        let byte = line[place];
        pass(words, nodes, &closures.base, &masks.takes, byte);
    }
    spread(words, nodes, closures, line.is_empty(), true);
    steps += positions(words, nodes, &masks.counts) as u128;
    Outcome {
        found: has(words, nodes.len()),
        steps,
    }
}
