//! Where the last lines or bytes of an input begin, in what it shows before it is read.
ghost use Rattle.std.specs.Prelude.{◌≡◌, ◌<◌, true, length, Some, None, IsTrue, IfSome, IfNone};
ghost use Rattle.ports_core.specs.{Source.{count_shown, is_readable, source_at}, Inputs.HasLooked};
ghost use Rattle.ends_core.specs.Shown.{SeenLast};

use crate::Unit;
use ports_core::Inputs;
use seg_core::line_back::reach_back;
use seg_core::line_reach::ReachBack;

/// What was found in the bytes that an input shows.
#[derive(Clone, Copy, Debug, PartialEq, Eq)]
pub struct Found {
    /// How many bytes stand before the last lines or bytes.
    pub place: u64,
    /// How many bytes there are.
    pub len: u64,
}

/// Where the last `count` lines or bytes begin of what an input shows, and how many bytes that has. Lines end with `delim`, and are looked
/// for from the end, in blocks as large as the buffer; bytes need no look. It takes no memory. None if the input shows nothing, or can't be
/// looked at.
pub fn find_last<I: Inputs>(
    unit: Unit,
    count: u64,
    delim: u8,
    slot: usize,
    buffer: &mut [u8],
    inputs: &mut I,
) -> Option<Found>
    requires room { 0 < length buffer.old }
    requires input { IsTrue (is_readable (I.sources inputs.old) slot) }
    ensures found { IfSome result
        (λ found. SeenLast I.visible (source_at (I.sources inputs.old) slot).left delim unit count found) }
    ensures none { IfNone result
        (I.visible ≡ true → (source_at (I.sources inputs.old) slot).left.shown ≡ None) }
    ensures looked { HasLooked (length buffer.old) slot (I.sources inputs.old) (I.sources inputs.new) }
    ensures laid { I.laid inputs.new ≡ I.laid inputs.old }
{
    let Some(len) = inputs.shown(slot) else {
        return None;
    };
    match unit {
        Unit::Lines => {
            let Some(place) = find_lines(count, delim, slot, len, buffer, inputs) else {
                return None;
            };
            Some(Found { place, len })
        }
        Unit::Bytes => Some(Found {
            place: len.saturating_sub(count),
            len,
        }),
    }
}

/// Where the last `count` of the lines begin that an input shows in `len` bytes. Each delimiter before the last byte ends a line after
/// which another line follows.
fn find_lines<I: Inputs>(
    count: u64,
    delim: u8,
    slot: usize,
    len: u64,
    buffer: &mut [u8],
    inputs: &mut I,
) -> Option<u64>
    requires room { 0 < length buffer.old }
    requires input { IsTrue (is_readable (I.sources inputs.old) slot) }
    requires shown { I.visible ≡ true → Some len ≡ count_shown (source_at (I.sources inputs.old) slot).left }
    ensures found { IfSome result
        (λ place. SeenLast I.visible (source_at (I.sources inputs.old) slot).left delim Unit.Lines count
        (record { place = place; len = len })) }
    ensures none { IfNone result
        (I.visible ≡ true → (source_at (I.sources inputs.old) slot).left.shown ≡ None) }
    ensures looked { HasLooked (length buffer.old) slot (I.sources inputs.old) (I.sources inputs.new) }
    ensures laid { I.laid inputs.new ≡ I.laid inputs.old }
{
    if count == 0 {
        return Some(len);
    }
    let mut end = len.saturating_sub(1);
    let mut wanted = count;
    while 0 < end {
        let size = end.min(buffer.len() as u64) as usize;
        let from = end - size as u64;
        let block = &mut buffer[..size];
        if !inputs.read_at(slot, from, block) {
            return None;
        }
        match reach_back(block, wanted, delim) {
            ReachBack::Begins(at) => return Some(from + at as u64),
            ReachBack::Short(found) => wanted -= found as u64,
        }
        end = from;
    }
    Some(0)
}
