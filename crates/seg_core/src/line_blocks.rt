//! A queue of bytes in blocks: bytes are added at its end and dropped at its front, and none of
//! them is moved.
ghost use Rattle.std.specs.{
  Prelude.{◌≡◌, ℕ, ◌^◌, ◌≤◌, ◌<◌, List, [], ◌++◌, length, take, drop, IfOk, OnOk, OnErr},
  VecDeque.{deque_len, deque_capacity},
};
ghost use Rattle.seg_core.specs.{
  Line.{delimiters, first_lines},
  inner.Blocks.{Gone, count_of, first_of},
  Blocks.{HaveCounts, text_of},
};

use crate::line::reach;
use crate::line_back::reach_back;
use crate::line_block::{BLOCK, Block, count_first};
use crate::line_reach::{Reach, ReachBack};
use std::alloc::{AllocError, Global};
use std::collections::VecDeque;

/// How many bytes are still to be dropped once whole blocks are gone, and how many delimiters those
/// blocks had.
#[derive(Clone, Copy)]
pub(crate) struct Left {
    pub(crate) bytes: u64,
    pub(crate) delimiters: u64,
}

/// Appends a piece that has `count` delimiters. Room for all of it is found before anything is
/// changed.
pub(crate) fn extend(
    queue: &mut VecDeque<Block>,
    alloc: Global,
    piece: &[u8],
    count: usize,
    delim: u8,
) -> Result<(), AllocError>
    requires counted { count ≡ delimiters delim piece.now }
    requires each { HaveCounts delim queue.old.items }
    ensures ok { OnOk result (text_of queue.new.items ≡ text_of queue.old.items ++ piece.now) }
    ensures each { OnOk result (HaveCounts delim queue.new.items) }
    ensures err { OnErr result (queue.new.items ≡ queue.old.items) }
{
    let (near, far) = piece.split_at(room_after(queue).min(piece.len()));
    let near_count = count_first(near, far, count, delim);
    let mut fresh = blocks_of(alloc, far, count - near_count, delim)?;
    queue.reserve(fresh.len())?;
    fill(queue, near, near_count)?;
    match queue.append(&mut fresh) {
        Ok(()) => Ok(()),
        Err(_) => unreachable!(),
    }
}

// How many more bytes the last block has room for.
fn room_after(queue: &VecDeque<Block>) -> usize
    ensures { deque_len queue.now ≡ 0 → result ≡ 0 }
{
    match queue.back() {
        Some(last) => last.room(),
        None => 0,
    }
}

// New blocks that hold these bytes, of which `count` are delimiters.
fn blocks_of(
    alloc: Global,
    bytes: &[u8],
    count: usize,
    delim: u8,
) -> Result<VecDeque<Block>, AllocError>
    requires { count ≡ delimiters delim bytes.now }
    ensures text { IfOk result (λ fresh. text_of fresh.items ≡ bytes.now) }
    ensures each { IfOk result (λ fresh. HaveCounts delim fresh.items) }
{
    let mut queue: VecDeque<Block> = VecDeque::new(alloc);
    let mut count = count;
    let mut left = bytes;
    while !left.is_empty() {
        let (near, far) = left.split_at(BLOCK.min(left.len()));
        let near_count = count_first(near, far, count, delim);
        let block = Block::holding(alloc, near, near_count)?;
        match queue.push_back(block) {
            Ok(()) => {}
            Err(_) => return Err(AllocError),
        }
        count -= near_count;
        left = far;
    }
    Ok(queue)
}

// Appends bytes, of which `count` are delimiters, to those of the last block.
fn fill(queue: &mut VecDeque<Block>, part: &[u8], count: usize) -> Result<(), AllocError>
    requires none { deque_len queue.old ≡ 0 → part.now ≡ [] }
    requires few { count ≤ length part.now }
    ensures ok { OnOk result (text_of queue.new.items ≡ text_of queue.old.items ++ part.now) }
    ensures each { OnOk result ((delim : ℕ) → count ≡ delimiters delim part.now → HaveCounts delim queue.old.items
        → HaveCounts delim queue.new.items) }
    ensures err { OnErr result (queue.new.items ≡ queue.old.items) }
    ensures len { deque_len queue.new ≡ deque_len queue.old }
    ensures capacity { deque_capacity queue.new ≡ deque_capacity queue.old }
{
    match queue.back_mut() {
        Some(last) => last.append(part, count),
        None => Ok(()),
    }
}

/// The bytes of the first block that has any, or none.
pub(crate) fn front_of(queue: &VecDeque<Block>) -> &[u8]
    ensures front { (rest : List ℕ) × (text_of queue.now.items ≡ result.now ++ rest) }
    ensures some { 0 < length (text_of queue.now.items) → 0 < length result.now }
{
    for i in 0..queue.len() {
        let bytes = queue[i].bytes();
        if !bytes.is_empty() {
            return bytes;
        }
    }
    &[]
}

/// Drops `n` bytes at the front, and returns how many of them were delimiters.
pub(crate) fn drop_front(queue: &mut VecDeque<Block>, n: u64, delim: u8) -> u64
    requires within { n ≤ length (text_of queue.old.items) }
    requires fits { length (text_of queue.old.items) < 2 ^ 64 }
    requires each { HaveCounts delim queue.old.items }
    ensures left { text_of queue.new.items ≡ drop n (text_of queue.old.items) }
    ensures delimiters { result ≡ delimiters delim (take n (text_of queue.old.items)) }
    ensures each { HaveCounts delim queue.new.items }
{
    let left = drop_whole(queue, n);
    left.delimiters + drop_within(queue, left.bytes, delim)
}

// Drops the blocks that lie within the first `n` bytes.
fn drop_whole(queue: &mut VecDeque<Block>, n: u64) -> Left
    requires fits { count_of queue.old.items < 2 ^ 64 }
    ensures gone { Gone n queue.old.items queue.new.items result.bytes result.delimiters }
    ensures within { n ≤ length (text_of queue.old.items) → result.bytes ≤ length (first_of queue.new.items) }
{
    let mut left = Left {
        bytes: n,
        delimiters: 0,
    };
    while let Some(first) = queue.front() {
        if left.bytes < first.len() as u64 {
            break;
        }
        left.bytes -= first.len() as u64;
        left.delimiters += first.delimiters() as u64;
        queue.pop_front();
    }
    left
}

// Drops `n` bytes at the front of the first block, and returns how many of them were delimiters.
fn drop_within(queue: &mut VecDeque<Block>, n: u64, delim: u8) -> u64
    requires within { n ≤ length (first_of queue.old.items) }
    requires each { HaveCounts delim queue.old.items }
    ensures left { text_of queue.new.items ≡ drop n (text_of queue.old.items) }
    ensures delimiters { result ≡ delimiters delim (take n (text_of queue.old.items)) }
    ensures each { HaveCounts delim queue.new.items }
{
    match queue.front_mut() {
        Some(first) => first.drop_front(n as usize, delim) as u64,
        None => 0,
    }
}

/// Where the first `lines` lines end, all of which are complete.
pub(crate) fn reach_in(queue: &VecDeque<Block>, lines: u64, delim: u8) -> u64
    requires some { 0 < lines }
    requires enough { lines ≤ delimiters delim (text_of queue.now.items) }
    requires each { HaveCounts delim queue.now.items }
    requires fits { length (text_of queue.now.items) < 2 ^ 64 }
    ensures { result ≡ length (first_lines delim lines (text_of queue.now.items)) }
{
    let mut passed: u64 = 0;
    let mut left = lines;
    for i in 0..queue.len() {
        let block = &queue[i];
        if left <= block.delimiters() as u64 {
            return passed + end_of(block, left, delim);
        }
        left -= block.delimiters() as u64;
        passed += block.len() as u64;
    }
    unreachable!()
}

// Where the first `lines` lines of a block end, all of which are complete.
fn end_of(block: &Block, lines: u64, delim: u8) -> u64
    requires enough { lines ≤ block.now.count }
    requires counted { block.now.count ≡ delimiters delim block.now.bytes }
    ensures { result ≡ length (first_lines delim lines block.now.bytes) }
{
    let after = block.delimiters() as u64 - lines;
    if after < lines {
        // The place is nearer to the block's end, so it is looked for from there: the last of these
        // lines ends with the delimiter that has `after` others after it.
        return match reach_back(block.bytes(), after + 1, delim) {
            ReachBack::Begins(at) => at as u64,
            ReachBack::Short(_) => unreachable!(),
        };
    }
    match reach(block.bytes(), lines, delim) {
        Reach::Ends(end) => end as u64,
        Reach::Short(_) => unreachable!(),
    }
}
