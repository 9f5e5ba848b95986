//! The last lines of what came in.
ghost use Rattle.std.specs.{
  Prelude.{◌≡◌, ℕ, ◌+◌, ◌-◌, ◌<◌, ◌≤◌, ◌==◌, List, [], ◌++◌, length, take, drop, min, IsOk, IfOk, IfErr, IfSome, OnOk},
  Prelude.None,
};
ghost use Rattle.seg_core.specs.{Line.{but_last_lines, delimiters, first_lines, line_count}, Window.without_first};

use crate::fault::Fault;
use crate::line::count_delimiters;
use crate::line_back::{last_delimiter_off, reach_back};
use crate::line_block::Block;
use crate::line_blocks::{drop_front, extend, front_of, reach_in};
use crate::line_reach::ReachBack;
use std::alloc::{AllocError, Global};
use std::collections::VecDeque;
use std::marker::Model;

/// The most bytes that a window over lines holds: 2^63-1.
const MOST_HELD: u64 = 0x7fff_ffff_ffff_ffff;

/// What must leave a window over lines so that a piece can come in.
#[derive(Clone, Copy, Debug, PartialEq, Eq)]
pub struct Over {
    /// How many bytes must leave at the front, of what the window holds and of the piece after it.
    pub bytes: u64,
    /// How many delimiters the piece has, if all of it stays and they were counted.
    pub delimiters: Option<usize>,
}

/// A window over lines: it keeps the last `most` of what came in, at most 2^63-1 bytes. All lines end
/// with the byte that it was given when it was made. It takes as much memory as it holds bytes, in
/// blocks of 64 KiB, of which the first and the last may be used in part only. No byte moves from block to block.
#[derive(Drop)]
pub struct LineWindow {
    alloc: Global,
    most: u64,
    delim: u8,
    blocks: VecDeque<Block>,
    len: u64,
    delimiters: u64,
}

impl Model for LineWindow {
    ghost use Rattle.seg_core.specs.{Window.Window, Blocks.{IsCounted, text_of}};

    ghost Value = { Window };

    ghost view = { λ w. record { most = w.most; delim = w.delim; held = text_of w.blocks.items } };

    ghost invariant = { λ w. IsCounted w.delim w.most w.blocks.items w.len w.delimiters };
}

impl LineWindow {
    /// A window that is to keep the last `most` lines, each ended by `delim`, and holds none yet. An
    /// open last line counts.
    ///
    /// # Errors
    ///
    /// `Memory` if there is no room for it.
    pub fn new(alloc: Global, most: u64, delim: u8) -> Result<Self, Fault>
        ensures ok { IfOk result (λ window. window ≡ record { most = most; delim = delim; held = [] }) }
        ensures err { IfErr result (λ fault. fault ≡ Fault.Memory) }
    {
        Ok(LineWindow {
            alloc,
            most,
            delim,
            blocks: VecDeque::new(alloc),
            len: 0,
            delimiters: 0,
        })
    }

    /// How many bytes it holds.
    pub fn len(&self) -> u64
        ensures len { result ≡ length self.now.held }
        ensures lines { line_count self.now.delim self.now.held ≤ self.now.most }
    {
        self.len
    }

    /// Whether it holds none.
    pub fn is_empty(&self) -> bool
        ensures { result ≡ (length self.now.held == 0) }
    {
        self.len == 0
    }

    /// How many bytes stand before the last `most` lines of what it holds and the piece together:
    /// this many must leave at the front. It may be more than it holds.
    pub fn over(&self, piece: &[u8]) -> u64
        ensures { result ≡ length (but_last_lines self.now.delim self.now.most (self.now.held ++ piece.now)) }
    {
        self.count_over(piece).bytes
    }

    /// What `over` returns, and how many delimiters the piece has if they were counted meanwhile. `put_counted` then needn't count them
    /// again.
    pub fn count_over(&self, piece: &[u8]) -> Over
        ensures bytes { result.bytes
            ≡ length (but_last_lines self.now.delim self.now.most (self.now.held ++ piece.now)) }
        ensures delimiters { IfSome result.delimiters
            (λ count. (count ≡ delimiters self.now.delim piece.now) × (result.bytes ≤ length self.now.held)) }
    {
        let len = self.len;
        if piece.is_empty() {
            return uncounted(0);
        }
        if self.most == 0 {
            return uncounted(len + piece.len() as u64);
        }
        let text = last_delimiter_off(piece, self.delim);
        match reach_back(text, self.most, self.delim) {
            ReachBack::Begins(at) => uncounted(len + at as u64),
            ReachBack::Short(count) => {
                let lines = self.delimiters + count as u64 + 1;
                Over {
                    bytes: self.end_of_first(lines.saturating_sub(self.most)),
                    delimiters: Some(count + (piece.len() - text.len())),
                }
            }
        }
    }

    // Where the first `lines` lines end, all of which are complete.
    fn end_of_first(&self, lines: u64) -> u64
        requires { lines ≤ delimiters self.now.delim self.now.held }
        ensures end { result ≡ length (first_lines self.now.delim lines self.now.held) }
        ensures within { result ≤ length self.now.held }
    {
        if lines == 0 {
            return 0;
        }
        reach_in(&self.blocks, lines, self.delim)
    }

    /// The longest run of bytes at the front that lie in one slice. It is empty only if the window holds nothing.
    pub fn front(&self) -> &[u8]
        ensures front { (rest : List ℕ) × (self.now.held ≡ result.now ++ rest) }
        ensures some { 0 < length self.now.held → 0 < length result.now }
    {
        front_of(&self.blocks)
    }

    /// Moves bytes from the front to the beginning of `out`, as many as there are and fit, and
    /// returns how many these are.
    pub fn take_front(&mut self, out: &mut [u8]) -> usize
        ensures count { result ≡ min (length out.old) (length self.old.held) }
        ensures out { out.new ≡ take result self.old.held ++ drop result out.old }
        ensures left { self.new ≡ without_first self.old result }
    {
        let mut at = 0;
        while at < out.len() && !self.is_empty() {
            let count = copy_front(self.front(), out, at);
            self.drop_front(count as u64);
            at += count;
        }
        at
    }

    /// Drops this many bytes at the front.
    pub fn drop_front(&mut self, n: u64)
        requires { n ≤ length self.old.held }
        ensures { self.new ≡ without_first self.old n }
    {
        self.delimiters -= drop_front(&mut self.blocks, n, self.delim);
        self.len -= n;
    }

    /// Appends a piece to what it holds. Both together must have no more than `most` lines.
    ///
    /// # Errors
    ///
    /// `Memory` if there is no room for it, or if both together have more than 2^63-1 bytes. The window then stays as it was.
    pub fn put(&mut self, piece: &[u8]) -> Result<(), Fault>
        requires { but_last_lines self.old.delim self.old.most (self.old.held ++ piece.now) ≡ [] }
        ensures ok { OnOk result (self.new
            ≡ record { most = self.old.most; delim = self.old.delim; held = self.old.held ++ piece.now }) }
        ensures err { IfErr result (λ fault. (fault ≡ Fault.Memory) × (self.new ≡ self.old)) }
        ensures empty { length piece.now ≡ 0 → IsOk result }
    {
        self.put_counted(piece, count_delimiters(piece, self.delim))
    }

    /// Appends a piece that has `count` delimiters, as `put` does.
    ///
    /// # Errors
    ///
    /// `Memory` if there is no room for it, or if both together have more than 2^63-1 bytes. The window then stays as it was.
    pub fn put_counted(&mut self, piece: &[u8], count: usize) -> Result<(), Fault>
        requires within { but_last_lines self.old.delim self.old.most (self.old.held ++ piece.now) ≡ [] }
        requires counted { count ≡ delimiters self.old.delim piece.now }
        ensures ok { OnOk result (self.new
            ≡ record { most = self.old.most; delim = self.old.delim; held = self.old.held ++ piece.now }) }
        ensures err { IfErr result (λ fault. (fault ≡ Fault.Memory) × (self.new ≡ self.old)) }
        ensures empty { length piece.now ≡ 0 → IsOk result }
    {
        if piece.is_empty() {
            return Ok(());
        }
        if piece.len() as u64 > MOST_HELD - self.len {
            return Err(Fault::Memory);
        }
        match extend(&mut self.blocks, self.alloc, piece, count, self.delim) {
            Ok(()) => {}
            Err(AllocError) => return Err(Fault::Memory),
        }
        self.len += piece.len() as u64;
        self.delimiters += count as u64;
        Ok(())
    }
}

// What must leave is this many bytes, and no delimiters were counted.
fn uncounted(bytes: u64) -> Over
    ensures bytes { result.bytes ≡ bytes }
    ensures delimiters { result.delimiters ≡ None }
{
    Over {
        bytes,
        delimiters: None,
    }
}

// Copies bytes into a slice from `at` on, as many as there are and fit, and returns how many these
// are.
fn copy_front(from: &[u8], to: &mut [u8], at: usize) -> usize
    requires { at ≤ length to.old }
    ensures count { result ≡ min (length to.old - at) (length from.now) }
    ensures copied { to.new ≡ take at to.old ++ (take result from.now ++ drop (at + result) to.old) }
{
    let count = from.len().min(to.len() - at);
    to[at..at + count].copy_from_slice(&from[..count]);
    count
}
