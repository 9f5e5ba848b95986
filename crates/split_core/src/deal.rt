ghost use Rattle.std.specs.Prelude.{◌≡◌, ◌+◌, ◌<◌, ◌≤◌, [], ◌++◌, length, take, slice_index_or, ℕ, IfOk, OnOk};
ghost use Rattle.ports_core.specs.Slot.{changed_at};
ghost use Rattle.split_core.specs.inner.Dealt.{Gathers};

use crate::complete_lines::CompleteLines;
use crate::gathered::Gathered;
use std::alloc::{AllocError, Global};
use std::marker::Model;

/// Deals lines in turn: what each file gets of a piece is gathered, so that it can be written at once.
#[derive(Drop)]
pub(crate) struct Deal {
    gathered: Vec<Gathered>,
    /// The place of the file that the next byte goes to.
    next: usize,
    /// The byte that lines end with.
    delim: u8,
}

impl Model for Deal {
    ghost use Rattle.std.specs.Prelude.{◌<◌, length};
    ghost use Rattle.split_core.specs.inner.Dealt.{DealState};

    ghost Value = { DealState };

    ghost view = { λ d. record { gathered = d.gathered.items; next = d.next; delim = d.delim } };

    ghost invariant = { λ d. d.next < length d.gathered.items };
}

impl Deal {
    /// Deals to `count` files, the first of which gets the first line. Lines end with `delim`.
    pub(crate) fn new(alloc: Global, count: u64, delim: u8) -> Result<Deal, AllocError>
        requires { 0 < count }
        ensures count { IfOk result (λ deal. length deal.gathered ≡ count) }
        ensures next { IfOk result (λ deal. deal.next ≡ 0) }
        ensures delim { IfOk result (λ deal. deal.delim ≡ delim) }
    {
        let mut gathered: Vec<Gathered> = Vec::new(alloc);
        for _ in 0..count {
            gathered.push(Gathered::new(alloc))?;
        }
        Ok(Deal {
            gathered,
            next: 0,
            delim,
        })
    }

    /// What was gathered for the first `count` files.
    pub(crate) fn first(&self, count: usize) -> &[Gathered]
        requires { count ≤ length self.now.gathered }
        ensures { result.now ≡ take count self.now.gathered }
    {
        &self.gathered[..count]
    }

    /// What was gathered for the file at a place.
    pub(crate) fn at(&self, place: usize) -> &[u8]
        requires { place < length self.now.gathered }
        ensures { result.now ≡ slice_index_or self.now.gathered place [] }
    {
        self.gathered[place].bytes()
    }

    /// Gathers the lines of a piece, each for its file, in place of what was gathered before. A line that was open
    /// goes on in its file. It returns a number n: only the first n files got any byte.
    // Compiled by itself: within its caller's code the loop over short lines runs out of registers, and takes a tenth longer.
    #[inline(never)]
    pub(crate) fn gather(&mut self, piece: &[u8]) -> Result<usize, AllocError>
        ensures delim { self.new.delim ≡ self.old.delim }
        ensures count { length self.new.gathered ≡ length self.old.gathered }
        ensures gathers { IfOk result (λ reached.
            Gathers self.old.delim
            (length self.old.gathered) self.old.next piece.now self.new.gathered self.new.next reached) }
    {
        clear(&mut self.gathered);
        let count = self.gathered.len();
        let mut next = self.next;
        // Files before `next` are reached, and all of them once the last one got a line.
        let mut reached = next;
        let mut lines = CompleteLines::new(piece, self.delim);
        let mut left = piece;
        'lines: while let Some(line) = lines.next() {
            append_to(&mut self.gathered, next, left, line.len())?;
            left = lines.rest();
            if next + 1 < count {
                next += 1;
                continue;
            }
            next = 0;
            reached = count;
        }
        self.next = next;
        let open = lines.rest();
        if open.is_empty() {
            return Ok(reached.max(next));
        }
        append_to(&mut self.gathered, next, open, open.len())?;
        Ok(reached.max(next + 1))
    }
}

fn clear(gathered: &mut Vec<Gathered>)
    ensures count { length gathered.new.items ≡ length gathered.old.items }
    ensures none { (file : ℕ) → slice_index_or gathered.new.items file [] ≡ [] }
{
    for one in gathered.iter_mut() {
        one.clear();
    }
}

/// Gathers the first `count` bytes of a text for the file at a place.
#[inline(always)]
fn append_to(
    gathered: &mut Vec<Gathered>,
    place: usize,
    text: &[u8],
    count: usize,
) -> Result<(), AllocError>
    requires within { place < length gathered.old.items }
    requires enough { count ≤ length text.now }
    ensures count { length gathered.new.items ≡ length gathered.old.items }
    ensures ok { OnOk result (gathered.new.items
        ≡ changed_at place (λ had. had ++ take count text.now) gathered.old.items) }
{
    gathered[place].append(text, count)
}
