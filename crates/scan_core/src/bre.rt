//! Patterns that are ready for matching.

ghost use Rattle.std.specs.Prelude.{◌≡◌, ◌<◌, ◌≤◌, ◌+◌, ◌*◌, ◌/◌, IfOk, IfErr, IfSome, IsErrOf, length};
ghost use Rattle.bre_core.specs.{
  Pattern.{Pattern, Reads, positions_of, depth_of},
  Refusal.{IsOfText, IsTooLarge},
  declared.fault.BreFault.TheVariants.TooLarge,
};
ghost use Rattle.scan_core.specs.{Clear.IsClear, Code.{code_of, IsOrdered}, Table.IsOutcome};

use crate::build::build;
use crate::closures::{Closures, closures_of};
use crate::compile::compile;
use crate::masks::{Masks, masks_of};
use crate::needle::Needle;
use crate::node::Node;
use crate::rarest::needle_of;
use crate::search::search;
use crate::shift_table::{ShiftTable, shifts_of};
use crate::shift_walk::walk_by_shifts;
use crate::table::Table;
use crate::walk::{Outcome, walk};
use bre_core::{BreFault, Expression};
use std::alloc::Global;
use std::marker::Model;

/// A basic regular expression, with the code that lines are matched by.
#[derive(Drop)]
pub struct Bre {
    expression: Expression,
    code: Vec<Node>,
    masks: Masks,
    closures: Closures,
    table: Option<Table>,
    shifts: Option<ShiftTable>,
    /// What each line with a match has, if that is known.
    needle: Option<Needle>,
}

impl Model for Bre {
    ghost use Rattle.std.specs.Prelude.{◌≡◌, ◌≤◌, IfSome};
    ghost use Rattle.bre_core.specs.{Code.pattern_code, Pattern.{Pattern, positions_of}};
    ghost use Rattle.scan_core.specs.{
      Code.{code_of, IsOrdered},
      inner.{Table.IsTable, Shifts.IsShiftTable, Closures.AreClosures, Needles.IsNeedle, Words.IsMasks},
    };

    ghost Value = { Pattern };

    ghost coded = { pattern_code };

    ghost view = { λ b. b.expression };

    ghost invariant = { λ b. (b.code.items ≡ code_of b.expression) × IsOrdered b.expression
        × (positions_of b.expression ≤ 65535) × IsMasks b.code.items b.masks × IfSome b.table (IsTable b.code.items)
        × IfSome b.shifts (IsShiftTable b.code.items) × AreClosures b.code.items b.closures
        × IfSome b.needle (IsNeedle b.code.items) };
}

impl Bre {
    /// Reads a basic regular expression (POSIX.1-2017, XBD 9.3, in the POSIX locale), in one pass over the text, and makes
    /// ready to match lines with it.
    ///
    /// A pattern keeps one entry for each of its tokens, which are no more than the bytes of the text, and at most two nodes of 340 bytes
    /// for each of its positions. If it has at most 8,191 nodes, it keeps a table of up to 4,096 sets with 544 bytes for each; if these are
    /// at most nine, also 4,096 bytes of words. What each line with a match has takes no more bytes than the pattern has positions.
    ///
    /// # Errors
    ///
    /// One of the kinds `Empty` to `Class` if the text is no pattern: the first fault from left to right, with its place. `TooLarge` if a
    /// 256th group would be open at once, or if the whole text reads and has more than 65,535 positions. `Memory` if a growth is refused.
    pub fn read(alloc: Global, text: &[u8]) -> Result<Bre, BreFault>
        ensures reads { IfOk result (Reads text.now) }
        ensures groups { IfOk result (λ bre. depth_of bre ≤ 255) }
        ensures size { IfOk result (λ bre. positions_of bre ≤ 65535) }
        ensures refused { IfErr result (λ fault. IsOfText fault
            → (pattern : Pattern) → Reads text.now pattern → ⊥) }
        ensures large { IsErrOf result TooLarge → IsTooLarge text.now }
    {
        let expression = Expression::read(alloc, text)?;
        let code = compile(alloc, &expression)?;
        let nodes = code.as_slice();
        let masks = masks_of(alloc, nodes)?;
        let closures = closures_of(alloc, nodes)?;
        let table = build(alloc, nodes, &masks, &closures)?;
        let shifts = shifts_of(alloc, nodes, &table)?;
        let needle = needle_of(alloc, nodes)?;
        Ok(Bre {
            expression,
            code,
            masks,
            closures,
            table,
            shifts,
            needle,
        })
    }

    /// How many positions the pattern has, 1 to 65,535: one for each set of bytes and each anchor, written out as often as
    /// an interval asks for it, one for each choice that a duplication leaves, and one for the pattern's end.
    pub fn positions(&self) -> u64
        ensures exact { result ≡ positions_of self.now }
        ensures most { result ≤ 65535 }
    {
        self.expression.positions()
    }

    /// The pattern as it was read.
    pub fn expression(&self) -> &Expression
        ensures { result.now ≡ self.now }
    {
        &self.expression
    }

    /// Whether a line that isn't empty has a match, by the pattern's table; `None` if there is no table, or no room in it for a set that
    /// the line leads to. It is always inlined, so that a caller that wants no steps counts none.
    #[inline(always)]
    pub fn walk(&self, line: &[u8]) -> Option<Outcome>
        requires { 0 < length line.now }
        ensures outcome { IfSome result (IsOutcome (code_of self.now) line.now) }
        ensures order { IsOrdered self.now }
    {
        if let Some(shifts) = &self.shifts {
            return Some(walk_by_shifts(shifts, &self.code, line));
        }
        match &self.table {
            Some(table) => walk(table, &self.code, line),
            None => None,
        }
    }

    /// How many bytes at the beginning of a text are seen to have no match without matching: no stretch of the text that ends before them,
    /// such as a line, contains a match. The rarest byte or text that each line with a match has is looked for; if none is known, the
    /// answer is 0.
    pub fn clear_before(&self, text: &[u8]) -> usize
        ensures within { result ≤ length text.now }
        ensures clear { IsClear self.now text.now result }
    {
        match &self.needle {
            Some(needle) => needle.find(text),
            None => 0,
        }
    }

    /// Whether a line has a match, by sets of what is entered at each place. `words` is room for a set: a bit for each of
    /// twice as many numbers as the pattern has positions.
    pub fn search(&self, line: &[u8], words: &mut [u64]) -> Outcome
        requires { length words.old ≡ 2 * positions_of self.now / 64 + 1 }
        ensures size { length words.new ≡ length words.old }
        ensures outcome { IsOutcome (code_of self.now) line.now result }
        ensures order { IsOrdered self.now }
    {
        let code = &self.code;
        let width = code.len() / 64 + 1;
        search(&self.masks, &self.closures, code, line, &mut words[..width])
    }
}
