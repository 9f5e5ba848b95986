//! Cutting lines into sections as they come in: the lines that are settled go to the sections, and the others wait.
ghost use Rattle.std.specs.{
  Prelude.{◌≡◌, ◌≢◌, ◌⊎◌, ◌+◌, ◌-◌, ◌<◌, ◌≤◌, ◌^◌, ◌++◌, List, ℕ, [], length, drop, take, Some, None, IfOk, IfErr},
  Prelude.{IfSome, IfNone, OnOk, IsTrue, true, false},
};
ghost use Rattle.bre_core.specs.Pattern.{Pattern};
ghost use Rattle.ports_core.specs.Slot.{is_writable};
ghost use Rattle.engine_core.specs.{Swept.AreThere, InTurn.fault_in, FileWriter.{IsReady, size_of}};
ghost use Rattle.csplit_core.specs.{
  Csplit.verdict_of,
  Plan.{above, missed, CutPoint},
  Cutter.{IsFit, IsSound, load, seen},
  inner.Cutter.{Advances, AreClear, Clears, CutAt, CutsHeld, CutsShort, EndsAll, Extends, Judges, Opens, IsAimed},
  inner.Cutter.{IsFound, IsLine, IsNextFound, IsNextKnown, IsNoCut, IsWhole, IsWithin, Lacks, MayGoOn, PassesClear},
  inner.Cutter.{PassesCut, PassesOver, Settles, Spread, Starts, StopsAt, Takes, Tries, TriesNext, WillCut, WillSkip},
  inner.Cutter.{due, equipped, last_due, past_in},
  Input.{newline, without_newline},
};
ghost use Rattle.csplit_core.specs.declared.progress.Attempt.TheVariants as attempt_is;

use crate::files::{opening_of, writer_of};
use crate::holding::{drain, hold_last, write_front};
use crate::lines::{before_last, skip_line, split_lines};
use crate::matcher::{Matcher, text_of};
use crate::next_operand::{find_matcher, find_window, is_kept, next_operand, past_next};
use crate::progress::{Attempt, CutPoint, Progress};
use crate::{Operand, Style, Target, Times};
use engine_core::FileWriter;
use memchr::memchr;
use ports_core::{Fault, Outs, Verdict};
use seg_core::line::{NEWLINE, count_delimiters, next_line, reach};
use seg_core::line_reach::Reach;
use seg_core::line_window::LineWindow;
use std::alloc::Global;

/// How many bytes of lines were passed over.
#[derive(Clone, Copy)]
pub struct Passed {
    /// How many bytes these lines are.
    pub size: usize,
    /// How many bytes the next line is, with its newline, if the pattern that is searched for was found in it.
    pub found: Option<usize>,
}

/// The lines of a text that came in and wait, and what is known of the line after them.
#[derive(Clone, Copy)]
pub struct Stretch {
    /// Where these lines begin.
    pub from: usize,
    /// Where they end: all of the text before this place came in.
    pub end: usize,
    /// How many bytes the next line has. 0 if no line is left, or if lines go nowhere any more.
    pub next: usize,
    /// Whether the pattern that is searched for was found in the next line.
    pub is_found: bool,
}

/// The sections of the lines that came in, and where the run stands.
#[derive(Drop)]
pub struct LineCutter<'o> {
    alloc: Global,
    operands: &'o [Operand],
    style: Style,
    writer: FileWriter,
    progress: Progress,
    /// What the next operand did when it was last tried; never a cut.
    aim: Attempt,
    /// How many lines came in.
    lines: u64,
    /// The lines that wait.
    window: LineWindow,
    /// The pattern of the next operand, if it has one.
    matcher: Option<Matcher<'o>>,
}

impl<'o> LineCutter<'o> {
    /// A cutter to which no line came, and which has begun the first section.
    ///
    /// # Errors
    ///
    /// `Memory` if there is no room for what the first operand needs, or for a name; `Open` if the first section's file
    /// can't be opened.
    pub(crate) fn open<O: Outs>(
        alloc: Global,
        operands: &'o [Operand],
        style: Style,
        outs: &mut O,
    ) -> Result<LineCutter<'o>, Fault>
        requires streams { 2 ≤ length (O.slots outs.old) }
        requires output { IsTrue (is_writable (O.slots outs.old) 0) }
        ensures { Opens O.visible style operands.now (O.slots outs.old) (O.slots outs.new) result }
    {
        let next = next_operand(operands, 0);
        let matcher = find_matcher(alloc, next)?;
        let window = find_window(alloc, next)?;
        let mut writer = writer_of(alloc, &style)?;
        writer.begin(opening_of(&style, is_kept(next)), outs)?;
        let progress = Progress::start();
        let aim = progress.attempt(&style, operands, 0, false);
        Ok(LineCutter {
            alloc,
            operands,
            style,
            writer,
            progress,
            aim,
            lines: 0,
            window,
            matcher,
        })
    }

    /// How files are made.
    pub(crate) fn style(&self) -> &Style
        ensures { result.now ≡ self.now.style }
    {
        &self.style
    }

    /// How many bytes wait.
    pub(crate) fn held(&self) -> u64
        ensures { result ≡ length self.now.window.held }
    {
        self.window.len()
    }

    /// Ends the last section, which has all lines that wait.
    ///
    /// # Errors
    ///
    /// The errors of `take`.
    pub(crate) fn end<O: Outs>(&mut self, outs: &mut O) -> Result<(), Fault>
        requires fits { load (seen self.old) < 2 ^ 63 }
        requires sound { IsSound (seen self.old) }
        requires ready { IsReady (seen self.old).writer (O.slots outs.old) }
        ensures { EndsAll O.visible (seen self.old) (O.slots outs.old) (O.slots outs.new) (seen self.new)
            (fault_in result) }
    {
        let held = self.window.len();
        write_front(&mut self.window, held, &mut self.writer, outs)?;
        self.writer.end(outs)
    }

    /// The verdict with which the work ends if the input ends here. None if it ends well.
    pub(crate) fn verdict(&self) -> Option<Verdict>
        ensures { Judges (seen self.now) result }
    {
        let operand = self.operands.get(self.progress.done)?;
        let repetition = self.progress.repetition;
        match self.aim {
            Attempt::Missed => verdict_of_miss(operand, repetition),
            Attempt::Above(_) => verdict_of_range(operand, repetition),
            Attempt::Below => Some(Verdict::Range(operand.index, repetition)),
            Attempt::UsedUp | Attempt::Cuts(_) => None,
        }
    }

    /// Removes all files that are still there, in order. A file that can't be removed is broken and closed, and the
    /// next is tried.
    pub(crate) fn clear<O: Outs>(&mut self, outs: &mut O)
        requires { AreThere (seen self.old).writer.files (O.slots outs.old) }
        ensures { Clears (seen self.old) (O.slots outs.old) (O.slots outs.new) (seen self.new) }
    {
        self.writer.clear(outs);
    }

    /// Takes in a text of complete lines.
    ///
    /// # Errors
    ///
    /// `Write` if an output broke; `Open` if a section's file can't be opened; `Memory` if there is no room for lines
    /// that wait, for a name, or for what the next pattern needs.
    pub(crate) fn take<O: Outs>(&mut self, text: &[u8], outs: &mut O) -> Result<(), Fault>
        requires whole { IsWhole text.now }
        requires fits { load (seen self.old) + length text.now < 2 ^ 63 }
        requires sound { IsSound (seen self.old) }
        requires ready { IsReady (seen self.old).writer (O.slots outs.old) }
        ensures { Takes O.visible (seen self.old) text.now (O.slots outs.old) (O.slots outs.new) (seen self.new)
            (fault_in result) }
    {
        let next = self.next_size(text, None);
        self.take_lines(text, next, outs)
    }

    /// Takes in one line, which may lack its newline.
    ///
    /// # Errors
    ///
    /// Those of `take`.
    pub(crate) fn take_line<O: Outs>(&mut self, line: &[u8], outs: &mut O) -> Result<(), Fault>
        requires line { IsLine line.now }
        requires fits { load (seen self.old) + length line.now < 2 ^ 63 }
        requires sound { IsSound (seen self.old) }
        requires ready { IsReady (seen self.old).writer (O.slots outs.old) }
        ensures { Takes O.visible (seen self.old) line.now (O.slots outs.old) (O.slots outs.new) (seen self.new)
            (fault_in result) }
    {
        self.take_lines(line, line.len(), outs)
    }

    /// Takes in a text, whose first line has `next` bytes. `next` is 0 if the text has no line, or if lines go nowhere
    /// any more. Lines of the text wait in the text itself until it ends.
    fn take_lines<O: Outs>(&mut self, text: &[u8], next: usize, outs: &mut O) -> Result<(), Fault>
        requires start { 0 < next → Starts text.now next }
        requires none { next ≡ 0 → (self.old.aim ≡ attempt_is.Below) ⊎ (text.now ≡ []) }
        requires fits { load (seen self.old) + length text.now < 2 ^ 63 }
        requires sound { IsSound (seen self.old) }
        requires ready { IsReady (seen self.old).writer (O.slots outs.old) }
        ensures { Takes O.visible (seen self.old) text.now (O.slots outs.old) (O.slots outs.new) (seen self.new)
            (fault_in result) }
    {
        if self.is_past() {
            return Ok(());
        }
        let mut stretch = Stretch {
            from: 0,
            end: 0,
            next,
            is_found: false,
        };
        'stretches: while stretch.next > 0 {
            stretch = self.take_next(text, stretch, outs)?;
        }
        self.hold(&text[stretch.from..stretch.end], outs)
    }

    /// Whether no line goes anywhere any more, since the last cut is below the current line.
    pub(crate) fn is_past(&self) -> bool
        ensures past { result ≡ true → self.now.aim ≡ attempt_is.Below }
        ensures live { result ≡ false → self.now.aim ≢ attempt_is.Below }
    {
        matches!(self.aim, Attempt::Below)
    }

    /// Writes what is settled of the lines that wait and of the lines after them, and keeps the others. Keeps none if
    /// lines go nowhere any more.
    fn hold<O: Outs>(&mut self, text: &[u8], outs: &mut O) -> Result<(), Fault>
        requires fits { size_of self.old.writer.current + length self.old.window.held + length text.now < 2 ^ 63 }
        requires fit { IsFit (seen self.old) }
        requires ready { IsReady (seen self.old).writer (O.slots outs.old) }
        ensures { Settles O.visible (seen self.old) text.now (O.slots outs.old) (O.slots outs.new) (seen self.new)
            (fault_in result) }
    {
        if self.is_past() {
            self.window.drop_front(self.window.len());
            return Ok(());
        }
        hold_last(&mut self.window, text, &mut self.writer, outs)
    }

    /// Takes in the next line of a text and the lines after it that the next operand doesn't cut. The next line may
    /// lack its newline if it is the last. Returns the stretch of the text whose lines wait then.
    fn take_next<O: Outs>(
        &mut self,
        text: &[u8],
        stretch: Stretch,
        outs: &mut O,
    ) -> Result<Stretch, Fault>
        requires within { IsWithin text.now stretch }
        requires start { Starts (drop stretch.end text.now) stretch.next }
        requires found { IsNextKnown (seen self.old) text.now stretch }
        requires lines { self.old.lines + (length text.now - stretch.end) < 2 ^ 63 }
        requires fits { size_of self.old.writer.current + length self.old.window.held
            + (length text.now - stretch.from) < 2 ^ 63 }
        requires sound { IsSound (seen self.old) }
        requires live { self.old.aim ≢ attempt_is.Below }
        requires ready { IsReady (seen self.old).writer (O.slots outs.old) }
        ensures { Advances O.visible (seen self.old) text.now stretch (O.slots outs.old) (O.slots outs.new)
            (seen self.new) result }
    {
        let end = stretch.end + stretch.next;
        let from = self.first_waiting(stretch.from, end);
        let line = &text[stretch.end..end];
        let Some(cut) = self.try_line(line, stretch.is_found) else {
            return Ok(self.pass_on(text, from, end));
        };
        let waiting = &text[stretch.from..end];
        let place = before_last(waiting, (self.lines + 1).saturating_sub(cut.line));
        if place == 0 {
            self.cut_held(cut, waiting, line, outs)?;
            return Ok(self.pass_on(text, end, end));
        }
        let (before, rest) = waiting.split_at(place);
        let left = self.cut_often(cut, before, rest, line, outs)?;
        Ok(self.pass_on(text, end - left.len(), end))
    }

    /// Passes over the lines of a text from `end` on, as far as the next operand stands as it does now. The lines
    /// before them wait from `from` on.
    fn pass_on(&mut self, text: &[u8], from: usize, end: usize) -> Stretch
        requires place { MayGoOn text.now from end }
        requires lines { self.old.lines + (length text.now - end) < 2 ^ 63 }
        requires sound { IsSound (seen self.old) }
        ensures { Extends (seen self.old) text.now from end (seen self.new) result }
    {
        let passed = self.pass_over(&text[end..]);
        let end = end + passed.size;
        let next = self.next_size(&text[end..], passed.found);
        Stretch {
            from,
            end,
            next,
            is_found: passed.found.is_some(),
        }
    }

    /// How many bytes the first line has, of a text of complete lines. It is `found`, if that is known. 0 if the text
    /// is empty, or if lines go nowhere any more.
    fn next_size(&self, text: &[u8], found: Option<usize>) -> usize
        requires whole { IsWhole text.now }
        requires found { IfSome found (IsNextFound (seen self.now) text.now) }
        ensures some { 0 < result → (self.now.aim ≢ attempt_is.Below) × Starts text.now result }
        ensures none { result ≡ 0 → (self.now.aim ≡ attempt_is.Below) ⊎ (text.now ≡ []) }
        ensures known { (size : ℕ) → found ≡ Some size → result ≡ size }
    {
        if self.is_past() {
            return 0;
        }
        match found {
            Some(size) => size,
            None => {
                let (line, _) = next_line(text, NEWLINE);
                line.len()
            }
        }
    }

    /// Where the lines that wait begin once the next line came, which ends at `end`. Before, they began at `from`. If
    /// the next line is left out, no line waits.
    fn first_waiting(&self, from: usize, end: usize) -> usize
        requires { self.now.lines < 2 ^ 64 - 1 }
        ensures all { WillSkip (seen self.now) → result ≡ end }
        ensures none { (WillSkip (seen self.now) → ⊥) → result ≡ from }
        ensures within { from ≤ end → result ≤ end }
    {
        if self.will_skip() { end } else { from }
    }

    /// Whether the next line is left out, since the last cut stands there.
    fn will_skip(&self) -> bool
        requires { self.now.lines < 2 ^ 64 - 1 }
        ensures yes { result ≡ true → WillSkip (seen self.now) }
        ensures no { result ≡ false → WillSkip (seen self.now) → ⊥ }
    {
        self.lines + 1 < self.progress.current
    }

    /// Counts the lines at the beginning of a text of complete lines after which the next operand stands as it does
    /// now.
    fn pass_over(&mut self, text: &[u8]) -> Passed
        requires whole { IsWhole text.now }
        requires fits { self.old.lines + length text.now < 2 ^ 63 }
        requires sound { IsSound (seen self.old) }
        ensures { StopsAt (seen self.old) text.now (seen self.new) result }
    {
        if self.will_skip() {
            return unfound(0);
        }
        match self.aim {
            Attempt::Above(cut) => unfound(self.pass_below(cut, text)),
            Attempt::Missed => self.pass_unmatched(text),
            Attempt::UsedUp => {
                self.lines += count_delimiters(text, NEWLINE) as u64;
                unfound(text.len())
            }
            Attempt::Below | Attempt::Cuts(_) => unfound(0),
        }
    }

    /// Counts the lines of a text before the line that the next operand needs for this cut.
    fn pass_below(&mut self, cut: CutPoint, text: &[u8]) -> usize
        requires whole { IsWhole text.now }
        requires fits { self.old.lines + length text.now < 2 ^ 63 }
        requires sound { IsSound (seen self.old) }
        requires aim { self.old.aim ≡ attempt_is.Above cut }
        requires near { WillSkip (seen self.old) → ⊥ }
        ensures { PassesOver (seen self.old) text.now (seen self.new) result }
    {
        let last = cut.line - self.past_last() - 1;
        let count = match reach(text, last - self.lines, NEWLINE) {
            Reach::Ends(end) => {
                self.lines = last;
                return end;
            }
            Reach::Short(count) => count,
        };
        self.lines += count as u64;
        text.len()
    }

    /// How many lines past the last one the cut of the next operand may stand.
    fn past_last(&self) -> u64
        ensures { result ≡ past_in (seen self.now) }
    {
        past_next(&self.style, next_operand(self.operands, self.progress.done))
    }

    /// Counts the lines of a text before the first line that has the pattern that is searched for.
    fn pass_unmatched(&mut self, text: &[u8]) -> Passed
        requires whole { IsWhole text.now }
        requires fits { self.old.lines + length text.now < 2 ^ 63 }
        requires sound { IsSound (seen self.old) }
        requires aim { self.old.aim ≡ attempt_is.Missed }
        requires near { WillSkip (seen self.old) → ⊥ }
        ensures { StopsAt (seen self.old) text.now (seen self.new) result }
    {
        let clear = self.pass_clear(text);
        let mut left = &text[clear..];
        while let Some(end) = memchr(NEWLINE, left) {
            if self.is_match(&left[..end], self.lines + 1) {
                return Passed {
                    size: text.len() - left.len(),
                    found: Some(end + 1),
                };
            }
            self.lines += 1;
            left = &left[end + 1..];
            let clear = self.pass_clear(left);
            left = &left[clear..];
        }
        unfound(text.len() - left.len())
    }

    /// Counts lines at the beginning of a text of complete lines that are known to have no match without matching them.
    /// Returns how many bytes these lines are.
    fn pass_clear(&mut self, text: &[u8]) -> usize
        requires whole { IsWhole text.now }
        requires fits { self.old.lines + length text.now < 2 ^ 64 }
        ensures { PassesClear (seen self.old) text.now (seen self.new) result }
    {
        let size = self.clear_lines(text);
        self.lines += count_delimiters(&text[..size], NEWLINE) as u64;
        size
    }

    /// How many bytes at the beginning of a text of complete lines are lines that are known to have no match without
    /// matching them.
    fn clear_lines(&mut self, text: &[u8]) -> usize
        requires whole { IsWhole text.now }
        ensures within { result ≤ length text.now }
        ensures whole { IsWhole (take result text.now) }
        ensures clear { (pattern : Pattern) → (seen self.old).sought ≡ Some pattern
            → AreClear pattern (take result text.now) }
        ensures same { seen self.new ≡ seen self.old }
    {
        match &mut self.matcher {
            Some(matcher) => matcher.clear_lines(text),
            None => 0,
        }
    }

    /// Counts one more line, and tries the next operand with it. `is_found` says that the pattern that is searched for
    /// was found in this line. Returns the operand's cut, if it makes one.
    fn try_line(&mut self, line: &[u8], is_found: bool) -> Option<CutPoint>
        requires line { IsLine line.now }
        requires found { is_found ≡ true
            → IsFound (seen self.old) (without_newline line.now) (self.old.lines + 1) true }
        requires few { self.old.lines < 2 ^ 63 }
        requires sound { IsSound (seen self.old) }
        requires live { self.old.aim ≢ attempt_is.Below }
        ensures same { seen self.new ≡ record (seen self.old) { lines = self.old.lines + 1; aim = self.new.aim } }
        ensures fit { IsFit (seen self.new) }
        ensures aim { IfNone result (IsAimed (seen self.new)) }
        ensures cuts { IfSome result (WillCut (seen self.new)) }
        ensures tries { TriesNext (seen self.old) line.now (seen self.new) result }
    {
        self.lines += 1;
        match self.aim {
            Attempt::Above(cut) => {
                if self.lines + self.past_last() < cut.line {
                    return None;
                }
                Some(cut)
            }
            Attempt::Missed => self.try_last(line, is_found),
            Attempt::UsedUp => None,
            Attempt::Below | Attempt::Cuts(_) => None,
        }
    }

    /// Tries the next operand with the last line that came in; no line before it is to be looked at. `is_found` says
    /// that the operand's pattern was found in this line. Returns the operand's cut, if it makes one.
    fn try_last(&mut self, line: &[u8], is_found: bool) -> Option<CutPoint>
        requires line { IsLine line.now }
        requires found { is_found ≡ true → IsFound (seen self.old) (without_newline line.now) self.old.lines true }
        requires few { self.old.lines ≤ 2 ^ 63 }
        requires fit { IsFit (seen self.old) }
        ensures same { seen self.new ≡ record (seen self.old) { aim = self.new.aim } }
        ensures aim { IfNone result (IsAimed (seen self.new)) }
        ensures cuts { IfSome result (WillCut (seen self.old)) }
        ensures tries { Tries (seen self.old) line.now (seen self.new) result }
    {
        if is_found {
            return self.attempt_last(true);
        }
        let found = self.is_match(text_of(line), self.lines);
        self.attempt_last(found)
    }

    /// Tries the next operand with the last line that came in. `found` says whether this line has the operand's
    /// pattern. Returns the operand's cut, if it makes one.
    fn attempt_last(&mut self, found: bool) -> Option<CutPoint>
        requires few { self.old.lines ≤ 2 ^ 63 }
        requires fit { IsFit (seen self.old) }
        ensures same { seen self.new ≡ record (seen self.old) { aim = self.new.aim } }
        ensures aim { IfNone result (IsAimed (seen self.new)) }
        ensures cuts { IfSome result (WillCut (seen self.old)) }
        ensures tries { (line : List ℕ) → IsFound (seen self.old) (without_newline line) self.old.lines found
            → Tries (seen self.old) line (seen self.new) result }
    {
        let attempt = self
            .progress
            .attempt(&self.style, self.operands, self.lines, found);
        match cut_of(attempt) {
            Some(cut) => Some(cut),
            None => {
                self.aim = attempt;
                None
            }
        }
    }

    /// Whether a line has the pattern that is searched for, if the search reaches the line of this number. The text is
    /// the line without its newline.
    fn is_match(&mut self, text: &[u8], line: u64) -> bool
        requires current { self.old.progress.current < 2 ^ 64 - 1 }
        requires matched { self.old.progress.matched < 2 ^ 64 - 1 }
        ensures same { seen self.new ≡ seen self.old }
        ensures found { IsFound (seen self.old) text.now line result }
    {
        if line < self.progress.search_line(self.style().suppress) {
            return false;
        }
        match &mut self.matcher {
            Some(matcher) => matcher.matches(text),
            None => false,
        }
    }

    /// Cuts the lines that wait and a text after them if the cut stands before the text's second line. The last line of
    /// the text is `line`. Then of these lines those are held that still wait.
    fn cut_held<O: Outs>(
        &mut self,
        cut: CutPoint,
        text: &[u8],
        line: &[u8],
        outs: &mut O,
    ) -> Result<(), Fault>
        requires line { IsLine line.now }
        requires some { 0 < length text.now }
        requires few { self.old.lines ≤ 2 ^ 63 }
        requires fits { size_of self.old.writer.current + length self.old.window.held + length text.now < 2 ^ 63 }
        requires fit { IsFit (seen self.old) }
        requires cuts { WillCut (seen self.old) cut }
        requires ready { IsReady (seen self.old).writer (O.slots outs.old) }
        ensures { CutsHeld O.visible (last_due (seen self.old) cut (self.old.window.held ++ text.now) line.now)
            (O.slots outs.old) (O.slots outs.new) (seen self.new) (fault_in result) }
    {
        let all = drain(self.alloc, &mut self.window, text)?;
        let place = before_last(&all, (self.lines + 1).saturating_sub(cut.line));
        let (before, rest) = all.split_at(place);
        let left = self.cut_often(cut, before, rest, line, outs)?;
        if self.is_past() {
            return Ok(());
        }
        hold_last(&mut self.window, left, &mut self.writer, outs)
    }

    /// Cuts the last lines that came in as often as operands cut them. The lines that wait and those of `before` stand
    /// before the first cut, and those of `rest` after it. The last line is `line`. Returns the lines that are left,
    /// which aren't held yet.
    fn cut_often<'l, O: Outs>(
        &mut self,
        cut: CutPoint,
        before: &[u8],
        rest: &'l [u8],
        line: &[u8],
        outs: &mut O,
    ) -> Result<&'l [u8], Fault>
        requires line { IsLine line.now }
        requires few { self.old.lines ≤ 2 ^ 63 }
        requires fits { size_of self.old.writer.current + length self.old.window.held + length before.now
            + length rest.now < 2 ^ 63 }
        requires fit { IsFit (seen self.old) }
        requires cuts { WillCut (seen self.old) cut }
        requires ready { IsReady (seen self.old).writer (O.slots outs.old) }
        ensures ok { IfOk result (λ left. Spread O.visible
            (due (seen self.old) cut (self.old.window.held ++ before.now) rest.now line.now)
            (O.slots outs.old) (O.slots outs.new) (seen self.new) left.now) }
        ensures err { IfErr result (λ fault. CutsShort O.visible
            (due (seen self.old) cut (self.old.window.held ++ before.now) rest.now line.now)
            (O.slots outs.old) (O.slots outs.new) (seen self.new) fault) }
    {
        let mut left = self.cut_at(cut, before, rest, outs)?;
        while let Some(cut) = self.try_last(line, false) {
            let current = self.progress.current;
            let (before, rest) = split_lines(left, cut.line.saturating_sub(current));
            left = self.cut_at(cut, before, rest, outs)?;
        }
        Ok(left)
    }

    /// Ends the open section with the lines that wait and those of `before`, and begins the next section. Returns what
    /// is left of `rest`, the lines from the cut on.
    fn cut_at<'l, O: Outs>(
        &mut self,
        cut: CutPoint,
        before: &[u8],
        rest: &'l [u8],
        outs: &mut O,
    ) -> Result<&'l [u8], Fault>
        requires few { self.old.lines ≤ 2 ^ 63 }
        requires fits { size_of self.old.writer.current + length self.old.window.held + length before.now
            + length rest.now < 2 ^ 63 }
        requires fit { IsFit (seen self.old) }
        requires cuts { WillCut (seen self.old) cut }
        requires ready { IsReady (seen self.old).writer (O.slots outs.old) }
        ensures ok { IfOk result (λ left. (line : List ℕ) → CutAt O.visible
            (due (seen self.old) cut (self.old.window.held ++ before.now) rest.now line)
            (O.slots outs.old) (O.slots outs.new) (seen self.new) left.now) }
        ensures err { IfErr result (λ fault. (line : List ℕ) → CutsShort O.visible
            (due (seen self.old) cut (self.old.window.held ++ before.now) rest.now line)
            (O.slots outs.old) (O.slots outs.new) (seen self.new) fault) }
    {
        let waiting = self.window.len();
        write_front(&mut self.window, waiting, &mut self.writer, outs)?;
        self.writer.put(before, outs)?;
        self.pass(cut)?;
        let is_kept = is_kept(next_operand(self.operands, self.progress.done));
        let style = self.style();
        let (opening, suppress) = (opening_of(style, is_kept), style.suppress);
        self.writer.next(opening, outs)?;
        Ok(skip_line(suppress, rest))
    }

    /// Goes on after a cut of the next operand. No line waits.
    fn pass(&mut self, cut: CutPoint) -> Result<(), Fault>
        requires few { self.old.lines ≤ 2 ^ 63 }
        requires fit { IsFit (seen self.old) }
        requires none { self.old.window.held ≡ [] }
        requires cuts { WillCut (seen self.old) cut }
        ensures { PassesCut (seen self.old) cut (seen self.new) (fault_in result) }
    {
        let done = self.progress.done;
        let suppress = self.style().suppress;
        let operands = self.operands;
        self.progress.pass(suppress, &operands[done], cut);
        if self.progress.done == done {
            return Ok(());
        }
        self.equip()
    }

    /// Gets what the next operand needs.
    fn equip(&mut self) -> Result<(), Fault>
        ensures same { OnOk result (seen self.new ≡ equipped (seen self.old)) }
        ensures err { IfErr result (Lacks (seen self.old) (seen self.new)) }
    {
        let next = next_operand(self.operands, self.progress.done);
        self.matcher = find_matcher(self.alloc, next)?;
        self.window = find_window(self.alloc, next)?;
        Ok(())
    }
}

/// Lines that were passed over, and no match was found after them.
fn unfound(size: usize) -> Passed
    ensures size { result.size ≡ size }
    ensures found { result.found ≡ None }
{
    Passed { size, found: None }
}

/// The verdict if an operand's pattern matches no line. None if the work ends well then.
fn verdict_of_miss(operand: &Operand, repetition: u64) -> Option<Verdict>
    ensures { result ≡ verdict_of (missed operand.now repetition) }
{
    match operand.times {
        Times::Endless => None,
        Times::Count(_) => Some(Verdict::NoMatch(operand.index, repetition)),
    }
}

/// The verdict if an operand's cut is above the last line. None if the work ends well then.
fn verdict_of_range(operand: &Operand, repetition: u64) -> Option<Verdict>
    ensures { (cut : CutPoint) → result ≡ verdict_of (above operand.now repetition cut) }
{
    match (&operand.times, &operand.target) {
        (Times::Endless, Target::Number(_)) => None,
        (Times::Endless, Target::Search { .. }) => Some(Verdict::Range(operand.index, repetition)),
        (Times::Count(_), _) => Some(Verdict::Range(operand.index, repetition)),
    }
}

/// The cut of an attempt, if it is a cut.
fn cut_of(attempt: Attempt) -> Option<CutPoint>
    ensures some { IfSome result (λ cut. attempt ≡ attempt_is.Cuts cut) }
    ensures none { IfNone result (IsNoCut attempt) }
{
    match attempt {
        Attempt::Cuts(cut) => Some(cut),
        Attempt::UsedUp => None,
        Attempt::Missed => None,
        Attempt::Above(_) => None,
        Attempt::Below => None,
    }
}
