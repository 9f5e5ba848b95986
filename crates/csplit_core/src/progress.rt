//! Where a run stands, and what its next operand does.
ghost use Rattle.std.specs.Prelude.{◌≡◌, ◌<◌, ◌≤◌, ◌-◌, ◌^◌, ◌∷◌, drop, min, List};
ghost use Rattle.csplit_core.specs.{
  Operand.{Line, has_more, moved},
  Plan.{line_after, past_last, search_line, state_after},
  inner.Cutter.{AreSeen, FallsAt, MovesOn, AgreesWithPlan},
  Progress.state_of,
};
ghost use Rattle.operand_core.specs.declared.operand.Operand.{Operand};

use crate::{Offset, Operand, Style, Target, Times};

/// Where an operand cuts: the line that the last pattern matched, and the line of the cut.
#[derive(Clone, Copy)]
pub struct CutPoint {
    /// The line that the last pattern matched, 0 if no pattern was performed.
    pub matched: u64,
    /// The line of the cut.
    pub line: u64,
}

/// What the next operand does.
#[derive(Clone, Copy)]
pub enum Attempt {
    /// No operand is left.
    UsedUp,
    /// The operand's pattern matches no line.
    Missed,
    /// The operand cuts further than it may. The line of the cut is the greatest number that there is if the cut is
    /// further than that.
    Above(CutPoint),
    /// The operand cuts below the current line.
    Below,
    /// The operand cuts here.
    Cuts(CutPoint),
}

/// Where a run stands after some steps.
#[derive(Clone, Copy)]
pub struct Progress {
    /// How many operands are done.
    pub done: usize,
    /// How often the next operand was performed.
    pub repetition: u64,
    /// The current line.
    pub current: u64,
    /// The line that the last pattern matched, 0 if no pattern was performed.
    pub matched: u64,
}

impl Progress {
    /// Where a run begins.
    pub fn start() -> Progress
        ensures { result ≡ record { done = 0; repetition = 0; current = 1; matched = 0 } }
    {
        Progress {
            done: 0,
            repetition: 0,
            current: 1,
            matched: 0,
        }
    }

    /// The line at which a search begins.
    pub fn search_line(&self, suppress: bool) -> u64
        requires current { self.now.current < 2 ^ 64 - 1 }
        requires matched { self.now.matched < 2 ^ 64 - 1 }
        ensures { (operands : List Operand) → result ≡ search_line suppress (state_of operands self.now) }
    {
        if suppress {
            self.current.saturating_sub(1).max(self.matched) + 1
        } else if self.current == 1 && self.matched == 0 {
            1
        } else {
            self.current.max(self.matched) + 1
        }
    }

    /// What the next operand does if there are `total` lines. `found` says whether the last line has its pattern. The
    /// lines before the last don't have it, from the beginning of its search on.
    pub fn attempt(&self, style: &Style, operands: &[Operand], total: u64, found: bool) -> Attempt
        requires current { self.now.current < 2 ^ 64 - 1 }
        requires matched { self.now.matched < 2 ^ 64 - 1 }
        requires repetition { self.now.repetition < 2 ^ 64 - 1 }
        requires few { total < 2 ^ 64 - 2 }
        ensures says { (lines : List Line)
            → AreSeen style.now.suppress lines total (state_of operands.now self.now) found
            → AgreesWithPlan style.now lines (state_of operands.now self.now) result }
        ensures moves { self.now.matched ≤ total → MovesOn style.now operands.now total self.now result }
    {
        let Some(operand) = operands.get(self.done) else {
            return Attempt::UsedUp;
        };
        let most = total + past_last(style, &operand.target);
        match &operand.target {
            Target::Number(number) => {
                let matched = self.matched;
                let line = number.saturating_mul(self.repetition + 1);
                fall(most, self.current, CutPoint { matched, line })
            }
            Target::Search { offset, .. } => {
                if total < self.search_line(style.suppress) {
                    return Attempt::Missed;
                }
                if !found {
                    return Attempt::Missed;
                }
                let matched = total;
                let line = line_at(*offset, total);
                fall(most, self.current, CutPoint { matched, line })
            }
        }
    }

    /// Goes on after a cut of this operand, which is the next one.
    pub fn pass(&mut self, suppress: bool, operand: &Operand, cut: CutPoint)
        requires cut { cut.line < 2 ^ 64 - 1 }
        requires repetition { self.old.repetition < 2 ^ 64 - 1 }
        requires done { self.old.done < 2 ^ 64 - 1 }
        ensures { (operands rest : List Operand) → drop self.old.done operands ≡ operand.now ∷ rest
            → state_of operands self.new ≡ state_after suppress operand.now rest self.old.repetition cut }
    {
        self.current = line_after(suppress, cut.line);
        self.matched = cut.matched;
        if has_more(operand.times, self.repetition) {
            self.repetition += 1;
            return;
        }
        self.done += 1;
        self.repetition = 0;
    }
}

/// The line at an offset from a line: the greatest number that there is if that line is further, and 0 if there are too
/// few lines before it.
fn line_at(offset: Offset, line: u64) -> u64
    ensures { result ≡ min (moved offset line) (2 ^ 64 - 1) }
{
    match offset {
        Offset::Plus(lines) => line.saturating_add(lines),
        Offset::Minus(lines) => line.saturating_sub(lines),
    }
}

/// Whether an operand is performed again after this repetition.
fn has_more(times: Times, repetition: u64) -> bool
    ensures { result ≡ has_more times repetition }
{
    match times {
        Times::Count(times) => repetition < times,
        Times::Endless => true,
    }
}

/// How many lines past the last one the cut of an operand may stand.
pub(crate) fn past_last(style: &Style, target: &Target) -> u64
    ensures { result ≡ past_last style.now target.now }
{
    match target {
        Target::Number(_) => 0,
        Target::Search { .. } => u64::from(style.one_past),
    }
}

/// Where a cut falls, if it may stand at the line `most` at most.
fn fall(most: u64, current: u64, cut: CutPoint) -> Attempt
    ensures { FallsAt most current cut result }
{
    if cut.line < current {
        Attempt::Below
    } else if most < cut.line {
        Attempt::Above(cut)
    } else {
        Attempt::Cuts(cut)
    }
}

/// The current line after a cut.
fn line_after(suppress: bool, cut: u64) -> u64
    requires { cut < 2 ^ 64 - 1 }
    ensures { result ≡ line_after suppress cut }
{
    if suppress { cut + 1 } else { cut }
}
