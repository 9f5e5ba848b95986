//! What the next operand needs.
ghost use Rattle.std.specs.Prelude.{◌≡◌, [], drop, IfOk, IfErr, option_map};
ghost use Rattle.csplit_core.specs.{
  Cutter.{kept_next, most_next, next_of, pattern_next},
  inner.Cutter.past_next,
  Input.newline,
};

use crate::matcher::Matcher;
use crate::progress::past_last;
use crate::{Offset, Operand, Style, Target};
use ports_core::Fault;
use seg_core::line::NEWLINE;
use seg_core::line_window::LineWindow;
use std::alloc::Global;

/// The next operand, if one is left after this many were done.
pub(crate) fn next_operand(operands: &[Operand], done: usize) -> Option<&Operand>
    ensures { option_map (λ operand. operand.now) result ≡ next_of (drop done operands.now) }
{
    operands.get(done)
}

/// Whether the section that the next operand ends is kept. The rest after all operands is kept.
pub(crate) fn is_kept(next: Option<&Operand>) -> bool
    ensures { result ≡ kept_next (option_map (λ operand. operand.now) next.entry) }
{
    let Some(operand) = next else {
        return true;
    };
    match &operand.target {
        Target::Number(_) => true,
        Target::Search { is_kept, .. } => *is_kept,
    }
}

/// How many lines past the last one the cut of the next operand may stand.
pub(crate) fn past_next(style: &Style, next: Option<&Operand>) -> u64
    ensures { result ≡ past_next style.now (option_map (λ operand. operand.now) next.entry) }
{
    let Some(operand) = next else {
        return 0;
    };
    past_last(style, &operand.target)
}

/// What matching with the next operand's pattern needs, if it has a pattern.
///
/// # Errors
///
/// `Memory` if there is no room for it.
pub(crate) fn find_matcher<'o>(
    alloc: Global,
    next: Option<&'o Operand>,
) -> Result<Option<Matcher<'o>>, Fault>
    ensures ok { IfOk result (λ matcher. matcher ≡ pattern_next (option_map (λ operand. operand.now) next.entry)) }
    ensures err { IfErr result (λ fault. fault ≡ Fault.Memory) }
{
    let Some(operand) = next else {
        return Ok(None);
    };
    match &operand.target {
        Target::Number(_) => Ok(None),
        Target::Search { pattern, .. } => Ok(Some(Matcher::new(alloc, pattern)?)),
    }
}

/// Room for the lines that may wait for the next operand's cut, as many as its offset goes back.
///
/// # Errors
///
/// `Memory` if there is no room for these lines.
pub(crate) fn find_window(alloc: Global, next: Option<&Operand>) -> Result<LineWindow, Fault>
    ensures ok { IfOk result (λ window. window
        ≡ record { most = most_next (option_map (λ operand. operand.now) next.entry); delim = newline; held = [] }) }
    ensures err { IfErr result (λ fault. fault ≡ Fault.Memory) }
{
    match LineWindow::new(alloc, most_held(next), NEWLINE) {
        Ok(window) => Ok(window),
        Err(_) => Err(Fault::Memory),
    }
}

/// How many lines may wait for the next operand's cut.
fn most_held(next: Option<&Operand>) -> u64
    ensures { result ≡ most_next (option_map (λ operand. operand.now) next.entry) }
{
    let Some(operand) = next else {
        return 0;
    };
    match &operand.target {
        Target::Number(_) => 0,
        Target::Search { offset, .. } => match offset {
            Offset::Plus(_) => 0,
            Offset::Minus(lines) => *lines,
        },
    }
}
