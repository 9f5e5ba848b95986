//! The first lines of a text, and what stands before the last ones.
ghost use Rattle.std.specs.Prelude.{◌≡◌, ◌<◌, ◌≤◌, ◌++◌, List, ℕ, length, take, true, false};
ghost use Rattle.seg_core.specs.Line.{after_lines, but_last_lines, first_lines};
ghost use Rattle.csplit_core.specs.Input.{newline};

use seg_core::line::{NEWLINE, next_line, reach};
use seg_core::line_back::{last_delimiter_off, reach_back};
use seg_core::line_reach::{Reach, ReachBack};

/// The first `lines` lines of a text, and what follows them. The first part is all of the text if it has no more
/// complete lines.
pub(crate) fn split_lines(text: &[u8], lines: u64) -> (&[u8], &[u8])
    ensures first { result.0.now ≡ first_lines newline lines text.now }
    ensures rest { result.1.now ≡ after_lines newline lines text.now }
    ensures shorter { length result.1.now ≤ length text.now }
{
    match reach(text, lines, NEWLINE) {
        Reach::Ends(end) => text.split_at(end),
        Reach::Short(_) => text.split_at(text.len()),
    }
}

/// What follows the first line of a text; the whole text if `skips` isn't set.
pub(crate) fn skip_line(skips: bool, text: &[u8]) -> &[u8]
    ensures first { skips ≡ true → result.now ≡ after_lines newline 1 text.now }
    ensures none { skips ≡ false → result.now ≡ text.now }
    ensures shorter { length result.now ≤ length text.now }
{
    if !skips {
        return text;
    }
    let (_, rest) = next_line(text, NEWLINE);
    rest
}

/// How many bytes stand before the last `lines` lines of a text.
pub(crate) fn before_last(text: &[u8], lines: u64) -> usize
    requires { 0 < length text.now }
    ensures within { result ≤ length text.now }
    ensures before { take result text.now ≡ but_last_lines newline lines text.now }
    ensures after { 0 < result → (held : List ℕ)
        → held ++ take result text.now ≡ but_last_lines newline lines (held ++ text.now) }
{
    if lines == 0 {
        return text.len();
    }
    match reach_back(last_delimiter_off(text, NEWLINE), lines, NEWLINE) {
        ReachBack::Begins(start) => start,
        ReachBack::Short(_) => 0,
    }
}
