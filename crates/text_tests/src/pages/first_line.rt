ghost use Rattle.std.specs.Prelude.{◌≡◌, ◌++◌};
ghost use Rattle.seg_core.specs.Line.{delimiters};

use seg_core::line::{NEWLINE, count_delimiters, next_line};

/// The first line of a text, the rest, and how many lines of the rest end with a newline.
pub(crate) fn first_line(text: &[u8]) -> (&[u8], &[u8], usize)
    ensures joined { text.now ≡ result.0.now ++ result.1.now }
    ensures count { result.2 ≡ delimiters 10 result.1.now }
{
    let (line, rest) = next_line(text, NEWLINE);
    (line, rest, count_delimiters(rest, NEWLINE))
}
