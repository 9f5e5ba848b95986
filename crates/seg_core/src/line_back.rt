//! The lines of a text, looked at from its end.
ghost use Rattle.std.specs.Prelude.{◌≡◌, ℕ, ◌+◌, ◌-◌, ◌<◌, ◌≤◌, List, ◌++◌, length, take, drop, IfSome, IfNone};
ghost use Rattle.seg_core.specs.Line.{LastEndsAt, ReachesBack, delimiters, line_count};

use crate::line::{RUN, STEP, count_delimiters};
use crate::line_reach::ReachBack;
use memchr::memrchr;

/// The text without its last byte, if that is `delim`. Each delimiter that is left then ends a line after which another line follows. It
/// takes no memory.
pub fn last_delimiter_off(text: &[u8], delim: u8) -> &[u8]
    requires { 0 < length text.now }
    ensures front { result.now ≡ take (length result.now) text.now }
    ensures count { (before : List ℕ)
        → line_count delim (before ++ text.now) ≡ delimiters delim before + delimiters delim result.now + 1 }
    ensures delimiters { delimiters delim text.now
        ≡ delimiters delim result.now + (length text.now - length result.now) }
    ensures shorter { length result.now ≤ length text.now }
{
    let last = text.len() - 1;
    if text[last] == delim {
        &text[..last]
    } else {
        text
    }
}

/// Where the last `delim` of `bytes` ends, if there is one. The complete lines stand before that place, and an open last line or nothing
/// stands after it. It takes no memory.
pub fn last_delimiter_end(bytes: &[u8], delim: u8) -> Option<usize>
    ensures some { IfSome result (λ end. LastEndsAt delim bytes.now end) }
    ensures none { IfNone result (delimiters delim bytes.now ≡ 0) }
{
    Some(memrchr(delim, bytes)? + 1)
}

/// Where the text after delimiter number `delimiters` of `bytes` begins, counted from the end. It looks at fewer than 4096 bytes before
/// that place, and takes no memory.
pub fn reach_back(bytes: &[u8], delimiters: u64, delim: u8) -> ReachBack
    requires { 0 < delimiters }
    ensures { ReachesBack delim delimiters bytes.now result }
{
    let (end, count) = skip_back(bytes, bytes.len(), 0, delimiters, RUN, delim);
    let (end, count) = skip_back(bytes, end, count, delimiters, STEP, delim);
    reach_back_from(bytes, end, count, delimiters, delim)
}

// Passes stretches of `width` bytes before `from`, after which there are `after` delimiters, as long
// as the wanted delimiter stands before them. Returns the place that it comes to, and how many
// delimiters there are after it.
fn skip_back(
    bytes: &[u8],
    from: usize,
    after: usize,
    wanted: u64,
    width: usize,
    delim: u8,
) -> (usize, usize)
    requires some { 0 < width }
    requires within { from ≤ length bytes.now }
    requires counted { after ≡ delimiters delim (drop from bytes.now) }
    requires fewer { after < wanted }
    ensures within { result.0 ≤ length bytes.now }
    ensures counted { result.1 ≡ delimiters delim (drop result.0 bytes.now) }
    ensures fewer { result.1 < wanted }
{
    let mut count = after;
    let mut end = from;
    while width <= end {
        let more = count + count_delimiters(&bytes[end - width..end], delim);
        if wanted <= more as u64 {
            return (end, count);
        }
        count = more;
        end -= width;
    }
    (end, count)
}

// As `reach_back`, before `end`, after which there are `count` delimiters. It goes byte by byte.
fn reach_back_from(bytes: &[u8], end: usize, count: usize, wanted: u64, delim: u8) -> ReachBack
    requires within { end ≤ length bytes.now }
    requires counted { count ≡ delimiters delim (drop end bytes.now) }
    requires fewer { count < wanted }
    ensures { ReachesBack delim wanted bytes.now result }
{
    let mut seen = count;
    let mut at = end;
    while 0 < at {
        // Added and not branched on, as in `reach_from`.
        seen += usize::from(bytes[at - 1] == delim);
        if seen as u64 == wanted {
            return ReachBack::Begins(at);
        }
        at -= 1;
    }
    ReachBack::Short(seen)
}
