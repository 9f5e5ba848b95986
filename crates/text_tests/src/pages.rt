//! The callers on the pages of `seg_core`, `bre_core`, `plain_core` and `scan_core`: `tests/documents` compares them with the pages.
mod count_positions;
mod first_line;
mod has_match;
mod two_lines;

use count_positions::count_positions;
use first_line::first_line;
use has_match::has_match;
use scan_core::Bre;
use two_lines::which_match;

#[test]
fn takes_a_line(rt: HostRuntime) {
    let (line, rest, count) = first_line(b"a\nb\nc\nd");
    assert_eq!(rt; line, b"a\n".as_slice());
    assert_eq!(rt; rest, b"b\nc\nd".as_slice());
    assert_eq!(rt; count, 2);
}

#[test]
fn counts_positions(rt: HostRuntime) {
    assert_eq!(rt; count_positions(rt.alloc(), b"ab*"), Ok(4));
}

#[test]
fn finds_a_match(rt: HostRuntime) {
    assert_eq!(rt; has_match(rt.alloc(), b"^a.c$", b"abc"), Ok(true));
}

#[test]
fn matches_two_lines(rt: HostRuntime) {
    let bre = Bre::read(rt.alloc(), b"b*c").expect(&rt, "the pattern reads");
    assert_eq!(rt;
        which_match(rt.alloc(), &bre, b"abc", b"ab"),
        Ok((true, false))
    );
}
