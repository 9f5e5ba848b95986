//! Each call of the windows once, and windows over a long text beside a plain slow program.
ghost use Rattle.std.specs.Prelude.{◌≡◌, ◌+◌, ◌-◌, ◌++◌, length, drop, OnOk};
ghost use Rattle.seg_core.specs.inner.Lines.{last_lines};

use seg_core::byte_window::ByteWindow;
use seg_core::fault::Fault;
use seg_core::line::NEWLINE;
use seg_core::line_window::LineWindow;
use std::alloc::Global;
use std::process::Abort;

const LETTERS: &[u8; 26] = b"abcdefghijklmnopqrstuvwxyz";

// Drops what is over at the front, and puts a piece into the window.
pub(crate) fn keep_lines(window: &mut LineWindow, piece: &[u8]) -> Result<(), Fault>
    ensures { OnOk result (window.new.held ≡ last_lines window.old.delim window.old.most (window.old.held ++ piece.now)) }
{
    let over = window.over(piece);
    let held = window.len();
    if over <= held {
        window.drop_front(over);
        window.put(piece)
    } else {
        window.drop_front(held);
        let (_gone, rest) = piece.split_at((over - held) as usize);
        window.put(rest)
    }
}

pub(crate) fn keep_bytes(window: &mut ByteWindow, piece: &[u8]) -> Result<(), Fault>
    ensures { OnOk result (window.new.held ≡ drop ((length window.old.held + length piece.now) - window.old.most) (window.old.held ++ piece.now)) }
{
    let over = window.over(piece.len() as u64);
    let held = window.len();
    if over <= held {
        window.drop_front(over);
        window.put(piece)
    } else {
        window.drop_front(held);
        window.put(&piece[(over - held) as usize..])
    }
}

#[test]
fn keeps_bytes(rt: HostRuntime) {
    let mut window = ByteWindow::new(rt.alloc(), 4).expect(&rt, "room");
    assert!(rt; window.is_empty() && !window.grown());
    keep_bytes(&mut window, b"abcd").expect(&rt, "room");
    assert!(rt; window.grown() && window.over(3) == 3 && window.over(9) == 9);
    assert!(rt; window.front() == b"abcd".as_slice());
    assert!(rt; 2 <= window.len());
    window.drop_front(2);
    keep_bytes(&mut window, b"ef").expect(&rt, "room");
    assert!(rt; window.len() == 4);
    let mut out = [0; 6];
    assert!(rt; window.take_front(&mut out[..3]) == 3);
    assert!(rt; window.take_front(&mut out[3..]) == 1);
    assert!(rt; out == *b"cdef\0\0");
}

/// Puts pieces into a window of lines, and looks how many bytes it holds after each.
fn put_all(rt: &impl Abort, window: &mut LineWindow, pieces: &[(&str, u64)]) {
    for (piece, len) in pieces {
        keep_lines(window, piece.as_bytes()).expect(rt, "room");
        assert!(rt; window.len() == *len, "after {piece}");
    }
}

/// Whether this many bytes would be over with a piece.
fn is_over(window: &LineWindow, piece: &[u8], over: u64) -> bool {
    window.over(piece) == over
}

/// Whether it counts this many delimiters with a piece.
fn counts(window: &LineWindow, piece: &[u8], delimiters: usize) -> bool {
    window.count_over(piece).delimiters == Some(delimiters)
}

#[test]
fn keeps_lines(rt: HostRuntime) {
    let mut window = LineWindow::new(rt.alloc(), 2, NEWLINE).expect(&rt, "room");
    assert!(rt; window.is_empty());
    put_all(&rt, &mut window, PIECES);
    assert!(rt; is_over(&window, b"\n5\n", 2) && is_over(&window, b"\n5\n6", 4));
    assert!(rt; counts(&window, b"\n5\n", 2) && window.front() == b"3\n4".as_slice());
    assert!(rt; 1 <= window.len());
    window.drop_front(1);
    let mut out = [0; 4];
    assert!(rt; window.take_front(&mut out) == 2);
    assert!(rt; out == *b"\n4\0\0");
}

/// Pieces, and how many bytes the last two lines have after each.
const PIECES: &[(&str, u64)] = &[
    ("a", 1),
    ("b\nc", 4),
    ("\n", 5),
    ("d", 3),
    ("", 3),
    ("e\n\n", 4),
    ("1\n2\n3\n4", 3),
];

#[test]
fn keeps_lines_that_end_with_another_byte(rt: HostRuntime) {
    let mut window = LineWindow::new(rt.alloc(), 2, 0).expect(&rt, "room");
    put_all(&rt, &mut window, BY_ZERO);
    assert!(rt; is_over(&window, b"\n", 3) && counts(&window, b"\n\n\0", 1));
    assert!(rt; window.front() == b"d\n\0\0".as_slice());
}

/// The same where lines end with byte 0.
const BY_ZERO: &[(&str, u64)] = &[("a\n", 2), ("b\0c", 5), ("\0d\n", 4), ("\0\0", 4)];

// Lines of 0 to 99 bytes, but for one of 70,000 bytes in the middle. The last line is open. Where
// the delimiter is a letter, it stands within these lines too.
fn long_text(rt: &impl Abort, alloc: Global, delim: u8) -> Vec<u8> {
    let mut text: Vec<u8> = Vec::new(alloc);
    let mut state: u32 = 1;
    let mut left: u32 = 0;
    for i in 0..200_000 {
        if left == 0 {
            state = state.wrapping_mul(1_103_515_245).wrapping_add(12_345);
            left = (state >> 16) % 100;
            if i < 100_000 && 99_900 <= i {
                left = 70_000;
            }
            text.push(delim).expect(rt, "room");
        } else {
            left -= 1;
            text.push(LETTERS[i % LETTERS.len()]).expect(rt, "room");
        }
    }
    text
}

// Where the last lines begin, counted byte by byte.
fn slow_start(text: &[u8], lines: u64, delim: u8) -> usize {
    let mut delimiters: u64 = 0;
    for after in 0..text.len() {
        let at = text.len() - after;
        if text[at - 1] == delim && after != 0 || lines == 0 {
            delimiters = delimiters.saturating_add(1);
            if lines <= delimiters {
                return at;
            }
        }
    }
    0
}

fn same_lines(rt: &impl Abort, alloc: Global, text: &[u8], lines: u64, delim: u8, size: usize) {
    let mut window = LineWindow::new(alloc, lines, delim).expect(rt, "room");
    assert!(rt; 0 < size);
    for piece in text.chunks(size) {
        keep_lines(&mut window, piece).expect(rt, "room");
    }
    let mut at = slow_start(text, lines, delim);
    let mut out = [0; 1000];
    for _ in 0..201 {
        let count = window.take_front(&mut out);
        assert!(rt; at <= text.len() && count <= text.len() - at && count <= out.len());
        assert!(rt; out[..count] == text[at..at + count]);
        at += count;
    }
    assert!(rt; at == text.len());
}

fn keeps_lines_of_long_text(rt: &impl Abort, alloc: Global, delim: u8) {
    let text = long_text(rt, alloc, delim);
    let whole = text.as_slice();
    assert!(rt; 150_000 <= whole.len());
    let front = &whole[..150_000];
    for lines in [0, 1, 5, 1000, 1_000_000] {
        same_lines(rt, alloc, whole, lines, delim, 7);
        same_lines(rt, alloc, whole, lines, delim, 70_000);
        same_lines(rt, alloc, front, lines, delim, 70_000);
    }
    same_lines(rt, alloc, whole, 1000, delim, 1);
}

#[test]
fn keeps_lines_of_long_text_by_newline(rt: HostRuntime) {
    keeps_lines_of_long_text(&rt, rt.alloc(), NEWLINE);
}

#[test]
fn keeps_lines_of_long_text_by_zero(rt: HostRuntime) {
    keeps_lines_of_long_text(&rt, rt.alloc(), 0);
}

#[test]
fn keeps_lines_of_long_text_by_letter(rt: HostRuntime) {
    keeps_lines_of_long_text(&rt, rt.alloc(), b'e');
}

fn same_bytes(rt: &impl Abort, alloc: Global, text: &[u8], most: u64, size: usize) {
    let mut window = ByteWindow::new(alloc, most).expect(rt, "room");
    assert!(rt; 0 < size);
    for piece in text.chunks(size) {
        keep_bytes(&mut window, piece).expect(rt, "room");
    }
    let mut at = (text.len() as u64).saturating_sub(most) as usize;
    let mut out = [0; 1000];
    for _ in 0..201 {
        let count = window.take_front(&mut out);
        assert!(rt; at <= text.len() && count <= text.len() - at && count <= out.len());
        assert!(rt; out[..count] == text[at..at + count]);
        at += count;
    }
    assert!(rt; at == text.len());
}

#[test]
fn keeps_bytes_of_long_text(rt: HostRuntime) {
    let text = long_text(&rt, rt.alloc(), NEWLINE);
    for most in [0, 1, 65_536, 150_000, 1_000_000] {
        same_bytes(&rt, rt.alloc(), &text, most, 7);
        same_bytes(&rt, rt.alloc(), &text, most, 70_000);
    }
    same_bytes(&rt, rt.alloc(), &text, 150_000, 1);
}
