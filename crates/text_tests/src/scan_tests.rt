//! Rows of steps, patterns at the limits, and the matcher beside the plain one.

use crate::parts::{Part, joined};
use plain_core::matches_plain;
use scan_core::{Bre, BreFault, Outcome, Scan};
use std::alloc::Global;
use std::process::Abort;

fn read(rt: &impl Abort, alloc: Global, pattern: &[u8]) -> Bre {
    Bre::read(alloc, pattern).expect(rt, "the pattern reads")
}

/// Whether the line matches, and the steps.
fn search(rt: &impl Abort, alloc: Global, pattern: &[u8], line: &[u8]) -> (bool, u128) {
    let bre = read(rt, alloc, pattern);
    let mut scan = Scan::new(alloc, &bre).expect(rt, "there is memory");
    let found = scan.matches(&bre, line);
    (found, scan.steps())
}

/// A pattern, a line that doesn't match, and the steps.
const STEPS: [(&[u8], &[u8], u128); 6] = [
    (b"a", b"bbb", 4),
    (b"a*b", b"aac", 12),
    (b"^a", b"bbb", 5),
    (b"a$", b"ab", 4),
    (b"\\(ab\\)\\{2\\}", b"aba", 8),
    (b"a\\{0,1\\}b", b"c", 6),
];

#[test]
fn steps_are_counted(rt: HostRuntime) {
    for (pattern, line, want) in &STEPS {
        let is_so = search(&rt, rt.alloc(), pattern, line) == (false, *want);
        assert!(rt; is_so, "{pattern:?} in {line:?}");
    }
}

/// A pattern, a line that matches, and the steps of all places before the one at which its end is first entered: at least these are
/// taken. The second line is longer than what is gone over at once. The pattern with `.` has a table of too many sets for words, and
/// the last one has none.
const FOUND: [(&[u8], &[u8], u128); 8] = [
    (b"a", b"bbba", 4),
    (b"a", b"bbbabbbbbbbbbbbbbbbbbbb", 4),
    (b"a*b", b"aacb", 12),
    (b"\\(ab\\)\\{2\\}", b"abaabab", 15),
    (b"a.\\{4\\}c", b"aaaaaaaac", 39),
    (b"a\\{0,1\\}b", b"ccb", 9),
    (b"^a", b"a", 2),
    (b"a\\{0,100\\}\\{0,100\\}b", b"cb", 602),
];

/// Where the line matches, steps were taken too, by each way to match: the table kept as words, the table, and the sets.
#[test]
fn steps_are_counted_where_the_line_matches(rt: HostRuntime) {
    for (pattern, line, least) in &FOUND {
        let (found, steps) = search(&rt, rt.alloc(), pattern, line);
        let by_sets = steps_by_sets(&rt, rt.alloc(), pattern, line);
        assert!(rt;
            found && steps >= *least && by_sets >= *least,
            "{pattern:?} in {line:?}: {steps}, by sets {by_sets}"
        );
    }
}

fn steps_by_sets(rt: &impl Abort, alloc: Global, pattern: &[u8], line: &[u8]) -> u128 {
    let bre = read(rt, alloc, pattern);
    let size = 2 * bre.positions() as usize / 64 + 1;
    let mut words = vec![in alloc; 0u64; size].expect(rt, "there is memory");
    bre.search(line, &mut words).steps
}

#[test]
fn no_search_no_steps(rt: HostRuntime) {
    let bre = read(&rt, rt.alloc(), b"a");
    let scan = Scan::new(rt.alloc(), &bre).expect(&rt, "there is memory");
    assert_eq!(rt; scan.steps(), 0);
}

/// The parts of a pattern, how many positions it has, if it isn't too large, and lines, with whether they match.
type Large<'a> = (&'a [Part<'a>], Option<u64>, &'a [(&'a [u8], bool)]);

#[test]
fn large_patterns(rt: HostRuntime) {
    for (number, row) in LARGE.iter().enumerate() {
        let pattern = joined(&rt, rt.alloc(), row.0);
        assert!(rt;
            is_as_large(&rt, rt.alloc(), &pattern, row),
            "in row {number}"
        );
    }
}

const LARGE: &[Large<'static>] = &[
    // Many stars over one byte.
    (&[(b"a", 1), (b"*", 65_533)], Some(65_535), &[(b"b", true)]),
    (&[(b"a", 1), (b"*", 65_534)], None, &[]),
    // Nested groups.
    (
        &[(b"\\(", 255), (b"a", 1), (b"\\)", 255)],
        Some(2),
        &[(b"a", true)],
    ),
    (&[(b"\\(", 256), (b"a", 1), (b"\\)", 255)], None, &[]),
    // As many positions as may be.
    (
        &[(b"a\\{255\\}\\{255\\}", 1)],
        Some(65_026),
        &[(&[b'a'; 255], false)],
    ),
    // A group that stands no time.
    (
        &[
            (b"x\\(\\(a*b\\)\\{3\\}", 1),
            (b"\\{255\\}", 1000),
            (b"\\)\\{0\\}*y", 1),
        ],
        Some(4),
        &[(b"axyb", true), (b"xay", false)],
    ),
];

fn is_as_large(rt: &impl Abort, alloc: Global, pattern: &[u8], row: &Large<'_>) -> bool {
    match Bre::read(alloc, pattern) {
        Ok(bre) => row.1 == Some(bre.positions()) && matches_all(rt, alloc, &bre, row.2),
        Err(fault) => row.1.is_none() && fault == BreFault::TooLarge,
    }
}

fn matches_all(rt: &impl Abort, alloc: Global, bre: &Bre, lines: &[(&[u8], bool)]) -> bool {
    for (line, wanted) in lines {
        if matches(rt, alloc, bre, line) != *wanted {
            return false;
        }
    }
    true
}

fn matches(rt: &impl Abort, alloc: Global, bre: &Bre, line: &[u8]) -> bool {
    let mut scan = Scan::new(alloc, bre).expect(rt, "there is memory");
    scan.matches(bre, line)
}

#[test]
fn stars_within_stars(rt: HostRuntime) {
    let line = [b'a'; 1000];
    let found = search(&rt, rt.alloc(), b"\\(\\(a*\\)*\\)*b", &line);
    assert!(rt; found == (false, 5005));
}

#[test]
fn repeats_an_empty_line(rt: HostRuntime) {
    let bre = read(&rt, rt.alloc(), b"a\\{1,255\\}\\{0,127\\}");
    assert!(rt; matches_all(&rt, rt.alloc(), &bre, &[(b"", true)]));
}

/// Patterns that read, of each form.
const PATTERNS: [&[u8]; 50] = [
    b"a",
    b"a*ab",
    b"a*b",
    b"^*a",
    b"^a",
    b"a$",
    b"^$",
    b"^a*$",
    b"a$b",
    b"a^b",
    b"*a",
    b"\\(*a\\)",
    b"\\(^a\\)*b",
    b"\\(a$\\)*",
    b"\\(a$\\)\\{2\\}",
    b"\\(\\)",
    b"\\(\\)*",
    b"\\(\\)\\{3,5\\}b",
    b".",
    b".*",
    b"a.b",
    b"[ab]",
    b"[^ab]",
    b"[]-]",
    b"[[:alpha:]]*c",
    b"a\\{2,3\\}$",
    b"a\\{2\\}",
    b"a\\{2,\\}b",
    b"a\\{0,1\\}b",
    b"^a\\{0\\}b",
    b"a\\{0\\}",
    b"a\\{0\\}*",
    b"\\(a*b\\{2\\}\\)\\{0\\}c",
    b"\\(ab\\)\\{2\\}",
    b"\\(ab\\)*c",
    b"\\(a*\\)*b",
    b"\\(\\(a*\\)*\\)*b",
    b"\\(a\\{1,2\\}b\\)\\{1,2\\}",
    b"\\(a*\\)\\{2,\\}",
    b"\\(a\\{0,2\\}\\)\\{2\\}c",
    b"a**b",
    b"a*\\{2\\}b",
    b"a\\{2\\}*b",
    b"\\*",
    b"c*\\*$",
    b"\\(a\\{0,40\\}b*\\)\\{2\\}c",
    b"\\(a*b\\)\\{40\\}*c$",
    b"\\(a*^*b\\{0,70\\}\\)*c",
    b"[[:digit:]]\\{2\\}",
    b"a\\{255\\}\\{255\\}",
];

/// The line of a number: up to four bytes of four.
fn line_of(rt: &impl Abort, alloc: Global, number: usize) -> Vec<u8> {
    let mut line = Vec::new(alloc);
    let mut rest = number;
    for _place in 0..4 {
        if rest > 0 {
            let byte = match rest % 5 {
                1 => b'a',
                2 => b'b',
                3 => b'c',
                _ => b'*',
            };
            line.push(byte).expect(rt, "there is memory");
            rest /= 5;
        }
    }
    line
}

/// What is passed over without matching has no match: a line that ends before `clear_before`, here by its newline.
fn stays_clear(rt: &impl Abort, alloc: Global, bre: &Bre, line: &[u8], plain: bool) {
    let text = joined(rt, alloc, &[(line, 1), (b"\nab", 1)]);
    let is_clear = bre.clear_before(&text) > line.len();
    holds(rt, !(plain && is_clear), "passed over", line);
}

/// Compares the table, the sets, the search that counts nothing and the plain matcher; where the line doesn't match, the steps of the first two as well.
fn agree(rt: &impl Abort, alloc: Global, bre: &Bre, line: &[u8]) {
    let plain = matches_plain(alloc, bre, line).expect(rt, "there is memory");
    let size = 2 * bre.positions() as usize / 64 + 1;
    let mut words = vec![in alloc; u64::MAX; size].expect(rt, "there is memory");
    let by_sets = bre.search(line, &mut words);
    holds(rt, by_sets.found == plain, "by sets", line);
    walks(rt, bre, line, by_sets);
    let mut scan = Scan::new(alloc, bre).expect(rt, "there is memory");
    holds(rt, scan.matches(bre, line) == plain, "counted", line);
    holds(rt, plain || scan.steps() == by_sets.steps, "steps", line);
    holds(rt, scan.search(bre, line).found == plain, "uncounted", line);
    stays_clear(rt, alloc, bre, line, plain);
}

/// Compares the table, if there is one, with the sets.
fn walks(rt: &impl Abort, bre: &Bre, line: &[u8], by_sets: Outcome) {
    if line.is_empty() {
        return;
    }
    if let Some(outcome) = bre.walk(line) {
        holds(rt, outcome.found == by_sets.found, "by the table", line);
        holds(
            rt,
            outcome.found || outcome.steps == by_sets.steps,
            "steps of the table",
            line,
        );
    }
}

/// Checks what must be so of a line.
fn holds(rt: &impl Abort, is_so: bool, what: &str, line: &[u8]) {
    assert!(rt; is_so, "{what}: {line:?}");
}

#[test]
fn as_the_plain_matcher(rt: HostRuntime) {
    let alloc = rt.alloc();
    for pattern in &PATTERNS {
        let bre = read(&rt, alloc, pattern);
        for number in 0..625 {
            let line = line_of(&rt, alloc, number);
            agree(&rt, alloc, &bre, &line);
        }
    }
}

/// Patterns of few sets.
const TABLED: [&[u8]; 6] = [
    b"^#SECTION",
    b"timeout",
    b"a*b",
    b"[0-9]\\{3\\} ms$",
    b"zebra",
    b"o.\\{10\\}zq",
];

/// Without a table the result would be the same, and come later: no contract says that there is one.
#[test]
fn few_sets_have_a_table(rt: HostRuntime) {
    for pattern in &TABLED {
        let outcome = read(&rt, rt.alloc(), pattern).walk(b"#SELECTION of 12 ms");
        assert!(rt; outcome.is_some(), "{pattern:?}");
    }
}

/// A pattern, a text, and how much of it is seen to have no match: what stands there is the rarest byte or text that each
/// match has. Of the last four nothing is known that each has, or it is one of too many bytes.
const CLEAR: [(&[u8], &[u8], usize); 17] = [
    (b"timeout", b"tim\nout\na timeout", 10),
    (b"#[A-Z]* [0-9]", b"a b 1\nc #", 8),
    (b"zq[xy]*zq", b"zx zzq", 4),
    (b"[0-9]\\{3\\} ms$", b"12 m 1 ms", 6),
    (b"a*b", b"aac b", 4),
    (b"[xy]z*", b"aaya", 2),
    (b"a\\{0,1\\}bc", b"ab cbc", 4),
    (b"\\(ab\\)\\{2\\}", b"ab abab", 3),
    (b"\\(ab\\)*abc", b"ab abababc", 7),
    (b"x\\{3,\\}", b"xx xxx", 3),
    (b"^#", b"a#", 1),
    (b"[abc]", b"zzb", 2),
    (b"x", b"aaa", 3),
    (b"a*", b"bb", 0),
    (b"^", b"bb", 0),
    (b"[abcd]", b"zz", 0),
    (b"[a-z]x*", b"11", 0),
];

/// Without it the result would be the same, and come later: no contract says how much is seen.
#[test]
fn lines_are_passed_over(rt: HostRuntime) {
    for (pattern, text, want) in &CLEAR {
        let bre = read(&rt, rt.alloc(), pattern);
        assert_eq!(rt; bre.clear_before(text), *want, "{pattern:?} in {text:?}");
    }
}

/// Texts in turn, and how much of each is passed over as lines without an `x`. The fourth look in vain is followed by one rest,
/// the fifth by three.
const RESTS: [(&[u8], usize); 12] = [
    (b"x1\nb\n", 0),
    (b"b\nx1\n", 2),
    (b"x1\nb\n", 0),
    (b"x1\nb\n", 0),
    (b"x1\nb\n", 0),
    (b"x1\nb\n", 0),
    (b"b\nx1\n", 0),
    (b"x1\nb\n", 0),
    (b"b\nx1\n", 0),
    (b"b\nx1\n", 0),
    (b"b\nx1\n", 0),
    (b"b\nc\nx1\n", 4),
];

/// No contract says when lines are looked at.
#[test]
fn looking_rests_where_it_is_in_vain(rt: HostRuntime) {
    let bre = read(&rt, rt.alloc(), b"x$");
    let mut scan = Scan::new(rt.alloc(), &bre).expect(&rt, "there is memory");
    for (text, want) in &RESTS {
        assert_eq!(rt; scan.clear_lines(&bre, text), *want, "{text:?}");
    }
}

/// Tokens that random patterns are made of; what they make may not read.
const TOKENS: [&[u8]; 18] = [
    b"a",
    b"b",
    b"c",
    b"*",
    b".",
    b"^",
    b"$",
    b"\\(",
    b"\\)",
    b"[ab]",
    b"[^a]",
    b"\\{2\\}",
    b"\\{0,1\\}",
    b"\\{1,\\}",
    b"ab",
    b"bca",
    b"c*b",
    b"[abc]",
];

/// The next of a row of numbers that look random.
fn next_number(state: &mut u64) -> usize {
    *state = state
        .wrapping_mul(6_364_136_223_846_793_005)
        .wrapping_add(1_442_695_040_888_963_407);
    (*state >> 33) as usize
}

/// A pattern of up to six tokens.
fn random_pattern(rt: &impl Abort, alloc: Global, state: &mut u64) -> Vec<u8> {
    let mut pattern = Vec::new(alloc);
    for _token in 0..1 + next_number(state) % 6 {
        let token = TOKENS[next_number(state) % 18];
        pattern
            .extend_from_slice(token)
            .expect(rt, "there is memory");
    }
    pattern
}

#[test]
fn random_pairs(rt: HostRuntime) {
    let alloc = rt.alloc();
    let mut state = 7;
    let mut pairs: u32 = 0;
    for _try in 0..100_000 {
        if pairs == 5000 {
            break;
        }
        let pattern = random_pattern(&rt, alloc, &mut state);
        if let Ok(bre) = Bre::read(alloc, &pattern) {
            let line = line_of(&rt, alloc, next_number(&mut state) % 625);
            agree(&rt, alloc, &bre, &line);
            pairs = pairs.wrapping_add(1);
        }
    }
    assert!(rt; pairs == 5000);
}
