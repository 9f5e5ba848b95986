//! Times matching: finds the lines of standard input, without and with matching each against the pattern of the first
//! word, and with matching only those that aren't seen to have no match, in rounds that take turns. It prints the best
//! of each in nanoseconds, with how many lines match, each way, and the steps.
#![tactic(auto)]

ghost use Rattle.std.specs.Prelude.{◌≡◌};
ghost use Rattle.bre_core.specs.Pattern.{positions_of};

use memchr::memchr;
use scan_core::{Bre, Scan};
use std::env;
use std::io::{self, Read};
use std::time::{Clock, Instant};

/// How many rounds are timed.
const ROUNDS: u32 = 5;

/// The lines that match, and the steps.
#[derive(Clone, Copy, Debug)]
struct Found {
    lines: u64,
    steps: u64,
}

/// Goes over the lines of a text, and matches each where it is asked for.
fn each_line(scan: &mut Scan, bre: &Bre, text: &[u8], is_matched: bool) -> Found
    requires { scan.old.positions ≡ positions_of bre.now }
    ensures { scan.new.positions ≡ scan.old.positions }
{
    let mut found = Found { lines: 0, steps: 0 };
    let mut rest = text;
    while !rest.is_empty() {
        let end = match memchr(b'\n', rest) {
            Some(end) => end.min(rest.len()),
            None => rest.len(),
        };
        let (line, after) = rest.split_at(end);
        rest = match after {
            [_, more @ ..] => more,
            [] => after,
        };
        if is_matched {
            if scan.matches(bre, line) {
                found.lines = found.lines.wrapping_add(1);
            }
            found.steps = found
                .steps
                .wrapping_add((scan.steps() % 4_294_967_296) as u64);
        } else {
            found.lines = found.lines.wrapping_add(1);
        }
    }
    found
}

/// How many lines of a text match, of which those that are seen to have no match are passed over.
fn each_unclear(scan: &mut Scan, bre: &Bre, text: &[u8]) -> u64
    requires { scan.old.positions ≡ positions_of bre.now }
    ensures { scan.new.positions ≡ scan.old.positions }
{
    let mut lines: u64 = 0;
    let mut rest = text;
    while !rest.is_empty() {
        let (_, left) = rest.split_at(scan.clear_lines(bre, rest));
        let end = match memchr(b'\n', left) {
            Some(end) => end.min(left.len()),
            None => left.len(),
        };
        let (line, after) = left.split_at(end);
        rest = match after {
            [_, more @ ..] => more,
            [] => after,
        };
        if scan.search(bre, line).found {
            lines = lines.wrapping_add(1);
        }
    }
    lines
}

/// The best times of all rounds, in nanoseconds: without matching, with it, and where lines are passed over.
#[derive(Clone, Copy, Debug)]
struct Best {
    plain: u128,
    matched: u128,
    passed: u128,
    found: Found,
    /// The lines that match, where lines are passed over.
    unclear: u64,
}

/// Times the rounds.
fn best_of_rounds(rt: &impl Clock, scan: &mut Scan, bre: &Bre, text: &[u8]) -> io::Result<Best>
    requires { scan.old.positions ≡ positions_of bre.now }
{
    let mut best = Best {
        plain: u128::MAX,
        matched: u128::MAX,
        passed: u128::MAX,
        found: Found { lines: 0, steps: 0 },
        unclear: 0,
    };
    for _round in 0..ROUNDS {
        let start = Instant::now(rt)?;
        let lines = each_line(scan, bre, text, false);
        best.plain = best.plain.min(start.elapsed(rt)?.as_nanos());
        let start = Instant::now(rt)?;
        best.found = each_line(scan, bre, text, true);
        best.matched = best.matched.min(start.elapsed(rt)?.as_nanos());
        best.found.steps = best.found.steps.wrapping_add(lines.steps);
        let start = Instant::now(rt)?;
        best.unclear = each_unclear(scan, bre, text);
        best.passed = best.passed.min(start.elapsed(rt)?.as_nanos());
    }
    Ok(best)
}

fn main(rt: HostRuntime) -> io::Result<()> {
    let alloc = rt.alloc();
    let mut pattern = Vec::new(alloc);
    if let Ok(args) = env::args(&rt) {
        for (place, word) in args.enumerate() {
            if place == 1 {
                pattern.extend_from_slice(word.as_bytes())?;
            }
        }
    }
    let Ok(bre) = Bre::read(alloc, &pattern) else {
        return Ok(());
    };
    let Ok(mut scan) = Scan::new(alloc, &bre) else {
        return Ok(());
    };
    let mut text = Vec::new(alloc);
    rt.stdin().read_to_end(&mut text)?;
    let best = best_of_rounds(&rt, &mut scan, &bre, &text)?;
    println!(rt;
        "{} {} {} {} {} {}",
        best.plain, best.matched, best.found.lines, best.found.steps, best.passed, best.unclear
    )?;
    Ok(())
}
