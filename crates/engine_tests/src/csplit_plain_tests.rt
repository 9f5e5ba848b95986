//! The engine beside the plain program: lists of operands on short texts, cut into pieces in each way.
use crate::csplit_plain::{Made, plain};
use crate::csplit_tests::{TWO_DIGITS, run};
use crate::test_texts::{pieces_of, short_texts};
use csplit_core::{Operands, Style, read_operands};
use mem_core::MemOut;
use ports_core::{Calling, Fault, Outs};
use std::alloc::Global;
use std::test::Fail;

/// Where operands cut.
const TARGETS: [&str; 19] = [
    "/b/-3", "/b/-2", "/b/-1", "/b/", "/b/+1", "/b/+2", "/b/+3", "%b%-3", "%b%-2", "%b%-1", "%b%",
    "%b%+1", "%b%+2", "%b%+3", "/a/", "1", "2", "3", "5",
];

/// How often they are performed again.
const TIMES: [&str; 3] = ["{1}", "{2}", "{*}"];

/// Some ways to cut a longer text: whole, byte by byte, by lines, and in pieces of two bytes that end before a newline.
const LONG_CUTS: [u32; 4] = [0, 0xffff, 0xaaaa, 0x5555];

/// Every text of up to six bytes in every cutting: each target alone and repeated once.
#[test]
fn cuts_bytes_as_the_plain_program(rt: HostRuntime) -> Result<(), Fail> {
    for target in TARGETS {
        assert!(rt; agrees_on_bytes(rt.alloc(), &[target])?, "at {target}");
        assert!(rt;
            agrees_on_bytes(rt.alloc(), &[target, "{1}"])?,
            "at {target} and once more"
        );
    }
    Ok(())
}

/// The same texts: each target repeated twice, and as often as it can be.
#[test]
fn repeats_in_bytes_as_the_plain_program(rt: HostRuntime) -> Result<(), Fail> {
    for target in TARGETS {
        for times in ["{2}", "{*}"] {
            assert!(rt;
                agrees_on_bytes(rt.alloc(), &[target, times])?,
                "at {target} {times}"
            );
        }
    }
    Ok(())
}

/// The same texts: each target before a pattern with an offset that goes back, before one with an offset that goes on, before one
/// that is skipped, and before a line number.
#[test]
fn cuts_bytes_twice_as_the_plain_program(rt: HostRuntime) -> Result<(), Fail> {
    for first in TARGETS {
        for second in ["/b/-1", "/a/+1", "%a%", "3"] {
            assert!(rt;
                agrees_on_bytes(rt.alloc(), &[first, second])?,
                "at {first} {second}"
            );
        }
    }
    Ok(())
}

/// The same texts: each target after a skipped pattern, after a line number, and after a repeated pattern.
#[test]
fn goes_on_in_bytes_as_the_plain_program(rt: HostRuntime) -> Result<(), Fail> {
    for target in TARGETS {
        for first in ["%b%", "2"] {
            assert!(rt;
                agrees_on_bytes(rt.alloc(), &[first, target])?,
                "at {first} {target}"
            );
        }
        assert!(rt;
            agrees_on_bytes(rt.alloc(), &["/b/+1", "{1}", target])?,
            "at a repeated pattern and {target}"
        );
    }
    Ok(())
}

/// Every text of up to six lines `a` or `b`, the last of them open or not, in some cuttings: each target before each other.
#[test]
fn cuts_lines_as_the_plain_program(rt: HostRuntime) -> Result<(), Fail> {
    for first in TARGETS {
        for second in TARGETS {
            assert!(rt;
                agrees_on_lines(rt.alloc(), &[first, second])?,
                "at {first} {second}"
            );
        }
    }
    Ok(())
}

/// The same texts, and targets of which one is repeated.
#[test]
fn repeats_as_the_plain_program(rt: HostRuntime) -> Result<(), Fail> {
    for target in TARGETS {
        for times in TIMES {
            assert!(rt;
                agrees_on_lines(rt.alloc(), &[target, times, "/b/+1"])?,
                "at {target} {times} and a pattern"
            );
            assert!(rt;
                agrees_on_lines(rt.alloc(), &["%a%", target, times, "7"])?,
                "at a pattern, {target} {times} and a number"
            );
        }
    }
    Ok(())
}

/// Whether the engine agrees with the plain program on each short text of bytes. Words that are no operands are passed over.
fn agrees_on_bytes(alloc: Global, words: &[&str]) -> Result<bool, Fault> {
    let Ok(operands) = read_operands(alloc, Calling::Cutters, words) else {
        return Ok(true);
    };
    for short in short_texts(alloc, b'\n')? {
        if !agrees_on_text(alloc, &operands, short.text(), &short.cuttings(alloc)?)? {
            return Ok(false);
        }
    }
    Ok(true)
}

/// The same of texts of lines.
fn agrees_on_lines(alloc: Global, words: &[&str]) -> Result<bool, Fault> {
    let Ok(operands) = read_operands(alloc, Calling::Cutters, words) else {
        return Ok(true);
    };
    for size in 0..13u32 {
        for number in 0..lines_of_size(size) {
            let text = lines_of(number);
            let text = text.get(..size as usize).unwrap_or(&[]);
            let mut cuttings = Vec::new(alloc);
            for cuts in LONG_CUTS {
                cuttings.push(pieces_of(alloc, text, cuts)?)?;
            }
            if !agrees_on_text(alloc, &operands, text, &cuttings)? {
                return Ok(false);
            }
        }
    }
    Ok(true)
}

/// How many texts there are of lines with one letter of two, of this many bytes.
fn lines_of_size(size: u32) -> u32 {
    1u32.checked_shl((size / 2).saturating_add(size % 2))
        .unwrap_or(0)
}

/// The text of lines with this number: each line's letter stands for a bit.
fn lines_of(number: u32) -> [u8; 12] {
    let mut text = [b'\n'; 12];
    let mut left = number;
    let mut is_letter = true;
    for byte in text.iter_mut() {
        if is_letter {
            *byte = if left % 2 == 0 { b'a' } else { b'b' };
            left /= 2;
        }
        is_letter = !is_letter;
    }
    text
}

/// Whether both agree on a text, with and without empty files, with and without the lines at cuts. Where files are kept, the
/// cut of a pattern may stand one line past the last, too.
fn agrees_on_text(
    alloc: Global,
    operands: &Operands,
    text: &[u8],
    cuttings: &[Vec<&[u8]>],
) -> Result<bool, Fault> {
    for options in 0..8 {
        let style = Style {
            prefix: String::from_str(alloc, "xx")?,
            form: TWO_DIGITS,
            ending: String::new(alloc),
            keep: options % 2 == 1,
            quiet: false,
            elide: options / 2 % 2 == 1,
            suppress: options / 4 == 1,
            one_past: options % 2 == 1,
        };
        if !agrees_under(alloc, operands, &style, text, cuttings)? {
            return Ok(false);
        }
    }
    Ok(true)
}

fn agrees_under(
    alloc: Global,
    operands: &Operands,
    style: &Style,
    text: &[u8],
    cuttings: &[Vec<&[u8]>],
) -> Result<bool, Fault> {
    let made = plain(alloc, operands.as_slice(), style, text)?;
    for pieces in cuttings {
        let mut outs = MemOut::new(alloc)?;
        let end = run(alloc, style, operands, pieces, &mut outs);
        let is_made = has_made(alloc, &outs, &made, style.keep).unwrap_or(false);
        if end.err() != made.verdict.map(Fault::Verdict) || !is_made {
            return Ok(false);
        }
    }
    Ok(true)
}

/// Whether just these files were made, their sizes were written, and all of them were removed where a fault ended the
/// cutting.
fn has_made(alloc: Global, outs: &MemOut, made: &Made<'_>, keep: bool) -> Result<bool, Fault> {
    let are_removed = made.verdict.is_some() && !keep;
    let mut sizes = Vec::new(alloc);
    let mut slot = 2usize;
    for file in &made.files {
        if outs.bytes(slot) != *file || outs.removed(slot) != are_removed {
            return Ok(false);
        }
        if file.len() >= 10 {
            sizes.push(b'1')?;
        }
        sizes.extend_from_slice(&[b'0' + (file.len() % 10) as u8, b'\n'])?;
        slot = slot.saturating_add(1);
    }
    Ok(outs.name(slot).is_empty() && outs.bytes(0) == sizes.as_slice())
}
