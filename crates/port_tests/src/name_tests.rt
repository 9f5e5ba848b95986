//! Names at the places where they widen or end, numbers in a form, and headers.
ghost use Rattle.ports_core.specs.Name.{IsWide};

use crate::compare::same_bytes;
use engine_core::Names;
use ports_core::{Alphabet, Base, Fault, Filling, Form, Naming, Numbering, header, numbered};
use std::alloc::Global;
use std::test::Fail;

/// Draws names up to a place, and returns the one there.
fn name_at(mut names: Names, place: u64) -> Result<Option<String>, Fault> {
    for _ in 0..place {
        names.next()?;
    }
    names.next()
}

/// Whether a name was drawn and is as wanted, or none was drawn and none is wanted.
fn is_name(drawn: Option<String>, wanted: Option<&[u8]>) -> bool {
    match drawn {
        Some(name) => wanted == Some(name.as_bytes()),
        None => wanted.is_none(),
    }
}

/// Names that widen from two letters on: the prefix, the alphabet, the ending, a place, and the name there.
const WIDENED: &[(&str, Alphabet, &str, u64, &str)] = &[
    ("x", Alphabet::Letters, ".txt", 650, "xzaaa.txt"),
    ("", Alphabet::Letters, "", 0, "aa"),
    ("", Alphabet::Letters, "", 27, "bb"),
    ("", Alphabet::Letters, "", 649, "yz"),
    ("", Alphabet::Letters, "", 650, "zaaa"),
    ("", Alphabet::Letters, "", 17_549, "zyzz"),
    ("", Alphabet::Letters, "", 17_550, "zzaaaa"),
    ("", Alphabet::Digits, "", 89, "89"),
    ("", Alphabet::Digits, "", 90, "9000"),
    ("", Alphabet::Digits, "", 989, "9899"),
    ("", Alphabet::Digits, "", 990, "990000"),
    ("", Alphabet::Hex, "", 10, "0a"),
    ("", Alphabet::Hex, "", 239, "ef"),
    ("", Alphabet::Hex, "", 240, "f000"),
    ("", Alphabet::Hex, "", 4_079, "feff"),
    ("", Alphabet::Hex, "", 4_080, "ff0000"),
];

#[test]
fn names_widen(rt: HostRuntime) -> Result<(), Fail> {
    for (prefix, alphabet, ending, place, wanted) in WIDENED {
        let names = Names::new(rt.alloc(), prefix, *alphabet, 2, true, ending)?;
        let drawn = name_at(names, *place)?;
        assert!(rt; is_name(drawn, Some(wanted.as_bytes())), "at {wanted}");
    }
    Ok(())
}

#[test]
fn a_fixed_width_ends(rt: HostRuntime) -> Result<(), Fail> {
    let mut names = Names::new(rt.alloc(), "x", Alphabet::Letters, 1, false, "")?;
    for letter in b'a'..=b'z' {
        assert!(rt;
            is_name(names.next()?, Some(&[b'x', letter])),
            "at {letter}"
        );
    }
    for _ in 0..2 {
        assert!(rt; is_name(names.next()?, None));
    }
    Ok(())
}

/// The alphabet, how many characters a name has, the number of the first, a place, and the name there, if there is one.
type Numbered<'a> = (Alphabet, u32, u64, u64, Option<&'a str>);

const FROM_A_NUMBER: &[Numbered<'static>] = &[
    (Alphabet::Digits, 1, 9, 0, Some("x9")),
    (Alphabet::Digits, 1, 9, 1, None),
    (Alphabet::Digits, 2, 89, 0, Some("x89")),
    (Alphabet::Digits, 2, 89, 10, Some("x99")),
    (Alphabet::Digits, 2, 89, 11, None),
    (Alphabet::Digits, 3, 1, 99, Some("x100")),
    (Alphabet::Hex, 2, 0xfe, 1, Some("xff")),
    (Alphabet::Hex, 2, 0xfe, 2, None),
    (Alphabet::Letters, 2, 27, 1, Some("xbc")),
    // Numbers above those of 64 bits are written too.
    (
        Alphabet::Digits,
        20,
        1,
        18_446_744_073_709_551_615,
        Some("x18446744073709551616"),
    ),
    (
        Alphabet::Hex,
        17,
        0x7fff_ffff_ffff_ffff,
        18_446_744_073_709_551_615,
        Some("x17ffffffffffffffe"),
    ),
    (Alphabet::Hex, 16, 1, 18_446_744_073_709_551_615, None),
];

/// The name at a place.
fn name_of(
    alloc: Global,
    prefix: &str,
    numbering: Numbering,
    place: u64,
) -> Result<Option<String>, Fault>
    requires { IsWide numbering }
{
    let naming = Naming::new(alloc, prefix, numbering, "")?;
    naming.name_at(place)
}

#[test]
fn names_begin_at_a_number(rt: HostRuntime) -> Result<(), Fail> {
    for (alphabet, width, from, place, wanted) in FROM_A_NUMBER {
        let numbering = Numbering::Fixed(*alphabet, *width, *from);
        let drawn = name_of(rt.alloc(), "x", numbering, *place)?;
        let wanted = wanted.map(|name| name.as_bytes());
        assert!(rt; is_name(drawn, wanted), "at {from} and {place}");
    }
    Ok(())
}

/// How many digits a number has at least, the number, and the name with it.
const NUMBERED: &[(u32, u64, &str)] = &[(2, 100, "xx100"), (0, 0, "xx0"), (2, 7, "xx07")];

#[test]
fn numbers_in_names(rt: HostRuntime) -> Result<(), Fail> {
    for (digits, number, wanted) in NUMBERED {
        let name = numbered(rt.alloc(), "xx", *digits, *number)?;
        same_bytes(&rt, name.as_bytes(), wanted.as_bytes());
    }
    Ok(())
}

/// A base, whether numbers are marked, a width, what fills it, and a precision.
type Described = (Base, bool, u8, Filling, u8);

fn form(written: Described) -> Form {
    let (base, is_marked, width, filling, precision) = written;
    Form {
        base,
        is_marked,
        width,
        filling,
        precision,
    }
}

/// Forms, a number, and what C's `printf` writes of it.
const FORMATTED: &[(Described, u64, &str)] = &[
    ((Base::Decimal, false, 0, Filling::BlanksBefore, 1), 0, "0"),
    ((Base::Decimal, false, 0, Filling::BlanksBefore, 1), 7, "7"),
    (
        (Base::Decimal, false, 0, Filling::BlanksBefore, 1),
        u64::MAX,
        "18446744073709551615",
    ),
    (
        (Base::Decimal, false, 5, Filling::BlanksBefore, 1),
        0,
        "    0",
    ),
    (
        (Base::Decimal, false, 5, Filling::BlanksBefore, 1),
        12_345,
        "12345",
    ),
    (
        (Base::Decimal, false, 5, Filling::BlanksBefore, 1),
        123_456,
        "123456",
    ),
    (
        (Base::Decimal, false, 5, Filling::BlanksAfter, 1),
        0,
        "0    ",
    ),
    (
        (Base::Decimal, false, 5, Filling::BlanksAfter, 1),
        12_345,
        "12345",
    ),
    (
        (Base::Decimal, false, 5, Filling::BlanksAfter, 1),
        123_456,
        "123456",
    ),
    ((Base::Decimal, false, 3, Filling::Zeros, 1), 7, "007"),
    ((Base::Decimal, false, 3, Filling::Zeros, 1), 999, "999"),
    ((Base::Decimal, false, 3, Filling::Zeros, 1), 1000, "1000"),
    ((Base::Decimal, false, 0, Filling::Zeros, 1), 0, "0"),
    (
        (Base::Decimal, false, 0, Filling::BlanksBefore, 3),
        0,
        "000",
    ),
    (
        (Base::Decimal, false, 0, Filling::BlanksBefore, 3),
        7,
        "007",
    ),
    (
        (Base::Decimal, false, 0, Filling::BlanksBefore, 3),
        1000,
        "1000",
    ),
    (
        (Base::Decimal, false, 5, Filling::BlanksBefore, 3),
        7,
        "  007",
    ),
    ((Base::Decimal, false, 0, Filling::BlanksBefore, 0), 0, ""),
    ((Base::Decimal, false, 0, Filling::BlanksBefore, 0), 1, "1"),
    (
        (Base::Decimal, false, 3, Filling::BlanksBefore, 0),
        0,
        "   ",
    ),
    ((Base::Octal, false, 0, Filling::BlanksBefore, 1), 8, "10"),
    (
        (Base::Octal, false, 0, Filling::BlanksBefore, 1),
        u64::MAX,
        "1777777777777777777777",
    ),
    ((Base::Octal, true, 0, Filling::BlanksBefore, 1), 0, "0"),
    ((Base::Octal, true, 0, Filling::BlanksBefore, 1), 8, "010"),
    (
        (Base::Octal, true, 0, Filling::BlanksBefore, 1),
        u64::MAX,
        "01777777777777777777777",
    ),
    ((Base::Octal, true, 0, Filling::BlanksBefore, 0), 0, "0"),
    ((Base::Octal, true, 0, Filling::BlanksBefore, 3), 8, "010"),
    ((Base::Octal, true, 0, Filling::BlanksBefore, 3), 64, "0100"),
    ((Base::Octal, true, 5, Filling::Zeros, 1), 8, "00010"),
    ((Base::Octal, true, 2, Filling::Zeros, 1), 8, "010"),
    ((Base::Hex, true, 0, Filling::BlanksBefore, 1), 0, "0"),
    ((Base::Hex, true, 0, Filling::BlanksBefore, 1), 255, "0xff"),
    (
        (Base::Hex, true, 0, Filling::BlanksBefore, 1),
        u64::MAX,
        "0xffffffffffffffff",
    ),
    ((Base::Hex, true, 6, Filling::Zeros, 1), 0, "000000"),
    ((Base::Hex, true, 6, Filling::Zeros, 1), 255, "0x00ff"),
    (
        (Base::Hex, true, 6, Filling::Zeros, 1),
        1_048_575,
        "0xfffff",
    ),
    (
        (Base::Hex, true, 8, Filling::BlanksBefore, 3),
        0,
        "     000",
    ),
    (
        (Base::Hex, true, 8, Filling::BlanksBefore, 3),
        10,
        "   0x00a",
    ),
    (
        (Base::Hex, true, 8, Filling::BlanksAfter, 1),
        10,
        "0xa     ",
    ),
    (
        (Base::Capitals, false, 0, Filling::BlanksBefore, 2),
        10,
        "0A",
    ),
    (
        (Base::Capitals, false, 0, Filling::BlanksBefore, 2),
        u64::MAX,
        "FFFFFFFFFFFFFFFF",
    ),
    ((Base::Capitals, true, 4, Filling::Zeros, 1), 171, "0XAB"),
];

#[test]
fn numbers_have_a_form(rt: HostRuntime) -> Result<(), Fail> {
    for (written, number, wanted) in FORMATTED {
        let numbering = Numbering::Formatted(form(*written));
        let drawn = name_of(rt.alloc(), "", numbering, *number)?;
        let is_so = is_name(drawn, Some(wanted.as_bytes()));
        assert!(rt; is_so, "{wanted} at {number}");
    }
    Ok(())
}

#[test]
fn headers(rt: HostRuntime) -> Result<(), Fail> {
    for (first, wanted) in [(true, "==> f <==\n"), (false, "\n==> f <==\n")] {
        let line = header(rt.alloc(), "f", first)?;
        same_bytes(&rt, line.as_slice(), wanted.as_bytes());
    }
    Ok(())
}
