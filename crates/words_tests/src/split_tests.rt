//! What the words after `split` ask for: rows that no clause shows to be read, since there may be
//! no memory for them.
use crate::asked::{Asked, check};
use ports_core::Alphabet;
use seg_core::cut::{Chunks, Cut, Limit, Way};
use seg_core::unit::Unit;
use std::alloc::Global;
use std::process::Abort;
use words_core::{Settings, SplitSettings};

/// What words are to ask of `split`.
#[derive(Clone, Copy)]
enum Wanted<'a> {
    /// What becomes of the input.
    Way(Way),
    /// The characters of names, how many there are, and whether names widen.
    Names(Alphabet, u32, bool),
    /// The characters of names, how many there are, and the number of the first; names don't widen where there is one.
    Numbers(Alphabet, u32, Option<u64>),
    /// Whether empty files are left out, the input and what names begin with.
    Operands(bool, &'a str, &'a str),
    /// The byte that lines end with, and what names end with.
    Ends(u8, &'a str),
    /// Whether standard output is told of files.
    Told(bool),
}

fn has(found: &SplitSettings<'_>, wanted: Wanted<'_>) -> bool {
    match wanted {
        Wanted::Way(way) => found.way == way,
        Wanted::Names(alphabet, width, auto) => {
            found.alphabet == alphabet && found.width == width && found.auto == auto
        }
        Wanted::Numbers(alphabet, width, from) => {
            found.alphabet == alphabet
                && found.width == width
                && found.from == from
                && found.auto == from.is_none()
        }
        Wanted::Operands(elide, input, prefix) => {
            found.elide == elide && found.input == input && found.prefix == prefix
        }
        Wanted::Ends(delim, ending) => {
            delim_of(found.way) == Some(delim) && found.ending == ending
        }
        Wanted::Told(verbose) => found.verbose == verbose,
    }
}

/// The byte that lines end with, where they matter.
fn delim_of(way: Way) -> Option<u8> {
    match way {
        Way::Cut(Cut::Parts(Limit::Lines(_, delim) | Limit::LineBytes(_, delim))) => Some(delim),
        Way::Cut(Cut::Parts(Limit::Bytes(_))) => None,
        Way::Cut(Cut::Round(_, delim)) | Way::Turn(_, _, delim) => Some(delim),
        Way::Chunks(chunks) | Way::Chunk(_, chunks) => Some(chunks.delim),
    }
}

impl<'a> Asked for Wanted<'a> {
    fn is_met(&self, settings: &Settings<'_>) -> bool {
        match settings {
            Settings::Split(found) => has(found, *self),
            _ => false,
        }
    }
}

type CutRow<'a> = (&'a [&'a str], Cut);

#[test]
fn reads_the_way_to_split(rt: HostRuntime) {
    for row in WAYS {
        check(&rt, rt.alloc(), row.0, &Wanted::Way(Way::Cut(row.1)));
    }
}

const WAYS: &[CutRow<'static>] = &[
    (&["split"], Cut::Parts(Limit::Lines(1000, b'\n'))),
    (&["split", "-u"], Cut::Parts(Limit::Lines(1000, b'\n'))),
    (&["split", "-ul3"], Cut::Parts(Limit::Lines(3, b'\n'))),
    (
        &["split", "--unbuffered", "-b", "9"],
        Cut::Parts(Limit::Bytes(9)),
    ),
    (&["split", "-n", "r/2", "--unb"], Cut::Round(2, b'\n')),
    (&["split", "-3"], Cut::Parts(Limit::Lines(3, b'\n'))),
    (&["split", "-l", "3"], Cut::Parts(Limit::Lines(3, b'\n'))),
    (&["split", "-l", "+3"], Cut::Parts(Limit::Lines(3, b'\n'))),
    (&["split", "-l3"], Cut::Parts(Limit::Lines(3, b'\n'))),
    (
        &["split", "--lines", "3"],
        Cut::Parts(Limit::Lines(3, b'\n')),
    ),
    (
        &["split", "--lines=1k"],
        Cut::Parts(Limit::Lines(1024, b'\n')),
    ),
    (
        &["split", "-l", "9223372036854775807"],
        Cut::Parts(Limit::Lines(9_223_372_036_854_775_807, b'\n')),
    ),
    (&["split", "-b", "3"], Cut::Parts(Limit::Bytes(3))),
    (
        &["split", "-b", "1", "-t", "0"],
        Cut::Parts(Limit::Bytes(1)),
    ),
    (&["split", "-b1k"], Cut::Parts(Limit::Bytes(1024))),
    (&["split", "--bytes=2kB"], Cut::Parts(Limit::Bytes(2000))),
    (&["split", "--bytes", "+1b"], Cut::Parts(Limit::Bytes(512))),
    (
        &["split", "-C", "4"],
        Cut::Parts(Limit::LineBytes(4, b'\n')),
    ),
    (&["split", "-dC4"], Cut::Parts(Limit::LineBytes(4, b'\n'))),
    (
        &["split", "--line-bytes=4"],
        Cut::Parts(Limit::LineBytes(4, b'\n')),
    ),
    (
        &["split", "--line-bytes", "4"],
        Cut::Parts(Limit::LineBytes(4, b'\n')),
    ),
    (&["split", "-n", "r/3"], Cut::Round(3, b'\n')),
    (&["split", "-nr/03"], Cut::Round(3, b'\n')),
    (&["split", "--number=r/3"], Cut::Round(3, b'\n')),
    (&["split", "-n", "r/65535"], Cut::Round(65_535, b'\n')),
    (
        &["split", "f", "-l", "2"],
        Cut::Parts(Limit::Lines(2, b'\n')),
    ),
    (
        &["split", "-e", "--", "-3"],
        Cut::Parts(Limit::Lines(1000, b'\n')),
    ),
];

/// Words, how many chunks there are, of what, the byte that lines end with, which of them is written to standard output if
/// just one is, and how many characters names have.
type ChunkRow<'a> = (&'a [&'a str], u64, Unit, u8, Option<u64>, u32);

#[test]
fn reads_chunks(rt: HostRuntime) {
    for row in CHUNKS {
        check_chunks(&rt, rt.alloc(), row);
    }
    let words = &["split", "-n", "r/65535/65535", "-t", "\\0"];
    check(
        &rt,
        rt.alloc(),
        words,
        &Wanted::Way(Way::Turn(65_534, 65_535, 0)),
    );
}

fn check_chunks(rt: &impl Abort, alloc: Global, row: &ChunkRow<'_>) {
    let (words, count, unit, delim, only, width) = *row;
    let chunks = Chunks { count, unit, delim };
    let way = match only {
        None => Way::Chunks(chunks),
        Some(place) => Way::Chunk(place, chunks),
    };
    check(rt, alloc, words, &Wanted::Way(way));
    check(
        rt,
        alloc,
        words,
        &Wanted::Names(Alphabet::Letters, width, false),
    );
}

const CHUNKS: &[ChunkRow<'static>] = &[
    (&["split", "-n", "4"], 4, Unit::Bytes, b'\n', None, 2),
    (&["split", "-n01"], 1, Unit::Bytes, b'\n', None, 2),
    (
        &["split", "--number=65535"],
        65_535,
        Unit::Bytes,
        b'\n',
        None,
        4,
    ),
    (
        &["split", "-n", "l/677", "-t", ":"],
        677,
        Unit::Lines,
        b':',
        None,
        3,
    ),
    (&["split", "-n", "4/4"], 4, Unit::Bytes, b'\n', Some(3), 2),
    (
        &["split", "-n", "1/1", "-a", "9"],
        1,
        Unit::Bytes,
        b'\n',
        Some(0),
        9,
    ),
    (
        &["split", "-n", "1/700", "-a", "1"],
        700,
        Unit::Bytes,
        b'\n',
        Some(0),
        1,
    ),
    (&["split", "-nl/2/3"], 3, Unit::Lines, b'\n', Some(1), 2),
];

type NameRow<'a> = (&'a [&'a str], Cut, Alphabet, u32, bool);

#[test]
fn reads_what_names_are_made_of(rt: HostRuntime) {
    for row in NAMES {
        names_are(&rt, rt.alloc(), row);
    }
}

fn names_are(rt: &impl Abort, alloc: Global, row: &NameRow<'_>) {
    let (words, cut, alphabet, width, auto) = *row;
    check(rt, alloc, words, &Wanted::Way(Way::Cut(cut)));
    check(rt, alloc, words, &Wanted::Names(alphabet, width, auto));
}

const THOUSAND: Cut = Cut::Parts(Limit::Lines(1000, b'\n'));

const NAMES: &[NameRow<'static>] = &[
    (&["split"], THOUSAND, Alphabet::Letters, 2, true),
    (&["split", "-a", "0"], THOUSAND, Alphabet::Letters, 2, true),
    (
        &["split", "-a", "3", "-a", "0"],
        THOUSAND,
        Alphabet::Letters,
        2,
        true,
    ),
    (&["split", "-a", "1"], THOUSAND, Alphabet::Letters, 1, false),
    (&["split", "-a", "2"], THOUSAND, Alphabet::Letters, 2, false),
    (
        &["split", "-a", "3", "-a", "4"],
        THOUSAND,
        Alphabet::Letters,
        4,
        false,
    ),
    (&["split", "-a255"], THOUSAND, Alphabet::Letters, 255, false),
    (
        &["split", "--suffix-length=007"],
        THOUSAND,
        Alphabet::Letters,
        7,
        false,
    ),
    (
        &["split", "--suffix-length", "7"],
        THOUSAND,
        Alphabet::Letters,
        7,
        false,
    ),
    (&["split", "-d"], THOUSAND, Alphabet::Digits, 2, true),
    (&["split", "-x"], THOUSAND, Alphabet::Hex, 2, true),
    (&["split", "-dx"], THOUSAND, Alphabet::Hex, 2, true),
    (&["split", "-xd"], THOUSAND, Alphabet::Digits, 2, true),
    (
        &["split", "--hex-suffixes", "--numeric-suffixes"],
        THOUSAND,
        Alphabet::Digits,
        2,
        true,
    ),
    (&["split", "-dxa3"], THOUSAND, Alphabet::Hex, 3, false),
    (&["split", "-da", "1"], THOUSAND, Alphabet::Digits, 1, false),
    (
        &["split", "-n", "r/676"],
        Cut::Round(676, b'\n'),
        Alphabet::Letters,
        2,
        false,
    ),
    (
        &["split", "-n", "r/677"],
        Cut::Round(677, b'\n'),
        Alphabet::Letters,
        3,
        false,
    ),
    (
        &["split", "-n", "r/677", "-a", "0"],
        Cut::Round(677, b'\n'),
        Alphabet::Letters,
        3,
        false,
    ),
    (
        &["split", "-n", "r/26", "-a", "1"],
        Cut::Round(26, b'\n'),
        Alphabet::Letters,
        1,
        false,
    ),
    (
        &["split", "-n", "r/27", "-a", "1", "-a", "2"],
        Cut::Round(27, b'\n'),
        Alphabet::Letters,
        2,
        false,
    ),
    (
        &["split", "-n", "r/3", "-a", "255"],
        Cut::Round(3, b'\n'),
        Alphabet::Letters,
        255,
        false,
    ),
    (
        &["split", "-dn", "r/10001"],
        Cut::Round(10_001, b'\n'),
        Alphabet::Digits,
        5,
        false,
    ),
    (
        &["split", "-n", "r/65535", "-x"],
        Cut::Round(65_535, b'\n'),
        Alphabet::Hex,
        4,
        false,
    ),
];

type NumberRow<'a> = (&'a [&'a str], Alphabet, u32, Option<u64>);

#[test]
fn reads_the_number_of_the_first_file(rt: HostRuntime) {
    for row in NUMBERS {
        check(
            &rt,
            rt.alloc(),
            row.0,
            &Wanted::Numbers(row.1, row.2, row.3),
        );
    }
}

const NUMBERS: &[NumberRow<'static>] = &[
    (&["split", "-d"], Alphabet::Digits, 2, None),
    (
        &["split", "--numeric-suffixes=5"],
        Alphabet::Digits,
        2,
        Some(5),
    ),
    (
        &["split", "--numeric-suffixes=0"],
        Alphabet::Digits,
        2,
        Some(0),
    ),
    (&["split", "--numeric=0099"], Alphabet::Digits, 2, Some(99)),
    // The next word is never its value.
    (
        &["split", "--numeric-suffixes", "5", "f"],
        Alphabet::Digits,
        2,
        None,
    ),
    (
        &["split", "--numeric-suffixes=9", "-a", "1"],
        Alphabet::Digits,
        1,
        Some(9),
    ),
    (
        &["split", "--numeric-suffixes=9", "-a", "0"],
        Alphabet::Digits,
        2,
        Some(9),
    ),
    (
        &["split", "--numeric-suffixes=89", "-b", "1"],
        Alphabet::Digits,
        2,
        Some(89),
    ),
    (
        &[
            "split",
            "--numeric-suffixes=9223372036854775807",
            "-a",
            "19",
        ],
        Alphabet::Digits,
        19,
        Some(9_223_372_036_854_775_807),
    ),
    // The last option for the alphabet decides, with its number or without one.
    (
        &["split", "-d", "--hex-suffixes=3", "-d"],
        Alphabet::Digits,
        2,
        None,
    ),
    (
        &["split", "--numeric-suffixes=3", "-x"],
        Alphabet::Hex,
        2,
        None,
    ),
    (
        &["split", "-x", "--numeric-suffixes=7"],
        Alphabet::Digits,
        2,
        Some(7),
    ),
    (
        &["split", "--numeric-suffixes=3", "--hex-suffixes=4"],
        Alphabet::Hex,
        2,
        Some(4),
    ),
    (&["split", "--hex-suffixes=fE"], Alphabet::Hex, 2, Some(254)),
    (
        &["split", "--hex-suffixes=0A9f", "-a4"],
        Alphabet::Hex,
        4,
        Some(0xa9f),
    ),
    (
        &["split", "--hex-suffixes=7fffffffffffffff", "-a", "16"],
        Alphabet::Hex,
        16,
        Some(0x7fff_ffff_ffff_ffff),
    ),
    // Where lines are dealt, the width is the least that writes all numbers.
    (
        &["split", "--numeric-suffixes=1", "-n", "r/99"],
        Alphabet::Digits,
        2,
        Some(1),
    ),
    (
        &["split", "--numeric-suffixes=1", "-n", "r/100"],
        Alphabet::Digits,
        3,
        Some(1),
    ),
    (
        &["split", "--numeric-suffixes=1000", "-n", "r/3"],
        Alphabet::Digits,
        4,
        Some(1000),
    ),
    (
        &["split", "--hex-suffixes=f", "-n", "r/241"],
        Alphabet::Hex,
        2,
        Some(15),
    ),
    (
        &["split", "--hex-suffixes=f", "-n", "r/242"],
        Alphabet::Hex,
        3,
        Some(15),
    ),
    (
        &[
            "split",
            "--numeric-suffixes=9223372036854775807",
            "-n",
            "r/65535",
        ],
        Alphabet::Digits,
        19,
        Some(9_223_372_036_854_775_807),
    ),
    (
        &["split", "--hex-suffixes=7FFFFFFFFFFFFFFF", "-nr/65535"],
        Alphabet::Hex,
        16,
        Some(0x7fff_ffff_ffff_ffff),
    ),
];

type OperandRow<'a> = (&'a [&'a str], bool, &'a str, &'a str);

#[test]
fn reads_operands_and_empty_files(rt: HostRuntime) {
    for row in OPERANDS {
        check(
            &rt,
            rt.alloc(),
            row.0,
            &Wanted::Operands(row.1, row.2, row.3),
        );
    }
}

const OPERANDS: &[OperandRow<'static>] = &[
    (&["split"], false, "-", "x"),
    (&["split", "-"], false, "-", "x"),
    (&["split", "f"], false, "f", "x"),
    (&["split", "f", "p-"], false, "f", "p-"),
    (&["split", "-l", "1", "f", "p-"], false, "f", "p-"),
    (&["split", "f", "-l1", "-", "-e"], true, "f", "-"),
    (&["split", "-e"], true, "-", "x"),
    (
        &["split", "--elide-empty-files", "-dx", "f"],
        true,
        "f",
        "x",
    ),
    (&["split", "--", "-e", "-3"], false, "-e", "-3"),
];

#[test]
fn reads_whether_files_are_told_of(rt: HostRuntime) {
    check(&rt, rt.alloc(), &["split", "-l", "2"], &Wanted::Told(false));
    check(
        &rt,
        rt.alloc(),
        &["split", "--verbose", "-e"],
        &Wanted::Told(true),
    );
    check(
        &rt,
        rt.alloc(),
        &["split", "f", "--verb"],
        &Wanted::Told(true),
    );
}

type EndRow<'a> = (&'a [&'a str], u8, &'a str);

#[test]
fn reads_separators_and_endings(rt: HostRuntime) {
    for row in ENDS {
        check(&rt, rt.alloc(), row.0, &Wanted::Ends(row.1, row.2));
    }
}

const ENDS: &[EndRow<'static>] = &[
    (&["split"], b'\n', ""),
    (&["split", "-t", ","], b',', ""),
    (&["split", "-t\\0"], 0, ""),
    (&["split", "--separator", "\\0", "-t", ":"], b':', ""),
    (&["split", "-C", "1", "-t", "0"], b'0', ""),
    (&["split", "--additional-suffix=.txt"], b'\n', ".txt"),
    (
        &["split", "--additional-suffix", "a", "--additional-suffix="],
        b'\n',
        "",
    ),
    (&["split", "--additional-suffix", "-", "-t-"], b'-', "-"),
];
