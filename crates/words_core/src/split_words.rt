//! What `split` is asked for: POSIX.1-2017, XCU split; `-C`, `-n`, `-d`, `-x`, `-e`, `-t`,
//! `--additional-suffix` and `--verbose` are GNU's.
ghost use Rattle.std.specs.Prelude.{◌≡◌, ℕ, ◌+◌, ◌^◌, ◌<◌, ◌≤◌, filter, map, IfOk, IfErr};
ghost use Rattle.ports_core.specs.Name.{name_count};
ghost use Rattle.words_core.specs.{
  Given.{operand_seen, option_seen},
  SplitWords.{SplitAsked, files_in, first_number, fixed, for_all, free, least_width, names_all, no_options},
  SplitWords.{or_two, separator_in, split_asked, split_by, split_of, suffix_for, thousand_lines, way_in, is_way},
  SplitWords.{only_way, wide_enough},
  Division.{dealt_by, way_of_division},
  declared.division.Dealing.TheVariants.Turns,
  inner.SplitWords.with_way,
  Choice.seen,
};

use crate::choice::Choice;
use crate::division::{Dealing, Division};
use crate::spelled::{Chosen, Operand, Spelled};
use ports_core::{Alphabet, Fault, STANDARD_INPUT, UsageKind};
use seg_core::cut::{Chunks, Cut, Limit, Way};
use seg_core::line::NEWLINE;
use seg_core::unit::Unit;
use std::marker::Model;

/// What `split` is to do with its input. The suffixes of its files' names have 1 to 255 characters.
#[derive(Drop)]
pub struct SplitSettings<'a> {
    /// What becomes of the input.
    pub way: Way,
    /// The characters of the suffixes.
    pub alphabet: Alphabet,
    /// How many characters a suffix has; if suffixes widen, how many the first ones have.
    pub width: u32,
    /// Whether suffixes widen.
    pub auto: bool,
    /// The number of the first file, at most 2^63-1, if an option gives it; suffixes don't widen then. Without it the
    /// number is 0.
    pub from: Option<u64>,
    /// Whether files that stay empty are left out.
    pub elide: bool,
    /// Whether standard output gets a line for each file before the file is opened.
    pub verbose: bool,
    /// The input's name; `-` is standard input.
    pub input: &'a str,
    /// What the files' names begin with.
    pub prefix: &'a str,
    /// What the files' names end with; it has no `/`.
    pub ending: &'a str,
}

impl<'a> Model for SplitSettings<'a> {
    ghost Value = { SplitAsked };

    ghost view = { λ s. record {
      way = s.way;
      alphabet = s.alphabet;
      width = s.width;
      auto = s.auto;
      from = s.from;
      elide = s.elide;
      verbose = s.verbose;
      input = s.input.now;
      prefix = s.prefix.now;
      ending = s.ending.now;
    } };
}

/// How files are cut if no way to split is given.
fn thousand_lines(delim: u8) -> Way
    ensures { result ≡ thousand_lines delim }
{
    Way::Cut(Cut::Parts(Limit::Lines(1000, delim)))
}

/// What the names of files begin with, if no operand says it.
const PREFIX: &str = "x";

/// What is asked for without words; a width of 0 stands for none.
fn no_options<'a>() -> SplitSettings<'a>
    ensures { result ≡ no_options }
{
    SplitSettings {
        way: thousand_lines(NEWLINE),
        alphabet: Alphabet::Letters,
        width: 0,
        auto: false,
        from: None,
        elide: false,
        verbose: false,
        input: STANDARD_INPUT,
        prefix: PREFIX,
        ending: "",
    }
}

impl<'a> SplitSettings<'a> {
    /// Takes in what one more option asks for.
    fn take(&mut self, choice: Choice<'a>)
        ensures { self.new ≡ split_by self.old (seen choice.entry) }
    {
        match choice {
            Choice::Width(width) => self.width = u32::from(width),
            Choice::Suffixes(alphabet, from) => {
                self.alphabet = alphabet;
                self.from = from;
            }
            Choice::ElideEmptyFiles => self.elide = true,
            Choice::Verbose => self.verbose = true,
            Choice::Ending(ending) => self.ending = ending,
            _ => {}
        }
    }
}

/// What stands after the prefix of a name.
#[derive(Clone, Copy)]
pub struct Suffix {
    /// How many characters a suffix has, or has at first.
    pub width: u32,
    /// Whether suffixes widen.
    pub auto: bool,
}

/// What words ask of `split`, with all checks of the words together.
///
/// # Errors
///
/// `Usage` with what is wrong, and the place of the word.
pub fn settle_split<'a>(spelled: &Spelled<'a>) -> Result<SplitSettings<'a>, Fault>
    ensures { result ≡ split_asked spelled.now }
{
    let options = choose_split(&spelled.options);
    let way = choose_way(separator_in(&spelled.options), &spelled.options)?;
    let suffix = choose_suffix(way, options.alphabet, options.from, options.width)?;
    let (input, prefix) = take_files(&spelled.operands)?;
    Ok(SplitSettings {
        way,
        width: suffix.width,
        auto: suffix.auto,
        input,
        prefix,
        ..options
    })
}

/// What all options ask for, except the way to split.
fn choose_split<'a>(options: &[Chosen<'a>]) -> SplitSettings<'a>
    ensures { result ≡ split_of (map option_seen options.now) }
{
    let mut asked = no_options();
    for option in options {
        asked.take(option.choice);
    }
    asked
}

/// The byte that lines end with.
fn separator_in(options: &[Chosen<'_>]) -> u8
    ensures { result ≡ separator_in (map option_seen options.now) }
{
    let mut delim = NEWLINE;
    for option in options {
        if let Choice::Separator(byte) = option.choice {
            delim = byte;
        }
    }
    delim
}

/// The way to split, for lines that end with this byte.
///
/// # Errors
///
/// `Usage` with the place of the word of the second way, if two ways are given.
fn choose_way(delim: u8, options: &[Chosen<'_>]) -> Result<Way, Fault>
    ensures { result ≡ only_way delim (filter is_way (map option_seen options.now)) }
{
    let mut way = None;
    let mut left = options;
    while let [option, rest @ ..] = left {
        way = with_way(delim, way, option)?;
        left = rest;
    }
    Ok(way.unwrap_or(thousand_lines(delim)))
}

/// The way to split after one more option.
fn with_way(delim: u8, way: Option<Way>, option: &Chosen<'_>) -> Result<Option<Way>, Fault>
    ensures { result ≡ with_way delim way (option_seen option.now) }
{
    match (way_in(delim, option.choice), way) {
        (None, way) => Ok(way),
        (Some(found), None) => Ok(Some(found)),
        (Some(_), Some(_)) => Err(Fault::Usage(UsageKind::TwoWays, option.word)),
    }
}

/// The way to split that an option gives, if it is one.
fn way_in(delim: u8, choice: Choice<'_>) -> Option<Way>
    ensures { result ≡ way_in delim (seen choice.entry) }
{
    let limit = match choice {
        Choice::LinesEach(size) => Limit::Lines(size, delim),
        Choice::BytesEach(size) => Limit::Bytes(size),
        Choice::LineBytesEach(size) => Limit::LineBytes(size, delim),
        Choice::Divided(division) => return Some(way_of_division(delim, division)),
        _ => return None,
    };
    Some(Way::Cut(Cut::Parts(limit)))
}

/// The way to split an input that is divided in this way, if its lines end with this byte.
fn way_of_division(delim: u8, division: Division) -> Way
    ensures { result ≡ way_of_division delim division }
{
    let unit = match division.dealing {
        Dealing::Bytes => Unit::Bytes,
        Dealing::Lines => Unit::Lines,
        Dealing::Turns => return way_of_turns(delim, division.files, division.only),
    };
    let chunks = Chunks {
        count: division.files,
        unit,
        delim,
    };
    match division.only {
        None => Way::Chunks(chunks),
        Some(place) => Way::Chunk(place, chunks),
    }
}

/// The way to split an input whose lines are dealt in turn to this many files, or of which only one of these files is
/// written.
fn way_of_turns(delim: u8, files: u64, only: Option<u64>) -> Way
    ensures { result ≡ dealt_by delim Turns files only }
{
    match only {
        None => Way::Cut(Cut::Round(files, delim)),
        Some(place) => Way::Turn(place, files, delim),
    }
}

/// The suffixes of files that are cut in this way, if the first file has this number and this width is given; a width
/// of 0 stands for none.
fn choose_suffix(
    way: Way,
    alphabet: Alphabet,
    from: Option<u64>,
    width: u32,
) -> Result<Suffix, Fault>
    ensures { result ≡ suffix_for way alphabet from width }
{
    match (way, from) {
        (Way::Cut(Cut::Round(files, _)), _) => suffix_for_all(alphabet, from, files, width),
        (Way::Chunks(chunks), _) => suffix_for_all(alphabet, from, chunks.count, width),
        (Way::Cut(Cut::Parts(_)), Some(from)) => suffix_from(alphabet, from, width),
        (Way::Cut(Cut::Parts(_)), None) => Ok(free(width)),
        (Way::Chunk(_, _) | Way::Turn(_, _, _), _) => Ok(fixed(or_two(width))),
    }
}

/// The number of the first file.
fn first_number(from: Option<u64>) -> u64
    ensures { result ≡ first_number from }
{
    from.unwrap_or(0)
}

/// Suffixes of this width, or suffixes that widen if it is 0.
fn free(width: u32) -> Suffix
    ensures { result ≡ free width }
{
    if width == 0 {
        return Suffix {
            width: 2,
            auto: true,
        };
    }
    fixed(width)
}

/// The suffixes of this many files, of this width; if it is 0, of the least width that writes all of their numbers.
fn suffix_for_all(
    alphabet: Alphabet,
    from: Option<u64>,
    files: u64,
    width: u32,
) -> Result<Suffix, Fault>
    ensures { result ≡ for_all alphabet (first_number from + files) width }
{
    let count = u128::from(first_number(from)) + u128::from(files);
    if width == 0 {
        return Ok(fixed(least_width(alphabet, count)));
    }
    wide_enough(alphabet, count, width)
}

/// The suffixes of files that come one after another from this number on, of this width, or of 2 characters if it is 0.
fn suffix_from(alphabet: Alphabet, from: u64, width: u32) -> Result<Suffix, Fault>
    ensures { result ≡ wide_enough alphabet (from + 1) (or_two width) }
{
    wide_enough(alphabet, u128::from(from) + 1, or_two(width))
}

/// This width, or 2 if it is 0.
fn or_two(width: u32) -> u32
    ensures { result ≡ or_two width }
{
    if width == 0 { 2 } else { width }
}

/// Suffixes of this width, which must write this many numbers, from 0 on.
fn wide_enough(alphabet: Alphabet, count: u128, width: u32) -> Result<Suffix, Fault>
    ensures { result ≡ wide_enough alphabet count width }
{
    if !names_all(alphabet, count, width) {
        return Err(Fault::Usage(UsageKind::SuffixTooShort, 0));
    }
    Ok(fixed(width))
}

fn fixed(width: u32) -> Suffix
    ensures { result ≡ fixed width }
{
    Suffix { width, auto: false }
}

/// The width that writes all numbers that files can have.
const ENOUGH: u32 = 23;

/// The least width, from 2 on, that writes this many numbers, from 0 on.
fn least_width(alphabet: Alphabet, count: u128) -> u32
    ensures value { result ≡ least_width alphabet count }
    ensures some { 2 ≤ result }
    ensures few { result ≤ 23 }
    ensures enough { count ≤ 10 ^ 20 → count ≤ name_count alphabet result }
    ensures least { (width : ℕ) → 2 ≤ width → width < result → name_count alphabet width < count }
{
    for width in 2..ENOUGH {
        if names_all(alphabet, count, width) {
            return width;
        }
    }
    ENOUGH
}

/// Whether this width writes this many numbers, from 0 on.
fn names_all(alphabet: Alphabet, count: u128, width: u32) -> bool
    ensures { result ≡ names_all alphabet count width }
{
    count <= u128::from(alphabet.radix()).saturating_pow(width)
}

/// The operands: the name of the input, and what the names of files begin with.
///
/// # Errors
///
/// `Usage` with the place of the third operand, if there are more than two.
fn take_files<'a>(operands: &[Operand<'a>]) -> Result<(&'a str, &'a str), Fault>
    ensures ok { IfOk result (λ names. files_in (map operand_seen operands.now) ≡ Ok (names.0.now, names.1.now)) }
    ensures err { IfErr result (λ fault. files_in (map operand_seen operands.now) ≡ Err fault) }
{
    match operands {
        [] => Ok((STANDARD_INPUT, PREFIX)),
        [input] => Ok((input.text, PREFIX)),
        [input, prefix] => Ok((input.text, prefix.text)),
        [_, _, extra, ..] => Err(Fault::Usage(UsageKind::ExtraOperand, extra.word)),
    }
}
