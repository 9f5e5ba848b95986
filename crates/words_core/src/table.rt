//! The tools and their options, as their manuals list them: POSIX.1-2017, XCU head, tail, split, csplit and tee; `-q`, `-v`,
//! `-z`, the `-c` of `head`, the `-C`, `-n`, `-d`, `-x`, `-e`, `-t`, `-u`, `--additional-suffix` and `--verbose` of
//! `split`, the `-b` and `--suppress-matched` of `csplit`, the `-F`, `--follow`, `--retry`, `-s`, `--pid` and
//! `--max-unchanged-stats` of `tail`, the `-p` and `--output-error` of `tee` and the long names are GNU's; `--looks` is of
//! these tools alone.
ghost use Rattle.std.specs.Prelude.{◌≡◌, [], ◌∷◌, map, option_map, IfNone, IfSome};
ghost use Rattle.words_core.specs.{
  Table.{beginning, begins_one, is_among, only_one, option_called, option_lettered, option_named, program_table},
  Table.{row_named, row_seen, tool_seen, tools},
};

use crate::choice::{Choice, Kind};
use crate::settings::{Headers, Topic};
use crate::value::Followed;
use ports_core::{Alphabet, Calling, OnBroken, Tool, UsageKind};
use seg_core::unit::Unit;

/// Whether an option takes a value, and what it asks for.
#[derive(Clone, Copy)]
pub enum Takes {
    /// It takes none, and asks for this.
    Nothing(Choice<'static>),
    /// It takes one: what follows its letter, or what follows `=`, or else the next word.
    Value(Kind),
    /// It takes one after `=` alone, and asks for this where it has none.
    Optional(Choice<'static>, Kind),
    /// It takes none, asks for this text, and no word after it is read.
    Last(Topic),
}

/// What letters may follow the digits of a first word of a hyphen and digits.
#[derive(Clone, Copy)]
pub enum Letters {
    /// None.
    Never,
    /// Those of `head`: one that says what is counted, and those of options without a value.
    OfHead,
    /// Those of `tail`: one that says what is counted, and `f`.
    OfTail,
}

/// An option of a tool, with the line that help prints of it.
#[derive(Clone, Copy)]
pub struct OptionRow {
    /// Its names, as they are written.
    pub names: &'static [&'static str],
    /// Whether it takes a value, and what it asks for.
    pub takes: Takes,
    /// What help calls its value; empty where it takes none.
    pub value: &'static str,
    /// What it does, in at most 48 characters.
    pub does: &'static str,
}

/// A tool.
#[derive(Clone, Copy)]
pub struct ToolRow {
    /// The name with which it is called.
    pub name: &'static str,
    /// The tool.
    pub tool: Tool,
    /// Its options.
    pub options: &'static [OptionRow],
    /// The option whose value a first word of a hyphen and digits gives, and the letters that may follow these.
    pub number: Option<(Kind, Letters)>,
    /// Its operands, as help calls them.
    pub operands: &'static str,
    /// What it does, in at most 48 characters, for a sentence that its name begins.
    pub does: &'static str,
}

/// Help, in each tool.
const HELP: OptionRow = OptionRow {
    names: &["--help"],
    takes: Takes::Last(Topic::Help),
    value: "",
    does: "write help, and do nothing else",
};

/// The version, in each tool.
const VERSION: OptionRow = OptionRow {
    names: &["--version"],
    takes: Takes::Last(Topic::Version),
    value: "",
    does: "write the version, and do nothing else",
};

/// What stands in the place of a tool's name, and asks for a text of the program.
const PROGRAM: &[OptionRow] = &[HELP, VERSION];

/// No headers, in `head` and `tail`.
const QUIET: OptionRow = OptionRow {
    names: &["-q", "--quiet", "--silent"],
    takes: Takes::Nothing(Choice::Headers(Headers::Never)),
    value: "",
    does: "write no headers",
};

/// Headers, in `head` and `tail`.
const VERBOSE: OptionRow = OptionRow {
    names: &["-v", "--verbose"],
    takes: Takes::Nothing(Choice::Headers(Headers::Always)),
    value: "",
    does: "write a header before each file",
};

/// Lines that end with byte 0, in `head` and `tail`.
const ZERO_TERMINATED: OptionRow = OptionRow {
    names: &["-z", "--zero-terminated"],
    takes: Takes::Nothing(Choice::ZeroTerminated),
    value: "",
    does: "lines end with byte 0, not with a newline",
};

/// The options of `head`.
const HEAD: &[OptionRow] = &[
    OptionRow {
        names: &["-n", "--lines"],
        takes: Takes::Value(Kind::Amount(Unit::Lines)),
        value: "COUNT",
        does: "write COUNT lines; with - all but the last COUNT",
    },
    OptionRow {
        names: &["-c", "--bytes"],
        takes: Takes::Value(Kind::Amount(Unit::Bytes)),
        value: "COUNT",
        does: "write COUNT bytes; with - all but the last COUNT",
    },
    QUIET,
    VERBOSE,
    ZERO_TERMINATED,
    HELP,
    VERSION,
];

/// The last lines, in `tail`.
const LAST_LINES: OptionRow = OptionRow {
    names: &["-n", "--lines"],
    takes: Takes::Value(Kind::Amount(Unit::Lines)),
    value: "COUNT",
    does: "write COUNT lines; with + all from line COUNT on",
};

/// The last bytes, in `tail`.
const LAST_BYTES: OptionRow = OptionRow {
    names: &["-c", "--bytes"],
    takes: Takes::Value(Kind::Amount(Unit::Bytes)),
    value: "COUNT",
    does: "write COUNT bytes; with + all from byte COUNT on",
};

/// Following, in `tail`.
const FOLLOW: OptionRow = OptionRow {
    names: &["-f", "--follow"],
    takes: Takes::Optional(
        Choice::Follow(Followed::Descriptor),
        Kind::Follow(Calling::Cutters),
    ),
    value: "HOW",
    does: "follow what is appended, by descriptor or name",
};

/// The same, called by its own name.
const OWN_FOLLOW: OptionRow = OptionRow {
    takes: Takes::Optional(
        Choice::Follow(Followed::Descriptor),
        Kind::Follow(Calling::OwnName),
    ),
    ..FOLLOW
};

/// Following names that are looked for, in `tail`.
const NAMES: OptionRow = OptionRow {
    names: &["-F"],
    takes: Takes::Nothing(Choice::FollowNames),
    value: "",
    does: "the same as --follow=name --retry",
};

/// Looking for names, in `tail`.
const RETRY: OptionRow = OptionRow {
    names: &["--retry"],
    takes: Takes::Nothing(Choice::Retry),
    value: "",
    does: "with --follow=name, wait for missing names",
};

/// A number of looks, in `tail`.
const LOOKS: OptionRow = OptionRow {
    names: &["--looks"],
    takes: Takes::Value(Kind::Looks),
    value: "NUMBER",
    does: "end after NUMBER checks of what is followed",
};

/// A pause, in `tail`.
const PAUSE: OptionRow = OptionRow {
    names: &["-s", "--sleep-interval"],
    takes: Takes::Value(Kind::Pause),
    value: "SECONDS",
    does: "check what is followed within this time",
};

/// A process, in `tail`.
const PROCESS: OptionRow = OptionRow {
    names: &["--pid"],
    takes: Takes::Value(Kind::Process),
    value: "PID",
    does: "end once the process PID is gone",
};

/// An option without effect, in `tail`.
const UNCHANGED: OptionRow = OptionRow {
    names: &["--max-unchanged-stats"],
    takes: Takes::Value(Kind::NoEffect),
    value: "NUMBER",
    does: "taken without effect",
};

/// The options of `tail`: those of `head`, and how files are followed.
const TAIL: &[OptionRow] = &[
    LAST_LINES,
    LAST_BYTES,
    QUIET,
    VERBOSE,
    ZERO_TERMINATED,
    FOLLOW,
    NAMES,
    RETRY,
    LOOKS,
    PAUSE,
    PROCESS,
    UNCHANGED,
    HELP,
    VERSION,
];

/// The same, called by its own name.
const OWN_TAIL: &[OptionRow] = &[
    LAST_LINES,
    LAST_BYTES,
    QUIET,
    VERBOSE,
    ZERO_TERMINATED,
    OWN_FOLLOW,
    NAMES,
    RETRY,
    LOOKS,
    PAUSE,
    PROCESS,
    UNCHANGED,
    HELP,
    VERSION,
];

/// The options of `split`.
const SPLIT: &[OptionRow] = &[
    OptionRow {
        names: &["-l", "--lines"],
        takes: Takes::Value(Kind::LinesEach),
        value: "LINES",
        does: "put this many lines in each file",
    },
    OptionRow {
        names: &["-b", "--bytes"],
        takes: Takes::Value(Kind::BytesEach),
        value: "BYTES",
        does: "put this many bytes in each file",
    },
    OptionRow {
        names: &["-C", "--line-bytes"],
        takes: Takes::Value(Kind::LineBytesEach),
        value: "BYTES",
        does: "put whole lines of at most BYTES in each file",
    },
    OptionRow {
        names: &["-n", "--number"],
        takes: Takes::Value(Kind::Divided),
        value: "CHUNKS",
        does: "into N files: N, l/N, r/N; the Kth alone: K/N",
    },
    OptionRow {
        names: &["-a", "--suffix-length"],
        takes: Takes::Value(Kind::Width),
        value: "WIDTH",
        does: "names have WIDTH characters after the prefix",
    },
    OptionRow {
        names: &["-d", "--numeric-suffixes"],
        takes: Takes::Optional(
            Choice::Suffixes(Alphabet::Digits, None),
            Kind::NumericSuffixes,
        ),
        value: "FROM",
        does: "digits in names, not letters, from FROM on",
    },
    OptionRow {
        names: &["-x", "--hex-suffixes"],
        takes: Takes::Optional(Choice::Suffixes(Alphabet::Hex, None), Kind::HexSuffixes),
        value: "FROM",
        does: "hexadecimal digits in names, from FROM on",
    },
    OptionRow {
        names: &["-e", "--elide-empty-files"],
        takes: Takes::Nothing(Choice::ElideEmptyFiles),
        value: "",
        does: "with -n, make no empty files",
    },
    OptionRow {
        names: &["-t", "--separator"],
        takes: Takes::Value(Kind::Separator),
        value: "BYTE",
        does: "lines end with BYTE, not with a newline",
    },
    OptionRow {
        names: &["--additional-suffix"],
        takes: Takes::Value(Kind::Ending),
        value: "TEXT",
        does: "names end with TEXT",
    },
    OptionRow {
        names: &["-u", "--unbuffered"],
        takes: Takes::Nothing(Choice::NoEffect),
        value: "",
        does: "taken without effect",
    },
    OptionRow {
        names: &["--verbose"],
        takes: Takes::Nothing(Choice::Verbose),
        value: "",
        does: "write each name before its file is opened",
    },
    HELP,
    VERSION,
];

/// The options of `csplit`.
const CSPLIT: &[OptionRow] = &[
    OptionRow {
        names: &["-f", "--prefix"],
        takes: Takes::Value(Kind::Prefix),
        value: "PREFIX",
        does: "names begin with PREFIX, not with xx",
    },
    OptionRow {
        names: &["-n", "--digits"],
        takes: Takes::Value(Kind::Width),
        value: "DIGITS",
        does: "numbers in names have this many digits, not 2",
    },
    OptionRow {
        names: &["-b", "--suffix-format"],
        takes: Takes::Value(Kind::Format),
        value: "FORMAT",
        does: "write numbers as printf does, as in %03d.txt",
    },
    OptionRow {
        names: &["-k", "--keep-files"],
        takes: Takes::Nothing(Choice::KeepFiles),
        value: "",
        does: "keep files after a fault",
    },
    OptionRow {
        names: &["-s", "-q", "--quiet", "--silent"],
        takes: Takes::Nothing(Choice::Quiet),
        value: "",
        does: "write no sizes",
    },
    OptionRow {
        names: &["-z", "--elide-empty-files"],
        takes: Takes::Nothing(Choice::ElideEmptyFiles),
        value: "",
        does: "make no empty files",
    },
    OptionRow {
        names: &["--suppress-matched"],
        takes: Takes::Nothing(Choice::SuppressMatched),
        value: "",
        does: "leave out the line at each cut",
    },
    HELP,
    VERSION,
];

/// Appending, in `tee`.
const APPEND: OptionRow = OptionRow {
    names: &["-a", "--append"],
    takes: Takes::Nothing(Choice::Append),
    value: "",
    does: "append to the files",
};

/// What is done once an output is broken, in `tee`.
const ON_BROKEN: OptionRow = OptionRow {
    names: &["-p", "--output-error"],
    takes: Takes::Optional(
        Choice::OnBroken(OnBroken::WarnNoPipe),
        Kind::OnBroken(Calling::Cutters),
    ),
    value: "MODE",
    does: "go on (warn) or exit once an output is broken",
};

/// The same, called by its own name.
const OWN_ON_BROKEN: OptionRow = OptionRow {
    takes: Takes::Optional(
        Choice::OnBroken(OnBroken::WarnNoPipe),
        Kind::OnBroken(Calling::OwnName),
    ),
    ..ON_BROKEN
};

/// The options of `tee`.
const TEE: &[OptionRow] = &[APPEND, ON_BROKEN, HELP, VERSION];

/// The same, called by its own name.
const OWN_TEE: &[OptionRow] = &[APPEND, OWN_ON_BROKEN, HELP, VERSION];

/// The tool `head`.
const HEAD_TOOL: ToolRow = ToolRow {
    name: "head",
    tool: Tool::Head,
    options: HEAD,
    number: Some((Kind::Amount(Unit::Lines), Letters::OfHead)),
    operands: "[FILE]...",
    does: "writes the first lines or bytes of files",
};

/// The tool `tail`.
const TAIL_TOOL: ToolRow = ToolRow {
    name: "tail",
    tool: Tool::Tail,
    options: TAIL,
    number: Some((Kind::Amount(Unit::Lines), Letters::OfTail)),
    operands: "[FILE]...",
    does: "writes the last lines or bytes, follows files",
};

/// The same, called by its own name.
const OWN_TAIL_TOOL: ToolRow = ToolRow {
    options: OWN_TAIL,
    ..TAIL_TOOL
};

/// The tool `split`.
const SPLIT_TOOL: ToolRow = ToolRow {
    name: "split",
    tool: Tool::Split,
    options: SPLIT,
    number: Some((Kind::LinesEach, Letters::Never)),
    operands: "[FILE [PREFIX]]",
    does: "cuts a file into pieces",
};

/// The tool `csplit`.
const CSPLIT_TOOL: ToolRow = ToolRow {
    name: "csplit",
    tool: Tool::Csplit,
    options: CSPLIT,
    number: None,
    operands: "FILE OPERAND...",
    does: "cuts a file at patterns and line numbers",
};

/// The tool `tee`.
const TEE_TOOL: ToolRow = ToolRow {
    name: "tee",
    tool: Tool::Tee,
    options: TEE,
    number: None,
    operands: "[FILE]...",
    does: "copies its input to standard output and files",
};

/// The same, called by its own name.
const OWN_TEE_TOOL: ToolRow = ToolRow {
    options: OWN_TEE,
    ..TEE_TOOL
};

/// The tools.
pub const TOOLS: &[ToolRow] = &[HEAD_TOOL, TAIL_TOOL, SPLIT_TOOL, CSPLIT_TOOL, TEE_TOOL];

/// The tools, called by their own names.
const OWN_TOOLS: &[ToolRow] = &[
    HEAD_TOOL,
    OWN_TAIL_TOOL,
    SPLIT_TOOL,
    CSPLIT_TOOL,
    OWN_TEE_TOOL,
];

/// The options of the program: those of the manual.
pub fn program_options() -> &'static [OptionRow]
    ensures { map row_seen result.now ≡ program_table }
{
    PROGRAM
}

/// The table of the tools, by how the program was called: that of the manuals.
pub fn all_tools(calling: Calling) -> &'static [ToolRow]
    ensures { map tool_seen result.now ≡ tools calling }
{
    match calling {
        Calling::Cutters => TOOLS,
        Calling::OwnName => OWN_TOOLS,
    }
}

/// The tool of this name in a table.
pub fn find_row<'a>(rows: &'a [ToolRow], name: &str) -> Option<&'a ToolRow>
    ensures { option_map (λ row. tool_seen row.now) result ≡ row_named (map tool_seen rows.now) name.now }
{
    for row in rows {
        if row.name == name {
            return Some(row);
        }
    }
    None
}

/// What the option of this name takes and asks for, by a tool's table.
pub fn find_option(rows: &[OptionRow], name: &[u8]) -> Option<Takes>
    ensures { result ≡ option_named (map row_seen rows.now) name.now }
{
    for row in rows {
        if is_among(row.names, name) {
            return Some(row.takes);
        }
    }
    None
}

/// What the option of this letter takes and asks for.
pub fn find_letter(rows: &[OptionRow], letter: u8) -> Option<Takes>
    ensures { result ≡ option_lettered (map row_seen rows.now) letter }
{
    if letter.is_ascii() {
        return find_option(rows, &[b'-', letter]);
    }
    None
}

/// Whether a name is one of these.
pub fn is_among(names: &[&str], name: &[u8]) -> bool
    ensures { result ≡ is_among (map (λ known. known.now) names.now) name.now }
{
    for known in names {
        if known.as_bytes() == name {
            return true;
        }
    }
    false
}

/// What the option of this long name takes and asks for, or else the only one of which a name begins so.
///
/// # Errors
///
/// `UnknownOption` where no name begins so, and `AmbiguousOption` where names of several options do.
pub fn find_called(rows: &[OptionRow], name: &[u8]) -> Result<Takes, UsageKind>
    ensures { result ≡ option_called (map row_seen rows.now) name.now }
{
    match find_option(rows, name) {
        Some(found) => Ok(found),
        None => find_only(rows, name),
    }
}

/// What the only option of which a name begins so takes and asks for.
fn find_only(rows: &[OptionRow], start: &[u8]) -> Result<Takes, UsageKind>
    ensures { result ≡ only_one (beginning (map row_seen rows.now) start.now) }
{
    match first_beginning(rows, start) {
        None => Err(UsageKind::UnknownOption),
        Some((row, rest)) => match first_beginning(rest, start) {
            None => Ok(row.takes),
            Some(_) => Err(UsageKind::AmbiguousOption),
        },
    }
}

/// The first option of which a name begins so, and those after it.
fn first_beginning<'a>(
    rows: &'a [OptionRow],
    start: &[u8],
) -> Option<(&'a OptionRow, &'a [OptionRow])>
    ensures none { IfNone result (beginning (map row_seen rows.now) start.now ≡ []) }
    ensures some { IfSome result
        (λ found. beginning (map row_seen rows.now) start.now
        ≡ row_seen found.0.now ∷ beginning (map row_seen found.1.now) start.now) }
{
    let mut left = rows;
    while let [row, rest @ ..] = left {
        if begins_one(row.names, start) {
            return Some((row, rest));
        }
        left = rest;
    }
    None
}

/// Whether one of these names begins so.
fn begins_one(names: &[&str], start: &[u8]) -> bool
    ensures { result ≡ begins_one (map (λ known. known.now) names.now) start.now }
{
    for known in names {
        if known.as_bytes().starts_with(start) {
            return true;
        }
    }
    false
}
