//! Whole runs over memory that are asked for help or the version: the text, and nothing read or opened; and words that ask for none.
use crate::left::{Left, NOTHING, Plan, Run, check_twice};
use ports_core::Fault;
use std::alloc::Global;
use std::process::Abort;
use std::test::Fail;

/// The help of `head`.
pub(crate) const HEAD_HELP: &[u8] = b"Usage: cutters head [OPTION]... [FILE]...
head writes the first lines or bytes of files.

  -n, --lines=COUNT             write COUNT lines; with - all but the last COUNT
  -c, --bytes=COUNT             write COUNT bytes; with - all but the last COUNT
  -q, --quiet, --silent         write no headers
  -v, --verbose                 write a header before each file
  -z, --zero-terminated         lines end with byte 0, not with a newline
  --help                        write help, and do nothing else
  --version                     write the version, and do nothing else

The manual: man cutters-head
";

const TEE_HELP: &[u8] = b"Usage: cutters tee [OPTION]... [FILE]...
tee copies its input to standard output and files.

  -a, --append                  append to the files
  -p, --output-error[=MODE]     go on (warn) or exit once an output is broken
  --help                        write help, and do nothing else
  --version                     write the version, and do nothing else

The manual: man cutters-tee
";

const HELP: &[u8] = b"Usage: cutters TOOL [OPTION]... [OPERAND]...
cutters is these tools in one program.

  head                          writes the first lines or bytes of files
  tail                          writes the last lines or bytes, follows files
  split                         cuts a file into pieces
  csplit                        cuts a file at patterns and line numbers
  tee                           copies its input to standard output and files
  --help                        write help, and do nothing else
  --version                     write the version, and do nothing else

The manual: man cutters
";

const HEAD_VERSION: &[u8] = b"head (cutters) 1.1.0\n";

const TAIL_VERSION: &[u8] = b"tail (cutters) 1.1.0\n";

const SPLIT_VERSION: &[u8] = b"split (cutters) 1.1.0\n";

const CSPLIT_VERSION: &[u8] = b"csplit (cutters) 1.1.0\n";

/// Words, and what is on standard output and standard error then.
type Row<'a> = (&'a [&'a str], &'a [u8], &'a [u8]);

/// Runs the words of each row with an input and a file that are not read.
fn tell(rt: &impl Abort, alloc: Global, rows: &[Row<'_>]) -> Result<(), Fail> {
    for row in rows {
        tells(rt, alloc, row)?;
    }
    Ok(())
}

fn tells(rt: &impl Abort, alloc: Global, row: &Row<'_>) -> Result<(), Fault> {
    let run = Run {
        words: row.0,
        files: &[("f", b"x\n")],
        input: b"a\n",
        plans: &[],
        left: Left {
            output: row.1,
            messages: row.2,
            status: u8::from(!row.2.is_empty()),
            ..NOTHING
        },
    };
    check_twice(rt, alloc, &run)
}

#[test]
fn tells_about_tools(rt: HostRuntime) -> Result<(), Fail> {
    for rows in [TEXTS, FAULTS] {
        tell(&rt, rt.alloc(), rows)?;
    }
    Ok(())
}

/// What stands after such a word is not read, and the line as a whole is not checked.
const TEXTS: &[Row<'static>] = &[
    (&["--help"], HELP, b""),
    (&["--help", "head", "-x"], HELP, b""),
    (&["--version"], b"cutters 1.1.0\n", b""),
    (&["head", "--help"], HEAD_HELP, b""),
    (&["head", "--he"], HEAD_HELP, b""),
    (&["head", "--h", "--version"], HEAD_HELP, b""),
    (&["head", "--help", "-n", "x"], HEAD_HELP, b""),
    (&["head", "--help", "-x"], HEAD_HELP, b""),
    (&["head", "--help", "-n"], HEAD_HELP, b""),
    (&["head", "f", "-n", "1", "--help"], HEAD_HELP, b""),
    (&["head", "-5", "--help"], HEAD_HELP, b""),
    (&["head", "-5q", "--help"], HEAD_HELP, b""),
    (
        &["head", "-qv", "-", "--version", "--help"],
        HEAD_VERSION,
        b"",
    ),
    (
        &["head", "-c", "2", "--vers=", "--version"],
        b"",
        b"head: unexpected value '--vers='\n",
    ),
    (&["tee", "--help"], TEE_HELP, b""),
    (&["tee", "f", "g", "--hel", "-i"], TEE_HELP, b""),
    (&["tail", "--version"], TAIL_VERSION, b""),
    (&["tail", "-f", "f", "--versi"], TAIL_VERSION, b""),
    (&["tail", "--retry", "--version"], TAIL_VERSION, b""),
    (
        &["split", "-l", "1", "-b", "1", "--version"],
        SPLIT_VERSION,
        b"",
    ),
    (&["split", "a", "b", "c", "--version"], SPLIT_VERSION, b""),
    (&["csplit", "--version"], CSPLIT_VERSION, b""),
    (&["csplit", "-", "{2}", "--version"], CSPLIT_VERSION, b""),
];

/// A fault to the left comes first, and a value or an operand is no option.
const FAULTS: &[Row<'static>] = &[
    (
        &["head", "-n", "x", "--help"],
        b"",
        b"head: invalid number 'x'\n",
    ),
    (
        &["head", "-x", "--version"],
        b"",
        b"head: unknown option '-x'\n",
    ),
    (
        &["head", "-n", "--help"],
        b"",
        b"head: invalid number '--help'\n",
    ),
    (
        &["head", "--lines", "--version"],
        b"",
        b"head: invalid number '--version'\n",
    ),
    (
        &["head", "--", "--help"],
        b"",
        b"head: cannot open '--help'\n",
    ),
    (
        &["head", "--hel=3"],
        b"",
        b"head: unexpected value '--hel=3'\n",
    ),
    (&["head", "--v"], b"", b"head: ambiguous option '--v'\n"),
    (&["tail", "--ver"], b"", b"tail: ambiguous option '--ver'\n"),
    (&["split", "--he"], b"", b"split: ambiguous option '--he'\n"),
    (&["head", "-h"], b"", b"head: unknown option '-h'\n"),
    (
        &["head", "--helpp"],
        b"",
        b"head: unknown option '--helpp'\n",
    ),
    (
        &["csplit", "-n", "x", "--help"],
        b"",
        b"csplit: invalid number 'x'\n",
    ),
    (&["--hel"], b"", b"cutters: unknown tool '--hel'\n"),
    (
        &["--version=1"],
        b"",
        b"cutters: unknown tool '--version=1'\n",
    ),
    (
        &["cutters", "--help"],
        b"",
        b"cutters: unknown tool 'cutters'\n",
    ),
];

/// Standard output takes a beginning of the text, or nothing.
pub(crate) const REFUSED: &[Run<'static>] = &[
    Run {
        words: &["head", "--help"],
        files: &[],
        input: b"",
        plans: &[Plan::Limit(0, 6)],
        left: Left {
            output: b"Usage:",
            messages: b"head: cannot write 'standard output'\n",
            status: 1,
            ..NOTHING
        },
    },
    Run {
        words: &["--version"],
        files: &[],
        input: b"",
        plans: &[Plan::Limit(0, 0)],
        left: Left {
            messages: b"cutters: cannot write 'standard output'\n",
            status: 1,
            ..NOTHING
        },
    },
    Run {
        words: &["tee", "--", "--help"],
        files: &[],
        input: b"a\n",
        plans: &[],
        left: Left {
            output: b"a\n",
            files: &[("--help", b"a\n")],
            ..NOTHING
        },
    },
];
