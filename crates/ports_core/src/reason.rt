ghost use Rattle.std.specs.{Prelude.◌≡◌, IoError.error_kind};
ghost use Rattle.ports_core.specs.Reason.{reason_at, reason_in, reason_of, reason_text, reason_without};

use std::io::{Error, ErrorKind};

/// Why an output, an input or a watched name broke, as far as the system says.
#[derive(Clone, Copy, Debug, PartialEq, Eq)]
pub enum Reason {
    /// Nobody reads the output any more.
    Gone,
    /// There is no such file or folder.
    Missing,
    /// The call isn't permitted.
    Denied,
    /// The file is a folder.
    Folder,
    /// Something on the way to the file should be a folder, and isn't.
    NoFolder,
    /// The device has no space left.
    Full,
    /// The file would be larger than is allowed.
    TooLarge,
    /// The file system can only be read.
    ReadOnly,
    /// The user may use no more of the disk.
    Quota,
    /// The process has too many files open.
    TooMany,
    /// The device failed.
    Device,
    /// The file is a program that runs.
    Busy,
    /// The name is too long.
    LongName,
    /// Links on the way to it lead in a circle.
    Circle,
    /// The stream isn't open: it is a standard stream that was closed, or that is open only for the other way.
    NotOpen,
    /// There is no such device, or nobody listens there.
    NoDevice,
    /// The file is an input, which no output may be.
    Input,
    /// The system doesn't say whether the file is an input.
    MayBeInput,
    /// The input is a device that goes on without an end, as `/dev/zero`, and its length was needed.
    Endless,
    /// The name isn't UTF-8: it was read as a text with a byte 0, which no file's name has.
    NotUtf8,
    /// Any other reason, or none that is known.
    Other,
}

impl Reason {
    /// What a message says of the reason, after the name: nothing for `Gone`, `Endless` and `Other`. For other reasons
    /// of the system it is the system's text in English.
    pub fn text(self) -> &'static [u8]
        ensures { result.now ≡ reason_text self }
    {
        match self {
            Reason::Gone | Reason::Endless | Reason::Other => b"",
            Reason::Missing => b": No such file or directory",
            Reason::Denied => b": Permission denied",
            Reason::Folder => b": Is a directory",
            Reason::NoFolder => b": Not a directory",
            Reason::Full => b": No space left on device",
            Reason::TooLarge => b": File too large",
            Reason::ReadOnly => b": Read-only file system",
            Reason::Quota => b": Disk quota exceeded",
            Reason::TooMany => b": Too many open files",
            Reason::Device => b": Input/output error",
            Reason::Busy => b": Text file busy",
            Reason::LongName => b": File name too long",
            Reason::Circle => b": Too many levels of symbolic links",
            Reason::NotOpen => b": Bad file descriptor",
            Reason::NoDevice => b": No such device or address",
            Reason::Input => b": is an input",
            Reason::MayBeInput => b": cannot tell whether it is an input",
            Reason::NotUtf8 => b": name is not UTF-8",
        }
    }

    /// Why a call failed, by the number that Linux has for its error. The library itself refuses a name with a byte 0,
    /// without a number.
    pub fn of(error: &Error) -> Reason
        ensures { result ≡ reason_of error.now }
    {
        match error.raw_os_error() {
            Some(code) => by_code(code),
            None => without_code(error),
        }
    }
}

/// The numbers that Linux has for reasons.
const REASONS: &[(u32, Reason)] = &[
    (2, Reason::Missing),
    (5, Reason::Device),
    (6, Reason::NoDevice),
    (9, Reason::NotOpen),
    (13, Reason::Denied),
    (20, Reason::NoFolder),
    (21, Reason::Folder),
    (24, Reason::TooMany),
    (26, Reason::Busy),
    (27, Reason::TooLarge),
    (28, Reason::Full),
    (30, Reason::ReadOnly),
    (32, Reason::Gone),
    (36, Reason::LongName),
    (40, Reason::Circle),
    (122, Reason::Quota),
];

/// The reason for this number of Linux. It isn't inlined, so that `Reason::of` is: then a read or write that doesn't
/// fail clears no room for an error.
#[inline(never)]
fn by_code(code: i32) -> Reason
    ensures { result ≡ reason_at code }
{
    match u32::try_from(code) {
        Ok(number) => in_table(REASONS, number),
        Err(_) => Reason::Other,
    }
}

/// The reason for an error that has no number.
#[inline(never)]
fn without_code(error: &Error) -> Reason
    ensures { result ≡ reason_without (error_kind error.now) }
{
    match error.kind() {
        ErrorKind::InvalidInput => Reason::NotUtf8,
        _ => Reason::Other,
    }
}

fn in_table(mut table: &[(u32, Reason)], number: u32) -> Reason
    ensures { result ≡ reason_in table.entry.now number }
{
    while let [row, rest @ ..] = table {
        if number == row.0 {
            return row.1;
        }
        table = rest;
    }
    Reason::Other
}
