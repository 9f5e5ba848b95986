//! Standard input as a name that is watched.
ghost use Rattle.std.specs.Prelude.{◌≡◌};
ghost use Rattle.watch_core.specs.Watched.{is_input};

use ports_core::{STANDARD_INPUT, standard_input_place};
use std::fs;
use std::rt::Files;

/// The system's name for standard input, whatever other names lead to.
const PATH: &str = "/proc/self/fd/0";

/// Whether this is the name under which standard input is watched: `-`.
pub fn is_input(name: &str) -> bool
    ensures { result ≡ is_input name.now }
{
    name == STANDARD_INPUT
}

/// Whether standard input is a regular file that the system opens anew, and of which it says where it stands. Without one of these it
/// is read as it comes, as any other standard input is.
pub(crate) fn can_watch_input(files: &impl Files) -> bool {
    match fs::metadata(files, PATH) {
        Ok(about) if about.is_file() => {
            standard_input_place(files).is_some() && fs::open(files, PATH).is_ok()
        }
        Ok(_) | Err(_) => false,
    }
}

/// Where the system finds what a name leads to.
pub(crate) fn path_of(name: &str) -> &str {
    if is_input(name) {
        return PATH;
    }
    name
}

/// The place in its file from which on a name is watched: 0, but of standard input that at which it stands, where the system says so.
pub(crate) fn place_of(files: &impl Files, name: &str) -> u64 {
    if is_input(name) {
        return standard_input_place(files).unwrap_or(0);
    }
    0
}
