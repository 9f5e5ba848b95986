//! The watch over standard input, whatever that is.

use crate::compare::same;
use crate::reading::inputs_of;
use ports_core::{Fault, InputFiles, Inputs, STANDARD_INPUT};
use std::fs;
use std::test::Fail;
use watch_core::{DirWatch, Watch};

/// How many bytes a look finds under the name of standard input. None if that is no file.
fn len_watched(rt: HostRuntime) -> Result<Option<u64>, Fault> {
    let mut watch = DirWatch::new(rt, rt.alloc());
    watch.find_input();
    if !watch.has_input() {
        return Ok(None);
    }
    let place = watch.add(STANDARD_INPUT)?;
    watch.turn()?;
    match watch.look(place)? {
        Some(file) => Ok(Some(file.len)),
        None => Ok(None),
    }
}

/// How many bytes standard input shows; 0 if it shows none. None if it is no file.
fn len_shown(rt: HostRuntime) -> Option<u64> {
    let about = fs::metadata(&rt, "/proc/self/fd/0").ok()?;
    if !about.is_file() {
        return None;
    }
    let noted = InputFiles::new(rt.alloc());
    let mut inputs = inputs_of(rt, &noted);
    Some(inputs.shown(0).unwrap_or(0))
}

#[test]
fn standard_input_is_watched_from_where_it_stands(rt: HostRuntime) -> Result<(), Fail> {
    let shown = len_shown(rt);
    same(&rt, &len_watched(rt), &Ok(shown));
    Ok(())
}
