//! The callers on the pages of `ports_core`, `watch_core` and `mem_core`: `tests/documents` compares them with the pages.
mod watched_size;
mod written_file;
mod written_text;

use crate::compare::{same, same_bytes};
use mem_core::{Edit, MemOut, MemWatch};
use std::test::Fail;
use watched_size::size_of;
use written_file::write_file;
use written_text::outputs_with;

#[test]
fn writes_a_file(rt: HostRuntime) -> Result<(), Fail> {
    let mut outs = MemOut::new(rt.alloc())?;
    same(&rt, &write_file("f", b"abc", &mut outs), &Ok(()));
    same_bytes(&rt, outs.bytes(2), b"abc");
    Ok(())
}

#[test]
fn looks_at_a_file(rt: HostRuntime) -> Result<(), Fail> {
    let mut watch = MemWatch::new(rt.alloc())?;
    same(&rt, &watch.then(&[Edit::Replace("f", b"abc")]), &Ok(()));
    same(&rt, &size_of("f", &mut watch), &Ok(Some(3)));
    Ok(())
}

#[test]
fn writes_into_memory(rt: HostRuntime) -> Result<(), Fail> {
    let outs = outputs_with(rt.alloc(), b"abc")?;
    same_bytes(&rt, outs.bytes(0), b"abc");
    Ok(())
}
