//! The callers on the pages of the engines' crates: `tests/documents` compares them with the pages.
mod copied_twice;
mod first_lines;
mod followed_file;
mod operand_count;
mod text_parts;
mod text_sections;
mod whole_text;

use crate::csplit_tests::{Options, style_of};
use crate::play::has_files;
use copied_twice::copy_twice;
use csplit_core::read_operands;
use ends_core::{Head, Unit};
use first_lines::write_first_lines;
use followed_file::follow_file;
use mem_core::{Edit, MemOut, MemWatch};
use operand_count::count_operands;
use ports_core::Calling;
use std::test::Fail;
use text_parts::write_parts;
use text_sections::write_sections;
use whole_text::take_text;

#[test]
fn writes_first_lines(rt: HostRuntime) -> Result<(), Fail> {
    let mut outs = MemOut::new(rt.alloc())?;
    write_first_lines(rt.alloc(), 2, b"a\nb\nc\n", &mut outs)?;
    assert_eq!(rt; outs.bytes(0), b"a\nb\n".as_slice());
    Ok(())
}

#[test]
fn writes_parts(rt: HostRuntime) -> Result<(), Fail> {
    let mut outs = MemOut::new(rt.alloc())?;
    write_parts(rt.alloc(), 2, b"a\nb\nc\n", &mut outs)?;
    assert!(rt; has_files(&outs, &[b"a\nb\n", b"c\n"]));
    Ok(())
}

#[test]
fn counts_operands(rt: HostRuntime) {
    let count = count_operands(rt.alloc(), Calling::Cutters, &["/^a/", "{*}", "5"]);
    assert!(rt; matches!(count, Ok(2)));
}

#[test]
fn writes_sections(rt: HostRuntime) -> Result<(), Fail> {
    let mut outs = MemOut::new(rt.alloc())?;
    let operands = read_operands(rt.alloc(), Calling::Cutters, &["/^b/"]).expect(
        &rt,
        "these are operands",
    );
    let style = style_of(rt.alloc(), Options::Quiet)?;
    write_sections(rt.alloc(), &operands, style, b"a\nb\nc\n", &mut outs)?;
    assert!(rt; has_files(&outs, &[b"a\n", b"b\nc\n"]));
    Ok(())
}

#[test]
fn copies_twice(rt: HostRuntime) -> Result<(), Fail> {
    let mut outs = MemOut::new(rt.alloc())?;
    assert_eq!(rt; copy_twice(rt.alloc(), b"a", b"b", &mut outs)?, 0);
    assert_eq!(rt; outs.bytes(0), b"ab".as_slice());
    assert!(rt; has_files(&outs, &[b"ab"]));
    Ok(())
}

#[test]
fn follows_a_file(rt: HostRuntime) -> Result<(), Fail> {
    let mut watch = MemWatch::new(rt.alloc())?;
    watch.then(&[Edit::Replace("log", b"a\nb\n")])?;
    watch.then(&[Edit::Append("log", b"c\n")])?;
    let mut outs = MemOut::new(rt.alloc())?;
    assert_eq!(rt; follow_file(rt.alloc(), 2, &mut watch, &mut outs), 0);
    assert_eq!(rt; outs.bytes(0), b"b\nc\n".as_slice());
    Ok(())
}

#[test]
fn takes_a_text(rt: HostRuntime) -> Result<(), Fail> {
    let mut outs = MemOut::new(rt.alloc())?;
    let mut head = Head::open(rt.alloc(), Unit::Lines, false, 1, b'\n')?;
    take_text(&mut head, b"a\nb\n", &mut outs)?;
    assert_eq!(rt; outs.bytes(0), b"a\n".as_slice());
    Ok(())
}
