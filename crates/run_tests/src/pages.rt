//! The caller on the page of `tools_core`: `tests/documents` compares it with the page.
mod sound_run;

use crate::left::inputs_of;
use mem_core::MemOut;
use sound_run::runs_well;
use std::test::Fail;

#[test]
fn runs_tail(rt: HostRuntime) -> Result<(), Fail> {
    let mut inputs = inputs_of(rt.alloc(), &[("log", b"a\nb\n")], b"")?;
    let mut outs = MemOut::new(rt.alloc())?;
    let words: [&str; 4] = ["tail", "-n", "1", "log"];
    assert!(rt; runs_well(rt.alloc(), &words, &mut inputs, &mut outs));
    assert_eq!(rt; outs.bytes(0), b"b\n".as_slice());
    Ok(())
}
