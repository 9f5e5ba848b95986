//! Long texts, written as parts that are repeated.
use std::alloc::Global;
use std::process::Abort;

/// A text, and how often it stands there.
pub(crate) type Part<'a> = (&'a [u8], usize);

/// The parts, one after another.
pub(crate) fn joined(rt: &impl Abort, alloc: Global, parts: &[Part<'_>]) -> Vec<u8> {
    let mut all = Vec::new(alloc);
    for (text, count) in parts {
        for _done in 0..*count {
            all.extend_from_slice(text).expect(rt, "there is memory");
        }
    }
    all
}
