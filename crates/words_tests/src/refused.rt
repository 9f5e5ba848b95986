//! Words that are refused, and the check of them.
use ports_core::{Calling, Fault, UsageKind};
use std::alloc::Global;
use std::process::Abort;
use words_core::read_words_as;

/// Words, what is wrong, and the place of the word that is told.
pub(crate) type Refused<'a> = (&'a [&'a str], UsageKind, usize);

/// Both ways to call the program.
pub(crate) const CALLINGS: &[Calling] = &[Calling::Cutters, Calling::OwnName];

/// Checks that the words of each row are refused so, however the program is called.
pub(crate) fn refuse(rt: &impl Abort, alloc: Global, rows: &[Refused<'_>]) {
    for calling in CALLINGS {
        refuse_called(rt, alloc, *calling, rows);
    }
}

/// Checks that the words of each row are refused so, where the program is called in this way.
pub(crate) fn refuse_called(
    rt: &impl Abort,
    alloc: Global,
    calling: Calling,
    rows: &[Refused<'_>],
) {
    for row in rows {
        refuses(rt, alloc, calling, row);
    }
}

fn refuses(rt: &impl Abort, alloc: Global, calling: Calling, row: &Refused<'_>) {
    let (words, kind, word) = *row;
    match read_words_as(alloc, calling, words) {
        Ok(_) => assert!(rt; false, "{calling:?} at {words:?}"),
        Err(fault) => assert_eq!(rt; fault, Fault::Usage(kind, word), "{calling:?} at {words:?}"),
    }
}
