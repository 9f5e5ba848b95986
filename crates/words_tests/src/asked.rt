//! Words that are read, and the check of what they ask for.
use crate::refused::CALLINGS;
use ports_core::Calling;
use std::alloc::Global;
use std::process::Abort;
use words_core::{Settings, read_words_as};

/// What words are to ask of a tool.
pub(crate) trait Asked {
    /// Whether the settings are that tool's, and ask for this.
    fn is_met(&self, settings: &Settings<'_>) -> bool;
}

/// Checks that this is asked for, however the program is called.
pub(crate) fn check(rt: &impl Abort, alloc: Global, words: &[&str], wanted: &impl Asked) {
    for calling in CALLINGS {
        check_called(rt, alloc, *calling, words, wanted);
    }
}

/// Checks that this is asked for, where the program is called in this way.
pub(crate) fn check_called(
    rt: &impl Abort,
    alloc: Global,
    calling: Calling,
    words: &[&str],
    wanted: &impl Asked,
) {
    match read_words_as(alloc, calling, words) {
        Ok(settings) => assert!(rt; wanted.is_met(&settings), "{calling:?} at {words:?}"),
        Err(fault) => assert!(rt; false, "{fault:?} at {words:?}"),
    }
}
