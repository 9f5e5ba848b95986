//! Comparisons that the tests share: an `assert_eq!` of its own in each takes the check seconds.
use std::fmt::Debug;
use std::process::Abort;

/// Compares what was found with what is wanted.
pub(crate) fn same<T: PartialEq + Debug>(rt: &impl Abort, found: &T, wanted: &T) {
    assert_eq!(rt; found, wanted);
}

/// Compares the bytes that were found with those that are wanted.
pub(crate) fn same_bytes(rt: &impl Abort, found: &[u8], wanted: &[u8]) {
    assert_eq!(rt; found, wanted);
}
