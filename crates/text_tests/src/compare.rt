//! What the tests assert: each assertion is proved here, once.
use std::fmt::Debug;
use std::process::Abort;

/// Something holds. The text says what.
pub(crate) fn assert_holds(rt: &impl Abort, holds: bool, what: &str) {
    assert!(rt; holds, "{what}");
}

/// Compares what is found with what is wanted. The text says where.
pub(crate) fn assert_same<T: PartialEq + Debug>(rt: &impl Abort, found: &T, wanted: &T, at: &str) {
    assert_eq!(rt; *found, *wanted, "at {at}");
}

/// Compares what is found with what is wanted of the row of these words.
pub(crate) fn assert_same_at<T: PartialEq + Debug>(
    rt: &impl Abort,
    found: &T,
    wanted: &T,
    words: &[u32],
) {
    assert_eq!(rt; *found, *wanted, "at {words:?}");
}
