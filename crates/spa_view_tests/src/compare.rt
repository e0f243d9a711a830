//! What the tests assert: each assertion is proved here, once.
use std::fmt::Debug;
use std::process::Abort;

/// Compares bytes. The text says where.
pub(crate) fn assert_bytes(rt: &impl Abort, found: &[u8], wanted: &[u8], place: &str) {
    assert_eq!(rt; found, wanted, "at {place}");
}

/// Compares texts. The third one says where.
pub(crate) fn assert_said(rt: &impl Abort, found: &str, wanted: &str, place: &str) {
    assert_eq!(rt; found, wanted, "at {place}");
}

/// Something holds. The text says what.
pub(crate) fn assert_holds(rt: &impl Abort, holds: bool, what: &str) {
    assert!(rt; holds, "{what}");
}

/// Compares what is found with what is wanted. The text says where.
pub(crate) fn assert_same<T: PartialEq + Debug>(rt: &impl Abort, found: &T, wanted: &T, at: &str) {
    assert_eq!(rt; *found, *wanted, "at {at}");
}
