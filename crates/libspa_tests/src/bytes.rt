//! What the tests assert of bytes and numbers: each assertion is proved here, once.
use std::alloc::Global;
use std::process::Abort;
use std::test::Fail;
use test_bytes::bytes_spelled;

/// Compares bytes with those that the words spell.
pub(crate) fn assert_spelt(
    rt: &impl Abort,
    alloc: Global,
    found: &[u8],
    words: &str,
) -> Result<(), Fail> {
    let wanted = bytes_spelled(alloc, words)?;
    assert_eq!(rt; found, wanted.as_slice(), "at {words}");
    Ok(())
}

/// Compares numbers. The text says where.
pub(crate) fn assert_number(rt: &impl Abort, found: usize, wanted: usize, at: &str) {
    assert_eq!(rt; found, wanted, "at {at}");
}

/// Something holds. The text says what.
pub(crate) fn assert_holds(rt: &impl Abort, holds: bool, what: &str) {
    assert!(rt; holds, "{what}");
}
