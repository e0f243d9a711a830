//! Comparisons of what was written with what is wanted.
use arrayvec::ArrayVec;
use libspa::pod::serialize::{GenError, PodSerialize, PodSerializer};
use std::alloc::Global;
use std::process::Abort;
use std::test::Fail;
use test_bytes::bytes_spelled;

/// The pod behind what the output holds. It is refused as `Io` where the answer isn't the pod's length.
pub(crate) fn put<P: PodSerialize>(out: Vec<u8>, pod: &P) -> Result<Vec<u8>, GenError> {
    let before = out.len() as u64;
    let (out, count) = PodSerializer::serialize(out, pod)?;
    if out.len() as u64 - before != count {
        return Err(GenError::Io);
    }
    Ok(out)
}

/// An output that holds so many zeros.
pub(crate) fn filled<const N: usize>(len: usize) -> ArrayVec<u8, N> {
    let mut out = ArrayVec::new();
    for _ in 0..len {
        let _ = out.try_push(0);
    }
    out
}

/// Compares bytes with those that the words spell.
pub(crate) fn assert_words(
    rt: &impl Abort,
    alloc: Global,
    found: &[u8],
    words: &str,
) -> Result<(), Fail> {
    let wanted = bytes_spelled(alloc, words)?;
    assert_eq!(rt; found, wanted.as_slice(), "at {words}");
    Ok(())
}

/// Compares texts. The third one says where.
pub(crate) fn assert_said(rt: &impl Abort, found: &str, wanted: &str, place: &str) {
    assert_eq!(rt; found, wanted, "at {place}");
}

/// Something holds. The text says what.
pub(crate) fn assert_holds(rt: &impl Abort, holds: bool, what: &str) {
    assert!(rt; holds, "{what}");
}
