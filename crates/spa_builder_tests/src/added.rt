//! Pods and values added whole: the rows, and what is refused.
use crate::bytes::{assert_holds, assert_holds_at};
use spa_builder::{Builder, builder_add};
use spa_utils::Errno;
use spa_value::{Held, Value};
use spa_view::Pod;
use std::alloc::{AllocError, Global};
use test_bytes::bytes_of;

/// The words of a pod; whether an array takes what it says, as a struct does; and the words of what is built where it is added
/// to a struct and to an array in that; by the rules of the format.
const PODS: &[(&[u32], bool, &[u32])] = &[
    (
        &[4, 4, 3, 0],
        true,
        &[40, 14, 4, 4, 3, 0, 12, 13, 4, 4, 3, 0],
    ),
    (
        &[4, 2, 7, 9],
        true,
        &[40, 14, 4, 2, 1, 0, 12, 13, 4, 2, 1, 0],
    ),
    (
        &[4, 8, 7303014, 0],
        false,
        &[32, 14, 4, 8, 7303014, 0, 8, 13, 0, 1],
    ),
    (
        &[12, 17, 65537, 5, 9, 3],
        false,
        &[40, 14, 16, 17, 65537, 0, 9, 0, 8, 13, 0, 1],
    ),
    (
        &[16, 17, 7, 0, 9, 0],
        false,
        &[40, 14, 16, 17, 7, 0, 9, 0, 8, 13, 0, 1],
    ),
    (
        &[16, 14, 4, 4, 3, 8],
        false,
        &[40, 14, 16, 14, 4, 4, 3, 0, 8, 13, 0, 1],
    ),
    (
        &[20, 13, 4, 4, 10, 15, 19, 9],
        false,
        &[48, 14, 20, 13, 4, 4, 10, 15, 19, 0, 8, 13, 0, 1],
    ),
    (
        &[32, 19, 1, 0, 4, 4, 5, 2, 10, 9],
        false,
        &[56, 14, 28, 19, 1, 0, 4, 4, 5, 2, 10, 0, 8, 13, 0, 1],
    ),
    (
        &[32, 15, 5, 3, 1, 0, 4, 2, 7, 0],
        false,
        &[56, 14, 32, 15, 5, 3, 1, 0, 4, 2, 1, 0, 8, 13, 0, 1],
    ),
];

/// Those rows. This function alone names them: one that does is proved with all of them.
pub(crate) fn pods() -> &'static [(&'static [u32], bool, &'static [u32])] {
    PODS
}

/// The words of encodings: of each type of fixed size, of texts, bytes and bitmaps, of arrays, choices, structs and an object.
const VALUES: &[&[u32]] = &[
    &[0, 1],
    &[4, 2, 1, 0],
    &[4, 3, 4294967295, 0],
    &[4, 4, 2147483648, 0],
    &[8, 5, 0, 2147483648],
    &[4, 6, 2143289344, 0],
    &[8, 7, 0, 2147483648],
    &[8, 10, 1920, 1080],
    &[8, 11, 30000, 1001],
    &[8, 18, 4294967295, 4294967295],
    &[16, 17, 65537, 0, 305419896, 32512],
    &[8, 8, 875770417, 3618357],
    &[1, 8, 0, 0],
    &[4, 8, 7303014, 0],
    &[5, 9, 50462976, 255],
    &[0, 9],
    &[3, 12, 197121, 0],
    &[16, 14, 3, 12, 197121, 0],
    &[20, 13, 4, 3, 3, 4, 6, 0],
    &[24, 13, 8, 11, 1, 2, 30, 1],
    &[24, 13, 8, 5, 1, 0, 2, 0],
    &[28, 19, 3, 1, 4, 2, 0, 1, 0, 0],
    &[40, 19, 1, 0, 8, 18, 3, 0, 4, 0, 5, 0],
    &[
        56, 14, 4, 4, 313, 0, 4, 8, 7303014, 0, 16, 14, 8, 10, 31, 14,
    ],
    &[0, 14],
    &[40, 15, 5, 3, 9, 2147483649, 16, 14, 4, 4, 3, 0],
];

/// Those rows. This function alone names them: one that does is proved with all of them.
pub(crate) fn values() -> &'static [&'static [u32]] {
    VALUES
}

/// A text without NUL behind it, which is no value.
const NO_VALUE: &[u32] = &[3, 8, 7303014, 0];

/// Whether the form of `builder_add!` refuses what is no value.
fn refuses_no_value(alloc: Global) -> Result<bool, AllocError> {
    let bytes = bytes_of(alloc, NO_VALUE)?;
    let Some(pod) = Pod::from_bytes(bytes.as_slice()) else {
        return Ok(false);
    };
    let mut builder = Builder::new(Vec::new(alloc));
    match builder_add!(builder, Struct { Pod(pod) }) {
        Ok(()) => Ok(false),
        Err(Errno::NOMEM) => Err(AllocError),
        Err(refusal) => Ok(refusal == Errno::INVAL && builder.open_frames() == 1),
    }
}

/// Whether a value in which a text holds NUL is refused as such.
fn refuses_nul(alloc: Global) -> Result<bool, AllocError> {
    let text = String::from_str(alloc, "a\0b")?;
    let value = Held::from(Value::Struct(vec![in alloc; Value::Int(3), Value::String(text)]?));
    let mut builder = Builder::new(Vec::new(alloc));
    match builder.add_value(&*value) {
        Ok(()) => Ok(false),
        Err(Errno::NOMEM) => Err(AllocError),
        Err(refusal) => Ok(refusal == Errno::INVAL),
    }
}

#[test]
fn what_has_no_encoding_is_refused(rt: HostRuntime) -> Result<(), AllocError> {
    let refused = refuses_no_value(rt.alloc())?;
    assert_holds_at(&rt, refused, "a pod of no value", NO_VALUE);
    let refused = refuses_nul(rt.alloc())?;
    assert_holds(&rt, refused, "a text with NUL");
    Ok(())
}
