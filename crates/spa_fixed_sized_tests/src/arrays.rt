//! Bodies of arrays, read and written, with bytes from outside.
use crate::compare::{
    assert_holds, assert_same, assert_same_at, assert_words, cut_bytes, refusal_of,
};
use spa_bytes::{HEADER_LEN, u32_at};
use spa_fixed_sized::{
    CanonicalFixedSizedPod, Refusal, next_element, open_array, put_array, read_array,
};
use spa_sink::GenError;
use spa_utils::{Fraction, Id};
use std::alloc::{AllocError, Global};
use std::process::Abort;
use std::test::Fail;
use test_bytes::bytes_of;

/// An array's body read as one of this type.
fn array_of<T: CanonicalFixedSizedPod>(alloc: Global, body: &[u8]) -> Result<Vec<T>, Refusal> {
    if body.len() < HEADER_LEN {
        return Err(Refusal::Short);
    }
    if u32_at(body, 4) != T::TYPE {
        return Err(Refusal::InvalidType);
    }
    read_array::<T>(alloc, body)
}

/// The array behind the header of a pod.
fn array_in<T: CanonicalFixedSizedPod>(alloc: Global, pod: &[u8]) -> Result<Vec<T>, Refusal> {
    if pod.len() < HEADER_LEN {
        return Err(Refusal::Short);
    }
    array_of::<T>(alloc, &pod[HEADER_LEN..])
}

/// The pod of an array of these values.
fn array_encoding<T: CanonicalFixedSizedPod>(
    alloc: Global,
    values: &[T],
) -> Result<Vec<u8>, GenError> {
    let mut out = Vec::new(alloc);
    put_array(&mut out, values)?;
    Ok(out)
}

/// The ints of the body that is the first bytes of these words.
fn ints_of(alloc: Global, words: &[u32], size: usize) -> Result<Vec<i32>, Refusal> {
    let body = cut_bytes(alloc, words, size)?;
    array_of::<i32>(alloc, body.as_slice())
}

/// Compares the ints that these words say with what is wanted.
fn assert_ints(rt: &impl Abort, alloc: Global, words: &[u32], wanted: &[i32]) -> Result<(), Fail> {
    let read = ints_of(alloc, words, 4 * words.len())?;
    assert_same_at(rt, &read.as_slice(), &wanted, words);
    Ok(())
}

#[test]
fn arrays_are_read(rt: HostRuntime) -> Result<(), Fail> {
    assert_ints(&rt, rt.alloc(), &[4, 4, 10, 15, 19], &[10, 15, 19])?;
    assert_ints(&rt, rt.alloc(), &[4, 4], &[])
}

/// Compares why the first bytes of these words are no array of ints with what is wanted.
fn assert_no_ints(
    rt: &impl Abort,
    alloc: Global,
    row: (&[u32], usize, Refusal),
) -> Result<(), Fail> {
    let (words, size, wanted) = row;
    let found = refusal_of(ints_of(alloc, words, size))?;
    assert_same_at(rt, &found, &Some(wanted), words);
    Ok(())
}

/// Words, how many of their bytes are a body, and why that is no array of ints.
const NO_INTS: &[(&[u32], usize, Refusal)] = &[
    (&[4, 4, 10, 0], 14, Refusal::WrongSize),
    (&[8, 4, 10, 0], 16, Refusal::WrongSize),
    (&[4, 3, 10], 12, Refusal::InvalidType),
    (&[4, 4], 4, Refusal::Short),
];

/// Those rows. This function alone names them: one that does is proved with all of them.
fn no_ints() -> &'static [(&'static [u32], usize, Refusal)] {
    NO_INTS
}

#[test]
fn arrays_are_refused(rt: HostRuntime) -> Result<(), Fail> {
    for row in no_ints() {
        assert_no_ints(&rt, rt.alloc(), *row)?;
    }
    Ok(())
}

/// The numbers of 64 bits that these words say.
fn longs_of(alloc: Global, words: &[u32]) -> Result<Vec<i64>, Refusal> {
    let body = bytes_of(alloc, words)?;
    array_of::<i64>(alloc, body.as_slice())
}

#[test]
fn wide_arrays_are_read(rt: HostRuntime) -> Result<(), Fail> {
    let longs = longs_of(rt.alloc(), &[8, 5, 1, 0, 0, 1])?;
    assert_same(&rt, &longs.as_slice(), &[1, 4294967296].as_slice(), "longs");
    Ok(())
}

/// How many units these words say.
fn unit_count(alloc: Global, words: &[u32]) -> Result<usize, Refusal> {
    let body = bytes_of(alloc, words)?;
    Ok(array_of::<()>(alloc, body.as_slice())?.len())
}

/// Compares why these words are no array of units with a wrong size.
fn assert_no_units(rt: &impl Abort, alloc: Global, words: &[u32]) -> Result<(), Fail> {
    let found = refusal_of(unit_count(alloc, words))?;
    assert_same_at(rt, &found, &Some(Refusal::WrongSize), words);
    Ok(())
}

#[test]
fn arrays_of_units_have_no_bytes(rt: HostRuntime) -> Result<(), Fail> {
    let count = unit_count(rt.alloc(), &[0, 1])?;
    assert_same(&rt, &count, &0, "no units");
    assert_no_units(&rt, rt.alloc(), &[4, 1])?;
    assert_no_units(&rt, rt.alloc(), &[0, 1, 0])
}

#[test]
fn arrays_of_units_are_written(rt: HostRuntime) -> Result<(), Fail> {
    let encoding = array_encoding(rt.alloc(), &[(), (), (), (), ()])?;
    assert_words(&rt, rt.alloc(), encoding.as_slice(), &[8, 13, 0, 1])
}

/// What opening an array of ints gives, and after that its first element: the elements, the int, and what follows it.
fn opened(body: &[u8]) -> Option<(&[u8], i32, &[u8])> {
    if body.len() < HEADER_LEN || u32_at(body, 4) != i32::TYPE {
        return None;
    }
    let elements = open_array::<i32>(body)?;
    if elements.len() < i32::SIZE {
        return None;
    }
    let (rest, first) = next_element::<i32>(elements);
    Some((elements, first, rest))
}

/// Compares what opening this body gives with two elements, the Ints 10 and 15.
fn assert_opened(rt: &impl Abort, alloc: Global, body: &[u8]) -> Result<(), Fail> {
    let Some((elements, first, rest)) = opened(body) else {
        return Err(Fail::from("no array of ints"));
    };
    assert_words(rt, alloc, elements, &[10, 15])?;
    assert_same(rt, &first, &10, "the first element");
    assert_words(rt, alloc, rest, &[15])
}

#[test]
fn arrays_are_opened_and_read_on(rt: HostRuntime) -> Result<(), Fail> {
    let body = bytes_of(rt.alloc(), &[4, 4, 10, 15])?;
    assert_opened(&rt, rt.alloc(), body.as_slice())
}

/// Three arrays, one after another.
fn three_arrays(alloc: Global) -> Result<Vec<u8>, GenError> {
    let mut out = Vec::new(alloc);
    put_array(&mut out, &[10, 15, 19])?;
    put_array(&mut out, &[Id(1), Id(2)])?;
    put_array::<i64, _>(&mut out, &[])?;
    Ok(out)
}

/// Their words.
const THREE_ARRAYS: &[u32] = &[20, 13, 4, 4, 10, 15, 19, 0, 16, 13, 4, 3, 1, 2, 8, 13, 8, 5];

#[test]
fn arrays_are_written(rt: HostRuntime) -> Result<(), Fail> {
    let encoding = three_arrays(rt.alloc())?;
    assert_words(&rt, rt.alloc(), encoding.as_slice(), THREE_ARRAYS)
}

/// A hundred fractions, which are more than one block.
fn fractions(alloc: Global) -> Result<Vec<Fraction>, AllocError> {
    let mut values = Vec::new(alloc);
    for num in 0..100 {
        values.push(Fraction { num, denom: 7 })?;
    }
    Ok(values)
}

/// Whether the array of this pod has these elements.
fn reads_back(alloc: Global, pod: &[u8], values: &[Fraction]) -> Result<bool, Refusal> {
    let read = array_in::<Fraction>(alloc, pod)?;
    Ok(read.as_slice() == values)
}

/// Compares the length of an array's encoding, and what is read of it.
fn assert_long(rt: &impl Abort, alloc: Global, values: &[Fraction]) -> Result<(), Fail> {
    let encoding = array_encoding(alloc, values)?;
    assert_same(rt, &encoding.len(), &816, "the length");
    let is_read = reads_back(alloc, encoding.as_slice(), values)?;
    assert_holds(rt, is_read, "a long array reads back");
    Ok(())
}

/// The bytes of an array of more than one block stand in order.
#[test]
fn long_arrays_read_back(rt: HostRuntime) -> Result<(), Fail> {
    let values = fractions(rt.alloc())?;
    assert_long(&rt, rt.alloc(), values.as_slice())
}
