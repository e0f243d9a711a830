//! What bytes are written to: vectors, and outputs of fixed room.
use crate::compare::{assert_holds, assert_same, assert_words};
use arrayvec::ArrayVec;
use spa_bytes::{two_words, u32_at, u64_at};
use spa_fixed_sized::put_fixed;
use spa_sink::{GenError, PodOutput, PodSink, put_padding, put_two, put_wide, put_word};
use std::alloc::Global;
use std::process::Abort;
use std::test::Fail;

/// Appends to a sink.
fn append<S: PodSink>(out: &mut S, bytes: &[u8]) -> Result<(), GenError> {
    out.append(bytes)
}

/// How many bytes an output says that it holds.
fn said_len<O: PodOutput>(out: &O) -> usize {
    PodOutput::len(out)
}

/// Writes over four bytes of an output, where it has them, and says whether it has.
fn overwrite<O: PodOutput>(out: &mut O, at: usize, bytes: [u8; 4]) -> bool {
    let len = PodOutput::len(out);
    if len < 4 || at > len - 4 {
        return false;
    }
    out.overwrite(at, bytes);
    true
}

/// Compares what an output holds, and how much it says that it holds.
fn assert_held<O: PodOutput>(rt: &impl Abort, out: &O, held: &[u8], wanted: &[u8]) {
    assert_same(rt, &held, &wanted, "what is held");
    assert_same(rt, &said_len(out), &wanted.len(), "the length");
}

/// Appends to an output, and writes over some of what it holds.
fn assert_taken<O: PodOutput>(rt: &impl Abort, out: &mut O) -> Result<(), GenError> {
    append(out, &[1, 2, 3, 4, 5])?;
    assert_same(rt, &said_len(out), &5, "the length");
    assert_holds(rt, overwrite(out, 1, [6, 7, 8, 9]), "the last four");
    Ok(())
}

#[test]
fn vectors_take_bytes(rt: HostRuntime) -> Result<(), Fail> {
    let mut out = Vec::new(rt.alloc());
    assert_taken(&rt, &mut out)?;
    assert_held(&rt, &out, out.as_slice(), &[1, 6, 7, 8, 9]);
    Ok(())
}

/// Appends more than there is room for, writes over the first, and appends what there is room for.
fn assert_filled<O: PodOutput>(rt: &impl Abort, out: &mut O) {
    let answer = append(out, &[6, 7]);
    assert_same(rt, &answer, &Err(GenError::Full), "two bytes");
    assert_same(rt, &said_len(out), &5, "the length");
    assert_holds(rt, overwrite(out, 0, [9, 8, 7, 6]), "the first four");
    assert_same(rt, &append(out, &[4]), &Ok(()), "one byte");
}

#[test]
fn outputs_of_fixed_room_take_what_fits(rt: HostRuntime) -> Result<(), Fail> {
    let mut short: ArrayVec<u8, 6> = ArrayVec::new();
    assert_taken(&rt, &mut short)?;
    assert_held(&rt, &short, short.as_slice(), &[1, 6, 7, 8, 9]);
    assert_filled(&rt, &mut short);
    assert_held(&rt, &short, short.as_slice(), &[9, 8, 7, 6, 9, 4]);
    Ok(())
}

/// Writes the Int 3.
fn put_three<S: PodSink>(out: &mut S) -> Result<(), GenError> {
    put_fixed(out, &3)
}

/// What a write of it to an output of this many bytes answers, and the output.
fn three_in<const N: usize>() -> (Result<(), GenError>, ArrayVec<u8, N>) {
    let mut out = ArrayVec::new();
    let answer = put_three(&mut out);
    (answer, out)
}

#[test]
fn a_pod_fits_exactly_or_not(rt: HostRuntime) -> Result<(), Fail> {
    let (answer, short) = three_in::<15>();
    assert_same(&rt, &answer, &Err(GenError::Full), "too short an output");
    assert_same(&rt, &short.len(), &0, "too short an output");
    let (answer, exact) = three_in::<16>();
    assert_same(&rt, &answer, &Ok(()), "an output of its length");
    assert_words(&rt, rt.alloc(), exact.as_slice(), &[4, 4, 3, 0])
}

/// A word, a wide number, two words at once and a padding.
fn put_words(alloc: Global) -> Result<Vec<u8>, GenError> {
    let mut out = Vec::new(alloc);
    put_word(&mut out, 313)?;
    put_wide(&mut out, 0x0102_0304_0506_0708)?;
    put_two(&mut out, 1, 2)?;
    put_padding(&mut out, 20)?;
    Ok(out)
}

/// Their bytes, and four of padding.
const WORDS: &[u8] = &[
    0x39, 1, 0, 0, 8, 7, 6, 5, 4, 3, 2, 1, 1, 0, 0, 0, 2, 0, 0, 0, 0, 0, 0, 0,
];

#[test]
fn words_are_put(rt: HostRuntime) -> Result<(), Fail> {
    let out = put_words(rt.alloc())?;
    assert_same(&rt, &out.as_slice(), &WORDS, "the words");
    Ok(())
}

#[test]
fn words_are_read(rt: HostRuntime) {
    assert_same(
        &rt,
        &two_words(1, 2),
        &[1, 0, 0, 0, 2, 0, 0, 0],
        "the words",
    );
    assert_same(&rt, &u32_at(WORDS, 0), &313, "the words");
    assert_same(&rt, &u64_at(WORDS, 4), &0x0102_0304_0506_0708, "the words");
}
