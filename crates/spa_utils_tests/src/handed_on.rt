//! Calls whose errors a program hands on by `?`.
use crate::printed::{assert_prints, assert_refused, assert_words};
use arrayvec::ArrayVec;
use bitflags::Flags;
use spa_dict::{DictRef, Flags as DictFlags};
use spa_fixed_sized::CanonicalFixedSizedPod;
use spa_result::SpaResult;
use spa_sink::PodSink;
use spa_text_read::{Cause, TextError};
use std::test::Fail;

/// The number that bytes begin with, which also fits into six bytes behind others.
fn copied(bytes: &[u8], others: &[u8]) -> anyhow::Result<i32> {
    let (_rest, number) = i32::deserialize_body(bytes)?;
    let mut copy: ArrayVec<u8, 6> = ArrayVec::new();
    copy.append(others)?;
    number.serialize_body(&mut copy)?;
    Ok(number)
}

/// The number under a key of a dictionary, 0 where it isn't there.
fn number_of(pairs: &[(&[u8], &[u8])], key: &str) -> anyhow::Result<u32> {
    match DictRef::new(pairs, DictFlags::empty()).parse::<u32>(key) {
        Some(number) => Ok(number?),
        None => Ok(0),
    }
}

/// What a call is done with.
fn done_with(code: i32) -> anyhow::Result<i32> {
    if SpaResult::from_c(code).is_async() {
        return Ok(0);
    }
    Ok(SpaResult::from_c(code).into_sync_result()?)
}

#[test]
fn reads_and_writes_hand_on_their_errors(rt: HostRuntime) -> Result<(), Fail> {
    let alloc = rt.alloc();
    assert_prints(&rt, alloc, &copied(&[3, 0, 0, 0, 9], &[1, 2])?, "3")?;
    assert_refused(
        &rt,
        alloc,
        copied(&[3, 0, 0], &[]),
        "the bytes are cut short",
    )?;
    assert_refused(&rt, alloc, copied(&[3, 0, 0, 0], &[1, 2, 3]), "Full")
}

#[test]
fn dictionaries_and_codes_hand_on_their_errors(rt: HostRuntime) -> Result<(), Fail> {
    let alloc = rt.alloc();
    let pairs: &[(&[u8], &[u8])] = &[(b"rate", b"48k"), (b"channels", b"2")];
    assert_prints(&rt, alloc, &number_of(pairs, "channels")?, "2")?;
    let words = "'48k' cannot be parsed to u32";
    assert_refused(&rt, alloc, number_of(pairs, "rate"), words)?;
    assert_prints(&rt, alloc, &done_with(7)?, "7")?;
    assert_refused(&rt, alloc, done_with(-22), "22")
}

#[test]
fn refusals_of_texts_say_where(rt: HostRuntime) -> Result<(), Fail> {
    let alloc = rt.alloc();
    let mut error = TextError {
        cause: Cause::Name,
        offset: 46,
        line: 1,
        column: 47,
        path: String::from_str(alloc, ".props.volum")?,
        misfit: None,
    };
    let words = "line 1, column 47: a key or a name is unknown there at .props.volum";
    assert_words(&rt, alloc, &error, words)?;
    error.path = String::new(alloc);
    let words = "line 1, column 47: a key or a name is unknown there";
    assert_words(&rt, alloc, &error, words)
}
