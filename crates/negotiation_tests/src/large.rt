//! Objects of many keys, of Enums of many alternatives, and of deeply nested values.
use crate::answers::assert_meet;
use std::alloc::{AllocError, Global};
use std::process::Abort;
use std::test::Fail;
use test_bytes::{bytes_of, push_words};

/// How many keys an object has beside key 0, and how many alternatives an Enum beside the last one.
const COUNT: u32 = 2000;

/// Few levels, and more than a stack of 8 MB holds of a function that calls itself for each of them.
const DEPTHS: &[u32] = &[300, 100_000];

/// An object of all keys, each an Int that is the key: upwards.
fn rising(alloc: Global) -> Result<Vec<u8>, AllocError> {
    let mut bytes = bytes_of(alloc, &[8 + 24 * (COUNT + 1), 15, 5, 3])?;
    for key in 0..COUNT + 1 {
        push_words(&mut bytes, &[key, 0, 4, 4, key, 0])?;
    }
    Ok(bytes)
}

/// The bytes of an object with the keys of `rising` in descending order, and another id.
fn falling(alloc: Global) -> Result<Vec<u8>, AllocError> {
    let mut bytes = bytes_of(alloc, &[8 + 24 * (COUNT + 1), 15, 5, 7])?;
    for below in 0..COUNT + 1 {
        let key = COUNT - below;
        push_words(&mut bytes, &[key, 0, 4, 4, key, 0])?;
    }
    Ok(bytes)
}

#[test]
fn many_keys_in_two_orders(rt: HostRuntime) -> Result<(), Fail> {
    let up = rising(rt.alloc())?;
    let down = falling(rt.alloc())?;
    let (up, down) = (up.as_slice(), down.as_slice());
    assert_meet(&rt, rt.alloc(), (up, down), Some(up))?;
    assert_meet(&rt, rt.alloc(), (down, up), Some(down))
}

/// An object whose key 1 is an Enum of every other Int from the first one on, which is the default, and behind them of the last one.
fn every_other(alloc: Global, first: u32, last: u32) -> Result<Vec<u8>, AllocError> {
    let size = 16 + 4 * (COUNT + 2);
    let mut bytes = bytes_of(
        alloc,
        &[24 + size, 15, 5, 3, 1, 0, size, 19, 3, 0, 4, 4, first],
    )?;
    for place in 0..COUNT {
        push_words(&mut bytes, &[first.wrapping_add(2 * place)])?;
    }
    push_words(&mut bytes, &[last])?;
    Ok(bytes)
}

#[test]
fn many_alternatives(rt: HostRuntime) -> Result<(), Fail> {
    let even = every_other(rt.alloc(), 0, u32::MAX)?;
    let odd = every_other(rt.alloc(), 1, u32::MAX)?;
    let others = every_other(rt.alloc(), 1, u32::MAX - 2)?;
    let one = bytes_of(rt.alloc(), &[32, 15, 5, 3, 1, 0, 4, 4, u32::MAX, 0])?;
    let (even, odd) = (even.as_slice(), odd.as_slice());
    assert_meet(&rt, rt.alloc(), (even, odd), Some(one.as_slice()))?;
    assert_meet(&rt, rt.alloc(), (even, others.as_slice()), None)
}

/// An object whose key 1 has this many nested structs, with the pod of these words in the innermost.
fn nested(alloc: Global, depth: u32, inner: &[u32]) -> Result<Vec<u8>, AllocError> {
    let size = depth.wrapping_mul(8);
    let mut bytes = bytes_of(alloc, &[size.wrapping_add(24), 15, 5, 3, 1, 0])?;
    for level in 0..depth {
        push_words(&mut bytes, &[size.wrapping_sub(level.wrapping_mul(8)), 14])?;
    }
    push_words(&mut bytes, inner)?;
    Ok(bytes)
}

/// Such an object meets itself, and none that differs in the innermost.
fn assert_depth(rt: &impl Abort, alloc: Global, depth: u32) -> Result<(), Fail> {
    let none = nested(alloc, depth, &[0, 1])?;
    let empty = nested(alloc, depth, &[0, 14])?;
    let pod = none.as_slice();
    assert_meet(rt, alloc, (pod, pod), Some(pod))?;
    assert_meet(rt, alloc, (pod, empty.as_slice()), None)
}

#[test]
fn depth_ends_no_meeting(rt: HostRuntime) -> Result<(), Fail> {
    for depth in DEPTHS {
        assert_depth(&rt, rt.alloc(), *depth)?;
    }
    Ok(())
}
