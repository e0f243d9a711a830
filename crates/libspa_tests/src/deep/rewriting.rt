//! A choice that gets shorter, in tail position deep in structs or objects, rewritten in place.
use crate::deep::bytes::{DEPTHS, assert_holds};
use libspa::pod::deserialize::DeserializeError;
use libspa::pod::rewrite_in_place;
use std::alloc::{AllocError, Global};
use std::test::Fail;
use test_bytes::push_words;

/// What stands before the pod in a struct, behind its size word, and in an object.
const STRUCT: &[u32] = &[14];

const OBJECT: &[u32] = &[15, 1, 2, 3, 0];

const HEADERS: &[&[u32]] = &[STRUCT, OBJECT];

/// A choice of 7 with flags and values that mean nothing, and its rewriting.
const CHOICE: &[u32] = &[28, 19, 0, 5, 4, 4, 7, 9, 11, 0];

const SHORTER: &[u32] = &[20, 19, 0, 0, 4, 4, 7, 0];

/// How many bytes these words are.
fn byte_count(words: &[u32]) -> u32 {
    match u32::try_from(words.len()) {
        Ok(count) => count.wrapping_mul(4),
        Err(_) => 0,
    }
}

/// The pod in this many structs or objects.
fn inside(alloc: Global, depth: u32, header: &[u32], pod: &[u32]) -> Result<Vec<u8>, AllocError> {
    let mut bytes = Vec::new(alloc);
    let step = byte_count(header).wrapping_add(4);
    let mut size = depth.wrapping_mul(step).wrapping_add(byte_count(pod));
    for _ in 0..depth {
        size = size.wrapping_sub(step);
        push_words(&mut bytes, &[size.wrapping_add(step.wrapping_sub(8))])?;
        push_words(&mut bytes, header)?;
    }
    push_words(&mut bytes, pod)?;
    Ok(bytes)
}

/// Whether the rewriting of the bytes comes to stand at their front.
fn is_rewritten(alloc: Global, bytes: &mut [u8], wanted: &[u8]) -> Result<bool, Fail> {
    match rewrite_in_place(alloc, bytes) {
        Ok(len) => Ok(bytes.get(..len) == Some(wanted)),
        Err((_, DeserializeError::OutOfMemory)) => Err(Fail::from(AllocError)),
        Err(_) => Err(Fail::from("it isn't rewritten")),
    }
}

#[test]
fn depth_ends_no_rewriting_in_place(rt: HostRuntime) -> Result<(), Fail> {
    for header in HEADERS {
        for depth in DEPTHS {
            let mut bytes = inside(rt.alloc(), *depth, header, CHOICE)?;
            let wanted = inside(rt.alloc(), *depth, header, SHORTER)?;
            let is_rewritten = is_rewritten(rt.alloc(), bytes.as_mut_slice(), wanted.as_slice())?;
            assert_holds(&rt, is_rewritten, "rewritten", *depth);
        }
    }
    Ok(())
}
