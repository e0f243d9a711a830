//! Deeply nested structs and objects, through each call that writes or copies them.
use crate::compare::assert_holds;
use crate::nested::read;
use arrayvec::ArrayVec;
use spa_device::IoSink;
use spa_sink::GenError;
use spa_typed_write::PodSerializer;
use spa_value::{Held, Value, same};
use spa_write::{write_sized, write_value};
use std::alloc::{AllocError, Global};
use std::process::Abort;
use std::test::Fail;
use test_bytes::{nested_objects, nested_structs};

/// Few levels, and more than a stack of 8 MB holds of a function that calls itself for each.
const DEPTHS: &[u32] = &[300, 100_000];

/// The pod of None, which is innermost.
const INNERMOST: [u32; 2] = [0, 1];

/// The error of a write, which is want of memory where it says so.
fn failed(error: GenError) -> Fail {
    match error {
        GenError::OutOfMemory => Fail::from(AllocError),
        _ => Fail::from("it isn't written"),
    }
}

/// Whether what is read from these bytes is written to a vector, behind what it held, as these bytes.
fn is_written_back(alloc: Global, input: &[u8]) -> Result<bool, Fail> {
    let value = read(alloc, input)?;
    let out = vec![in alloc; 7]?;
    match PodSerializer::serialize(out, &*value) {
        Ok((out, len)) => Ok(len == input.len() as u64 && out[0] == 7 && &out[1..] == input),
        Err(error) => Err(failed(error)),
    }
}

/// Whether it is written so to a device, at once.
fn is_sent(alloc: Global, input: &[u8]) -> Result<bool, Fail> {
    let value = read(alloc, input)?;
    let mut sink = IoSink::new(Vec::new(alloc));
    let answer = write_value(alloc, &mut sink, &*value);
    let taken = sink.into_inner();
    match answer {
        Ok(len) => Ok(len == input.len() as u64 && taken.as_slice() == input),
        // The vector, which is the device, has no memory.
        Err(GenError::Io) => Err(Fail::from(AllocError)),
        Err(error) => Err(failed(error)),
    }
}

/// Whether these are the byte that a device had, and behind it the others.
fn are_behind(taken: &[u8], others: &[u8]) -> bool {
    match taken.split_first() {
        Some((first, behind)) => *first == 7 && behind == others,
        None => false,
    }
}

/// Whether it is written so to a device, behind a byte that the device has, by a call that is given no allocator. Where memory ran out for a value
/// of more than 512 levels, the device has that byte alone.
fn is_sent_without_memory(alloc: Global, depth: u32, input: &[u8]) -> Result<bool, Fail> {
    let value = read(alloc, input)?;
    let mut sink = IoSink::new(vec![in alloc; 7]?);
    let answer = write_sized(&mut sink, &*value);
    let (written, failures) = (sink.written(), sink.failures());
    let taken = sink.into_inner();
    match answer {
        Ok(len) => Ok(len == input.len() as u64 && are_behind(taken.as_slice(), input)),
        // The vector, which is the device, has no memory.
        Err(GenError::Io) => Err(Fail::from(AllocError)),
        Err(GenError::OutOfMemory) => {
            if depth <= 512 || written != 0 || failures != 0 || !are_behind(taken.as_slice(), &[]) {
                return Ok(false);
            }
            Err(Fail::from(AllocError))
        }
        Err(_) => Ok(false),
    }
}

/// Few levels, the most that are written by calls, one more, and many.
const DEVICE_DEPTHS: &[u32] = &[1, 512, 513, 20_000];

#[test]
fn any_depth_is_sent_to_a_device(rt: HostRuntime) -> Result<(), Fail> {
    for depth in DEVICE_DEPTHS {
        let objects = nested_objects(rt.alloc(), *depth, &INNERMOST)?;
        let is_sent = is_sent_without_memory(rt.alloc(), *depth, objects.as_slice())?;
        assert_holds(&rt, is_sent, "written without an allocator");
    }
    Ok(())
}

/// The bytes of a struct of two members, which are both this pod.
fn struct_of_two(alloc: Global, pod: &[u8]) -> Result<Vec<u8>, AllocError> {
    let size = (pod.len() as u64).saturating_mul(2);
    let mut bytes = Vec::new(alloc);
    bytes.extend_from_slice(&size.to_le_bytes()[..4])?;
    bytes.extend_from_slice(&14u32.to_le_bytes())?;
    bytes.extend_from_slice(pod)?;
    bytes.extend_from_slice(pod)?;
    Ok(bytes)
}

#[test]
fn deep_structs_beside_one_another_end_no_write(rt: HostRuntime) -> Result<(), Fail> {
    let deep = nested_structs(rt.alloc(), 100_000, &INNERMOST)?;
    let input = struct_of_two(rt.alloc(), deep.as_slice())?;
    let is_written = is_written_back(rt.alloc(), input.as_slice())?;
    assert_holds(&rt, is_written, "written to a vector");
    let is_sent = is_sent_without_memory(rt.alloc(), 100_001, input.as_slice())?;
    assert_holds(&rt, is_sent, "written to a device without an allocator");
    Ok(())
}

/// Whether a clone of it is the same.
fn is_copied(alloc: Global, input: &[u8]) -> Result<bool, Fail> {
    let value = read(alloc, input)?;
    let copied: Result<Value, AllocError> = (*value).clone();
    let copy = Held::from(copied?);
    Ok(same(alloc, &*value, &*copy)?)
}

fn assert_level(rt: &impl Abort, alloc: Global, input: &[u8]) -> Result<(), Fail> {
    let is_written = is_written_back(alloc, input)?;
    assert_holds(rt, is_written, "written to a vector");
    let is_sent = is_sent(alloc, input)?;
    assert_holds(rt, is_sent, "written to a device");
    let is_copied = is_copied(alloc, input)?;
    assert_holds(rt, is_copied, "copied");
    Ok(())
}

#[test]
fn depth_ends_no_write(rt: HostRuntime) -> Result<(), Fail> {
    for depth in DEPTHS {
        let structs = nested_structs(rt.alloc(), *depth, &INNERMOST)?;
        assert_level(&rt, rt.alloc(), structs.as_slice())?;
        let objects = nested_objects(rt.alloc(), *depth, &INNERMOST)?;
        assert_level(&rt, rt.alloc(), objects.as_slice())?;
    }
    Ok(())
}

/// What 4096 bytes of room answer to the value, and whether they hold the beginning of these bytes then, all that fits. It takes no memory.
fn fixed(alloc: Global, input: &[u8]) -> Result<(Result<u64, GenError>, bool), Fail> {
    let value = read(alloc, input)?;
    let mut out: ArrayVec<u8, 4096> = ArrayVec::new();
    let answer = write_sized(&mut out, &*value);
    Ok((answer, input.starts_with(out.as_slice())))
}

/// Compares what they answer.
fn assert_fixed(
    rt: &impl Abort,
    alloc: Global,
    input: &[u8],
    wanted: Result<u64, GenError>,
) -> Result<(), Fail> {
    let (answer, begins) = fixed(alloc, input)?;
    assert_holds(rt, answer == wanted, "the answer");
    assert_holds(rt, begins, "what fits");
    Ok(())
}

#[test]
fn as_many_levels_as_there_is_room_for(rt: HostRuntime) -> Result<(), Fail> {
    // 511 structs and a None, eight bytes each, fill the room.
    let input = nested_structs(rt.alloc(), 511, &INNERMOST)?;
    assert_holds(&rt, input.len() == 4096, "the room");
    assert_fixed(&rt, rt.alloc(), input.as_slice(), Ok(4096))
}

/// More levels than there is room for.
const TOO_DEEP: &[u32] = &[512, 100_000, 1_000_000];

#[test]
fn a_fixed_output_is_full_at_any_depth(rt: HostRuntime) -> Result<(), Fail> {
    for depth in TOO_DEEP {
        let input = nested_structs(rt.alloc(), *depth, &INNERMOST)?;
        assert_fixed(&rt, rt.alloc(), input.as_slice(), Err(GenError::Full))?;
    }
    let input = nested_objects(rt.alloc(), 100_000, &INNERMOST)?;
    assert_fixed(&rt, rt.alloc(), input.as_slice(), Err(GenError::Full))
}
