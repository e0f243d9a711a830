//! What built-in types and a program's own are written as, and why they are refused, by the rules of docs/FORMAT.md.
use crate::compare::{assert_said, filled, put};
use crate::declared::declared_written;
use crate::own_types::own_written;
use bitflags::Flags;
use libspa::pod::serialize::{GenError, PodSerialize, laws};
use libspa::utils::{Choice, ChoiceEnum, ChoiceFlags};
use std::alloc::{AllocError, Global};
use std::process::Abort;
use std::test::Fail;
use test_bytes::push_spelling;

/// How many bytes an output of fixed size has.
const SIZE: usize = 64;

/// What a pod is written to: a vector, or an output of `SIZE` bytes of which so many are free.
#[derive(Clone, Copy)]
pub(crate) enum Place {
    Memory,
    Room(usize),
}

/// The words that are written of a pod, a space before each, or why it is refused.
pub(crate) fn written<P: PodSerialize>(
    alloc: Global,
    place: Place,
    pod: &P,
) -> Result<String, AllocError> {
    match place {
        Place::Memory => match put(Vec::new(alloc), pod) {
            Ok(bytes) => spelled(alloc, bytes.as_slice()),
            Err(error) => refused(alloc, error),
        },
        Place::Room(room) => {
            let held = SIZE.saturating_sub(room);
            match laws::pods_are_written_where_they_fit(filled::<SIZE>(held), pod) {
                Ok((out, count)) => match out.as_slice().get(held..) {
                    Some(bytes) if bytes.len() as u64 == count => spelled(alloc, bytes),
                    _ => String::from_str(alloc, " miscounted"),
                },
                Err(error) => refused(alloc, error),
            }
        }
    }
}

fn spelled(alloc: Global, bytes: &[u8]) -> Result<String, AllocError> {
    let mut text = String::new(alloc);
    push_spelling(&mut text, bytes)?;
    Ok(text)
}

fn refused(alloc: Global, error: GenError) -> Result<String, AllocError> {
    match error {
        GenError::OutOfMemory => Err(AllocError),
        error => format!(in alloc; " {error:?}"),
    }
}

/// What is written of the pod of this name.
fn named(alloc: Global, place: Place, name: &str) -> Result<String, AllocError> {
    match name {
        "units" => written(alloc, place, &[(); 5].as_slice()),
        "choice with flags" => {
            let flags = ChoiceFlags::from_bits_retain(5);
            written(alloc, place, &Choice(flags, ChoiceEnum::None(7)))
        }
        "steps" => written(alloc, place, &steps()),
        "ints" => written(alloc, place, &[10i32, 15, 19].as_slice()),
        "text" => written(alloc, place, &"foo"),
        "text with NUL" => written(alloc, place, &"a\0b"),
        "pointer" => written(alloc, place, &(7u32, 4096u64)),
        _ => own_written(alloc, place, name),
    }
}

/// Four Ints, the last one the step.
fn steps() -> Choice<i32> {
    let (default, min, max, step) = (5, 2, 10, 1);
    let steps = ChoiceEnum::Step {
        default,
        min,
        max,
        step,
    };
    Choice(ChoiceFlags::empty(), steps)
}

/// Pods by their names, with the words that are written of them, or why they are refused; behind `in` how many bytes are free. Then writers that
/// are used wrongly: too many elements, too few, one too many, and calls after a refusal.
const WRITTEN: &str = "units: 8 13 0 1
choice with flags: 20 19 0 5 4 4 7 0
text in 16: 4 8 7303014 0
text in 15: Full
steps in 40: 32 19 2 0 4 4 5 2 10 1
steps in 39: Full
ints in 32: 20 13 4 4 10 15 19 0
ints in 31: Full
pointer in 24: 16 17 7 0 4096 0
pointer in 23: Full
text with NUL: NulInText
silences: 8 13 0 1
song: 56 14 4 4 313 0 4 8 7303014 0 16 14 8 10 31 14
mode: 56 14 32 14 4 4 640 0 4 4 480 0 8 5 60 0
device: 56 15 5 3 1 0 5 8 809138024 0 2 0 4 6 1138491392 0
device in 64: 56 15 5 3 1 0 5 8 809138024 0 2 0 4 6 1138491392 0
device in 63: Full
screen: 80 15 5 3 1 0 56 14 32 14 4 4 640 0 4 4 480 0 8 5 60 0
level: 4 4 7 0
pair: 16 13 4 4 7 4294967295
tagged number: 32 14 4 3 9 0 4 4 313 0
counted: 16 14 4 3 3 0
counted property: 32 15 5 3 1 0 4 3 3 0
latency: 80 15 262156 16 1 0 4 6 1065353216 0 2 0 4 4 256 0 3 0 8 5 5 0
curve: 80 14 3 8 28789 0 4 4 4294967294 0 4 3 7 0 20 13 4 6 1138491392 0 1065353216 0
format: 208 15 262147 4 65537 0 4 3 259 0 65539 0 4 4 48000 0 65540 0 4 4 2 0 65541 0 16 13 4 3 3 4 65550 0 80 14 3 8 28789 0 4 4 4294967294 0 4 3 7 0 20 13 4 6 1138491392 0 1065353216 0
format without channels: 184 15 262147 4 65537 0 4 3 259 0 65539 0 4 4 48000 0 65541 0 16 13 4 3 3 4 65550 0 80 14 3 8 28789 0 4 4 4294967294 0 4 3 7 0 20 13 4 6 1138491392 0 1065353216 0
too many elements in 16: TooLarge
missing elements in 16: WrongCount
no elements: 8 13 4 4
a third element in 64: Failed
a refused member in 64: Failed
a refused property in 64: Failed";

/// The rows: they are named here alone, as a function that names a long table is proved with all of it.
fn rows() -> &'static str {
    WRITTEN
}

/// The name before ` in `, and what its pod is written to.
fn placed(name: &str) -> (&str, Place) {
    match name.split_once(" in ") {
        Some((name, room)) => (name, Place::Room(room.parse::<usize>().unwrap_or(0))),
        None => (name, Place::Memory),
    }
}

/// Compares what is written of a row's pod.
fn assert_row(rt: &impl Abort, alloc: Global, row: &str) -> Result<(), Fail> {
    let Some((name, wanted)) = row.split_once(":") else {
        return Err(Fail::new("a row without an answer"));
    };
    let (name, place) = placed(name);
    let found = named(alloc, place, name)?;
    assert_said(rt, found.as_str(), wanted, row);
    Ok(())
}

#[test]
fn each_pod_is_written(rt: HostRuntime) -> Result<(), Fail> {
    for row in rows().lines() {
        assert_row(&rt, rt.alloc(), row)?;
    }
    Ok(())
}
