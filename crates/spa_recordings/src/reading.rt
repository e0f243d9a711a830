//! The pods as which bytes are read.
ghost use Rattle.std.specs.Prelude.{◌≡◌, IfErr, IfNone, IfOk, IfSome, OnOk};
ghost use Rattle.spa_recordings.specs.Reading.{IsAccepted, IsUnreadAt, ReadsAs, RefusesList, RefusesReading};

use spa_fixed_sized::DeserializeError;
use spa_lenient::rewrite_all_leniently;
use spa_pod_commands::answer::Failure;
use spa_rewrite::accept_all;
use std::alloc::{AllocError, Global};

/// How bytes are read.
#[derive(Clone, Copy)]
pub enum Reading {
    /// As pods.
    Exact,
    /// As the values that they convey in the lenient reading.
    Lenient,
}

/// The first pod of an input that isn't read.
#[derive(Clone, Copy)]
pub struct Unread<'b> {
    /// What is left of the input from it on.
    pub left: &'b [u8],
    /// The name of the refusal.
    pub kind: &'static str,
}

/// The first pod that isn't read, if one isn't.
pub fn first_unread<'b>(
    alloc: Global,
    reading: Reading,
    input: &'b [u8],
) -> Result<Option<Unread<'b>>, AllocError>
    ensures accepted { IfOk result (λ found. IfNone found (IsAccepted reading input.now)) }
    ensures unread { IfOk result (λ found. IfSome found (λ it. IsUnreadAt reading input.now it.left.now it.kind.now)) }
    ensures refused { IfOk result (λ found. IfSome found (λ _. ¬ (IsAccepted reading input.now))) }
{
    let Err((left, error)) = accept(alloc, reading, input) else {
        return Ok(None);
    };
    match error {
        DeserializeError::OutOfMemory => Err(AllocError),
        _ => Ok(Some(Unread {
            left,
            kind: error.kind(),
        })),
    }
}

/// Passes where the bytes are read whole.
fn accept(
    alloc: Global,
    reading: Reading,
    input: &[u8],
) -> Result<(), (&[u8], DeserializeError<&[u8]>)>
    ensures accepted { OnOk result (IsAccepted reading input.now) }
    ensures refused { IfErr result (λ refusal. RefusesList reading input.now refusal.0.now refusal.1) }
{
    match reading {
        Reading::Exact => accept_all(alloc, input),
        Reading::Lenient => rewrite_all_leniently(input, &mut Vec::new(alloc)),
    }
}

/// The pods as which the bytes are read.
pub fn read_as(alloc: Global, reading: Reading, bytes: Vec<u8>) -> Result<Vec<u8>, Failure>
    ensures read { IfOk result (λ pods. ReadsAs reading bytes.items pods.items) }
    ensures refused { IfErr result (RefusesReading reading bytes.items) }
{
    match reading {
        Reading::Exact => Ok(bytes),
        Reading::Lenient => read_leniently(alloc, bytes.as_slice()),
    }
}

/// The encodings of the values that the bytes convey.
fn read_leniently(alloc: Global, bytes: &[u8]) -> Result<Vec<u8>, Failure>
    ensures read { IfOk result (λ pods. ReadsAs Reading.Lenient bytes.now pods.items) }
    ensures refused { IfErr result (RefusesReading Reading.Lenient bytes.now) }
{
    let mut pods = Vec::new(alloc);
    let Err((left, error)) = rewrite_all_leniently(bytes, &mut pods) else {
        return Ok(pods);
    };
    match error {
        DeserializeError::OutOfMemory => Err(Failure::OutOfMemory),
        _ => Err(Failure::Pod {
            place: bytes.len() - left.len(),
            kind: error.kind(),
        }),
    }
}
