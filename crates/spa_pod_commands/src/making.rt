//! What is made of the pods that bytes consist of.
ghost use Rattle.std.specs.Prelude.{IfErr, IfOk, OnOk};
ghost use Rattle.spa_format.specs.Pod.{AreMembers};
ghost use Rattle.spa_format.specs.Tree.{Trees};
ghost use Rattle.spa_pod_commands.specs.Answers.{FailsFor, Fixates, IsUnmade, Rewrites};

use crate::answer::Failure;
use crate::pods::fixate_all;
use spa_fixed_sized::DeserializeError;
use spa_rewrite::{accept_all, rewrite_in_place};
use std::alloc::Global;

/// The rewritings of the pods that the bytes consist of, made in place.
pub fn rewritten(alloc: Global, mut bytes: Vec<u8>) -> Result<Vec<u8>, Failure>
    ensures made { IfOk result (λ out. Rewrites bytes.items out.items) }
    ensures refused { IfErr result (IsUnmade bytes.items) }
{
    match rewrite_in_place(alloc, bytes.as_mut_slice()) {
        Ok(len) => {
            bytes.truncate(len);
            Ok(bytes)
        }
        Err((place, error)) => Err(refused(place, &error)),
    }
}

/// The bytes with each top-level object fixated in place, and the other pods as they came. It accepts exactly what `rewritten` does.
pub fn fixated(alloc: Global, mut bytes: Vec<u8>) -> Result<Vec<u8>, Failure>
    ensures made { IfOk result (λ out. Fixates bytes.items out.items) }
    ensures refused { IfErr result (IsUnmade bytes.items) }
{
    check(alloc, bytes.as_slice())?;
    fixate_all(bytes.as_mut_slice());
    Ok(bytes)
}

/// Passes where the bytes consist of pods.
pub fn check(alloc: Global, bytes: &[u8]) -> Result<(), Failure>
    ensures accepted { OnOk result ((vs : Trees) × AreMembers vs bytes.now) }
    ensures refused { IfErr result (IsUnmade bytes.now) }
{
    match accept_all(alloc, bytes) {
        Ok(()) => Ok(()),
        Err((left, error)) => Err(refused(bytes.len() - left.len(), &error)),
    }
}

/// The refusal of the top-level pod at this byte.
fn refused<I>(place: usize, error: &DeserializeError<I>) -> Failure
    ensures { FailsFor place error.now result }
{
    match error {
        DeserializeError::OutOfMemory => Failure::OutOfMemory,
        _ => Failure::Pod {
            place,
            kind: error.kind(),
        },
    }
}
