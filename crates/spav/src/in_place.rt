//! Canonicalizes lists of pods in place, in the caller's memory.
ghost use Rattle.std.specs.Prelude.{◌≡◌, false, true, ℕ};
ghost use Rattle.spa_fixed_sized.specs.declared.fault.DeserializeError.TheVariants as refused;
ghost use Rattle.spa_format.specs.Front.{IsRefused};
ghost use Rattle.spa_format.specs.Pod.{AreMembers};
ghost use Rattle.spa_rewrite.specs.Refusals.{RefusesListAt};
ghost use Rattle.spa_canonical.specs.Rewriting.{ArePodsWithin};
ghost use Rattle.spa_canonical.specs.Depth.{levels_looked_into};
ghost use Rattle.spav.specs.Answers.{IsChecked, IsDone, IsInvalid, IsNoMemory};
ghost use Rattle.spav.specs.Lists.{IsForBytes, ListIsRefused, ListIsWritten};

use crate::answers::{DONE, INVALID, NO_MEMORY};
use spa_fixed_sized::DeserializeError;
use spa_rewrite::rewrite_in_place;
use std::alloc::Global;

/// Canonicalizes all pods that the bytes consist of, in place: their canonical encodings, one after another, are then the front of the bytes.
///
/// 0: `written` is the length of the encodings, never more than the pods had; what the bytes behind them are isn't said. -EINVAL: the bytes aren't
/// pods one after another; the pod that begins at the byte `at` is refused. -ENOMEM: memory was asked for and refused; it isn't asked for where the
/// bytes are pods with a nesting depth of at most 1000. Where the answer isn't 0, nothing is changed.
#[unsafe(no_mangle)]
pub extern "C" fn spav_rewrite_in_place(
    alloc: Global,
    bytes: &mut [u8],
    written: &mut usize,
    at: &mut usize,
) -> i32
    ensures done { IsDone result → ListIsWritten AreMembers bytes.old written.new bytes.new }
    ensures refused { IsInvalid result → ListIsRefused AreMembers IsRefused bytes.old at.new }
    ensures memory { IsNoMemory result → (place : ℕ) × RefusesListAt bytes.old place refused.OutOfMemory }
    ensures shallow { IsNoMemory result → ¬ (ArePodsWithin levels_looked_into bytes.old) }
    ensures answers { IsChecked result }
    ensures unchanged { ¬ (IsDone result) → bytes.new ≡ bytes.old }
{
    match rewrite_in_place(alloc, bytes) {
        Ok(len) => {
            *written = len;
            DONE
        }
        Err((behind, error)) => {
            if !is_for_bytes(&error) {
                return NO_MEMORY;
            }
            *at = behind;
            INVALID
        }
    }
}

/// Whether a refusal is for a fault of the bytes, and not for want of memory.
pub(crate) fn is_for_bytes<I>(error: &DeserializeError<I>) -> bool
    ensures bytes { result ≡ true → IsForBytes error.now }
    ensures memory { result ≡ false → error.now ≡ refused.OutOfMemory }
{
    match error {
        DeserializeError::OutOfMemory => false,
        _ => true,
    }
}
