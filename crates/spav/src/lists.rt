//! Rewrites lists of pods into the caller's memory, and checks them.
ghost use Rattle.std.specs.Prelude.{◌≡◌, ◌<◌, ◌≤◌, ◌++◌, drop, false, IfNone, IfSome, length, true};
ghost use Rattle.spa_format.specs.Front.{IsRefused};
ghost use Rattle.spa_format.specs.Pod.{AreMembers};
ghost use Rattle.spa_format.specs.Tree.{Trees};
ghost use Rattle.spa_canonical.specs.Rewriting.{ArePodsWithin};
ghost use Rattle.spa_canonical.specs.Depth.{AreShallow, levels_looked_into};
ghost use Rattle.spav.specs.Answers.{IsChecked, IsDone, IsInvalid, IsNoMemory, IsNoRoom, IsPut, IsRewritten};
ghost use Rattle.spav.specs.Lists.{ListIsRefused, ListIsWritten, ListLacksRoom};

use crate::answers::{DONE, INVALID, NO_MEMORY, NO_ROOM};
use spa_canonical::canonical_stretch;
use spa_fixed_sized::DeserializeError;
use spa_rewrite::{accept_all, rewrite_all, rewrite_into};
use std::alloc::Global;

/// Writes the canonical encodings of all pods that the input consists of, one after another, to the front of `out`.
///
/// 0: `written` is the length of the encodings in bytes. `out` is unchanged behind as many bytes as the input has, and where it is shorter than the
/// input, behind the encodings. -EINVAL: the input isn't pods one after another; the pod that begins at the byte `at` is refused. -ENOSPC: it is, and
/// the length, `written`, is more than `out` has. -ENOMEM: memory was asked for and refused; it isn't asked for where the input is pods with a nesting
/// depth of at most 1000 and is canonical, or `out` is as long as it. Where the answer isn't 0, `out` is unchanged.
#[unsafe(no_mangle)]
pub extern "C" fn spav_rewrite(
    alloc: Global,
    input: &[u8],
    out: &mut [u8],
    written: &mut usize,
    at: &mut usize,
) -> i32
    ensures done { IsDone result → ListIsWritten AreMembers input.now written.new out.new }
    ensures refused { IsInvalid result → ListIsRefused AreMembers IsRefused input.now at.new }
    ensures room { IsNoRoom result → ListLacksRoom AreMembers input.now written.new out.old }
    ensures memory { IsNoMemory result → ¬ (AreShallow levels_looked_into input.now) }
    ensures across { IsNoMemory result → length input.now ≤ length out.old
        → ¬ (ArePodsWithin levels_looked_into input.now) }
    ensures answers { IsRewritten result }
    ensures behind { drop (length input.now) out.new ≡ drop (length input.now) out.old }
    ensures short { IsDone result → length out.old < length input.now
        → drop written.new out.new ≡ drop written.new out.old }
    ensures unchanged { ¬ (IsDone result) → out.new ≡ out.old }
{
    if let Some(answer) = put_into(input, out, written) {
        return answer;
    }
    let (_, others) = canonical_stretch(input);
    if others.is_empty() {
        return put_front(input, out, written);
    }
    let mut rewritten = Vec::new(alloc);
    match rewrite_all(input, &mut rewritten) {
        Ok(()) => put_front(rewritten.as_slice(), out, written),
        Err((_left, DeserializeError::OutOfMemory)) => NO_MEMORY,
        Err((left, _)) => {
            *at = input.len() - left.len();
            INVALID
        }
    }
}

/// The answer where no memory is needed: the output is as long as the input, or shorter than the encodings. None: memory is needed.
fn put_into(input: &[u8], out: &mut [u8], written: &mut usize) -> Option<i32>
    ensures done { IfSome result (λ answer. IsDone answer → ListIsWritten AreMembers input.now written.new out.new) }
    ensures room { IfSome result (λ answer. IsNoRoom answer → ListLacksRoom AreMembers input.now written.new out.old) }
    ensures answers { IfSome result (λ answer. IsPut answer) }
    ensures behind { drop (length input.now) out.new ≡ drop (length input.now) out.old }
    ensures room_for_all { IfSome result (λ answer. IsDone answer → length input.now ≤ length out.old) }
    ensures unchanged { IfSome result (λ answer. ¬ (IsDone answer) → out.new ≡ out.old) }
    ensures nothing { IfNone result (out.new ≡ out.old) }
    ensures missed { IfNone result (length input.now ≤ length out.old
        → ¬ (ArePodsWithin levels_looked_into input.now)) }
{
    let Some(taken) = rewrite_into(input, out) else {
        return None;
    };
    if input.len() <= out.len() {
        *written = taken;
        return Some(DONE);
    }
    if out.len() < taken {
        *written = taken;
        return Some(NO_ROOM);
    }
    None
}

/// Whether the input is pods one after another.
///
/// 0: it is. -EINVAL: it isn't; the pod that begins at the byte `at` is refused. -ENOMEM: memory was asked for and refused; it isn't
/// asked for where the input is pods with a nesting depth of at most 1000.
#[unsafe(no_mangle)]
pub extern "C" fn spav_check(alloc: Global, input: &[u8], at: &mut usize) -> i32
    ensures done { IsDone result → (values : Trees) × AreMembers values input.now }
    ensures refused { IsInvalid result → ListIsRefused AreMembers IsRefused input.now at.new }
    ensures memory { IsNoMemory result → ¬ (AreShallow levels_looked_into input.now) }
    ensures shallow { IsNoMemory result → ¬ (ArePodsWithin levels_looked_into input.now) }
    ensures answers { IsChecked result }
{
    match accept_all(alloc, input) {
        Ok(()) => DONE,
        Err((_left, DeserializeError::OutOfMemory)) => NO_MEMORY,
        Err((behind, _)) => {
            *at = input.len() - behind.len();
            INVALID
        }
    }
}

/// Copies bytes to the front of the output where they fit, and their length to `written` in any case.
pub(crate) fn put_front(bytes: &[u8], out: &mut [u8], written: &mut usize) -> i32
    ensures done { IsDone result → out.new ≡ bytes.now ++ drop (length bytes.now) out.old }
    ensures counted { written.new ≡ length bytes.now }
    ensures room { IsNoRoom result → length out.old < length bytes.now }
    ensures answers { IsPut result }
    ensures unchanged { ¬ (IsDone result) → out.new ≡ out.old }
{
    *written = bytes.len();
    if out.len() < bytes.len() {
        return NO_ROOM;
    }
    out[..bytes.len()].copy_from_slice(bytes);
    DONE
}
