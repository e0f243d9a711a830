//! Inputs in the lenient reading: rewritten into the caller's memory or in place, checked, and read.
ghost use Rattle.std.specs.Prelude.{◌≡◌, ◌≢◌, ◌<◌, ◌≤◌, ◌⊎◌, List, drop, length, take, ⊤, ℕ};
ghost use Rattle.spa_bodies.specs.Reading.{Names};
ghost use Rattle.spa_bodies.specs.Refusing.{Says};
ghost use Rattle.spa_fixed_sized.specs.declared.fault.Refusal.TheVariants as refusal;
ghost use Rattle.spa_format.specs.Lenient.{ConveyMembers};
ghost use Rattle.spa_format.specs.Tree.{Trees};
ghost use Rattle.spa_format.specs.Walk.{walk};
ghost use Rattle.spa_lenient.specs.Rewriting.{RefusesList};
ghost use Rattle.spa_read.specs.Reading.{ConveysNothing, StandsLeniently};
ghost use Rattle.spa_canonical.specs.Rewriting.{ArePodsWithin};
ghost use Rattle.spa_canonical.specs.Depth.{NestsDeeper, SomeOf, levels_looked_into};
ghost use Rattle.spav.specs.Answers.{IsAsked, IsChecked, IsDone, IsInvalid, IsNoMemory, IsNoRoom, IsRewritten, IsTooDeep};
ghost use Rattle.spav.specs.Items.{ArePast, AreRead};
ghost use Rattle.spav.specs.Lists.{IsForBytes, ListIsRefused, ListIsWritten, ListLacksRoom};
ghost use Rattle.spav.specs.Lenient.{FaultStandsLeniently};

use crate::answers::{DONE, INVALID, NO_MEMORY, NO_ROOM, TOO_DEEP};
use crate::faults::{NO_FAULT, number_of};
use crate::lists::put_front;
use spa_fixed_sized::{DeserializeError, FaultKind, Refusal};
use spa_items::{Item, list_items};
use spa_lenient::{rewrite_all_leniently, rewrite_in_place_leniently, rewrite_into_leniently};
use std::alloc::Global;

/// Writes the encodings of all values that the input conveys in the lenient reading, one after another, to the front of `out`.
///
/// 0: `written` is the length of the encodings in bytes. `out` is unchanged behind as many bytes as the input has, and where it is shorter than the
/// input, behind the encodings. -EINVAL: the input doesn't convey values one after another; at the byte `at` no value is conveyed. -ENOSPC: it does,
/// and the length, `written`, is more than `out` has. -ENOMEM: memory was asked for and refused; it isn't asked for where the input is pods with a
/// nesting depth of at most 1000 and `out` is as long. Where the answer isn't 0, `out` is unchanged.
#[unsafe(no_mangle)]
pub extern "C" fn spav_rewrite_leniently(
    alloc: Global,
    input: &[u8],
    out: &mut [u8],
    written: &mut usize,
    at: &mut usize,
) -> i32
    ensures done { IsDone result → ListIsWritten ConveyMembers input.now written.new out.new }
    ensures refused { IsInvalid result → ListIsRefused ConveyMembers ConveysNothing input.now at.new }
    ensures room { IsNoRoom result → ListLacksRoom ConveyMembers input.now written.new out.old }
    ensures across { IsNoMemory result → length input.now ≤ length out.old
        → ¬ (ArePodsWithin levels_looked_into input.now) }
    ensures answers { IsRewritten result }
    ensures behind { drop (length input.now) out.new ≡ drop (length input.now) out.old }
    ensures short { IsDone result → length out.old < length input.now
        → drop written.new out.new ≡ drop written.new out.old }
    ensures unchanged { ¬ (IsDone result) → out.new ≡ out.old }
{
    if out.len() < input.len() {
        return write_shorter(alloc, input, out, written, at);
    }
    match rewrite_into_leniently(alloc, input, out) {
        Ok(len) => {
            *written = len;
            DONE
        }
        Err((left, error)) => refused(input, left, error, at),
    }
}

/// Writes the lenient rewriting by means of memory, where the output may be shorter than the input.
fn write_shorter(
    alloc: Global,
    input: &[u8],
    out: &mut [u8],
    written: &mut usize,
    at: &mut usize,
) -> i32
    ensures done { IsDone result → ListIsWritten ConveyMembers input.now written.new out.new }
    ensures refused { IsInvalid result → ListIsRefused ConveyMembers ConveysNothing input.now at.new }
    ensures room { IsNoRoom result → ListLacksRoom ConveyMembers input.now written.new out.old }
    ensures answers { IsRewritten result }
    ensures behind { drop (length input.now) out.new ≡ drop (length input.now) out.old }
    ensures short { IsDone result → drop written.new out.new ≡ drop written.new out.old }
    ensures unchanged { ¬ (IsDone result) → out.new ≡ out.old }
{
    let mut rewritten = Vec::new(alloc);
    match rewrite_all_leniently(input, &mut rewritten) {
        Ok(()) => put_front(rewritten.as_slice(), out, written),
        Err((left, error)) => refused(input, left, error, at),
    }
}

/// The answer to a refusal; `at` is the byte at which no value is conveyed.
#[tactic(auto, using(crate::proofs::Refusals::none_conveyed))]
fn refused(input: &[u8], left: &[u8], error: DeserializeError<&[u8]>, at: &mut usize) -> i32
    requires { RefusesList input.now left.now error }
    ensures refused { IsInvalid result → ListIsRefused ConveyMembers ConveysNothing input.now at.new }
    ensures answers { IsNoMemory result ⊎ IsInvalid result }
    ensures unchanged { ¬ (IsInvalid result) → at.new ≡ at.old }
{
    match error {
        DeserializeError::OutOfMemory => NO_MEMORY,
        _ => {
            *at = input.len() - left.len();
            INVALID
        }
    }
}

/// Rewrites the bytes leniently in place: the encodings of the values that they convey, one after another, are then the front of the bytes.
///
/// 0: `written` is the length of the encodings, never more than the bytes had; what the bytes behind them are isn't said. -EINVAL: the bytes don't
/// convey values one after another; at the byte `at` no value is conveyed. -ENOMEM: memory was asked for and refused; it isn't asked for where the
/// bytes are pods with a nesting depth of at most 1000. Where the answer isn't 0, nothing is changed.
#[tactic(auto, using(crate::proofs::Refusals::none_conveyed_at))]
#[unsafe(no_mangle)]
pub extern "C" fn spav_rewrite_in_place_leniently(
    alloc: Global,
    bytes: &mut [u8],
    written: &mut usize,
    at: &mut usize,
) -> i32
    ensures done { IsDone result → ListIsWritten ConveyMembers bytes.old written.new bytes.new }
    ensures refused { IsInvalid result → ListIsRefused ConveyMembers ConveysNothing bytes.old at.new }
    ensures shallow { IsNoMemory result → ¬ (ArePodsWithin levels_looked_into bytes.old) }
    ensures answers { IsChecked result }
    ensures unchanged { ¬ (IsDone result) → bytes.new ≡ bytes.old }
{
    match rewrite_in_place_leniently(alloc, bytes) {
        Ok(len) => {
            *written = len;
            DONE
        }
        Err((_behind, DeserializeError::OutOfMemory)) => NO_MEMORY,
        Err((behind, _)) => {
            *at = behind;
            INVALID
        }
    }
}

/// Whether the input conveys values one after another in the lenient reading.
///
/// 0: it does. -EINVAL: it doesn't; at the byte `at` no value is conveyed. -ENOMEM: memory was asked for and refused; it isn't asked for where the
/// input is pods with a nesting depth of at most 1000. Where the answer isn't -EINVAL, nothing is written.
#[unsafe(no_mangle)]
pub extern "C" fn spav_check_leniently(alloc: Global, input: &[u8], at: &mut usize) -> i32
    ensures done { IsDone result → (values : Trees) × ConveyMembers values input.now }
    ensures refused { IsInvalid result → ListIsRefused ConveyMembers ConveysNothing input.now at.new }
    ensures shallow { IsNoMemory result → ¬ (ArePodsWithin levels_looked_into input.now) }
    ensures answers { IsChecked result }
    ensures unchanged { ¬ (IsInvalid result) → at.new ≡ at.old }
{
    match rewrite_into_leniently(alloc, input, &mut []) {
        Ok(_) => DONE,
        Err((left, error)) => refused(input, left, error, at),
    }
}

/// Finds a fault of the input in the lenient reading.
///
/// 0: the input conveys values one after another before the byte `top`, and none at it, where a fault of the kind `kind` stands; or `kind` is 0, and
/// there is none: it conveys values one after another, and `top` is unchanged. -ENOMEM: memory was asked for and refused; it isn't asked for where the
/// input is pods with a nesting depth of at most 1000; nothing is written.
#[unsafe(no_mangle)]
pub extern "C" fn spav_fault_leniently(
    alloc: Global,
    input: &[u8],
    kind: &mut u32,
    top: &mut usize,
) -> i32
    ensures none { IsDone result → kind.new ≡ 0 → (values : Trees) × ConveyMembers values input.now }
    ensures fault { IsDone result → kind.new ≢ 0 → FaultStandsLeniently input.now kind.new top.new }
    ensures shallow { IsNoMemory result → ¬ (ArePodsWithin levels_looked_into input.now) }
    ensures answers { IsAsked result }
    ensures unchanged { IsNoMemory result → (kind.new ≡ kind.old) × (top.new ≡ top.old) }
    ensures kept_without { IsDone result → kind.new ≡ 0 → top.new ≡ top.old }
{
    match rewrite_into_leniently(alloc, input, &mut []) {
        Ok(_) => {
            *kind = NO_FAULT;
            DONE
        }
        Err((left, error)) => fault_named(input, left, error, kind, top),
    }
}

/// The answer to a refusal; `kind` is the fault that it names, and `top` the byte at which no value is conveyed.
#[tactic(auto, using(crate::proofs::Refusals::fault_conveyed))]
fn fault_named(
    input: &[u8],
    left: &[u8],
    error: DeserializeError<&[u8]>,
    kind: &mut u32,
    top: &mut usize,
) -> i32
    requires { RefusesList input.now left.now error }
    ensures fault { IsDone result → FaultStandsLeniently input.now kind.new top.new }
    ensures some { IsDone result → kind.new ≢ 0 }
    ensures answers { IsAsked result }
    ensures unchanged { IsNoMemory result → (kind.new ≡ kind.old) × (top.new ≡ top.old) }
{
    match cause_of(left, error) {
        Refusal::OutOfMemory => NO_MEMORY,
        why => {
            *kind = number_of(why);
            *top = input.len() - left.len();
            DONE
        }
    }
}

/// The cause of the refusal of the front of what is left, without its place.
fn cause_of(left: &[u8], error: DeserializeError<&[u8]>) -> Refusal
    requires { Names (λ fault place. StandsLeniently fault place left.now) error }
    ensures said { Says (λ fault. (place : List ℕ) × StandsLeniently fault place left.now) ⊤ result }
    ensures bytes { result ≢ refusal.OutOfMemory → IsForBytes error.entry }
{
    match error {
        DeserializeError::Nom(fault) => match fault.kind {
            FaultKind::Short => Refusal::Short,
            FaultKind::Text => Refusal::Text,
            FaultKind::Tag => unreachable!(),
        },
        DeserializeError::InvalidType => Refusal::InvalidType,
        DeserializeError::InvalidChoiceType => Refusal::InvalidChoiceType,
        DeserializeError::MissingChoiceValues => Refusal::MissingChoiceValues,
        DeserializeError::WrongSize => Refusal::WrongSize,
        DeserializeError::OutOfMemory => Refusal::OutOfMemory,
        _ => unreachable!(),
    }
}

/// Writes the encodings that `spav_rewrite_leniently` writes to the front of `out`, and the items of these to the front of `items`: their bytes are
/// bytes of `out`.
///
/// 0: the encodings have `written` bytes, and there are `count` items. -ENOSPC: `out` has fewer than `written` bytes, and nothing more is written; or the
/// encodings were written, and `items`, which has room for fewer than `count`, is full of the first of them. -ELOOP: the encodings were written, and
/// nest more than 1000 deep; `items` is unchanged. -EINVAL, -ENOMEM: as of `spav_rewrite_leniently`, and nothing is written but `at`.
#[unsafe(no_mangle)]
pub extern "C" fn spav_read_leniently(
    alloc: Global,
    input: &[u8],
    out: &mut [u8],
    items: &mut [Item],
    written: &mut usize,
    count: &mut usize,
    at: &mut usize,
) -> i32
    ensures done { IsDone result → ListIsWritten ConveyMembers input.now written.new out.new
        × AreRead (take written.new out.new) count.new items.old items.new }
    ensures room { IsNoRoom result → length out.old < written.new → ListLacksRoom ConveyMembers input.now written.new out.old }
    ensures past { IsNoRoom result → written.new ≤ length out.old → ListIsWritten ConveyMembers input.now written.new out.new
        × ArePast (take written.new out.new) count.new items.new }
    ensures deep { IsTooDeep result → ListIsWritten ConveyMembers input.now written.new out.new
        × SomeOf (NestsDeeper levels_looked_into) (walk (take written.new out.new)) }
    ensures refused { IsInvalid result → ListIsRefused ConveyMembers ConveysNothing input.now at.new }
    ensures across { IsNoMemory result → length input.now ≤ length out.old
        → ¬ (ArePodsWithin levels_looked_into input.now) }
    ensures answers { IsRewritten result ⊎ IsTooDeep result }
    ensures unchanged { IsInvalid result ⊎ IsNoMemory result → (out.new ≡ out.old) × (items.new ≡ items.old) }
    ensures kept { IsNoRoom result → length out.old < written.new → (out.new ≡ out.old) × (items.new ≡ items.old) }
    ensures unread { IsTooDeep result → items.new ≡ items.old }
{
    let answer = spav_rewrite_leniently(alloc, input, out, written, at);
    if answer != DONE {
        return answer;
    }
    let Some(listed) = list_items(&out[..*written], items) else {
        return TOO_DEEP;
    };
    *count = listed;
    if listed > items.len() {
        return NO_ROOM;
    }
    DONE
}
