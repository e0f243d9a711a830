//! Filters two values, from their pods to the pod of the outcome.
ghost use Rattle.std.specs.Prelude.{◌≡◌, ◌≢◌, ◌++◌, IfErr, OnOk};
ghost use Rattle.spa_format.specs.Tree.{Tree, choice_type};
ghost use Rattle.spa_format.specs.Words.{word_at};
ghost use Rattle.spa_filter.specs.CommonPods.{HasBody, IsCommonAppended, IsCommonRefused, IsOfferRefused, IsOffered, IsPodRefusal};
ghost use Rattle.spa_keyed_objects.specs.CanonicalPods.{IsCanonicalPod};
ghost use Rattle.spa_filter.specs.declared.refused.Refused.TheVariants.{OutOfMemory};

use crate::choices::{VALUES_AT, choice_over, put_read};
use crate::enums::{MOST, is_enum, is_short_enum, is_value_of, put_enum_first, put_enum_second};
use crate::error::FilterError;
use crate::ranges::{is_range, put_ranges};
use crate::refused::Refused;
use crate::support::{form_in, refusal};
use spa_bytes::{HEADER_LEN, SECOND_WORD, open, u32_at};
use spa_filter_offers::{Element, admits, offer_of};
use spa_utils::{Fd, Float32, Float64, Fraction, Id, Rectangle, SpaTypes};
use std::alloc::Global;

/// The length in bytes of a body of one word.
const ONE_WORD: usize = 4;

/// The length in bytes of a body of two words.
const TWO_WORDS: usize = 8;

/// Appends the canonical pod of a value that admits exactly what the values of two canonical pods admit, which two objects have under this key.
///
/// Refused as `Unsupported` of the key where no common value is sought for one of the two values or for such a pair; else as `Disjoint` of the
/// key where no value is admitted by both; as `TooLarge` where a size word of the outcome would be 4294967296 or more; and as `OutOfMemory`.
/// After a refusal bytes may have been appended.
pub fn put_common(
    alloc: Global,
    key: u32,
    out: &mut Vec<u8>,
    a: &[u8],
    b: &[u8],
) -> Result<(), FilterError>
    ensures appended { OnOk result ((v w : Tree) → IsCanonicalPod v a.now → IsCanonicalPod w b.now
        → IsCommonAppended v w out.old.items out.new.items) }
    ensures cause { IfErr result (λ e. (v w : Tree) → IsCanonicalPod v a.now → IsCanonicalPod w b.now
        → IsPodRefusal key v w e) }
{
    match put_met(alloc, out, a, b) {
        Ok(()) => Ok(()),
        Err(Refused::Apart) => Err(refusal(key, form_in(a), form_in(b))),
        Err(Refused::TooLarge) => Err(FilterError::TooLarge),
        Err(Refused::OutOfMemory) => Err(FilterError::OutOfMemory),
    }
}

/// Appends the canonical pod of a value that admits exactly what the values of two canonical pods admit.
fn put_met(alloc: Global, out: &mut Vec<u8>, a: &[u8], b: &[u8]) -> Result<(), Refused>
    ensures appended { OnOk result ((v w : Tree) → IsCanonicalPod v a.now → IsCanonicalPod w b.now
        → IsCommonAppended v w out.old.items out.new.items) }
    ensures cause { IfErr result (λ e. (v w : Tree) → IsCanonicalPod v a.now → IsCanonicalPod w b.now
        → IsCommonRefused v w e) }
{
    let Some(ours) = open(a) else {
        return Err(Refused::Apart);
    };
    let Some(theirs) = open(b) else {
        return Err(Refused::Apart);
    };
    if ours.type_ != SpaTypes::Choice.0 {
        if theirs.type_ != SpaTypes::Choice.0 {
            if a != b {
                return Err(Refused::Apart);
            }
            return put_pod(out, a);
        }
        is_offered(alloc, ours.type_, ours.body, theirs.body)?;
        return put_pod(out, a);
    }
    if theirs.type_ != SpaTypes::Choice.0 {
        is_offered(alloc, theirs.type_, theirs.body, ours.body)?;
        return put_pod(out, b);
    }
    put_choices(alloc, out, ours.body, theirs.body)
}

/// Appends the bytes of a pod. Refused only as `OutOfMemory`.
fn put_pod(out: &mut Vec<u8>, pod: &[u8]) -> Result<(), Refused>
    ensures appended { OnOk result (out.new.items ≡ out.old.items ++ pod.now) }
    ensures cause { IfErr result (λ e. e ≡ OutOfMemory) }
{
    if out.extend_from_slice(pod).is_ok() {
        Ok(())
    } else {
        Err(Refused::OutOfMemory)
    }
}

/// Checks that the plain value of a body of this type is one that the choice of the other body admits. Refused as `Apart` where it isn't, or
/// where the choice is over another type or unsupported.
fn is_offered(alloc: Global, type_: u32, body: &[u8], choice: &[u8]) -> Result<(), Refused>
    requires { type_ ≢ choice_type }
    ensures offered { OnOk result ((v w : Tree) → HasBody v type_ body.now → HasBody w choice_type choice.now
        → IsOffered v w) }
    ensures cause { IfErr result (λ e. (v w : Tree) → HasBody v type_ body.now → HasBody w choice_type choice.now
        → IsOfferRefused v w e) }
{
    match SpaTypes(type_) {
        SpaTypes::Bool => is_offered_over::<bool, ONE_WORD>(alloc, type_, body, choice),
        SpaTypes::Id => is_offered_over::<Id, ONE_WORD>(alloc, type_, body, choice),
        SpaTypes::Int => is_offered_over::<i32, ONE_WORD>(alloc, type_, body, choice),
        SpaTypes::Long => is_offered_over::<i64, TWO_WORDS>(alloc, type_, body, choice),
        SpaTypes::Float => is_offered_over::<Float32, ONE_WORD>(alloc, type_, body, choice),
        SpaTypes::Double => is_offered_over::<Float64, TWO_WORDS>(alloc, type_, body, choice),
        SpaTypes::Rectangle => is_offered_over::<Rectangle, TWO_WORDS>(alloc, type_, body, choice),
        SpaTypes::Fraction => is_offered_over::<Fraction, TWO_WORDS>(alloc, type_, body, choice),
        SpaTypes::Fd => is_offered_over::<Fd, TWO_WORDS>(alloc, type_, body, choice),
        _ => Err(Refused::Apart),
    }
}

/// Checks that the element of the type `T`, whose bodies have `N` bytes, with this body is one that the choice of the other body admits, with the
/// refusals of `is_offered`. `type_` is the number of the type; only the contract uses it.
fn is_offered_over<T: Element, const N: usize>(
    alloc: Global,
    type_: u32,
    body: &[u8],
    choice: &[u8],
) -> Result<(), Refused>
    requires { (type_ ≡ T.TYPE) × (T.SIZE ≡ N) }
    ensures offered { OnOk result ((v w : Tree) → HasBody v type_ body.now → HasBody w choice_type choice.now
        → IsOffered v w) }
    ensures cause { IfErr result (λ e. (v w : Tree) → HasBody v type_ body.now → HasBody w choice_type choice.now
        → IsOfferRefused v w e) }
{
    if body.len() != T::SIZE {
        return Err(Refused::Apart);
    }
    let x = T::of_body(body);
    if let Some(is_value) = is_value_of::<T, N>(&x, choice) {
        if is_value {
            return Ok(());
        }
        return Err(Refused::Apart);
    }
    let choice = choice_over::<T>(alloc, choice)?;
    if !admits(&offer_of(&choice.1), &x) {
        return Err(Refused::Apart);
    }
    Ok(())
}

/// Appends the canonical pod of the value to which the choices of two bodies filter.
fn put_choices(alloc: Global, out: &mut Vec<u8>, a: &[u8], b: &[u8]) -> Result<(), Refused>
    ensures appended { OnOk result ((v w : Tree) → HasBody v choice_type a.now → HasBody w choice_type b.now
        → IsCommonAppended v w out.old.items out.new.items) }
    ensures cause { IfErr result (λ e. (v w : Tree) → HasBody v choice_type a.now → HasBody w choice_type b.now
        → IsCommonRefused v w e) }
{
    if a.len() < VALUES_AT {
        return Err(Refused::Apart);
    }
    match SpaTypes(u32_at(a, HEADER_LEN + SECOND_WORD)) {
        SpaTypes::Bool => put_over::<bool, ONE_WORD>(alloc, out, a, b, &mut [false; MOST]),
        SpaTypes::Id => put_over::<Id, ONE_WORD>(alloc, out, a, b, &mut [Id(0); MOST]),
        SpaTypes::Int => put_over::<i32, ONE_WORD>(alloc, out, a, b, &mut [0; MOST]),
        SpaTypes::Long => put_over::<i64, TWO_WORDS>(alloc, out, a, b, &mut [0; MOST]),
        SpaTypes::Float => put_over::<Float32, ONE_WORD>(alloc, out, a, b, &mut [Float32(0); MOST]),
        SpaTypes::Double => put_over::<Float64, TWO_WORDS>(
            alloc,
            out,
            a,
            b,
            &mut [Float64(0); MOST],
        ),
        SpaTypes::Rectangle => put_over::<Rectangle, TWO_WORDS>(
            alloc,
            out,
            a,
            b,
            &mut [Rectangle {
                width: 0,
                height: 0,
            }; MOST],
        ),
        SpaTypes::Fraction => put_over::<Fraction, TWO_WORDS>(
            alloc,
            out,
            a,
            b,
            &mut [Fraction { num: 0, denom: 0 }; MOST],
        ),
        SpaTypes::Fd => put_over::<Fd, TWO_WORDS>(alloc, out, a, b, &mut [Fd(0); MOST]),
        _ => Err(Refused::Apart),
    }
}

/// Appends the canonical pod of the value to which the choices of two bodies filter, the first of which is over the type `T`, whose bodies have
/// `N` bytes. Values that both admit are collected in `room`.
fn put_over<T: Element, const N: usize>(
    alloc: Global,
    out: &mut Vec<u8>,
    a: &[u8],
    b: &[u8],
    room: &mut [T],
) -> Result<(), Refused>
    requires size { T.SIZE ≡ N }
    requires over { word_at a.now 12 ≡ T.TYPE }
    ensures appended { OnOk result ((v w : Tree) → HasBody v choice_type a.now → HasBody w choice_type b.now
        → IsCommonAppended v w out.old.items out.new.items) }
    ensures cause { IfErr result (λ e. (v w : Tree) → HasBody v choice_type a.now → HasBody w choice_type b.now
        → IsCommonRefused v w e) }
{
    if is_short_enum(a) {
        return put_enum_first::<T, N>(alloc, out, a, b, room);
    }
    if is_short_enum(b) && !is_enum(a) {
        return put_enum_second::<T, N>(alloc, out, a, b, room);
    }
    if is_range(a) && is_range(b) {
        return put_ranges::<T>(alloc, out, a, b);
    }
    put_read::<T>(alloc, out, a, b)
}
