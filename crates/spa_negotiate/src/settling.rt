//! Settles a key of the two sides, from their pods to the pod of the outcome.
ghost use Rattle.std.specs.Prelude.{◌≡◌, ◌<◌, ◌≤◌, ◌++◌, IfErr, IfNone, IfOk, IfSome, OnOk, true};
ghost use Rattle.spa_format.specs.Kind.{Kind, body_size, type_number};
ghost use Rattle.spa_format.specs.Pod.{IsPod};
ghost use Rattle.spa_format.specs.Tree.{Tree, fixed};
ghost use Rattle.spa_format.specs.Words.{word_bytes};
ghost use Rattle.spa_keyed_objects.specs.CanonicalPods.{IsCanonicalPod};
ghost use Rattle.spa_bodies.specs.Written.{IsLeaf};
ghost use Rattle.spa_value.specs.View.{view};
ghost use Rattle.spa_negotiate.specs.Admits.{IsPlain, plain_of};
ghost use Rattle.spa_negotiate.specs.Refusals.{IsValueRefusal};
ghost use Rattle.spa_negotiate.specs.declared.error.NegotiateError.TheVariants.{OutOfMemory};
ghost use Rattle.spa_negotiate.specs.Offering.{value_of};
ghost use Rattle.spa_negotiate.specs.Written.{IsCommonEncoded, IsCommonPut, IsPut};

use crate::error::NegotiateError;
use crate::negotiation::common;
use crate::offer_view::{ONE_WORD, TWO_WORDS, first_common, offer_view};
use crate::support::is_supported;
use spa_bytes::{joined, open, two_words, u32_at, u64_at, wide_body, word_body};
use spa_events::is_container;
use spa_format::laws::pods_have_one_value;
use spa_object_view::{are_same, is_plain, put_key, put_pod};
use spa_read::read_leaf;
use spa_utils::SpaTypes;
use spa_value::{Held, Value};
use spa_write::write_value;
use std::alloc::Global;

/// Appends a property with a plain value, or with the default of a choice.
pub(crate) fn put_default(out: &mut Vec<u8>, key: u32, pod: &[u8]) -> bool
    ensures { result ≡ true → (v : Tree) → IsCanonicalPod v pod.now
        → IsPut key (plain_of v) out.old.items out.new.items }
{
    if is_plain(pod) {
        return put(out, key, pod);
    }
    match offer_view(pod) {
        Some(offer) => put_value(out, key, offer.type_, offer.size, offer.values),
        None => false,
    }
}

/// Appends a property with a value that the values of two pods admit. Choices are compared as borrowed bytes, and read only where no common value is
/// found so.
pub(crate) fn put_common(
    alloc: Global,
    out: &mut Vec<u8>,
    key: u32,
    pod: &[u8],
    other: &[u8],
) -> Result<(), NegotiateError>
    ensures put { OnOk result ((v w : Tree) → IsCanonicalPod v pod.now → IsCanonicalPod w other.now
        → IsCommonPut v w key out.old.items out.new.items) }
    ensures cause { IfErr result (λ e. (v w : Tree) → IsCanonicalPod v pod.now → IsCanonicalPod w other.now
        → IsValueRefusal key v w e) }
{
    if is_plain(pod) && is_plain(other) {
        return put_same(out, key, pod, other);
    }
    let Some(a) = offer_view(pod) else {
        return put_read(alloc, out, key, pod, other);
    };
    let Some(b) = offer_view(other) else {
        return put_read(alloc, out, key, pod, other);
    };
    let Some(value) = first_common(alloc, &a, &b) else {
        return put_read(alloc, out, key, pod, other);
    };
    if !put_value(out, key, a.type_, a.size, value) {
        return Err(NegotiateError::OutOfMemory);
    }
    Ok(())
}

/// Appends a property with the value of two plain pods that are equal.
fn put_same(out: &mut Vec<u8>, key: u32, pod: &[u8], other: &[u8]) -> Result<(), NegotiateError>
    requires { (v w : Tree) → IsPod pod.now v → IsPod other.now w → IsPlain v × IsPlain w }
    ensures put { OnOk result ((v w : Tree) → IsCanonicalPod v pod.now → IsCanonicalPod w other.now
        → IsCommonPut v w key out.old.items out.new.items) }
    ensures cause { IfErr result (λ e. (v w : Tree) → IsCanonicalPod v pod.now → IsCanonicalPod w other.now
        → IsValueRefusal key v w e) }
{
    if !are_same(pod, other) {
        return Err(NegotiateError::Disjoint(key));
    }
    if !put(out, key, pod) {
        return Err(NegotiateError::OutOfMemory);
    }
    Ok(())
}

/// Appends a property with a value that the values of two pods admit; values without members are read.
#[inline(never)]
fn put_read(
    alloc: Global,
    out: &mut Vec<u8>,
    key: u32,
    pod: &[u8],
    other: &[u8],
) -> Result<(), NegotiateError>
    ensures put { OnOk result ((v w : Tree) → IsCanonicalPod v pod.now → IsCanonicalPod w other.now
        → IsCommonPut v w key out.old.items out.new.items) }
    ensures cause { IfErr result (λ e. (v w : Tree) → IsCanonicalPod v pod.now → IsCanonicalPod w other.now
        → IsValueRefusal key v w e) }
{
    let first = leaf_at(alloc, pod)?;
    let second = leaf_at(alloc, other)?;
    match first {
        Some(ours) => match second {
            Some(theirs) => put_met(alloc, out, key, &*ours, &*theirs),
            None => Err(apart(key, &*ours)),
        },
        None => match second {
            Some(theirs) => Err(apart(key, &*theirs)),
            None => put_same(out, key, pod, other),
        },
    }
}

/// Reads the value of a pod. None: it is a struct or an object.
fn leaf_at(alloc: Global, pod: &[u8]) -> Result<Option<Held>, NegotiateError>
    ensures value { IfOk result (λ read. IfSome read (λ value. (v : Tree) → IsPod pod.now v → view value ≡ v)) }
    ensures leaf { IfOk result (λ read. IfSome read (λ value. IsLeaf (view value))) }
    ensures members { IfOk result (λ read. IfNone read ((v : Tree) → IsPod pod.now v → ¬ (IsLeaf v))) }
    ensures cause { IfErr result (λ e. e ≡ OutOfMemory) }
{
    pods_have_one_value();
    let Some(front) = open(pod) else {
        return Ok(None);
    };
    if is_container(front.type_) {
        return Ok(None);
    }
    match read_leaf(alloc, front.type_, front.body) {
        Ok(value) => Ok(Some(Held::from(value))),
        Err(_) => Err(NegotiateError::OutOfMemory),
    }
}

/// Appends a property with a value that two values admit.
fn put_met(
    alloc: Global,
    out: &mut Vec<u8>,
    key: u32,
    ours: &Value,
    theirs: &Value,
) -> Result<(), NegotiateError>
    ensures put { OnOk result (IsCommonEncoded (view ours.now) (view theirs.now) key out.old.items out.new.items) }
    ensures cause { IfErr result (IsValueRefusal key (view ours.now) (view theirs.now)) }
{
    let value = Held::from(common(alloc, key, ours, theirs)?);
    if !put_key(out, key, 0) {
        return Err(NegotiateError::OutOfMemory);
    }
    match write_value(alloc, out, &*value) {
        Ok(_len) => Ok(()),
        Err(_) => Err(NegotiateError::OutOfMemory),
    }
}

/// The refusal where a value without members is to meet one with members.
fn apart(key: u32, leaf: &Value) -> NegotiateError
    requires { IsLeaf (view leaf.now) }
    ensures first { (v : Tree) → ¬ (IsLeaf v) → IsValueRefusal key v (view leaf.now) result }
    ensures second { (v : Tree) → ¬ (IsLeaf v) → IsValueRefusal key (view leaf.now) v result }
{
    if is_supported(leaf) {
        NegotiateError::Disjoint(key)
    } else {
        NegotiateError::Unsupported(key)
    }
}

/// Appends a property with the value of fixed size, of this type and this body length, at the front of the bytes.
fn put_value(out: &mut Vec<u8>, key: u32, type_: u32, size: usize, value: &[u8]) -> bool
    ensures { result ≡ true → (k : Kind) → type_ ≡ type_number k → size ≡ body_size k
        → IsPut key (fixed (value_of k value.now)) out.old.items out.new.items }
{
    if value.len() < size {
        return false;
    }
    match size {
        ONE_WORD => put(
            out,
            key,
            &joined(
                two_words(4, type_),
                word_body(written_word(type_, u32_at(value, 0))),
            ),
        ),
        TWO_WORDS => put(
            out,
            key,
            &joined(two_words(8, type_), wide_body(u64_at(value, 0))),
        ),
        _ => false,
    }
}

/// The canonical word of a value of this type whose body is this word: of a truth value 0 or 1.
fn written_word(type_: u32, word: u32) -> u32
    ensures itself { ¬ (type_ ≡ 2) → result ≡ word }
    ensures small { word < 2 → result ≡ word }
    ensures truth { type_ ≡ 2 → 1 ≤ word → result ≡ 1 }
{
    if type_ == SpaTypes::Bool.0 && word > 1 {
        return 1;
    }
    word
}

/// Appends a property with this key, no flags and the value of this pod.
fn put(out: &mut Vec<u8>, key: u32, pod: &[u8]) -> bool
    ensures { result ≡ true → out.new.items ≡ out.old.items ++ ((word_bytes key ++ word_bytes 0) ++ pod.now) }
{
    put_key(out, key, 0) && put_pod(out, pod)
}
