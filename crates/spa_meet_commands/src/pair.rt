//! Two objects, and the one on which they agree.
ghost use Rattle.std.specs.Prelude.{◌≡◌, IfErr, IfOk, List, OnOk, ℕ};
ghost use Rattle.spa_format.specs.Encoding.{encoding_of};
ghost use Rattle.spa_format.specs.Front.{rest_of};
ghost use Rattle.spa_format.specs.Pod.{IsPod};
ghost use Rattle.spa_format.specs.Tree.{Tree};
ghost use Rattle.spa_filter.specs.Settling.{settled_of};
ghost use Rattle.spa_filter_pods.specs.Fronts.{BeginBoth, FilterIn, OfViewed};
ghost use Rattle.spa_object_view.specs.Fronts.{IsObject};
ghost use Rattle.spa_value.specs.View.{object_view};
ghost use Rattle.spa_meet_commands.specs.Agreeing.{Agree, AgreeIn, ArentAgreed, IsUnsettled, IsUnwritten};
ghost use Rattle.spa_meet_commands.specs.Answers.{HasType, IsPairRefused, PairIn};

use crate::answer::Failure;
use spa_bytes::u32_at;
use spa_filter::laws::filters_settle;
use spa_filter::settle;
use spa_filter_pods::{FilterError, Side, filter_pods, filter_viewed};
use spa_format::laws::pods_have_one_value;
use spa_object_view::ObjectPod;
use spa_sink::GenError;
use spa_typed_read::PodDeserializer;
use spa_value::laws::trees_have_their_types;
use spa_value::{Held, Object, Value};
use spa_view::Pod;
use spa_write::write_value;
use std::alloc::Global;

/// The work on two objects.
#[derive(Clone, Copy, PartialEq, Eq, Debug)]
pub enum Work {
    /// The object is sought in which they meet: the one to which they are filtered, with each choice at its default.
    Negotiate,
    /// The object is sought to which they are filtered.
    Filter,
}

/// The encoding of the object on which the two agree that the input consists of.
pub fn of_pair(alloc: Global, work: Work, input: &[u8]) -> Result<Vec<u8>, Failure>
    ensures pair { IfOk result (λ met. PairIn work met.items input.now) }
    ensures cause { IfErr result (λ why. IsPairRefused work why input.now) }
{
    let second = behind_front(input);
    if !behind_front(second).is_empty() {
        return Err(Failure::More);
    }
    match agreed(alloc, work, input, second) {
        Ok(met) => Ok(met),
        Err(cause) => Err(Failure::Apart(type_at(input), cause)),
    }
}

/// The encoding of the object on which those at the fronts of two inputs agree.
pub(crate) fn agreed(alloc: Global, work: Work, a: &[u8], b: &[u8]) -> Result<Vec<u8>, FilterError>
    ensures accepted { OnOk result (Agree a.now b.now) }
    ensures agreed { IfOk result (λ met. AgreeIn work a.now b.now met.items) }
    ensures cause { IfErr result (ArentAgreed work a.now b.now) }
{
    match filter_pods(alloc, a, b) {
        Ok(met) => worked(alloc, work, met),
        Err(cause) => Err(cause),
    }
}

/// The encoding of the object on which two that were viewed agree.
pub(crate) fn agreed_viewed(
    alloc: Global,
    work: Work,
    ours: &ObjectPod<'_>,
    theirs: &ObjectPod<'_>,
) -> Result<Vec<u8>, FilterError>
    ensures agreed { IfOk result (λ met. OfViewed ours.now theirs.now (λ a b. AgreeIn work a b met.items)) }
    ensures cause { IfErr result (λ e. OfViewed ours.now theirs.now (λ a b. ArentAgreed work a b e)) }
{
    match filter_viewed(alloc, ours, theirs) {
        Ok(met) => worked(alloc, work, met),
        Err(error) => Err(error),
    }
}

/// What the work makes of the encoding of the object to which two are filtered.
fn worked(alloc: Global, work: Work, met: Vec<u8>) -> Result<Vec<u8>, FilterError>
    ensures agreed { IfOk result (λ out. (a b : List ℕ) → BeginBoth a b (FilterIn met.items) → AgreeIn work a b out.items) }
    ensures cause { IfErr result (λ e. (a b : List ℕ) → BeginBoth a b (FilterIn met.items) → ArentAgreed work a b e) }
{
    filters_settle();
    match work {
        Work::Filter => Ok(met),
        Work::Negotiate => settled(alloc, met.as_slice()),
    }
}

/// The encoding of the object of a pod, with each choice at its default. Refused as `NotObject` where the pod is of another value.
fn settled(alloc: Global, pod: &[u8]) -> Result<Vec<u8>, FilterError>
    ensures settled { IfOk result (λ out. (v : Tree) → IsPod pod.now v → IsObject v → out.items ≡ encoding_of (settled_of v)) }
    ensures cause { IfErr result (λ e. (v : Tree) → IsPod pod.now v → IsObject v → IsUnsettled v e) }
{
    pods_have_one_value();
    trees_have_their_types();
    let value = match PodDeserializer::deserialize_any_from(alloc, pod) {
        Ok((_, value)) => Held::from(value),
        // A pod is refused only for want of memory.
        Err(_) => return Err(FilterError::OutOfMemory),
    };
    match &*value {
        Value::Object(object) => settled_object(alloc, object),
        _ => Err(FilterError::NotObject(Side::First)),
    }
}

/// The encoding of an object with each choice at its default.
fn settled_object(alloc: Global, object: &Object) -> Result<Vec<u8>, FilterError>
    ensures settled { IfOk result (λ out. out.items ≡ encoding_of (settled_of (object_view object.now))) }
    ensures cause { IfErr result (IsUnwritten (settled_of (object_view object.now))) }
{
    let Ok(settled) = settle(alloc, object) else {
        return Err(FilterError::OutOfMemory);
    };
    let value = Held::from(Value::Object(settled));
    let mut out = Vec::new(alloc);
    match write_value(alloc, &mut out, &*value) {
        Ok(_) => Ok(out),
        Err(GenError::TooLarge) => Err(FilterError::TooLarge),
        // The value of a pod has no text with NUL.
        Err(_) => Err(FilterError::OutOfMemory),
    }
}

/// The type of the object at the front; 0 where the input is too short to have one.
pub(crate) fn type_at(input: &[u8]) -> u32
    ensures { HasType input.now result }
{
    if input.len() < TYPE_END {
        return 0;
    }
    u32_at(input, TYPE_AT)
}

/// The offsets in an object's pod at which its type begins and ends.
const TYPE_AT: usize = 8;

const TYPE_END: usize = 12;

/// The bytes that follow the whole pod at the front; none where it isn't there.
#[tactic(auto, using(crate::proofs::Agreeing::nothing_behind))]
pub(crate) fn behind_front(bytes: &[u8]) -> &[u8]
    ensures { result.now ≡ rest_of bytes.now }
{
    match Pod::from_bytes(bytes) {
        Some(pod) => &bytes[pod.extent()..],
        None => &[],
    }
}
