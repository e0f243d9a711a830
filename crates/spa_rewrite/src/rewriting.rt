//! The rewriting of a pod is the encoding of its value.
//!
//! Pods are looked at first, and copied. Those that aren't canonical are then replaced by their encodings in the copy.
ghost use Rattle.std.specs.Prelude.{◌≡◌, ◌≤◌, ℕ, List, drop, length, take, IfErr, IfNone, IfOk, IfSome, IsErrAnd, OnErr, OnOk};
ghost use Rattle.spa_format.specs.Faults.{Stands};
ghost use Rattle.spa_format.specs.Front.{HasFront, IsRefused, rest_of};
ghost use Rattle.spa_format.specs.Pod.{AreMembers};
ghost use Rattle.spa_format.specs.Tree.{Tree, Trees};
ghost use Rattle.spa_bodies.specs.Reading.{IsShortAt, Names, OnFault, OnMemory};
ghost use Rattle.spa_canonical.specs.Look.{AreChanged, IsRejected};
ghost use Rattle.spa_rewrite.specs.Refusals.{FrontAsksMemory, IsRefusal};
ghost use Rattle.spa_canonical.specs.Rewriting.{AppendsFront, ArePodsWithin, AreRewritten, BeginsShorter, IsLeft, IsRewriting, RefusesList};
ghost use Rattle.spa_canonical.specs.Canonical.{AreCanonical};
ghost use Rattle.spa_canonical.specs.Depth.{NestsDeeper, levels_looked_into};

use crate::deep::{accept_deep, changed_pods, find_fault};
use spa_bodies::error_at;
use spa_canonical::{Rejected, accept_pod, canonical_front, canonical_stretch, encode_pods};
use spa_fixed_sized::DeserializeError;
use std::alloc::Global;

/// The encoding of the value that the front of the input says, and what follows that front.
///
/// Unless memory runs out, this succeeds exactly where the front that the first size word names is there and is a pod.
/// The refusals are those of `PodDeserializer::deserialize_any_from`, but that a refusal for lack of memory can also be
/// answered for a pod of fixed size, whose encoding takes memory. A size is never a cause: what was read can be
/// written. A malformed pod is refused for its fault, never for want of memory, unless more than 1000 structs and objects stand in one another in it.
pub fn rewrite(alloc: Global, input: &[u8]) -> Result<(&[u8], Vec<u8>), DeserializeError<&[u8]>>
    ensures rewriting { IfOk result (λ rewritten. IsRewriting input.now rewritten.1.items) }
    ensures rest { IfOk result (λ rewritten. rewritten.0.now ≡ rest_of input.now) }
    // Any refusal but one for lack of memory says that the front isn't there or is a pod of no value,
    ensures refused { IfErr result (OnFault (IsRefused input.now)) }
    // and names a fault that stands.
    ensures named { IfErr result (Names (λ fault place. Stands fault place input.now)) }
    // Where the front isn't there, the input is short; so a refusal for lack of memory says that it is there,
    ensures short_first { ¬ (HasFront input.now) → IsErrAnd result (IsShortAt input.now) }
    ensures memory { IfErr result (OnMemory (HasFront input.now)) }
    // and is a pod, or nests too deep to be looked into.
    ensures asks { IfErr result (OnMemory (FrontAsksMemory input.now)) }
{
    let mut out = Vec::new(alloc);
    match append_front(input, &mut out) {
        Ok(rest) => Ok((rest, out)),
        Err(refusal) => Err(refusal),
    }
}

/// Appends the rewritings of all pods that the input consists of. Memory is asked for by the allocator of `out`.
///
/// Unless memory runs out, this succeeds exactly where the input is pods one after another without remainder, or is
/// empty. A refusal gives what is left of the input from the refused pod on, with the refusal of that pod, and `out`
/// holds what it held before the call.
pub fn rewrite_all<'a>(
    input: &'a [u8],
    out: &mut Vec<u8>,
) -> Result<(), (&'a [u8], DeserializeError<&'a [u8]>)>
    ensures rewritten { OnOk result (AreRewritten input.now out.old.items out.new.items) }
    ensures unchanged { OnErr result (out.new.items ≡ out.old.items) }
    // What is left begins behind some first pods, or none, and isn't empty.
    ensures left { IfErr result (λ refusal. IsLeft input.now refusal.0.now) }
    // Any refusal but one for lack of memory says that the input isn't pods one after another,
    ensures refused { IfErr result (λ refusal. OnFault ((vs : Trees) → ¬ (AreMembers vs input.now)) refusal.1) }
    // since what is left begins with none,
    ensures front { IfErr result (λ refusal. OnFault (IsRefused refusal.0.now) refusal.1) }
    // and names a fault that stands there.
    ensures named { IfErr result (λ refusal. Names (λ fault place. Stands fault place refusal.0.now) refusal.1) }
    // Where the front of what is left isn't there, it is short; so memory runs out only where that front is there,
    ensures short_first { IfErr result (λ refusal. ¬ (HasFront refusal.0.now) → IsShortAt refusal.0.now refusal.1) }
    ensures memory { IfErr result (λ refusal. OnMemory (HasFront refusal.0.now) refusal.1) }
    // and is a pod, or nests too deep to be looked into.
    ensures asks { IfErr result (λ refusal. OnMemory (FrontAsksMemory refusal.0.now) refusal.1) }
{
    if input.is_empty() {
        return Ok(());
    }
    let (first, others) = canonical_stretch(input);
    if others.is_empty() {
        return match out.extend_from_slice(input) {
            Ok(()) => Ok(()),
            Err(_) => Err((input, DeserializeError::OutOfMemory)),
        };
    }
    match changed_pods(*out.allocator(), others) {
        Ok(changed) => match append_pods(first.len(), changed, input, out) {
            Some(()) => Ok(()),
            None => Err((input, DeserializeError::OutOfMemory)),
        },
        Err((left, rejected)) => Err((left, refusal_for(rejected))),
    }
}

/// Tells whether `rewrite_all` would accept the input, and else refuses it as that call does.
///
/// It takes memory only for a pod in which more than 1000 structs and objects stand in one another: for its open containers.
pub fn accept_all(alloc: Global, input: &[u8]) -> Result<(), (&[u8], DeserializeError<&[u8]>)>
    ensures accepted { OnOk result ((vs : Trees) × AreMembers vs input.now) }
    ensures refused { IfErr result (λ refusal. RefusesList input.now refusal.0.now refusal.1) }
    // Pods that nest in 1000 levels at most are never refused,
    ensures missed { IfErr result (λ _. ¬ (ArePodsWithin levels_looked_into input.now)) }
    // and memory runs out only for a pod, malformed or not, in which more than 1000 structs and objects stand in one another.
    ensures memory { IfErr result (λ refusal. OnMemory (NestsDeeper levels_looked_into refusal.0.now) refusal.1) }
{
    match find_fault(alloc, input) {
        Ok(()) => Ok(()),
        Err((pod, rejected)) => Err((pod, refusal_for(rejected))),
    }
}

/// The refusal of a pod that isn't accepted: for its fault, or for want of memory where it nests too deep.
#[cold]
fn refusal_for(rejected: Rejected<'_>) -> DeserializeError<&[u8]>
    ensures refused { (pod : List ℕ) → IsRejected pod rejected.entry → IsRefusal pod result }
    ensures memory { (pod : List ℕ) → IsRejected pod rejected.entry → OnMemory (NestsDeeper levels_looked_into pod) result }
{
    match rejected {
        Rejected::Fault(place, _, why) => error_at(place, why),
        Rejected::TooDeep => DeserializeError::OutOfMemory,
    }
}

/// Appends the encodings of accepted pods: so many first bytes are canonical ones, so many bytes behind these others, and canonical ones follow. `None`:
/// memory ran out, and nothing was appended.
fn append_pods(canonical: usize, changed: usize, pods: &[u8], out: &mut Vec<u8>) -> Option<()>
    requires within { canonical ≤ length pods.now }
    requires first { AreCanonical (take canonical pods.now) }
    requires others { AreChanged (drop canonical pods.now) changed }
    ensures appended { IfSome result (λ _. AreRewritten pods.now out.old.items out.new.items) }
    ensures unchanged { IfNone result (out.new.items ≡ out.old.items) }
{
    let from = out.len() + canonical;
    let Ok(()) = out.extend_from_slice(pods) else {
        return None;
    };
    let len = encode_pods(changed, &mut out[from..]);
    out.truncate(from + len);
    Some(())
}

/// Does what `accept_pod` does, however deep the pod nests.
fn accept_any(alloc: Global, input: &[u8]) -> Result<(&[u8], usize), Rejected<'_>>
    ensures accepted { IfOk result (λ front. BeginsShorter input.now front.0.now front.1) }
    ensures rejected { IfErr result (IsRejected input.now) }
{
    match accept_pod(input) {
        Err(Rejected::TooDeep) => accept_deep(alloc, input),
        answer => answer,
    }
}

/// Appends the encoding of the pod at the front of the input, and answers what follows that pod.
#[tactic(auto, using(crate::proofs::Appending::front_copied, crate::proofs::Appending::none_canonical, crate::proofs::Lacking::lacks))]
fn append_front<'a>(
    input: &'a [u8],
    out: &mut Vec<u8>,
) -> Result<&'a [u8], DeserializeError<&'a [u8]>>
    ensures appended { IfOk result (λ rest. AppendsFront input.now rest.now out.old.items out.new.items) }
    ensures unchanged { OnErr result (out.new.items ≡ out.old.items) }
    ensures refused { IfErr result (IsRefusal input.now) }
{
    if let Some(rest) = canonical_front(input) {
        let (front, _) = input.split_at(input.len() - rest.len());
        return match out.extend_from_slice(front) {
            Ok(()) => Ok(rest),
            Err(_) => Err(DeserializeError::OutOfMemory),
        };
    }
    match accept_any(*out.allocator(), input) {
        Ok((rest, _)) => {
            let (front, _) = input.split_at(input.len() - rest.len());
            match append_pods(0, front.len(), front, out) {
                Some(()) => Ok(rest),
                None => Err(DeserializeError::OutOfMemory),
            }
        }
        Err(rejected) => Err(refusal_for(rejected)),
    }
}
