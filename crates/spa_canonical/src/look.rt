//! Looks at pods: whether they are accepted, whether they are canonical, and how long their encodings are. They write nothing and take no memory, and
//! their stack doesn't grow with the nesting depth.
ghost use Rattle.std.specs.Prelude.{◌≡◌, ◌+◌, ◌<◌, ◌≤◌, ◌++◌, IfErr, IfNone, IfOk, IfSome, List, OnOk, [], length, ℕ};
ghost use Rattle.spa_format.specs.Front.{Begins, HasFront};
ghost use Rattle.spa_format.specs.Pod.{AreMembers};
ghost use Rattle.spa_format.specs.Tree.{Tree, Trees};
ghost use Rattle.spa_canonical.specs.Look.{AreAccepted, AreChanged, IsAccepted, IsFrontLook, IsRejected};
ghost use Rattle.spa_canonical.specs.declared.look.Rejected.TheVariants as rejected;
ghost use Rattle.spa_canonical.specs.Rewriting.{ArePodsWithin, BeginsShorter, IsLeft};
ghost use Rattle.spa_canonical.specs.Canonical.{AreCanonical, BeginsCanonical, IsStretch};
ghost use Rattle.spa_canonical.specs.Depth.{AreShallow, NestsDeeper, depth_of, levels_looked_into};

use crate::inside::{FEW, Found, Waiting, list, look_inside, look_into, none_waiting};
use crate::leaf::{fault, leaf};
use spa_bytes::{HEADER_LEN, open};
use spa_events::inside_of;
use spa_fixed_sized::Refusal;

/// A pod that is accepted.
#[derive(Clone, Copy)]
pub struct AcceptedPod<'a> {
    /// What follows it.
    pub rest: &'a [u8],
    /// Whether it is canonical, which is to say the encoding of its value.
    pub canonical: bool,
    /// By how many bytes that encoding is shorter than the pod.
    pub surplus: usize,
}

/// Pods one after another that are all accepted: some first ones, and canonical ones.
#[derive(Clone, Copy)]
pub struct AcceptedPods {
    /// How many first bytes are pods up to the last one that isn't canonical, or the first one.
    pub changed: usize,
    /// By how many bytes the encodings of all are shorter.
    pub surplus: usize,
}

/// Why a pod isn't accepted.
#[derive(Clone, Copy, Debug)]
pub enum Rejected<'a> {
    /// It is malformed. The fault stands at the front of these bytes: what is left from there on of the input, or of the struct or object
    /// inside which it stands. The number is that place's offset in the pod.
    Fault(&'a [u8], usize, Refusal),
    /// More than 1000 structs and objects stand in one another, and no memory was given for them, or it ran out.
    TooDeep,
}

/// What a look finds of the pod at the front.
#[derive(Clone, Copy)]
enum FrontLook<'a> {
    /// It is accepted, or canonical: what follows it, and by how many bytes its encoding is shorter.
    Fits(&'a [u8], usize),
    /// It isn't: the first pod inside that isn't is at the front of these bytes, at this offset.
    Stops(&'a [u8], usize),
    /// There is no room for one more list that waits.
    TooDeep,
}

/// Looks at the pod at the front of the input.
///
/// It takes no memory. Any pod is accepted in which at most 1000 structs and objects stand in one another.
#[tactic(auto, using(crate::proofs::Accepted::rejected_value, crate::proofs::LeafBodies::never, crate::proofs::Depths::deep_begun))]
pub fn look_at_pod(input: &[u8]) -> Result<AcceptedPod<'_>, Rejected<'_>>
    ensures accepted { IfOk result (IsAccepted input.now) }
    ensures rejected { IfErr result (IsRejected input.now) }
    // Each pod of so many levels is accepted.
    ensures missed { IfErr result (λ _. (v : Tree) → Begins input.now v → levels_looked_into < depth_of v) }
{
    let mut frames = [none_waiting(input); FEW];
    match look_at_front(true, input, &mut frames) {
        FrontLook::Fits(rest, surplus) => Ok(AcceptedPod {
            rest,
            canonical: true,
            surplus,
        }),
        FrontLook::Stops(_, _) => match accept_front(input, &mut frames) {
            Ok((rest, surplus)) => Ok(AcceptedPod {
                rest,
                canonical: false,
                surplus,
            }),
            Err(rejected) => Err(rejected),
        },
        FrontLook::TooDeep => Err(Rejected::TooDeep),
    }
}

/// Looks at all pods that the input consists of. A refusal gives what is left of the input from the refused pod on.
///
/// It takes no memory, and accepts pods as `look_at_pod` does. Of the first pod it isn't asked whether it is canonical.
pub fn look_at_pods(pods: &[u8]) -> Result<AcceptedPods, (&[u8], Rejected<'_>)>
    ensures accepted { IfOk result (AreAccepted pods.now) }
    ensures left { IfErr result (λ refusal. IsLeft pods.now refusal.0.now) }
    ensures rejected { IfErr result (λ refusal. IsRejected refusal.0.now refusal.1) }
    // Pods of so many levels are accepted.
    ensures missed { IfErr result (λ _. ¬ (ArePodsWithin levels_looked_into pods.now)) }
{
    let mut frames = [none_waiting(pods); FEW];
    let mut left = pods;
    let (mut changed, mut surplus) = (0, 0);
    while !left.is_empty() {
        match accept_front(left, &mut frames) {
            Ok((rest, more)) => {
                changed = pods.len() - rest.len();
                surplus += more;
                left = behind_canonical_pods(rest, &mut frames);
            }
            Err(why) => return Err((left, why)),
        }
    }
    Ok(AcceptedPods { changed, surplus })
}

/// What follows the pod at the front, where a look finds that it is canonical: its padding is zeros, its truth values are 0 or 1, its choices hold
/// no surplus values, its pointers take 16 bytes, and the same holds of its members. It takes no memory.
///
/// `None` says that it isn't, or that more than 1000 structs and objects stand in one another: such a pod may not be looked into, and may still be
/// canonical.
pub fn canonical_front(input: &[u8]) -> Option<&[u8]>
    ensures taken { IfSome result (λ rest. BeginsCanonical input.now rest.now) }
    ensures shorter { IfSome result (λ rest. length rest.now + 8 ≤ length input.now) }
    ensures missed { IfNone result ((rest : List ℕ) (c : BeginsCanonical input.now rest) → levels_looked_into < depth_of c.value) }
{
    next_canonical(input, &mut [none_waiting(input); FEW])
}

/// The first pods, as many as `canonical_front` finds to be canonical, and what follows them.
#[inline(never)]
#[tactic(auto, using(std::proofs::lemmas::List::drop_all, crate::proofs::Frames::stretch_front, crate::proofs::Frames::stretch_parts))]
pub fn canonical_stretch(input: &[u8]) -> (&[u8], &[u8])
    ensures parts { input.now ≡ result.0.now ++ result.1.now }
    ensures canonical { AreCanonical result.0.now }
    ensures front { 0 < length result.0.now → HasFront input.now }
    // Nothing follows where the input is such pods that nest no deeper.
    ensures all { AreShallow levels_looked_into input.now → result.1.now ≡ [] }
{
    let left = behind_canonical_pods(input, &mut [none_waiting(input); FEW]);
    input.split_at(input.len() - left.len())
}

/// What follows the first canonical pods, with an array in which lists can wait.
#[inline(always)]
fn behind_canonical_pods<'a>(pods: &'a [u8], frames: &mut [Waiting<'a>; FEW]) -> &'a [u8]
    ensures stretch { IsStretch pods.now result.now }
    ensures all { AreShallow levels_looked_into pods.now → result.now ≡ [] }
{
    let mut left = pods;
    while let Some(rest) = next_canonical(left, frames) {
        left = rest;
    }
    left
}

/// What follows the pod at the front as `canonical_front` says it, with an array in which lists can wait.
#[inline(always)]
#[tactic(auto, using(crate::proofs::Depths::deep_begun, crate::proofs::Accepted::less_left))]
fn next_canonical<'a>(input: &'a [u8], frames: &mut [Waiting<'a>; FEW]) -> Option<&'a [u8]>
    ensures taken { IfSome result (λ rest. BeginsCanonical input.now rest.now) }
    ensures shorter { IfSome result (λ rest. length rest.now + 8 ≤ length input.now) }
    ensures missed { IfNone result ((rest : List ℕ) (c : BeginsCanonical input.now rest) → levels_looked_into < depth_of c.value) }
{
    match look_at_front(true, input, frames) {
        FrontLook::Fits(rest, _) => Some(rest),
        FrontLook::Stops(_, _) => None,
        FrontLook::TooDeep => None,
    }
}

/// What follows the pod at the front, which is accepted, and by how many bytes its encoding is shorter.
#[inline(always)]
fn accept_front<'a>(
    input: &'a [u8],
    frames: &mut [Waiting<'a>; FEW],
) -> Result<(&'a [u8], usize), Rejected<'a>>
    ensures accepted { IfOk result (λ front. BeginsShorter input.now front.0.now front.1) }
    ensures rejected { IfErr result (IsRejected input.now) }
{
    match look_at_front(false, input, frames) {
        FrontLook::Fits(rest, surplus) => Ok((rest, surplus)),
        FrontLook::Stops(place, at) => Err(Rejected::Fault(place, at, fault(place))),
        FrontLook::TooDeep => Err(Rejected::TooDeep),
    }
}

/// Looks at the pod at the front: whether it is canonical, where that is asked, and else whether it is accepted.
#[inline(always)]
fn look_at_front<'a>(
    canonical: bool,
    input: &'a [u8],
    frames: &mut [Waiting<'a>; FEW],
) -> FrontLook<'a>
    ensures { IsFrontLook canonical input.now result }
{
    let Some(front) = open(input) else {
        return FrontLook::Stops(input, 0);
    };
    let Some(inside) = inside_of(front.type_, front.body) else {
        return match leaf(canonical, input) {
            Some((rest, surplus)) => FrontLook::Fits(rest, surplus),
            None => FrontLook::Stops(input, 0),
        };
    };
    match look_into(canonical, inside.keyed, inside.pods, frames) {
        Found::Fits(surplus) => FrontLook::Fits(front.rest, surplus),
        Found::Stops(place, behind) => {
            let at = HEADER_LEN + front.body.len() - (place.len() + behind);
            FrontLook::Stops(place, at)
        }
        Found::Full(_) => FrontLook::TooDeep,
    }
}

/// What follows the pod at the front, which is accepted, and by how many bytes its encoding is shorter.
pub fn accept_pod(input: &[u8]) -> Result<(&[u8], usize), Rejected<'_>>
    ensures accepted { IfOk result (λ front. BeginsShorter input.now front.0.now front.1) }
    ensures rejected { IfErr result (IsRejected input.now) }
{
    accept_front(input, &mut [none_waiting(input); FEW])
}

/// Does what `accept_pod` does for a pod that nests too deep for that, with this array. `TooDeep`: it has no room for one more list that waits.
#[cold]
#[inline(never)]
pub fn accept_within<'a>(
    input: &'a [u8],
    frames: &mut [Waiting<'a>],
) -> Result<(&'a [u8], usize), Rejected<'a>>
    requires { NestsDeeper levels_looked_into input.now }
    ensures accepted { IfOk result (λ front. BeginsShorter input.now front.0.now front.1) }
    ensures rejected { IfErr result (IsRejected input.now) }
    // As many entries as the input has bytes are enough.
    ensures full { IfErr result (λ why. why ≡ rejected.TooDeep → length frames.old < length input.now) }
{
    if frames.is_empty() {
        return Err(Rejected::TooDeep);
    }
    let Some(front) = open(input) else {
        unreachable!();
    };
    let Some(inside) = inside_of(front.type_, front.body) else {
        unreachable!();
    };
    frames[0] = list(inside.keyed, 0, inside.pods);
    match look_inside(false, 0, 0, frames) {
        Found::Fits(surplus) => Ok((front.rest, surplus)),
        Found::Stops(place, behind) => {
            let at = HEADER_LEN + front.body.len() - (place.len() + behind);
            Err(Rejected::Fault(place, at, fault(place)))
        }
        Found::Full(_) => Err(Rejected::TooDeep),
    }
}
