//! Two objects meet in a third by a rule, property by property.
ghost use Rattle.std.specs.Prelude.{◌≡◌, ◌<◌, IfErr, IfOk, List, OnOk, Some, false, ℕ};
ghost use Rattle.spa_format.specs.Tree.{Properties, Tree, join_properties};
ghost use Rattle.spa_format.specs.Words.{size_limit};
ghost use Rattle.spa_keyed_objects.specs.CanonicalPods.{IsCanonicalPod};
ghost use Rattle.spa_keyed_objects.specs.Keys.{offered, offered_at};
ghost use Rattle.spa_object_view.specs.Answers.{AreMetBehind, IsPutBy};
ghost use Rattle.spa_object_view.specs.Fronts.{BeginBoth, BeginsObjectOf, BeginsView};
ghost use Rattle.spa_object_view.specs.KeyOrder.{IsKeyed};
ghost use Rattle.spa_object_view.specs.Meeting.{AreStopped, IsFrontStopped, IsRefusedNext, MeetsIn, OfViewed};
ghost use Rattle.spa_object_view.specs.Written.{AreWritten};

use crate::answer::{Answer, begun, ended};
use crate::apart::first_apart;
use crate::front::{NoObject, ObjectPod, object_pod};
use crate::keyed::{Keyed, raised};
use crate::object_view::{ObjectView, PropertyView, first_property};
use crate::rule::{Rule, Stop};
use spa_keyed_objects::Side;
use std::alloc::Global;

/// The encoding of the object in which the objects at the fronts of two inputs meet by the rule. The bytes behind the two fronts don't count.
///
/// It has their type, the first's id, and each key of either once: first those of the first object in the order in which they first occur, then those
/// that only the second has.
///
/// The refusals: `Unread` and `NotObject`, of the first side before the second; then `TypeMismatch`; then `Apart`, or the rule's at the first key that
/// has one; last `TooLarge`.
pub fn meet_pods<R: Rule>(alloc: Global, a: &[u8], b: &[u8]) -> Result<Vec<u8>, Stop<R::Error>>
    ensures met { IfOk result (λ bytes. BeginBoth a.now b.now (MeetsIn R.holds bytes.items)) }
    ensures cause { IfErr result (AreStopped R.holds R.refuses a.now b.now) }
{
    let first = object_at(alloc, a, Side::First)?;
    let second = object_at(alloc, b, Side::Second)?;
    meet_viewed::<R>(alloc, &first, &second)
}

/// The encoding of the object in which two objects that `object_pod` has viewed meet by the rule: answers what `meet_pods` does of any two inputs at
/// whose fronts they are. Bytes that a caller took for a rewriting may hold no object: they are refused as `Unread` of their side.
#[inline(always)]
pub fn meet_viewed<R: Rule>(
    alloc: Global,
    ours: &ObjectPod<'_>,
    theirs: &ObjectPod<'_>,
) -> Result<Vec<u8>, Stop<R::Error>>
    ensures met { IfOk result (λ bytes. OfViewed ours.now theirs.now (λ a b. BeginBoth a b (MeetsIn R.holds bytes.items))) }
    ensures cause { IfErr result (λ e. OfViewed ours.now theirs.now (λ a b. AreStopped R.holds R.refuses a b e)) }
{
    let Some(first) = ours.view() else {
        return Err(Stop::Unread(Side::First));
    };
    let Some(second) = theirs.view() else {
        return Err(Stop::Unread(Side::Second));
    };
    meet_objects::<R>(alloc, &first, &second)
}

/// The object at the front of a side's bytes. Refused as `Unread` or `NotObject` of the side, and as `OutOfMemory`.
fn object_at<E>(alloc: Global, bytes: &[u8], side: Side) -> Result<ObjectPod<'_>, Stop<E>>
    ensures object { IfOk result (BeginsObjectOf bytes.now) }
    ensures cause { IfErr result (IsFrontStopped side bytes.now) }
{
    match object_pod(alloc, bytes) {
        Ok(pod) => Ok(pod),
        Err(NoObject::Unread) => Err(Stop::Unread(side)),
        Err(NoObject::Other) => Err(Stop::NotObject(side)),
        Err(NoObject::OutOfMemory) => Err(Stop::OutOfMemory),
    }
}

/// The encoding of the object in which two objects meet.
fn meet_objects<R: Rule>(
    alloc: Global,
    ours: &ObjectView<'_>,
    theirs: &ObjectView<'_>,
) -> Result<Vec<u8>, Stop<R::Error>>
    requires { (ours.now.type_ < size_limit) × (ours.now.id < size_limit) }
    ensures met { IfOk result (λ bytes. (a b : List ℕ) → BeginsView a ours.now → BeginsView b theirs.now
        → BeginBoth a b (MeetsIn R.holds bytes.items)) }
    ensures cause { IfErr result (λ e. (a b : List ℕ) → BeginsView a ours.now → BeginsView b theirs.now
        → AreStopped R.holds R.refuses a b e) }
{
    if ours.type_ != theirs.type_ {
        return Err(Stop::TypeMismatch);
    }
    // Before the answer takes memory: most pairs that are refused are so for their first values.
    if let Some(key) = first_apart(ours.properties, theirs.properties) {
        return Err(Stop::Apart(key));
    }
    let first = Keyed::new(alloc, ours.properties)?;
    let second = Keyed::new(alloc, theirs.properties)?;
    let mut out = begun(alloc, ours)?;
    match put_all::<R>(alloc, &mut out, &first, &second) {
        Ok(()) => {}
        Err(error) => return Err(Stop::Refused(error)),
    }
    let Some(bytes) = ended(out) else {
        return Err(Stop::TooLarge);
    };
    Ok(bytes)
}

/// Appends the properties for the keys of either side.
fn put_all<R: Rule>(
    alloc: Global,
    out: &mut Answer,
    ours: &Keyed<'_>,
    theirs: &Keyed<'_>,
) -> Result<(), R::Error>
    requires first { IsKeyed ours.now }
    requires second { IsKeyed theirs.now }
    requires small { out.old.is_large ≡ false }
    ensures put { OnOk result ((ps qs : Properties) → AreWritten ps ours.now.properties.now
        → AreWritten qs theirs.now.properties.now
        → AreMetBehind R.holds ps qs (join_properties ps qs) out.old.bytes.items out.new) }
    ensures cause { IfErr result (λ e. (ps qs : Properties) → AreWritten ps ours.now.properties.now
        → AreWritten qs theirs.now.properties.now → IsRefusedNext R.holds R.refuses ps qs e) }
{
    put_first::<R>(alloc, out, ours, theirs)?;
    put_others::<R>(out, ours, theirs)
}

/// Appends the properties for the keys of the first side.
fn put_first<R: Rule>(
    alloc: Global,
    out: &mut Answer,
    ours: &Keyed<'_>,
    theirs: &Keyed<'_>,
) -> Result<(), R::Error>
    requires first { IsKeyed ours.now }
    requires second { IsKeyed theirs.now }
    requires small { out.old.is_large ≡ false }
    ensures put { OnOk result ((ps qs : Properties) → AreWritten ps ours.now.properties.now
        → AreWritten qs theirs.now.properties.now → AreMetBehind R.holds ps qs ps out.old.bytes.items out.new) }
    ensures cause { IfErr result (λ e. (ps qs : Properties) → AreWritten ps ours.now.properties.now
        → AreWritten qs theirs.now.properties.now → IsRefusedNext R.holds R.refuses ps qs e) }
{
    let mut left = ours.properties;
    let mut bound = 0;
    while let Some(first) = first_property(left) {
        if ours.is_new(&first, bound) {
            put_of_first::<R>(alloc, out, &first, theirs)?;
        }
        bound = raised(bound, first.key);
        left = first.rest;
    }
    Ok(())
}

/// Appends the properties for the keys that only the second side has.
fn put_others<R: Rule>(
    out: &mut Answer,
    ours: &Keyed<'_>,
    theirs: &Keyed<'_>,
) -> Result<(), R::Error>
    requires first { IsKeyed ours.now }
    requires second { IsKeyed theirs.now }
    ensures put { OnOk result ((ps qs : Properties) (head : List ℕ) → AreWritten ps ours.now.properties.now
        → AreWritten qs theirs.now.properties.now → AreMetBehind R.holds ps qs ps head out.old
        → AreMetBehind R.holds ps qs (join_properties ps qs) head out.new) }
    ensures cause { IfErr result (λ e. (ps qs : Properties) (head : List ℕ) → AreWritten ps ours.now.properties.now
        → AreWritten qs theirs.now.properties.now → AreMetBehind R.holds ps qs ps head out.old
        → IsRefusedNext R.holds R.refuses ps qs e) }
{
    let mut left = theirs.properties;
    let mut bound = 0;
    while let Some(first) = first_property(left) {
        if theirs.is_new_beside(ours, &first, bound) {
            R::put_alone(out, &first)?;
        }
        bound = raised(bound, first.key);
        left = first.rest;
    }
    Ok(())
}

/// Appends the property for the key of a property of the first side.
#[inline(always)]
fn put_of_first<R: Rule>(
    alloc: Global,
    out: &mut Answer,
    first: &PropertyView<'_>,
    theirs: &Keyed<'_>,
) -> Result<(), R::Error>
    requires { IsKeyed theirs.now }
    ensures put { OnOk result ((v : Tree) (qs : Properties) → IsCanonicalPod v first.now.pod.now
        → AreWritten qs theirs.now.properties.now
        → IsPutBy R.holds (Some (offered first.now.flags v)) (offered_at first.now.key qs) first.now.key out.old out.new) }
    ensures cause { IfErr result (λ e. (v : Tree) (qs : Properties) → IsCanonicalPod v first.now.pod.now
        → AreWritten qs theirs.now.properties.now
        → R.refuses first.now.key (Some (offered first.now.flags v)) (offered_at first.now.key qs) e) }
{
    match theirs.find(first.key) {
        Some(other) => R::put_both(alloc, out, first, &other),
        None => R::put_alone(out, first),
    }
}
