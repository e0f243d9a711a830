//! Two lists of objects, and the first pair of them that agrees.
ghost use Rattle.std.specs.Prelude.{◌≡◌, ◌↔◌, Err, IfErr, IfNone, IfOk, IfSome, IsTrue, Ok, OnOk, false, true};
ghost use Rattle.spa_format.specs.Walk.{walk};
ghost use Rattle.spa_object_view.specs.Fronts.{BeginsObjectOf};
ghost use Rattle.spa_meet_commands.specs.Lists.{AgreesWithNone, AreApart, AreListsRefused, AreViewed, FirstGives, FirstPairGives, IsList, IsNoList, IsOfDisagreement, IsOnePod, ListsGive, NoneAgree, OfBoth, OfOne, StopsAt};

use crate::answer::Failure;
use crate::pair::{Work, agreed, agreed_viewed, behind_front, type_at};
use crate::progress::Progress;
use spa_filter_pods::{FilterError, Side};
use spa_object_view::{NoObject, ObjectPod, object_pod};
use std::alloc::Global;

/// The encoding of the object on which the first pair of two lists agrees: the first object of `a` that agrees with one of `b`,
/// and the first of `b` with which it does. Each object is looked at once, before any pair is tried.
pub fn of_lists<P: Progress>(
    alloc: Global,
    work: Work,
    a: &[u8],
    b: &[u8],
    progress: &mut P,
) -> Result<Vec<u8>, Failure>
    ensures pair { IfOk result (λ met. ListsGive work (Ok met.items) a.now b.now) }
    ensures cause { IfErr result (λ why. AreListsRefused work why a.now b.now) }
{
    let ours = viewed(alloc, Side::First, a)?;
    let theirs = viewed(alloc, Side::Second, b)?;
    match first_pair(alloc, work, ours.as_slice(), theirs.as_slice(), progress) {
        Ok(Some(met)) => Ok(met),
        Ok(None) => Err(no_pair(alloc, work, a, b)),
        Err(cause) => Err(Failure::Apart(type_at(a), cause)),
    }
}

/// Why no two objects of two lists agree: the refusal of the two, where each list has one object.
fn no_pair(alloc: Global, work: Work, a: &[u8], b: &[u8]) -> Failure
    requires { AreApart a.now b.now }
    ensures { AreListsRefused work result a.now b.now }
{
    if !is_one_pod(a) {
        return Failure::NoPair;
    }
    if !is_one_pod(b) {
        return Failure::NoPair;
    }
    match agreed(alloc, work, a, b) {
        Ok(_) => unreachable!(),
        Err(cause) => Failure::Apart(type_at(a), cause),
    }
}

/// Whether the bytes are the whole pod at their front, and nothing else.
fn is_one_pod(bytes: &[u8]) -> bool
    ensures one { result ≡ true → IsOnePod bytes.now }
    ensures other { result ≡ false → ¬ (IsOnePod bytes.now) }
{
    !bytes.is_empty() && behind_front(bytes).is_empty()
}

/// The outcome of the first pair that agrees. None: no pair does.
fn first_pair<P: Progress>(
    alloc: Global,
    work: Work,
    ours: &[ObjectPod<'_>],
    theirs: &[ObjectPod<'_>],
    progress: &mut P,
) -> Result<Option<Vec<u8>>, FilterError>
    ensures found { IfOk result (λ found. IfSome found
        (λ met. OfBoth ours.now theirs.now (λ ps qs. FirstPairGives work ps qs (Ok met.items)))) }
    ensures none { IfOk result (λ found. IfNone found (OfBoth ours.now theirs.now NoneAgree)) }
    ensures cause { IfErr result (λ e. OfBoth ours.now theirs.now (λ ps qs. FirstPairGives work ps qs (Err e))) }
{
    for object in ours {
        progress.tell(ours.len());
        if let Some(met) = first_with(alloc, work, object, theirs)? {
            return Ok(Some(met));
        }
    }
    Ok(None)
}

/// The outcome of one object and the first of a list that agrees with it. None: no object of the list does.
fn first_with(
    alloc: Global,
    work: Work,
    ours: &ObjectPod<'_>,
    theirs: &[ObjectPod<'_>],
) -> Result<Option<Vec<u8>>, FilterError>
    ensures found { IfOk result (λ found. IfSome found
        (λ met. OfOne ours.now theirs.now (λ p qs. FirstGives work p qs (Ok met.items)))) }
    ensures none { IfOk result (λ found. IfNone found (OfOne ours.now theirs.now AgreesWithNone)) }
    ensures cause { IfErr result (λ e. OfOne ours.now theirs.now (λ p qs. FirstGives work p qs (Err e))) }
{
    for object in theirs {
        match agreed_viewed(alloc, work, ours, object) {
            Ok(met) => return Ok(Some(met)),
            Err(cause) if !is_of_disagreement(cause) => return Err(cause),
            Err(_) => {}
        }
    }
    Ok(None)
}

/// Whether the refusal says that two objects don't agree.
fn is_of_disagreement(cause: FilterError) -> bool
    ensures { IsTrue result ↔ IsOfDisagreement cause }
{
    match cause {
        FilterError::TypeMismatch
        | FilterError::Missing(_)
        | FilterError::Unsupported(_)
        | FilterError::Disjoint(_) => true,
        FilterError::Unread(_)
        | FilterError::NotObject(_)
        | FilterError::TooLarge
        | FilterError::OutOfMemory => false,
    }
}

/// The objects of the pods of which the bytes of this side consist, one after another.
fn viewed(alloc: Global, side: Side, bytes: &[u8]) -> Result<Vec<ObjectPod<'_>>, Failure>
    ensures list { OnOk result (IsList bytes.now) }
    ensures objects { IfOk result (λ objects. AreViewed (walk bytes.now) objects.items) }
    ensures cause { IfErr result (λ why. IsNoList side why bytes.now) }
{
    let mut objects = Vec::new(alloc);
    let mut left = bytes;
    while !left.is_empty() {
        let object = object_at(alloc, side, bytes.len() - left.len(), left)?;
        if objects.push(object).is_err() {
            return Err(Failure::OutOfMemory);
        }
        left = behind_front(left);
    }
    Ok(objects)
}

/// The object at the front of the bytes, which begin at this offset of this side's list.
fn object_at(alloc: Global, side: Side, place: usize, left: &[u8]) -> Result<ObjectPod<'_>, Failure>
    ensures object { IfOk result (BeginsObjectOf left.now) }
    ensures cause { IfErr result (λ why. StopsAt side place why left.now) }
{
    match object_pod(alloc, left) {
        Ok(object) => Ok(object),
        Err(NoObject::Unread) => Err(Failure::NoPod { side, place }),
        Err(NoObject::Other) => Err(Failure::NoObject { side, place }),
        Err(NoObject::OutOfMemory) => Err(Failure::OutOfMemory),
    }
}
