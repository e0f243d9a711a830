//! Negotiates the objects of two pods.
ghost use Rattle.std.specs.Prelude.{IfErr, IfOk, IsTrue, List, OnOk, ℕ};
ghost use Rattle.spa_format.specs.Fixation.{all_settled};
ghost use Rattle.spa_format.specs.Walk.{properties_of, property_walk};
ghost use Rattle.spa_object_view.specs.Fronts.{BeginBoth};
ghost use Rattle.spa_object_view.specs.Meeting.{AreStopped};
ghost use Rattle.spa_negotiate.specs.Meeting.{CanMeet, IsMetAt};
ghost use Rattle.spa_negotiate.specs.Fronts.{AreFrontsRefused, MeetIn, OnNoMeeting};
ghost use Rattle.spa_negotiate.specs.Refusals.{IsKeyRefusal};

use crate::error::NegotiateError;
use crate::laws::{meetings_need_no_fixation, refused_fronts_cannot_meet};
use crate::rule::Settling;
use spa_object_view::{Stop, meet_pods};
use std::alloc::Global;

/// Negotiates the objects at the fronts of two inputs by the rules of `negotiate`, and answers the encoding of the object in
/// which they meet. The bytes behind the two fronts don't count.
///
/// The answer is one whole pod, and no property's value in it is a choice of a shape other than None: `is_fixated` of a view
/// of it is true.
///
/// The refusals: `Unread` and `NotObject`, of the first side before the second; then those of `negotiate`; then `TooLarge`.
pub fn negotiate_pods(alloc: Global, a: &[u8], b: &[u8]) -> Result<Vec<u8>, NegotiateError>
    // Unless memory runs out or the answer is too large, this succeeds exactly where both fronts are pods of objects that can
    // meet,
    ensures accepted { OnOk result (BeginBoth a.now b.now CanMeet) }
    ensures refused { IfErr result (OnNoMeeting (¬ (BeginBoth a.now b.now CanMeet))) }
    // with the encoding of an object in which they meet, a pod of that object,
    ensures value { IfOk result (λ bytes. BeginBoth a.now b.now (MeetIn bytes.items)) }
    // and which needs no fixation;
    ensures fixated { IfOk result (λ bytes. IsTrue (all_settled (property_walk (properties_of bytes.items)))) }
    // and a refusal is a right one.
    ensures cause { IfErr result (AreFrontsRefused a.now b.now) }
{
    refused_fronts_cannot_meet();
    meetings_need_no_fixation();
    match meet_pods::<Settling>(alloc, a, b) {
        Ok(bytes) => Ok(bytes),
        Err(stop) => Err(refusal(stop)),
    }
}

/// The refusal of two objects that don't meet.
fn refusal(stop: Stop<NegotiateError>) -> NegotiateError
    ensures { (a b : List ℕ) → AreStopped IsMetAt IsKeyRefusal a b stop → AreFrontsRefused a b result }
{
    match stop {
        Stop::Unread(side) => NegotiateError::Unread(side),
        Stop::NotObject(side) => NegotiateError::NotObject(side),
        Stop::TypeMismatch => NegotiateError::TypeMismatch,
        Stop::Apart(key) => NegotiateError::Disjoint(key),
        Stop::Refused(error) => error,
        Stop::TooLarge => NegotiateError::TooLarge,
        Stop::OutOfMemory => NegotiateError::OutOfMemory,
    }
}
