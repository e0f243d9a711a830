//! Negotiation from bytes to bytes, by public contracts alone: both fronts are read, the two objects meet, and that in which they meet
//! is written. `negotiate_pods` of `spa_negotiate` answers the same, and reads no values.
ghost use Rattle.std.specs.Prelude.{◌≡◌, ◌↔◌, IfErr, IfOk, IsTrue, OnOk};
ghost use Rattle.libspa.specs.Encoding.{encoding_of};
ghost use Rattle.libspa.specs.Fixation.{all_settled};
ghost use Rattle.libspa.specs.Front.{Begins};
ghost use Rattle.libspa.specs.Pod.{IsPod};
ghost use Rattle.libspa.specs.View.{object_view, view};
ghost use Rattle.libspa.specs.Walk.{properties_of, property_walk};
ghost use Rattle.spa_negotiate.specs.Meeting.{CanMeet, Meet};
ghost use Rattle.spa_negotiate.specs.Refusals.{AreRefused, OnDisagreement};
ghost use Rattle.spa_negotiate.specs.Fronts.{AreFrontsRefused, BeginBoth, IsFrontRefused, IsObject, MeetIn, OnNoMeeting};
ghost use Rattle.example_calls.specs.Meeting.{IsWriteRefused, ReadsBack};

use libspa::pod::deserialize::{DeserializeError, PodDeserializer};
use libspa::pod::laws::readings_are_normal;
use libspa::pod::serialize::{GenError, PodSerializer};
use libspa::pod::value_laws::trees_have_their_types;
use libspa::pod::{Held, Object, Value};
use spa_negotiate::laws::{
    meetings_are_plain, meetings_need_no_fixation, refused_fronts_cannot_meet,
};
use spa_negotiate::{NegotiateError, Side, negotiate};
use std::alloc::Global;

/// The encoding of the object in which the objects at the fronts of two inputs meet. What follows the two fronts doesn't count.
///
/// The refusals: `Unread` and `NotObject`, of the first side before the second; then those of `negotiate`; then `TooLarge`.
pub fn negotiate_by_values(alloc: Global, a: &[u8], b: &[u8]) -> Result<Vec<u8>, NegotiateError>
    // Unless memory runs out or the answer is too large, this succeeds exactly where both fronts are pods of objects that can
    // meet,
    ensures accepted { OnOk result (BeginBoth a.now b.now CanMeet) }
    ensures refused { IfErr result (OnNoMeeting (¬ (BeginBoth a.now b.now CanMeet))) }
    // with the encoding of an object in which they meet, a pod of that object,
    ensures value { IfOk result (λ bytes. BeginBoth a.now b.now (MeetIn bytes.items)) }
    // and which needs no fixation;
    ensures fixated { IfOk result (λ bytes. IsTrue (all_settled (property_walk (properties_of bytes.items)))) }
    // and a refusal is a right one.
    ensures cause { IfErr result (AreFrontsRefused a.now b.now) }
{
    meetings_are_plain();
    refused_fronts_cannot_meet();
    meetings_need_no_fixation();
    let first = object_at(alloc, a, Side::First)?;
    let second = object_at(alloc, b, Side::Second)?;
    let met = meeting(alloc, &*first, &*second)?;
    encoded(alloc, met)
}

/// The object at the front of a side's bytes.
fn object_at(alloc: Global, bytes: &[u8], side: Side) -> Result<Held, NegotiateError>
    ensures value { IfOk result (λ held. Begins bytes.now (view held)) }
    ensures object { IfOk result (λ held. IsObject (view held)) }
    ensures back { IfOk result (λ held. ReadsBack (view held)) }
    ensures cause { IfErr result (IsFrontRefused side bytes.now) }
{
    readings_are_normal();
    match PodDeserializer::deserialize_any_from(alloc, bytes) {
        Ok((_rest, value)) => {
            let held = Held::from(value);
            if is_object(&*held) {
                return Ok(held);
            }
            Err(NegotiateError::NotObject(side))
        }
        Err(DeserializeError::OutOfMemory) => Err(NegotiateError::OutOfMemory),
        Err(_) => Err(NegotiateError::Unread(side)),
    }
}

/// Whether the value is an object.
fn is_object(value: &Value) -> bool
    ensures { IsTrue result ↔ IsObject (view value.now) }
{
    trees_have_their_types();
    match value {
        Value::Object(_) => true,
        _ => false,
    }
}

/// The object in which two values meet that are objects.
fn meeting(alloc: Global, a: &Value, b: &Value) -> Result<Object, NegotiateError>
    requires first { IsObject (view a.now) }
    requires second { IsObject (view b.now) }
    ensures accepted { OnOk result (CanMeet (view a.now) (view b.now)) }
    ensures refused { IfErr result (OnDisagreement (¬ (CanMeet (view a.now) (view b.now)))) }
    ensures value { IfOk result (λ met. Meet (view a.now) (view b.now) (object_view met)) }
    ensures cause { IfErr result (AreRefused (view a.now) (view b.now)) }
{
    trees_have_their_types();
    match a {
        Value::Object(ours) => match b {
            Value::Object(theirs) => negotiate(alloc, ours, theirs),
            _ => unreachable!(),
        },
        _ => unreachable!(),
    }
}

/// The encoding of an object.
fn encoded(alloc: Global, object: Object) -> Result<Vec<u8>, NegotiateError>
    requires { ReadsBack (object_view object) }
    ensures encoding { IfOk result (λ bytes. bytes.items ≡ encoding_of (object_view object)) }
    ensures pod { IfOk result (λ bytes. IsPod bytes.items (object_view object)) }
    ensures cause { IfErr result (IsWriteRefused (object_view object)) }
{
    let value = Held::from(Value::Object(object));
    match PodSerializer::serialize(Vec::new(alloc), &*value) {
        Ok((bytes, _len)) => Ok(bytes),
        Err(GenError::TooLarge) => Err(NegotiateError::TooLarge),
        Err(GenError::OutOfMemory) => Err(NegotiateError::OutOfMemory),
        Err(_) => unreachable!(),
    }
}
