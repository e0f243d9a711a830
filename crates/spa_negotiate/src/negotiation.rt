//! Negotiates two objects.
ghost use Rattle.std.specs.Prelude.{◌≡◌, IfErr, IfOk, List, OnOk, Some};
ghost use Rattle.spa_format.specs.Tree.{join_properties};
ghost use Rattle.spa_value.specs.declared.object.Property.{Property};
ghost use Rattle.spa_value.specs.View.{object_view, view};
ghost use Rattle.spa_value.specs.Views.{property_views};
ghost use Rattle.spa_keyed_objects.specs.PropertyLists.{IsKeyed, offered_in, offered_by};
ghost use Rattle.spa_negotiate.specs.Admits.{AreSupported, IsCommon, IsPlain};
ghost use Rattle.spa_negotiate.specs.Meeting.{CanMeet, IsMetAt, Meet};
ghost use Rattle.spa_negotiate.specs.PropertyLists.{AreSettled, IsSettled};
ghost use Rattle.spa_negotiate.specs.Refusals.{AreRefused, IsKeyRefusal, IsRefusal, IsValueRefusal, OnDisagreement};

use crate::error::NegotiateError;
use crate::support::is_supported;
use spa_filter::{FilterError, into_settled, settled};
use spa_keyed_objects::{Keyed, Met, add_key, push};
use spa_value::laws::{objects_are_their_fields, property_lists_are_in_order};
use spa_value::{Object, Property, Value};
use std::alloc::{AllocError, Global};
use std::collections::BTreeSet;

/// Negotiates two objects: answers the object in which they meet.
///
/// It has their type, the id of `a`, and each key of either once, with flags 0 and a plain value: first the keys of `a` in the order in
/// which they first occur, then those that only `b` has, in the same order. On each side the first property with a key counts; flags of
/// properties don't.
///
/// A key of one side keeps its plain value, or gets the default of its choice, of whatever shape. A key of both gets
/// the first of these that both values admit: a's default, b's default, a's alternatives, b's alternatives, a's minimum,
/// b's minimum. A plain value is its own default.
///
/// The refusals: `TypeMismatch` before any other; then, at the first of a's keys under which the two don't agree, `Unsupported` before
/// `Disjoint`. `OutOfMemory` is answered only for two objects of one type.
///
/// Keys and alternatives are looked for in trees, so the time grows with n log n for n properties and alternatives, other
/// values aside.
pub fn negotiate(alloc: Global, a: &Object, b: &Object) -> Result<Object, NegotiateError>
    // Unless memory runs out, this succeeds exactly where the two can meet,
    ensures accepted { OnOk result (CanMeet (object_view a.now) (object_view b.now)) }
    ensures refused { IfErr result (OnDisagreement (¬ (CanMeet (object_view a.now) (object_view b.now)))) }
    // in an object that settles each key of either,
    ensures value { IfOk result (λ met. Meet (object_view a.now) (object_view b.now) (object_view met)) }
    // and a refusal is one that stands.
    ensures cause { IfErr result (AreRefused (object_view a.now) (object_view b.now)) }
{
    objects_are_their_fields();
    if a.type_ != b.type_ {
        return Err(NegotiateError::TypeMismatch);
    }
    let ours = a.properties.as_slice();
    let theirs = b.properties.as_slice();
    let others = Keyed::new(alloc, theirs)?;
    let first = settle_first(alloc, ours, &others)?;
    let properties = settle_rest(first, theirs)?;
    Ok(Object {
        type_: a.type_,
        id: a.id,
        properties,
    })
}

/// The properties of the outcome so far, and the set of their keys.
#[derive(Drop)]
struct Settled {
    met: Met,
    keys: BTreeSet<u32>,
}

/// The properties of the outcome for the keys of the first side.
fn settle_first(alloc: Global, a: &[Property], b: &Keyed<'_>) -> Result<Settled, NegotiateError>
    requires { IsKeyed b.now }
    ensures settled { IfOk result (IsSettled a.now b.now.properties.now (property_views a.now)) }
    ensures cause { IfErr result (IsRefusal (property_views a.now) (property_views b.now.properties.now)) }
{
    property_lists_are_in_order();
    let mut met = Met::new(alloc);
    let mut keys = BTreeSet::new(alloc);
    for property in a {
        if add_key(&mut keys, property.key)? {
            let value = settle(alloc, property, b)?;
            let plain = Property::new(property.key, value);
            push(&mut met, plain)?;
        }
    }
    Ok(Settled { met, keys })
}

/// The properties of the outcome for the keys of the first side, and behind them those for the keys that only the second side has.
fn settle_rest(first: Settled, b: &[Property]) -> Result<Vec<Property>, AllocError>
    ensures { IfOk result (λ met. (a : List Property) → IsSettled a b.now (property_views a) first
        → AreSettled a b.now (join_properties (property_views a) (property_views b.now)) met.items) }
{
    property_lists_are_in_order();
    let Settled { mut met, mut keys } = first;
    for property in b {
        if add_key(&mut keys, property.key)? {
            let value = settled(&property.value)?;
            let alone = Property::new(property.key, value);
            push(&mut met, alone)?;
        }
    }
    Ok(met.into_properties())
}

/// The plain value that the outcome has under the key of a property of the first side, where `others` are the properties of the second.
fn settle(alloc: Global, property: &Property, others: &Keyed<'_>) -> Result<Value, NegotiateError>
    requires { IsKeyed others.now }
    ensures met { IfOk result
        (λ x. IsMetAt (Some (offered_by property.now)) (offered_in property.now.key others.now.properties.now) 0
        (view x)) }
    ensures cause { IfErr result (IsKeyRefusal property.now.key (Some (offered_by property.now))
        (offered_in property.now.key others.now.properties.now)) }
{
    match others.find(property.key) {
        Some(other) => common(alloc, property.key, &property.value, &other.value),
        None => Ok(settled(&property.value)?),
    }
}

/// Negotiates two values: answers a plain value that both admit, which under a key of two objects is the value of the object in which they meet.
/// It is the default of the value to which the two filter.
///
/// Refused as `Unsupported` of the key where no common value is sought for one of the two, else as `Disjoint` of the key where no value is
/// admitted by both, and as `OutOfMemory`.
pub fn common(alloc: Global, key: u32, a: &Value, b: &Value) -> Result<Value, NegotiateError>
    ensures plain { IfOk result (λ x. IsPlain (view x)) }
    ensures supported { OnOk result (AreSupported (view a.now) (view b.now)) }
    ensures common { IfOk result (λ x. IsCommon (view a.now) (view b.now) (view x)) }
    ensures cause { IfErr result (IsValueRefusal key (view a.now) (view b.now)) }
{
    if !is_supported(a) || !is_supported(b) {
        return Err(NegotiateError::Unsupported(key));
    }
    match spa_filter::common(alloc, key, a, b) {
        Ok(met) => Ok(into_settled(met)),
        Err(FilterError::OutOfMemory) => Err(NegotiateError::OutOfMemory),
        Err(_) => Err(NegotiateError::Disjoint(key)),
    }
}
