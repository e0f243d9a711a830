//! Filters two objects.
ghost use Rattle.std.specs.Prelude.{◌≡◌, IfErr, IfOk, None, OnOk, Some};
ghost use Rattle.std.specs.List.{All};
ghost use Rattle.spa_format.specs.Tree.{join_properties};
ghost use Rattle.spa_keyed_objects.specs.Keys.{AtKey, HoldsAtKeys, keys_of};
ghost use Rattle.spa_keyed_objects.specs.PropertyLists.{IsKeyed, offered_in, offered_by};
ghost use Rattle.spa_value.specs.View.{object_view, view};
ghost use Rattle.spa_value.specs.Views.{property_views};
ghost use Rattle.spa_filter.specs.Filtering.{Agree, CanFilter, Filters, IsFilter};
ghost use Rattle.spa_filter.specs.Keys.{IsMandatory};
ghost use Rattle.spa_filter.specs.PropertyLists.{IsFiltered, IsPart};
ghost use Rattle.spa_filter.specs.Refusals.{AreRefused, IsKeyRefusal, IsRefusal, OnDisagreement};

use crate::error::FilterError;
use crate::values::common;
use bitflags::Flags;
use spa_keyed_objects::{Keyed, Met, add_key, push};
use spa_value::laws::{objects_are_their_fields, property_lists_are_in_order};
use spa_value::{Object, Property, PropertyFlags};
use std::alloc::Global;
use std::collections::BTreeSet;

/// Filters two objects: answers the object that admits, under each key of both, exactly what both admit.
///
/// It has their type, the id of `a`, and each key of either once: first the keys of `a` in the order in which they first occur, then
/// those that only `b` has, in the same order. On each side the first property with a key counts.
///
/// A key of both has a value that admits exactly what both values admit, with the flags that both have: a plain value where one of them
/// is plain, else an Enum where one of them is one, else a Range, a Step where one of them is one, or Flags. Its default is the first of
/// these that both admit: a's default, b's default, the first alternative of the Enum, the minimum of the Range, the first multiple
/// within the Step, all bits of the Flags. A key of one side has the flags and the value of that side.
///
/// The refusals: `TypeMismatch` before any other; then, at the first key under which the two don't agree, `Missing` where only one side
/// has it, and else `Unsupported` before `Disjoint`; and `OutOfMemory`.
///
/// Keys and alternatives are looked for in trees, so the time grows with n log n for n properties and alternatives, other
/// values aside.
pub fn filter(alloc: Global, a: &Object, b: &Object) -> Result<Object, FilterError>
    // Unless memory runs out, this succeeds exactly where the two can be filtered,
    ensures accepted { OnOk result (CanFilter (object_view a.now) (object_view b.now)) }
    ensures refused { IfErr result (OnDisagreement (¬ (CanFilter (object_view a.now) (object_view b.now)))) }
    // to an object that admits under each key of both exactly what both admit,
    ensures value { IfOk result (λ met. IsFilter (object_view a.now) (object_view b.now) (object_view met)) }
    // and a refusal is one that stands.
    ensures cause { IfErr result (AreRefused (object_view a.now) (object_view b.now)) }
{
    objects_are_their_fields();
    if a.type_ != b.type_ {
        return Err(FilterError::TypeMismatch);
    }
    let properties = filter_lists(alloc, a.properties.as_slice(), b.properties.as_slice())?;
    Ok(Object {
        type_: a.type_,
        id: a.id,
        properties,
    })
}

/// The properties of the outcome so far, and the set of their keys.
#[derive(Drop)]
struct Filtered {
    met: Met,
    keys: BTreeSet<u32>,
}

/// The properties of the object to which two objects with these properties are filtered.
fn filter_lists(alloc: Global, a: &[Property], b: &[Property]) -> Result<Vec<Property>, FilterError>
    ensures filters { IfOk result
        (λ met. HoldsAtKeys Filters (property_views a.now) (property_views b.now)
        (join_properties (property_views a.now) (property_views b.now)) (property_views met.items)) }
    ensures agreed { OnOk result (All (AtKey Agree (property_views a.now) (property_views b.now))
        (keys_of (join_properties (property_views a.now) (property_views b.now)))) }
    ensures cause { IfErr result (IsRefusal (property_views a.now) (property_views b.now)) }
{
    let ours = Keyed::new(alloc, a)?;
    let theirs = Keyed::new(alloc, b)?;
    let none = Filtered {
        met: Met::new(alloc),
        keys: BTreeSet::new(alloc),
    };
    let first = filter_side(alloc, none, &[], a, &ours, &theirs)?;
    let both = filter_side(alloc, first, a, b, &ours, &theirs)?;
    Ok(both.met.into_properties())
}

/// Appends to the properties of the outcome those for the keys of one side that aren't among them yet. `before` are the properties whose keys
/// are filtered already; only the contract uses it.
fn filter_side(
    alloc: Global,
    filtered: Filtered,
    before: &[Property],
    side: &[Property],
    ours: &Keyed<'_>,
    theirs: &Keyed<'_>,
) -> Result<Filtered, FilterError>
    requires keyed { IsKeyed ours.now × IsKeyed theirs.now }
    requires part { IsPart ours.now.properties.now theirs.now.properties.now before.now side.now }
    requires filtered { IsFiltered ours.now.properties.now theirs.now.properties.now
        (property_views before.now) filtered }
    ensures filtered { IfOk result (IsFiltered ours.now.properties.now theirs.now.properties.now
        (join_properties (property_views before.now) (property_views side.now))) }
    ensures cause { IfErr result (IsRefusal (property_views ours.now.properties.now)
        (property_views theirs.now.properties.now)) }
{
    property_lists_are_in_order();
    let Filtered { mut met, mut keys } = filtered;
    for property in side {
        if add_key(&mut keys, property.key)? {
            let property = filter_key(alloc, property.key, ours, theirs)?;
            push(&mut met, property)?;
        }
    }
    Ok(Filtered { met, keys })
}

/// The property of the outcome under a key that at least one side has.
fn filter_key(
    alloc: Global,
    key: u32,
    ours: &Keyed<'_>,
    theirs: &Keyed<'_>,
) -> Result<Property, FilterError>
    requires keyed { IsKeyed ours.now × IsKeyed theirs.now }
    requires there { (offered_in key ours.now.properties.now ≡ None)
        → ¬ (offered_in key theirs.now.properties.now ≡ None) }
    ensures key { IfOk result (λ p. p.key ≡ key) }
    ensures filters { IfOk result
        (λ p. Filters (offered_in key ours.now.properties.now) (offered_in key theirs.now.properties.now) p.flags.0
        (view p.value)) }
    ensures agreed { OnOk result (Agree (offered_in key ours.now.properties.now)
        (offered_in key theirs.now.properties.now)) }
    ensures cause { IfErr result (IsKeyRefusal key (offered_in key ours.now.properties.now)
        (offered_in key theirs.now.properties.now)) }
{
    match ours.find(key) {
        Some(a) => match theirs.find(key) {
            Some(b) => both(alloc, key, a, b),
            None => alone(key, a),
        },
        None => match theirs.find(key) {
            Some(b) => alone(key, b),
            None => unreachable!(),
        },
    }
}

/// The property to which two properties with this key filter.
fn both(alloc: Global, key: u32, a: &Property, b: &Property) -> Result<Property, FilterError>
    ensures key { IfOk result (λ p. p.key ≡ key) }
    ensures filters { IfOk result
        (λ p. Filters (Some (offered_by a.now)) (Some (offered_by b.now)) p.flags.0 (view p.value)) }
    ensures agreed { OnOk result (Agree (Some (offered_by a.now)) (Some (offered_by b.now))) }
    ensures cause { IfErr result (IsKeyRefusal key (Some (offered_by a.now)) (Some (offered_by b.now))) }
{
    let value = common(alloc, key, &a.value, &b.value)?;
    Ok(Property {
        key,
        flags: a.flags.intersection(b.flags),
        value,
    })
}

/// A copy of a property that only one side has. Refused as `Missing` where it is MANDATORY.
fn alone(key: u32, property: &Property) -> Result<Property, FilterError>
    ensures key { IfOk result (λ p. p.key ≡ key) }
    ensures first { IfOk result (λ p. Filters (Some (offered_by property.now)) None p.flags.0 (view p.value)) }
    ensures second { IfOk result (λ p. Filters None (Some (offered_by property.now)) p.flags.0 (view p.value)) }
    ensures optional { OnOk result (¬ (IsMandatory property.now.flags.0)) }
    ensures first_cause { IfErr result (IsKeyRefusal key (Some (offered_by property.now)) None) }
    ensures second_cause { IfErr result (IsKeyRefusal key None (Some (offered_by property.now))) }
{
    if property.flags.contains(PropertyFlags::MANDATORY) {
        return Err(FilterError::Missing(key));
    }
    let value = property.value.clone()?;
    Ok(Property {
        key,
        flags: property.flags,
        value,
    })
}
