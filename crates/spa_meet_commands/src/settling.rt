//! Objects with plain values in place of choices.
ghost use Rattle.std.specs.Prelude.{◌≡◌, ◌++◌, IfOk, OnOk, if◌then◌else◌};
ghost use Rattle.spa_filter_offers.specs.Admits.{plain_of};
ghost use Rattle.spa_format.specs.Encoding.{encoding_of};
ghost use Rattle.spa_format.specs.Fixation.{may_fixate};
ghost use Rattle.spa_format.specs.Front.{Begins, rest_of};
ghost use Rattle.spa_format.specs.Pod.{AreMembers};
ghost use Rattle.spa_format.specs.Tree.{Tree, Trees};
ghost use Rattle.spa_format.specs.Writable.{IsWritable};
ghost use Rattle.spa_meet_commands.specs.Settling.{AddsPlain, SettlesAll, plain_object, plain_properties};
ghost use Rattle.spa_value.specs.View.{object_view, view};
ghost use Rattle.spa_value.specs.Views.{property_views};

use bitflags::Flags;
use spa_filter::settled;
use spa_fixed_sized::DeserializeError;
use spa_keyed_objects::{Met, push};
use spa_sink::GenError;
use spa_typed_read::PodDeserializer;
use spa_value::laws::{objects_are_their_fields, property_lists_are_in_order};
use spa_value::{Held, Object, Property, Value};
use spa_write::write_sized;
use std::alloc::{AllocError, Global};

/// The encodings of the values of the pods that the bytes consist of, where each choice in a top-level object is its default as a plain value, but
/// as it was in a property that is marked not to be fixated. Refused only for want of memory.
pub fn settle_all(alloc: Global, pods: &[u8]) -> Result<Vec<u8>, AllocError>
    requires { (vs : Trees) × AreMembers vs pods.now }
    ensures { IfOk result (λ out. SettlesAll pods.now out.items) }
{
    let mut out = Vec::new(alloc);
    let mut left = pods;
    while !left.is_empty() {
        let rest = add_front(alloc, left, &mut out)?;
        left = rest;
    }
    Ok(out)
}

/// Adds what is made of the pod at the front, and answers what follows it. Refused only for want of memory.
fn add_front<'a>(alloc: Global, input: &'a [u8], out: &mut Vec<u8>) -> Result<&'a [u8], AllocError>
    requires { (v : Tree) × Begins input.now v }
    ensures added { OnOk result (AddsPlain input.now out.old.items out.new.items) }
    ensures rest { IfOk result (λ rest. rest.now ≡ rest_of input.now) }
{
    match PodDeserializer::deserialize_any_from(alloc, input) {
        Ok((rest, value)) => {
            let value = Held::from(value);
            add_plain(alloc, &value, out)?;
            Ok(rest)
        }
        Err(DeserializeError::OutOfMemory) => Err(AllocError),
        Err(_) => unreachable!(),
    }
}

/// Adds the encoding of a value, made plain where it is an object's. Refused only for want of memory.
fn add_plain(alloc: Global, value: &Value, out: &mut Vec<u8>) -> Result<(), AllocError>
    requires { IsWritable (view value.now) }
    ensures { OnOk result (out.new.items ≡ out.old.items ++ encoding_of (plain_object (view value.now))) }
{
    match value {
        Value::Object(object) => {
            let plain = Held::from(Value::Object(plain_object(alloc, object)?));
            add_value(&plain, out)
        }
        _ => add_value(value, out),
    }
}

/// Adds the encoding of a value that can be written. Refused only for want of memory.
fn add_value(value: &Value, out: &mut Vec<u8>) -> Result<(), AllocError>
    requires { IsWritable (view value.now) }
    ensures { OnOk result (out.new.items ≡ out.old.items ++ encoding_of (view value.now)) }
{
    match write_sized(out, value) {
        Ok(_) => Ok(()),
        Err(GenError::OutOfMemory) => Err(AllocError),
        Err(_) => unreachable!(),
    }
}

/// The object with plain values in place of choices, but where properties are marked not to be fixated. Refused only for want of memory.
fn plain_object(alloc: Global, object: &Object) -> Result<Object, AllocError>
    ensures { IfOk result (λ plain. object_view plain ≡ plain_object (object_view object.now)) }
{
    objects_are_their_fields();
    let properties = plain_list(alloc, object.properties.as_slice())?;
    Ok(Object {
        type_: object.type_,
        id: object.id,
        properties,
    })
}

/// The properties of such an object. Refused only for want of memory.
fn plain_list(alloc: Global, properties: &[Property]) -> Result<Vec<Property>, AllocError>
    ensures { IfOk result
        (λ plain. property_views plain.items ≡ plain_properties (property_views properties.now)) }
{
    property_lists_are_in_order();
    let mut met = Met::new(alloc);
    for property in properties {
        let value = plain_value(property)?;
        push(
            &mut met,
            Property {
                key: property.key,
                flags: property.flags,
                value,
            },
        )?;
    }
    Ok(met.into_properties())
}

/// The value that a property has then. Refused only for want of memory.
fn plain_value(property: &Property) -> Result<Value, AllocError>
    ensures { IfOk result (λ value. view value
        ≡ (if may_fixate property.now.flags.0 then plain_of (view property.now.value) else view property.now.value)) }
{
    if property.flags.bits() & DONT_FIXATE == 0 {
        settled(&property.value)
    } else {
        Ok(property.value.clone()?)
    }
}

/// The flag of a property that isn't to be fixated.
const DONT_FIXATE: u32 = 16;
