//! Values printed by a loop: texts from outside, and beside `{:?}`.
use crate::compare::{assert_holds, assert_same};
use crate::table::{distinct_values, worked_values};
use bitflags::Flags;
use spa_print::Printed;
use spa_value::{Held, Object, Property, PropertyFlags, Value};
use std::alloc::{AllocError, Global};
use std::process::Abort;

/// The text of a value, printed by a loop.
fn text_of(alloc: Global, value: &Value) -> Result<String, AllocError> {
    let printed = Printed::new(alloc, value);
    Ok(format!(in alloc; "{printed:?}")?)
}

/// One value alone.
fn single<T: Drop>(alloc: Global, value: T) -> Result<Vec<T>, AllocError> {
    let mut values = Vec::new(alloc);
    values.push(value)?;
    Ok(values)
}

/// An object of one property.
fn object(alloc: Global, type_: u32, property: Property) -> Result<Value, AllocError> {
    Ok(Value::Object(Object {
        type_,
        id: 3,
        properties: single(alloc, property)?,
    }))
}

/// An object in an object, between a struct of nothing and a None in a struct.
fn nested(alloc: Global) -> Result<Value, AllocError> {
    let inner = object(alloc, 6, Property::new(7, Value::Int(-1)))?;
    let outer = Property {
        key: 1,
        flags: PropertyFlags::from_bits_retain(9),
        value: inner,
    };
    let mut members = single(alloc, Value::Struct(Vec::new(alloc)))?;
    members.push(object(alloc, 5, outer)?)?;
    members.push(Value::None)?;
    Ok(Value::Struct(members))
}

const NESTED: &str =
    "Struct([Struct([]), Object(Object { type_: 5, id: 3, properties: [Property { key: 1, flags: PropertyFlags(9), value: Object(Object { type_: 6, id: 3, properties: [Property { key: 7, flags: PropertyFlags(0), value: Int(-1) }] }) }] }), None])";

/// Its text, printed by a loop.
fn nested_text(alloc: Global) -> Result<String, AllocError> {
    let value = nested(alloc)?;
    text_of(alloc, &value)
}

#[test]
fn prints_what_holds_others(rt: HostRuntime) -> Result<(), AllocError> {
    let text = nested_text(rt.alloc())?;
    assert_same(&rt, &text.as_str(), &NESTED, "what holds others");
    Ok(())
}

/// Whether each value is printed as `{:?}` prints it.
fn are_alike(alloc: Global, values: &[Value]) -> Result<bool, AllocError> {
    let mut are_alike = true;
    for value in values {
        let found = text_of(alloc, value)?;
        let wanted = format!(in alloc; "{value:?}")?;
        are_alike = are_alike && found == wanted;
    }
    Ok(are_alike)
}

#[test]
fn prints_as_a_call_does(rt: HostRuntime) -> Result<(), AllocError> {
    let values = distinct_values(rt.alloc())?;
    let are_all = are_alike(rt.alloc(), values.as_slice())?;
    assert_holds(&rt, are_all, "each kind of value");
    let values = worked_values(rt.alloc())?;
    let are_all = are_alike(rt.alloc(), values.as_slice())?;
    assert_holds(&rt, are_all, "the worked values");
    Ok(())
}

/// More levels than a stack of 8 MB holds of a print that calls itself for each of them.
const DEPTH: usize = 100_000;

/// A None in this many structs, or in this many objects of one property.
fn deep(alloc: Global, in_objects: bool) -> Result<Held, AllocError> {
    let mut value = Held::from(Value::None);
    for _ in 0..DEPTH {
        value = Held::from(around(alloc, in_objects, value)?);
    }
    Ok(value)
}

/// A struct or an object around a value.
fn around(alloc: Global, in_object: bool, value: Held) -> Result<Value, AllocError> {
    if in_object {
        let mut properties = Vec::with_capacity(alloc, 1)?;
        properties.push_reserved(Property::new(1, value.into_inner()));
        return Ok(Value::Object(Object {
            type_: 5,
            id: 3,
            properties,
        }));
    }
    let mut members = Vec::with_capacity(alloc, 1)?;
    members.push_reserved(value.into_inner());
    Ok(Value::Struct(members))
}

/// How many bytes the text has.
fn printed_len(alloc: Global, in_objects: bool) -> Result<usize, AllocError> {
    let value = deep(alloc, in_objects)?;
    Ok(text_of(alloc, &*value)?.len())
}

/// What is printed of one level.
const STRUCT: &str = "Struct([])";

const OBJECT: &str =
    "Object(Object { type_: 5, id: 3, properties: [Property { key: 1, flags: PropertyFlags(0), value:  }] })";

/// Compares the length of a text with that of this many levels around a None.
fn assert_len(rt: &impl Abort, found: usize, level: &str) {
    let wanted = DEPTH.wrapping_mul(level.len()).wrapping_add("None".len());
    assert_eq!(rt; found, wanted, "{level}");
}

#[test]
fn prints_any_depth(rt: HostRuntime) -> Result<(), AllocError> {
    let structs = printed_len(rt.alloc(), false)?;
    assert_len(&rt, structs, STRUCT);
    let objects = printed_len(rt.alloc(), true)?;
    assert_len(&rt, objects, OBJECT);
    Ok(())
}
