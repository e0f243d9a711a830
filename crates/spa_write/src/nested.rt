//! Writes values with their members by a loop, with an explicit stack of the containers that are begun.
//!
//! The encoding is put together in a vector of its own. A container's size word is written once all that it counts is there.
ghost use Rattle.std.specs.Prelude.{◌≡◌, [], IfErr, IfOk, OnOk};
ghost use Rattle.spa_sink.specs.declared.gen_error.GenError.TheVariants.{OutOfMemory};
ghost use Rattle.spa_value.specs.View.{view};
ghost use Rattle.spa_write.specs.Nesting.{Begins, IsAppended, PutsOn, PutsOrPasses, RefusesLeft, RefusesMade, nested_tree};
ghost use Rattle.spa_bodies.specs.Written.{IsLeaf};
ghost use Rattle.spa_write.specs.declared.left.Left.TheVariants as left_variant;

use crate::leaf::put_leaf;
use crate::left::{Begun, Left, Nested, Stop};
use crate::short::short_encoding;
use bitflags::Flags;
use spa_bodies::{begin, close};
use spa_sink::{GenError, PodSink, put_two};
use spa_utils::SpaTypes;
use spa_value::{Object, Property, Value};
use std::alloc::Global;

/// The encoding of a value, in memory of this allocator. The nesting depth is bounded by memory alone, since the containers that are begun are
/// on a stack of their own, in that memory. Refused as `NulInText` where a text in the value holds NUL, as `TooLarge` where a size word would be
/// 4294967296 or more, and as `OutOfMemory`.
pub(crate) fn write_by_loop(alloc: Global, value: &Value) -> Result<Vec<u8>, GenError>
    ensures encoding { IfOk result (λ made. IsAppended (view value.now) [] made.items) }
    ensures refused { IfErr result (RefusesMade (view value.now)) }
{
    let mut out = Vec::new(alloc);
    let Some(outermost) = put_or_pass(&mut out, value)? else {
        return Ok(out);
    };
    let mut inner = begin_nested(&mut out, outermost)?;
    let mut outer = Vec::new(alloc);
    loop {
        match put_left(inner.left, &mut out)? {
            Some(Stop { nested, left }) => {
                let begun = begin_nested(&mut out, nested)?;
                let start = inner.start;
                let Ok(()) = outer.push(Begun { start, left }) else {
                    return Err(GenError::OutOfMemory);
                };
                inner = begun;
            }
            None => {
                close(&mut out, inner.start)?;
                let Some(next) = outer.pop() else {
                    return Ok(out);
                };
                inner = next;
            }
        }
    }
}

/// Appends the encoding of a value that is neither a struct nor an object, and answers None. A struct or an object is answered itself, and
/// nothing is appended.
#[inline(always)]
fn put_or_pass<'a>(out: &mut Vec<u8>, value: &'a Value) -> Result<Option<Nested<'a>>, GenError>
    ensures put { IfOk result (λ nested. PutsOrPasses (view value.now) out.old.items nested out.new.items) }
    ensures refused { IfErr result (RefusesMade (view value.now)) }
{
    match value {
        Value::Struct(members) => return Ok(Some(Nested::Struct(members.as_slice()))),
        Value::Object(object) => return Ok(Some(Nested::Object(object))),
        leaf => put_any_leaf(out, leaf)?,
    }
    Ok(None)
}

/// Appends the encoding of a value that is neither a struct nor an object.
#[inline(always)]
fn put_any_leaf(out: &mut Vec<u8>, value: &Value) -> Result<(), GenError>
    requires { IsLeaf (view value.now) }
    ensures put { OnOk result (IsAppended (view value.now) out.old.items out.new.items) }
    ensures refused { IfErr result (RefusesMade (view value.now)) }
{
    match short_encoding(value) {
        Some(pod) => PodSink::append(out, &pod),
        None => put_leaf(out, value),
    }
}

/// Appends the header of a struct, or the header, type and id of an object, with a size word of 0 for now. Refused only as `OutOfMemory`.
#[inline(always)]
fn begin_nested<'a>(out: &mut Vec<u8>, nested: Nested<'a>) -> Result<Begun<'a>, GenError>
    ensures begun { IfOk result (λ begun. Begins (nested_tree nested.entry) out.old.items begun out.new.items) }
    ensures memory { IfErr result (λ e. e ≡ OutOfMemory) }
{
    match nested {
        Nested::Struct(members) => {
            let start = begin(out, SpaTypes::Struct.0)?;
            let left = Left::Members(members);
            Ok(Begun { start, left })
        }
        Nested::Object(object) => {
            let start = begin(out, SpaTypes::Object.0)?;
            put_two(out, object.type_, object.id)?;
            let left = Left::Properties(object.properties.as_slice());
            Ok(Begun { start, left })
        }
    }
}

/// Appends what is left of a container up to the next container in it, which is answered, or up to its end.
#[inline(always)]
fn put_left<'a>(left: Left<'a>, out: &mut Vec<u8>) -> Result<Option<Stop<'a>>, GenError>
    ensures put { IfOk result (λ stop. PutsOn left.entry out.old.items stop out.new.items) }
    ensures refused { IfErr result (RefusesLeft left.entry) }
{
    match left {
        Left::Members(members) => put_members(members, out),
        Left::Properties(properties) => put_properties(properties, out),
    }
}

/// Appends members up to the next that is a struct or an object, which is answered, or all of them.
#[inline(always)]
fn put_members<'a>(members: &'a [Value], out: &mut Vec<u8>) -> Result<Option<Stop<'a>>, GenError>
    ensures put { IfOk result (λ stop. PutsOn (left_variant.Members members.entry) out.old.items stop out.new.items) }
    ensures refused { IfErr result (RefusesLeft (left_variant.Members members.entry)) }
{
    let mut left = members;
    while let Some((member, behind)) = left.split_first() {
        left = behind;
        if let Some(nested) = put_or_pass(out, member)? {
            let left = Left::Members(behind);
            return Ok(Some(Stop { nested, left }));
        }
    }
    Ok(None)
}

/// Appends properties, each with its key and flags, up to the next whose value is a struct or an object, which is answered, or all of them. Of
/// that next one the key and the flags are appended.
#[inline(always)]
fn put_properties<'a>(
    properties: &'a [Property],
    out: &mut Vec<u8>,
) -> Result<Option<Stop<'a>>, GenError>
    ensures put { IfOk result
        (λ stop. PutsOn (left_variant.Properties properties.entry) out.old.items stop out.new.items) }
    ensures refused { IfErr result (RefusesLeft (left_variant.Properties properties.entry)) }
{
    let mut left = properties;
    while let Some((property, behind)) = left.split_first() {
        left = behind;
        put_two(out, property.key, property.flags.bits())?;
        if let Some(nested) = put_or_pass(out, &property.value)? {
            let left = Left::Properties(behind);
            return Ok(Some(Stop { nested, left }));
        }
    }
    Ok(None)
}
