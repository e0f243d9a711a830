//! Copies values that are neither structs nor objects, each into the place where it will stay.
ghost use Rattle.std.specs.Prelude.{IfOk, OnOk, string_bytes};
ghost use Rattle.spa_format.specs.Tree.{bitmap, bytes, string};
ghost use Rattle.spa_value.specs.NestedCopies.{CopiesLeaf};
ghost use Rattle.spa_value.specs.View.{array_view};

use crate::array::ValueArray;
use crate::choice_copies::put_choice;
use crate::copies::copy_elements;
use crate::nested_copies::Nested;
use crate::taking::Takes;
use crate::value::Value;
use std::alloc::AllocError;

/// Puts the copy of a value that is neither a struct nor an object into `to`, which has room for it, and answers None. A struct or an object is
/// answered itself and not copied. Refused only for want of memory.
#[inline(always)]
pub(crate) fn copy_leaf<'a, T: Takes>(
    value: &'a Value,
    to: &mut T,
) -> Result<Option<Nested<'a>>, AllocError>
    requires { T.has_room to.old }
    ensures { IfOk result (λ nested. CopiesLeaf T.takes value.now to.old nested to.new) }
{
    match value {
        Value::None => to.put(Value::None),
        Value::Bool(x) => to.put(Value::Bool(*x)),
        Value::Id(x) => to.put(Value::Id(*x)),
        Value::Int(x) => to.put(Value::Int(*x)),
        Value::Long(x) => to.put(Value::Long(*x)),
        Value::Float(x) => to.put(Value::Float(*x)),
        Value::Double(x) => to.put(Value::Double(*x)),
        Value::String(text) => put_text(text, to)?,
        Value::Bytes(bytes) => put_bytes(bytes, to)?,
        Value::Bitmap(bytes) => put_bitmap(bytes, to)?,
        Value::Rectangle(x) => to.put(Value::Rectangle(*x)),
        Value::Fraction(x) => to.put(Value::Fraction(*x)),
        Value::Fd(x) => to.put(Value::Fd(*x)),
        Value::ValueArray(array) => put_array(array, to)?,
        Value::Struct(members) => return Ok(Some(Nested::Struct(members))),
        Value::Object(object) => return Ok(Some(Nested::Object(object))),
        Value::Choice(choice) => put_choice(choice, to)?,
        Value::Pointer(type_, address) => to.put(Value::Pointer(*type_, *address)),
    }
    Ok(None)
}

/// Puts the copy of a text into `to`. Refused only for want of memory, as those below are.
// In line: a call costs a short text a thirtieth of its copy.
#[inline(always)]
fn put_text<T: Takes>(text: &String, to: &mut T) -> Result<(), AllocError>
    requires { T.has_room to.old }
    ensures { OnOk result (T.takes to.old (string (string_bytes text.now)) to.new) }
{
    to.put(Value::String(text.clone()?));
    Ok(())
}

// The copies made by these aren't small: they are functions of their own, so that copying a number needs no stack for them.

/// Puts the copy of bytes into `to`.
#[inline(never)]
fn put_bytes<T: Takes>(content: &Vec<u8>, to: &mut T) -> Result<(), AllocError>
    requires { T.has_room to.old }
    ensures { OnOk result (T.takes to.old (bytes content.now.items) to.new) }
{
    to.put(Value::Bytes(copy_elements(content)?));
    Ok(())
}

/// Puts the copy of a bitmap into `to`.
#[inline(never)]
fn put_bitmap<T: Takes>(content: &Vec<u8>, to: &mut T) -> Result<(), AllocError>
    requires { T.has_room to.old }
    ensures { OnOk result (T.takes to.old (bitmap content.now.items) to.new) }
{
    to.put(Value::Bitmap(copy_elements(content)?));
    Ok(())
}

/// Puts the copy of an array into `to`.
#[inline(never)]
fn put_array<T: Takes>(array: &ValueArray, to: &mut T) -> Result<(), AllocError>
    requires { T.has_room to.old }
    ensures { OnOk result (T.takes to.old (array_view array.now) to.new) }
{
    to.put(Value::ValueArray(array.clone()?));
    Ok(())
}
