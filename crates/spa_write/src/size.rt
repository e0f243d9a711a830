//! Computes how long encodings are, before a byte of them is written.
ghost use Rattle.std.specs.Prelude.{◌≡◌, ◌+◌, ◌<◌, ◌≤◌, IfErr, IfOk, map};
ghost use Rattle.spa_fixed_sized.specs.Choices.{choice_tree};
ghost use Rattle.spa_sink.specs.Writing.{RefusesWrite};
ghost use Rattle.spa_sink.specs.declared.gen_error.GenError.TheVariants.{TooLarge};
ghost use Rattle.spa_format.specs.Tree as tree;
ghost use Rattle.spa_format.specs.Words.{extent, size_limit};
ghost use Rattle.spa_format.specs.Writable.{SomeValueHasNul};
ghost use Rattle.spa_value.specs.View.{array_view, choice_view, view};
ghost use Rattle.spa_value.specs.Views.{property_views, views};
ghost use Rattle.spa_write.specs.Measured.{AreMeasured, IsMeasured, PropertiesAreMeasured, PropertiesAreTooLarge, RefusesTree};
ghost use Rattle.spa_bodies.specs.Written.{IsLeaf};

use crate::count::only_struct;
use crate::short::are_short;
use spa_bytes::{HEADER_LEN, POINTER_LEN, extent_of};
use spa_fixed_sized::{
    CanonicalFixedSizedPod, ChoiceElement, LONGEST_POD_LEN, array_size, choice_size, pod_len,
};
use spa_sink::GenError;
use spa_utils::Choice;
use spa_value::{ChoiceValue, Property, Value, ValueArray};

/// The least number of bytes that a size word can't count.
const SIZE_LIMIT: u64 = 1 << 32;

/// How many bytes a value's encoding has. Refused as `NulInText` where a text in the value holds NUL, and as `TooLarge` where a size word would
/// be 4294967296 or more.
#[cycle(size)]
#[inline(always)]
pub(crate) fn encoded_len(value: &Value) -> Result<u64, GenError>
    ensures measured { IfOk result (λ n. IsMeasured (view value.now) n) }
    ensures cause { IfErr result (RefusesTree (view value.now)) }
{
    match value {
        Value::Struct(members) => Ok(HEADER_LEN as u64 + members_len(members.as_slice())?),
        Value::Object(object) => {
            let len = properties_len(object.properties.as_slice())?;
            Ok(HEADER_LEN as u64 + sum_of(HEADER_LEN as u64, len)?)
        }
        leaf => leaf_len(leaf),
    }
}

/// How many bytes the encodings of the members of one struct have, with the refusals of `encoded_len`. A struct that is the only member of
/// another struct takes no call of its own.
#[cycle(size)]
pub(crate) fn members_len(members: &[Value]) -> Result<u64, GenError>
    ensures measured { IfOk result (λ n. AreMeasured (views members.now) n) }
    ensures cause { IfErr result (RefusesTree (tree.struct (views members.now))) }
{
    let mut outer = 0;
    let mut left = members;
    while let Some(inner) = only_struct(left) {
        outer = sum_of(outer, HEADER_LEN as u64)?;
        left = inner;
    }
    let len = all_len(left)?;
    sum_of(outer, len)
}

/// The least number of pods of sixteen bytes that a size word can't count.
const SHORT_LIMIT: usize = 1 << 28;

/// How many bytes the encodings of the members of one struct have: by one multiplication where each pod has sixteen bytes, and else measured one
/// by one.
#[cycle(size)]
fn all_len(members: &[Value]) -> Result<u64, GenError>
    ensures measured { IfOk result (λ n. AreMeasured (views members.now) n) }
    ensures cause { IfErr result (RefusesTree (tree.struct (views members.now))) }
{
    if members.len() < SHORT_LIMIT && are_short(members) {
        return Ok((LONGEST_POD_LEN * members.len()) as u64);
    }
    let mut total = 0;
    for member in members {
        let len = encoded_len(member)?;
        total = sum_of(total, len)?;
    }
    Ok(total)
}

/// How many bytes the properties of one object have, with their keys and flags, and with the refusals of `encoded_len`.
#[cycle(size)]
pub(crate) fn properties_len(properties: &[Property]) -> Result<u64, GenError>
    ensures measured { IfOk result (λ n. PropertiesAreMeasured (property_views properties.now) n) }
    ensures cause { IfErr result
        (RefusesWrite (SomeValueHasNul (property_views properties.now))
        (PropertiesAreTooLarge (property_views properties.now)) (λ _. ⊥)) }
{
    let mut total = 0;
    for property in properties {
        let len = encoded_len(&property.value)?;
        total = next_sum(total + HEADER_LEN as u64, len)?;
    }
    Ok(total)
}

/// The sum of two numbers of bytes. Refused as `TooLarge` where it is 4294967296 or more.
#[inline(always)]
fn sum_of(total: u64, more: u64) -> Result<u64, GenError>
    ensures sum { IfOk result (λ sum. sum ≡ total + more) }
    ensures short { IfOk result (λ sum. sum < size_limit) }
    ensures long { IfErr result (λ e. (e ≡ TooLarge) × (size_limit ≤ total + more)) }
{
    match total.checked_add(more) {
        Some(sum) if sum < SIZE_LIMIT => Ok(sum),
        _ => Err(GenError::TooLarge),
    }
}

/// The sum of two numbers of bytes, refused as `TooLarge` where it is 4294967296 or more. It takes one comparison, which is faster than `sum_of`
/// in a loop over properties.
#[inline(always)]
fn next_sum(total: u64, more: u64) -> Result<u64, GenError>
    ensures sum { IfOk result (λ sum. sum ≡ total + more) }
    ensures short { IfOk result (λ sum. sum < size_limit) }
    ensures long { IfErr result (λ e. (e ≡ TooLarge) × (size_limit ≤ total + more)) }
{
    let sum = total.saturating_add(more);
    if sum < SIZE_LIMIT {
        Ok(sum)
    } else {
        Err(GenError::TooLarge)
    }
}

/// How many bytes the encoding of a value has that is neither a struct nor an object, with the refusals of `encoded_len`.
#[inline(always)]
pub(crate) fn leaf_len(value: &Value) -> Result<u64, GenError>
    requires { IsLeaf (view value.now) }
    ensures measured { IfOk result (λ n. IsMeasured (view value.now) n) }
    ensures cause { IfErr result (RefusesTree (view value.now)) }
{
    match value {
        Value::None => number_len(&()),
        Value::Bool(value) => number_len(value),
        Value::Id(id) => number_len(id),
        Value::Int(number) => number_len(number),
        Value::Long(number) => number_len(number),
        Value::Float(bits) => number_len(bits),
        Value::Double(bits) => number_len(bits),
        Value::String(text) => text_len(text.as_str()),
        Value::Bytes(bytes) => bytes_len(bytes.as_slice()),
        Value::Bitmap(bytes) => bitmap_len(bytes.as_slice()),
        Value::Rectangle(rectangle) => number_len(rectangle),
        Value::Fraction(fraction) => number_len(fraction),
        Value::Fd(fd) => number_len(fd),
        Value::ValueArray(array) => Ok(array_len(array)?),
        Value::Choice(choice) => Ok(choice_len(choice)?),
        Value::Pointer(type_, address) => pointer_len(*type_, *address),
        Value::Struct(_) => unreachable!(),
        Value::Object(_) => unreachable!(),
    }
}

/// The length in bytes of the encoding of a value of fixed size.
#[inline(always)]
fn number_len<T: CanonicalFixedSizedPod>(value: &T) -> Result<u64, GenError>
    ensures measured { IfOk result (λ n. IsMeasured (tree.fixed (T.fixed value.now)) n) }
    ensures cause { IfErr result (RefusesTree (tree.fixed (T.fixed value.now))) }
{
    Ok(pod_len(value) as u64)
}

/// The length in bytes of a pod whose body has `size` bytes. Refused as `TooLarge` where that is 4294967296 or more.
fn encoded_pod_len(size: usize) -> Result<u64, GenError>
    ensures extent { IfOk result (λ n. n ≡ extent size) }
    ensures short { IfOk result (λ _. size < size_limit) }
    ensures long { IfErr result (λ e. (e ≡ TooLarge) × (size_limit ≤ size)) }
{
    match u32::try_from(size) {
        Ok(size) => Ok(extent_of(size) as u64),
        Err(_) => Err(GenError::TooLarge),
    }
}

/// The length in bytes of the encoding of a text. Refused as `NulInText` and as `TooLarge`.
fn text_len(text: &str) -> Result<u64, GenError>
    ensures measured { IfOk result (λ n. IsMeasured (tree.string text.now) n) }
    ensures cause { IfErr result (RefusesTree (tree.string text.now)) }
{
    let bytes = text.as_bytes();
    if bytes.contains(&0) {
        return Err(GenError::NulInText);
    }
    encoded_pod_len(bytes.len() + 1)
}

/// The length in bytes of the encoding of bytes. Refused as `TooLarge`.
fn bytes_len(bytes: &[u8]) -> Result<u64, GenError>
    ensures measured { IfOk result (λ n. IsMeasured (tree.bytes bytes.now) n) }
    ensures cause { IfErr result (RefusesTree (tree.bytes bytes.now)) }
{
    encoded_pod_len(bytes.len())
}

/// The length in bytes of the encoding of a bitmap. Refused as `TooLarge`.
fn bitmap_len(bytes: &[u8]) -> Result<u64, GenError>
    ensures measured { IfOk result (λ n. IsMeasured (tree.bitmap bytes.now) n) }
    ensures cause { IfErr result (RefusesTree (tree.bitmap bytes.now)) }
{
    encoded_pod_len(bytes.len())
}

/// The length in bytes of the encoding of a pointer.
fn pointer_len(type_: u32, address: u64) -> Result<u64, GenError>
    ensures measured { IfOk result (λ n. IsMeasured (tree.pointer type_ address) n) }
    ensures cause { IfErr result (RefusesTree (tree.pointer type_ address)) }
{
    Ok((HEADER_LEN + POINTER_LEN) as u64)
}

/// The length in bytes of the encoding of an array of these elements. Refused as `TooLarge`.
fn elements_len<T: CanonicalFixedSizedPod>(values: &[T]) -> Result<u64, GenError>
    ensures measured { IfOk result (λ n. IsMeasured (tree.array T.kind (map T.fixed values.now)) n) }
    ensures cause { IfErr result (RefusesTree (tree.array T.kind (map T.fixed values.now))) }
{
    match array_size(values) {
        Some(size) => Ok(extent_of(size) as u64),
        None => Err(GenError::TooLarge),
    }
}

/// The length in bytes of the encoding of a choice over one type of fixed size. Refused as `TooLarge`.
fn alternatives_len<T: ChoiceElement>(choice: &Choice<T>) -> Result<u64, GenError>
    ensures measured { IfOk result (λ n. IsMeasured (choice_tree T.kind T.fixed choice.now) n) }
    ensures cause { IfErr result (RefusesTree (choice_tree T.kind T.fixed choice.now)) }
{
    match choice_size(choice) {
        Some(size) => Ok(extent_of(size) as u64),
        None => Err(GenError::TooLarge),
    }
}

/// The length in bytes of the encoding of an array over any type. Refused as `TooLarge`.
#[inline(always)]
fn array_len(array: &ValueArray) -> Result<u64, GenError>
    ensures measured { IfOk result (λ n. IsMeasured (array_view array.now) n) }
    ensures cause { IfErr result (RefusesTree (array_view array.now)) }
{
    match array {
        ValueArray::None(units) => elements_len(units.as_slice()),
        ValueArray::Bool(values) => elements_len(values.as_slice()),
        ValueArray::Id(ids) => elements_len(ids.as_slice()),
        ValueArray::Int(numbers) => elements_len(numbers.as_slice()),
        ValueArray::Long(numbers) => elements_len(numbers.as_slice()),
        ValueArray::Float(bits) => elements_len(bits.as_slice()),
        ValueArray::Double(bits) => elements_len(bits.as_slice()),
        ValueArray::Rectangle(rectangles) => elements_len(rectangles.as_slice()),
        ValueArray::Fraction(fractions) => elements_len(fractions.as_slice()),
        ValueArray::Fd(fds) => elements_len(fds.as_slice()),
    }
}

/// The length in bytes of the encoding of a choice over any type. Refused as `TooLarge`.
#[inline(always)]
fn choice_len(choice: &ChoiceValue) -> Result<u64, GenError>
    ensures measured { IfOk result (λ n. IsMeasured (choice_view choice.now) n) }
    ensures cause { IfErr result (RefusesTree (choice_view choice.now)) }
{
    match choice {
        ChoiceValue::Bool(values) => alternatives_len(values),
        ChoiceValue::Id(ids) => alternatives_len(ids),
        ChoiceValue::Int(numbers) => alternatives_len(numbers),
        ChoiceValue::Long(numbers) => alternatives_len(numbers),
        ChoiceValue::Float(bits) => alternatives_len(bits),
        ChoiceValue::Double(bits) => alternatives_len(bits),
        ChoiceValue::Rectangle(rectangles) => alternatives_len(rectangles),
        ChoiceValue::Fraction(fractions) => alternatives_len(fractions),
        ChoiceValue::Fd(fds) => alternatives_len(fds),
    }
}
