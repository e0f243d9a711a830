//! Writes values that are neither structs nor objects.
ghost use Rattle.std.specs.Prelude.{IfErr, OnErr, OnOk};
ghost use Rattle.spa_sink.specs.Writing.{Begun, RefusesWrite};
ghost use Rattle.spa_format.specs.Encoding.{encoding_of};
ghost use Rattle.spa_bodies.specs.Written.{IsLeaf, IsPut, RefusesLeaf};
ghost use Rattle.spa_value.specs.View.{array_view, choice_view, view};

use spa_bodies::{
    put_alternatives, put_bitmap, put_bytes, put_elements, put_number, put_pointer, put_text,
};
use spa_sink::{GenError, PodSink};
use spa_value::{ChoiceValue, Value, ValueArray};

/// Appends the encoding of a value that is neither a struct nor an object. It is refused as `NulInText` where it is a text with NUL, and as
/// `TooLarge` where its body has 4294967296 bytes or more: nothing is appended then. Where the sink refuses it, the sink may have taken a
/// beginning of the encoding.
pub fn put_leaf<S: PodSink>(sink: &mut S, value: &Value) -> Result<(), GenError>
    requires { IsLeaf (view value.now) }
    ensures put { OnOk result (IsPut S.appends sink.old (view value.now) sink.new) }
    ensures begun { OnErr result (Begun S.appends sink.old (encoding_of (view value.now)) sink.new) }
    ensures refused { IfErr result (RefusesLeaf S.refuses sink.old (view value.now) sink.new) }
{
    match value {
        Value::None => put_number(sink, &()),
        Value::Bool(value) => put_number(sink, value),
        Value::Id(id) => put_number(sink, id),
        Value::Int(number) => put_number(sink, number),
        Value::Long(number) => put_number(sink, number),
        Value::Float(bits) => put_number(sink, bits),
        Value::Double(bits) => put_number(sink, bits),
        Value::String(text) => put_text(sink, text.as_str()),
        Value::Bytes(bytes) => put_bytes(sink, bytes.as_slice()),
        Value::Bitmap(bytes) => put_bitmap(sink, bytes.as_slice()),
        Value::Rectangle(rectangle) => put_number(sink, rectangle),
        Value::Fraction(fraction) => put_number(sink, fraction),
        Value::Fd(fd) => put_number(sink, fd),
        Value::ValueArray(array) => put_value_array(sink, array),
        Value::Choice(choice) => put_choice_value(sink, choice),
        Value::Pointer(type_, address) => put_pointer(sink, *type_, *address),
        Value::Struct(_) => unreachable!(),
        Value::Object(_) => unreachable!(),
    }
}

/// Appends the encoding of an array, with the refusals of `put_leaf`.
fn put_value_array<S: PodSink>(sink: &mut S, array: &ValueArray) -> Result<(), GenError>
    ensures put { OnOk result (IsPut S.appends sink.old (array_view array.now) sink.new) }
    ensures begun { OnErr result (Begun S.appends sink.old (encoding_of (array_view array.now)) sink.new) }
    ensures refused { IfErr result (RefusesLeaf S.refuses sink.old (array_view array.now) sink.new) }
{
    match array {
        ValueArray::None(units) => put_elements(sink, units.as_slice()),
        ValueArray::Bool(values) => put_elements(sink, values.as_slice()),
        ValueArray::Id(ids) => put_elements(sink, ids.as_slice()),
        ValueArray::Int(numbers) => put_elements(sink, numbers.as_slice()),
        ValueArray::Long(numbers) => put_elements(sink, numbers.as_slice()),
        ValueArray::Float(bits) => put_elements(sink, bits.as_slice()),
        ValueArray::Double(bits) => put_elements(sink, bits.as_slice()),
        ValueArray::Rectangle(rectangles) => put_elements(sink, rectangles.as_slice()),
        ValueArray::Fraction(fractions) => put_elements(sink, fractions.as_slice()),
        ValueArray::Fd(fds) => put_elements(sink, fds.as_slice()),
    }
}

/// Appends the encoding of a choice, with the refusals of `put_leaf`.
fn put_choice_value<S: PodSink>(sink: &mut S, choice: &ChoiceValue) -> Result<(), GenError>
    ensures put { OnOk result (IsPut S.appends sink.old (choice_view choice.now) sink.new) }
    ensures begun { OnErr result (Begun S.appends sink.old (encoding_of (choice_view choice.now)) sink.new) }
    ensures refused { IfErr result (RefusesLeaf S.refuses sink.old (choice_view choice.now) sink.new) }
{
    match choice {
        ChoiceValue::Bool(values) => put_alternatives(sink, values),
        ChoiceValue::Id(ids) => put_alternatives(sink, ids),
        ChoiceValue::Int(numbers) => put_alternatives(sink, numbers),
        ChoiceValue::Long(numbers) => put_alternatives(sink, numbers),
        ChoiceValue::Float(bits) => put_alternatives(sink, bits),
        ChoiceValue::Double(bits) => put_alternatives(sink, bits),
        ChoiceValue::Rectangle(rectangles) => put_alternatives(sink, rectangles),
        ChoiceValue::Fraction(fractions) => put_alternatives(sink, fractions),
        ChoiceValue::Fd(fds) => put_alternatives(sink, fds),
    }
}
