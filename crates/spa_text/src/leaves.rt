//! Values without members, printed.
ghost use Rattle.std.specs.Prelude.{◌≡◌, ◌∷◌, ◌++◌, [], IfOk, OnOk, Some, map};
ghost use Rattle.json.specs.Token as token;
ghost use Rattle.spa_fixed_sized.specs.Choices.{choice_tree};
ghost use Rattle.spa_format.specs.Kind.{Kind, type_number};
ghost use Rattle.spa_format.specs.Tree.{array, bitmap, bytes, pointer, string};
ghost use Rattle.spa_text_read.specs.Grammar.{a_choice, an_array, element, type_kind};
ghost use Rattle.spa_text.specs.Printed.{flag_tokens, shape_text};
ghost use Rattle.spa_text_read.specs.Shapes.{shape_of};
ghost use Rattle.spa_text.specs.Written.{Lists, Opens, Prints, PutsType, shape_in, values_in};
ghost use Rattle.spa_value.specs.View.{array_view, choice_view};

use crate::out::Out;
use crate::printed::{Printed, begin_keyed_object, print_bits, print_name};
use bitflags::Flags;
use spa_fixed_sized::ChoiceElement;
use spa_names::{Expected, Table};
use spa_text_read::shape::Shape;
use spa_text_read::tag::takes_text;
use spa_utils::{Choice, ChoiceEnum, SpaTypes};
use spa_value::{ChoiceValue, ValueArray};
use std::alloc::{AllocError, Global};

/// Prints a text, in an object where a bare one would be a number.
pub(crate) fn print_text(out: &mut Out, text: &str, expected: Expected) -> Result<(), AllocError>
    ensures { OnOk result (Prints expected (string text.now) out.old.tokens out.new.tokens) }
{
    if !takes_text(expected.type_.0) {
        return out.string(text);
    }
    begin_keyed_object(out, "string")?;
    out.string(text)?;
    out.end_object()
}

/// Prints bytes, two digits for each.
pub(crate) fn print_bytes(
    alloc: Global,
    out: &mut Out,
    content: &[u8],
    expected: Expected,
) -> Result<(), AllocError>
    ensures { OnOk result (Prints expected (bytes content.now) out.old.tokens out.new.tokens) }
{
    let text = hex::encode(alloc, content)?;
    begin_keyed_object(out, "bytes")?;
    out.string(text.as_str())?;
    out.end_object()
}

/// Prints a bitmap likewise.
pub(crate) fn print_bitmap(
    alloc: Global,
    out: &mut Out,
    content: &[u8],
    expected: Expected,
) -> Result<(), AllocError>
    ensures { OnOk result (Prints expected (bitmap content.now) out.old.tokens out.new.tokens) }
{
    let text = hex::encode(alloc, content)?;
    begin_keyed_object(out, "bitmap")?;
    out.string(text.as_str())?;
    out.end_object()
}

/// Prints a pointer: its type by name, its address by its bits.
pub(crate) fn print_pointer(
    alloc: Global,
    out: &mut Out,
    type_: u32,
    address: u64,
    expected: Expected,
) -> Result<(), AllocError>
    ensures { OnOk result (Prints expected (pointer type_ address) out.old.tokens out.new.tokens) }
{
    begin_keyed_object(out, "pointer")?;
    print_name(out, Table::Types, type_)?;
    out.key("address")?;
    print_bits(alloc, out, &address.to_be_bytes())?;
    out.end_object()
}

/// What is expected of a value among others of this type.
fn among(type_: u32, ids: Table) -> Expected
    ensures { (kind : Kind) → type_kind type_ ≡ Some kind → result ≡ element ids kind }
{
    Expected {
        type_: SpaTypes(type_),
        element: SpaTypes(0),
        ids,
    }
}

/// Prints one of several values of a type.
fn print_element<T: Printed>(
    alloc: Global,
    out: &mut Out,
    value: T,
    expected: Expected,
) -> Result<(), AllocError>
    ensures { OnOk result (Lists expected T.kind (T.fixed value ∷ []) out.old.tokens out.new.tokens) }
{
    value.print(alloc, out, expected)
}

/// Prints values of a type one after another.
fn print_elements<T: Printed>(
    alloc: Global,
    out: &mut Out,
    values: &[T],
    expected: Expected,
) -> Result<(), AllocError>
    ensures { OnOk result (Lists expected T.kind (map T.fixed values.now) out.old.tokens out.new.tokens) }
{
    for value in values {
        print_element(alloc, out, *value, expected)?;
    }
    Ok(())
}

/// Prints an array.
pub(crate) fn print_array(
    alloc: Global,
    out: &mut Out,
    array: &ValueArray,
    expected: Expected,
) -> Result<(), AllocError>
    ensures { OnOk result (Prints expected (array_view array.now) out.old.tokens out.new.tokens) }
{
    match array {
        ValueArray::None(values) => print_list(alloc, out, values.as_slice(), expected),
        ValueArray::Bool(values) => print_list(alloc, out, values.as_slice(), expected),
        ValueArray::Id(values) => print_list(alloc, out, values.as_slice(), expected),
        ValueArray::Int(values) => print_list(alloc, out, values.as_slice(), expected),
        ValueArray::Long(values) => print_list(alloc, out, values.as_slice(), expected),
        ValueArray::Float(values) => print_list(alloc, out, values.as_slice(), expected),
        ValueArray::Double(values) => print_list(alloc, out, values.as_slice(), expected),
        ValueArray::Rectangle(values) => print_list(alloc, out, values.as_slice(), expected),
        ValueArray::Fraction(values) => print_list(alloc, out, values.as_slice(), expected),
        ValueArray::Fd(values) => print_list(alloc, out, values.as_slice(), expected),
    }
}

/// Prints an array of this type up to its elements.
fn begin_list(out: &mut Out, type_: u32, expected: Expected) -> Result<(), AllocError>
    ensures { OnOk result ((kind : Kind) → type_ ≡ type_number kind →
        Opens expected (an_array expected.ids kind) out.old.tokens out.new.tokens) }
{
    begin_keyed_object(out, "array")?;
    print_name(out, Table::Types, type_)?;
    out.key("values")?;
    out.begin_array()
}

/// Prints an array of these elements.
fn print_list<T: Printed>(
    alloc: Global,
    out: &mut Out,
    values: &[T],
    expected: Expected,
) -> Result<(), AllocError>
    ensures { OnOk result (Prints expected (array T.kind (map T.fixed values.now)) out.old.tokens out.new.tokens) }
{
    begin_list(out, T::TYPE, expected)?;
    print_elements(alloc, out, values, among(T::TYPE, expected.ids))?;
    end_list(out)
}

/// Prints the end of an array or a choice.
fn end_list(out: &mut Out) -> Result<(), AllocError>
    ensures { OnOk result (out.new.tokens ≡ out.old.tokens ++ (token.end_array ∷ token.end_object ∷ [])) }
{
    out.end_array()?;
    out.end_object()
}

/// Prints a choice.
pub(crate) fn print_choice(
    alloc: Global,
    out: &mut Out,
    choice: &ChoiceValue,
    expected: Expected,
) -> Result<(), AllocError>
    ensures { OnOk result (Prints expected (choice_view choice.now) out.old.tokens out.new.tokens) }
{
    match choice {
        ChoiceValue::Bool(choice) => print_values(alloc, out, choice, expected),
        ChoiceValue::Id(choice) => print_values(alloc, out, choice, expected),
        ChoiceValue::Int(choice) => print_values(alloc, out, choice, expected),
        ChoiceValue::Long(choice) => print_values(alloc, out, choice, expected),
        ChoiceValue::Float(choice) => print_values(alloc, out, choice, expected),
        ChoiceValue::Double(choice) => print_values(alloc, out, choice, expected),
        ChoiceValue::Rectangle(choice) => print_values(alloc, out, choice, expected),
        ChoiceValue::Fraction(choice) => print_values(alloc, out, choice, expected),
        ChoiceValue::Fd(choice) => print_values(alloc, out, choice, expected),
    }
}

/// The shape of these values.
fn shape_in<T>(values: &ChoiceEnum<T>) -> Shape
    ensures { shape_of result ≡ shape_in values.now }
{
    match values {
        ChoiceEnum::None(_) => Shape::None,
        ChoiceEnum::Range { .. } => Shape::Range,
        ChoiceEnum::Step { .. } => Shape::Step,
        ChoiceEnum::Enum { .. } => Shape::Enum,
        ChoiceEnum::Flags { .. } => Shape::Flags,
    }
}

/// The name of a shape.
fn shape_name(shape: Shape) -> &'static str
    ensures { result.now ≡ shape_text (shape_of shape) }
{
    match shape {
        Shape::None => "None",
        Shape::Range => "Range",
        Shape::Step => "Step",
        Shape::Enum => "Enum",
        Shape::Flags => "Flags",
    }
}

/// Prints the flags of a choice, if it has any.
fn print_flags(out: &mut Out, flags: u32) -> Result<(), AllocError>
    ensures { OnOk result (out.new.tokens ≡ out.old.tokens ++ flag_tokens flags) }
{
    if flags == 0 {
        return Ok(());
    }
    out.key("flags")?;
    out.u64(flags as u64)
}

/// Prints the type of a choice's values, unless it is expected.
fn print_type(out: &mut Out, type_: u32, expected: u32) -> Result<(), AllocError>
    ensures { OnOk result (PutsType expected type_ out.old.tokens out.new.tokens) }
{
    if expected == type_ {
        return Ok(());
    }
    out.key("of")?;
    print_name(out, Table::Types, type_)
}

/// Prints a choice up to its values.
fn begin_choice(
    out: &mut Out,
    shape: Shape,
    flags: u32,
    type_: u32,
    expected: Expected,
) -> Result<(), AllocError>
    ensures { OnOk result ((kind : Kind) → type_ ≡ type_number kind →
        Opens expected (a_choice (shape_of shape) flags expected.ids kind)
        out.old.tokens out.new.tokens) }
{
    begin_keyed_object(out, "choice")?;
    out.string(shape_name(shape))?;
    print_flags(out, flags)?;
    print_type(out, type_, expected.type_.0)?;
    out.key("values")?;
    out.begin_array()
}

/// Prints the values of a choice, the default first.
fn print_chosen<T: Printed>(
    alloc: Global,
    out: &mut Out,
    values: &ChoiceEnum<T>,
    expected: Expected,
) -> Result<(), AllocError>
    ensures { OnOk result (Lists expected T.kind (values_in T.fixed values.now) out.old.tokens out.new.tokens) }
{
    match values {
        ChoiceEnum::None(value) => print_element(alloc, out, *value, expected),
        ChoiceEnum::Range { default, min, max } => {
            print_element(alloc, out, *default, expected)?;
            print_element(alloc, out, *min, expected)?;
            print_element(alloc, out, *max, expected)
        }
        ChoiceEnum::Step {
            default,
            min,
            max,
            step,
        } => {
            print_element(alloc, out, *default, expected)?;
            print_element(alloc, out, *min, expected)?;
            print_element(alloc, out, *max, expected)?;
            print_element(alloc, out, *step, expected)
        }
        ChoiceEnum::Enum {
            default,
            alternatives: others,
        }
        | ChoiceEnum::Flags {
            default,
            flags: others,
        } => {
            print_element(alloc, out, *default, expected)?;
            print_elements(alloc, out, others.as_slice(), expected)
        }
    }
}

/// Prints a choice over this type.
fn print_values<T: Printed + ChoiceElement>(
    alloc: Global,
    out: &mut Out,
    choice: &Choice<T>,
    expected: Expected,
) -> Result<(), AllocError>
    ensures { OnOk result (Prints expected (choice_tree T.kind T.fixed choice.now) out.old.tokens out.new.tokens) }
{
    let shape = shape_in(&choice.1);
    begin_choice(out, shape, choice.0.bits(), T::TYPE, expected)?;
    print_chosen(alloc, out, &choice.1, among(T::TYPE, expected.ids))?;
    end_list(out)
}
