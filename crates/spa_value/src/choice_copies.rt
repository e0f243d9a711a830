//! Copies choices, each into the place where it will stay.
ghost use Rattle.std.specs.Prelude.{◌≡◌, OnOk, map};
ghost use Rattle.spa_fixed_sized.specs.Choices.{choice_enum_tree, choice_tree};
ghost use Rattle.spa_format.specs.Tree.{choice, enum_choice, flags_choice};
ghost use Rattle.spa_value.specs.View.{choice_view};
ghost use Rattle.spa_value.specs.declared.choice_value.ChoiceValue.TheVariants as variant;

use crate::choice_value::ChoiceValue;
use crate::copies::copy_elements;
use crate::taking::Takes;
use crate::value::Value;
use spa_fixed_sized::ChoiceElement;
use spa_utils::{Choice, ChoiceEnum, ChoiceFlags, Fd, Float32, Float64, Fraction, Id, Rectangle};
use std::alloc::AllocError;

/// One of the nine types that a choice may be over.
trait Chosen: ChoiceElement {
    /// The choice over this type as a variant of `ChoiceValue`.
    fn among(choice: Choice<Self>) -> ChoiceValue
        ensures { choice_view result ≡ choice_tree Self.kind Self.fixed choice };
}

impl Chosen for bool {
    #[inline(always)]
    fn among(choice: Choice<bool>) -> ChoiceValue
        ensures { choice_view result ≡ choice_view (variant.Bool choice) }
    {
        ChoiceValue::Bool(choice)
    }
}

impl Chosen for Id {
    #[inline(always)]
    fn among(choice: Choice<Id>) -> ChoiceValue
        ensures { choice_view result ≡ choice_view (variant.Id choice) }
    {
        ChoiceValue::Id(choice)
    }
}

impl Chosen for i32 {
    #[inline(always)]
    fn among(choice: Choice<i32>) -> ChoiceValue
        ensures { choice_view result ≡ choice_view (variant.Int choice) }
    {
        ChoiceValue::Int(choice)
    }
}

impl Chosen for i64 {
    #[inline(always)]
    fn among(choice: Choice<i64>) -> ChoiceValue
        ensures { choice_view result ≡ choice_view (variant.Long choice) }
    {
        ChoiceValue::Long(choice)
    }
}

impl Chosen for Float32 {
    #[inline(always)]
    fn among(choice: Choice<Float32>) -> ChoiceValue
        ensures { choice_view result ≡ choice_view (variant.Float choice) }
    {
        ChoiceValue::Float(choice)
    }
}

impl Chosen for Float64 {
    #[inline(always)]
    fn among(choice: Choice<Float64>) -> ChoiceValue
        ensures { choice_view result ≡ choice_view (variant.Double choice) }
    {
        ChoiceValue::Double(choice)
    }
}

impl Chosen for Rectangle {
    #[inline(always)]
    fn among(choice: Choice<Rectangle>) -> ChoiceValue
        ensures { choice_view result ≡ choice_view (variant.Rectangle choice) }
    {
        ChoiceValue::Rectangle(choice)
    }
}

impl Chosen for Fraction {
    #[inline(always)]
    fn among(choice: Choice<Fraction>) -> ChoiceValue
        ensures { choice_view result ≡ choice_view (variant.Fraction choice) }
    {
        ChoiceValue::Fraction(choice)
    }
}

impl Chosen for Fd {
    #[inline(always)]
    fn among(choice: Choice<Fd>) -> ChoiceValue
        ensures { choice_view result ≡ choice_view (variant.Fd choice) }
    {
        ChoiceValue::Fd(choice)
    }
}

/// Puts the copy of a choice into `to`. Refused only for want of memory.
#[inline(never)]
pub(crate) fn put_choice<T: Takes>(choice: &ChoiceValue, to: &mut T) -> Result<(), AllocError>
    requires { T.has_room to.old }
    ensures { OnOk result (T.takes to.old (choice_view choice.now) to.new) }
{
    match choice {
        ChoiceValue::Bool(choice) => put_values(choice, to),
        ChoiceValue::Id(choice) => put_values(choice, to),
        ChoiceValue::Int(choice) => put_values(choice, to),
        ChoiceValue::Long(choice) => put_values(choice, to),
        ChoiceValue::Float(choice) => put_values(choice, to),
        ChoiceValue::Double(choice) => put_values(choice, to),
        ChoiceValue::Rectangle(choice) => put_values(choice, to),
        ChoiceValue::Fraction(choice) => put_values(choice, to),
        ChoiceValue::Fd(choice) => put_values(choice, to),
    }
}

/// Puts the copy of a choice over one of the nine types into `to`. The copy of each shape is put by an arm of its own, so that no copy is moved
/// twice.
#[inline(always)]
fn put_values<C: Chosen, T: Takes>(choice: &Choice<C>, to: &mut T) -> Result<(), AllocError>
    requires { T.has_room to.old }
    ensures { OnOk result (T.takes to.old (choice_tree C.kind C.fixed choice.now) to.new) }
{
    let flags = choice.0;
    match &choice.1 {
        ChoiceEnum::None(value) => put_made(flags, ChoiceEnum::None(*value), to),
        ChoiceEnum::Range { default, min, max } => {
            let (default, min, max) = (*default, *min, *max);
            put_made(flags, ChoiceEnum::Range { default, min, max }, to);
        }
        ChoiceEnum::Step {
            default,
            min,
            max,
            step,
        } => {
            let values = ChoiceEnum::Step {
                default: *default,
                min: *min,
                max: *max,
                step: *step,
            };
            put_made(flags, values, to);
        }
        ChoiceEnum::Enum {
            default,
            alternatives,
        } => put_enum(flags, *default, alternatives, to)?,
        ChoiceEnum::Flags {
            default,
            flags: bits,
        } => put_flags(flags, *default, bits, to)?,
    }
    Ok(())
}

// Copies with a list take memory: they are functions of their own, so that copies without one need no stack for them.

/// Puts the copy of an Enum choice, with this default and these alternatives, into `to`. Refused only for want of memory.
#[inline(never)]
fn put_enum<C: Chosen, T: Takes>(
    flags: ChoiceFlags,
    default: C,
    alternatives: &Vec<C>,
    to: &mut T,
) -> Result<(), AllocError>
    requires { T.has_room to.old }
    ensures { OnOk result (T.takes to.old
        (choice enum_choice flags.0 C.kind (C.fixed default) (map C.fixed alternatives.now.items)) to.new) }
{
    let alternatives = copy_elements(alternatives)?;
    let values = ChoiceEnum::Enum {
        default,
        alternatives,
    };
    put_made(flags, values, to);
    Ok(())
}

/// Puts the copy of a Flags choice, with this default and these values behind it, into `to`. Refused only for want of memory.
#[inline(never)]
fn put_flags<C: Chosen, T: Takes>(
    flags: ChoiceFlags,
    default: C,
    bits: &Vec<C>,
    to: &mut T,
) -> Result<(), AllocError>
    requires { T.has_room to.old }
    ensures { OnOk result (T.takes to.old
        (choice flags_choice flags.0 C.kind (C.fixed default) (map C.fixed bits.now.items)) to.new) }
{
    let bits = copy_elements(bits)?;
    let values = ChoiceEnum::Flags {
        default,
        flags: bits,
    };
    put_made(flags, values, to);
    Ok(())
}

/// Puts a choice with this flags word and these values into `to`.
#[inline(always)]
fn put_made<C: Chosen, T: Takes>(flags: ChoiceFlags, values: ChoiceEnum<C>, to: &mut T)
    requires { T.has_room to.old }
    ensures { T.takes to.old (choice_enum_tree C.kind C.fixed flags.0 values) to.new }
{
    to.put(Value::Choice(C::among(Choice(flags, values))));
}
