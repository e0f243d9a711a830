//! Choices, made of their values.
ghost use Rattle.std.specs.Prelude.{◌≡◌, ℕ, [], ◌∷◌, MatchOption, MatchResult, None, Some, map};
ghost use Rattle.spa_fixed_sized.specs.Choices.{choice_enum_tree, choice_tree};
ghost use Rattle.spa_text_read.specs.Grammar as grammar;
ghost use Rattle.spa_text_read.specs.Seen.{items_in, kind_in};
ghost use Rattle.spa_text_read.specs.Shapes.{shape_of};
ghost use Rattle.spa_value.specs.View.{choice_view, view};

use crate::cause::Cause;
use crate::shape::Shape;
use bitflags::Flags;
use spa_fixed_sized::CanonicalFixedSizedPod;
use spa_utils::{Choice, ChoiceEnum, ChoiceFlags};
use spa_value::{ChoiceValue, Value, ValueArray};

/// The choice of these values, the default first.
pub(crate) fn choice_value(shape: Shape, flags: u32, values: ValueArray) -> Result<Value, Cause>
    ensures { MatchResult result
        (λ v. grammar.choice_of (shape_of shape) flags (kind_in values) (items_in values)
        ≡ Some (view v))
        (λ _. grammar.choice_of (shape_of shape) flags (kind_in values) (items_in values) ≡ None) }
{
    match any_choice(shape, flags, values) {
        Some(choice) => Ok(Value::Choice(choice)),
        None => Err(Cause::Count),
    }
}

/// The choice of these values; there is none over values of no size.
fn any_choice(shape: Shape, flags: u32, values: ValueArray) -> Option<ChoiceValue>
    ensures { MatchOption result
        (grammar.choice_of (shape_of shape) flags (kind_in values) (items_in values) ≡ None)
        (λ c. grammar.choice_of (shape_of shape) flags (kind_in values) (items_in values)
        ≡ Some (choice_view c)) }
{
    match values {
        ValueArray::None(_) => None,
        ValueArray::Bool(values) => Some(ChoiceValue::Bool(choice_of(shape, flags, values)?)),
        ValueArray::Id(values) => Some(ChoiceValue::Id(choice_of(shape, flags, values)?)),
        ValueArray::Int(values) => Some(ChoiceValue::Int(choice_of(shape, flags, values)?)),
        ValueArray::Long(values) => Some(ChoiceValue::Long(choice_of(shape, flags, values)?)),
        ValueArray::Float(values) => Some(ChoiceValue::Float(choice_of(shape, flags, values)?)),
        ValueArray::Double(values) => Some(ChoiceValue::Double(choice_of(shape, flags, values)?)),
        ValueArray::Rectangle(values) => {
            Some(ChoiceValue::Rectangle(choice_of(shape, flags, values)?))
        }
        ValueArray::Fraction(values) => {
            Some(ChoiceValue::Fraction(choice_of(shape, flags, values)?))
        }
        ValueArray::Fd(values) => Some(ChoiceValue::Fd(choice_of(shape, flags, values)?)),
    }
}

/// The choice of these values, where there are as many as its shape takes.
fn choice_of<T: CanonicalFixedSizedPod>(
    shape: Shape,
    flags: u32,
    values: Vec<T>,
) -> Option<Choice<T>>
    ensures { MatchOption result
        (grammar.chosen (shape_of shape) flags T.kind (map T.fixed values.items) ≡ None)
        (λ c. grammar.chosen (shape_of shape) flags T.kind (map T.fixed values.items)
        ≡ Some (choice_tree T.kind T.fixed c)) }
{
    match chosen(shape, values) {
        Some(chosen) => Some(Choice(ChoiceFlags::from_bits_retain(flags), chosen)),
        None => None,
    }
}

/// The choice of these values without its flags, where there are as many as its shape takes.
fn chosen<T: CanonicalFixedSizedPod>(shape: Shape, values: Vec<T>) -> Option<ChoiceEnum<T>>
    ensures { MatchOption result
        ((n : ℕ) → grammar.chosen (shape_of shape) n T.kind (map T.fixed values.items) ≡ None)
        (λ c. (n : ℕ) → grammar.chosen (shape_of shape) n T.kind (map T.fixed values.items)
        ≡ Some (choice_enum_tree T.kind T.fixed n c)) }
{
    match shape {
        Shape::None => match values.as_slice() {
            [value] => Some(ChoiceEnum::None(*value)),
            _ => None,
        },
        Shape::Range => match values.as_slice() {
            [default, min, max] => Some(ChoiceEnum::Range {
                default: *default,
                min: *min,
                max: *max,
            }),
            _ => None,
        },
        Shape::Step => match values.as_slice() {
            [default, min, max, step] => Some(ChoiceEnum::Step {
                default: *default,
                min: *min,
                max: *max,
                step: *step,
            }),
            _ => None,
        },
        Shape::Enum => match split(values) {
            Some((default, alternatives)) => Some(ChoiceEnum::Enum {
                default,
                alternatives,
            }),
            None => None,
        },
        Shape::Flags => match split(values) {
            Some((default, flags)) => Some(ChoiceEnum::Flags { default, flags }),
            None => None,
        },
    }
}

/// The first value, and the others.
fn split<T: Copy>(mut values: Vec<T>) -> Option<(T, Vec<T>)>
    ensures { MatchOption result (values.items ≡ []) (λ p. values.items ≡ p.0 ∷ p.1.items) }
{
    if values.is_empty() {
        return None;
    }
    let first = values.remove(0);
    Some((first, values))
}
