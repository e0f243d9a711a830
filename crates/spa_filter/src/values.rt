//! Two values meet.
ghost use Rattle.std.specs.Prelude.{IfErr, IfOk, OnOk};
ghost use Rattle.spa_fixed_sized.specs.Choices.{choice_tree};
ghost use Rattle.spa_value.specs.View.{choice_view, view};
ghost use Rattle.spa_filter_offers.specs.Admits.{AreSupported, IsMeeting, IsPlain};
ghost use Rattle.spa_filter.specs.Values.{ValuesMeet};
ghost use Rattle.spa_filter.specs.Refusals.{IsValueRefusal};

use crate::error::FilterError;
use crate::support::refusal;
use spa_filter_offers::{Element, Offer, form_of, meet, offer_of};
use spa_utils::Choice;
use spa_value::laws::{equal_trees_are_the_same, trees_have_their_types};
use spa_value::{ChoiceValue, Value, same};
use std::alloc::{AllocError, Global};

/// A value that admits exactly what two values admit that stand under this key, with the first of their defaults that both admit.
///
/// The refusals: `Unsupported` where no common value is sought for one of the two or for both side by side, before `Disjoint` where
/// no value is admitted by both.
pub fn common(alloc: Global, key: u32, a: &Value, b: &Value) -> Result<Value, FilterError>
    ensures meeting { IfOk result (λ y. IsMeeting (view a.now) (view b.now) (view y)) }
    ensures supported { OnOk result (AreSupported (view a.now) (view b.now)) }
    ensures cause { IfErr result (IsValueRefusal key (view a.now) (view b.now)) }
{
    match values_meet(alloc, a, b)? {
        Some(value) => Ok(value),
        None => Err(refusal(key, form_of(a), form_of(b))),
    }
}

/// A value that admits exactly what both admit, where they are supported and admit one.
fn values_meet(alloc: Global, a: &Value, b: &Value) -> Result<Option<Value>, AllocError>
    ensures { IfOk result (ValuesMeet (view a.now) (view b.now)) }
{
    trees_have_their_types();
    match a {
        Value::Choice(choice) => choice_meets(alloc, choice, b),
        _ => match b {
            Value::Choice(choice) => choice_meets(alloc, choice, a),
            _ => plain_values_meet(alloc, a, b),
        },
    }
}

/// The value that two plain values have in common: either, where they are equal.
fn plain_values_meet(alloc: Global, a: &Value, b: &Value) -> Result<Option<Value>, AllocError>
    requires { IsPlain (view a.now) × IsPlain (view b.now) }
    ensures { IfOk result (ValuesMeet (view a.now) (view b.now)) }
{
    trees_have_their_types();
    equal_trees_are_the_same();
    if same(alloc, a, b)? {
        return Ok(Some(a.clone()?));
    }
    Ok(None)
}

/// A value that admits exactly what the choice and the value both admit, where they are supported and admit one.
fn choice_meets(alloc: Global, choice: &ChoiceValue, b: &Value) -> Result<Option<Value>, AllocError>
    ensures { IfOk result (ValuesMeet (choice_view choice.now) (view b.now)) }
{
    match choice {
        ChoiceValue::Bool(choice) => typed_meets(alloc, choice, b),
        ChoiceValue::Id(choice) => typed_meets(alloc, choice, b),
        ChoiceValue::Int(choice) => typed_meets(alloc, choice, b),
        ChoiceValue::Long(choice) => typed_meets(alloc, choice, b),
        ChoiceValue::Float(choice) => typed_meets(alloc, choice, b),
        ChoiceValue::Double(choice) => typed_meets(alloc, choice, b),
        ChoiceValue::Rectangle(choice) => typed_meets(alloc, choice, b),
        ChoiceValue::Fraction(choice) => typed_meets(alloc, choice, b),
        ChoiceValue::Fd(choice) => typed_meets(alloc, choice, b),
    }
}

/// A value that admits exactly what a choice over the type `T` and the value both admit, where they are supported and admit one.
fn typed_meets<T: Element>(
    alloc: Global,
    choice: &Choice<T>,
    b: &Value,
) -> Result<Option<Value>, AllocError>
    ensures { IfOk result (ValuesMeet (choice_tree T.kind T.fixed choice.now) (view b.now)) }
{
    match b {
        Value::Choice(other) => match T::in_choice(other) {
            Some(other) => choices_meet(alloc, choice, other),
            None => Ok(None),
        },
        _ => match T::in_value(b) {
            Some(x) => meet(alloc, &offer_of(&choice.1), &Offer::Only(x)),
            None => Ok(None),
        },
    }
}

/// A value that admits exactly what two choices over the type `T` both admit, where they are supported and admit one.
#[inline(never)]
pub(crate) fn choices_meet<T: Element>(
    alloc: Global,
    choice: &Choice<T>,
    other: &Choice<T>,
) -> Result<Option<Value>, AllocError>
    ensures { IfOk result (ValuesMeet (choice_tree T.kind T.fixed choice.now) (choice_tree T.kind T.fixed other.now)) }
{
    meet(alloc, &offer_of(&choice.1), &offer_of(&other.1))
}
