//! Visitors of choices, one for each of the nine types of fixed size that have bytes.
ghost use Rattle.spa_typed_read.specs.declared.visitor.Visit.TheVariants as visit;
ghost use Rattle.spa_value.specs.declared.choice_value.ChoiceValue.TheVariants as choice_value;

use crate::handed::{Handed, HandedVisitor};
use spa_typed_read::{Never, Visit};
use spa_utils::{Choice, Fd, Float32, Float64, Fraction, Id, Rectangle};
use spa_value::ChoiceValue;
use std::marker::PhantomData;

impl Handed for Choice<bool> {
    ghost handed = { λ x. visit.Choice (choice_value.Bool x) };

    fn of_visit(given: Visit<'_, Never>) -> Option<Choice<bool>> {
        match given {
            Visit::Choice(ChoiceValue::Bool(x)) => Some(x),
            _ => None,
        }
    }
}

impl Handed for Choice<i32> {
    ghost handed = { λ x. visit.Choice (choice_value.Int x) };

    fn of_visit(given: Visit<'_, Never>) -> Option<Choice<i32>> {
        match given {
            Visit::Choice(ChoiceValue::Int(x)) => Some(x),
            _ => None,
        }
    }
}

impl Handed for Choice<i64> {
    ghost handed = { λ x. visit.Choice (choice_value.Long x) };

    fn of_visit(given: Visit<'_, Never>) -> Option<Choice<i64>> {
        match given {
            Visit::Choice(ChoiceValue::Long(x)) => Some(x),
            _ => None,
        }
    }
}

impl Handed for Choice<Float32> {
    ghost handed = { λ x. visit.Choice (choice_value.Float x) };

    fn of_visit(given: Visit<'_, Never>) -> Option<Choice<Float32>> {
        match given {
            Visit::Choice(ChoiceValue::Float(x)) => Some(x),
            _ => None,
        }
    }
}

impl Handed for Choice<Float64> {
    ghost handed = { λ x. visit.Choice (choice_value.Double x) };

    fn of_visit(given: Visit<'_, Never>) -> Option<Choice<Float64>> {
        match given {
            Visit::Choice(ChoiceValue::Double(x)) => Some(x),
            _ => None,
        }
    }
}

impl Handed for Choice<Id> {
    ghost handed = { λ x. visit.Choice (choice_value.Id x) };

    fn of_visit(given: Visit<'_, Never>) -> Option<Choice<Id>> {
        match given {
            Visit::Choice(ChoiceValue::Id(x)) => Some(x),
            _ => None,
        }
    }
}

impl Handed for Choice<Rectangle> {
    ghost handed = { λ x. visit.Choice (choice_value.Rectangle x) };

    fn of_visit(given: Visit<'_, Never>) -> Option<Choice<Rectangle>> {
        match given {
            Visit::Choice(ChoiceValue::Rectangle(x)) => Some(x),
            _ => None,
        }
    }
}

impl Handed for Choice<Fraction> {
    ghost handed = { λ x. visit.Choice (choice_value.Fraction x) };

    fn of_visit(given: Visit<'_, Never>) -> Option<Choice<Fraction>> {
        match given {
            Visit::Choice(ChoiceValue::Fraction(x)) => Some(x),
            _ => None,
        }
    }
}

impl Handed for Choice<Fd> {
    ghost handed = { λ x. visit.Choice (choice_value.Fd x) };

    fn of_visit(given: Visit<'_, Never>) -> Option<Choice<Fd>> {
        match given {
            Visit::Choice(ChoiceValue::Fd(x)) => Some(x),
            _ => None,
        }
    }
}

/// Answers the choice over `bool` that it is given.
pub type ChoiceBoolVisitor = HandedVisitor<Choice<bool>>;

/// Answers the choice over `bool` that it is given.
pub const ChoiceBoolVisitor: ChoiceBoolVisitor = HandedVisitor(PhantomData);

/// Answers the choice over `i32` that it is given.
pub type ChoiceIntVisitor = HandedVisitor<Choice<i32>>;

/// Answers the choice over `i32` that it is given.
pub const ChoiceIntVisitor: ChoiceIntVisitor = HandedVisitor(PhantomData);

/// Answers the choice over `i64` that it is given.
pub type ChoiceLongVisitor = HandedVisitor<Choice<i64>>;

/// Answers the choice over `i64` that it is given.
pub const ChoiceLongVisitor: ChoiceLongVisitor = HandedVisitor(PhantomData);

/// Answers the choice over `Float32` that it is given.
pub type ChoiceFloatVisitor = HandedVisitor<Choice<Float32>>;

/// Answers the choice over `Float32` that it is given.
pub const ChoiceFloatVisitor: ChoiceFloatVisitor = HandedVisitor(PhantomData);

/// Answers the choice over `Float64` that it is given.
pub type ChoiceDoubleVisitor = HandedVisitor<Choice<Float64>>;

/// Answers the choice over `Float64` that it is given.
pub const ChoiceDoubleVisitor: ChoiceDoubleVisitor = HandedVisitor(PhantomData);

/// Answers the choice over `Id` that it is given.
pub type ChoiceIdVisitor = HandedVisitor<Choice<Id>>;

/// Answers the choice over `Id` that it is given.
pub const ChoiceIdVisitor: ChoiceIdVisitor = HandedVisitor(PhantomData);

/// Answers the choice over `Rectangle` that it is given.
pub type ChoiceRectangleVisitor = HandedVisitor<Choice<Rectangle>>;

/// Answers the choice over `Rectangle` that it is given.
pub const ChoiceRectangleVisitor: ChoiceRectangleVisitor = HandedVisitor(PhantomData);

/// Answers the choice over `Fraction` that it is given.
pub type ChoiceFractionVisitor = HandedVisitor<Choice<Fraction>>;

/// Answers the choice over `Fraction` that it is given.
pub const ChoiceFractionVisitor: ChoiceFractionVisitor = HandedVisitor(PhantomData);

/// Answers the choice over `Fd` that it is given.
pub type ChoiceFdVisitor = HandedVisitor<Choice<Fd>>;

/// Answers the choice over `Fd` that it is given.
pub const ChoiceFdVisitor: ChoiceFdVisitor = HandedVisitor(PhantomData);
