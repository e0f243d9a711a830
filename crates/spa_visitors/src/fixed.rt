//! Visitors of the types of fixed size.
ghost use Rattle.spa_typed_read.specs.declared.visitor.Visit.TheVariants as visit;

use crate::handed::{Handed, HandedVisitor};
use spa_typed_read::{Never, Visit};
use spa_utils::{Fd, Float32, Float64, Fraction, Id, Rectangle};
use std::marker::PhantomData;

impl Handed for () {
    ghost handed = { λ _. visit.None };

    fn of_visit(given: Visit<'_, Never>) -> Option<()> {
        match given {
            Visit::None => Some(()),
            _ => None,
        }
    }
}

impl Handed for bool {
    ghost handed = { λ x. visit.Bool x };

    fn of_visit(given: Visit<'_, Never>) -> Option<bool> {
        match given {
            Visit::Bool(x) => Some(x),
            _ => None,
        }
    }
}

impl Handed for i32 {
    ghost handed = { λ x. visit.Int x };

    fn of_visit(given: Visit<'_, Never>) -> Option<i32> {
        match given {
            Visit::Int(x) => Some(x),
            _ => None,
        }
    }
}

impl Handed for i64 {
    ghost handed = { λ x. visit.Long x };

    fn of_visit(given: Visit<'_, Never>) -> Option<i64> {
        match given {
            Visit::Long(x) => Some(x),
            _ => None,
        }
    }
}

impl Handed for Float32 {
    ghost handed = { λ x. visit.Float x };

    fn of_visit(given: Visit<'_, Never>) -> Option<Float32> {
        match given {
            Visit::Float(x) => Some(x),
            _ => None,
        }
    }
}

impl Handed for Float64 {
    ghost handed = { λ x. visit.Double x };

    fn of_visit(given: Visit<'_, Never>) -> Option<Float64> {
        match given {
            Visit::Double(x) => Some(x),
            _ => None,
        }
    }
}

impl Handed for Rectangle {
    ghost handed = { λ x. visit.Rectangle x };

    fn of_visit(given: Visit<'_, Never>) -> Option<Rectangle> {
        match given {
            Visit::Rectangle(x) => Some(x),
            _ => None,
        }
    }
}

impl Handed for Fraction {
    ghost handed = { λ x. visit.Fraction x };

    fn of_visit(given: Visit<'_, Never>) -> Option<Fraction> {
        match given {
            Visit::Fraction(x) => Some(x),
            _ => None,
        }
    }
}

impl Handed for Id {
    ghost handed = { λ x. visit.Id x };

    fn of_visit(given: Visit<'_, Never>) -> Option<Id> {
        match given {
            Visit::Id(x) => Some(x),
            _ => None,
        }
    }
}

impl Handed for Fd {
    ghost handed = { λ x. visit.Fd x };

    fn of_visit(given: Visit<'_, Never>) -> Option<Fd> {
        match given {
            Visit::Fd(x) => Some(x),
            _ => None,
        }
    }
}

/// Answers the unit of a None pod.
pub type NoneVisitor = HandedVisitor<()>;

/// Answers the unit of a None pod.
pub const NoneVisitor: NoneVisitor = HandedVisitor(PhantomData);

/// Answers the truth value that it is given.
pub type BoolVisitor = HandedVisitor<bool>;

/// Answers the truth value that it is given.
pub const BoolVisitor: BoolVisitor = HandedVisitor(PhantomData);

/// Answers the signed number of 32 bits that it is given.
pub type IntVisitor = HandedVisitor<i32>;

/// Answers the signed number of 32 bits that it is given.
pub const IntVisitor: IntVisitor = HandedVisitor(PhantomData);

/// Answers the signed number of 64 bits that it is given.
pub type LongVisitor = HandedVisitor<i64>;

/// Answers the signed number of 64 bits that it is given.
pub const LongVisitor: LongVisitor = HandedVisitor(PhantomData);

/// Answers the float of 32 bits that it is given.
pub type FloatVisitor = HandedVisitor<Float32>;

/// Answers the float of 32 bits that it is given.
pub const FloatVisitor: FloatVisitor = HandedVisitor(PhantomData);

/// Answers the float of 64 bits that it is given.
pub type DoubleVisitor = HandedVisitor<Float64>;

/// Answers the float of 64 bits that it is given.
pub const DoubleVisitor: DoubleVisitor = HandedVisitor(PhantomData);

/// Answers the rectangle that it is given.
pub type RectangleVisitor = HandedVisitor<Rectangle>;

/// Answers the rectangle that it is given.
pub const RectangleVisitor: RectangleVisitor = HandedVisitor(PhantomData);

/// Answers the fraction that it is given.
pub type FractionVisitor = HandedVisitor<Fraction>;

/// Answers the fraction that it is given.
pub const FractionVisitor: FractionVisitor = HandedVisitor(PhantomData);

/// Answers the id that it is given.
pub type IdVisitor = HandedVisitor<Id>;

/// Answers the id that it is given.
pub const IdVisitor: IdVisitor = HandedVisitor(PhantomData);

/// Answers the index of a file descriptor that it is given.
pub type FdVisitor = HandedVisitor<Fd>;

/// Answers the index of a file descriptor that it is given.
pub const FdVisitor: FdVisitor = HandedVisitor(PhantomData);
