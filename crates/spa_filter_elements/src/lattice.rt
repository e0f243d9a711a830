//! The greater and the lesser of two elements, and the bits that two flags share.
ghost use Rattle.spa_filter_elements.specs.Bounds.{IsJoin, IsMeet, IsShared};

use crate::ordered::{Ordered, Plain, greater_of, lesser_of, shared_of_none};
use spa_utils::{Id, Rectangle};

/// One of the nine types over which there are choices, with what two of its elements have above them and below them both.
pub trait Lattice: Ordered {
    /// The greater of two elements: of rectangles the one that has the greater sides of both. Where one of them is in no
    /// order, so is the answer.
    fn greater(&self, other: &Self) -> Self
        ensures { IsJoin (Self.fixed self.now) (Self.fixed other.now) (Self.fixed result) };

    /// The lesser of two elements: of rectangles the one with the lesser sides of both. Where one of them is in no order, so is the answer.
    fn lesser(&self, other: &Self) -> Self
        ensures { IsMeet (Self.fixed self.now) (Self.fixed other.now) (Self.fixed result) };

    /// The bits that both elements share.
    fn shared(&self, other: &Self) -> Self
        ensures { IsShared (Self.fixed self.now) (Self.fixed other.now) (Self.fixed result) };
}

impl<T: Plain> Lattice for T {
    fn greater(&self, other: &Self) -> Self {
        greater_of(self, other)
    }

    fn lesser(&self, other: &Self) -> Self {
        lesser_of(self, other)
    }

    fn shared(&self, other: &Self) -> Self {
        shared_of_none(self, other)
    }
}

impl Lattice for Id {
    fn greater(&self, other: &Self) -> Self {
        greater_of(self, other)
    }

    fn lesser(&self, other: &Self) -> Self {
        lesser_of(self, other)
    }

    fn shared(&self, other: &Self) -> Self {
        Id(self.0 & other.0)
    }
}

impl Lattice for i32 {
    fn greater(&self, other: &Self) -> Self {
        greater_of(self, other)
    }

    fn lesser(&self, other: &Self) -> Self {
        lesser_of(self, other)
    }

    fn shared(&self, other: &Self) -> Self {
        (self.cast_unsigned() & other.cast_unsigned()).cast_signed()
    }
}

impl Lattice for i64 {
    fn greater(&self, other: &Self) -> Self {
        greater_of(self, other)
    }

    fn lesser(&self, other: &Self) -> Self {
        lesser_of(self, other)
    }

    fn shared(&self, other: &Self) -> Self {
        (self.cast_unsigned() & other.cast_unsigned()).cast_signed()
    }
}

impl Lattice for Rectangle {
    fn greater(&self, other: &Self) -> Self {
        Rectangle {
            width: self.width.max(other.width),
            height: self.height.max(other.height),
        }
    }

    fn lesser(&self, other: &Self) -> Self {
        Rectangle {
            width: self.width.min(other.width),
            height: self.height.min(other.height),
        }
    }

    fn shared(&self, other: &Self) -> Self {
        shared_of_none(self, other)
    }
}
