//! Types that are read and written as one of the ten types of fixed size.
ghost use Rattle.std.specs.Prelude.{◌≡◌};

use crate::fixed::CanonicalFixedSizedPod;
use spa_utils::{Fd, Float32, Float64, Fraction, Id, Rectangle};

/// A type that is read and written as one of the ten types of fixed size, its canonical type. Each of the ten is its own.
pub trait FixedSizedPod: Sized {
    /// The canonical type, as which it is read and written.
    type CanonicalType: CanonicalFixedSizedPod;

    /// The canonical value as which a value is written.
    ghost to_canonical: { Self → Self.CanonicalType };

    /// The value as which a canonical one is read.
    ghost of_canonical: { Self.CanonicalType → Self };

    /// The canonical value as which this one is written.
    fn as_canonical_type(&self) -> Self::CanonicalType
        ensures { result ≡ to_canonical self.now };

    /// The value as which this canonical one is read.
    fn from_canonical_type(canonical: &Self::CanonicalType) -> Self
        ensures { result ≡ of_canonical canonical.now };
}

impl FixedSizedPod for () {
    type CanonicalType = ();

    ghost to_canonical = { λ value. value };

    ghost of_canonical = { λ value. value };

    fn as_canonical_type(&self) {
        *self
    }

    fn from_canonical_type(canonical: &()) {
        *canonical
    }
}

impl FixedSizedPod for bool {
    type CanonicalType = bool;

    ghost to_canonical = { λ value. value };

    ghost of_canonical = { λ value. value };

    fn as_canonical_type(&self) -> bool {
        *self
    }

    fn from_canonical_type(canonical: &bool) -> bool {
        *canonical
    }
}

impl FixedSizedPod for Id {
    type CanonicalType = Id;

    ghost to_canonical = { λ value. value };

    ghost of_canonical = { λ value. value };

    fn as_canonical_type(&self) -> Id {
        *self
    }

    fn from_canonical_type(canonical: &Id) -> Id {
        *canonical
    }
}

impl FixedSizedPod for i32 {
    type CanonicalType = i32;

    ghost to_canonical = { λ value. value };

    ghost of_canonical = { λ value. value };

    fn as_canonical_type(&self) -> i32 {
        *self
    }

    fn from_canonical_type(canonical: &i32) -> i32 {
        *canonical
    }
}

impl FixedSizedPod for i64 {
    type CanonicalType = i64;

    ghost to_canonical = { λ value. value };

    ghost of_canonical = { λ value. value };

    fn as_canonical_type(&self) -> i64 {
        *self
    }

    fn from_canonical_type(canonical: &i64) -> i64 {
        *canonical
    }
}

impl FixedSizedPod for Float32 {
    type CanonicalType = Float32;

    ghost to_canonical = { λ value. value };

    ghost of_canonical = { λ value. value };

    fn as_canonical_type(&self) -> Float32 {
        *self
    }

    fn from_canonical_type(canonical: &Float32) -> Float32 {
        *canonical
    }
}

impl FixedSizedPod for Float64 {
    type CanonicalType = Float64;

    ghost to_canonical = { λ value. value };

    ghost of_canonical = { λ value. value };

    fn as_canonical_type(&self) -> Float64 {
        *self
    }

    fn from_canonical_type(canonical: &Float64) -> Float64 {
        *canonical
    }
}

impl FixedSizedPod for Rectangle {
    type CanonicalType = Rectangle;

    ghost to_canonical = { λ value. value };

    ghost of_canonical = { λ value. value };

    fn as_canonical_type(&self) -> Rectangle {
        *self
    }

    fn from_canonical_type(canonical: &Rectangle) -> Rectangle {
        *canonical
    }
}

impl FixedSizedPod for Fraction {
    type CanonicalType = Fraction;

    ghost to_canonical = { λ value. value };

    ghost of_canonical = { λ value. value };

    fn as_canonical_type(&self) -> Fraction {
        *self
    }

    fn from_canonical_type(canonical: &Fraction) -> Fraction {
        *canonical
    }
}

impl FixedSizedPod for Fd {
    type CanonicalType = Fd;

    ghost to_canonical = { λ value. value };

    ghost of_canonical = { λ value. value };

    fn as_canonical_type(&self) -> Fd {
        *self
    }

    fn from_canonical_type(canonical: &Fd) -> Fd {
        *canonical
    }
}
