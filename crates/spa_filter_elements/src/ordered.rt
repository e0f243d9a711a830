//! The order of the nine types over which there are choices, and the flags among them.
ghost use Rattle.std.specs.Prelude.{◌*◌, ◌≡◌, ◌≤◌, ◌<◌, ◌↔◌, IsTrue};
ghost use Rattle.spa_filter_elements.specs.Bounds.{IsChain, IsJoin, IsMeet, IsShared};
ghost use Rattle.spa_filter_elements.specs.Flags.{AreAmong, IsFlagKind};
ghost use Rattle.spa_filter_elements.specs.Order.{IsAtMost, IsNumber, place};
ghost use Rattle.spa_filter_elements.specs.Plain.{IsPlainKind};

use spa_fixed_sized::ChoiceElement;
use spa_utils::{Fd, Float32, Float64, Fraction, Id, Rectangle};

/// One of the nine types over which there are choices, with its order where it has one, and the bits of its elements where these may be flags.
pub trait Ordered: ChoiceElement {
    /// Whether this element is no greater than the other.
    fn is_at_most(&self, other: &Self) -> bool
        ensures { IsTrue result ↔ IsAtMost (Self.fixed self.now) (Self.fixed other.now) };

    /// Whether this element has at least one bit, and no bits but those of the other.
    fn are_among(&self, other: &Self) -> bool
        ensures { IsTrue result ↔ AreAmong (Self.fixed self.now) (Self.fixed other.now) };
}

/// One of the five types without flags and without steps that aren't rectangles. What is written once for them is no other type's.
pub trait Plain: Ordered {
    ghost plain: { IsPlainKind Self.kind };
}

/// The greater of two elements of a type other than rectangles.
pub(crate) fn greater_of<T: Ordered>(x: &T, y: &T) -> T
    requires { IsChain T.kind }
    ensures { IsJoin (T.fixed x.now) (T.fixed y.now) (T.fixed result) }
{
    if x.is_at_most(y) {
        return *y;
    }
    if y.is_at_most(y) {
        return *x;
    }
    *y
}

/// The lesser of two elements of a type other than rectangles.
pub(crate) fn lesser_of<T: Ordered>(x: &T, y: &T) -> T
    requires { IsChain T.kind }
    ensures { IsMeet (T.fixed x.now) (T.fixed y.now) (T.fixed result) }
{
    if x.is_at_most(y) {
        return *x;
    }
    if x.is_at_most(x) {
        return *y;
    }
    *x
}

/// The shared bits of two elements of a type whose elements are no flags: any element fits the contract.
pub(crate) fn shared_of_none<T: Ordered>(x: &T, y: &T) -> T
    requires { ¬ (IsFlagKind T.kind) }
    ensures { IsShared (T.fixed x.now) (T.fixed y.now) (T.fixed result) }
{
    let _y = *y;
    *x
}

/// The bit of a float's sign.
const FLOAT_SIGN: u64 = 0x8000_0000;

/// The bits of a positive infinity of 32 bits.
const FLOAT_INFINITY: u64 = 0x7f80_0000;

/// The bit of a double's sign.
const DOUBLE_SIGN: u64 = 0x8000_0000_0000_0000;

/// The bits of a positive infinity of 64 bits.
const DOUBLE_INFINITY: u64 = 0x7ff0_0000_0000_0000;

/// Whether these bits are those of a number.
fn is_number(bits: u64, sign: u64, infinity: u64) -> bool
    requires { 0 < sign }
    ensures { IsTrue result ↔ IsNumber sign infinity bits }
{
    bits % sign <= infinity
}

/// The position of a float with these bits in the order of all floats, as a number: both zeros are at that of the sign's bit.
fn place(bits: u64, sign: u64) -> u64
    requires room { sign ≤ DOUBLE_SIGN }
    requires within { bits < 2 * sign }
    ensures { result ≡ place sign bits }
{
    if bits < sign {
        sign + bits
    } else {
        sign - (bits - sign)
    }
}

impl Ordered for bool {
    fn is_at_most(&self, other: &Self) -> bool {
        let _other = *other;
        false
    }

    fn are_among(&self, other: &Self) -> bool {
        let _other = *other;
        false
    }
}

impl Ordered for Id {
    fn is_at_most(&self, other: &Self) -> bool {
        self.0 <= other.0
    }

    fn are_among(&self, other: &Self) -> bool {
        let bits = self.0;
        bits != 0 && bits & other.0 == bits
    }
}

impl Ordered for i32 {
    fn is_at_most(&self, other: &Self) -> bool {
        *self <= *other
    }

    fn are_among(&self, other: &Self) -> bool {
        let bits = self.cast_unsigned();
        bits != 0 && bits & other.cast_unsigned() == bits
    }
}

impl Ordered for i64 {
    fn is_at_most(&self, other: &Self) -> bool {
        *self <= *other
    }

    fn are_among(&self, other: &Self) -> bool {
        let bits = self.cast_unsigned();
        bits != 0 && bits & other.cast_unsigned() == bits
    }
}

impl Ordered for Float32 {
    fn is_at_most(&self, other: &Self) -> bool {
        is_number(u64::from(self.0), FLOAT_SIGN, FLOAT_INFINITY)
            && is_number(u64::from(other.0), FLOAT_SIGN, FLOAT_INFINITY)
            && place(u64::from(self.0), FLOAT_SIGN) <= place(u64::from(other.0), FLOAT_SIGN)
    }

    fn are_among(&self, other: &Self) -> bool {
        let _other = *other;
        false
    }
}

impl Ordered for Float64 {
    fn is_at_most(&self, other: &Self) -> bool {
        is_number(self.0, DOUBLE_SIGN, DOUBLE_INFINITY)
            && is_number(other.0, DOUBLE_SIGN, DOUBLE_INFINITY)
            && place(self.0, DOUBLE_SIGN) <= place(other.0, DOUBLE_SIGN)
    }

    fn are_among(&self, other: &Self) -> bool {
        let _other = *other;
        false
    }
}

impl Ordered for Rectangle {
    fn is_at_most(&self, other: &Self) -> bool {
        self.width <= other.width && self.height <= other.height
    }

    fn are_among(&self, other: &Self) -> bool {
        let _other = *other;
        false
    }
}

impl Ordered for Fraction {
    fn is_at_most(&self, other: &Self) -> bool {
        self.denom > 0
            && other.denom > 0
            && u64::from(self.num) * u64::from(other.denom)
                <= u64::from(other.num) * u64::from(self.denom)
    }

    fn are_among(&self, other: &Self) -> bool {
        let _other = *other;
        false
    }
}

impl Ordered for Fd {
    fn is_at_most(&self, other: &Self) -> bool {
        let _other = *other;
        false
    }

    fn are_among(&self, other: &Self) -> bool {
        let _other = *other;
        false
    }
}

impl Plain for bool {
    ghost plain = { (tt, λ h. h, λ h. h) };
}

impl Plain for Float32 {
    ghost plain = { (tt, λ h. h, λ h. h) };
}

impl Plain for Float64 {
    ghost plain = { (tt, λ h. h, λ h. h) };
}

impl Plain for Fraction {
    ghost plain = { (tt, λ h. h, λ h. h) };
}

impl Plain for Fd {
    ghost plain = { (tt, λ h. h, λ h. h) };
}
