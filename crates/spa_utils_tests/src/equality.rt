//! What a caller knows of `==` and `clone`: the contract of each function says it, for all values.
ghost use Rattle.std.specs.Prelude.{◌≡◌, ◌↔◌, ◌==◌, ◌&&◌, IfOk, IsTrue};
ghost use Rattle.std.specs.Cmp.Lexicographic.{pointwise};
ghost use Rattle.spa_dict.specs.Left.{pairs_left};
ghost use Rattle.spa_utils.specs.Copies.{IsChoiceCopyOf};
ghost use Rattle.spa_utils.specs.Equality.{shape_of, values_of};

use spa_dict::{CIter, Flags, ParseValueError};
use spa_result::{AsyncSeq, Error, SpaResult, SpaSuccess};
use spa_utils::{
    Choice, ChoiceEnum, ChoiceFlags, Direction, Errno, Fd, Float32, Float64, Fraction, Frame, Id,
    Rectangle, SpaTypes,
};
use std::alloc::AllocError;

fn same_id(a: Id, b: Id) -> bool
    ensures { IsTrue result ↔ a ≡ b }
{
    a == b
}

fn same_fd(a: Fd, b: Fd) -> bool
    ensures { IsTrue result ↔ a.0 ≡ b.0 }
{
    a == b
}

fn same_float(a: Float32, b: Float32) -> bool
    ensures { IsTrue result ↔ a.0 ≡ b.0 }
{
    a == b
}

fn same_double(a: Float64, b: Float64) -> bool
    ensures { IsTrue result ↔ a.0 ≡ b.0 }
{
    a == b
}

fn same_rectangle(a: Rectangle, b: Rectangle) -> bool
    ensures { IsTrue result ↔ (a.width ≡ b.width) × (a.height ≡ b.height) }
{
    a == b
}

fn same_fraction(a: Fraction, b: Fraction) -> bool
    ensures { IsTrue result ↔ (a.num ≡ b.num) × (a.denom ≡ b.denom) }
{
    a == b
}

fn same_frame(a: Frame, b: Frame) -> bool
    ensures { IsTrue result ↔ a.0 ≡ b.0 }
{
    a == b
}

fn same_type(a: SpaTypes, b: SpaTypes) -> bool
    ensures { IsTrue result ↔ a.0 ≡ b.0 }
{
    a == b
}

fn same_direction(a: Direction, b: Direction) -> bool
    ensures { IsTrue result ↔ a.0 ≡ b.0 }
{
    a == b
}

fn same_errno(a: Errno, b: Errno) -> bool
    ensures { IsTrue result ↔ a.0 ≡ b.0 }
{
    a == b
}

fn same_choice_flags(a: ChoiceFlags, b: ChoiceFlags) -> bool
    ensures { IsTrue result ↔ a.0 ≡ b.0 }
{
    a == b
}

fn same_choice<T: PartialEq>(a: &ChoiceEnum<T>, b: &ChoiceEnum<T>) -> bool
    ensures { result ≡ ((shape_of a.now == shape_of b.now) && pointwise T.eq (values_of a.now) (values_of b.now)) }
{
    a == b
}

fn same_whole_choice<T: PartialEq>(a: &Choice<T>, b: &Choice<T>) -> bool
    ensures { result ≡ ((a.now.0.0 == b.now.0.0) &&
        ((shape_of a.now.1 == shape_of b.now.1) && pointwise T.eq (values_of a.now.1) (values_of b.now.1))) }
{
    a == b
}

fn copied<T: Copy>(a: &Choice<T>) -> Result<Choice<T>, AllocError>
    ensures { IfOk result (λ b. IsChoiceCopyOf a.now b) }
{
    a.clone()
}

fn same_flags(a: Flags, b: Flags) -> bool
    ensures { IsTrue result ↔ a.0 ≡ b.0 }
{
    a == b
}

fn same_refusal(a: &ParseValueError, b: &ParseValueError) -> bool
    ensures { IsTrue result ↔ (a.now.text.now ≡ b.now.text.now) × (a.now.type_name.now ≡ b.now.type_name.now) }
{
    a == b
}

fn iter_copied<'a>(a: &CIter<'a>) -> Result<CIter<'a>, AllocError>
    ensures { IfOk result (λ b. pairs_left b ≡ pairs_left a.now) }
{
    a.clone()
}

fn same_seq(a: AsyncSeq, b: AsyncSeq) -> bool
    ensures { IsTrue result ↔ a.0 ≡ b.0 }
{
    a == b
}

fn same_error(a: &Error, b: &Error) -> bool
    ensures { IsTrue result ↔ a.now.0.0 ≡ b.now.0.0 }
{
    a == b
}

fn same_result(a: &SpaResult, b: &SpaResult) -> bool
    ensures { IsTrue result ↔ a.now.0 ≡ b.now.0 }
{
    a == b
}

fn same_success(a: &SpaSuccess, b: &SpaSuccess) -> bool
    ensures { IsTrue result ↔ a.now ≡ b.now }
{
    a == b
}
