//! Numbers and texts from outside, and each call once.
use crate::compare::{assert_holds, assert_same};
use bitflags::Flags;
use spa_utils::constants::ID_INVALID;
use spa_utils::{
    Choice, ChoiceEnum, ChoiceFlags, Direction, Errno, Fd, Float32, Float64, Fraction, Id,
    Rectangle, SpaTypes,
};
use std::alloc::{AllocError, Global};
use std::process::Abort;

/// Types, and their numbers.
const TYPES: &[(SpaTypes, u32)] = &[
    (SpaTypes::None, 1),
    (SpaTypes::Bool, 2),
    (SpaTypes::Id, 3),
    (SpaTypes::Int, 4),
    (SpaTypes::Long, 5),
    (SpaTypes::Float, 6),
    (SpaTypes::Double, 7),
    (SpaTypes::String, 8),
    (SpaTypes::Bytes, 9),
    (SpaTypes::Rectangle, 10),
    (SpaTypes::Fraction, 11),
    (SpaTypes::Bitmap, 12),
    (SpaTypes::Array, 13),
    (SpaTypes::Struct, 14),
    (SpaTypes::Object, 15),
    (SpaTypes::Sequence, 16),
    (SpaTypes::Pointer, 17),
    (SpaTypes::Fd, 18),
    (SpaTypes::Choice, 19),
    (SpaTypes::Pod, 20),
];

/// Those rows. This function alone names them: one that does is proved with all of them.
fn types() -> &'static [(SpaTypes, u32)] {
    TYPES
}

fn assert_type(rt: &impl Abort, type_: SpaTypes, number: u32) {
    assert_same(rt, &type_.as_raw(), &number, "a type");
    assert_same(rt, &SpaTypes::from_raw(number), &type_, "a type's number");
}

#[test]
fn types_have_their_numbers(rt: HostRuntime) {
    for (type_, number) in types() {
        assert_type(&rt, *type_, *number);
    }
}

/// Errors, their numbers, and what they print.
const ERRORS: &[(Errno, u32, &str)] = &[
    (Errno::NOMEM, 12, "12"),
    (Errno::INVAL, 22, "22"),
    (Errno::NOSPC, 28, "28"),
    (Errno::PIPE, 32, "32"),
    (Errno::PROTO, 71, "71"),
];

/// Those rows. This function alone names them: one that does is proved with all of them.
fn errors() -> &'static [(Errno, u32, &'static str)] {
    ERRORS
}

fn assert_error(rt: &impl Abort, alloc: Global, row: (Errno, u32, &str)) -> Result<(), AllocError> {
    let (error, number, text) = row;
    assert_same(rt, &error.raw_os_error(), &number, text);
    assert_same(rt, &Errno::from_raw(number), &error, text);
    let printed = format!(in alloc; "{error}")?;
    assert_same(rt, &printed.as_str(), &text, text);
    Ok(())
}

#[test]
fn errors_have_their_numbers(rt: HostRuntime) -> Result<(), AllocError> {
    for row in errors() {
        assert_error(&rt, rt.alloc(), *row)?;
    }
    Ok(())
}

/// The numbers of directions, the numbers of the reversed ones, and what the first print.
const DIRECTIONS: &[(u32, u32, &str)] = &[
    (0, 1, "Direction::Input"),
    (1, 0, "Direction::Output"),
    (7, 7, "Direction::Unknown"),
    (2, 2, "Direction::Unknown"),
];

/// Those rows. This function alone names them: one that does is proved with all of them.
fn directions() -> &'static [(u32, u32, &'static str)] {
    DIRECTIONS
}

fn assert_direction(
    rt: &impl Abort,
    alloc: Global,
    row: (u32, u32, &str),
) -> Result<(), AllocError> {
    let (number, reversed, text) = row;
    let direction = Direction::from_raw(number);
    assert_same(rt, &direction.as_raw(), &number, text);
    assert_same(rt, &direction.reverse().as_raw(), &reversed, text);
    let printed = format!(in alloc; "{direction:?}")?;
    assert_same(rt, &printed.as_str(), &text, text);
    Ok(())
}

#[test]
fn directions_turn_and_print(rt: HostRuntime) -> Result<(), AllocError> {
    assert_same(&rt, &Direction::Input.as_raw(), &0, "the input");
    assert_same(&rt, &Direction::Output.as_raw(), &1, "the output");
    for row in directions() {
        assert_direction(&rt, rt.alloc(), *row)?;
    }
    Ok(())
}

/// Bits of flags: none, the named one, another, the highest, and all.
const BITS: &[u32] = &[0, 1, 2, 0x8000_0000, 0xffff_ffff];

fn assert_bits(rt: &impl Abort, bits: u32) {
    let flags = ChoiceFlags::from_bits_retain(bits);
    let has_first = flags.contains(ChoiceFlags::_FAKE);
    assert_same(rt, &flags.bits(), &bits, "flags");
    assert_same(rt, &has_first, &(bits % 2 == 1), "flags");
    let united = flags.union(ChoiceFlags::_FAKE);
    assert_same(rt, &united.bits(), &(bits | 1), "flags");
}

#[test]
fn choice_flags_keep_all_bits(rt: HostRuntime) {
    for bits in BITS {
        assert_bits(&rt, *bits);
    }
    assert_same(&rt, &ChoiceFlags::empty().bits(), &0, "no flags");
}

#[test]
fn plain_types_are_their_fields(rt: HostRuntime) {
    assert_same(&rt, &ID_INVALID, &4294967295, "no id");
    assert_same(&rt, &Id(7).as_raw(), &7, "an id");
    assert_holds(&rt, Id(7) != Id(8) && Fd(-1) != Fd(1), "numbers differ");
    assert_holds(&rt, Float32(0) != Float32(0x8000_0000), "0 and -0 differ");
    assert_holds(
        &rt,
        Float32(0x7fc0_0000) == Float32(0x7fc0_0000),
        "a float that is no number equals itself",
    );
    assert_holds(
        &rt,
        Float64(0) != Float64(0x8000_0000_0000_0000),
        "0 and -0 differ",
    );
    let wide = Rectangle {
        width: 31,
        height: 14,
    };
    let high = Rectangle {
        width: 14,
        height: 31,
    };
    assert_holds(&rt, wide != high, "sides differ");
    assert_holds(
        &rt,
        Fraction { num: 1, denom: 2 } != Fraction { num: 2, denom: 4 },
        "halves differ",
    );
}

/// A choice of each shape.
fn five_choices(alloc: Global) -> Result<[ChoiceEnum<i32>; 5], AllocError> {
    let default = 5;
    let alternatives = [2, 10].to_vec(alloc)?;
    let flags = [2, 10].to_vec(alloc)?;
    let (min, max) = (2, 10);
    let step = 1;
    Ok([
        ChoiceEnum::None(default),
        ChoiceEnum::Range { default, min, max },
        ChoiceEnum::Step {
            default,
            min,
            max,
            step,
        },
        ChoiceEnum::Enum {
            default,
            alternatives,
        },
        ChoiceEnum::Flags { default, flags },
    ])
}

/// Whether a copy is like its source.
fn is_like_its_copy<T: Clone + PartialEq>(source: &T) -> Result<bool, AllocError> {
    let copy = source.clone()?;
    Ok(*source == copy)
}

/// A choice is like its copy, and of these only like the one at this place.
fn assert_choice(
    rt: &impl Abort,
    choice: &ChoiceEnum<i32>,
    choices: &[ChoiceEnum<i32>],
    place: usize,
) -> Result<(), AllocError> {
    let is_like = is_like_its_copy(choice)?;
    assert_holds(rt, is_like, "a copy is like its source");
    for (other_place, other) in choices.iter().enumerate() {
        let is_same = *choice == *other;
        assert_same(rt, &is_same, &(other_place == place), "two choices");
    }
    Ok(())
}

#[test]
fn choices_are_copied_and_compared(rt: HostRuntime) -> Result<(), AllocError> {
    let choices = five_choices(rt.alloc())?;
    for (place, choice) in choices.iter().enumerate() {
        assert_choice(&rt, choice, choices.as_slice(), place)?;
    }
    Ok(())
}

/// A choice of this one value, with these flags.
fn one(flags: ChoiceFlags, value: i32) -> Choice<i32> {
    Choice(flags, ChoiceEnum::None(value))
}

#[test]
fn flags_of_choices_are_copied_and_compared(rt: HostRuntime) -> Result<(), AllocError> {
    let choice = one(ChoiceFlags::_FAKE, 5);
    let is_like = is_like_its_copy(&choice)?;
    assert_holds(&rt, is_like, "a copy has its flags");
    let flags_differ = choice != one(ChoiceFlags::empty(), 5);
    assert_holds(&rt, flags_differ, "flags differ");
    let values_differ = choice != one(ChoiceFlags::_FAKE, 6);
    assert_holds(&rt, values_differ, "values differ");
    Ok(())
}
