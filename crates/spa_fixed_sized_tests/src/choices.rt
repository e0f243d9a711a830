//! Bodies of choices, read and written, with bytes from outside.
use crate::compare::{assert_holds_at, assert_same_at, assert_words, cut_bytes, refusal_of};
use bitflags::Flags;
use spa_bytes::u32_at;
use spa_fixed_sized::{ChoiceElement, Refusal, count_taken, put_choice, read_choice};
use spa_sink::GenError;
use spa_utils::{Choice, ChoiceEnum, ChoiceFlags, Id};
use std::alloc::{AllocError, Global};
use std::process::Abort;
use std::test::Fail;

/// The length in bytes of what stands before the values in a choice's body.
const HEAD_LEN: usize = 16;

/// A choice's body, which is the first bytes of these words, read as one over this type.
fn choice_of<T: ChoiceElement>(
    alloc: Global,
    words: &[u32],
    size: usize,
) -> Result<Choice<T>, Refusal> {
    let body = cut_bytes(alloc, words, size)?;
    let body = body.as_slice();
    if body.len() < HEAD_LEN {
        return Err(Refusal::Short);
    }
    if u32_at(body, 12) != T::TYPE {
        return Err(Refusal::InvalidType);
    }
    read_choice::<T>(alloc, body)
}

/// The pod of a choice.
fn choice_encoding<T: ChoiceElement>(
    alloc: Global,
    choice: &Choice<T>,
) -> Result<Vec<u8>, GenError> {
    let mut out = Vec::new(alloc);
    put_choice(&mut out, choice)?;
    Ok(out)
}

/// A choice with these flags.
fn choice<T>(flags: u32, values: ChoiceEnum<T>) -> Choice<T> {
    Choice(ChoiceFlags::from_bits_retain(flags), values)
}

/// The words of a choice's body, and of the pod that it is written as.
type Row = (&'static [u32], &'static [u32]);

/// The choice is read from this body, and written as this pod.
fn is_choice<T: ChoiceElement + PartialEq>(
    rt: &impl Abort,
    alloc: Global,
    row: Row,
    wanted: &Choice<T>,
) -> Result<(), Fail> {
    let (body, pod) = row;
    let found = choice_of::<T>(alloc, body, 4 * body.len())?;
    assert_holds_at(rt, found == *wanted, body);
    let encoding = choice_encoding(alloc, &found)?;
    assert_words(rt, alloc, encoding.as_slice(), pod)
}

#[test]
fn ranges(rt: HostRuntime) -> Result<(), Fail> {
    let range = ChoiceEnum::Range {
        default: 5,
        min: 2,
        max: 10,
    };
    let row: Row = (
        &[1, 0, 4, 4, 5, 2, 10, 9],
        &[28, 19, 1, 0, 4, 4, 5, 2, 10, 0],
    );
    is_choice(&rt, rt.alloc(), row, &choice(0, range))
}

#[test]
fn steps(rt: HostRuntime) -> Result<(), Fail> {
    let step = ChoiceEnum::Step {
        default: Id(5),
        min: Id(2),
        max: Id(10),
        step: Id(3),
    };
    let row: Row = (
        &[2, 6, 4, 3, 5, 2, 10, 3],
        &[32, 19, 2, 6, 4, 3, 5, 2, 10, 3],
    );
    is_choice(&rt, rt.alloc(), row, &choice(6, step))
}

#[test]
fn choices_of_one_value(rt: HostRuntime) -> Result<(), Fail> {
    let one = choice(0, ChoiceEnum::None(7));
    let row: Row = (&[0, 5, 4, 4, 7, 9, 11], &[20, 19, 0, 0, 4, 4, 7, 0]);
    is_choice(&rt, rt.alloc(), row, &one)
}

/// The pod of a choice of one value with flags.
fn flagged_encoding(alloc: Global) -> Result<Vec<u8>, GenError> {
    choice_encoding(alloc, &choice(5, ChoiceEnum::None(7)))
}

#[test]
fn flags_of_one_value_are_written(rt: HostRuntime) -> Result<(), Fail> {
    let pod = flagged_encoding(rt.alloc())?;
    assert_words(&rt, rt.alloc(), pod.as_slice(), &[20, 19, 0, 5, 4, 4, 7, 0])
}

/// Flags over Id.
fn id_flags(alloc: Global) -> Result<Choice<Id>, AllocError> {
    let default = Id(1);
    let flags = [Id(2)].to_vec(alloc)?;
    Ok(choice(1, ChoiceEnum::Flags { default, flags }))
}

/// An enumeration over Bool.
fn bool_enumeration(alloc: Global) -> Result<Choice<bool>, AllocError> {
    let default = true;
    let alternatives = [false].to_vec(alloc)?;
    let values = ChoiceEnum::Enum {
        default,
        alternatives,
    };
    Ok(choice(0, values))
}

#[test]
fn flags_with_a_list(rt: HostRuntime) -> Result<(), Fail> {
    let flags = id_flags(rt.alloc())?;
    let row: Row = (&[4, 1, 4, 3, 1, 2], &[24, 19, 4, 1, 4, 3, 1, 2]);
    is_choice(&rt, rt.alloc(), row, &flags)
}

#[test]
fn alternatives_with_a_list(rt: HostRuntime) -> Result<(), Fail> {
    let enumeration = bool_enumeration(rt.alloc())?;
    let row: Row = (&[3, 0, 4, 2, 7, 0], &[24, 19, 3, 0, 4, 2, 1, 0]);
    is_choice(&rt, rt.alloc(), row, &enumeration)
}

/// Compares why the first bytes of these words are no choice over Int with what is wanted.
fn assert_no_choice(
    rt: &impl Abort,
    alloc: Global,
    row: (&[u32], usize, Refusal),
) -> Result<(), Fail> {
    let (words, size, wanted) = row;
    let found = refusal_of(choice_of::<i32>(alloc, words, size))?;
    assert_same_at(rt, &found, &Some(wanted), words);
    Ok(())
}

/// Words, how many of their bytes are a body, and why that is no choice over Int.
const NO_CHOICES: &[(&[u32], usize, Refusal)] = &[
    (&[5, 0, 4, 4, 7, 0], 24, Refusal::InvalidChoiceType),
    (&[0, 0, 8, 4, 7, 0], 24, Refusal::WrongSize),
    (&[1, 0, 4, 4, 5, 2], 24, Refusal::MissingChoiceValues),
    (&[2, 0, 4, 4, 5, 2, 10], 28, Refusal::MissingChoiceValues),
    (&[0, 0, 4, 4], 16, Refusal::MissingChoiceValues),
    (&[3, 0, 4, 4], 16, Refusal::MissingChoiceValues),
    (&[4, 0, 4, 4], 16, Refusal::MissingChoiceValues),
    (&[0, 0, 4, 4, 7], 18, Refusal::WrongSize),
];

/// Those rows. This function alone names them: one that does is proved with all of them.
fn no_choices() -> &'static [(&'static [u32], usize, Refusal)] {
    NO_CHOICES
}

#[test]
fn choices_are_refused(rt: HostRuntime) -> Result<(), Fail> {
    for row in no_choices() {
        assert_no_choice(&rt, rt.alloc(), *row)?;
    }
    Ok(())
}

/// Shape words, and how many values a choice of that shape takes; `None`: all.
const COUNTS: &[(u32, Option<usize>)] = &[
    (0, Some(1)),
    (1, Some(3)),
    (2, Some(4)),
    (3, None),
    (4, None),
    (5, None),
];

/// Those rows. This function alone names them: one that does is proved with all of them.
fn counts() -> &'static [(u32, Option<usize>)] {
    COUNTS
}

#[test]
fn counts_of_values(rt: HostRuntime) {
    for (shape, wanted) in counts() {
        assert_same_at(&rt, &count_taken(*shape), wanted, &[*shape]);
    }
}
