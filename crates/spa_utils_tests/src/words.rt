//! The words of each error. A table is named by one function alone: one that names it is proved with all of its rows.
use crate::printed::{assert_prints, assert_words};
use spa_device::ReadError;
use spa_filter::{FilterError, Side};
use spa_fixed_sized::{DeserializeError, Fault, FaultKind};
use spa_negotiate::NegotiateError;
use spa_sink::GenError;
use spa_text_read::Cause;
use spa_utils::Errno;
use std::test::Fail;

/// Refusals of readers.
const READS: &[(DeserializeError<u8>, &str)] = &[
    (
        DeserializeError::UnsupportedType,
        "the visitor takes no such value",
    ),
    (
        DeserializeError::InvalidType,
        "there is no such type, or none of which elements and values can be",
    ),
    (DeserializeError::PropertyMissing, "a property is missing"),
    (
        DeserializeError::PropertyWrongKey(65539),
        "the next property has key 65539, and not the one asked for",
    ),
    (
        DeserializeError::InvalidChoiceType,
        "a choice has no such shape",
    ),
    (
        DeserializeError::MissingChoiceValues,
        "a choice has fewer values than its shape takes",
    ),
    (
        DeserializeError::WrongSize,
        "a body or the size of elements isn't as long as its type's",
    ),
    (DeserializeError::UnreadMembers, "members are left unread"),
    (
        DeserializeError::NoElementLeft,
        "the array has no further element",
    ),
    (
        DeserializeError::FailedReader,
        "the reader was refused before",
    ),
    (DeserializeError::OutOfMemory, "out of memory"),
];

fn reads() -> &'static [(DeserializeError<u8>, &'static str)] {
    READS
}

/// Faults of bytes.
const FAULTS: &[(FaultKind, &str)] = &[
    (FaultKind::Short, "the bytes are cut short"),
    (
        FaultKind::Tag,
        "the pod is of another type than the one asked for",
    ),
    (
        FaultKind::Text,
        "a string isn't UTF-8 with one NUL, at its end",
    ),
];

fn faults() -> &'static [(FaultKind, &'static str)] {
    FAULTS
}

/// Refusals of filters.
const FILTERS: &[(FilterError, &str)] = &[
    (FilterError::TypeMismatch, "the objects are of two types"),
    (
        FilterError::Missing(3),
        "key 3 is mandatory in one object, and the other lacks it",
    ),
    (
        FilterError::Unsupported(4),
        "no value is looked for in the choices for key 4",
    ),
    (FilterError::Disjoint(5), "no value for key 5 is in both"),
    (
        FilterError::Unread(Side::Second),
        "the second object isn't a pod",
    ),
    (
        FilterError::NotObject(Side::First),
        "the first pod isn't an object",
    ),
    (
        FilterError::TooLarge,
        "the object on which they agree is too large",
    ),
    (FilterError::OutOfMemory, "out of memory"),
];

fn filters() -> &'static [(FilterError, &'static str)] {
    FILTERS
}

/// Refusals of negotiation.
const MEETINGS: &[(NegotiateError, &str)] = &[
    (NegotiateError::TypeMismatch, "the objects are of two types"),
    (
        NegotiateError::Unsupported(4),
        "no value is looked for in the choices for key 4",
    ),
    (NegotiateError::Disjoint(5), "no value for key 5 is in both"),
    (
        NegotiateError::Unread(Side::First),
        "the first object isn't a pod",
    ),
    (
        NegotiateError::NotObject(Side::Second),
        "the second pod isn't an object",
    ),
    (
        NegotiateError::TooLarge,
        "the object on which they agree is too large",
    ),
    (NegotiateError::OutOfMemory, "out of memory"),
];

fn meetings() -> &'static [(NegotiateError, &'static str)] {
    MEETINGS
}

/// Causes for which texts aren't read, their names and their words.
const CAUSES: &[(Cause, &str, &str)] = &[
    (Cause::OutOfMemory, "OutOfMemory", "out of memory"),
    (
        Cause::Token,
        "Token",
        "another token is looked for, or the text isn't JSON",
    ),
    (Cause::Name, "Name", "a key or a name is unknown there"),
    (
        Cause::Number,
        "Number",
        "a number is malformed or doesn't fit its type",
    ),
    (
        Cause::Type,
        "Type",
        "an array or a choice can't have a value of this type",
    ),
    (
        Cause::Count,
        "Count",
        "a choice has more or fewer values than its shape takes",
    ),
    (Cause::End, "End", "something follows the value"),
];

fn causes() -> &'static [(Cause, &'static str, &'static str)] {
    CAUSES
}

#[test]
fn refusals_of_readers_have_words(rt: HostRuntime) -> Result<(), Fail> {
    for (error, words) in reads() {
        assert_words(&rt, rt.alloc(), error, words)?;
    }
    Ok(())
}

#[test]
fn faults_have_words(rt: HostRuntime) -> Result<(), Fail> {
    for (kind, words) in faults() {
        let fault = Fault {
            input: 0u8,
            kind: *kind,
        };
        assert_words(&rt, rt.alloc(), &fault, words)?;
        assert_words(&rt, rt.alloc(), &DeserializeError::from(fault), words)?;
    }
    Ok(())
}

#[test]
fn refusals_of_two_objects_have_words(rt: HostRuntime) -> Result<(), Fail> {
    for (error, words) in filters() {
        assert_words(&rt, rt.alloc(), error, words)?;
    }
    for (error, words) in meetings() {
        assert_words(&rt, rt.alloc(), error, words)?;
    }
    Ok(())
}

#[test]
fn causes_have_names_and_words(rt: HostRuntime) -> Result<(), Fail> {
    for (cause, name, words) in causes() {
        assert_prints(&rt, rt.alloc(), &cause.kind(), name)?;
        assert_prints(&rt, rt.alloc(), cause, words)?;
    }
    Ok(())
}

#[test]
fn other_errors_have_words(rt: HostRuntime) -> Result<(), Fail> {
    assert_words(&rt, rt.alloc(), &GenError::NulInText, "NulInText")?;
    assert_words(&rt, rt.alloc(), &Errno::NOSPC, "28")?;
    assert_words(&rt, rt.alloc(), &ReadError::OutOfMemory, "out of memory")?;
    assert_words(&rt, rt.alloc(), &ReadError::Failed, "read failed")
}
