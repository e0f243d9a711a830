//! What each typed read answers, by the name of its type: built-in types, a program's own ones, and calls with visitors. A table is a text
//! with a row a line, so that it is data: a name, the words of an input, and what the read answers. What is read is written again, if its type
//! is written at all, and the answer has the words of that where they aren't those that were read.
use crate::compare::{assert_holds, assert_said, put};
use crate::latency::{LATENCIES, latency_said};
use crate::offers::PROFILES;
use crate::reading::built::BUILT;
use crate::reading::elements::{Early, First, Levels, marks_said, steps_said};
use crate::reading::objects::{Asking, device_said};
use crate::reading::settled::{SETTLED, settled_said, stream_said};
use crate::reading::structs::{Idle, Stubborn};
use crate::reading::visitors::{CHOICE, OBJECT, STRUCT, answered, called};
use crate::reads::{DECLARED, UNCUT, louder_said, mode_said};
use example_types::{
    AudioFormat, Capture, Curve, Device, Gain, Level, Media, Mode, Pair, Profile, Screen, Song,
    Tagged,
};
use libspa::pod::serialize::{GenError, PodSerialize};
use spa_fixed_sized::DeserializeError;
use spa_typed_read::{ArrayElement, PodDeserialize, PodDeserializer, StructOf};
use spa_typed_write::ArrayElement as WrittenElement;
use spa_utils::{Choice, Fd, Float32, Float64, Fraction, Id, Rectangle};
use spa_value::{Bitmap, Value};
use spa_visitors::Handed;
use std::alloc::{AllocError, Global};
use std::fmt::Debug;
use std::process::Abort;
use std::test::Fail;
use test_bytes::{bytes_spelled, push_spelling};

/// Behind a text, what was written, where the input doesn't begin with that up to the last `left` bytes.
fn with_written(
    mut text: String,
    written: Result<Vec<u8>, GenError>,
    input: &[u8],
    left: usize,
) -> Result<String, AllocError> {
    let (front, _) = input.split_at(input.len().saturating_sub(left));
    match written {
        Ok(bytes) => {
            if bytes.as_slice() != front {
                text.push_str(", written")?;
                push_spelling(&mut text, bytes.as_slice())?;
            }
        }
        Err(GenError::OutOfMemory) => return Err(AllocError),
        Err(_) => text.push_str(", not written")?,
    }
    Ok(text)
}

/// What a read by a type answers: the text of its value, and what that is written as; or the refusal's name.
fn answer<'de, P: PodDeserialize<'de> + PodSerialize + Debug>(
    alloc: Global,
    input: &'de [u8],
) -> Result<String, AllocError> {
    match PodDeserializer::deserialize_from::<P>(alloc, input) {
        Ok((rest, value)) => {
            let text = format!(in alloc; "{value:?}")?;
            with_written(text, put(Vec::new(alloc), &value), input, rest.len())
        }
        Err(error) => refused(alloc, error),
    }
}

/// The answer of a read of a list, which is written again as a slice.
fn list_answer<'de, T: ArrayElement + WrittenElement + Debug>(
    alloc: Global,
    input: &'de [u8],
) -> Result<String, AllocError> {
    match PodDeserializer::deserialize_from::<Vec<T>>(alloc, input) {
        Ok((rest, list)) => {
            let text = format!(in alloc; "{list:?}")?;
            let written = put(Vec::new(alloc), &list.as_slice());
            with_written(text, written, input, rest.len())
        }
        Err(error) => refused(alloc, error),
    }
}

/// The answer of a read of a type of fixed size that has bytes, of a list of it, or of a choice over it; or of a call with one of their visitors.
fn kind_answer<'de, T, C>(alloc: Global, form: Form, input: &'de [u8]) -> Result<String, AllocError>
where
    T: PodDeserialize<'de> + ArrayElement + WrittenElement + Handed + Debug,
    C: PodDeserialize<'de> + PodSerialize + Handed + Debug,
{
    match form {
        Form::One => answer::<T>(alloc, input),
        Form::List => list_answer::<T>(alloc, input),
        Form::Choice => answer::<C>(alloc, input),
        Form::ChoiceBy => answered::<C, CHOICE>(alloc, input),
        Form::StructBy => answered::<T, STRUCT>(alloc, input),
        Form::StructByChoice => answered::<C, STRUCT>(alloc, input),
        Form::ObjectBy => answered::<T, OBJECT>(alloc, input),
        Form::ObjectByChoice => answered::<C, OBJECT>(alloc, input),
    }
}

/// What a read by a type that isn't shown answers: how many bytes follow, and what the value is written as; or the refusal's name.
fn again<'de, P: PodDeserialize<'de> + PodSerialize>(
    alloc: Global,
    input: &'de [u8],
) -> Result<String, AllocError> {
    match PodDeserializer::deserialize_from::<P>(alloc, input) {
        Ok((rest, value)) => {
            let text = format!(in alloc; "{} left", rest.len())?;
            with_written(text, put(Vec::new(alloc), &value), input, rest.len())
        }
        Err(error) => refused(alloc, error),
    }
}

/// What a read of a profile answers: its number and the id of whether it can be used, and what it is written as; or the refusal's name.
fn profile_said(alloc: Global, input: &[u8]) -> Result<String, AllocError> {
    match PodDeserializer::deserialize_from::<Profile>(alloc, input) {
        Ok((rest, it)) => {
            let text = match it.available {
                Some(available) => format!(in alloc; "{} {}", it.index, available.id().0)?,
                None => format!(in alloc; "{}", it.index)?,
            };
            with_written(text, put(Vec::new(alloc), &it), input, rest.len())
        }
        Err(error) => refused(alloc, error),
    }
}

/// What a read by a type that isn't written answers: the text of its value, or the refusal's name.
fn shown<'de, P: PodDeserialize<'de> + Debug>(
    alloc: Global,
    input: &'de [u8],
) -> Result<String, AllocError> {
    match PodDeserializer::deserialize_from::<P>(alloc, input) {
        Ok((_, value)) => format!(in alloc; "{value:?}"),
        Err(error) => refused(alloc, error),
    }
}

/// What a read by a type that shows nothing answers: `accepted`, or the refusal's name.
fn verdict<'de, P: PodDeserialize<'de>>(
    alloc: Global,
    input: &'de [u8],
) -> Result<String, AllocError> {
    match PodDeserializer::deserialize_from::<P>(alloc, input) {
        Ok(_) => String::from_str(alloc, "accepted"),
        Err(error) => refused(alloc, error),
    }
}

/// The name of a refusal, or the key that is another one.
pub(crate) fn refused(alloc: Global, error: DeserializeError<&[u8]>) -> Result<String, AllocError> {
    match error {
        DeserializeError::OutOfMemory => Err(AllocError),
        DeserializeError::PropertyWrongKey(key) => format!(in alloc; "not {key}"),
        error => String::from_str(alloc, error.kind()),
    }
}

/// What is read of a type of fixed size: a pod, an array or a choice, or what its visitor or that of a choice makes of a choice, a struct or an
/// object.
#[derive(Clone, Copy)]
enum Form {
    One,
    List,
    Choice,
    ChoiceBy,
    StructBy,
    StructByChoice,
    ObjectBy,
    ObjectByChoice,
}

/// How names of these begin.
const FORMS: &[(&str, Form)] = &[
    ("array of ", Form::List),
    ("choice of ", Form::Choice),
    ("choice by ", Form::ChoiceBy),
    ("struct by choice of ", Form::StructByChoice),
    ("struct by ", Form::StructBy),
    ("object by choice of ", Form::ObjectByChoice),
    ("object by ", Form::ObjectBy),
];

/// What a name asks to be read, and of which type.
fn form_of(name: &str) -> (Form, &str) {
    for (beginning, form) in FORMS {
        if let Some(kind) = name.strip_prefix(beginning) {
            return (*form, kind);
        }
    }
    (Form::One, name)
}

/// A read by one type, by its name.
pub(crate) fn named(alloc: Global, name: &str, input: &[u8]) -> Result<String, AllocError> {
    let (form, kind) = form_of(name);
    match kind {
        "bool" => kind_answer::<bool, Choice<bool>>(alloc, form, input),
        "id" => kind_answer::<Id, Choice<Id>>(alloc, form, input),
        "int" => kind_answer::<i32, Choice<i32>>(alloc, form, input),
        "long" => kind_answer::<i64, Choice<i64>>(alloc, form, input),
        "float" => kind_answer::<Float32, Choice<Float32>>(alloc, form, input),
        "double" => kind_answer::<Float64, Choice<Float64>>(alloc, form, input),
        "rectangle" => kind_answer::<Rectangle, Choice<Rectangle>>(alloc, form, input),
        "fraction" => kind_answer::<Fraction, Choice<Fraction>>(alloc, form, input),
        "fd" => kind_answer::<Fd, Choice<Fd>>(alloc, form, input),
        _ => other(alloc, name, input),
    }
}

/// A read by another built-in type.
fn other(alloc: Global, name: &str, input: &[u8]) -> Result<String, AllocError> {
    match name {
        "none" => answer::<()>(alloc, input),
        "array of none" => list_answer::<()>(alloc, input),
        "struct by none" => answered::<(), STRUCT>(alloc, input),
        "str" => answer::<&str>(alloc, input),
        "string" => answer::<String>(alloc, input),
        "slice" => answer::<&[u8]>(alloc, input),
        "vec" => answer::<Vec<u8>>(alloc, input),
        "bitmap" => answer::<Bitmap>(alloc, input),
        "pointer" => answer::<(u32, u64)>(alloc, input),
        "value" => answer::<Value>(alloc, input),
        _ => declared(alloc, name, input),
    }
}

/// A read by a type of `example_types`.
fn declared(alloc: Global, name: &str, input: &[u8]) -> Result<String, AllocError> {
    match name {
        "mode" => again::<Mode>(alloc, input),
        "song" => again::<Song>(alloc, input),
        "tagged" => again::<Tagged>(alloc, input),
        "named device" => again::<Device>(alloc, input),
        "mode on a screen" => again::<Screen<Mode>>(alloc, input),
        "level" => again::<Level>(alloc, input),
        "curve" => again::<Curve>(alloc, input),
        "format" => again::<AudioFormat>(alloc, input),
        "latency" => latency_said(alloc, input),
        "capture" => shown::<Capture>(alloc, input),
        "gain" => answer::<Gain>(alloc, input),
        "media" => shown::<Media>(alloc, input),
        "pair" => again::<Pair>(alloc, input),
        "mode sent" => mode_said(alloc, input),
        "louder" => louder_said(alloc, input),
        "profile" => profile_said(alloc, input),
        _ => own(alloc, name, input),
    }
}

/// A read by a type of these tests, or a call, which has a number.
fn own(alloc: Global, name: &str, input: &[u8]) -> Result<String, AllocError> {
    match name {
        "idle" => verdict::<Idle>(alloc, input),
        "stubborn" => verdict::<Stubborn>(alloc, input),
        "device" => device_said(alloc, input),
        "asking" => verdict::<Asking>(alloc, input),
        "levels" => verdict::<Levels>(alloc, input),
        "early" => verdict::<Early>(alloc, input),
        "steps" => steps_said(alloc, input),
        "marks" => marks_said(alloc, input),
        "first mark" => verdict::<First>(alloc, input),
        "settled int" => settled_said::<i32>(alloc, input),
        "settled id" => settled_said::<Id>(alloc, input),
        "settled rectangle" => settled_said::<Rectangle>(alloc, input),
        "stream" => stream_said(alloc, input),
        "capture and gain" => verdict::<StructOf<(Capture, (Gain, ()))>>(alloc, input),
        "media and pair" => verdict::<StructOf<(Media, (Pair, ()))>>(alloc, input),
        _ => call_said(alloc, name, input),
    }
}

/// The answer of the call of this number.
fn call_said(alloc: Global, name: &str, input: &[u8]) -> Result<String, AllocError> {
    match name.strip_prefix("call ").unwrap_or("").parse::<u8>() {
        Ok(call) => called(alloc, call, input),
        Err(_) => String::from_str(alloc, "no such type"),
    }
}

/// The library's own types. The last rows are of other types, and of bodies that are none of their type. The words 875770417 and
/// 3618357 are the text 1234567, and 6422625 is `a`, NUL, `b`, NUL.
const READ: &str = r#"none | 0 1 | ()
bool | 4 2 7 9 | true, written 4 2 1 0
id | 4 3 5 0 | Id(5)
int | 4 4 4294967295 0 | -1
long | 8 5 4294967295 0 | 4294967295
float | 4 6 1138491392 0 | Float32(1138491392)
double | 8 7 0 1 | Float64(4294967296)
rectangle | 8 10 31 14 | Rectangle { width: 31, height: 14 }
fraction | 8 11 31 14 | Fraction { num: 31, denom: 14 }
fd | 8 18 9 0 | Fd(9)
str | 8 8 875770417 3618357 | "1234567"
str | 1 8 0 0 | ""
string | 2 8 97 0 | "a"
slice | 3 9 197121 0 | [1, 2, 3]
vec | 3 9 197121 0 | [1, 2, 3]
bitmap | 3 12 197121 0 | Bitmap([1, 2, 3])
bitmap | 0 12 | Bitmap([])
value | 16 14 4 2 7 9 | Struct([Bool(true)]), written 16 14 4 2 1 0
pointer | 12 17 7 0 4096 9 | (7, 4096), written 16 17 7 0 4096 0
pointer | 16 17 7 9 4096 1 | (7, 4294971392), written 16 17 7 0 4096 1
array of none | 8 13 0 1 | []
array of bool | 16 13 4 2 0 7 | [false, true], written 16 13 4 2 0 1
array of id | 12 13 4 3 5 0 | [Id(5)]
array of int | 20 13 4 4 10 15 19 0 | [10, 15, 19]
array of long | 16 13 8 5 5 0 | [5]
array of float | 12 13 4 6 5 0 | [Float32(5)]
array of double | 16 13 8 7 5 0 | [Float64(5)]
array of rectangle | 16 13 8 10 31 14 | [Rectangle { width: 31, height: 14 }]
array of fraction | 16 13 8 11 31 14 | [Fraction { num: 31, denom: 14 }]
array of fd | 16 13 8 18 9 0 | [Fd(9)]
choice of bool | 24 19 3 0 4 2 7 0 | Choice(ChoiceFlags(0), Enum { default: true, alternatives: [false] }), written 24 19 3 0 4 2 1 0
choice of bool | 20 19 0 0 4 2 1 0 | Choice(ChoiceFlags(0), None(true))
choice of id | 24 19 4 1 4 3 1 2 | Choice(ChoiceFlags(1), Flags { default: Id(1), flags: [Id(2)] })
choice of int | 28 19 1 0 4 4 5 2 10 0 | Choice(ChoiceFlags(0), Range { default: 5, min: 2, max: 10 })
choice of long | 24 19 0 0 8 5 5 0 | Choice(ChoiceFlags(0), None(5))
choice of float | 20 19 0 0 4 6 5 0 | Choice(ChoiceFlags(0), None(Float32(5)))
choice of double | 24 19 0 0 8 7 5 0 | Choice(ChoiceFlags(0), None(Float64(5)))
choice of rectangle | 24 19 0 0 8 10 31 14 | Choice(ChoiceFlags(0), None(Rectangle { width: 31, height: 14 }))
choice of fraction | 24 19 0 0 8 11 31 14 | Choice(ChoiceFlags(0), None(Fraction { num: 31, denom: 14 }))
choice of fd | 24 19 0 0 8 18 9 0 | Choice(ChoiceFlags(0), None(Fd(9)))
long | 4 4 3 0 | Tag
array of id | 20 13 4 4 10 15 19 0 | Tag
array of int | 4 4 3 0 | Tag
slice | 0 12 | Tag
bitmap | 0 9 | Tag
choice of int | 4 4 3 0 | Tag
choice of long | 28 19 1 0 4 4 5 2 10 0 | UnsupportedType
int | 8 4 3 0 | WrongSize
str | 4 8 6422625 0 | Text
string | 0 8 | Text
pointer | 8 17 7 0 | WrongSize
array of int | 4 13 4 0 | WrongSize
array of int | 14 13 4 4 10 0 | WrongSize
array of none | 16 13 0 1 7 7 | WrongSize
choice of int | 8 19 0 0 | WrongSize
choice of int | 20 19 5 0 4 4 7 0 | InvalidChoiceType
choice of int | 24 19 1 0 4 4 5 2 | MissingChoiceValues
choice of int | 20 19 0 0 4 99 7 0 | InvalidType"#;

/// Calls with the visitors of what they hand over. The last object but four is as PipeWire's C builder makes it. Then come what another call,
/// or another visitor, takes, and structs and objects, which each visitor declines.
const CALLS: &str = r#"call 1 | 0 1 | ()
call 2 | 4 2 7 9 | true
call 3 | 4 3 5 0 | Id(5)
call 4 | 4 4 4294967295 0 | -1
call 5 | 8 5 4294967295 0 | 4294967295
call 6 | 4 6 5 0 | Float32(5)
call 7 | 8 7 0 1 | Float64(4294967296)
call 8 | 2 8 97 0 | "a"
call 9 | 3 9 197121 0 | [1, 2, 3]
call 10 | 8 10 31 14 | Rectangle { width: 31, height: 14 }
call 11 | 8 11 31 14 | Fraction { num: 31, denom: 14 }
call 12 | 3 12 197121 0 | [1, 2, 3]
call 13 | 20 13 4 4 10 15 19 0 | [10, 15, 19]
call 14 | 16 14 4 4 3 0 | Struct([Int(3)])
call 15 | 32 15 5 3 1 16 4 4 3 0 | Object(Object { type_: 5, id: 3, properties: [Property { key: 1, flags: PropertyFlags(16), value: Int(3) }] })
call 17 | 16 17 7 0 4096 0 | (7, 4096)
call 18 | 8 18 9 0 | Fd(9)
choice by int | 20 19 0 5 4 4 7 0 | Choice(ChoiceFlags(0), None(7))
call 20 | 20 19 0 5 4 4 7 0 | Choice(Int(Choice(ChoiceFlags(0), None(7))))
call 22 | 16 14 4 4 3 0 | "Some(3) None"
call 23 | 32 15 5 3 1 16 4 4 3 0 | "Some((3, 1, PropertyFlags(16))) None"
choice by bool | 24 19 3 0 4 2 7 0 | Choice(ChoiceFlags(0), Enum { default: true, alternatives: [false] })
choice by id | 24 19 4 1 4 3 1 2 | Choice(ChoiceFlags(1), Flags { default: Id(1), flags: [Id(2)] })
choice by long | 24 19 0 0 8 5 5 0 | Choice(ChoiceFlags(0), None(5))
choice by float | 20 19 0 0 4 6 5 0 | Choice(ChoiceFlags(0), None(Float32(5)))
choice by double | 24 19 0 0 8 7 5 0 | Choice(ChoiceFlags(0), None(Float64(5)))
choice by rectangle | 24 19 0 0 8 10 31 14 | Choice(ChoiceFlags(0), None(Rectangle { width: 31, height: 14 }))
choice by fraction | 24 19 0 0 8 11 31 14 | Choice(ChoiceFlags(0), None(Fraction { num: 31, denom: 14 }))
choice by fd | 24 19 0 0 8 18 9 0 | Choice(ChoiceFlags(0), None(Fd(9)))
call 15 | 56 15 262146 2 257 0 5 8 809138024 0 65538 0 4 6 1138491392 0 | Object(Object { type_: 262146, id: 2, properties: [Property { key: 257, flags: PropertyFlags(0), value: String("hw:0") }, Property { key: 65538, flags: PropertyFlags(0), value: Float(Float32(1138491392)) }] })
call 4 | 4 3 5 0 | Tag
call 13 | 12 13 4 3 5 0 | Tag
call 14 | 8 15 5 3 | Tag
call 15 | 4 15 5 0 | WrongSize
call 21 | 4 4 3 0 | UnsupportedType
choice by long | 20 19 0 5 4 4 7 0 | UnsupportedType
call 14 | 16 14 4 4 3 | Short
struct by none | 0 14 | UnsupportedType
struct by bool | 0 14 | UnsupportedType
struct by id | 0 14 | UnsupportedType
struct by int | 0 14 | UnsupportedType
struct by long | 0 14 | UnsupportedType
struct by float | 0 14 | UnsupportedType
struct by double | 0 14 | UnsupportedType
struct by rectangle | 0 14 | UnsupportedType
struct by fraction | 0 14 | UnsupportedType
struct by fd | 0 14 | UnsupportedType
call 70 | 0 14 | UnsupportedType
call 71 | 0 14 | UnsupportedType
call 72 | 16 14 4 4 313 0 | UnsupportedType
call 73 | 16 14 4 4 313 0 | UnsupportedType
call 74 | 16 14 4 4 313 0 | UnsupportedType
struct by choice of bool | 16 14 4 4 313 0 | UnsupportedType
struct by choice of id | 16 14 4 4 313 0 | UnsupportedType
struct by choice of int | 16 14 4 4 313 0 | UnsupportedType
struct by choice of long | 16 14 4 4 313 0 | UnsupportedType
struct by choice of float | 16 14 4 4 313 0 | UnsupportedType
struct by choice of double | 16 14 4 4 313 0 | UnsupportedType
struct by choice of rectangle | 16 14 4 4 313 0 | UnsupportedType
struct by choice of fraction | 16 14 4 4 313 0 | UnsupportedType
struct by choice of fd | 16 14 4 4 313 0 | UnsupportedType
object by int | 8 15 5 3 | UnsupportedType
call 85 | 8 15 5 3 | UnsupportedType
call 86 | 8 15 5 3 | UnsupportedType
object by choice of int | 8 15 5 3 | UnsupportedType"#;

/// A user's own types: a struct and an object whose members are missing, too many or of another key, or which cross the end;
/// visitors that read no member, or go on after a refusal; elements past the last one, and an end before it; marks, which have
/// no bytes.
const OWN: &str = r#"idle | 16 14 4 4 3 0 | UnreadMembers
stubborn | 16 14 4 4 3 0 | FailedReader
idle | 4 4 3 0 | Tag
device | 56 15 5 3 1 0 5 8 809138024 0 2 0 4 6 1138491392 0 | hw:0 1138491392
device | 32 15 5 3 1 0 5 8 809138024 0 | PropertyMissing
device | 56 15 5 3 1 0 5 8 809138024 0 3 0 4 6 1138491392 0 | not 3
device | 72 15 5 3 1 0 5 8 809138024 0 2 0 4 6 1138491392 0 9 0 0 1 | UnreadMembers
device | 36 15 5 3 1 0 5 8 809138024 0 2 0 | Short
device | 4 15 5 0 | WrongSize
asking | 32 15 5 3 1 0 4 4 3 0 | accepted
levels | 20 13 4 4 10 15 19 0 | FailedReader
early | 20 13 4 4 10 15 19 0 | UnreadMembers
levels | 8 13 0 1 | Tag
steps | 20 13 4 4 10 15 19 0 | [10, 15, 19]
marks | 8 13 0 1 | 0
first mark | 8 13 0 1 | NoElementLeft"#;

/// A struct, an object, an Id and an array that visitors read: whole, without what may be missing, and with each cause for which they are
/// refused; and both kinds as the members of a declared struct.
const VISITED: &str =
    r#"capture | 32 14 8 10 640 480 8 11 25 1 | Capture { size: Rectangle { width: 640, height: 480 }, rate: Some(Fraction { num: 25, denom: 1 }) }
capture | 16 14 8 10 640 480 | Capture { size: Rectangle { width: 640, height: 480 }, rate: None }
capture | 0 14 | PropertyMissing
capture | 16 14 4 4 3 0 | Tag
capture | 16 14 4 10 640 0 | WrongSize
capture | 32 14 8 10 640 480 4 4 25 0 | Tag
capture | 24 14 8 10 640 480 8 11 | Short
capture | 48 14 8 10 640 480 8 11 25 1 8 11 25 1 | UnreadMembers
capture | 8 15 262146 2 | Tag
gain | 32 15 262146 2 65539 16 4 6 1036831949 0 | Gain { id: 2, volume: Float32(1036831949), flags: PropertyFlags(16) }
gain | 32 15 262146 2 65539 18 4 6 1036831949 0 | Gain { id: 2, volume: Float32(1036831949), flags: PropertyFlags(18) }
gain | 32 15 262146 7 65539 0 4 6 0 0 | Gain { id: 7, volume: Float32(0), flags: PropertyFlags(0) }
gain | 32 15 5 2 65539 0 4 6 1036831949 0 | UnsupportedType
gain | 8 15 262146 2 | PropertyMissing
gain | 12 15 262146 2 65539 0 | Short
gain | 32 15 262146 2 65540 0 4 6 1036831949 0 | not 65540
gain | 32 15 262146 2 65540 0 4 2 1 0 | Tag
gain | 24 15 262146 2 65539 0 4 6 | Short
gain | 56 15 262146 2 65539 0 4 6 1036831949 0 65540 0 4 2 1 0 | UnreadMembers
gain | 4 15 262146 0 | WrongSize
gain | 16 14 4 4 3 0 | Tag
capture and gain | 64 14 16 14 8 10 640 480 32 15 262146 2 65539 16 4 6 1036831949 0 | accepted
capture and gain | 64 14 16 14 8 10 640 480 32 15 262146 2 65540 16 4 6 1036831949 0 | not 65540
media | 4 3 1 0 | Audio
media | 4 3 2 0 | Video
media | 4 3 3 0 | UnsupportedType
media | 4 4 1 0 | Tag
media | 8 3 1 0 | WrongSize
media | 4 3 1 | Short
pair | 16 13 4 4 7 4294967295 | 0 left
pair | 8 13 4 4 | UnsupportedType
pair | 12 13 4 4 7 0 | UnsupportedType
pair | 20 13 4 4 7 8 9 0 | UnsupportedType
pair | 16 13 4 3 7 8 | Tag
pair | 16 13 8 4 7 8 | WrongSize
pair | 4 4 7 0 | Tag
media and pair | 40 14 4 3 2 0 16 13 4 4 7 8 | accepted
media and pair | 40 14 4 3 9 0 16 13 4 4 7 8 | UnsupportedType
media and pair | 40 14 4 3 2 0 12 13 4 4 7 0 | UnsupportedType"#;

const TABLES: &[&str] = &[
    READ, CALLS, OWN, VISITED, SETTLED, BUILT, DECLARED, LATENCIES, PROFILES,
];

/// The tables: they are named here alone, as a function that names a long table is proved with all of it.
fn tables() -> &'static [&'static str] {
    TABLES
}

fn uncut() -> &'static str {
    UNCUT
}

/// The parts of a row: the name of a type, the words of an input, and the answer.
fn parts(row: &str) -> Result<(&str, &str, &str), Fail> {
    let Some((name, rest)) = row.split_once(" | ") else {
        return Err(Fail::new("a row without words"));
    };
    let Some((words, answer)) = rest.split_once(" | ") else {
        return Err(Fail::new("a row without an answer"));
    };
    Ok((name, words, answer))
}

/// Compares what the read of a row answers with what is wanted; and where the pod is `cut`, whether each beginning is short.
fn assert_read(rt: &impl Abort, alloc: Global, row: &str, is_cut: bool) -> Result<(), Fail> {
    let (name, words, wanted) = parts(row)?;
    let input = bytes_spelled(alloc, words)?;
    let found = named(alloc, name, input.as_slice())?;
    assert_said(rt, found.as_str(), wanted, row);
    let short = !is_cut || is_short_before_its_end(alloc, name, input.as_slice())?;
    assert_holds(rt, short, row);
    Ok(())
}

/// Whether each beginning of a pod that is no whole one is short for the type that reads the pod.
fn is_short_before_its_end(alloc: Global, name: &str, input: &[u8]) -> Result<bool, AllocError> {
    for len in 0..input.len() {
        let found = named(alloc, name, &input[..len])?;
        if !found.as_str().starts_with("Short") {
            return Ok(false);
        }
    }
    Ok(true)
}

#[test]
fn each_type_reads_its_pods(rt: HostRuntime) -> Result<(), Fail> {
    for table in tables() {
        for row in table.lines() {
            assert_read(&rt, rt.alloc(), row, true)?;
        }
    }
    for row in uncut().lines() {
        assert_read(&rt, rt.alloc(), row, false)?;
    }
    Ok(())
}
