//! Values with their encodings, from outside, and each call once.
use crate::compare::{assert_bytes, assert_holds, assert_said};
use crate::nested::read;
use arrayvec::ArrayVec;
use bitflags::Flags;
use spa_bodies::{put_bitmap, put_bytes, put_pointer, put_text};
use spa_sink::{GenError, PodSink};
use spa_typed_write::{PodSerializer, laws, write_struct};
use spa_utils::{Choice, ChoiceEnum, ChoiceFlags};
use spa_value::{ChoiceValue, Held, Value, ValueArray};
use spa_write::{put_leaf, write_sized};
use std::alloc::{AllocError, Global};
use std::process::Abort;
use std::test::Fail;
use test_bytes::bytes_spelled;

/// Values as their `Debug` text, and the words of their encodings.
const ROWS: &[(&str, &str)] = &[
    ("None", "0 1"),
    ("Bool(true)", "4 2 1 0"),
    ("Id(Id(4294967295))", "4 3 4294967295 0"),
    ("Int(-2147483648)", "4 4 2147483648 0"),
    ("Long(-9223372036854775808)", "8 5 0 2147483648"),
    ("Float(Float32(2143289344))", "4 6 2143289344 0"),
    ("Double(Float64(9223372036854775808))", "8 7 0 2147483648"),
    (
        "Rectangle(Rectangle { width: 1920, height: 1080 })",
        "8 10 1920 1080",
    ),
    (
        "Fraction(Fraction { num: 30000, denom: 1001 })",
        "8 11 30000 1001",
    ),
    ("Fd(Fd(-1))", "8 18 4294967295 4294967295"),
    (
        "Pointer(65537, 139638282147448)",
        "16 17 65537 0 305419896 32512",
    ),
    ("String(\"1234567\")", "8 8 875770417 3618357"),
    ("String(\"\")", "1 8 0 0"),
    ("String(\"foo\")", "4 8 7303014 0"),
    ("Bytes([0, 1, 2, 3, 255])", "5 9 50462976 255"),
    ("Bytes([])", "0 9"),
    ("Bitmap([1, 2, 3])", "3 12 197121 0"),
    ("Struct([Bitmap([1, 2, 3])])", "16 14 3 12 197121 0"),
    (FIVE_UNITS, "8 13 0 1"),
    ("ValueArray(Id([Id(3), Id(4), Id(6)]))", "20 13 4 3 3 4 6 0"),
    (
        "ValueArray(Fraction([Fraction { num: 1, denom: 2 }, Fraction { num: 30, denom: 1 }]))",
        "24 13 8 11 1 2 30 1",
    ),
    ("ValueArray(Long([1, 2]))", "24 13 8 5 1 0 2 0"),
    (FLAGGED, "20 19 0 5 4 4 7 0"),
    (
        "Choice(Bool(Choice(ChoiceFlags(1), Enum { default: false, alternatives: [true, false] })))",
        "28 19 3 1 4 2 0 1 0 0",
    ),
    (
        "Choice(Fd(Choice(ChoiceFlags(0), Range { default: Fd(3), min: Fd(4), max: Fd(5) })))",
        "40 19 1 0 8 18 3 0 4 0 5 0",
    ),
    (
        "Struct([Int(313), String(\"foo\"), Struct([Rectangle(Rectangle { width: 31, height: 14 })])])",
        "56 14 4 4 313 0 4 8 7303014 0 16 14 8 10 31 14",
    ),
    ("Struct([])", "0 14"),
    (
        "Object(Object { type_: 5, id: 3, properties: [Property { key: 9, flags: PropertyFlags(2147483649), value: Struct([Int(3)]) }] })",
        "40 15 5 3 9 2147483649 16 14 4 4 3 0",
    ),
    (
        "Object(Object { type_: 5, id: 3, properties: [Property { key: 1, flags: PropertyFlags(0), value: String(\"hw:0\") }, Property { key: 2, flags: PropertyFlags(0), value: Float(Float32(1138491392)) }] })",
        "56 15 5 3 1 0 5 8 809138024 0 2 0 4 6 1138491392 0",
    ),
    (
        "Object(Object { type_: 5, id: 3, properties: [Property { key: 1, flags: PropertyFlags(0), value: Choice(Int(Choice(ChoiceFlags(0), Range { default: 5, min: 2, max: 10 }))) }] })",
        "56 15 5 3 1 0 28 19 1 0 4 4 5 2 10 0",
    ),
];

/// Those rows. This function alone names them: one that does is proved with all of them.
pub(crate) fn rows() -> &'static [(&'static str, &'static str)] {
    ROWS
}

/// Five units, which no array is read as.
const FIVE_UNITS: &str = "ValueArray(None([(), (), (), (), ()]))";

/// A None choice with flags, which none is read with.
const FLAGGED: &str = "Choice(Int(Choice(ChoiceFlags(5), None(7))))";

/// Texts, and the words of their pods.
const TEXTS: &[(&str, &str)] = &[
    ("1234567", "8 8 875770417 3618357"),
    ("", "1 8 0 0"),
    ("foo", "4 8 7303014 0"),
];

/// Those rows. This function alone names them: one that does is proved with all of them.
fn texts() -> &'static [(&'static str, &'static str)] {
    TEXTS
}

/// The value of a row: read from its words, where it can be.
pub(crate) fn value_of(alloc: Global, row: &(&str, &str)) -> Result<Held, Fail> {
    match row.0 {
        FIVE_UNITS => Ok(units(alloc)?),
        FLAGGED => Ok(flagged()),
        _ => read_spelled(alloc, row.1),
    }
}

/// The value that these words say.
fn read_spelled(alloc: Global, words: &str) -> Result<Held, Fail> {
    let input = bytes_spelled(alloc, words)?;
    read(alloc, input.as_slice())
}

fn units(alloc: Global) -> Result<Held, AllocError> {
    let units = Vec::from_slice(alloc, &[(); 5])?;
    Ok(Held::from(Value::ValueArray(ValueArray::None(units))))
}

fn flagged() -> Held {
    let flags = ChoiceFlags::from_bits_retain(5);
    let choice = Choice(flags, ChoiceEnum::None(7));
    Held::from(Value::Choice(ChoiceValue::Int(choice)))
}

/// The words of a struct of the Int 3.
pub(crate) const THREE: &str = "16 14 4 4 3 0";

/// That struct.
pub(crate) fn three(alloc: Global) -> Result<Held, Fail> {
    read_spelled(alloc, THREE)
}

/// A struct of the Int 3 and a text that holds NUL.
pub(crate) fn three_and_nul(alloc: Global) -> Result<Held, AllocError> {
    let text = String::from_str(alloc, "a\0b")?;
    let mut members = Vec::with_capacity(alloc, 2)?;
    members.push_reserved(Value::Int(3));
    members.push_reserved(Value::String(text));
    Ok(Held::from(Value::Struct(members)))
}

/// What a value shows.
fn shown(alloc: Global, value: &Value) -> Result<String, AllocError> {
    format!(in alloc; "{value:?}")
}

/// The encoding of a value, and its length.
fn written(alloc: Global, value: &Value) -> Result<(Vec<u8>, u64), GenError> {
    PodSerializer::serialize(Vec::new(alloc), value)
}

/// The output, with the value written behind what it holds.
fn written_behind(out: Vec<u8>, value: &Value) -> Result<Vec<u8>, GenError> {
    let (out, _) = laws::values_are_written_into_memory(out, value)?;
    Ok(out)
}

/// Whether bytes are these two times.
fn are_twice(found: &[u8], bytes: &[u8]) -> bool {
    let (first, second) = found.split_at(bytes.len().min(found.len()));
    first == bytes && second == bytes
}

/// Compares what a value shows, and its encoding, with a row.
fn assert_written(
    rt: &impl Abort,
    alloc: Global,
    value: &Value,
    row: &(&str, &str),
) -> Result<(), Fail> {
    let (text, words) = *row;
    let shown = shown(alloc, value)?;
    assert_said(rt, shown.as_str(), text, words);
    let wanted = bytes_spelled(alloc, words)?;
    let (out, count) = written(alloc, value)?;
    assert_bytes(rt, out.as_slice(), wanted.as_slice(), words);
    assert_holds(rt, count == wanted.len() as u64, words);
    let both = written_behind(out, value)?;
    let are_twice = are_twice(both.as_slice(), wanted.as_slice());
    assert_holds(rt, are_twice, words);
    Ok(())
}

/// Checks that the value of a row is written as the row's words.
fn assert_row(rt: &impl Abort, alloc: Global, row: &(&str, &str)) -> Result<(), Fail> {
    let value = value_of(alloc, row)?;
    assert_written(rt, alloc, &*value, row)
}

#[test]
fn values_have_these_encodings(rt: HostRuntime) -> Result<(), Fail> {
    for row in rows() {
        assert_row(&rt, rt.alloc(), row)?;
    }
    Ok(())
}

/// Compares the pod of a text with these words.
fn assert_put(rt: &impl Abort, alloc: Global, text: &str, words: &str) -> Result<(), Fail> {
    let wanted = bytes_spelled(alloc, words)?;
    let mut out = Vec::new(alloc);
    put_text(&mut out, text)?;
    assert_bytes(rt, out.as_slice(), wanted.as_slice(), text);
    Ok(())
}

#[test]
fn texts_have_these_pods(rt: HostRuntime) -> Result<(), Fail> {
    for (text, words) in texts() {
        assert_put(&rt, rt.alloc(), text, words)?;
    }
    Ok(())
}

/// A number's encoding in an output of this many bytes.
fn three_written<const N: usize>() -> Result<(ArrayVec<u8, N>, u64), GenError> {
    let three = Held::from(Value::Int(3));
    PodSerializer::serialize(ArrayVec::new(), &*three)
}

fn three_behind<const N: usize>(out: ArrayVec<u8, N>) -> Result<(ArrayVec<u8, N>, u64), GenError> {
    let three = Held::from(Value::Int(3));
    laws::values_are_written_where_they_fit(out, &*three)
}

fn assert_refused(rt: &impl Abort, refused: Option<GenError>, wanted: GenError) {
    assert_holds(rt, refused == Some(wanted), "a refusal");
}

#[test]
fn a_short_output_is_full(rt: HostRuntime) {
    assert_refused(&rt, three_written::<15>().err(), GenError::Full);
}

#[test]
fn a_fixed_output_takes_what_fits(rt: HostRuntime) -> Result<(), Fail> {
    let wanted = bytes_spelled(rt.alloc(), "4 4 3 0")?;
    let (out, count) = three_written::<16>()?;
    assert_bytes(&rt, out.as_slice(), wanted.as_slice(), "its end");
    assert_holds(&rt, count == 16, "its end");
    assert_refused(&rt, three_behind(out).err(), GenError::Full);
    Ok(())
}

/// The words of what stands in an output of 36 bytes that had two, once a struct of an Int and a text is refused: the struct isn't closed, so its size
/// word is 0, and of the text nothing fits.
const UNCLOSED: &str = "1 2 0 14 4 4 5 0";

#[test]
fn a_refused_struct_keeps_what_was_there(rt: HostRuntime) -> Result<(), Fail> {
    let wanted = bytes_spelled(rt.alloc(), UNCLOSED)?;
    let mut out: ArrayVec<u8, 36> = ArrayVec::new();
    PodSink::append(&mut out, &[1, 0, 0, 0, 2, 0, 0, 0])?;
    let refused = write_struct(&mut out, &(&5i32, (&"a text of some length", ())));
    assert_refused(&rt, refused.err(), GenError::Full);
    assert_bytes(
        &rt,
        out.as_slice(),
        wanted.as_slice(),
        "what was there, and behind it",
    );
    Ok(())
}

/// Why the text with NUL isn't written.
fn nul_refusal(alloc: Global) -> Result<Option<GenError>, AllocError> {
    let value = three_and_nul(alloc)?;
    Ok(written(alloc, &*value).err())
}

#[test]
fn a_text_with_nul_is_refused(rt: HostRuntime) -> Result<(), Fail> {
    assert_refused(&rt, nul_refusal(rt.alloc())?, GenError::NulInText);
    Ok(())
}

/// What each call appends, one behind another.
fn parts(alloc: Global) -> Result<Vec<u8>, Fail> {
    let mut out = Vec::new(alloc);
    put_pointer(&mut out, 7, 4096)?;
    put_bytes(&mut out, &[1, 2, 3])?;
    put_bitmap(&mut out, &[1, 2, 3])?;
    let leaf = Held::from(Value::Bool(true));
    put_leaf(&mut out, &*leaf)?;
    let value = three(alloc)?;
    write_sized(&mut out, &*value)?;
    Ok(out)
}

/// The words of what they append.
const PARTS: &str = "16 17 7 0 4096 0 3 9 197121 0 3 12 197121 0 4 2 1 0 16 14 4 4 3 0";

#[test]
fn parts_are_appended_in_place(rt: HostRuntime) -> Result<(), Fail> {
    let wanted = bytes_spelled(rt.alloc(), PARTS)?;
    let out = parts(rt.alloc())?;
    assert_bytes(&rt, out.as_slice(), wanted.as_slice(), "the parts");
    Ok(())
}
