//! The forms of `object!` and `property!`, by what the objects are written as.
use crate::bytes::assert_spelt;
use bitflags::Flags;
use libspa::pod::serialize::{GenError, PodSerializer};
use libspa::pod::{ChoiceValue, Held, Object, Property, Value, ValueArray, object, property};
use libspa::utils::{Choice, ChoiceEnum, ChoiceFlags, Errno, Fraction, Id, Rectangle, SpaTypes};
use spa_names::{ids, keys, types};
use std::alloc::Global;
use std::process::Abort;
use std::test::Fail;

/// Objects, and the words of each, by the rules of docs/FORMAT.md.
const OBJECTS: &str = "a range: 56 15 5 3 1 0 28 19 1 0 4 4 5 2 10 0
no properties: 8 15 5 3
plain values: 80 15 5 3 1 0 4 4 3 0 2 0 4 3 7 0 3 0 4 2 1 0
enumerations: 96 15 5 3 4 0 28 19 3 0 4 3 1 2 3 0 5 0 24 19 3 0 4 4 1 2
flags and a step: 104 15 5 3 6 0 32 19 4 0 8 5 1 0 2 0 7 0 32 19 2 0 4 4 5 2 10 1
lists: 96 15 5 3 1 0 2 8 97 0 2 0 3 9 197121 0 3 0 20 13 4 4 10 15 19 0
values inside: 104 15 5 3 4 0 16 14 4 4 3 0 5 0 8 15 5 3 6 0 20 19 0 0 4 4 5 0
a video format: 104 15 262147 4 1 0 4 3 2 0 2 0 4 3 1 0 131075 0 8 10 320 240 131076 0 8 11 25 1";

/// Those rows. This function alone names them: one that does is proved with all of them.
fn objects() -> &'static str {
    OBJECTS
}

fn with_a_range(alloc: Global) -> Result<Object, Errno> {
    object!(in alloc; SpaTypes(5), Id(3), property!(in alloc; Id(1), Choice, Range, Int, 5, 2, 10)?)
}

fn without_properties(alloc: Global) -> Result<Object, Errno> {
    object!(in alloc; SpaTypes(5), Id(3))
}

fn with_plain_values(alloc: Global) -> Result<Object, Errno> {
    object!(
        in alloc;
        SpaTypes(5),
        Id(3),
        property!(in alloc; Id(1), Value::Int(3))?,
        property!(in alloc; Id(2), Id, Id(7))?,
        property!(in alloc; Id(3), Bool, true)?,
    )
}

fn with_enumerations(alloc: Global) -> Result<Object, Errno> {
    object!(
        in alloc;
        SpaTypes(5),
        Id(3),
        property!(in alloc; Id(4), Choice, Enum, Id, Id(1), Id(2), Id(3))?,
        property!(in alloc; Id(5), Choice, Enum, Int, 1, 2)?,
    )
}

fn with_flags_and_a_step(alloc: Global) -> Result<Object, Errno> {
    object!(
        in alloc;
        SpaTypes(5),
        Id(3),
        property!(in alloc; Id(6), Choice, Flags, Long, 1, 2)?,
        property!(in alloc; Id(7), Choice, Step, Int, 5, 2, 10, 1)?,
    )
}

/// A list, or the answer that there is no memory for it.
fn listed<T: Drop, E: Drop>(list: Result<Vec<T>, E>) -> Result<Vec<T>, Errno> {
    list.map_err(|_| Errno::NOMEM)
}

fn text(alloc: Global) -> Result<String, Errno> {
    String::from_str(alloc, "a").map_err(|_| Errno::NOMEM)
}

fn of_text(alloc: Global) -> Result<Property, Errno> {
    property!(in alloc; Id(1), String, text(alloc)?)
}

fn of_bytes(alloc: Global) -> Result<Property, Errno> {
    property!(in alloc; Id(2), Bytes, listed(vec![in alloc; 1, 2, 3])?)
}

fn of_array(alloc: Global) -> Result<Property, Errno> {
    let array = ValueArray::Int(listed(vec![in alloc; 10, 15, 19])?);
    property!(in alloc; Id(3), ValueArray, array)
}

fn with_lists(alloc: Global) -> Result<Object, Errno> {
    object!(in alloc; SpaTypes(5), Id(3), of_text(alloc)?, of_bytes(alloc)?, of_array(alloc)?)
}

fn of_struct(alloc: Global) -> Result<Property, Errno> {
    property!(in alloc; Id(4), Struct, listed(vec![in alloc; Value::Int(3)])?)
}

fn of_object(alloc: Global) -> Result<Property, Errno> {
    property!(in alloc; Id(5), Object, without_properties(alloc)?)
}

fn of_choice(alloc: Global) -> Result<Property, Errno> {
    let choice = ChoiceValue::Int(Choice(ChoiceFlags::empty(), ChoiceEnum::None(5)));
    property!(in alloc; Id(6), Choice, choice)
}

fn with_values_inside(alloc: Global) -> Result<Object, Errno> {
    object!(in alloc; SpaTypes(5), Id(3), of_struct(alloc)?, of_object(alloc)?, of_choice(alloc)?)
}

/// The video format as a value.
fn video_format(alloc: Global) -> Result<Object, Errno> {
    object!(
        in alloc;
        SpaTypes(types::OBJECT_FORMAT),
        Id(ids::PARAM_FORMAT),
        property!(in alloc; Id(keys::FORMAT_MEDIA_TYPE), Id, Id(ids::MEDIA_TYPE_VIDEO))?,
        property!(in alloc; Id(keys::FORMAT_MEDIA_SUBTYPE), Id, Id(ids::MEDIA_SUBTYPE_RAW))?,
        property!(in alloc; Id(keys::FORMAT_VIDEO_SIZE), Rectangle, Rectangle { width: 320, height: 240 })?,
        property!(in alloc; Id(keys::FORMAT_VIDEO_FRAMERATE), Fraction, Fraction { num: 25, denom: 1 })?,
    )
}

/// The object of a row.
fn made(alloc: Global, name: &str) -> Result<Object, Errno> {
    match name {
        "a range" => with_a_range(alloc),
        "no properties" => without_properties(alloc),
        "plain values" => with_plain_values(alloc),
        "enumerations" => with_enumerations(alloc),
        "flags and a step" => with_flags_and_a_step(alloc),
        "lists" => with_lists(alloc),
        "values inside" => with_values_inside(alloc),
        _ => video_format(alloc),
    }
}

/// Its encoding.
fn encoding_of(alloc: Global, object: Object) -> Result<Vec<u8>, GenError> {
    let value = Held::from(Value::Object(object));
    let (bytes, _) = PodSerializer::serialize(Vec::new(alloc), &*value)?;
    Ok(bytes)
}

/// Compares the encoding of a row's object with its words.
fn assert_row(rt: &impl Abort, alloc: Global, row: &str) -> Result<(), Fail> {
    let Some((name, words)) = row.split_once(": ") else {
        return Err(Fail::new("a row without words"));
    };
    let object = made(alloc, name)?;
    let bytes = encoding_of(alloc, object)?;
    assert_spelt(rt, alloc, bytes.as_slice(), words)
}

#[test]
fn each_form(rt: HostRuntime) -> Result<(), Fail> {
    for row in objects().lines() {
        assert_row(&rt, rt.alloc(), row)?;
    }
    Ok(())
}
