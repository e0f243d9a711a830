//! What each call of a reader answers once another call was refused, for each kind of refusal. The inputs say by numbers which calls are made,
//! and as what a type of these tests is refused. No test here takes memory of its own.
ghost use Rattle.std.specs.Prelude.{⊤, IfErr, IfOk};
ghost use Rattle.spa_typed_read.specs.Members.{Further, FurtherIn};

use spa_fixed_sized::{DeserializeError, Fault, FaultKind};
use spa_typed_read::{
    DeserializeMembers, DeserializeProperties, DeserializeSuccess, Never, ObjectPodDeserializer,
    Optional, PodDeserialize, PodDeserializer, Required, StructPodDeserializer, Visit, Visitor,
};
use std::alloc::Global;
use std::process::Abort;

/// The kinds of refusal, by their numbers.
const KINDS: &[&str] = &[
    "Short",
    "Tag",
    "Text",
    "UnsupportedType",
    "InvalidType",
    "PropertyMissing",
    "PropertyWrongKey",
    "InvalidChoiceType",
    "MissingChoiceValues",
    "WrongSize",
    "UnreadMembers",
    "NoElementLeft",
    "FailedReader",
    "OutOfMemory",
];

/// A refused call of a struct's reader, its answer, or "" where that is of each kind, and what each of these answers then: `deserialize_field`,
/// `read_members` of none and of one Int, and `end`. The members that are left are the refused one and an Int.
const STRUCT: &[(&str, &str, &[&str])] = &[
    (
        "deserialize_field",
        "",
        &[
            "FailedReader",
            "FailedReader",
            "FailedReader",
            "FailedReader",
        ],
    ),
    (
        "read_members of a Long",
        "Tag",
        &[
            "FailedReader",
            "FailedReader",
            "FailedReader",
            "FailedReader",
        ],
    ),
    (
        "read_members of none",
        "UnreadMembers",
        &[
            "accepted",
            "UnreadMembers",
            "UnreadMembers",
            "UnreadMembers",
        ],
    ),
];

/// A refused call of an object's reader, its answer, or "" where that is of each kind, and what each of these answers then:
/// `deserialize_property`, `deserialize_property_key` of 3, `find_property` of 3, `find_properties` of none, of a `Required` and of an `Optional`
/// one, `find_from` of none, `skip_properties`, and `end`. The properties that are left have the keys 2 and 3.
const OBJECT: &[(&str, &str, &[&str])] = &[
    (
        "deserialize_property",
        "",
        &[
            "FailedReader",
            "FailedReader",
            "FailedReader",
            "FailedReader",
            "FailedReader",
            "FailedReader",
            "FailedReader",
            "FailedReader",
            "FailedReader",
        ],
    ),
    (
        "deserialize_property_key",
        "",
        &[
            "FailedReader",
            "FailedReader",
            "FailedReader",
            "FailedReader",
            "FailedReader",
            "FailedReader",
            "FailedReader",
            "FailedReader",
            "FailedReader",
        ],
    ),
    (
        "find_property",
        "",
        &[
            "accepted",
            "PropertyWrongKey",
            "accepted",
            "accepted",
            "accepted",
            "accepted",
            "accepted",
            "accepted",
            "UnreadMembers",
        ],
    ),
    (
        "deserialize_property_key of another key",
        "PropertyWrongKey",
        &[
            "accepted",
            "accepted",
            "accepted",
            "accepted",
            "accepted",
            "accepted",
            "accepted",
            "accepted",
            "UnreadMembers",
        ],
    ),
    (
        "find_properties of a missing one",
        "PropertyMissing",
        &[
            "accepted",
            "PropertyWrongKey",
            "accepted",
            "accepted",
            "accepted",
            "accepted",
            "accepted",
            "accepted",
            "UnreadMembers",
        ],
    ),
    (
        "skip_properties",
        "WrongSize",
        &[
            "FailedReader",
            "FailedReader",
            "FailedReader",
            "FailedReader",
            "FailedReader",
            "FailedReader",
            "FailedReader",
            "FailedReader",
            "FailedReader",
        ],
    ),
    (
        "deserialize_property_key at the end",
        "PropertyMissing",
        &[
            "accepted",
            "PropertyMissing",
            "accepted",
            "accepted",
            "PropertyMissing",
            "accepted",
            "accepted",
            "accepted",
            "accepted",
        ],
    ),
];

/// The call of an array's reader past its last element, its answer, and what these answer then: `deserialize_element`, and `end`.
const ARRAY: &[(&str, &str, &[&str])] = &[(
    "deserialize_element",
    "NoElementLeft",
    &["FailedReader", "FailedReader"],
)];

/// The three tables, by their numbers.
fn rows(reader: u8) -> &'static [(&'static str, &'static str, &'static [&'static str])] {
    match reader {
        0 => STRUCT,
        1 => OBJECT,
        _ => ARRAY,
    }
}

/// The kinds, of which this function alone has the names.
fn kinds() -> &'static [&'static str] {
    KINDS
}

/// The key of no property: an error with it says that a call was accepted.
const ACCEPTED: u32 = 4294967295;

/// The refusal of this number in `KINDS`.
fn refusal(kind: i32) -> DeserializeError<&'static [u8]> {
    match kind {
        0 => nom(FaultKind::Short),
        1 => nom(FaultKind::Tag),
        2 => nom(FaultKind::Text),
        3 => DeserializeError::UnsupportedType,
        4 => DeserializeError::InvalidType,
        5 => DeserializeError::PropertyMissing,
        6 => DeserializeError::PropertyWrongKey(7),
        7 => DeserializeError::InvalidChoiceType,
        8 => DeserializeError::MissingChoiceValues,
        9 => DeserializeError::WrongSize,
        10 => DeserializeError::UnreadMembers,
        11 => DeserializeError::NoElementLeft,
        12 => DeserializeError::FailedReader,
        _ => DeserializeError::OutOfMemory,
    }
}

/// A fault at no place.
fn nom(kind: FaultKind) -> DeserializeError<&'static [u8]> {
    DeserializeError::Nom(Fault { input: &[], kind })
}

/// An Int that is refused, as the kind of this number.
#[derive(Drop)]
struct Refused;

impl<'de> PodDeserialize<'de> for Refused {
    ghost reads = { λ _ _. ⊤ };

    fn deserialize(
        deserializer: PodDeserializer<'de>,
    ) -> Result<(Refused, DeserializeSuccess<'de>), DeserializeError<&'de [u8]>> {
        let (kind, _) = i32::deserialize(deserializer)?;
        Err(refusal(kind))
    }
}

/// The error of a call, or that of an accepted one.
fn error_of<'de, T: Drop>(
    answer: Result<T, DeserializeError<&'de [u8]>>,
) -> DeserializeError<&'de [u8]> {
    match answer {
        Ok(_) => DeserializeError::PropertyWrongKey(ACCEPTED),
        Err(e) => e,
    }
}

/// The next member, a number.
fn member(reader: &mut StructPodDeserializer) -> i32
    ensures { Further reader.old reader.new }
{
    match reader.deserialize_field::<i32>() {
        Ok(Some(number)) => number,
        _ => -1,
    }
}

/// The answer of the refused call of this number.
fn refused_member<'de>(
    reader: &mut StructPodDeserializer<'de>,
    how: i32,
) -> DeserializeError<&'de [u8]>
    ensures { Further reader.old reader.new }
{
    match how {
        0 => error_of(reader.deserialize_field::<Refused>()),
        1 => error_of(<(i64, ())>::read_members(reader)),
        _ => error_of(<()>::read_members(reader)),
    }
}

/// The answer of the call of this number. None: it is `end`.
#[tactic(auto, using(spa_typed_read::proofs::Stepping::further_same))]
fn next_member<'de>(
    reader: &mut StructPodDeserializer<'de>,
    call: i32,
) -> Option<DeserializeError<&'de [u8]>>
    ensures { Further reader.old reader.new }
{
    match call {
        1 => Some(error_of(reader.deserialize_field::<i32>())),
        2 => Some(error_of(<()>::read_members(reader))),
        3 => Some(error_of(<(i32, ())>::read_members(reader))),
        _ => None,
    }
}

/// The next property, a number.
fn property(reader: &mut ObjectPodDeserializer) -> i32
    ensures { FurtherIn reader.old reader.new }
{
    match reader.deserialize_property::<i32>() {
        Ok(Some((number, _, _))) => number,
        _ => -1,
    }
}

/// The answer of the refused call of this number.
#[tactic(auto, using(spa_typed_read::proofs::Stepping::further_in_same, spa_typed_read::proofs::Stepping::further_in_trans))]
fn refused_property<'de>(
    reader: &mut ObjectPodDeserializer<'de>,
    how: i32,
) -> DeserializeError<&'de [u8]>
    ensures { FurtherIn reader.old reader.new }
{
    match how {
        0 => error_of(reader.deserialize_property::<Refused>()),
        1 => error_of(reader.deserialize_property_key::<Refused>(2)),
        2 => error_of(reader.find_property::<Refused>(2)),
        3 => error_of(reader.deserialize_property_key::<i32>(3)),
        4 => error_of(reader.find_properties::<(Required<9, i32>, ())>()),
        5 => error_of(reader.skip_properties()),
        _ => {
            let _skipped = reader.skip_properties();
            error_of(reader.deserialize_property_key::<i32>(3))
        }
    }
}

/// The answer of the call of this number. None: it is `end`.
#[tactic(auto, using(spa_typed_read::proofs::Stepping::further_in_same))]
fn next_property<'de>(
    reader: &mut ObjectPodDeserializer<'de>,
    call: i32,
) -> Option<DeserializeError<&'de [u8]>>
    ensures { FurtherIn reader.old reader.new }
{
    match call {
        1 => Some(error_of(reader.deserialize_property::<i32>())),
        2 => Some(error_of(reader.deserialize_property_key::<i32>(3))),
        3 => Some(error_of(reader.find_property::<i32>(3))),
        4 => Some(error_of(reader.find_properties::<()>())),
        5 => Some(error_of(reader.find_properties::<(Required<3, i32>, ())>())),
        6 => Some(error_of(reader.find_properties::<(Optional<3, i32>, ())>())),
        7 => Some(error_of(<()>::find_from(reader, &[]))),
        8 => Some(error_of(reader.skip_properties())),
        _ => None,
    }
}

/// Makes the calls of the numbers that it reads first, and answers as the last one.
#[derive(Drop)]
struct CallingVisitor;

impl<'de> Visitor<'de> for CallingVisitor {
    type Value = ();

    type ArrayElem = Never;

    ghost visits = { λ _ _ _. ⊤ };

    ghost visits_struct = { λ _ _ _. ⊤ };

    ghost visits_object = { λ _ _ _ _ _. ⊤ };

    fn visit(&self, _given: Visit<'de, Never>) -> Result<(), DeserializeError<&'de [u8]>>
        ensures made { IfOk result (λ it. ⊤) }
        ensures declined { IfErr result (λ e. ⊤) }
    {
        Err(DeserializeError::UnsupportedType)
    }

    #[tactic(auto, using(spa_typed_read::proofs::Stepping::further_trans, spa_typed_read::proofs::Stepping::all_left))]
    fn visit_struct(
        &self,
        reader: &mut StructPodDeserializer<'de>,
    ) -> Result<(), DeserializeError<&'de [u8]>> {
        let call = member(reader);
        let how = member(reader);
        let refused = refused_member(reader, how);
        if call == 0 {
            return Err(refused);
        }
        match next_member(reader, call) {
            Some(error) => Err(error),
            None => Ok(()),
        }
    }

    #[tactic(auto, using(spa_typed_read::proofs::Stepping::further_in_trans, spa_typed_read::proofs::Stepping::all_left_in))]
    fn visit_object(
        &self,
        reader: &mut ObjectPodDeserializer<'de>,
    ) -> Result<(), DeserializeError<&'de [u8]>> {
        let call = property(reader);
        let how = property(reader);
        let refused = refused_property(reader, how);
        if call == 0 {
            return Err(refused);
        }
        match next_property(reader, call) {
            Some(error) => Err(error),
            None => Ok(()),
        }
    }
}

/// What is read by these calls, of a struct, an object or an array.
#[derive(Drop)]
struct Called<const READER: u8>;

impl<'de> PodDeserialize<'de> for Called<0> {
    ghost reads = { λ _ _. ⊤ };

    fn deserialize(
        deserializer: PodDeserializer<'de>,
    ) -> Result<(Called<0>, DeserializeSuccess<'de>), DeserializeError<&'de [u8]>> {
        let (_, success) = deserializer.deserialize_struct(CallingVisitor)?;
        Ok((Called, success))
    }
}

impl<'de> PodDeserialize<'de> for Called<1> {
    ghost reads = { λ _ _. ⊤ };

    fn deserialize(
        deserializer: PodDeserializer<'de>,
    ) -> Result<(Called<1>, DeserializeSuccess<'de>), DeserializeError<&'de [u8]>> {
        let (_, success) = deserializer.deserialize_object(CallingVisitor)?;
        Ok((Called, success))
    }
}

impl<'de> PodDeserialize<'de> for Called<2> {
    ghost reads = { λ _ _. ⊤ };

    fn deserialize(
        deserializer: PodDeserializer<'de>,
    ) -> Result<(Called<2>, DeserializeSuccess<'de>), DeserializeError<&'de [u8]>> {
        let (mut reader, _) = deserializer.new_array_deserializer::<i32>()?;
        let call = reader.deserialize_element()?;
        let refused = reader.deserialize_element();
        match call {
            0 => Err(error_of(refused)),
            1 => Err(error_of(reader.deserialize_element())),
            _ => Err(error_of(reader.end())),
        }
    }
}

/// The name of a read's answer.
fn name_of<T>(answer: &Result<T, DeserializeError<&[u8]>>) -> &'static str {
    match answer {
        Ok(_) => "accepted",
        Err(DeserializeError::PropertyWrongKey(ACCEPTED)) => "accepted",
        Err(e) => e.kind(),
    }
}

/// A struct of four Ints: a call, how a call before it is refused, as which kind, and 3.
const STRUCT_BYTES: [u8; 72] = [
    64, 0, 0, 0, 14, 0, 0, 0, 4, 0, 0, 0, 4, 0, 0, 0, 0, 0, 0, 0, 0, 0, 0, 0, 4, 0, 0, 0, 4, 0, 0,
    0, 0, 0, 0, 0, 0, 0, 0, 0, 4, 0, 0, 0, 4, 0, 0, 0, 0, 0, 0, 0, 0, 0, 0, 0, 4, 0, 0, 0, 4, 0, 0,
    0, 3, 0, 0, 0, 0, 0, 0, 0,
];

/// An object with these Ints under the keys 0 to 3.
const OBJECT_BYTES: [u8; 112] = [
    104, 0, 0, 0, 15, 0, 0, 0, 5, 0, 0, 0, 3, 0, 0, 0, 0, 0, 0, 0, 0, 0, 0, 0, 4, 0, 0, 0, 4, 0, 0,
    0, 0, 0, 0, 0, 0, 0, 0, 0, 1, 0, 0, 0, 0, 0, 0, 0, 4, 0, 0, 0, 4, 0, 0, 0, 0, 0, 0, 0, 0, 0, 0,
    0, 2, 0, 0, 0, 0, 0, 0, 0, 4, 0, 0, 0, 4, 0, 0, 0, 0, 0, 0, 0, 0, 0, 0, 0, 3, 0, 0, 0, 0, 0, 0,
    0, 4, 0, 0, 0, 4, 0, 0, 0, 3, 0, 0, 0, 0, 0, 0, 0,
];

/// An array of one Int, a call.
const ARRAY_BYTES: [u8; 24] = [
    12, 0, 0, 0, 13, 0, 0, 0, 4, 0, 0, 0, 4, 0, 0, 0, 0, 0, 0, 0, 0, 0, 0, 0,
];

/// What a struct's reader answers to these calls.
fn answer_of_struct(alloc: Global, call: u8, how: u8, kind: u8) -> &'static str {
    let mut bytes = STRUCT_BYTES;
    bytes[16] = call;
    bytes[32] = how;
    bytes[48] = kind;
    name_of(&PodDeserializer::deserialize_from::<Called<0>>(alloc, &bytes))
}

/// What an object's reader answers to these calls.
fn answer_of_object(alloc: Global, call: u8, how: u8, kind: u8) -> &'static str {
    let mut bytes = OBJECT_BYTES;
    bytes[32] = call;
    bytes[56] = how;
    bytes[80] = kind;
    bytes[96] = size_of_last(how);
    name_of(&PodDeserializer::deserialize_from::<Called<1>>(alloc, &bytes))
}

/// What an array's reader answers to this call.
fn answer_of_array(alloc: Global, call: u8) -> &'static str {
    let mut bytes = ARRAY_BYTES;
    bytes[16] = call;
    name_of(&PodDeserializer::deserialize_from::<Called<2>>(alloc, &bytes))
}

/// What the reader of this number answers to these calls.
fn answer(alloc: Global, reader: u8, call: u8, how: u8, kind: u8) -> &'static str {
    match reader {
        0 => answer_of_struct(alloc, call, how, kind),
        1 => answer_of_object(alloc, call, how, kind),
        _ => answer_of_array(alloc, call),
    }
}

/// The size of the last property's Int: a wrong one where the call that is refused skips it.
fn size_of_last(how: u8) -> u8 {
    if how == 5 { 8 } else { 4 }
}

fn assert_named(rt: &impl Abort, found: &str, wanted: &str, refused: &str, call: u8) {
    assert_eq!(rt; found, wanted, "after {refused}, call {call}");
}

/// Compares the answers of all calls after this refused one, and its own, the call 0.
fn assert_row(
    rt: &impl Abort,
    alloc: Global,
    reader: u8,
    how: u8,
    kind: u8,
    row: &(&'static str, &'static str, &'static [&'static str]),
    wanted: &str,
) {
    let (refused, _, answers) = *row;
    assert_named(rt, answer(alloc, reader, 0, how, kind), wanted, refused, 0);
    let mut call = 0_u8;
    for wanted in answers {
        call = call.wrapping_add(1);
        assert_named(
            rt,
            answer(alloc, reader, call, how, kind),
            wanted,
            refused,
            call,
        );
    }
}

/// Compares the answers to all calls of a reader after each refused one.
fn assert_table(rt: &impl Abort, alloc: Global, reader: u8) {
    let mut how = 0_u8;
    for row in rows(reader) {
        let mut kind = 0_u8;
        for name in kinds() {
            let wanted = if row.1.is_empty() { *name } else { row.1 };
            assert_row(rt, alloc, reader, how, kind, row, wanted);
            kind = kind.wrapping_add(1);
        }
        how = how.wrapping_add(1);
    }
}

#[test]
fn a_failed_reader_fails_each_call(rt: HostRuntime) {
    assert_table(&rt, rt.alloc(), 0);
    assert_table(&rt, rt.alloc(), 1);
    assert_table(&rt, rt.alloc(), 2);
}
