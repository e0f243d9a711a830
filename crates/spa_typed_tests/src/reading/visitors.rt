//! Each typed read, with the visitor of what it hands over.
ghost use Rattle.std.specs.Prelude.{⊤, ◌≡◌, IfOk, IsOk, OnOk};
ghost use Rattle.spa_bodies.specs.Reading.{IsRead};

use crate::compare::assert_said;
use crate::reading::answering::AnsweringVisitor;
use crate::reading::answers::refused;
use spa_fixed_sized::DeserializeError;
use spa_typed_read::{DeserializeSuccess, PodDeserialize, PodDeserializer};
use spa_visitors::{
    BitmapVisitor, BoolVisitor, BytesVisitor, DoubleVisitor, FdVisitor, FloatVisitor,
    FractionVisitor, Handed, HandedVisitor, IdVisitor, IntVisitor, LongVisitor, NoneVisitor,
    PointerVisitor, RectangleVisitor, StringVisitor, ValueVisitor, VecVisitor,
};
use std::alloc::{AllocError, Global};
use std::fmt::Debug;
use std::marker::PhantomData;
use std::process::Abort;
use std::test::Fail;
use test_bytes::bytes_of;

/// The answer of a call, by its number, as a text: of the numbers below with the visitor of `T`, of others with one of their own.
#[derive(Drop)]
pub(crate) struct Answer<T, const CALL: u8>(String, PhantomData<T>);

/// The calls that hand a choice, a struct and an object to the visitor of a type.
pub(crate) const CHOICE: u8 = 97;

pub(crate) const STRUCT: u8 = 98;

pub(crate) const OBJECT: u8 = 99;

/// What a call's visitor made, as a text, and what follows the pod; or the refusal.
type Said<'de> = Result<(String, DeserializeSuccess<'de>), DeserializeError<&'de [u8]>>;

/// That, of what the call answers.
fn said<'de, T: Debug + Drop>(
    alloc: Global,
    read: Result<(T, DeserializeSuccess<'de>), DeserializeError<&'de [u8]>>,
) -> Said<'de>
    ensures ok { OnOk result (IsOk read.entry) }
    ensures rest { IfOk result (λ it. IfOk read.entry (λ r. it.1 ≡ r.1)) }
{
    let (made, success) = read?;
    match format!(in alloc; "{made:?}") {
        Ok(text) => Ok((text, success)),
        Err(_) => Err(DeserializeError::OutOfMemory),
    }
}

/// The calls for lone numbers but floats. The first numbers of calls are those of the pods' types.
#[tactic(auto, using(spa_typed_read::proofs::Stepping::visited_any, spa_typed_read::proofs::Stepping::read_any))]
fn number_call<'de>(alloc: Global, call: u8, deserializer: PodDeserializer<'de>) -> Said<'de>
    ensures { IfOk result (λ it. IsRead deserializer.entry it.1 (λ _. ⊤)) }
{
    match call {
        1 => said(alloc, deserializer.deserialize_none(NoneVisitor)),
        2 => said(alloc, deserializer.deserialize_bool(BoolVisitor)),
        3 => said(alloc, deserializer.deserialize_id(IdVisitor)),
        4 => said(alloc, deserializer.deserialize_int(IntVisitor)),
        5 => said(alloc, deserializer.deserialize_long(LongVisitor)),
        _ => pair_call(alloc, call, deserializer),
    }
}

/// The calls for floats, pairs of numbers and file descriptors.
#[tactic(auto, using(spa_typed_read::proofs::Stepping::visited_any, spa_typed_read::proofs::Stepping::read_any))]
fn pair_call<'de>(alloc: Global, call: u8, deserializer: PodDeserializer<'de>) -> Said<'de>
    ensures { IfOk result (λ it. IsRead deserializer.entry it.1 (λ _. ⊤)) }
{
    match call {
        6 => said(alloc, deserializer.deserialize_float(FloatVisitor)),
        7 => said(alloc, deserializer.deserialize_double(DoubleVisitor)),
        10 => said(alloc, deserializer.deserialize_rectangle(RectangleVisitor)),
        11 => said(alloc, deserializer.deserialize_fraction(FractionVisitor)),
        18 => said(alloc, deserializer.deserialize_fd(FdVisitor)),
        _ => plain_call(alloc, call, deserializer),
    }
}

/// The calls for bodies without members.
#[tactic(auto, using(spa_typed_read::proofs::Stepping::visited_any, spa_typed_read::proofs::Stepping::read_any))]
fn plain_call<'de>(alloc: Global, call: u8, deserializer: PodDeserializer<'de>) -> Said<'de>
    ensures { IfOk result (λ it. IsRead deserializer.entry it.1 (λ _. ⊤)) }
{
    match call {
        8 => said(alloc, deserializer.deserialize_str(StringVisitor)),
        9 => said(alloc, deserializer.deserialize_bytes(BytesVisitor)),
        12 => said(alloc, deserializer.deserialize_bitmap(BitmapVisitor)),
        13 => said(
            alloc,
            deserializer.deserialize_array(VecVisitor::<i32>::default()),
        ),
        17 => said(alloc, deserializer.deserialize_pointer(PointerVisitor)),
        _ => value_call(alloc, call, deserializer),
    }
}

/// The calls with the visitor that makes values, with a visitor of something else, and with one that tells what is read.
#[tactic(auto, using(spa_typed_read::proofs::Stepping::visited_any, spa_typed_read::proofs::Stepping::read_any))]
fn value_call<'de>(alloc: Global, call: u8, deserializer: PodDeserializer<'de>) -> Said<'de>
    ensures { IfOk result (λ it. IsRead deserializer.entry it.1 (λ _. ⊤)) }
{
    match call {
        14 => said(
            alloc,
            deserializer.deserialize_struct(ValueVisitor { alloc }),
        ),
        15 => said(
            alloc,
            deserializer.deserialize_object(ValueVisitor { alloc }),
        ),
        20 => said(
            alloc,
            deserializer.deserialize_choice(ValueVisitor { alloc }),
        ),
        21 => said(alloc, deserializer.deserialize_int(BoolVisitor)),
        22 => said(alloc, deserializer.deserialize_struct(AnsweringVisitor)),
        23 => said(alloc, deserializer.deserialize_object(AnsweringVisitor)),
        _ => declined_call(alloc, call, deserializer),
    }
}

/// The calls with visitors of what isn't handed over as such, which decline a struct, and two that decline an object.
#[tactic(auto, using(spa_typed_read::proofs::Stepping::visited_any, spa_typed_read::proofs::Stepping::read_any))]
fn declined_call<'de>(alloc: Global, call: u8, deserializer: PodDeserializer<'de>) -> Said<'de>
    ensures { IfOk result (λ it. IsRead deserializer.entry it.1 (λ _. ⊤)) }
{
    match call {
        70 => said(alloc, deserializer.deserialize_struct(StringVisitor)),
        71 => said(alloc, deserializer.deserialize_struct(BytesVisitor)),
        72 => said(alloc, deserializer.deserialize_struct(BitmapVisitor)),
        73 => said(alloc, deserializer.deserialize_struct(PointerVisitor)),
        74 => said(
            alloc,
            deserializer.deserialize_struct(VecVisitor::<i32>::default()),
        ),
        85 => said(alloc, deserializer.deserialize_object(StringVisitor)),
        _ => said(
            alloc,
            deserializer.deserialize_object(VecVisitor::<i32>::default()),
        ),
    }
}

/// The calls with the visitor of `T`, and the others by their number.
#[tactic(auto, using(spa_typed_read::proofs::Stepping::visited_any, spa_typed_read::proofs::Stepping::read_any))]
fn visited<'de, T: Handed + Debug, const CALL: u8>(
    alloc: Global,
    deserializer: PodDeserializer<'de>,
) -> Said<'de>
    ensures { IfOk result (λ it. IsRead deserializer.entry it.1 (λ _. ⊤)) }
{
    let visitor = HandedVisitor::<T>::default();
    match CALL {
        CHOICE => said(alloc, deserializer.deserialize_choice(visitor)),
        STRUCT => said(alloc, deserializer.deserialize_struct(visitor)),
        OBJECT => said(alloc, deserializer.deserialize_object(visitor)),
        _ => number_call(alloc, CALL, deserializer),
    }
}

impl<'de, T: Handed + Debug, const CALL: u8> PodDeserialize<'de> for Answer<T, CALL> {
    ghost reads = { λ _ _. ⊤ };

    fn deserialize(
        deserializer: PodDeserializer<'de>,
    ) -> Result<(Answer<T, CALL>, DeserializeSuccess<'de>), DeserializeError<&'de [u8]>> {
        let alloc = deserializer.allocator();
        let (text, success) = visited::<T, CALL>(alloc, deserializer)?;
        Ok((Answer(text, PhantomData), success))
    }
}

/// What the call of this number answers, or its refusal's name.
pub(crate) fn answered<T: Handed + Debug, const CALL: u8>(
    alloc: Global,
    input: &[u8],
) -> Result<String, AllocError> {
    match PodDeserializer::deserialize_from::<Answer<T, CALL>>(alloc, input) {
        Ok((_, answer)) => Ok(answer.0),
        Err(error) => refused(alloc, error),
    }
}

/// What the call of a number answers that is known only when the test runs, or its refusal's name.
pub(crate) fn called(alloc: Global, call: u8, input: &[u8]) -> Result<String, AllocError> {
    match call {
        1 => answered::<(), 1>(alloc, input),
        2 => answered::<(), 2>(alloc, input),
        3 => answered::<(), 3>(alloc, input),
        4 => answered::<(), 4>(alloc, input),
        5 => answered::<(), 5>(alloc, input),
        6 => answered::<(), 6>(alloc, input),
        7 => answered::<(), 7>(alloc, input),
        8 => answered::<(), 8>(alloc, input),
        9 => answered::<(), 9>(alloc, input),
        10 => answered::<(), 10>(alloc, input),
        11 => answered::<(), 11>(alloc, input),
        12 => answered::<(), 12>(alloc, input),
        13 => answered::<(), 13>(alloc, input),
        14 => answered::<(), 14>(alloc, input),
        15 => answered::<(), 15>(alloc, input),
        17 => answered::<(), 17>(alloc, input),
        18 => answered::<(), 18>(alloc, input),
        20 => answered::<(), 20>(alloc, input),
        21 => answered::<(), 21>(alloc, input),
        22 => answered::<(), 22>(alloc, input),
        23 => answered::<(), 23>(alloc, input),
        70 => answered::<(), 70>(alloc, input),
        71 => answered::<(), 71>(alloc, input),
        72 => answered::<(), 72>(alloc, input),
        73 => answered::<(), 73>(alloc, input),
        74 => answered::<(), 74>(alloc, input),
        85 => answered::<(), 85>(alloc, input),
        86 => answered::<(), 86>(alloc, input),
        _ => String::from_str(alloc, "no such call"),
    }
}

/// How deep a value is nested: deeper than a stack holds that grows with each level.
const DEPTH: u32 = 100_000;

/// These words, structs nested so deep, and these words behind them.
fn deep(alloc: Global, before: &[u32], behind: &[u32]) -> Result<Vec<u8>, AllocError> {
    let mut input = bytes_of(alloc, before)?;
    for level in 0..DEPTH {
        let size = (DEPTH - 1 - level) * 8;
        input.extend_from_slice(&size.to_le_bytes())?;
        input.extend_from_slice(&14u32.to_le_bytes())?;
    }
    for word in behind {
        input.extend_from_slice(&word.to_le_bytes())?;
    }
    Ok(input)
}

/// Compares what a call answers to these words around the deep value with a refusal.
fn assert_deep_refused(
    rt: &impl Abort,
    alloc: Global,
    call: u8,
    before: &[u32],
    behind: &[u32],
) -> Result<(), Fail> {
    let input = deep(alloc, before, behind)?;
    let found = called(alloc, call, input.as_slice())?;
    assert_said(rt, found.as_str(), "InvalidType", "a deep value");
    Ok(())
}

/// What stands in an object before its first value, which is so deep.
const IN_OBJECT: &[u32] = &[800_032, 15, 5, 3, 1, 0];

/// What was made of the values before a refused one is taken apart without a stack that grows with each level.
#[test]
fn depth_before_a_refused_value(rt: HostRuntime) -> Result<(), Fail> {
    assert_deep_refused(&rt, rt.alloc(), 14, &[800_008, 14], &[0, 21])?;
    assert_deep_refused(&rt, rt.alloc(), 15, IN_OBJECT, &[2, 0, 0, 21])
}
