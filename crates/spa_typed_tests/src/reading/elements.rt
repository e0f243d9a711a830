//! Arrays, element by element.
ghost use Rattle.std.specs.Prelude.{⊤, IfOk};
ghost use Rattle.spa_typed_read.specs.Members.{IsMadeOf, TakesElements};

use crate::reading::answers::refused;
use spa_fixed_sized::{CanonicalFixedSizedPod, DeserializeError, FixedSizedPod};
use spa_typed_read::{ArrayPodDeserializer, DeserializeSuccess, PodDeserialize, PodDeserializer};
use std::alloc::{AllocError, Global};

/// A loudness, which is a number.
#[derive(Drop)]
struct Level {
    steps: i32,
}

impl FixedSizedPod for Level {
    type CanonicalType = i32;

    ghost to_canonical = { λ level. level.steps };

    ghost of_canonical = { λ steps. record { steps = steps } };

    fn as_canonical_type(&self) -> i32 {
        self.steps
    }

    fn from_canonical_type(canonical: &i32) -> Level {
        Level { steps: *canonical }
    }
}

/// The next element, or the number of its refusal: -1 past the last, -2 of a reader that has failed, -3 else.
fn next(reader: &mut ArrayPodDeserializer<Level>) -> i32 {
    match reader.deserialize_element() {
        Ok(level) => level.steps,
        Err(DeserializeError::NoElementLeft) => -1,
        Err(DeserializeError::FailedReader) => -2,
        Err(_) => -3,
    }
}

/// Three levels and a fourth step, behind which the reader has failed; how many there are is the first number.
#[derive(Drop)]
pub(crate) struct Levels([i32; 5]);

impl<'de> PodDeserialize<'de> for Levels {
    ghost reads = { λ _ _. ⊤ };

    fn deserialize(
        deserializer: PodDeserializer<'de>,
    ) -> Result<(Levels, DeserializeSuccess<'de>), DeserializeError<&'de [u8]>> {
        let (mut reader, _) = deserializer.new_array_deserializer::<Level>()?;
        let first = next(&mut reader);
        let second = next(&mut reader);
        let third = next(&mut reader);
        if first != 10 || second != 15 || third != 19 {
            return Err(DeserializeError::UnsupportedType);
        }
        let fourth = next(&mut reader);
        if fourth != -1 {
            return Err(DeserializeError::UnsupportedType);
        }
        let _ = reader.end()?;
        Err(DeserializeError::PropertyMissing)
    }
}

/// How many elements are left where the reader ends early.
#[derive(Drop)]
pub(crate) struct Early;

impl<'de> PodDeserialize<'de> for Early {
    ghost reads = { λ _ _. ⊤ };

    fn deserialize(
        deserializer: PodDeserializer<'de>,
    ) -> Result<(Early, DeserializeSuccess<'de>), DeserializeError<&'de [u8]>> {
        let (mut reader, count) = deserializer.new_array_deserializer::<Level>()?;
        let first = next(&mut reader);
        if count != 3 || first != 10 {
            return Err(DeserializeError::UnsupportedType);
        }
        let _ = reader.end()?;
        Err(DeserializeError::PropertyMissing)
    }
}

/// A mark, which says nothing.
#[derive(Drop)]
struct Mark;

impl FixedSizedPod for Mark {
    type CanonicalType = ();

    ghost to_canonical = { λ _. tt };

    ghost of_canonical = { λ _. record {} };

    fn as_canonical_type(&self) {}

    fn from_canonical_type(_canonical: &()) -> Mark {
        Mark
    }
}

/// All elements of an array.
#[derive(Drop)]
struct List<E>(Vec<E>);

/// So many elements.
fn taken<'de, E: FixedSizedPod + Drop>(
    reader: &mut ArrayPodDeserializer<'de, E>,
    count: u32,
) -> Result<Vec<E>, DeserializeError<&'de [u8]>>
    ensures { IfOk result (λ elements.
        TakesElements E.CanonicalType.kind E.CanonicalType.fixed E.of_canonical reader.old elements.items reader.new) }
{
    let mut elements = Vec::new(reader.allocator());
    for _ in 0..count {
        let element = reader.deserialize_element()?;
        if elements.reserve(1).is_err() {
            return Err(DeserializeError::OutOfMemory);
        }
        elements.push_reserved(element);
    }
    Ok(elements)
}

impl<'de, E: FixedSizedPod + Drop> PodDeserialize<'de> for List<E> {
    ghost reads = { λ value it. IsMadeOf E.CanonicalType.kind E.CanonicalType.fixed E.of_canonical it.0.items value };

    fn deserialize(
        deserializer: PodDeserializer<'de>,
    ) -> Result<(List<E>, DeserializeSuccess<'de>), DeserializeError<&'de [u8]>> {
        let (mut reader, count) = deserializer.new_array_deserializer::<E>()?;
        let elements = taken(&mut reader, count)?;
        let success = reader.end()?;
        Ok((List(elements), success))
    }
}

/// A mark, of an array of them.
#[derive(Drop)]
pub(crate) struct First;

impl<'de> PodDeserialize<'de> for First {
    ghost reads = { λ _ _. ⊤ };

    fn deserialize(
        deserializer: PodDeserializer<'de>,
    ) -> Result<(First, DeserializeSuccess<'de>), DeserializeError<&'de [u8]>> {
        let (mut reader, _) = deserializer.new_array_deserializer::<Mark>()?;
        match reader.deserialize_element() {
            Ok(_) => Err(DeserializeError::UnsupportedType),
            Err(e) => Err(e),
        }
    }
}

/// The steps of each level.
fn steps(alloc: Global, list: &List<Level>) -> Result<String, AllocError> {
    let steps: Vec<i32> = list.0.iter().map(|level| level.steps).collect(alloc)?;
    format!(in alloc; "{steps:?}")
}

/// What a read of levels answers: their steps.
pub(crate) fn steps_said(alloc: Global, input: &[u8]) -> Result<String, AllocError> {
    let read: Result<(&[u8], List<Level>), DeserializeError<&[u8]>> =
        PodDeserializer::deserialize_from(alloc, input);
    match read {
        Ok((_, list)) => steps(alloc, &list),
        Err(error) => refused(alloc, error),
    }
}

/// What a read of marks answers: how many they are.
pub(crate) fn marks_said(alloc: Global, input: &[u8]) -> Result<String, AllocError> {
    let read: Result<(&[u8], List<Mark>), DeserializeError<&[u8]>> =
        PodDeserializer::deserialize_from(alloc, input);
    match read {
        Ok((_, list)) => format!(in alloc; "{}", list.0.len()),
        Err(error) => refused(alloc, error),
    }
}
