//! What the reader finds at the front of an input.
use crate::views::shows;
use spa_fixed_sized::DeserializeError;
use spa_sink::GenError;
use spa_typed_read::{DeserializeSuccess, PodDeserialize, PodDeserializer};
use spa_typed_write::PodSerializer;
use spa_value::{Held, Value, same};
use spa_view::Pod;
use std::alloc::{AllocError, Global};
use test_bytes::push_spelling;

/// What the front of an input is read as.
#[derive(Drop)]
pub(crate) enum Front<'a> {
    /// The text of its value, the encoding of that, and what follows the front.
    Accepted(String, Vec<u8>, &'a [u8]),
    /// The name of the fault for which it is refused, and what is left from its place on, where the refusal gives that.
    Refused(&'static str, Option<&'a [u8]>),
}

/// What a read of a value answers: what follows the front, and the value, or the refusal.
type Answer<'a> = Result<(&'a [u8], Held), DeserializeError<&'a [u8]>>;

/// A user's type, which is read by the deserializer's own calls.
#[derive(Drop)]
struct Any(Held);

impl<'de> PodDeserialize<'de> for Any {
    ghost use Rattle.spa_value.specs.View.{view};
    ghost use Rattle.std.specs.Prelude.{◌≡◌};

    ghost reads = { λ value it. view it.0 ≡ value };

    fn deserialize(
        deserializer: PodDeserializer<'de>,
    ) -> Result<(Any, DeserializeSuccess<'de>), DeserializeError<&'de [u8]>> {
        let _alloc = deserializer.allocator();
        let (value, success) = deserializer.deserialize_any()?;
        Ok((Any(Held::from(value)), success))
    }
}

/// What the type `Value` is read as, held: a crate that has a `Value` dropped proves how that is taken apart.
#[derive(Drop)]
pub(crate) struct Typed(Held);

impl<'de> PodDeserialize<'de> for Typed {
    ghost use Rattle.spa_value.specs.View.{view};
    ghost use Rattle.std.specs.Prelude.{◌≡◌};

    ghost reads = { λ value it. view it.0 ≡ value };

    fn deserialize(
        deserializer: PodDeserializer<'de>,
    ) -> Result<(Typed, DeserializeSuccess<'de>), DeserializeError<&'de [u8]>> {
        let (value, success) = Value::deserialize(deserializer)?;
        Ok((Typed(Held::from(value)), success))
    }
}

/// What the read of any value answers.
fn read(alloc: Global, input: &[u8]) -> Answer<'_> {
    let (rest, value) = PodDeserializer::deserialize_any_from(alloc, input)?;
    Ok((rest, Held::from(value)))
}

/// What the read by the type `Value` answers.
fn typed_read(alloc: Global, input: &[u8]) -> Answer<'_> {
    let (rest, Typed(value)) = PodDeserializer::deserialize_from(alloc, input)?;
    Ok((rest, value))
}

/// What the read by the user's type answers.
fn user_read(alloc: Global, input: &[u8]) -> Answer<'_> {
    let (rest, Any(value)) = PodDeserializer::deserialize_from(alloc, input)?;
    Ok((rest, value))
}

/// What the front of an input is read as.
pub(crate) fn front_of(alloc: Global, input: &[u8]) -> Result<Front<'_>, AllocError> {
    front_in(alloc, read(alloc, input))
}

/// What a read answered.
fn front_in<'a>(alloc: Global, answer: Answer<'a>) -> Result<Front<'a>, AllocError> {
    match answer {
        Ok((rest, value)) => accepted(alloc, &*value, rest),
        Err(DeserializeError::OutOfMemory) => Err(AllocError),
        Err(error) => Ok(refused(error)),
    }
}

fn accepted<'a>(alloc: Global, value: &Value, rest: &'a [u8]) -> Result<Front<'a>, AllocError> {
    let text = format!(in alloc; "{value:?}")?;
    Ok(Front::Accepted(text, encoding(alloc, value)?, rest))
}

fn refused(error: DeserializeError<&[u8]>) -> Front<'_> {
    let name = error.kind();
    match error {
        DeserializeError::Nom(fault) => Front::Refused(name, Some(fault.input)),
        _ => Front::Refused(name, None),
    }
}

/// The encoding of a value; nothing where the writer refuses it, or doesn't say how many bytes it wrote.
pub(crate) fn encoding(alloc: Global, value: &Value) -> Result<Vec<u8>, AllocError> {
    match PodSerializer::serialize(Vec::new(alloc), value) {
        Ok((bytes, count)) if bytes.len() as u64 == count => Ok(bytes),
        Err(GenError::OutOfMemory) => Err(AllocError),
        _ => Ok(Vec::new(alloc)),
    }
}

/// The bytes of an input before what follows its front.
pub(crate) fn before<'a>(input: &'a [u8], rest: &[u8]) -> &'a [u8] {
    input.split_at(input.len().saturating_sub(rest.len())).0
}

/// Appends what the front of an input is read as, and which ways of reading it, or what is made of its value, answer something else. Says
/// how many bytes an accepted front has.
pub(crate) fn push_front(
    alloc: Global,
    input: &[u8],
    answers: &mut String,
) -> Result<usize, AllocError> {
    let front = front_of(alloc, input)?;
    let len = push_read(&front, input, answers)?;
    if !are_alike(&front, &front_in(alloc, typed_read(alloc, input))?) {
        answers.push_str("; but not by its type")?;
    }
    if !are_alike(&front, &front_in(alloc, user_read(alloc, input))?) {
        answers.push_str("; but not by a user's type")?;
    }
    if let Ok((_, value)) = read(alloc, input) {
        push_doubt_of(alloc, input, &*value, answers)?;
    }
    Ok(len)
}

/// Appends what was read, and says how many bytes an accepted front has.
fn push_read(front: &Front<'_>, input: &[u8], answers: &mut String) -> Result<usize, AllocError> {
    match front {
        Front::Accepted(text, encoding, rest) => {
            write!(answers, " {text}, {} bytes behind,", rest.len())?;
            let pod = before(input, rest);
            if encoding.as_slice() == pod {
                answers.push_str(" canonical")?;
            } else {
                push_spelling(answers, encoding.as_slice())?;
            }
            Ok(pod.len())
        }
        Front::Refused(name, place) => {
            write!(answers, " refused {name}")?;
            if let Some(place) = place {
                write!(answers, ", {} left", place.len())?;
            }
            Ok(0)
        }
    }
}

/// Whether two reads of one input answered the same.
fn are_alike(one: &Front<'_>, other: &Front<'_>) -> bool {
    match (one, other) {
        (Front::Accepted(text, _, rest), Front::Accepted(said, _, left)) => {
            text.as_str() == said.as_str() && rest.len() == left.len()
        }
        (Front::Refused(name, place), Front::Refused(other, at)) => name == other && place == at,
        _ => false,
    }
}

/// Appends whether the clone of a value that is read, or its view, is another value.
fn push_doubt_of(
    alloc: Global,
    input: &[u8],
    value: &Value,
    answers: &mut String,
) -> Result<(), AllocError> {
    let clone = Held::from(value.clone()?);
    if *clone != *value || !same(alloc, &clone, value)? {
        answers.push_str("; but its clone is another value")?;
    }
    match Pod::from_bytes(input) {
        Some(pod) if shows(pod, value) => Ok(()),
        _ => answers.push_str("; but its view shows another value"),
    }
}
