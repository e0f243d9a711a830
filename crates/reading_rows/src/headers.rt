//! How many pod headers a read opens, and values that stand deep in one another, copied and compared.
use crate::lenient::answer_leniently;
use spa_fixed_sized::DeserializeError;
use spa_typed_read::PodDeserializer;
use spa_value::{Held, Value, same};
use std::alloc::{AllocError, Global};
use test_bytes::{nested_pods, push_words};

/// More levels than a stack of 8 MB holds of a drop that calls itself for each of them.
const DEPTH: u32 = 100_000;

/// How many words the innermost pod has.
const INNER: usize = 2;

/// Appends the answer to a row. `headers`: the result of a counted read of the input. `opened`: the result of a counted read of nested pods;
/// the first word is the number of levels, the last two are the innermost pod, and those between stand behind the size word of each other pod.
/// `same`: whether two nests of `DEPTH` levels compare as `same`, each around one of the last two pods. `held`: whether a `Held` value is
/// borrowed and given back.
pub(crate) fn answer_headers(
    alloc: Global,
    word: &str,
    input: &[u8],
    words: &[u32],
    answers: &mut String,
) -> Result<(), AllocError> {
    let (head, inner) = words.split_at(words.len().saturating_sub(INNER));
    match word {
        "headers" => push_counted(alloc, input, answers),
        "opened" => {
            let (levels, head) = head.split_at(1.min(head.len()));
            let levels = levels.first().copied().unwrap_or(0);
            let pods = nested_pods(alloc, levels, head, inner)?;
            push_counted(alloc, pods.as_slice(), answers)
        }
        "same" => {
            let (head, other) = head.split_at(head.len().saturating_sub(INNER));
            let one = deep_pods(alloc, head, inner)?;
            let other = deep_pods(alloc, head, other)?;
            push_same(alloc, one.as_slice(), one.as_slice(), answers)?;
            push_same(alloc, one.as_slice(), other.as_slice(), answers)
        }
        "held" => push_held(alloc, input, answers),
        _ => answer_leniently(alloc, word, input, words, answers),
    }
}

/// Appends what a counted read answers, how many headers it opens, and how deep the clone of its value is.
fn push_counted(alloc: Global, input: &[u8], answers: &mut String) -> Result<(), AllocError> {
    let (answer, count) = PodDeserializer::deserialize_any_counted(alloc, input);
    match answer {
        Ok((_, value)) => {
            let value = Held::from(value);
            let copied: Result<Value, AllocError> = (*value).clone();
            let levels = levels_of(&Held::from(copied?));
            write!(
                answers,
                " accepted, {count} headers, a clone of {levels} levels"
            )
        }
        Err(DeserializeError::OutOfMemory) => Err(AllocError),
        Err(error) => write!(answers, " {}, {count} headers", error.kind()),
    }
}

/// What stands first in a struct, or what an object's first property holds.
fn first_inside(value: &Value) -> Option<&Value> {
    match value {
        Value::Struct(members) => members.as_slice().first(),
        Value::Object(object) => match object.properties.as_slice().first() {
            Some(property) => Some(&property.value),
            None => None,
        },
        _ => None,
    }
}

/// How many structs and objects stand in one another, each first in the one around it, around what holds nothing.
fn levels_of(value: &Value) -> u32 {
    let mut innermost = value;
    for level in 0..DEPTH {
        let Some(inner) = first_inside(innermost) else {
            return level;
        };
        innermost = inner;
    }
    DEPTH
}

/// The bytes of pods so deep; with no words of a head, of structs each with the next one first and a None behind it.
fn deep_pods(alloc: Global, head: &[u32], inner: &[u32]) -> Result<Vec<u8>, AllocError> {
    if !head.is_empty() {
        return nested_pods(alloc, DEPTH, head, inner);
    }
    let mut input = Vec::new(alloc);
    for level in 0..DEPTH {
        push_words(&mut input, &[(DEPTH - level).saturating_mul(16), 14])?;
    }
    push_words(&mut input, inner)?;
    for _ in 0..DEPTH {
        push_words(&mut input, &[0, 1])?;
    }
    Ok(input)
}

/// Appends whether `same` holds of the values at the fronts of the two inputs, each way round.
fn push_same(
    alloc: Global,
    one: &[u8],
    other: &[u8],
    answers: &mut String,
) -> Result<(), AllocError> {
    match (read(alloc, one)?, read(alloc, other)?) {
        (Some(one), Some(other)) => {
            let forth = same(alloc, &*one, &*other)?;
            let back = same(alloc, &*other, &*one)?;
            write!(answers, " {forth} {back}")
        }
        _ => answers.push_str(" refused"),
    }
}

/// The value at the front, if it is there.
fn read(alloc: Global, input: &[u8]) -> Result<Option<Held>, AllocError> {
    match PodDeserializer::deserialize_any_from(alloc, input) {
        Ok((_, value)) => Ok(Some(Held::from(value))),
        Err(DeserializeError::OutOfMemory) => Err(AllocError),
        Err(_) => Ok(None),
    }
}

/// Appends whether what a `Held` was made of is lent, and handed back.
fn push_held(alloc: Global, input: &[u8], answers: &mut String) -> Result<(), AllocError> {
    match (read(alloc, input)?, read(alloc, input)?) {
        (Some(held), Some(twin)) => {
            let lent = *held == *twin;
            let inner = Held::from(held.into_inner());
            write!(answers, " lent: {lent}, handed back: {}", *inner == *twin)
        }
        _ => answers.push_str(" refused"),
    }
}
