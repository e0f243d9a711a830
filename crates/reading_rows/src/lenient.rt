//! Rewriting in the lenient reading, by each call that reads so.
use crate::depth::words_of;
use crate::front::encoding;
use crate::lists::{Answer, BEFORE, answer_of, is_left_so, push_appended};
use spa_fixed_sized::DeserializeError;
use spa_lenient::{
    rewrite_all_leniently, rewrite_in_place_leniently, rewrite_into_leniently, rewrite_leniently,
};
use spa_typed_read::PodDeserializer;
use spa_value::Held;
use std::alloc::{AllocError, Global};
use test_bytes::{bytes_of, nested_structs, push_spelling, push_words};

/// A pod that is accepted exactly, of 16 bytes.
const EXACT: &[u32] = &[4, 2, 7, 9];

/// Its encoding.
const ENCODED: &[u32] = &[4, 2, 1, 0];

/// How many bytes that pod has, and how many the innermost pod of a row about depth.
const POD_LEN: usize = 16;

/// What each byte of a buffer holds before a list is rewritten into it.
const FILL: u8 = 0x5a;

/// By how many bytes the longer buffer is longer than the list.
const MORE: usize = 8;

/// What the front is rewritten to, or the fault for which it is refused.
type Rewriting = Result<Vec<u8>, &'static str>;

/// Appends the answer to a row: of `lenient` the rewriting of the front; of `lenient-list` that of a list; of `lenient-nested` the innermost pod
/// of the rewriting of structs in one another, as many as the first word says, around the pod of the other words.
pub(crate) fn answer_leniently(
    alloc: Global,
    word: &str,
    input: &[u8],
    words: &[u32],
    answers: &mut String,
) -> Result<(), AllocError> {
    match word {
        "lenient" => push_front(alloc, input, answers),
        "lenient-list" => push_list(alloc, input, answers),
        "lenient-nested" => push_nested(alloc, words, answers),
        _ => answers.push_str(" no such row"),
    }
}

/// What the front is rewritten to.
fn rewritten(alloc: Global, input: &[u8]) -> Result<Rewriting, AllocError> {
    match rewrite_leniently(alloc, input) {
        Ok((_, bytes)) => Ok(Ok(bytes)),
        Err(DeserializeError::OutOfMemory) => Err(AllocError),
        Err(error) => Ok(Err(error.kind())),
    }
}

/// The encoding of the value that is read of the front.
fn read(alloc: Global, input: &[u8]) -> Result<Rewriting, AllocError> {
    match PodDeserializer::deserialize_any_leniently_from(alloc, input) {
        Ok((_, value)) => Ok(Ok(encoding(alloc, &Held::from(value))?)),
        Err(DeserializeError::OutOfMemory) => Err(AllocError),
        Err(error) => Ok(Err(error.kind())),
    }
}

/// Whether a call found these bytes, or this fault.
fn is_so(found: &Rewriting, wanted: Result<&[u8], &'static str>) -> bool {
    match (found, wanted) {
        (Ok(bytes), Ok(encoding)) => bytes.as_slice() == encoding,
        (Err(name), Err(fault)) => *name == fault,
        _ => false,
    }
}

/// Appends what the front is rewritten to, or why it is refused, and which calls answer something else.
fn push_front(alloc: Global, input: &[u8], answers: &mut String) -> Result<(), AllocError> {
    match rewritten(alloc, input)? {
        Ok(bytes) => {
            let encoding = bytes.as_slice();
            push_spelling(answers, encoding)?;
            push_others(alloc, input, Ok(encoding), answers)
        }
        Err(name) => {
            write!(answers, " refused {name}")?;
            push_others(alloc, input, Err(name), answers)
        }
    }
}

/// Appends which calls answer something else than this rewriting of the front: the read, a struct's rewriting, a list's.
fn push_others(
    alloc: Global,
    input: &[u8],
    wanted: Result<&[u8], &'static str>,
    answers: &mut String,
) -> Result<(), AllocError> {
    if !is_so(&read(alloc, input)?, wanted) {
        answers.push_str("; but its value has another encoding")?;
    }
    if !is_so_in_struct(alloc, input, wanted)? {
        answers.push_str("; but in a struct it is something else")?;
    }
    let list = between(alloc, EXACT, input)?;
    match wanted {
        Ok(encoding) => {
            let encodings = between(alloc, ENCODED, encoding)?;
            push_disputes(
                alloc,
                list.as_slice(),
                encodings.as_slice(),
                Ok(()),
                answers,
            )
        }
        Err(name) => {
            let left = list.len().saturating_sub(POD_LEN);
            push_disputes(alloc, list.as_slice(), &[], Err((name, left)), answers)
        }
    }
}

/// A pod between two others.
fn between(alloc: Global, other: &[u32], pod: &[u8]) -> Result<Vec<u8>, AllocError> {
    let mut bytes = bytes_of(alloc, other)?;
    bytes.extend_from_slice(pod)?;
    push_words(&mut bytes, other)?;
    Ok(bytes)
}

/// A struct of a pod between two others.
fn struct_between(alloc: Global, other: &[u32], pod: &[u8]) -> Result<Vec<u8>, AllocError> {
    let members = between(alloc, other, pod)?;
    let size = u32::try_from(members.len()).unwrap_or(u32::MAX);
    let mut bytes = bytes_of(alloc, &[size, 14])?;
    bytes.extend_from_slice(members.as_slice())?;
    Ok(bytes)
}

/// Whether the rewriting of a struct is that of its members.
fn is_so_in_struct(
    alloc: Global,
    input: &[u8],
    wanted: Result<&[u8], &'static str>,
) -> Result<bool, AllocError> {
    let pod = struct_between(alloc, EXACT, input)?;
    let found = rewritten(alloc, pod.as_slice())?;
    match wanted {
        Ok(encoding) => {
            let wanted = struct_between(alloc, ENCODED, encoding)?;
            Ok(is_so(&found, Ok(wanted.as_slice())))
        }
        Err(name) => Ok(is_so(&found, Err(name))),
    }
}

/// Appends what a list is rewritten to, or why and where it is refused, and which calls answer something else.
fn push_list(alloc: Global, input: &[u8], answers: &mut String) -> Result<(), AllocError> {
    let mut out = Vec::from_slice(alloc, BEFORE)?;
    let answer = answer_of(rewrite_all_leniently(input, &mut out))?;
    let encodings = push_appended(input, out.as_slice(), answer, answers)?;
    push_disputes(alloc, input, encodings, answer, answers)
}

/// Appends the innermost pod of the rewriting of structs in one another, and which calls answer something else than it in as many structs.
fn push_nested(alloc: Global, words: &[u32], answers: &mut String) -> Result<(), AllocError> {
    let (levels, inner) = words.split_at(1.min(words.len()));
    let levels = levels.first().copied().unwrap_or(0);
    let input = nested_structs(alloc, levels, inner)?;
    let mut out = Vec::new(alloc);
    let answer = answer_of(rewrite_all_leniently(input.as_slice(), &mut out))?;
    let (_, innermost) = out.split_at(out.len().saturating_sub(POD_LEN));
    push_spelling(answers, innermost)?;
    let inner = words_of(alloc, innermost)?;
    let wanted = nested_structs(alloc, levels, inner.as_slice())?;
    push_disputes(alloc, input.as_slice(), wanted.as_slice(), answer, answers)
}

/// Appends which of the calls that rewrite a list answer something else.
fn push_disputes(
    alloc: Global,
    list: &[u8],
    encodings: &[u8],
    answer: Answer,
    answers: &mut String,
) -> Result<(), AllocError> {
    if !is_so_behind(alloc, list, encodings, answer)? {
        answers.push_str("; but behind other bytes it is something else")?;
    }
    if !is_so_in_place(alloc, list, encodings, answer)? {
        answers.push_str("; but in place it is something else")?;
    }
    if !is_so_in_room(
        alloc,
        list,
        list.len().saturating_add(MORE),
        encodings,
        answer,
    )? {
        answers.push_str("; but in a buffer it is something else")?;
    }
    if !is_so_in_room(alloc, list, list.len().saturating_sub(1), encodings, answer)? {
        answers.push_str("; but a short buffer is answered otherwise")?;
    }
    Ok(())
}

/// Whether these encodings are appended to what an output holds.
fn is_so_behind(
    alloc: Global,
    list: &[u8],
    encodings: &[u8],
    answer: Answer,
) -> Result<bool, AllocError> {
    let mut out = Vec::from_slice(alloc, BEFORE)?;
    let found = answer_of(rewrite_all_leniently(list, &mut out))?;
    let (before, appended) = out.split_at(BEFORE.len().min(out.len()));
    Ok(found == answer && before == BEFORE && appended == encodings)
}

/// Whether the rewriting in place is this one.
fn is_so_in_place(
    alloc: Global,
    list: &[u8],
    encodings: &[u8],
    answer: Answer,
) -> Result<bool, AllocError> {
    let mut bytes = Vec::from_slice(alloc, list)?;
    let found = rewrite_in_place_leniently(alloc, bytes.as_mut_slice());
    is_left_so(found, bytes.as_slice(), list, encodings, answer)
}

/// Whether the rewriting into a buffer of so many bytes is this one, and nothing changes behind as many bytes as the list has. To a buffer that is
/// shorter than the list nothing is written, and the length alone answered; nor is anything where the list is refused.
fn is_so_in_room(
    alloc: Global,
    list: &[u8],
    room: usize,
    encodings: &[u8],
    answer: Answer,
) -> Result<bool, AllocError> {
    let mut out = filled(alloc, room)?;
    let found = match rewrite_into_leniently(alloc, list, out.as_mut_slice()) {
        Ok(len) if len == encodings.len() => Ok(()),
        Ok(_) => return Ok(false),
        Err(refusal) => answer_of(Err(refusal))?,
    };
    let untouched = filled(alloc, room)?;
    let is_unwritten = room < list.len() || answer.is_err();
    let written = if is_unwritten { &[] } else { encodings };
    let behind = if is_unwritten { 0 } else { list.len() };
    let (out, untouched) = (out.as_slice(), untouched.as_slice());
    Ok(
        found == answer
            && out.get(..written.len()) == Some(written)
            && out.get(behind..) == untouched.get(behind..),
    )
}

/// A buffer of so many bytes.
fn filled(alloc: Global, len: usize) -> Result<Vec<u8>, AllocError> {
    let mut out = Vec::new(alloc);
    for _ in 0..len {
        out.push(FILL)?;
    }
    Ok(out)
}
