//! Rewriting lists of pods, by the calls that take a list.
use spa_bodies::error_at;
use spa_canonical::{Rejected, canonical_stretch, look_at_pods};
use spa_fixed_sized::DeserializeError;
use spa_rewrite::{accept_all, rewrite_all, rewrite_in_place};
use std::alloc::{AllocError, Global};
use test_bytes::push_spelling;

/// What a call answers to a list: nothing, or the fault for which it is refused, and how many bytes are left there.
pub(crate) type Answer = Result<(), (&'static str, usize)>;

/// What an output holds before a list is appended.
pub(crate) const BEFORE: &[u8] = &[1, 2];

/// Appends the rewriting of a list, or why and where it is refused; and which calls answer something else.
pub(crate) fn answer_list(
    alloc: Global,
    input: &[u8],
    answers: &mut String,
) -> Result<(), AllocError> {
    let mut out = Vec::from_slice(alloc, BEFORE)?;
    let answer = answer_of(rewrite_all(input, &mut out))?;
    let encodings = push_appended(input, out.as_slice(), answer, answers)?;
    push_others(alloc, input, encodings, answer, answers)
}

/// Appends the rewriting of a list, which stands in an output behind what that held, or why and where it is refused.
pub(crate) fn push_appended<'a>(
    input: &[u8],
    out: &'a [u8],
    answer: Answer,
    answers: &mut String,
) -> Result<&'a [u8], AllocError> {
    let (before, encodings) = out.split_at(BEFORE.len().min(out.len()));
    match answer {
        Ok(()) => push_spelling(answers, encodings)?,
        Err((name, left)) => {
            let place = input.len().saturating_sub(left);
            write!(answers, " refused {name} at {place}")?;
        }
    }
    if before != BEFORE || answer.is_err() && !encodings.is_empty() {
        answers.push_str("; but the output is spoilt")?;
    }
    Ok(encodings)
}

/// The answer to a list, without what is given beside it.
pub(crate) fn answer_of(
    answer: Result<(), (&[u8], DeserializeError<&[u8]>)>,
) -> Result<Answer, AllocError> {
    match answer {
        Ok(()) => Ok(Ok(())),
        Err((_, DeserializeError::OutOfMemory)) => Err(AllocError),
        Err((left, error)) => Ok(Err((error.kind(), left.len()))),
    }
}

/// Appends which of the other calls answer something else.
fn push_others(
    alloc: Global,
    input: &[u8],
    encodings: &[u8],
    answer: Answer,
    answers: &mut String,
) -> Result<(), AllocError> {
    if answer_of(accept_all(alloc, input))? != answer {
        answers.push_str("; but it is accepted otherwise")?;
    }
    if !is_so_in_place(alloc, input, encodings, answer)? {
        answers.push_str("; but in place it is something else")?;
    }
    if !is_seen_so(input, encodings, answer) {
        answers.push_str("; but a look finds something else")?;
    }
    Ok(())
}

/// Whether `rewrite_in_place` gives this answer, and puts these encodings at the front.
fn is_so_in_place(
    alloc: Global,
    input: &[u8],
    encodings: &[u8],
    answer: Answer,
) -> Result<bool, AllocError> {
    let mut bytes = Vec::from_slice(alloc, input)?;
    let found = rewrite_in_place(alloc, bytes.as_mut_slice());
    is_left_so(found, bytes.as_slice(), input, encodings, answer)
}

/// Whether a rewriting in place answered so, and put these encodings at the front; where it is refused, the bytes of the input are unchanged.
pub(crate) fn is_left_so<P: Drop>(
    found: Result<usize, (usize, DeserializeError<P>)>,
    bytes: &[u8],
    input: &[u8],
    encodings: &[u8],
    answer: Answer,
) -> Result<bool, AllocError> {
    match found {
        Ok(len) => Ok(answer.is_ok() && bytes.get(..len) == Some(encodings)),
        Err((_, DeserializeError::OutOfMemory)) => Err(AllocError),
        Err((place, error)) => {
            let left = input.len().saturating_sub(place);
            Ok(answer == Err((error.kind(), left)) && bytes == input)
        }
    }
}

/// Whether a look at the list finds this rewriting.
fn is_seen_so(input: &[u8], encodings: &[u8], answer: Answer) -> bool {
    match (look_at_pods(input), answer) {
        (Ok(all), Ok(())) => {
            let (first, others) = canonical_stretch(input);
            all.surplus == input.len().saturating_sub(encodings.len())
                && encodings.get(..first.len()) == Some(first)
                && others.is_empty() == (input == encodings)
        }
        (Err((left, Rejected::Fault(place, _, why))), Err((name, behind))) => {
            error_at(place, why).kind() == name && left.len() == behind
        }
        _ => false,
    }
}
