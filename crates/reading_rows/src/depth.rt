//! How deep pods nest, and pods that nest deep.
use crate::changes::push_dispute;
use crate::front::push_front;
use crate::headers::answer_headers;
use spa_bodies::error_at;
use spa_canonical::{Rejected, look_at_pod, nests_within};
use spa_rewrite::{find_fault, is_canonical};
use std::alloc::{AllocError, Global};
use test_bytes::{nested_pods, nested_structs, push_words};

/// The levels of the deep pods: past those that a look without memory goes into.
const DEEP: u32 = 2000;

/// Appends the answer to a row about depth: of `levels` the levels of the input; of `nested`, whose first word is a number, what that many
/// structs and an empty one in the innermost are read as; of `waiting`, whose first word is a number, what is found in that many structs, of which each
/// inner one stands before an Int, around the pod of the other words, or an Int;
/// of `deep` what is found in pods so deep, whose words behind the size are those of the row but for the last four, the innermost pod;
/// the others of `headers`.
pub(crate) fn answer_depth(
    alloc: Global,
    word: &str,
    input: &[u8],
    answers: &mut String,
) -> Result<(), AllocError> {
    let words = words_of(alloc, input)?;
    let levels = words.first().copied().unwrap_or(0);
    match word {
        "levels" => push_levels(input, 0, answers),
        "nested" => {
            let pods = nested_structs(alloc, levels, &[0, 14])?;
            push_front(alloc, pods.as_slice(), answers)?;
            push_dispute(alloc, pods.as_slice(), "as it is", 0, answers)
        }
        "waiting" => {
            let (_, inner) = words.split_at(words.len().min(1));
            let inner = if inner.is_empty() { &INT } else { inner };
            push_found(alloc, waiting(alloc, levels, inner)?.as_slice(), answers)
        }
        "deep" => {
            let (head, inner) = words.split_at(words.len().saturating_sub(INNER));
            let pods = nested_pods(alloc, DEEP, head, inner)?;
            push_found(alloc, pods.as_slice(), answers)?;
            push_levels(pods.as_slice(), DEEP - 1, answers)
        }
        _ => answer_headers(alloc, word, input, words.as_slice(), answers),
    }
}

/// How many words the innermost pod has.
const INNER: usize = 4;

/// An Int.
const INT: [u32; INNER] = [4, 4, 7, 0];

/// The words of an input.
pub(crate) fn words_of(alloc: Global, input: &[u8]) -> Result<Vec<u32>, AllocError> {
    let (words, _) = input.as_chunks::<4>();
    words
        .iter()
        .map(|word| u32::from_le_bytes(*word))
        .collect(alloc)
}

/// Appends how many levels an input nests in: the fewest of so many and more within which it nests.
fn push_levels(input: &[u8], least: u32, answers: &mut String) -> Result<(), AllocError> {
    for levels in least..=DEEP {
        if nests_within(input, levels) {
            return write!(answers, " {levels} levels");
        }
    }
    answers.push_str(" more levels")
}

/// Appends whether the front is canonical, and what a look finds there, or, where it gives up, which fault stands in the input.
fn push_found(alloc: Global, input: &[u8], answers: &mut String) -> Result<(), AllocError> {
    if is_canonical(alloc, input)? {
        answers.push_str(" canonical,")?;
    } else {
        answers.push_str(" not canonical,")?;
    }
    match look_at_pod(input) {
        Ok(pod) => write!(
            answers,
            " a look: {}, surplus {}, {} bytes behind,",
            pod.canonical,
            pod.surplus,
            pod.rest.len()
        ),
        Err(_) => {
            answers.push_str(" a look: none,")?;
            push_fault(alloc, input, answers)
        }
    }
}

/// Appends the first fault of the input, and at which byte of its pod it stands, where there is one.
fn push_fault(alloc: Global, input: &[u8], answers: &mut String) -> Result<(), AllocError> {
    match find_fault(alloc, input) {
        Ok(()) => Ok(()),
        Err((_, Rejected::Fault(place, at, why))) => {
            write!(answers, " {} at byte {at},", error_at(place, why).kind())
        }
        Err((_, Rejected::TooDeep)) => Err(AllocError),
    }
}

/// So many structs in one another around a pod of four words, and an Int behind each inner one.
fn waiting(alloc: Global, levels: u32, inner: &[u32]) -> Result<Vec<u8>, AllocError> {
    let mut bytes = Vec::new(alloc);
    for level in 0..levels {
        let inside = (levels - level).wrapping_sub(1);
        push_words(&mut bytes, &[inside.wrapping_mul(24).wrapping_add(16), 14])?;
    }
    push_words(&mut bytes, inner)?;
    for _ in 1..levels {
        push_words(&mut bytes, &INT)?;
    }
    Ok(bytes)
}
