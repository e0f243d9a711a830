//! Pods that hold no others, at the front of an input.
ghost use Rattle.std.specs.Prelude.{◌≡◌, ◌+◌, ◌≤◌, IfNone, IfSome, drop, length, true};
ghost use Rattle.spa_format.specs.Faults.{StandsAtFront};
ghost use Rattle.spa_format.specs.Front.{IsRefused};
ghost use Rattle.spa_format.specs.Opened.{OpensHeaderAlone};
ghost use Rattle.spa_bodies.specs.Refusing.{Says};
ghost use Rattle.spa_canonical.specs.Look.{BeginsAsked, IsNoLeaf};

use crate::body::{WORD_LEN, leaf_body};
use crate::front::{ONE_WORD, TWO_WORDS, fixed_len, has_zeros, is_word_type};
use crate::patch::SECOND_HEADER;
use crate::text::is_padded_text;
use spa_bytes::{HEADER_LEN, SECOND_WORD, open, u32_at};
use spa_fixed_sized::Refusal;
use spa_utils::SpaTypes;

/// What follows the pod at the front, where its body is one or two words and of a kind of fixed size, and it is canonical, where that is asked.
#[inline(always)]
pub(crate) fn short_leaf(canonical: bool, input: &[u8]) -> Option<&[u8]>
    ensures there { IfSome result (λ rest. BeginsAsked canonical input.now rest.now 0) }
    ensures shorter { IfSome result (λ rest. length rest.now + 16 ≤ length input.now) }
{
    if input.len() < SECOND_HEADER {
        return None;
    }
    if !is_short(canonical, input) {
        return None;
    }
    let (_, rest) = input.split_at(SECOND_HEADER);
    Some(rest)
}

/// Whether the pod at the front has a body of one or two words and is of a kind of fixed size, and canonical, where that is asked.
#[inline(always)]
fn is_short(canonical: bool, input: &[u8]) -> bool
    requires { 16 ≤ length input.now }
    ensures { result ≡ true → BeginsAsked canonical input.now (drop 16 input.now) 0 }
{
    let type_ = u32_at(input, SECOND_WORD);
    let size = u32_at(input, 0);
    if size != ONE_WORD {
        // The lists of Ints take a ninth less where a longer body ends the look at once.
        if size > TWO_WORDS {
            return false;
        }
        return fixed_len(type_) == TWO_WORDS && size == TWO_WORDS;
    }
    if canonical && u32_at(input, HEADER_LEN + WORD_LEN) != 0 {
        return false;
    }
    if is_word_type(type_) {
        return true;
    }
    type_ == SpaTypes::Bool.0 && (!canonical || u32_at(input, HEADER_LEN) <= 1)
}

/// What follows the pod at the front, which holds no others, where it is accepted, and canonical, where that is asked, and by how many bytes its encoding is
/// shorter.
#[inline(always)]
pub(crate) fn leaf(canonical: bool, input: &[u8]) -> Option<(&[u8], usize)>
    ensures there { IfSome result (λ leaf. BeginsAsked canonical input.now leaf.0.now leaf.1) }
    ensures shorter { IfSome result (λ leaf. length leaf.0.now + 8 ≤ length input.now) }
    ensures none { IfNone result (IsNoLeaf canonical input.now) }
{
    match short_leaf(canonical, input) {
        Some(rest) => Some((rest, 0)),
        None => other_leaf(canonical, input),
    }
}

/// Does what `long_leaf` does, by a call.
#[inline(never)]
fn other_leaf(canonical: bool, input: &[u8]) -> Option<(&[u8], usize)>
    ensures there { IfSome result (λ leaf. BeginsAsked canonical input.now leaf.0.now leaf.1) }
    ensures shorter { IfSome result (λ leaf. length leaf.0.now + 8 ≤ length input.now) }
    ensures none { IfNone result (IsNoLeaf canonical input.now) }
{
    long_leaf(canonical, input)
}

/// Does what `leaf` does. It is fast where the pod isn't one that `short_leaf` passes.
#[inline(always)]
pub(crate) fn long_leaf(canonical: bool, input: &[u8]) -> Option<(&[u8], usize)>
    ensures there { IfSome result (λ leaf. BeginsAsked canonical input.now leaf.0.now leaf.1) }
    ensures shorter { IfSome result (λ leaf. length leaf.0.now + 8 ≤ length input.now) }
    ensures none { IfNone result (IsNoLeaf canonical input.now) }
{
    let front = open(input)?;
    if canonical {
        let (_, behind) = input.split_at(HEADER_LEN);
        if front.type_ == SpaTypes::String.0 {
            if is_padded_text(front.body, behind) {
                return Some((front.rest, 0));
            }
            return None;
        }
        if !has_zeros(behind, front.body.len()) {
            return None;
        }
    }
    match leaf_body(canonical, front.type_, front.body) {
        Ok(surplus) => Some((front.rest, surplus)),
        Err(_) => None,
    }
}

/// The fault that stands at the front of these bytes, which begin with no pod, and not for what is inside one.
#[cold]
#[inline(never)]
pub(crate) fn fault(place: &[u8]) -> Refusal
    requires refused { IsRefused place.now }
    requires alone { OpensHeaderAlone place.now }
    ensures { Says (λ k. StandsAtFront k place.now) ⊥ result }
{
    let Some(front) = open(place) else {
        return Refusal::Short;
    };
    match leaf_body(false, front.type_, front.body) {
        Ok(_) => unreachable!(),
        Err(None) => unreachable!(),
        Err(Some(why)) => why,
    }
}
