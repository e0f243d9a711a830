//! Pods that hold no others, replaced by their encodings where they are.
ghost use Rattle.std.specs.Prelude.{Bool, List, false, true, ℕ, ◌≡◌, ◌≢◌, ◌+◌, ◌-◌, ◌<◌, ◌≤◌, ◌++◌, ◌*◌, IfNone, IfSome, drop, length, replicate, take};
ghost use Rattle.spa_fixed_sized.specs.Reading.{AreWhole};
ghost use Rattle.spa_format.specs.Tree.{choice_type, pointer_type};
ghost use Rattle.spa_format.specs.Kind.{Fixed, bool_kind, type_number};
ghost use Rattle.spa_format.specs.Encoding.{fixed_bodies};
ghost use Rattle.spa_format.specs.Pod.{AreElements};
ghost use Rattle.spa_format.specs.Typed.{IsBytes};
ghost use Rattle.spa_format.specs.Words.{header_size, size_limit, word_at};
ghost use Rattle.spa_canonical.specs.Emit.{BeginsWord, Encodes, HoldsWhole, IsPlaced, IsPodOf, TurnsWritten};

use crate::body::{WORD_LEN, taken_len, written_flags};
use crate::front::is_word_type;
use spa_bytes::{HEADER_LEN, POINTER_LEN, SECOND_WORD, extent_of, joined, two_words, u32_at};
use spa_fixed_sized::CanonicalFixedSizedPod;
use spa_utils::SpaTypes;

/// The length in bytes of a pod whose body is one or two words; also where an object's type and id, or a choice's shape and flags, end in it.
pub(crate) const SECOND_HEADER: usize = 16;

/// Where the child header of a choice ends, and its values begin.
const VALUES_AT: usize = 24;

/// Whether the pod at the front has a body of one word, and isn't a Bool. `false` promises nothing.
#[inline(always)]
pub(crate) fn begins_word(input: &[u8]) -> bool
    ensures { result ≡ true → BeginsWord input.now }
{
    if input.len() < SECOND_HEADER {
        return false;
    }
    if u32_at(input, 0) as usize != WORD_LEN {
        return false;
    }
    is_word_type(u32_at(input, SECOND_WORD))
}

/// Replaces a pod that holds no others by its encoding, at its front, and returns how many bytes that takes. Of a pod of no value it promises nothing.
#[inline(always)]
pub(crate) fn encode_leaf(type_: u32, size: usize, pod: &mut [u8]) -> usize
    requires pod { IsPodOf pod.old type_ size }
    requires no_inner { (keyed : Bool) → ¬ (HoldsWhole type_ size keyed) }
    ensures { Encodes IsPlaced pod.old pod.new result }
{
    if type_ == SpaTypes::Choice.0 {
        return encode_choice(size, pod);
    }
    // No other encoding is shorter than its pod.
    patch_leaf(type_, size, pod);
    pod.len()
}

/// Replaces a choice by its encoding, which is put at its front without the surplus values.
#[inline(always)]
fn encode_choice(size: usize, pod: &mut [u8]) -> usize
    requires { IsPodOf pod.old choice_type size }
    ensures { Encodes IsPlaced pod.old pod.new result }
{
    if size < SECOND_HEADER {
        return 0;
    }
    let type_ = u32_at(pod, VALUES_AT - WORD_LEN);
    let all = size - SECOND_HEADER;
    let shape = u32_at(pod, HEADER_LEN);
    let len = taken_len(shape, u32_at(pod, SECOND_HEADER), all);
    if len > all {
        return 0;
    }
    let flags = written_flags(shape, u32_at(pod, HEADER_LEN + SECOND_WORD));
    let header = two_words((SECOND_HEADER + len) as u32, SpaTypes::Choice.0);
    pod[..SECOND_HEADER].copy_from_slice(&joined(header, two_words(shape, flags)));
    let end = extent_of((SECOND_HEADER + len) as u32);
    patch_elements(type_, len, &mut pod[VALUES_AT..end]);
    end
}

/// Replaces a pod of this type and this size of a body, which holds no others and is no choice, by its encoding.
#[inline(always)]
fn patch_leaf(type_: u32, size: usize, pod: &mut [u8])
    requires pod { IsPodOf pod.old type_ size }
    requires no_inner { (keyed : Bool) → ¬ (HoldsWhole type_ size keyed) }
    requires no_choice { type_ ≢ choice_type }
    ensures { IsPlaced pod.old pod.new }
{
    match SpaTypes(type_) {
        SpaTypes::Pointer => patch_pointer(size, pod),
        SpaTypes::Array => {
            if size >= HEADER_LEN {
                let child = u32_at(pod, HEADER_LEN + SECOND_WORD);
                patch_elements(child, size - HEADER_LEN, &mut pod[SECOND_HEADER..]);
            }
        }
        _ => patch_elements(type_, size, &mut pod[HEADER_LEN..]),
    }
}

/// Replaces a pointer by its encoding: its free word is 0, and its address has eight bytes.
fn patch_pointer(size: usize, pod: &mut [u8])
    requires { IsPodOf pod.old pointer_type size }
    ensures { IsPlaced pod.old pod.new }
{
    if pod.len() == HEADER_LEN + POINTER_LEN {
        let header = two_words(POINTER_LEN as u32, SpaTypes::Pointer.0);
        let words = two_words(u32_at(pod, HEADER_LEN), 0);
        clear_behind(HEADER_LEN + size, pod);
        pod[..SECOND_HEADER].copy_from_slice(&joined(header, words));
    }
}

/// Makes so many first bytes, which are elements of this type, those that are written, and what follows them zeros.
#[inline(always)]
fn patch_elements(type_: u32, len: usize, bytes: &mut [u8])
    requires { len ≤ length bytes.old }
    ensures { TurnsWritten type_ len bytes.old bytes.new }
{
    if type_ == SpaTypes::Bool.0 && len == WORD_LEN && bytes.len() == HEADER_LEN {
        let truth = bool::of_body(&bytes[..WORD_LEN]);
        bytes.copy_from_slice(&truth.padded_body());
        return;
    }
    clear_behind(len, bytes);
    if type_ == SpaTypes::Bool.0 && len % WORD_LEN == 0 {
        patch_truths(&mut bytes[..len]);
    }
}

/// Makes the bodies of truth values those that are written.
fn patch_truths(words: &mut [u8])
    requires { AreWhole WORD_LEN words.old }
    ensures { (values : List Fixed) × AreElements bool_kind values words.old × (words.new ≡ fixed_bodies values) }
{
    let mut at = 0;
    while at < words.len() {
        let truth = bool::of_body(&words[at..at + WORD_LEN]);
        words[at..at + WORD_LEN].copy_from_slice(&truth.padded_body()[..WORD_LEN]);
        at += WORD_LEN;
    }
}

/// Makes what follows so many bytes zeros.
#[inline(always)]
pub(crate) fn clear_behind(len: usize, pod: &mut [u8])
    requires { len ≤ length pod.old }
    ensures { pod.new ≡ take len pod.old ++ replicate (length pod.old - len) 0 }
{
    let behind = &mut pod[len..];
    if behind.len() == WORD_LEN {
        behind.copy_from_slice(&[0; WORD_LEN]);
    } else {
        behind.fill(0);
    }
}
