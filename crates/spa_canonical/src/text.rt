//! Strings: UTF-8 texts without NUL, with one NUL behind them.
ghost use Rattle.std.specs.Prelude.{◌≡◌, ◌≤◌, ◌<◌, drop, length, take, true};
ghost use Rattle.std.specs.Int.{IsInRange};
ghost use Rattle.spa_format.specs.Pod.{IsText};
ghost use Rattle.spa_format.specs.Words.{padded_size};
ghost use Rattle.spa_canonical.specs.Canonical.{AreTextAlike, HasZeros, IsAsciiByte, IsAsciiFor, IsCanonicalText};

use crate::front::ends_in_zeros;
use std::str;

/// Whether the body of a string is a text without NUL, and one NUL behind it.
#[inline(always)]
pub(crate) fn is_text(body: &[u8]) -> bool
    ensures canonical { result ≡ true → IsCanonicalText body.now }
    ensures found { IsCanonicalText body.now → result ≡ true }
{
    let Some((last, text)) = body.split_last() else {
        return false;
    };
    *last == 0 && are_characters(text)
}

/// Whether the body of a string is a text without NUL, and one NUL behind it, and zeros follow it up to a multiple
/// of 8: one look at the last eight bytes shows the NUL and the zeros.
#[inline(always)]
pub(crate) fn is_padded_text(body: &[u8], behind: &[u8]) -> bool
    requires front { body.now ≡ take (length body.now) behind.now }
    requires room { padded_size (length body.now) ≤ length behind.now }
    ensures canonical { result ≡ true → IsCanonicalText body.now }
    ensures zeros { result ≡ true → HasZeros behind.now (length body.now) }
    ensures found { HasZeros behind.now (length body.now) → IsCanonicalText body.now → result ≡ true }
{
    let Some((_, text)) = body.split_last() else {
        return false;
    };
    ends_in_zeros(behind, text.len()) && are_characters(text)
}

/// Whether bytes are UTF-8 without NUL. ASCII needs no call.
#[inline(always)]
fn are_characters(text: &[u8]) -> bool
    ensures text { result ≡ true → IsText text.now }
    ensures found { IsText text.now → result ≡ true }
{
    is_ascii_text(text) || holds_characters(text)
}

/// Does what `are_characters` does, for characters of any length.
#[inline(never)]
fn holds_characters(text: &[u8]) -> bool
    ensures text { result ≡ true → IsText text.now }
    ensures found { IsText text.now → result ≡ true }
{
    let mut left = behind_ascii(text);
    while let Some((first, behind)) = left.split_first() {
        if is_ascii(*first) {
            left = behind;
            continue;
        }
        let len = character_len(left);
        if len == 0 {
            return is_text_content(left);
        }
        let (_, rest) = left.split_at(len);
        left = behind_ascii(rest);
    }
    true
}

/// What follows the first pieces that are ASCII, and half a piece at the end.
#[inline(always)]
fn behind_ascii(text: &[u8]) -> &[u8]
    ensures alike { AreTextAlike result.now text.now }
    ensures shorter { length result.now ≤ length text.now }
{
    if text.is_empty() || !is_ascii(text[0]) {
        return text;
    }
    let mut left = text;
    while left.len() >= PIECE {
        if !are_ascii(left) {
            return left;
        }
        let (_, rest) = left.split_at(PIECE);
        left = rest;
    }
    if left.len() < HALF_PIECE || !are_four_ascii(left) {
        return left;
    }
    let (_, rest) = left.split_at(HALF_PIECE);
    rest
}

/// Whether bytes are UTF-8 without NUL, by two walks over them.
fn is_text_content(text: &[u8]) -> bool
    ensures text { result ≡ true → IsText text.now }
    ensures found { IsText text.now → result ≡ true }
{
    !text.contains(&0) && str::from_utf8(text).is_ok()
}

/// How many bytes the first character takes, where it takes two, or three of which the first one doesn't limit the second: in UTF-8 it is 194 to 223,
/// or 225 to 236. 0: another character, or none, is first.
#[inline(always)]
fn character_len(text: &[u8]) -> usize
    ensures within { result ≤ length text.now }
    ensures alike { 0 < result → AreTextAlike (drop result text.now) text.now }
{
    if text.len() < 2 || !is_following(text[1]) {
        return 0;
    }
    match text[0] {
        194..=223 => 2,
        225..=236 if text.len() > 2 && is_following(text[2]) => 3,
        _ => 0,
    }
}

/// The length in bytes of the pieces that are looked at at once.
const PIECE: usize = 8;

/// The length in bytes of the pieces of a shorter text.
const HALF_PIECE: usize = 4;

/// Whether each byte is an ASCII character other than NUL.
#[inline(always)]
fn is_ascii_text(text: &[u8]) -> bool
    ensures { result ≡ true → IsAsciiFor (length text.now) text.now }
{
    if text.len() < PIECE {
        return is_short_ascii_text(text);
    }
    // The first piece and the last: the pieces between them may reach into the last.
    let (_, last) = text.split_at(text.len() - PIECE);
    if !(are_ascii(text) & are_ascii(last)) {
        return false;
    }
    let (_, more) = text.split_at(PIECE);
    let mut left = more;
    while left.len() > PIECE {
        if !are_ascii(left) {
            return false;
        }
        let (_, rest) = left.split_at(PIECE);
        left = rest;
    }
    true
}

/// Whether each of fewer than eight bytes is an ASCII character other than NUL.
#[inline(always)]
fn is_short_ascii_text(text: &[u8]) -> bool
    requires { length text.now < 8 }
    ensures { result ≡ true → IsAsciiFor (length text.now) text.now }
{
    if text.len() < HALF_PIECE {
        return are_few_ascii(text);
    }
    // The first bytes may reach into the last.
    let (_, last) = text.split_at(text.len() - HALF_PIECE);
    are_four_ascii(text) & are_four_ascii(last)
}

/// Whether each of fewer than four bytes is an ASCII character other than NUL: the first, the middle and the last
/// are all of them.
#[inline(always)]
fn are_few_ascii(text: &[u8]) -> bool
    requires { length text.now < 4 }
    ensures { result ≡ true → IsAsciiFor (length text.now) text.now }
{
    text.is_empty()
        || is_ascii(text[0]) & is_ascii(text[text.len() / 2]) & is_ascii(text[text.len() - 1])
}

/// Whether each of the first eight bytes is an ASCII character other than NUL.
#[inline(always)]
fn are_ascii(word: &[u8]) -> bool
    requires { 8 ≤ length word.now }
    ensures { result ≡ true → IsAsciiFor 8 word.now }
{
    is_ascii(word[0])
        & is_ascii(word[1])
        & is_ascii(word[2])
        & is_ascii(word[3])
        & is_ascii(word[4])
        & is_ascii(word[5])
        & is_ascii(word[6])
        & is_ascii(word[7])
}

/// Whether each of the first four bytes is an ASCII character other than NUL.
#[inline(always)]
fn are_four_ascii(word: &[u8]) -> bool
    requires { 4 ≤ length word.now }
    ensures { result ≡ true → IsAsciiFor 4 word.now }
{
    is_ascii(word[0]) & is_ascii(word[1]) & is_ascii(word[2]) & is_ascii(word[3])
}

/// The last ASCII character.
const LAST_ASCII: u8 = 127;

/// Whether a byte is an ASCII character other than NUL.
#[inline(always)]
fn is_ascii(byte: u8) -> bool
    ensures { result ≡ true → IsAsciiByte byte }
{
    byte.wrapping_sub(1) < LAST_ASCII
}

/// Whether a byte is one that follows the first byte of a character in UTF-8.
#[inline(always)]
fn is_following(byte: u8) -> bool
    ensures { result ≡ true → IsInRange 128 191 byte }
{
    matches!(byte, 128..=191)
}
