//! The lengths of bodies of fixed size, and the zeros behind a body.
ghost use Rattle.std.specs.Prelude.{◌≡◌, ◌≢◌, ◌+◌, ◌*◌, ◌/◌, ◌<◌, ◌≤◌, ◌⊎◌, length, true};
ghost use Rattle.spa_format.specs.Kind.{Kind, body_size, bool_kind, type_number};
ghost use Rattle.spa_format.specs.Words.{padded_size};
ghost use Rattle.spa_canonical.specs.Canonical.{EndsInZeros, HasZeros, IsFixedLen};

use spa_bytes::{HEADER_LEN, u64_at};
use spa_utils::SpaTypes;

/// The length in bytes of a body of one word.
pub(crate) const ONE_WORD: u32 = 4;

/// The length in bytes of a body of two words.
pub(crate) const TWO_WORDS: u32 = 8;

/// A length that no body of a kind of fixed size has.
const NO_LENGTH: u32 = 255;

/// Whether the bytes behind a body of this size are zeros, up to a multiple of 8.
#[inline(always)]
pub(crate) fn has_zeros(behind: &[u8], size: usize) -> bool
    requires room { padded_size size ≤ length behind.now }
    ensures zeros { result ≡ true → HasZeros behind.now size }
    ensures found { HasZeros behind.now size → result ≡ true }
{
    size % HEADER_LEN == 0 || ends_in_zeros(behind, size)
}

/// Whether the bytes from this offset on are zeros, up to the end of its eight bytes.
#[inline(always)]
pub(crate) fn ends_in_zeros(bytes: &[u8], at: usize) -> bool
    requires room { at / 8 * 8 + 8 ≤ length bytes.now }
    ensures zeros { result ≡ true → EndsInZeros bytes.now at }
    ensures found { EndsInZeros bytes.now at → result ≡ true }
{
    let over = at % HEADER_LEN;
    let last = u64_at(bytes, at - over);
    last >> (8 * over as u32) == 0
}

/// Whether this is the type of a kind whose bodies are any word.
#[inline(always)]
pub(crate) fn is_word_type(type_: u32) -> bool
    ensures word { result ≡ true → IsFixedLen type_ 4 }
    ensures other { result ≡ true → type_ ≢ type_number bool_kind }
    ensures found { (k : Kind) → type_ ≡ type_number k → body_size k ≡ 4 → (k ≡ bool_kind) ⊎ (result ≡ true) }
{
    match SpaTypes(type_) {
        SpaTypes::Id => true,
        SpaTypes::Int => true,
        SpaTypes::Float => true,
        _ => false,
    }
}

/// How long the bodies of this type are, in bytes, where it is a kind of fixed size, and else a number past all of these.
#[inline(always)]
pub fn fixed_len(type_: u32) -> u32
    ensures is_len { result < 9 → IsFixedLen type_ result }
    ensures found { (k : Kind) → type_ ≡ type_number k → result ≡ body_size k }
{
    match SpaTypes(type_) {
        SpaTypes::None => 0,
        SpaTypes::Bool => ONE_WORD,
        SpaTypes::Id => ONE_WORD,
        SpaTypes::Int => ONE_WORD,
        SpaTypes::Long => TWO_WORDS,
        SpaTypes::Float => ONE_WORD,
        SpaTypes::Double => TWO_WORDS,
        SpaTypes::Rectangle => TWO_WORDS,
        SpaTypes::Fraction => TWO_WORDS,
        SpaTypes::Fd => TWO_WORDS,
        _ => NO_LENGTH,
    }
}
