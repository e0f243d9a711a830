//! Reads the two numbers of an item from a pod's body.
ghost use Rattle.std.specs.Prelude.{◌≡◌, ◌+◌, ◌<◌, ◌^◌, length};
ghost use Rattle.spa_format.specs.Tree.{pointer_type};
ghost use Rattle.spa_format.specs.Words.{header_size};
ghost use Rattle.spa_items.specs.Contents as c;

use crate::elements::{element_count, values_of};
use crate::item::Content;
use spa_bytes::{HEADER_LEN, SECOND_WORD, SHORT_POINTER_LEN, u32_at, u64_at};
use spa_utils::SpaTypes;

/// The offset of the address in a pointer's body.
const ADDRESS_AT: usize = 8;

/// The word at the offset `at`, or 0 where the bytes end before.
pub(crate) fn word_or(bytes: &[u8], at: usize) -> u32
    requires { at + 4 < 2 ^ 64 }
    ensures { result ≡ c.word_or bytes.now at }
{
    if at + 4 <= bytes.len() {
        return u32_at(bytes, at);
    }
    0
}

/// The number of eight bytes at the offset `at`, or 0 where the bytes end before.
fn wide_or(bytes: &[u8], at: usize) -> u64
    requires { at + 8 < 2 ^ 64 }
    ensures { result ≡ c.wide_or bytes.now at }
{
    if at + 8 <= bytes.len() {
        return u64_at(bytes, at);
    }
    0
}

/// The content of these two numbers.
#[inline(always)]
fn both(first: u64, second: u64) -> Content
    ensures { result ≡ c.both first second }
{
    Content { first, second }
}

/// The content of a body of one word.
fn word(body: &[u8]) -> Content
    ensures { result ≡ c.both (c.word_or body.now 0) 0 }
{
    both(u64::from(word_or(body, 0)), 0)
}

/// The content of a body of one number in eight bytes.
fn wide(body: &[u8]) -> Content
    ensures { result ≡ c.both (c.wide_or body.now 0) 0 }
{
    both(wide_or(body, 0), 0)
}

/// The content of a body of two words.
fn words(body: &[u8]) -> Content
    ensures { result ≡ c.both (c.word_or body.now 0) (c.word_or body.now 4) }
{
    both(
        u64::from(word_or(body, 0)),
        u64::from(word_or(body, SECOND_WORD)),
    )
}

/// The content of a body of a type of fixed size; of any other type zeros.
pub(crate) fn fixed_content(type_: u32, body: &[u8]) -> Content
    ensures { result ≡ c.fixed_content type_ body.now }
{
    match SpaTypes(type_) {
        SpaTypes::Bool => both(u64::from(word_or(body, 0) != 0), 0),
        SpaTypes::Id => word(body),
        SpaTypes::Int => word(body),
        SpaTypes::Float => word(body),
        SpaTypes::Long => wide(body),
        SpaTypes::Double => wide(body),
        SpaTypes::Fd => wide(body),
        SpaTypes::Rectangle => words(body),
        SpaTypes::Fraction => words(body),
        _ => both(0, 0),
    }
}

/// The type of an array's elements or of a choice's values, and the flags of a choice; of any other pod 0.
#[inline(always)]
pub(crate) fn child_and_flags(type_: u32, body: &[u8]) -> (u32, u32)
    ensures child { result.0 ≡ c.word_or (c.values_of type_ body.now) 4 }
    ensures flags { result.1 ≡ c.flags_of_choice type_ body.now }
{
    match SpaTypes(type_) {
        SpaTypes::Array => (word_or(body, SECOND_WORD), 0),
        SpaTypes::Choice => (
            word_or(values_of(type_, body), SECOND_WORD),
            word_or(body, SECOND_WORD),
        ),
        _ => (0, 0),
    }
}

/// The content of a pointer: its type and its address.
fn pointer(body: &[u8]) -> Content
    ensures { result ≡ c.content pointer_type 0 body.now }
{
    let address = if body.len() == SHORT_POINTER_LEN {
        u64::from(word_or(body, ADDRESS_AT))
    } else {
        wide_or(body, ADDRESS_AT)
    };
    both(u64::from(word_or(body, 0)), address)
}

/// The content of a pod whose body begins at the byte `at`.
pub(crate) fn content(type_: u32, at: usize, body: &[u8]) -> Content
    requires { at + header_size < 2 ^ 64 }
    ensures { result ≡ c.content type_ at body.now }
{
    match SpaTypes(type_) {
        SpaTypes::String => both(at as u64, body.len().saturating_sub(1) as u64),
        SpaTypes::Bytes => both(at as u64, body.len() as u64),
        SpaTypes::Bitmap => both(at as u64, body.len() as u64),
        SpaTypes::Pointer => pointer(body),
        SpaTypes::Array => both((at + HEADER_LEN) as u64, element_count(type_, body) as u64),
        SpaTypes::Choice => both(
            u64::from(word_or(body, 0)),
            element_count(type_, body) as u64,
        ),
        SpaTypes::Object => words(body),
        _ => fixed_content(type_, body),
    }
}
