//! What the lenient reading reads in place of a pod: the one step in which it differs from the exact reading.
ghost use Rattle.std.specs.Prelude.{◌≡◌, ◌+◌, ◌==◌, ◌≤◌, Decides, length, position, take};
ghost use Rattle.spa_format.specs.Tree.{choice_type};
ghost use Rattle.spa_read.specs.Reading.{EndsInNul, IsNoneChoice, ReadsAs, ReadsBody, ReadsText, StaysChoice};

use spa_bodies::{CHOICE_HEADER_LEN, VALUE_TYPE_AT};
use spa_bytes::{Front, HEADER_LEN, u32_at};
use spa_utils::SpaTypes;

/// The shape word of a None choice.
const NONE_SHAPE: u32 = 0;

/// The byte behind a text.
const NUL: u8 = 0;

/// The front with the type and the body that the lenient reading reads in place of its own.
pub(crate) fn read_as<'de>(front: Front<'de>) -> Front<'de>
    ensures reads { ReadsAs front.entry.type_ front.entry.body.now result.type_ result.body.now }
    ensures rest { result.rest.now ≡ front.entry.rest.now }
{
    if !is_none_choice(front.type_, front.body) {
        return Front {
            type_: front.type_,
            body: body_as(front.type_, front.body),
            rest: front.rest,
        };
    }
    let (type_, body) = none_choice_as(front.body);
    Front {
        type_,
        body,
        rest: front.rest,
    }
}

/// Whether a body of this type is a None choice's, with room for its child header.
fn is_none_choice(type_: u32, body: &[u8]) -> bool
    ensures { Decides result (IsNoneChoice type_ body.now) }
{
    if type_ != SpaTypes::Choice.0 || body.len() < CHOICE_HEADER_LEN {
        return false;
    }
    u32_at(body, 0) == NONE_SHAPE
}

/// The type and the body that are read in place of a None choice with this body.
fn none_choice_as(body: &[u8]) -> (u32, &[u8])
    requires { IsNoneChoice choice_type body.now }
    ensures { ReadsAs choice_type body.now result.0 result.1.now }
{
    let type_ = u32_at(body, VALUE_TYPE_AT);
    let end = CHOICE_HEADER_LEN + u32_at(body, HEADER_LEN) as usize;
    if stays_choice(type_) {
        return (SpaTypes::Choice.0, first_of(body, end));
    }
    if body.len() < end {
        return (SpaTypes::Choice.0, &[]);
    }
    (type_, body_as(type_, &body[CHOICE_HEADER_LEN..end]))
}

/// Whether a None choice over this type is read as a choice.
fn stays_choice(type_: u32) -> bool
    ensures { Decides result (StaysChoice type_) }
{
    match SpaTypes(type_) {
        SpaTypes::Bool => true,
        SpaTypes::Id => true,
        SpaTypes::Int => true,
        SpaTypes::Long => true,
        SpaTypes::Float => true,
        SpaTypes::Double => true,
        SpaTypes::Rectangle => true,
        SpaTypes::Fraction => true,
        SpaTypes::Fd => true,
        SpaTypes::Choice => true,
        _ => false,
    }
}

/// The first `len` bytes, or all where there are fewer.
fn first_of(body: &[u8], len: usize) -> &[u8]
    ensures { result.now ≡ take len body.now }
{
    if body.len() < len {
        return body;
    }
    &body[..len]
}

/// The part that is read of a body of this type, which is no None choice's: of a string up to its first NUL, of any other all.
fn body_as(type_: u32, body: &[u8]) -> &[u8]
    ensures { ReadsBody type_ body.now result.now }
{
    if type_ == SpaTypes::String.0 {
        return text_as(body);
    }
    body
}

/// The part that is read of a string's body: up to and with the first NUL where the last byte is NUL, else all.
fn text_as(body: &[u8]) -> &[u8]
    ensures { ReadsText body.now result.now }
{
    let Some((last, _)) = body.split_last() else {
        return body;
    };
    if *last != NUL {
        return body;
    }
    match first_nul(body) {
        Some(end) => &body[..end + 1],
        None => unreachable!(),
    }
}

/// The offset of the first NUL. None: there is no NUL.
fn first_nul(body: &[u8]) -> Option<usize>
    ensures { result ≡ position (λ x. x == 0) body.now }
{
    body.iter().position(|byte| *byte == NUL)
}
