//! Bodies that hold no pods: whether they are accepted, whether they are canonical, how much shorter their encodings are, or which fault they have.
ghost use Rattle.std.specs.Prelude.{◌≡◌, ◌≢◌, ◌<◌, IfErr, IfOk, OnOk, true};
ghost use Rattle.spa_fixed_sized.specs.Reading.{AreWhole};
ghost use Rattle.spa_format.specs.Kind.{bool_kind};
ghost use Rattle.spa_format.specs.Normal.{kept_flags};
ghost use Rattle.spa_format.specs.Tree.{Shape, array_type, choice_type, pointer_type, shape_number};
ghost use Rattle.spa_canonical.specs.Canonical.{AreCanonicalElements, IsFixedLen, bytes_taken};
ghost use Rattle.spa_canonical.specs.Look.{AreElementsOf, AreNoElementsOf, IsLeafBody, IsNoLeafBody, TakesAll};

use crate::front::{ONE_WORD, TWO_WORDS, fixed_len, is_word_type};
use crate::text::is_text;
use spa_bodies::{CHOICE_HEADER_LEN, VALUE_TYPE_AT};
use spa_bytes::{HEADER_LEN, POINTER_LEN, SECOND_WORD, SHORT_POINTER_LEN, u32_at};
use spa_fixed_sized::{FLAGS_SHAPE, NONE_SHAPE, Refusal, count_taken};
use spa_utils::SpaTypes;

/// The length in bytes of a word.
pub(crate) const WORD_LEN: usize = 4;

/// By how many bytes the encoding of a pod with a body of this type is shorter than the pod, where the body holds no pods and is accepted, and canonical, where
/// that is asked. Otherwise its fault; `None`: it isn't canonical, or the type is that of a container.
#[inline(always)]
pub(crate) fn leaf_body(canonical: bool, type_: u32, body: &[u8]) -> Result<usize, Option<Refusal>>
    ensures there { IfOk result (IsLeafBody canonical type_ body.now) }
    ensures none { IfErr result (IsNoLeafBody canonical type_ body.now) }
{
    if type_ == SpaTypes::Choice.0 {
        return choice_body(canonical, body);
    }
    if type_ == SpaTypes::Array.0 {
        return array_body(canonical, body);
    }
    rare_body(canonical, type_, body)
}

/// Does what `leaf_body` does for the types that are met seldom.
#[inline(always)]
fn rare_body(canonical: bool, type_: u32, body: &[u8]) -> Result<usize, Option<Refusal>>
    requires array { type_ ≢ array_type }
    requires choice { type_ ≢ choice_type }
    ensures there { IfOk result (IsLeafBody canonical type_ body.now) }
    ensures none { IfErr result (IsNoLeafBody canonical type_ body.now) }
{
    match other_body(canonical, type_, body) {
        Ok(()) => Ok(0),
        Err(why) => Err(why),
    }
}

/// Whether the body of an array is accepted, and canonical, where that is asked: its encoding is as long.
#[inline(always)]
fn array_body(canonical: bool, body: &[u8]) -> Result<usize, Option<Refusal>>
    ensures there { IfOk result (IsLeafBody canonical array_type body.now) }
    ensures none { IfErr result (IsNoLeafBody canonical array_type body.now) }
{
    if body.len() < HEADER_LEN {
        return Err(Some(Refusal::WrongSize));
    }
    let (_, elements) = body.split_at(HEADER_LEN);
    match are_elements(
        canonical,
        u32_at(body, SECOND_WORD),
        u32_at(body, 0),
        elements,
    ) {
        Ok(()) => Ok(0),
        Err(why) => Err(why),
    }
}

/// By how many bytes the encoding of a choice is shorter: what it holds beyond the values that it takes, and beyond the padding of these.
#[inline(always)]
fn choice_body(canonical: bool, body: &[u8]) -> Result<usize, Option<Refusal>>
    ensures there { IfOk result (IsLeafBody canonical choice_type body.now) }
    ensures none { IfErr result (IsNoLeafBody canonical choice_type body.now) }
{
    if canonical && body.len() <= CHOICE_HEADER_LEN {
        return Err(None);
    }
    if body.len() < CHOICE_HEADER_LEN {
        return Err(Some(Refusal::WrongSize));
    }
    let (_, values) = body.split_at(CHOICE_HEADER_LEN);
    let shape = u32_at(body, 0);
    let size = u32_at(body, HEADER_LEN);
    let type_ = u32_at(body, VALUE_TYPE_AT);
    let taken = taken_len(shape, size, values.len());
    if canonical {
        let flags = u32_at(body, SECOND_WORD);
        if !takes_all(shape, flags, size, taken, values.len()) {
            return Err(None);
        }
        return match are_elements(true, type_, size, values) {
            Ok(()) => Ok(0),
            Err(_) => Err(None),
        };
    }
    if type_ == SpaTypes::None.0 {
        return Err(Some(Refusal::InvalidType));
    }
    match are_elements(false, type_, size, values) {
        Ok(()) => {}
        Err(why) => return Err(why),
    }
    if shape > FLAGS_SHAPE {
        return Err(Some(Refusal::InvalidChoiceType));
    }
    if taken == 0 || taken > values.len() {
        return Err(Some(Refusal::MissingChoiceValues));
    }
    let kept = CHOICE_HEADER_LEN + taken;
    Ok(((body.len() + 7) / HEADER_LEN - (kept + 7) / HEADER_LEN) * HEADER_LEN)
}

/// Whether a choice of this shape is written with these flags, and with all of its bytes of values, where it takes so many.
#[inline(always)]
fn takes_all(shape: u32, flags: u32, size: u32, taken: usize, all: usize) -> bool
    requires some { 0 < all }
    requires taken { (s : Shape) → shape ≡ shape_number s → taken ≡ bytes_taken s size all }
    ensures taken { result ≡ true → TakesAll shape flags size all }
    ensures found { TakesAll shape flags size all → result ≡ true }
{
    if taken != all || shape > FLAGS_SHAPE {
        return false;
    }
    written_flags(shape, flags) == flags
}

/// How many bytes of values a choice of this shape takes, where one has this size, of all that it holds.
#[inline(always)]
pub(crate) fn taken_len(shape: u32, size: u32, all: usize) -> usize
    ensures { (s : Shape) → shape ≡ shape_number s → result ≡ bytes_taken s size all }
{
    match count_taken(shape) {
        Some(count) => count * size as usize,
        None => all,
    }
}

/// The flags that are written of a choice of this shape.
#[inline(always)]
pub(crate) fn written_flags(shape: u32, flags: u32) -> u32
    ensures { (s : Shape) → shape ≡ shape_number s → result ≡ kept_flags s flags }
{
    if shape == NONE_SHAPE {
        return 0;
    }
    flags
}

/// Whether bytes are bodies of elements of this type and size, and as their values are written, where that is asked.
#[inline(always)]
fn are_elements(
    canonical: bool,
    type_: u32,
    size: u32,
    elements: &[u8],
) -> Result<(), Option<Refusal>>
    ensures there { OnOk result (AreElementsOf canonical type_ size elements.now) }
    ensures none { IfErr result (AreNoElementsOf canonical type_ size elements.now) }
{
    if size == ONE_WORD && is_word_type(type_) && elements.len() % WORD_LEN == 0 {
        return Ok(());
    }
    // It stands between two tests of the type, which LLVM would make one, with the words last: objects take 1.3 % less.
    let is_whole = are_whole(size, elements);
    let len = fixed_len(type_);
    if len > TWO_WORDS {
        return Err(Some(Refusal::InvalidType));
    }
    if size != len || !is_whole {
        return Err(Some(Refusal::WrongSize));
    }
    if canonical && type_ == SpaTypes::Bool.0 && !are_bools(elements) {
        return Err(None);
    }
    Ok(())
}

/// Whether bytes are pieces of this size, without remainder.
#[inline(always)]
fn are_whole(size: u32, bytes: &[u8]) -> bool
    ensures whole { result ≡ true → AreWhole size bytes.now }
    ensures found { AreWhole size bytes.now → result ≡ true }
{
    if size == 0 {
        return bytes.is_empty();
    }
    bytes.len() % size as usize == 0
}

/// Whether the bodies of truth values are each 0 or 1.
fn are_bools(elements: &[u8]) -> bool
    ensures canonical { result ≡ true → AreCanonicalElements bool_kind elements.now }
    ensures found { AreCanonicalElements bool_kind elements.now → result ≡ true }
{
    let mut left = elements;
    while !left.is_empty() {
        if left.len() < WORD_LEN || u32_at(left, 0) > 1 {
            return false;
        }
        let (_, rest) = left.split_at(WORD_LEN);
        left = rest;
    }
    true
}

/// Whether a body of another type than those of arrays and choices, which holds no pods, is accepted, and canonical, where that is asked: its encoding is as
/// long.
#[inline(never)]
fn other_body(canonical: bool, type_: u32, body: &[u8]) -> Result<(), Option<Refusal>>
    requires array { type_ ≢ array_type }
    requires choice { type_ ≢ choice_type }
    ensures there { OnOk result (IsLeafBody canonical type_ body.now 0) }
    ensures none { IfErr result (IsNoLeafBody canonical type_ body.now) }
{
    let len = fixed_len(type_);
    if len <= TWO_WORDS {
        return fixed_body(canonical, type_, len, body);
    }
    match SpaTypes(type_) {
        SpaTypes::String if is_text(body) => Ok(()),
        SpaTypes::String => Err(Some(Refusal::Text)),
        SpaTypes::Bytes => Ok(()),
        SpaTypes::Bitmap => Ok(()),
        SpaTypes::Pointer => pointer_body(canonical, body),
        SpaTypes::Struct => Err(None),
        SpaTypes::Object if body.len() < HEADER_LEN => Err(Some(Refusal::WrongSize)),
        SpaTypes::Object => Err(None),
        _ => Err(Some(Refusal::InvalidType)),
    }
}

/// Whether the body of a pointer is accepted, and canonical, where that is asked: 16 bytes, with a free word of 0.
fn pointer_body(canonical: bool, body: &[u8]) -> Result<(), Option<Refusal>>
    ensures there { OnOk result (IsLeafBody canonical pointer_type body.now 0) }
    ensures none { IfErr result (IsNoLeafBody canonical pointer_type body.now) }
{
    if body.len() == POINTER_LEN {
        if canonical && u32_at(body, SECOND_WORD) != 0 {
            return Err(None);
        }
        return Ok(());
    }
    if body.len() != SHORT_POINTER_LEN {
        return Err(Some(Refusal::WrongSize));
    }
    if canonical {
        return Err(None);
    }
    Ok(())
}

/// Whether the body of a value of fixed size is accepted, and canonical, where that is asked: a truth value is 0 or 1.
#[inline(always)]
fn fixed_body(canonical: bool, type_: u32, len: u32, body: &[u8]) -> Result<(), Option<Refusal>>
    requires { IsFixedLen type_ len }
    ensures there { OnOk result (IsLeafBody canonical type_ body.now 0) }
    ensures none { IfErr result (IsNoLeafBody canonical type_ body.now) }
{
    if body.len() != len as usize {
        return Err(Some(Refusal::WrongSize));
    }
    if canonical && type_ == SpaTypes::Bool.0 && u32_at(body, 0) > 1 {
        return Err(None);
    }
    Ok(())
}
