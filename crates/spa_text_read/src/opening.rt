//! Reads what begins with a token: a whole value, or the beginning of one with others in it.
ghost use Rattle.std.specs.Prelude.{◌≡◌, ◌≢◌, ◌≤◌, IfErr, IfOk, IfSome, MatchOption, MatchResult, length, option_map, Some, None, []};
ghost use Rattle.json.specs.Reads.{token_of};
ghost use Rattle.spa_utils.specs.declared.types.SpaTypes as types;
ghost use Rattle.spa_text_read.specs.Grammar as grammar;
ghost use Rattle.spa_text_read.specs.Grammar.{a_struct, a_text, tree};
ghost use Rattle.spa_text_read.specs.Tokens.{after_end_object, any_text};
ghost use Rattle.spa_text_read.specs.declared.inside.Opened.TheVariants.{Leaf};
ghost use Rattle.spa_text_read.specs.Seen.{IsFresh, IsOpened, kind_in, items_in, leaf_at, leaf_of, opened_of, opening_of, said_by, says};
ghost use Rattle.spa_text_read.specs.Shapes.{shape_of};
ghost use Rattle.spa_value.specs.View.{view};

use crate::cause::Cause;
use crate::element::{Element, value_of};
use crate::inside::{Inside, Opened};
use crate::names::{ids_of, keys_of};
use crate::numerals::wide_bits;
use crate::open_object::OpenObject;
use crate::scalars::scalar_of;
use crate::shape::Shape;
use crate::tag::{Scalar, Tag, bare, tag_of, takes_text};
use crate::tokens::{
    any_key, any_text, any_token, begin_array, begin_object, end_object, key, name_or_word,
    no_number, word,
};
use bitflags::Flags;
use json::{Reader, Token};
use spa_names::{Expected, Table};
use spa_utils::{Fraction, Rectangle};
use spa_value::{PropertyFlags, Value, ValueArray, discard};
use std::alloc::Global;

/// Reads what begins with this token: a whole value, or a value with others in it up to these.
#[inline(never)]
#[tactic(auto, unfolding(crate::specs::Grammar::opens))]
pub(crate) fn open(
    alloc: Global,
    reader: &mut Reader<'_>,
    head: Token<'_>,
    expected: Expected,
) -> Result<Opened, Cause>
    ensures opened { IfOk result
        (λ o. grammar.opens expected (token_of head.entry) reader.old
        ≡ Some (opened_of o, reader.new)) }
    ensures proper { IfOk result (λ o. IsOpened o) }
    ensures refused { IfErr result
        (λ e. e ≢ Cause.OutOfMemory →
        grammar.opens expected (token_of head.entry) reader.old ≡ None) }
    ensures no_more { length reader.new ≤ length reader.old }
{
    match head {
        Token::Null => Ok(Opened::Leaf(Value::None)),
        Token::Bool(value) => Ok(Opened::Leaf(Value::Bool(value))),
        Token::Number(_) => match scalar_of(bare(expected.type_.0), expected.ids, head) {
            Some(number) => Ok(Opened::Leaf(value_of(number))),
            None => Err(Cause::Number),
        },
        Token::String(text) => {
            if takes_text(expected.type_.0) {
                let scalar = bare(expected.type_.0);
                return match scalar_of(scalar, expected.ids, head) {
                    Some(number) => Ok(Opened::Leaf(value_of(number))),
                    None => Err(no_scalar(scalar, head)),
                };
            }
            match String::from_str(alloc, text) {
                Ok(text) => Ok(Opened::Leaf(Value::String(text))),
                Err(_) => Err(Cause::OutOfMemory),
            }
        }
        Token::BeginArray => Ok(Opened::Begun(struct_at(alloc, false)?)),
        Token::Key(name) => open_tagged(alloc, reader, tag_of(name), expected),
        _ => Err(Cause::Token),
    }
}

/// Reads the rest of an object whose first key says this.
fn open_tagged(
    alloc: Global,
    reader: &mut Reader<'_>,
    tag: Tag,
    expected: Expected,
) -> Result<Opened, Cause>
    ensures opened { IfOk result (λ o. grammar.tagged_at expected tag reader.old ≡ Some (opened_of o, reader.new)) }
    ensures proper { IfOk result (λ o. IsOpened o) }
    ensures refused { IfErr result (λ e. e ≢ Cause.OutOfMemory → grammar.tagged_at expected tag reader.old ≡ None) }
    ensures no_more { length reader.new ≤ length reader.old }
{
    match tag {
        Tag::Struct => {
            let Some(()) = begin_array(reader) else {
                return Err(Cause::Token);
            };
            Ok(Opened::Begun(struct_at(alloc, true)?))
        }
        Tag::Array => Ok(Opened::Begun(array_at(alloc, reader, expected)?)),
        Tag::Choice => Ok(Opened::Begun(choice_at(alloc, reader, expected)?)),
        Tag::Object => Ok(Opened::Begun(object_at(alloc, reader)?)),
        _ => match leaf_at(alloc, reader, tag, expected) {
            Ok(value) => end_leaf(value, reader),
            Err(cause) => Err(cause),
        },
    }
}

/// Begins a struct, with room for one member: where structs nest deep, each has no more.
fn struct_at(alloc: Global, tagged: bool) -> Result<Inside, Cause>
    ensures begun { IfOk result (λ i. opening_of i ≡ a_struct tagged) }
    ensures fresh { IfOk result (λ i. IsFresh i) }
    ensures memory { IfErr result (λ e. e ≡ Cause.OutOfMemory) }
{
    match Vec::with_capacity(alloc, 1) {
        Ok(members) => Ok(Inside::Struct { tagged, members }),
        Err(_) => Err(Cause::OutOfMemory),
    }
}

/// Reads a value without members, up to the brace behind it.
fn leaf_at(
    alloc: Global,
    reader: &mut Reader<'_>,
    tag: Tag,
    expected: Expected,
) -> Result<Value, Cause>
    ensures value { IfOk result (λ v. leaf_at expected tag reader.old ≡ Some (leaf_of (view v), reader.new)) }
    ensures leaf { IfOk result (λ v. tree (leaf_of (view v)) ≡ view v) }
    ensures refused { IfErr result (λ e. e ≢ Cause.OutOfMemory → leaf_at expected tag reader.old ≡ None) }
    ensures no_more { length reader.new ≤ length reader.old }
{
    match tag {
        Tag::Scalar(scalar) => Ok(value_of(scalar_at(reader, scalar, expected.ids)?)),
        Tag::String => text_at(alloc, reader),
        Tag::Bytes => Ok(Value::Bytes(hex_bytes(alloc, reader)?)),
        Tag::Bitmap => Ok(Value::Bitmap(hex_bytes(alloc, reader)?)),
        Tag::Width => {
            let (width, height) = two_words(reader, "height")?;
            Ok(Value::Rectangle(Rectangle { width, height }))
        }
        Tag::Num => {
            let (num, denom) = two_words(reader, "denom")?;
            Ok(Value::Fraction(Fraction { num, denom }))
        }
        Tag::Pointer => {
            let (type_, address) = pointer_at(reader)?;
            Ok(Value::Pointer(type_, address))
        }
        _ => Err(Cause::Name),
    }
}

/// Why a token is no number of this type.
fn no_scalar(scalar: Scalar, token: Token<'_>) -> Cause {
    match token {
        Token::String(_) if scalar != Scalar::Id => Cause::Number,
        _ => no_number(token),
    }
}

/// Takes a number of this type.
fn scalar_at(reader: &mut Reader<'_>, scalar: Scalar, ids: Table) -> Result<Element, Cause>
    ensures said { MatchResult result
        (λ e. grammar.tagged_scalar scalar ids reader.old ≡ Some (said_by e, reader.new))
        (λ _. grammar.tagged_scalar scalar ids reader.old ≡ None) }
    ensures no_more { length reader.new ≤ length reader.old }
{
    let Some(token) = any_token(reader) else {
        return Err(Cause::Token);
    };
    match scalar_of(scalar, ids, token) {
        Some(number) => Ok(number),
        None => Err(no_scalar(scalar, token)),
    }
}

/// Takes a text.
fn text_at(alloc: Global, reader: &mut Reader<'_>) -> Result<Value, Cause>
    ensures value { IfOk result
        (λ v. says (λ s. a_text s) (any_text reader.old) ≡ Some (leaf_of (view v), reader.new)) }
    ensures leaf { IfOk result (λ v. tree (leaf_of (view v)) ≡ view v) }
    ensures refused { IfErr result (λ e. e ≢ Cause.OutOfMemory → any_text reader.old ≡ None) }
    ensures no_more { length reader.new ≤ length reader.old }
{
    let Some(text) = any_text(reader) else {
        return Err(Cause::Token);
    };
    match String::from_str(alloc, text) {
        Ok(text) => Ok(Value::String(text)),
        Err(_) => Err(Cause::OutOfMemory),
    }
}

/// Takes the brace behind a value without members.
fn end_leaf(value: Value, reader: &mut Reader<'_>) -> Result<Opened, Cause>
    ensures ended { MatchResult result
        (λ o. (o ≡ Leaf value) × (after_end_object reader.old ≡ Some reader.new))
        (λ e. (e ≡ Cause.Token) × (after_end_object reader.old ≡ None)) }
    ensures no_more { length reader.new ≤ length reader.old }
{
    match end_object(reader) {
        Some(()) => Ok(Opened::Leaf(value)),
        None => {
            discard(value);
            Err(Cause::Token)
        }
    }
}

/// Takes a text of two digits for each byte.
fn hex_bytes(alloc: Global, reader: &mut Reader<'_>) -> Result<Vec<u8>, Cause>
    ensures ok { IfOk result (λ v. grammar.hex_bytes reader.old ≡ Some (v.items, reader.new)) }
    ensures refused { IfErr result (λ e. e ≢ Cause.OutOfMemory → grammar.hex_bytes reader.old ≡ None) }
    ensures no_more { length reader.new ≤ length reader.old }
{
    let Some(text) = any_text(reader) else {
        return Err(Cause::Token);
    };
    match hex::decode(alloc, text) {
        Ok(bytes) => Ok(bytes),
        Err(hex::FromHexError::OutOfMemory) => Err(Cause::OutOfMemory),
        Err(_) => Err(Cause::Number),
    }
}

/// Takes two numbers, the second under this key.
fn two_words(reader: &mut Reader<'_>, name: &str) -> Result<(u32, u32), Cause>
    ensures taken { MatchResult result
        (λ p. grammar.two_words name.now reader.old ≡ Some (p, reader.new))
        (λ _. grammar.two_words name.now reader.old ≡ None) }
    ensures no_more { length reader.new ≤ length reader.old }
{
    let Some(first) = word(reader) else {
        return Err(Cause::Number);
    };
    key(reader, name)?;
    match word(reader) {
        Some(second) => Ok((first, second)),
        None => Err(Cause::Number),
    }
}

/// Takes a type and an address.
fn pointer_at(reader: &mut Reader<'_>) -> Result<(u32, u64), Cause>
    ensures taken { MatchResult result (λ p. grammar.pointer_at reader.old ≡ Some (p, reader.new))
        (λ _. grammar.pointer_at reader.old ≡ None) }
    ensures no_more { length reader.new ≤ length reader.old }
{
    let type_ = name_or_word(reader, Table::Types)?;
    key(reader, "address")?;
    let Some(text) = any_text(reader) else {
        return Err(Cause::Token);
    };
    match wide_bits(text) {
        Some(address) => Ok((type_, address)),
        None => Err(Cause::Number),
    }
}

/// No elements of this type, where it has a fixed size.
fn no_elements(alloc: Global, type_: u32) -> Option<ValueArray>
    ensures kind { option_map kind_in result ≡ grammar.type_kind type_ }
    ensures none { IfSome result (λ a. items_in a ≡ []) }
{
    match type_ {
        1 => Some(ValueArray::None(Vec::new(alloc))),
        2 => Some(ValueArray::Bool(Vec::new(alloc))),
        3 => Some(ValueArray::Id(Vec::new(alloc))),
        4 => Some(ValueArray::Int(Vec::new(alloc))),
        5 => Some(ValueArray::Long(Vec::new(alloc))),
        6 => Some(ValueArray::Float(Vec::new(alloc))),
        7 => Some(ValueArray::Double(Vec::new(alloc))),
        10 => Some(ValueArray::Rectangle(Vec::new(alloc))),
        11 => Some(ValueArray::Fraction(Vec::new(alloc))),
        18 => Some(ValueArray::Fd(Vec::new(alloc))),
        _ => None,
    }
}

/// Begins an array, behind its first key.
fn array_at(alloc: Global, reader: &mut Reader<'_>, expected: Expected) -> Result<Inside, Cause>
    ensures begun { MatchResult result
        (λ i. grammar.array_at expected reader.old ≡ Some (opening_of i, reader.new))
        (λ _. grammar.array_at expected reader.old ≡ None) }
    ensures fresh { IfOk result (λ i. IsFresh i) }
    ensures no_more { length reader.new ≤ length reader.old }
{
    let type_ = name_or_word(reader, Table::Types)?;
    let Some(values) = no_elements(alloc, type_) else {
        return Err(Cause::Type);
    };
    key(reader, "values")?;
    let Some(()) = begin_array(reader) else {
        return Err(Cause::Token);
    };
    Ok(Inside::Array {
        ids: expected.ids,
        values,
    })
}

/// Begins an object, behind its first key.
fn object_at(alloc: Global, reader: &mut Reader<'_>) -> Result<Inside, Cause>
    ensures begun { MatchResult result
        (λ i. grammar.object_at reader.old ≡ Some (opening_of i, reader.new))
        (λ _. grammar.object_at reader.old ≡ None) }
    ensures fresh { IfOk result (λ i. IsFresh i) }
    ensures no_more { length reader.new ≤ length reader.old }
{
    let type_ = name_or_word(reader, Table::Types)?;
    key(reader, "id")?;
    let id = name_or_word(reader, ids_of(type_))?;
    key(reader, "props")?;
    let Some(()) = begin_object(reader) else {
        return Err(Cause::Token);
    };
    Ok(Inside::Object(OpenObject {
        type_,
        id,
        keys: keys_of(type_),
        properties: Vec::new(alloc),
        key: 0,
        flags: PropertyFlags::from_bits_retain(0),
        braced: false,
        wanted: None,
    }))
}

/// The shape of this name.
fn shape_named(name: &str) -> Option<Shape>
    ensures { option_map shape_of result ≡ grammar.shape_named name.now }
{
    match name {
        "None" => Some(Shape::None),
        "Range" => Some(Shape::Range),
        "Step" => Some(Shape::Step),
        "Enum" => Some(Shape::Enum),
        "Flags" => Some(Shape::Flags),
        _ => None,
    }
}

/// The flags of a choice, where this is their key, and the key behind them.
fn choice_flags<'a>(reader: &mut Reader<'a>, name: &'a str) -> Option<(u32, &'a str)>
    ensures taken { MatchOption result (grammar.choice_flags (name.now, reader.old) ≡ None)
        (λ p. grammar.choice_flags (name.now, reader.old) ≡ Some (p.0, (p.1.now, reader.new))) }
    ensures no_more { length reader.new ≤ length reader.old }
{
    if name != "flags" {
        return Some((0, name));
    }
    let Some(flags) = word(reader) else {
        return None;
    };
    match any_key(reader) {
        Some(next) => Some((flags, next)),
        None => None,
    }
}

/// The type of a choice's values, where this is its key, else the one that is expected; and the key behind it.
fn choice_type<'a>(
    reader: &mut Reader<'a>,
    name: &'a str,
    expected: u32,
) -> Result<(u32, &'a str), Cause>
    ensures taken { MatchResult result
        (λ p. grammar.choice_type expected (name.now, reader.old)
        ≡ Some (p.0, (p.1.now, reader.new)))
        (λ _. grammar.choice_type expected (name.now, reader.old) ≡ None) }
    ensures no_more { length reader.new ≤ length reader.old }
{
    if name != "of" {
        return Ok((expected, name));
    }
    let type_ = name_or_word(reader, Table::Types)?;
    match any_key(reader) {
        Some(next) => Ok((type_, next)),
        None => Err(Cause::Token),
    }
}

/// Begins a choice, behind its first key.
fn choice_at(alloc: Global, reader: &mut Reader<'_>, expected: Expected) -> Result<Inside, Cause>
    ensures begun { MatchResult result
        (λ i. grammar.choice_at expected reader.old ≡ Some (opening_of i, reader.new))
        (λ _. grammar.choice_at expected reader.old ≡ None) }
    ensures fresh { IfOk result (λ i. IsFresh i) }
    ensures no_more { length reader.new ≤ length reader.old }
{
    let Some(name) = any_text(reader) else {
        return Err(Cause::Token);
    };
    let Some(shape) = shape_named(name) else {
        return Err(Cause::Name);
    };
    let Some(first) = any_key(reader) else {
        return Err(Cause::Token);
    };
    let Some((flags, second)) = choice_flags(reader, first) else {
        return Err(Cause::Number);
    };
    let (type_, third) = choice_type(reader, second, expected.type_.0)?;
    if third != "values" {
        return Err(Cause::Name);
    }
    let Some(values) = no_elements(alloc, type_) else {
        return Err(Cause::Type);
    };
    let Some(()) = begin_array(reader) else {
        return Err(Cause::Token);
    };
    Ok(Inside::Choice {
        shape,
        flags,
        ids: expected.ids,
        values,
    })
}
