//! Values that are read, and those that are begun.
ghost use Rattle.std.specs.Prelude.{◌≡◌, ◌≢◌, ◌<◌, ◌≤◌, ◌++◌, ◌∷◌, [], IfErr, IfOk, MatchOption, MatchResult, OnErr, OnOk, Some, None, false, length, option_map, true};
ghost use Rattle.json.specs.Json.{after_end_array, read_key};
ghost use Rattle.json.specs.Reads.{token_of};
ghost use Rattle.spa_format.specs.Tree.{fixed, join_members, join_properties, member, no_properties, no_trees, property};
ghost use Rattle.spa_text_read.specs.Grammar as grammar;
ghost use Rattle.spa_text_read.specs.Names as spec;
ghost use Rattle.spa_text_read.specs.Fitting as fitting;
ghost use Rattle.spa_text_read.specs.FramesFit.{AdmitsLast, last_fits};
ghost use Rattle.spa_text_read.specs.Seen.{IsListed, KeepsAtEnd, frame_of, items_in, kind_in, next_of, said_by};
ghost use Rattle.spa_text_read.specs.Steps as steps;
ghost use Rattle.spa_text_read.specs.Steps.{Frame};
ghost use Rattle.spa_text_read.specs.declared.inside.Inside.TheVariants as inside;
ghost use Rattle.spa_value.specs.View.{view};
ghost use Rattle.spa_value.specs.Views.{property_views, views};

use crate::cause::Cause;
use crate::chosen::choice_value;
use crate::element::{Element, element_of, put_element, value_of};
use crate::fitting::{
    FullType, Misfit, Strictness, element_type, misfit_of, type_under, wanted_under,
};
use crate::names::{expected_under, key_named};
use crate::numerals::number_of_digits;
use crate::open_object::OpenObject;
use crate::shape::Shape;
use crate::tokens::{end_object, head, item, key, next_key, word};
use bitflags::Flags;
use json::{Reader, Token};
use spa_names::{Expected, Table};
use spa_utils::SpaTypes;
use spa_value::{Object, Property, PropertyFlags, Value, ValueArray, discard};

/// For how many properties room is made at first: most objects have as many at most.
const FIRST_ROOM: usize = 8;

/// A value with others in it that is begun, and what is read of it.
#[derive(Drop)]
pub(crate) enum Inside {
    /// Members, and whether a brace follows their end.
    Struct {
        tagged: bool,
        members: Vec<Value>,
    },
    /// Elements, and the names of their ids.
    Array {
        ids: Table,
        values: ValueArray,
    },
    /// The values of a choice, the default first.
    Choice {
        shape: Shape,
        flags: u32,
        ids: Table,
        values: ValueArray,
    },
    Object(OpenObject),
}

/// A whole value, or one that is begun.
#[derive(Drop)]
pub(crate) enum Opened {
    Leaf(Value),
    Begun(Inside),
}

/// What follows inside an open value.
pub(crate) enum Next<'a> {
    /// It has ended.
    Ended,
    /// A value that begins with this token, where this is expected.
    Wants(Token<'a>, Expected),
}

impl Inside {
    /// Reads up to the next value in it, or to its end.
    #[tactic(auto, unfolding(crate::specs::Steps::next))]
    pub(crate) fn next<'a>(&mut self, reader: &mut Reader<'a>) -> Result<Next<'a>, Cause>
        ensures next { IfOk result
            (λ n. steps.next (frame_of self.old) reader.old
            ≡ Some (next_of (frame_of self.new) n, reader.new)) }
        ensures kept { IfOk result (λ n. KeepsAtEnd n self.old self.new) }
        ensures refused { OnErr result (steps.next (frame_of self.old) reader.old ≡ None) }
        ensures fewer { OnOk result (length reader.new < length reader.old) }
    {
        match self {
            Inside::Struct { tagged, .. } => next_item(reader, *tagged, Expected::NOTHING),
            Inside::Array { ids, values } => next_item(reader, true, element(*ids, values)),
            Inside::Choice { ids, values, .. } => next_item(reader, true, element(*ids, values)),
            Inside::Object(object) => object.next_property(reader),
        }
    }

    /// Puts a value that is read behind the others.
    pub(crate) fn put(&mut self, value: Value, reader: &mut Reader<'_>) -> Result<(), Cause>
        ensures put { OnOk result
            (steps.put (frame_of self.old) (view value) reader.old
            ≡ Some (frame_of self.new, reader.new)) }
        ensures refused { IfErr result
            (λ e. e ≢ Cause.OutOfMemory →
            steps.put (frame_of self.old) (view value) reader.old ≡ None) }
        ensures no_more { length reader.new ≤ length reader.old }
    {
        match self {
            Inside::Struct { members, .. } => put_member(members, value),
            Inside::Array { values, .. } => put_value(values, value),
            Inside::Choice { values, .. } => put_value(values, value),
            Inside::Object(object) => object.put(value, reader),
        }
    }

    /// Puts a value of fixed size that is read behind the others.
    #[inline(always)]
    pub(crate) fn put_number(
        &mut self,
        number: Element,
        reader: &mut Reader<'_>,
    ) -> Result<(), Cause>
        ensures put { OnOk result
            (steps.put (frame_of self.old) (fixed (said_by number)) reader.old
            ≡ Some (frame_of self.new, reader.new)) }
        ensures refused { IfErr result
            (λ e. e ≢ Cause.OutOfMemory →
            steps.put (frame_of self.old) (fixed (said_by number)) reader.old ≡ None) }
        ensures no_more { length reader.new ≤ length reader.old }
    {
        match self {
            Inside::Struct { members, .. } => put_member(members, value_of(number)),
            Inside::Array { values, .. } => put_element(values, number),
            Inside::Choice { values, .. } => put_element(values, number),
            Inside::Object(object) => object.put(value_of(number), reader),
        }
    }

    /// Its value, where its end is read.
    pub(crate) fn into_value(self) -> Result<Value, Cause>
        ensures value { MatchResult result (λ v. steps.value_of (frame_of self) ≡ Some (view v))
            (λ _. steps.value_of (frame_of self) ≡ None) }
    {
        match self {
            Inside::Struct { members, .. } => Ok(Value::Struct(members)),
            Inside::Array { values, .. } => Ok(Value::ValueArray(values)),
            Inside::Choice {
                shape,
                flags,
                values,
                ..
            } => choice_value(shape, flags, values),
            Inside::Object(object) => Ok(Value::Object(Object {
                type_: object.type_,
                id: object.id,
                properties: object.properties,
            })),
        }
    }

    /// The type of the last property's value and the one that belongs under its key, where this is an object that is read strictly, and the two don't
    /// fit.
    pub(crate) fn misfit(&self, strictness: Strictness) -> Option<Misfit>
        ensures { MatchOption result (AdmitsLast strictness (frame_of self.now))
            (λ _. ¬ (AdmitsLast strictness (frame_of self.now))) }
    {
        if strictness == Strictness::Plain {
            return None;
        }
        match self {
            Inside::Object(object) => object.misfit(),
            _ => None,
        }
    }

    /// Drops what was read, by a loop, since it may be nested deep.
    pub(crate) fn give_up(self) {
        match self {
            Inside::Struct { members, .. } => discard(Value::Struct(members)),
            Inside::Array { values, .. } => discard(Value::ValueArray(values)),
            Inside::Choice { values, .. } => discard(Value::ValueArray(values)),
            Inside::Object(object) => discard(Value::Object(Object {
                type_: object.type_,
                id: object.id,
                properties: object.properties,
            })),
        }
    }
}

/// What is expected of the next element behind these: their type; an Id is of this table.
fn element(ids: Table, values: &ValueArray) -> Expected
    ensures { result ≡ grammar.element ids (kind_in values.now) }
{
    Expected {
        type_: element_type(values),
        element: SpaTypes(0),
        ids,
    }
}

/// Takes the brace behind the end of a value, where there is one.
fn close(reader: &mut Reader<'_>, braced: bool) -> Option<()>
    ensures taken { MatchOption result (grammar.close braced reader.old ≡ None)
        (λ _. grammar.close braced reader.old ≡ Some reader.new) }
    ensures no_more { length reader.new ≤ length reader.old }
{
    if braced {
        return end_object(reader);
    }
    Some(())
}

/// Takes the bracket behind the items, with the brace behind it, or the first token of the next item.
fn next_item<'a>(
    reader: &mut Reader<'a>,
    braced: bool,
    expected: Expected,
) -> Result<Next<'a>, Cause>
    ensures next { IfOk result
        (λ n. (f : Frame) → IsListed f braced expected →
        steps.next_item f reader.old (after_end_array reader.old)
        ≡ Some (next_of f n, reader.new)) }
    ensures refused { OnErr result
        ((f : Frame) → IsListed f braced expected →
        steps.next_item f reader.old (after_end_array reader.old) ≡ None) }
    ensures fewer { OnOk result (length reader.new < length reader.old) }
{
    let Some(found) = item(reader) else {
        return Err(Cause::Token);
    };
    match found {
        Some(head) => Ok(Next::Wants(head, expected)),
        None => match close(reader, braced) {
            Some(()) => Ok(Next::Ended),
            None => Err(Cause::Token),
        },
    }
}

impl OpenObject {
    /// Reads the key and flags of the next property, and the first token of its value; or the braces behind the last.
    fn next_property<'a>(&mut self, reader: &mut Reader<'a>) -> Result<Next<'a>, Cause>
        ensures next { IfOk result
            (λ n. steps.after_key_read self.old.type_ self.old.id
            (property_views self.old.properties.items) (read_key reader.old)
            ≡ Some (next_of (frame_of (inside.Object self.new)) n, reader.new)) }
        ensures kept { IfOk result (λ n. KeepsAtEnd n (inside.Object self.old) (inside.Object self.new)) }
        ensures refused { OnErr result
            (steps.after_key_read self.old.type_ self.old.id
            (property_views self.old.properties.items) (read_key reader.old) ≡ None) }
        ensures fewer { OnOk result (length reader.new < length reader.old) }
    {
        let Some(found) = next_key(reader) else {
            return Err(Cause::Token);
        };
        let Some(name) = found else {
            return match end_object(reader) {
                Some(()) => Ok(Next::Ended),
                None => Err(Cause::Token),
            };
        };
        let Some((key, expected)) = key_at(self.keys, name) else {
            return Err(Cause::Name);
        };
        self.key = key;
        self.wanted = Some(wanted_under(self.type_, key, expected));
        let (flags, braced, head) = property_at(reader)?;
        self.flags = PropertyFlags::from_bits_retain(flags);
        self.braced = braced;
        Ok(Next::Wants(head, expected))
    }

    /// The type that belongs under a key.
    fn type_under(&self, key: u32) -> FullType
        ensures { result ≡ fitting.type_under self.now.type_ key }
    {
        match self.wanted {
            Some(wanted) if key == self.key => wanted,
            _ => type_under(self.type_, key),
        }
    }

    /// What the last property has in place of the type that belongs under its key.
    fn misfit(&self) -> Option<Misfit>
        ensures { MatchOption result
            (last_fits self.now.type_ (property_views self.now.properties.items) ≡ true)
            (λ _. last_fits self.now.type_ (property_views self.now.properties.items) ≡ false) }
    {
        match self.properties.last() {
            Some(property) => misfit_of(self.type_under(property.key), &property.value),
            None => None,
        }
    }

    /// Puts the value of the property whose key and flags are read behind the others.
    #[inline(always)]
    fn put(&mut self, value: Value, reader: &mut Reader<'_>) -> Result<(), Cause>
        ensures closed { OnOk result (grammar.close self.old.braced reader.old ≡ Some reader.new) }
        ensures put { OnOk result
            (property_views self.new.properties.items
            ≡ join_properties (property_views self.old.properties.items)
            (property self.old.key self.old.flags.0 (view value) no_properties)) }
        ensures kept { OnOk result
            ((self.new.type_ ≡ self.old.type_) × (self.new.id ≡ self.old.id)
            × (self.new.key ≡ self.old.key) × (self.new.flags.0 ≡ self.old.flags.0)
            × (self.new.braced ≡ self.old.braced)) }
        ensures refused { IfErr result (λ e. e ≢ Cause.OutOfMemory → grammar.close self.old.braced reader.old ≡ None) }
        ensures no_more { length reader.new ≤ length reader.old }
    {
        let Some(()) = close(reader, self.braced) else {
            discard(value);
            return Err(Cause::Token);
        };
        let room = if self.properties.is_empty() {
            FIRST_ROOM
        } else {
            1
        };
        let Ok(()) = self.properties.reserve(room) else {
            discard(value);
            return Err(Cause::OutOfMemory);
        };
        self.properties.push_reserved(Property {
            key: self.key,
            flags: self.flags,
            value,
        });
        Ok(())
    }
}

/// The number of a key, by its digits or by its name, and what is expected of the value under it.
fn key_at(keys: Table, name: &str) -> Option<(u32, Expected)>
    ensures { MatchOption result (grammar.key_number keys name.now ≡ None)
        (λ key. (grammar.key_number keys name.now ≡ Some key.0)
        × (key.1 ≡ spec.expected_under keys key.0)) }
{
    match number_of_digits(name) {
        Some(number) => Some((number, expected_under(keys, number))),
        None => key_named(keys, name),
    }
}

/// Whether the token is the key of flags.
fn is_flags(token: Token<'_>) -> bool
    ensures { result ≡ grammar.is_flags (token_of token.entry) }
{
    match token {
        Token::Key(name) => name == "flags",
        _ => false,
    }
}

/// The flags of a property, whether a brace follows its value, and the first token of that.
fn property_at<'a>(reader: &mut Reader<'a>) -> Result<(u32, bool, Token<'a>), Cause>
    ensures taken { MatchResult result
        (λ p. grammar.property_at reader.old ≡ Some ((p.0, (p.1, token_of p.2)), reader.new))
        (λ _. grammar.property_at reader.old ≡ None) }
    ensures no_more { length reader.new ≤ length reader.old }
{
    let Some(first) = head(reader) else {
        return Err(Cause::Token);
    };
    if !is_flags(first) {
        return Ok((0, false, first));
    }
    let Some(flags) = word(reader) else {
        return Err(Cause::Number);
    };
    key(reader, "value")?;
    match head(reader) {
        Some(first) => Ok((flags, true, first)),
        None => Err(Cause::Token),
    }
}

/// Puts a member behind the others.
#[inline(always)]
fn put_member(members: &mut Vec<Value>, value: Value) -> Result<(), Cause>
    ensures ok { OnOk result
        (views members.new.items
        ≡ join_members (views members.old.items) (member (view value) no_trees)) }
    ensures memory { IfErr result (λ e. e ≡ Cause.OutOfMemory) }
{
    let Ok(()) = members.reserve(1) else {
        discard(value);
        return Err(Cause::OutOfMemory);
    };
    members.push_reserved(value);
    Ok(())
}

/// Puts a value of fixed size behind the others, where it is of their type.
fn put_value(values: &mut ValueArray, value: Value) -> Result<(), Cause>
    ensures put { OnOk result
        (option_map (λ x. items_in values.old ++ x ∷ [])
        (steps.element_of (kind_in values.old) (view value)) ≡ Some (items_in values.new)) }
    ensures kind { OnOk result (kind_in values.new ≡ kind_in values.old) }
    ensures refused { IfErr result
        (λ e. e ≢ Cause.OutOfMemory → steps.element_of (kind_in values.old) (view value) ≡ None) }
{
    match element_of(&value) {
        Some(element) => put_element(values, element),
        None => {
            discard(value);
            Err(Cause::Type)
        }
    }
}
