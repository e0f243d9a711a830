//! The tokens of a value of JSON, in the order of the grammar.
ghost use Rattle.std.specs.Prelude.{◌≡◌, ◌++◌, OnOk, Some, option_map};
ghost use Rattle.json.specs.Tree.{HasNumbers, ItemsHaveNumbers, MembersHaveNumbers};
ghost use Rattle.json.specs.Value.{items_view, members_view, value_view};
ghost use Rattle.spa_text_read.specs.Grammar as grammar;
ghost use Rattle.spa_text_forms.specs.Order as spec;

use json::{Value, Writer};
use spa_names::{Table, number_of};
use spa_text_read::names::keys_of;
use spa_text_read::numerals::unsigned;
use spa_text_read::{FullType, Strictness, type_under};
use spa_utils::SpaTypes;
use std::alloc::AllocError;

/// Where a value is in a text.
#[derive(Clone, Copy)]
pub(crate) enum Place {
    /// Where a value of this type belongs.
    Wants(FullType),
    /// Under `props` of an object of this type.
    Properties(u32),
}

/// The place of a value of which no type is known.
pub(crate) const ANYWHERE: Place = Place::Wants(FullType {
    type_: SpaTypes(0),
    element: SpaTypes(0),
});

/// How many ranks there are.
const RANKS: usize = 16;

/// Writes the tokens of a value at this place.
#[cycle(order)]
pub(crate) fn put(
    strictness: Strictness,
    place: Place,
    value: &Value<'_>,
    writer: &mut Writer,
) -> Result<(), AllocError>
    requires { HasNumbers (value_view value.now) }
    ensures ok { OnOk result (writer.new.tokens ≡ writer.old.tokens ++ spec.ordered strictness place (value_view value.now)) }
    ensures before { writer.new.before ≡ writer.old.before }
{
    match value {
        Value::Null => writer.null(),
        Value::Bool(flag) => writer.boolean(*flag),
        Value::Number(text) => writer.number(text),
        Value::String(text) => writer.string(text),
        Value::Array(items) => put_list(strictness, place, items.as_slice(), writer),
        Value::Object(members) => put_object(strictness, place, members.as_slice(), writer),
    }
}

/// Writes a list: with the tag of an array where the table says that there is one.
#[cycle(order)]
fn put_list(
    strictness: Strictness,
    place: Place,
    items: &[Value<'_>],
    writer: &mut Writer,
) -> Result<(), AllocError>
    requires { ItemsHaveNumbers (items_view items.now) }
    ensures ok { OnOk result (writer.new.tokens ≡ writer.old.tokens ++ spec.list_in (spec.element_in strictness place) (spec.items_in strictness (items_view items.now))) }
    ensures before { writer.new.before ≡ writer.old.before }
{
    let element = element_in(strictness, place);
    begin_list(element, writer)?;
    put_items(strictness, items, writer)?;
    end_list(element, writer)
}

/// Writes what stands before the items of a list: of an array of elements of this type also its tag.
fn begin_list(element: Option<u32>, writer: &mut Writer) -> Result<(), AllocError>
    ensures ok { OnOk result (writer.new.tokens ≡ writer.old.tokens ++ spec.list_head element) }
    ensures before { writer.new.before ≡ writer.old.before }
{
    match element {
        Some(type_) => begin_array_of(type_, writer),
        None => writer.begin_array(),
    }
}

/// Writes what stands before the elements of an array of this type.
fn begin_array_of(type_: u32, writer: &mut Writer) -> Result<(), AllocError>
    ensures ok { OnOk result (writer.new.tokens ≡ writer.old.tokens ++ spec.list_head (Some type_)) }
    ensures before { writer.new.before ≡ writer.old.before }
{
    writer.begin_object()?;
    writer.key("array")?;
    writer.u64(type_ as u64)?;
    writer.key("values")?;
    writer.begin_array()
}

/// Writes what stands behind the bracket of a list.
fn end_list(element: Option<u32>, writer: &mut Writer) -> Result<(), AllocError>
    ensures ok { OnOk result (writer.new.tokens ≡ writer.old.tokens ++ spec.list_end element) }
    ensures before { writer.new.before ≡ writer.old.before }
{
    match element {
        Some(_) => writer.end_object(),
        None => Ok(()),
    }
}

/// Writes the items of a list, and the bracket behind them.
#[cycle(order)]
fn put_items(
    strictness: Strictness,
    items: &[Value<'_>],
    writer: &mut Writer,
) -> Result<(), AllocError>
    requires { ItemsHaveNumbers (items_view items.now) }
    ensures ok { OnOk result (writer.new.tokens ≡ writer.old.tokens ++ spec.items_in strictness (items_view items.now)) }
    ensures before { writer.new.before ≡ writer.old.before }
{
    for item in items {
        put(strictness, ANYWHERE, item, writer)?;
    }
    writer.end_array()
}

/// Writes an object, its members rank by rank.
#[cycle(order)]
pub(crate) fn put_object(
    strictness: Strictness,
    place: Place,
    members: &[(&str, Value<'_>)],
    writer: &mut Writer,
) -> Result<(), AllocError>
    requires { MembersHaveNumbers (members_view members.now) }
    ensures ok { OnOk result (writer.new.tokens ≡ writer.old.tokens ++ spec.object_in place (spec.pieces strictness place (spec.type_in (members_view members.now)) (members_view members.now))) }
    ensures before { writer.new.before ≡ writer.old.before }
{
    let type_ = type_in(members);
    writer.begin_object()?;
    for rank in 0..RANKS {
        put_rank(strictness, place, type_, rank, members, writer)?;
    }
    writer.end_object()
}

/// Writes the members of a rank.
#[cycle(order)]
fn put_rank(
    strictness: Strictness,
    place: Place,
    type_: u32,
    rank: usize,
    members: &[(&str, Value<'_>)],
    writer: &mut Writer,
) -> Result<(), AllocError>
    requires { MembersHaveNumbers (members_view members.now) }
    ensures ok { OnOk result (writer.new.tokens ≡ writer.old.tokens ++ spec.at_rank (spec.rank_in place) rank (spec.pieces strictness place type_ (members_view members.now))) }
    ensures before { writer.new.before ≡ writer.old.before }
{
    for member in members {
        if rank_in(place, member.0) == rank {
            writer.key(member.0)?;
            put(
                strictness,
                place_under(place, type_, member.0),
                &member.1,
                writer,
            )?;
        }
    }
    Ok(())
}

/// The type of the elements, where strict reading takes a list there as an array.
fn element_in(strictness: Strictness, place: Place) -> Option<u32>
    ensures { result ≡ spec.element_in strictness place }
{
    if strictness == Strictness::Plain {
        return None;
    }
    match place {
        Place::Wants(wanted) => {
            if wanted.type_ == SpaTypes::Array {
                Some(wanted.element.0)
            } else {
                None
            }
        }
        Place::Properties(_) => None,
    }
}

/// Where the value under this key is, in an object of this place and this type.
fn place_under(place: Place, type_: u32, key: &str) -> Place
    ensures { result ≡ spec.place_under place type_ key.now }
{
    match place {
        Place::Properties(of) => Place::Wants(wanted_under(of, key)),
        Place::Wants(_) => match key {
            "props" => Place::Properties(type_),
            "value" => place,
            _ => ANYWHERE,
        },
    }
}

/// The type that belongs under this key of an object of this type.
pub(crate) fn wanted_under(type_: u32, key: &str) -> FullType
    ensures { result ≡ spec.wanted_under type_ key.now }
{
    match key_number(keys_of(type_), key) {
        Some(number) => type_under(type_, number),
        None => FullType {
            type_: SpaTypes(0),
            element: SpaTypes(0),
        },
    }
}

/// The number of a key, a type or an id of this table, by its digits or by its name. None: it is neither a number below 2^32 nor a name of the table.
#[tactic(auto, unfolding(spa_text_read::specs::Names::number_of))]
pub fn key_number(keys: Table, name: &str) -> Option<u32>
    ensures { result ≡ grammar.key_number keys name.now }
{
    match unsigned(name) {
        Some(number) => Some(number),
        None => number_of(keys, name),
    }
}

/// The value under the first of these keys that has this name.
pub(crate) fn under<'a, 'k, 'b>(
    members: &'a [(&'k str, Value<'b>)],
    name: &str,
) -> Option<&'a Value<'b>>
    ensures { option_map (λ value. value_view value.now) result ≡ spec.under name.now (members_view members.now) }
{
    for member in members {
        if member.0 == name {
            return Some(&member.1);
        }
    }
    None
}

/// The number of the type that the members of an object name; 0 where they name none.
fn type_in(members: &[(&str, Value<'_>)]) -> u32
    ensures { result ≡ spec.type_in (members_view members.now) }
{
    match under(members, "type") {
        Some(value) => type_named(value),
        None => 0,
    }
}

/// The number of the type that a value names.
#[tactic(auto, unfolding(spa_text_read::specs::Names::number_of))]
fn type_named(value: &Value<'_>) -> u32
    ensures { result ≡ spec.type_named (value_view value.now) }
{
    let found = match value {
        Value::String(name) => number_of(Table::Types, name),
        Value::Number(digits) => unsigned(digits),
        _ => None,
    };
    match found {
        Some(number) => number,
        None => 0,
    }
}

/// Where a member comes in an object of this place: properties stay in their order.
fn rank_in(place: Place, key: &str) -> usize
    ensures { result ≡ spec.rank_in place key.now }
{
    match place {
        Place::Properties(_) => 0,
        Place::Wants(_) => rank(key),
    }
}

/// Where a key comes among the fixed ones, by the grammar: other keys come last.
fn rank(key: &str) -> usize
    ensures { result ≡ spec.rank key.now }
{
    match key {
        "type" => 0,
        "choice" => 1,
        "array" => 2,
        "width" => 3,
        "num" => 4,
        "pointer" => 5,
        "id" => 6,
        "flags" => 7,
        "of" => 8,
        "height" => 9,
        "denom" => 10,
        "address" => 11,
        "props" => 12,
        "value" => 13,
        "values" => 14,
        _ => 15,
    }
}
