//! The tokens of what `pw-dump` prints of params, in the words and the order of the grammar.
ghost use Rattle.std.specs.Prelude.{◌≡◌, ◌∷◌, ◌++◌, [], OnOk, option_map};
ghost use Rattle.json.specs.Json.{object};
ghost use Rattle.json.specs.Token as token;
ghost use Rattle.json.specs.Tree.{HasNumbers, ItemsHaveNumbers, MembersHaveNumbers};
ghost use Rattle.json.specs.Value.{items_view, members_view, value_view};
ghost use Rattle.spa_text_forms.specs.Dump as spec;

use crate::order::{ANYWHERE, Place, put, put_object, under, wanted_under};
use json::{Value, Writer};
use spa_text_read::{FullType, Strictness};
use std::alloc::AllocError;

/// The types of objects have numbers above this one.
const OBJECT_TYPES: u32 = 131072;

/// How many turns there are.
const TURNS: usize = 5;

/// Writes the tokens of params of this type and this id: one, or a list.
pub(crate) fn put_dump(
    type_: u32,
    id: u32,
    value: &Value<'_>,
    writer: &mut Writer,
) -> Result<(), AllocError>
    requires { HasNumbers (value_view value.now) }
    ensures ok { OnOk result (writer.new.tokens ≡ writer.old.tokens ++ spec.dump_of type_ id (value_view value.now)) }
    ensures before { writer.new.before ≡ writer.old.before }
{
    match value {
        Value::Array(items) => put_params(type_, id, items.as_slice(), writer),
        _ => put_param(type_, id, value, writer),
    }
}

/// Writes the params of a list.
fn put_params(
    type_: u32,
    id: u32,
    items: &[Value<'_>],
    writer: &mut Writer,
) -> Result<(), AllocError>
    requires { ItemsHaveNumbers (items_view items.now) }
    ensures ok { OnOk result (writer.new.tokens ≡ writer.old.tokens ++ token.begin_array ∷ spec.objects_of type_ id (items_view items.now)) }
    ensures before { writer.new.before ≡ writer.old.before }
{
    writer.begin_array()?;
    for item in items {
        put_param(type_, id, item, writer)?;
    }
    writer.end_array()
}

/// Writes a param: the object of which a value has the properties.
fn put_param(type_: u32, id: u32, value: &Value<'_>, writer: &mut Writer) -> Result<(), AllocError>
    requires { HasNumbers (value_view value.now) }
    ensures ok { OnOk result (writer.new.tokens ≡ writer.old.tokens ++ spec.object_of type_ id (spec.props_of type_ (value_view value.now))) }
    ensures before { writer.new.before ≡ writer.old.before }
{
    put_head(type_, id, writer)?;
    put_props(type_, value, writer)?;
    writer.end_object()
}

/// Writes what stands before the properties of an object.
fn put_head(type_: u32, id: u32, writer: &mut Writer) -> Result<(), AllocError>
    ensures ok { OnOk result (writer.new.tokens ≡ writer.old.tokens ++ spec.object_head type_ id) }
    ensures before { writer.new.before ≡ writer.old.before }
{
    writer.begin_object()?;
    writer.key("type")?;
    writer.u64(type_ as u64)?;
    writer.key("id")?;
    writer.u64(id as u64)?;
    writer.key("props")
}

/// Writes the properties that a value has.
fn put_props(type_: u32, value: &Value<'_>, writer: &mut Writer) -> Result<(), AllocError>
    requires { HasNumbers (value_view value.now) }
    ensures ok { OnOk result (writer.new.tokens ≡ writer.old.tokens ++ spec.props_of type_ (value_view value.now)) }
    ensures before { writer.new.before ≡ writer.old.before }
{
    match value {
        Value::Object(members) => put_properties(type_, members.as_slice(), writer),
        _ => put(Strictness::Strict, ANYWHERE, value, writer),
    }
}

/// Writes the properties of an object of this type, in their order.
#[cycle(dump)]
fn put_properties(
    type_: u32,
    members: &[(&str, Value<'_>)],
    writer: &mut Writer,
) -> Result<(), AllocError>
    requires { MembersHaveNumbers (members_view members.now) }
    ensures ok { OnOk result (writer.new.tokens ≡ writer.old.tokens
        ++ token.begin_object ∷ spec.dumped_properties type_ (spec.is_video (members_view members.now)) (members_view members.now)) }
    ensures before { writer.new.before ≡ writer.old.before }
{
    let video = is_video(members);
    writer.begin_object()?;
    for member in members {
        let key = key_meant(video, member.0);
        writer.key(key)?;
        put_value(wanted_under(type_, key), &member.1, writer)?;
    }
    writer.end_object()
}

/// Writes a value where this type belongs.
#[cycle(dump)]
fn put_value(wanted: FullType, value: &Value<'_>, writer: &mut Writer) -> Result<(), AllocError>
    requires { HasNumbers (value_view value.now) }
    ensures ok { OnOk result (writer.new.tokens ≡ writer.old.tokens ++ spec.dumped wanted (value_view value.now)) }
    ensures before { writer.new.before ≡ writer.old.before }
{
    match value {
        Value::Object(members) => put_members(wanted, members.as_slice(), writer),
        _ => put(Strictness::Strict, Place::Wants(wanted), value, writer),
    }
}

/// Writes the value that these members are of, where this type belongs: an object, a choice, or one of another kind.
#[cycle(dump)]
fn put_members(
    wanted: FullType,
    members: &[(&str, Value<'_>)],
    writer: &mut Writer,
) -> Result<(), AllocError>
    requires { MembersHaveNumbers (members_view members.now) }
    ensures ok { OnOk result (writer.new.tokens ≡ writer.old.tokens ++ spec.dumped wanted (object (members_view members.now))) }
    ensures before { writer.new.before ≡ writer.old.before }
{
    let type_ = wanted.type_.0;
    if type_ <= OBJECT_TYPES {
        return put_choice_or(wanted, members, writer);
    }
    put_head(type_, 0, writer)?;
    put_properties(type_, members, writer)?;
    writer.end_object()
}

/// Writes the choice that these members are of, or the keys in the grammar's order.
fn put_choice_or(
    wanted: FullType,
    members: &[(&str, Value<'_>)],
    writer: &mut Writer,
) -> Result<(), AllocError>
    requires { MembersHaveNumbers (members_view members.now) }
    ensures ok { OnOk result (writer.new.tokens ≡ writer.old.tokens ++ spec.choice_or wanted (spec.shape_in (members_view members.now)) (members_view members.now)) }
    ensures before { writer.new.before ≡ writer.old.before }
{
    match shape_in(members) {
        Some(shape) => put_choice(shape, members, writer),
        None => put_object(Strictness::Strict, Place::Wants(wanted), members, writer),
    }
}

/// Writes a choice of this shape.
fn put_choice(
    shape: &str,
    members: &[(&str, Value<'_>)],
    writer: &mut Writer,
) -> Result<(), AllocError>
    requires { MembersHaveNumbers (members_view members.now) }
    ensures ok { OnOk result (writer.new.tokens ≡ writer.old.tokens ++ spec.choice_in shape.now (members_view members.now)) }
    ensures before { writer.new.before ≡ writer.old.before }
{
    put_choice_head(shape, writer)?;
    for turn in 0..TURNS {
        put_turn(turn, members, writer)?;
    }
    writer.end_array()?;
    writer.end_object()
}

/// Writes what stands before the values of a choice.
fn put_choice_head(shape: &str, writer: &mut Writer) -> Result<(), AllocError>
    ensures ok { OnOk result (writer.new.tokens ≡ writer.old.tokens ++ spec.choice_head shape.now) }
    ensures before { writer.new.before ≡ writer.old.before }
{
    writer.begin_object()?;
    writer.key("choice")?;
    writer.string(shape)?;
    writer.key("values")?;
    writer.begin_array()
}

/// Writes the values of one turn.
fn put_turn(
    turn: usize,
    members: &[(&str, Value<'_>)],
    writer: &mut Writer,
) -> Result<(), AllocError>
    requires { MembersHaveNumbers (members_view members.now) }
    ensures ok { OnOk result (writer.new.tokens ≡ writer.old.tokens ++ spec.values_at turn (members_view members.now)) }
    ensures before { writer.new.before ≡ writer.old.before }
{
    for member in members {
        if turn_of(member.0) == turn {
            put(Strictness::Strict, ANYWHERE, &member.1, writer)?;
        }
    }
    Ok(())
}

/// Where a value of a choice comes by its key.
fn turn_of(key: &str) -> usize
    ensures { result ≡ spec.turn key.now }
{
    match key {
        "default" => 0,
        "min" => 1,
        "max" => 2,
        "step" => 3,
        _ => 4,
    }
}

/// The shape of the choice that these members are of, if they are of one.
fn shape_in(members: &[(&str, Value<'_>)]) -> Option<&'static str>
    ensures { option_map (λ s. s.now) result ≡ spec.shape_in (members_view members.now) }
{
    if under(members, "default").is_none() {
        return None;
    }
    if are_keys_of("Enum", members) {
        Some("Enum")
    } else if are_keys_of("Flags", members) {
        Some("Flags")
    } else if are_keys_of("Range", members) {
        Some("Range")
    } else if are_keys_of("Step", members) {
        Some("Step")
    } else {
        None
    }
}

/// Whether the keys of these members are those of a choice of this shape.
fn are_keys_of(shape: &str, members: &[(&str, Value<'_>)]) -> bool
    ensures { result ≡ spec.are_keys_of shape.now (members_view members.now) }
{
    for member in members {
        if !is_key_of(shape, member.0) {
            return false;
        }
    }
    true
}

/// Whether this is a key of a choice of this shape.
fn is_key_of(shape: &str, key: &str) -> bool
    ensures { result ≡ spec.is_key_of shape.now key.now }
{
    if key == "default" {
        return true;
    }
    match shape {
        "Enum" => key.as_bytes().starts_with(b"alt"),
        "Flags" => key.as_bytes().starts_with(b"flag"),
        _ => key == "min" || key == "max" || (shape == "Step" && key == "step"),
    }
}

/// Whether these members are of a format of video.
fn is_video(members: &[(&str, Value<'_>)]) -> bool
    ensures { result ≡ spec.is_video (members_view members.now) }
{
    match under(members, "mediaType") {
        Some(value) => is_video_type(value),
        None => false,
    }
}

/// Whether this is the media type of video.
fn is_video_type(value: &Value<'_>) -> bool
    ensures { result ≡ spec.is_video_type (value_view value.now) }
{
    match value {
        Value::String(name) => *name == "video",
        _ => false,
    }
}

/// The key that is meant by the short name that `pw-dump` prints.
fn key_meant<'a>(video: bool, key: &'a str) -> &'a str
    ensures { result.now ≡ spec.key_meant video key.now }
{
    if !video {
        return key;
    }
    match key {
        "format" => "Video:format",
        "profile" => "Video:profile",
        "streamFormat" => "H264:streamFormat",
        _ => key,
    }
}
