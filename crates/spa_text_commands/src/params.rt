//! Objects printed as `pw-dump` prints params.
ghost use Rattle.std.specs.Prelude.{◌≡◌, ◌<◌, ◌∷◌, ◌++◌, [], false, true, IfErr, IfOk, IfSome, length, string_bytes};
ghost use Rattle.json.specs.Tree.{HasNumbers, ItemsHaveNumbers, MembersHaveNumbers};
ghost use Rattle.json.specs.Value.{items_view, members_view, value_view};
ghost use Rattle.spa_text.specs.Line.{HasNoEnd};
ghost use Rattle.spa_text_commands.specs.Params as spec;
ghost use Rattle.spa_text_commands.specs.Params.{AddsParam, IsValueIn, PrintsParams, RefusesParams};
ghost use Rattle.spa_text_forms.specs.Forms.{IsTextAs};
ghost use Rattle.spa_value.specs.View.{view};

use crate::answer::Failure;
use crate::printing::read_front;
use json::{Error, Scratch, Value as Json, Writer};
use spa_text::{Cause, TextPrinter};
use spa_text_forms::{Form, FreeReader};
use spa_value::{Held, Value, same};
use std::alloc::{AllocError, Global};

/// Why pods aren't printed as `pw-dump` prints params.
#[derive(Clone, Copy, Debug)]
pub enum Unprinted {
    /// They aren't pods one after another.
    NoPods,
    /// `pw-dump` has no form for the value of one of them.
    NoForm,
    /// A growth was refused.
    OutOfMemory,
}

/// A line for each pod that the bytes consist of, as `pw-dump` prints an object of params.
pub fn print_params(alloc: Global, pods: &[u8]) -> Result<Vec<u8>, Unprinted>
    ensures printed { IfOk result (λ lines. PrintsParams pods.now lines.items) }
    ensures refused { IfErr result (RefusesParams pods.now) }
{
    let mut lines = Vec::new(alloc);
    let mut printer = TextPrinter::new(alloc);
    let mut left = pods;
    while !left.is_empty() {
        let (rest, value) = match read_front(alloc, left) {
            Ok(read) => read,
            Err(why) => return Err(unread(why)),
        };
        if !add_param(alloc, &mut printer, &value, &mut lines)? {
            return Err(Unprinted::NoForm);
        }
        left = rest;
    }
    Ok(lines)
}

/// Why pods aren't read, which isn't said of a line.
fn unread(why: Failure) -> Unprinted
    ensures { result ≡ spec.cause_of why }
{
    match why {
        Failure::NoPods => Unprinted::NoPods,
        _ => Unprinted::OutOfMemory,
    }
}

impl From<AllocError> for Unprinted {
    ghost use Rattle.spa_text_commands.specs.declared.params.Unprinted.TheVariants.{OutOfMemory};
    ghost use Rattle.std.specs.Prelude.{◌≡◌};

    ghost from_gives = { λ _ e. e ≡ OutOfMemory };

    fn from(_refused: AllocError) -> Unprinted {
        Unprinted::OutOfMemory
    }
}

/// Adds the line of a value, where `pw-dump` has a form for it that is read as this value, and tells whether it did. Else nothing is added.
fn add_param(
    alloc: Global,
    printer: &mut TextPrinter,
    value: &Value,
    lines: &mut Vec<u8>,
) -> Result<bool, AllocError>
    ensures { IfOk result (AddsParam (view value.now) lines.old.items lines.new.items) }
{
    let Some(form) = form_of(value) else {
        return Ok(false);
    };
    let Some(text) = param_text(alloc, printer, value)? else {
        return Ok(false);
    };
    if !is_read_as(alloc, text.as_str(), form, value)? {
        return Ok(false);
    }
    lines.extend_from_slice(text.as_bytes())?;
    lines.push(b'\n')?;
    Ok(true)
}

/// The form of the params that an object is of; no other value is a param.
fn form_of(value: &Value) -> Option<Form>
    ensures { result ≡ spec.form_of (view value.now) }
{
    match value {
        Value::Object(object) => Some(Form::Dump {
            type_: object.type_,
            id: object.id,
        }),
        _ => None,
    }
}

/// Whether a text in this form is one of this value.
fn is_read_as(alloc: Global, text: &str, form: Form, value: &Value) -> Result<bool, AllocError>
    ensures { IfOk result (λ is_read. is_read ≡ true → IsTextAs form (view value.now) text.now) }
{
    match FreeReader::new(alloc).read_in(text, form) {
        Ok(read) => same(alloc, &Held::from(read), value),
        Err(error) => {
            if error.cause == Cause::OutOfMemory {
                return Err(AllocError);
            }
            Ok(false)
        }
    }
}

/// The text that `pw-dump` prints of a value, where it has a form for each value in it: it may be read as another value. It has one line.
#[tactic(auto, using(crate::proofs::PrintedParams::one_line))]
fn param_text(
    alloc: Global,
    printer: &mut TextPrinter,
    value: &Value,
) -> Result<Option<String>, AllocError>
    ensures { IfOk result (λ text. IfSome text (λ text. HasNoEnd (string_bytes text))) }
{
    let mut named = Vec::new(alloc);
    printer.print(value, &mut named)?;
    let Ok(named) = String::from_utf8(named) else {
        unreachable!()
    };
    let mut scratch = Scratch::new(alloc);
    let value = match Json::parse(alloc, named.as_str(), &mut scratch) {
        Ok(value) => value,
        Err(Error::OutOfMemory) => return Err(AllocError),
        // It nests too deep.
        Err(_) => return Ok(None),
    };
    let mut writer = Writer::new(Vec::new(alloc));
    if !put_value(alloc, &value, &mut writer)? {
        return Ok(None);
    }
    match String::from_utf8(writer.into_inner()) {
        Ok(text) => Ok(Some(text)),
        Err(_) => unreachable!(),
    }
}

/// Writes what `pw-dump` prints of a value of this text, and tells whether it has a form for it.
#[cycle(params)]
fn put_value(alloc: Global, value: &Json<'_>, writer: &mut Writer) -> Result<bool, AllocError>
    requires { HasNumbers (value_view value.now) }
    ensures before { writer.new.before ≡ writer.old.before }
{
    match value {
        Json::Null => writer.null()?,
        Json::Bool(flag) => writer.boolean(*flag)?,
        Json::Number(text) => writer.number(text)?,
        Json::String(text) => writer.string(text)?,
        Json::Array(items) => return put_items(alloc, None, items.as_slice(), writer),
        Json::Object(members) => return put_members(alloc, members.as_slice(), writer),
    }
    Ok(true)
}

/// Writes the values of a choice of this shape, each under its label, or of a list.
#[cycle(params)]
fn put_items(
    alloc: Global,
    shape: Option<&str>,
    items: &[Json<'_>],
    writer: &mut Writer,
) -> Result<bool, AllocError>
    requires { ItemsHaveNumbers (items_view items.now) }
    ensures before { writer.new.before ≡ writer.old.before }
{
    begin_items(shape, writer)?;
    let mut place: usize = 0;
    for item in items {
        put_label(alloc, shape, place, writer)?;
        if !put_value(alloc, item, writer)? {
            return Ok(false);
        }
        place = place.saturating_add(1);
    }
    end_items(shape, writer)?;
    Ok(true)
}

/// Writes the value that these members are of, by the key of the first.
#[cycle(params)]
fn put_members(
    alloc: Global,
    members: &[(&str, Json<'_>)],
    writer: &mut Writer,
) -> Result<bool, AllocError>
    requires { MembersHaveNumbers (members_view members.now) }
    ensures before { writer.new.before ≡ writer.old.before }
{
    match first_key(members) {
        "type" => match last_value(members) {
            Some(Json::Object(props)) => put_properties(alloc, props.as_slice(), writer),
            _ => Ok(false),
        },
        "choice" | "array" | "struct" => put_values(alloc, members, writer),
        "width" | "num" => put_numbers(members, writer),
        _ => Ok(false),
    }
}

/// Writes an object of these properties.
#[cycle(params)]
fn put_properties(
    alloc: Global,
    members: &[(&str, Json<'_>)],
    writer: &mut Writer,
) -> Result<bool, AllocError>
    requires { MembersHaveNumbers (members_view members.now) }
    ensures before { writer.new.before ≡ writer.old.before }
{
    let video = is_video(members);
    writer.begin_object()?;
    for member in members {
        writer.key(key_shown(video, member.0))?;
        if !put_value(alloc, &member.1, writer)? {
            return Ok(false);
        }
    }
    writer.end_object()?;
    Ok(true)
}

/// Writes the choice, the array or the Struct of these members. Of a choice `pw-dump` prints the values alone.
#[cycle(params)]
fn put_values(
    alloc: Global,
    members: &[(&str, Json<'_>)],
    writer: &mut Writer,
) -> Result<bool, AllocError>
    requires { MembersHaveNumbers (members_view members.now) }
    ensures before { writer.new.before ≡ writer.old.before }
{
    let Some(Json::Array(items)) = last_value(members) else {
        return Ok(false);
    };
    if first_key(members) != "choice" {
        return put_items(alloc, None, items.as_slice(), writer);
    }
    match shape_in(members) {
        Some(shape) => put_items(alloc, Some(shape), items.as_slice(), writer),
        None => Ok(false),
    }
}

/// Writes an object of these numbers.
fn put_numbers(members: &[(&str, Json<'_>)], writer: &mut Writer) -> Result<bool, AllocError>
    requires { MembersHaveNumbers (members_view members.now) }
    ensures before { writer.new.before ≡ writer.old.before }
{
    writer.begin_object()?;
    for member in members {
        let Json::Number(text) = &member.1 else {
            return Ok(false);
        };
        writer.key(member.0)?;
        writer.number(text)?;
    }
    writer.end_object()?;
    Ok(true)
}

/// Writes what stands before the values of a choice, or of a list.
fn begin_items(shape: Option<&str>, writer: &mut Writer) -> Result<(), AllocError>
    ensures before { writer.new.before ≡ writer.old.before }
{
    match shape {
        Some(_) => writer.begin_object(),
        None => writer.begin_array(),
    }
}

/// Writes what stands behind them.
fn end_items(shape: Option<&str>, writer: &mut Writer) -> Result<(), AllocError>
    ensures before { writer.new.before ≡ writer.old.before }
{
    match shape {
        Some(_) => writer.end_object(),
        None => writer.end_array(),
    }
}

/// Writes the label of the value at this place of a choice; those of a list have none.
fn put_label(
    alloc: Global,
    shape: Option<&str>,
    place: usize,
    writer: &mut Writer,
) -> Result<(), AllocError>
    ensures before { writer.new.before ≡ writer.old.before }
{
    match (shape, place) {
        (None, _) => Ok(()),
        (Some(_), 0) => writer.key("default"),
        (Some("Enum"), _) => writer.key(format!(in alloc; "alt{place}")?.as_str()),
        (Some("Flags"), _) => writer.key(format!(in alloc; "flag{place}")?.as_str()),
        (Some(_), 1) => writer.key("min"),
        (Some(_), 2) => writer.key("max"),
        (Some(_), _) => writer.key("step"),
    }
}

/// The key of the first of these members, if there is one.
fn first_key<'a>(members: &[(&'a str, Json<'_>)]) -> &'a str {
    match members {
        [first, ..] => first.0,
        [] => "",
    }
}

/// The shape of the choice of these members, where they have it and its values alone, and it isn't None, whose default `pw-dump` prints plain.
fn shape_in<'a>(members: &[(&str, Json<'a>)]) -> Option<&'a str> {
    let [shape, _] = members else {
        return None;
    };
    match &shape.1 {
        Json::String(name) => { if *name == "None" { None } else { Some(*name) } }
        _ => None,
    }
}

/// The value that is last in these members.
fn last_value<'a, 'b>(members: &'a [(&str, Json<'b>)]) -> Option<&'a Json<'b>>
    requires { MembersHaveNumbers (members_view members.now) }
    ensures { IfSome result (λ value. IsValueIn value.now members.now) }
{
    let Some((last, _)) = members.split_last() else {
        return None;
    };
    Some(&last.1)
}

/// Whether these properties are those of a format of video.
fn is_video(members: &[(&str, Json<'_>)]) -> bool {
    for member in members {
        if member.0 == "mediaType" {
            return matches!(&member.1, Json::String(name) if *name == "video");
        }
    }
    false
}

/// The name by which `pw-dump` prints a key. Some keys of audio and of video have the same.
fn key_shown<'a>(video: bool, key: &'a str) -> &'a str {
    if !video {
        return key;
    }
    match key {
        "Video:format" => "format",
        "Video:profile" => "profile",
        "H264:streamFormat" => "streamFormat",
        _ => key,
    }
}
