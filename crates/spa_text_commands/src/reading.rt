//! Texts read as pods.
ghost use Rattle.std.specs.Prelude.{◌≡◌, ◌≢◌, ◌+◌, ◌<◌, ◌^◌, ◌++◌, [], ℕ, List, IfErr, IfOk, IfSome, MatchOption, OnErr, OnOk, false, length, true};
ghost use Rattle.spa_text_commands.specs.Extent.{BeginsText};
ghost use Rattle.spa_text_commands.specs.Texts as spec;
ghost use Rattle.spa_text_commands.specs.Texts.{ReadsTexts, RefusesTexts, items_or_one, pods_in};
ghost use Rattle.spa_text_commands.specs.Unread.{AddsText, AreUnwritable, IsFor, IsFound, IsNoPod, IsNoText};
ghost use Rattle.spa_format.specs.Encoding.{encoding_of, member_encodings};
ghost use Rattle.spa_format.specs.Tree.{Tree, member, no_trees};
ghost use Rattle.spa_text_forms.specs.Forms.{IsTextAs};
ghost use Rattle.spa_text_forms.specs.declared.form.Form.{Form as FormOf};
ghost use Rattle.spa_text_read.specs.declared.cause.Cause as Cause;
ghost use Rattle.spa_value.specs.View.{view};
ghost use Rattle.spa_value.specs.Views.{views};

use crate::answer::Failure;
use crate::extent::{position_behind, split_line, split_text};
use crate::structs::add_struct;
use json::Scratch;
use spa_sink::GenError;
use spa_text::{Cause, Misfit};
use spa_text_forms::{Form, FreeReader};
use spa_value::{Held, Value};
use spa_write::write_sized;
use std::alloc::Global;

/// Why a text isn't read.
#[derive(Drop)]
enum Unread {
    OutOfMemory,
    For {
        kind: &'static str,
        words: &'static str,
        /// How many bytes of it stand before the place up to which it was read.
        offset: usize,
        path: String,
        misfit: Option<Misfit>,
    },
}

/// What a text was read as.
#[derive(Drop)]
enum Found {
    /// Nothing has pods that are still to be added: the text is blank, or a struct, whose pod was added as it was read.
    Added,
    /// A value.
    Value(Held),
}

/// The pods of the values of which the bytes are texts in this form, among blank lines; read strictly, of no value with another type than the one that
/// belongs under a key.
#[tactic(auto, using(crate::proofs::ReadTexts::ends, crate::proofs::ReadTexts::left_fits, crate::proofs::ReadTexts::counted))]
pub fn read_all(alloc: Global, form: Form, bytes: &[u8]) -> Result<Vec<u8>, Failure>
    ensures read { IfOk result (λ pods. ReadsTexts form bytes.now pods.items) }
    ensures refused { IfErr result (RefusesTexts form bytes.now) }
{
    let mut reader = FreeReader::new(alloc);
    let mut scratch = Scratch::new(alloc);
    let mut pods = Vec::new(alloc);
    let mut left = bytes;
    while !left.is_empty() {
        let (text, behind, added) = add_first(
            alloc,
            &mut reader,
            &mut scratch,
            form,
            left,
            &mut pods,
        );
        match added {
            Ok(()) => left = behind,
            Err(why) => {
                let before = &bytes[..bytes.len() - left.len()];
                let (line, _) = position_behind(before, 1);
                return Err(failure_at(why, text, line));
            }
        }
    }
    Ok(pods)
}

/// The first text, without the end of its last line, what follows that, and whether its pods were added. Most texts are lines, so the first line
/// is read as one before the end of the text is looked for: no bracket is open behind what is read.
#[tactic(auto, using(crate::proofs::ReadTexts::found_begins))]
fn add_first<'a>(
    alloc: Global,
    reader: &mut FreeReader,
    scratch: &mut Scratch,
    form: Form,
    left: &'a [u8],
    pods: &mut Vec<u8>,
) -> (&'a [u8], &'a [u8], Result<(), Unread>)
    ensures begins { left.now ≢ [] → BeginsText left.now result.0.now result.1.now }
    ensures added { OnOk result.2 (AddsText form result.0.now pods.old.items pods.new.items) }
    ensures refused { IfErr result.2 (λ why. IsNoPod form result.0.now why) }
{
    let (line, others) = split_line(left);
    if may_be_whole(line) {
        if let Ok(found) = read_text(alloc, reader, scratch, form, line, pods) {
            return (line, others, add_found(alloc, form, found, pods));
        }
    }
    let (text, behind) = split_text(left);
    match read_text(alloc, reader, scratch, form, text, pods) {
        Ok(found) => (text, behind, add_found(alloc, form, found, pods)),
        Err(why) => (text, behind, Err(why)),
    }
}

/// Whether a line doesn't end as the first one of an indented text does. Nothing rests on it but time.
fn may_be_whole(line: &[u8]) -> bool {
    !matches!(line.last(), Some(b'{' | b'[' | b','))
}

/// The refusal of a text that begins with this line.
fn failure_at(why: Unread, text: &[u8], first: usize) -> Failure
    requires { first + length text.now < 2 ^ 64 }
    ensures { (f : FormOf) → IsNoPod f text.now why → IsNoText f text.now first result }
{
    match why {
        Unread::OutOfMemory => Failure::OutOfMemory,
        Unread::For {
            kind,
            words,
            offset,
            path,
            misfit,
        } => {
            let part = &text[..offset.min(text.len())];
            let (line, column) = position_behind(part, first);
            Failure::Line {
                line,
                column,
                kind,
                words,
                path,
                misfit,
            }
        }
    }
}

/// Whether there is nothing but white space.
fn is_blank(text: &[u8]) -> bool
    ensures { result ≡ spec.is_blank text.now }
{
    text.iter().all(|byte| is_space(*byte))
}

/// Whether this is white space.
pub(crate) fn is_space(byte: u8) -> bool
    ensures { result ≡ spec.is_space byte }
{
    byte == b' ' || byte == b'\t' || byte == b'\r'
}

/// Reads the value of which these bytes are a text; of a blank line none.
fn read_text(
    alloc: Global,
    reader: &mut FreeReader,
    scratch: &mut Scratch,
    form: Form,
    bytes: &[u8],
    pods: &mut Vec<u8>,
) -> Result<Found, Unread>
    ensures found { IfOk result (λ found. IsFound form bytes.now found pods.old.items pods.new.items) }
    ensures refused { IfErr result (λ why. IsNoPod form bytes.now why) }
    ensures unchanged { OnErr result (pods.new.items ≡ pods.old.items) }
{
    if is_blank(bytes) {
        return Ok(Found::Added);
    }
    let text = match str::from_utf8(bytes) {
        Ok(text) => text,
        Err(error) => {
            let words = "the text isn't UTF-8";
            return Err(unread_at(alloc, "Text", words, error.valid_up_to()));
        }
    };
    if add_at_once(alloc, scratch, form, text, pods) {
        return Ok(Found::Added);
    }
    match reader.read_in(text, form) {
        Ok(value) => Ok(Found::Value(Held::from(value))),
        Err(error) => {
            let Some(words) = words_of(error.cause) else {
                return Err(Unread::OutOfMemory);
            };
            Err(Unread::For {
                kind: error.cause.kind(),
                words,
                offset: error.offset,
                path: error.path,
                misfit: error.misfit,
            })
        }
    }
}

/// Adds the pods that are still to be added.
fn add_found(alloc: Global, form: Form, found: Found, pods: &mut Vec<u8>) -> Result<(), Unread>
    ensures added { (text base : List ℕ) → IsFound form text found base pods.old.items →
        OnOk result (AddsText form text base pods.new.items) }
    ensures refused { (text base : List ℕ) → IsFound form text found base pods.old.items →
        IfErr result (λ why. IsNoPod form text why) }
{
    match found {
        Found::Added => Ok(()),
        Found::Value(held) => add_values(alloc, form, &*held, pods),
    }
}

/// Adds the pod of the struct that a text is, as it stands, where it is read as values with names, and tells whether it did. Else the output is
/// as it was, and nothing is known of the text.
fn add_at_once(
    alloc: Global,
    scratch: &mut Scratch,
    form: Form,
    text: &str,
    pods: &mut Vec<u8>,
) -> bool
    ensures added { result ≡ true → (v : Tree) × IsTextAs form v text.now
        × (pods.new.items ≡ pods.old.items ++ member_encodings (pods_in form v)) }
    ensures unchanged { result ≡ false → pods.new.items ≡ pods.old.items }
{
    match form {
        Form::Named(strictness) => add_struct(alloc, scratch, strictness, text, pods),
        Form::Dump { .. } => false,
    }
}

/// Adds the pods of a value that was read.
fn add_values(alloc: Global, form: Form, value: &Value, pods: &mut Vec<u8>) -> Result<(), Unread>
    ensures added { OnOk result (pods.new.items ≡ pods.old.items ++ member_encodings (pods_in form (view value.now))) }
    ensures refused { IfErr result (AreUnwritable (pods_in form (view value.now))) }
{
    match items_in(form, value) {
        Some(values) => add_each(alloc, values, pods),
        None => add_one(alloc, value, pods),
    }
}

/// The values of a list whose items are pods each.
fn items_in(form: Form, value: &Value) -> Option<&[Value]>
    ensures { MatchOption result (pods_in form (view value.now) ≡ member (view value.now) no_trees)
        (λ values. pods_in form (view value.now) ≡ views values.now) }
{
    match form {
        Form::Named(_) => None,
        Form::Dump { .. } => list_in(value),
    }
}

/// The items of a list.
fn list_in(value: &Value) -> Option<&[Value]>
    ensures { MatchOption result (items_or_one (view value.now) ≡ member (view value.now) no_trees)
        (λ values. items_or_one (view value.now) ≡ views values.now) }
{
    match value {
        Value::Struct(members) => Some(members.as_slice()),
        _ => None,
    }
}

/// Adds the pods of these values.
fn add_each(alloc: Global, values: &[Value], pods: &mut Vec<u8>) -> Result<(), Unread>
    ensures added { OnOk result (pods.new.items ≡ pods.old.items ++ member_encodings (views values.now)) }
    ensures refused { IfErr result (AreUnwritable (views values.now)) }
{
    for value in values {
        add_one(alloc, value, pods)?;
    }
    Ok(())
}

/// Adds the pod of a value.
fn add_one(alloc: Global, value: &Value, pods: &mut Vec<u8>) -> Result<(), Unread>
    ensures added { OnOk result (pods.new.items ≡ pods.old.items ++ encoding_of (view value.now)) }
    ensures refused { IfErr result (AreUnwritable (member (view value.now) no_trees)) }
{
    match write_sized(pods, value) {
        Ok(_) => Ok(()),
        Err(error) => match error {
            GenError::NulInText => Err(unread_at(
                alloc,
                "NulInText",
                "a text of the value holds NUL, which ends texts of pods",
                0,
            )),
            GenError::TooLarge => Err(unread_at(
                alloc,
                "TooLarge",
                "a size of the value's pod is past 32 bits",
                0,
            )),
            _ => Err(Unread::OutOfMemory),
        },
    }
}

/// A refusal behind so many bytes of a text, for which no path is known.
fn unread_at(alloc: Global, kind: &'static str, words: &'static str, offset: usize) -> Unread
    ensures { IsFor result }
{
    Unread::For {
        kind,
        words,
        offset,
        path: String::new(alloc),
        misfit: None,
    }
}

/// What is said of a cause, but for want of memory.
fn words_of(cause: Cause) -> Option<&'static str>
    ensures { IfSome result (λ _. cause ≢ Cause.OutOfMemory) }
{
    match cause {
        Cause::OutOfMemory => None,
        Cause::Token => Some("another token is looked for, or the text isn't JSON"),
        Cause::Name => Some("there is no such key or name here"),
        Cause::Number => Some("a number is malformed or doesn't fit its type"),
        Cause::Type => Some("an array or a choice can't have a value of this type"),
        Cause::Count => Some("a choice has more or fewer values than its shape takes"),
        Cause::KeyType => Some("another type belongs under the key"),
        Cause::End => Some("something follows the value"),
    }
}
