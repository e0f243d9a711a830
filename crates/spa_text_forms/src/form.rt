//! The forms of texts, and their tokens in the order of the grammar.
ghost use Rattle.std.specs.Prelude.{◌≡◌, ◌++◌, IfOk, MatchOption, None, OnOk, string_bytes};
ghost use Rattle.json.specs.Json.{document};
ghost use Rattle.json.specs.Tree.{HasNumbers};
ghost use Rattle.json.specs.Value.{value_view};
ghost use Rattle.spa_text_forms.specs.Forms as spec;
ghost use Rattle.spa_text_forms.specs.Forms.{IsInOrder};

use crate::dump::put_dump;
use crate::order::{ANYWHERE, put};
use crate::place::without_place;
use json::{Error, Scratch, Value, Writer};
use spa_text_read::Strictness;
use std::alloc::{AllocError, Global};

/// The form of a text, and how strictly it is read.
#[derive(Clone, Copy)]
pub enum Form {
    /// JSON with names, read with this strictness.
    Named(Strictness),
    /// What `pw-dump` prints of params, which are objects. It is read strictly.
    Dump {
        /// The type of the objects, which it doesn't say.
        type_: u32,
        /// Their id.
        id: u32,
    },
}

impl Form {
    /// How strictly such texts are read.
    pub(crate) fn strictness(self) -> Strictness
        ensures { result ≡ spec.strictness_in self }
    {
        match self {
            Form::Named(strictness) => strictness,
            Form::Dump { .. } => Strictness::Strict,
        }
    }
}

/// A text in the order of the grammar, where the text is JSON.
pub(crate) fn in_order(
    alloc: Global,
    form: Form,
    text: &str,
    scratch: &mut Scratch,
) -> Result<Option<String>, AllocError>
    ensures { IfOk result
        (λ found. MatchOption found (document text.now ≡ None)
        (λ ordered. IsInOrder form text.now (string_bytes ordered))) }
{
    let value = match Value::parse(alloc, text, scratch) {
        Ok(value) => value,
        Err(Error::OutOfMemory) => return Err(AllocError),
        Err(_) => return Ok(None),
    };
    let mut writer = Writer::new(Vec::new(alloc));
    put_in(form, &value, &mut writer)?;
    match String::from_utf8(writer.into_inner()) {
        Ok(ordered) => Ok(Some(ordered)),
        Err(_) => unreachable!(),
    }
}

/// Writes the tokens of a value in the order of the grammar.
fn put_in(form: Form, value: &Value<'_>, writer: &mut Writer) -> Result<(), AllocError>
    requires { HasNumbers (value_view value.now) }
    ensures ok { OnOk result (writer.new.tokens ≡ writer.old.tokens ++ spec.tokens_in form (value_view value.now)) }
    ensures before { writer.new.before ≡ writer.old.before }
{
    match form {
        Form::Named(strictness) => put(strictness, ANYWHERE, without_place(value), writer),
        Form::Dump { type_, id } => put_dump(type_, id, value, writer),
    }
}
