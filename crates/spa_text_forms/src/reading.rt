//! Values read from texts, in any order of the fixed keys.
ghost use Rattle.std.specs.Prelude.{◌≡◌, ◌≢◌, [], IfErr, IfOk, string_bytes};
ghost use Rattle.json.specs.Lex.{tokens};
ghost use Rattle.spa_format.specs.Tree.{Tree};
ghost use Rattle.spa_text_read.specs.Places.{IsPlace};
ghost use Rattle.spa_text_read.specs.declared.cause.Cause as Cause;
ghost use Rattle.spa_text_read.specs.declared.fitting.Strictness.TheVariants.{Plain};
ghost use Rattle.spa_text_forms.specs.Forms.{IsPlaceFor, IsTextFor, IsTextAs, IsTextInOrder};
ghost use Rattle.spa_text_forms.specs.declared.form.Form.TheVariants.{Named};
ghost use Rattle.spa_value.specs.View.{view};

use crate::form::{Form, in_order};
use json::Scratch;
use spa_text_read::{Cause, Strictness, TextError, TextReader};
use spa_value::Value;
use std::alloc::Global;

/// Reads texts one after another, in memory that it keeps: also those whose fixed keys are in another order than the grammar's.
#[derive(Drop)]
pub struct FreeReader {
    alloc: Global,
    reader: TextReader,
    scratch: Scratch,
}

impl FreeReader {
    /// One that has read nothing.
    pub fn new(alloc: Global) -> FreeReader {
        FreeReader {
            alloc,
            reader: TextReader::new(alloc),
            scratch: Scratch::new(alloc),
        }
    }

    /// Reads the value that a text is, with any value under a key, as `read` does.
    pub fn read(&mut self, text: &str) -> Result<Value, TextError>
        ensures value { IfOk result (λ v. IsTextFor Plain (view v) text.now) }
        ensures refused { IfErr result
            (λ e. e.cause ≢ Cause.OutOfMemory → (v : Tree) → ¬ (IsTextFor Plain v text.now)) }
        ensures no_path { IfErr result (λ e. e.cause ≡ Cause.OutOfMemory → string_bytes e.path ≡ []) }
        ensures path { IfErr result
            (λ e. e.cause ≢ Cause.OutOfMemory → IsPlaceFor (Named Plain) text.now (string_bytes e.path)) }
    {
        self.read_with(text, Strictness::Plain)
    }

    /// Reads the value that a text is, as it stands. One that is of no value so, but is JSON, is read with its fixed keys in the grammar's order;
    /// strictly also with each list under a key of arrays as that array. An object with nothing but a value and its place, which are a path and the head of
    /// a message, is read as that value.
    ///
    /// Where it is of no value in order, either, the refusal is that of the text in order: it has the place of the first byte, unless the text as it
    /// stands is refused for the same cause at the same path.
    #[tactic(auto, using(crate::proofs::Forms::taken, crate::proofs::Forms::taken_in_order, crate::proofs::Forms::place))]
    pub fn read_with(&mut self, text: &str, strictness: Strictness) -> Result<Value, TextError>
        ensures value { IfOk result (λ v. IsTextFor strictness (view v) text.now) }
        ensures refused { IfErr result
            (λ e. e.cause ≢ Cause.OutOfMemory → (v : Tree) → ¬ (IsTextFor strictness v text.now)) }
        ensures no_path { IfErr result (λ e. e.cause ≡ Cause.OutOfMemory → string_bytes e.path ≡ []) }
        ensures path { IfErr result
            (λ e. e.cause ≢ Cause.OutOfMemory → IsPlaceFor (Named strictness) text.now (string_bytes e.path)) }
    {
        match self.reader.read_with(text, strictness) {
            Ok(value) => Ok(value),
            Err(error) => {
                if error.cause == Cause::OutOfMemory {
                    return Err(error);
                }
                match self.read_in_order(text, Form::Named(strictness), error) {
                    Ok(value) => Ok(value),
                    Err(other) => Err(other),
                }
            }
        }
    }

    /// Reads the value that a text is in this form. What `pw-dump` prints is never read as it stands; where it is refused, the refusal has the place of
    /// the first byte. A list of params is a Struct of them.
    #[tactic(auto, using(crate::proofs::Forms::front))]
    pub fn read_in(&mut self, text: &str, form: Form) -> Result<Value, TextError>
        ensures value { IfOk result (λ v. IsTextAs form (view v) text.now) }
        ensures refused { IfErr result
            (λ e. e.cause ≢ Cause.OutOfMemory → (v : Tree) → ¬ (IsTextAs form v text.now)) }
        ensures no_path { IfErr result (λ e. e.cause ≡ Cause.OutOfMemory → string_bytes e.path ≡ []) }
        ensures path { IfErr result
            (λ e. e.cause ≢ Cause.OutOfMemory → IsPlaceFor form text.now (string_bytes e.path)) }
    {
        match form {
            Form::Named(strictness) => self.read_with(text, strictness),
            Form::Dump { .. } => {
                let no_json = refusal(self.alloc, Cause::Token);
                self.read_in_order(text, form, no_json)
            }
        }
    }

    /// Reads the value that a text is in the grammar's order. Where it isn't JSON, it is refused so.
    #[tactic(auto, using(crate::proofs::Forms::read_in_order, crate::proofs::Forms::none_in_order, crate::proofs::Forms::no_json, crate::proofs::Forms::place, crate::proofs::Forms::place_in_order))]
    fn read_in_order(
        &mut self,
        text: &str,
        form: Form,
        error: TextError,
    ) -> Result<Value, TextError>
        requires some_memory { error.cause ≢ Cause.OutOfMemory }
        requires placed { IsPlace (tokens text.now) (string_bytes error.path) }
        ensures value { IfOk result (λ v. IsTextInOrder form (view v) text.now) }
        ensures refused { IfErr result
            (λ e. e.cause ≢ Cause.OutOfMemory → (v : Tree) → ¬ (IsTextInOrder form v text.now)) }
        ensures no_path { IfErr result (λ e. e.cause ≡ Cause.OutOfMemory → string_bytes e.path ≡ []) }
        ensures path { IfErr result
            (λ e. e.cause ≢ Cause.OutOfMemory → IsPlaceFor form text.now (string_bytes e.path)) }
    {
        let ordered = match in_order(self.alloc, form, text, &mut self.scratch) {
            Ok(Some(ordered)) => ordered,
            Ok(None) => return Err(error),
            Err(_) => return Err(refusal(self.alloc, Cause::OutOfMemory)),
        };
        match self.reader.read_with(ordered.as_str(), form.strictness()) {
            Ok(value) => Ok(value),
            Err(other) => {
                if other.cause == error.cause && other.path.as_str() == error.path.as_str() {
                    return Err(error);
                }
                Err(at_front(other))
            }
        }
    }
}

/// Reads the value that a text is, also one whose fixed keys are in another order than the grammar's, as `FreeReader::read` does: for many texts that
/// is faster.
///
/// A value that is nested deep is read too, by a loop; its drop calls itself for each level, unless it is handed to `Held` or to
/// `discard`. What has to be put in order nests at most 128 levels deep.
pub fn read(alloc: Global, text: &str) -> Result<Value, TextError>
    ensures value { IfOk result (λ v. IsTextFor Plain (view v) text.now) }
    ensures refused { IfErr result
        (λ e. e.cause ≢ Cause.OutOfMemory → (v : Tree) → ¬ (IsTextFor Plain v text.now)) }
    ensures no_path { IfErr result (λ e. e.cause ≡ Cause.OutOfMemory → string_bytes e.path ≡ []) }
    ensures path { IfErr result
        (λ e. e.cause ≢ Cause.OutOfMemory → IsPlaceFor (Named Plain) text.now (string_bytes e.path)) }
{
    let mut reader = FreeReader::new(alloc);
    reader.read(text)
}

/// The refusal at the first byte.
fn at_front(error: TextError) -> TextError
    ensures cause { result.cause ≡ error.cause }
    ensures path { string_bytes result.path ≡ string_bytes error.path }
{
    TextError {
        cause: error.cause,
        offset: 0,
        line: 1,
        column: 1,
        path: error.path,
        misfit: error.misfit,
    }
}

/// The refusal of a text for this cause, where nothing of it was read.
fn refusal(alloc: Global, cause: Cause) -> TextError
    ensures { (result.cause ≡ cause) × (string_bytes result.path ≡ []) }
{
    TextError {
        cause,
        offset: 0,
        line: 1,
        column: 1,
        path: String::new(alloc),
        misfit: None,
    }
}
