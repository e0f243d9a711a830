//! Values read from text.
ghost use Rattle.std.specs.Prelude.{◌≡◌, ◌≢◌, List, [], IfErr, IfOk, Some, string_bytes};
ghost use Rattle.json.specs.Lex.{tokens};
ghost use Rattle.json.specs.Token.{Token};
ghost use Rattle.spa_format.specs.Tree.{Tree};
ghost use Rattle.spa_text_read.specs.Fitting.{Admits};
ghost use Rattle.spa_text_read.specs.FramesFit.{AdmitsNone};
ghost use Rattle.spa_text_read.specs.Grammar.{IsTextOf, ReadsAs, nothing};
ghost use Rattle.spa_text_read.specs.Places.{IsPlace};
ghost use Rattle.spa_text_read.specs.Steps.{ComesTo};
ghost use Rattle.spa_value.specs.View.{view};

use crate::cause::Cause;
use crate::error::TextError;
use crate::fitting::{Misfit, Strictness};
use crate::inside::{Inside, Opened};
use crate::nest::Nest;
use crate::opening::open;
use crate::place::path_to;
use crate::tokens::head;
use json::{Reader, Scratch};
use spa_names::Expected;
use spa_value::{Value, discard};
use std::alloc::Global;
use std::mem;

/// Reads texts one after another, in memory that it keeps.
#[derive(Drop)]
pub struct TextReader {
    alloc: Global,
    scratch: Scratch,
    /// Room for the values around the innermost that is begun.
    outer: Vec<Inside>,
}

impl TextReader {
    /// One that has read nothing.
    pub fn new(alloc: Global) -> TextReader {
        TextReader {
            alloc,
            scratch: Scratch::new(alloc),
            outer: Vec::new(alloc),
        }
    }

    /// Reads the value that a text is, as `read` does.
    #[tactic(auto, using(crate::proofs::Strictly::plainly_refused))]
    pub fn read(&mut self, text: &str) -> Result<Value, TextError>
        ensures value { IfOk result (λ v. IsTextOf (view v) text.now) }
        ensures refused { IfErr result
            (λ e. e.cause ≢ Cause.OutOfMemory → (v : Tree) → ¬ (IsTextOf v text.now)) }
        ensures no_path { IfErr result (λ e. e.cause ≡ Cause.OutOfMemory → string_bytes e.path ≡ []) }
        ensures path { IfErr result
            (λ e. e.cause ≢ Cause.OutOfMemory → IsPlace (tokens text.now) (string_bytes e.path)) }
    {
        self.read_with(text, Strictness::Plain)
    }

    /// Reads the value that a text is; strictly only where each value under a key of an object is of the type that belongs there: the one
    /// that PipeWire's tables give, for a choice the type of its values. Any value may stand under a key that they don't know.
    pub fn read_with(&mut self, text: &str, strictness: Strictness) -> Result<Value, TextError>
        ensures value { IfOk result (λ v. IsTextOf (view v) text.now) }
        ensures admitted { IfOk result (λ v. Admits strictness (view v)) }
        ensures refused { IfErr result
            (λ e. e.cause ≢ Cause.OutOfMemory → (v : Tree) → IsTextOf v text.now →
            ¬ (Admits strictness v)) }
        ensures no_path { IfErr result (λ e. e.cause ≡ Cause.OutOfMemory → string_bytes e.path ≡ []) }
        ensures path { IfErr result
            (λ e. e.cause ≢ Cause.OutOfMemory → IsPlace (tokens text.now) (string_bytes e.path)) }
    {
        let Ok(mut reader) = Reader::new(text, &mut self.scratch) else {
            return Err(error_at(NO_MEMORY, text, 0, String::new(self.alloc)));
        };
        match read_whole(self.alloc, &mut reader, &mut self.outer, strictness) {
            Ok(value) => Ok(value),
            Err(why) => {
                let offset = reader.offset();
                let has_more = reader.next().is_some();
                Err(self.refusal(why, text, offset, has_more))
            }
        }
    }

    /// The refusal at this byte of the text, behind which there may be more tokens, with its path; without one where memory runs out, also
    /// for the path.
    fn refusal(&mut self, why: Why, text: &str, offset: usize, has_more: bool) -> TextError
        ensures cause { result.cause ≢ Cause.OutOfMemory → result.cause ≡ why.cause }
        ensures no_path { result.cause ≡ Cause.OutOfMemory → string_bytes result.path ≡ [] }
        ensures path { result.cause ≢ Cause.OutOfMemory → IsPlace (tokens text.now) (string_bytes result.path) }
    {
        if why.cause != Cause::OutOfMemory {
            if let Ok(mut reader) = Reader::new(text, &mut self.scratch) {
                // A token that isn't JSON is the last one, and ends where it begins.
                let end = if has_more { offset } else { usize::MAX };
                if let Ok(path) = path_to(self.alloc, &mut reader, end) {
                    return error_at(why, text, offset, path);
                }
            }
        }
        error_at(NO_MEMORY, text, offset, String::new(self.alloc))
    }
}

/// Reads the value that a text is: strict JSON, in the grammar of docs/TEXT.md. For many texts a `TextReader` is faster.
///
/// A value that is nested deep is read too, by a loop; its drop calls itself for each level, unless it is handed to `Held` or to
/// `discard`.
pub fn read(alloc: Global, text: &str) -> Result<Value, TextError>
    ensures value { IfOk result (λ v. IsTextOf (view v) text.now) }
    ensures refused { IfErr result
        (λ e. e.cause ≢ Cause.OutOfMemory → (v : Tree) → ¬ (IsTextOf v text.now)) }
    ensures no_path { IfErr result (λ e. e.cause ≡ Cause.OutOfMemory → string_bytes e.path ≡ []) }
    ensures path { IfErr result (λ e. e.cause ≢ Cause.OutOfMemory → IsPlace (tokens text.now) (string_bytes e.path)) }
{
    let mut reader = TextReader::new(alloc);
    reader.read(text)
}

/// Why a text is refused.
#[derive(Clone, Copy)]
struct Why {
    cause: Cause,
    /// Where the cause is KeyType, the two types.
    misfit: Option<Misfit>,
}

impl From<Cause> for Why {
    ghost use Rattle.spa_text_read.specs.declared.reading.Why.{Why};

    ghost from_gives = { λ cause e. e.cause ≡ cause };

    fn from(cause: Cause) -> Why {
        Why {
            cause,
            misfit: None,
        }
    }
}

const NO_MEMORY: Why = Why {
    cause: Cause::OutOfMemory,
    misfit: None,
};

/// The refusal at this byte of the text.
fn error_at(why: Why, text: &str, offset: usize, path: String) -> TextError
    ensures cause { result.cause ≡ why.cause }
    ensures path { result.path ≡ path }
{
    let mut line: usize = 1;
    let mut column: usize = 1;
    for (at, byte) in text.as_bytes().iter().enumerate() {
        if at >= offset {
            break;
        }
        if *byte == b'\n' {
            line = line.saturating_add(1);
            column = 1;
        } else {
            column = column.saturating_add(1);
        }
    }
    TextError {
        cause: why.cause,
        offset,
        line,
        column,
        path,
        misfit: why.misfit,
    }
}

/// Reads a value and the end of the text.
#[tactic(auto, using(crate::proofs::Soundness::reads_as))]
fn read_whole(
    alloc: Global,
    reader: &mut Reader<'_>,
    outer: &mut Vec<Inside>,
    strictness: Strictness,
) -> Result<Value, Why>
    ensures value { IfOk result (λ v. ReadsAs nothing (view v) reader.old []) }
    ensures admitted { IfOk result (λ v. Admits strictness (view v)) }
    ensures refused { IfErr result
        (λ e. e.cause ≢ Cause.OutOfMemory → (v : Tree) → ReadsAs nothing v reader.old [] →
        ¬ (Admits strictness v)) }
{
    match read_value(alloc, reader, outer, strictness) {
        Ok(value) => match reader.next() {
            Some(_) => {
                discard(value);
                Err(Why::from(Cause::End))
            }
            None => Ok(value),
        },
        Err(why) => Err(why),
    }
}

/// Reads the value that begins the tokens which are left, and no token behind it; strictly as `TextReader::read_with` does. A refusal may leave the
/// reader behind any of its tokens.
#[tactic(auto, using(crate::proofs::Soundness::reads_as))]
pub fn read_front(
    alloc: Global,
    reader: &mut Reader<'_>,
    strictness: Strictness,
) -> Result<Value, Cause>
    ensures value { IfOk result (λ v. ReadsAs nothing (view v) reader.old reader.new) }
    ensures admitted { IfOk result (λ v. Admits strictness (view v)) }
    ensures refused { IfErr result
        (λ e. e ≢ Cause.OutOfMemory → (v : Tree) (rest : List Token) →
        ReadsAs nothing v reader.old rest → ¬ (Admits strictness v)) }
{
    let mut outer = Vec::new(alloc);
    match read_value(alloc, reader, &mut outer, strictness) {
        Ok(value) => Ok(value),
        Err(why) => Err(why.cause),
    }
}

/// For how many values around others memory is kept from one text to the next: few nest deeper.
const MOST_KEPT: usize = 64;

/// Reads a value: also one that is nested deep, since what is begun is kept in a list, in this vector's memory.
fn read_value(
    alloc: Global,
    reader: &mut Reader<'_>,
    room: &mut Vec<Inside>,
    strictness: Strictness,
) -> Result<Value, Why>
    ensures value { IfOk result (λ v. ComesTo nothing reader.old (Some (view v, reader.new))) }
    ensures admitted { IfOk result (λ v. Admits strictness (view v)) }
    ensures refused { IfErr result (λ e. e.cause ≢ Cause.OutOfMemory → AdmitsNone strictness reader.old) }
{
    let Some(first) = head(reader) else {
        return Err(Why::from(Cause::Token));
    };
    let inner = match open(alloc, reader, first, Expected::NOTHING) {
        Ok(Opened::Leaf(value)) => return Ok(value),
        Ok(Opened::Begun(inside)) => inside,
        Err(cause) => return Err(Why::from(cause)),
    };
    room.clear();
    let outer = mem::replace(room, Vec::new(alloc));
    let mut nest = Nest { inner, outer };
    loop {
        match nest.step(alloc, reader) {
            Ok(true) => match nest.inner.misfit(strictness) {
                None => {}
                Some(misfit) => {
                    nest.give_up();
                    return Err(Why {
                        cause: Cause::KeyType,
                        misfit: Some(misfit),
                    });
                }
            },
            Ok(false) => {
                let Nest { inner, outer } = nest;
                if outer.capacity() <= MOST_KEPT {
                    *room = outer;
                }
                match inner.into_value() {
                    Ok(value) => return Ok(value),
                    Err(cause) => return Err(Why::from(cause)),
                }
            }
            Err(cause) => {
                nest.give_up();
                return Err(Why::from(cause));
            }
        }
    }
}
