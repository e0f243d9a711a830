//! Where in a text a token stands.
ghost use Rattle.std.specs.Prelude.{◌≡◌, ◌∷◌, ◌++◌, [], IfOk, OnOk, map, string_bytes};
ghost use Rattle.json.specs.Reads.{token_of};
ghost use Rattle.spa_text_read.specs.Places.{IsPlace, after, one_more, path_behind, step_text, under};
ghost use Rattle.spa_text_read.specs.Trails.{open_of, opens_of};

use crate::letters::push_letters;
use json::{Reader, Token};
use std::alloc::{AllocError, Global};

/// How many bytes of a key a path has at most; of a longer one, two points.
const KEY_LIMIT: usize = 64;

/// How many bytes a path has before the rest of it is two points.
const PATH_LIMIT: usize = 256;

/// An object or an array that is open.
#[derive(Clone, Copy)]
pub(crate) enum Open<'a> {
    /// The key that was read last.
    Object(Option<&'a str>),
    /// How many values are begun in it.
    Array(usize),
}

/// The path of the last token that begins before this byte of a text, by the keys and the places in arrays that lead there: `.props.rate`,
/// `[2].props.volume`.
pub(crate) fn path_to(
    alloc: Global,
    reader: &mut Reader<'_>,
    end: usize,
) -> Result<String, AllocError>
    ensures { IfOk result (λ path. IsPlace reader.old (string_bytes path)) }
{
    let mut trail = Vec::new(alloc);
    while reader.offset() < end {
        let Some(token) = reader.next() else {
            break;
        };
        take(&mut trail, token)?;
    }
    path_through(alloc, trail.as_slice())
}

/// Notes what a token opens, closes or names.
#[tactic(auto, using(crate::proofs::Trailing::one_opened))]
fn take<'a>(trail: &mut Vec<Open<'a>>, token: Token<'a>) -> Result<(), AllocError>
    ensures { OnOk result (opens_of trail.new.items ≡ after (token_of token.entry) (opens_of trail.old.items)) }
{
    match token {
        Token::BeginObject => {
            count(trail)?;
            push(trail, Open::Object(None))
        }
        Token::BeginArray => {
            count(trail)?;
            push(trail, Open::Array(0))
        }
        Token::EndObject | Token::EndArray => {
            let _closed = trail.pop();
            Ok(())
        }
        Token::Key(key) => name(trail, key),
        _ => count(trail),
    }
}

/// Opens one more.
#[tactic(auto, using(crate::proofs::Trailing::one_opened))]
fn push<'a>(trail: &mut Vec<Open<'a>>, opened: Open<'a>) -> Result<(), AllocError>
    ensures { OnOk result (opens_of trail.new.items ≡ open_of opened.entry ∷ opens_of trail.old.items) }
{
    trail.reserve(1)?;
    trail.push_reserved(opened);
    Ok(())
}

/// A value begins in the innermost.
#[tactic(auto, using(crate::proofs::Trailing::one_opened))]
fn count(trail: &mut Vec<Open<'_>>) -> Result<(), AllocError>
    ensures { OnOk result (opens_of trail.new.items ≡ one_more (opens_of trail.old.items)) }
{
    match trail.pop() {
        Some(Open::Array(count)) => push(trail, Open::Array(count.saturating_add(1))),
        Some(object) => push(trail, object),
        None => Ok(()),
    }
}

/// A key is read in the innermost.
#[tactic(auto, using(crate::proofs::Trailing::one_opened))]
fn name<'a>(trail: &mut Vec<Open<'a>>, key: &'a str) -> Result<(), AllocError>
    ensures { OnOk result (opens_of trail.new.items ≡ under key.now (opens_of trail.old.items)) }
{
    match trail.pop() {
        Some(Open::Object(_)) => push(trail, Open::Object(Some(key))),
        Some(array) => push(trail, array),
        None => Ok(()),
    }
}

/// The path through these, the outermost first.
#[tactic(auto, using(crate::proofs::Trailing::no_step_taken, crate::proofs::Trailing::step_taken, crate::proofs::Trailing::path_cut, crate::proofs::Trailing::all_steps_taken))]
fn path_through(alloc: Global, trail: &[Open<'_>]) -> Result<String, AllocError>
    ensures { IfOk result (λ path. string_bytes path ≡ path_behind [] (map open_of trail.now)) }
{
    let mut path = String::new(alloc);
    for step in trail {
        if path.as_bytes().len() > PATH_LIMIT {
            path.push_str("..")?;
            return Ok(path);
        }
        push_step(&mut path, *step)?;
    }
    Ok(path)
}

/// Adds a step.
fn push_step(path: &mut String, step: Open<'_>) -> Result<(), AllocError>
    ensures { OnOk result (string_bytes path.new ≡ string_bytes path.old ++ step_text (open_of step.entry)) }
{
    match step {
        Open::Object(Some(key)) => {
            path.push_str(".")?;
            if key.len() > KEY_LIMIT {
                path.push_str("..")
            } else {
                push_letters(path, key)
            }
        }
        Open::Array(count) if count > 0 => {
            let mut buffer = itoa::Buffer::new();
            path.push_str("[")?;
            path.push_str(buffer.format(count - 1))?;
            path.push_str("]")
        }
        _ => Ok(()),
    }
}
