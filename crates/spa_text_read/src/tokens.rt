//! What stands at the front of the tokens that are left.
ghost use Rattle.std.specs.Prelude.{◌≡◌, ◌<◌, ◌≤◌, IfSome, MatchOption, MatchResult, Some, None, length, option_map};
ghost use Rattle.json.specs.Json.{after_end_array, read_key};
ghost use Rattle.json.specs.Reads.{token_of};
ghost use Rattle.spa_text_read.specs.Seen.{IsItem};
ghost use Rattle.spa_text_read.specs.Tokens as spec;

use crate::cause::Cause;
use crate::names::number_of;
use crate::numerals::unsigned;
use json::{Reader, Token};
use spa_names::Table;

/// Takes the brace that closes an object.
pub(crate) fn end_object(reader: &mut Reader<'_>) -> Option<()>
    ensures taken { MatchOption result (spec.after_end_object reader.old ≡ None)
        (λ _. spec.after_end_object reader.old ≡ Some reader.new) }
    ensures no_more { length reader.new ≤ length reader.old }
{
    match reader.next() {
        Some(Token::EndObject) => Some(()),
        _ => None,
    }
}

/// Takes the brace that opens an object.
pub(crate) fn begin_object(reader: &mut Reader<'_>) -> Option<()>
    ensures taken { MatchOption result (spec.after_begin_object reader.old ≡ None)
        (λ _. spec.after_begin_object reader.old ≡ Some reader.new) }
    ensures no_more { length reader.new ≤ length reader.old }
{
    match reader.next() {
        Some(Token::BeginObject) => Some(()),
        _ => None,
    }
}

/// Takes the bracket that opens an array.
pub(crate) fn begin_array(reader: &mut Reader<'_>) -> Option<()>
    ensures taken { MatchOption result (spec.after_begin_array reader.old ≡ None)
        (λ _. spec.after_begin_array reader.old ≡ Some reader.new) }
    ensures no_more { length reader.new ≤ length reader.old }
{
    match reader.next() {
        Some(Token::BeginArray) => Some(()),
        _ => None,
    }
}

/// Takes a key.
pub(crate) fn any_key<'a>(reader: &mut Reader<'a>) -> Option<&'a str>
    ensures taken { MatchOption result (spec.any_key reader.old ≡ None)
        (λ s. spec.any_key reader.old ≡ Some (s.now, reader.new)) }
    ensures no_more { length reader.new ≤ length reader.old }
{
    match reader.next() {
        Some(Token::Key(key)) => Some(key),
        _ => None,
    }
}

/// Takes the key of this name.
pub(crate) fn key(reader: &mut Reader<'_>, name: &str) -> Result<(), Cause>
    ensures taken { MatchResult result (λ _. spec.after_key name.now reader.old ≡ Some reader.new)
        (λ _. spec.after_key name.now reader.old ≡ None) }
    ensures no_more { length reader.new ≤ length reader.old }
{
    match reader.next() {
        Some(Token::Key(key)) => {
            if key == name {
                Ok(())
            } else {
                Err(Cause::Name)
            }
        }
        _ => Err(Cause::Token),
    }
}

/// Takes a text.
pub(crate) fn any_text<'a>(reader: &mut Reader<'a>) -> Option<&'a str>
    ensures taken { MatchOption result (spec.any_text reader.old ≡ None)
        (λ s. spec.any_text reader.old ≡ Some (s.now, reader.new)) }
    ensures no_more { length reader.new ≤ length reader.old }
{
    match reader.next() {
        Some(Token::String(text)) => Some(text),
        _ => None,
    }
}

/// Takes any token.
pub(crate) fn any_token<'a>(reader: &mut Reader<'a>) -> Option<Token<'a>>
    ensures taken { MatchOption result (spec.any_token reader.old ≡ None)
        (λ t. spec.any_token reader.old ≡ Some (token_of t, reader.new)) }
    ensures no_more { length reader.new ≤ length reader.old }
{
    reader.next()
}

/// Takes a number of 32 bits.
pub(crate) fn word(reader: &mut Reader<'_>) -> Option<u32>
    ensures taken { MatchOption result (spec.word reader.old ≡ None)
        (λ n. spec.word reader.old ≡ Some (n, reader.new)) }
    ensures no_more { length reader.new ≤ length reader.old }
{
    match reader.next() {
        Some(Token::Number(text)) => unsigned(text),
        _ => None,
    }
}

/// The number that a token says by its name in the table or by its digits.
pub(crate) fn number_by_name(table: Table, token: Token<'_>) -> Option<u32>
    ensures { result ≡ spec.number_by_name table (token_of token.entry) }
{
    match token {
        Token::String(name) => number_of(table, name),
        Token::Number(text) => unsigned(text),
        _ => None,
    }
}

/// Takes a number of 32 bits, by its name in the table or by its digits.
pub(crate) fn name_or_word(reader: &mut Reader<'_>, table: Table) -> Result<u32, Cause>
    ensures taken { MatchResult result
        (λ n. spec.name_or_word table reader.old ≡ Some (n, reader.new))
        (λ _. spec.name_or_word table reader.old ≡ None) }
    ensures no_more { length reader.new ≤ length reader.old }
{
    let Some(token) = reader.next() else {
        return Err(Cause::Token);
    };
    match number_by_name(table, token) {
        Some(number) => Ok(number),
        None => Err(no_number(token)),
    }
}

/// Why a token is no number of a table: a text isn't a name in it.
pub(crate) fn no_number(token: Token<'_>) -> Cause {
    match token {
        Token::String(_) => Cause::Name,
        Token::Number(_) => Cause::Number,
        _ => Cause::Token,
    }
}

/// Takes the first token of a value; of an object its brace and its first key, which is answered.
pub(crate) fn head<'a>(reader: &mut Reader<'a>) -> Option<Token<'a>>
    ensures taken { MatchOption result (spec.head reader.old ≡ None)
        (λ t. spec.head reader.old ≡ Some (token_of t, reader.new)) }
    ensures no_more { length reader.new ≤ length reader.old }
{
    match reader.next() {
        Some(Token::BeginObject) => match any_key(reader) {
            Some(key) => Some(Token::Key(key)),
            None => None,
        },
        Some(Token::EndObject | Token::EndArray | Token::Key(_) | Token::Bad) => None,
        token => token,
    }
}

/// Takes the bracket behind the items of an array, where it answers no token, or the first token of the next item.
pub(crate) fn item<'a>(reader: &mut Reader<'a>) -> Option<Option<Token<'a>>>
    ensures taken { MatchOption result
        ((after_end_array reader.old ≡ None) × (spec.head reader.old ≡ None))
        (λ o. IsItem reader.old o reader.new) }
    ensures fewer { IfSome result (λ _. length reader.new < length reader.old) }
    ensures no_more { length reader.new ≤ length reader.old }
{
    match reader.next() {
        None | Some(Token::EndObject | Token::Key(_) | Token::Bad) => None,
        Some(Token::EndArray) => Some(None),
        Some(Token::BeginObject) => match any_key(reader) {
            Some(key) => Some(Some(Token::Key(key))),
            None => None,
        },
        token => Some(token),
    }
}

/// Takes a key, or the brace that closes an object, where it answers no key.
pub(crate) fn next_key<'a>(reader: &mut Reader<'a>) -> Option<Option<&'a str>>
    ensures taken { MatchOption result (read_key reader.old ≡ None)
        (λ k. read_key reader.old ≡ Some (option_map (λ s. s.now) k, reader.new)) }
    ensures fewer { IfSome result (λ _. length reader.new < length reader.old) }
    ensures no_more { length reader.new ≤ length reader.old }
{
    match reader.next() {
        Some(Token::Key(key)) => Some(Some(key)),
        Some(Token::EndObject) => Some(None),
        _ => None,
    }
}
