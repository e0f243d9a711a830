//! Values printed on lines of their own.
ghost use Rattle.std.specs.Prelude.{◌≡◌, ◌++◌, ◌≤◌, [], List, ℕ, IfOk, OnErr, OnOk};
ghost use Rattle.std.specs.Str.{IsUtf8};
ghost use Rattle.json.specs.Reads.{token_of};
ghost use Rattle.json.specs.Lex.{tokens};
ghost use Rattle.json.specs.Print.{print};
ghost use Rattle.spa_text_read.specs.Grammar.{IsTextOf, nothing};
ghost use Rattle.spa_text.specs.Indented as spec;
ghost use Rattle.spa_text.specs.Indented.{LEVEL_LIMIT, indented};
ghost use Rattle.spa_text.specs.Line.{AreGood};
ghost use Rattle.spa_text.specs.Printed.{HasNoFloat, tokens_of};
ghost use Rattle.spa_value.specs.View.{view};

use crate::printing::line_of;
use json::{Pretty, Reader, Scratch, Token};
use spa_value::Value;
use std::alloc::{AllocError, Global};

/// How deep brackets may stand in one another in a text on lines of its own.
const LEVEL_LIMIT: usize = 32;

/// Prints a value as `print` does, but each member and each property on a line of its own, two spaces deeper than what it stands in, as
/// `jq` prints. No line feed follows the last line.
///
/// A text whose brackets stand more than 32 deep in one another is printed on one line, as by `print`: a token takes 65 bytes more than there
/// at most.
///
/// It is refused only where memory runs out, and then leaves `out` as it was.
pub fn print_pretty(alloc: Global, value: &Value, out: &mut Vec<u8>) -> Result<(), AllocError>
    ensures printed { OnOk result
        ((text : List ℕ) × (out.new.items ≡ out.old.items ++ text) × IsUtf8 text
        × IsTextOf (view value.now) text × (text ≡ indented (tokens text))) }
    ensures exact { OnOk result
        (HasNoFloat (view value.now) →
        out.new.items ≡ out.old.items ++ indented (tokens_of nothing (view value.now))) }
    ensures kept { OnErr result (out.new.items ≡ out.old.items) }
{
    let Ok(line) = String::from_utf8(line_of(alloc, value, Vec::new(alloc))?) else {
        unreachable!()
    };
    let text = laid_out(alloc, line.as_str())?;
    out.extend_from_slice(text.as_slice())
}

/// The tokens of a printed line, with each member and each property on a line of its own where the brackets don't stand too deep.
#[tactic(auto, using(crate::proofs::Relaid::none_laid, crate::proofs::Relaid::one_laid, crate::proofs::Relaid::all_laid, crate::proofs::Relaid::next_printable, crate::proofs::Relaid::none_nested, crate::proofs::Relaid::one_nested, crate::proofs::Relaid::too_deep, crate::proofs::Relaid::deep_enough))]
fn laid_out(alloc: Global, line: &str) -> Result<Vec<u8>, AllocError>
    requires good { AreGood (tokens line.now) }
    requires printed { line.now ≡ print (tokens line.now) }
    ensures same { IfOk result (λ text. tokens text.items ≡ tokens line.now) }
    ensures layout { IfOk result (λ text. text.items ≡ indented (tokens line.now)) }
    ensures utf8 { IfOk result (λ text. IsUtf8 text.items) }
{
    let mut scratch = Scratch::new(alloc);
    let mut reader = Reader::new(line, &mut scratch)?;
    let mut lines = Pretty::new(alloc);
    let mut count = 0;
    while let Some(token) = reader.next() {
        count = open_behind(count, token);
        if count > LEVEL_LIMIT {
            return copied(alloc, line);
        }
        lines.token(token)?;
    }
    Ok(lines.into_inner())
}

/// The bytes of a text.
fn copied(alloc: Global, text: &str) -> Result<Vec<u8>, AllocError>
    ensures { IfOk result (λ bytes. bytes.items ≡ text.now) }
{
    let mut bytes = Vec::new(alloc);
    bytes.extend_from_slice(text.as_bytes())?;
    Ok(bytes)
}

/// How many brackets are open behind a token, where so many are before it.
fn open_behind(count: usize, token: Token<'_>) -> usize
    requires { count ≤ LEVEL_LIMIT }
    ensures { result ≡ spec.open_behind count (token_of token.entry) }
{
    match token {
        Token::BeginObject | Token::BeginArray => count + 1,
        Token::EndObject | Token::EndArray => count.saturating_sub(1),
        _ => count,
    }
}
