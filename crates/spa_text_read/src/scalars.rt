//! Numbers in a text, by their types.
ghost use Rattle.std.specs.Prelude.{◌≡◌, IfSome, List, Some, option_map};
ghost use Rattle.json.specs.Reads.{token_of};
ghost use Rattle.json.specs.Token as json_token;
ghost use Rattle.spa_names.specs.declared.table.Table.{Table};
ghost use Rattle.spa_text_read.specs.Grammar as grammar;
ghost use Rattle.spa_text_read.specs.Grammar.{a_number, leaf};
ghost use Rattle.spa_text_read.specs.Seen.{said_by};

use crate::element::Element;
use crate::names::number_of;
use crate::numerals::{
    double_digits, float_digits, signed, signed_wide, unsigned, wide_bits, word_bits,
};
use crate::tag::{Scalar, bare};
use json::Token;
use spa_names::{Expected, Table};
use spa_utils::{Fd, Float32, Float64, Id};

/// The value of fixed size that a token is by itself, where this is expected: what `open` reads of most tokens, but faster. None promises
/// nothing: `open` is asked then, so to give None more often costs time alone.
#[inline(always)]
#[tactic(auto, unfolding(crate::specs::Grammar::opens))]
pub(crate) fn plain_number(token: Token<'_>, expected: Expected) -> Option<Element>
    ensures { IfSome result
        (λ e. (ts : List json_token.Token) →
        grammar.opens expected (token_of token.entry) ts ≡ Some (leaf (a_number (said_by e)), ts)) }
{
    match token {
        Token::Number(text) => digits_of(bare(expected.type_.0), text),
        Token::Bool(value) => Some(Element::Bool(value)),
        Token::String(name) => match bare(expected.type_.0) {
            Scalar::Id => match number_of(expected.ids, name) {
                Some(number) => Some(Element::Id(Id(number))),
                None => None,
            },
            _ => None,
        },
        _ => None,
    }
}

/// The number of this type that the digits are.
#[inline(always)]
fn digits_of(scalar: Scalar, digits: &str) -> Option<Element>
    ensures { (ids : Table) → option_map said_by result ≡ grammar.scalar_of scalar ids (json_token.number digits.now) }
{
    match scalar {
        Scalar::Int => Some(Element::Int(signed(digits)?)),
        Scalar::Id => Some(Element::Id(Id(unsigned(digits)?))),
        Scalar::Long => Some(Element::Long(signed_wide(digits)?)),
        Scalar::Fd => Some(Element::Fd(Fd(signed_wide(digits)?))),
        Scalar::Float => Some(Element::Float(Float32(float_digits(digits)?))),
        Scalar::Double => Some(Element::Double(Float64(double_digits(digits)?))),
    }
}

/// What one token says of a number.
pub(crate) fn scalar_of(scalar: Scalar, ids: Table, token: Token<'_>) -> Option<Element>
    ensures { option_map said_by result ≡ grammar.scalar_of scalar ids (token_of token.entry) }
{
    match token {
        Token::Number(digits) => digits_of(scalar, digits),
        Token::String(text) => match scalar {
            Scalar::Id => Some(Element::Id(Id(number_of(ids, text)?))),
            Scalar::Float => Some(Element::Float(Float32(word_bits(text)?))),
            Scalar::Double => Some(Element::Double(Float64(wide_bits(text)?))),
            _ => None,
        },
        _ => None,
    }
}
