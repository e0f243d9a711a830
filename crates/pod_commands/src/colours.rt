//! Texts in colours.
ghost use Rattle.std.specs.Prelude.{◌≡◌, ◌≤◌, ◌<◌, ◌++◌, IfOk, OnOk, false, length};
ghost use Rattle.std.specs.Char.{is_ascii_hexdigit};
ghost use Rattle.std.specs.List.{list_all};
ghost use Rattle.pod_commands.specs.Colours as spec;
ghost use Rattle.pod_commands.specs.Colours.{InColours, IsColoured, piece_in, start_of};

use spa_text_commands::selection::Form;
use std::alloc::{AllocError, Global};

/// Whether texts are coloured.
#[derive(Clone, Copy)]
pub enum Colours {
    /// They aren't.
    Off,
    /// Names, quoted texts and numbers are.
    On,
}

/// What a piece of a text is coloured as.
#[derive(Clone, Copy)]
pub enum Colour {
    /// A type, a key, or another name.
    Name,
    /// A text in quotes.
    Quoted,
    /// A number, a byte, true, false or null.
    Number,
}

/// What ends a colour.
const RESET: &[u8] = b"\x1b[0m";

/// The words of JSON.
const LITERALS: [&[u8]; 3] = [b"true", b"false", b"null"];

impl Colour {
    /// What begins it: blue, green or cyan.
    fn start(self) -> &'static [u8]
        ensures { result.now ≡ start_of self }
    {
        match self {
            Colour::Name => b"\x1b[34m",
            Colour::Quoted => b"\x1b[32m",
            Colour::Number => b"\x1b[36m",
        }
    }
}

/// A text, in colours if it is to have them.
pub(crate) fn in_colours(
    alloc: Global,
    colours: Colours,
    text: Vec<u8>,
) -> Result<Vec<u8>, AllocError>
    ensures { IfOk result (λ out. InColours colours text.items out.items) }
{
    match colours {
        Colours::Off => Ok(text),
        Colours::On => coloured(alloc, text.as_slice()),
    }
}

/// The colours of what is printed in this form: pods themselves have none.
pub(crate) fn colours_of(form: Form, colours: Colours) -> Colours
    ensures { result ≡ spec.colours_of form colours }
{
    if form.is_pods() {
        Colours::Off
    } else {
        colours
    }
}

/// A text in colours: JSON, or the lines of `show`.
#[tactic(auto, using(crate::proofs::Coloured::goes_behind, crate::proofs::Coloured::begins, crate::proofs::Coloured::ends))]
fn coloured(alloc: Global, text: &[u8]) -> Result<Vec<u8>, AllocError>
    ensures { IfOk result (λ out. IsColoured text.now out.items) }
{
    let mut out = Vec::new(alloc);
    let mut left = text;
    while !left.is_empty() {
        let (piece, behind) = left.split_at(piece_len(left));
        add_piece(&mut out, piece, colour_of(piece, behind))?;
        left = behind;
    }
    Ok(out)
}

/// Adds a piece of a text, in this colour if it has one.
fn add_piece(out: &mut Vec<u8>, piece: &[u8], colour: Option<Colour>) -> Result<(), AllocError>
    ensures { OnOk result (out.new.items ≡ out.old.items ++ piece_in colour piece.now) }
{
    let Some(colour) = colour else {
        return out.extend_from_slice(piece);
    };
    out.extend_from_slice(colour.start())?;
    out.extend_from_slice(piece)?;
    out.extend_from_slice(RESET)
}

/// How long the first piece of what is left of a text is: a text in quotes, a word, or a byte. Nothing but its bounds is
/// proved: which bytes have one colour is only tested.
fn piece_len(left: &[u8]) -> usize
    requires { 0 < length left.now }
    ensures piece { result ≡ spec.piece_len left.now }
    ensures some { 0 < result }
    ensures within { result ≤ length left.now }
{
    let (first, behind) = (left[0], &left[1..]);
    if first == b'"' {
        return 1 + quoted_len(behind);
    }
    if goes_on(first, first) {
        return 1 + word_len(first, behind);
    }
    1
}

/// How many bytes of a text in quotes follow the quote at its front.
fn quoted_len(behind: &[u8]) -> usize
    ensures quoted { result ≡ spec.quoted_len false behind.now }
    ensures within { result ≤ length behind.now }
{
    let mut is_escaped = false;
    for at in 0..behind.len() {
        let byte = behind[at];
        if byte == b'\n' {
            return at;
        }
        if byte == b'"' && !is_escaped {
            return at + 1;
        }
        is_escaped = byte == b'\\' && !is_escaped;
    }
    behind.len()
}

/// How many bytes of a word that begins with this one follow it.
fn word_len(first: u8, behind: &[u8]) -> usize
    ensures word { result ≡ spec.word_len first behind.now }
    ensures within { result ≤ length behind.now }
{
    for at in 0..behind.len() {
        if !goes_on(first, behind[at]) {
            return at;
        }
    }
    behind.len()
}

/// Whether a byte belongs to the word that begins with `first`: letters, digits, `.`, `-`, `+`, `_`, and `:` where the word begins with a letter.
fn goes_on(first: u8, byte: u8) -> bool
    ensures { result ≡ spec.goes_on first byte }
{
    byte.is_ascii_alphanumeric()
        || b".-+_".contains(&byte)
        || (byte == b':' && first.is_ascii_alphabetic())
}

/// The colour of a piece of a text that these bytes follow, if it has one.
fn colour_of(piece: &[u8], behind: &[u8]) -> Option<Colour>
    ensures { result ≡ spec.colour_of piece.now behind.now }
{
    let [first, ..] = piece else {
        return None;
    };
    if *first == b'"' {
        if behind.first() == Some(&b':') {
            return Some(Colour::Name);
        }
        return Some(Colour::Quoted);
    }
    if first.is_ascii_uppercase() {
        return Some(Colour::Name);
    }
    if is_number(*first, piece) {
        return Some(Colour::Number);
    }
    None
}

/// Whether a piece that begins with this byte is a number, a byte in hex, or a word of JSON.
fn is_number(first: u8, piece: &[u8]) -> bool
    ensures { result ≡ spec.is_number first piece.now }
{
    first == b'-' || first.is_ascii_digit() || is_hex(piece) || LITERALS.contains(&piece)
}

/// Whether all bytes are hex digits.
fn is_hex(piece: &[u8]) -> bool
    ensures { result ≡ list_all is_ascii_hexdigit piece.now }
{
    for byte in piece {
        if !byte.is_ascii_hexdigit() {
            return false;
        }
    }
    true
}
