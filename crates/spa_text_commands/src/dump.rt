//! Bytes in hex, sixteen to a line, with their letters.
ghost use Rattle.std.specs.Prelude.{◌≡◌, ◌+◌, ◌<◌, ◌^◌, ◌∷◌, ◌++◌, [], OnOk, length, map};
ghost use Rattle.hex.specs.Hex.{encode_lower};
ghost use Rattle.spa_text_commands.specs.Dump as spec;
ghost use Rattle.spa_text_commands.specs.Dump.{blanks, hex_lines, place_text, row_line, spaced};

use hex::encode;
use std::alloc::AllocError;

/// How many bytes a line shows.
pub(crate) const ROW_LEN: usize = 16;

/// The digits of hex.
const DIGITS: &[u8; 16] = b"0123456789abcdef";

/// Adds lines of these bytes, the first of which stands at this byte of the input.
pub(crate) fn add_rows(lines: &mut Vec<u8>, place: usize, bytes: &[u8]) -> Result<(), AllocError>
    requires { place + length bytes.now < 2 ^ 64 }
    ensures { OnOk result (lines.new.items ≡ lines.old.items ++ hex_lines place bytes.now) }
{
    let mut at = place;
    let mut left = bytes;
    while left.len() > ROW_LEN {
        let (row, behind) = left.split_at(ROW_LEN);
        add_row(lines, at, row)?;
        at += ROW_LEN;
        left = behind;
    }
    if left.is_empty() {
        return Ok(());
    }
    add_row(lines, at, left)
}

/// Adds the line of these bytes, the first of which stands at this byte of the input.
pub(crate) fn add_row(lines: &mut Vec<u8>, place: usize, row: &[u8]) -> Result<(), AllocError>
    ensures { OnOk result (lines.new.items ≡ lines.old.items ++ row_line place row.now) }
{
    add_place(lines, place)?;
    lines.push(b':')?;
    add_spaced(lines, row)?;
    add_blanks(lines, ROW_LEN.saturating_sub(row.len()))?;
    add_letters(lines, row)?;
    lines.push(b'\n')?;
    Ok(())
}

/// Adds the byte of the input at which a line begins.
fn add_place(lines: &mut Vec<u8>, place: usize) -> Result<(), AllocError>
    ensures { OnOk result (lines.new.items ≡ lines.old.items ++ place_text place) }
{
    match u32::try_from(place) {
        Ok(place) => add_hex(lines, &place.to_be_bytes()),
        Err(_) => add_hex(lines, &place.to_be_bytes()),
    }
}

/// Adds these bytes in hex, each behind a space.
fn add_spaced(lines: &mut Vec<u8>, bytes: &[u8]) -> Result<(), AllocError>
    ensures { OnOk result (lines.new.items ≡ lines.old.items ++ spaced bytes.now) }
{
    let mut left = bytes;
    while let Some((byte, behind)) = left.split_first() {
        lines.push(b' ')?;
        add_digits(lines, *byte)?;
        left = behind;
    }
    Ok(())
}

/// Adds blanks for so many bytes that a line has too few, and two more.
fn add_blanks(lines: &mut Vec<u8>, missing: usize) -> Result<(), AllocError>
    ensures { OnOk result (lines.new.items ≡ lines.old.items ++ blanks missing) }
{
    let mut left = missing;
    while left > 0 {
        lines.extend_from_slice(b"   ")?;
        left -= 1;
    }
    lines.extend_from_slice(b"  ")
}

/// Adds the letters of these bytes.
fn add_letters(lines: &mut Vec<u8>, bytes: &[u8]) -> Result<(), AllocError>
    ensures { OnOk result (lines.new.items ≡ lines.old.items ++ map spec.letter_of bytes.now) }
{
    let mut left = bytes;
    while let Some((byte, behind)) = left.split_first() {
        lines.push(letter_of(*byte))?;
        left = behind;
    }
    Ok(())
}

/// A byte's letter where it is one of ASCII or a blank, else a dot.
fn letter_of(byte: u8) -> u8
    ensures { result ≡ spec.letter_of byte }
{
    if b' ' <= byte && byte <= b'~' {
        byte
    } else {
        b'.'
    }
}

/// Adds these bytes in hex.
pub(crate) fn add_hex(lines: &mut Vec<u8>, bytes: &[u8]) -> Result<(), AllocError>
    ensures { OnOk result (lines.new.items ≡ lines.old.items ++ encode_lower bytes.now) }
{
    let digits = encode(*lines.allocator(), bytes)?;
    lines.extend_from_slice(digits.as_bytes())
}

/// Adds the two digits of a byte.
fn add_digits(lines: &mut Vec<u8>, byte: u8) -> Result<(), AllocError>
    ensures { OnOk result (lines.new.items ≡ lines.old.items ++ encode_lower (byte ∷ [])) }
{
    lines.push(DIGITS[usize::from(byte / 16)])?;
    lines.push(DIGITS[usize::from(byte % 16)])?;
    Ok(())
}
