//! Bytes read from hexadecimal digits, as `xxd`, `hexdump -C` and `od` write them.
ghost use Rattle.std.specs.Prelude.{◌≡◌, ◌+◌, ◌-◌, ◌<◌, ◌≤◌, ◌++◌, [], Bool, IfErr, IfOk, IfSome, MatchOption, None, Some, length};
ghost use Rattle.std.specs.List.{prefix_len};
ghost use Rattle.hex.specs.Hex.{hex_digit_value};
ghost use Rattle.spa_text_commands.specs.Hexadecimal as spec;
ghost use Rattle.spa_text_commands.specs.Hexadecimal.{ReadsHexadecimal, RefusesHexadecimal, behind_line, first_line, said_in};
ghost use Rattle.spa_text_commands.specs.ReadingHexadecimal.{IsLineAt, IsNext, SaysMore};
ghost use Rattle.spa_text_commands.specs.Texts as texts;

use crate::answer::Failure;
use crate::extent::split_line;
use crate::reading::is_space;
use std::alloc::{AllocError, Global};

/// The fewest digits of an offset without a colon.
const OFFSET_LEN: usize = 6;

/// The bytes that hexadecimal digits say, two a byte: of plain ones, as `xxd -p` writes them, with white space and quotes between bytes, and of rows
/// of `xxd`, `hexdump -Cv` and `od -v -t x1`.
///
/// Another input is refused at the line and the column, from 1, at which no byte is, or `OutOfMemory` is answered.
#[tactic(auto, using(crate::proofs::ReadHexadecimal::lines_fit, crate::proofs::ReadHexadecimal::no_lines, crate::proofs::ReadHexadecimal::line_said, crate::proofs::ReadHexadecimal::all_said, crate::proofs::ReadHexadecimal::not_said))]
pub fn read_hexadecimal(alloc: Global, input: &[u8]) -> Result<Vec<u8>, Failure>
    ensures read { IfOk result (λ bytes. ReadsHexadecimal input.now bytes.items) }
    ensures refused { IfErr result (RefusesHexadecimal input.now) }
{
    let offsets = first_has_offset(input);
    let mut bytes = Vec::new(alloc);
    let mut lines: usize = 0;
    let mut left = input;
    while !left.is_empty() {
        let (line, behind) = split_line(left);
        let unread = add_line(offsets, line, &mut bytes)?;
        if unread > 0 {
            return Err(failure_at(alloc, lines + 1, line, unread));
        }
        lines += 1;
        left = behind;
    }
    Ok(bytes)
}

/// Whether the first line has an offset without a colon.
fn first_has_offset(input: &[u8]) -> bool
    ensures { result ≡ spec.first_has_offset input.now }
{
    let (line, _) = split_line(input);
    let row = behind_space(line);
    begins_with_offset(row) && digit_count(behind_space(behind_digits(row))) == 2
}

/// What follows white space.
fn behind_space(text: &[u8]) -> &[u8]
    ensures rest { result.now ≡ spec.behind_space text.now }
    ensures within { length result.now ≤ length text.now }
{
    text.split_at(space_count(text)).1
}

/// How many bytes of white space a text begins with.
fn space_count(text: &[u8]) -> usize
    ensures count { result ≡ prefix_len texts.is_space text.now }
    ensures within { result ≤ length text.now }
{
    text.iter().take_while(|byte| is_space(**byte)).count()
}

/// What follows digits.
fn behind_digits(text: &[u8]) -> &[u8]
    ensures rest { result.now ≡ spec.behind_digits text.now }
    ensures within { length result.now ≤ length text.now }
{
    text.split_at(digit_count(text)).1
}

/// How many digits a text begins with.
fn digit_count(text: &[u8]) -> usize
    ensures count { result ≡ spec.digit_count text.now }
    ensures within { result ≤ length text.now }
{
    text.iter()
        .take_while(|byte| digit_value(**byte).is_some())
        .count()
}

/// Whether a text begins with an offset without a colon, if it begins with one.
fn begins_with_offset(text: &[u8]) -> bool
    ensures { result ≡ spec.begins_with_offset text.now }
{
    digit_count(text) >= OFFSET_LEN
}

/// The value of a digit.
fn digit_value(byte: u8) -> Option<u8>
    ensures { result ≡ hex_digit_value byte }
{
    if b'A' <= byte && byte <= b'F' {
        Some(byte - 55)
    } else if b'a' <= byte && byte <= b'f' {
        Some(byte - 87)
    } else if b'0' <= byte && byte <= b'9' {
        Some(byte - b'0')
    } else {
        None
    }
}

/// Adds the bytes that a line says, and answers how many bytes of the line are left from where there is none.
#[tactic(auto, using(crate::proofs::ReadHexadecimal::row_said))]
fn add_line(offsets: bool, line: &[u8], bytes: &mut Vec<u8>) -> Result<usize, AllocError>
    ensures said { IfOk result (λ unread. SaysMore (said_in offsets line.now) bytes.old.items bytes.new.items unread) }
    ensures within { IfOk result (λ unread. unread ≤ length line.now) }
{
    let (spaces_end, row) = bytes_in(offsets, behind_space(line));
    add_bytes(spaces_end, row, bytes)
}

/// Where the bytes of a row begin, and whether two spaces end them.
#[tactic(auto, using(crate::proofs::ReadHexadecimal::colon_found, crate::proofs::ReadHexadecimal::no_colon))]
fn bytes_in(offsets: bool, row: &[u8]) -> (bool, &[u8])
    ensures ends { result.0 ≡ (spec.bytes_in offsets row.now).0 }
    ensures bytes { result.1.now ≡ (spec.bytes_in offsets row.now).1 }
    ensures within { length result.1.now ≤ length row.now }
{
    let behind = behind_digits(row);
    if let Some(bytes) = behind_colon(behind) {
        return (true, behind_space(bytes));
    }
    if offsets && begins_with_offset(row) {
        (false, behind)
    } else {
        (false, row)
    }
}

/// What follows a colon at the front, where one is.
fn behind_colon(text: &[u8]) -> Option<&[u8]>
    ensures rest { MatchOption result (spec.behind_colon text.now ≡ None) (λ rest. spec.behind_colon text.now ≡ Some rest.now) }
    ensures within { IfSome result (λ rest. length rest.now ≤ length text.now) }
{
    let Some((first, rest)) = text.split_first() else {
        return None;
    };
    if *first == b':' { Some(rest) } else { None }
}

/// What stands next in a row.
enum Next {
    /// Letters, or the end.
    End,
    /// White space or a quote.
    Between,
    /// Two digits, which say this byte.
    Byte(u8),
    /// Something else.
    Other,
}

/// Adds the bytes that digits say, up to letters, and answers how many bytes of the row are left from where there is none.
#[tactic(auto, using(crate::proofs::ReadHexadecimal::left_within, crate::proofs::ReadHexadecimal::nothing_said, crate::proofs::ReadHexadecimal::passed_over, crate::proofs::ReadHexadecimal::byte_said, crate::proofs::ReadHexadecimal::letters_reached, crate::proofs::ReadHexadecimal::other_reached, crate::proofs::ReadHexadecimal::end_reached))]
fn add_bytes(spaces_end: bool, row: &[u8], bytes: &mut Vec<u8>) -> Result<usize, AllocError>
    ensures said { IfOk result (λ unread. SaysMore (spec.said spaces_end row.now) bytes.old.items bytes.new.items unread) }
    ensures within { IfOk result (λ unread. unread ≤ length row.now) }
{
    let mut left = row;
    while let Some((first, behind)) = left.split_first() {
        match next_of(spaces_end, *first, behind) {
            Next::End => return Ok(0),
            Next::Between => left = behind,
            Next::Byte(byte) => {
                bytes.push(byte)?;
                left = &behind[1..];
            }
            Next::Other => return Ok(left.len()),
        }
    }
    Ok(0)
}

/// What stands next in a row that goes on with this byte and these.
#[tactic(auto, using(crate::proofs::ReadHexadecimal::letters_next, crate::proofs::ReadHexadecimal::between_next, crate::proofs::ReadHexadecimal::byte_next, crate::proofs::ReadHexadecimal::no_high_next, crate::proofs::ReadHexadecimal::no_low_next, crate::proofs::ReadHexadecimal::last_ends, crate::proofs::ReadHexadecimal::last_other))]
fn next_of(spaces_end: bool, first: u8, behind: &[u8]) -> Next
    ensures { IsNext spaces_end first behind.now result }
{
    let Some((second, _)) = behind.split_first() else {
        return if ends_row(first) {
            Next::End
        } else {
            Next::Other
        };
    };
    if begins_letters(spaces_end, first, *second) {
        return Next::End;
    }
    if is_between(first) {
        return Next::Between;
    }
    let Some(high) = digit_value(first) else {
        return Next::Other;
    };
    let Some(low) = digit_value(*second) else {
        return Next::Other;
    };
    Next::Byte(high * 16 + low)
}

/// Whether letters begin with these two bytes.
fn begins_letters(spaces_end: bool, first: u8, second: u8) -> bool
    ensures { result ≡ spec.begins_letters spaces_end first second }
{
    first == b'|' || (spaces_end && (first == b' ' && second == b' '))
}

/// Whether a row may end with this byte, which is no digit.
fn ends_row(last: u8) -> bool
    ensures { result ≡ spec.ends_row last }
{
    last == b'|' || is_between(last)
}

/// Whether this may stand between two bytes.
fn is_between(byte: u8) -> bool
    ensures { result ≡ spec.is_between byte }
{
    is_space(byte) || byte == b'"'
}

/// The refusal of this line, of which so many bytes are left unread.
fn failure_at(alloc: Global, line: usize, text: &[u8], unread: usize) -> Failure
    requires { (0 < unread) × (unread ≤ length text.now) }
    ensures { IsLineAt line (length text.now - unread + 1) result }
{
    let at = text.len() - unread;
    let (kind, words) = if text[at] == b'*' {
        (
            "Rows",
            "rows are left out at *; hexdump and od write them all with -v",
        )
    } else {
        ("Digits", "a byte is two hexadecimal digits")
    };
    Failure::Line {
        line,
        column: at + 1,
        kind,
        words,
        path: String::new(alloc),
        misfit: None,
    }
}
