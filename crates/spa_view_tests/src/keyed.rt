//! Forms of `parser_get!` with texts, with an object, and with a None in place of a value.
use crate::compare::{assert_holds, assert_same};
use spa_parser::{Parser, parser_get};
use spa_utils::{Errno, Fraction, Id, Rectangle};
use std::alloc::AllocError;
use std::process::Abort;
use test_bytes::bytes_of;

/// The values of a format's properties.
#[derive(Clone, Copy)]
struct Format {
    id: Id,
    kind: Id,
    size: Option<Rectangle>,
    rate: Option<Fraction>,
    stride: Option<i32>,
}

/// What stands there before it is read: `None` of what is there, and `Some` of what isn't.
const UNREAD: Format = Format {
    id: Id(0),
    kind: Id(0),
    size: None,
    rate: Some(Fraction { num: 0, denom: 1 }),
    stride: Some(0),
};

/// Reads the format and its name.
fn read_format<'d>(
    parser: &mut Parser<'d>,
    name: &mut &'d str,
    format: &mut Format,
) -> Result<(), Errno> {
    parser_get!(&mut *parser, Object(5, &mut format.id) {
        2 => Id(&mut format.kind),
        7 => String(name),
        3 => Option(Rectangle(&mut format.size)),
        8 => Option(Fraction(&mut format.rate)),
        9 => Option(Int(&mut format.stride)),
    })
}

/// Whether the format has the id 3, the kind 7, a size of 31 by 14, and neither rate nor stride.
fn is_wanted(format: Format) -> bool {
    let wanted = Rectangle {
        width: 31,
        height: 14,
    };
    format.id == Id(3)
        && format.kind == Id(7)
        && format.size == Some(wanted)
        && format.rate.is_none()
        && format.stride.is_none()
}

/// Whether the format is read so, with the name `foo`.
fn reads_the_format(parser: &mut Parser) -> Result<bool, AllocError> {
    let mut name = "";
    let mut format = UNREAD;
    match read_format(parser, &mut name, &mut format) {
        Ok(()) => Ok(name == "foo" && is_wanted(format)),
        Err(Errno::NOMEM) => Err(AllocError),
        Err(_) => Ok(false),
    }
}

/// An object of five properties, of which the key 9 has a None, and 8 isn't there; and an Int behind it.
const FORMAT: &[u32] = &[
    120, 15, 5, 3, 1, 0, 4, 3, 9, 0, 2, 0, 4, 3, 7, 0, 7, 0, 4, 8, 7303014, 0, 3, 0, 8, 10, 31, 14,
    9, 0, 0, 1, 4, 4, 6, 0,
];

#[test]
fn parse_object(rt: HostRuntime) -> Result<(), AllocError> {
    let input = bytes_of(rt.alloc(), FORMAT)?;
    let mut parser = Parser::new(rt.alloc(), &input);
    let holds = reads_the_format(&mut parser)?;
    assert_holds(&rt, holds, "the format");
    assert_same(&rt, &parser.get_int(), &Ok(6), "behind it");
    Ok(())
}

/// What a form answers, and the id and the number that it leaves.
type Left = (Result<(), Errno>, Id, i32);

/// What an object's property of this key is as an Int.
fn int_of(parser: &mut Parser, type_: u32, key: u32) -> Result<Left, AllocError> {
    let (mut id, mut int) = (Id(0), 0);
    let answer = parser_get!(&mut *parser, Object(type_, &mut id) { key => Int(&mut int) });
    if answer == Err(Errno::NOMEM) {
        return Err(AllocError);
    }
    Ok((answer, id, int))
}

/// An object of another type, no property of the key, and the property.
const ROWS: &[(u32, u32, Left)] = &[
    (6, 1, (Err(Errno::PROTO), Id(0), 0)),
    (5, 2, (Err(Errno::PIPE), Id(3), 0)),
    (5, 1, (Ok(()), Id(3), 7)),
];

/// Those rows. This function alone names them: one that does is proved with all of them.
fn rows() -> &'static [(u32, u32, Left)] {
    ROWS
}

fn assert_left(rt: &impl Abort, found: Left, row: (u32, u32, Left)) {
    let (type_, key, wanted) = row;
    assert_eq!(rt; found, wanted, "at type {type_}, key {key}");
}

#[test]
fn refused_properties(rt: HostRuntime) -> Result<(), AllocError> {
    let input = bytes_of(rt.alloc(), &[32, 15, 5, 3, 1, 0, 4, 4, 7, 0])?;
    for (type_, key, wanted) in rows() {
        let found = int_of(&mut Parser::new(rt.alloc(), &input), *type_, *key)?;
        assert_left(&rt, found, (*type_, *key, *wanted));
    }
    Ok(())
}

/// Reads two texts and a number, where a None may stand for each but the first.
fn read_texts<'d>(
    parser: &mut Parser<'d>,
    text: &mut &'d str,
    other: &mut Option<&'d str>,
    number: &mut Option<i32>,
) -> Result<(), Errno> {
    parser_get!(&mut *parser, Struct {
        String(text), Option(String(other)), Option(Int(number))
    })
}

/// Whether these are read.
fn reads_texts(
    parser: &mut Parser,
    text: &str,
    other: Option<&str>,
    number: Option<i32>,
) -> Result<bool, AllocError> {
    let (mut first, mut second, mut third) = ("", None, None);
    match read_texts(parser, &mut first, &mut second, &mut third) {
        Ok(()) => Ok(first == text && second == other && third == number),
        Err(Errno::NOMEM) => Err(AllocError),
        Err(_) => Ok(false),
    }
}

#[test]
fn parse_texts(rt: HostRuntime) -> Result<(), AllocError> {
    let input = bytes_of(rt.alloc(), &[40, 14, 4, 8, 7303014, 0, 0, 1, 4, 4, 3, 0])?;
    let holds = reads_texts(&mut Parser::new(rt.alloc(), &input), "foo", None, Some(3))?;
    assert_holds(&rt, holds, "a None in place of the second text");
    let input = bytes_of(rt.alloc(), &[48, 14, 2, 8, 97, 0, 2, 8, 98, 0, 4, 4, 3, 0])?;
    let holds = reads_texts(
        &mut Parser::new(rt.alloc(), &input),
        "a",
        Some("b"),
        Some(3),
    )?;
    assert_holds(&rt, holds, "both texts");
    Ok(())
}

/// Whether a text is refused as one that isn't UTF-8.
fn text_is_refused(parser: &mut Parser) -> Result<bool, AllocError> {
    let mut text = "";
    match parser_get!(&mut *parser, Struct { String(&mut text) }) {
        Ok(()) => Ok(false),
        Err(Errno::NOMEM) => Err(AllocError),
        Err(errno) => Ok(errno == Errno::INVAL),
    }
}

#[test]
fn a_text_is_utf8(rt: HostRuntime) -> Result<(), AllocError> {
    let input = bytes_of(rt.alloc(), &[16, 14, 2, 8, 255, 0])?;
    let holds = text_is_refused(&mut Parser::new(rt.alloc(), &input))?;
    assert_holds(&rt, holds, "a byte that no text has");
    Ok(())
}
