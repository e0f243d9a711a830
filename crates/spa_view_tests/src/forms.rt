//! Each form of `parser_get!`: the crate's own tests, floats as their bits, and what these leave out.
use crate::compare::{assert_holds, assert_same};
use spa_parser::{Parser, parser_get};
use spa_utils::{Errno, Float32, Float64, Fraction, Frame, Id, Rectangle};
use spa_view::Pod;
use std::alloc::{AllocError, Global};
use std::test::Fail;
use test_bytes::bytes_of;

fn bool_at(alloc: Global, input: &[u8]) -> Result<bool, Errno> {
    let mut value = false;
    parser_get!(&mut Parser::new(alloc, input), Bool(&mut value))?;
    Ok(value)
}

#[test]
fn parse_bool(rt: HostRuntime) -> Result<(), Fail> {
    let input = bytes_of(rt.alloc(), &[4, 2, 1, 0])?;
    let found = bool_at(rt.alloc(), &input)?;
    assert_holds(&rt, found, "a truth value");
    Ok(())
}

#[test]
fn parse_empty_struct(rt: HostRuntime) -> Result<(), Fail> {
    let input = bytes_of(rt.alloc(), &[0, 14])?;
    let mut parser = Parser::new(rt.alloc(), &input);
    parser_get!(&mut parser, Struct {})?;
    assert_same(&rt, &parser.get_int(), &Err(Errno::PIPE), "behind it");
    Ok(())
}

/// A struct of a struct of numbers, then bytes, a file descriptor, a rectangle and a fraction. The words 1106929254, and
/// 3435973837 and 1077890252, are the bits of 31.3.
const COMPLICATED: &[u32] = &[
    168, 14, 96, 14, 4, 2, 1, 0, 4, 3, 313, 0, 4, 4, 313, 0, 8, 5, 313, 0, 4, 6, 1106929254, 0, 8,
    7, 3435973837, 1077890252, 3, 9, 196867, 0, 8, 18, 313, 0, 8, 10, 313, 131, 8, 11, 313, 131,
];

/// The fields of the inner struct.
#[derive(Clone, Copy, Debug, PartialEq)]
struct Numbers {
    truth: bool,
    id: Id,
    int: i32,
    long: i64,
    float: Float32,
    double: Float64,
}

const NUMBERS: Numbers = Numbers {
    truth: true,
    id: Id(313),
    int: 313,
    long: 313,
    float: Float32(1106929254),
    double: Float64(4629503384453172429),
};

/// The fields behind the inner struct.
#[derive(Clone, Copy, Debug, PartialEq)]
struct Others<'a> {
    bytes: &'a [u8],
    fd: i64,
    rectangle: Rectangle,
    fraction: Fraction,
}

const OTHERS: Others<'static> = Others {
    bytes: &[3, 1, 3],
    fd: 313,
    rectangle: Rectangle {
        width: 313,
        height: 131,
    },
    fraction: Fraction {
        num: 313,
        denom: 131,
    },
};

/// The values of the fields before they are parsed.
const NO_NUMBERS: Numbers = Numbers {
    truth: false,
    id: Id(0),
    int: 0,
    long: 0,
    float: Float32(0),
    double: Float64(0),
};

const NO_OTHERS: Others<'static> = Others {
    bytes: &[],
    fd: 0,
    rectangle: Rectangle {
        width: 0,
        height: 0,
    },
    fraction: Fraction { num: 0, denom: 1 },
};

fn complicated(alloc: Global, input: &[u8]) -> Result<(Numbers, Others<'_>), Errno> {
    let (mut numbers, mut others) = (NO_NUMBERS, NO_OTHERS);
    parser_get!(
        &mut Parser::new(alloc, input),
        Struct {
            Struct {
                Bool(&mut numbers.truth),
                Id(&mut numbers.id),
                Int(&mut numbers.int),
                Long(&mut numbers.long),
                Float(&mut numbers.float),
                Double(&mut numbers.double),
            },
            Bytes(&mut others.bytes),
            Fd(&mut others.fd),
            Rectangle(&mut others.rectangle),
            Fraction(&mut others.fraction),
        }
    )?;
    Ok((numbers, others))
}

#[test]
fn parse_complicated_struct(rt: HostRuntime) -> Result<(), Fail> {
    let input = bytes_of(rt.alloc(), COMPLICATED)?;
    let (numbers, others) = complicated(rt.alloc(), &input)?;
    assert_same(&rt, &numbers, &NUMBERS, "the struct within");
    assert_same(&rt, &others, &OTHERS, "what follows it");
    Ok(())
}

/// A pointer, and the type of the pod behind it.
fn pointer_and_type(alloc: Global, input: &[u8]) -> Result<((u64, Id), u32), Errno> {
    let mut pointer = (0, Id(0));
    let mut pod = Pod::from_bytes(input).ok_or(Errno::PIPE)?;
    let mut parser = Parser::new(alloc, input);
    parser_get!(&mut parser, Pointer(&mut pointer))?;
    parser_get!(&mut parser, Pod(&mut pod))?;
    Ok((pointer, pod.type_().as_raw()))
}

#[test]
fn parse_pointer_and_pod(rt: HostRuntime) -> Result<(), Fail> {
    let input = bytes_of(rt.alloc(), &[12, 17, 7, 0, 4096, 9, 0, 1])?;
    let (pointer, type_) = pointer_and_type(rt.alloc(), &input)?;
    assert_same(&rt, &pointer, &(4096, Id(7)), "the pointer");
    assert_same(&rt, &type_, &1, "the pod behind it");
    Ok(())
}

/// What a form answers, and the two numbers that it leaves.
type Left = (Result<(), Errno>, i32, i64);

/// Two Ints of a struct, of which the second is asked for as a Long.
fn refused_inside(parser: &mut Parser) -> Result<Left, AllocError> {
    let (mut int, mut long) = (0, 0);
    let answer = parser_get!(&mut *parser, Struct { Int(&mut int), Long(&mut long) });
    if answer == Err(Errno::NOMEM) {
        return Err(AllocError);
    }
    Ok((answer, int, long))
}

#[test]
fn a_refused_form_leaves_the_struct_open(rt: HostRuntime) -> Result<(), Fail> {
    let input = bytes_of(rt.alloc(), &[32, 14, 4, 4, 3, 0, 4, 4, 4, 0])?;
    let mut parser = Parser::new(rt.alloc(), &input);
    let (answer, int, long) = refused_inside(&mut parser)?;
    assert_same(&rt, &answer, &Err(Errno::INVAL), "the form");
    assert_same(&rt, &(int, long), &(3, 0), "the numbers");
    assert_same(&rt, &parser.get_int(), &Ok(4), "the second Int");
    assert_same(&rt, &parser.pop(Frame(1)), &Ok(()), "the struct");
    Ok(())
}
