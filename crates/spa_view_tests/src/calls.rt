//! Calls of a parser in order, and what each answers. A table is a text with a row a line, so that it is data.
use crate::compare::assert_same;
use crate::rows::parts;
use spa_parser::Parser;
use spa_utils::{Errno, Frame, Id};
use spa_view::Pod;
use std::alloc::{AllocError, Global};
use std::fmt::Debug;
use std::process::Abort;
use std::test::Fail;
use test_bytes::{bytes_of, bytes_spelled, nested_structs};

/// Words of an input; calls, each with its number where it takes one; and what each answers: a pod by its type and its
/// size. The words 6422625 and 1684234849 are the bytes `a`, NUL, `b`, NUL and the bytes `abcd`. In the last three rows each call comes behind one
/// that is refused with INVAL, PIPE or PROTO, and answers as if that hadn't been made.
const CALLS: &str =
    r#"16 14 4 4 3 0 | push_struct; get_long; get_int; get_int; pop 1; get_int | Frame(1); INVAL; 3; PIPE; (); PIPE
32 15 5 3 1 0 4 4 3 0 | push_object 6; push_object 5; get_int; pop 2; pop 1; get_pod | PROTO; (Frame(1), Id(3)); PIPE; INVAL; (); PIPE
32 15 5 3 1 0 4 4 3 0 | push_struct; get_pod; pop 0 | INVAL; (15, 32); INVAL
4 2 7 9 4 2 0 0 4 3 7 0 4 4 3 0 | get_bool; get_bool; get_id; get_int; get_pod | true; false; Id(7); 3; PIPE
8 5 4294967295 4294967295 4 6 1138491392 0 8 7 1 0 | get_long; get_float; get_double; get_pod | -1; Float32(1138491392); Float64(1); PIPE
4 8 6422625 0 3 9 197121 0 12 17 7 0 4096 9 | get_string_raw; get_bytes; get_pointer; get_pod | [97]; [1, 2, 3]; (4096, Id(7)); PIPE
8 18 9 0 8 10 31 14 8 11 16 9 | get_fd; get_rectangle; get_fraction; get_pod | 9; Rectangle { width: 31, height: 14 }; Fraction { num: 16, denom: 9 }; PIPE
0 1 | get_bool; get_id; get_int; get_long; get_float; get_double; get_fd | INVAL; INVAL; INVAL; INVAL; INVAL; INVAL; INVAL
0 1 | get_rectangle; get_fraction; get_pointer; get_string_raw; get_bytes; get_pod | INVAL; INVAL; INVAL; INVAL; INVAL; (1, 0)
4 8 1684234849 0 | get_string_raw; get_pod | INVAL; (8, 4)
4 4 3 | get_int; get_pod; push_struct; push_object 5; pop 0; pop 1 | PIPE; PIPE; PIPE; PIPE; INVAL; INVAL
4 15 5 0 | push_object 5; push_struct; get_pod | INVAL; INVAL; (15, 4)
16 14 0 14 0 14 | push_struct; push_struct; pop 1; pop 2; get_pod; get_pod; pop 1 | Frame(1); Frame(2); INVAL; (); (14, 0); PIPE; ()
8 14 4 4 3 0 | push_struct; get_int; pop 1; get_pod | Frame(1); PIPE; (); PIPE
32 14 4 4 3 0 4 4 4 0 4 4 5 0 | push_struct; get_int; pop 1; get_int | Frame(1); 3; (); 5
16 14 8 15 5 3 0 14 | push_struct; push_object 5; push_struct; pop 2; pop 1; push_struct; pop 1 | Frame(1); (Frame(2), Id(3)); PIPE; (); (); Frame(1); ()
0 1 4 2 7 0 4 3 5 0 4 4 3 0 8 5 1 0 4 6 5 0 8 7 1 0 8 18 9 0 8 10 31 14 8 11 16 9 12 17 7 0 4096 9 2 8 97 0 2 8 97 0 3 9 197121 0 8 15 5 3 8 15 5 3 0 14 0 14 | push_struct; get_none; push_struct; get_bool; push_struct; get_id; push_struct; get_int; push_struct; get_long; push_struct; get_float; push_struct; get_double; push_struct; get_fd; push_struct; get_rectangle; push_struct; get_fraction; push_struct; get_pointer; push_struct; get_string_raw; push_struct; get_string; push_struct; get_bytes; push_struct; get_object 5; push_struct; push_object 5; pop 2; pop 1; get_int; push_struct; pop 0; pop 1; get_int; get_pod | INVAL; (); INVAL; true; INVAL; Id(5); INVAL; 3; INVAL; 1; INVAL; Float32(5); INVAL; Float64(1); INVAL; 9; INVAL; Rectangle { width: 31, height: 14 }; INVAL; Fraction { num: 16, denom: 9 }; INVAL; (4096, Id(7)); INVAL; [97]; INVAL; "a"; INVAL; [1, 2, 3]; INVAL; Id(3); INVAL; (Frame(1), Id(3)); INVAL; (); INVAL; Frame(1); INVAL; (); INVAL; (14, 0)
8 15 5 3 0 1 | push_object 5; get_none; get_bool; get_id; get_int; get_long; get_float; get_double; get_fd; get_rectangle; get_fraction; get_pointer; get_string_raw; get_string; get_bytes; get_object 5; get_pod; push_struct; push_object 5; pop 1; get_none | (Frame(1), Id(3)); PIPE; PIPE; PIPE; PIPE; PIPE; PIPE; PIPE; PIPE; PIPE; PIPE; PIPE; PIPE; PIPE; PIPE; PIPE; PIPE; PIPE; PIPE; (); ()
32 15 5 3 1 0 4 4 3 0 | push_object 6; get_none; push_object 6; get_bool; push_object 6; get_id; push_object 6; get_int; push_object 6; get_long; push_object 6; get_float; push_object 6; get_double; push_object 6; get_fd; push_object 6; get_rectangle; push_object 6; get_fraction; push_object 6; get_pointer; push_object 6; get_string_raw; push_object 6; get_string; push_object 6; get_bytes; push_object 6; get_object 6; push_struct; push_object 6; pop 1; get_object 6; value_of 1; get_pod | PROTO; INVAL; PROTO; INVAL; PROTO; INVAL; PROTO; INVAL; PROTO; INVAL; PROTO; INVAL; PROTO; INVAL; PROTO; INVAL; PROTO; INVAL; PROTO; INVAL; PROTO; INVAL; PROTO; INVAL; PROTO; INVAL; PROTO; INVAL; PROTO; PROTO; INVAL; PROTO; INVAL; PROTO; 3; PIPE"#;

/// The name of an error that a parser answers.
fn name_of(error: Errno) -> &'static str {
    if error == Errno::PIPE {
        return "PIPE";
    }
    if error == Errno::INVAL {
        return "INVAL";
    }
    if error == Errno::PROTO {
        return "PROTO";
    }
    "another error"
}

/// A call that wants memory ends the row.
fn push_shown<T: Debug + Drop>(
    said: &mut String,
    answer: Result<T, Errno>,
) -> Result<(), AllocError> {
    match answer {
        Ok(value) => write!(said, "{value:?}; "),
        Err(Errno::NOMEM) => Err(AllocError),
        Err(error) => write!(said, "{}; ", name_of(error)),
    }
}

/// The type and the size of the next pod.
fn next_pod(parser: &mut Parser) -> Result<(u32, u32), Errno> {
    let pod = parser.get_pod()?;
    Ok((pod.type_().as_raw(), pod.size()))
}

/// The id of the next object, of this type.
fn next_object(parser: &mut Parser, type_: u32) -> Result<Id, Errno> {
    Ok(parser.get_object(type_)?.id())
}

/// The Int under this key of the next object, of the type 5.
fn next_value(parser: &mut Parser, key: u32) -> Result<i32, Errno> {
    let object = parser.get_object(5)?;
    parser.value_of(&object, key)?.get_int()
}

/// What the call of a get answers.
fn push_got(said: &mut String, parser: &mut Parser, name: &str) -> Result<(), AllocError> {
    match name {
        "get_none" => push_shown(said, parser.get_none()),
        "get_bool" => push_shown(said, parser.get_bool()),
        "get_id" => push_shown(said, parser.get_id()),
        "get_int" => push_shown(said, parser.get_int()),
        "get_long" => push_shown(said, parser.get_long()),
        "get_float" => push_shown(said, parser.get_float()),
        "get_double" => push_shown(said, parser.get_double()),
        "get_fd" => push_shown(said, parser.get_fd()),
        "get_rectangle" => push_shown(said, parser.get_rectangle()),
        "get_fraction" => push_shown(said, parser.get_fraction()),
        "get_pointer" => push_shown(said, parser.get_pointer()),
        "get_string_raw" => push_shown(said, parser.get_string_raw()),
        "get_string" => push_shown(said, parser.get_string()),
        "get_bytes" => push_shown(said, parser.get_bytes()),
        "get_pod" => push_shown(said, next_pod(parser)),
        _ => said.push_str("no call; "),
    }
}

/// What a call answers.
fn push_answer(said: &mut String, parser: &mut Parser, call: &str) -> Result<(), AllocError> {
    let (name, number) = call.split_once(' ').unwrap_or((call, "0"));
    let number: u32 = number.parse().unwrap_or(0);
    match name {
        "push_struct" => push_shown(said, parser.push_struct()),
        "push_object" => push_shown(said, parser.push_object(number)),
        "get_object" => push_shown(said, next_object(parser, number)),
        "value_of" => push_shown(said, next_value(parser, number)),
        "pop" => push_shown(said, parser.pop(Frame(number as usize))),
        _ => push_got(said, parser, name),
    }
}

/// What the calls answer, in order.
fn answers_of(alloc: Global, input: &[u8], calls: &str) -> Result<String, AllocError> {
    let mut said = String::new(alloc);
    let mut parser = Parser::new(alloc, input);
    for call in calls.split("; ") {
        push_answer(&mut said, &mut parser, call)?;
    }
    Ok(said)
}

fn assert_answers(rt: &impl Abort, found: &str, wanted: &str, row: &str) {
    assert_eq!(rt; found, wanted, "at {row}");
}

/// Compares what the calls of a row answer with what is wanted.
fn assert_row(rt: &impl Abort, alloc: Global, row: &str) -> Result<(), Fail> {
    let (words, calls, answers) = parts(row);
    let input = bytes_spelled(alloc, words)?;
    let found = answers_of(alloc, &input, calls)?;
    assert_answers(rt, found.as_str().trim_end_matches("; "), answers, row);
    Ok(())
}

#[test]
fn calls_answer_in_order(rt: HostRuntime) -> Result<(), Fail> {
    for row in CALLS.lines() {
        assert_row(&rt, rt.alloc(), row)?;
    }
    Ok(())
}

/// The words of an object with the Int 3 under key 1.
const OBJECT: &[u32] = &[32, 15, 5, 3, 1, 0, 4, 4, 3, 0];

/// The Int under key 1 of the next pod, an object.
fn int_of_next(parser: &mut Parser) -> Result<i32, Errno> {
    let object = parser.get_pod()?.as_object()?;
    let property = object.find_prop(Id(1)).ok_or(Errno::PIPE)?;
    property.value().get_int()
}

#[test]
fn an_object_is_read_from_its_view(rt: HostRuntime) -> Result<(), Fail> {
    let input = bytes_of(rt.alloc(), OBJECT)?;
    let mut parser = Parser::new(rt.alloc(), &input);
    let found = int_of_next(&mut parser)?;
    assert_same(&rt, &found, &3, "the Int");
    Ok(())
}

/// The bytes that a parser of the pod at the front gets.
fn bytes_of_pod(alloc: Global, input: &[u8]) -> Result<&[u8], Errno> {
    let pod = Pod::from_bytes(input).ok_or(Errno::PIPE)?;
    Parser::from_pod(alloc, pod).get_bytes()
}

#[test]
fn a_parser_of_a_pod_begins_with_it(rt: HostRuntime) -> Result<(), Fail> {
    let input = bytes_of(rt.alloc(), &[3, 9, 197121, 0, 0, 1])?;
    let found = bytes_of_pod(rt.alloc(), &input)?;
    assert_same(&rt, &found, &[1, 2, 3].as_slice(), "the bytes");
    Ok(())
}

/// The nesting depth of the structs.
const DEPTH: u32 = 300;

/// Opens all of the structs, looks for a number in the innermost, and closes them from there.
fn open_and_close(parser: &mut Parser) -> Result<Option<Errno>, Errno> {
    for _ in 0..DEPTH {
        let _ = parser.push_struct()?;
    }
    let inside = parser.get_int().err();
    for closed in 0..DEPTH {
        parser.pop(Frame((DEPTH - closed) as usize))?;
    }
    Ok(inside)
}

#[test]
fn deep_structs_are_opened_and_closed(rt: HostRuntime) -> Result<(), Fail> {
    let input = nested_structs(rt.alloc(), DEPTH - 1, &[0, 14])?;
    let mut parser = Parser::new(rt.alloc(), &input);
    let inside = open_and_close(&mut parser)?;
    assert_same(&rt, &inside, &Some(Errno::PIPE), "in the innermost");
    assert_same(&rt, &parser.get_int(), &Err(Errno::PIPE), "behind all");
    Ok(())
}
