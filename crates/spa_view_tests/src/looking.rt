//! The values of None choices, of arrays and of choices. A table is a text with a row a line.
use crate::compare::{assert_bytes, assert_holds, assert_said};
use crate::rows::{object_at, parts, pod_at};
use bitflags::Flags;
use spa_utils::{Errno, Fd, Float32, Float64, Fraction, Id, Rectangle};
use spa_view::{FromPod, Pod, PodArray, PodChoice, PodElements, PodObject, whole_bytes};
use std::alloc::{AllocError, Global};
use std::fmt::Debug;
use std::process::Abort;
use std::test::Fail;
use test_bytes::bytes_spelled;

/// Words of a pod, and those of the pod that it is settled.
const SETTLED: &str = r#"4 4 3 0 | 4 4 3 0
20 19 0 5 4 4 7 0 | 4 4 7 0
28 19 0 5 4 4 7 9 11 0 | 4 4 7 9
24 19 0 0 8 10 31 14 | 8 10 31 14
32 19 0 0 16 13 4 3 1 2 | 16 13 4 3 1 2
16 19 0 0 0 14 | 0 14
36 19 0 0 20 19 0 0 4 4 7 0 | 20 19 0 0 4 4 7 0
28 19 1 0 4 4 5 2 10 0 | 28 19 1 0 4 4 5 2 10 0
20 19 0 0 8 5 7 0 | 20 19 0 0 8 5 7 0
12 19 0 0 4 0 | 12 19 0 0 4 0
20 18 0 0 4 4 7 0 | 20 18 0 0 4 4 7 0"#;

/// Words of an array, then the type and the size of an element and how many there are, then those that are Ints or Ids.
const ARRAYS: &str = r#"20 13 4 4 10 15 19 0 | 4 4 3 | 10 15 19
16 13 4 3 1 2 | 3 4 2 | Id(1) Id(2)
24 13 8 5 1 0 2 0 | 5 8 2 |
8 13 4 4 | 4 4 0 |
8 13 0 1 | 1 0 0 |
12 13 0 4 7 0 | 4 0 0 |
14 13 4 4 10 0 | 4 4 1 | 10
16 13 8 4 1 2 | 4 8 1 |"#;

/// Words of a choice, then its shape and flags, and what a row of arrays has of its values.
const CHOICES: &str = r#"28 19 1 0 4 4 5 2 10 0 | 1 0 4 4 3 | 5 2 10
32 19 1 0 4 4 5 2 10 9 | 1 0 4 4 3 | 5 2 10
28 19 0 5 4 4 7 9 11 0 | 0 5 4 4 1 | 7
32 19 2 0 4 4 5 2 10 3 | 2 0 4 4 4 | 5 2 10 3
36 19 2 0 4 4 5 2 10 3 9 0 | 2 0 4 4 4 | 5 2 10 3
36 19 3 0 4 4 7 8 9 1 2 0 | 3 0 4 4 5 | 7 8 9 1 2
24 19 4 1 4 3 1 2 | 4 1 3 4 2 | Id(1) Id(2)
24 19 1 0 4 4 5 2 | 1 0 4 4 2 | 5 2
24 19 9 0 4 4 7 8 | 9 0 4 4 2 | 7 8
18 19 3 0 4 4 7 0 | 3 0 4 4 0 |"#;

/// Words of an object, and the types as which the value under key 1 is read, with what is read.
const LOOKED_UP: &str = r#"24 15 5 3 1 0 0 1 | 1 ()
32 15 5 3 1 0 4 2 7 9 | 2 true
48 15 5 3 1 0 20 19 0 0 4 2 0 9 | 2 false
32 15 5 3 1 0 4 3 7 0 | 3 Id(7)
48 15 5 3 1 0 20 19 0 0 4 3 7 0 | 3 Id(7)
32 15 5 3 1 0 4 4 3 0 | 4 3
48 15 5 3 1 0 20 19 0 0 4 4 4294967295 0 | 4 -1
48 15 5 3 1 0 24 19 0 0 8 5 4294967295 4294967295 | 5 -1
48 15 5 3 1 0 20 19 0 0 4 6 1138491392 0 | 6 Float32(1138491392)
48 15 5 3 1 0 24 19 0 0 8 7 1 0 | 7 Float64(1)
32 15 5 3 1 0 4 8 6513249 0 | 8 "abc"
48 15 5 3 1 0 20 19 0 0 4 8 6422625 0 | 8 "a"
32 15 5 3 1 0 4 8 1684234849 0 |
32 15 5 3 1 0 2 8 255 0 |
32 15 5 3 1 0 3 9 197121 0 | 9 [1, 2, 3]
48 15 5 3 1 0 24 19 0 0 8 10 31 14 | 10 Rectangle { width: 31, height: 14 }
48 15 5 3 1 0 24 19 0 0 8 11 16 9 | 11 Fraction { num: 16, denom: 9 }
48 15 5 3 1 0 24 19 0 0 8 18 9 0 | 18 Fd(9)
56 15 5 3 1 0 28 19 1 0 4 4 5 2 10 0 |
56 15 5 3 1 0 4 5 3 0 1 0 4 4 9 0 |
56 15 5 3 2 0 4 4 3 0 1 0 4 4 9 0 | 4 9
32 15 5 3 2 0 4 4 3 0 |
8 15 5 3 |"#;

fn array_at(bytes: &[u8]) -> Result<PodArray<'_>, &'static str> {
    pod_at(bytes)?.as_array().ok().ok_or("no array")
}

fn choice_at(bytes: &[u8]) -> Result<PodChoice<'_>, &'static str> {
    pod_at(bytes)?.as_choice().ok().ok_or("no choice")
}

/// The bytes of the pod at the front, settled.
fn settled_at(bytes: &[u8]) -> Result<&[u8], &'static str> {
    Ok(whole_bytes(&pod_at(bytes)?.settled()))
}

fn assert_settled(rt: &impl Abort, alloc: Global, row: &str) -> Result<(), Fail> {
    let (words, settled, _) = parts(row);
    let bytes = bytes_spelled(alloc, words)?;
    let wanted = bytes_spelled(alloc, settled)?;
    assert_bytes(rt, settled_at(&bytes)?, wanted.as_slice(), words);
    Ok(())
}

#[test]
fn none_choices_are_looked_through(rt: HostRuntime) -> Result<(), Fail> {
    for row in SETTLED.lines() {
        assert_settled(&rt, rt.alloc(), row)?;
    }
    Ok(())
}

/// The type and the size of an element, and how many there are.
fn push_header(said: &mut String, values: &PodArray) -> Result<(), AllocError> {
    let type_ = values.element_type().as_raw();
    let size = values.element_size();
    write!(said, "{type_} {size} {}", values.len())
}

fn push_ints(said: &mut String, elements: PodElements<i32>) -> Result<(), AllocError> {
    for element in elements {
        write!(said, "{element} ")?;
    }
    Ok(())
}

fn push_ids(said: &mut String, elements: PodElements<Id>) -> Result<(), AllocError> {
    for element in elements {
        write!(said, "{element:?} ")?;
    }
    Ok(())
}

/// The elements that are Ints or Ids. Nothing where `elements` answers INVAL.
fn elements_said(alloc: Global, values: &PodArray) -> Result<String, AllocError> {
    let mut said = String::new(alloc);
    match values.elements::<i32>() {
        Ok(elements) => push_ints(&mut said, elements)?,
        Err(errno) => said.push_str(if errno == Errno::INVAL { "" } else { "other" })?,
    }
    match values.elements::<Id>() {
        Ok(elements) => push_ids(&mut said, elements)?,
        Err(errno) => said.push_str(if errno == Errno::INVAL { "" } else { "other" })?,
    }
    Ok(said)
}

fn assert_array(rt: &impl Abort, alloc: Global, row: &str) -> Result<(), Fail> {
    let (words, header, elements) = parts(row);
    let bytes = bytes_spelled(alloc, words)?;
    let array = array_at(&bytes)?;
    let mut found = String::new(alloc);
    push_header(&mut found, &array)?;
    assert_said(rt, found.as_str(), header, words);
    let said = elements_said(alloc, &array)?;
    assert_said(rt, said.as_str().trim(), elements, words);
    Ok(())
}

#[test]
fn arrays_show_their_elements(rt: HostRuntime) -> Result<(), Fail> {
    for row in ARRAYS.lines() {
        assert_array(&rt, rt.alloc(), row)?;
    }
    Ok(())
}

/// Shape, flags, and what is said of the values.
fn push_choice(said: &mut String, choice: &PodChoice) -> Result<(), AllocError> {
    let flags = choice.flags().bits();
    write!(said, "{} {flags} ", choice.shape())?;
    push_header(said, &choice.values())
}

fn assert_choice(rt: &impl Abort, alloc: Global, row: &str) -> Result<(), Fail> {
    let (words, header, values) = parts(row);
    let bytes = bytes_spelled(alloc, words)?;
    let choice = choice_at(&bytes)?;
    let mut found = String::new(alloc);
    push_choice(&mut found, &choice)?;
    assert_said(rt, found.as_str(), header, words);
    let said = elements_said(alloc, &choice.values())?;
    assert_said(rt, said.as_str().trim(), values, words);
    assert_bytes(rt, whole_bytes(&choice.as_pod()), bytes.as_slice(), words);
    Ok(())
}

#[test]
fn choices_show_their_values(rt: HostRuntime) -> Result<(), Fail> {
    for row in CHOICES.lines() {
        assert_choice(&rt, rt.alloc(), row)?;
    }
    Ok(())
}

/// Whether neither an array nor a choice is at the front.
fn opens_as_neither(bytes: &[u8]) -> Result<bool, &'static str> {
    let pod = pod_at(bytes)?;
    Ok(pod.as_array().is_err() && pod.as_choice().is_err())
}

#[test]
fn other_pods_are_neither(rt: HostRuntime) -> Result<(), Fail> {
    for words in &["4 4 3 0", "4 13 4 0", "12 19 0 0 4 0", "0 14"] {
        let bytes = bytes_spelled(rt.alloc(), *words)?;
        assert_holds(&rt, opens_as_neither(&bytes)?, *words);
    }
    Ok(())
}

/// What is under key 1 as a value of this type, behind the type's number. Nothing where there is none.
fn push_found<'a, T: FromPod<'a> + Debug + Drop>(
    said: &mut String,
    number: u32,
    object: &PodObject<'a>,
) -> Result<(), AllocError> {
    match object.get::<T>(Id(1)) {
        Some(value) => write!(said, "{number} {value:?} "),
        None => Ok(()),
    }
}

/// What is under key 1 of each type that a look-up reads.
fn found_in(alloc: Global, object: &PodObject) -> Result<String, AllocError> {
    let mut said = String::new(alloc);
    push_found::<()>(&mut said, 1, object)?;
    push_found::<bool>(&mut said, 2, object)?;
    push_found::<Id>(&mut said, 3, object)?;
    push_found::<i32>(&mut said, 4, object)?;
    push_found::<i64>(&mut said, 5, object)?;
    push_found::<Float32>(&mut said, 6, object)?;
    push_found::<Float64>(&mut said, 7, object)?;
    push_found::<&str>(&mut said, 8, object)?;
    push_found::<&[u8]>(&mut said, 9, object)?;
    push_found::<Rectangle>(&mut said, 10, object)?;
    push_found::<Fraction>(&mut said, 11, object)?;
    push_found::<Fd>(&mut said, 18, object)?;
    Ok(said)
}

fn assert_looked_up(rt: &impl Abort, alloc: Global, row: &str) -> Result<(), Fail> {
    let (words, wanted, _) = parts(row);
    let bytes = bytes_spelled(alloc, words)?;
    let found = found_in(alloc, &object_at(&bytes)?)?;
    assert_said(rt, found.as_str().trim(), wanted, words);
    Ok(())
}

#[test]
fn values_are_looked_up_by_key(rt: HostRuntime) -> Result<(), Fail> {
    for row in LOOKED_UP.lines() {
        assert_looked_up(&rt, rt.alloc(), row)?;
    }
    Ok(())
}
