//! Values, and parts of values, equal themselves alone.
use crate::compare::assert_same;
use crate::table::{arrays, choices, deep_values, distinct_values, properties};
use spa_value::{Value, same};
use std::alloc::{AllocError, Global};
use std::process::Abort;

/// Whether both operators answer that two are equal, or that they are not.
fn answers<T: PartialEq>(value: &T, twin: &T, equal: bool) -> bool {
    (value == twin) == equal && (value != twin) != equal
}

/// The place of the first twin that the value at this place is wrongly said to equal, or not to equal.
fn wrong_twin<T: PartialEq>(place: usize, value: &T, twins: &[T]) -> Option<usize> {
    for (j, twin) in twins.iter().enumerate() {
        if !answers(value, twin, place == j) {
            return Some(j);
        }
    }
    None
}

/// The places of the first value and twin that are wrongly said to be equal, or not to be.
fn wrongly_answered<T: PartialEq>(values: &[T], twins: &[T]) -> Option<(usize, usize)> {
    for (i, value) in values.iter().enumerate() {
        if let Some(j) = wrong_twin(i, value, twins) {
            return Some((i, j));
        }
    }
    None
}

/// Each of these equals its twin alone.
fn assert_distinct<T: PartialEq + Drop>(
    rt: &impl Abort,
    values: Result<Vec<T>, AllocError>,
    twins: Result<Vec<T>, AllocError>,
) -> Result<(), AllocError> {
    let values = values?;
    let twins = twins?;
    let wrong = wrongly_answered(values.as_slice(), twins.as_slice());
    assert_same(rt, &wrong, &None, "each of the two");
    Ok(())
}

/// The indexes of the first value and twin for which `same` gives the wrong answer.
fn wrongly_told(
    alloc: Global,
    values: &[Value],
    twins: &[Value],
) -> Result<Option<(usize, usize)>, AllocError> {
    for (i, value) in values.iter().enumerate() {
        for (j, twin) in twins.iter().enumerate() {
            if same(alloc, value, twin)? != (i == j) {
                return Ok(Some((i, j)));
            }
        }
    }
    Ok(None)
}

/// Checks that each of these is equal to its twin and to no other.
fn assert_told(
    rt: &impl Abort,
    alloc: Global,
    values: Result<Vec<Value>, AllocError>,
    twins: Result<Vec<Value>, AllocError>,
) -> Result<(), AllocError> {
    let values = values?;
    let twins = twins?;
    let wrong = wrongly_told(alloc, values.as_slice(), twins.as_slice())?;
    assert_same(rt, &wrong, &None, "each of the two");
    Ok(())
}

#[test]
fn values_are_the_same_as_themselves_alone(rt: HostRuntime) -> Result<(), AllocError> {
    let alloc = rt.alloc();
    assert_told(&rt, alloc, distinct_values(alloc), distinct_values(alloc))?;
    assert_told(&rt, alloc, deep_values(alloc), deep_values(alloc))
}

#[test]
fn values_equal_themselves_alone(rt: HostRuntime) -> Result<(), AllocError> {
    let alloc = rt.alloc();
    assert_distinct(&rt, distinct_values(alloc), distinct_values(alloc))
}

#[test]
fn parts_equal_themselves_alone(rt: HostRuntime) -> Result<(), AllocError> {
    let alloc = rt.alloc();
    assert_distinct(&rt, properties(alloc), properties(alloc))?;
    assert_distinct(&rt, arrays(alloc), arrays(alloc))?;
    assert_distinct(&rt, choices(alloc), choices(alloc))
}

#[test]
fn deep_structs_equal_themselves_alone(rt: HostRuntime) -> Result<(), AllocError> {
    let alloc = rt.alloc();
    assert_distinct(&rt, deep_values(alloc), deep_values(alloc))
}
