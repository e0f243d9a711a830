//! A clone equals its source.
use crate::compare::assert_same;
use crate::table::{
    arrays, choices, deep_values, distinct_values, objects, properties, worked_values,
};
use std::alloc::AllocError;
use std::process::Abort;

/// Whether a value, or a part of one, equals its clone.
fn equals_its_clone<T: Clone + PartialEq>(source: &T) -> Result<bool, AllocError> {
    let copy = source.clone()?;
    Ok(copy == *source)
}

/// The place of the first of these that doesn't equal its clone.
fn unlike_its_clone<T: Clone + PartialEq>(sources: &[T]) -> Result<Option<usize>, AllocError> {
    for (i, source) in sources.iter().enumerate() {
        if !equals_its_clone(source)? {
            return Ok(Some(i));
        }
    }
    Ok(None)
}

/// Each of these equals its clone.
fn assert_clones<T: Clone + PartialEq>(
    rt: &impl Abort,
    sources: Result<Vec<T>, AllocError>,
) -> Result<(), AllocError> {
    let sources = sources?;
    let unlike = unlike_its_clone(sources.as_slice())?;
    assert_same(rt, &unlike, &None, "each clone");
    Ok(())
}

#[test]
fn clones_of_values_equal_their_sources(rt: HostRuntime) -> Result<(), AllocError> {
    assert_clones(&rt, worked_values(rt.alloc()))?;
    assert_clones(&rt, distinct_values(rt.alloc()))
}

#[test]
fn clones_of_parts_equal_their_sources(rt: HostRuntime) -> Result<(), AllocError> {
    assert_clones(&rt, arrays(rt.alloc()))?;
    assert_clones(&rt, choices(rt.alloc()))?;
    assert_clones(&rt, properties(rt.alloc()))?;
    assert_clones(&rt, objects(rt.alloc()))
}

#[test]
fn clones_of_deep_structs_equal_their_sources(rt: HostRuntime) -> Result<(), AllocError> {
    assert_clones(&rt, deep_values(rt.alloc()))
}
