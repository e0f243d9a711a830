//! Types that hold a deeply nested value: read, written again, and dropped where something behind it is refused.
use crate::deep::bytes::{DEPTHS, NONE, assert_holds, between};
use libspa::pod::Held;
use libspa::pod::deserialize::{
    DeserializeError, ObjectOf, PodDeserialize, PodDeserializer, Required, StructOf,
};
use libspa::pod::serialize::write_struct;
use std::alloc::{AllocError, Global};
use std::process::Abort;
use std::test::Fail;

/// A struct of any value.
type One = StructOf<(Held, ())>;

/// A struct of any value and a number.
type Numbered = StructOf<(Held, (i32, ()))>;

/// An object of any value under key 1, and a number under key 2.
type Keyed = ObjectOf<5, 3, (Required<1, Held>, (Required<2, i32>, ()))>;

/// The words of an Int.
const INT: [u32; 4] = [4, 4, 3, 0];

/// Whether a read of this type is refused so, or, where it is `read`, accepted.
fn answers<'de, P: PodDeserialize<'de>>(
    alloc: Global,
    input: &'de [u8],
    wanted: &str,
) -> Result<bool, Fail> {
    match PodDeserializer::deserialize_from::<P>(alloc, input) {
        Ok((_, it)) => {
            drop(it);
            Ok(wanted == "read")
        }
        Err(DeserializeError::OutOfMemory) => Err(Fail::from(AllocError)),
        Err(error) => Ok(error.kind() == wanted),
    }
}

/// Whether what is read as a value and a number is written as it was.
fn comes_back(alloc: Global, input: &[u8]) -> Result<bool, Fail> {
    match PodDeserializer::deserialize_from::<Numbered>(alloc, input) {
        Ok((_, StructOf((held, (number, ()))))) => is_written(alloc, &held, number, input),
        Err(DeserializeError::OutOfMemory) => Err(Fail::from(AllocError)),
        Err(_) => Ok(false),
    }
}

/// Whether a struct of these is written as these bytes.
fn is_written(alloc: Global, held: &Held, number: i32, wanted: &[u8]) -> Result<bool, Fail> {
    let mut out = Vec::new(alloc);
    write_struct(&mut out, &(held, (&number, ())))?;
    Ok(out.as_slice() == wanted)
}

/// Compares what each type answers to a struct of such structs, with an Int behind them and without.
fn assert_members(rt: &impl Abort, alloc: Global, depth: u32) -> Result<(), Fail> {
    let alone = between(alloc, &[0, 14], (depth, NONE), &[])?;
    let numbered = between(alloc, &[16, 14], (depth, NONE), &INT)?;
    let (alone, numbered) = (alone.as_slice(), numbered.as_slice());
    let comes_back = comes_back(alloc, numbered)?;
    assert_holds(rt, comes_back, "it comes back", depth);
    let is_read = answers::<One>(alloc, alone, "read")?;
    assert_holds(rt, is_read, "it is read", depth);
    let is_left = answers::<One>(alloc, numbered, "UnreadMembers")?;
    assert_holds(rt, is_left, "a member is left", depth);
    let is_missing = answers::<Numbered>(alloc, alone, "PropertyMissing")?;
    assert_holds(rt, is_missing, "a member is missing", depth);
    Ok(())
}

#[test]
fn deep_members_are_kept_and_let_go(rt: HostRuntime) -> Result<(), Fail> {
    for depth in DEPTHS {
        assert_members(&rt, rt.alloc(), *depth)?;
    }
    Ok(())
}

/// Compares what an object of such structs is read as, with a second property and without.
fn assert_properties(rt: &impl Abort, alloc: Global, depth: u32) -> Result<(), Fail> {
    let both = between(
        alloc,
        &[40, 15, 5, 3, 1, 0],
        (depth, NONE),
        &[2, 0, 4, 4, 3, 0],
    )?;
    let one = between(alloc, &[16, 15, 5, 3, 1, 0], (depth, NONE), &[])?;
    let is_read = answers::<Keyed>(alloc, both.as_slice(), "read")?;
    assert_holds(rt, is_read, "it is read", depth);
    let is_missing = answers::<Keyed>(alloc, one.as_slice(), "PropertyMissing")?;
    assert_holds(rt, is_missing, "a property is missing", depth);
    Ok(())
}

#[test]
fn deep_properties_are_kept_and_let_go(rt: HostRuntime) -> Result<(), Fail> {
    for depth in DEPTHS {
        assert_properties(&rt, rt.alloc(), *depth)?;
    }
    Ok(())
}
