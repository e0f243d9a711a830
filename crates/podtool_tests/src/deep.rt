//! Deeply nested pods.
use crate::streams::{Wanted, assert_run};
use std::alloc::{AllocError, Global};
use std::process::Abort;
use test_bytes::nested_pods;
use test_bytes::streams::{ALL, Device, Source};

/// How many structs or objects are nested in one another: a stack that grows with each level doesn't suffice for them.
const DEEP: u32 = 20_000;

/// Compares the run of a word over all these bytes with what is wanted.
fn assert_row(
    rt: &impl Abort,
    alloc: Global,
    word: &str,
    given: &[u8],
    wanted: Wanted<'_>,
) -> Result<(), AllocError> {
    let mut room = vec![in alloc; 0; given.len()]?;
    let mut line_room = [0; 100];
    let output = Device::new(room.as_mut_slice(), ALL);
    let faults = Device::new(&mut line_room, ALL);
    assert_run(
        rt,
        alloc,
        word,
        Source::whole(given, ALL),
        output,
        faults,
        wanted,
    )
}

/// The words behind the size of a struct, and of an object with one property.
const HEADS: &[&[u32]] = &[&[14], &[15, 5, 3, 1, 0]];

/// Compares what comes of deep pods with this truth value in the innermost, rewritten and fixated.
fn assert_deep(
    rt: &impl Abort,
    alloc: Global,
    pods: &[u8],
    rewritten: Wanted<'_>,
    fixated: Wanted<'_>,
) -> Result<(), AllocError> {
    assert_row(rt, alloc, "rewrite", pods, rewritten)?;
    assert_row(rt, alloc, "fixate", pods, fixated)
}

/// A truth value of 1 stays as it is, one of 7 is rewritten to it, and a pod of no known type is refused.
#[test]
fn deep_pods_are_rewritten(rt: HostRuntime) -> Result<(), AllocError> {
    for head in HEADS {
        let one = nested_pods(rt.alloc(), DEEP, head, &[4, 2, 1, 0])?;
        let seven = nested_pods(rt.alloc(), DEEP, head, &[4, 2, 7, 0])?;
        let unknown = nested_pods(rt.alloc(), DEEP, head, &[4, 21, 7, 0])?;
        let (one, seven, unknown) = (one.as_slice(), seven.as_slice(), unknown.as_slice());
        assert_deep(&rt, rt.alloc(), one, (0, "", one), (0, "", one))?;
        assert_deep(&rt, rt.alloc(), seven, (0, "", one), (0, "", seven))?;
        assert_deep(&rt, rt.alloc(), unknown, REFUSED, REFUSED)?;
    }
    Ok(())
}

const REFUSED: Wanted<'static> = (1, "podtool: byte 0: InvalidType\n", &[]);
