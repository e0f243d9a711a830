//! What two pods meet in, by `negotiate_pods` and by way of values.
use example_calls::negotiate_by_values;
use spa_negotiate::{NegotiateError, negotiate_pods};
use std::alloc::{AllocError, Global};
use std::process::Abort;
use std::test::Fail;

/// Whether this is the pod that is wanted. None: no value for key 1 is in both.
fn is_wanted(
    found: Result<Vec<u8>, NegotiateError>,
    wanted: Option<&[u8]>,
) -> Result<bool, AllocError> {
    match (found, wanted) {
        (Ok(met), Some(pod)) => Ok(met.as_slice() == pod),
        (Err(NegotiateError::OutOfMemory), _) => Err(AllocError),
        (Err(refusal), None) => Ok(refusal == NegotiateError::Disjoint(1)),
        _ => Ok(false),
    }
}

/// Two pods meet in the one that is wanted, by `negotiate_pods` and by way of values. None: no value for key 1 is in both.
pub(crate) fn assert_meet(
    rt: &impl Abort,
    alloc: Global,
    (ours, theirs): (&[u8], &[u8]),
    wanted: Option<&[u8]>,
) -> Result<(), Fail> {
    let pods = is_wanted(negotiate_pods(alloc, ours, theirs), wanted)?;
    let values = is_wanted(negotiate_by_values(alloc, ours, theirs), wanted)?;
    assert!(rt; pods, "pods");
    assert!(rt; values, "values");
    Ok(())
}
