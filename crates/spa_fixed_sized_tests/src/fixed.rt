//! The ten types of fixed size, with bytes from outside.
use crate::compare::{assert_holds_at, assert_same, assert_same_at, assert_words};
use spa_fixed_sized::{CanonicalFixedSizedPod, Fault, FaultKind, FixedSizedPod, put_fixed};
use spa_sink::GenError;
use spa_utils::{Fd, Float32, Float64, Fraction, Id, Rectangle};
use std::alloc::Global;
use std::process::Abort;
use std::test::Fail;

/// The pod of a value.
fn pod_of<T: FixedSizedPod>(alloc: Global, value: &T) -> Result<Vec<u8>, GenError> {
    let mut out = Vec::new(alloc);
    put_fixed(&mut out, &value.as_canonical_type())?;
    Ok(out)
}

/// The body of a value.
fn body_of<T: CanonicalFixedSizedPod>(alloc: Global, value: &T) -> Result<Vec<u8>, GenError> {
    let mut body = Vec::new(alloc);
    value.serialize_body(&mut body)?;
    Ok(body)
}

/// What stands for this value is the value again.
fn stands_for_itself<T>(value: &T) -> bool
where
    T: CanonicalFixedSizedPod + FixedSizedPod<CanonicalType = T> + PartialEq,
{
    T::from_canonical_type(&value.as_canonical_type()) == *value
}

/// Whether these bytes are read as this value, and what follows it.
fn says<T: CanonicalFixedSizedPod + PartialEq>(bytes: &[u8], value: &T, rest: &[u8]) -> bool {
    match T::deserialize_body(bytes) {
        Ok((left, read)) => read == *value && left == rest,
        Err(_) => false,
    }
}

/// The body of the value has its type's size, and reads back before another byte.
fn assert_body<T>(rt: &impl Abort, body: Vec<u8>, value: &T, pod: &[u32]) -> Result<(), Fail>
where
    T: CanonicalFixedSizedPod + PartialEq,
{
    assert_same_at(rt, &body.len(), &T::SIZE, pod);
    let mut bytes = body;
    bytes.push(9)?;
    assert_holds_at(rt, says(bytes.as_slice(), value, &[9]), pod);
    Ok(())
}

/// The value has this pod, its body reads back, and it stands for itself.
fn is_fixed<T>(rt: &impl Abort, alloc: Global, value: T, pod: &[u32]) -> Result<(), Fail>
where
    T: CanonicalFixedSizedPod + FixedSizedPod<CanonicalType = T> + PartialEq,
{
    assert_holds_at(rt, stands_for_itself(&value), pod);
    let encoding = pod_of(alloc, &value)?;
    assert_words(rt, alloc, encoding.as_slice(), pod)?;
    assert_body(rt, body_of(alloc, &value)?, &value, pod)
}

#[test]
fn each_type_has_its_pod(rt: HostRuntime) -> Result<(), Fail> {
    let alloc = rt.alloc();
    is_fixed(&rt, alloc, (), &[0, 1])?;
    is_fixed(&rt, alloc, true, &[4, 2, 1, 0])?;
    is_fixed(&rt, alloc, Id(7), &[4, 3, 7, 0])?;
    is_fixed(&rt, alloc, -1i32, &[4, 4, 4294967295, 0])?;
    is_fixed(&rt, alloc, -2i64, &[8, 5, 4294967294, 4294967295])?;
    let one = Float32(0x3f80_0000);
    is_fixed(&rt, alloc, one, &[4, 6, 0x3f80_0000, 0])?;
    let above_one = Float64(0x3ff0_0000_0000_0001);
    is_fixed(&rt, alloc, above_one, &[8, 7, 1, 0x3ff0_0000])?;
    let rectangle = Rectangle {
        width: 31,
        height: 14,
    };
    is_fixed(&rt, alloc, rectangle, &[8, 10, 31, 14])?;
    let fraction = Fraction { num: 30, denom: 1 };
    is_fixed(&rt, alloc, fraction, &[8, 11, 30, 1])?;
    is_fixed(&rt, alloc, Fd(-1), &[8, 18, 4294967295, 4294967295])
}

/// Words, and what they are as truth values.
const TRUTHS: &[(u32, bool)] = &[(0, false), (1, true), (7, true), (256, true)];

#[test]
fn any_word_but_zero_is_true(rt: HostRuntime) {
    for (word, wanted) in TRUTHS {
        let is_said = says(&word.to_le_bytes(), wanted, &[]);
        assert_holds_at(&rt, is_said, &[*word]);
    }
}

#[test]
fn short_bodies_are_refused(rt: HostRuntime) {
    let short = Fault {
        input: [1, 2, 3].as_slice(),
        kind: FaultKind::Short,
    };
    let found = i32::deserialize_body(&[1, 2, 3]);
    assert_same(&rt, &found, &Err(short), "three bytes");
}
