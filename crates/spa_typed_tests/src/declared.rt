//! Types that are declared by what they are made of: written, and written where they don't fit.
use crate::compare::{assert_holds, filled};
use crate::latency::LATENCY;
use crate::writes::{Place, written};
use example_types::{AudioFormat, Curve, put_curve, put_format};
use libspa::pod::serialize::GenError;
use libspa::utils::{Float32, Id};
use std::alloc::{AllocError, Global};
use std::test::Fail;

/// A curve: `up`, -2, the id 7 and three points.
fn curve(alloc: Global) -> Result<Curve, AllocError> {
    Ok(Curve {
        name: String::from_str(alloc, "up")?,
        order: -2,
        channel: Id(7),
        points: vec![in alloc; Float32(1138491392), Float32(0), Float32(1065353216)]?,
    })
}

/// A format with that curve, with as many channels.
fn format(alloc: Global, channels: Option<i32>) -> Result<AudioFormat, AllocError> {
    Ok(AudioFormat {
        encoding: Id(259),
        rate: 48000,
        channels,
        positions: vec![in alloc; Id(3), Id(4)]?,
        curve: curve(alloc)?,
    })
}

/// What is written of a pod of one of these types.
pub(crate) fn declared_written(
    alloc: Global,
    place: Place,
    name: &str,
) -> Result<String, AllocError> {
    match name {
        "latency" => written(alloc, place, &LATENCY),
        "curve" => written(alloc, place, &curve(alloc)?),
        "format" => written(alloc, place, &format(alloc, Some(2))?),
        "format without channels" => written(alloc, place, &format(alloc, None)?),
        _ => String::from_str(alloc, " no such pod"),
    }
}

/// What an output in which there is room behind so many bytes, and no more, answers at `len`.
fn answer_behind(len: usize) -> Option<GenError> {
    if len <= 8 {
        return None;
    }
    Some(GenError::Full)
}

/// The first length behind which a curve isn't answered so, in an output of 96 bytes.
fn misplaced_curve(curve: &Curve) -> Option<usize> {
    for len in 0..=96 {
        if put_curve(filled::<96>(len), curve).err() != answer_behind(len) {
            return Some(len);
        }
    }
    None
}

/// The first length behind which a format isn't answered so, in an output of 224 bytes.
fn misplaced_format(format: &AudioFormat) -> Option<usize> {
    for len in 0..=224 {
        if put_format(filled::<224>(len), format).err() != answer_behind(len) {
            return Some(len);
        }
    }
    None
}

#[test]
fn declared_types_are_written_where_they_fit(rt: HostRuntime) -> Result<(), AllocError> {
    let curve = curve(rt.alloc())?;
    assert_holds(&rt, misplaced_curve(&curve).is_none(), "a curve");
    let format = format(rt.alloc(), Some(2))?;
    assert_holds(&rt, misplaced_format(&format).is_none(), "a format");
    Ok(())
}

#[test]
fn a_text_with_nul_is_refused(rt: HostRuntime) -> Result<(), Fail> {
    let alloc = rt.alloc();
    let mut other = curve(alloc)?;
    other.name = String::from_str(alloc, "u\0")?;
    let refused = put_curve(filled::<96>(0), &other).err();
    assert_holds(&rt, refused == Some(GenError::NulInText), "a name with NUL");
    Ok(())
}
