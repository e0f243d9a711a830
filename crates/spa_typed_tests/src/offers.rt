//! Objects with an enum, and objects with choices, as docs/CALLING.md shows them: by the rules of docs/FORMAT.md.
use crate::compare::{assert_words, put};
use example_types::{camera_formats, viewer_formats};
use libspa::pod::{Held, Value};
use std::alloc::Global;
use std::test::Fail;

/// Profiles: their number, and the id of whether they can be used.
pub(crate) const PROFILES: &str = "profile | 32 15 262151 9 1 0 4 4 3 0 | 3
profile | 56 15 262151 9 1 0 4 4 0 0 5 0 4 3 0 0 | 0 0
profile | 56 15 262151 9 1 0 4 4 3 0 5 0 4 3 1 0 | 3 1
profile | 56 15 262151 9 1 0 4 4 3 0 5 0 4 3 2 0 | 3 2
profile | 56 15 262151 9 1 0 4 4 3 0 5 0 4 3 7 0 | 3 7";

/// The words of the camera's formats and of the viewer's.
const CAMERA: &str =
    "184 15 262147 3 1 0 4 3 2 0 2 0 4 3 1 0 131073 0 28 19 3 0 4 3 4 4 2 0 131075 0 40 19 1 0 8 10 640 480 160 120 1920 1080 131076 0 8 11 30 1";

const VIEWER: &str =
    "136 15 262147 3 1 0 4 3 2 0 2 0 4 3 1 0 131075 0 8 10 1280 720 131076 0 40 19 1 0 8 11 25 1 1 1 60 1";

/// The encoding of the viewer's formats.
fn viewed(alloc: Global) -> Result<Vec<u8>, Fail> {
    let value = Held::from(Value::Object(viewer_formats(alloc)?));
    Ok(put(Vec::new(alloc), &*value)?)
}

#[test]
fn objects_have_choices(rt: HostRuntime) -> Result<(), Fail> {
    let ours = camera_formats(Vec::new(rt.alloc()))?;
    assert_words(&rt, rt.alloc(), ours.as_slice(), CAMERA)?;
    let theirs = viewed(rt.alloc())?;
    assert_words(&rt, rt.alloc(), theirs.as_slice(), VIEWER)
}
