//! A format that `builder_add!` makes.
use crate::bytes::{are_words, assert_holds};
use crate::shown::by_calls::format_pod;
use spa_utils::Errno;
use std::alloc::{AllocError, Global};

mod by_calls {
    use spa_builder::{Builder, builder_add};
    use spa_names::{ids, keys, types};
    use spa_utils::{Errno, Fraction, Id, Rectangle};

    /// A video format in the vector.
    pub fn format_pod(bytes: Vec<u8>) -> Result<Vec<u8>, Errno> {
        let size = Rectangle {
            width: 320,
            height: 240,
        };
        let rate = Fraction { num: 25, denom: 1 };
        let mut builder = Builder::new(bytes);
        builder_add!(builder, Object(types::OBJECT_FORMAT, ids::PARAM_FORMAT) {
            keys::FORMAT_MEDIA_TYPE => Id(Id(ids::MEDIA_TYPE_VIDEO)),
            keys::FORMAT_MEDIA_SUBTYPE => Id(Id(ids::MEDIA_SUBTYPE_RAW)),
            keys::FORMAT_VIDEO_SIZE => Rectangle(size),
            keys::FORMAT_VIDEO_FRAMERATE => Fraction(rate),
        })?;
        Ok(builder.into_inner())
    }
}

/// The words of the format, by the rules of the format of pods.
const FORMAT: &[u32] = &[
    104, 15, 262147, 4, 1, 0, 4, 3, 2, 0, 2, 0, 4, 3, 1, 0, 131075, 0, 8, 10, 320, 240, 131076, 0,
    8, 11, 25, 1,
];

/// Whether the calls make these words.
fn is_built(alloc: Global) -> Result<bool, AllocError> {
    match format_pod(Vec::new(alloc)) {
        Ok(bytes) => are_words(alloc, bytes.as_slice(), FORMAT),
        Err(Errno::NOMEM) => Err(AllocError),
        Err(_) => Ok(false),
    }
}

#[test]
fn a_format_is_made(rt: HostRuntime) -> Result<(), AllocError> {
    let built = is_built(rt.alloc())?;
    assert_holds(&rt, built, "the format by calls");
    Ok(())
}
