//! An offer of video formats, made call by call.
use libspa::pod::builder::{Builder, builder_add};
use libspa::utils::{Errno, Fraction, Id, Rectangle};
use spa_names::{formats, ids, keys, types};

/// The formats that a camera has, as an object in this vector, which is emptied: two pixel layouts, any size within bounds, 30 pictures a
/// second. The first value of a choice is its default; an Enum has it among its alternatives, too.
pub fn camera_formats(bytes: Vec<u8>) -> Result<Vec<u8>, Errno> {
    let mut builder = Builder::new(bytes);
    builder_add!(builder, Object(types::OBJECT_FORMAT, ids::PARAM_ENUM_FORMAT) {
        keys::FORMAT_MEDIA_TYPE => Id(Id(ids::MEDIA_TYPE_VIDEO)),
        keys::FORMAT_MEDIA_SUBTYPE => Id(Id(ids::MEDIA_SUBTYPE_RAW)),
        keys::FORMAT_VIDEO_FORMAT => Enum {
            Id(Id(formats::VIDEO_FORMAT_YUY2)),
            Id(Id(formats::VIDEO_FORMAT_YUY2)),
            Id(Id(formats::VIDEO_FORMAT_I420)),
        },
        keys::FORMAT_VIDEO_SIZE => Range {
            Rectangle(Rectangle { width: 640, height: 480 }),
            Rectangle(Rectangle { width: 160, height: 120 }),
            Rectangle(Rectangle { width: 1920, height: 1080 }),
        },
        keys::FORMAT_VIDEO_FRAMERATE => Fraction(Fraction { num: 30, denom: 1 }),
    })?;
    builder.finish()
}
