//! A video format, which a builder makes and a parser reads.
ghost use Rattle.std.specs.Prelude.{◌≡◌, IfErr, IfOk, IsOk, IsOkAnd, MatchResult, OnOk};
ghost use Rattle.libspa.specs.Encoding.{encoding_of};
ghost use Rattle.libspa.specs.Front.{Begins};
ghost use Rattle.libspa.specs.Typed.{IsTyped};
ghost use Rattle.libspa.specs.BuilderState.{start};
ghost use Rattle.libspa.specs.BuilderFields.{IsAt};
ghost use Rattle.libspa.specs.ParserSteps.{NextIs};
ghost use Rattle.libspa.specs.BuilderMaking.{state_of_value};
ghost use Rattle.example_calls.specs.Video.{video_tree};
ghost use Rattle.example_calls.specs.declared.video.VideoFormat.{VideoFormat};

use libspa::pod::builder::laws::{
    calls_go_on, objects_of_numbers_can_be_written, values_are_made_call_by_call,
};
use libspa::pod::builder::{Builder, builder_add};
use libspa::pod::laws::encodings_read_back;
use libspa::pod::parser::{Parser, parser_get};
use libspa::utils::{Errno, Fraction, Id, Rectangle};
use spa_names::{ids, keys, types};
use std::alloc::Global;

/// A video format: a size and a rate, under the number of how pixels are laid out.
#[derive(Clone, Copy, Debug, PartialEq)]
pub struct VideoFormat {
    /// How pixels are laid out.
    pub layout: Id,
    /// How large a picture is.
    pub size: Rectangle,
    /// How many there are in a second.
    pub rate: Fraction,
}

/// Adds the format's object.
fn add_format(builder: &mut Builder, format: &VideoFormat) -> Result<(), Errno>
    requires { IsAt builder.old start }
    ensures made { OnOk result (IsAt builder.new (state_of_value (video_tree format.now))) }
    ensures memory { IfErr result (λ e. e ≡ Errno.NOMEM) }
{
    values_are_made_call_by_call();
    objects_of_numbers_can_be_written();
    calls_go_on();
    builder_add!(builder, Object(types::OBJECT_FORMAT, ids::PARAM_FORMAT) {
        keys::FORMAT_VIDEO_FORMAT => Id(format.layout),
        keys::FORMAT_VIDEO_SIZE => Rectangle(format.size),
        keys::FORMAT_VIDEO_FRAMERATE => Fraction(format.rate),
    })
}

/// The encoding of the format's object, in this vector, which is emptied. It is refused for want of memory alone.
pub fn format_pod(bytes: Vec<u8>, format: &VideoFormat) -> Result<Vec<u8>, Errno>
    ensures made { IfOk result (λ made. made.items ≡ encoding_of (video_tree format.now)) }
    ensures memory { IfErr result (λ e. e ≡ Errno.NOMEM) }
{
    let mut builder = Builder::new(bytes);
    add_format(&mut builder, format)?;
    builder.finish()
}

/// Takes the format's object.
fn take_format(parser: &mut Parser<'_>, format: &mut VideoFormat) -> Result<(), Errno>
    ensures { (f : VideoFormat) → NextIs (video_tree f) parser.old → IsOk result × (format.new ≡ f) }
{
    let mut id = Id(0);
    parser_get!(&mut *parser, Object(types::OBJECT_FORMAT, &mut id) {
        keys::FORMAT_VIDEO_FORMAT => Id(&mut format.layout),
        keys::FORMAT_VIDEO_SIZE => Rectangle(&mut format.size),
        keys::FORMAT_VIDEO_FRAMERATE => Fraction(&mut format.rate),
    })
}

/// The format whose object is at the front of the input.
pub fn read_format(alloc: Global, input: &[u8]) -> Result<VideoFormat, Errno>
    ensures { (f : VideoFormat) → Begins input.now (video_tree f) → IsOkAnd result (λ read. read ≡ f) }
{
    let mut format = VideoFormat {
        layout: Id(0),
        size: Rectangle {
            width: 0,
            height: 0,
        },
        rate: Fraction { num: 0, denom: 1 },
    };
    take_format(&mut Parser::new(alloc, input), &mut format)?;
    Ok(format)
}

/// A format's numbers are within their types.
fn are_within(format: VideoFormat)
    ensures { IsTyped (video_tree format) }
{
    let _read = format;
}

/// Makes the format, and reads what was made: it is the same, unless memory is wanting.
pub fn sent(alloc: Global, format: &VideoFormat) -> Result<VideoFormat, Errno>
    ensures { MatchResult result (λ read. read ≡ format.now) (λ e. e ≡ Errno.NOMEM) }
{
    encodings_read_back();
    objects_of_numbers_can_be_written();
    are_within(*format);
    let bytes = format_pod(Vec::new(alloc), format)?;
    read_format(alloc, bytes.as_slice())
}
