//! What types of a program's own are read as.
use crate::compare::assert_holds;
use crate::reading::answers::refused;
use example_types::{Capture, Gain, Mode, Size, read_mode, sent, with_volume};
use libspa::pod::deserialize::PodDeserializer;
use libspa::utils::Float32;
use std::alloc::{AllocError, Global};
use std::test::Fail;
use test_bytes::push_spelling;

/// Types that are declared by what they are made of. Structs, objects whose second property has flags or whose properties stand in another order,
/// one of them before a second one under its key and one among them that isn't known; and what is refused: a struct whose end is missing, members of
/// another type, one too few, one too many, members that cross the end, another object, another id, properties that are missing. `mode sent`: it is
/// also put into an output and read of that.
pub(crate) const DECLARED: &str =
    r#"mode | 56 14 32 14 4 4 640 0 4 4 4294966816 0 8 5 4294967236 4294967295 | 0 left
song | 56 14 4 4 313 0 4 8 7303014 0 16 14 8 10 31 14 | 0 left
tagged | 32 14 4 3 9 0 4 4 313 0 | 0 left
named device | 56 15 5 3 1 0 5 8 809138024 0 2 1 4 6 1138491392 0 | 0 left, written 56 15 5 3 1 0 5 8 809138024 0 2 0 4 6 1138491392 0
mode on a screen | 80 15 5 3 1 0 56 14 32 14 4 4 640 0 4 4 4294966816 0 8 5 4294967236 4294967295 | 0 left
mode sent | 56 14 32 14 4 4 640 0 4 4 4294966816 0 8 5 4294967236 4294967295 | 640 -480 -60, 0 left, sent 640 -480 -60
mode | 56 14 32 14 | Short
song | 32 14 4 3 9 0 4 4 313 0 | Tag
song | 32 14 4 4 313 0 4 8 7303014 0 | PropertyMissing
song | 64 14 4 4 313 0 4 8 7303014 0 16 14 8 10 31 14 0 1 | UnreadMembers
song | 48 14 4 4 313 0 4 8 7303014 0 16 14 8 10 31 14 | Short
curve | 80 14 3 8 28789 0 4 4 4294967294 0 4 3 7 0 20 13 4 6 1138491392 0 1065353216 0 | 0 left
curve | 16 14 3 8 28789 0 | PropertyMissing
curve | 96 14 3 8 28789 0 4 4 1 0 4 3 7 0 20 13 4 6 1 2 3 0 4 4 1 0 | UnreadMembers
curve | 80 14 3 8 28789 0 4 4 1 0 4 4 7 0 20 13 4 6 1 2 3 0 | Tag
format | 208 15 262147 4 65537 0 4 3 259 0 65539 0 4 4 48000 0 65540 0 4 4 2 0 65541 0 16 13 4 3 3 4 65550 0 80 14 3 8 28789 0 4 4 4294967294 0 4 3 7 0 20 13 4 6 1138491392 0 1065353216 0 | 0 left
format | 184 15 262147 4 65537 0 4 3 259 0 65539 0 4 4 48000 0 65541 0 16 13 4 3 3 4 65550 0 80 14 3 8 28789 0 4 4 4294967294 0 4 3 7 0 20 13 4 6 1138491392 0 1065353216 0 | 0 left
format | 248 15 262147 4 65550 0 80 14 3 8 28789 0 4 4 4294967294 0 4 3 7 0 20 13 4 6 1138491392 0 1065353216 0 65540 0 4 4 2 0 9 0 0 1 65541 0 16 13 4 3 3 4 65539 0 4 4 48000 0 65539 0 4 4 1 0 65537 0 4 3 259 0 | 0 left, written 208 15 262147 4 65537 0 4 3 259 0 65539 0 4 4 48000 0 65540 0 4 4 2 0 65541 0 16 13 4 3 3 4 65550 0 80 14 3 8 28789 0 4 4 4294967294 0 4 3 7 0 20 13 4 6 1138491392 0 1065353216 0
format | 8 15 262147 3 | UnsupportedType
format | 8 15 262146 4 | UnsupportedType
format | 32 15 262147 4 65537 0 4 3 259 0 | PropertyMissing"#;

/// Reads that aren't tried on pods that are cut. Pods with something behind them: half of a number, another latency. Then properties of an audio
/// device with a volume of a tenth, as PipeWire's C builder made them, and one before it, whose volume becomes 1; and those of another object,
/// which has none.
pub(crate) const UNCUT: &str = "level | 4 4 4294967289 0 4 4 | 8 left
int | 4 4 4294967289 0 4 4 | -7
named device | 4 4 4294967289 0 4 4 | Tag
latency | 80 15 262156 16 1 0 4 6 1065353216 0 2 0 4 4 256 0 3 0 8 5 5 0 80 15 262156 16 1 0 4 6 1065353216 0 2 0 4 4 256 0 3 0 8 5 5 0 | 1065353216 256 5, 88 left
louder | 104 15 262146 2 65537 7 4 3 2 0 65539 0 4 6 1036831949 0 65540 0 4 2 1 0 65539 0 4 6 1063675494 0 | now 104 15 262146 2 65537 7 4 3 2 0 65539 0 4 6 1065353216 0 65540 0 4 2 1 0 65539 0 4 6 1063675494 0
louder | 56 15 5 3 1 0 5 8 809138024 0 2 1 4 6 1138491392 0 | no volume";

/// What is read of a mode, how many bytes follow it, and what comes back where it is sent.
pub(crate) fn mode_said(alloc: Global, input: &[u8]) -> Result<String, AllocError> {
    match read_mode(alloc, input) {
        Ok((rest, mode)) => {
            let mut text = String::new(alloc);
            push_mode(&mut text, &mode)?;
            write!(text, ", {} left, sent ", rest.len())?;
            let back = sent(alloc, &mode);
            push_mode(&mut text, &back)?;
            Ok(text)
        }
        Err(error) => refused(alloc, error),
    }
}

fn push_mode(text: &mut String, mode: &Mode) -> Result<(), AllocError> {
    let Size { width, height } = mode.size;
    write!(text, "{width} {height} {}", mode.rate)
}

/// The words of the object at the front with a volume of 1, where it has a volume.
pub(crate) fn louder_said(alloc: Global, input: &[u8]) -> Result<String, AllocError> {
    match with_volume(alloc, input, Float32(1065353216))? {
        Some(bytes) => {
            let mut text = String::from_str(alloc, "now")?;
            push_spelling(&mut text, bytes.as_slice())?;
            Ok(text)
        }
        None => String::from_str(alloc, "no volume"),
    }
}

/// A capture of 640 by 480 pixels without a rate.
const CAPTURE: &[u8] = &[
    16, 0, 0, 0, 14, 0, 0, 0, 8, 0, 0, 0, 10, 0, 0, 0, 128, 2, 0, 0, 224, 1, 0, 0,
];

/// A gain of 1, whose property has a flag.
const GAIN: &[u8] = &[
    32, 0, 0, 0, 15, 0, 0, 0, 2, 0, 4, 0, 2, 0, 0, 0, 3, 0, 1, 0, 16, 0, 0, 0, 4, 0, 0, 0, 6, 0, 0,
    0, 0, 0, 128, 63, 0, 0, 0, 0,
];

/// It passes where each request of memory is refused, since none is made.
#[test]
fn visitors_of_ones_own_ask_for_no_memory(rt: HostRuntime) -> Result<(), Fail> {
    let Ok((_, capture)) = PodDeserializer::deserialize_from::<Capture>(rt.alloc(), CAPTURE) else {
        return Err(Fail::new("no capture"));
    };
    let Ok((_, gain)) = PodDeserializer::deserialize_from::<Gain>(rt.alloc(), GAIN) else {
        return Err(Fail::new("no gain"));
    };
    let is_so = capture.size.width == 640 && capture.rate.is_none();
    assert_holds(&rt, is_so, "a capture");
    let is_so = gain.id == 2 && gain.volume == Float32(1065353216);
    assert_holds(&rt, is_so, "a gain");
    Ok(())
}
