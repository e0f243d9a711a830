//! What reads through None choices answer.
use crate::reading::answers::refused;
use example_types::read_stream_format;
use libspa::pod::FixedPod;
use spa_fixed_sized::DeserializeError;
use spa_typed_read::{PodDeserializer, Settled};
use std::alloc::{AllocError, Global};
use std::fmt::Debug;

/// What the settled read of a type answers: the text of its value, or the refusal's name.
pub(crate) fn settled_said<'de, T: FixedPod + Debug>(
    alloc: Global,
    input: &'de [u8],
) -> Result<String, AllocError> {
    let read: Result<(&'de [u8], Settled<T>), DeserializeError<&'de [u8]>> =
        PodDeserializer::deserialize_from(alloc, input);
    match read {
        Ok((_, value)) => format!(in alloc; "{:?}", value.0),
        Err(error) => refused(alloc, error),
    }
}

/// What the read of a stream's format answers: its encoding, rate and channels, or the refusal's name.
pub(crate) fn stream_said(alloc: Global, input: &[u8]) -> Result<String, AllocError> {
    match read_stream_format(alloc, input) {
        Ok((_, it)) => format!(in alloc; "{} {} {}", it.encoding.0, it.rate, it.channels),
        Err(error) => refused(alloc, error),
    }
}

/// Values, None choices and others of one type; then formats: one as PipeWire's fixation leaves examples/audio-format.pod, with the id of a
/// format in use, one of plain values, and some that are none.
pub(crate) const SETTLED: &str = r#"settled int | 4 4 44100 0 | 44100
settled int | 28 19 0 0 4 4 44100 1 2147483647 0 | 44100
settled int | 20 19 0 5 4 4 4294967295 9 | -1
settled id | 36 19 0 0 4 3 259 259 267 283 285 0 | Id(259)
settled rectangle | 24 19 0 0 8 10 640 480 | Rectangle { width: 640, height: 480 }
settled int | 28 19 1 0 4 4 44100 1 2147483647 0 | UnsupportedType
settled int | 20 19 3 0 4 4 7 0 | UnsupportedType
settled int | 20 19 0 0 4 3 7 0 | UnsupportedType
settled int | 20 19 0 0 8 4 7 0 | WrongSize
settled int | 24 19 0 0 8 4 7 0 | WrongSize
settled int | 16 19 0 0 4 4 | MissingChoiceValues
settled int | 20 19 5 0 4 4 7 0 | InvalidChoiceType
settled int | 20 19 0 0 4 8 7 0 | InvalidType
settled int | 24 19 0 0 2 8 97 0 | InvalidType
settled int | 8 19 0 0 | WrongSize
settled int | 4 3 7 0 | Tag
settled int | 8 4 7 0 | WrongSize
settled int | 20 19 0 0 4 4 | Short
stream | 208 15 262147 4 1 0 4 3 1 0 2 0 4 3 1 0 65537 0 36 19 0 0 4 3 259 259 267 283 285 0 65539 0 28 19 0 0 4 4 44100 1 2147483647 0 65540 0 28 19 0 0 4 4 2 1 2147483647 0 | 259 44100 2
stream | 80 15 262147 4 65540 0 4 4 6 0 65539 0 4 4 48000 0 65537 0 4 3 518 0 | 518 48000 6
stream | 104 15 262147 4 65540 0 4 4 6 0 65539 0 28 19 1 0 4 4 44100 1 2147483647 0 65537 0 4 3 518 0 | UnsupportedType
stream | 56 15 262147 4 65539 0 4 4 48000 0 65537 0 4 3 518 0 | PropertyMissing
stream | 80 15 262147 3 65540 0 4 4 6 0 65539 0 4 4 48000 0 65537 0 4 3 518 0 | UnsupportedType
stream | 80 15 262147 4 65540 0 4 4 6 0 65539 0 4 3 48000 0 65537 0 4 3 518 0 | Tag"#;
