//! What docs/CALLING.md shows of the parser, word for word, and what it answers.
use crate::bytes::assert_holds;
use crate::calling::taking_apart::sample_rate;
use std::test::Fail;
use test_bytes::bytes_of;

mod taking_apart {
    use libspa::pod::Pod;
    use libspa::pod::parser::{Parser, parser_get};
    use libspa::utils::{Errno, Id};
    use spa_names::keys;
    use std::alloc::Global;

    /// The sample rate of the format in a message: a struct of the number of a parameter, and the parameter.
    pub fn sample_rate(alloc: Global, message: &[u8]) -> Result<i32, Errno> {
        let mut parameter = Id(0);
        let mut format = Pod::from_bytes(message).ok_or(Errno::PIPE)?;
        let mut parser = Parser::new(alloc, message);
        parser_get!(&mut parser, Struct { Id(&mut parameter), Pod(&mut format) })?;

        let rate = format.as_object()?.get(Id(keys::FORMAT_AUDIO_RATE));
        rate.ok_or(Errno::INVAL)
    }
}

/// A message of parameter 4, the format in use: PipeWire's own C builder made its object, of six channels at 48000 samples
/// a second.
const MESSAGE: &[u32] = &[
    200, 14, 4, 3, 4, 0, 176, 15, 262147, 4, 1, 0, 4, 3, 1, 0, 2, 0, 4, 3, 1, 0, 65537, 0, 4, 3,
    518, 0, 65539, 0, 4, 4, 48000, 0, 65540, 0, 4, 4, 6, 0, 65541, 0, 32, 13, 4, 3, 3, 4, 5, 6, 7,
    8,
];

#[test]
fn a_format_is_taken_apart(rt: HostRuntime) -> Result<(), Fail> {
    let message = bytes_of(rt.alloc(), MESSAGE)?;
    let rate = sample_rate(rt.alloc(), &message)?;
    assert_holds(&rt, rate == 48000, "the sample rate");
    Ok(())
}
