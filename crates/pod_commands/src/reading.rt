//! The pods as which inputs are read.
ghost use Rattle.std.specs.Prelude.{IfErr, IfOk};
ghost use Rattle.pod_commands.specs.Answers.{IsOneUnread};
ghost use Rattle.pod_commands.specs.Inputs.{IsKnown, IsRead, content_of, left_behind};
ghost use Rattle.pod_commands.specs.Making.{AreNoPods};
ghost use Rattle.spa_recordings.specs.Reading.{ReadsAs};
ghost use Rattle.spa_recordings.specs.declared.reading.Reading.TheVariants.{Lenient};

use crate::answer::Failure;
use crate::files::{Files, Inputs, read_named};
use crate::refusing::refused;
use spa_lenient::rewrite_all_leniently;
use spa_recordings::reading::Reading;
use std::alloc::Global;
use std::io::Read;

/// The pods as which the input of this name is read so.
pub(crate) fn read_pods<'a, R: Read, S: Files>(
    alloc: Global,
    reading: Reading,
    name: &'a str,
    inputs: Inputs<'_, R, S>,
) -> Result<Vec<u8>, Failure<'a>>
    ensures read { IfOk result (λ pods. IsRead reading
        (content_of (R.remaining inputs.entry.input.now) (S.holds inputs.entry.files.now) name.entry.now) pods.items) }
    ensures left { IsKnown (left_behind (R.remaining inputs.entry.input.now) name.entry.now) (R.remaining inputs.exit.0.now) }
    ensures refused { IfErr result
        (IsOneUnread reading (R.remaining inputs.entry.input.now) (S.holds inputs.entry.files.now) name.entry.now) }
{
    let bytes = match read_named(alloc, name, inputs) {
        Ok(bytes) => bytes,
        Err(why) => return Err(why),
    };
    match reading {
        Reading::Exact => Ok(bytes),
        Reading::Lenient => match read_leniently(alloc, name, bytes.as_slice()) {
            Ok(pods) => Ok(pods),
            Err(why) => Err(why),
        },
    }
}

/// The encodings of the values that these bytes convey, which are those of the input of this name.
pub(crate) fn read_leniently<'a>(
    alloc: Global,
    name: &'a str,
    bytes: &[u8],
) -> Result<Vec<u8>, Failure<'a>>
    ensures read { IfOk result (λ pods. ReadsAs Lenient bytes.now pods.items) }
    ensures refused { IfErr result (AreNoPods Lenient name.entry.now bytes.now) }
{
    let mut pods = Vec::new(alloc);
    match rewrite_all_leniently(bytes, &mut pods) {
        Ok(()) => Ok(pods),
        Err(_) => Err(refused(alloc, Reading::Lenient, name, bytes)),
    }
}
