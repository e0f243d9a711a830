//! Where the program's answer goes.
ghost use Rattle.std.specs.Prelude.{ℕ, IfErr, OnErr, OnOk, take, ◌≡◌};
ghost use Rattle.std.specs.Io.KnownBytes.{Appends, Keeps};
ghost use Rattle.spa_pod_commands.specs.Answers.{Answers};

use crate::answer::{Answer, Failure};
use std::io::{ErrorKind, Write};

/// Writes these bytes; a write that is interrupted is made again. Where one fails, the device has taken a beginning of them.
#[tactic(auto, using(crate::proofs::Running::begun_first, crate::proofs::Running::begun_more, crate::proofs::Running::begun_kept, crate::proofs::Running::begun_all, crate::proofs::Running::begun_part, crate::proofs::Running::begun_failed, crate::proofs::Running::begun_stopped))]
pub fn write<W: Write>(device: &mut W, bytes: &[u8]) -> Result<(), Failure>
    ensures taken { OnOk result (Appends (W.contents device.old) (W.contents device.new) bytes.now) }
    ensures begun { OnErr result ((n : ℕ)
        × Appends (W.contents device.old) (W.contents device.new) (take n bytes.now)) }
    ensures cause { IfErr result (λ failure. failure ≡ Failure.WriteFailed) }
{
    let mut left = bytes;
    // Far more often than a write is interrupted or takes a part.
    for _ in 0..u64::MAX {
        if left.is_empty() {
            return Ok(());
        }
        match device.write(left) {
            Ok(0) => return Err(Failure::WriteFailed),
            Ok(count) => left = left.split_at(count).1,
            Err(error) if error.kind() == ErrorKind::Interrupted => {}
            Err(_) => return Err(Failure::WriteFailed),
        }
    }
    Err(Failure::WriteFailed)
}

/// The answer; where the work is done, the device is flushed, and then has all that was written.
pub(crate) fn answered<W: Write>(done: Result<(), Failure>, device: &mut W) -> Answer
    ensures kept { Keeps (W.contents device.old) (W.contents device.new) }
    ensures answer { Answers done result }
{
    if let Err(why) = done {
        return Answer::Refused(why);
    }
    match device.flush() {
        Ok(()) => Answer::Done,
        Err(_) => Answer::Refused(Failure::WriteFailed),
    }
}
