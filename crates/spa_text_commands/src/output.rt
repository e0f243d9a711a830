//! Where what is made is written to.
ghost use Rattle.std.specs.Prelude.{ℕ, IfErr, OnErr, OnOk, take, ◌≡◌};
ghost use Rattle.std.specs.Io.KnownBytes.{Appends, Keeps};
ghost use Rattle.spa_text_commands.specs.declared.answer.Failure as Failure;

use crate::answer::Failure;
use spa_device::IoSink;
use spa_sink::PodSink;
use std::io::{self, ErrorKind, Write};

/// A device whose interrupted writes are made again.
#[derive(Drop)]
struct Persistent<W> {
    device: W,
}

impl<W: Write> Write for Persistent<W> {
    ghost contents = { λ it. W.contents it.device };

    #[tactic(auto, using(crate::proofs::Saying::keeps_itself, crate::proofs::Saying::keeps_keeps, crate::proofs::Saying::keeps_appends, crate::proofs::Saying::keeps_nothing))]
    fn write(&mut self, bytes: &[u8]) -> io::Result<usize> {
        // Far more often than a write is interrupted.
        for _ in 0..u64::MAX {
            match self.device.write(bytes) {
                Err(error) if error.kind() == ErrorKind::Interrupted => {}
                answer => return answer,
            }
        }
        Ok(0)
    }

    fn flush(&mut self) -> io::Result<()> {
        self.device.flush()
    }
}

/// Writes these bytes, and flushes the device. Where that fails, the device has taken a beginning of them.
#[tactic(auto, using(crate::proofs::Saying::appends_keeps, crate::proofs::Saying::all_begun))]
pub fn write_whole<W: Write + Drop>(device: W, bytes: &[u8]) -> (Result<(), Failure>, W)
    ensures taken { OnOk result.0 (Appends (W.contents device) (W.contents result.1) bytes.now) }
    ensures begun { OnErr result.0 ((n : ℕ) × Appends (W.contents device) (W.contents result.1) (take n bytes.now)) }
    ensures cause { IfErr result.0 (λ failure. failure ≡ Failure.WriteFailed) }
{
    let mut sink = IoSink::new(Persistent { device });
    let is_taken = sink.append(bytes).is_ok();
    let mut device = sink.into_inner().device;
    if !is_taken || device.flush().is_err() {
        return (Err(Failure::WriteFailed), device);
    }
    (Ok(()), device)
}
