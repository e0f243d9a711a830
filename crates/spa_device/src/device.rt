//! A sink over any writer.
ghost use Rattle.std.specs.Prelude.{◌≡◌, ◌+◌, ℕ, List, OnErr, OnOk, Option, IfErr, length, take};
ghost use Rattle.spa_sink.specs.declared.gen_error.GenError.TheVariants.{Failed, Io, NulInText, TooLarge};
ghost use Rattle.spa_device.specs.Counting.{Attempted, Handed, RefusesBytes, Took};
ghost use Rattle.spa_device.specs.CountingLaws.{no_other, refuses_after, refuses_longer, took_more};

use spa_sink::{GenError, PodSink};
use std::io::Write;
use std::marker::Model;

/// A sink over a device: a file, a pipe, a terminal, or anything else that is `Write`.
///
/// It counts the bytes that the device took, and the writes that failed: those that answered an error, an interruption
/// among them, or took no byte. A write that fails isn't tried again.
#[derive(Drop)]
pub struct IoSink<W: Write + Drop> {
    device: W,
    written: u64,
    failures: u64,
}

impl<W: Write + Drop> Model for IoSink<W> {
    ghost use Rattle.spa_device.specs.Counting.{Counted};

    ghost Value = { Counted W };

    ghost view = { λ it. record { device = it.device; written = it.written; failures = it.failures } };
}

impl<W: Write + Drop> IoSink<W> {
    /// A sink over this device. Both counts begin at 0.
    pub fn new(device: W) -> IoSink<W>
        ensures device { result.device ≡ device }
        ensures counts { (result.written ≡ 0) × (result.failures ≡ 0) }
    {
        IoSink {
            device,
            written: 0,
            failures: 0,
        }
    }

    /// The device.
    pub fn into_inner(self) -> W
        ensures { result ≡ self.device }
    {
        self.device
    }

    /// How many bytes the device took.
    pub fn written(&self) -> u64
        ensures { result ≡ self.now.written }
    {
        self.written
    }

    /// How many writes failed.
    pub fn failures(&self) -> u64
        ensures { result ≡ self.now.failures }
    {
        self.failures
    }
}

/// A device that is written to by one attempt after another.
trait Attempts {
    /// The bytes that the device has, where they are known.
    ghost holds: { Self → Option (List ℕ) };

    /// The device before, handed these bytes, took this many of them, or failed where the number is None, and is the device after.
    ghost attempts: { Self → List ℕ → Option ℕ → Self → Type 0 };

    /// One write: answers how many bytes the device took. None: it failed.
    fn attempt(&mut self, bytes: &[u8]) -> Option<usize>
        ensures { attempts self.old bytes.now result self.new };

    ghost known: { (a b : Self) (bytes : List ℕ) (taken : Option ℕ) → attempts a bytes taken b → Attempted (holds a) (holds b) bytes taken };
}

impl<W: Write> Attempts for W {
    ghost holds = { λ it. W.contents it };

    ghost attempts = { λ a bytes taken b. Attempted (W.contents a) (W.contents b) bytes taken };

    ghost known = { λ a b bytes taken h. h };

    #[tactic(auto, using(crate::specs::CountingLaws::nothing_kept))]
    fn attempt(&mut self, bytes: &[u8]) -> Option<usize> {
        match self.write(bytes) {
            Ok(0) => None,
            Ok(count) => Some(count),
            Err(_) => None,
        }
    }
}

/// Hands the bytes to the device by one write after another, until all are taken or a write fails, which isn't tried again. Answers
/// how many bytes were taken, and whether a write failed.
fn hand_over<D: Attempts>(device: &mut D, bytes: &[u8]) -> (usize, bool)
    ensures { Handed D.attempts device.new result.1 result.0 device.old bytes.now }
{
    let mut left = bytes;
    let mut done = 0;
    while !left.is_empty() {
        let Some(count) = device.attempt(left) else {
            return (done, true);
        };
        let (_, behind) = left.split_at(count);
        left = behind;
        done += count;
    }
    (done, false)
}

impl<W: Write + Drop> PodSink for IoSink<W> {
    ghost appends = { Took W.contents };

    ghost refuses = { RefusesBytes };

    ghost appends_more = { λ a b c xs ys p q. took_more xs ys p q };

    ghost refuses_longer = { λ a b m n e h r. refuses_longer a b m n e h r };

    ghost refuses_after = { λ a b c xs n e p r. refuses_after a b c xs n e p r };

    ghost never_nul = { λ a b n r. no_other a b n NulInText r (λ p. Prim.cc (p)) (λ p. Prim.cc (p)) };

    ghost never_large = { λ a b n r. no_other a b n TooLarge r (λ p. Prim.cc (p)) (λ p. Prim.cc (p)) };

    /// Hands the bytes to the device until it has taken them all. Refused as `Io` where a write fails: the device has taken a
    /// beginning of the bytes then. Refused as `Failed`, and nothing is written, where one of the counts would overflow.
    fn append(&mut self, bytes: &[u8]) -> Result<(), GenError>
        ensures ok { OnOk result (Took W.contents self.old bytes.now self.new) }
        ensures begun { OnErr result ((count : ℕ) × Took W.contents self.old (take count bytes.now) self.new) }
        ensures cause { IfErr result (λ e. RefusesBytes self.old (length bytes.now) self.new e) }
        // The count of failures is the same where all bytes are taken, and one more where it is refused as `Io`.
        ensures all { OnOk result (self.new.failures ≡ self.old.failures) }
        ensures one { IfErr result (λ e. e ≡ Io → self.new.failures ≡ self.old.failures + 1) }
        ensures unchanged { IfErr result (λ e. e ≡ Failed → self.new ≡ self.old) }
    {
        if self.failures == u64::MAX || bytes.len() as u64 > u64::MAX - self.written {
            return Err(GenError::Failed);
        }
        let (taken, failed) = hand_over(&mut self.device, bytes);
        self.written += taken as u64;
        if failed {
            self.failures += 1;
            return Err(GenError::Io);
        }
        Ok(())
    }
}
