//! The outcome of a run: its status, and its line on the standard error.
ghost use Rattle.std.specs.Prelude.{◌≡◌, ◌++◌, ℕ, OnErr, OnOk, take};
ghost use Rattle.std.specs.Io.KnownBytes.{Appends};
ghost use Rattle.spa_pod_commands.specs.Answers.{line_of, status_of};

use crate::output::write;
use arrayvec::ArrayVec;
use spa_device::ReadError;
use std::fmt;
use std::io::{self, Write};

/// The outcome of a run.
#[derive(Debug, Drop)]
pub enum Answer {
    /// The work was done.
    Done,
    /// It was refused, for this reason.
    Refused(Failure),
    /// The words are none of the program's.
    Misused,
}

impl Answer {
    /// The program's status: 0 where the work was done, 1 where it was refused, 2 where the words are none of the program's.
    pub fn status(&self) -> u8
        ensures { result ≡ status_of self.now }
    {
        match self {
            Answer::Done => 0,
            Answer::Refused(_) => 1,
            Answer::Misused => 2,
        }
    }
}

/// Why a run was refused.
#[derive(Debug, Drop)]
pub enum Failure {
    /// The name of a refusal, and the byte of the input where the refused top-level pod begins.
    Pod { place: usize, kind: &'static str },
    /// A growth was refused.
    OutOfMemory,
    /// The standard input couldn't be read.
    ReadFailed,
    /// The answer couldn't be written.
    WriteFailed,
}

impl fmt::Display for Failure {
    ghost use Rattle.std.specs.Prelude.{Some};
    ghost use Rattle.spa_pod_commands.specs.Answers.{failure_text};

    ghost output = { λ failure. Some (failure_text failure) };

    fn fmt<W: fmt::Write>(&self, f: &mut fmt::Formatter<W>) -> fmt::Result {
        match self {
            Failure::Pod { place, kind } => write!(f, "byte {place}: {kind}"),
            Failure::OutOfMemory => write!(f, "out of memory"),
            Failure::ReadFailed => write!(f, "read failed"),
            Failure::WriteFailed => write!(f, "write failed"),
        }
    }
}

impl From<ReadError> for Failure {
    ghost use Rattle.std.specs.Prelude.{◌≡◌, ◌⊎◌};
    ghost use Rattle.spa_pod_commands.specs.declared.answer.Failure.TheVariants.{OutOfMemory, ReadFailed};

    ghost from_gives = { λ _ failure. (failure ≡ OutOfMemory) ⊎ (failure ≡ ReadFailed) };

    fn from(error: ReadError) -> Failure {
        match error {
            ReadError::OutOfMemory => Failure::OutOfMemory,
            ReadError::Failed => Failure::ReadFailed,
        }
    }
}

/// Room for the longest line: of a pod at a byte of 20 digits, refused for `MissingChoiceValues`.
const LINE_LIMIT: usize = 64;

/// Writes the line of this answer, of work that was done nothing.
#[tactic(auto, using(crate::proofs::Running::begins_nothing))]
pub fn report<E: Write>(faults: &mut E, answer: &Answer) -> Result<(), Failure>
    ensures written { OnOk result (Appends (E.contents faults.old) (E.contents faults.new) (line_of answer.now)) }
    ensures begun { OnErr result ((n : ℕ)
        × Appends (E.contents faults.old) (E.contents faults.new) (take n (line_of answer.now))) }
{
    let mut line = ArrayVec::new();
    if add_line(&mut line, answer).is_err() {
        return Err(Failure::WriteFailed);
    }
    write(faults, line.as_slice())
}

/// Adds the line of this answer.
fn add_line(line: &mut ArrayVec<u8, LINE_LIMIT>, answer: &Answer) -> io::Result<()>
    ensures { OnOk result (line.new.items ≡ line.old.items ++ line_of answer.now) }
{
    match answer {
        Answer::Done => Ok(()),
        Answer::Refused(why) => writeln!(line, "podtool: {why}"),
        Answer::Misused => writeln!(line, "usage: podtool rewrite|fixate|show"),
    }
}
