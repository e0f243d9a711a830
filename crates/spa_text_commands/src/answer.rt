//! Why pods or texts aren't read, and what is said of it.
use spa_text::{AtPath, InPlace, Misfit};
use std::alloc::AllocError;
use std::fmt;

/// Why pods or texts are refused.
#[derive(Debug, Drop)]
pub enum Failure {
    /// An input, or one of two, isn't pods one after another.
    NoPods,
    /// The line up to which was read and the byte of it, both from 1, the name of a refusal and what it says, the path of the value that
    /// was being read there, as `.props.rate`, or nothing, and the two types where the value isn't of the type that belongs under its key.
    Line {
        line: usize,
        column: usize,
        kind: &'static str,
        words: &'static str,
        path: String,
        misfit: Option<Misfit>,
    },
    /// A growth was refused.
    OutOfMemory,
    /// The answer couldn't be written.
    WriteFailed,
}

impl fmt::Display for Failure {
    ghost use Rattle.std.specs.Prelude.{Some};
    ghost use Rattle.spa_text_commands.specs.Answers.{failure_text};

    ghost output = { λ failure. Some (failure_text failure) };

    fn fmt<W: fmt::Write>(&self, f: &mut fmt::Formatter<W>) -> fmt::Result {
        match self {
            Failure::NoPods => write!(f, "no pods"),
            Failure::Line {
                line,
                column,
                kind,
                words,
                path,
                misfit,
            } => write!(
                f,
                "line {line}, column {column}{}: {words}{} ({kind})",
                AtPath(path.as_str()),
                InPlace(*misfit)
            ),
            Failure::OutOfMemory => write!(f, "out of memory"),
            Failure::WriteFailed => write!(f, "write failed"),
        }
    }
}

impl From<AllocError> for Failure {
    ghost use Rattle.spa_text_commands.specs.declared.answer.Failure.TheVariants.{OutOfMemory};
    ghost use Rattle.std.specs.Prelude.{◌≡◌};

    ghost from_gives = { λ _ e. e ≡ OutOfMemory };

    fn from(_refused: AllocError) -> Failure {
        Failure::OutOfMemory
    }
}
