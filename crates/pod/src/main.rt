//! `pod WORD [-o FILE] [FILE ..]`: pods are shown, printed as JSON, read from it, rewritten, fixated, checked, compared, or sought to agree.
#![tactic(auto)]

use pod_commands::answer::{Answer, Failure, report};
use pod_commands::files::SystemFiles;
use pod_commands::run::{Start, run};
use pod_commands::screen::Screen;
use spa_meet_commands::progress::Progress;
use std::alloc::AllocError;
use std::env;
use std::io::{self, ErrorKind, IsTerminal, Write};
use std::process::ExitCode;
use std::time::Instant;

/// Hands the words behind the program's name, the standard streams and the system's files to `run`, writes the line of its answer, and
/// ends with the answer's status, also where that line can't be written.
fn main(rt: HostRuntime) -> ExitCode {
    ExitCode::from(status(&rt).unwrap_or_else(|| refused(&rt)))
}

/// The status of the run, unless memory for the words is refused.
fn status(rt: &HostRuntime) -> Option<u8> {
    let given = given_words(rt).ok()?;
    let words: Result<Vec<&str>, AllocError> = given
        .iter()
        .map(|word| word.as_str())
        .collect(rt.alloc());
    let words = words.ok()?;
    let mut files = SystemFiles { rt };
    let mut progress = Told::new(rt);
    let stdout = rt.stdout();
    let screen = Screen {
        is_terminal: stdout.is_terminal(),
        no_color: has_no_color(rt),
    };
    let output = Output {
        device: stdout,
        is_closed: false,
    };
    let start = Start {
        words: words.as_slice(),
        screen,
    };
    let (answer, mut output) = run(
        rt.alloc(),
        start,
        &mut rt.stdin(),
        &mut files,
        &mut progress,
        output,
    );
    if !output.is_closed {
        let _ = report(&mut output, &mut rt.stderr(), &answer);
    }
    Some(answer.status())
}

/// Shows the progress of a search on the standard error where that is a terminal: by a line a second at most, the first after a second.
#[derive(Drop)]
struct Told<'a> {
    rt: &'a HostRuntime,
    /// When a line was written last, or the program began. None: no line is written.
    last: Option<Instant>,
    /// How many objects were tried.
    told: usize,
}

impl<'a> Told<'a> {
    /// No object was tried yet.
    fn new(rt: &'a HostRuntime) -> Told<'a> {
        let last = if rt.stderr().is_terminal() {
            Instant::now(rt).ok()
        } else {
            None
        };
        Told { rt, last, told: 0 }
    }
}

impl Progress for Told<'_> {
    fn tell(&mut self, objects: usize) {
        let tried = self.told;
        self.told = tried.saturating_add(1);
        let Some(last) = self.last else { return };
        match last.elapsed(self.rt) {
            Ok(passed) if passed.as_secs() >= 1 => {}
            _ => return,
        }
        let _ = writeln!(self.rt.stderr(), "pod: {tried} of {objects} objects tried");
        self.last = Instant::now(self.rt).ok();
    }
}

/// Whether `NO_COLOR` is set, and not to nothing.
fn has_no_color(rt: &HostRuntime) -> bool {
    match env::var(rt, "NO_COLOR") {
        Ok(value) => !value.as_str().is_empty(),
        Err(_) => false,
    }
}

/// An output, and whether it is a pipe whose reader is gone, as `head` is after its lines. Nothing is said of that then.
#[derive(Drop)]
struct Output<W> {
    device: W,
    is_closed: bool,
}

impl<W: Write> Write for Output<W> {
    ghost contents = { λ it. W.contents it.device };

    fn write(&mut self, bytes: &[u8]) -> io::Result<usize> {
        let answer = self.device.write(bytes);
        if let Err(error) = &answer {
            self.is_closed = error.kind() == ErrorKind::BrokenPipe;
        }
        answer
    }

    fn flush(&mut self) -> io::Result<()> {
        let answer = self.device.flush();
        if let Err(error) = &answer {
            self.is_closed = error.kind() == ErrorKind::BrokenPipe;
        }
        answer
    }
}

/// Writes the line of a run for which memory was refused, and gives its status, also where that line can't be written.
fn refused(rt: &HostRuntime) -> u8 {
    let answer = Answer::Refused(Failure::OutOfMemory);
    let _ = report(&mut rt.stdout(), &mut rt.stderr(), &answer);
    answer.status()
}

/// The words behind the program's name. Where one isn't UTF-8, there is one empty word, which is none of the program's.
fn given_words(rt: &HostRuntime) -> io::Result<Vec<String>> {
    match env::args(rt) {
        Ok(words) => Ok(words.skip(1).collect(rt.alloc())?),
        Err(error) if error.kind() == ErrorKind::InvalidData => {
            let mut words = Vec::new(rt.alloc());
            words.push(String::new(rt.alloc()))?;
            Ok(words)
        }
        Err(error) => Err(error),
    }
}
