//! Rows of what `pod` does: standard input has a label, the program's words, what it is given and, where that is little, the room for
//! what it writes on each line, and standard output the status, what is said and what is written, behind the label.
//!
//! The label of a run to a terminal begins with `terminal`, and has `NO_COLOR` where that is set. `%` among what is given is an input that can't be read. A file that is written stands behind what is written, with its name.
#![tactic(auto)]

use pod_commands::answer::report;
use pod_commands::files::Files;
use pod_commands::run::{Start, run};
use pod_commands::screen::Screen;
use spa_meet_commands::progress::Unwatched;
use std::alloc::Global;
use std::io::{self, Cursor, Error, ErrorKind, Write};
use test_bytes::streams::{ALL, Device, OneLine, Source, Words};
use test_bytes::{SpellingError, bytes_spelled};

/// Files whose names spell their bytes, with commas between the words. Another name is none of a file. What is written is kept, but to
/// a name with a stroke, of which there is none.
#[derive(Drop)]
struct Spelt {
    /// The file that was written, as words behind its name.
    written: Vec<u8>,
}

impl Files for Spelt {
    type Opened = Cursor<Vec<u8>>;

    ghost use Rattle.std.specs.Prelude.{None};

    ghost holds = { λ _ _. None };

    fn read_file(&self, alloc: Global, name: &str) -> io::Result<Vec<u8>> {
        let words = name.replace(alloc, ",", " ")?;
        bytes_of(alloc, words.as_str())
    }

    fn open_file(&self, alloc: Global, name: &str) -> io::Result<Cursor<Vec<u8>>> {
        Ok(Cursor::new(self.read_file(alloc, name)?))
    }

    fn is_regular(&self, _name: &str) -> bool {
        true
    }

    fn write_file(&mut self, name: &str, bytes: &[u8]) -> io::Result<()> {
        if name.contains('/') {
            return Err(Error::from(ErrorKind::NotFound));
        }
        write!(self.written, " | {name}:{}", Words(bytes))
    }
}

/// The bytes that these words spell, or behind a colon those of a text, in which `⏎` is a line feed.
fn bytes_of(alloc: Global, spelt: &str) -> io::Result<Vec<u8>> {
    if let Some(text) = spelt.strip_prefix(":") {
        return Ok(text.replace(alloc, "⏎", "\n")?.into_bytes());
    }
    match bytes_spelled(alloc, spelt) {
        Ok(bytes) => Ok(bytes),
        Err(SpellingError::Misspelt) => Err(Error::from(ErrorKind::NotFound)),
        Err(SpellingError::OutOfMemory) => Err(Error::from(ErrorKind::OutOfMemory)),
    }
}

/// Answers all rows, and then writes the answers.
fn main(rt: HostRuntime) -> io::Result<()> {
    let rows = io::read_to_string(rt.alloc(), rt.stdin())?;
    let mut answers = Vec::new(rt.alloc());
    for row in rows.lines() {
        answer_row(rt.alloc(), row, &mut answers)?;
    }
    rt.stdout().write_all(answers.as_slice())
}

/// More bytes than any row writes, or says.
const ROOM: usize = 16_000;

/// Adds the label of a row and its answer. A line of one part is no row.
fn answer_row(alloc: Global, row: &str, answers: &mut Vec<u8>) -> io::Result<()> {
    let mut parts = row.split(" | ");
    let label = parts.next().unwrap_or("");
    let Some(words) = parts.next() else {
        return Ok(());
    };
    let given = parts.next().unwrap_or("");
    let room = parts.next().and_then(|it| it.parse().ok()).unwrap_or(ROOM);
    write!(answers, "{label}: ")?;
    let screen = Screen {
        is_terminal: label.starts_with("terminal"),
        no_color: label.contains("NO_COLOR"),
    };
    answer_run(alloc, words, given, room, screen, answers)
}

/// Adds the status of a run, to this standard output, what it says, and what it writes into this room: pods as words.
fn answer_run(
    alloc: Global,
    words: &str,
    given: &str,
    room: usize,
    screen: Screen,
    answers: &mut Vec<u8>,
) -> io::Result<()> {
    let words = words_of(alloc, words)?;
    let bytes = bytes_of(alloc, given.trim_start_matches('%'))?;
    let mut input = if given.starts_with('%') {
        Source::broken(bytes.as_slice(), ErrorKind::UnexpectedEof, ALL)
    } else {
        Source::whole(bytes.as_slice(), ALL)
    };
    // What is written to a file takes no memory then, as a file doesn't.
    let mut kept = Vec::new(alloc);
    kept.reserve(ROOM)?;
    let mut files = Spelt { written: kept };
    let mut written = [0; ROOM];
    let device = Device::new(&mut written[..room.min(ROOM)], ALL);
    let start = Start {
        words: words.as_slice(),
        screen,
    };
    let (answer, mut device) = run(alloc, start, &mut input, &mut files, &mut Unwatched, device);
    let mut said = [0; ROOM];
    let mut faults = Device::new(&mut said, ALL);
    report(&mut device, &mut faults, &answer)?;
    write!(answers, "{} ", answer.status())?;
    add_text(answers, faults.taken())?;
    write!(answers, " |")?;
    let is_help = words.last() == Some(&"--help");
    match words.first() {
        Some(&"get" | &"read" | &"rewrite" | &"fixate" | &"meet" | &"filter") if !is_help => {
            add_words(answers, device.taken())?
        }
        _ => add_text(answers, device.taken())?,
    }
    answers.write_all(files.written.as_slice())?;
    writeln!(answers)
}

/// The words of a row; `""` is an empty one.
fn words_of(alloc: Global, words: &str) -> io::Result<Vec<&str>> {
    let mut all = Vec::new(alloc);
    for word in words.split_whitespace() {
        all.push(if word == "\"\"" { "" } else { word })?;
    }
    Ok(all)
}

fn add_text(answers: &mut Vec<u8>, text: &[u8]) -> io::Result<()> {
    write!(answers, "{}", OneLine(text))
}

fn add_words(answers: &mut Vec<u8>, bytes: &[u8]) -> io::Result<()> {
    write!(answers, "{}", Words(bytes))
}
