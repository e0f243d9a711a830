//! Rows of what `podtool` does: each line of standard input is a label, the program's words and what it is given, and the same line
//! of standard output has the status, what is said and what is written, behind the label.
//!
//! What is given is spelled in words; `-` is an input that can't be read, and `""` an empty word of the program's. The tests are of streams
//! that break off, are full or can't be flushed, and of pods that nest deep.
#![tactic(auto)]

#[cfg(test)]
mod deep;
#[cfg(test)]
mod streams;

use spa_pod_commands::run::run;
use std::alloc::{AllocError, Global};
use std::io::{self, Error, ErrorKind};
use test_bytes::streams::{Device, OneLine, PIECE, Source, Words};
use test_bytes::{SpellingError, bytes_spelled};

/// Prints the answer of each row.
fn main(rt: HostRuntime) -> io::Result<()> {
    let rows = io::read_to_string(rt.alloc(), rt.stdin())?;
    for row in rows.lines() {
        let (label, rest) = split_part(row);
        let (words, given) = split_part(rest);
        print_answer(&rt, label, words, given)?;
    }
    Ok(())
}

/// The first part of a row, and what follows it.
fn split_part(row: &str) -> (&str, &str) {
    let (part, rest) = row.split_once('|').unwrap_or((row, ""));
    (part.trim(), rest.trim())
}

/// More bytes than any row writes, and than any says.
const ROOM: usize = 4096;

const LINE_ROOM: usize = 100;

/// Prints a row's label, the status of its run, what that says, and what it writes, of `show` as text.
fn print_answer(rt: &HostRuntime, label: &str, words: &str, given: &str) -> io::Result<()> {
    let bytes = bytes_of(rt.alloc(), given)?;
    let mut input = if given == "-" {
        Source::broken(bytes.as_slice(), ErrorKind::UnexpectedEof, PIECE)
    } else {
        Source::whole(bytes.as_slice(), PIECE)
    };
    let (mut room, mut line_room) = ([0; ROOM], [0; LINE_ROOM]);
    let mut output = Device::new(&mut room, PIECE);
    let mut faults = Device::new(&mut line_room, PIECE);
    let all = words_of(rt.alloc(), words)?;
    let status = run(
        rt.alloc(),
        all.as_slice(),
        &mut input,
        &mut output,
        &mut faults,
    );
    print!(rt; "{label}: {status} ")?;
    print_text(rt, faults.taken())?;
    print!(rt; " |")?;
    if words == "show" {
        print_text(rt, output.taken())?;
    } else {
        print_words(rt, output.taken())?;
    }
    println!(rt; "")
}

fn print_text(rt: &HostRuntime, text: &[u8]) -> io::Result<()> {
    print!(rt; "{}", OneLine(text))
}

fn print_words(rt: &HostRuntime, bytes: &[u8]) -> io::Result<()> {
    print!(rt; "{}", Words(bytes))
}

/// The words of a run.
fn words_of(alloc: Global, words: &str) -> Result<Vec<&str>, AllocError> {
    words
        .split_whitespace()
        .map(|word| if word == "\"\"" { "" } else { word })
        .collect(alloc)
}

/// The bytes that are given.
fn bytes_of(alloc: Global, given: &str) -> io::Result<Vec<u8>> {
    match bytes_spelled(alloc, given.trim_start_matches('-')) {
        Ok(bytes) => Ok(bytes),
        Err(SpellingError::Misspelt) => Err(Error::from(ErrorKind::InvalidInput)),
        Err(SpellingError::OutOfMemory) => Err(Error::from(ErrorKind::OutOfMemory)),
    }
}
