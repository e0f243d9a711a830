//! `podtool rewrite|fixate|show`: pods from standard input are rewritten, fixated or listed on standard output.
#![tactic(auto)]

use spa_pod_commands::answer::{Answer, Failure, report};
use spa_pod_commands::run::run;
use std::alloc::AllocError;
use std::env;
use std::io::{self, ErrorKind};
use std::process::ExitCode;

/// Hands the words behind the program's name and the standard streams to `run`, and answers its status.
fn main(rt: HostRuntime) -> ExitCode {
    ExitCode::from(status(&rt).unwrap_or_else(|| refused(&rt)))
}

/// The status of the run, unless memory for the words is refused.
fn status(rt: &HostRuntime) -> Option<u8> {
    let given = given_words(rt).ok()?;
    let words: Result<Vec<&str>, AllocError> = given
        .iter()
        .map(|word| word.as_str())
        .collect(rt.alloc());
    let words = words.ok()?;
    Some(run(
        rt.alloc(),
        words.as_slice(),
        &mut rt.stdin(),
        &mut rt.stdout(),
        &mut rt.stderr(),
    ))
}

/// The status of a run for which memory ran out, which it reports. Where the line can't be written, nothing changes.
fn refused(rt: &HostRuntime) -> u8 {
    let answer = Answer::Refused(Failure::OutOfMemory);
    let _ = report(&mut rt.stderr(), &answer);
    answer.status()
}

/// The words behind the program's name. Where one isn't UTF-8, there is one empty word, which is none of the program's.
fn given_words(rt: &HostRuntime) -> io::Result<Vec<String>> {
    match env::args(rt) {
        Ok(words) => Ok(words.skip(1).collect(rt.alloc())?),
        Err(error) if error.kind() == ErrorKind::InvalidData => {
            let mut words = Vec::new(rt.alloc());
            words.push(String::new(rt.alloc()))?;
            Ok(words)
        }
        Err(error) => Err(error),
    }
}
