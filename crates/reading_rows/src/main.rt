//! Rows of pods. A line of standard input is a word, a label and words, `word label: words`; standard output has what the library answers
//! behind the word and the label, and behind that what its calls disagree on, if anything:
//!
//! - `worked` and `built`: what the front is read as, how many bytes follow it, and its encoding, `canonical` where that is the front;
//! - `list`: the rewriting of a list of pods, or why and where it is refused;
//! - `fixate`: the object at the front once it is fixated, and whether it is `fixated` then or `open`;
//! - `view`: what the view of the front shows;
//! - `levels`: how many structs and objects stand in one another;
//! - `nested`, `waiting` and `deep`: pods that stand in many others;
//! - `headers` and `opened`: how many headers a read opens; `same`: deep values compared; `held`: a value lent and handed back;
//! - `lenient`, `lenient-list` and `lenient-nested`: what a pod, a list and structs in one another are rewritten to in the lenient reading.
#![tactic(auto)]

mod changes;
mod depth;
mod every_type;
mod front;
mod headers;
mod lenient;
mod lists;
mod oracle;
mod rewritten;
mod views;

use std::alloc::Global;
use std::io::{self, Error, ErrorKind};
use test_bytes::{SpellingError, bytes_spelled};

/// Answers all rows, and then prints the answers.
fn main(rt: HostRuntime) -> io::Result<()> {
    let rows = io::read_to_string(rt.alloc(), rt.stdin())?;
    let mut answers = String::new(rt.alloc());
    for row in rows.lines() {
        answer_row(rt.alloc(), row, &mut answers)?;
    }
    print!(rt; "{answers}")
}

/// Appends the label of a row and its answer. A line without a colon is no row.
fn answer_row(alloc: Global, row: &str, answers: &mut String) -> io::Result<()> {
    let Some((label, words)) = row.rsplit_once(':') else {
        return Ok(());
    };
    let (word, _) = label.split_once(' ').unwrap_or((label, ""));
    let mut input = spelled(alloc, words)?;
    write!(answers, "{label}:")?;
    match word {
        "worked" => changes::answer_worked(alloc, input.as_mut_slice(), answers)?,
        "built" => changes::answer_built(alloc, input.as_mut_slice(), answers)?,
        "list" => lists::answer_list(alloc, input.as_slice(), answers)?,
        "fixate" => views::answer_fixation(input.as_mut_slice(), answers)?,
        "view" => views::answer_view(input.as_slice(), answers)?,
        _ => depth::answer_depth(alloc, word, input.as_slice(), answers)?,
    }
    answers.push_str("\n")?;
    Ok(())
}

/// The bytes of the words. A slip in them ends the program.
fn spelled(alloc: Global, words: &str) -> io::Result<Vec<u8>> {
    match bytes_spelled(alloc, words) {
        Ok(bytes) => Ok(bytes),
        Err(SpellingError::Misspelt) => Err(Error::from(ErrorKind::InvalidInput)),
        Err(SpellingError::OutOfMemory) => Err(Error::from(ErrorKind::OutOfMemory)),
    }
}
