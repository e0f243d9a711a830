//! Rows of texts and of names: standard input has a label, a word and what it asks about on each line, and standard output what the
//! library answers, behind the label. The tests are of texts that nest deep, of texts of which each byte is changed, and of texts printed
//! behind what was there; and of values compared, cloned, and printed by a loop.
#![tactic(auto)]

#[cfg(test)]
mod appended;
#[cfg(test)]
mod clones;
#[cfg(test)]
mod compare;
#[cfg(test)]
mod depth;
#[cfg(test)]
mod equality;
#[cfg(test)]
mod hostile;
#[cfg(test)]
mod printing;
#[cfg(test)]
mod properties;
#[cfg(test)]
mod table;
#[cfg(test)]
mod texts;
#[cfg(test)]
mod twins;

use spa_names::laws::{names_come_back, numbers_are_named};
use spa_names::{expected_under, ids_of, keys_of, name_of, number_of, path_of};
use spa_text::laws::{print_pretty_then_read, print_then_read};
use spa_text::{Cause, Strictness, TextError, TextReader, print, print_pretty};
use spa_text_forms::FreeReader;
use spa_utils::SpaTypes;
use spa_value::{Held, Value, same};
use std::alloc::{AllocError, Global};
use std::io::{self, Write};

/// Answers all rows, and then writes the answers.
fn main(rt: HostRuntime) -> io::Result<()> {
    names_come_back();
    numbers_are_named();
    let rows = io::read_to_string(rt.alloc(), rt.stdin())?;
    let mut answers = Vec::new(rt.alloc());
    for row in rows.lines() {
        answer_row(rt.alloc(), row, &mut answers)?;
    }
    rt.stdout().write_all(answers.as_slice())
}

/// Adds the label of a row and its answer. A line of one part is no row.
fn answer_row(alloc: Global, row: &str, answers: &mut Vec<u8>) -> io::Result<()> {
    let Some((label, asked)) = row.split_once(" | ") else {
        return Ok(());
    };
    let (word, rest) = asked.split_once(" | ").unwrap_or((asked, ""));
    write!(answers, "{label}: ")?;
    match word.strip_prefix("names.") {
        Some(word) => answer_names(word, rest, answers)?,
        None => answer_text(alloc, word, rest, answers)?,
    }
    answers.write_all(b"\n")
}

/// Adds what the tables have under a key of a type: the key's name, the end of its path and what is expected there; the name of an id
/// there, or the number of a name there. For `id` the number is an id of the type itself.
fn answer_names(word: &str, asked: &str, answers: &mut Vec<u8>) -> io::Result<()> {
    let mut words = asked.split(' ');
    let type_ = SpaTypes(number_in(words.next()));
    let key = number_in(words.next());
    let keys = keys_of(type_);
    let ids = expected_under(keys, key).ids;
    match word {
        "key" => write!(answers, "{:?}", name_of(keys, key)),
        "path" => write!(answers, "{:?}", path_of(keys, key)),
        "expected" => write!(answers, "{:?}", expected_under(keys, key)),
        "id" => write!(answers, "{:?}", name_of(ids_of(type_), key)),
        "name" => write!(answers, "{:?}", name_of(ids, number_in(words.next()))),
        _ => write!(answers, "{:?}", number_of(ids, words.next().unwrap_or(""))),
    }
}

/// The number that a word is.
fn number_in(word: Option<&str>) -> u32 {
    word.and_then(|digits| digits.parse().ok()).unwrap_or(0)
}

/// Adds what the text is read as, if it is.
fn answer_text(alloc: Global, word: &str, text: &str, answers: &mut Vec<u8>) -> io::Result<()> {
    let text = text.replace(alloc, "⏎", "\n")?;
    match read(alloc, word, text.as_str()) {
        Ok(value) => answer_value(alloc, word, &Held::from(value), answers),
        Err(error) => answer_refusal(word, &error, answers),
    }
}

/// Reads the text of a row with this word: as it stands, or in any order.
fn read(alloc: Global, word: &str, text: &str) -> Result<Value, TextError> {
    match word {
        "any" | "any.loose" => FreeReader::new(alloc).read_with(text, strictness_of(word)),
        _ => TextReader::new(alloc).read_with(text, strictness_of(word)),
    }
}

/// How strictly the text of a row with this word is read.
fn strictness_of(word: &str) -> Strictness {
    match word {
        "strict" | "any" => Strictness::Strict,
        _ => Strictness::Plain,
    }
}

/// Adds the value, or how it is printed, and what that is read as, if that is another value.
fn answer_value(alloc: Global, word: &str, value: &Value, answers: &mut Vec<u8>) -> io::Result<()> {
    let again = match word {
        "value" => {
            write!(answers, "{value:?}")?;
            print_then_read(alloc, value)?
        }
        "line" | "any" | "any.loose" => {
            print(alloc, value, answers)?;
            print_then_read(alloc, value)?
        }
        "lines" => {
            print_pretty(alloc, value, answers)?;
            print_pretty_then_read(alloc, value)?
        }
        _ => return answers.write_all(b"accepted"),
    };
    let again = Held::from(again);
    if !same(alloc, value, &again)? {
        write!(answers, " comes back as {:?}", &*again)?;
    }
    Ok(())
}

/// Adds why or where the text is refused.
fn answer_refusal(word: &str, error: &TextError, answers: &mut Vec<u8>) -> io::Result<()> {
    let TextError {
        cause,
        line,
        column,
        path,
        ..
    } = error;
    match word {
        _ if *cause == Cause::OutOfMemory => Err(io::Error::from(AllocError)),
        "cause" => write!(answers, "{cause:?}"),
        "strict" | "any" | "any.loose" => write!(answers, "{error}"),
        "place" => write!(answers, "{line}:{column}:{path}"),
        _ => answers.write_all(b"refused"),
    }
}
