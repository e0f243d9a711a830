//! Rows of negotiation and filtering. A line of standard input is a word, a label and the words of pods, `word label: pod | pod`. Behind
//! the word and the label standard output has what comes of the two pods in that order and in the other, in words, or the refusal:
//!
//! - `negotiate`: what they meet in, in two lines: by `negotiate_pods`, and by way of values;
//! - `filter_pods` and `filter`: what they are filtered to, from bytes to bytes, and by way of values;
//! - `agree`: that on which they agree, with what is left to choose fixated;
//! - `rate`: the sample rate on which they agree by `negotiate_pods`;
//! - `settle`: what the one pod settles to;
//! - `format`: behind the rows, each such pod is filtered with each, and what comes is settled.
//!
//! The tests are of objects that are too large for a row: of many keys, of many alternatives, and of values that stand deep in one another;
//! and of multiples, which were found by hand.
#![tactic(auto)]

#[cfg(test)]
mod answers;
#[cfg(test)]
mod large;
#[cfg(test)]
mod multiples;

use example_calls::{agreed, agreed_rate, negotiate_by_values};
use spa_filter::{Side, filter, settle};
use spa_filter_pods::{FilterError, filter_pods};
use spa_fixed_sized::Refusal;
use spa_negotiate::{NegotiateError, negotiate_pods};
use spa_read::read_value;
use spa_sink::GenError;
use spa_value::{Object, Value};
use spa_write::write_value;
use std::alloc::{AllocError, Global};
use std::io::{self, Error, ErrorKind};
use test_bytes::{SpellingError, bytes_spelled, push_spelling};

/// Answers all rows, and then prints the answers.
fn main(rt: HostRuntime) -> io::Result<()> {
    let rows = io::read_to_string(rt.alloc(), rt.stdin())?;
    let mut answers = String::new(rt.alloc());
    for row in rows.lines() {
        answer_row(rt.alloc(), row, &mut answers)?;
    }
    answer_formats(rt.alloc(), rows.as_str(), &mut answers)?;
    print!(rt; "{answers}")
}

/// Appends the answers of a row.
fn answer_row(alloc: Global, row: &str, answers: &mut String) -> io::Result<()> {
    let (label, pods) = row.rsplit_once(':').unwrap_or((row, ""));
    let (ours, theirs) = pods.split_once('|').unwrap_or((pods, ""));
    let a = spelled(alloc, ours)?;
    let b = spelled(alloc, theirs)?;
    let (a, b) = (a.as_slice(), b.as_slice());
    let (word, _) = label.split_once(' ').unwrap_or((label, ""));
    match word {
        "negotiate" => {
            push_meeting(answers, label, "pods", by_pods(alloc, a, b))?;
            push_meeting(answers, label, "values", by_values(alloc, a, b))?;
        }
        "filter_pods" => push_both(answers, label, through_pods(alloc, a, b))?,
        "filter" => push_both(answers, label, through_values(alloc, a, b))?,
        "agree" => push_both(answers, label, agreement(alloc, a, b))?,
        "rate" => push_rates(answers, label, rates(alloc, a, b))?,
        "settle" => push_settled(answers, label, settled(alloc, a))?,
        _ => (),
    }
    Ok(())
}

/// Appends the answers of each two formats among the rows.
fn answer_formats(alloc: Global, rows: &str, answers: &mut String) -> io::Result<()> {
    let formats: Vec<&str> = rows
        .lines()
        .filter(|row| row.starts_with("format "))
        .collect(alloc)?;
    for ours in formats.as_slice() {
        for theirs in formats.as_slice() {
            answer_format(alloc, ours, theirs, answers)?;
        }
    }
    Ok(())
}

/// Appends the labels of two formats, and what they are filtered to, settled.
fn answer_format(alloc: Global, ours: &str, theirs: &str, answers: &mut String) -> io::Result<()> {
    let Some((label, pod)) = ours.rsplit_once(':') else {
        return Ok(());
    };
    let Some((their_label, their_pod)) = theirs.rsplit_once(':') else {
        return Ok(());
    };
    let their_name = their_label.trim_start_matches("format ");
    let a = spelled(alloc, pod)?;
    let b = spelled(alloc, their_pod)?;
    write!(answers, "{label}, {their_name}:")?;
    push_filtered(
        answers,
        filtered_and_settled(alloc, a.as_slice(), b.as_slice()),
    )?;
    answers.push_str("\n")?;
    Ok(())
}

/// The bytes of the words. A slip in them ends the program.
fn spelled(alloc: Global, words: &str) -> io::Result<Vec<u8>> {
    match bytes_spelled(alloc, words) {
        Ok(bytes) => Ok(bytes),
        Err(SpellingError::Misspelt) => Err(Error::from(ErrorKind::InvalidInput)),
        Err(SpellingError::OutOfMemory) => Err(Error::from(ErrorKind::OutOfMemory)),
    }
}

/// What two pods give, in the one order and in the other.
type Both<E> = (Result<Vec<u8>, E>, Result<Vec<u8>, E>);

/// Appends the line of a meeting: the label, by which way it was found, and the answers.
fn push_meeting(
    answers: &mut String,
    label: &str,
    way: &str,
    both: Both<NegotiateError>,
) -> Result<(), AllocError> {
    let (there, back) = both;
    write!(answers, "{label}, {way}:")?;
    push_met(answers, there)?;
    answers.push_str(" |")?;
    push_met(answers, back)?;
    answers.push_str("\n")
}

/// Appends the words of a meeting, or the refusal.
fn push_met(
    answers: &mut String,
    answer: Result<Vec<u8>, NegotiateError>,
) -> Result<(), AllocError> {
    match answer {
        Ok(bytes) => push_spelling(answers, bytes.as_slice()),
        Err(NegotiateError::OutOfMemory) => Err(AllocError),
        Err(refusal) => write!(answers, " {refusal:?}"),
    }
}

/// A sample rate in the one order and in the other.
type Rates = (
    Result<Option<i32>, NegotiateError>,
    Result<Option<i32>, NegotiateError>,
);

/// Appends the line of a sample rate.
fn push_rates(answers: &mut String, label: &str, rates: Rates) -> Result<(), AllocError> {
    let (there, back) = rates;
    write!(answers, "{label}:")?;
    push_rate(answers, there)?;
    answers.push_str(" |")?;
    push_rate(answers, back)?;
    answers.push_str("\n")
}

/// Appends a sample rate, the word `none`, or the refusal.
fn push_rate(
    answers: &mut String,
    answer: Result<Option<i32>, NegotiateError>,
) -> Result<(), AllocError> {
    match answer {
        Ok(Some(rate)) => write!(answers, " {rate}"),
        Ok(None) => answers.push_str(" none"),
        Err(NegotiateError::OutOfMemory) => Err(AllocError),
        Err(refusal) => write!(answers, " {refusal:?}"),
    }
}

/// Appends the line of two pods that are filtered.
fn push_both(answers: &mut String, label: &str, both: Both<FilterError>) -> Result<(), AllocError> {
    let (there, back) = both;
    write!(answers, "{label}:")?;
    push_filtered(answers, there)?;
    answers.push_str(" |")?;
    push_filtered(answers, back)?;
    answers.push_str("\n")
}

/// Appends the line of one pod that is settled.
fn push_settled(
    answers: &mut String,
    label: &str,
    answer: Result<Vec<u8>, FilterError>,
) -> Result<(), AllocError> {
    write!(answers, "{label}:")?;
    push_filtered(answers, answer)?;
    answers.push_str("\n")
}

/// Appends the words of a filtered pod, or the refusal.
fn push_filtered(
    answers: &mut String,
    answer: Result<Vec<u8>, FilterError>,
) -> Result<(), AllocError> {
    match answer {
        Ok(bytes) => push_spelling(answers, bytes.as_slice()),
        Err(FilterError::OutOfMemory) => Err(AllocError),
        Err(refusal) => write!(answers, " {refusal:?}"),
    }
}

/// What two pods meet in.
fn by_pods(alloc: Global, a: &[u8], b: &[u8]) -> Both<NegotiateError> {
    (negotiate_pods(alloc, a, b), negotiate_pods(alloc, b, a))
}

/// What two pods meet in, by way of values.
fn by_values(alloc: Global, a: &[u8], b: &[u8]) -> Both<NegotiateError> {
    (
        negotiate_by_values(alloc, a, b),
        negotiate_by_values(alloc, b, a),
    )
}

/// What two pods are filtered to.
fn through_pods(alloc: Global, a: &[u8], b: &[u8]) -> Both<FilterError> {
    (filter_pods(alloc, a, b), filter_pods(alloc, b, a))
}

/// That on which two pods agree.
fn agreement(alloc: Global, a: &[u8], b: &[u8]) -> Both<FilterError> {
    (agreed(alloc, a, b), agreed(alloc, b, a))
}

/// The sample rate on which two pods agree.
fn rates(alloc: Global, a: &[u8], b: &[u8]) -> Rates {
    (agreed_rate(alloc, a, b), agreed_rate(alloc, b, a))
}

/// What two pods are filtered to, by way of values.
fn through_values(alloc: Global, a: &[u8], b: &[u8]) -> Both<FilterError> {
    (filtered(alloc, a, b), filtered(alloc, b, a))
}

/// The encoding of what the values of two pods are filtered to.
fn filtered(alloc: Global, ours: &[u8], theirs: &[u8]) -> Result<Vec<u8>, FilterError> {
    let a = object_in(alloc, ours, Side::First)?;
    let b = object_in(alloc, theirs, Side::Second)?;
    encoding(alloc, filter(alloc, &a, &b)?)
}

/// The encoding of the object in a pod with each choice at its default.
fn settled(alloc: Global, pod: &[u8]) -> Result<Vec<u8>, FilterError> {
    let object = object_in(alloc, pod, Side::First)?;
    encoding(alloc, settle(alloc, &object)?)
}

/// What two pods are filtered to, with each choice at its default.
fn filtered_and_settled(alloc: Global, a: &[u8], b: &[u8]) -> Result<Vec<u8>, FilterError> {
    let met = filter_pods(alloc, a, b)?;
    settled(alloc, met.as_slice())
}

/// The object at the front of a pod.
fn object_in(alloc: Global, pod: &[u8], side: Side) -> Result<Object, FilterError> {
    let mut opened = 0;
    match read_value(alloc, pod, &mut opened) {
        Ok((_rest, value)) => object_of(value, side),
        Err(refused) => Err(refusal_of(refused.why, side)),
    }
}

/// The refusal of a side whose front isn't read for this reason.
fn refusal_of(why: Refusal, side: Side) -> FilterError {
    match why {
        Refusal::OutOfMemory => FilterError::OutOfMemory,
        _ => FilterError::Unread(side),
    }
}

/// The object that a value is.
fn object_of(value: Value, side: Side) -> Result<Object, FilterError> {
    match value {
        Value::Object(object) => Ok(object),
        _ => Err(FilterError::NotObject(side)),
    }
}

/// The encoding of an object.
fn encoding(alloc: Global, object: Object) -> Result<Vec<u8>, FilterError> {
    let mut bytes = Vec::new(alloc);
    match write_value(alloc, &mut bytes, &Value::Object(object)) {
        Ok(_len) => Ok(bytes),
        Err(GenError::OutOfMemory) => Err(FilterError::OutOfMemory),
        Err(_) => Err(FilterError::TooLarge),
    }
}
