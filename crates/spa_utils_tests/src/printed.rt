//! What is printed, and what is compared with it: each assertion is proved here, once.
use std::alloc::{AllocError, Global};
use std::error::Error;
use std::fmt::Display;
use std::process::Abort;
use std::test::Fail;

/// What this prints.
pub(crate) fn printed<D: Display>(alloc: Global, what: &D) -> Result<String, AllocError> {
    format!(in alloc; "{what}")
}

/// The program's error that `?` makes of this one.
fn handed_on<E: Error>(error: E) -> anyhow::Result<()> {
    let refused: Result<(), E> = Err(error);
    refused?;
    Ok(())
}

/// Compares what this prints with these words.
pub(crate) fn assert_prints<D: Display>(
    rt: &impl Abort,
    alloc: Global,
    what: &D,
    words: &str,
) -> Result<(), Fail> {
    let found = printed(alloc, what)?;
    assert_eq!(rt; found.as_str(), words);
    Ok(())
}

/// Compares what an error prints with these words, and what the program's error prints that `?` makes of it.
pub(crate) fn assert_words<E: Error>(
    rt: &impl Abort,
    alloc: Global,
    error: &E,
    words: &str,
) -> Result<(), Fail> {
    assert_prints(rt, alloc, error, words)?;
    assert_refused(rt, alloc, handed_on(error), words)
}

/// Compares what a refusal prints with these words.
pub(crate) fn assert_refused<T: Drop>(
    rt: &impl Abort,
    alloc: Global,
    answer: anyhow::Result<T>,
    words: &str,
) -> Result<(), Fail> {
    match answer {
        Ok(_) => Err(Fail::new(format_args!("not refused: {words}"))),
        Err(error) => assert_prints(rt, alloc, &error, words),
    }
}
