//! Texts that are read, and values that are printed.
use spa_text::{Cause, print, read};
use spa_value::{Held, Value};
use std::alloc::{AllocError, Global};
use std::process::Abort;

/// The value that the text is read as, or why it is refused.
pub(crate) fn held(alloc: Global, text: &str) -> Result<Result<Held, Cause>, AllocError> {
    match read(alloc, text) {
        Ok(value) => Ok(Ok(Held::from(value))),
        Err(error) if error.cause == Cause::OutOfMemory => Err(AllocError),
        Err(error) => Ok(Err(error.cause)),
    }
}

/// What the value is printed as on one line.
pub(crate) fn printed(alloc: Global, value: &Value) -> Result<Vec<u8>, AllocError> {
    let mut bytes = Vec::new(alloc);
    print(alloc, value, &mut bytes)?;
    Ok(bytes)
}

/// What a test says of this text holds.
pub(crate) fn assert_so(rt: &impl Abort, holds: bool, text: &str) {
    assert!(rt; holds, "another answer for {text}");
}
