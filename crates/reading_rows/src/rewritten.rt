//! Rewritings of the front of an input.
use crate::front::{Front, before, front_of};
use spa_fixed_sized::DeserializeError;
use spa_rewrite::{is_canonical, rewrite};
use std::alloc::{AllocError, Global};

/// Whether the front of an input is rewritten as this encoding by each call, and is canonical exactly where it is the encoding.
pub(crate) fn is_rewritten(
    alloc: Global,
    front: &[u8],
    input: &[u8],
    encoding: &[u8],
) -> Result<bool, AllocError> {
    let rewritten = match rewrite(alloc, input) {
        Ok((rest, bytes)) => before(input, rest) == front && bytes.as_slice() == encoding,
        Err(DeserializeError::OutOfMemory) => return Err(AllocError),
        Err(_) => false,
    };
    let is_own = is_canonical(alloc, input)?;
    Ok(rewritten && is_own == (front == encoding))
}

/// Whether an encoding is read as what it encodes, and is canonical.
pub(crate) fn is_rewritten_to_itself(
    alloc: Global,
    encoding: &[u8],
    said: &str,
) -> Result<bool, AllocError> {
    let again = match front_of(alloc, encoding)? {
        Front::Accepted(text, bytes, rest) => {
            text.as_str() == said && bytes.as_slice() == encoding && rest.is_empty()
        }
        Front::Refused(_, _) => false,
    };
    Ok(again && is_rewritten(alloc, encoding, encoding, encoding)?)
}
