//! Bytes for tests: from the words of a table, from a text that spells them, and of pods nested deep; a pod's words as a text; and streams
//! of bytes. There is nothing here that the library uses.
#![tactic(auto)]

ghost use Rattle.std.specs.List.{flat_map};
ghost use Rattle.std.specs.Prelude.{◌≡◌, ◌++◌, IfOk, OnOk};
ghost use Rattle.spa_format.specs.Words.{word_bytes};

pub mod streams;

use std::alloc::{AllocError, Global};

/// Why a text spells no bytes.
#[derive(Clone, Copy, PartialEq, Eq, Debug)]
pub enum SpellingError {
    /// A word of it is neither a number of 32 bits nor `x` with pairs of hexadecimal digits: the table has a slip.
    Misspelt,
    /// A growth was refused.
    OutOfMemory,
}

impl From<AllocError> for SpellingError {
    fn from(_error: AllocError) -> SpellingError {
        SpellingError::OutOfMemory
    }
}

/// The bytes of these words, least byte first.
pub fn bytes_of(alloc: Global, words: &[u32]) -> Result<Vec<u8>, AllocError>
    ensures { IfOk result (λ bytes. bytes.items ≡ flat_map word_bytes words.now) }
{
    let mut bytes = Vec::new(alloc);
    push_words(&mut bytes, words)?;
    Ok(bytes)
}

/// Appends these words, least byte first.
pub fn push_words(bytes: &mut Vec<u8>, words: &[u32]) -> Result<(), AllocError>
    ensures { OnOk result (bytes.new.items ≡ bytes.old.items ++ flat_map word_bytes words.now) }
{
    for word in words {
        bytes.extend_from_slice(&word.to_le_bytes())?;
    }
    Ok(())
}

/// The bytes of structs nested so deep, each the one member of the one around it, with the pod of these words in the innermost.
pub fn nested_structs(alloc: Global, depth: u32, inner: &[u32]) -> Result<Vec<u8>, AllocError> {
    nested_pods(alloc, depth, &[14], inner)
}

/// The bytes of objects nested so deep, each with one property, which holds the next one: the innermost the pod of these words.
pub fn nested_objects(alloc: Global, depth: u32, inner: &[u32]) -> Result<Vec<u8>, AllocError> {
    nested_pods(alloc, depth, &[15, 5, 3, 1, 0], inner)
}

/// The bytes of pods nested so deep: each has the words of `head` behind its size word, and the innermost one is the pod `inner`.
pub fn nested_pods(
    alloc: Global,
    depth: u32,
    head: &[u32],
    inner: &[u32],
) -> Result<Vec<u8>, AllocError> {
    let each = (head.len() as u64).saturating_add(1).saturating_mul(4);
    let last = (inner.len() as u64).saturating_mul(4);
    let mut bytes = Vec::new(alloc);
    for level in 0..depth {
        let below = u64::from(depth - level).saturating_mul(each);
        let size = below.saturating_add(last).saturating_sub(8);
        bytes.extend_from_slice(&size.to_le_bytes()[..4])?;
        push_words(&mut bytes, head)?;
    }
    push_words(&mut bytes, inner)?;
    Ok(bytes)
}

/// Appends the words of a pod in decimal, a space before each.
pub fn push_spelling(text: &mut String, pod: &[u8]) -> Result<(), AllocError> {
    for word in pod.as_chunks::<4>().0 {
        let number = u32::from_le_bytes(*word);
        write!(text, " {number}")?;
    }
    Ok(())
}

/// The bytes that a text of words spells: decimal words, least byte first, and bytes in hexadecimal behind an `x`, in any
/// order. A slip in the text is refused, so that no table means other bytes than it seems to.
pub fn bytes_spelled(alloc: Global, text: &str) -> Result<Vec<u8>, SpellingError> {
    let mut bytes = Vec::new(alloc);
    for word in text.split_whitespace() {
        match word.strip_prefix("x") {
            Some(digits) => push_hexadecimal(&mut bytes, digits)?,
            None => {
                let Ok(number) = word.parse::<u32>() else {
                    return Err(SpellingError::Misspelt);
                };
                bytes.extend_from_slice(&number.to_le_bytes())?;
            }
        }
    }
    Ok(bytes)
}

/// Appends the bytes that these pairs of digits spell.
fn push_hexadecimal(bytes: &mut Vec<u8>, digits: &str) -> Result<(), SpellingError> {
    let (pairs, rest) = digits.as_bytes().as_chunks::<2>();
    if !rest.is_empty() {
        return Err(SpellingError::Misspelt);
    }
    for pair in pairs {
        let (Some(first), Some(second)) = (half(pair[0]), half(pair[1])) else {
            return Err(SpellingError::Misspelt);
        };
        bytes.extend_from_slice(&[first << 4 | second])?;
    }
    Ok(())
}

/// What a hexadecimal digit stands for.
fn half(digit: u8) -> Option<u8> {
    match digit {
        b'0'..=b'9' => Some(digit - b'0'),
        b'a'..=b'f' => Some(digit - b'a' + 10),
        _ => None,
    }
}
