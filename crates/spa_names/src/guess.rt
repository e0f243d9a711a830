//! A guess of where a table has a name, by a hash of the name. Nothing rests on guesses but time: each is compared with its table.
use crate::guesses::{DISPLACEMENTS, GUESSES};

/// What the sum that a hash is made of is multiplied by; tables/generate.py has each of these numbers, too.
const MULTIPLIER: u64 = 0x6513270e269e0d37;

/// What the last four bytes of a name are multiplied by.
const OF_LAST: u64 = 0x85ebca6b;

/// What the length of a name is multiplied by.
const OF_LENGTH: u64 = 0xc2b2ae35;

/// What the number of entries of a table is multiplied by.
const OF_COUNT: u64 = 0x27d4eb2f;

/// The index at which a table of so many entries is likely to have this name. Nothing is proved of it: the caller compares what stands there, so a
/// wrong guess costs time alone.
pub(crate) fn guess_of(name: &str, count: usize) -> usize {
    let hash = hash_of(name.as_bytes(), count);
    let displacement = match DISPLACEMENTS.get((hash >> 56) as usize) {
        Some(displacement) => *displacement as u64,
        None => 0,
    };
    let slot = ((hash >> 40) ^ (displacement * 4)) as usize;
    match GUESSES.get(slot % GUESSES.len()) {
        Some(guess) => *guess as usize,
        None => 0,
    }
}

/// A number whose highest bits are made of the first and last four bytes of a name, of its length, and of how many entries its table has.
fn hash_of(name: &[u8], count: usize) -> u64 {
    let words = match (name.first_chunk::<4>(), name.last_chunk::<4>()) {
        (Some(first), Some(last)) => {
            let last = u32::from_le_bytes(*last) as u64;
            (u32::from_le_bytes(*first) as u64).wrapping_add(last.wrapping_mul(OF_LAST))
        }
        _ => short_word(name),
    };
    let sizes = (name.len() as u64)
        .wrapping_mul(OF_LENGTH)
        .wrapping_add((count as u64).wrapping_mul(OF_COUNT));
    words.wrapping_add(sizes).wrapping_mul(MULTIPLIER)
}

/// The bytes of a name of fewer than four, as one number.
fn short_word(name: &[u8]) -> u64 {
    let mut word = 0u64;
    for byte in name {
        word = (word << 8) | *byte as u64;
    }
    word
}
