//! Appends words, numbers and padding.
ghost use Rattle.std.specs.Prelude.{◌≡◌, ◌++◌, ℕ, IfErr, OnErr, OnOk, length, take};
ghost use Rattle.spa_format.specs.Words.{padding, wide_bytes, word_bytes};

use crate::gen_error::GenError;
use crate::sink::PodSink;
use spa_bytes::{HEADER_LEN, two_words, wide_body};

/// Appends a word, least byte first.
#[tactic(auto, unfolding(spa_format::specs::Words::word_bytes))]
pub fn put_word<S: PodSink>(sink: &mut S, number: u32) -> Result<(), GenError>
    ensures ok { OnOk result (S.appends sink.old (word_bytes number) sink.new) }
    ensures begun { OnErr result ((count : ℕ) × S.appends sink.old (take count (word_bytes number)) sink.new) }
    ensures cause { IfErr result (λ e. S.refuses sink.old 4 sink.new e) }
{
    sink.append(&number.to_le_bytes())
}

/// Appends a number in eight bytes, least byte first.
pub fn put_wide<S: PodSink>(sink: &mut S, number: u64) -> Result<(), GenError>
    ensures ok { OnOk result (S.appends sink.old (wide_bytes number) sink.new) }
    ensures begun { OnErr result ((count : ℕ) × S.appends sink.old (take count (wide_bytes number)) sink.new) }
    ensures cause { IfErr result (λ e. S.refuses sink.old 8 sink.new e) }
{
    sink.append(&wide_body(number))
}

/// Appends two words in one call of the sink.
pub fn put_two<S: PodSink>(sink: &mut S, first: u32, second: u32) -> Result<(), GenError>
    ensures ok { OnOk result (S.appends sink.old (word_bytes first ++ word_bytes second) sink.new) }
    ensures begun { OnErr result ((count : ℕ)
        × S.appends sink.old (take count (word_bytes first ++ word_bytes second)) sink.new) }
    ensures cause { IfErr result (λ e. S.refuses sink.old 8 sink.new e) }
{
    sink.append(&two_words(first, second))
}

/// Appends the padding behind a body of this size: zeros up to a multiple of 8 bytes.
pub fn put_padding<S: PodSink>(sink: &mut S, size: usize) -> Result<(), GenError>
    ensures ok { OnOk result (S.appends sink.old (padding size) sink.new) }
    ensures begun { OnErr result ((count : ℕ) × S.appends sink.old (take count (padding size)) sink.new) }
    ensures cause { IfErr result (λ e. S.refuses sink.old (length (padding size)) sink.new e) }
{
    let zeros = [0; HEADER_LEN];
    sink.append(&zeros[..(HEADER_LEN - size % HEADER_LEN) % HEADER_LEN])
}
