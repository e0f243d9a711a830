//! Writes texts, bytes, bitmaps and pointers.
ghost use Rattle.std.specs.Prelude.{◌≡◌, ◌+◌, ◌<◌, ◌≤◌, [], ◌∷◌, ◌++◌, Contains, ℕ, IfErr, OnErr, OnOk, length, replicate, take};
ghost use Rattle.spa_sink.specs.Writing.{Begun, RefusesPiece};
ghost use Rattle.spa_format.specs.Encoding.{encoding_of, encoded_pod};
ghost use Rattle.spa_format.specs.Tree as tree;
ghost use Rattle.spa_format.specs.Words.{padding, size_limit, wide_bytes, word_bytes};
ghost use Rattle.spa_format.specs.Writable.{IsWritable};
ghost use Rattle.spa_bodies.specs.Written.{IsPut, RefusesLeaf, Stops};

use spa_bytes::{HEADER_LEN, POINTER_LEN};
use spa_sink::{GenError, PodSink, put_padding, put_two, put_wide};
use spa_utils::SpaTypes;

/// Appends the encoding of a text, which ends in a NUL. Refused as `NulInText` where the text holds NUL itself, and as
/// `TooLarge` where text and NUL have 4294967296 bytes or more; nothing is appended then.
pub fn put_text<S: PodSink>(sink: &mut S, text: &str) -> Result<(), GenError>
    ensures put { OnOk result (IsPut S.appends sink.old (tree.string text.now) sink.new) }
    ensures begun { OnErr result (Begun S.appends sink.old (encoding_of (tree.string text.now)) sink.new) }
    ensures refused { IfErr result (RefusesLeaf S.refuses sink.old (tree.string text.now) sink.new) }
{
    let bytes = text.as_bytes();
    if bytes.contains(&0) {
        return Err(GenError::NulInText);
    }
    if u32::try_from(bytes.len() + 1).is_err() {
        return Err(GenError::TooLarge);
    }
    put_clean_text(sink, text)
}

/// Appends the encoding of a text that can be written.
#[inline(always)]
pub fn put_clean_text<S: PodSink>(sink: &mut S, text: &str) -> Result<(), GenError>
    requires { IsWritable (tree.string text.now) }
    ensures put { OnOk result (IsPut S.appends sink.old (tree.string text.now) sink.new) }
    ensures stops { IfErr result
        (λ e. Stops S.appends S.refuses sink.old (encoding_of (tree.string text.now)) sink.new e) }
{
    let bytes = text.as_bytes();
    let size = bytes.len() + 1;
    put_two(sink, size as u32, SpaTypes::String.0)?;
    sink.append(bytes)?;
    put_end(sink, bytes.len())
}

/// Appends the NUL that ends a text of this length, and the padding behind it.
fn put_end<S: PodSink>(sink: &mut S, len: usize) -> Result<(), GenError>
    ensures ok { OnOk result (S.appends sink.old (0 ∷ padding (len + 1)) sink.new) }
    ensures begun { OnErr result ((count : ℕ) × S.appends sink.old (take count (0 ∷ padding (len + 1))) sink.new) }
    ensures cause { IfErr result (λ e. S.refuses sink.old (length (0 ∷ padding (len + 1))) sink.new e) }
{
    let zeros = [0; HEADER_LEN];
    sink.append(&zeros[..HEADER_LEN - len % HEADER_LEN])
}

/// Appends the encoding of bytes. Refused as `TooLarge` where there are 4294967296 or more; nothing is appended then.
pub fn put_bytes<S: PodSink>(sink: &mut S, bytes: &[u8]) -> Result<(), GenError>
    ensures put { OnOk result (IsPut S.appends sink.old (tree.bytes bytes.now) sink.new) }
    ensures begun { OnErr result (Begun S.appends sink.old (encoding_of (tree.bytes bytes.now)) sink.new) }
    ensures refused { IfErr result (RefusesLeaf S.refuses sink.old (tree.bytes bytes.now) sink.new) }
{
    put_body(sink, SpaTypes::Bytes.0, bytes)
}

/// Appends the encoding of a bitmap. Refused as `TooLarge` where it has 4294967296 bytes or more; nothing is appended then.
pub fn put_bitmap<S: PodSink>(sink: &mut S, bytes: &[u8]) -> Result<(), GenError>
    ensures put { OnOk result (IsPut S.appends sink.old (tree.bitmap bytes.now) sink.new) }
    ensures begun { OnErr result (Begun S.appends sink.old (encoding_of (tree.bitmap bytes.now)) sink.new) }
    ensures refused { IfErr result (RefusesLeaf S.refuses sink.old (tree.bitmap bytes.now) sink.new) }
{
    put_body(sink, SpaTypes::Bitmap.0, bytes)
}

/// Appends a pod of this type whose body is these bytes.
#[tactic(auto, using(spa_format::proofs::Encodings::header_within))]
fn put_body<S: PodSink>(sink: &mut S, type_: u32, bytes: &[u8]) -> Result<(), GenError>
    ensures put { OnOk result (S.appends sink.old (encoded_pod type_ bytes.now) sink.new) }
    ensures fits { OnOk result (length bytes.now < size_limit) }
    ensures begun { OnErr result (Begun S.appends sink.old (encoded_pod type_ bytes.now) sink.new) }
    ensures refused { IfErr result (RefusesPiece ⊥ (size_limit ≤ length bytes.now)
        (S.refuses sink.old (length (encoded_pod type_ bytes.now)) sink.new) sink.old sink.new) }
{
    let Ok(size) = u32::try_from(bytes.len()) else {
        return Err(GenError::TooLarge);
    };
    put_two(sink, size, type_)?;
    sink.append(bytes)?;
    put_padding(sink, bytes.len())
}

/// Appends the encoding of a pointer: a type number and an address.
#[tactic(auto, using(spa_format::proofs::Encodings::pointer_encoding, spa_format::proofs::Encodings::pointer_encoding_length, spa_format::proofs::Encodings::two_words_length))]
pub fn put_pointer<S: PodSink>(sink: &mut S, type_: u32, address: u64) -> Result<(), GenError>
    ensures put { OnOk result (IsPut S.appends sink.old (tree.pointer type_ address) sink.new) }
    ensures begun { OnErr result (Begun S.appends sink.old (encoding_of (tree.pointer type_ address)) sink.new) }
    ensures refused { IfErr result (RefusesLeaf S.refuses sink.old (tree.pointer type_ address) sink.new) }
{
    put_two(sink, POINTER_LEN as u32, SpaTypes::Pointer.0)?;
    put_two(sink, type_, 0)?;
    put_wide(sink, address)
}
