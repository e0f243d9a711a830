//! Reads the bodies of arrays, and writes their pods.
ghost use Rattle.std.specs.Prelude.{◌≡◌, ◌+◌, ◌*◌, ◌<◌, ◌≤◌, IfErr, IfNone, IfOk, IfSome, OnErr, OnOk, OnSome, drop, length, map, take};
ghost use Rattle.spa_fixed_sized.specs.Reading.{AreWhole, RefusesArray};
ghost use Rattle.spa_format.specs.Faults.{IsWrongArray};
ghost use Rattle.spa_format.specs.Kind.{IsFixedBody, body_size, content};
ghost use Rattle.spa_format.specs.Pod.{AreElements, IsArray};
ghost use Rattle.spa_sink.specs.Writing.{Begun, RefusesPiece};
ghost use Rattle.spa_format.specs.Encoding.{array_body, encoded_pod};
ghost use Rattle.spa_format.specs.Tree.{array_type};
ghost use Rattle.spa_format.specs.Typed.{AreOf};
ghost use Rattle.spa_format.specs.Words.{header_size, size_limit, word_at};

use crate::elements::{body_len, put_parts};
use crate::fault::Refusal;
use crate::fixed::{CanonicalFixedSizedPod, WIDE_LEN, WORD_LEN};
use spa_bytes::{HEADER_LEN, joined, two_words, u32_at};
use spa_sink::{GenError, PodSink};
use spa_utils::SpaTypes;
use std::alloc::{AllocError, Global};

/// The borrowed bytes of the elements in the body of an array over the type `T`, where its sizes are right: the child size is the
/// type's, and whole elements follow. None: they aren't. It asks for no memory.
pub fn open_array<T: CanonicalFixedSizedPod>(body: &[u8]) -> Option<&[u8]>
    requires header { header_size ≤ length body.now }
    requires child_type { word_at body.now 4 ≡ T.TYPE }
    ensures elements { IfSome result (λ elements. elements.now ≡ drop header_size body.now) }
    ensures child_size { OnSome result (word_at body.now 0 ≡ body_size T.kind) }
    ensures whole { IfSome result (λ elements. AreWhole T.SIZE elements.now) }
    ensures none { IfNone result (IsWrongArray T.kind body.now) }
{
    let (_, elements) = body.split_at(HEADER_LEN);
    if u32_at(body, 0) as usize != T::SIZE {
        return None;
    }
    if T::SIZE == 0 {
        if !elements.is_empty() {
            return None;
        }
        return Some(elements);
    }
    if elements.len() % T::SIZE != 0 {
        return None;
    }
    Some(elements)
}

/// The bytes that follow the first element, and that element.
pub fn next_element<T: CanonicalFixedSizedPod>(elements: &[u8]) -> (&[u8], T)
    requires { T.SIZE ≤ length elements.now }
    ensures says { IsFixedBody T.kind (take T.SIZE elements.now) (T.fixed result.1) }
    ensures rest { result.0.now ≡ drop T.SIZE elements.now }
{
    let (first, rest) = elements.split_at(T::SIZE);
    (rest, T::of_body(first))
}

/// Reads whole elements of `N` bytes each to the end. Refused only for want of memory.
fn read_chunks<T: CanonicalFixedSizedPod, const N: usize>(
    alloc: Global,
    elements: &[u8],
) -> Result<Vec<T>, AllocError>
    requires whole { AreWhole T.SIZE elements.now }
    requires size { T.SIZE ≡ N }
    requires sized { 0 < N }
    ensures { IfOk result (λ values. AreElements T.kind (map T.fixed values.items) elements.now) }
{
    let (bodies, _) = elements.as_chunks::<N>();
    bodies
        .iter()
        .map(
            |body: &[u8; N]| -> T
                requires { T.SIZE ≡ N }
                ensures { T.fixed result ≡ content T.kind body.entry.now }
            { T::of_body(body) },
        )
        .collect(alloc)
}

/// Reads whole elements to the end. Refused only for want of memory.
pub(crate) fn read_elements<T: CanonicalFixedSizedPod>(
    alloc: Global,
    elements: &[u8],
) -> Result<Vec<T>, AllocError>
    requires { AreWhole T.SIZE elements.now }
    ensures { IfOk result (λ values. AreElements T.kind (map T.fixed values.items) elements.now) }
{
    match T::SIZE {
        0 => Ok(Vec::new(alloc)),
        WORD_LEN => read_chunks::<T, WORD_LEN>(alloc, elements),
        _ => read_chunks::<T, WIDE_LEN>(alloc, elements),
    }
}

/// Reads the body of an array over the type `T`. Refused as `WrongSize` where the child size isn't the type's or the elements
/// aren't whole, before any memory is asked for, and else only as `OutOfMemory`.
#[inline(always)]
pub fn read_array<T: CanonicalFixedSizedPod>(alloc: Global, body: &[u8]) -> Result<Vec<T>, Refusal>
    requires header { header_size ≤ length body.now }
    requires child_type { word_at body.now 4 ≡ T.TYPE }
    ensures read { IfOk result (λ values. IsArray T.kind (map T.fixed values.items) body.now) }
    ensures refused { IfErr result (RefusesArray (IsWrongArray T.kind body.now)) }
{
    let Some(elements) = open_array::<T>(body) else {
        return Err(Refusal::WrongSize);
    };
    Ok(read_elements::<T>(alloc, elements)?)
}

/// Appends the encoding of an array. Refused as `TooLarge` where a size word would be 4294967296 or more, before a byte is
/// appended, and else only with the sink's error; the sink may then have taken a beginning of the encoding. Of an array of units
/// only the child header is written.
pub fn put_array<T: CanonicalFixedSizedPod, S: PodSink>(
    sink: &mut S,
    values: &[T],
) -> Result<(), GenError>
    ensures ok { OnOk result (S.appends sink.old
        (encoded_pod array_type (array_body T.kind (map T.fixed values.now))) sink.new) }
    ensures typed { OnOk result (AreOf T.kind (map T.fixed values.now)) }
    ensures fits { OnOk result (length (array_body T.kind (map T.fixed values.now)) < size_limit) }
    ensures begun { OnErr result (Begun S.appends sink.old
        (encoded_pod array_type (array_body T.kind (map T.fixed values.now))) sink.new) }
    ensures refused { IfErr result (RefusesPiece ⊥ (size_limit ≤ length (array_body T.kind (map T.fixed values.now)))
        (λ e. S.refuses sink.old (length
        (encoded_pod array_type (array_body T.kind (map T.fixed values.now)))) sink.new e) sink.old sink.new) }
{
    let Some(size) = body_len::<T>(HEADER_LEN, values.len()) else {
        return Err(GenError::TooLarge);
    };
    let header = joined(
        two_words(size, SpaTypes::Array.0),
        two_words(T::SIZE as u32, T::TYPE),
    );
    put_parts(sink, &header, values, size)
}
