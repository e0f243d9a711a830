//! Appends bytes to the vector, and overwrites words in it. Each call makes room first: a refused call changes nothing,
//! but where its doc says so.
ghost use Rattle.std.specs.Prelude.{◌≡◌, ◌+◌, ◌<◌, ◌≤◌, ◌*◌, ◌++◌, List, ℕ, length, replicate, take, drop, IfErr, OnErr, OnOk};
ghost use Rattle.spa_fixed_sized.specs.Reading.{AreWhole};
ghost use Rattle.spa_format.specs.Encoding.{array_body, encoding_of, fixed_bodies, encoded_pod};
ghost use Rattle.spa_format.specs.Kind.{Fixed, fixed_body};
ghost use Rattle.spa_format.specs.Pod.{AreElements};
ghost use Rattle.spa_format.specs.Tree.{array_type, pointer};
ghost use Rattle.spa_format.specs.Words.{header_size, padding, size_limit, word_bytes};
ghost use Rattle.spa_builder.specs.Framed.{IsGrown};
ghost use Rattle.spa_utils.specs.declared.errno.TheConstants.Errno.{NOMEM};

use spa_bytes::{HEADER_LEN, POINTER_LEN, extent_of, joined, two_words};
use spa_fixed_sized::{CanonicalFixedSizedPod, next_element, pod_bytes};
use spa_spare_capacity::Written;
use spa_utils::{Errno, SpaTypes};

/// The length in bytes of a pointer's pod.
const POINTER_POD_LEN: usize = HEADER_LEN + POINTER_LEN;

/// The number of zeros behind a body of this size.
#[inline(always)]
fn padding_len(size: usize) -> usize
    ensures zeros { replicate result 0 ≡ padding size }
    ensures few { result < header_size }
{
    (HEADER_LEN - size % HEADER_LEN) % HEADER_LEN
}

/// Appends the padding behind a body of this size: zeros up to a multiple of 8 bytes.
#[inline(always)]
pub(crate) fn put_padding(bytes: &mut Written, size: usize) -> Result<(), Errno>
    ensures ok { OnOk result (bytes.new ≡ bytes.old ++ padding size) }
    ensures unchanged { OnErr result (bytes.new ≡ bytes.old) }
    ensures memory { IfErr result (λ e. e ≡ NOMEM) }
{
    bytes.append_zeros(padding_len(size))
}

/// Appends the encoding of a value of fixed size.
#[inline(always)]
pub(crate) fn put_fixed_pod<T: CanonicalFixedSizedPod>(
    bytes: &mut Written,
    value: &T,
) -> Result<(), Errno>
    ensures ok { OnOk result (bytes.new ≡ bytes.old ++ encoded_pod T.TYPE (fixed_body (T.fixed value.now))) }
    ensures unchanged { OnErr result (bytes.new ≡ bytes.old) }
    ensures memory { IfErr result (λ e. e ≡ NOMEM) }
{
    bytes.append_first(pod_bytes(value), extent_of(T::SIZE as u32))
}

/// Appends a pod whose body is given in two parts.
#[inline(always)]
pub(crate) fn put_pod(
    bytes: &mut Written,
    type_: u32,
    front: &[u8],
    back: &[u8],
) -> Result<(), Errno>
    requires { length front.now + length back.now < size_limit }
    ensures ok { OnOk result (bytes.new ≡ bytes.old ++ encoded_pod type_ (front.now ++ back.now)) }
    ensures unchanged { OnErr result (bytes.new ≡ bytes.old) }
    ensures memory { IfErr result (λ e. e ≡ NOMEM) }
{
    let size = front.len() + back.len();
    let header = two_words(size as u32, type_);
    bytes.append_parts(header, front, back, padding_len(size))
}

/// Appends the canonical bodies of the elements with these bodies. Where memory runs out, what was appended stays.
fn put_each<T: CanonicalFixedSizedPod>(bytes: &mut Written, bodies: &[u8]) -> Result<(), Errno>
    requires { AreWhole T.SIZE bodies.now }
    ensures ok { OnOk result ((xs : List Fixed) → AreElements T.kind xs bodies.now
        → bytes.new ≡ bytes.old ++ fixed_bodies xs) }
    ensures grown { IsGrown bytes.old bytes.new }
    ensures memory { IfErr result (λ e. e ≡ NOMEM) }
{
    let mut left = bodies;
    while !left.is_empty() {
        let (rest, value) = next_element::<T>(left);
        bytes.append_first(value.padded_body(), T::SIZE)?;
        left = rest;
    }
    Ok(())
}

/// Appends the encoding of an array of this type from the bodies of its elements. Where memory runs out, what was appended stays.
pub(crate) fn put_bodies<T: CanonicalFixedSizedPod>(
    bytes: &mut Written,
    bodies: &[u8],
) -> Result<(), Errno>
    requires whole { AreWhole T.SIZE bodies.now }
    requires small { header_size + length bodies.now < size_limit }
    ensures ok { OnOk result ((xs : List Fixed) → AreElements T.kind xs bodies.now
        → bytes.new ≡ bytes.old ++ encoded_pod array_type (array_body T.kind xs)) }
    ensures grown { IsGrown bytes.old bytes.new }
    ensures memory { IfErr result (λ e. e ≡ NOMEM) }
{
    let size = HEADER_LEN + bodies.len();
    let array = two_words(size as u32, SpaTypes::Array.0);
    let child = two_words(T::SIZE as u32, T::TYPE);
    bytes.append_array(joined(array, child))?;
    put_each::<T>(bytes, bodies)?;
    put_padding(bytes, size)
}

/// The encoding of a pointer.
pub(crate) fn pointer_pod(type_: u32, address: u64) -> [u8; POINTER_POD_LEN]
    ensures { result ≡ encoding_of (pointer type_ address) }
{
    let mut pod = [0; POINTER_POD_LEN];
    let (header, body) = pod.split_at_mut(HEADER_LEN);
    let (words, number) = body.split_at_mut(HEADER_LEN);
    header.copy_from_slice(&two_words(POINTER_LEN as u32, SpaTypes::Pointer.0));
    words.copy_from_slice(&two_words(type_, 0));
    number.copy_from_slice(&address.to_le_bytes());
    pod
}
