//! Writes the elements of arrays and choices.
ghost use Rattle.std.specs.Prelude.{◌≡◌, ◌+◌, ◌*◌, ◌<◌, ◌≤◌, ◌++◌, IfErr, IfNone, IfSome, OnErr, OnOk, length, map, take};
ghost use Rattle.spa_sink.specs.Writing.{Begun, Sent};
ghost use Rattle.spa_format.specs.Encoding.{fixed_bodies};
ghost use Rattle.spa_format.specs.Typed.{AreOf};
ghost use Rattle.spa_format.specs.Words.{padding, size_limit};

use crate::fixed::CanonicalFixedSizedPod;
use spa_sink::{GenError, PodSink, put_padding};

/// The greatest number of elements that are handed to a sink at once.
const BLOCK_COUNT: usize = 32;

/// The greatest length in bytes of `BLOCK_COUNT` elements.
const BLOCK_LEN: usize = 256;

/// The greatest number of elements of a short list.
const SHORT_COUNT: usize = 4;

/// The greatest length in bytes of `SHORT_COUNT` elements.
const SHORT_LEN: usize = 32;

/// Writes the bodies of these values one after another to the front of a block.
#[inline(always)]
fn fill<T: CanonicalFixedSizedPod>(block: &mut [u8], values: &[T])
    requires { length values.now * 8 ≤ length block.old }
    ensures same_length { length block.new ≡ length block.old }
    ensures bodies { take (length values.now * T.SIZE) block.new ≡ fixed_bodies (map T.fixed values.now) }
    ensures typed { AreOf T.kind (map T.fixed values.now) }
{
    let mut at = 0;
    for value in values {
        block[at..at + T::SIZE].copy_from_slice(&value.padded_body()[..T::SIZE]);
        at += T::SIZE;
    }
}

/// Appends the bodies of the elements of a short list one after another.
fn put_few<T: CanonicalFixedSizedPod, S: PodSink>(
    sink: &mut S,
    values: &[T],
) -> Result<(), GenError>
    requires { length values.now ≤ SHORT_COUNT }
    ensures ok { OnOk result (Sent S.appends sink.old (fixed_bodies (map T.fixed values.now)) sink.new) }
    ensures typed { OnOk result (AreOf T.kind (map T.fixed values.now)) }
    ensures begun { OnErr result (Begun S.appends sink.old (fixed_bodies (map T.fixed values.now)) sink.new) }
    ensures cause { IfErr result (λ e. S.refuses sink.old (length (fixed_bodies (map T.fixed values.now))) sink.new e) }
{
    if values.is_empty() {
        return Ok(());
    }
    let mut block = [0; SHORT_LEN];
    fill(&mut block, values);
    sink.append(&block[..values.len() * T::SIZE])
}

/// Appends the bodies of the elements one after another, in blocks.
pub(crate) fn put_elements<T: CanonicalFixedSizedPod, S: PodSink>(
    sink: &mut S,
    values: &[T],
) -> Result<(), GenError>
    ensures ok { OnOk result (Sent S.appends sink.old (fixed_bodies (map T.fixed values.now)) sink.new) }
    ensures typed { OnOk result (AreOf T.kind (map T.fixed values.now)) }
    ensures begun { OnErr result (Begun S.appends sink.old (fixed_bodies (map T.fixed values.now)) sink.new) }
    ensures cause { IfErr result (λ e. S.refuses sink.old (length (fixed_bodies (map T.fixed values.now))) sink.new e) }
{
    if T::SIZE == 0 {
        return Ok(());
    }
    if values.len() <= SHORT_COUNT {
        return put_few(sink, values);
    }
    let mut block = [0; BLOCK_LEN];
    let mut left = values;
    while !left.is_empty() {
        let (first, rest) = left.split_at(left.len().min(BLOCK_COUNT));
        fill(&mut block, first);
        sink.append(&block[..first.len() * T::SIZE])?;
        left = rest;
    }
    Ok(())
}

/// The length of a body with `before` bytes and `count` elements behind them. None: it doesn't fit a size word.
pub(crate) fn body_len<T: CanonicalFixedSizedPod>(before: usize, count: usize) -> Option<u32>
    ensures some { IfSome result (λ size. size ≡ before + count * T.SIZE) }
    ensures fits { IfSome result (λ size. size < size_limit) }
    ensures none { IfNone result (size_limit ≤ before + count * T.SIZE) }
{
    let elements = count.checked_mul(T::SIZE)?;
    let size = elements.checked_add(before)?;
    u32::try_from(size).ok()
}

/// Appends a header, the bodies of the values, and the padding behind a body of this size.
pub(crate) fn put_parts<T: CanonicalFixedSizedPod, S: PodSink>(
    sink: &mut S,
    header: &[u8],
    values: &[T],
    size: u32,
) -> Result<(), GenError>
    ensures ok { OnOk result (S.appends sink.old
        (header.now ++ (fixed_bodies (map T.fixed values.now) ++ padding size)) sink.new) }
    ensures typed { OnOk result (AreOf T.kind (map T.fixed values.now)) }
    ensures begun { OnErr result (Begun S.appends sink.old
        (header.now ++ (fixed_bodies (map T.fixed values.now) ++ padding size)) sink.new) }
    ensures cause { IfErr result
        (λ e. S.refuses sink.old (length
        (header.now ++ (fixed_bodies (map T.fixed values.now) ++ padding size))) sink.new e) }
{
    sink.append(header)?;
    put_elements(sink, values)?;
    put_padding(sink, size as usize)
}
