//! Writes whole pods of the types of fixed size.
ghost use Rattle.std.specs.Prelude.{◌≡◌, ◌++◌, ℕ, IfErr, OnErr, OnOk, length, take};
ghost use Rattle.spa_format.specs.Kind.{fixed_body};
ghost use Rattle.spa_format.specs.Encoding.{encoded_pod};
ghost use Rattle.spa_format.specs.Typed.{IsTypedFixed};
ghost use Rattle.spa_format.specs.Words.{extent};

use crate::fixed::CanonicalFixedSizedPod;
use spa_bytes::{HEADER_LEN, extent_of, two_words};
use spa_sink::{GenError, PodSink};

/// The length in bytes of the longest pod of a type of fixed size: a header, and a body with its padding.
pub const LONGEST_POD_LEN: usize = 16;

/// Appends the encoding of a value of fixed size, in one call of the sink. Refused only with the sink's error.
pub fn put_fixed<T: CanonicalFixedSizedPod, S: PodSink>(
    sink: &mut S,
    value: &T,
) -> Result<(), GenError>
    ensures ok { OnOk result (S.appends sink.old (encoded_pod T.TYPE (fixed_body (T.fixed value.now))) sink.new) }
    ensures typed { IsTypedFixed (T.fixed value.now) }
    ensures begun { OnErr result ((count : ℕ)
        × S.appends sink.old (take count (encoded_pod T.TYPE (fixed_body (T.fixed value.now)))) sink.new) }
    ensures cause { IfErr result
        (λ e. S.refuses sink.old (length (encoded_pod T.TYPE (fixed_body (T.fixed value.now)))) sink.new e) }
{
    sink.append(&pod_bytes(value)[..extent_of(T::SIZE as u32)])
}

/// The encoding of a value of fixed size, and zeros behind it up to sixteen bytes.
#[inline(always)]
pub fn pod_bytes<T: CanonicalFixedSizedPod>(value: &T) -> [u8; LONGEST_POD_LEN]
    ensures encoding { take (extent T.SIZE) result ≡ encoded_pod T.TYPE (fixed_body (T.fixed value.now)) }
    ensures typed { IsTypedFixed (T.fixed value.now) }
{
    let mut pod = [0; LONGEST_POD_LEN];
    let (header, body) = pod.split_at_mut(HEADER_LEN);
    body.copy_from_slice(&value.padded_body());
    header.copy_from_slice(&two_words(T::SIZE as u32, T::TYPE));
    pod
}
