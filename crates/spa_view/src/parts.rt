//! Views and their bytes, for crates that walk pods themselves.
ghost use Rattle.std.specs.Prelude.{◌≡◌, IfNone, IfSome, length};
ghost use Rattle.spa_format.specs.Front.{HasFront, front_of, rest_of};
ghost use Rattle.spa_format.specs.Words.{body_of, extent, word_at};
ghost use Rattle.spa_view.specs.View.{pod_bytes};

use crate::pod::Pod;

/// The pod at the front of the bytes, and the bytes that follow it. None: there are fewer than 8 bytes, or fewer than the whole
/// pod has.
pub fn split_first<'a>(bytes: &'a [u8]) -> Option<(Pod<'a>, &'a [u8])>
    ensures there { IfSome result (λ split. HasFront bytes.now) }
    ensures front { IfSome result (λ split. pod_bytes split.0 ≡ front_of bytes.now) }
    ensures rest { IfSome result (λ split. split.1.now ≡ rest_of bytes.now) }
    ensures none { IfNone result (¬ (HasFront bytes.now)) }
{
    let pod = Pod::from_bytes(bytes)?;
    let (_, rest) = bytes.split_at(pod.bytes.len());
    Some((pod, rest))
}

/// The whole pod, with its padding.
pub fn whole_bytes<'a>(pod: &Pod<'a>) -> &'a [u8]
    ensures bytes { result.now ≡ pod_bytes pod.now }
    ensures whole { length result.now ≡ extent (word_at result.now 0) }
{
    pod.bytes
}

/// The bytes of the pod's body.
pub fn body_bytes<'a>(pod: &Pod<'a>) -> &'a [u8]
    ensures { result.now ≡ body_of (pod_bytes pod.now) }
{
    pod.body()
}
