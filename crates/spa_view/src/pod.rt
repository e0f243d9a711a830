//! Zero-copy views of whole pods.
ghost use Rattle.std.specs.Prelude.{◌≡◌, ◌≤◌, ◌<◌, ◌+◌, ◌^◌, IfNone, IfSome, length, take};
ghost use Rattle.spa_format.specs.Front.{HasFront, front_of};
ghost use Rattle.spa_format.specs.Words.{body_of, extent, header_size, size_limit, word_at};

use spa_bytes::{HEADER_LEN, extent_of, u32_at};
use spa_utils::SpaTypes;

/// The offsets of the size word and of the type word in a pod.
pub(crate) const SIZE_AT: usize = 0;

const TYPE_AT: usize = 4;

/// A zero-copy view of a whole pod, with its padding, in bytes that outlive it.
#[derive(Clone, Copy, Debug)]
pub struct Pod<'a> {
    pub(crate) bytes: &'a [u8],
    ghost whole: { length bytes.now ≡ extent (word_at bytes.now 0) },
}

impl<'a> Pod<'a> {
    ghost use Rattle.spa_view.specs.View.{pod_bytes};

    /// The pod at the front of the bytes. None: there are fewer than 8 bytes, or fewer than the whole pod has.
    pub fn from_bytes(bytes: &'a [u8]) -> Option<Pod<'a>>
        ensures there { IfSome result (λ pod. HasFront bytes.now) }
        ensures front { IfSome result (λ pod. pod_bytes pod ≡ front_of bytes.now) }
        ensures none { IfNone result (¬ (HasFront bytes.now)) }
    {
        if bytes.len() < HEADER_LEN {
            return None;
        }
        let extent = extent_of(u32_at(bytes, SIZE_AT));
        if bytes.len() < extent {
            return None;
        }
        Some(Pod {
            bytes: &bytes[..extent],
        })
    }

    /// Header and body, without the padding.
    pub fn as_bytes(&self) -> &'a [u8]
        ensures { result.now ≡ take (header_size + word_at (pod_bytes self.now) 0) (pod_bytes self.now) }
    {
        &self.bytes[..HEADER_LEN + self.size() as usize]
    }

    /// The length of the pod in bytes, with header and padding.
    pub fn extent(&self) -> usize
        ensures { result ≡ length (pod_bytes self.now) }
    {
        self.bytes.len()
    }

    /// The type in the header.
    pub fn type_(&self) -> SpaTypes
        ensures { result.0 ≡ word_at (pod_bytes self.now) 4 }
    {
        SpaTypes(u32_at(self.bytes, TYPE_AT))
    }

    /// The size of the body, in bytes.
    pub fn size(&self) -> u32
        ensures { result ≡ word_at (pod_bytes self.now) 0 }
    {
        u32_at(self.bytes, SIZE_AT)
    }

    /// The bytes of the body.
    pub(crate) fn body(&self) -> &'a [u8]
        ensures body { result.now ≡ body_of (pod_bytes self.now) }
        ensures length { length result.now ≡ word_at (pod_bytes self.now) 0 }
        ensures small { length result.now < size_limit }
    {
        &self.bytes[HEADER_LEN..HEADER_LEN + self.size() as usize]
    }
}
