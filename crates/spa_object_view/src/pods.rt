//! Comparisons of borrowed pods.
ghost use Rattle.std.specs.Prelude.{◌≡◌, ◌≢◌, ◌↔◌, IsTrue, true};
ghost use Rattle.spa_format.specs.Pod.{IsPod};
ghost use Rattle.spa_format.specs.Tree.{Tree, choice_type, type_of};

use spa_bytes::{HEADER_LEN, SECOND_WORD, u32_at, u64_at};
use spa_utils::SpaTypes;

/// The length in bytes of a pod whose body has one word or two.
const SMALL_LEN: usize = 16;

/// Whether a pod has another type than that of choices.
pub fn is_plain(pod: &[u8]) -> bool
    ensures { result ≡ true → (v : Tree) → IsPod pod.now v → type_of v ≢ choice_type }
{
    if pod.len() < HEADER_LEN {
        return false;
    }
    u32_at(pod, SECOND_WORD) != SpaTypes::Choice.0
}

/// Whether two pods are the same bytes: those of 16 bytes are compared by two numbers each.
pub fn are_same(pod: &[u8], other: &[u8]) -> bool
    ensures { IsTrue result ↔ (pod.now ≡ other.now) }
{
    if pod.len() != SMALL_LEN || other.len() != SMALL_LEN {
        return pod == other;
    }
    if u64_at(pod, 0) != u64_at(other, 0) {
        return false;
    }
    u64_at(pod, HEADER_LEN) == u64_at(other, HEADER_LEN)
}
