//! Finds by their first properties that two objects don't meet, as with most pairs that don't. It takes no memory.
ghost use Rattle.std.specs.Prelude.{◌≡◌, IfSome, true};
ghost use Rattle.spa_format.specs.Tree.{Properties, Tree};
ghost use Rattle.spa_object_view.specs.Written.{AreApart, AreApartAtFirst, AreWritten};
ghost use Rattle.spa_keyed_objects.specs.CanonicalPods.{IsCanonicalPod};

use crate::object_view::{find, first_property};
use crate::pods::{are_same, is_plain};
use spa_bytes::u64_at;

/// The length in bytes of a property whose pod has a body of one word or two.
const SHORT_LEN: usize = 24;

/// The key of the first of our properties, where both sides have values under it that aren't choices and differ. `None` says nothing.
#[inline(always)]
pub(crate) fn first_apart(ours: &[u8], theirs: &[u8]) -> Option<u32>
    ensures { IfSome result (λ key. (ps qs : Properties) → AreWritten ps ours.now → AreWritten qs theirs.now
        → AreApartAtFirst ps qs key) }
{
    if begin_alike(ours, theirs) {
        return None;
    }
    first_key_apart(ours, theirs)
}

/// Answers what `first_apart` does, of any properties.
#[inline(never)]
fn first_key_apart(ours: &[u8], theirs: &[u8]) -> Option<u32>
    ensures { IfSome result (λ key. (ps qs : Properties) → AreWritten ps ours.now → AreWritten qs theirs.now
        → AreApartAtFirst ps qs key) }
{
    let first = first_property(ours)?;
    let found = find(theirs, first.key)?;
    if are_apart(first.pod, found.pod) {
        return Some(first.key);
    }
    None
}

/// Whether both begin with the same property, whose pod has a body of one word or two.
fn begin_alike(ours: &[u8], theirs: &[u8]) -> bool {
    if ours.len() < SHORT_LEN || theirs.len() < SHORT_LEN {
        return false;
    }
    u64_at(ours, 0) == u64_at(theirs, 0)
        && u64_at(ours, 8) == u64_at(theirs, 8)
        && u64_at(ours, 16) == u64_at(theirs, 16)
}

/// Whether the pods of two values are of other types than choices, and differ.
fn are_apart(pod: &[u8], other: &[u8]) -> bool
    ensures { result ≡ true → (v w : Tree) → IsCanonicalPod v pod.now → IsCanonicalPod w other.now → AreApart v w }
{
    if !is_plain(pod) || !is_plain(other) {
        return false;
    }
    !are_same(pod, other)
}
