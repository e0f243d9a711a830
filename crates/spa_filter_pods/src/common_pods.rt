//! Filters two values, from their pods to the pod of the outcome.
ghost use Rattle.std.specs.Prelude.{IfErr, OnOk};
ghost use Rattle.spa_format.specs.Tree.{Tree};
ghost use Rattle.spa_filter.specs.CommonPods.{IsCommonAppended, IsPodRefusal};
ghost use Rattle.spa_keyed_objects.specs.CanonicalPods.{IsCanonicalPod};

use spa_filter::{FilterError, put_common};
use spa_object_view::{are_same, is_plain, put_pod};
use std::alloc::Global;

/// Appends the canonical pod of a value that admits exactly what the values of two canonical pods admit, which two objects have under this key.
pub(crate) fn put_met(
    alloc: Global,
    key: u32,
    out: &mut Vec<u8>,
    a: &[u8],
    b: &[u8],
) -> Result<(), FilterError>
    ensures appended { OnOk result ((v w : Tree) → IsCanonicalPod v a.now → IsCanonicalPod w b.now
        → IsCommonAppended v w out.old.items out.new.items) }
    ensures cause { IfErr result (λ e. (v w : Tree) → IsCanonicalPod v a.now → IsCanonicalPod w b.now
        → IsPodRefusal key v w e) }
{
    if !is_plain(a) || !is_plain(b) {
        return put_common(alloc, key, out, a, b);
    }
    if !are_same(a, b) {
        return Err(FilterError::Disjoint(key));
    }
    if !put_pod(out, a) {
        return Err(FilterError::OutOfMemory);
    }
    Ok(())
}
