//! Adds the values of given pods.
ghost use Rattle.std.specs.Prelude.{◌≡◌, ◌≢◌, ℕ, List, None, is_some, length, true};
ghost use Rattle.spa_format.specs.Pod.{IsPod};
ghost use Rattle.spa_format.specs.Tree.{Tree, Trees, type_of};
ghost use Rattle.spa_format.specs.Words.{extent, word_at};
ghost use Rattle.spa_fixed_sized.specs.declared.fault.Refusal.TheVariants as refusal;
ghost use Rattle.spa_utils.specs.declared.errno.TheConstants.Errno.{INVAL, NOMEM};
ghost use Rattle.spa_canonical.specs.Canonical.{BeginsCanonical};
ghost use Rattle.spa_view.specs.View.{pod_bytes};
ghost use Rattle.spa_builder.specs.State.{Partial, State};
ghost use Rattle.spa_builder.specs.Step.{add, state_with_value, step, takes_trees};
ghost use Rattle.spa_builder.specs.Fields.{IsAt, HasState, fields_of};
ghost use Rattle.spa_builder.specs.Innermost.{innermost_of};
ghost use Rattle.spa_builder.specs.Answers.{IsCopied, Makes, MakesPod};

use crate::begun::BegunPod;
use crate::building::add_encoding;
use crate::elements::{takes_element, takes_elements};
use crate::frames::{Frames, takes_trees};
use crate::values::add_any;
use spa_bytes::{HEADER_LEN, u32_at};
use spa_canonical::{canonical_front, fixed_len};
use spa_fixed_sized::Refusal;
use spa_read::{Refused, read_value};
use spa_spare_capacity::Written;
use spa_utils::Errno;
use spa_value::Held;
use spa_view::{Pod, whole_bytes};

/// Whether a value of this type is allowed next.
fn takes_type(innermost: Option<BegunPod>, type_: u32) -> bool
    ensures { (base : ℕ) (closed : Trees) (ps : List Partial) (v : Tree) → innermost ≡ innermost_of base ps
        → type_of v ≡ type_ → result ≡ is_some (state_with_value closed ps v) }
{
    let Some(open) = innermost else {
        return true;
    };
    if !takes_elements(innermost) {
        return takes_trees(innermost);
    }
    if fixed_len(type_) as usize > HEADER_LEN {
        return false;
    }
    takes_element(open.what, type_)
}

/// The builder's error for a pod that can't be read.
fn errno_of(why: Refusal) -> Errno
    ensures memory { why ≡ refusal.OutOfMemory → result ≡ NOMEM }
    ensures value { why ≢ refusal.OutOfMemory → result ≡ INVAL }
{
    match why {
        Refusal::OutOfMemory => Errno::NOMEM,
        _ => Errno::INVAL,
    }
}

/// Reads a whole pod, and adds its value, where a value of its type is allowed next.
fn add_read(bytes: &mut Written, frames: &mut Frames, pod: &[u8]) -> Result<(), Errno>
    requires holds { HasState (fields_of bytes.old frames.old) }
    requires whole { length pod.now ≡ extent (word_at pod.now 0) }
    requires place { (s : State) (v : Tree) → IsAt (fields_of bytes.old frames.old) s → word_at pod.now 4 ≡ type_of v
        → state_with_value s.closed s.opened v ≢ None }
    ensures makes { (s : State) → IsAt (fields_of bytes.old frames.old) s
        → MakesPod s pod.now (fields_of bytes.old frames.old) (fields_of bytes.new frames.new) result }
    ensures holds { HasState (fields_of bytes.new frames.new) }
{
    match read_value(bytes.allocator(), pod, &mut 0) {
        Ok((_, value)) => add_any(bytes, frames, &*Held::from(value)),
        Err(Refused { why, .. }) => Err(errno_of(why)),
    }
}

/// Adds the value of a whole canonical pod, where a value of any type is allowed, by copying the bytes.
fn add_copied(bytes: &mut Written, frames: &mut Frames, pod: &[u8]) -> Result<(), Errno>
    requires holds { HasState (fields_of bytes.old frames.old) }
    requires whole { length pod.now ≡ extent (word_at pod.now 0) }
    requires own { (rest : List ℕ) × BeginsCanonical pod.now rest }
    requires place { (s : State) → IsAt (fields_of bytes.old frames.old) s → takes_trees s.opened ≡ true }
    ensures makes { (s : State) (v : Tree) → IsAt (fields_of bytes.old frames.old) s → IsPod pod.now v
        → Makes (step s (add v)) (fields_of bytes.old frames.old) (fields_of bytes.new frames.new) result }
    ensures holds { HasState (fields_of bytes.new frames.new) }
{
    add_encoding(bytes, frames, u32_at(pod, 0) as usize, pod)
}

/// Adds the value of a pod. Where a value of any type is allowed, the bytes of a canonical pod are copied.
pub(crate) fn add_seen(bytes: &mut Written, frames: &mut Frames, pod: &Pod<'_>) -> Result<(), Errno>
    requires { HasState (fields_of bytes.old frames.old) }
    ensures makes { (s : State) → IsAt (fields_of bytes.old frames.old) s
        → MakesPod s (pod_bytes pod.now) (fields_of bytes.old frames.old) (fields_of bytes.new frames.new) result }
    ensures copied { (s : State) (v : Tree) → IsAt (fields_of bytes.old frames.old) s → IsCopied s (pod_bytes pod.now) v
        → Makes (step s (add v)) (fields_of bytes.old frames.old) (fields_of bytes.new frames.new) result }
    ensures holds { HasState (fields_of bytes.new frames.new) }
{
    let innermost = frames.innermost();
    if !takes_type(innermost, pod.type_().0) {
        return Err(Errno::INVAL);
    }
    let whole = whole_bytes(pod);
    if !takes_trees(innermost) {
        return add_read(bytes, frames, whole);
    }
    let None = canonical_front(whole) else {
        return add_copied(bytes, frames, whole);
    };
    add_read(bytes, frames, whole)
}
