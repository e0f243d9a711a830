//! Views of the values of None choices.
ghost use Rattle.std.specs.Prelude.{◌≡◌, IfNone, IfSome, drop, false, true};
ghost use Rattle.spa_format.specs.Front.{front_of};
ghost use Rattle.spa_format.specs.Lenient.{Conveys};
ghost use Rattle.spa_format.specs.Pod.{IsPod};
ghost use Rattle.spa_format.specs.Tree.{Tree};
ghost use Rattle.spa_view.specs.Settled.{child_place, holds_value, settled_bytes, settled_of};

use crate::pod::{Pod, SIZE_AT};
use crate::type_tests::{CHOICE_SHAPE_AT, FOUR_WORDS};
use spa_bytes::{extent_of, u32_at};
use spa_fixed_sized::NONE_SHAPE;

/// The offset of the child header in a choice's pod: behind its own header, its shape and its flags.
const CHILD_AT: usize = 16;

impl<'a> Pod<'a> {
    ghost use Rattle.spa_view.specs.View.{pod_bytes};

    /// The pod of a None choice's value; of any other pod the pod itself. Fixation leaves a None choice where a format had
    /// another choice, so values of formats are read settled.
    ///
    /// The bytes of a None choice's value are a pod: the choice's child header is its header, and the bytes behind the value in
    /// the choice are its padding. A None choice whose child size is greater than its body has room for stays itself.
    pub fn settled(&self) -> Pod<'a>
        ensures bytes { pod_bytes result ≡ settled_bytes (pod_bytes self.now) }
        ensures accepted { (v : Tree) → IsPod (pod_bytes self.now) v → IsPod (pod_bytes result) (settled_of v) }
        ensures conveyed { (v : Tree) → Conveys (pod_bytes self.now) v → Conveys (pod_bytes result) (settled_of v) }
    {
        match self.none_value() {
            Some(value) => value,
            None => *self,
        }
    }

    /// The value of a None choice. None: the pod is another one, or the value isn't whole in the choice's body.
    fn none_value(&self) -> Option<Pod<'a>>
        ensures there { IfSome result (λ value. holds_value (pod_bytes self.now) ≡ true) }
        ensures value { IfSome result (λ value. pod_bytes value ≡ front_of (drop child_place (pod_bytes self.now))) }
        ensures none { IfNone result (holds_value (pod_bytes self.now) ≡ false) }
    {
        if !self.is_choice() || u32_at(self.bytes, CHOICE_SHAPE_AT) != NONE_SHAPE {
            return None;
        }
        let (_, child) = self.bytes.split_at(CHILD_AT);
        let size = u32_at(child, SIZE_AT);
        if FOUR_WORDS as usize + size as usize > self.size() as usize {
            return None;
        }
        Some(Pod {
            bytes: &child[..extent_of(size)],
        })
    }
}
