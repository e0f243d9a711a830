//! Rules by which two objects meet in a third.
ghost use Rattle.std.specs.Prelude.{◌≡◌, IfErr, None, OnOk, Option, Some, ℕ};
ghost use Rattle.spa_format.specs.Tree.{Tree};
ghost use Rattle.spa_keyed_objects.specs.CanonicalPods.{IsCanonicalPod};
ghost use Rattle.spa_keyed_objects.specs.Keys.{Offered, offered};
ghost use Rattle.spa_object_view.specs.Answers.{IsPutBy};
ghost use Rattle.spa_object_view.specs.declared.rule.Stop.TheVariants as stop;

use crate::answer::Answer;
use crate::object_view::PropertyView;
use spa_keyed_objects::Side;
use std::alloc::{AllocError, Global};

/// What the object in which two meet has under a key, of what the two have there.
pub trait Rule {
    /// Why it has nothing there.
    type Error: Copy;

    /// These may be its flags and its value, of what the two sides offer under the key.
    ghost holds: { Option Offered → Option Offered → ℕ → Tree → Type 0 };

    /// The error is one of what the two sides offer under this key.
    ghost refuses: { ℕ → Option Offered → Option Offered → Self.Error → Type 0 };

    /// Appends the property for a key of both sides, of which these are the first with it.
    fn put_both(
        alloc: Global,
        out: &mut Answer,
        first: &PropertyView<'_>,
        other: &PropertyView<'_>,
    ) -> Result<(), Self::Error>
        ensures put { OnOk result ((v w : Tree) → IsCanonicalPod v first.now.pod.now → IsCanonicalPod w other.now.pod.now
            → IsPutBy holds (Some (offered first.now.flags v)) (Some (offered other.now.flags w)) first.now.key out.old out.new) }
        ensures cause { IfErr result (λ e. (v w : Tree) → IsCanonicalPod v first.now.pod.now → IsCanonicalPod w other.now.pod.now
            → refuses first.now.key (Some (offered first.now.flags v)) (Some (offered other.now.flags w)) e) };

    /// Appends the property for a key of one side, of which this is the first with it.
    fn put_alone(out: &mut Answer, first: &PropertyView<'_>) -> Result<(), Self::Error>
        ensures first { OnOk result ((v : Tree) → IsCanonicalPod v first.now.pod.now
            → IsPutBy holds (Some (offered first.now.flags v)) None first.now.key out.old out.new) }
        ensures second { OnOk result ((v : Tree) → IsCanonicalPod v first.now.pod.now
            → IsPutBy holds None (Some (offered first.now.flags v)) first.now.key out.old out.new) }
        ensures first_cause { IfErr result (λ e. (v : Tree) → refuses first.now.key (Some (offered first.now.flags v)) None e) }
        ensures second_cause { IfErr result (λ e. (v : Tree) → refuses first.now.key None (Some (offered first.now.flags v)) e) };
}

/// Why the objects at the fronts of two inputs don't meet.
#[derive(Clone, Copy)]
pub enum Stop<E> {
    /// The front of this side isn't there or is no pod.
    Unread(Side),
    /// The front of this side is a pod, but not an object's.
    NotObject(Side),
    /// The types of the objects differ.
    TypeMismatch,
    /// The first of the first object's properties has this key, under which both have values that aren't choices and differ.
    Apart(u32),
    /// By the rule, at the first key where it refuses.
    Refused(E),
    /// The object in which they meet can't be written.
    TooLarge,
    /// Memory ran out.
    OutOfMemory,
}

impl<E> From<AllocError> for Stop<E> {
    ghost from_gives = { λ _ e. e ≡ stop.OutOfMemory };

    fn from(_error: AllocError) -> Stop<E> {
        Stop::OutOfMemory
    }
}
