//! Fixates objects in the caller's memory.
ghost use Rattle.std.specs.Prelude.{◌≡◌, ℕ};
ghost use Rattle.spa_format.specs.Fixation.{default_properties, fixated_bytes};
ghost use Rattle.spa_format.specs.Front.{Begins};
ghost use Rattle.spa_format.specs.Tree.{Properties, object};
ghost use Rattle.spa_format.specs.Walk.{HasObject};
ghost use Rattle.spav.specs.Answers.{IsChanged, IsDone, IsInvalid};

use crate::answers::{DONE, INVALID};
use spa_view::PodObject;

/// Sets each choice among the properties of the object at the front to its default, in place, unless the property's flags have
/// DONT_FIXATE.
///
/// 0: done; where the object was accepted, the bytes are now a pod of the fixated one. -EINVAL: no object is at the front, and nothing is
/// changed. Bytes that weren't accepted can become an accepted pod: a choice of an unknown shape becomes a None choice.
#[unsafe(no_mangle)]
pub extern "C" fn spav_fixate(bytes: &mut [u8]) -> i32
    ensures object { IsDone result → HasObject bytes.old }
    ensures fixated { IsDone result → bytes.new ≡ fixated_bytes bytes.old }
    ensures accepted { IsDone result → (t i : ℕ) (ps : Properties) → Begins bytes.old (object t i ps) →
        Begins bytes.new (object t i (default_properties ps)) }
    ensures refused { IsInvalid result → ¬ (HasObject bytes.old) }
    ensures unchanged { IsInvalid result → bytes.new ≡ bytes.old }
    ensures answers { IsChanged result }
{
    match PodObject::fixate(bytes) {
        Ok(()) => DONE,
        Err(_) => INVALID,
    }
}
