//! Values that are read through None choices, which fixation leaves in place of other choices.
ghost use Rattle.std.specs.Prelude.{◌≡◌, IfNone, IfSome};
ghost use Rattle.spa_format.specs.Front.{front_of};
ghost use Rattle.spa_format.specs.Tree.{fixed};
ghost use Rattle.spa_typed_read.specs.Exactly.{BeginsChoice, RefusesSettled};
ghost use Rattle.spa_typed_read.specs.ExactlyLaws.{made_exactly, settled_exactly};
ghost use Rattle.spa_view.specs.Settled.{settled_of};
ghost use Rattle.spa_view.specs.View.{pod_bytes};

use crate::deserializer::{PodDeserialize, PodDeserializer, ReadResult};
use crate::exact::ExactDeserialize;
use spa_bodies::error_at;
use spa_canonical::{Rejected, look_at_pod};
use spa_fixed_sized::DeserializeError;
use spa_utils::SpaTypes;
use spa_view::{FixedPod, FromPod, Pod};

/// A value of one of the ten types of fixed size, read as itself or as the value of a None choice. Fixation leaves a None choice where a
/// format had another choice, so `Required<KEY, Settled<i32>>` reads a property also of a fixated format. It asks for no memory.
///
/// The whole object has to be a pod. Formats of real programs may have None choices over arrays or texts, which are no pods: rewrite them by
/// `rewrite_leniently` first.
#[derive(Drop)]
pub struct Settled<T>(pub T);

/// The zero-copy view of the pod at the front, where it is a choice's. None: the front isn't there or is of another type.
#[inline(always)]
fn choice_at(input: &[u8]) -> Option<Pod<'_>>
    ensures there { IfSome result (λ _. BeginsChoice input.now) }
    ensures pod { IfSome result (λ pod. pod_bytes pod ≡ front_of input.now) }
    ensures none { IfNone result (¬ (BeginsChoice input.now)) }
{
    let pod = Pod::from_bytes(input)?;
    if pod.type_().0 != SpaTypes::Choice.0 {
        return None;
    }
    Some(pod)
}

/// Refusals: where the front is no choice, those of the type. Of a choice: `InvalidType`, `InvalidChoiceType`, `MissingChoiceValues` and
/// `WrongSize`, each where that fault stands in it, and else `UnsupportedType`, where it is of another shape or over another type.
impl<'de, T: FixedPod> PodDeserialize<'de> for Settled<T> {
    ghost reads = { λ value it. settled_of value ≡ fixed (T.fixed it.0) };

    ghost refuses = { RefusesSettled T.kind (λ value (x : T). settled_of value ≡ fixed (T.fixed x)) };

    fn deserialize(deserializer: PodDeserializer<'de>) -> ReadResult<'de, Settled<T>> {
        let Some(pod) = choice_at(deserializer.input) else {
            return match deserializer.fixed_pod::<T>() {
                Ok((value, success)) => Ok((Settled(value), success)),
                Err(e) => Err(e),
            };
        };
        match look_at_pod(deserializer.input) {
            Ok(accepted) => match T::from_pod(&pod.settled()) {
                Some(value) => Ok((Settled(value), deserializer.after(accepted.rest))),
                None => Err(DeserializeError::UnsupportedType),
            },
            Err(Rejected::Fault(place, _, why)) => Err(error_at(place, why)),
            Err(Rejected::TooDeep) => Err(DeserializeError::UnsupportedType),
        }
    }
}

impl<'de, T: FixedPod> ExactDeserialize<'de> for Settled<T> {
    ghost takes_memory = { λ _. ⊥ };

    ghost exactly = { λ b e r. made_exactly (λ value (x : T). settled_of value ≡ fixed (T.fixed x)) ⊥ (λ it. it.0) b e (settled_exactly T.kind T.fixed T.its_kind b e r) };
}
