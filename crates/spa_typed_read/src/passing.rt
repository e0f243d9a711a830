//! Values that are checked in the input and skipped.
ghost use Rattle.std.specs.Prelude.{⊤};
ghost use Rattle.spa_bodies.specs.Reading.{OnMemory, RefusesInput};
ghost use Rattle.spa_canonical.specs.Depth.{NestsDeeper, levels_looked_into};
ghost use Rattle.spa_typed_read.specs.ExactlyLaws.{passed_exactly};

use crate::deserializer::{PodDeserialize, PodDeserializer, ReadResult};
use crate::exact::ExactDeserialize;
use spa_bodies::error_at;
use spa_canonical::{Rejected, look_at_pod};
use spa_value::discard;

/// Any value, which is checked in the borrowed input and not kept. Memory is asked for only where the nesting depth, without containers in tail
/// position, is above 1000. The refusals are those of `deserialize_any_from`.
#[derive(Drop)]
pub struct Skipped;

impl<'de> PodDeserialize<'de> for Skipped {
    ghost reads = { λ _ _. ⊤ };

    ghost refuses = { λ input e. RefusesInput input e × OnMemory (NestsDeeper levels_looked_into input) e };

    fn deserialize(deserializer: PodDeserializer<'de>) -> ReadResult<'de, Skipped> {
        match look_at_pod(deserializer.input) {
            Ok(pod) => Ok((Skipped, deserializer.after(pod.rest))),
            Err(Rejected::Fault(place, _, why)) => Err(error_at(place, why)),
            Err(Rejected::TooDeep) => match deserializer.deserialize_any() {
                Ok((value, success)) => {
                    discard(value);
                    Ok((Skipped, success))
                }
                Err(e) => Err(e),
            },
        }
    }
}

impl<'de> ExactDeserialize<'de> for Skipped {
    ghost takes_memory = { NestsDeeper levels_looked_into };

    ghost exactly = { λ b e r. passed_exactly _ _ b e r.0 r.1 };
}
