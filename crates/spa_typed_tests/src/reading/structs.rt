//! Visitors that read no member of a struct, or go on after a refusal.
ghost use Rattle.std.specs.Prelude.{⊤, IfErr, IfOk};

use crate::reading::answering::declined;
use spa_fixed_sized::DeserializeError;
use spa_typed_read::{
    DeserializeSuccess, Never, ObjectPodDeserializer, PodDeserialize, PodDeserializer,
    StructPodDeserializer, Visit, Visitor,
};

/// Reads no member.
#[derive(Drop)]
struct IdleVisitor;

/// Reads the first member as another type, goes on, and says that all is well.
#[derive(Drop)]
struct StubbornVisitor;

impl<'de> Visitor<'de> for IdleVisitor {
    type Value = ();

    type ArrayElem = Never;

    ghost visits = { λ _ _ _. ⊤ };

    ghost visits_struct = { λ _ _ _. ⊤ };

    ghost visits_object = { λ _ _ _ _ _. ⊤ };

    fn visit(&self, given: Visit<'de, Never>) -> Result<(), DeserializeError<&'de [u8]>>
        ensures made { IfOk result (λ it. ⊤) }
        ensures declined { IfErr result (λ e. ⊤) }
    {
        let _error = declined(given);
        Ok(())
    }

    #[tactic(auto, using(spa_typed_read::proofs::Stepping::further_same, spa_typed_read::proofs::Stepping::all_left))]
    fn visit_struct(
        &self,
        _reader: &mut StructPodDeserializer<'de>,
    ) -> Result<(), DeserializeError<&'de [u8]>> {
        Ok(())
    }

    #[tactic(auto, using(spa_typed_read::proofs::Stepping::further_in_same, spa_typed_read::proofs::Stepping::all_left_in))]
    fn visit_object(
        &self,
        _reader: &mut ObjectPodDeserializer<'de>,
    ) -> Result<(), DeserializeError<&'de [u8]>> {
        Ok(())
    }
}

impl<'de> Visitor<'de> for StubbornVisitor {
    type Value = ();

    type ArrayElem = Never;

    ghost visits = { λ _ _ _. ⊤ };

    ghost visits_struct = { λ _ _ _. ⊤ };

    ghost visits_object = { λ _ _ _ _ _. ⊤ };

    fn visit(&self, given: Visit<'de, Never>) -> Result<(), DeserializeError<&'de [u8]>>
        ensures made { IfOk result (λ it. ⊤) }
        ensures declined { IfErr result (λ e. ⊤) }
    {
        let _error = declined(given);
        Ok(())
    }

    #[tactic(auto, using(spa_typed_read::proofs::Stepping::further_trans, spa_typed_read::proofs::Stepping::all_left))]
    fn visit_struct(
        &self,
        reader: &mut StructPodDeserializer<'de>,
    ) -> Result<(), DeserializeError<&'de [u8]>> {
        let first = reader.deserialize_field::<i64>();
        let second = reader.deserialize_field::<i32>();
        if refused_as(&first, "Tag") && refused_as(&second, "FailedReader") {
            return Ok(());
        }
        Err(DeserializeError::UnsupportedType)
    }

    #[tactic(auto, using(spa_typed_read::proofs::Stepping::further_in_same))]
    fn visit_object(
        &self,
        _reader: &mut ObjectPodDeserializer<'de>,
    ) -> Result<(), DeserializeError<&'de [u8]>> {
        Err(DeserializeError::UnsupportedType)
    }
}

/// Is the answer a refusal of this name?
fn refused_as<T>(answer: &Result<T, DeserializeError<&[u8]>>, name: &str) -> bool {
    match answer {
        Ok(_) => false,
        Err(e) => e.kind() == name,
    }
}

/// A unit that is read by one of these visitors.
#[derive(Drop)]
pub(crate) struct Idle;

impl<'de> PodDeserialize<'de> for Idle {
    ghost reads = { λ _ _. ⊤ };

    fn deserialize(
        deserializer: PodDeserializer<'de>,
    ) -> Result<(Idle, DeserializeSuccess<'de>), DeserializeError<&'de [u8]>> {
        let (_, success) = deserializer.deserialize_struct(IdleVisitor)?;
        Ok((Idle, success))
    }
}

#[derive(Drop)]
pub(crate) struct Stubborn;

impl<'de> PodDeserialize<'de> for Stubborn {
    ghost reads = { λ _ _. ⊤ };

    fn deserialize(
        deserializer: PodDeserializer<'de>,
    ) -> Result<(Stubborn, DeserializeSuccess<'de>), DeserializeError<&'de [u8]>> {
        let (_, success) = deserializer.deserialize_struct(StubbornVisitor)?;
        Ok((Stubborn, success))
    }
}
