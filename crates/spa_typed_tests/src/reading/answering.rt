//! A visitor that returns the answers of the readers of members and of properties as text.
ghost use Rattle.std.specs.Prelude.{⊤, IfErr, IfOk};

use spa_fixed_sized::DeserializeError;
use spa_typed_read::{Never, ObjectPodDeserializer, StructPodDeserializer, Visit, Visitor};

/// Lets go of what is handed over, and declines it.
pub(crate) fn declined<'de>(_given: Visit<'de, Never>) -> DeserializeError<&'de [u8]> {
    DeserializeError::UnsupportedType
}

/// Reads two members or two properties, and returns the two answers as text. The text is in the reader's memory.
#[derive(Drop)]
pub(crate) struct AnsweringVisitor;

impl<'de> Visitor<'de> for AnsweringVisitor {
    type Value = String;

    type ArrayElem = Never;

    ghost visits = { λ _ _ _. ⊤ };

    ghost visits_struct = { λ _ _ _. ⊤ };

    ghost visits_object = { λ _ _ _ _ _. ⊤ };

    fn visit(&self, given: Visit<'de, Never>) -> Result<String, DeserializeError<&'de [u8]>>
        ensures made { IfOk result (λ it. ⊤) }
        ensures declined { IfErr result (λ e. ⊤) }
    {
        Err(declined(given))
    }

    #[tactic(auto, using(spa_typed_read::proofs::Stepping::further_trans, spa_typed_read::proofs::Stepping::all_left))]
    fn visit_struct(
        &self,
        reader: &mut StructPodDeserializer<'de>,
    ) -> Result<String, DeserializeError<&'de [u8]>> {
        let first = reader.deserialize_field::<i32>()?;
        let second = reader.deserialize_field::<i32>()?;
        let text = format!(in reader.allocator(); "{first:?} {second:?}")?;
        Ok(text)
    }

    #[tactic(auto, using(spa_typed_read::proofs::Stepping::further_in_trans, spa_typed_read::proofs::Stepping::all_left_in))]
    fn visit_object(
        &self,
        reader: &mut ObjectPodDeserializer<'de>,
    ) -> Result<String, DeserializeError<&'de [u8]>> {
        let first = reader.deserialize_property::<i32>()?;
        let second = reader.deserialize_property::<i32>()?;
        let text = format!(in reader.allocator(); "{first:?} {second:?}")?;
        Ok(text)
    }
}
