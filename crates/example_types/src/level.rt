//! A type of one's own that is written and read as one of the types of fixed size.
ghost use Rattle.std.specs.Prelude.{◌≡◌, ◌++◌, IfErr, IfOk};
ghost use Rattle.libspa.specs.Asking.{RefusesAsked, of_type};
ghost use Rattle.libspa.specs.Declining.{DeclinesAll};
ghost use Rattle.libspa.specs.Kind as kind;
ghost use Rattle.libspa.specs.Tree.{fixed};
ghost use Rattle.libspa.specs.Visiting.{RefusesArrayVisit};
ghost use Rattle.libspa.proofs.Visits.{array_exactly};
ghost use Rattle.example_types.specs.Pair.{DeclinesPair, IsPair, TakesPair, pair_tree};

use libspa::pod::FixedSizedPod;
use libspa::pod::deserialize::laws::readers_go_further;
use libspa::pod::deserialize::{
    DeserializeError, DeserializeSuccess, ExactDeserialize, ObjectPodDeserializer, PodDeserialize,
    PodDeserializer, StructPodDeserializer, Visit, Visitor,
};
use libspa::pod::serialize::{GenError, PodOutput, PodSerialize, PodSerializer, SerializeSuccess};

/// A loudness, written as an Int.
#[derive(Clone, Copy)]
pub struct Level {
    pub steps: i32,
}

impl FixedSizedPod for Level {
    type CanonicalType = i32;

    ghost to_canonical = { λ level. level.steps };

    ghost of_canonical = { λ steps. record { steps = steps } };

    fn as_canonical_type(&self) -> i32 {
        self.steps
    }

    fn from_canonical_type(canonical: &i32) -> Level {
        Level { steps: *canonical }
    }
}

impl PodSerialize for Level {
    ghost value = { λ level. fixed (kind.int level.steps) };

    ghost refuses = { λ _ _. ⊥ };

    fn serialize<O: PodOutput>(
        &self,
        serializer: PodSerializer<O>,
    ) -> Result<SerializeSuccess<O>, GenError> {
        serializer.serialized_fixed_sized_pod(self)
    }
}

/// It is refused as an Int is, and asks for no memory.
impl<'de> PodDeserialize<'de> for Level {
    ghost reads = { λ value level. value ≡ fixed (kind.int level.steps) };

    ghost refuses = { RefusesAsked (of_type (kind.type_number kind.int_kind)) ⊥ };

    fn deserialize(
        deserializer: PodDeserializer<'de>,
    ) -> Result<(Level, DeserializeSuccess<'de>), DeserializeError<&'de [u8]>> {
        let (steps, success) = i32::deserialize(deserializer)?;
        Ok((Level { steps }, success))
    }
}

/// Two levels, written one by one as an array of Ints, and read by a visitor of one's own.
#[derive(Clone, Copy)]
pub struct Pair {
    pub left: Level,
    pub right: Level,
}

impl PodSerialize for Pair {
    ghost value = { λ pair. pair_tree pair };

    fn serialize<O: PodOutput>(
        &self,
        serializer: PodSerializer<O>,
    ) -> Result<SerializeSuccess<O>, GenError> {
        let mut elements = serializer.serialize_array::<Level>(2)?;
        elements.serialize_element(&self.left)?;
        elements.serialize_element(&self.right)?;
        elements.end()
    }
}

/// Makes a pair of an array's elements, where there are two. It declines anything else.
#[derive(Drop)]
struct PairVisitor;

impl<'de> Visitor<'de> for PairVisitor {
    type Value = Pair;

    type ArrayElem = i32;

    ghost visits = { λ _ given it. TakesPair given it };

    ghost visits_struct = { λ _ _ _. ⊥ };

    ghost visits_object = { λ _ _ _ _ _. ⊥ };

    ghost declines = { λ _ given e. DeclinesPair given e };

    ghost declines_struct = { λ _ lent now e. DeclinesAll lent now e };

    ghost leaves_struct = { λ _ _ _. ⊥ };

    ghost declines_object = { λ _ lent now e. DeclinesAll lent now e };

    ghost leaves_object = { λ _ _ _. ⊥ };

    fn visit(&self, given: Visit<'de, i32>) -> Result<Pair, DeserializeError<&'de [u8]>>
        ensures made { IfOk result (TakesPair given.entry) }
        ensures declined { IfErr result (DeclinesPair given.entry) }
    {
        let elements = match given {
            Visit::Array(elements) => elements,
            other => {
                drop(other);
                return Err(DeserializeError::UnsupportedType);
            }
        };
        let [left, right] = elements.as_slice() else {
            return Err(DeserializeError::UnsupportedType);
        };
        Ok(Pair {
            left: Level { steps: *left },
            right: Level { steps: *right },
        })
    }

    fn visit_struct(
        &self,
        _reader: &mut StructPodDeserializer<'de>,
    ) -> Result<Pair, DeserializeError<&'de [u8]>> {
        readers_go_further();
        Err(DeserializeError::UnsupportedType)
    }

    fn visit_object(
        &self,
        _reader: &mut ObjectPodDeserializer<'de>,
    ) -> Result<Pair, DeserializeError<&'de [u8]>> {
        readers_go_further();
        Err(DeserializeError::UnsupportedType)
    }
}

/// An array of two Ints. Refusals: those of an array of Ints, and `UnsupportedType` where it has fewer elements or more.
impl<'de> PodDeserialize<'de> for Pair {
    ghost reads = { IsPair };

    ghost refuses = { RefusesArrayVisit kind.int_kind (λ x. kind.int x) DeclinesPair };

    fn deserialize(
        deserializer: PodDeserializer<'de>,
    ) -> Result<(Pair, DeserializeSuccess<'de>), DeserializeError<&'de [u8]>> {
        deserializer.deserialize_array::<PairVisitor, i32>(PairVisitor)
    }
}

/// It is refused exactly where no such array is there, or memory ran out for its elements.
impl<'de> ExactDeserialize<'de> for Pair {
    ghost exactly = { λ b e r. array_exactly kind.int_kind (λ x. kind.int x) IsPair DeclinesPair b e (λ v it is. (_, is)) (λ xs d. d.0) r };
}
