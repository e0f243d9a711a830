//! A user's own object, read property by property.
ghost use Rattle.std.specs.Prelude.{⊤, ◌≡◌, ℕ, IfErr, IfOk};
ghost use Rattle.spa_format.specs.Kind.{float, int};
ghost use Rattle.spa_format.specs.Tree.{fixed, no_properties, object, property, string};

use crate::reading::answering::declined;
use crate::reading::answers::refused;
use spa_fixed_sized::DeserializeError;
use spa_typed_read::{
    DeserializeSuccess, Never, ObjectPodDeserializer, PodDeserialize, PodDeserializer,
    StructPodDeserializer, Visit, Visitor,
};
use spa_utils::Float32;
use std::alloc::{AllocError, Global};

/// An object of a device's name and its volume.
#[derive(Drop)]
struct Device<'de> {
    name: &'de str,
    volume: Float32,
}

/// The key of the name.
const NAME: u32 = 1;

/// The key of the volume.
const VOLUME: u32 = 2;

#[derive(Drop)]
struct DeviceVisitor;

impl<'de> Visitor<'de> for DeviceVisitor {
    type Value = Device<'de>;

    type ArrayElem = Never;

    ghost visits = { λ _ _ _. ⊥ };

    ghost visits_struct = { λ _ _ _. ⊥ };

    ghost visits_object = { λ _ _ _ properties it. (f : ℕ) × (g : ℕ) × (properties ≡ property 1 f (string it.name.now) (property 2 g (fixed (float it.volume.0)) no_properties)) };

    fn visit(&self, given: Visit<'de, Never>) -> Result<Device<'de>, DeserializeError<&'de [u8]>>
        ensures made { IfOk result (λ it. ⊥) }
        ensures declined { IfErr result (λ e. ⊤) }
    {
        Err(declined(given))
    }

    #[tactic(auto, using(spa_typed_read::proofs::Stepping::further_same))]
    fn visit_struct(
        &self,
        _reader: &mut StructPodDeserializer<'de>,
    ) -> Result<Device<'de>, DeserializeError<&'de [u8]>> {
        Err(DeserializeError::UnsupportedType)
    }

    #[tactic(auto, using(spa_typed_read::proofs::Stepping::further_in_trans))]
    fn visit_object(
        &self,
        reader: &mut ObjectPodDeserializer<'de>,
    ) -> Result<Device<'de>, DeserializeError<&'de [u8]>> {
        let (name, _) = reader.deserialize_property_key::<&str>(NAME)?;
        let (volume, _) = reader.deserialize_property_key::<Float32>(VOLUME)?;
        Ok(Device { name, volume })
    }
}

impl<'de> PodDeserialize<'de> for Device<'de> {
    ghost reads = { λ value it. (t : ℕ) × (i : ℕ) × (f : ℕ) × (g : ℕ) × (value ≡ object t i (property 1 f (string it.name.now) (property 2 g (fixed (float it.volume.0)) no_properties))) };

    fn deserialize(
        deserializer: PodDeserializer<'de>,
    ) -> Result<(Device<'de>, DeserializeSuccess<'de>), DeserializeError<&'de [u8]>> {
        deserializer.deserialize_object(DeviceVisitor)
    }
}

/// What a read of a device answers.
pub(crate) fn device_said(alloc: Global, input: &[u8]) -> Result<String, AllocError> {
    let read: Result<(&[u8], Device), DeserializeError<&[u8]>> = PodDeserializer::deserialize_from(
        alloc, input,
    );
    match read {
        Ok((_, device)) => device_text(alloc, device.name, device.volume),
        Err(error) => refused(alloc, error),
    }
}

fn device_text(alloc: Global, name: &str, volume: Float32) -> Result<String, AllocError> {
    format!(in alloc; "{name} {}", volume.0)
}

/// Asks for another key than the first one, and then for the first one.
#[derive(Drop)]
struct AskingVisitor;

impl<'de> Visitor<'de> for AskingVisitor {
    type Value = ();

    type ArrayElem = Never;

    ghost visits = { λ _ _ _. ⊤ };

    ghost visits_struct = { λ _ _ _. ⊤ };

    ghost visits_object = { λ _ _ _ _ _. ⊤ };

    fn visit(&self, given: Visit<'de, Never>) -> Result<(), DeserializeError<&'de [u8]>>
        ensures made { IfOk result (λ it. ⊤) }
        ensures declined { IfErr result (λ e. ⊤) }
    {
        let _error = declined(given);
        Ok(())
    }

    #[tactic(auto, using(spa_typed_read::proofs::Stepping::further_same))]
    fn visit_struct(
        &self,
        _reader: &mut StructPodDeserializer<'de>,
    ) -> Result<(), DeserializeError<&'de [u8]>> {
        Err(DeserializeError::UnsupportedType)
    }

    #[tactic(auto, using(spa_typed_read::proofs::Stepping::further_in_trans, spa_typed_read::proofs::Stepping::all_left_in))]
    fn visit_object(
        &self,
        reader: &mut ObjectPodDeserializer<'de>,
    ) -> Result<(), DeserializeError<&'de [u8]>> {
        let first = reader.deserialize_property_key::<i32>(2);
        let second = reader.deserialize_property_key::<i32>(1);
        if is_other_key(&first, 1) && is_missing(&second) {
            return Ok(());
        }
        Err(DeserializeError::UnsupportedType)
    }
}

/// Is the answer a refusal for this key?
fn is_other_key<T>(answer: &Result<T, DeserializeError<&[u8]>>, key: u32) -> bool {
    match answer {
        Err(DeserializeError::PropertyWrongKey(found)) => *found == key,
        _ => false,
    }
}

/// Is the answer a refusal for the end?
fn is_missing<T>(answer: &Result<T, DeserializeError<&[u8]>>) -> bool {
    matches!(answer, Err(DeserializeError::PropertyMissing))
}

#[derive(Drop)]
pub(crate) struct Asking;

impl<'de> PodDeserialize<'de> for Asking {
    ghost reads = { λ _ _. ⊤ };

    fn deserialize(
        deserializer: PodDeserializer<'de>,
    ) -> Result<(Asking, DeserializeSuccess<'de>), DeserializeError<&'de [u8]>> {
        let (_, success) = deserializer.deserialize_object(AskingVisitor)?;
        Ok((Asking, success))
    }
}
