//! An object whose property has flags: a declaration writes them and doesn't read them, so a visitor of its own reads it.
ghost use Rattle.std.specs.Prelude.{◌≡◌, IfErr, IfOk, refl};
ghost use Rattle.libspa.specs.Declining.{DeclinesAll};
ghost use Rattle.libspa.specs.DeserializeErrors.{UnsupportedType};
ghost use Rattle.libspa.proofs.Visits.{object_exactly};
ghost use Rattle.libspa.specs.Visiting.{LeavesExactlyIn, RefusesObject};
ghost use Rattle.example_types.specs.Gain.{DeclinesGain, IsGain, gain_tree};
ghost use Rattle.example_types.specs.declared.gain.Gain.{Gain};

use libspa::pod::PropertyFlags;
use libspa::pod::deserialize::laws::{members_are_fronts, readers_go_further};
use libspa::pod::deserialize::{
    DeserializeError, DeserializeSuccess, ExactDeserialize, Never, ObjectPodDeserializer,
    PodDeserialize, PodDeserializer, StructPodDeserializer, Visit, Visitor,
};
use libspa::pod::serialize::{GenError, PodOutput, SerializeAs, write_object};
use libspa::utils::Float32;
use spa_names::{keys, types};

/// A volume and nothing else, as a device's properties say it.
#[derive(Clone, Copy, Debug)]
pub struct Gain {
    /// The object's id.
    pub id: u32,
    /// The volume: 1 leaves a sound as it is.
    pub volume: Float32,
    /// The flags of its property.
    pub flags: PropertyFlags,
}

/// Makes a gain of an object's properties: of a volume with its flags. It declines anything else.
#[derive(Drop)]
struct GainVisitor;

impl<'de> Visitor<'de> for GainVisitor {
    type Value = Gain;

    type ArrayElem = Never;

    ghost visits = { λ _ _ _. ⊥ };

    ghost visits_struct = { λ _ _ _. ⊥ };

    ghost visits_object = { λ _ type id properties it. IsGain type id properties it };

    ghost declines = { λ _ _ e. e ≡ UnsupportedType };

    ghost declines_struct = { λ _ lent now e. DeclinesAll lent now e };

    ghost leaves_struct = { λ _ _ _. ⊥ };

    ghost declines_object = { λ _ lent now e. DeclinesGain lent now e };

    ghost leaves_object = { λ _ lent now. LeavesExactlyIn IsGain lent now };

    fn visit(&self, _given: Visit<'de, Never>) -> Result<Gain, DeserializeError<&'de [u8]>>
        ensures made { IfOk result (λ it. ⊥) }
        ensures declined { IfErr result (λ e. e ≡ UnsupportedType) }
    {
        Err(DeserializeError::UnsupportedType)
    }

    fn visit_struct(
        &self,
        _reader: &mut StructPodDeserializer<'de>,
    ) -> Result<Gain, DeserializeError<&'de [u8]>> {
        readers_go_further();
        Err(DeserializeError::UnsupportedType)
    }

    fn visit_object(
        &self,
        reader: &mut ObjectPodDeserializer<'de>,
    ) -> Result<Gain, DeserializeError<&'de [u8]>> {
        members_are_fronts();
        readers_go_further();
        if reader.type_() != types::OBJECT_PROPS {
            return Err(DeserializeError::UnsupportedType);
        }
        let id = reader.id();
        let (volume, flags) = reader.deserialize_property_key::<Float32>(keys::PROP_VOLUME)?;
        Ok(Gain { id, volume, flags })
    }
}

/// An object of this type and any id, with a volume alone. Refusals: those of `deserialize_object`, `UnsupportedType` where the
/// object is of another type, and those of `deserialize_property_key`. It asks for no memory.
impl<'de> PodDeserialize<'de> for Gain {
    ghost reads = { λ value it. value ≡ gain_tree it };

    ghost refuses = { RefusesObject DeclinesGain (LeavesExactlyIn IsGain) };

    fn deserialize(
        deserializer: PodDeserializer<'de>,
    ) -> Result<(Gain, DeserializeSuccess<'de>), DeserializeError<&'de [u8]>> {
        deserializer.deserialize_object(GainVisitor)
    }
}

/// It is refused exactly where no such object is there.
impl<'de> ExactDeserialize<'de> for Gain {
    ghost takes_memory = { λ _. ⊥ };

    ghost exactly = { λ b e r. object_exactly _ IsGain ⊥ _ _ b e
        (λ v it is. record { type = _; id = _; properties = _; is = is; are = record { its_type = refl; its_id = refl; its_properties = refl } })
        (λ _ _ d. d.exactly) (λ _ _ l. l) r };
}

/// Written as this object, wherever it can be.
impl SerializeAs for Gain {
    ghost says = { λ gain. gain_tree gain };

    fn write_as<O: PodOutput>(&self, out: &mut O) -> Result<(), GenError> {
        let volume = (keys::PROP_VOLUME, self.flags, &self.volume);
        write_object(out, types::OBJECT_PROPS, self.id, &(volume, ()))
    }
}
