//! A struct that is read by a visitor of its own, since a declaration has no member that may be missing.
ghost use Rattle.std.specs.Prelude.{◌≡◌, IfErr, IfOk, refl};
ghost use Rattle.libspa.specs.Declining.{DeclinesAll};
ghost use Rattle.libspa.specs.DeserializeErrors.{UnsupportedType};
ghost use Rattle.libspa.proofs.Visits.{struct_exactly};
ghost use Rattle.libspa.specs.Visiting.{LeavesExactly, RefusesStruct};
ghost use Rattle.example_types.specs.Capture.{AreCapture, DeclinesCapture, capture_tree};
ghost use Rattle.example_types.specs.declared.capture.Capture.{Capture};

use libspa::pod::deserialize::laws::{members_are_fronts, readers_go_further};
use libspa::pod::deserialize::{
    DeserializeError, DeserializeSuccess, ExactDeserialize, Never, ObjectPodDeserializer,
    PodDeserialize, PodDeserializer, StructPodDeserializer, Visit, Visitor,
};
use libspa::utils::{Fraction, Rectangle};

/// How large the pictures are that are captured, and how many of them come each second, where that is said.
#[derive(Clone, Copy, Debug)]
pub struct Capture {
    pub size: Rectangle,
    pub rate: Option<Fraction>,
}

/// Makes a capture of a struct's members: a size, and a rate where a second member is there. It declines anything else.
#[derive(Drop)]
struct CaptureVisitor;

impl<'de> Visitor<'de> for CaptureVisitor {
    type Value = Capture;

    type ArrayElem = Never;

    ghost visits = { λ _ _ _. ⊥ };

    ghost visits_struct = { λ _ members it. AreCapture members it };

    ghost visits_object = { λ _ _ _ _ _. ⊥ };

    ghost declines = { λ _ _ e. e ≡ UnsupportedType };

    ghost declines_struct = { λ _ lent now e. DeclinesCapture lent now e };

    ghost leaves_struct = { λ _ lent now. LeavesExactly AreCapture lent now };

    ghost declines_object = { λ _ lent now e. DeclinesAll lent now e };

    ghost leaves_object = { λ _ _ _. ⊥ };

    fn visit(&self, _given: Visit<'de, Never>) -> Result<Capture, DeserializeError<&'de [u8]>>
        ensures made { IfOk result (λ it. ⊥) }
        ensures declined { IfErr result (λ e. e ≡ UnsupportedType) }
    {
        Err(DeserializeError::UnsupportedType)
    }

    fn visit_struct(
        &self,
        reader: &mut StructPodDeserializer<'de>,
    ) -> Result<Capture, DeserializeError<&'de [u8]>> {
        members_are_fronts();
        readers_go_further();
        let Some(size) = reader.deserialize_field::<Rectangle>()? else {
            return Err(DeserializeError::PropertyMissing);
        };
        let rate = reader.deserialize_field::<Fraction>()?;
        Ok(Capture { size, rate })
    }

    fn visit_object(
        &self,
        _reader: &mut ObjectPodDeserializer<'de>,
    ) -> Result<Capture, DeserializeError<&'de [u8]>> {
        readers_go_further();
        Err(DeserializeError::UnsupportedType)
    }
}

/// A struct of a Rectangle, and of a Fraction behind it where there is one. Refusals: those of `deserialize_struct`,
/// `PropertyMissing` where there is no member, and those of a Rectangle and of a Fraction. It asks for no memory.
impl<'de> PodDeserialize<'de> for Capture {
    ghost reads = { λ value it. value ≡ capture_tree it };

    ghost refuses = { RefusesStruct DeclinesCapture (LeavesExactly AreCapture) };

    fn deserialize(
        deserializer: PodDeserializer<'de>,
    ) -> Result<(Capture, DeserializeSuccess<'de>), DeserializeError<&'de [u8]>> {
        deserializer.deserialize_struct(CaptureVisitor)
    }
}

/// It is refused exactly where no such struct is there.
impl<'de> ExactDeserialize<'de> for Capture {
    ghost takes_memory = { λ _. ⊥ };

    ghost exactly = { λ b e r. struct_exactly _ AreCapture ⊥ _ _ b e
        (λ v it is. record { members = _; is = is; are = refl }) (λ _ _ d. d.exactly) (λ _ _ l. l) r };
}
