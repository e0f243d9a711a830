//! An enum that is read from the Ids that say it, and from no others.
ghost use Rattle.std.specs.Prelude.{◌≡◌};
ghost use Rattle.std.proofs.Common.{ap};
ghost use Rattle.libspa.specs.Declining.{DeclinesOthers};
ghost use Rattle.libspa.specs.Kind.{id_kind, type_number};
ghost use Rattle.libspa.specs.Tree.{type_of};
ghost use Rattle.libspa.specs.Visiting.{RefusesVisit};
ghost use Rattle.libspa.proofs.Visits.{visit_exactly};
ghost use Rattle.example_types.specs.Media.{media_content, media_tree};
ghost use Rattle.example_types.specs.MediaLaws.{media_declined, no_choice};
ghost use Rattle.example_types.specs.declared.media.Media.{Media};

use libspa::pod::deserialize::{
    DeserializeError, DeserializeSuccess, ExactDeserialize, Handed, HandedVisitor, Never,
    PodDeserialize, PodDeserializer, Visit,
};
use spa_names::ids;

/// What a stream carries.
#[derive(Clone, Copy, Debug)]
pub enum Media {
    /// Sound.
    Audio,
    /// Pictures.
    Video,
}

/// A visitor is handed an Id that says one, and declines anything else.
impl Handed for Media {
    ghost handed = { media_content };

    fn of_visit(given: Visit<'_, Never>) -> Option<Media> {
        let id = match given {
            Visit::Id(id) => id,
            other => {
                drop(other);
                return None;
            }
        };
        match id.0 {
            ids::MEDIA_TYPE_AUDIO => Some(Media::Audio),
            ids::MEDIA_TYPE_VIDEO => Some(Media::Video),
            _ => None,
        }
    }
}

/// An Id that says one. Refusals: those of an Id, and `UnsupportedType` for any other Id. It asks for no memory.
impl<'de> PodDeserialize<'de> for Media {
    ghost reads = { λ value it. value ≡ media_tree it };

    ghost refuses = { RefusesVisit (type_number id_kind) (DeclinesOthers media_content) };

    fn deserialize(
        deserializer: PodDeserializer<'de>,
    ) -> Result<(Media, DeserializeSuccess<'de>), DeserializeError<&'de [u8]>> {
        match deserializer.deserialize_id(HandedVisitor::<Media>::default()) {
            Ok(read) => Ok(read),
            Err(e) => Err(e),
        }
    }
}

/// It is refused exactly where no such Id is there.
impl<'de> ExactDeserialize<'de> for Media {
    ghost takes_memory = { λ _. ⊥ };

    ghost exactly = { λ b e r. visit_exactly (type_number id_kind) (λ v (it : Media). v ≡ media_tree it) ⊥ (DeclinesOthers media_content) b e
        (λ v it is. ap type_of is) no_choice (λ given v says d. media_declined given v e says d) r };
}
