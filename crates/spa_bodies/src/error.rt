//! The public refusal, which is made of the inner one once, at the boundary.
ghost use Rattle.std.specs.Prelude.{◌≡◌};
ghost use Rattle.spa_bodies.specs.Refusing.{error_of};

use spa_fixed_sized::{DeserializeError, Fault, FaultKind, Refusal};

/// The public refusal for an inner one at this place. Only `Short` and `Text` keep the place.
pub fn error_at<I: Copy>(place: I, why: Refusal) -> DeserializeError<I>
    ensures { result ≡ error_of place why }
{
    match why {
        Refusal::Short => DeserializeError::Nom(Fault {
            input: place,
            kind: FaultKind::Short,
        }),
        Refusal::Text => DeserializeError::Nom(Fault {
            input: place,
            kind: FaultKind::Text,
        }),
        Refusal::InvalidType => DeserializeError::InvalidType,
        Refusal::InvalidChoiceType => DeserializeError::InvalidChoiceType,
        Refusal::MissingChoiceValues => DeserializeError::MissingChoiceValues,
        Refusal::WrongSize => DeserializeError::WrongSize,
        Refusal::OutOfMemory => DeserializeError::OutOfMemory,
    }
}
