//! The numbers of the two inputs.
ghost use Rattle.std.specs.Prelude.{◌≡◌};
ghost use Rattle.spav.specs.Sides.{number_of};

use crate::answers::{FIRST, SECOND};
use spa_keyed_objects::Side;

/// The number of an input.
pub(crate) fn number_of(side: Side) -> u32
    ensures { result ≡ number_of side }
{
    match side {
        Side::First => FIRST,
        Side::Second => SECOND,
    }
}
