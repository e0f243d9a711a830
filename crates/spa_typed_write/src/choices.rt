//! Writes choices over one of the nine types of fixed size that have bytes.
ghost use Rattle.spa_fixed_sized.specs.Choices.{choice_tree};

use crate::exact::SerializeAs;
use spa_bodies::put_alternatives;
use spa_fixed_sized::ChoiceElement;
use spa_sink::{GenError, PodOutput};
use spa_utils::Choice;

impl<T: ChoiceElement> SerializeAs for Choice<T> {
    ghost says = { λ c. choice_tree T.kind T.fixed c };

    fn write_as<O: PodOutput>(&self, out: &mut O) -> Result<(), GenError> {
        put_alternatives(out, self)
    }
}
