//! Reads the bodies of choices, over any of the nine types of fixed size that have bytes.
ghost use Rattle.std.specs.Prelude.{◌≡◌, IfErr, IfOk};
ghost use Rattle.spa_format.specs.Pod.{IsBody};
ghost use Rattle.spa_format.specs.Tree.{choice_type, type_of};
ghost use Rattle.spa_bodies.specs.Refusing.{RefusesBody};
ghost use Rattle.spa_value.specs.View.{choice_view};

use spa_bodies::{CHOICE_HEADER_LEN, VALUE_TYPE_AT};
use spa_bytes::u32_at;
use spa_fixed_sized::{Refusal, read_choice};
use spa_utils::{Fd, Float32, Float64, Fraction, Id, Rectangle, SpaTypes};
use spa_value::ChoiceValue;
use std::alloc::Global;

/// Reads the choice, over any of the nine types, with this body. Refused as `InvalidType`, `InvalidChoiceType`, `MissingChoiceValues` and
/// `WrongSize`, each where that fault stands, and as `OutOfMemory`.
#[tactic(auto, using(spa_bodies::proofs::Refusals::choice_refused, spa_bodies::proofs::Steps::type_of_choice))]
#[inline(always)]
pub fn read_any_choice(alloc: Global, body: &[u8]) -> Result<ChoiceValue, Refusal>
    ensures its_type { IfOk result (λ choice. type_of (choice_view choice) ≡ choice_type) }
    ensures read { IfOk result (λ choice. IsBody (choice_view choice) body.now) }
    ensures refused { IfErr result (RefusesBody choice_type body.now) }
{
    if body.len() < CHOICE_HEADER_LEN {
        return Err(Refusal::WrongSize);
    }
    match SpaTypes(u32_at(body, VALUE_TYPE_AT)) {
        SpaTypes::Bool => Ok(ChoiceValue::Bool(read_choice::<bool>(alloc, body)?)),
        SpaTypes::Id => Ok(ChoiceValue::Id(read_choice::<Id>(alloc, body)?)),
        SpaTypes::Int => Ok(ChoiceValue::Int(read_choice::<i32>(alloc, body)?)),
        SpaTypes::Long => Ok(ChoiceValue::Long(read_choice::<i64>(alloc, body)?)),
        SpaTypes::Float => Ok(ChoiceValue::Float(read_choice::<Float32>(alloc, body)?)),
        SpaTypes::Double => Ok(ChoiceValue::Double(read_choice::<Float64>(alloc, body)?)),
        SpaTypes::Rectangle => Ok(ChoiceValue::Rectangle(read_choice::<Rectangle>(alloc, body)?)),
        SpaTypes::Fraction => Ok(ChoiceValue::Fraction(read_choice::<Fraction>(alloc, body)?)),
        SpaTypes::Fd => Ok(ChoiceValue::Fd(read_choice::<Fd>(alloc, body)?)),
        _ => Err(Refusal::InvalidType),
    }
}
