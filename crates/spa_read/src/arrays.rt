//! Reads the bodies of arrays, over any of the ten types of fixed size.
ghost use Rattle.std.specs.Prelude.{◌≡◌, IfErr, IfOk};
ghost use Rattle.spa_format.specs.Pod.{IsBody};
ghost use Rattle.spa_format.specs.Tree.{array_type, type_of};
ghost use Rattle.spa_bodies.specs.Refusing.{RefusesBody};
ghost use Rattle.spa_value.specs.View.{array_view};

use spa_bytes::{HEADER_LEN, SECOND_WORD, u32_at};
use spa_fixed_sized::{Refusal, read_array};
use spa_utils::{Fd, Float32, Float64, Fraction, Id, Rectangle, SpaTypes};
use spa_value::ValueArray;
use std::alloc::Global;

/// Reads the array, over any of the ten types, with this body. Refused as `InvalidType` and `WrongSize`, each where that fault stands, and as
/// `OutOfMemory`.
#[tactic(auto, using(spa_bodies::proofs::Refusals::array_refused))]
#[inline(always)]
pub(crate) fn read_any_array(alloc: Global, body: &[u8]) -> Result<ValueArray, Refusal>
    ensures its_type { IfOk result (λ array. type_of (array_view array) ≡ array_type) }
    ensures read { IfOk result (λ array. IsBody (array_view array) body.now) }
    ensures refused { IfErr result (RefusesBody array_type body.now) }
{
    if body.len() < HEADER_LEN {
        return Err(Refusal::WrongSize);
    }
    match SpaTypes(u32_at(body, SECOND_WORD)) {
        SpaTypes::None => Ok(ValueArray::None(read_array::<()>(alloc, body)?)),
        SpaTypes::Bool => Ok(ValueArray::Bool(read_array::<bool>(alloc, body)?)),
        SpaTypes::Id => Ok(ValueArray::Id(read_array::<Id>(alloc, body)?)),
        SpaTypes::Int => Ok(ValueArray::Int(read_array::<i32>(alloc, body)?)),
        SpaTypes::Long => Ok(ValueArray::Long(read_array::<i64>(alloc, body)?)),
        SpaTypes::Float => Ok(ValueArray::Float(read_array::<Float32>(alloc, body)?)),
        SpaTypes::Double => Ok(ValueArray::Double(read_array::<Float64>(alloc, body)?)),
        SpaTypes::Rectangle => Ok(ValueArray::Rectangle(read_array::<Rectangle>(alloc, body)?)),
        SpaTypes::Fraction => Ok(ValueArray::Fraction(read_array::<Fraction>(alloc, body)?)),
        SpaTypes::Fd => Ok(ValueArray::Fd(read_array::<Fd>(alloc, body)?)),
        _ => Err(Refusal::InvalidType),
    }
}
