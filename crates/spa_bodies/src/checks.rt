//! Checks whether a body is that of an array or of a choice, over any of the types of fixed size.
ghost use Rattle.std.specs.Prelude.{◌≡◌, ◌<◌, ◌≤◌, IfErr, List, OnOk, length};
ghost use Rattle.spa_fixed_sized.specs.Reading.{RefusesChoice};
ghost use Rattle.spa_format.specs.Faults.{IsWrongArray, choice_header_size};
ghost use Rattle.spa_format.specs.Kind.{Fixed, Kind};
ghost use Rattle.spa_format.specs.Pod.{IsArray, IsBody};
ghost use Rattle.spa_format.specs.Tree.{Tree, array_type, choice_type, type_of};
ghost use Rattle.spa_format.specs.Words.{header_size, word_at};
ghost use Rattle.spa_bodies.specs.Refusing.{RefusesBody};

use spa_bytes::{HEADER_LEN, SECOND_WORD, u32_at};
use spa_fixed_sized::{CanonicalFixedSizedPod, ChoiceElement, Refusal, open_array, read_choice};
use spa_utils::{Fd, Float32, Float64, Fraction, Id, Rectangle, SpaTypes};
use std::alloc::Global;

/// How many bytes of a choice's body are before its values: its shape, its flags, and the size and the type of its values.
pub const CHOICE_HEADER_LEN: usize = 16;

/// The offset in a choice's body of the type of its values.
pub const VALUE_TYPE_AT: usize = 12;

/// Checks that the body is that of an array over any of the ten types. Refused as `InvalidType` or `WrongSize`, where that fault stands. It asks for
/// no memory.
pub fn check_array(body: &[u8]) -> Result<(), Refusal>
    ensures ok { OnOk result ((k : Kind) × (xs : List Fixed) × IsArray k xs body.now) }
    ensures refused { IfErr result (RefusesBody array_type body.now) }
{
    if body.len() < HEADER_LEN {
        return Err(Refusal::WrongSize);
    }
    match SpaTypes(u32_at(body, SECOND_WORD)) {
        SpaTypes::None => check_array_of::<()>(body),
        SpaTypes::Bool => check_array_of::<bool>(body),
        SpaTypes::Id => check_array_of::<Id>(body),
        SpaTypes::Int => check_array_of::<i32>(body),
        SpaTypes::Long => check_array_of::<i64>(body),
        SpaTypes::Float => check_array_of::<Float32>(body),
        SpaTypes::Double => check_array_of::<Float64>(body),
        SpaTypes::Rectangle => check_array_of::<Rectangle>(body),
        SpaTypes::Fraction => check_array_of::<Fraction>(body),
        SpaTypes::Fd => check_array_of::<Fd>(body),
        _ => Err(Refusal::InvalidType),
    }
}

/// Checks that the body is that of an array over the type `T`, which its child type is.
fn check_array_of<T: CanonicalFixedSizedPod>(body: &[u8]) -> Result<(), Refusal>
    requires header { header_size ≤ length body.now }
    requires child_type { word_at body.now 4 ≡ T.TYPE }
    ensures ok { OnOk result ((k : Kind) × (xs : List Fixed) × IsArray k xs body.now) }
    ensures refused { IfErr result (RefusesBody array_type body.now) }
{
    match open_array::<T>(body) {
        Some(_) => Ok(()),
        None => Err(Refusal::WrongSize),
    }
}

/// Checks that the body is that of a choice over any of the nine types. Refused as `InvalidType`, `InvalidChoiceType`, `MissingChoiceValues` or
/// `WrongSize`, where that fault stands, and as `OutOfMemory`.
pub fn check_choice(alloc: Global, body: &[u8]) -> Result<(), Refusal>
    ensures ok { OnOk result ((v : Tree) × (type_of v ≡ choice_type) × IsBody v body.now) }
    ensures refused { IfErr result (RefusesBody choice_type body.now) }
{
    if body.len() < CHOICE_HEADER_LEN {
        return Err(Refusal::WrongSize);
    }
    match SpaTypes(u32_at(body, VALUE_TYPE_AT)) {
        SpaTypes::Bool => check_choice_of::<bool>(alloc, body),
        SpaTypes::Id => check_choice_of::<Id>(alloc, body),
        SpaTypes::Int => check_choice_of::<i32>(alloc, body),
        SpaTypes::Long => check_choice_of::<i64>(alloc, body),
        SpaTypes::Float => check_choice_of::<Float32>(alloc, body),
        SpaTypes::Double => check_choice_of::<Float64>(alloc, body),
        SpaTypes::Rectangle => check_choice_of::<Rectangle>(alloc, body),
        SpaTypes::Fraction => check_choice_of::<Fraction>(alloc, body),
        SpaTypes::Fd => check_choice_of::<Fd>(alloc, body),
        _ => Err(Refusal::InvalidType),
    }
}

/// Checks that the body is that of a choice over the type `T`, which its child type is.
#[tactic(auto, using(crate::proofs::Refusals::choice_refused, crate::proofs::Steps::type_of_choice))]
fn check_choice_of<T: ChoiceElement>(alloc: Global, body: &[u8]) -> Result<(), Refusal>
    requires header { choice_header_size ≤ length body.now }
    requires child_type { word_at body.now 12 ≡ T.TYPE }
    ensures ok { OnOk result ((v : Tree) × (type_of v ≡ choice_type) × IsBody v body.now) }
    ensures refused { IfErr result (RefusesBody choice_type body.now) }
{
    read_choice::<T>(alloc, body)?;
    Ok(())
}
