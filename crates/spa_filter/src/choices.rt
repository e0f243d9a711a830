//! Reads two choices over one type from the borrowed bodies of their pods, and writes what they filter to.
ghost use Rattle.std.specs.Prelude.{◌≡◌, IfErr, IfOk, OnOk, map};
ghost use Rattle.spa_fixed_sized.specs.Choices.{choice_tree};
ghost use Rattle.spa_format.specs.Kind.{Fixed, kind_of};
ghost use Rattle.spa_format.specs.Pod.{IsBody};
ghost use Rattle.spa_format.specs.Tree.{Tree, choice, choice_type, enum_choice, fixed};
ghost use Rattle.spa_format.specs.Words.{word_at};
ghost use Rattle.spa_value.specs.View.{view};
ghost use Rattle.spa_filter_offers.specs.Admits.{Admits, choice_flags_of};
ghost use Rattle.spa_filter.specs.CommonPods.{HasBody, IsAppended, IsCommonAppended, IsCommonRefused, IsOfOtherType, IsUnwritten};

use crate::refused::Refused;
use crate::values::choices_meet;
use spa_bytes::{HEADER_LEN, SECOND_WORD, u32_at};
use spa_filter_offers::Element;
use spa_fixed_sized::{put_choice, put_enum, put_fixed, read_choice};
use spa_sink::GenError;
use spa_utils::Choice;
use spa_value::Value;
use std::alloc::Global;

/// The offset in a choice's body at which its values begin: behind the shape, the flags, and the values' size and type.
pub(crate) const VALUES_AT: usize = 16;

/// Reads the choice over the type `T` of which this is the body. Refused as `Apart` where it is the body of no such choice, and as `OutOfMemory`.
#[inline(always)]
pub(crate) fn choice_over<T: Element>(alloc: Global, body: &[u8]) -> Result<Choice<T>, Refused>
    ensures choice { IfOk result (λ choice. IsBody (choice_tree T.kind T.fixed choice) body.now) }
    ensures cause { IfErr result (IsOfOtherType T.TYPE body.now) }
{
    if body.len() < VALUES_AT {
        return Err(Refused::Apart);
    }
    if u32_at(body, HEADER_LEN + SECOND_WORD) != T::TYPE {
        return Err(Refused::Apart);
    }
    match read_choice(alloc, body) {
        Ok(choice) => Ok(choice),
        Err(_) => Err(Refused::OutOfMemory),
    }
}

/// Appends the canonical pod of the value to which the choices of two bodies filter, the first of which is over the type `T`.
pub(crate) fn put_read<T: Element>(
    alloc: Global,
    out: &mut Vec<u8>,
    a: &[u8],
    b: &[u8],
) -> Result<(), Refused>
    requires { word_at a.now 12 ≡ T.TYPE }
    ensures appended { OnOk result ((v w : Tree) → HasBody v choice_type a.now → HasBody w choice_type b.now
        → IsCommonAppended v w out.old.items out.new.items) }
    ensures cause { IfErr result (λ e. (v w : Tree) → HasBody v choice_type a.now → HasBody w choice_type b.now
        → IsCommonRefused v w e) }
{
    let ours = choice_over::<T>(alloc, a)?;
    let theirs = choice_over::<T>(alloc, b)?;
    let Ok(met) = choices_meet(alloc, &ours, &theirs) else {
        return Err(Refused::OutOfMemory);
    };
    match met {
        Some(value) => put_value::<T>(out, &value),
        None => Err(Refused::Apart),
    }
}

/// Appends the canonical pod of a value that admits contents of the type `T`, and has no flags of its own.
fn put_value<T: Element>(out: &mut Vec<u8>, value: &Value) -> Result<(), Refused>
    ensures appended { OnOk result (choice_flags_of (view value.now) ≡ 0
        → IsAppended (view value.now) out.old.items out.new.items) }
    ensures cause { IfErr result (λ e. (x : Fixed) → kind_of x ≡ T.kind → Admits (view value.now) (fixed x)
        → IsUnwritten (view value.now) e) }
{
    match value {
        Value::Choice(choice) => match T::in_choice(choice) {
            Some(choice) => put_choice_of::<T>(out, choice),
            None => Err(Refused::Apart),
        },
        _ => match T::in_value(value) {
            Some(x) => put_element::<T>(out, &x),
            None => Err(Refused::Apart),
        },
    }
}

/// Appends the canonical pod of a choice without flags. Refused as `TooLarge` and as `OutOfMemory`.
pub(crate) fn put_choice_of<T: Element>(
    out: &mut Vec<u8>,
    choice: &Choice<T>,
) -> Result<(), Refused>
    ensures appended { OnOk result (choice_flags_of (choice_tree T.kind T.fixed choice.now) ≡ 0
        → IsAppended (choice_tree T.kind T.fixed choice.now) out.old.items out.new.items) }
    ensures cause { IfErr result (IsUnwritten (choice_tree T.kind T.fixed choice.now)) }
{
    match put_choice(out, choice) {
        Ok(()) => Ok(()),
        Err(GenError::TooLarge) => Err(Refused::TooLarge),
        Err(_) => Err(Refused::OutOfMemory),
    }
}

/// Appends the canonical pod of an Enum without flags. Refused as `TooLarge` and as `OutOfMemory`.
pub(crate) fn put_enum_of<T: Element>(
    out: &mut Vec<u8>,
    default: &T,
    alternatives: &[T],
) -> Result<(), Refused>
    ensures appended { OnOk result (IsAppended (choice enum_choice 0 T.kind (T.fixed default.now)
        (map T.fixed alternatives.now)) out.old.items out.new.items) }
    ensures cause { IfErr result (IsUnwritten (choice enum_choice 0 T.kind (T.fixed default.now)
        (map T.fixed alternatives.now))) }
{
    match put_enum(out, default, alternatives) {
        Ok(()) => Ok(()),
        Err(GenError::TooLarge) => Err(Refused::TooLarge),
        Err(_) => Err(Refused::OutOfMemory),
    }
}

/// Appends the canonical pod of an element. Refused only as `OutOfMemory`.
pub(crate) fn put_element<T: Element>(out: &mut Vec<u8>, x: &T) -> Result<(), Refused>
    ensures appended { OnOk result (IsAppended (fixed (T.fixed x.now)) out.old.items out.new.items) }
    ensures cause { IfErr result (IsUnwritten (fixed (T.fixed x.now))) }
{
    match put_fixed(out, x) {
        Ok(()) => Ok(()),
        Err(_) => Err(Refused::OutOfMemory),
    }
}
