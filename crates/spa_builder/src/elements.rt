//! Which elements of arrays and choices are allowed next.
ghost use Rattle.std.specs.Prelude.{◌≡◌, List, ℕ, true, false, is_some};
ghost use Rattle.spa_format.specs.Kind.{Fixed, kind_of, type_number};
ghost use Rattle.spa_format.specs.Tree.{Shape, shape_number};
ghost use Rattle.spa_builder.specs.State.{Partial};
ghost use Rattle.spa_builder.specs.Step.{closed_value, has_place};
ghost use Rattle.spa_builder.specs.Fields.{what_of};
ghost use Rattle.spa_builder.specs.Framed.{is_nothing};
ghost use Rattle.spa_builder.specs.Innermost.{innermost_of, is_first, takes_element, takes_elements, with_element};

use crate::begun::{BegunPod, Elements, Stage, What};
use spa_fixed_sized::count_taken;
use spa_utils::SpaTypes;

/// The most values that are counted: no shape needs more, and those of a list count up to here.
const MOST_COUNTED: u32 = 4;

/// Whether the innermost open pod takes elements of fixed size: it is an array or a choice.
#[inline(always)]
pub(crate) fn takes_elements(innermost: Option<BegunPod>) -> bool
    ensures { (base : ℕ) (ps : List Partial) → innermost ≡ innermost_of base ps → result ≡ takes_elements ps }
{
    match innermost {
        None => false,
        Some(open) => matches!(open.what.stage, Stage::Array | Stage::Choice),
    }
}

/// Whether the pod is an array or a choice without elements yet.
pub(crate) fn is_first(what: What) -> bool
    ensures { (p : Partial) → what ≡ what_of p → result ≡ is_first p }
{
    matches!(what.stage, Stage::Array | Stage::Choice) && what.elements.first.is_none()
}

/// Whether a choice of this shape with `count` values takes one more.
fn has_place(shape: u32, count: u32) -> bool
    ensures { (h : Shape) → shape ≡ shape_number h → result ≡ has_place h count }
{
    match count_taken(shape) {
        Some(limit) => (count as usize) < limit,
        None => true,
    }
}

/// Whether an element of this type is allowed next in the pod.
pub(crate) fn takes_element(what: What, type_: u32) -> bool
    ensures { (p : Partial) (x : Fixed) → what ≡ what_of p → type_ ≡ type_number (kind_of x)
        → result ≡ takes_element p x }
{
    let Elements {
        shape,
        first,
        count,
    } = what.elements;
    match (what.stage, first) {
        (Stage::Array, None) => true,
        (Stage::Array, Some(first)) => first == type_,
        (Stage::Choice, None) => type_ != SpaTypes::None.0,
        (Stage::Choice, Some(first)) => first == type_ && has_place(shape, count),
        _ => false,
    }
}

/// The pod's stage and elements after one more element of this type.
pub(crate) fn with_element(what: What, type_: u32) -> What
    ensures with { (p : Partial) (x : Fixed) → what ≡ what_of p → type_ ≡ type_number (kind_of x)
        → takes_element p x ≡ true → result ≡ what_of (with_element p x) }
    ensures something { is_nothing what ≡ false → is_nothing result ≡ false }
{
    let Elements { shape, count, .. } = what.elements;
    let more = match what.stage {
        Stage::Array => 0,
        Stage::Choice if count < MOST_COUNTED => count + 1,
        Stage::Choice => MOST_COUNTED,
        _ => return what,
    };
    What {
        stage: what.stage,
        elements: Elements {
            shape,
            first: Some(type_),
            count: more,
        },
    }
}

/// Whether the pod may be closed: it lacks no value.
#[inline(always)]
pub(crate) fn is_finished(what: What) -> bool
    ensures { (p : Partial) → what ≡ what_of p → result ≡ is_some (closed_value p) }
{
    let Elements { shape, count, .. } = what.elements;
    match what.stage {
        Stage::Nothing | Stage::Property => false,
        Stage::Choice => count as usize >= count_taken(shape).unwrap_or(1),
        _ => true,
    }
}
