//! Whether a common value is sought for two values, by their forms.
ghost use Rattle.std.specs.Prelude.{◌≡◌, ◌↔◌, IsTrue};
ghost use Rattle.spa_format.specs.Kind.{Kind, type_number};
ghost use Rattle.spa_format.specs.Tree.{Tree};
ghost use Rattle.spa_filter_offers.specs.Admits.{AreSupported, IsSupported, is_bounded, is_flags};
ghost use Rattle.spa_filter_offers.specs.Forms.{IsFormOf};
ghost use Rattle.spa_filter_elements.specs.Flags.{IsFlagKind};
ghost use Rattle.spa_filter_elements.specs.Order.{IsOrderedKind};
ghost use Rattle.spa_filter_elements.specs.Steps.{IsStepKind};
ghost use Rattle.spa_keyed_objects.specs.CanonicalPods.{IsCanonicalPod};
ghost use Rattle.spa_filter.specs.CommonPods.{IsPodRefusal};
ghost use Rattle.spa_filter.specs.Refusals.{IsValueRefusal};
ghost use Rattle.spa_filter.specs.Values.{AreApart};

use crate::choices::VALUES_AT;
use crate::error::FilterError;
use spa_bytes::{HEADER_LEN, SECOND_WORD, open, u32_at};
use spa_filter_offers::Form;
use spa_fixed_sized::{FLAGS_SHAPE, RANGE_SHAPE, STEP_SHAPE};
use spa_utils::SpaTypes;

/// The refusal of two values of these forms, which have no value in common: `Unsupported` or `Disjoint`.
#[inline(never)]
pub(crate) fn refusal(key: u32, a: Form, b: Form) -> FilterError
    ensures values { (v w : Tree) → IsFormOf v a → IsFormOf w b → AreApart v w → IsValueRefusal key v w result }
    ensures pods { (v w : Tree) → IsFormOf v a → IsFormOf w b → AreApart v w → IsPodRefusal key v w result }
{
    if are_supported(a, b) {
        FilterError::Disjoint(key)
    } else {
        FilterError::Unsupported(key)
    }
}

/// The form of the value of a canonical pod.
pub(crate) fn form_in(pod: &[u8]) -> Form
    ensures { (v : Tree) → IsCanonicalPod v pod.now → IsFormOf v result }
{
    let Some(front) = open(pod) else {
        return Form::PLAIN;
    };
    if front.type_ != SpaTypes::Choice.0 || front.body.len() < VALUES_AT {
        return Form::PLAIN;
    }
    Form {
        shape: u32_at(front.body, 0),
        type_: u32_at(front.body, HEADER_LEN + SECOND_WORD),
    }
}

/// Whether a common value is sought for two values of these forms: not for Flags beside a Range or a Step.
fn are_supported(a: Form, b: Form) -> bool
    ensures { (v w : Tree) → IsFormOf v a → IsFormOf w b → IsTrue result ↔ AreSupported v w }
{
    if !is_supported(a) || !is_supported(b) {
        return false;
    }
    if is_flags(a) && is_bounded(b) {
        return false;
    }
    if is_bounded(a) && is_flags(b) {
        return false;
    }
    true
}

/// Whether a common value is sought for a value of this form.
fn is_supported(form: Form) -> bool
    ensures { (v : Tree) → IsFormOf v form → IsTrue result ↔ IsSupported v }
{
    match form.shape {
        RANGE_SHAPE => has_order(form.type_),
        STEP_SHAPE => has_steps(form.type_),
        FLAGS_SHAPE => may_be_flags(form.type_),
        _ => true,
    }
}

/// Whether a value of this form is a Flags choice.
fn is_flags(form: Form) -> bool
    ensures { (v : Tree) → IsFormOf v form → result ≡ is_flags v }
{
    form.shape == FLAGS_SHAPE
}

/// Whether a value of this form is a Range or a Step choice.
fn is_bounded(form: Form) -> bool
    ensures { (v : Tree) → IsFormOf v form → result ≡ is_bounded v }
{
    form.shape == RANGE_SHAPE || form.shape == STEP_SHAPE
}

/// Whether values of this type have an order.
fn has_order(type_: u32) -> bool
    ensures { (k : Kind) → type_ ≡ type_number k → IsTrue result ↔ IsOrderedKind k }
{
    type_ != SpaTypes::None.0 && type_ != SpaTypes::Bool.0 && type_ != SpaTypes::Fd.0
}

/// Whether values of this type have multiples.
fn has_steps(type_: u32) -> bool
    ensures { (k : Kind) → type_ ≡ type_number k → IsTrue result ↔ IsStepKind k }
{
    type_ == SpaTypes::Int.0 || type_ == SpaTypes::Long.0 || type_ == SpaTypes::Rectangle.0
}

/// Whether values of this type may be flags.
fn may_be_flags(type_: u32) -> bool
    ensures { (k : Kind) → type_ ≡ type_number k → IsTrue result ↔ IsFlagKind k }
{
    type_ == SpaTypes::Id.0 || type_ == SpaTypes::Int.0 || type_ == SpaTypes::Long.0
}
