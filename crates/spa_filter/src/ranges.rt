//! Filters two Ranges by their borrowed bodies.
ghost use Rattle.std.specs.Prelude.{◌≡◌, IfErr, IfSome, OnOk};
ghost use Rattle.spa_format.specs.Tree.{Tree, choice_type};
ghost use Rattle.spa_format.specs.Words.{word_at};
ghost use Rattle.spa_filter.specs.CommonPods.{HasBody, IsCommonAppended, IsCommonRefused, IsRangeBody};
ghost use Rattle.spa_filter_offers.specs.Offers.{IsDefault};
ghost use Rattle.spa_filter_elements.specs.Order.{IsAtMost, IsWithin};

use crate::choices::{choice_over, put_choice_of, put_read};
use crate::refused::Refused;
use bitflags::Flags;
use spa_bytes::{HEADER_LEN, u32_at};
use spa_filter_offers::Element;
use spa_fixed_sized::RANGE_SHAPE;
use spa_utils::{Choice, ChoiceEnum, ChoiceFlags};
use std::alloc::Global;

/// The values of a Range.
#[derive(Clone, Copy)]
struct Range<T> {
    default: T,
    min: T,
    max: T,
}

/// Whether a choice's body is that of a Range.
pub(crate) fn is_range(body: &[u8]) -> bool {
    body.len() >= HEADER_LEN && u32_at(body, 0) == RANGE_SHAPE
}

/// The values of the Range over the type `T` with this body. None: it isn't the body of such a Range.
#[inline(always)]
fn range_of<T: Element>(alloc: Global, body: &[u8]) -> Option<Range<T>>
    ensures { IfSome result
        (λ range. IsRangeBody T.kind (T.fixed range.default) (T.fixed range.min) (T.fixed range.max) body.now) }
{
    let Ok(choice) = choice_over::<T>(alloc, body) else {
        return None;
    };
    match &choice.1 {
        ChoiceEnum::Range { default, min, max } => Some(Range {
            default: *default,
            min: *min,
            max: *max,
        }),
        _ => None,
    }
}

/// The first of three elements that are from `low` to `high`: two defaults, and `low`.
fn default_within<T: Element>(first: &T, second: &T, low: &T, high: &T) -> T
    requires { IsAtMost (T.fixed low.now) (T.fixed high.now) }
    ensures { IsDefault (IsWithin (T.fixed low.now) (T.fixed high.now))
        (IsWithin (T.fixed low.now) (T.fixed high.now)) (T.fixed first.now) (T.fixed second.now) (T.fixed result) }
{
    if low.is_at_most(first) && first.is_at_most(high) {
        return *first;
    }
    if low.is_at_most(second) && second.is_at_most(high) {
        return *second;
    }
    *low
}

/// Appends the canonical pod of the Range to which the Ranges of two bodies filter, the first of which is over the type `T`.
#[inline(never)]
pub(crate) fn put_ranges<T: Element>(
    alloc: Global,
    out: &mut Vec<u8>,
    a: &[u8],
    b: &[u8],
) -> Result<(), Refused>
    requires { word_at a.now 12 ≡ T.TYPE }
    ensures appended { OnOk result ((v w : Tree) → HasBody v choice_type a.now → HasBody w choice_type b.now
        → IsCommonAppended v w out.old.items out.new.items) }
    ensures cause { IfErr result (λ e. (v w : Tree) → HasBody v choice_type a.now → HasBody w choice_type b.now
        → IsCommonRefused v w e) }
{
    let Some(ours) = range_of::<T>(alloc, a) else {
        return put_read::<T>(alloc, out, a, b);
    };
    let Some(theirs) = range_of::<T>(alloc, b) else {
        return put_read::<T>(alloc, out, a, b);
    };
    let low = ours.min.greater(&theirs.min);
    let high = ours.max.lesser(&theirs.max);
    if !low.is_at_most(&high) {
        return Err(Refused::Apart);
    }
    let range = ChoiceEnum::Range {
        default: default_within(&ours.default, &theirs.default, &low, &high),
        min: low,
        max: high,
    };
    put_choice_of::<T>(out, &Choice(ChoiceFlags::empty(), range))
}
