//! Meets two offers of one type.
ghost use Rattle.std.specs.Prelude.{◌↔◌, ◌≢◌, IfOk, None, map};
ghost use Rattle.spa_format.specs.Kind.{Fixed};
ghost use Rattle.spa_filter_offers.specs.Offers.{AreBetween, AreKept, AreOffersSayable, AreStepped, IsOnly, IsSharedMask, IsWide, MaskedMeet, OffersMeet};

use crate::element::Element;
use crate::kept::kept;
use crate::offer::{Offer, admits, common_default};
use spa_filter_elements::{Steps, multiples_of_both, within};
use spa_utils::ChoiceEnum;
use spa_value::Value;
use std::alloc::{AllocError, Global};

/// The value that admits exactly the elements that both offers admit: a plain value where one offer is one, else an Enum where one is one, else a
/// Range, a Step or Flags. None: no element is admitted by both, or one offer is `Masked` and the other `Between` or `Stepped`, since no choice
/// admits just what such two do. Refused only for want of memory.
#[inline(never)]
pub fn meet<T: Element>(
    alloc: Global,
    a: &Offer<'_, T>,
    b: &Offer<'_, T>,
) -> Result<Option<Value>, AllocError>
    ensures meeting { AreOffersSayable a.now b.now → IfOk result (OffersMeet T.fixed a.now b.now) }
    ensures sayable { IfOk result (λ met. met ≢ None → AreOffersSayable a.now b.now) }
{
    match a {
        Offer::Only(x) => Ok(meet_only(a, b, x)),
        Offer::Among(first, others) => match b {
            Offer::Only(y) => Ok(meet_only(a, b, y)),
            _ => {
                let values = kept(alloc, first, others, b)?;
                Ok(meet_among(a, b, values))
            }
        },
        _ => match b {
            Offer::Only(y) => Ok(meet_only(a, b, y)),
            Offer::Among(first, others) => {
                let values = kept(alloc, first, others, a)?;
                Ok(meet_among(a, b, values))
            }
            _ => Ok(meet_wide(alloc, a, b)),
        },
    }
}

/// The value in which two offers meet of which neither is a single element or an Enum: a Range of two Ranges, Flags of two Flags, else a Step. None:
/// as of `meet`.
fn meet_wide<T: Element>(alloc: Global, a: &Offer<'_, T>, b: &Offer<'_, T>) -> Option<Value>
    requires { IsWide a.now × IsWide b.now }
    ensures meeting { AreOffersSayable a.now b.now → OffersMeet T.fixed a.now b.now result }
    ensures sayable { result ≢ None → AreOffersSayable a.now b.now }
{
    match a {
        Offer::Between(_, low, high) => match b {
            Offer::Between(_, least, greatest) => {
                let low = low.greater(least);
                let high = high.lesser(greatest);
                meet_between(a, b, &low, &high)
            }
            Offer::Stepped(_, steps) => meet_stepped(a, b, &within(steps, low, high)),
            _ => None,
        },
        Offer::Stepped(_, steps) => match b {
            Offer::Between(_, low, high) => meet_stepped(a, b, &within(steps, low, high)),
            Offer::Stepped(_, others) => meet_stepped(a, b, &multiples_of_both(steps, others)),
            _ => None,
        },
        Offer::Masked(mask) => match b {
            Offer::Masked(other) => meet_masked(alloc, mask, other),
            _ => None,
        },
        _ => unreachable!(),
    }
}

/// The element as a value, where both offers admit it; no other element may be admitted by both. None: no element is.
fn meet_only<T: Element>(a: &Offer<'_, T>, b: &Offer<'_, T>, x: &T) -> Option<Value>
    requires { IsOnly T.fixed a.now b.now (T.fixed x.now) }
    ensures { OffersMeet T.fixed a.now b.now result }
{
    if admits(a, x) && admits(b, x) {
        return Some(x.value());
    }
    None
}

/// An Enum of the elements that both offers admit. None: there are none.
fn meet_among<T: Element>(a: &Offer<'_, T>, b: &Offer<'_, T>, values: Vec<T>) -> Option<Value>
    requires { AreKept T.fixed a.now b.now (map T.fixed values.items) }
    ensures { OffersMeet T.fixed a.now b.now result }
{
    let Some(first) = values.first() else {
        return None;
    };
    let default = common_default(a, b, first);
    Some(T::choice(ChoiceEnum::Enum {
        default,
        alternatives: values,
    }))
}

/// A Range of the elements that both offers admit. None: there are none.
fn meet_between<T: Element>(a: &Offer<'_, T>, b: &Offer<'_, T>, low: &T, high: &T) -> Option<Value>
    requires { AreBetween T.fixed a.now b.now (T.fixed low.now) (T.fixed high.now) }
    ensures { OffersMeet T.fixed a.now b.now result }
{
    if !low.is_at_most(high) {
        return None;
    }
    let default = common_default(a, b, low);
    Some(T::choice(ChoiceEnum::Range {
        default,
        min: *low,
        max: *high,
    }))
}

/// A Step of the elements that both offers admit. None: there are none.
fn meet_stepped<T: Element>(a: &Offer<'_, T>, b: &Offer<'_, T>, steps: &Steps<T>) -> Option<Value>
    requires { AreStepped T.fixed a.now b.now steps.now }
    ensures { OffersMeet T.fixed a.now b.now result }
{
    let Some(first) = T::first(steps) else {
        return None;
    };
    let default = common_default(a, b, &first);
    Some(T::choice(ChoiceEnum::Step {
        default,
        min: steps.low,
        max: steps.high,
        step: steps.step,
    }))
}

/// Flags of the bits that two Flags share. None: they share none.
fn meet_masked<T: Element>(alloc: Global, mask: &T, other: &T) -> Option<Value>
    ensures { MaskedMeet T.fixed mask.now other.now result }
{
    let shared = shared_mask(mask, other);
    if !shared.are_among(&shared) {
        return None;
    }
    Some(T::choice(ChoiceEnum::Flags {
        default: shared,
        flags: Vec::new(alloc),
    }))
}

/// The bits that two elements share: one of the elements itself where it has no other bits.
fn shared_mask<T: Element>(mask: &T, other: &T) -> T
    ensures { IsSharedMask (T.fixed mask.now) (T.fixed other.now) (T.fixed result) }
{
    if mask.are_among(other) {
        return *mask;
    }
    if other.are_among(mask) {
        return *other;
    }
    mask.shared(other)
}
