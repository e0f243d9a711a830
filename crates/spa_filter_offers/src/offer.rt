//! The offer of a value: which elements of one type it admits.
ghost use Rattle.std.specs.Prelude.{◌≡◌, ◌↔◌, ◌∷◌, ℕ, Contains, IsTrue, map};
ghost use Rattle.spa_fixed_sized.specs.Choices.{choice_enum_tree};
ghost use Rattle.spa_filter_offers.specs.Admits.{is_bounded, is_flags};
ghost use Rattle.spa_filter_offers.specs.Offers.{IsDefault, IsOfferOf, OfferAdmits, default_of, has_bounds, is_masked};

use crate::element::Element;
use spa_filter_elements::{Steps, is_in_steps};
use spa_utils::ChoiceEnum;

/// The elements of one type that a value admits, with its default first.
#[derive(Clone, Copy)]
pub enum Offer<'a, T> {
    /// One element alone.
    Only(T),
    /// An element and others: an Enum.
    Among(T, &'a [T]),
    /// Each element from the second to the third: a Range.
    Between(T, T, T),
    /// Each of these multiples: a Step.
    Stepped(T, Steps<T>),
    /// Each element that has at least one bit, and no bits but those of this one: Flags.
    Masked(T),
}

/// The offer of a choice. The choice's own flags don't count.
pub fn offer_of<T: Element>(choice: &ChoiceEnum<T>) -> Offer<'_, T>
    ensures offer { (flags : ℕ) → IsOfferOf T.fixed (choice_enum_tree T.kind T.fixed flags choice.now) result }
    ensures masked { (flags : ℕ) → is_masked result ≡ is_flags (choice_enum_tree T.kind T.fixed flags choice.now) }
    ensures bounded { (flags : ℕ) → has_bounds result ≡ is_bounded (choice_enum_tree T.kind T.fixed flags choice.now) }
{
    match choice {
        ChoiceEnum::None(default) => Offer::Only(*default),
        ChoiceEnum::Range { default, min, max } => Offer::Between(*default, *min, *max),
        ChoiceEnum::Step {
            default,
            min,
            max,
            step,
        } => Offer::Stepped(
            *default,
            Steps {
                low: *min,
                high: *max,
                step: *step,
            },
        ),
        ChoiceEnum::Enum {
            default,
            alternatives,
        } => Offer::Among(*default, alternatives.as_slice()),
        ChoiceEnum::Flags { default, .. } => Offer::Masked(*default),
    }
}

/// The default of an offer.
pub fn default_of<T: Element>(offer: &Offer<'_, T>) -> T
    ensures { T.fixed result ≡ default_of T.fixed offer.now }
{
    match offer {
        Offer::Only(default) => *default,
        Offer::Among(default, _) => *default,
        Offer::Between(default, _, _) => *default,
        Offer::Stepped(default, _) => *default,
        Offer::Masked(default) => *default,
    }
}

/// Whether two elements are the same.
pub fn is_same<T: Element>(x: &T, y: &T) -> bool
    ensures { IsTrue result ↔ (T.fixed x.now ≡ T.fixed y.now) }
{
    x.numbers() == y.numbers()
}

/// Whether an element is one of these, by a linear search.
pub fn is_among<T: Element>(x: &T, elements: &[T]) -> bool
    ensures { IsTrue result ↔ Contains (map T.fixed elements.now) (T.fixed x.now) }
{
    for element in elements {
        if is_same(x, element) {
            return true;
        }
    }
    false
}

/// Whether an element is `first` or one of the others.
fn is_one_of<T: Element>(x: &T, first: &T, others: &[T]) -> bool
    ensures { IsTrue result ↔ Contains (T.fixed first.now ∷ map T.fixed others.now) (T.fixed x.now) }
{
    if is_same(x, first) {
        return true;
    }
    is_among(x, others)
}

/// Whether an offer admits an element. The alternatives of an Enum are searched one by one.
#[inline(never)]
pub fn admits<T: Element>(offer: &Offer<'_, T>, x: &T) -> bool
    ensures { IsTrue result ↔ OfferAdmits T.fixed offer.now (T.fixed x.now) }
{
    match offer {
        Offer::Only(default) => is_same(x, default),
        Offer::Among(default, others) => is_one_of(x, default, others),
        Offer::Between(_, low, high) => low.is_at_most(x) && x.is_at_most(high),
        Offer::Stepped(_, steps) => is_in_steps(steps, x),
        Offer::Masked(mask) => x.are_among(mask),
    }
}

/// The first of three elements that both offers admit: the default of the one, the default of the other, and an element that both do admit.
#[inline(never)]
pub(crate) fn common_default<T: Element>(a: &Offer<'_, T>, b: &Offer<'_, T>, other: &T) -> T
    requires { OfferAdmits T.fixed a.now (T.fixed other.now) × OfferAdmits T.fixed b.now (T.fixed other.now) }
    ensures { IsDefault (OfferAdmits T.fixed a.now) (OfferAdmits T.fixed b.now) (default_of T.fixed a.now)
        (default_of T.fixed b.now) (T.fixed result) }
{
    let first = default_of(a);
    if admits(a, &first) && admits(b, &first) {
        return first;
    }
    let second = default_of(b);
    if admits(a, &second) && admits(b, &second) {
        return second;
    }
    *other
}
