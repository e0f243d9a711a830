//! The trait of the nine types over which there are choices.
ghost use Rattle.std.specs.Prelude.{◌≡◌, MatchOption};
ghost use Rattle.spa_format.specs.Kind.{Fixed, kind_of};
ghost use Rattle.spa_format.specs.Tree.{fixed};
ghost use Rattle.spa_fixed_sized.specs.Choices.{choice_enum_tree, choice_tree};
ghost use Rattle.spa_value.specs.View.{choice_view, view};
ghost use Rattle.spa_filter_offers.specs.Admits.{AdmitsNone};
ghost use Rattle.spa_filter_offers.specs.Numbering.{numbers_of};

use crate::numbers::Numbers;
use spa_filter_elements::Stepped;
use spa_utils::{Choice, ChoiceEnum};
use spa_value::{ChoiceValue, Value};

/// One of the nine types over which there are choices.
pub trait Element: Stepped {
    /// The search key of this element, which no other element has.
    fn numbers(&self) -> Numbers
        ensures { result ≡ numbers_of (Self.fixed self.now) };

    /// This element as a value.
    fn value(&self) -> Value
        ensures { view result ≡ fixed (Self.fixed self.now) };

    /// A choice over this type, with flags 0, as a value.
    fn choice(choice: ChoiceEnum<Self>) -> Value
        ensures { view result ≡ choice_enum_tree Self.kind Self.fixed 0 choice };

    /// The element of this type that the value is. None: it is of another type.
    fn in_value(value: &Value) -> Option<Self>
        ensures { MatchOption result ((x : Fixed) → view value.now ≡ fixed x → ¬ (kind_of x ≡ Self.kind))
            (λ x. view value.now ≡ fixed (Self.fixed x)) };

    /// The choice as one over this type. None: it admits no element of this type.
    fn in_choice(choice: &ChoiceValue) -> Option<&Choice<Self>>
        ensures { MatchOption result (AdmitsNone Self.kind (choice_view choice.now))
            (λ c. choice_view choice.now ≡ choice_tree Self.kind Self.fixed c.now) };
}
