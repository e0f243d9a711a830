//! Types whose reads are refused only where the input begins with no value that is read as one of them.
ghost use Rattle.std.specs.Prelude.{⊤, ◌≡◌, ℕ, List, map};
ghost use Rattle.std.proofs.Common.{ap, ◌∙◌};
ghost use Rattle.spa_format.specs.Kind as k;
ghost use Rattle.spa_format.specs.Kind.{type_number};
ghost use Rattle.spa_format.specs.Tree.{bitmap_type, bytes_type, pointer_type, string_type, type_of};
ghost use Rattle.spa_typed_read.specs.Asking.{ReadRefusal, array_of, choice_of, of_type};
ghost use Rattle.spa_typed_read.specs.Exactly.{RefusesExactly};
ghost use Rattle.spa_typed_read.specs.ExactlyLaws.{any_exactly, asked_exactly, choice_asked};

use crate::array_element::ArrayElement;
use crate::deserializer::PodDeserialize;
use spa_fixed_sized::ChoiceElement;
use spa_utils::{Choice, Fd, Float32, Float64, Fraction, Id, Rectangle};
use spa_value::{Bitmap, Value};

/// A type whose read, unless memory runs out, succeeds exactly where the front is a pod of a value that is read as this type.
///
/// The content of a `DeserializeAs` has to be such a type, and then the type that is made of it is one.
pub trait ExactDeserialize<'de>: PodDeserialize<'de> {
    /// Whether the read of such an input takes memory. A type whose read takes memory keeps the default.
    ghost takes_memory: { List ℕ → Type 0 } = { λ _. ⊤ };

    /// The law of its refusals. Any but one for want of memory says that the input begins with no such value; where the front isn't
    /// there, it is `Nom` with `Short`. Memory runs out only where the front is there and such a read takes memory.
    ghost exactly: { (b : List ℕ) (e : ReadRefusal) → Self.refuses b e → RefusesExactly Self.reads (takes_memory b) b e };
}

impl<'de> ExactDeserialize<'de> for Value {
    ghost exactly = { λ b e r. any_exactly _ b e r };
}

impl<'de> ExactDeserialize<'de> for &'de str {
    ghost takes_memory = { λ _. ⊥ };

    ghost exactly = { λ b e r. asked_exactly (of_type string_type) ⊥ _ (λ v x h. ap type_of h) b e r };
}

impl<'de> ExactDeserialize<'de> for String {
    ghost exactly = { λ b e r. asked_exactly (of_type string_type) ⊤ _ (λ v x h. ap type_of h) b e r };
}

impl<'de> ExactDeserialize<'de> for &'de [u8] {
    ghost takes_memory = { λ _. ⊥ };

    ghost exactly = { λ b e r. asked_exactly (of_type bytes_type) ⊥ _ (λ v x h. ap type_of h) b e r };
}

impl<'de> ExactDeserialize<'de> for Vec<u8> {
    ghost exactly = { λ b e r. asked_exactly (of_type bytes_type) ⊤ _ (λ v x h. ap type_of h) b e r };
}

impl<'de> ExactDeserialize<'de> for Bitmap<'de> {
    ghost takes_memory = { λ _. ⊥ };

    ghost exactly = { λ b e r. asked_exactly (of_type bitmap_type) ⊥ _ (λ v x h. ap type_of h) b e r };
}

impl<'de> ExactDeserialize<'de> for (u32, u64) {
    ghost takes_memory = { λ _. ⊥ };

    ghost exactly = { λ b e r. asked_exactly (of_type pointer_type) ⊥ _ (λ v x h. ap type_of h) b e r };
}

impl<'de> ExactDeserialize<'de> for () {
    ghost takes_memory = { λ _. ⊥ };

    ghost exactly = { λ b e r. asked_exactly (of_type (type_number k.none_kind)) ⊥ _ (λ v x h. ap type_of h) b e r };
}

impl<'de> ExactDeserialize<'de> for bool {
    ghost takes_memory = { λ _. ⊥ };

    ghost exactly = { λ b e r. asked_exactly (of_type (type_number k.bool_kind)) ⊥ _ (λ v x h. ap type_of h) b e r };
}

impl<'de> ExactDeserialize<'de> for Id {
    ghost takes_memory = { λ _. ⊥ };

    ghost exactly = { λ b e r. asked_exactly (of_type (type_number k.id_kind)) ⊥ _ (λ v x h. ap type_of h) b e r };
}

impl<'de> ExactDeserialize<'de> for i32 {
    ghost takes_memory = { λ _. ⊥ };

    ghost exactly = { λ b e r. asked_exactly (of_type (type_number k.int_kind)) ⊥ _ (λ v x h. ap type_of h) b e r };
}

impl<'de> ExactDeserialize<'de> for i64 {
    ghost takes_memory = { λ _. ⊥ };

    ghost exactly = { λ b e r. asked_exactly (of_type (type_number k.long_kind)) ⊥ _ (λ v x h. ap type_of h) b e r };
}

impl<'de> ExactDeserialize<'de> for Float32 {
    ghost takes_memory = { λ _. ⊥ };

    ghost exactly = { λ b e r. asked_exactly (of_type (type_number k.float_kind)) ⊥ _ (λ v x h. ap type_of h) b e r };
}

impl<'de> ExactDeserialize<'de> for Float64 {
    ghost takes_memory = { λ _. ⊥ };

    ghost exactly = { λ b e r. asked_exactly (of_type (type_number k.double_kind)) ⊥ _ (λ v x h. ap type_of h) b e r };
}

impl<'de> ExactDeserialize<'de> for Rectangle {
    ghost takes_memory = { λ _. ⊥ };

    ghost exactly = { λ b e r. asked_exactly (of_type (type_number k.rectangle_kind)) ⊥ _ (λ v x h. ap type_of h) b e r };
}

impl<'de> ExactDeserialize<'de> for Fraction {
    ghost takes_memory = { λ _. ⊥ };

    ghost exactly = { λ b e r. asked_exactly (of_type (type_number k.fraction_kind)) ⊥ _ (λ v x h. ap type_of h) b e r };
}

impl<'de> ExactDeserialize<'de> for Fd {
    ghost takes_memory = { λ _. ⊥ };

    ghost exactly = { λ b e r. asked_exactly (of_type (type_number k.fd_kind)) ⊥ _ (λ v x h. ap type_of h) b e r };
}

impl<'de, T: ArrayElement> ExactDeserialize<'de> for Vec<T> {
    ghost exactly = { λ b e r. asked_exactly (array_of T.kind) ⊤ _ (λ v x h. (_, h)) b e r };
}

impl<'de, T: ChoiceElement> ExactDeserialize<'de> for Choice<T> {
    ghost exactly = { λ b e r. asked_exactly (choice_of T.kind) ⊤ _ (λ v x h. choice_asked _ _ v x h) b e r };
}
