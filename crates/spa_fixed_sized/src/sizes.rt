//! Computes how long pods are, before a byte of them is written.
ghost use Rattle.std.specs.Prelude.{◌≡◌, ◌+◌, ◌*◌, ◌<◌, ◌≤◌, IfNone, IfSome, length, map};
ghost use Rattle.spa_fixed_sized.specs.Choices.{choice_tree};
ghost use Rattle.spa_format.specs.Encoding.{array_body, encoded_body, encoded_pod};
ghost use Rattle.spa_format.specs.Faults.{choice_header_size};
ghost use Rattle.spa_format.specs.Kind.{fixed_body};
ghost use Rattle.spa_format.specs.Words.{size_limit};

use crate::elements::body_len;
use crate::fixed::{CanonicalFixedSizedPod, ChoiceElement};
use spa_bytes::{HEADER_LEN, extent_of};
use spa_utils::{Choice, ChoiceEnum};

/// The length in bytes of the encoding of a value of fixed size.
pub fn pod_len<T: CanonicalFixedSizedPod>(_value: &T) -> usize
    ensures { result ≡ length (encoded_pod T.TYPE (fixed_body (T.fixed _value.now))) }
{
    extent_of(T::SIZE as u32)
}

/// The length in bytes of the body of an array's encoding. None: it is 4294967296 or more.
pub fn array_size<T: CanonicalFixedSizedPod>(values: &[T]) -> Option<u32>
    ensures some { IfSome result (λ size. size ≡ length (array_body T.kind (map T.fixed values.now))) }
    ensures none { IfNone result (size_limit ≤ length (array_body T.kind (map T.fixed values.now))) }
{
    body_len::<T>(HEADER_LEN, values.len())
}

/// The length in bytes of the body of a choice's encoding. None: it is 4294967296 or more.
pub fn choice_size<T: ChoiceElement>(choice: &Choice<T>) -> Option<u32>
    ensures some { IfSome result (λ size. size ≡ length (encoded_body (choice_tree T.kind T.fixed choice.now))) }
    ensures none { IfNone result (size_limit ≤ length (encoded_body (choice_tree T.kind T.fixed choice.now))) }
{
    body_len::<T>(2 * HEADER_LEN, value_count(choice))
}

/// How many values a choice holds, its default among them.
fn value_count<T: ChoiceElement>(choice: &Choice<T>) -> usize
    ensures { length (encoded_body (choice_tree T.kind T.fixed choice.now)) ≡ choice_header_size + result * T.SIZE }
{
    match &choice.1 {
        ChoiceEnum::None(_) => 1,
        ChoiceEnum::Range { .. } => 3,
        ChoiceEnum::Step { .. } => 4,
        ChoiceEnum::Enum { alternatives, .. } => 1 + alternatives.len(),
        ChoiceEnum::Flags { flags, .. } => 1 + flags.len(),
    }
}
