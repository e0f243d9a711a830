//! The ten types of fixed size, the bodies of arrays and choices over them, and why a read is refused.
#![tactic(auto)]

mod array;
mod choice;
mod elements;
mod fault;
mod fixed;
mod fixed_sized;
mod pod;
mod sizes;

pub use array::{next_element, open_array, put_array, read_array};
pub use choice::{
    ENUM_SHAPE, FLAGS_SHAPE, NONE_SHAPE, RANGE_SHAPE, STEP_SHAPE, count_taken, put_choice,
    put_enum, read_choice,
};
pub use fault::{DeserializeError, Fault, FaultKind, Refusal};
pub use fixed::{CanonicalFixedSizedPod, ChoiceElement};
pub use fixed_sized::FixedSizedPod;
pub use pod::{LONGEST_POD_LEN, pod_bytes, put_fixed};
pub use sizes::{array_size, choice_size, pod_len};
