//! Canonical pods: looks at bytes that find whether they are pods, whether these are canonical, and how much shorter their encodings are; and the
//! replacing of pods by their encodings. No value is made, and no memory asked for.
#![tactic(auto)]

mod body;
mod emitting;
mod front;
mod inside;
mod leaf;
mod look;
mod nesting;
mod patch;
mod text;

pub use emitting::encode_pods;
pub use front::fixed_len;
pub use inside::{LEVELS, Waiting, are_flat_properties, none_waiting};
pub use look::{
    AcceptedPod, AcceptedPods, Rejected, accept_pod, accept_within, canonical_front,
    canonical_stretch, look_at_pod, look_at_pods,
};
pub use nesting::{all_nest_within, nests_within};
