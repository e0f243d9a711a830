//! Negotiation: two objects meet in a third one, under each of whose keys stands a value that both admit; as values, and from bytes to bytes.
#![tactic(auto)]

mod error;
pub mod laws;
mod negotiation;
mod offer_view;
mod pods;
mod rule;
mod settling;
mod support;

pub use error::NegotiateError;
pub use negotiation::{common, negotiate};
pub use pods::negotiate_pods;
pub use spa_keyed_objects::Side;
pub use support::is_supported;
