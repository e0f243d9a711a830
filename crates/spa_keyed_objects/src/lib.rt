//! What negotiation and filtering of objects share: properties that are found by their keys, sets of keys, the properties of an answer, and the
//! two sides.
#![tactic(auto)]

mod keyed;
mod met;
mod side;

pub use keyed::{Keyed, add_key};
pub use met::{Met, push};
pub use side::Side;
