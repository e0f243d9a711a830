//! Prints values by a loop, at any nesting depth.
#![tactic(auto)]

mod left;
mod printed;

pub use printed::Printed;
