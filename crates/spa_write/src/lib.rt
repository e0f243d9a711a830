//! The writer of values: appends a value's encoding to any sink.
#![tactic(auto)]

mod count;
mod largest;
mod leaf;
mod left;
mod nested;
mod short;
mod size;
mod sized;

pub use leaf::put_leaf;
pub use sized::{write_sized, write_value};
