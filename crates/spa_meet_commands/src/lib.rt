//! The object on which two objects agree: of two that follow each other, or of the first pair that agrees of two lists.
#![tactic(auto)]

pub mod answer;
pub mod lists;
pub mod pair;
pub mod progress;
pub mod settling;
