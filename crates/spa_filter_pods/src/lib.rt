//! Filtering from bytes to bytes: filters the objects of two pods, and writes the outcome.
#![tactic(auto)]

mod common_pods;
mod pods;
mod rule;

pub use pods::{filter_pods, filter_viewed};
pub use spa_filter::{FilterError, Side};
