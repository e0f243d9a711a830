//! What is made of recordings: pods one after another, read exactly or leniently, of which some may be refused.
#![tactic(auto)]

mod blocks;
pub mod cut;
pub mod going_on;
pub mod passing;
pub mod plausible;
pub mod reading;
pub mod streaming;

pub use blocks::count_whole;
