//! Reads pods as items, into memory of the caller's: one for each pod, and for each element of an array and value of a choice.
#![tactic(auto)]

mod contents;
mod elements;
mod item;
mod listing;
mod places;

pub use elements::element_item;
pub use item::Item;
pub use listing::{front_item, list_items};
pub use places::{place_of_key, place_of_number};
