//! Values read from texts in other forms than the grammar's: with their fixed keys in any order and lists in place of tagged arrays, or as
//! `pw-dump` prints them.
#![tactic(auto)]

mod dump;
mod form;
mod order;
mod place;
mod reading;

pub use form::Form;
pub use order::key_number;
pub use reading::{FreeReader, read};
