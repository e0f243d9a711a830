//! Reads and writes pods without members; opens and closes pods whose size is written after their body.
#![tactic(auto)]

mod bodies;
mod checks;
mod error;
mod frame;
mod leaf;
mod text;

pub use bodies::{read_fixed, read_pointer, text_of};
pub use checks::{CHOICE_HEADER_LEN, VALUE_TYPE_AT, check_array, check_choice};
pub use error::error_at;
pub use frame::{begin, close};
pub use leaf::{put_alternatives, put_elements, put_number};
pub use text::{put_bitmap, put_bytes, put_clean_text, put_pointer, put_text};
