//! The names that PipeWire gives to types, keys and ids, and what is expected under a key.
#![tactic(auto)]

mod aliases;
mod contents;
mod entry;
pub mod formats;
mod guess;
mod guesses;
mod id_entries;
pub mod ids;
mod key_entries;
pub mod keys;
pub mod laws;
mod lookup;
pub mod shapes;
mod table;
pub mod types;

pub use entry::Expected;
pub use lookup::{expected_under, ids_of, key_named, keys_of, name_of, number_of, path_of};
pub use table::Table;
