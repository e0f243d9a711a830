//! Typed reads, visitors and a user's own readers.
mod answering;
pub(crate) mod answers;
mod built;
mod elements;
mod objects;
mod settled;
mod structs;
mod visitors;
