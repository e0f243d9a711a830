//! Values read from text: strict JSON with names, which loses nothing.
#![tactic(auto)]

mod cause;
mod chosen;
mod element;
mod error;
mod fitting;
mod inside;
pub mod laws;
pub mod letters;
pub mod names;
mod nest;
pub mod numerals;
mod open_object;
mod opening;
mod place;
mod reading;
mod scalars;
pub mod shape;
pub mod tag;
mod tokens;

pub use cause::Cause;
pub use error::{AtPath, TextError};
pub use fitting::{FullType, InPlace, Misfit, Strictness, type_under};
pub use reading::{TextReader, read, read_front};
