//! Values as text with names, and back: strict JSON, which loses nothing.
#![tactic(auto)]

pub mod laws;
mod leaves;
mod out;
mod pretty;
mod printed;
mod printing;

pub use pretty::print_pretty;
pub use printing::{TextPrinter, print};
pub use spa_text_read::{
    AtPath, Cause, FullType, InPlace, Misfit, Strictness, TextError, TextReader, read,
};
