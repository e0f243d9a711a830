//! The refused pod of an input in words: its number, its type's name, the path to the malformed pod inside, and the cause.
#![tactic(auto)]

mod descent;
mod inside;
mod names;
mod refusal;
mod several;

pub use names::TypeName;
pub use refusal::{Cut, Refusal, first_refusal, refusal_for, refusal_of};
pub use several::{NamedRefusal, add_refusals};
