//! The pod format: its definitions, which are in `specs/`, and their laws.
#![tactic(auto)]

pub mod laws;
pub mod lenient_laws;
pub mod view_laws;
