//! Filters two offers to an object that admits, under each key of both, exactly what both sides admit.
#![tactic(auto)]

mod choices;
mod common_pods;
mod enums;
mod error;
mod filtering;
pub mod laws;
mod ranges;
mod refused;
mod settling;
mod support;
mod values;

pub use common_pods::put_common;
pub use error::FilterError;
pub use filtering::filter;
pub use settling::{into_settled, settle, settled};
pub use spa_keyed_objects::Side;
pub use values::common;
