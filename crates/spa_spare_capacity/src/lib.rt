//! Bytes with spare capacity behind them.
#![tactic(auto)]

mod written;

pub use written::Written;
