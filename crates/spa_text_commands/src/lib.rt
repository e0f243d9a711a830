//! Pods as text: printed, read, shown with names, and compared by their texts.
#![tactic(auto)]

mod aligning;
pub mod answer;
mod changes;
pub mod comparing;
mod dump;
mod extent;
pub mod hexadecimal;
mod inner_values;
mod inside;
mod line_writer;
mod lines;
mod listing;
mod message;
pub mod naming;
pub mod output;
mod page;
pub mod params;
mod parts;
mod paths;
pub mod printing;
pub mod reading;
pub mod selection;
pub mod showing;
mod structs;
