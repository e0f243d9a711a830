//! What `pod` does: pods of files or of the standard input are shown, printed as JSON, read from it, rewritten, fixated, checked, compared,
//! or sought to agree.
#![tactic(auto)]

pub mod answer;
pub mod colours;
mod command;
mod cut;
pub mod files;
mod making;
pub mod misuse;
mod pairs;
mod passing;
mod plain;
mod reading;
mod refusing;
pub mod request;
pub mod run;
pub mod screen;
mod sending;
mod streaming;
mod suggesting;
mod texts;
