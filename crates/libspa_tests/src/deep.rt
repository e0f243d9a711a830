//! Deeply nested values: read and written by types, printed, rewritten, built and parsed.
mod bytes;
mod calls;
mod rewriting;
mod typed;
