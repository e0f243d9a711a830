//! Tests of what README.md and docs/CALLING.md show, of objects by `object!`, and of deeply nested values, over the paths that a user of the
//! library writes. There is nothing here but tests.
#![tactic(auto)]

#[cfg(test)]
mod bytes;
#[cfg(test)]
mod calling;
#[cfg(test)]
mod deep;
#[cfg(test)]
mod objects;
#[cfg(test)]
mod readme;
