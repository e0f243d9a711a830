//! Tests of views, of fixation, and of the events of an input's nested pods; and of the parser, call by call, by its macro, and where memory
//! is wanting. There is nothing here but tests.
#![tactic(auto)]

#[cfg(test)]
mod calls;
#[cfg(test)]
mod compare;
#[cfg(test)]
mod depth;
#[cfg(test)]
mod equality;
#[cfg(test)]
mod events;
#[cfg(test)]
mod forms;
#[cfg(test)]
mod keyed;
#[cfg(test)]
mod looking;
#[cfg(test)]
mod refused;
#[cfg(test)]
mod rows;
#[cfg(test)]
mod viewing;
