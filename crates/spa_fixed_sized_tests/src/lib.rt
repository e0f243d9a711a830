//! Tests of the types of fixed size, of the bodies of arrays and choices over them, and of what bytes are written to. There is
//! nothing here but tests.
#![tactic(auto)]

#[cfg(test)]
mod arrays;
#[cfg(test)]
mod choices;
#[cfg(test)]
mod compare;
#[cfg(test)]
mod devices;
#[cfg(test)]
mod equality;
#[cfg(test)]
mod fixed;
#[cfg(test)]
mod outputs;
#[cfg(test)]
mod refusals;
