//! Tests of typed reads and writes, of visitors, and of types of a program's own. There is nothing here but tests.
#![tactic(auto)]

#[cfg(test)]
mod compare;
#[cfg(test)]
mod declared;
#[cfg(test)]
mod latency;
#[cfg(test)]
mod offers;
#[cfg(test)]
mod own_types;
#[cfg(test)]
mod reading;
#[cfg(test)]
mod reads;
#[cfg(test)]
mod refusals;
#[cfg(test)]
mod writes;
