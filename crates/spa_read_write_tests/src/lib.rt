//! Tests of readers: wrong sizes are refused before any memory is asked for, and failed readers stay so; and of writers of any value:
//! encodings, outputs of fixed room, devices that fail, and values that stand deep in one another. There is nothing here but tests.
#![tactic(auto)]

#[cfg(test)]
mod after_refusals;
#[cfg(test)]
mod compare;
#[cfg(test)]
mod depth;
#[cfg(test)]
mod hostile_sizes;
#[cfg(test)]
mod nested;
#[cfg(test)]
mod sized;
#[cfg(test)]
mod writing;
