//! Tests of small types, dictionaries and result codes, and of what errors print, by themselves and as the program's error that `?` makes
//! of them. There is nothing here but tests.
#![tactic(auto)]

#[cfg(test)]
mod compare;
#[cfg(test)]
mod dictionaries;
#[cfg(test)]
mod equality;
#[cfg(test)]
mod handed_on;
#[cfg(test)]
mod numbers;
#[cfg(test)]
mod plain_types;
#[cfg(test)]
mod printed;
#[cfg(test)]
mod results;
#[cfg(test)]
mod words;
