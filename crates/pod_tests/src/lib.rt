//! Tests of what `pod` does over streams and files that break off, are full or can't be flushed, and of pods that nest deep. There is
//! nothing here but tests.
#![tactic(auto)]

#[cfg(test)]
mod shown;
#[cfg(test)]
mod streamed;
#[cfg(test)]
mod streams;
#[cfg(test)]
mod told;
#[cfg(test)]
mod twice;
