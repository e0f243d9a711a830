//! The library for C: pods in the caller's memory are checked, with the first fault, rewritten, read, fixated, negotiated, filtered, built, printed as
//! text and made of text; names are looked up.
//!
//! Each call answers 0 or more where it is done, and else the number of an error, negated.
#![tactic(auto)]

ghost use Rattle.std.specs.Prelude.{◌≡◌};

mod answers;
mod building;
mod faults;
mod filtering;
mod fixation;
mod in_place;
mod items;
mod lenient;
mod lists;
mod naming;
mod negotiation;
mod pods;
mod questions;
mod reading;
mod setting;
mod sides;
mod text;

/// The version of the interface: 65536 times the number in the shared library's name, and how often calls were added under that number.
#[unsafe(no_mangle)]
pub extern "C" fn spav_abi() -> u32
    ensures { result ≡ 0x10000 }
{
    0x10000
}
