//! Reads by each built-in type, of pods that are cut.
use crate::front::Typed;
use spa_typed_read::{PodDeserialize, PodDeserializer};
use spa_utils::{Choice, Fd, Float32, Float64, Fraction, Id, Rectangle};
use spa_value::Bitmap;
use std::alloc::Global;

/// Whether reading this type finds the front short.
fn is_short<'de, T: PodDeserialize<'de>>(alloc: Global, input: &'de [u8]) -> bool {
    match PodDeserializer::deserialize_from::<T>(alloc, input) {
        Ok(_) => false,
        Err(error) => error.kind() == "Short",
    }
}

fn are_numbers_short(alloc: Global, input: &[u8]) -> bool {
    is_short::<()>(alloc, input)
        && is_short::<bool>(alloc, input)
        && is_short::<Id>(alloc, input)
        && is_short::<i32>(alloc, input)
        && is_short::<i64>(alloc, input)
        && is_short::<Float32>(alloc, input)
        && is_short::<Float64>(alloc, input)
        && is_short::<Rectangle>(alloc, input)
        && is_short::<Fraction>(alloc, input)
        && is_short::<Fd>(alloc, input)
}

fn are_borrowed_short(alloc: Global, input: &[u8]) -> bool {
    is_short::<&str>(alloc, input)
        && is_short::<String>(alloc, input)
        && is_short::<&[u8]>(alloc, input)
        && is_short::<Vec<u8>>(alloc, input)
        && is_short::<Bitmap<'_>>(alloc, input)
        && is_short::<(u32, u64)>(alloc, input)
        && is_short::<Typed>(alloc, input)
}

fn are_lists_short(alloc: Global, input: &[u8]) -> bool {
    is_short::<Vec<()>>(alloc, input)
        && is_short::<Vec<bool>>(alloc, input)
        && is_short::<Vec<Id>>(alloc, input)
        && is_short::<Vec<i32>>(alloc, input)
        && is_short::<Vec<i64>>(alloc, input)
        && is_short::<Vec<Float32>>(alloc, input)
        && is_short::<Vec<Float64>>(alloc, input)
        && is_short::<Vec<Rectangle>>(alloc, input)
        && is_short::<Vec<Fraction>>(alloc, input)
        && is_short::<Vec<Fd>>(alloc, input)
}

fn are_choices_short(alloc: Global, input: &[u8]) -> bool {
    is_short::<Choice<bool>>(alloc, input)
        && is_short::<Choice<Id>>(alloc, input)
        && is_short::<Choice<i32>>(alloc, input)
        && is_short::<Choice<i64>>(alloc, input)
        && is_short::<Choice<Float32>>(alloc, input)
        && is_short::<Choice<Float64>>(alloc, input)
        && is_short::<Choice<Rectangle>>(alloc, input)
        && is_short::<Choice<Fraction>>(alloc, input)
        && is_short::<Choice<Fd>>(alloc, input)
}

/// Whether no type of the library's own is read from an input that lacks a part of its front.
pub(crate) fn is_short_for_every_type(alloc: Global, input: &[u8]) -> bool {
    are_numbers_short(alloc, input)
        && are_borrowed_short(alloc, input)
        && are_lists_short(alloc, input)
        && are_choices_short(alloc, input)
}
