//! The types over which arrays are read.
use spa_fixed_sized::CanonicalFixedSizedPod;
use spa_utils::{Fd, Float32, Float64, Fraction, Id, Rectangle};

/// One of the ten types of fixed size: a `Vec` of it is read as an array. `u8` is none of them: a `Vec` of it is read as
/// bytes. `CanonicalFixedSizedPod`, a trait of another crate, can't exclude it.
pub trait ArrayElement: CanonicalFixedSizedPod {}

impl ArrayElement for () {}

impl ArrayElement for bool {}

impl ArrayElement for Id {}

impl ArrayElement for i32 {}

impl ArrayElement for i64 {}

impl ArrayElement for Float32 {}

impl ArrayElement for Float64 {}

impl ArrayElement for Rectangle {}

impl ArrayElement for Fraction {}

impl ArrayElement for Fd {}
