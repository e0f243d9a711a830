//! The ten types of fixed size, written as themselves, and lists of them, written as arrays.
ghost use Rattle.std.specs.Prelude.{map};
ghost use Rattle.spa_format.specs.Tree as tree;

use crate::exact::{SerializeAs, write_elements};
use spa_bodies::put_number;
use spa_fixed_sized::CanonicalFixedSizedPod;
use spa_sink::{GenError, PodOutput};
use spa_utils::{Fd, Float32, Float64, Fraction, Id, Rectangle};

/// One of the ten types of fixed size: a list of it is written as an array. `u8` is none of them: a list of it is written
/// as bytes. `CanonicalFixedSizedPod`, a trait of another crate, can't exclude it.
pub trait ArrayElement: CanonicalFixedSizedPod {}

impl ArrayElement for () {}

impl ArrayElement for bool {}

impl ArrayElement for Id {}

impl ArrayElement for i32 {}

impl ArrayElement for i64 {}

impl ArrayElement for Float32 {}

impl ArrayElement for Float64 {}

impl ArrayElement for Rectangle {}

impl ArrayElement for Fraction {}

impl ArrayElement for Fd {}

impl<T: ArrayElement> SerializeAs for T {
    ghost says = { λ x. tree.fixed (T.fixed x) };

    #[inline(always)]
    fn write_as<O: PodOutput>(&self, out: &mut O) -> Result<(), GenError> {
        put_number(out, self)
    }
}

impl<T: ArrayElement> SerializeAs for &[T] {
    ghost says = { λ xs. tree.array T.kind (map T.fixed xs.now) };

    fn write_as<O: PodOutput>(&self, out: &mut O) -> Result<(), GenError> {
        write_elements(out, self)
    }
}

impl<T: ArrayElement> SerializeAs for Vec<T> {
    ghost says = { λ xs. tree.array T.kind (map T.fixed xs.items) };

    fn write_as<O: PodOutput>(&self, out: &mut O) -> Result<(), GenError> {
        write_elements(out, self.as_slice())
    }
}
