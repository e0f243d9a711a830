//! Looks values up by key, also through None choices.
ghost use Rattle.std.specs.Prelude.{◌≡◌, ℕ, IfNone, IfSome};
ghost use Rattle.spa_format.specs.Pod.{IsPod};
ghost use Rattle.spa_format.specs.Tree.{Properties, Tree, bytes, fixed, object, string};
ghost use Rattle.spa_view.specs.Settled.{Says};
ghost use Rattle.spa_view.specs.View.{pod_bytes};

use crate::pod::Pod;
use crate::props::PodObject;
use spa_fixed_sized::CanonicalFixedSizedPod;
use spa_utils::{Fd, Float32, Float64, Fraction, Id, Rectangle};
use std::str;

/// A type of values that are read from a zero-copy view: one of the ten types of fixed size, `&str` for texts, `&[u8]` for Bytes.
pub trait FromPod<'a>: Sized {
    /// The tree of a value.
    ghost says: { Self → Tree };

    /// The value of the pod. None exactly where the pod has none of this type.
    fn from_pod(pod: &Pod<'a>) -> Option<Self>
        ensures value { IfSome result (λ x. Says (says x) (pod_bytes pod.now)) }
        ensures none { IfNone result ((x : Self) → ¬ (Says (says x) (pod_bytes pod.now))) };
}

/// One of the ten types of fixed size. A trait of this crate's own, so that what is written once for them overlaps no other type.
pub trait FixedPod: CanonicalFixedSizedPod {}

impl FixedPod for () {}

impl FixedPod for bool {}

impl FixedPod for Id {}

impl FixedPod for i32 {}

impl FixedPod for i64 {}

impl FixedPod for Float32 {}

impl FixedPod for Float64 {}

impl FixedPod for Rectangle {}

impl FixedPod for Fraction {}

impl FixedPod for Fd {}

/// A value of fixed size: the body has to have the type's size.
impl<'a, T: FixedPod> FromPod<'a> for T {
    ghost says = { λ x. fixed (T.fixed x) };

    fn from_pod(pod: &Pod<'a>) -> Option<T> {
        match pod.get::<T>() {
            Ok(value) => Some(value),
            Err(_) => None,
        }
    }
}

/// The text before the first NUL of a string whose last byte is NUL.
impl<'a> FromPod<'a> for &'a str {
    ghost says = { λ text. string text.now };

    fn from_pod(pod: &Pod<'a>) -> Option<&'a str> {
        let Ok(bytes) = pod.get_string_raw() else {
            return None;
        };
        match str::from_utf8(bytes) {
            Ok(text) => Some(text),
            Err(_) => None,
        }
    }
}

/// The bytes of a Bytes.
impl<'a> FromPod<'a> for &'a [u8] {
    ghost says = { λ it. bytes it.now };

    fn from_pod(pod: &Pod<'a>) -> Option<&'a [u8]> {
        match pod.get_bytes() {
            Ok(bytes) => Some(bytes),
            Err(_) => None,
        }
    }
}

impl<'a> PodObject<'a> {
    ghost use Rattle.spa_view.specs.Found.{IsSettledUnder, StandsUnder};
    ghost use Rattle.spa_view.specs.View.{object_bytes};

    /// The value of the first property with the key, or, where that is a None choice, the choice's value. None exactly where no
    /// property has the key, or the first one's value is of another type.
    pub fn get<T: FromPod<'a>>(&self, key: Id) -> Option<T>
        ensures value { IfSome result (λ x. StandsUnder key.0 (T.says x) (object_bytes self.now)) }
        ensures none { IfNone result ((x : T) → ¬ (StandsUnder key.0 (T.says x) (object_bytes self.now))) }
        ensures accepted { IfSome result (λ x. (t i : ℕ) (ps : Properties) →
            IsPod (object_bytes self.now) (object t i ps) →
            IsSettledUnder key.0 (T.says x) ps) }
        ensures absent { IfNone result ((x : T) (t i : ℕ) (ps : Properties) →
            IsPod (object_bytes self.now) (object t i ps) →
            ¬ (IsSettledUnder key.0 (T.says x) ps)) }
    {
        match self.find_prop(key) {
            Some(prop) => T::from_pod(&prop.value().settled()),
            None => None,
        }
    }
}
