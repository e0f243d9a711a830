//! Zero-copy views of arrays and choices, and of their values.
ghost use Rattle.std.specs.Prelude.{◌≡◌, ◌≤◌, ◌<◌, ◌∷◌, ◌^◌, List, ℕ, IfErr, IfOk, OnOk, drop, length};
ghost use Rattle.spa_format.specs.Faults.{choice_header_size};
ghost use Rattle.spa_format.specs.Kind.{Fixed, Kind};
ghost use Rattle.spa_format.specs.Pod.{IsArray, IsPod};
ghost use Rattle.spa_format.specs.Tree.{Shape, array, choice, shape_number};
ghost use Rattle.spa_format.specs.Normal.{kept_flags};
ghost use Rattle.spa_format.specs.Words.{body_of, header_size, size_limit, word_at};
ghost use Rattle.spa_view.specs.Tests as t;

use crate::pod::Pod;
use bitflags::Flags;
use spa_bytes::{HEADER_LEN, SECOND_WORD, u32_at};
use spa_fixed_sized::{CanonicalFixedSizedPod, count_taken, next_element};
use spa_utils::{ChoiceFlags, Errno, SpaTypes};
use std::marker::PhantomData;

/// A zero-copy view of an array's elements, or of a choice's values: they have no headers of their own, and share the child header before
/// them, which has the size and the type of one.
#[derive(Clone, Copy, Debug)]
pub struct PodArray<'a> {
    body: &'a [u8],
    ghost header: { header_size ≤ length body.now },
}

impl<'a> PodArray<'a> {
    ghost use Rattle.spa_view.specs.Elements.{HasKind, array_bytes, element_count, elements_left, values_in};

    /// The type of the elements.
    pub fn element_type(&self) -> SpaTypes
        ensures { result.0 ≡ word_at (array_bytes self.now) 4 }
    {
        SpaTypes(u32_at(self.body, SECOND_WORD))
    }

    /// The size of one element, in bytes.
    pub fn element_size(&self) -> u32
        ensures { result ≡ word_at (array_bytes self.now) 0 }
    {
        u32_at(self.body, 0)
    }

    /// How many whole elements there are; 0 where the size of an element is 0.
    pub fn len(&self) -> usize
        ensures count { result ≡ element_count (array_bytes self.now) }
        ensures accepted { (k : Kind) (xs : List Fixed) → IsArray k xs (array_bytes self.now) → result ≡ length xs }
    {
        let size = self.element_size() as usize;
        if size == 0 {
            return 0;
        }
        (self.body.len() - HEADER_LEN) / size
    }

    /// An iterator over the elements in order, up to the first that isn't whole. INVAL exactly where an element's type or size isn't that of `T`.
    pub fn elements<T: CanonicalFixedSizedPod>(&self) -> Result<PodElements<'a, T>, Errno>
        ensures ok { OnOk result (HasKind T.kind (array_bytes self.now)) }
        ensures values { IfOk result
            (λ elements. elements_left T.kind elements ≡ values_in T.kind (drop header_size (array_bytes self.now))) }
        ensures accepted { IfOk result (λ elements. (k : Kind) (xs : List Fixed) → IsArray k xs (array_bytes self.now) →
            elements_left T.kind elements ≡ xs) }
        ensures refused { IfErr result (λ e. (¬ (HasKind T.kind (array_bytes self.now))) × (e ≡ Errno.INVAL)) }
    {
        if self.element_type().as_raw() != T::TYPE || self.element_size() as usize != T::SIZE {
            return Err(Errno::INVAL);
        }
        let (_, left) = self.body.split_at(HEADER_LEN);
        Ok(PodElements {
            left,
            element: PhantomData,
        })
    }
}

/// An iterator over the elements. It ends for good at the first that isn't whole.
#[derive(Clone, Copy, Debug)]
pub struct PodElements<'a, T: CanonicalFixedSizedPod> {
    left: &'a [u8],
    element: PhantomData<T>,
}

impl<'a, T: CanonicalFixedSizedPod> Iterator for PodElements<'a, T> {
    ghost use Rattle.std.specs.Iterator.{item_count, YieldsFirstBy};
    ghost use Rattle.spa_view.specs.Elements.{elements_left};

    type Item = T;

    ghost next_gives = { YieldsFirstBy T.fixed (elements_left T.kind) };

    ghost remaining = { item_count (elements_left T.kind) };

    fn next(&mut self) -> Option<T> {
        if T::SIZE == 0 || self.left.len() < T::SIZE {
            return None;
        }
        let (left, element) = next_element::<T>(self.left);
        self.left = left;
        Some(element)
    }
}

/// A zero-copy view of a choice.
#[derive(Clone, Copy, Debug)]
pub struct PodChoice<'a> {
    pod: Pod<'a>,
    ghost header: { choice_header_size ≤ word_at pod.bytes.now 0 },
}

impl<'a> PodChoice<'a> {
    ghost use Rattle.spa_view.specs.Elements.{array_bytes, choice_values};
    ghost use Rattle.spa_view.specs.View.{choice_bytes, pod_bytes};

    /// The choice's pod.
    pub fn as_pod(&self) -> Pod<'a>
        ensures { pod_bytes result ≡ choice_bytes self.now }
    {
        self.pod
    }

    /// The shape word: 0 None, 1 Range, 2 Step, 3 Enum, 4 Flags. A greater one is no shape's.
    pub fn shape(&self) -> u32
        ensures shape { result ≡ word_at (body_of (choice_bytes self.now)) 0 }
        ensures accepted { (s : Shape) (f : ℕ) (k : Kind) (x : Fixed) (xs : List Fixed) →
            IsPod (choice_bytes self.now) (choice s f k x xs) →
            result ≡ shape_number s }
    {
        u32_at(self.pod.body(), 0)
    }

    /// The flags word, which means nothing in a None choice.
    pub fn flags(&self) -> ChoiceFlags
        ensures flags { result.0 ≡ word_at (body_of (choice_bytes self.now)) 4 }
        ensures accepted { (s : Shape) (f : ℕ) (k : Kind) (x : Fixed) (xs : List Fixed) →
            IsPod (choice_bytes self.now) (choice s f k x xs) →
            kept_flags s result.0 ≡ f }
    {
        ChoiceFlags::from_bits_retain(u32_at(self.pod.body(), SECOND_WORD))
    }

    /// The values that the shape takes, the default first: of None one, of Range three, of Step four, of any other all that are there.
    pub fn values(&self) -> PodArray<'a>
        ensures values { array_bytes result ≡ choice_values (body_of (choice_bytes self.now)) }
        ensures accepted { (s : Shape) (f : ℕ) (k : Kind) (x : Fixed) (xs : List Fixed) →
            IsPod (choice_bytes self.now) (choice s f k x xs) →
            IsArray k (x ∷ xs) (array_bytes result) }
    {
        let (_, values) = self.pod.body().split_at(HEADER_LEN);
        let Some(most) = count_taken(self.shape()) else {
            return PodArray { body: values };
        };
        let taken = HEADER_LEN + most * u32_at(values, 0) as usize;
        PodArray {
            body: &values[..taken.min(values.len())],
        }
    }
}

impl<'a> Pod<'a> {
    ghost use Rattle.spa_view.specs.Elements.{array_bytes};
    ghost use Rattle.spa_view.specs.View.{choice_bytes, pod_bytes};

    /// The pod as an array. INVAL exactly where `is_array` is false.
    pub fn as_array(&self) -> Result<PodArray<'a>, Errno>
        ensures ok { OnOk result (t.IsArrayPod (pod_bytes self.now)) }
        ensures value { IfOk result (λ values. array_bytes values ≡ body_of (pod_bytes self.now)) }
        ensures accepted { IfOk result (λ values. (k : Kind) (xs : List Fixed) →
            IsPod (pod_bytes self.now) (array k xs) →
            IsArray k xs (array_bytes values)) }
        ensures refused { IfErr result (λ e. (¬ (t.IsArrayPod (pod_bytes self.now))) × (e ≡ Errno.INVAL)) }
    {
        if !self.is_array() {
            return Err(Errno::INVAL);
        }
        Ok(PodArray { body: self.body() })
    }

    /// The pod as a choice. INVAL exactly where `is_choice` is false.
    pub fn as_choice(&self) -> Result<PodChoice<'a>, Errno>
        ensures ok { OnOk result (t.IsChoicePod (pod_bytes self.now)) }
        ensures value { IfOk result (λ choice. choice_bytes choice ≡ pod_bytes self.now) }
        ensures refused { IfErr result (λ e. (¬ (t.IsChoicePod (pod_bytes self.now))) × (e ≡ Errno.INVAL)) }
    {
        if !self.is_choice() {
            return Err(Errno::INVAL);
        }
        Ok(PodChoice { pod: *self })
    }
}
