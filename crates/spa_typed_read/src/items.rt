//! Reads the elements of an array one by one.
ghost use Rattle.std.specs.Prelude.{◌≡◌, ◌≢◌, ◌<◌, ◌≤◌, ◌⊎◌, false, length, true, IfErr, IfOk, IsErrAnd, IsOk, OnErr};
ghost use Rattle.spa_bytes.specs.Opening.{Opens};
ghost use Rattle.spa_fixed_sized.specs.declared.fault.DeserializeError.TheVariants as error;
ghost use Rattle.spa_format.specs.Tree.{array_type};
ghost use Rattle.spa_format.specs.Words.{header_size, word_at};
ghost use Rattle.spa_typed_read.specs.Asking.{RefusesAsked, array_of};
ghost use Rattle.spa_typed_read.specs.Members.{HasElements, OpensArray, TakesElement};
ghost use Rattle.spa_bodies.specs.Reading.{IsShortAt};

use crate::deserializer::{DeserializeSuccess, PodDeserializer};
use crate::typed::open_as;
use spa_bytes::{Front, HEADER_LEN, SECOND_WORD, u32_at};
use spa_fixed_sized::{
    CanonicalFixedSizedPod, DeserializeError, Fault, FaultKind, FixedSizedPod, open_array,
};
use spa_utils::SpaTypes;
use std::alloc::Global;
use std::marker::{Model, PhantomData};

/// Opens the array at the front of the input. Refusals: `Nom` with `Short` where the front isn't there, `Nom` with `Tag` where it is no
/// array or its elements are of another type than `T`, and `WrongSize` where the body lacks a child header.
#[inline(always)]
pub(crate) fn open_array_of<'de, T: CanonicalFixedSizedPod>(
    input: &'de [u8],
) -> Result<Front<'de>, DeserializeError<&'de [u8]>>
    ensures there { IfOk result (λ front. Opens input.now array_type front.body.now front.rest.now) }
    ensures header { IfOk result (λ front. header_size ≤ length front.body.now) }
    ensures child_type { IfOk result (λ front. word_at front.body.now 4 ≡ T.TYPE) }
    ensures refused { IfErr result (RefusesAsked (array_of T.kind) ⊥ input.now) }
{
    let front = open_as(input, SpaTypes::Array.0)?;
    if front.body.len() < HEADER_LEN {
        return Err(DeserializeError::WrongSize);
    }
    if u32_at(front.body, SECOND_WORD) != T::TYPE {
        return Err(DeserializeError::Nom(Fault {
            input,
            kind: FaultKind::Tag,
        }));
    }
    Ok(front)
}

/// Reads an array's elements one by one. Once a call was refused, every call answers `FailedReader`.
///
/// Its model: how many elements are left, their bytes, the bytes that follow the array, and whether it has failed.
#[derive(Drop)]
pub struct ArrayPodDeserializer<'de, E: FixedSizedPod> {
    left: &'de [u8],
    after: &'de [u8],
    count: u32,
    failed: bool,
    alloc: Global,
    element: PhantomData<E>,
}

impl<'de, E: FixedSizedPod> Model for ArrayPodDeserializer<'de, E> {
    ghost use Rattle.spa_typed_read.specs.Members.{ArrayReader};

    ghost Value = { ArrayReader };

    ghost view = { λ it. record { count = it.count; reader = record { left = it.left.now; after = it.after.now; failed = it.failed } } };
}

impl<'de, E: FixedSizedPod> ArrayPodDeserializer<'de, E> {
    /// The reader of the array at the front of the input, and how many elements it has.
    pub(crate) fn open(
        deserializer: PodDeserializer<'de>,
    ) -> Result<(ArrayPodDeserializer<'de, E>, u32), DeserializeError<&'de [u8]>>
        ensures opens { IfOk result (λ opened. OpensArray E.CanonicalType.kind deserializer.entry opened.0) }
        ensures count { IfOk result (λ opened. opened.1 ≡ opened.0.count) }
        ensures refused { IfErr result (RefusesAsked (array_of E.CanonicalType.kind) ⊥ deserializer.entry) }
    {
        let front = open_array_of::<E::CanonicalType>(deserializer.input)?;
        let Some(left) = open_array::<E::CanonicalType>(front.body) else {
            return Err(DeserializeError::WrongSize);
        };
        let size = <E::CanonicalType as CanonicalFixedSizedPod>::SIZE;
        let count = if size == 0 {
            0
        } else {
            (left.len() / size) as u32
        };
        let reader = ArrayPodDeserializer {
            left,
            after: front.rest,
            count,
            failed: false,
            alloc: deserializer.alloc,
            element: PhantomData,
        };
        Ok((reader, count))
    }

    /// Reads the next element. Refusals: `NoElementLeft` past the last one, and `FailedReader` where a call was refused before.
    /// After a refusal the reader has failed.
    pub fn deserialize_element(&mut self) -> Result<E, DeserializeError<&'de [u8]>>
        ensures element { IfOk result
            (TakesElement E.CanonicalType.kind E.CanonicalType.fixed E.of_canonical self.old self.new) }
        ensures failed { OnErr result (self.new.reader.failed ≡ true) }
        ensures stays { self.old.reader.failed ≡ true → IsErrAnd result (λ e. e ≡ error.FailedReader) }
        ensures past_last { self.old.reader.failed ≡ false → self.old.count ≡ 0
            → IsErrAnd result (λ e. e ≡ error.NoElementLeft) }
        // Since whole elements are left of an array that was opened, there is no other refusal.
        ensures taken { self.old.reader.failed ≡ false → 0 < self.old.count
            → HasElements E.CanonicalType.SIZE self.old → IsOk result }
    {
        if self.failed {
            return Err(DeserializeError::FailedReader);
        }
        self.failed = true;
        if self.count == 0 {
            return Err(DeserializeError::NoElementLeft);
        }
        let (left, canonical) = <E::CanonicalType as CanonicalFixedSizedPod>::deserialize_body(
            self.left,
        )?;
        self.left = left;
        self.count -= 1;
        self.failed = false;
        Ok(E::from_canonical_type(&canonical))
    }

    /// Ends the array, all of whose elements have to be read. Refusals: `FailedReader` where a call was refused, else
    /// `UnreadMembers` where an element is left.
    pub fn end(self) -> Result<DeserializeSuccess<'de>, DeserializeError<&'de [u8]>>
        ensures ok { IfOk result (λ success. (success ≡ self.entry.reader.after) × (self.entry.reader.failed ≡ false)
            × (self.entry.count ≡ 0)) }
        ensures done { self.entry.reader.failed ≡ false → self.entry.count ≡ 0 → IsOk result }
        ensures failed { self.entry.reader.failed ≡ true → IsErrAnd result (λ e. e ≡ error.FailedReader) }
        ensures unread { self.entry.reader.failed ≡ false → 0 < self.entry.count
            → IsErrAnd result (λ e. e ≡ error.UnreadMembers) }
    {
        if self.failed {
            return Err(DeserializeError::FailedReader);
        }
        if self.count != 0 {
            return Err(DeserializeError::UnreadMembers);
        }
        Ok(DeserializeSuccess::before(self.alloc, self.after))
    }

    /// The allocator that the reader was given.
    pub fn allocator(&self) -> Global {
        self.alloc
    }
}
