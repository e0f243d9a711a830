//! Reads the pod of one type at the front, for the built-in types.
ghost use Rattle.std.specs.Prelude.{⊤, ◌≡◌, ◌≢◌, IfErr, IfOk, map};
ghost use Rattle.spa_fixed_sized.specs.Choices.{choice_tree};
ghost use Rattle.spa_format.specs.Kind.{type_number};
ghost use Rattle.spa_format.specs.Tree.{array, bitmap, bitmap_type, bytes, bytes_type, fixed, pointer, pointer_type, string, string_type};
ghost use Rattle.spa_typed_read.specs.Asking.{RefusesAsked, array_of, choice_of, of_type};
ghost use Rattle.spa_bodies.specs.Reading.{IsRead};

use crate::deserializer::{PodDeserializer, ReadResult};
use crate::items::open_array_of;
use crate::typed::open_as;
use spa_bodies::{
    CHOICE_HEADER_LEN, VALUE_TYPE_AT, check_choice, error_at, read_fixed, read_pointer, text_of,
};
use spa_bytes::u32_at;
use spa_fixed_sized::{
    CanonicalFixedSizedPod, ChoiceElement, DeserializeError, Refusal, read_array, read_choice,
};
use spa_utils::{Choice, SpaTypes};

impl<'de> PodDeserializer<'de> {
    /// Reads a value of one of the ten types of fixed size.
    #[inline(always)]
    pub(crate) fn fixed_pod<T: CanonicalFixedSizedPod>(self) -> ReadResult<'de, T>
        ensures read { IfOk result (λ read. IsRead self.entry read.1 (λ value. value ≡ fixed (T.fixed read.0))) }
        ensures refused { IfErr result (RefusesAsked (of_type (type_number T.kind)) ⊥ self.entry) }
    {
        let front = open_as(self.input, T::TYPE)?;
        match read_fixed(front.body) {
            Ok(value) => Ok((value, self.after(front.rest))),
            Err(why) => Err(error_at(self.input, why)),
        }
    }

    /// Reads the borrowed text of a string.
    pub(crate) fn text_pod(self) -> ReadResult<'de, &'de str>
        ensures read { IfOk result (λ read. IsRead self.entry read.1 (λ value. value ≡ string read.0.now)) }
        ensures refused { IfErr result (RefusesAsked (of_type string_type) ⊥ self.entry) }
    {
        let front = open_as(self.input, SpaTypes::String.0)?;
        match text_of(front.body) {
            Some(text) => Ok((text, self.after(front.rest))),
            None => Err(error_at(self.input, Refusal::Text)),
        }
    }

    /// Reads the borrowed bytes of a pod of bytes.
    pub(crate) fn bytes_pod(self) -> ReadResult<'de, &'de [u8]>
        ensures read { IfOk result (λ read. IsRead self.entry read.1 (λ value. value ≡ bytes read.0.now)) }
        ensures refused { IfErr result (RefusesAsked (of_type bytes_type) ⊥ self.entry) }
    {
        let front = open_as(self.input, SpaTypes::Bytes.0)?;
        Ok((front.body, self.after(front.rest)))
    }

    /// Reads the borrowed bytes of a bitmap.
    pub(crate) fn bitmap_pod(self) -> ReadResult<'de, &'de [u8]>
        ensures read { IfOk result (λ read. IsRead self.entry read.1 (λ value. value ≡ bitmap read.0.now)) }
        ensures refused { IfErr result (RefusesAsked (of_type bitmap_type) ⊥ self.entry) }
    {
        let front = open_as(self.input, SpaTypes::Bitmap.0)?;
        Ok((front.body, self.after(front.rest)))
    }

    /// Reads a pointer's type and address.
    pub(crate) fn pointer_pod(self) -> ReadResult<'de, (u32, u64)>
        ensures read { IfOk result (λ read. IsRead self.entry read.1 (λ value. value ≡ pointer read.0.0 read.0.1)) }
        ensures refused { IfErr result (RefusesAsked (of_type pointer_type) ⊥ self.entry) }
    {
        let front = open_as(self.input, SpaTypes::Pointer.0)?;
        match read_pointer(front.body) {
            Ok(read) => Ok((read, self.after(front.rest))),
            Err(why) => Err(error_at(self.input, why)),
        }
    }

    /// Reads the elements of an array over one of the ten types.
    pub(crate) fn array_pod<T: CanonicalFixedSizedPod>(self) -> ReadResult<'de, Vec<T>>
        ensures read { IfOk result (λ read. IsRead self.entry read.1
            (λ value. value ≡ array T.kind (map T.fixed read.0.items))) }
        ensures refused { IfErr result (RefusesAsked (array_of T.kind) ⊤ self.entry) }
    {
        let front = open_array_of::<T>(self.input)?;
        match read_array(self.alloc, front.body) {
            Ok(items) => Ok((items, self.after(front.rest))),
            Err(why) => Err(error_at(self.input, why)),
        }
    }

    /// Reads a choice over one of the nine types that have bytes. A choice over another of the nine is refused as `UnsupportedType`.
    pub(crate) fn choice_pod<T: ChoiceElement>(self) -> ReadResult<'de, Choice<T>>
        ensures read { IfOk result (λ read. IsRead self.entry read.1
            (λ value. value ≡ choice_tree T.kind T.fixed read.0)) }
        ensures refused { IfErr result (RefusesAsked (choice_of T.kind) ⊤ self.entry) }
    {
        let front = open_as(self.input, SpaTypes::Choice.0)?;
        if front.body.len() < CHOICE_HEADER_LEN {
            return Err(DeserializeError::WrongSize);
        }
        if u32_at(front.body, VALUE_TYPE_AT) != T::TYPE {
            if let Err(why) = check_choice(self.alloc, front.body) {
                return Err(error_at(self.input, why));
            }
            return Err(DeserializeError::UnsupportedType);
        }
        match read_choice(self.alloc, front.body) {
            Ok(choice) => Ok((choice, self.after(front.rest))),
            Err(why) => Err(error_at(self.input, why)),
        }
    }
}
