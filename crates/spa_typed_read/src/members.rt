//! Reads the members of a struct one by one.
ghost use Rattle.std.specs.Prelude.{◌≡◌, ◌≢◌, [], false, true, IfErr, IfOk, IsErrAnd, IsOk, MatchOption, OnErr, OnOk};
ghost use Rattle.spa_fixed_sized.specs.declared.fault.DeserializeError.TheVariants as error;
ghost use Rattle.spa_format.specs.Tree.{struct_type};
ghost use Rattle.spa_typed_read.specs.Asking.{LacksFront};
ghost use Rattle.spa_typed_read.specs.Members.{AtEnd, Further, OpensStruct, RefusesEnd, TakesField};

use crate::deserializer::{DeserializeSuccess, PodDeserialize, PodDeserializer};
use crate::typed::open_as;
use spa_fixed_sized::DeserializeError;
use spa_utils::SpaTypes;
use std::alloc::Global;
use std::marker::Model;

/// Reads a struct's members one by one. Once a member was refused, every call answers `FailedReader`.
///
/// Its model: the remaining bytes of the struct's body, the bytes that follow the struct, and whether it has failed.
#[derive(Drop)]
pub struct StructPodDeserializer<'de> {
    left: &'de [u8],
    after: &'de [u8],
    failed: bool,
    alloc: Global,
}

impl<'de> Model for StructPodDeserializer<'de> {
    ghost use Rattle.spa_typed_read.specs.Members.{Reader};

    ghost Value = { Reader };

    ghost view = { λ it. record { left = it.left.now; after = it.after.now; failed = it.failed } };
}

impl<'de> StructPodDeserializer<'de> {
    /// The reader of the struct at the front of the input. Refusals: `Nom` with `Short` or `Tag`, where the front isn't there or is no struct.
    pub(crate) fn open(
        deserializer: PodDeserializer<'de>,
    ) -> Result<StructPodDeserializer<'de>, DeserializeError<&'de [u8]>>
        ensures opens { IfOk result (OpensStruct deserializer.entry) }
        ensures refused { IfErr result (LacksFront struct_type deserializer.entry) }
    {
        let front = open_as(deserializer.input, SpaTypes::Struct.0)?;
        Ok(StructPodDeserializer {
            left: front.body,
            after: front.rest,
            failed: false,
            alloc: deserializer.alloc,
        })
    }

    /// Reads the next member as a value of the type `P`. None: there are no more members.
    ///
    /// Refusals: those of `P`, for the remaining bytes of the struct's body, and `FailedReader` where a member was refused
    /// before. After a refusal the reader has failed.
    pub fn deserialize_field<P: PodDeserialize<'de>>(
        &mut self,
    ) -> Result<Option<P>, DeserializeError<&'de [u8]>>
        ensures field { IfOk result (λ read. MatchOption read ((self.new ≡ self.old) × AtEnd self.old)
            (λ x. TakesField self.old self.new (λ value. P.reads value x))) }
        ensures same { Further self.old self.new }
        ensures failed { OnErr result (self.new.failed ≡ true) }
        // A reader that has failed stays so,
        ensures stays { self.old.failed ≡ true → IsErrAnd result (λ e. e ≡ error.FailedReader) }
        // and another one is refused only as the member's type refuses what is left.
        ensures refused { self.old.failed ≡ false
            → IfErr result (λ e. (self.old.left ≢ []) × P.refuses self.old.left e) }
    {
        if self.failed {
            return Err(DeserializeError::FailedReader);
        }
        if self.left.is_empty() {
            return Ok(None);
        }
        self.failed = true;
        let (value, success) = P::deserialize(PodDeserializer {
            input: self.left,
            alloc: self.alloc,
        })?;
        self.left = success.rest();
        self.failed = false;
        Ok(Some(value))
    }

    /// Checks that all members are read, with the refusals of `end`.
    pub(crate) fn ended(&self) -> Result<(), DeserializeError<&'de [u8]>>
        ensures ok { OnOk result (AtEnd self.now) }
        ensures refused { IfErr result (RefusesEnd self.now) }
    {
        if self.failed {
            return Err(DeserializeError::FailedReader);
        }
        if !self.left.is_empty() {
            return Err(DeserializeError::UnreadMembers);
        }
        Ok(())
    }

    /// Ends the struct, all of whose members have to be read. Refusals: `FailedReader` where a member was refused, else
    /// `UnreadMembers` where one is left.
    pub fn end(self) -> Result<DeserializeSuccess<'de>, DeserializeError<&'de [u8]>>
        ensures ok { IfOk result (λ success. (success ≡ self.entry.after) × AtEnd self.entry) }
        ensures done { AtEnd self.entry → IsOk result }
        ensures failed { self.entry.failed ≡ true → IsErrAnd result (λ e. e ≡ error.FailedReader) }
        ensures unread { self.entry.failed ≡ false → self.entry.left ≢ []
            → IsErrAnd result (λ e. e ≡ error.UnreadMembers) }
        ensures refused { IfErr result (RefusesEnd self.entry) }
    {
        match self.ended() {
            Ok(()) => Ok(DeserializeSuccess::before(self.alloc, self.after)),
            Err(e) => Err(e),
        }
    }

    /// The allocator that the reader was given.
    pub fn allocator(&self) -> Global {
        self.alloc
    }
}
