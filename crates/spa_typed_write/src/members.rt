//! The writers of structs and objects, member by member.
ghost use Rattle.std.specs.Prelude.{◌≡◌, ◌+◌, ◌<◌, ◌≤◌, [], ◌++◌, ◌⊎◌, IfErr, IfOk, MatchOption, None, OnErr, OnOk, Some, length};
ghost use Rattle.spa_sink.specs.Writing.{MayRefuse};
ghost use Rattle.spa_sink.specs.declared.gen_error.GenError.TheVariants.{Failed, TooLarge};
ghost use Rattle.spa_format.specs.Encoding.{encoding_of, encoded_pod};
ghost use Rattle.spa_format.specs.Tree.{object_type, struct_type};
ghost use Rattle.spa_format.specs.Typed.{IsTyped};
ghost use Rattle.spa_format.specs.Words.{header_size, size_limit, word_bytes};
ghost use Rattle.spa_format.specs.Writable.{IsWritable};
ghost use Rattle.spa_typed_write.specs.Unfinished.{Grows, MayRefuseBehind, MayRefuseProperty, output_bytes};

use crate::open_pod::OpenPod;
use crate::serializer::{PodSerialize, PodSerializer, SerializeSuccess};
use bitflags::Flags;
use spa_sink::{GenError, PodOutput};
use spa_utils::SpaTypes;
use spa_value::PropertyFlags;
use std::marker::Model;

/// Writes the members of a struct one by one. After a refusal every call answers `Failed`.
#[derive(Drop)]
pub struct StructPodSerializer<O: PodOutput> {
    pod: OpenPod<O>,
}

impl<O: PodOutput> Model for StructPodSerializer<O> {
    ghost use Rattle.std.specs.Prelude.{Option};
    ghost use Rattle.spa_typed_write.specs.Unfinished.{Unfinished};

    ghost Value = { Option Unfinished };

    ghost view = { λ w. w.pod };
}

/// Writes the properties of an object one by one. After a refusal every call answers `Failed`.
#[derive(Drop)]
pub struct ObjectPodSerializer<O: PodOutput> {
    pod: OpenPod<O>,
}

impl<O: PodOutput> Model for ObjectPodSerializer<O> {
    ghost use Rattle.std.specs.Prelude.{Option};
    ghost use Rattle.spa_typed_write.specs.Unfinished.{Unfinished};

    ghost Value = { Option Unfinished };

    ghost view = { λ w. w.pod };
}

impl<O: PodOutput> PodSerializer<O> {
    /// Begins a struct. Refused only with the output's error, where that refuses the 8 bytes of the header.
    #[inline(always)]
    pub fn serialize_struct(self) -> Result<StructPodSerializer<O>, GenError>
        ensures begun { IfOk result
            (λ w. w ≡ Some (record { type = struct_type; before = O.content self; body = [] })) }
        ensures cause { IfErr result (MayRefuse O.refuses self header_size) }
    {
        let PodSerializer { out } = self;
        Ok(StructPodSerializer {
            pod: OpenPod::begin_pod(out, SpaTypes::Struct.0)?,
        })
    }

    /// Begins an object of this type and id. Refused only with the output's error, where that refuses the 8 bytes of the header, or
    /// the 8 bytes of type and id behind it.
    #[inline(always)]
    pub fn serialize_object(self, type_: u32, id: u32) -> Result<ObjectPodSerializer<O>, GenError>
        ensures begun { IfOk result
            (λ w. w ≡ Some (record { type = object_type; before = O.content self; body = word_bytes type_ ++ word_bytes id })) }
        ensures words { OnOk result ((type_ < size_limit) × (id < size_limit)) }
        ensures cause { IfErr result (λ e. MayRefuse O.refuses self header_size e
            ⊎ MayRefuseBehind O.content O.refuses (O.content self ++
            (word_bytes 0 ++ word_bytes object_type)) header_size e) }
    {
        let PodSerializer { out } = self;
        let mut pod = OpenPod::begin_pod(out, SpaTypes::Object.0)?;
        pod.put_words(type_, id)?;
        Ok(ObjectPodSerializer { pod })
    }
}

impl<O: PodOutput> StructPodSerializer<O> {
    /// Writes the next member, and answers the length of its encoding in bytes. Refused as `Failed` after a refusal, as the
    /// member's type refuses it, and with the output's error where that refuses the encoding.
    #[inline(always)]
    pub fn serialize_field<P: PodSerialize>(&mut self, field: &P) -> Result<u64, GenError>
        ensures member { OnOk result (Grows self.old (encoding_of (P.value field.now)) self.new) }
        ensures count { IfOk result (λ count. count ≡ length (encoding_of (P.value field.now))) }
        ensures typed { OnOk result (IsTyped (P.value field.now)) }
        ensures writable { OnOk result (IsWritable (P.value field.now)) }
        ensures failed { OnErr result (self.new ≡ None) }
        ensures cause { IfErr result (λ e. MatchOption self.old (e ≡ Failed)
            (λ w. P.refuses field.now e
            ⊎ MayRefuseBehind O.content O.refuses (output_bytes w) (length (encoding_of (P.value field.now))) e)) }
    {
        self.pod.put(field)
    }

    /// Ends the struct. Refused as `Failed` after a refusal, as `TooLarge` where its body has 4294967296 bytes or more, and
    /// never otherwise.
    #[inline(always)]
    pub fn end(self) -> Result<SerializeSuccess<O>, GenError>
        ensures pod { IfOk result (λ s. MatchOption self ⊥
            (λ w. O.content s.output ≡ w.before ++ encoded_pod w.type w.body)) }
        ensures count { IfOk result (λ s. MatchOption self ⊥ (λ w. s.count ≡ length (encoded_pod w.type w.body))) }
        ensures fits { OnOk result (MatchOption self ⊥ (λ w. length w.body < size_limit)) }
        ensures cause { IfErr result (λ e. MatchOption self (e ≡ Failed)
            (λ w. (e ≡ TooLarge) × (size_limit ≤ length w.body))) }
    {
        let StructPodSerializer { pod } = self;
        pod.close()
    }
}

impl<O: PodOutput> ObjectPodSerializer<O> {
    /// Writes the next property, and answers how many bytes it has: 8 of key and flags, and the value's encoding. Refused as
    /// `Failed` after a refusal, as the value's type refuses it, and with the output's error where that refuses key and flags or
    /// the encoding.
    #[inline(always)]
    pub fn serialize_property<P: PodSerialize>(
        &mut self,
        key: u32,
        value: &P,
        flags: PropertyFlags,
    ) -> Result<u64, GenError>
        ensures property { OnOk result (Grows self.old
            (word_bytes key ++ (word_bytes flags.0 ++ encoding_of (P.value value.now))) self.new) }
        ensures count { IfOk result (λ count. count ≡ header_size + length (encoding_of (P.value value.now))) }
        ensures words { OnOk result ((key < size_limit) × (flags.0 < size_limit)) }
        ensures typed { OnOk result (IsTyped (P.value value.now)) }
        ensures writable { OnOk result (IsWritable (P.value value.now)) }
        ensures failed { OnErr result (self.new ≡ None) }
        ensures cause { IfErr result (λ e. MatchOption self.old (e ≡ Failed)
            (λ w. P.refuses value.now e
            ⊎ MayRefuseProperty O.content O.refuses w key flags.0 (length (encoding_of (P.value value.now))) e)) }
    {
        self.pod.put_property(key, flags.bits(), value)
    }

    /// Ends the object. Refused as `Failed` after a refusal, as `TooLarge` where its body has 4294967296 bytes or more, and
    /// never otherwise.
    #[inline(always)]
    pub fn end(self) -> Result<SerializeSuccess<O>, GenError>
        ensures pod { IfOk result (λ s. MatchOption self ⊥
            (λ w. O.content s.output ≡ w.before ++ encoded_pod w.type w.body)) }
        ensures count { IfOk result (λ s. MatchOption self ⊥ (λ w. s.count ≡ length (encoded_pod w.type w.body))) }
        ensures fits { OnOk result (MatchOption self ⊥ (λ w. length w.body < size_limit)) }
        ensures cause { IfErr result (λ e. MatchOption self (e ≡ Failed)
            (λ w. (e ≡ TooLarge) × (size_limit ≤ length w.body))) }
    {
        let ObjectPodSerializer { pod } = self;
        pod.close()
    }
}
