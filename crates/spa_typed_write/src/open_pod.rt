//! A struct or an object that is open: its members or properties are written one by one.
ghost use Rattle.std.specs.Prelude.{◌≡◌, ◌+◌, ◌<◌, ◌≤◌, [], ◌++◌, ◌⊎◌, IfErr, IfOk, MatchOption, None, OnErr, OnOk, Some, length};
ghost use Rattle.spa_sink.specs.Writing.{MayRefuse};
ghost use Rattle.spa_sink.specs.declared.gen_error.GenError.TheVariants.{Failed, TooLarge};
ghost use Rattle.spa_format.specs.Encoding.{encoding_of, encoded_pod};
ghost use Rattle.spa_format.specs.Typed.{IsTyped};
ghost use Rattle.spa_format.specs.Words.{header_size, size_limit, word_bytes};
ghost use Rattle.spa_format.specs.Writable.{IsWritable};
ghost use Rattle.spa_typed_write.specs.Unfinished.{Grows, MayRefuseBehind, MayRefuseProperty, output_bytes};

use crate::serializer::{PodSerialize, PodSerializer, SerializeSuccess};
use spa_bodies::{begin, close};
use spa_sink::{GenError, PodOutput, put_two};
use std::marker::Model;

/// A struct or an object that is open, so that its size word is 0 for now. After a refusal it has no output any more.
#[derive(Drop)]
pub(crate) struct OpenPod<O: PodOutput> {
    out: Option<O>,
    start: usize,
    type_: u32,
}

impl<O: PodOutput> Model for OpenPod<O> {
    ghost use Rattle.std.specs.Prelude.{IfSome, Option};
    ghost use Rattle.spa_typed_write.specs.Unfinished.{IsUnfinished, Unfinished, open_pod_in};

    ghost Value = { Option Unfinished };

    ghost view = { λ w. open_pod_in O.content w.type_ w.start w.out };

    ghost invariant = { λ w. IfSome w.out (λ o. IsUnfinished w.type_ w.start (O.content o)) };
}

impl<O: PodOutput> OpenPod<O> {
    /// Opens a pod of this type at the end of the output. Refused only where the output refuses the 8 bytes of its header.
    #[inline(always)]
    pub(crate) fn begin_pod(mut out: O, type_: u32) -> Result<OpenPod<O>, GenError>
        ensures begun { IfOk result (λ w. w ≡ Some (record { type = type_; before = O.content out; body = [] })) }
        ensures cause { IfErr result (MayRefuse O.refuses out header_size) }
    {
        let start = begin(&mut out, type_)?;
        Ok(OpenPod {
            out: Some(out),
            start,
            type_,
        })
    }

    /// Appends two words to the body.
    #[inline(always)]
    pub(crate) fn put_words(&mut self, first: u32, second: u32) -> Result<(), GenError>
        ensures grown { OnOk result (Grows self.old (word_bytes first ++ word_bytes second) self.new) }
        ensures words { OnOk result ((first < size_limit) × (second < size_limit)) }
        ensures failed { OnErr result (self.new ≡ None) }
        ensures cause { IfErr result (λ e. MatchOption self.old (e ≡ Failed)
            (λ w. MayRefuseBehind O.content O.refuses (output_bytes w) header_size e)) }
    {
        let Some(mut out) = self.out.take() else {
            return Err(GenError::Failed);
        };
        put_two(&mut out, first, second)?;
        self.out = Some(out);
        Ok(())
    }

    /// Appends the encoding of a value to the body, and answers its length in bytes.
    #[inline(always)]
    pub(crate) fn put<P: PodSerialize>(&mut self, value: &P) -> Result<u64, GenError>
        ensures encoding { OnOk result (Grows self.old (encoding_of (P.value value.now)) self.new) }
        ensures count { IfOk result (λ count. count ≡ length (encoding_of (P.value value.now))) }
        ensures typed { OnOk result (IsTyped (P.value value.now)) }
        ensures writable { OnOk result (IsWritable (P.value value.now)) }
        ensures failed { OnErr result (self.new ≡ None) }
        ensures cause { IfErr result (λ e. MatchOption self.old (e ≡ Failed)
            (λ w. P.refuses value.now e
            ⊎ MayRefuseBehind O.content O.refuses (output_bytes w) (length (encoding_of (P.value value.now))) e)) }
    {
        let Some(out) = self.out.take() else {
            return Err(GenError::Failed);
        };
        let SerializeSuccess { out, len } = value.serialize(PodSerializer { out })?;
        self.out = Some(out);
        Ok(len)
    }

    /// Appends a key, flags and the encoding of a value to the body, and answers their length in bytes.
    #[inline(always)]
    pub(crate) fn put_property<P: PodSerialize>(
        &mut self,
        key: u32,
        flags: u32,
        value: &P,
    ) -> Result<u64, GenError>
        ensures property { OnOk result (Grows self.old
            (word_bytes key ++ (word_bytes flags ++ encoding_of (P.value value.now))) self.new) }
        ensures count { IfOk result (λ count. count ≡ header_size + length (encoding_of (P.value value.now))) }
        ensures words { OnOk result ((key < size_limit) × (flags < size_limit)) }
        ensures typed { OnOk result (IsTyped (P.value value.now)) }
        ensures writable { OnOk result (IsWritable (P.value value.now)) }
        ensures failed { OnErr result (self.new ≡ None) }
        ensures cause { IfErr result (λ e. MatchOption self.old (e ≡ Failed)
            (λ w. P.refuses value.now e
            ⊎ MayRefuseProperty O.content O.refuses w key flags (length (encoding_of (P.value value.now))) e)) }
    {
        let Some(mut out) = self.out.take() else {
            return Err(GenError::Failed);
        };
        let start = out.len();
        put_two(&mut out, key, flags)?;
        let SerializeSuccess { out, .. } = value.serialize(PodSerializer { out })?;
        let len = (out.len() - start) as u64;
        self.out = Some(out);
        Ok(len)
    }

    /// Closes the pod: writes its size word. Refused as `Failed` after a refusal, and as `TooLarge` where the body has 4294967296 bytes or more.
    #[inline(always)]
    pub(crate) fn close(self) -> Result<SerializeSuccess<O>, GenError>
        ensures pod { IfOk result (λ s. MatchOption self ⊥
            (λ w. O.content s.output ≡ w.before ++ encoded_pod w.type w.body)) }
        ensures count { IfOk result (λ s. MatchOption self ⊥ (λ w. s.count ≡ length (encoded_pod w.type w.body))) }
        ensures fits { OnOk result (MatchOption self ⊥ (λ w. length w.body < size_limit)) }
        ensures cause { IfErr result (λ e. MatchOption self (e ≡ Failed)
            (λ w. (e ≡ TooLarge) × (size_limit ≤ length w.body))) }
    {
        let OpenPod { out, start, .. } = self;
        let Some(mut out) = out else {
            return Err(GenError::Failed);
        };
        close(&mut out, start)?;
        let len = (out.len() - start) as u64;
        Ok(SerializeSuccess { out, len })
    }
}
