//! Writes pods at once.
ghost use Rattle.std.specs.Prelude.{◌≡◌, ◌-◌, ◌≤◌, ◌++◌, IfErr, IfOk, OnOk, length};
ghost use Rattle.spa_fixed_sized.specs.Choices.{choice_tree};
ghost use Rattle.spa_sink.specs.Writing.{MayRefuse};
ghost use Rattle.spa_format.specs.Encoding.{encoding_of};
ghost use Rattle.spa_format.specs.Tree as tree;
ghost use Rattle.spa_format.specs.Typed.{IsTyped};
ghost use Rattle.spa_format.specs.Writable.{IsWritable};
ghost use Rattle.spa_typed_write.specs.Complete.{MayRefuseLeaf};

use crate::serializer::{PodSerializer, SerializeSuccess};
use spa_bodies::{put_alternatives, put_bitmap, put_bytes, put_number, put_pointer, put_text};
use spa_fixed_sized::{CanonicalFixedSizedPod, ChoiceElement, FixedSizedPod};
use spa_sink::{GenError, PodOutput};
use spa_utils::Choice;

/// The success of a pod that was written to an output which had `start` bytes before.
#[inline(always)]
pub(crate) fn written_since<O: PodOutput>(start: usize, out: O) -> SerializeSuccess<O>
    requires { start ≤ length (O.content out) }
    ensures output { result.output ≡ out }
    ensures count { result.count ≡ length (O.content out) - start }
{
    let len = (out.len() - start) as u64;
    SerializeSuccess { out, len }
}

impl<O: PodOutput> PodSerializer<O> {
    /// Writes a value of a type of fixed size, as its canonical value. Refused only with the output's error, where that refuses the
    /// encoding.
    #[inline(always)]
    pub fn serialized_fixed_sized_pod<P: FixedSizedPod>(
        self,
        pod: &P,
    ) -> Result<SerializeSuccess<O>, GenError>
        ensures encoding { IfOk result
            (λ s. O.content s.output ≡ O.content self ++ encoding_of
            (tree.fixed (P.CanonicalType.fixed (P.to_canonical pod.now)))) }
        ensures count { IfOk result
            (λ s. s.count ≡ length (encoding_of (tree.fixed (P.CanonicalType.fixed (P.to_canonical pod.now))))) }
        ensures typed { OnOk result (IsTyped (tree.fixed (P.CanonicalType.fixed (P.to_canonical pod.now)))) }
        ensures writable { OnOk result (IsWritable (tree.fixed (P.CanonicalType.fixed (P.to_canonical pod.now)))) }
        ensures cause { IfErr result (MayRefuse O.refuses self
            (length (encoding_of (tree.fixed (P.CanonicalType.fixed (P.to_canonical pod.now)))))) }
    {
        let PodSerializer { mut out } = self;
        let start = out.len();
        put_number(&mut out, &pod.as_canonical_type())?;
        Ok(written_since(start, out))
    }

    /// Writes a text. Refused as `NulInText` where it holds NUL, as `TooLarge` where it has 4294967295 bytes or more,
    /// and else with the output's error where that refuses the encoding.
    pub fn serialize_string(self, text: &str) -> Result<SerializeSuccess<O>, GenError>
        ensures encoding { IfOk result
            (λ s. O.content s.output ≡ O.content self ++ encoding_of (tree.string text.now)) }
        ensures count { IfOk result (λ s. s.count ≡ length (encoding_of (tree.string text.now))) }
        ensures typed { OnOk result (IsTyped (tree.string text.now)) }
        ensures writable { OnOk result (IsWritable (tree.string text.now)) }
        ensures cause { IfErr result (MayRefuseLeaf O.refuses self (tree.string text.now)) }
    {
        let PodSerializer { mut out } = self;
        let start = out.len();
        put_text(&mut out, text)?;
        Ok(written_since(start, out))
    }

    /// Writes bytes. Refused as `TooLarge` where there are 4294967296 or more, and else with the output's error where that refuses
    /// the encoding.
    pub fn serialize_bytes(self, bytes: &[u8]) -> Result<SerializeSuccess<O>, GenError>
        ensures encoding { IfOk result
            (λ s. O.content s.output ≡ O.content self ++ encoding_of (tree.bytes bytes.now)) }
        ensures count { IfOk result (λ s. s.count ≡ length (encoding_of (tree.bytes bytes.now))) }
        ensures typed { OnOk result (IsTyped (tree.bytes bytes.now)) }
        ensures writable { OnOk result (IsWritable (tree.bytes bytes.now)) }
        ensures cause { IfErr result (MayRefuseLeaf O.refuses self (tree.bytes bytes.now)) }
    {
        let PodSerializer { mut out } = self;
        let start = out.len();
        put_bytes(&mut out, bytes)?;
        Ok(written_since(start, out))
    }

    /// Writes a bitmap of these bytes. Refused as `TooLarge` where there are 4294967296 or more, and else with the output's error where
    /// that refuses the encoding.
    pub fn serialize_bitmap(self, bytes: &[u8]) -> Result<SerializeSuccess<O>, GenError>
        ensures encoding { IfOk result
            (λ s. O.content s.output ≡ O.content self ++ encoding_of (tree.bitmap bytes.now)) }
        ensures count { IfOk result (λ s. s.count ≡ length (encoding_of (tree.bitmap bytes.now))) }
        ensures typed { OnOk result (IsTyped (tree.bitmap bytes.now)) }
        ensures writable { OnOk result (IsWritable (tree.bitmap bytes.now)) }
        ensures cause { IfErr result (MayRefuseLeaf O.refuses self (tree.bitmap bytes.now)) }
    {
        let PodSerializer { mut out } = self;
        let start = out.len();
        put_bitmap(&mut out, bytes)?;
        Ok(written_since(start, out))
    }

    /// Writes a choice. Refused as `TooLarge` where its body, which has 16 bytes and the size of each value, has 4294967296 bytes or more,
    /// and else with the output's error where that refuses the encoding.
    pub fn serialize_choice<T: ChoiceElement>(
        self,
        choice: &Choice<T>,
    ) -> Result<SerializeSuccess<O>, GenError>
        ensures encoding { IfOk result
            (λ s. O.content s.output ≡ O.content self ++ encoding_of (choice_tree T.kind T.fixed choice.now)) }
        ensures count { IfOk result (λ s. s.count ≡ length (encoding_of (choice_tree T.kind T.fixed choice.now))) }
        ensures typed { OnOk result (IsTyped (choice_tree T.kind T.fixed choice.now)) }
        ensures writable { OnOk result (IsWritable (choice_tree T.kind T.fixed choice.now)) }
        ensures cause { IfErr result (MayRefuseLeaf O.refuses self (choice_tree T.kind T.fixed choice.now)) }
    {
        let PodSerializer { mut out } = self;
        let start = out.len();
        put_alternatives(&mut out, choice)?;
        Ok(written_since(start, out))
    }

    /// Writes a pointer: a type number and an address. Refused only with the output's error, where that refuses the encoding.
    pub fn serialize_pointer(
        self,
        type_: u32,
        address: u64,
    ) -> Result<SerializeSuccess<O>, GenError>
        ensures encoding { IfOk result
            (λ s. O.content s.output ≡ O.content self ++ encoding_of (tree.pointer type_ address)) }
        ensures count { IfOk result (λ s. s.count ≡ length (encoding_of (tree.pointer type_ address))) }
        ensures typed { OnOk result (IsTyped (tree.pointer type_ address)) }
        ensures writable { OnOk result (IsWritable (tree.pointer type_ address)) }
        ensures cause { IfErr result (MayRefuse O.refuses self (length (encoding_of (tree.pointer type_ address)))) }
    {
        let PodSerializer { mut out } = self;
        let start = out.len();
        put_pointer(&mut out, type_, address)?;
        Ok(written_since(start, out))
    }
}
