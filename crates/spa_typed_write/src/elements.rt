//! The writer of arrays, element by element.
ghost use Rattle.std.specs.Prelude.{◌≡◌, ◌+◌, ◌*◌, ◌<◌, ◌≤◌, ◌++◌, ◌⊎◌, IfErr, IfOk, MatchOption, None, OnErr, OnOk, Some, length};
ghost use Rattle.spa_sink.specs.Writing.{MayRefuse};
ghost use Rattle.spa_sink.specs.declared.gen_error.GenError.TheVariants.{Failed, TooLarge, WrongCount};
ghost use Rattle.spa_format.specs.Encoding.{encoded_pod};
ghost use Rattle.spa_format.specs.Kind.{fixed_body};
ghost use Rattle.spa_format.specs.Tree.{array_type};
ghost use Rattle.spa_format.specs.Typed.{IsTypedFixed};
ghost use Rattle.spa_format.specs.Words.{header_size, padding, size_limit, word_bytes};
ghost use Rattle.spa_typed_write.specs.Unfinished.{GrowsByElement, MayRefuseBehind, array_output_bytes};

use crate::serializer::{PodSerializer, SerializeSuccess};
use spa_bytes::{HEADER_LEN, joined, two_words};
use spa_fixed_sized::{CanonicalFixedSizedPod, FixedSizedPod};
use spa_sink::{GenError, PodOutput, put_padding};
use spa_utils::SpaTypes;
use std::marker::{Model, PhantomData};

/// Writes the elements of an array one by one. After a refusal every call answers `Failed`.
#[derive(Drop)]
pub struct ArrayPodSerializer<O: PodOutput, P: FixedSizedPod> {
    out: Option<O>,
    start: usize,
    left: u32,
    element: PhantomData<P>,
}

impl<O: PodOutput, P: FixedSizedPod> Model for ArrayPodSerializer<O, P> {
    ghost use Rattle.std.specs.Prelude.{IfSome, Option};
    ghost use Rattle.spa_typed_write.specs.Unfinished.{IsUnfinishedArray, UnfinishedArray, open_array_in};

    ghost Value = { Option UnfinishedArray };

    ghost view = { λ w. open_array_in O.content w.start w.left w.out };

    ghost invariant = { λ w. IfSome w.out (λ o. IsUnfinishedArray P.CanonicalType.SIZE w.start w.left (O.content o)) };
}

impl<O: PodOutput> PodSerializer<O> {
    /// Begins an array of `length` elements. Refused as `TooLarge` where its body, which has 8 bytes and the size of each element, has
    /// 4294967296 bytes or more, and else with the output's error where that refuses the 16 bytes before the first element.
    pub fn serialize_array<P: FixedSizedPod>(
        self,
        length: u32,
    ) -> Result<ArrayPodSerializer<O, P>, GenError>
        ensures begun { IfOk result
            (λ w. w ≡ Some (record { before = O.content self; body = word_bytes P.CanonicalType.SIZE ++ word_bytes P.CanonicalType.TYPE; left = length })) }
        ensures fits { OnOk result (header_size + length * P.CanonicalType.SIZE < size_limit) }
        ensures cause { IfErr result
            (λ e. ((e ≡ TooLarge) × (size_limit ≤ header_size + length * P.CanonicalType.SIZE))
            ⊎ ((header_size + length * P.CanonicalType.SIZE < size_limit)
            × MayRefuse O.refuses self (header_size + header_size) e)) }
    {
        let PodSerializer { mut out } = self;
        let size = HEADER_LEN as u64 + u64::from(length) * P::CanonicalType::SIZE as u64;
        let Ok(size) = u32::try_from(size) else {
            return Err(GenError::TooLarge);
        };
        let start = out.len();
        let child = two_words(P::CanonicalType::SIZE as u32, P::CanonicalType::TYPE);
        out.append(&joined(two_words(size, SpaTypes::Array.0), child))?;
        Ok(ArrayPodSerializer {
            out: Some(out),
            start,
            left: length,
            element: PhantomData,
        })
    }
}

impl<O: PodOutput, P: FixedSizedPod> ArrayPodSerializer<O, P> {
    /// Writes the next element, and answers its size in bytes. Refused as `Failed` after a refusal, as `WrongCount` where no element is left,
    /// and else with the output's error where that refuses the element's body.
    pub fn serialize_element(&mut self, element: &P) -> Result<u64, GenError>
        ensures element { OnOk result (GrowsByElement self.old
            (fixed_body (P.CanonicalType.fixed (P.to_canonical element.now))) self.new) }
        ensures count { IfOk result (λ count. count ≡ P.CanonicalType.SIZE) }
        ensures typed { OnOk result (IsTypedFixed (P.CanonicalType.fixed (P.to_canonical element.now))) }
        ensures failed { OnErr result (self.new ≡ None) }
        ensures cause { IfErr result (λ e. MatchOption self.old (e ≡ Failed)
            (λ w. ((w.left ≡ 0) × (e ≡ WrongCount))
            ⊎ ((0 < w.left) × MayRefuseBehind O.content O.refuses
            (array_output_bytes P.CanonicalType.SIZE w) P.CanonicalType.SIZE e))) }
    {
        let Some(mut out) = self.out.take() else {
            return Err(GenError::Failed);
        };
        if self.left == 0 {
            return Err(GenError::WrongCount);
        }
        element.as_canonical_type().serialize_body(&mut out)?;
        self.left -= 1;
        self.out = Some(out);
        Ok(P::CanonicalType::SIZE as u64)
    }

    /// Ends the array. Refused as `Failed` after a refusal, as `WrongCount` where elements are left, and else with the output's error where that
    /// refuses the padding.
    pub fn end(self) -> Result<SerializeSuccess<O>, GenError>
        ensures all { OnOk result (MatchOption self ⊥ (λ w. w.left ≡ 0)) }
        ensures pod { IfOk result (λ s. MatchOption self ⊥
            (λ w. O.content s.output ≡ w.before ++ encoded_pod array_type w.body)) }
        ensures count { IfOk result (λ s. MatchOption self ⊥ (λ w. s.count ≡ length (encoded_pod array_type w.body))) }
        ensures fits { OnOk result (MatchOption self ⊥ (λ w. length w.body < size_limit)) }
        ensures cause { IfErr result (λ e. MatchOption self (e ≡ Failed)
            (λ w. ((0 < w.left) × (e ≡ WrongCount))
            ⊎ ((w.left ≡ 0) × MayRefuseBehind O.content O.refuses (array_output_bytes P.CanonicalType.SIZE w)
            (length (padding (length w.body))) e))) }
    {
        let ArrayPodSerializer {
            out,
            start,
            left,
            ..
        } = self;
        let Some(mut out) = out else {
            return Err(GenError::Failed);
        };
        if left != 0 {
            return Err(GenError::WrongCount);
        }
        let size = out.len() - (start + HEADER_LEN);
        put_padding(&mut out, size)?;
        let len = (out.len() - start) as u64;
        Ok(SerializeSuccess { out, len })
    }
}
