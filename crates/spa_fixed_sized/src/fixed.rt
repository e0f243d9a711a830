//! The ten types of fixed size: all bodies of one type have one length.
ghost use Rattle.std.specs.Prelude.{◌≡◌, ◌<◌, ◌≤◌, ◌++◌, ℕ, IfErr, IfOk, OnErr, OnOk, ◌-◌, drop, length, refl, replicate, take};
ghost use Rattle.spa_fixed_sized.specs.declared.fault.FaultKind.TheVariants as fault_kind;
ghost use Rattle.spa_format.specs.Kind as k;
ghost use Rattle.spa_format.specs.Kind.{Fixed, Kind, body_size, content, fixed_body, kind_of, type_number};
ghost use Rattle.spa_format.specs.Typed.{IsTypedFixed};
ghost use Rattle.std.proofs.Common.{ap, arith, ◌∙◌};

use crate::fault::{Fault, FaultKind};
use spa_bytes::{two_words, u32_at, u64_at, wide_body, word_body};
use spa_sink::{GenError, PodSink};
use spa_utils::{Fd, Float32, Float64, Fraction, Id, Rectangle, SpaTypes};

mod sealed {
    /// It seals the trait: no type of another crate is of fixed size.
    pub trait Sealed {}
}

use sealed::Sealed;

/// The length in bytes of a body that is one word.
pub(crate) const WORD_LEN: usize = 4;

/// The length in bytes of a body that is two words or a number of 64 bits.
pub(crate) const WIDE_LEN: usize = 8;

/// One of the ten types of fixed size: `()`, `bool`, `Id`, `i32`, `i64`, `Float32`, `Float64`, `Rectangle`, `Fraction` and `Fd`.
pub trait CanonicalFixedSizedPod: Sealed + Copy {
    /// The type number.
    const TYPE: u32;

    /// How many bytes a body has.
    const SIZE: usize;

    ghost TYPE: { ℕ };

    ghost SIZE: { ℕ };

    /// The kind of the type's values.
    ghost kind: { Kind };

    /// The tree's form of a value.
    ghost fixed: { Self → Fixed };

    /// The body, and zeros behind it up to eight bytes.
    #[doc(hidden)]
    fn padded_body(&self) -> [u8; WIDE_LEN]
        ensures within { SIZE ≤ WIDE_LEN }
        ensures body { take SIZE result ≡ fixed_body (fixed self.now) }
        ensures zeros { drop SIZE result ≡ replicate (WIDE_LEN - SIZE) 0 }
        ensures typed { IsTypedFixed (fixed self.now) };

    /// The value with this body.
    #[doc(hidden)]
    fn of_body(body: &[u8]) -> Self
        requires { length body.now ≡ SIZE }
        ensures { fixed result ≡ content kind body.now };

    /// Appends the body, without padding. Refused only with the sink's error.
    final fn serialize_body<O: PodSink>(&self, out: &mut O) -> Result<(), GenError>
        ensures ok { OnOk result (O.appends out.old (fixed_body (fixed self.now)) out.new) }
        ensures typed { IsTypedFixed (fixed self.now) }
        ensures begun { OnErr result ((count : ℕ)
            × O.appends out.old (take count (fixed_body (fixed self.now))) out.new) }
        ensures cause { IfErr result (λ e. O.refuses out.old SIZE out.new e) }
    {
        out.append(&self.padded_body()[..Self::SIZE])
    }

    /// Reads the body at the front of the bytes, and answers the bytes that follow it and the value. Refused as `Short` exactly
    /// where there are fewer than `SIZE` bytes.
    final fn deserialize_body(bytes: &[u8]) -> Result<(&[u8], Self), Fault<&[u8]>>
        ensures enough { OnOk result (SIZE ≤ length bytes.now) }
        ensures says { IfOk result (λ read. fixed read.1 ≡ content kind (take SIZE bytes.now)) }
        ensures rest { IfOk result (λ read. read.0.now ≡ drop SIZE bytes.now) }
        ensures short { IfErr result (λ fault. (length bytes.now < SIZE) × (fault.input.now ≡ bytes.now)
            × (fault.kind ≡ fault_kind.Short)) }
    {
        if bytes.len() < Self::SIZE {
            return Err(Fault {
                input: bytes,
                kind: FaultKind::Short,
            });
        }
        let (body, rest) = bytes.split_at(Self::SIZE);
        Ok((rest, Self::of_body(body)))
    }

    ghost its_type: { TYPE ≡ type_number kind };

    ghost its_size: { SIZE ≡ body_size kind };

    ghost its_kind: { (x : Self) → kind_of (fixed x) ≡ kind };

    ghost same: { (x y : Self) → fixed x ≡ fixed y → x ≡ y };
}

/// One of the nine types that a choice may be over, which are the ten without `()`.
pub trait ChoiceElement: CanonicalFixedSizedPod {
    ghost sized: { 0 < Self.SIZE };
}

impl Sealed for () {}

impl CanonicalFixedSizedPod for () {
    const TYPE: u32 = SpaTypes::None.0;

    const SIZE: usize = 0;

    ghost TYPE = { type_number k.none_kind };

    ghost SIZE = { body_size k.none_kind };

    ghost kind = { k.none_kind };

    ghost fixed = { λ _. k.none };

    ghost its_type = { refl };

    ghost its_size = { refl };

    ghost its_kind = { λ _. refl };

    ghost same = { λ _ _ _. refl };

    fn padded_body(&self) -> [u8; WIDE_LEN] {
        [0; WIDE_LEN]
    }

    fn of_body(_body: &[u8]) {}
}

impl Sealed for bool {}

impl CanonicalFixedSizedPod for bool {
    const TYPE: u32 = SpaTypes::Bool.0;

    const SIZE: usize = WORD_LEN;

    ghost TYPE = { type_number k.bool_kind };

    ghost SIZE = { body_size k.bool_kind };

    ghost kind = { k.bool_kind };

    ghost fixed = { λ x. k.bool x };

    ghost its_type = { refl };

    ghost its_size = { refl };

    ghost its_kind = { λ _. refl };

    ghost same = { λ _ _ e. Prim.cc e };

    fn padded_body(&self) -> [u8; WIDE_LEN] {
        word_body(u32::from(*self))
    }

    fn of_body(body: &[u8]) -> bool {
        u32_at(body, 0) != 0
    }
}

impl ChoiceElement for bool {
    ghost sized = { Prim.omega arith };
}

impl Sealed for Id {}

impl CanonicalFixedSizedPod for Id {
    const TYPE: u32 = SpaTypes::Id.0;

    const SIZE: usize = WORD_LEN;

    ghost TYPE = { type_number k.id_kind };

    ghost SIZE = { body_size k.id_kind };

    ghost kind = { k.id_kind };

    ghost fixed = { λ x. k.id x.0 };

    ghost its_type = { refl };

    ghost its_size = { refl };

    ghost its_kind = { λ _. refl };

    ghost same = { λ x y e. let same_number : x.0 ≡ y.0 = Prim.cc e in ap (λ n. record { 0 = n }) same_number };

    fn padded_body(&self) -> [u8; WIDE_LEN] {
        word_body(self.0)
    }

    fn of_body(body: &[u8]) -> Id {
        Id(u32_at(body, 0))
    }
}

impl ChoiceElement for Id {
    ghost sized = { Prim.omega arith };
}

impl Sealed for i32 {}

impl CanonicalFixedSizedPod for i32 {
    const TYPE: u32 = SpaTypes::Int.0;

    const SIZE: usize = WORD_LEN;

    ghost TYPE = { type_number k.int_kind };

    ghost SIZE = { body_size k.int_kind };

    ghost kind = { k.int_kind };

    ghost fixed = { λ x. k.int x };

    ghost its_type = { refl };

    ghost its_size = { refl };

    ghost its_kind = { λ _. refl };

    ghost same = { λ _ _ e. Prim.cc e };

    fn padded_body(&self) -> [u8; WIDE_LEN] {
        word_body(self.cast_unsigned())
    }

    fn of_body(body: &[u8]) -> i32 {
        u32_at(body, 0).cast_signed()
    }
}

impl ChoiceElement for i32 {
    ghost sized = { Prim.omega arith };
}

impl Sealed for i64 {}

impl CanonicalFixedSizedPod for i64 {
    const TYPE: u32 = SpaTypes::Long.0;

    const SIZE: usize = WIDE_LEN;

    ghost TYPE = { type_number k.long_kind };

    ghost SIZE = { body_size k.long_kind };

    ghost kind = { k.long_kind };

    ghost fixed = { λ x. k.long x };

    ghost its_type = { refl };

    ghost its_size = { refl };

    ghost its_kind = { λ _. refl };

    ghost same = { λ _ _ e. Prim.cc e };

    fn padded_body(&self) -> [u8; WIDE_LEN] {
        wide_body(self.cast_unsigned())
    }

    fn of_body(body: &[u8]) -> i64 {
        u64_at(body, 0).cast_signed()
    }
}

impl ChoiceElement for i64 {
    ghost sized = { Prim.omega arith };
}

impl Sealed for Float32 {}

impl CanonicalFixedSizedPod for Float32 {
    const TYPE: u32 = SpaTypes::Float.0;

    const SIZE: usize = WORD_LEN;

    ghost TYPE = { type_number k.float_kind };

    ghost SIZE = { body_size k.float_kind };

    ghost kind = { k.float_kind };

    ghost fixed = { λ x. k.float x.0 };

    ghost its_type = { refl };

    ghost its_size = { refl };

    ghost its_kind = { λ _. refl };

    ghost same = { λ x y e. let same_number : x.0 ≡ y.0 = Prim.cc e in ap (λ n. record { 0 = n }) same_number };

    fn padded_body(&self) -> [u8; WIDE_LEN] {
        word_body(self.0)
    }

    fn of_body(body: &[u8]) -> Float32 {
        Float32(u32_at(body, 0))
    }
}

impl ChoiceElement for Float32 {
    ghost sized = { Prim.omega arith };
}

impl Sealed for Float64 {}

impl CanonicalFixedSizedPod for Float64 {
    const TYPE: u32 = SpaTypes::Double.0;

    const SIZE: usize = WIDE_LEN;

    ghost TYPE = { type_number k.double_kind };

    ghost SIZE = { body_size k.double_kind };

    ghost kind = { k.double_kind };

    ghost fixed = { λ x. k.double x.0 };

    ghost its_type = { refl };

    ghost its_size = { refl };

    ghost its_kind = { λ _. refl };

    ghost same = { λ x y e. let same_number : x.0 ≡ y.0 = Prim.cc e in ap (λ n. record { 0 = n }) same_number };

    fn padded_body(&self) -> [u8; WIDE_LEN] {
        wide_body(self.0)
    }

    fn of_body(body: &[u8]) -> Float64 {
        Float64(u64_at(body, 0))
    }
}

impl ChoiceElement for Float64 {
    ghost sized = { Prim.omega arith };
}

impl Sealed for Rectangle {}

impl CanonicalFixedSizedPod for Rectangle {
    const TYPE: u32 = SpaTypes::Rectangle.0;

    const SIZE: usize = WIDE_LEN;

    ghost TYPE = { type_number k.rectangle_kind };

    ghost SIZE = { body_size k.rectangle_kind };

    ghost kind = { k.rectangle_kind };

    ghost fixed = { λ x. k.rectangle x.width x.height };

    ghost its_type = { refl };

    ghost its_size = { refl };

    ghost its_kind = { λ _. refl };

    ghost same = { λ x y e. let first : x.width ≡ y.width = Prim.cc e in let second : x.height ≡ y.height = Prim.cc e in ap (λ n. record { width = n; height = x.height }) first ∙ ap (λ n. record { width = y.width; height = n }) second };

    fn padded_body(&self) -> [u8; WIDE_LEN] {
        two_words(self.width, self.height)
    }

    fn of_body(body: &[u8]) -> Rectangle {
        Rectangle {
            width: u32_at(body, 0),
            height: u32_at(body, WORD_LEN),
        }
    }
}

impl ChoiceElement for Rectangle {
    ghost sized = { Prim.omega arith };
}

impl Sealed for Fraction {}

impl CanonicalFixedSizedPod for Fraction {
    const TYPE: u32 = SpaTypes::Fraction.0;

    const SIZE: usize = WIDE_LEN;

    ghost TYPE = { type_number k.fraction_kind };

    ghost SIZE = { body_size k.fraction_kind };

    ghost kind = { k.fraction_kind };

    ghost fixed = { λ x. k.fraction x.num x.denom };

    ghost its_type = { refl };

    ghost its_size = { refl };

    ghost its_kind = { λ _. refl };

    ghost same = { λ x y e. let first : x.num ≡ y.num = Prim.cc e in let second : x.denom ≡ y.denom = Prim.cc e in ap (λ n. record { num = n; denom = x.denom }) first ∙ ap (λ n. record { num = y.num; denom = n }) second };

    fn padded_body(&self) -> [u8; WIDE_LEN] {
        two_words(self.num, self.denom)
    }

    fn of_body(body: &[u8]) -> Fraction {
        Fraction {
            num: u32_at(body, 0),
            denom: u32_at(body, WORD_LEN),
        }
    }
}

impl ChoiceElement for Fraction {
    ghost sized = { Prim.omega arith };
}

impl Sealed for Fd {}

impl CanonicalFixedSizedPod for Fd {
    const TYPE: u32 = SpaTypes::Fd.0;

    const SIZE: usize = WIDE_LEN;

    ghost TYPE = { type_number k.fd_kind };

    ghost SIZE = { body_size k.fd_kind };

    ghost kind = { k.fd_kind };

    ghost fixed = { λ x. k.fd x.0 };

    ghost its_type = { refl };

    ghost its_size = { refl };

    ghost its_kind = { λ _. refl };

    ghost same = { λ x y e. let same_number : x.0 ≡ y.0 = Prim.cc e in ap (λ n. record { 0 = n }) same_number };

    fn padded_body(&self) -> [u8; WIDE_LEN] {
        wide_body(self.0.cast_unsigned())
    }

    fn of_body(body: &[u8]) -> Fd {
        Fd(u64_at(body, 0).cast_signed())
    }
}

impl ChoiceElement for Fd {
    ghost sized = { Prim.omega arith };
}
