//! Getters of a pod's content, over any bytes: each succeeds exactly where its test is true.
ghost use Rattle.std.specs.Prelude.{◌≡◌, ◌==◌, IfErr, IfOk, OnOk, position};
ghost use Rattle.spa_format.specs.Kind as k;
ghost use Rattle.spa_format.specs.Kind.{content};
ghost use Rattle.spa_format.specs.Words.{body_of, word_at};
ghost use Rattle.spa_view.specs.Tests as t;

use crate::fields::PodStruct;
use crate::pod::Pod;
use crate::props::PodObject;
use spa_bytes::{HEADER_LEN, SHORT_POINTER_LEN, u32_at, u64_at};
use spa_fixed_sized::CanonicalFixedSizedPod;
use spa_utils::{Errno, Fd, Float32, Float64, Fraction, Id, Rectangle};

/// The byte behind a text.
const NUL: u8 = 0;

/// The offset of the type word in a pointer's body.
const POINTER_TYPE_AT: usize = 0;

impl<'a> Pod<'a> {
    ghost use Rattle.spa_view.specs.View.{object_bytes, pod_bytes, struct_bytes};

    /// The value of a pod of fixed size. INVAL where the type isn't that of `T` or the size isn't its size.
    pub(crate) fn get<T: CanonicalFixedSizedPod>(&self) -> Result<T, Errno>
        ensures ok { OnOk result (t.IsOfKind T.kind (pod_bytes self.now)) }
        ensures value { IfOk result (λ x. T.fixed x ≡ content T.kind (body_of (pod_bytes self.now))) }
        ensures refused { IfErr result (λ e. (¬ (t.IsOfKind T.kind (pod_bytes self.now))) × (e ≡ Errno.INVAL)) }
    {
        if !self.is_of::<T>() {
            return Err(Errno::INVAL);
        }
        match T::deserialize_body(self.body()) {
            Ok((_, value)) => Ok(value),
            Err(_) => Err(Errno::INVAL),
        }
    }

    /// The truth value: any word but 0 is true. INVAL exactly where `is_bool` is false.
    pub fn get_bool(&self) -> Result<bool, Errno>
        ensures ok { OnOk result (t.IsOfKind k.bool_kind (pod_bytes self.now)) }
        ensures value { IfOk result (λ x. k.bool x ≡ content k.bool_kind (body_of (pod_bytes self.now))) }
        ensures refused { IfErr result (λ e. (¬ (t.IsOfKind k.bool_kind (pod_bytes self.now))) × (e ≡ Errno.INVAL)) }
    {
        self.get::<bool>()
    }

    /// The id. INVAL exactly where `is_id` is false.
    pub fn get_id(&self) -> Result<Id, Errno>
        ensures ok { OnOk result (t.IsOfKind k.id_kind (pod_bytes self.now)) }
        ensures value { IfOk result (λ x. k.id x.0 ≡ content k.id_kind (body_of (pod_bytes self.now))) }
        ensures refused { IfErr result (λ e. (¬ (t.IsOfKind k.id_kind (pod_bytes self.now))) × (e ≡ Errno.INVAL)) }
    {
        self.get::<Id>()
    }

    /// The number. INVAL exactly where `is_int` is false.
    pub fn get_int(&self) -> Result<i32, Errno>
        ensures ok { OnOk result (t.IsOfKind k.int_kind (pod_bytes self.now)) }
        ensures value { IfOk result (λ x. k.int x ≡ content k.int_kind (body_of (pod_bytes self.now))) }
        ensures refused { IfErr result (λ e. (¬ (t.IsOfKind k.int_kind (pod_bytes self.now))) × (e ≡ Errno.INVAL)) }
    {
        self.get::<i32>()
    }

    /// The number. INVAL exactly where `is_long` is false.
    pub fn get_long(&self) -> Result<i64, Errno>
        ensures ok { OnOk result (t.IsOfKind k.long_kind (pod_bytes self.now)) }
        ensures value { IfOk result (λ x. k.long x ≡ content k.long_kind (body_of (pod_bytes self.now))) }
        ensures refused { IfErr result (λ e. (¬ (t.IsOfKind k.long_kind (pod_bytes self.now))) × (e ≡ Errno.INVAL)) }
    {
        self.get::<i64>()
    }

    /// The bits of the float. INVAL exactly where `is_float` is false.
    pub fn get_float(&self) -> Result<Float32, Errno>
        ensures ok { OnOk result (t.IsOfKind k.float_kind (pod_bytes self.now)) }
        ensures value { IfOk result (λ x. k.float x.0 ≡ content k.float_kind (body_of (pod_bytes self.now))) }
        ensures refused { IfErr result (λ e. (¬ (t.IsOfKind k.float_kind (pod_bytes self.now))) × (e ≡ Errno.INVAL)) }
    {
        self.get::<Float32>()
    }

    /// The bits of the float. INVAL exactly where `is_double` is false.
    pub fn get_double(&self) -> Result<Float64, Errno>
        ensures ok { OnOk result (t.IsOfKind k.double_kind (pod_bytes self.now)) }
        ensures value { IfOk result (λ x. k.double x.0 ≡ content k.double_kind (body_of (pod_bytes self.now))) }
        ensures refused { IfErr result (λ e. (¬ (t.IsOfKind k.double_kind (pod_bytes self.now))) × (e ≡ Errno.INVAL)) }
    {
        self.get::<Float64>()
    }

    /// The number of the file descriptor. INVAL exactly where `is_fd` is false.
    pub fn get_fd(&self) -> Result<i64, Errno>
        ensures ok { OnOk result (t.IsOfKind k.fd_kind (pod_bytes self.now)) }
        ensures value { IfOk result (λ x. k.fd x ≡ content k.fd_kind (body_of (pod_bytes self.now))) }
        ensures refused { IfErr result (λ e. (¬ (t.IsOfKind k.fd_kind (pod_bytes self.now))) × (e ≡ Errno.INVAL)) }
    {
        Ok(self.get::<Fd>()?.0)
    }

    /// The rectangle. INVAL exactly where `is_rectangle` is false.
    pub fn get_rectangle(&self) -> Result<Rectangle, Errno>
        ensures ok { OnOk result (t.IsOfKind k.rectangle_kind (pod_bytes self.now)) }
        ensures value { IfOk result
            (λ x. k.rectangle x.width x.height ≡ content k.rectangle_kind (body_of (pod_bytes self.now))) }
        ensures refused { IfErr result (λ e. (¬ (t.IsOfKind k.rectangle_kind (pod_bytes self.now)))
            × (e ≡ Errno.INVAL)) }
    {
        self.get::<Rectangle>()
    }

    /// The fraction. INVAL exactly where `is_fraction` is false.
    pub fn get_fraction(&self) -> Result<Fraction, Errno>
        ensures ok { OnOk result (t.IsOfKind k.fraction_kind (pod_bytes self.now)) }
        ensures value { IfOk result
            (λ x. k.fraction x.num x.denom ≡ content k.fraction_kind (body_of (pod_bytes self.now))) }
        ensures refused { IfErr result (λ e. (¬ (t.IsOfKind k.fraction_kind (pod_bytes self.now)))
            × (e ≡ Errno.INVAL)) }
    {
        self.get::<Fraction>()
    }

    /// The bytes before the first NUL of a string. INVAL exactly where `is_string` is false or the last body byte isn't
    /// NUL.
    pub fn get_string_raw(&self) -> Result<&'a [u8], Errno>
        ensures ok { OnOk result (t.IsNulEnded (pod_bytes self.now)) }
        ensures value { IfOk result (λ text. text.now ≡ t.before_nul (body_of (pod_bytes self.now))) }
        ensures refused { IfErr result (λ e. (¬ (t.IsNulEnded (pod_bytes self.now))) × (e ≡ Errno.INVAL)) }
    {
        if !self.is_string() {
            return Err(Errno::INVAL);
        }
        let body = self.body();
        if body[body.len() - 1] != NUL {
            return Err(Errno::INVAL);
        }
        Ok(before_nul(body))
    }

    /// The bytes of the body. INVAL exactly where `is_bytes` is false.
    pub fn get_bytes(&self) -> Result<&'a [u8], Errno>
        ensures ok { OnOk result (t.IsBytesPod (pod_bytes self.now)) }
        ensures value { IfOk result (λ bytes. bytes.now ≡ body_of (pod_bytes self.now)) }
        ensures refused { IfErr result (λ e. (¬ (t.IsBytesPod (pod_bytes self.now))) × (e ≡ Errno.INVAL)) }
    {
        if !self.is_bytes() {
            return Err(Errno::INVAL);
        }
        Ok(self.body())
    }

    /// The bytes of a bitmap. INVAL exactly where `is_bitmap` is false.
    pub fn get_bitmap(&self) -> Result<&'a [u8], Errno>
        ensures ok { OnOk result (t.IsBitmapPod (pod_bytes self.now)) }
        ensures value { IfOk result (λ bytes. bytes.now ≡ body_of (pod_bytes self.now)) }
        ensures refused { IfErr result (λ e. (¬ (t.IsBitmapPod (pod_bytes self.now))) × (e ≡ Errno.INVAL)) }
    {
        if !self.is_bitmap() {
            return Err(Errno::INVAL);
        }
        Ok(self.body())
    }

    /// The address, and the type of what it points to. INVAL exactly where `is_pointer` is false.
    pub fn get_pointer(&self) -> Result<(u64, Id), Errno>
        ensures ok { OnOk result (t.IsPointerPod (pod_bytes self.now)) }
        ensures address { IfOk result (λ pointer. t.IsAddress pointer.0 (pod_bytes self.now)) }
        ensures type_of_target { IfOk result (λ pointer. pointer.1.0 ≡ word_at (body_of (pod_bytes self.now)) 0) }
        ensures refused { IfErr result (λ e. (¬ (t.IsPointerPod (pod_bytes self.now))) × (e ≡ Errno.INVAL)) }
    {
        if !self.is_pointer() {
            return Err(Errno::INVAL);
        }
        let body = self.body();
        let type_ = Id(u32_at(body, POINTER_TYPE_AT));
        if self.size() as usize == SHORT_POINTER_LEN {
            return Ok((u64::from(u32_at(body, HEADER_LEN)), type_));
        }
        Ok((u64_at(body, HEADER_LEN), type_))
    }

    /// The pod as a struct. INVAL exactly where `is_struct` is false.
    pub fn as_struct(&self) -> Result<PodStruct<'a>, Errno>
        ensures ok { OnOk result (t.IsStructPod (pod_bytes self.now)) }
        ensures value { IfOk result (λ members. struct_bytes members ≡ pod_bytes self.now) }
        ensures refused { IfErr result (λ e. (¬ (t.IsStructPod (pod_bytes self.now))) × (e ≡ Errno.INVAL)) }
    {
        if !self.is_struct() {
            return Err(Errno::INVAL);
        }
        Ok(PodStruct { pod: *self })
    }

    /// The pod as an object. INVAL exactly where `is_object` is false.
    pub fn as_object(&self) -> Result<PodObject<'a>, Errno>
        ensures ok { OnOk result (t.IsObjectPod (pod_bytes self.now)) }
        ensures value { IfOk result (λ object. object_bytes object ≡ pod_bytes self.now) }
        ensures refused { IfErr result (λ e. (¬ (t.IsObjectPod (pod_bytes self.now))) × (e ≡ Errno.INVAL)) }
    {
        if !self.is_object() {
            return Err(Errno::INVAL);
        }
        Ok(PodObject { pod: *self })
    }
}

/// The bytes before the first NUL, or all where there is none.
fn before_nul(body: &[u8]) -> &[u8]
    ensures { result.now ≡ t.before_nul body.now }
{
    match nul_place(body) {
        Some(end) => &body[..end],
        None => body,
    }
}

/// The offset of the first NUL. None: there is none.
fn nul_place(body: &[u8]) -> Option<usize>
    ensures { result ≡ position (λ x. x == 0) body.now }
{
    body.iter().position(|byte| *byte == NUL)
}
