//! Sets values of fixed size under keys of the object at the front, in place.
ghost use Rattle.std.specs.Prelude.{◌≡◌, ◌+◌, ◌≤◌, ◌^◌, ◌⊎◌, IfErr, IfOk, length};
ghost use Rattle.spa_format.specs.Kind as k;
ghost use Rattle.spa_format.specs.Kind.{fixed_body};
ghost use Rattle.spav.specs.Answers.{IsDone, IsInvalid, IsMissing, IsOther, IsUnfound};
ghost use Rattle.spav.specs.Items.{HasNoValue};
ghost use Rattle.spav.specs.Reading.{BeginsObject};
ghost use Rattle.spav.specs.Setting.{HasBodyAt, HasOtherAt, IsAnswerAt, IsSet};

use crate::answers::{DONE, OTHER};
use crate::items::{NONE_VALUE_AT, spav_find};
use spa_bytes::HEADER_LEN;
use spa_fixed_sized::CanonicalFixedSizedPod;
use spa_utils::{Fd, Float32, Float64, Fraction, Id, Rectangle};
use spa_view::Pod;

/// The byte at which the body of the value under a key begins, of the object at the front, where that value is of the type `T`; the value of a None
/// choice is taken for the choice. Or the answer -EINVAL, -ENOENT or -EPROTO.
fn body_under<T: CanonicalFixedSizedPod>(input: &[u8], key: u32) -> Result<usize, i32>
    ensures body { IfOk result (λ at. HasBodyAt T.kind key input.now at) }
    ensures within { IfOk result (λ at. at + T.SIZE ≤ length input.now) }
    ensures other { IfErr result (λ answer. IsOther answer → HasOtherAt T.kind key input.now) }
    ensures missing { IfErr result (λ answer. IsMissing answer → HasNoValue key input.now) }
    ensures refused { IfErr result (λ answer. IsInvalid answer → ¬ (BeginsObject input.now)) }
    ensures answers { IfErr result (λ answer. IsOther answer ⊎ IsUnfound answer) }
{
    let mut at = 0;
    let answer = spav_find(input, key, &mut at);
    if answer != DONE {
        return Err(answer);
    }
    if at > input.len() {
        return Err(OTHER);
    }
    let (_, value) = input.split_at(at);
    let Some(pod) = Pod::from_bytes(value) else {
        return Err(OTHER);
    };
    let settled = pod.settled();
    if settled.type_().0 != T::TYPE || settled.size() as usize != T::SIZE {
        return Err(OTHER);
    }
    if settled.extent() < pod.extent() {
        at += NONE_VALUE_AT;
    }
    Ok(at + HEADER_LEN)
}

/// Sets the value under a key, where one of its type is there. The answer is -EINVAL, -ENOENT or -EPROTO where it isn't, and nothing is changed.
fn set_under<T: CanonicalFixedSizedPod>(bytes: &mut [u8], key: u32, value: T) -> i32
    ensures set { IsDone result → IsSet T.kind key (fixed_body (T.fixed value)) bytes.old bytes.new }
    ensures failed { IsAnswerAt T.kind key bytes.old result }
    ensures unchanged { ¬ (IsDone result) → bytes.new ≡ bytes.old }
{
    match body_under::<T>(bytes, key) {
        Ok(at) => {
            bytes[at..at + T::SIZE].copy_from_slice(&value.padded_body()[..T::SIZE]);
            DONE
        }
        Err(answer) => answer,
    }
}

/// Sets a truth value under a key of the object at the front, in place, also in a None choice.
///
/// 0: done. -EINVAL: no object is at the front. -ENOENT: no property has the key. -EPROTO: the value of the first that has it isn't a Bool. Where the
/// answer isn't 0, nothing is changed.
#[unsafe(no_mangle)]
pub extern "C" fn spav_set_bool(bytes: &mut [u8], key: u32, value: bool) -> i32
    ensures set { IsDone result → IsSet k.bool_kind key (fixed_body (k.bool value)) bytes.old bytes.new }
    ensures failed { IsAnswerAt k.bool_kind key bytes.old result }
    ensures unchanged { ¬ (IsDone result) → bytes.new ≡ bytes.old }
{
    set_under(bytes, key, value)
}

/// Sets the number of an Id under a key of the object at the front, in place, also in a None choice.
///
/// 0: done. -EINVAL: no object is at the front. -ENOENT: no property has the key. -EPROTO: the value of the first that has it isn't an Id. Where the
/// answer isn't 0, nothing is changed.
#[unsafe(no_mangle)]
pub extern "C" fn spav_set_id(bytes: &mut [u8], key: u32, value: u32) -> i32
    ensures set { IsDone result → IsSet k.id_kind key (fixed_body (k.id value)) bytes.old bytes.new }
    ensures failed { IsAnswerAt k.id_kind key bytes.old result }
    ensures unchanged { ¬ (IsDone result) → bytes.new ≡ bytes.old }
{
    set_under(bytes, key, Id(value))
}

/// Sets an Int under a key of the object at the front, in place, also in a None choice.
///
/// 0: done. -EINVAL: no object is at the front. -ENOENT: no property has the key. -EPROTO: the value of the first that has it isn't an Int. Where the
/// answer isn't 0, nothing is changed.
#[unsafe(no_mangle)]
pub extern "C" fn spav_set_int(bytes: &mut [u8], key: u32, value: i32) -> i32
    ensures set { IsDone result → IsSet k.int_kind key (fixed_body (k.int value)) bytes.old bytes.new }
    ensures failed { IsAnswerAt k.int_kind key bytes.old result }
    ensures unchanged { ¬ (IsDone result) → bytes.new ≡ bytes.old }
{
    set_under(bytes, key, value)
}

/// Sets a Long under a key of the object at the front, in place, also in a None choice.
///
/// 0: done. -EINVAL: no object is at the front. -ENOENT: no property has the key. -EPROTO: the value of the first that has it isn't a Long. Where the
/// answer isn't 0, nothing is changed.
#[unsafe(no_mangle)]
pub extern "C" fn spav_set_long(bytes: &mut [u8], key: u32, value: i64) -> i32
    ensures set { IsDone result → IsSet k.long_kind key (fixed_body (k.long value)) bytes.old bytes.new }
    ensures failed { IsAnswerAt k.long_kind key bytes.old result }
    ensures unchanged { ¬ (IsDone result) → bytes.new ≡ bytes.old }
{
    set_under(bytes, key, value)
}

/// Sets the bits of a Float under a key of the object at the front, in place, also in a None choice.
///
/// 0: done. -EINVAL: no object is at the front. -ENOENT: no property has the key. -EPROTO: the value of the first that has it isn't a Float. Where the
/// answer isn't 0, nothing is changed.
#[unsafe(no_mangle)]
pub extern "C" fn spav_set_float(bytes: &mut [u8], key: u32, bits: u32) -> i32
    ensures set { IsDone result → IsSet k.float_kind key (fixed_body (k.float bits)) bytes.old bytes.new }
    ensures failed { IsAnswerAt k.float_kind key bytes.old result }
    ensures unchanged { ¬ (IsDone result) → bytes.new ≡ bytes.old }
{
    set_under(bytes, key, Float32(bits))
}

/// Sets the bits of a Double under a key of the object at the front, in place, also in a None choice.
///
/// 0: done. -EINVAL: no object is at the front. -ENOENT: no property has the key. -EPROTO: the value of the first that has it isn't a Double. Where the
/// answer isn't 0, nothing is changed.
#[unsafe(no_mangle)]
pub extern "C" fn spav_set_double(bytes: &mut [u8], key: u32, bits: u64) -> i32
    ensures set { IsDone result → IsSet k.double_kind key (fixed_body (k.double bits)) bytes.old bytes.new }
    ensures failed { IsAnswerAt k.double_kind key bytes.old result }
    ensures unchanged { ¬ (IsDone result) → bytes.new ≡ bytes.old }
{
    set_under(bytes, key, Float64(bits))
}

/// Sets the number of a file descriptor under a key of the object at the front, in place, also in a None choice.
///
/// 0: done. -EINVAL: no object is at the front. -ENOENT: no property has the key. -EPROTO: the value of the first that has it isn't an Fd. Where the
/// answer isn't 0, nothing is changed.
#[unsafe(no_mangle)]
pub extern "C" fn spav_set_fd(bytes: &mut [u8], key: u32, value: i64) -> i32
    ensures set { IsDone result → IsSet k.fd_kind key (fixed_body (k.fd value)) bytes.old bytes.new }
    ensures failed { IsAnswerAt k.fd_kind key bytes.old result }
    ensures unchanged { ¬ (IsDone result) → bytes.new ≡ bytes.old }
{
    set_under(bytes, key, Fd(value))
}

/// Sets a Rectangle under a key of the object at the front, in place, also in a None choice.
///
/// 0: done. -EINVAL: no object is at the front. -ENOENT: no property has the key. -EPROTO: the value of the first that has it isn't a Rectangle. Where the
/// answer isn't 0, nothing is changed.
#[unsafe(no_mangle)]
pub extern "C" fn spav_set_rectangle(bytes: &mut [u8], key: u32, width: u32, height: u32) -> i32
    ensures set { IsDone result → IsSet k.rectangle_kind key (fixed_body (k.rectangle width height)) bytes.old bytes.new }
    ensures failed { IsAnswerAt k.rectangle_kind key bytes.old result }
    ensures unchanged { ¬ (IsDone result) → bytes.new ≡ bytes.old }
{
    set_under(bytes, key, Rectangle { width, height })
}

/// Sets a Fraction under a key of the object at the front, in place, also in a None choice.
///
/// 0: done. -EINVAL: no object is at the front. -ENOENT: no property has the key. -EPROTO: the value of the first that has it isn't a Fraction. Where the
/// answer isn't 0, nothing is changed.
#[unsafe(no_mangle)]
pub extern "C" fn spav_set_fraction(bytes: &mut [u8], key: u32, num: u32, denom: u32) -> i32
    ensures set { IsDone result → IsSet k.fraction_kind key (fixed_body (k.fraction num denom)) bytes.old bytes.new }
    ensures failed { IsAnswerAt k.fraction_kind key bytes.old result }
    ensures unchanged { ¬ (IsDone result) → bytes.new ≡ bytes.old }
{
    set_under(bytes, key, Fraction { num, denom })
}
