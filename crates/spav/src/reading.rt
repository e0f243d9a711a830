//! Reads the pod at the front of the caller's bytes, and the properties of the object there.
//!
//! A read looks only at type and size, as the views of PipeWire do: the bytes may be anything.
ghost use Rattle.std.specs.Prelude.{◌≡◌, ◌≤◌, ◌↔◌, ◌⊎◌, List, ℕ, IfErr, IfOk, length};
ghost use Rattle.spa_format.specs.Front.{HasFront};
ghost use Rattle.spa_format.specs.Kind as k;
ghost use Rattle.spa_format.specs.Words.{extent, word_at};
ghost use Rattle.spa_view.specs.View.{pod_bytes};
ghost use Rattle.spav.specs.Answers.{IsChanged, IsDone, IsInvalid, IsMissing, IsNoRoom, IsOther, IsPut, IsRead, IsUnfound};
ghost use Rattle.spav.specs.Reading.{BeginsObject, HasNoTextUnder, HasNoneUnder, HasTextUnder, IsAnswerUnder, IsUnder, SaysObject, SaysUnder, TextIsPut};

use crate::answers::{DONE, INVALID, MISSING, NO_ROOM, OTHER};
use spa_bytes::{extent_of, open, u32_at};
use spa_utils::Id;
use spa_view::Pod;

/// Reads the type of the pod at the front of the input, the size of its body, and how many bytes it takes with header and padding.
///
/// 0: done. -EINVAL: no whole pod is at the front, and nothing is written.
#[unsafe(no_mangle)]
pub extern "C" fn spav_front(
    input: &[u8],
    type_: &mut u32,
    size: &mut u32,
    whole: &mut usize,
) -> i32
    ensures there { IsDone result ↔ HasFront input.now }
    ensures type_of { IsDone result → type_.new ≡ word_at input.now 4 }
    ensures size_of { IsDone result → size.new ≡ word_at input.now 0 }
    ensures whole_of { IsDone result → whole.new ≡ extent (word_at input.now 0) }
    ensures answers { IsChanged result }
    ensures unchanged { ¬ (IsDone result) → (type_.new ≡ type_.old) × (size.new ≡ size.old) × (whole.new ≡ whole.old) }
{
    let Some(front) = open(input) else {
        return INVALID;
    };
    let body_len = u32_at(input, 0);
    *type_ = front.type_;
    *size = body_len;
    *whole = extent_of(body_len);
    DONE
}

/// Reads the type and the id of the object at the front.
///
/// 0: done. -EINVAL: no object is at the front, and nothing is written.
#[unsafe(no_mangle)]
pub extern "C" fn spav_object(input: &[u8], type_: &mut u32, id: &mut u32) -> i32
    ensures said { IsDone result → SaysObject input.now type_.new id.new }
    ensures refused { IsInvalid result → ¬ (BeginsObject input.now) }
    ensures answers { IsChanged result }
    ensures unchanged { ¬ (IsDone result) → (type_.new ≡ type_.old) × (id.new ≡ id.old) }
{
    let Some(pod) = Pod::from_bytes(input) else {
        return INVALID;
    };
    let Ok(object) = pod.as_object() else {
        return INVALID;
    };
    *type_ = object.type_().0;
    *id = object.id().0;
    DONE
}

/// The value of the first property with the key in the object at the front, where a None choice is read as its value; or else the answer -EINVAL
/// or -ENOENT.
fn value_under(input: &[u8], key: u32) -> Result<Pod<'_>, i32>
    ensures found { IfOk result (λ pod. IsUnder key input.now (pod_bytes pod)) }
    ensures refused { IfErr result (λ answer. IsInvalid answer → ¬ (BeginsObject input.now)) }
    ensures missing { IfErr result (λ answer. IsMissing answer → HasNoneUnder key input.now) }
    ensures answers { IfErr result IsUnfound }
{
    let Some(pod) = Pod::from_bytes(input) else {
        return Err(INVALID);
    };
    let Ok(object) = pod.as_object() else {
        return Err(INVALID);
    };
    match object.find_prop(Id(key)) {
        Some(property) => Ok(property.value().settled()),
        None => Err(MISSING),
    }
}

/// Reads the truth value under a key of the object at the front: any word but 0 is true.
///
/// 0: done. -EINVAL: no object is at the front. -ENOENT: no property has the key. -EPROTO: the first that has it isn't a Bool. Where the
/// answer isn't 0, nothing is written.
#[unsafe(no_mangle)]
pub extern "C" fn spav_bool(input: &[u8], key: u32, value: &mut bool) -> i32
    ensures said { IsDone result → SaysUnder k.bool_kind key input.now (k.bool value.new) }
    ensures failed { IsAnswerUnder k.bool_kind key input.now result }
    ensures unchanged { ¬ (IsDone result) → value.new ≡ value.old }
{
    match value_under(input, key) {
        Ok(pod) => match pod.get_bool() {
            Ok(said) => {
                *value = said;
                DONE
            }
            Err(_) => OTHER,
        },
        Err(answer) => answer,
    }
}

/// Reads the number of the Id under a key of the object at the front.
///
/// 0: done. -EINVAL: no object is at the front. -ENOENT: no property has the key. -EPROTO: the first that has it isn't an Id. Where the
/// answer isn't 0, nothing is written.
#[unsafe(no_mangle)]
pub extern "C" fn spav_id(input: &[u8], key: u32, value: &mut u32) -> i32
    ensures said { IsDone result → SaysUnder k.id_kind key input.now (k.id value.new) }
    ensures failed { IsAnswerUnder k.id_kind key input.now result }
    ensures unchanged { ¬ (IsDone result) → value.new ≡ value.old }
{
    match value_under(input, key) {
        Ok(pod) => match pod.get_id() {
            Ok(said) => {
                *value = said.0;
                DONE
            }
            Err(_) => OTHER,
        },
        Err(answer) => answer,
    }
}

/// Reads the Int under a key of the object at the front.
///
/// 0: done. -EINVAL: no object is at the front. -ENOENT: no property has the key. -EPROTO: the first that has it isn't an Int. Where the
/// answer isn't 0, nothing is written.
#[unsafe(no_mangle)]
pub extern "C" fn spav_int(input: &[u8], key: u32, value: &mut i32) -> i32
    ensures said { IsDone result → SaysUnder k.int_kind key input.now (k.int value.new) }
    ensures failed { IsAnswerUnder k.int_kind key input.now result }
    ensures unchanged { ¬ (IsDone result) → value.new ≡ value.old }
{
    match value_under(input, key) {
        Ok(pod) => match pod.get_int() {
            Ok(said) => {
                *value = said;
                DONE
            }
            Err(_) => OTHER,
        },
        Err(answer) => answer,
    }
}

/// Reads the Long under a key of the object at the front.
///
/// 0: done. -EINVAL: no object is at the front. -ENOENT: no property has the key. -EPROTO: the first that has it isn't a Long. Where the
/// answer isn't 0, nothing is written.
#[unsafe(no_mangle)]
pub extern "C" fn spav_long(input: &[u8], key: u32, value: &mut i64) -> i32
    ensures said { IsDone result → SaysUnder k.long_kind key input.now (k.long value.new) }
    ensures failed { IsAnswerUnder k.long_kind key input.now result }
    ensures unchanged { ¬ (IsDone result) → value.new ≡ value.old }
{
    match value_under(input, key) {
        Ok(pod) => match pod.get_long() {
            Ok(said) => {
                *value = said;
                DONE
            }
            Err(_) => OTHER,
        },
        Err(answer) => answer,
    }
}

/// Reads the bits of the Float under a key of the object at the front.
///
/// 0: done. -EINVAL: no object is at the front. -ENOENT: no property has the key. -EPROTO: the first that has it isn't a Float. Where the
/// answer isn't 0, nothing is written.
#[unsafe(no_mangle)]
pub extern "C" fn spav_float(input: &[u8], key: u32, bits: &mut u32) -> i32
    ensures said { IsDone result → SaysUnder k.float_kind key input.now (k.float bits.new) }
    ensures failed { IsAnswerUnder k.float_kind key input.now result }
    ensures unchanged { ¬ (IsDone result) → bits.new ≡ bits.old }
{
    match value_under(input, key) {
        Ok(pod) => match pod.get_float() {
            Ok(said) => {
                *bits = said.0;
                DONE
            }
            Err(_) => OTHER,
        },
        Err(answer) => answer,
    }
}

/// Reads the bits of the Double under a key of the object at the front.
///
/// 0: done. -EINVAL: no object is at the front. -ENOENT: no property has the key. -EPROTO: the first that has it isn't a Double. Where the
/// answer isn't 0, nothing is written.
#[unsafe(no_mangle)]
pub extern "C" fn spav_double(input: &[u8], key: u32, bits: &mut u64) -> i32
    ensures said { IsDone result → SaysUnder k.double_kind key input.now (k.double bits.new) }
    ensures failed { IsAnswerUnder k.double_kind key input.now result }
    ensures unchanged { ¬ (IsDone result) → bits.new ≡ bits.old }
{
    match value_under(input, key) {
        Ok(pod) => match pod.get_double() {
            Ok(said) => {
                *bits = said.0;
                DONE
            }
            Err(_) => OTHER,
        },
        Err(answer) => answer,
    }
}

/// Reads the number of the file descriptor under a key of the object at the front.
///
/// 0: done. -EINVAL: no object is at the front. -ENOENT: no property has the key. -EPROTO: the first that has it isn't an Fd. Where the
/// answer isn't 0, nothing is written.
#[unsafe(no_mangle)]
pub extern "C" fn spav_fd(input: &[u8], key: u32, value: &mut i64) -> i32
    ensures said { IsDone result → SaysUnder k.fd_kind key input.now (k.fd value.new) }
    ensures failed { IsAnswerUnder k.fd_kind key input.now result }
    ensures unchanged { ¬ (IsDone result) → value.new ≡ value.old }
{
    match value_under(input, key) {
        Ok(pod) => match pod.get_fd() {
            Ok(said) => {
                *value = said;
                DONE
            }
            Err(_) => OTHER,
        },
        Err(answer) => answer,
    }
}

/// Reads the Rectangle under a key of the object at the front.
///
/// 0: done. -EINVAL: no object is at the front. -ENOENT: no property has the key. -EPROTO: the first that has it isn't a Rectangle. Where the
/// answer isn't 0, nothing is written.
#[unsafe(no_mangle)]
pub extern "C" fn spav_rectangle(input: &[u8], key: u32, width: &mut u32, height: &mut u32) -> i32
    ensures said { IsDone result → SaysUnder k.rectangle_kind key input.now (k.rectangle width.new height.new) }
    ensures failed { IsAnswerUnder k.rectangle_kind key input.now result }
    ensures unchanged { ¬ (IsDone result) → (width.new ≡ width.old) × (height.new ≡ height.old) }
{
    match value_under(input, key) {
        Ok(pod) => match pod.get_rectangle() {
            Ok(said) => {
                *width = said.width;
                *height = said.height;
                DONE
            }
            Err(_) => OTHER,
        },
        Err(answer) => answer,
    }
}

/// Reads the Fraction under a key of the object at the front.
///
/// 0: done. -EINVAL: no object is at the front. -ENOENT: no property has the key. -EPROTO: the first that has it isn't a Fraction. Where the
/// answer isn't 0, nothing is written.
#[unsafe(no_mangle)]
pub extern "C" fn spav_fraction(input: &[u8], key: u32, num: &mut u32, denom: &mut u32) -> i32
    ensures said { IsDone result → SaysUnder k.fraction_kind key input.now (k.fraction num.new denom.new) }
    ensures failed { IsAnswerUnder k.fraction_kind key input.now result }
    ensures unchanged { ¬ (IsDone result) → (num.new ≡ num.old) × (denom.new ≡ denom.old) }
{
    match value_under(input, key) {
        Ok(pod) => match pod.get_fraction() {
            Ok(said) => {
                *num = said.num;
                *denom = said.denom;
                DONE
            }
            Err(_) => OTHER,
        },
        Err(answer) => answer,
    }
}

/// Reads the text under a key of the object at the front, which is the bytes before the first NUL of a string's body: they and one NUL are written
/// to the front of `out`.
///
/// 0: `len` is the text's length, without the NUL. -ENOSPC: `out` has no more than that. -EINVAL: no object is at the front. -ENOENT: no
/// property has the key. -EPROTO: the first that has it isn't a string that ends in NUL. Where the answer isn't 0, `out` is unchanged.
#[unsafe(no_mangle)]
pub extern "C" fn spav_string(input: &[u8], key: u32, out: &mut [u8], len: &mut usize) -> i32
    ensures text { IsDone result → (text : List ℕ) × HasTextUnder key input.now text × TextIsPut text len.new out.old out.new }
    ensures room { IsNoRoom result → (text : List ℕ) × HasTextUnder key input.now text × (len.new ≡ length text) ×
        (length out.old ≤ length text) }
    ensures other { IsOther result → HasNoTextUnder key input.now }
    ensures missing { IsMissing result → HasNoneUnder key input.now }
    ensures refused { IsInvalid result → ¬ (BeginsObject input.now) }
    ensures answers { IsNoRoom result ⊎ IsRead result }
    ensures unchanged { ¬ (IsDone result) → out.new ≡ out.old }
{
    match value_under(input, key) {
        Ok(pod) => match pod.get_string_raw() {
            Ok(text) => put_text(text, out, len),
            Err(_) => OTHER,
        },
        Err(answer) => answer,
    }
}

/// Copies a text and one NUL to the front of the output where they fit, and the text's length to `len` in any case.
pub(crate) fn put_text(text: &[u8], out: &mut [u8], len: &mut usize) -> i32
    ensures done { IsDone result → TextIsPut text.now len.new out.old out.new }
    ensures counted { len.new ≡ length text.now }
    ensures room { IsNoRoom result → length out.old ≤ length text.now }
    ensures answers { IsPut result }
    ensures unchanged { ¬ (IsDone result) → out.new ≡ out.old }
{
    *len = text.len();
    if out.len() <= text.len() {
        return NO_ROOM;
    }
    out[..text.len()].copy_from_slice(text);
    out[text.len()] = 0;
    DONE
}
