//! Reads the bodies of values of fixed size, of texts and of pointers.
ghost use Rattle.std.specs.Prelude.{◌≡◌, ◌≢◌, ◌++◌, ◌∷◌, [], List, ℕ, IfErr, IfNone, IfOk, IfSome};
ghost use Rattle.spa_fixed_sized.specs.declared.fault.Refusal.TheVariants as refusal;
ghost use Rattle.spa_format.specs.Kind.{IsFixedBody, type_number};
ghost use Rattle.spa_format.specs.Pod.{IsPointer, IsText};
ghost use Rattle.spa_format.specs.Tree.{pointer_type};
ghost use Rattle.spa_bodies.specs.Refusing.{RefusesBody};

use spa_bytes::{POINTER_LEN, SHORT_POINTER_LEN, u32_at, u64_at};
use spa_fixed_sized::{CanonicalFixedSizedPod, Refusal};
use std::str;

/// Reads the value of type `T` with this body. Refused as `WrongSize` where the body has another length than those of the type.
pub fn read_fixed<T: CanonicalFixedSizedPod>(body: &[u8]) -> Result<T, Refusal>
    ensures read { IfOk result (λ x. IsFixedBody T.kind body.now (T.fixed x)) }
    ensures refused { IfErr result (RefusesBody (type_number T.kind) body.now) }
    ensures cause { IfErr result (λ why. why ≡ refusal.WrongSize) }
{
    if body.len() != T::SIZE {
        return Err(Refusal::WrongSize);
    }
    Ok(T::of_body(body))
}

/// The borrowed text of a string's body, before its one NUL, which is its last byte. None: the body is empty, its last byte isn't
/// NUL, another byte is, or the bytes before it aren't UTF-8.
pub fn text_of(body: &[u8]) -> Option<&str>
    ensures some { IfSome result (λ s. IsText s.now × (body.now ≡ s.now ++ 0 ∷ [])) }
    ensures none { IfNone result ((s : List ℕ) → IsText s → body.now ≢ s ++ 0 ∷ []) }
{
    let Some((last, text)) = body.split_last() else {
        return None;
    };
    if *last != 0 || text.contains(&0) {
        return None;
    }
    match str::from_utf8(text) {
        Ok(s) => Some(s),
        Err(_) => None,
    }
}

/// The offset of a pointer's address in its body, behind the type and a free word.
const ADDRESS_AT: usize = 8;

/// Reads the type and the address of a pointer with this body. Refused as `WrongSize` where the body has neither 12 nor 16 bytes.
pub fn read_pointer(body: &[u8]) -> Result<(u32, u64), Refusal>
    ensures read { IfOk result (λ p. IsPointer p.0 p.1 body.now) }
    ensures refused { IfErr result (RefusesBody pointer_type body.now) }
    ensures cause { IfErr result (λ why. why ≡ refusal.WrongSize) }
{
    match body.len() {
        SHORT_POINTER_LEN => Ok((u32_at(body, 0), u64::from(u32_at(body, ADDRESS_AT)))),
        POINTER_LEN => Ok((u32_at(body, 0), u64_at(body, ADDRESS_AT))),
        _ => Err(Refusal::WrongSize),
    }
}
