//! Negotiates objects in the caller's memory.
ghost use Rattle.std.specs.Prelude.{◌≡◌, ◌<◌, ◌⊎◌, List, length, ℕ};
ghost use Rattle.spa_negotiate.specs.Fronts.{AreFrontsRefused, BeginBoth, MeetIn, MeetTooLarge};
ghost use Rattle.spa_negotiate.specs.Meeting.{CanMeet};
ghost use Rattle.spa_negotiate.specs.Refusals.{AreRefused};
ghost use Rattle.spa_negotiate.specs.declared.error.NegotiateError.TheVariants.{Disjoint, OutOfMemory, TypeMismatch, Unsupported};
ghost use Rattle.spav.specs.Answers.{IsApart, IsDisjoint, IsDone, IsInvalid, IsNoMemory, IsNoRoom, IsOther, IsPast, IsUnsupported};
ghost use Rattle.spav.specs.Lists.{IsWritten};
ghost use Rattle.spav.specs.Sides.{HasNoObject};

use crate::answers::{DISJOINT, INVALID, NO_MEMORY, OTHER, PAST, UNSUPPORTED};
use crate::lists::put_front;
use crate::sides::number_of;
use spa_negotiate::{NegotiateError, negotiate_pods};
use std::alloc::Global;

/// Negotiates the objects at the fronts of two inputs, and writes the object in which they meet to the front of `out`: it has a value that both
/// admit under each key of both, and no choice of a shape other than None. The bytes behind the two fronts don't count.
///
/// 0: `written` is the length of that object in bytes, and `out` is unchanged behind it. -ENOSPC: that length, `written`, is more than `out` has.
/// -EINVAL: no object is at the front of the first input, where `key_or_side` is 0, or of the second, where it is 1. On a mismatch `key_or_side` is the first
/// conflicting key: -EPROTO, the objects are of two types, and there is no key; -ENOTSUP, the key has a choice for which no common value is sought;
/// -ENODATA, no value is admitted by both. -EOVERFLOW: the object in which they meet is too large for a pod. -ENOMEM: memory was asked for and
/// refused. Where the answer isn't 0, `out` is unchanged.
#[unsafe(no_mangle)]
pub extern "C" fn spav_negotiate(
    alloc: Global,
    a: &[u8],
    b: &[u8],
    out: &mut [u8],
    written: &mut usize,
    key_or_side: &mut u32,
) -> i32
    ensures done { IsDone result → (bytes : List ℕ) × BeginBoth a.now b.now (MeetIn bytes)
        × IsWritten bytes written.new out.old out.new }
    ensures room { IsNoRoom result → (bytes : List ℕ) × BeginBoth a.now b.now (MeetIn bytes)
        × (written.new ≡ length bytes) × (length out.old < length bytes) }
    // Memory and too large outcomes aside, the two can't meet exactly where one of these is answered, and the answer is right.
    ensures apart { IsApart result → ¬ (BeginBoth a.now b.now CanMeet) }
    ensures front { IsInvalid result → HasNoObject a.now b.now key_or_side.new }
    ensures types { IsOther result → BeginBoth a.now b.now (λ v w. AreRefused v w TypeMismatch) }
    ensures unsupported { IsUnsupported result
        → BeginBoth a.now b.now (λ v w. AreRefused v w (Unsupported key_or_side.new)) }
    ensures disjoint { IsDisjoint result → BeginBoth a.now b.now (λ v w. AreRefused v w (Disjoint key_or_side.new)) }
    ensures past { IsPast result → BeginBoth a.now b.now MeetTooLarge }
    ensures memory { IsNoMemory result → AreFrontsRefused a.now b.now OutOfMemory }
    ensures answers { IsDone result ⊎ IsNoRoom result ⊎ IsNoMemory result ⊎ IsPast result ⊎ IsApart result }
    ensures unchanged { ¬ (IsDone result) → out.new ≡ out.old }
{
    match negotiate_pods(alloc, a, b) {
        Ok(met) => put_front(met.as_slice(), out, written),
        Err(NegotiateError::TypeMismatch) => OTHER,
        Err(NegotiateError::Unsupported(key)) => {
            *key_or_side = key;
            UNSUPPORTED
        }
        Err(NegotiateError::Disjoint(key)) => {
            *key_or_side = key;
            DISJOINT
        }
        Err(NegotiateError::Unread(side)) => {
            *key_or_side = number_of(side);
            INVALID
        }
        Err(NegotiateError::NotObject(side)) => {
            *key_or_side = number_of(side);
            INVALID
        }
        Err(NegotiateError::TooLarge) => PAST,
        Err(NegotiateError::OutOfMemory) => NO_MEMORY,
    }
}
