//! Filters objects in the caller's memory.
ghost use Rattle.std.specs.Prelude.{◌≡◌, ◌<◌, ◌⊎◌, List, length, ℕ};
ghost use Rattle.spa_filter.specs.Filtering.{CanFilter};
ghost use Rattle.spa_filter.specs.Refusals.{AreRefused};
ghost use Rattle.spa_filter.specs.declared.error.FilterError.TheVariants.{Disjoint, Missing, OutOfMemory, TypeMismatch, Unsupported};
ghost use Rattle.spa_filter_pods.specs.Fronts.{AreFrontsRefused, BeginBoth, FilterIn, FilterTooLarge};
ghost use Rattle.spav.specs.Answers.{IsDisjoint, IsDone, IsInvalid, IsMissing, IsNoMemory, IsNoRoom, IsOther, IsPast, IsUnfiltered, IsUnsupported};
ghost use Rattle.spav.specs.Lists.{IsWritten};
ghost use Rattle.spav.specs.Sides.{HasNoObject};

use crate::answers::{DISJOINT, INVALID, MISSING, NO_MEMORY, OTHER, PAST, UNSUPPORTED};
use crate::lists::put_front;
use crate::sides::number_of;
use spa_filter_pods::{FilterError, filter_pods};
use std::alloc::Global;

/// Filters the objects at the fronts of two inputs, and writes the outcome to the front of `out`: under each key of both it admits exactly what
/// both admit, and may still have choices. The bytes behind the two fronts don't count.
///
/// 0: `written` is the length of the outcome in bytes, and `out` is unchanged behind it. -ENOSPC: that length, `written`, is more than `out` has.
/// -EINVAL: no object is at the front of the first input, where `key_or_side` is 0, or of the second, where it is 1. On a mismatch `key_or_side` is the first
/// conflicting key: -EPROTO, the objects are of two types, and there is no key; -ENOENT, one has the key as MANDATORY, and the other lacks it;
/// -ENOTSUP, the key has a choice for which no common value is sought; -ENODATA, no value is admitted by both. -EOVERFLOW: the outcome is too large
/// for a pod. -ENOMEM: memory was asked for and refused. Where the answer isn't 0, `out` is unchanged.
#[unsafe(no_mangle)]
pub extern "C" fn spav_filter(
    alloc: Global,
    a: &[u8],
    b: &[u8],
    out: &mut [u8],
    written: &mut usize,
    key_or_side: &mut u32,
) -> i32
    ensures done { IsDone result → (bytes : List ℕ) × BeginBoth a.now b.now (FilterIn bytes)
        × IsWritten bytes written.new out.old out.new }
    ensures room { IsNoRoom result → (bytes : List ℕ) × BeginBoth a.now b.now (FilterIn bytes)
        × (written.new ≡ length bytes) × (length out.old < length bytes) }
    // Memory and too large outcomes aside, the two can't be filtered exactly where one of these is answered, and the answer is right.
    ensures apart { IsUnfiltered result → ¬ (BeginBoth a.now b.now CanFilter) }
    ensures front { IsInvalid result → HasNoObject a.now b.now key_or_side.new }
    ensures types { IsOther result → BeginBoth a.now b.now (λ v w. AreRefused v w TypeMismatch) }
    ensures missing { IsMissing result → BeginBoth a.now b.now (λ v w. AreRefused v w (Missing key_or_side.new)) }
    ensures unsupported { IsUnsupported result
        → BeginBoth a.now b.now (λ v w. AreRefused v w (Unsupported key_or_side.new)) }
    ensures disjoint { IsDisjoint result → BeginBoth a.now b.now (λ v w. AreRefused v w (Disjoint key_or_side.new)) }
    ensures past { IsPast result → BeginBoth a.now b.now FilterTooLarge }
    ensures memory { IsNoMemory result → AreFrontsRefused a.now b.now OutOfMemory }
    ensures answers { IsDone result ⊎ IsNoRoom result ⊎ IsNoMemory result ⊎ IsPast result ⊎ IsUnfiltered result }
    ensures unchanged { ¬ (IsDone result) → out.new ≡ out.old }
{
    match filter_pods(alloc, a, b) {
        Ok(met) => put_front(met.as_slice(), out, written),
        Err(FilterError::TypeMismatch) => OTHER,
        Err(FilterError::Missing(key)) => {
            *key_or_side = key;
            MISSING
        }
        Err(FilterError::Unsupported(key)) => {
            *key_or_side = key;
            UNSUPPORTED
        }
        Err(FilterError::Disjoint(key)) => {
            *key_or_side = key;
            DISJOINT
        }
        Err(FilterError::Unread(side)) => {
            *key_or_side = number_of(side);
            INVALID
        }
        Err(FilterError::NotObject(side)) => {
            *key_or_side = number_of(side);
            INVALID
        }
        Err(FilterError::TooLarge) => PAST,
        Err(FilterError::OutOfMemory) => NO_MEMORY,
    }
}
