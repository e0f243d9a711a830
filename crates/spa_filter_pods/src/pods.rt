//! Filters the objects of two pods.
ghost use Rattle.std.specs.Prelude.{IfErr, IfOk, List, OnOk, ℕ};
ghost use Rattle.spa_filter.specs.Filtering.{CanFilter};
ghost use Rattle.spa_filter.specs.Refusals.{IsKeyRefusal};
ghost use Rattle.spa_filter_pods.specs.Fronts.{AreFrontsRefused, FilterIn, FiltersAt, OfViewed, OnNoFilter};
ghost use Rattle.spa_object_view.specs.Fronts.{BeginBoth};
ghost use Rattle.spa_object_view.specs.Meeting.{AreStopped};

use crate::rule::Filtering;
use spa_filter::FilterError;
use spa_format::laws::pods_have_one_value;
use spa_object_view::{ObjectPod, Stop, meet_pods, meet_viewed};
use std::alloc::Global;

/// Filters the objects at the fronts of two inputs by the rules of `filter`, and answers the encoding of the outcome. The bytes
/// behind the two fronts don't count.
///
/// The answer is one whole pod, which may still have choices.
///
/// The refusals: `Unread` and `NotObject`, of the first side before the second; then those of `filter`; then `TooLarge`.
pub fn filter_pods(alloc: Global, a: &[u8], b: &[u8]) -> Result<Vec<u8>, FilterError>
    // Unless memory runs out or the answer is too large, this succeeds exactly where both fronts are pods of objects that can
    // be filtered,
    ensures accepted { OnOk result (BeginBoth a.now b.now CanFilter) }
    ensures refused { IfErr result (OnNoFilter (¬ (BeginBoth a.now b.now CanFilter))) }
    // with the encoding of an object to which they filter, a pod of that object;
    ensures value { IfOk result (λ bytes. BeginBoth a.now b.now (FilterIn bytes.items)) }
    // and a refusal is a right one.
    ensures cause { IfErr result (AreFrontsRefused a.now b.now) }
{
    pods_have_one_value();
    match meet_pods::<Filtering>(alloc, a, b) {
        Ok(bytes) => Ok(bytes),
        Err(stop) => Err(refusal(stop)),
    }
}

/// Filters two objects that `object_pod` has viewed: answers what `filter_pods` does of any two inputs at whose fronts they are. So
/// an object that is filtered with many is looked at once.
#[inline(always)]
pub fn filter_viewed(
    alloc: Global,
    ours: &ObjectPod<'_>,
    theirs: &ObjectPod<'_>,
) -> Result<Vec<u8>, FilterError>
    ensures accepted { OnOk result (OfViewed ours.now theirs.now (λ a b. BeginBoth a b CanFilter)) }
    ensures refused { IfErr result (λ e. OfViewed ours.now theirs.now (λ a b. OnNoFilter (¬ (BeginBoth a b CanFilter)) e)) }
    ensures value { IfOk result (λ bytes. OfViewed ours.now theirs.now (λ a b. BeginBoth a b (FilterIn bytes.items))) }
    ensures cause { IfErr result (λ e. OfViewed ours.now theirs.now (λ a b. AreFrontsRefused a b e)) }
{
    pods_have_one_value();
    match meet_viewed::<Filtering>(alloc, ours, theirs) {
        Ok(bytes) => Ok(bytes),
        Err(stop) => Err(refusal(stop)),
    }
}

/// The refusal of two objects that don't meet.
fn refusal(stop: Stop<FilterError>) -> FilterError
    ensures { (a b : List ℕ) → AreStopped FiltersAt IsKeyRefusal a b stop → AreFrontsRefused a b result }
{
    match stop {
        Stop::Unread(side) => FilterError::Unread(side),
        Stop::NotObject(side) => FilterError::NotObject(side),
        Stop::TypeMismatch => FilterError::TypeMismatch,
        Stop::Apart(key) => FilterError::Disjoint(key),
        Stop::Refused(error) => error,
        Stop::TooLarge => FilterError::TooLarge,
        Stop::OutOfMemory => FilterError::OutOfMemory,
    }
}
