//! The rule by which two objects are filtered.
ghost use Rattle.std.specs.Prelude.{◌≡◌, IfErr, OnOk, Some};
ghost use Rattle.spa_format.specs.Tree.{Tree};
ghost use Rattle.spa_filter.specs.Refusals.{IsKeyRefusal};
ghost use Rattle.spa_filter_pods.specs.Fronts.{FiltersAt};

use crate::common_pods::put_met;
use spa_filter::FilterError;
use spa_object_view::{Answer, PropertyView, Rule, put_key, put_pod};
use std::alloc::Global;

/// The flag of a property that the other side must have, too.
const MANDATORY: u32 = 8;

/// The rule by which two objects are filtered.
pub(crate) struct Filtering;

impl Rule for Filtering {
    type Error = FilterError;

    ghost holds = { FiltersAt };

    ghost refuses = { IsKeyRefusal };

    /// The flags are those that both have. A value that can't be written is left out.
    #[inline(always)]
    fn put_both(
        alloc: Global,
        out: &mut Answer,
        first: &PropertyView<'_>,
        other: &PropertyView<'_>,
    ) -> Result<(), FilterError> {
        let flags = first.flags & other.flags;
        if !put_key(&mut out.bytes, first.key, flags) {
            return Err(FilterError::OutOfMemory);
        }
        match put_met(alloc, first.key, &mut out.bytes, first.pod, other.pod) {
            Ok(()) => Ok(()),
            Err(error) => match error {
                FilterError::TooLarge => {
                    out.is_large = true;
                    Ok(())
                }
                _ => Err(error),
            },
        }
    }

    /// Refused as `Missing` where the property is MANDATORY.
    fn put_alone(out: &mut Answer, first: &PropertyView<'_>) -> Result<(), FilterError> {
        if first.flags & MANDATORY == MANDATORY {
            return Err(FilterError::Missing(first.key));
        }
        if !put_key(&mut out.bytes, first.key, first.flags) {
            return Err(FilterError::OutOfMemory);
        }
        if !put_pod(&mut out.bytes, first.pod) {
            return Err(FilterError::OutOfMemory);
        }
        Ok(())
    }
}
