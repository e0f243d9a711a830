//! The rule by which the objects of two pods meet.
ghost use Rattle.spa_negotiate.specs.Meeting.{IsMetAt};
ghost use Rattle.spa_negotiate.specs.Refusals.{IsKeyRefusal};

use crate::error::NegotiateError;
use crate::settling::{put_common, put_default};
use spa_object_view::{Answer, PropertyView, Rule};
use std::alloc::Global;

/// The rule by which two objects meet.
pub(crate) struct Settling;

impl Rule for Settling {
    type Error = NegotiateError;

    ghost holds = { IsMetAt };

    ghost refuses = { IsKeyRefusal };

    #[inline(always)]
    fn put_both(
        alloc: Global,
        out: &mut Answer,
        first: &PropertyView<'_>,
        other: &PropertyView<'_>,
    ) -> Result<(), NegotiateError> {
        put_common(alloc, &mut out.bytes, first.key, first.pod, other.pod)
    }

    fn put_alone(out: &mut Answer, first: &PropertyView<'_>) -> Result<(), NegotiateError> {
        if !put_default(&mut out.bytes, first.key, first.pod) {
            return Err(NegotiateError::OutOfMemory);
        }
        Ok(())
    }
}
