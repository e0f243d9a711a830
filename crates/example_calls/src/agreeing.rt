//! Two sides agree on one format.
ghost use Rattle.std.specs.Prelude.{IfErr, OnOk};
ghost use Rattle.spa_filter.specs.Filtering.{CanFilter};
ghost use Rattle.spa_filter_pods.specs.Fronts.{OnNoFilter};
ghost use Rattle.spa_negotiate.specs.Fronts.{OnNoMeeting};
ghost use Rattle.spa_negotiate.specs.Meeting.{CanMeet};
ghost use Rattle.spa_object_view.specs.Fronts.{BeginBoth};

use libspa::pod::{Pod, PodObject};
use libspa::utils::Id;
use spa_filter_pods::{FilterError, filter_pods};
use spa_names::keys;
use spa_negotiate::{NegotiateError, negotiate_pods};
use std::alloc::Global;

/// The format on which two sides agree, as one pod: what both admit, and of each choice that is left the default, as a None choice.
pub fn agreed(alloc: Global, ours: &[u8], theirs: &[u8]) -> Result<Vec<u8>, FilterError>
    ensures accepted { OnOk result (BeginBoth ours.now theirs.now CanFilter) }
    ensures refused { IfErr result (OnNoFilter (¬ (BeginBoth ours.now theirs.now CanFilter))) }
{
    let mut format = filter_pods(alloc, ours, theirs)?;
    // What filter_pods gives is an object, of which fixate refuses none.
    let _ = PodObject::fixate(format.as_mut_slice());
    Ok(format)
}

/// The sample rate on which two sides agree by the narrower rules of `negotiate_pods`, whose answer has plain values. None: the answer has none.
pub fn agreed_rate(alloc: Global, ours: &[u8], theirs: &[u8]) -> Result<Option<i32>, NegotiateError>
    ensures accepted { OnOk result (BeginBoth ours.now theirs.now CanMeet) }
    ensures refused { IfErr result (OnNoMeeting (¬ (BeginBoth ours.now theirs.now CanMeet))) }
{
    let format = negotiate_pods(alloc, ours, theirs)?;
    let Some(pod) = Pod::from_bytes(format.as_slice()) else {
        return Ok(None);
    };
    match pod.as_object() {
        Ok(object) => Ok(object.get(Id(keys::FORMAT_AUDIO_RATE))),
        Err(_) => Ok(None),
    }
}
