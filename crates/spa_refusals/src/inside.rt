//! The malformed pod inside a refused one, and the path that leads there.
ghost use Rattle.std.specs.Prelude.{◌≡◌, IfOk, string_bytes};
ghost use Rattle.spa_canonical.specs.Look.{from_pod};
ghost use Rattle.spa_format.specs.Front.{IsRefused};
ghost use Rattle.spa_read.specs.Reading.{ConveysNothing};
ghost use Rattle.spa_recordings.specs.Reading.{IsNothing};
ghost use Rattle.spa_recordings.specs.declared.reading.Reading.TheVariants.{Exact, Lenient};
ghost use Rattle.spa_refusals.specs.Paths.{IsFaultIn, IsPath};
ghost use Rattle.spa_refusals.specs.Refusals.{IsUnreadFor, LeadsBy};

use crate::descent::{Fault, descend};
use spa_bodies::error_at;
use spa_canonical::Rejected;
use spa_fixed_sized::{DeserializeError, Refusal};
use spa_lenient::rewrite_leniently;
use spa_recordings::reading::Reading;
use spa_rewrite::find_fault;
use std::alloc::{AllocError, Global};

/// A pod that isn't read, and why.
#[derive(Drop)]
pub(crate) struct Unread<'b> {
    /// The bytes that the pod begins.
    pub(crate) pod: &'b [u8],
    pub(crate) error: DeserializeError<&'b [u8]>,
}

/// The pod that keeps this one from being read, which isn't, and the path to it: the innermost refused one, and in the lenient reading this
/// one.
pub(crate) fn malformed<'b>(
    alloc: Global,
    reading: Reading,
    pod: &'b [u8],
) -> Result<(String, Unread<'b>), AllocError>
    requires { IsNothing reading pod.now }
    ensures path { IfOk result (λ found. LeadsBy reading pod.now (string_bytes found.0) found.1.pod.now) }
    ensures why { IfOk result (λ found. IsUnreadFor reading found.1.pod.now found.1.error) }
{
    match reading {
        Reading::Exact => innermost(alloc, pod),
        Reading::Lenient => {
            let unread = unread_leniently(alloc, pod)?;
            Ok((String::new(alloc), unread))
        }
    }
}

/// Why a pod isn't read leniently, which it isn't.
fn unread_leniently(alloc: Global, pod: &[u8]) -> Result<Unread<'_>, AllocError>
    requires { ConveysNothing pod.now }
    ensures same { IfOk result (λ it. it.pod.now ≡ pod.now) }
    ensures why { IfOk result (λ it. IsUnreadFor Lenient pod.now it.error) }
{
    match rewrite_leniently(alloc, pod) {
        Ok(_) => unreachable!(),
        Err(error) => match error {
            DeserializeError::OutOfMemory => Err(AllocError),
            error => Ok(Unread { pod, error }),
        },
    }
}

/// The innermost refused pod inside a refused one, and the path to it.
fn innermost<'b>(alloc: Global, pod: &'b [u8]) -> Result<(String, Unread<'b>), AllocError>
    requires { IsRefused pod.now }
    ensures path { IfOk result (λ found. IsPath pod.now (string_bytes found.0) found.1.pod.now) }
    ensures why { IfOk result (λ found. IsUnreadFor Exact found.1.pod.now found.1.error) }
{
    let (fault, at) = fault_of(alloc, pod)?;
    let (path, inner) = descend(alloc, pod, at, fault)?;
    let error = error_at(fault.place, fault.why);
    Ok((path, Unread { pod: inner, error }))
}

/// The fault of a refused pod, and its offset there.
fn fault_of(alloc: Global, pod: &[u8]) -> Result<(Fault<'_>, usize), AllocError>
    requires { IsRefused pod.now }
    ensures { IfOk result (λ it. IsFaultIn from_pod pod.now it.0.place.now it.1 it.0.why) }
{
    match find_fault(alloc, pod) {
        // A refused pod without a fault is an empty input: the front isn't there.
        Ok(()) => {
            let none = Fault {
                place: pod,
                why: Refusal::Short,
            };
            Ok((none, 0))
        }
        Err((_, rejected)) => match rejected {
            Rejected::Fault(place, at, why) => Ok((Fault { place, why }, at)),
            Rejected::TooDeep => Err(AllocError),
        },
    }
}
