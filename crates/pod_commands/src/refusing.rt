//! Why inputs aren't read as pods.
ghost use Rattle.std.specs.Prelude.{◌≡◌, ◌⊎◌, IfOk, IfSome};
ghost use Rattle.pod_commands.specs.Making.{AreNoPods, HasNoForm, IsFormless, IsNoForm};
ghost use Rattle.pod_commands.specs.Working.{StandsBehind};
ghost use Rattle.spa_recordings.specs.declared.reading.Reading.TheVariants.{Exact};

use crate::answer::Failure;
use crate::request::Making;
use spa_bytes::open;
use spa_pod_commands::answer::Failure as Unread;
use spa_recordings::reading::{Reading, read_as};
use spa_refusals::{Refusal, first_refusal, refusal_for};
use spa_text_commands::params::{Unprinted, print_params};
use std::alloc::{AllocError, Global};

/// Why these bytes, which are those of the input of this name, aren't read so.
pub(crate) fn refused<'a>(
    alloc: Global,
    reading: Reading,
    name: &'a str,
    bytes: &[u8],
) -> Failure<'a>
    ensures { AreNoPods reading name.entry.now bytes.now result }
{
    match first_refusal(alloc, reading, bytes) {
        Ok(Some(why)) => Failure::Pods(name, why),
        // What is read is refused for want of memory alone.
        _ => Failure::OutOfMemory,
    }
}

/// Why one of two inputs, of these names and bytes, isn't pods.
pub(crate) fn either_refused<'a>(
    alloc: Global,
    ours: &'a str,
    theirs: &'a str,
    first: &[u8],
    second: &[u8],
) -> Failure<'a>
    ensures { AreNoPods Exact ours.entry.now first.now result ⊎ AreNoPods Exact theirs.entry.now second.now result }
{
    match first_refusal(alloc, Reading::Exact, first) {
        Ok(Some(why)) => Failure::Pods(ours, why),
        Ok(None) => refused(alloc, Reading::Exact, theirs, second),
        Err(_) => Failure::OutOfMemory,
    }
}

/// Why nothing is made of pods that are read so: `pw-dump` has no form for one of the input of this name, or memory ran out.
pub(crate) fn unmade<'a>(
    alloc: Global,
    making: Making<'_>,
    reading: Reading,
    name: &'a str,
    input: &[u8],
) -> Failure<'a>
    ensures { HasNoForm making.entry name.entry.now input.now result }
{
    match making {
        Making::Json(_) => Failure::OutOfMemory,
        Making::Dump(_) => formless(alloc, reading, name, input),
        Making::Read(_) => Failure::OutOfMemory,
        Making::Rewrite => Failure::OutOfMemory,
        Making::Fixate => Failure::OutOfMemory,
        Making::Settle => Failure::OutOfMemory,
        Making::Print(_) => Failure::OutOfMemory,
        Making::Check => Failure::OutOfMemory,
    }
}

/// Why pods that are read so aren't printed as `pw-dump` does: it has no form for one of the input of this name, or memory ran out.
#[tactic(auto, using(crate::proofs::Formless::said_there))]
pub(crate) fn formless<'a>(
    alloc: Global,
    reading: Reading,
    name: &'a str,
    input: &[u8],
) -> Failure<'a>
    ensures { IsFormless name.entry.now input.now result }
{
    let Ok(Some(found)) = first_formless(alloc, reading, input) else {
        return Failure::OutOfMemory;
    };
    let (_, pod) = input.split_at(found.at);
    match refusal_of_formless(alloc, pod, found.at, found.before + 1) {
        Ok(why) => Failure::Pods(name, why),
        Err(_) => Failure::OutOfMemory,
    }
}

/// The refusal of the pod of this number, which begins with these bytes at this byte, and for which `pw-dump` has no form.
pub(crate) fn refusal_of_formless(
    alloc: Global,
    pod: &[u8],
    place: usize,
    number: usize,
) -> Result<Refusal, AllocError>
    ensures place { IfOk result (λ why. why.place ≡ place) }
    ensures number { IfOk result (λ why. why.number ≡ number) }
    ensures refusal { IfOk result (IsNoForm pod.now) }
{
    refusal_for(
        alloc,
        pod,
        place,
        number,
        "NoForm",
        "pw-dump has no form for it",
    )
}

/// A pod for which `pw-dump` has no form.
#[derive(Clone, Copy)]
pub(crate) struct FormlessPod {
    /// How many pods stand before it.
    pub(crate) before: usize,
    /// The byte where it begins.
    pub(crate) at: usize,
    /// How many bytes it takes.
    pub(crate) len: usize,
}

/// The first pod that is read so and for which `pw-dump` has no form.
#[tactic(auto, using(crate::proofs::Formless::stands_behind))]
pub(crate) fn first_formless(
    alloc: Global,
    reading: Reading,
    input: &[u8],
) -> Result<Option<FormlessPod>, AllocError>
    ensures { IfOk result (λ found. IfSome found (StandsBehind input.now)) }
{
    let mut left = input;
    let mut before: usize = 0;
    while let Some(front) = open(left) {
        let len = left.len() - front.rest.len();
        let (pod, _) = left.split_at(len);
        if is_formless(alloc, reading, pod)? {
            let at = input.len() - left.len();
            return Ok(Some(FormlessPod { before, at, len }));
        }
        before += 1;
        left = front.rest;
    }
    Ok(None)
}

/// Whether this pod is read so, and `pw-dump` has no form for it.
fn is_formless(alloc: Global, reading: Reading, pod: &[u8]) -> Result<bool, AllocError> {
    let read = match read_as(alloc, reading, pod.to_vec(alloc)?) {
        Ok(read) => read,
        Err(Unread::OutOfMemory) => return Err(AllocError),
        Err(_) => return Ok(false),
    };
    match print_params(alloc, read.as_slice()) {
        Ok(_) => Ok(false),
        Err(Unprinted::NoForm) => Ok(true),
        Err(Unprinted::NoPods) => Ok(false),
        Err(Unprinted::OutOfMemory) => Err(AllocError),
    }
}
