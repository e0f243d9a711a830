//! Rewriting in place, in the buffer of the input.
ghost use Rattle.std.specs.Prelude.{◌≡◌, ◌≤◌, [], IfErr, IfOk, OnErr, length, take};
ghost use Rattle.spa_rewrite.specs.Refusals.{AsksMemory, RefusesListAt};
ghost use Rattle.spa_bodies.specs.Reading.{OnMemory};
ghost use Rattle.spa_canonical.specs.Rewriting.{ArePodsWithin, AreRewritten};
ghost use Rattle.spa_canonical.specs.Depth.{levels_looked_into};

use crate::deep::changed_pods;
use spa_bodies::error_at;
use spa_canonical::{Rejected, canonical_stretch, encode_pods};
use spa_fixed_sized::DeserializeError;
use std::alloc::Global;

/// Puts the rewritings of all pods that the bytes are at their front, and answers how many bytes these take: never more than the
/// pods took. What the bytes behind them are isn't said.
///
/// The call is refused exactly as `rewrite_all`, and then no byte is changed. A refusal gives the offset of the refused pod, and its fault;
/// `Nom` has the offset of the byte at which the fault stands.
///
/// All pods are looked at first. Memory is taken only for the open containers of a pod in which more than 1000 of them stand in one another.
pub fn rewrite_in_place(
    alloc: Global,
    bytes: &mut [u8],
) -> Result<usize, (usize, DeserializeError<Option<usize>>)>
    ensures rewritten { IfOk result (λ len. AreRewritten bytes.old [] (take len bytes.new)) }
    ensures within { IfOk result (λ len. len ≤ length bytes.old) }
    ensures unchanged { OnErr result (bytes.new ≡ bytes.old) }
    ensures refused { IfErr result (λ refusal. RefusesListAt bytes.old refusal.0 refusal.1) }
    // Pods that nest in 1000 levels at most are never refused: for these memory can't run out,
    ensures missed { IfErr result (λ _. ¬ (ArePodsWithin levels_looked_into bytes.old)) }
    // nor for others, unless they are pods, or one, malformed or not, nests too deep to be looked into.
    ensures memory { IfErr result (λ refusal. OnMemory (AsksMemory bytes.old) refusal.1) }
{
    let len = bytes.len();
    let (first, others) = canonical_stretch(bytes);
    if others.is_empty() {
        return Ok(len);
    }
    let from = first.len();
    match changed_pods(alloc, others) {
        Ok(changed) => Ok(from + encode_pods(changed, &mut bytes[from..])),
        Err((pod, rejected)) => match rejected {
            Rejected::Fault(_, at, why) => {
                let top = len - pod.len();
                Err((top, error_at(Some(top + at), why)))
            }
            Rejected::TooDeep => Err((len - pod.len(), DeserializeError::OutOfMemory)),
        },
    }
}
