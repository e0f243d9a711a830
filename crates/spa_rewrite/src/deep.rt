//! Looks at pods however deep they nest: memory is taken only for a pod in which more than 1000 structs and objects stand in one another.
ghost use Rattle.std.specs.Prelude.{IfErr, IfOk, OnOk};
ghost use Rattle.spa_format.specs.Pod.{AreMembers};
ghost use Rattle.spa_format.specs.Tree.{Trees};
ghost use Rattle.spa_canonical.specs.Depth.{NestsDeeper, levels_looked_into};
ghost use Rattle.spa_canonical.specs.Look.{AreChanged, IsRejected};
ghost use Rattle.spa_canonical.specs.Rewriting.{ArePodsWithin, BeginsShorter, IsLeft};

use spa_canonical::{LEVELS, Rejected, accept_within, look_at_pods, none_waiting};
use std::alloc::Global;

/// Looks at all pods that the input consists of, however deep they nest, and answers how many first bytes are pods up to the last one that isn't
/// canonical, or the first one. A refusal gives what is left of the input from the refused pod on, and the fault, with its place and its offset in that
/// pod.
///
/// It takes memory only for a pod in which more than 1000 structs and objects stand in one another: for its open containers. Where that memory
/// runs out, and nowhere else, it answers `TooDeep`.
pub fn changed_pods(alloc: Global, input: &[u8]) -> Result<usize, (&[u8], Rejected<'_>)>
    ensures accepted { IfOk result (AreChanged input.now) }
    ensures left { IfErr result (λ refusal. IsLeft input.now refusal.0.now) }
    ensures rejected { IfErr result (λ refusal. IsRejected refusal.0.now refusal.1) }
    // Pods that nest in 1000 levels at most are never refused.
    ensures missed { IfErr result (λ _. ¬ (ArePodsWithin levels_looked_into input.now)) }
{
    let mut left = input;
    loop {
        match look_at_pods(left) {
            Ok(all) => return Ok(input.len() - left.len() + all.changed),
            Err((pod, Rejected::TooDeep)) => match accept_deep(alloc, pod) {
                Ok((rest, _)) => left = rest,
                Err(rejected) => return Err((pod, rejected)),
            },
            Err(refusal) => return Err(refusal),
        }
    }
}

/// Looks at all pods that the input consists of as `changed_pods` does.
#[tactic(auto, using(spa_canonical::proofs::Changed::changed_members))]
pub fn find_fault(alloc: Global, input: &[u8]) -> Result<(), (&[u8], Rejected<'_>)>
    ensures accepted { OnOk result ((vs : Trees) × AreMembers vs input.now) }
    ensures left { IfErr result (λ refusal. IsLeft input.now refusal.0.now) }
    ensures rejected { IfErr result (λ refusal. IsRejected refusal.0.now refusal.1) }
    // Pods that nest in 1000 levels at most are never refused.
    ensures missed { IfErr result (λ _. ¬ (ArePodsWithin levels_looked_into input.now)) }
{
    changed_pods(alloc, input)?;
    Ok(())
}

/// Does what `accept_pod` does for a pod that nests too deep for that: what waits has room in memory, for four times as much whenever that is full.
/// `TooDeep`: memory ran out.
#[cold]
#[inline(never)]
pub(crate) fn accept_deep(alloc: Global, input: &[u8]) -> Result<(&[u8], usize), Rejected<'_>>
    requires { NestsDeeper levels_looked_into input.now }
    ensures accepted { IfOk result (λ front. BeginsShorter input.now front.0.now front.1) }
    ensures rejected { IfErr result (IsRejected input.now) }
{
    let mut room = 4 * LEVELS as usize;
    loop {
        let mut frames = Vec::new(alloc);
        let Ok(()) = frames.resize(room, none_waiting(input)) else {
            return Err(Rejected::TooDeep);
        };
        match accept_within(input, frames.as_mut_slice()) {
            Err(Rejected::TooDeep) => room = 4 * room,
            answer => return answer,
        }
    }
}
