//! Whether a pod is canonical.
ghost use Rattle.std.specs.Prelude.{Decides, ◌<◌, IfErr, IfOk};
ghost use Rattle.spa_format.specs.Front.{Begins, rest_of};
ghost use Rattle.spa_format.specs.Tree.{Tree};
ghost use Rattle.spa_canonical.specs.Canonical.{BeginsCanonical};
ghost use Rattle.spa_canonical.specs.Depth.{NestsDeeper, depth_of, levels_looked_into};

use crate::rewriting::rewrite;
use spa_canonical::{Rejected, look_at_pod};
use spa_fixed_sized::DeserializeError;
use std::alloc::{AllocError, Global};

/// Whether the pod at the front of the input is canonical: all of it is there, and `rewrite` would give the same bytes.
/// A front that is refused isn't, and what follows the front doesn't count.
///
/// Memory is asked for only where more than 1000 structs and objects stand in one another, and then as `rewrite` does.
pub fn is_canonical(alloc: Global, input: &[u8]) -> Result<bool, AllocError>
    // Exactly where the front is there and is the encoding of the value that it says,
    ensures exactly { IfOk result (λ answer. Decides answer (BeginsCanonical input.now (rest_of input.now))) }
    // and memory runs out only where more than 1000 structs and objects stand in one another there.
    ensures memory { IfErr result (λ _. NestsDeeper levels_looked_into input.now) }
    ensures depth { IfErr result (λ _. (v : Tree) → Begins input.now v → levels_looked_into < depth_of v) }
{
    match look_at_pod(input) {
        Ok(pod) => Ok(pod.canonical),
        Err(Rejected::Fault(_, _, _)) => Ok(false),
        Err(Rejected::TooDeep) => is_deep_canonical(alloc, input),
    }
}

/// Whether the pod at the front is canonical, which nests too deep to be looked into: its encoding is compared.
fn is_deep_canonical(alloc: Global, input: &[u8]) -> Result<bool, AllocError>
    ensures { IfOk result (λ answer. Decides answer (BeginsCanonical input.now (rest_of input.now))) }
{
    match rewrite(alloc, input) {
        Ok((rest, encoding)) => {
            let (front, _) = input.split_at(input.len() - rest.len());
            Ok(front == encoding.as_slice())
        }
        Err(DeserializeError::OutOfMemory) => Err(AllocError),
        Err(_) => Ok(false),
    }
}
