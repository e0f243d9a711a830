//! Rewrites all pods of a buffer leniently, in place or into a buffer of the caller's.
ghost use Rattle.std.specs.Prelude.{◌≡◌, ◌<◌, ◌≤◌, ◌++◌, [], List, ℕ, IfErr, IfOk, OnErr, drop, length, take};
ghost use Rattle.std.specs.Borrow.{Bor};
ghost use Rattle.spa_rewrite.specs.Refusals.{IsFaultOf};
ghost use Rattle.spa_bodies.specs.Refusing.{error_of};
ghost use Rattle.spa_lenient.specs.Rewriting.{AreRewrittenLeniently, AreRewrittenLenientlyAs, RefusesList, RefusesListAt};
ghost use Rattle.spa_canonical.specs.Rewriting.{ArePodsWithin};
ghost use Rattle.spa_canonical.specs.Depth.{levels_looked_into};

use crate::rewriting::{append_all, rewrite_all_leniently};
use spa_bodies::error_at;
use spa_fixed_sized::{DeserializeError, Refusal};
use spa_rewrite::{rewrite_in_place, rewrite_into};
use std::alloc::Global;

/// Rewrites all pods that the bytes consist of leniently in place, and answers the length of the outcome in bytes: never more than there were. What
/// the bytes behind it are isn't said.
///
/// The call is refused exactly as `rewrite_all_leniently`, and then no byte is changed. A refusal gives the offset of the refused pod, and its
/// cause without the place inside the pod: a lenient read of the bytes from that offset on gives the place, too.
///
/// Pods that the exact reading accepts are rewritten as by `rewrite_in_place`, which takes no memory where their nesting depth is at most `LEVELS`.
/// Where a pod is accepted only leniently, memory is asked for the rewritings of all pods and for the value of that one.
pub fn rewrite_in_place_leniently(
    alloc: Global,
    bytes: &mut [u8],
) -> Result<usize, (usize, DeserializeError<()>)>
    ensures rewritten { IfOk result (λ len. AreRewrittenLeniently bytes.old [] (take len bytes.new)) }
    ensures within { IfOk result (λ len. len ≤ length bytes.old) }
    ensures unchanged { OnErr result (bytes.new ≡ bytes.old) }
    ensures refused { IfErr result (λ refusal. RefusesListAt bytes.old refusal.0 refusal.1) }
    // Pods with a nesting depth of at most 1000 are never refused: no memory is asked for them.
    ensures missed { IfErr result (λ _. ¬ (ArePodsWithin levels_looked_into bytes.old)) }
{
    match rewrite_in_place(alloc, bytes) {
        Ok(len) => return Ok(len),
        Err((at, DeserializeError::OutOfMemory)) => {
            return Err((at, DeserializeError::OutOfMemory));
        }
        Err(_) => {}
    }
    let all = bytes.len();
    let mut rewritten = Vec::new(alloc);
    if let Err((left, refused)) = append_all(bytes, &mut rewritten) {
        return Err((all - left.len(), cause_of(refused.why)));
    }
    put_first(rewritten.as_slice(), bytes);
    Ok(rewritten.len())
}

/// Rewrites all pods that the input consists of leniently, to the front of an output that is at least as long as the input, and answers the length
/// of the outcome in bytes: never more than the input has. The output behind as many bytes as the input has is unchanged. For a shorter output only
/// the length is answered, and nothing is written.
///
/// The call is refused exactly as `rewrite_all_leniently`, and then nothing is written. Pods that the exact reading accepts are rewritten as by
/// `rewrite_into`, without memory, where their nesting depth is at most `LEVELS`; else memory is asked for the rewritings of all pods.
pub fn rewrite_into_leniently<'a>(
    alloc: Global,
    input: &'a [u8],
    out: &mut [u8],
) -> Result<usize, (&'a [u8], DeserializeError<&'a [u8]>)>
    ensures counted { IfOk result (AreRewrittenLenientlyAs input.now) }
    ensures within { IfOk result (λ len. len ≤ length input.now) }
    ensures rewritten { IfOk result (λ len. length input.now ≤ length out.old
        → AreRewrittenLeniently input.now [] (take len out.new)) }
    ensures behind { drop (length input.now) out.new ≡ drop (length input.now) out.old }
    ensures short { length out.old < length input.now → out.new ≡ out.old }
    ensures unchanged { OnErr result (out.new ≡ out.old) }
    ensures refused { IfErr result (λ refusal. RefusesList input.now refusal.0.now refusal.1) }
    // Pods with a nesting depth of at most 1000 are never refused: no memory is asked for them.
    ensures missed { IfErr result (λ _. ¬ (ArePodsWithin levels_looked_into input.now)) }
{
    if let Some(len) = rewrite_into(input, out) {
        return Ok(len);
    }
    let mut rewritten = Vec::new(alloc);
    rewrite_all_leniently(input, &mut rewritten)?;
    if out.len() < input.len() {
        return Ok(rewritten.len());
    }
    put_first(rewritten.as_slice(), out);
    Ok(rewritten.len())
}

/// Copies bytes to the front of an output that is at least as long.
fn put_first(bytes: &[u8], out: &mut [u8])
    requires { length bytes.now ≤ length out.old }
    ensures { out.new ≡ bytes.now ++ drop (length bytes.now) out.old }
{
    out[..bytes.len()].copy_from_slice(bytes);
}

/// The public refusal without a place.
fn cause_of(why: Refusal) -> DeserializeError<()>
    ensures { (place : Bor (List ℕ)) → IsFaultOf result (error_of place why) }
{
    error_at((), why)
}
