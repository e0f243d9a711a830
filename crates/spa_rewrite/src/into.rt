//! Rewrites pods into another buffer. What is written may be shorter than the input.
ghost use Rattle.std.specs.Prelude.{◌≡◌, ◌<◌, ◌≤◌, ◌++◌, Decides, IfNone, IfSome, [], drop, length, take};
ghost use Rattle.spa_canonical.specs.Rewriting.{ArePodsWithin, AreRewritten, AreRewrittenAs};
ghost use Rattle.spa_canonical.specs.Depth.{levels_looked_into};

use spa_canonical::{canonical_stretch, encode_pods, look_at_pods};

/// Writes the rewritings of all pods of the input to the front of an output that is at least as long as the input, and answers how many bytes they take.
/// The input is copied and replaced there: what is behind as many bytes as the input has stays as it was. To a shorter output it writes nothing, and
/// answers the length alone. It takes no memory.
///
/// `None`, and then it writes nothing: the input isn't pods one after another, or more than `LEVELS` structs and objects stand in one another in it.
pub fn rewrite_into(input: &[u8], out: &mut [u8]) -> Option<usize>
    ensures counted { IfSome result (λ len. AreRewrittenAs input.now len) }
    ensures rewritten { IfSome result (λ len. length input.now ≤ length out.old
        → AreRewritten input.now [] (take len out.new)) }
    ensures within { IfSome result (λ len. len ≤ length input.now) }
    ensures behind { drop (length input.now) out.new ≡ drop (length input.now) out.old }
    ensures missed { IfNone result (¬ (ArePodsWithin levels_looked_into input.now)) }
    ensures unchanged { IfNone result (out.new ≡ out.old) }
    ensures short { length out.old < length input.now → out.new ≡ out.old }
{
    let (first, others) = canonical_stretch(input);
    if others.is_empty() {
        put_first(input, out);
        return Some(input.len());
    }
    let Ok(all) = look_at_pods(others) else {
        return None;
    };
    let len = input.len() - all.surplus;
    if !put_first(input, out) {
        return Some(len);
    }
    encode_pods(all.changed, &mut out[first.len()..input.len()]);
    Some(len)
}

/// Copies bytes to the front of an output that is as long or longer, and answers whether it is; of a shorter one nothing changes.
#[inline(always)]
fn put_first(bytes: &[u8], out: &mut [u8]) -> bool
    ensures fits { Decides result (length bytes.now ≤ length out.old) }
    ensures copied { length bytes.now ≤ length out.old → out.new ≡ bytes.now ++ drop (length bytes.now) out.old }
    ensures behind { drop (length bytes.now) out.new ≡ drop (length bytes.now) out.old }
    ensures unchanged { length out.old < length bytes.now → out.new ≡ out.old }
{
    if out.len() < bytes.len() {
        return false;
    }
    if !bytes.is_empty() {
        out[..bytes.len()].copy_from_slice(bytes);
    }
    true
}
