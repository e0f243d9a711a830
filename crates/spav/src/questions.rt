//! Questions about the pod at the front of the caller's bytes.
ghost use Rattle.std.specs.Prelude.{◌≡◌, ◌≢◌, ◌<◌, ◌≤◌, ◌⊎◌, Decides, false, true};
ghost use Rattle.spa_format.specs.Encoding.{member_encodings};
ghost use Rattle.spa_format.specs.Front.{Begins, rest_of};
ghost use Rattle.spa_format.specs.Pod.{AreMembers};
ghost use Rattle.spa_format.specs.Tree.{Tree, Trees};
ghost use Rattle.spa_canonical.specs.Canonical.{BeginsCanonical};
ghost use Rattle.spa_canonical.specs.Depth.{NestsDeeper, depth_of, levels_looked_into};
ghost use Rattle.spav.specs.Answers.{IsAsked, IsChecked, IsDone, IsInvalid, IsNested, IsNoMemory, IsTooDeep};
ghost use Rattle.spav.specs.Lists.{IsForBytes};

use crate::answers::{DONE, FIRST, INVALID, NO_MEMORY, SECOND, TOO_DEEP};
use crate::in_place::is_for_bytes;
use spa_canonical::{LEVELS, nests_within};
use spa_fixed_sized::DeserializeError;
use spa_rewrite::{is_canonical, rewrite_all};
use std::alloc::Global;

/// Whether the pod at the front of the input is canonical. It is where all of it is there and `spav_rewrite` would give the same bytes. The bytes
/// behind it don't count.
///
/// 0: `canonical` says whether it is. -ENOMEM: memory was asked for and refused, and nothing is written; it is asked for only where the nesting depth
/// is above 1000.
#[unsafe(no_mangle)]
pub extern "C" fn spav_is_canonical(alloc: Global, input: &[u8], canonical: &mut bool) -> i32
    ensures decided { IsDone result → Decides canonical.new (BeginsCanonical input.now (rest_of input.now)) }
    ensures memory { IsNoMemory result → NestsDeeper levels_looked_into input.now }
    ensures answers { IsAsked result }
    ensures unchanged { ¬ (IsDone result) → canonical.new ≡ canonical.old }
{
    match is_canonical(alloc, input) {
        Ok(answer) => {
            *canonical = answer;
            DONE
        }
        Err(_) => NO_MEMORY,
    }
}

/// Whether two inputs are pods of the same values: whether their rewritings are the same bytes.
///
/// 0: `same` says whether they are. -EINVAL: the first input isn't pods one after another, where `side` is 0, or the second, where it is 1.
/// -ENOMEM: memory was asked for and refused.
#[unsafe(no_mangle)]
pub extern "C" fn spav_same(
    alloc: Global,
    a: &[u8],
    b: &[u8],
    same: &mut bool,
    side: &mut u32,
) -> i32
    ensures decided { IsDone result → (vs : Trees) × (ws : Trees) × AreMembers vs a.now × AreMembers ws b.now
        × Decides same.new (member_encodings vs ≡ member_encodings ws) }
    ensures first { IsInvalid result → side.new ≡ 0 → (vs : Trees) → ¬ (AreMembers vs a.now) }
    ensures second { IsInvalid result → side.new ≢ 0 → (side.new ≡ 1) × ((vs : Trees) → ¬ (AreMembers vs b.now)) }
    ensures answers { IsChecked result }
    ensures unchanged { ¬ (IsDone result) → same.new ≡ same.old }
{
    let mut first = Vec::new(alloc);
    if let Err((_, error)) = rewrite_all(a, &mut first) {
        return refused(&error, FIRST, side);
    }
    let mut second = Vec::new(alloc);
    if let Err((_, error)) = rewrite_all(b, &mut second) {
        return refused(&error, SECOND, side);
    }
    *same = first.as_slice() == second.as_slice();
    DONE
}

/// The answer to the refusal of the input of this number.
fn refused(error: &DeserializeError<&[u8]>, number: u32, side: &mut u32) -> i32
    ensures bytes { IsInvalid result → IsForBytes error.now × (side.new ≡ number) }
    ensures answers { IsNoMemory result ⊎ IsInvalid result }
{
    if !is_for_bytes(error) {
        return NO_MEMORY;
    }
    *side = number;
    INVALID
}

/// Whether the nesting depth of the pod at the front of the input is at most `levels`. An Int has the depth 0, a struct of Ints the depth 1.
///
/// 0: `within` says whether it is. -ELOOP: `levels` is above 1000, and so is the depth, which isn't measured further; nothing is written.
///
/// On bytes that aren't a pod it is the nesting depth of the containers that walks over whole pods find: 0 where no front is there. It takes no
/// memory.
#[unsafe(no_mangle)]
pub extern "C" fn spav_nests_within(input: &[u8], levels: u32, within: &mut bool) -> i32
    // Of an accepted front `true` exactly where the depth of its value is at most `levels`.
    ensures exactly { (v : Tree) → Begins input.now v → IsDone result → Decides within.new (depth_of v ≤ levels) }
    // On any bytes `false` only where the depth is above `levels`, and `true` only where it isn't.
    ensures deeper { IsDone result → within.new ≡ false → NestsDeeper levels input.now }
    ensures within { IsDone result → within.new ≡ true → ¬ (NestsDeeper levels input.now) }
    ensures too_deep { IsTooDeep result → (levels_looked_into < levels) × NestsDeeper levels_looked_into input.now }
    ensures answers { IsNested result }
    ensures unchanged { ¬ (IsDone result) → within.new ≡ within.old }
{
    if levels <= LEVELS {
        *within = nests_within(input, levels);
        return DONE;
    }
    if !nests_within(input, LEVELS) {
        return TOO_DEEP;
    }
    *within = true;
    DONE
}
