//! Looks at the pods inside a struct or an object. What is left of the structs and objects around a pod waits in an array, or in memory.
ghost use Rattle.std.specs.Prelude.{◌≡◌, ◌+◌, ◌-◌, ◌<◌, ◌≤◌, ◌++◌, IfNone, IfSome, Bool, List, cond, drop, false, length, reverse, take, true, ℕ};
ghost use Rattle.spa_format.specs.Words.{size_limit};
ghost use Rattle.spa_canonical.specs.Canonical.{AreCanonicalProperties};
ghost use Rattle.spa_canonical.specs.Look.{IsFound, IsMet, Onward, Passes, StopsBefore};
ghost use Rattle.spa_canonical.specs.Depth.{levels_looked_into};
ghost use Rattle.spa_canonical.specs.declared.inside.Found.TheVariants as found;

use crate::leaf::{long_leaf, short_leaf};
use spa_bytes::{HEADER_LEN, SECOND_WORD, open, u32_at};
use spa_events::{Inside, behind_key, inside_of, is_container, key_len};

/// What is found inside a struct or an object.
#[derive(Clone, Copy)]
pub(crate) enum Found<'a> {
    /// Accepted pods, or canonical ones, whose encodings are so many bytes shorter.
    Fits(usize),
    /// The first pod that isn't is at the front of these bytes, which so many follow of those that are looked at.
    Stops(&'a [u8], usize),
    /// There is no room for one more list that waits. The array has what is left of all, and encodings before that are so many bytes shorter.
    Full(usize),
}

/// What stands in a list behind pods that hold no others.
#[derive(Clone, Copy)]
enum Met<'a> {
    /// A struct or an object: what is inside, what follows it, and how many bytes stand behind what is inside, with the padding.
    Inner(Inside<'a>, &'a [u8], usize),
    /// At the front of these bytes, none.
    None(&'a [u8]),
}

/// What is left of a list while the look is inside of a pod in it.
#[derive(Clone, Copy)]
pub struct Waiting<'a> {
    /// 1 where a key and flags stand before each pod, and else 0: a word, so that no bytes between the fields are copied with them.
    keyed: u32,
    /// How many bytes of those that are looked at follow the pods that are left.
    behind: u32,
    /// The pods that are left.
    pods: &'a [u8],
}

/// How many structs and objects may stand in one another in a pod that is looked into without memory.
pub const LEVELS: u32 = 1000;

/// How many lists the short array has room for: 16 that wait, and the innermost one.
pub(crate) const FEW: usize = 17;

/// How many the next one has room for, where the short one has none for one more.
const SOME: usize = 65;

/// An entry of an array in which no list waits.
#[inline(always)]
pub fn none_waiting(pods: &[u8]) -> Waiting<'_> {
    list(false, 0, pods)
}

/// What is left of a list.
#[inline(always)]
pub(crate) fn list(keyed: bool, behind: u32, pods: &[u8]) -> Waiting<'_>
    ensures { result ≡ record { keyed = cond keyed 1 0; behind = behind; pods = pods.entry } }
{
    Waiting {
        keyed: keyed as u32,
        behind,
        pods,
    }
}

/// Looks inside a struct or an object: at its first pods that hold no others, which need no array, and at what follows them.
#[inline(always)]
pub(crate) fn look_into<'a>(
    canonical: bool,
    keyed: bool,
    pods: &'a [u8],
    frames: &mut [Waiting<'a>; FEW],
) -> Found<'a>
    requires { length pods.now < size_limit }
    ensures { IsFound canonical levels_looked_into keyed pods.now result }
{
    let (left, surplus) = behind_leaves(canonical, keyed, pods);
    if left.is_empty() {
        return Found::Fits(surplus);
    }
    look_behind(canonical, keyed, left, surplus, frames)
}

/// Looks at what follows the first pods, which hold no others: a struct or an object, or a pod that isn't accepted, or canonical.
#[inline(always)]
fn look_behind<'a>(
    canonical: bool,
    keyed: bool,
    left: &'a [u8],
    surplus: usize,
    frames: &mut [Waiting<'a>; FEW],
) -> Found<'a>
    requires some { 0 < length left.now }
    requires last { StopsBefore keyed canonical left.now }
    requires passed { (pods : List ℕ) × (length pods < size_limit) × Passes keyed canonical pods left.now surplus }
    ensures { (pods : List ℕ) → Passes keyed canonical pods left.now surplus → IsFound canonical levels_looked_into keyed pods result }
{
    if let Met::None(place) = meet(keyed, left) {
        return Found::Stops(place, 0);
    }
    frames[0] = list(keyed, 0, left);
    let found = look_inside(canonical, surplus, 0, frames);
    if let Found::Full(more) = found {
        return look_further(canonical, more, frames);
    }
    found
}

/// Goes on where the first array is full, with the next one, which begins with its lists, and where that is full, too, with the long one.
#[cold]
#[inline(never)]
fn look_further<'a>(canonical: bool, surplus: usize, frames: &[Waiting<'a>; FEW]) -> Found<'a>
    requires { (all : Bool) × (b : List ℕ) × (length b < size_limit) × Onward canonical all b (reverse frames.now) surplus }
    ensures { (all : Bool) (b : List ℕ) → Onward canonical all b (reverse frames.now) surplus → IsFound canonical levels_looked_into all b result }
{
    let some = &mut [none_waiting(frames[0].pods); SOME];
    take_over(frames, some);
    let found = look_inside(canonical, surplus, FEW - 1, some);
    if let Found::Full(more) = found {
        return look_furthest(canonical, more, some);
    }
    found
}

/// Goes on where the next array is full, with the long one.
#[inline(never)]
fn look_furthest<'a>(canonical: bool, surplus: usize, frames: &[Waiting<'a>; SOME]) -> Found<'a>
    requires { (all : Bool) × (b : List ℕ) × (length b < size_limit) × Onward canonical all b (reverse frames.now) surplus }
    ensures { (all : Bool) (b : List ℕ) → Onward canonical all b (reverse frames.now) surplus → IsFound canonical levels_looked_into all b result }
{
    let many = &mut [none_waiting(frames[0].pods); LEVELS as usize + 1];
    take_over(frames, many);
    look_inside(canonical, surplus, SOME - 1, many)
}

/// Puts lists at the front of an array, by a call, since LLVM would write out each copy.
#[inline(never)]
fn take_over<'a>(lists: &[Waiting<'a>], frames: &mut [Waiting<'a>])
    requires { length lists.now ≤ length frames.old }
    ensures { frames.new ≡ lists.now ++ drop (length lists.now) frames.old }
{
    frames[..lists.len()].copy_from_slice(lists);
}

/// Looks whether all pods of the innermost list, and then of those around it, are canonical, where that is asked, and else accepted. `frames` begins
/// with what is left of `around` lists, each around the next one, and of the innermost; encodings before that are `counted` bytes shorter.
#[inline(never)]
pub(crate) fn look_inside<'a>(
    canonical: bool,
    counted: usize,
    around: usize,
    frames: &mut [Waiting<'a>],
) -> Found<'a>
    requires room { around < length frames.old }
    requires left { (all : Bool) × (b : List ℕ) × (length b < size_limit) × Onward canonical all b (reverse (take (around + 1) frames.old)) counted }
    ensures found { (all : Bool) (b : List ℕ) → Onward canonical all b (reverse (take (around + 1) frames.old)) counted →
        IsFound canonical (length frames.old - 1) all b result × ((n : ℕ) → result ≡ found.Full n → Onward canonical all b (reverse frames.new) n) }
{
    let (mut surplus, mut waiting) = (counted, around);
    let innermost = frames[waiting];
    let (mut keyed, mut behind) = (innermost.keyed != 0, innermost.behind);
    let mut left = innermost.pods;
    loop {
        let (next, more) = behind_first(canonical, keyed, left);
        surplus += more;
        if next.is_empty() {
            if waiting == 0 {
                return Found::Fits(surplus);
            }
            waiting -= 1;
            let outer = frames[waiting];
            keyed = outer.keyed != 0;
            left = outer.pods;
            behind = outer.behind;
            continue;
        }
        match meet(keyed, next) {
            Met::Inner(inner, rest, after) => {
                if rest.is_empty() {
                    keyed = inner.keyed;
                    left = inner.pods;
                    behind += after as u32;
                    continue;
                }
                if waiting + 1 == frames.len() {
                    frames[waiting] = list(keyed, behind, next);
                    return Found::Full(surplus);
                }
                frames[waiting] = list(keyed, behind, rest);
                waiting += 1;
                keyed = inner.keyed;
                left = inner.pods;
                behind += after as u32;
            }
            Met::None(place) => return Found::Stops(place, behind as usize),
        }
    }
}

/// The struct or object that stands first in pods.
#[inline(always)]
#[tactic(auto, using(crate::proofs::Looks::opens_inside, crate::proofs::Looks::surround))]
fn meet(keyed: bool, left: &[u8]) -> Met<'_>
    requires { 0 < length left.now }
    ensures { IsMet keyed left.now result }
{
    let Some(here) = behind_key(keyed, left) else {
        return Met::None(left);
    };
    let Some(front) = open(here) else {
        return Met::None(here);
    };
    match inside_of(front.type_, front.body) {
        Some(inner) => {
            let behind = here.len() - HEADER_LEN - front.body.len();
            Met::Inner(inner, front.rest, behind)
        }
        None => Met::None(here),
    }
}

/// What follows the first pods that hold no others and are canonical, where that is asked, or accepted, and by how many bytes their encodings are
/// shorter. Canonical properties need no call.
#[inline(always)]
fn behind_leaves(canonical: bool, keyed: bool, pods: &[u8]) -> (&[u8], usize)
    ensures passed { Passes keyed canonical pods.now result.0.now result.1 }
    ensures last { StopsBefore keyed canonical result.0.now }
{
    if !canonical {
        return behind_others(keyed, pods);
    }
    if !keyed {
        return (behind_members(pods), 0);
    }
    (behind_each(true, true, pods).0, 0)
}

/// Does what `behind_leaves` does of canonical members.
#[inline(never)]
fn behind_members(pods: &[u8]) -> &[u8]
    ensures passed { Passes false true pods.now result.now 0 }
    ensures last { StopsBefore false true result.now }
{
    behind_each(true, false, pods).0
}

/// Does what `behind_leaves` does, where a struct or an object is met most often.
#[inline(always)]
#[tactic(auto, using(crate::proofs::Faulted::container_stops, crate::proofs::Faulted::first_type, crate::proofs::Looks::passes_none))]
fn behind_first(canonical: bool, keyed: bool, pods: &[u8]) -> (&[u8], usize)
    ensures passed { Passes keyed canonical pods.now result.0.now result.1 }
    ensures last { StopsBefore keyed canonical result.0.now }
{
    if pods.len() >= 2 * HEADER_LEN && is_container(u32_at(pods, key_len(keyed) + SECOND_WORD)) {
        return (pods, 0);
    }
    behind_leaves(canonical, keyed, pods)
}

/// Does what `behind_leaves` does of accepted pods. What `behind_accepted` returns needs room in memory, which is taken here, and in no caller.
#[inline(always)]
fn behind_others(keyed: bool, pods: &[u8]) -> (&[u8], usize)
    ensures passed { Passes keyed false pods.now result.0.now result.1 }
    ensures last { StopsBefore keyed false result.0.now }
{
    let (left, surplus) = behind_accepted(keyed, pods);
    (left, surplus)
}

/// Does what `behind_leaves` does of accepted pods.
#[inline(never)]
fn behind_accepted(keyed: bool, pods: &[u8]) -> (&[u8], usize)
    ensures passed { Passes keyed false pods.now result.0.now result.1 }
    ensures last { StopsBefore keyed false result.0.now }
{
    if keyed {
        return behind_each(false, true, pods);
    }
    behind_each(false, false, pods)
}

/// Does what `behind_leaves` does.
#[inline(always)]
fn behind_each(canonical: bool, keyed: bool, pods: &[u8]) -> (&[u8], usize)
    ensures passed { Passes keyed canonical pods.now result.0.now result.1 }
    ensures none { canonical ≡ true → result.1 ≡ 0 }
    ensures last { StopsBefore keyed canonical result.0.now }
{
    let mut left = behind_short(canonical, keyed, pods);
    let mut surplus = 0;
    while let Some((rest, more)) = behind_one(canonical, keyed, left) {
        surplus += more;
        left = behind_short(canonical, keyed, rest);
    }
    (left, surplus)
}

/// What follows the first pods whose bodies are one or two words.
#[inline(always)]
fn behind_short(canonical: bool, keyed: bool, pods: &[u8]) -> &[u8]
    ensures { Passes keyed canonical pods.now result.now 0 }
{
    let Some(first) = behind_short_one(canonical, keyed, pods) else {
        return pods;
    };
    let mut left = first;
    while let Some(rest) = behind_short_one(canonical, keyed, left) {
        left = rest;
    }
    left
}

/// What follows the first pod, where its body is one or two words.
#[inline(always)]
fn behind_short_one(canonical: bool, keyed: bool, pods: &[u8]) -> Option<&[u8]>
    ensures passed { IfSome result (λ rest. Passes keyed canonical pods.now rest.now 0) }
    ensures shorter { IfSome result (λ rest. length rest.now + 8 ≤ length pods.now) }
{
    if keyed && pods.len() < 3 * HEADER_LEN {
        return None;
    }
    let here = behind_key(keyed, pods)?;
    short_leaf(canonical, here)
}

/// What follows the first pod, which holds no others, where it is canonical, if that is asked, or accepted, and by how many bytes its encoding is shorter.
#[inline(always)]
fn behind_one(canonical: bool, keyed: bool, pods: &[u8]) -> Option<(&[u8], usize)>
    ensures passed { IfSome result (λ one. Passes keyed canonical pods.now one.0.now one.1) }
    ensures shorter { IfSome result (λ one. length one.0.now + 8 ≤ length pods.now) }
    ensures none { IfSome result (λ one. canonical ≡ true → one.1 ≡ 0) }
    ensures last { IfNone result (StopsBefore keyed canonical pods.now) }
{
    if keyed && pods.len() < 2 * HEADER_LEN {
        return None;
    }
    let here = behind_key(keyed, pods)?;
    long_leaf(canonical, here)
}

/// Whether properties are canonical, and none holds a struct or an object.
#[inline(always)]
pub fn are_flat_properties(properties: &[u8]) -> bool
    ensures { result ≡ true → AreCanonicalProperties properties.now }
{
    behind_each(true, true, properties).0.is_empty()
}
