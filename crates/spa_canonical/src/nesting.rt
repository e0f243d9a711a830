//! How deep structs and objects stand in one another, counted without memory.
ghost use Rattle.std.specs.Prelude.{Decides, ◌≡◌, ◌≤◌, ◌<◌, ◌-◌, ◌⊎◌, ◌↔◌, IfNone, IfSome, IsSomeAnd, false};
ghost use Rattle.spa_format.specs.Front.{Begins};
ghost use Rattle.spa_format.specs.Pod.{AreMembers};
ghost use Rattle.spa_format.specs.Tree.{Tree, Trees};
ghost use Rattle.spa_format.specs.Walk.{walk};
ghost use Rattle.spa_canonical.specs.Depth.{IsDeepBody, NestsDeeper, NestsDeeperInside, SomeOf, depth_of, member_depth};

use spa_bytes::open;
use spa_events::{Inside, inside_of, is_container, open_first};

/// Whether at most so many structs and objects stand in one another in the pod at the front: an Int nests in 0 levels, a
/// struct of Ints in 1.
///
/// It takes no memory, and its stack doesn't grow with the nesting depth: only containers that aren't the longest beside them take a call, so
/// calls nest no deeper than the binary logarithm of the number of bytes. A service asks it before it compares by `==`, prints by `{:?}` or drops
/// a value that others made, since these call themselves for each level. On bytes that aren't accepted it counts the structs and objects that
/// walks over whole pods meet in one another: none where no front is there.
pub fn nests_within(input: &[u8], levels: u32) -> bool
    // Of an accepted input `true` exactly where its value nests no deeper,
    ensures exactly { (v : Tree) → Begins input.now v → Decides result (depth_of v ≤ levels) }
    // and on any bytes `false` exactly where more are met.
    ensures deeper { result ≡ false → NestsDeeper levels input.now }
    ensures within { NestsDeeper levels input.now → result ≡ false }
{
    match open(input) {
        Some(front) => body_nests_within(front.type_, front.body, levels),
        None => true,
    }
}

/// Whether at most so many structs and objects stand in one another in each pod of an input, as `nests_within` counts them.
pub fn all_nest_within(pods: &[u8], levels: u32) -> bool
    ensures exactly { (values : Trees) → AreMembers values pods.now → Decides result (member_depth values ≤ levels) }
    ensures deeper { result ≡ false → SomeOf (NestsDeeper levels) (walk pods.now) }
    ensures within { SomeOf (NestsDeeper levels) (walk pods.now) → result ≡ false }
{
    pods_nest_within(false, pods, levels)
}

/// Whether at most so many structs and objects stand in one another in a pod of this type with this body. A pod that holds no others needs no call.
#[inline(always)]
fn body_nests_within(type_: u32, body: &[u8], levels: u32) -> bool
    ensures deeper { result ≡ false → IsDeepBody levels type_ body.now }
    ensures within { IsDeepBody levels type_ body.now → result ≡ false }
{
    if levels == 0 {
        return !is_container(type_);
    }
    match inside_of(type_, body) {
        Some(inside) => pods_nest_within(inside.keyed, inside.pods, levels - 1),
        None => true,
    }
}

/// Whether at most so many stand in one another in each of the pods inside a container, with a key and flags before each where `keyed` is set.
///
/// The longest container among them comes last, and takes no call. Any other one has less than half of the bytes.
#[cycle(nesting)]
fn pods_nest_within(keyed: bool, pods: &[u8], levels: u32) -> bool
    ensures deeper { result ≡ false → NestsDeeperInside levels keyed pods.now }
    ensures within { NestsDeeperInside levels keyed pods.now → result ≡ false }
{
    let mut around = Inside { keyed, pods };
    let mut left = levels;
    while left != 0 {
        let Some(longest) = all_but_longest(around.keyed, around.pods, left) else {
            return false;
        };
        let Some(inside) = longest else {
            return true;
        };
        around = inside;
        left -= 1;
    }
    is_flat(around.keyed, around.pods)
}

/// Looks into all structs and objects among these pods but the longest, whose pods are answered. None: the pods inside another one nest in `levels`
/// levels or more.
#[cycle(nesting)]
fn all_but_longest(keyed: bool, pods: &[u8], levels: u32) -> Option<Option<Inside<'_>>>
    requires { 0 < levels }
    ensures deeper { IfNone result (NestsDeeperInside levels keyed pods.now) }
    ensures longest { IfSome result (λ longest. NestsDeeperInside levels keyed pods.now
        ↔ IsSomeAnd longest (λ l. NestsDeeperInside (levels - 1) l.keyed l.pods.now)) }
{
    let mut left = pods;
    let mut longest = None;
    while let Some(front) = open_first(keyed, left) {
        if let Some(inside) = inside_of(front.type_, front.body) {
            let Some(longer) = longer_of(longest, inside, levels) else {
                return None;
            };
            longest = Some(longer);
        }
        left = front.rest;
    }
    Some(longest)
}

/// The longer one of the longest container's pods so far and of these, once the others are looked into. None: the others nest in `levels` levels or
/// more.
#[cycle(nesting)]
#[inline(always)]
fn longer_of<'a>(longest: Option<Inside<'a>>, inside: Inside<'a>, levels: u32) -> Option<Inside<'a>>
    requires { 0 < levels }
    ensures deeper { IfNone result (IsSomeAnd longest.entry (λ l. NestsDeeperInside (levels - 1) l.keyed l.pods.now)
        ⊎ NestsDeeperInside (levels - 1) inside.entry.keyed inside.entry.pods.now) }
    ensures longer { IfSome result (λ longer. NestsDeeperInside (levels - 1) longer.keyed longer.pods.now
        ↔ (IsSomeAnd longest.entry (λ l. NestsDeeperInside (levels - 1) l.keyed l.pods.now)
        ⊎ NestsDeeperInside (levels - 1) inside.entry.keyed inside.entry.pods.now)) }
{
    let Some(other) = longest else {
        return Some(inside);
    };
    if inside.pods.len() < other.pods.len() {
        if !pods_nest_within(inside.keyed, inside.pods, levels - 1) {
            return None;
        }
        return Some(other);
    }
    if !pods_nest_within(other.keyed, other.pods, levels - 1) {
        return None;
    }
    Some(inside)
}

/// Whether none of these pods is a struct or an object.
fn is_flat(keyed: bool, pods: &[u8]) -> bool
    ensures deeper { result ≡ false → NestsDeeperInside 0 keyed pods.now }
    ensures within { NestsDeeperInside 0 keyed pods.now → result ≡ false }
{
    let mut rest = pods;
    while let Some(front) = open_first(keyed, rest) {
        if is_container(front.type_) {
            return false;
        }
        rest = front.rest;
    }
    true
}
