//! Lists the items of pods, and of all pods, elements and values in them.
ghost use Rattle.std.specs.Prelude.{◌≡◌, ◌+◌, ◌≤◌, ◌<◌, ◌^◌, Decides, IfNone, IfSome, List, drop, false, if◌then◌else◌, length, ℕ};
ghost use Rattle.spa_events.specs.Events.{is_object};
ghost use Rattle.spa_format.specs.Front.{HasFront, front_of};
ghost use Rattle.spa_format.specs.Pod.{AreMembers};
ghost use Rattle.spa_format.specs.Tree.{Trees};
ghost use Rattle.spa_format.specs.Walk.{extent_behind, walk};
ghost use Rattle.spa_format.specs.Words.{header_size, padded_size, word_at};
ghost use Rattle.spa_events.specs.Inside.{key_size};
ghost use Rattle.spa_items.specs.Items.{head, items_in, items_of, overlaid};
ghost use Rattle.spa_items.specs.Puts.{ArePut, IsFirst, IsFirstListed, item_of};
ghost use Rattle.spa_canonical.specs.Depth.{NestsDeeper, SomeOf, levels_looked_into, member_depth};

use crate::contents::{child_and_flags, content};
use crate::elements::{put, put_elements};
use crate::item::Item;
use spa_bytes::{HEADER_LEN, SECOND_WORD, u32_at};
use spa_canonical::{LEVELS, all_nest_within};
use spa_events::{Inside, inside_of, key_len, open_first};

/// How many levels of containers can wait in the short array.
const FEW: usize = 8;

/// How many can wait in the long one, which is taken where pods nest deeper.
const MANY: usize = LEVELS as usize;

/// Pods one after another whose items are listed.
#[derive(Clone, Copy)]
pub(crate) struct Level<'a> {
    /// Whether a key and flags are before each.
    keyed: bool,
    /// The byte of the input at which the first of them begins.
    at: usize,
    pods: &'a [u8],
}

/// What was listed of a pod: the index behind its items, and the pods in it that are still to be listed.
#[derive(Clone, Copy)]
pub(crate) struct Listed<'a> {
    place: usize,
    inner: Option<Level<'a>>,
}

/// The first of pods one after another.
#[derive(Clone, Copy)]
pub(crate) struct First<'a> {
    pub(crate) key: u32,
    flags: u32,
    type_: u32,
    body: &'a [u8],
    pub(crate) rest: &'a [u8],
}

/// Writes an item for each pod of the input, for each nested pod, and for each element and value, to the front of `out`, as far as there is room, and
/// answers how many items there are: an item comes before those of the pods in it, and these before those of the pods that follow it. None: the
/// nesting depth of one of the pods is above 1000, and `out` is unchanged.
///
/// It takes no memory: what follows each open container waits in an array of 8 levels, or of 1000 where pods nest deeper.
pub fn list_items(input: &[u8], out: &mut [Item]) -> Option<usize>
    ensures count { IfSome result (λ count. count ≡ length (items_of input.now)) }
    ensures items { IfSome result (λ _. out.new ≡ overlaid (items_of input.now) out.old) }
    ensures shallow { IfSome result (λ _. (values : Trees) → AreMembers values input.now
        → member_depth values ≤ levels_looked_into) }
    ensures deep { IfNone result (SomeOf (NestsDeeper levels_looked_into) (walk input.now)) }
    ensures unchanged { IfNone result (out.new ≡ out.old) }
{
    if all_nest_within(input, FEW as u32) {
        return Some(list_within(input, out, &mut [unkeyed(input); FEW]));
    }
    if !all_nest_within(input, LEVELS) {
        return None;
    }
    Some(list_deep(input, out))
}

/// Lists pods that nest too deep for the short array, with the long one.
#[cold]
#[inline(never)]
fn list_deep(input: &[u8], out: &mut [Item]) -> usize
    requires { ¬ (SomeOf (NestsDeeper levels_looked_into) (walk input.now)) }
    ensures count { result ≡ length (items_of input.now) }
    ensures items { out.new ≡ overlaid (items_of input.now) out.old }
{
    list_within(input, out, &mut [unkeyed(input); MANY])
}

/// An entry of an array at which no pods wait.
#[inline(always)]
fn unkeyed(pods: &[u8]) -> Inside<'_> {
    Inside { keyed: false, pods }
}

/// Lists pods that nest no deeper than levels can wait in the array.
#[inline(always)]
fn list_within<'a>(input: &'a [u8], out: &mut [Item], outer: &mut [Inside<'a>]) -> usize
    requires room { length outer.old < 2 ^ 16 }
    requires shallow { ¬ (SomeOf (NestsDeeper (length outer.old)) (walk input.now)) }
    ensures count { result ≡ length (items_of input.now) }
    ensures items { out.new ≡ overlaid (items_of input.now) out.old }
{
    list_pods(input, out, outer, input.len().min(outer.len() + 1))
}

/// The item of the pod at the front alone, which begins at the byte `at` of a larger input. None: the front isn't there.
pub fn front_item(input: &[u8], at: usize) -> Option<Item>
    requires within { at + header_size + header_size < 2 ^ 64 }
    ensures item { IfSome result (λ item. item ≡ head false 0 at (front_of input.now)) }
    ensures there { IfSome result (λ _. HasFront input.now) }
    ensures none { IfNone result (¬ (HasFront input.now)) }
{
    let Some(first) = first_pod(false, input) else {
        return None;
    };
    Some(head(0, at + HEADER_LEN, first))
}

/// Lists pods one after another, and all pods, elements and values in them down to so many levels, from the front of the output on, and answers how
/// many items there are. What follows a container waits while the pods in it are listed, and begins behind its padding.
fn list_pods<'a>(pods: &'a [u8], out: &mut [Item], outer: &mut [Inside<'a>], levels: usize) -> usize
    requires room { length pods.now < 2 ^ 63 }
    requires some { 0 < length pods.now → 0 < levels }
    requires few { levels ≤ length outer.old + 1 }
    ensures { ArePut 0 (items_in levels 0 false 0 pods.now) out.old result out.new }
{
    let mut place = 0;
    let mut depth = 0;
    let mut level = Level {
        keyed: false,
        at: 0,
        pods,
    };
    loop {
        let Some(first) = first_pod(level.keyed, level.pods) else {
            if depth == 0 {
                return place;
            }
            depth -= 1;
            let around = outer[depth];
            level = Level {
                keyed: around.keyed,
                at: behind_padding(level.at + level.pods.len()),
                pods: around.pods,
            };
            continue;
        };
        let listed = list_pod(out, place, levels - depth, depth, level, first);
        place = listed.place;
        let Some(inner) = listed.inner else {
            level = Level {
                at: level.at + (level.pods.len() - first.rest.len()),
                pods: first.rest,
                ..level
            };
            continue;
        };
        outer[depth] = Inside {
            keyed: level.keyed,
            pods: first.rest,
        };
        depth += 1;
        level = inner;
    }
}

/// The byte at which the next pod begins, behind the padding of a body that ends at the byte `end`.
fn behind_padding(end: usize) -> usize
    requires { end < 2 ^ 63 }
    ensures { result ≡ padded_size end }
{
    end.div_ceil(HEADER_LEN) * HEADER_LEN
}

/// Lists one pod, and the elements and values in it. The pods in it are answered where there are levels for them.
#[inline(always)]
fn list_pod<'a>(
    out: &mut [Item],
    place: usize,
    levels: usize,
    depth: usize,
    level: Level<'a>,
    first: First<'a>,
) -> Listed<'a>
    requires room { place + length first.body.now + 1 < 2 ^ 64 }
    requires within { level.at + key_size level.keyed + header_size + length first.body.now < 2 ^ 63 }
    requires deep { depth + 1 < 2 ^ 64 }
    requires some { 0 < levels }
    ensures put { (b : List ℕ) → IsFirst level.entry.keyed b first.entry
        → IsFirstListed levels depth level.entry.keyed level.entry.at b place out.old result out.new }
    ensures few { result.place ≤ place + 1 + length first.entry.body.now }
    ensures inner { IfSome result.inner (λ inner. (1 < levels) × (result.place ≡ place + 1)
        × (inner.at ≡ level.entry.at + key_size level.entry.keyed + header_size + key_size inner.keyed)
        × (key_size inner.keyed + length inner.pods.now ≡ length first.entry.body.now)) }
{
    let body_at = level.at + key_len(level.keyed) + HEADER_LEN;
    put(out, place, head(depth, body_at, first));
    let Some(inside) = inside_of(first.type_, first.body) else {
        let behind = put_elements(out, place + 1, depth + 1, first.type_, body_at, first.body);
        return Listed {
            place: behind,
            inner: None,
        };
    };
    let inner = Level {
        keyed: inside.keyed,
        at: body_at + key_len(inside.keyed),
        pods: inside.pods,
    };
    Listed {
        place: place + 1,
        inner: if levels > 1 { Some(inner) } else { None },
    }
}

/// The item of a pod whose body begins at the byte `body_at`.
fn head(depth: usize, body_at: usize, first: First<'_>) -> Item
    requires behind { header_size ≤ body_at }
    requires within { body_at + header_size < 2 ^ 64 }
    ensures { result ≡ item_of depth body_at first.entry }
{
    let content = content(first.type_, body_at, first.body);
    let (child, choice_flags) = child_and_flags(first.type_, first.body);
    Item {
        type_: first.type_,
        key: first.key,
        flags: first.flags,
        child,
        choice_flags,
        reserved: 0,
        depth,
        at: body_at - HEADER_LEN,
        first: content.first,
        second: content.second,
    }
}

/// The first of the pods. None: there is no whole one.
pub(crate) fn first_pod(keyed: bool, pods: &[u8]) -> Option<First<'_>>
    ensures first { IfSome result (IsFirst keyed pods.now) }
    ensures none { IfNone result (length pods.now < extent_behind (key_size keyed) pods.now) }
{
    let Some(front) = open_first(keyed, pods) else {
        return None;
    };
    Some(First {
        key: word_before(keyed, pods, 0),
        flags: word_before(keyed, pods, SECOND_WORD),
        type_: front.type_,
        body: front.body,
        rest: front.rest,
    })
}

/// A word of the key and flags, or 0 where there are none before a pod.
fn word_before(keyed: bool, pods: &[u8], at: usize) -> u32
    requires order { at ≤ 4 }
    requires there { key_size keyed ≤ length pods.now }
    ensures { result ≡ if keyed then word_at pods.now at else 0 }
{
    if !keyed {
        return 0;
    }
    u32_at(pods, at)
}
