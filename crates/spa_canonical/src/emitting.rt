//! Pods are replaced by their encodings where they are. It takes no memory and calls itself nowhere: the header of a container whose encoding is begun
//! holds, until that is complete, where the container around it begins, and how much of that is left.
ghost use Rattle.std.specs.Prelude.{[], ◌≡◌, ◌+◌, ◌-◌, ◌/◌, ◌<◌, ◌≤◌, ◌++◌, Bool, IfNone, IfSome, drop, false, length, take};
ghost use Rattle.spa_format.specs.Words.{header_size, size_limit, word_at, word_bytes};
ghost use Rattle.spa_events.specs.Inside.{key_size};
ghost use Rattle.spa_canonical.specs.Emit.{ArePlaced, Begins, Encodes, EncodesFirst, HoldsWhole, IsAfter, IsAround, type_inside};
ghost use Rattle.spa_canonical.specs.Look.{AreChanged};
ghost use Rattle.spa_canonical.specs.Rewriting.{AreRewritten};

use crate::body::WORD_LEN;
use crate::patch::{SECOND_HEADER, begins_word, clear_behind, encode_leaf};
use spa_bytes::{HEADER_LEN, open, two_words, u32_at};
use spa_events::{key_len, keyed_inside};
use spa_utils::SpaTypes;

/// A list of pods whose encodings are begun.
#[derive(Clone, Copy)]
struct OpenList {
    /// Whether a key and flags stand before each pod.
    keyed: bool,
    /// Where the list ends, in the pods.
    end: usize,
    /// Where the header of the container that it is in ends, in the encodings.
    body: usize,
    /// How many containers are begun around it.
    depth: usize,
}

/// What follows pods that are replaced by their encodings.
#[derive(Clone, Copy)]
enum After {
    /// Other pods: the last one got shorter.
    More,
    /// A container: whether the pods inside are keyed, and the size of its body.
    Inner(bool, usize),
    /// None: the list ends.
    End,
}

/// The first pods of a list that are replaced by their encodings.
#[derive(Clone, Copy)]
struct Run {
    /// How many bytes their encodings take.
    kept: usize,
    /// How many bytes they took.
    ended: usize,
    /// What follows them.
    after: After,
}

/// Replaces pods one after another by their encodings, which are put at the front, and returns how many bytes these take: so many first bytes of the pods,
/// and canonical pods behind them, which are moved at once.
pub fn encode_pods(changed: usize, pods: &mut [u8]) -> usize
    requires { AreChanged pods.old changed }
    ensures written { AreRewritten pods.old [] (take result pods.new) }
    ensures within { result ≤ length pods.old }
{
    let others = pods.len() - changed;
    let len = emit(&mut pods[..changed]);
    move_down(changed, others, len, pods);
    len + others
}

/// Replaces pods one after another by their encodings, which are put at the front, and returns how many bytes these take. Of bytes that aren't such pods it
/// promises nothing.
fn emit(bytes: &mut [u8]) -> usize
    ensures { Encodes (ArePlaced false) bytes.old bytes.new result }
{
    let mut list = OpenList {
        keyed: false,
        end: bytes.len(),
        body: 0,
        depth: 0,
    };
    let (mut from, mut to) = (0, 0);
    loop {
        let run = encode_leaves(list.keyed, &mut bytes[from..list.end]);
        move_down(from, run.kept, to, bytes);
        from += run.ended;
        to += run.kept;
        match run.after {
            After::More => {}
            After::Inner(inner, size) => {
                let inside = begin(list, inner, size, from, to, bytes);
                let head = inside.body + key_len(inner) - to;
                from += head;
                to += head;
                list = inside;
            }
            After::End => {
                if list.depth == 0 {
                    return to;
                }
                let around = list_around(list, bytes);
                put_words(
                    (to - list.body) as u32,
                    inner_type(list.keyed),
                    list.body,
                    bytes,
                );
                from = list.end;
                list = around;
            }
        }
    }
}

/// Replaces the first pods of a list by their encodings, where they are: up to a container, or behind a pod that gets shorter.
#[inline(always)]
fn encode_leaves(keyed: bool, pods: &mut [u8]) -> Run
    ensures { EncodesFirst keyed pods.old pods.new result.kept result.ended × IsAfter keyed (drop result.ended pods.old) result.ended result.after }
{
    let mut at = 0;
    loop {
        if pods.len() - at < HEADER_LEN {
            return Run {
                kept: at,
                ended: at,
                after: After::End,
            };
        }
        let here = at + key_len(keyed);
        if begins_word(&pods[here..]) {
            at = here + SECOND_HEADER;
            clear_behind(HEADER_LEN + WORD_LEN, &mut pods[here..at]);
            continue;
        }
        let Some(front) = open(&pods[here..]) else {
            return Run {
                kept: at,
                ended: at,
                after: After::End,
            };
        };
        let (type_, size, left) = (front.type_, front.body.len(), front.rest.len());
        if let Some(inner) = holds_whole(type_, size) {
            return Run {
                kept: at,
                ended: at,
                after: After::Inner(inner, size),
            };
        }
        let next = pods.len() - left;
        let kept = here + encode_leaf(type_, size, &mut pods[here..next]);
        if kept < next {
            return Run {
                kept,
                ended: next,
                after: After::More,
            };
        }
        at = next;
    }
}

/// Copies so many bytes down to a place before them, where there are some and they aren't there already.
#[inline(always)]
fn move_down(from: usize, len: usize, to: usize, bytes: &mut [u8])
    requires down { to ≤ from }
    requires within { from + len ≤ length bytes.old }
    ensures { bytes.new ≡ take to bytes.old ++ (take len (drop from bytes.old) ++ drop (to + len) bytes.old) }
{
    if from > to && len > 0 {
        bytes.copy_within(from..from + len, to);
    }
}

/// Begins the encoding of a container that is the first pod of a list: copies its key, its header, and an object's type and id, and links it to the one
/// around it.
#[inline(always)]
fn begin(
    list: OpenList,
    inner: bool,
    size: usize,
    from: usize,
    to: usize,
    bytes: &mut [u8],
) -> OpenList
    requires down { to ≤ from }
    requires within { from + key_size list.keyed + header_size + size ≤ list.end }
    requires key { key_size inner ≤ size }
    requires room { list.end ≤ length bytes.old }
    requires deep { list.depth ≤ to }
    requires back { 0 < list.depth → (list.body ≤ to) × (to + key_size list.keyed + header_size - list.body < size_limit) }
    requires behind { 0 < list.depth → list.end - from < size_limit }
    ensures { Begins list inner size from to bytes.old bytes.new result }
{
    let head = key_len(list.keyed) + HEADER_LEN;
    move_down(from, head + key_len(inner), to, bytes);
    let body = to + head;
    let end = from + head + size;
    let (back, behind) = link_of(list, body, end);
    put_words(back, behind, body, bytes);
    OpenList {
        keyed: inner,
        end,
        body,
        depth: list.depth + 1,
    }
}

/// The link from a container to the list around it: how far before its body the body of the container around it begins, and how many bytes of that list
/// are left behind it, with 1 more where that list is keyed. The outermost list has no such container.
#[inline(always)]
#[tactic(auto, using(crate::proofs::Replacing::key_small))]
fn link_of(list: OpenList, body: usize, end: usize) -> (u32, u32)
    requires end { end ≤ list.end }
    requires back { 0 < list.depth → (list.body ≤ body) × (body - list.body < size_limit) }
    requires behind { 0 < list.depth → list.end - end + 1 < size_limit }
    ensures link { 0 < list.depth → (result.0 ≡ body - list.body) × (result.1 ≡ list.end - end + key_size list.keyed / 8) }
    ensures small { (result.0 < size_limit) × (result.1 < size_limit) }
{
    if list.depth == 0 {
        return (0, 0);
    }
    let behind = list.end - end + key_len(list.keyed) / HEADER_LEN;
    ((body - list.body) as u32, behind as u32)
}

/// The list around a container, by the link in its header.
#[inline(always)]
fn list_around(list: OpenList, bytes: &[u8]) -> OpenList
    requires deep { 0 < list.depth }
    requires header { header_size ≤ list.body }
    requires within { list.body ≤ length bytes.now }
    requires back { 1 < list.depth → word_at bytes.now (list.body - header_size) ≤ list.body }
    requires behind { 1 < list.depth → list.end + word_at bytes.now (list.body - 4) ≤ length bytes.now + 1 }
    ensures { IsAround list bytes.now result }
{
    let depth = list.depth - 1;
    if depth == 0 {
        return OpenList {
            keyed: false,
            end: bytes.len(),
            body: 0,
            depth,
        };
    }
    let back = u32_at(bytes, list.body - HEADER_LEN) as usize;
    let behind = u32_at(bytes, list.body - 4) as usize;
    OpenList {
        keyed: behind % HEADER_LEN == 1,
        end: list.end + behind / HEADER_LEN * HEADER_LEN,
        body: list.body - back,
        depth,
    }
}

/// Writes two words, which end there.
#[inline(always)]
fn put_words(first: u32, second: u32, end: usize, bytes: &mut [u8])
    requires header { header_size ≤ end }
    requires within { end ≤ length bytes.old }
    ensures { bytes.new ≡ take (end - header_size) bytes.old ++ ((word_bytes first ++ word_bytes second) ++ drop end bytes.old) }
{
    let words = two_words(first, second);
    bytes[end - HEADER_LEN..end].copy_from_slice(&words);
}

/// Whether the pods of a container are keyed: false for a struct, true for an object. None for other pods, and for a size that isn't a multiple of 8, since
/// pods always end at one.
#[inline(always)]
fn holds_whole(type_: u32, size: usize) -> Option<bool>
    ensures some { IfSome result (λ keyed. HoldsWhole type_ size keyed) }
    ensures none { IfNone result ((keyed : Bool) → ¬ (HoldsWhole type_ size keyed)) }
{
    if size % HEADER_LEN > 0 {
        return None;
    }
    keyed_inside(type_, size)
}

/// The type of an object, or of a struct.
#[inline(always)]
fn inner_type(keyed: bool) -> u32
    ensures { result ≡ type_inside keyed }
{
    if keyed {
        SpaTypes::Object.0
    } else {
        SpaTypes::Struct.0
    }
}
