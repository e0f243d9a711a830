//! What is made of pods of which some are refused.
ghost use Rattle.std.specs.Prelude.{◌≡◌, ◌≤◌, ◌<◌, ◌+◌, ◌^◌, ◌++◌, ℕ, List, Decides, IfNone, IfOk, IfSome, OnOk, length};
ghost use Rattle.spa_format.specs.Front.{front_of};
ghost use Rattle.spa_recordings.specs.GoingOn as spec;
ghost use Rattle.spa_recordings.specs.GoingOn.{AddsMade, BeginsWithNone, GoesOnFrom, GoesOnBehind, IsReadTo, IsWholeLen, MakesLast, MakesNext, Resyncs, kept_of};
ghost use Rattle.spa_recordings.specs.declared.going_on.RefusedPod.{RefusedPod};
ghost use Rattle.spa_recordings.specs.declared.reading.Reading as Reading;

use crate::blocks::count_whole;
use crate::plausible::{is_plausible, next_plausible};
use crate::reading::{Reading, Unread, first_unread, read_as};
use spa_bytes::{HEADER_LEN, open};
use spa_canonical::Rejected;
use spa_rewrite::find_fault;
use spa_utils::SpaTypes;
use std::alloc::{AllocError, Global};

/// Whether a refused pod is left out or kept.
#[derive(Clone, Copy, Debug)]
pub enum Refused {
    /// It is left out.
    LeftOut,
    /// It is kept as it is.
    Kept,
    /// It is left out alone, if behind it the input ends or a pod plausibly begins; else with all up to where one does, or up to the end. Where 64 such
    /// pods overlap, the next one is sought from the furthest byte on to which one of them was read.
    Resynced,
}

/// How an input is read, and what becomes of its refused pods.
#[derive(Clone, Copy)]
pub struct Manner {
    pub reading: Reading,
    pub refused: Refused,
}

/// How many refused pods that overlap are tried in a row.
const TRIED: usize = 64;

/// Refused pods of which each begins before the furthest byte to which those before it were read. Where none was refused, both numbers are 0.
#[derive(Clone, Copy, Debug)]
pub struct Overlap {
    /// How many more are tried.
    pub more: usize,
    /// The furthest byte of the input to which these pods were read.
    pub end: usize,
}

/// How far the work on an input is.
#[derive(Clone, Copy, Debug)]
pub struct Progress<'a> {
    /// The name of the input.
    pub name: &'a str,
    /// How many pods of it stand before. What is left out with a refused pod counts as one.
    pub count: usize,
    /// How many bytes of it do.
    pub place: usize,
    /// The refused pods that overlap before it.
    pub overlap: Overlap,
}

/// Bytes that are left out with a refused pod.
#[derive(Clone, Copy, Debug)]
pub struct Gap {
    /// How many they are.
    pub len: usize,
    /// The byte of the input where the work goes on, or where the input ends.
    pub end: usize,
}

/// A pod that was refused.
#[derive(Clone, Copy, Debug)]
pub struct RefusedPod<'a> {
    /// The name of the input.
    pub name: &'a str,
    /// Which pod of the input it is, the first being 1. What is left out with a refused pod counts as one.
    pub number: usize,
    /// The byte of the input where the pod begins.
    pub place: usize,
    /// The name of the refusal.
    pub kind: &'static str,
    /// What is left out from there on, where the size word doesn't say it.
    pub left_out: Option<Gap>,
}

/// What was made of inputs.
#[derive(Drop)]
pub struct Made<'a> {
    /// What was made of the pods that were read, with the refused ones where these are kept.
    pub out: Vec<u8>,
    /// The pods that were refused, in order.
    pub refused: Vec<RefusedPod<'a>>,
}

/// What is made of pods that stand one after another.
pub trait Maker {
    /// This is made of these pods.
    ghost makes: { Self → (pods out : List ℕ) → Type 0 };

    /// What is made of these pods, which fails for lack of memory alone.
    fn make(&self, alloc: Global, pods: Vec<u8>) -> Result<Vec<u8>, AllocError>
        ensures made { IfOk result (λ out. makes self.now pods.items out.items) };
}

/// Adds what is made of the pods of an input from here on, and which of them are refused.
///
/// A refused pod is as long as its size word says; where that is more than is left, or no size word is there, it is all that is left. `Resynced` doesn't
/// trust the size word. It takes time in proportion to the input, beside what the maker takes; with `Resynced` no byte is read more than 64 times that often.
pub fn make_each<'a, M: Maker>(
    alloc: Global,
    maker: &M,
    manner: Manner,
    start: Progress<'a>,
    input: &[u8],
    made: &mut Made<'a>,
) -> Result<(), AllocError>
    requires few { start.count + length input.now < 2 ^ 64 }
    requires within { start.place + length input.now < 2 ^ 64 }
    ensures { OnOk result ((out : List ℕ) × (pods : List RefusedPod)
        × GoesOnFrom start.entry.name.now manner.reading manner.refused (M.makes maker.now) start.entry.overlap start.entry.count start.entry.place input.now out pods
        × (made.new.out.items ≡ made.old.out.items ++ out)
        × (made.new.refused.items ≡ made.old.refused.items ++ pods)) }
{
    let mut at = start;
    let mut left = input;
    loop {
        match make_next(alloc, maker, manner, at, left, made)? {
            Some(behind) => {
                at = behind.at;
                left = behind.rest;
            }
            None => return Ok(()),
        }
    }
}

/// What follows a refused pod and what is left out with it.
#[derive(Clone, Copy)]
struct Behind<'a, 'b> {
    at: Progress<'a>,
    rest: &'b [u8],
}

/// Adds what is made of what is left up to the first refused pod and of that pod, and answers what follows it; or adds what is made of
/// all that is left.
fn make_next<'a, 'b, M: Maker>(
    alloc: Global,
    maker: &M,
    manner: Manner,
    from: Progress<'a>,
    left: &'b [u8],
    made: &mut Made<'a>,
) -> Result<Option<Behind<'a, 'b>>, AllocError>
    requires few { from.count + length left.now < 2 ^ 64 }
    requires within { from.place + length left.now < 2 ^ 64 }
    ensures last { IfOk result (λ it. IfNone it (MakesLast manner.reading (M.makes maker.now) left.now
        made.old.out.items made.new.out.items made.old.refused.items made.new.refused.items)) }
    ensures next { IfOk result (λ it. IfSome it (λ behind.
        MakesNext manner.reading manner.refused (M.makes maker.now) from.entry left.now behind.at behind.rest.now
        made.old.out.items made.new.out.items made.old.refused.items made.new.refused.items)) }
{
    let Some(unread) = first_unread(alloc, manner.reading, left)? else {
        add_made(alloc, maker, manner.reading, left, &mut made.out)?;
        return Ok(None);
    };
    let (before, _) = left.split_at(left.len() - unread.left.len());
    add_made(alloc, maker, manner.reading, before, &mut made.out)?;
    let place = from.place + before.len();
    let passed = passed_with(alloc, manner, from.overlap, place, unread)?;
    let (bytes, rest) = unread.left.split_at(passed.len);
    keep(manner.refused, bytes, &mut made.out)?;
    let count = from.count + count_whole(before) + 1;
    made.refused.push(RefusedPod {
        name: from.name,
        number: count,
        place,
        kind: unread.kind,
        left_out: left_out_by(manner.refused, place, passed.len),
    })?;
    let at = Progress {
        name: from.name,
        count,
        place: place + passed.len,
        overlap: passed.overlap,
    };
    Ok(Some(Behind { at, rest }))
}

/// Adds what is made of the pods as which these bytes are read.
fn add_made<M: Maker>(
    alloc: Global,
    maker: &M,
    reading: Reading,
    bytes: &[u8],
    out: &mut Vec<u8>,
) -> Result<(), AllocError>
    ensures { OnOk result (AddsMade reading (M.makes maker.now) bytes.now out.old.items out.new.items) }
{
    let Ok(pods) = read_as(alloc, reading, bytes.to_vec(alloc)?) else {
        return Err(AllocError);
    };
    let more = maker.make(alloc, pods)?;
    out.extend_from_slice(more.as_slice())
}

/// What is passed with a refused pod.
#[derive(Clone, Copy)]
struct Passed {
    /// How many bytes.
    len: usize,
    /// The refused pods that overlap, with this one.
    overlap: Overlap,
}

/// What is passed with this refused pod, which begins at this byte of the input, behind refused pods that overlap.
fn passed_with(
    alloc: Global,
    manner: Manner,
    overlap: Overlap,
    place: usize,
    pod: Unread<'_>,
) -> Result<Passed, AllocError>
    requires nothing { BeginsWithNone manner.reading pod.left.now pod.kind.now }
    requires fits { place + length pod.left.now < 2 ^ 64 }
    ensures behind { IfOk result (λ it. GoesOnBehind manner.refused manner.reading place pod.entry.left.now overlap it.len it.overlap) }
    ensures within { IfOk result (λ it. it.len ≤ length pod.entry.left.now) }
{
    if let Refused::Resynced = manner.refused {
        return resync(alloc, manner.reading, overlap, place, pod);
    }
    let len = front_len(pod.left);
    Ok(Passed { len, overlap })
}

/// How many bytes the pod at the front takes, or are there of it.
fn front_len(left: &[u8]) -> usize
    ensures { result ≡ length (front_of left.now) }
{
    match open(left) {
        Some(front) => left.len() - front.rest.len(),
        None => left.len(),
    }
}

/// What is left out with a refused pod whose size word isn't trusted.
fn resync(
    alloc: Global,
    reading: Reading,
    overlap: Overlap,
    place: usize,
    pod: Unread<'_>,
) -> Result<Passed, AllocError>
    requires nothing { BeginsWithNone reading pod.left.now pod.kind.now }
    requires fits { place + length pod.left.now < 2 ^ 64 }
    ensures behind { IfOk result (λ it. Resyncs reading place pod.entry.left.now overlap it.len it.overlap) }
    ensures within { IfOk result (λ it. it.len ≤ length pod.entry.left.now) }
{
    let left = pod.left;
    if is_well_followed(left) {
        let len = front_len(left);
        return Ok(Passed { len, overlap });
    }
    let read = read_len(alloc, reading, pod)?;
    let overlap = with_one(overlap, place, place + read);
    let len = match next_plausible(left, sought_from(overlap, place)) {
        Some(at) => at,
        None => left.len(),
    };
    Ok(Passed { len, overlap })
}

/// How far a refused pod is read: so many bytes of it stand before its fault, or leniently before the end of its first member that isn't read.
fn read_len(alloc: Global, reading: Reading, pod: Unread<'_>) -> Result<usize, AllocError>
    requires { BeginsWithNone reading pod.left.now pod.kind.now }
    ensures to { IfOk result (IsReadTo reading pod.entry.left.now) }
    ensures within { IfOk result (λ len. len ≤ length pod.entry.left.now) }
{
    match reading {
        Reading::Exact => fault_place(alloc, pod),
        Reading::Lenient => member_end(alloc, pod),
    }
}

/// How many bytes of a refused pod stand before its fault.
fn fault_place(alloc: Global, pod: Unread<'_>) -> Result<usize, AllocError>
    requires { BeginsWithNone Reading.Exact pod.left.now pod.kind.now }
    ensures to { IfOk result (IsReadTo Reading.Exact pod.entry.left.now) }
    ensures within { IfOk result (λ len. len ≤ length pod.entry.left.now) }
{
    match find_fault(alloc, pod.left) {
        Ok(()) => unreachable!(),
        Err((_, rejected)) => match rejected {
            Rejected::Fault(_, at, _) => Ok(at),
            Rejected::TooDeep => Err(AllocError),
        },
    }
}

/// How many bytes of a refused pod stand before the end of its first member that isn't read leniently; before its own, where it is no struct; none, where it
/// isn't whole.
fn member_end(alloc: Global, pod: Unread<'_>) -> Result<usize, AllocError>
    requires { BeginsWithNone Reading.Lenient pod.left.now pod.kind.now }
    ensures to { IfOk result (IsReadTo Reading.Lenient pod.entry.left.now) }
    ensures within { IfOk result (λ len. len ≤ length pod.entry.left.now) }
{
    let Some(front) = open(pod.left) else {
        return Ok(0);
    };
    if front.type_ != SpaTypes::Struct.0 {
        return Ok(front_len(pod.left));
    }
    let Some(member) = first_unread(alloc, Reading::Lenient, front.body)? else {
        unreachable!();
    };
    Ok(HEADER_LEN + (front.body.len() - member.left.len()) + whole_len(member.left))
}

/// How many bytes the pod at the front takes, where it is whole; else none.
fn whole_len(bytes: &[u8]) -> usize
    ensures whole { IsWholeLen bytes.now result }
    ensures within { result ≤ length bytes.now }
{
    match open(bytes) {
        Some(front) => bytes.len() - front.rest.len(),
        None => 0,
    }
}

/// The refused pods that overlap, with one more, which begins at this place and is read up to this byte.
fn with_one(before: Overlap, place: usize, end: usize) -> Overlap
    ensures { result ≡ spec.with_one before place end }
{
    if place < before.end {
        return Overlap {
            more: before.more.saturating_sub(1),
            end: before.end.max(end),
        };
    }
    Overlap {
        more: TRIED - 1,
        end,
    }
}

/// From which byte of the last of these refused pods on, which begins at this place, the next pod is sought.
fn sought_from(overlap: Overlap, place: usize) -> usize
    ensures { result ≡ spec.sought_from overlap place }
{
    if overlap.more > 0 {
        return HEADER_LEN;
    }
    HEADER_LEN.max(overlap.end.saturating_sub(place))
}

/// Whether the pod at the front is whole, and behind it the input ends or a pod plausibly begins.
fn is_well_followed(left: &[u8]) -> bool
    ensures { Decides result (spec.IsWellFollowed left.now) }
{
    match open(left) {
        Some(front) => front.rest.is_empty() || is_plausible(front.rest),
        None => false,
    }
}

/// What is said to be left out from this byte on, where so many bytes are passed.
fn left_out_by(refused: Refused, place: usize, len: usize) -> Option<Gap>
    requires { place + len < 2 ^ 64 }
    ensures { result ≡ spec.left_out_by refused place len }
{
    match refused {
        Refused::LeftOut => None,
        Refused::Kept => None,
        Refused::Resynced => Some(Gap {
            len,
            end: place + len,
        }),
    }
}

/// Adds what stays of the bytes that are passed with a refused pod.
fn keep(refused: Refused, passed: &[u8], out: &mut Vec<u8>) -> Result<(), AllocError>
    ensures { OnOk result (out.new.items ≡ out.old.items ++ kept_of refused passed.now) }
{
    match refused {
        Refused::LeftOut => Ok(()),
        Refused::Kept => out.extend_from_slice(passed),
        Refused::Resynced => Ok(()),
    }
}
