//! An input, read in blocks of whole pods.
ghost use Rattle.std.specs.Prelude.{◌≡◌, ◌+◌, ◌*◌, ◌≤◌, ◌<◌, [], IfErr, IfNone, IfOk, IfSome, OnErr, OnOk, drop, length, take, vec_len};
ghost use Rattle.std.specs.Io.KnownBytes.{Consumes, IsAtEnd, Keeps};
ghost use Rattle.spa_format.specs.Front.{HasFront};
ghost use Rattle.spa_format.specs.Walk.{walk};
ghost use Rattle.spa_format.specs.Words.{header_size};
ghost use Rattle.spa_recordings.specs.Blocks.{AreWhole, AreWholeAhead, IsReadFailure, ReadsOn, ahead};

use crate::streaming::Stop;
use spa_bytes::{HEADER_LEN, extent_of, open, u32_at};
use std::alloc::{AllocError, Global};
use std::io::{ErrorKind, Read};

/// A block has at most so many bytes, but one that is a single longer pod.
const BLOCK_LEN: usize = 65536;

/// What was read of an input and not passed yet.
#[derive(Drop)]
pub(crate) struct Blocks {
    /// The bytes that are held, and room for more behind them.
    pub(crate) buffer: Vec<u8>,
    /// How many are held.
    pub(crate) held: usize,
}

impl Blocks {
    /// Nothing was read yet.
    pub(crate) fn new(alloc: Global) -> Result<Blocks, AllocError>
        ensures { IfOk result (λ it. (it.held ≡ 0) × (ahead it ≡ [])) }
    {
        let mut buffer = Vec::new(alloc);
        buffer.reserve_exact(BLOCK_LEN)?;
        buffer.resize(BLOCK_LEN, 0)?;
        Ok(Blocks { buffer, held: 0 })
    }

    /// Reads until whole pods are held, and answers these; nothing, where the input ends before.
    pub(crate) fn next<R: Read>(&mut self, input: &mut R) -> Result<Option<Whole>, Stop>
        requires { self.old.held ≤ vec_len self.old.buffer }
        ensures room { self.new.held ≤ vec_len self.new.buffer }
        ensures read { ReadsOn (R.remaining input.old) (R.remaining input.new) (ahead self.old) (ahead self.new) }
        ensures whole { IfOk result (λ found. IfSome found (AreWholeAhead self.new)) }
        ensures end { IfOk result
            (λ found. IfNone found (IsAtEnd (R.remaining input.new) × ¬ (HasFront (ahead self.new)))) }
        ensures cause { IfErr result IsReadFailure }
    {
        // Far more often than a pod comes in parts.
        for _ in 0..u64::MAX {
            let whole = whole_of(self.held_bytes());
            if whole.len > 0 {
                return Ok(Some(whole));
            }
            if self.read_more(input)? == 0 {
                return Ok(None);
            }
        }
        Err(Stop::ReadFailed)
    }

    /// The bytes that are held.
    pub(crate) fn held_bytes(&self) -> &[u8]
        requires { self.now.held ≤ vec_len self.now.buffer }
        ensures { result.now ≡ ahead self.now }
    {
        &self.buffer.as_slice()[..self.held]
    }

    /// Reads some bytes, and answers how many: none at the end of the input.
    fn read_more<R: Read>(&mut self, input: &mut R) -> Result<usize, Stop>
        requires { self.old.held ≤ vec_len self.old.buffer }
        ensures room { self.new.held ≤ vec_len self.new.buffer }
        ensures read { ReadsOn (R.remaining input.old) (R.remaining input.new) (ahead self.old) (ahead self.new) }
        ensures end { IfOk result
            (λ count. count ≡ 0 → IsAtEnd (R.remaining input.new) × (ahead self.new ≡ ahead self.old)) }
        ensures cause { IfErr result IsReadFailure }
    {
        if make_room(&mut self.buffer, self.held).is_err() {
            return Err(Stop::OutOfMemory);
        }
        let end = end_of_room(self.held, self.buffer.len());
        let count = read_behind(input, self.buffer.as_mut_slice(), self.held, end)?;
        self.held += count;
        Ok(count)
    }

    /// Lets so many bytes go that are held first.
    pub(crate) fn pass(&mut self, len: usize)
        requires within { len ≤ self.old.held }
        requires held { self.old.held ≤ vec_len self.old.buffer }
        ensures room { self.new.held ≤ vec_len self.new.buffer }
        ensures ahead { ahead self.new ≡ drop len (ahead self.old) }
    {
        self.buffer.copy_within(len..self.held, 0);
        self.held -= len;
    }
}

/// The whole pods that bytes begin with.
#[derive(Clone, Copy)]
pub(crate) struct Whole {
    /// How many bytes they take.
    pub(crate) len: usize,
    /// How many they are.
    pub(crate) count: usize,
}

/// The whole pods at the front.
pub(crate) fn whole_of(bytes: &[u8]) -> Whole
    ensures whole { AreWhole (take result.len bytes.now) }
    ensures within { result.len ≤ length bytes.now }
    ensures none { result.len ≡ 0 → ¬ (HasFront bytes.now) }
    ensures count { result.count ≡ length (walk (take result.len bytes.now)) }
    ensures all { result.count ≡ length (walk bytes.now) }
{
    let mut left = bytes;
    let mut count: usize = 0;
    while let Some(front) = open(left) {
        count += 1;
        left = front.rest;
    }
    Whole {
        len: bytes.len() - left.len(),
        count,
    }
}

/// The number of whole pods that the bytes begin with.
#[tactic(auto, using(crate::proofs::Holding::few_whole))]
pub fn count_whole(bytes: &[u8]) -> usize
    ensures count { result ≡ length (walk bytes.now) }
    ensures few { result * header_size ≤ length bytes.now }
{
    whole_of(bytes).count
}

/// Where the room for a read ends: with the block's, or where a longer pod is held with all that there is.
fn end_of_room(held: usize, len: usize) -> usize
    requires { held < len }
    ensures some { held < result }
    ensures within { result ≤ len }
{
    if held < BLOCK_LEN {
        len.min(BLOCK_LEN)
    } else {
        len
    }
}

/// Makes room behind so many bytes that are held, where there is none.
fn make_room(buffer: &mut Vec<u8>, held: usize) -> Result<(), AllocError>
    requires { held ≤ vec_len buffer.old }
    ensures room { OnOk result (held < vec_len buffer.new) }
    ensures fits { held ≤ vec_len buffer.new }
    ensures kept { take held buffer.new.items ≡ take held buffer.old.items }
{
    if held < buffer.len() {
        return Ok(());
    }
    lengthen(buffer)
}

/// Makes a full buffer longer: twice as long, but for a pod at its front no longer than that.
fn lengthen(buffer: &mut Vec<u8>) -> Result<(), AllocError>
    ensures longer { OnOk result (vec_len buffer.old < vec_len buffer.new) }
    ensures grown { vec_len buffer.old ≤ vec_len buffer.new }
    ensures kept { take (vec_len buffer.old) buffer.new.items ≡ buffer.old.items }
{
    let len = buffer.len();
    let missing = extent_ahead(buffer.as_slice()).saturating_sub(len);
    let more = missing.min(len).max(1);
    let Some(longer) = len.checked_add(more) else {
        return Err(AllocError);
    };
    buffer.reserve_exact(more)?;
    buffer.resize(longer, 0)
}

/// How many bytes the pod at the front takes, by its size word, if that is there.
fn extent_ahead(bytes: &[u8]) -> usize {
    if bytes.len() < HEADER_LEN {
        return 0;
    }
    extent_of(u32_at(bytes, 0))
}

/// Reads once into this part of the buffer, and answers how many bytes were read: none at the end of the input.
fn read_behind<R: Read>(
    input: &mut R,
    buffer: &mut [u8],
    held: usize,
    end: usize,
) -> Result<usize, Stop>
    requires some { held < end }
    requires within { end ≤ length buffer.old }
    ensures front { take held buffer.new ≡ take held buffer.old }
    ensures fits { IfOk result (λ count. held + count ≤ length buffer.new) }
    ensures read { IfOk result (λ count.
        Consumes (R.remaining input.old) (R.remaining input.new) (take count (drop held buffer.new))) }
    ensures end { IfOk result (λ count. count ≡ 0 → IsAtEnd (R.remaining input.new)) }
    ensures kept { OnErr result (Keeps (R.remaining input.old) (R.remaining input.new)) }
    ensures cause { IfErr result IsReadFailure }
{
    read_once(input, &mut buffer[held..end])
}

/// One read; it is made again where it is interrupted.
fn read_once<R: Read>(input: &mut R, room: &mut [u8]) -> Result<usize, Stop>
    ensures bound { IfOk result (λ count. count ≤ length room.new) }
    ensures read { IfOk result
        (λ count. Consumes (R.remaining input.old) (R.remaining input.new) (take count room.new)) }
    ensures end { IfOk result (λ count. count ≡ 0 → 0 < length room.old → IsAtEnd (R.remaining input.new)) }
    ensures kept { OnErr result (Keeps (R.remaining input.old) (R.remaining input.new)) }
    ensures cause { IfErr result IsReadFailure }
{
    // Far more often than a read is interrupted.
    for _ in 0..u64::MAX {
        match input.read(room) {
            Ok(count) => return Ok(count),
            Err(error) => match error.kind() {
                ErrorKind::Interrupted => {}
                ErrorKind::OutOfMemory => return Err(Stop::OutOfMemory),
                _ => return Err(Stop::ReadFailed),
            },
        }
    }
    Err(Stop::ReadFailed)
}
