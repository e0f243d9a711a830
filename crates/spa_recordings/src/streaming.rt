//! What is written of an input block by block, as it comes.
ghost use Rattle.std.specs.Prelude.{◌≡◌, ◌≢◌, ◌+◌, ◌<◌, ◌^◌, ◌≤◌, ◌++◌, ⊤, [], ℕ, Decides, List, IfErr, IfOk, IfSome, OnErr, OnOk, drop, length, take};
ghost use Rattle.std.specs.Io.KnownBytes.{Appends};
ghost use Rattle.spa_format.specs.Typed.{IsBytes};
ghost use Rattle.spa_format.specs.Walk.{walk};
ghost use Rattle.spa_pod_commands.specs.Answers.{Rewrites};
ghost use Rattle.spa_recordings.specs.declared.streaming.NotMade.TheVariants.{Unwritten};
ghost use Rattle.spa_recordings.specs.Streaming.{AreRead, IsEnded, IsFound, IsNotMade, IsNotRead, MakesAs, MayStop, Stops, StopsInBlock, Streams, WritesMade, WritesRead};

use crate::blocks::{Blocks, count_whole};
use crate::reading::{Reading, first_unread};
use spa_fixed_sized::DeserializeError;
use spa_lenient::rewrite_in_place_leniently;
use spa_pod_commands::output::write;
use spa_rewrite::rewrite_in_place;
use std::alloc::Global;
use std::io::{Read, Write};

/// Why the work on an input ends before that does.
#[derive(Drop)]
pub enum Stop {
    /// A pod isn't read, or isn't whole.
    Pod {
        /// Which pod of the input it is, the first being 1.
        number: usize,
        /// The byte of the input where it begins.
        place: usize,
        /// What was read of the input from that byte on: the whole pod at least, or all that is left.
        read: Vec<u8>,
    },
    /// A growth was refused.
    OutOfMemory,
    /// The input couldn't be read.
    ReadFailed,
    /// The output couldn't be written.
    WriteFailed,
}

/// Why nothing is made of a block, or not all of that is written.
#[derive(Clone, Copy)]
pub enum NotMade {
    /// It isn't pods that are accepted, or memory ran out. Nothing was written, and the block is as it was.
    Refused,
    /// Memory ran out. Nothing was written.
    OutOfMemory,
    /// A write failed.
    Unwritten,
}

/// What is answered of bytes that are made of pods.
#[derive(Clone, Copy)]
pub struct Made {
    /// How many of the pods are refused.
    pub refused: usize,
    /// Whether the bytes are none.
    pub nothing: bool,
}

impl Made {
    /// These bytes are made of pods of which so many are refused.
    pub fn of(refused: usize, out: &[u8]) -> Made
        ensures refused { result.refused ≡ refused }
        ensures nothing { Decides result.nothing (out.now ≡ []) }
    {
        Made {
            refused,
            nothing: out.is_empty(),
        }
    }
}

/// What is written of pods that stand one after another.
pub trait BlockWriter {
    /// This is made of these pods, which so many pods and bytes of the input stand before; so many of them are refused.
    ghost makes: { Self → (count place : ℕ) → (pods out : List ℕ) → (refused : ℕ) → Type 0 };

    /// Whether nothing is made of a refused pod.
    ghost refuses: { Self → Type 0 };

    /// Makes this of the pods of a block, which so many pods and bytes of the input stand before, writes it, and answers how many of them are
    /// refused, and whether it is nothing. The block's bytes may change.
    fn write_block<W: Write>(
        &self,
        alloc: Global,
        count: usize,
        place: usize,
        block: &mut [u8],
        output: &mut W,
    ) -> Result<Made, NotMade>
        requires count { count + length block.old < 2 ^ 64 }
        requires place { place + length block.old < 2 ^ 64 }
        ensures written { IfOk result (WritesMade (makes self.now count place) block.old
            (W.contents output.old) (W.contents output.new)) }
        ensures refused { IfErr result (IsNotMade (refuses self.now) (makes self.now count place)
            block.old block.new (W.contents output.old) (W.contents output.new)) };

    /// Nothing is made of no pods,
    ghost makes_nothing: { (writer : Self) (count place : ℕ) → makes writer count place [] [] 0 };

    /// and what is made of pods is made of them block by block.
    ghost makes_more: { (writer : Self) (count place : ℕ) (first others out more : List ℕ) (m n : ℕ) →
        makes writer count place first out m →
        makes writer (count + length (walk first)) (place + length first) others more n →
        makes writer count place (first ++ others) (out ++ more) (m + n) };
}

/// Writes the rewritings of pods.
#[derive(Clone, Copy)]
pub struct Rewriter;

impl BlockWriter for Rewriter {
    ghost use Rattle.std.specs.Prelude.{⊤};
    ghost use Rattle.spa_recordings.specs.Rewritings.{RewritesAll, nothing_rewritten, rewritten_more};

    ghost makes = { λ _ _ _ pods out refused. RewritesAll pods out refused };

    ghost refuses = { λ _. ⊤ };

    fn write_block<W: Write>(
        &self,
        alloc: Global,
        _count: usize,
        _place: usize,
        block: &mut [u8],
        output: &mut W,
    ) -> Result<Made, NotMade> {
        let Ok(len) = rewrite_in_place(alloc, block) else {
            return Err(NotMade::Refused);
        };
        match write_made(output, &block[..len]) {
            Ok(()) => Ok(Made::of(0, &block[..len])),
            Err(_) => Err(NotMade::Unwritten),
        }
    }

    ghost makes_nothing = { λ _ _ _. nothing_rewritten };

    ghost makes_more = { λ _ _ _ first others out more m n h k. rewritten_more first others out more m n h k };
}

/// Writes what is made of a block, and flushes the output; where nothing is made, neither.
pub fn write_made<W: Write>(output: &mut W, made: &[u8]) -> Result<(), NotMade>
    ensures written { OnOk result (Appends (W.contents output.old) (W.contents output.new) made.now) }
    ensures begun { OnErr result ((made.now ≢ []) × (n : ℕ)
        × Appends (W.contents output.old) (W.contents output.new) (take n made.now)) }
    ensures cause { IfErr result (λ why. why ≡ Unwritten) }
{
    if made.is_empty() {
        return Ok(());
    }
    let Ok(()) = write(output, made) else {
        return Err(NotMade::Unwritten);
    };
    match output.flush() {
        Ok(()) => Ok(()),
        Err(_) => Err(NotMade::Unwritten),
    }
}

/// Writes what is made of the pods as which an input is read, block by block as it comes, and answers how many of them are refused, and whether it
/// is nothing: blocks of whole pods, at most 64 KiB or one longer pod. Beyond the longest pod it takes as much memory as a block, and what is made of one.
///
/// Where it ends before, what is made of the pods up to there is written: up to the first pod that isn't read so, if nothing is made of it, the last one
/// that came, or the last one that memory was there for. A write that fails leaves a beginning of that.
///
/// The numbers of pods and bytes that the writer is told are those of the pods as which the input is read; those of a `Stop` are the input's.
pub fn stream<B: BlockWriter, R: Read, W: Write>(
    alloc: Global,
    reading: Reading,
    writer: &B,
    input: &mut R,
    output: &mut W,
) -> Result<Made, Stop>
    ensures done { IfOk result (Streams (MakesAs reading (B.makes writer.now 0 0)) (R.remaining input.old)
        (W.contents output.old) (W.contents output.new)) }
    ensures stopped { IfErr result (Stops reading (MayStop reading (B.refuses writer.now)) (MakesAs reading (B.makes writer.now 0 0))
        (R.remaining input.old) (W.contents output.old) (W.contents output.new)) }
{
    let Ok(mut blocks) = Blocks::new(alloc) else {
        return Err(Stop::OutOfMemory);
    };
    let (mut before, mut made) = (NOTHING, NOTHING_MADE);
    // Far more often than blocks come.
    for _ in 0..u64::MAX {
        let found = match blocks.next(input) {
            Ok(found) => found,
            Err(why) => return Err(why),
        };
        let Some(whole) = found else {
            return end(alloc, before, made, blocks.held_bytes());
        };
        let Some(behind) = before.place.checked_add(whole.len) else {
            return Err(Stop::ReadFailed);
        };
        let block = Block {
            before,
            len: whole.len,
        };
        let buffer = blocks.buffer.as_mut_slice();
        match write_front(alloc, reading, writer, block, buffer, output) {
            Ok(written) => {
                made.refused += written.made.refused;
                made.nothing = made.nothing & written.made.nothing;
                before = Before {
                    count: before.count + whole.count,
                    place: behind,
                    made: before.made + written.len,
                };
            }
            Err(why) => return Err(why),
        }
        blocks.pass(whole.len);
    }
    Err(Stop::ReadFailed)
}

/// What of an input is passed.
#[derive(Clone, Copy)]
struct Before {
    /// How many pods.
    count: usize,
    /// How many bytes.
    place: usize,
    /// How many bytes the pods take as which these are read.
    made: usize,
}

/// A block of whole pods.
#[derive(Clone, Copy)]
struct Block {
    /// What of the input stands before it.
    before: Before,
    /// How many bytes it takes.
    len: usize,
}

/// Nothing is passed.
const NOTHING: Before = Before {
    count: 0,
    place: 0,
    made: 0,
};

/// Nothing is made.
const NOTHING_MADE: Made = Made {
    refused: 0,
    nothing: true,
};

/// What was written of a block.
#[derive(Clone, Copy)]
struct Written {
    /// What is answered of it.
    made: Made,
    /// How many bytes the pods take as which it is read.
    len: usize,
}

/// Ends behind what is passed, of which this is answered, where these bytes are held that are no whole pod: with a refusal of them, unless they are
/// none.
fn end(alloc: Global, before: Before, made: Made, held: &[u8]) -> Result<Made, Stop>
    requires { before.count + 1 < 2 ^ 64 }
    ensures ended { IfOk result (λ it. (it ≡ made) × (held.now ≡ [])) }
    ensures why { IfErr result (IsEnded before held.now) }
{
    if held.is_empty() {
        return Ok(made);
    }
    match held.to_vec(alloc) {
        Ok(read) => Err(Stop::Pod {
            number: before.count + 1,
            place: before.place,
            read,
        }),
        Err(_) => Err(Stop::OutOfMemory),
    }
}

/// Writes what is made of the pods of the block at the front of the buffer.
fn write_front<B: BlockWriter, W: Write>(
    alloc: Global,
    reading: Reading,
    writer: &B,
    block: Block,
    buffer: &mut [u8],
    output: &mut W,
) -> Result<Written, Stop>
    requires within { block.len ≤ length buffer.old }
    requires count { block.before.count + block.len < 2 ^ 64 }
    requires place { block.before.place + block.len < 2 ^ 64 }
    requires made { block.before.made ≤ block.before.place }
    ensures long { length buffer.new ≡ length buffer.old }
    ensures behind { drop block.len buffer.new ≡ drop block.len buffer.old }
    ensures written { IfOk result (WritesRead reading (B.makes writer.now block.before.count block.before.made)
        (take block.len buffer.old) (W.contents output.old) (W.contents output.new)) }
    ensures stopped { IfErr result (StopsInBlock reading (MayStop reading (B.refuses writer.now))
        (MakesAs reading (B.makes writer.now block.before.count block.before.made)) block.before (take block.len buffer.old)
        (W.contents output.old) (W.contents output.new)) }
{
    let pods = &mut buffer[..block.len];
    write_or_stop(alloc, reading, writer, block.before, pods, output)
}

/// Writes what is made of the pods of a block, or of those before the first that isn't read.
fn write_or_stop<B: BlockWriter, W: Write>(
    alloc: Global,
    reading: Reading,
    writer: &B,
    before: Before,
    block: &mut [u8],
    output: &mut W,
) -> Result<Written, Stop>
    requires count { before.count + length block.old < 2 ^ 64 }
    requires place { before.place + length block.old < 2 ^ 64 }
    requires made { before.made ≤ before.place }
    ensures long { length block.new ≡ length block.old }
    ensures written { IfOk result (WritesRead reading (B.makes writer.now before.count before.made) block.old
        (W.contents output.old) (W.contents output.new)) }
    ensures stopped { IfErr result (StopsInBlock reading (MayStop reading (B.refuses writer.now))
        (MakesAs reading (B.makes writer.now before.count before.made)) before block.old
        (W.contents output.old) (W.contents output.new)) }
{
    match write_read(alloc, reading, writer, before, block, output) {
        Ok(written) => Ok(written),
        Err(NotMade::Unwritten) => Err(Stop::WriteFailed),
        Err(NotMade::OutOfMemory) => Err(Stop::OutOfMemory),
        Err(NotMade::Refused) => Err(write_before(alloc, reading, writer, before, block, output)),
    }
}

/// Writes what is made of the pods before the first that isn't read, and answers that one's refusal.
#[tactic(auto, using(crate::proofs::Streamed::few_before, crate::proofs::Streamed::stops_at, crate::proofs::Streamed::begins_at))]
fn write_before<B: BlockWriter, W: Write>(
    alloc: Global,
    reading: Reading,
    writer: &B,
    before: Before,
    block: &mut [u8],
    output: &mut W,
) -> Stop
    requires refuses { MayStop reading (B.refuses writer.now) }
    requires count { before.count + length block.old < 2 ^ 64 }
    requires place { before.place + length block.old < 2 ^ 64 }
    requires made { before.made ≤ before.place }
    ensures long { length block.new ≡ length block.old }
    ensures stopped { StopsInBlock reading (MayStop reading (B.refuses writer.now))
        (MakesAs reading (B.makes writer.now before.count before.made)) before block.old
        (W.contents output.old) (W.contents output.new) result }
{
    let Some(found) = first_refused(alloc, reading, &*block) else {
        return Stop::OutOfMemory;
    };
    match write_read(
        alloc,
        reading,
        writer,
        before,
        &mut block[..found.at],
        output,
    ) {
        Ok(_) => Stop::Pod {
            number: before.count + found.before + 1,
            place: before.place + found.at,
            read: found.read,
        },
        Err(NotMade::Unwritten) => Stop::WriteFailed,
        // What isn't refused is made, but for lack of memory.
        Err(_) => Stop::OutOfMemory,
    }
}

/// Writes what is made of the pods as which a block is read. Its bytes may change, and are as they were where it is refused.
fn write_read<B: BlockWriter, W: Write>(
    alloc: Global,
    reading: Reading,
    writer: &B,
    before: Before,
    block: &mut [u8],
    output: &mut W,
) -> Result<Written, NotMade>
    requires count { before.count + length block.old < 2 ^ 64 }
    requires made { before.made + length block.old < 2 ^ 64 }
    ensures long { length block.new ≡ length block.old }
    ensures written { IfOk result (WritesRead reading (B.makes writer.now before.count before.made) block.old
        (W.contents output.old) (W.contents output.new)) }
    ensures refused { IfErr result (IsNotMade (MayStop reading (B.refuses writer.now))
        (MakesAs reading (B.makes writer.now before.count before.made)) block.old block.new
        (W.contents output.old) (W.contents output.new)) }
{
    let len = match read_in_place(alloc, reading, block) {
        Ok(len) => len,
        Err(why) => return Err(why),
    };
    match writer.write_block(alloc, before.count, before.made, &mut block[..len], output) {
        Ok(made) => Ok(Written { made, len }),
        Err(NotMade::Refused) => match reading {
            Reading::Exact => Err(NotMade::Refused),
            // What is read leniently is refused for lack of memory alone.
            Reading::Lenient => Err(NotMade::OutOfMemory),
        },
        Err(why) => Err(why),
    }
}

#[tactic(auto, using(crate::proofs::Streamed::are_read))]
/// Puts the pods as which a block is read in its place, and answers how many bytes they take. Exactly it is taken as it is.
fn read_in_place(alloc: Global, reading: Reading, block: &mut [u8]) -> Result<usize, NotMade>
    ensures long { length block.new ≡ length block.old }
    ensures within { IfOk result (λ len. len ≤ length block.old) }
    ensures read { IfOk result (λ len. AreRead reading block.old (take len block.new)) }
    ensures refused { IfErr result (IsNotRead reading block.old block.new) }
{
    are_bytes(&*block);
    match reading {
        Reading::Exact => Ok(block.len()),
        Reading::Lenient => match rewrite_in_place_leniently(alloc, block) {
            Ok(len) => Ok(len),
            Err((_, DeserializeError::OutOfMemory)) => Err(NotMade::OutOfMemory),
            Err(_) => Err(NotMade::Refused),
        },
    }
}

/// Does nothing: its contract is what the type says of bytes.
pub(crate) fn are_bytes(_bytes: &[u8])
    ensures { IsBytes _bytes.now }
{}

/// The first pod of a block that isn't read.
#[derive(Drop)]
struct Found {
    /// How many pods stand before it.
    before: usize,
    /// The byte of the block where it begins.
    at: usize,
    /// The bytes of the block from there on.
    read: Vec<u8>,
}

/// The first pod of a block that isn't read, unless memory runs out or there is none.
#[tactic(auto, using(crate::proofs::Streamed::found_at))]
fn first_refused(alloc: Global, reading: Reading, block: &[u8]) -> Option<Found>
    ensures { IfSome result (IsFound reading block.now) }
{
    let Ok(Some(unread)) = first_unread(alloc, reading, block) else {
        return None;
    };
    let at = block.len() - unread.left.len();
    let (before, _) = block.split_at(at);
    let Ok(read) = unread.left.to_vec(alloc) else {
        return None;
    };
    Some(Found {
        before: count_whole(before),
        at,
        read,
    })
}
