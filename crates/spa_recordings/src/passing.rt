//! Work on an input block by block, as it comes, that no refused pod ends.
ghost use Rattle.std.specs.Prelude.{◌≡◌, ◌+◌, ◌<◌, ◌^◌, ◌≤◌, ⊤, [], ℕ, List, IfErr, OnOk, drop, length, take};
ghost use Rattle.std.specs.Io.KnownBytes.{Appends};
ghost use Rattle.spa_recordings.specs.Passing.{IsUnworked, StopsAtBlock, StopsWork, WorksThrough};

use crate::blocks::Blocks;
use crate::streaming::Stop;
use std::alloc::Global;
use std::io::{Read, Write};

/// Why the work on a block isn't done.
#[derive(Clone, Copy)]
pub enum Unworked {
    /// Memory ran out. Nothing was written.
    OutOfMemory,
    /// A write failed.
    Unwritten,
}

/// What works on the blocks of an input, one after another.
pub trait BlockWorker {
    /// From one state to another this was made of a block, which so many pods and bytes of the input stand before.
    ghost works: { (old new : Self) → (count place : ℕ) → (block out : List ℕ) → Type 0 };

    /// Writes what is made of a block, which so many pods and bytes of the input stand before.
    fn work_on<W: Write>(
        &mut self,
        alloc: Global,
        count: usize,
        place: usize,
        block: &[u8],
        output: &mut W,
    ) -> Result<(), Unworked>
        requires count { count + length block.now < 2 ^ 64 }
        requires place { place + length block.now < 2 ^ 64 }
        ensures worked { OnOk result ((out : List ℕ) × works self.old self.new count place block.now out
            × Appends (W.contents output.old) (W.contents output.new) out) }
        ensures unworked { IfErr result (IsUnworked (λ out. (new : Self) × works self.old new count place block.now out)
            (W.contents output.old) (W.contents output.new)) };
}

/// Works on an input block by block, as it comes: on blocks of whole pods, at most 64 KiB or one longer pod, and then on the bytes that are left and
/// are no whole pod. It takes as much memory as a block, beside what the worker takes.
///
/// Where it ends before, what is made of the blocks up to there is written. A write that fails leaves a beginning of that.
pub fn stream_through<B: BlockWorker, R: Read, W: Write>(
    alloc: Global,
    worker: &mut B,
    input: &mut R,
    output: &mut W,
) -> Result<(), Stop>
    ensures done { OnOk result (WorksThrough B.works worker.old worker.new (R.remaining input.old)
        (W.contents output.old) (W.contents output.new)) }
    ensures stopped { IfErr result (StopsWork B.works worker.old (R.remaining input.old)
        (W.contents output.old) (W.contents output.new)) }
{
    let Ok(mut blocks) = Blocks::new(alloc) else {
        return Err(Stop::OutOfMemory);
    };
    let mut count: usize = 0;
    let mut place: usize = 0;
    // Far more often than blocks come.
    for _ in 0..u64::MAX {
        let Some(whole) = blocks.next(input)? else {
            return work_on_front(alloc, worker, count, place, blocks.held_bytes(), output);
        };
        let Some(behind) = place.checked_add(whole.len) else {
            return Err(Stop::ReadFailed);
        };
        let (block, _) = blocks.held_bytes().split_at(whole.len);
        work_on_front(alloc, worker, count, place, block, output)?;
        blocks.pass(whole.len);
        count += whole.count;
        place = behind;
    }
    Err(Stop::ReadFailed)
}

/// Works on a block, which so many pods and bytes of the input stand before.
fn work_on_front<B: BlockWorker, W: Write>(
    alloc: Global,
    worker: &mut B,
    count: usize,
    place: usize,
    block: &[u8],
    output: &mut W,
) -> Result<(), Stop>
    requires { count ≤ place }
    ensures worked { OnOk result ((out : List ℕ) × B.works worker.old worker.new count place block.now out
        × Appends (W.contents output.old) (W.contents output.new) out) }
    ensures stopped { IfErr result (StopsAtBlock (λ out. (new : B) × B.works worker.old new count place block.now out)
        (W.contents output.old) (W.contents output.new)) }
{
    // More bytes can't be counted.
    if place.checked_add(block.len()).is_none() {
        return Err(Stop::ReadFailed);
    }
    match worker.work_on(alloc, count, place, block, output) {
        Ok(()) => Ok(()),
        Err(Unworked::OutOfMemory) => Err(Stop::OutOfMemory),
        Err(Unworked::Unwritten) => Err(Stop::WriteFailed),
    }
}
