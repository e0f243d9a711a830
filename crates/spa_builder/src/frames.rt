//! The stack of the frames of the open pods: what is allowed next, and how a frame changes by it.
ghost use Rattle.std.specs.Prelude.{◌≡◌, ◌+◌, ◌<◌, ◌≤◌, ◌*◌, ◌∷◌, ◌++◌, [], List, ℕ, IfErr, IfSome, IsTrue, OnErr, OnOk, false, length, vec_capacity};
ghost use Rattle.spa_format.specs.Tree.{Tree};
ghost use Rattle.spa_format.specs.Words.{size_limit};
ghost use Rattle.spa_spare_capacity.specs.Limits.{longest_piece, vector_limit};
ghost use Rattle.spa_builder.specs.State.{Partial};
ghost use Rattle.spa_builder.specs.Step.{takes_trees};
ghost use Rattle.spa_builder.specs.Fields.{all_so_far, frames_of, what_of};
ghost use Rattle.spa_builder.specs.Framed.{at_stage, is_nothing, most_bytes, no_stage};
ghost use Rattle.spa_builder.specs.Innermost.{trees_with_value, has_room_for, innermost_of, takes_key, waits};
ghost use Rattle.spa_builder.specs.Answers.{IsAdmitted};
ghost use Rattle.spa_utils.specs.declared.errno.TheConstants.Errno.{NOMEM};

use crate::begun::{BegunPod, NO_ELEMENTS, Stage, What};
use spa_bytes::HEADER_LEN;
use spa_spare_capacity::Written;
use spa_utils::Errno;
use std::alloc::Global;
use std::marker::Model;
use std::mem;

/// The least number that a size word can't hold.
pub(crate) const SIZE_LIMIT: usize = 1 << 32;

/// No frame.
const NO_FRAME: BegunPod = BegunPod {
    start: 0,
    what: What {
        stage: Stage::Nothing,
        elements: NO_ELEMENTS,
    },
};

/// The most bytes of padding.
const PADDING_MAX: usize = HEADER_LEN - 1;

/// The least length in bytes of a pod, with its header, that its size word can't hold. Where a pod is open inside it,
/// padding may follow.
#[inline(always)]
fn most_bytes(alone: bool) -> usize
    ensures { result ≡ most_bytes alone }
{
    if alone {
        SIZE_LIMIT + HEADER_LEN
    } else {
        SIZE_LIMIT + HEADER_LEN - PADDING_MAX
    }
}

/// Whether the stage is that of no pod.
#[inline(always)]
fn is_nothing(what: What) -> bool
    ensures { result ≡ is_nothing what }
{
    matches!(what.stage, Stage::Nothing)
}

/// The list, with room for one more frame where there is memory for it. It is moved and not borrowed, so that a builder
/// whose calls are inlined can be kept in registers.
#[cold]
#[inline(never)]
fn roomier(mut outer: Vec<BegunPod>) -> Vec<BegunPod>
    ensures { result.items ≡ outer.items }
{
    let _ = outer.reserve(1);
    outer
}

/// Makes room for one more frame. Refused as NOMEM.
#[inline(always)]
fn make_room(outer: &mut Vec<BegunPod>) -> Result<(), Errno>
    ensures room { OnOk result (length outer.new.items < vec_capacity outer.new) }
    ensures same { outer.new.items ≡ outer.old.items }
    ensures memory { IfErr result (λ e. e ≡ NOMEM) }
{
    if outer.len() < outer.capacity() {
        return Ok(());
    }
    let alloc = *outer.allocator();
    *outer = roomier(mem::replace(outer, Vec::new(alloc)));
    if outer.len() < outer.capacity() {
        return Ok(());
    }
    Err(Errno::NOMEM)
}

/// The list with this frame at its end, for which there is room. It is moved, as in `roomier`.
#[inline(never)]
fn longer(mut outer: Vec<BegunPod>, frame: BegunPod) -> Vec<BegunPod>
    requires { length outer.items < vec_capacity outer }
    ensures { result.items ≡ outer.items ++ frame ∷ [] }
{
    if outer.push(frame).is_err() {
        unreachable!();
    }
    outer
}

/// Appends a frame, for which there is room.
#[inline(always)]
fn put(outer: &mut Vec<BegunPod>, frame: BegunPod)
    requires { length outer.old.items < vec_capacity outer.old }
    ensures { outer.new.items ≡ outer.old.items ++ frame ∷ [] }
{
    let alloc = *outer.allocator();
    *outer = longer(mem::replace(outer, Vec::new(alloc)), frame);
}

/// The frames of the open pods.
#[derive(Drop)]
pub(crate) struct Frames {
    outer: Vec<BegunPod>,
    innermost: BegunPod,
    first: usize,
    end: usize,
}

impl Model for Frames {
    ghost use Rattle.std.specs.Prelude.{List};
    ghost use Rattle.spa_builder.specs.declared.begun.BegunPod.{BegunPod};
    ghost use Rattle.spa_builder.specs.Framed.{IsKept, frames_in};

    ghost Value = { List BegunPod };

    ghost view = { λ f. frames_in f.outer.items f.innermost };

    ghost invariant = { λ f. IsKept f.outer.items f.innermost f.first f.end };
}

impl Frames {
    /// No frames.
    pub(crate) fn new(alloc: Global) -> Frames
        ensures { result ≡ [] }
    {
        Frames {
            outer: Vec::new(alloc),
            innermost: NO_FRAME,
            first: 0,
            end: most_bytes(true),
        }
    }

    /// How many frames there are.
    #[inline(always)]
    pub(crate) fn len(&self) -> usize
        ensures { result ≡ length self.now }
    {
        if is_nothing(self.innermost.what) {
            return 0;
        }
        self.outer.len() + 1
    }

    /// The innermost frame. None: no pod is open.
    #[inline(always)]
    pub(crate) fn innermost(&self) -> Option<BegunPod>
        ensures last { (base : ℕ) (ps : List Partial) → self.now ≡ frames_of base ps → result ≡ innermost_of base ps }
        ensures something { IfSome result (λ o. is_nothing o.what ≡ false) }
    {
        if is_nothing(self.innermost.what) {
            return None;
        }
        Some(self.innermost)
    }

    /// Whether every size word still fits 32 bits after `more` bytes: that of the outermost pod is the greatest.
    #[inline(always)]
    pub(crate) fn has_room(&self, len: usize, more: usize) -> bool
        requires within { (base : ℕ) × (ps : List Partial) × (self.now ≡ frames_of base ps)
            × (len ≡ base + length (all_so_far ps)) × IsTrue (has_room_for 0 ps) }
        requires more { more < 2 * size_limit }
        ensures { (base : ℕ) (ps : List Partial) → self.now ≡ frames_of base ps → len ≡ base + length (all_so_far ps)
            → result ≡ has_room_for more ps }
    {
        if is_nothing(self.innermost.what) {
            return true;
        }
        len + more < self.end
    }

    /// Sets stage and elements of the innermost frame.
    #[inline(always)]
    pub(crate) fn set_innermost(&mut self, what: What)
        requires { is_nothing what ≡ false }
        ensures { (base : ℕ) (p q : Partial) (ps : List Partial) → self.old ≡ frames_of base (p ∷ ps)
            → what ≡ what_of q → self.new ≡ frames_of base (q ∷ ps) }
    {
        self.innermost.what = what;
    }

    /// Sets the stage of the innermost frame.
    #[inline(always)]
    pub(crate) fn set_stage(&mut self, stage: Stage)
        requires { no_stage stage ≡ false }
        ensures { (base : ℕ) (p q : Partial) (ps : List Partial) → self.old ≡ frames_of base (p ∷ ps)
            → at_stage (what_of p) stage ≡ what_of q → self.new ≡ frames_of base (q ∷ ps) }
    {
        self.innermost.what.stage = stage;
    }

    /// Pushes a frame, and appends the bytes with which its pod begins. Memory for the frame comes first, so a refused call
    /// changes nothing.
    #[inline(always)]
    pub(crate) fn push<const N: usize>(
        &mut self,
        frame: BegunPod,
        bytes: &mut Written,
        head: [u8; N],
    ) -> Result<(), Errno>
        requires something { is_nothing frame.what ≡ false }
        requires low { frame.start < vector_limit }
        requires short { N ≤ longest_piece }
        ensures ok { OnOk result (self.new ≡ self.old ++ frame ∷ []) }
        ensures appended { OnOk result (bytes.new ≡ bytes.old ++ head.entry) }
        ensures unchanged { OnErr result ((self.new ≡ self.old) × (bytes.new ≡ bytes.old)) }
        ensures memory { IfErr result (λ e. e ≡ NOMEM) }
    {
        if is_nothing(self.innermost.what) {
            bytes.append_array(head)?;
            self.first = frame.start;
            self.end = frame.start + most_bytes(true);
            self.innermost = frame;
            return Ok(());
        }
        make_room(&mut self.outer)?;
        bytes.append_array(head)?;
        put(&mut self.outer, self.innermost);
        self.innermost = frame;
        self.end = self.first + most_bytes(false);
        Ok(())
    }

    /// Drops the innermost frame.
    #[inline(always)]
    pub(crate) fn pop(&mut self)
        requires { (base : ℕ) × (p : Partial) × (ps : List Partial) × (self.old ≡ frames_of base (p ∷ ps)) }
        ensures { (base : ℕ) (p : Partial) (ps : List Partial) → self.old ≡ frames_of base (p ∷ ps)
            → self.new ≡ frames_of base ps }
    {
        let Some(frame) = self.outer.pop() else {
            self.innermost = NO_FRAME;
            self.first = NO_FRAME.start;
            self.end = most_bytes(true);
            return;
        };
        self.innermost = frame;
        self.end = self.first + most_bytes(self.outer.is_empty());
    }
}

/// Whether a value of any type is allowed next.
#[inline(always)]
pub(crate) fn takes_trees(innermost: Option<BegunPod>) -> bool
    ensures { (base : ℕ) (ps : List Partial) → innermost ≡ innermost_of base ps → result ≡ takes_trees ps }
{
    match innermost {
        None => true,
        Some(open) => matches!(open.what.stage, Stage::Struct | Stage::Property),
    }
}

/// Whether a key waits for its value in the innermost open pod.
#[inline(always)]
fn waits(innermost: Option<BegunPod>) -> bool
    ensures { (base : ℕ) (ps : List Partial) → innermost ≡ innermost_of base ps → result ≡ waits ps }
{
    match innermost {
        None => false,
        Some(open) => matches!(open.what.stage, Stage::Property),
    }
}

/// Whether the innermost open pod is an object in which no key waits.
#[inline(always)]
pub(crate) fn takes_key(innermost: Option<BegunPod>) -> bool
    ensures { (base : ℕ) (ps : List Partial) → innermost ≡ innermost_of base ps → result ≡ takes_key ps }
{
    match innermost {
        None => false,
        Some(open) => matches!(open.what.stage, Stage::Object),
    }
}

/// Checks that a value that isn't an element, with a body of this size, is allowed next. Refused as INVAL where none is, and as NOSPC where a
/// size word wouldn't fit 32 bits.
#[inline(always)]
pub(crate) fn admit(len: usize, frames: &Frames, size: usize) -> Result<(), Errno>
    requires { (base : ℕ) × (ps : List Partial) × (frames.now ≡ frames_of base ps)
        × (len ≡ base + length (all_so_far ps)) × IsTrue (has_room_for 0 ps) }
    ensures { (base : ℕ) (ps : List Partial) → frames.now ≡ frames_of base ps → len ≡ base + length (all_so_far ps)
        → IsAdmitted size ps result }
{
    if !takes_trees(frames.innermost()) {
        return Err(Errno::INVAL);
    }
    if size >= SIZE_LIMIT {
        return Err(Errno::NOSPC);
    }
    if !frames.has_room(len, HEADER_LEN + (size + PADDING_MAX) / 8 * 8) {
        return Err(Errno::NOSPC);
    }
    Ok(())
}

/// Marks that a value was added to the innermost open pod, whose frame was read before: a key that waited doesn't any more.
#[inline(always)]
pub(crate) fn fill(frames: &mut Frames, innermost: Option<BegunPod>)
    ensures { (base : ℕ) (ps : List Partial) (v : Tree) → IsTrue (takes_trees ps) → frames.old ≡ frames_of base ps
        → innermost ≡ innermost_of base ps → frames.new ≡ frames_of base (trees_with_value ps v) }
{
    if waits(innermost) {
        frames.set_stage(Stage::Object);
    }
}
