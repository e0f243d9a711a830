//! The bytes that a builder has written, at the front of a vector that is longer than they are: the bytes behind them are
//! spare room, which an append fills without asking for memory.
ghost use Rattle.std.specs.Prelude.{◌≡◌, ◌+◌, ◌<◌, ◌≤◌, ◌++◌, ℕ, [], List, IfErr, OnErr, OnOk, drop, length, replicate, take};
ghost use Rattle.std.proofs.Common.{append_assoc};
ghost use Rattle.spa_sink.specs.declared.gen_error.GenError.TheVariants.{OutOfMemory};
ghost use Rattle.spa_format.specs.Words.{header_size, size_limit, word_bytes};
ghost use Rattle.spa_spare_capacity.specs.Limits.{longest_piece, vector_limit};
ghost use Rattle.spa_utils.specs.declared.errno.TheConstants.Errno.{NOMEM};

use spa_bytes::{HEADER_LEN, two_words};
use spa_sink::{GenError, PodSink};
use spa_utils::Errno;
use std::alloc::{AllocError, Global};
use std::marker::Model;
use std::mem;

/// The bytes that were written. A refused call changes nothing.
#[derive(Drop)]
pub struct Written {
    bytes: Vec<u8>,
    count: usize,
}

impl Model for Written {
    ghost Value = { List ℕ };

    ghost view = { λ w. take w.count w.bytes.items };

    ghost invariant = { λ w. w.count ≤ length w.bytes.items };
}

/// The least capacity in bytes of a vector that had to be made larger, and the least number of zeros that are added to it at once.
const FIRST_ROOM: usize = 256;

/// The most zeros that are added at once, unless an append needs more. Up to here the vector is made twice as long.
const ROOM_STEP: usize = 4096;

/// Asks for memory for `more` bytes behind those of the vector.
fn reserve(bytes: &mut Vec<u8>, more: usize) -> Result<(), AllocError>
    ensures { bytes.new.items ≡ bytes.old.items }
{
    if more <= bytes.capacity() - bytes.len() {
        return Ok(());
    }
    bytes.reserve(more.max(FIRST_ROOM))
}

/// The vector, at least `more` bytes longer where there is memory for it. It is moved and not borrowed, so that a builder
/// whose calls are inlined can be kept in registers.
#[cold]
#[inline(never)]
fn grown(mut bytes: Vec<u8>, more: usize) -> Vec<u8>
    ensures { (n : ℕ) → n ≤ length bytes.items → (take n result.items ≡ take n bytes.items)
        × (length bytes.items ≤ length result.items) }
{
    let had = bytes.len();
    if reserve(&mut bytes, more).is_err() {
        return bytes;
    }
    let step = had.min(ROOM_STEP).max(FIRST_ROOM);
    let wanted = had.saturating_add(more.max(step));
    let fits = wanted.min(bytes.capacity());
    let _ = bytes.resize(fits, 0);
    bytes
}

/// Makes room for `more` bytes behind the first `count`. Refused only for want of memory.
#[inline(always)]
fn make_room(bytes: &mut Vec<u8>, count: usize, more: usize) -> Result<(), Errno>
    requires within { count ≤ length bytes.old.items }
    requires small { more < vector_limit }
    ensures room { OnOk result (count + more ≤ length bytes.new.items) }
    ensures within { count ≤ length bytes.new.items }
    ensures kept { take count bytes.new.items ≡ take count bytes.old.items }
    ensures memory { IfErr result (λ e. e ≡ NOMEM) }
{
    let end = count + more;
    if end <= bytes.len() {
        return Ok(());
    }
    let alloc = *bytes.allocator();
    let lacks = end - bytes.len();
    *bytes = grown(mem::replace(bytes, Vec::new(alloc)), lacks);
    if end <= bytes.len() {
        return Ok(());
    }
    Err(Errno::NOMEM)
}

/// Overwrites the bytes from the offset `at` on with these.
#[inline(always)]
fn write_over(bytes: &mut Vec<u8>, at: usize, piece: &[u8])
    requires { at + length piece.now ≤ length bytes.old.items }
    ensures written { take (at + length piece.now) bytes.new.items ≡ take at bytes.old.items ++ piece.now }
    ensures same { length bytes.new.items ≡ length bytes.old.items }
{
    let end = at + piece.len();
    bytes[at..end].copy_from_slice(piece);
}

/// Overwrites `zeros` bytes, at most eight, from the offset `at` on with 0. Where eight bytes are there, all eight become 0, which takes one store: of
/// those behind the first `zeros` the contract says nothing.
#[inline(always)]
fn write_zeros(bytes: &mut Vec<u8>, at: usize, zeros: usize)
    requires few { zeros ≤ header_size }
    requires within { at + zeros ≤ length bytes.old.items }
    ensures written { take (at + zeros) bytes.new.items ≡ take at bytes.old.items ++ replicate zeros 0 }
    ensures same { length bytes.new.items ≡ length bytes.old.items }
{
    if HEADER_LEN <= bytes.len() - at {
        write_over(bytes, at, &[0; HEADER_LEN]);
    } else {
        write_over(bytes, at, &[0; HEADER_LEN][..zeros]);
    }
}

impl Written {
    /// No bytes yet, over this vector.
    #[inline]
    pub fn new(bytes: Vec<u8>) -> Written
        ensures { result ≡ [] }
    {
        Written { bytes, count: 0 }
    }

    /// How many bytes are written.
    #[inline(always)]
    pub fn len(&self) -> usize
        ensures { result ≡ length self.now }
    {
        self.count
    }

    /// The offset at which the next byte will be written.
    #[inline(always)]
    pub fn place(&self) -> usize
        ensures at { result ≡ length self.now }
        ensures low { result < vector_limit }
    {
        self.count
    }

    /// The bytes that are written.
    #[inline]
    pub fn as_slice(&self) -> &[u8]
        ensures { result.now ≡ self.now }
    {
        &self.bytes[..self.count]
    }

    /// The vector, with the bytes that are written and nothing else.
    #[inline]
    pub fn into_inner(self) -> Vec<u8>
        ensures { result.items ≡ self }
    {
        let Written { mut bytes, count } = self;
        bytes.truncate(count);
        bytes
    }

    /// Keeps only the first `count` bytes.
    #[inline(always)]
    pub fn truncate(&mut self, count: usize)
        requires { count ≤ length self.old }
        ensures { self.new ≡ take count self.old }
    {
        self.count = count;
    }

    /// The allocator of the vector.
    #[inline]
    pub fn allocator(&self) -> Global {
        *self.bytes.allocator()
    }

    /// Appends these bytes. Refused only for want of memory.
    #[inline]
    pub fn append(&mut self, piece: &[u8]) -> Result<(), Errno>
        ensures ok { OnOk result (self.new ≡ self.old ++ piece.now) }
        ensures unchanged { OnErr result (self.new ≡ self.old) }
        ensures memory { IfErr result (λ e. e ≡ NOMEM) }
    {
        make_room(&mut self.bytes, self.count, piece.len())?;
        let at = self.count;
        let end = at + piece.len();
        self.bytes[at..end].copy_from_slice(piece);
        self.count = end;
        Ok(())
    }

    /// Appends the first `count` of these bytes. Refused only for want of memory.
    #[inline(always)]
    #[tactic(auto, using(crate::proofs::Pieces::take_into))]
    pub fn append_first<const N: usize>(
        &mut self,
        piece: [u8; N],
        count: usize,
    ) -> Result<(), Errno>
        requires first { count ≤ N }
        requires short { N ≤ longest_piece }
        ensures ok { OnOk result (self.new ≡ self.old ++ take count piece.entry) }
        ensures unchanged { OnErr result (self.new ≡ self.old) }
        ensures memory { IfErr result (λ e. e ≡ NOMEM) }
    {
        let at = self.count;
        make_room(&mut self.bytes, at, N)?;
        self.bytes[at..at + N].copy_from_slice(&piece);
        self.count = at + count;
        Ok(())
    }

    /// Appends these `N` bytes. Refused only for want of memory.
    #[inline(always)]
    pub fn append_array<const N: usize>(&mut self, piece: [u8; N]) -> Result<(), Errno>
        requires { N ≤ longest_piece }
        ensures ok { OnOk result (self.new ≡ self.old ++ piece.entry) }
        ensures unchanged { OnErr result (self.new ≡ self.old) }
        ensures memory { IfErr result (λ e. e ≡ NOMEM) }
    {
        self.append_first(piece, N)
    }

    /// Appends a header, a body that is given in two parts, and zeros; room is made once. Refused only for want of memory.
    #[inline(always)]
    pub fn append_parts(
        &mut self,
        header: [u8; HEADER_LEN],
        front: &[u8],
        back: &[u8],
        zeros: usize,
    ) -> Result<(), Errno>
        requires zeros { zeros ≤ header_size }
        requires small { length front.now + length back.now < size_limit }
        ensures ok { OnOk result (self.new ≡ (((self.old ++ header) ++ front.now) ++ back.now) ++ replicate zeros 0) }
        ensures unchanged { OnErr result (self.new ≡ self.old) }
        ensures memory { IfErr result (λ e. e ≡ NOMEM) }
    {
        let at = self.count;
        let size = front.len() + back.len();
        make_room(&mut self.bytes, at, HEADER_LEN + size + zeros)?;
        let body = at + HEADER_LEN;
        let rest = body + front.len();
        let end = rest + back.len();
        write_over(&mut self.bytes, at, &header);
        write_over(&mut self.bytes, body, front);
        write_over(&mut self.bytes, rest, back);
        write_zeros(&mut self.bytes, end, zeros);
        self.count = end + zeros;
        Ok(())
    }

    /// Appends at most eight zeros. Refused only for want of memory.
    #[inline(always)]
    pub fn append_zeros(&mut self, zeros: usize) -> Result<(), Errno>
        requires { zeros ≤ header_size }
        ensures ok { OnOk result (self.new ≡ self.old ++ replicate zeros 0) }
        ensures unchanged { OnErr result (self.new ≡ self.old) }
        ensures memory { IfErr result (λ e. e ≡ NOMEM) }
    {
        let at = self.count;
        make_room(&mut self.bytes, at, zeros)?;
        write_zeros(&mut self.bytes, at, zeros);
        self.count = at + zeros;
        Ok(())
    }

    /// Asks for memory for `more` bytes behind those written. Where there is none, the appends that need it are refused.
    pub fn reserve(&mut self, more: usize)
        ensures { self.new ≡ self.old }
    {
        let spare = self.bytes.len() - self.count;
        let _ = reserve(&mut self.bytes, more.saturating_sub(spare));
    }

    /// Overwrites the four bytes at the offset `at` with a word.
    #[tactic(auto, unfolding(spa_format::specs::Words::word_bytes))]
    #[inline]
    pub fn patch(&mut self, at: usize, n: u32)
        requires { at + 4 ≤ length self.old }
        ensures { self.new ≡ take at self.old ++ (word_bytes n ++ drop (at + 4) self.old) }
    {
        self.bytes[at..at + 4].copy_from_slice(&n.to_le_bytes());
    }

    /// Overwrites the eight bytes at the offset `at` with two words.
    #[inline]
    pub fn patch_two(&mut self, at: usize, first: u32, second: u32)
        requires { at + 8 ≤ length self.old }
        ensures { self.new ≡ take at self.old ++ ((word_bytes first ++ word_bytes second) ++ drop (at + 8) self.old) }
    {
        self.bytes[at..at + HEADER_LEN].copy_from_slice(&two_words(first, second));
    }
}

impl PodSink for Written {
    ghost appends = { λ a xs b. b ≡ a ++ xs };

    ghost refuses = { λ _ _ _ e. e ≡ OutOfMemory };

    ghost appends_more = { λ a b c xs ys p q. Prim.rw (q, p) (append_assoc a xs ys) };

    ghost refuses_longer = { λ a b m n e h r. r };

    ghost refuses_after = { λ a b c xs n e p r. r };

    ghost never_nul = { λ a b n r. Prim.cc (r) };

    ghost never_large = { λ a b n r. Prim.cc (r) };

    #[inline(always)]
    fn append(&mut self, bytes: &[u8]) -> Result<(), GenError> {
        match Written::append(self, bytes) {
            Ok(()) => Ok(()),
            Err(_) => Err(GenError::OutOfMemory),
        }
    }

    #[inline(always)]
    fn own_allocator(&self) -> Option<Global> {
        Some(self.allocator())
    }
}
