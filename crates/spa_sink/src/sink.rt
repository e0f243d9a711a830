//! Sinks and outputs.
ghost use Rattle.std.specs.Prelude.{◌≡◌, ℕ, ◌+◌, ◌<◌, ◌≤◌, List, ◌++◌, length, take, drop, OnOk, OnErr, OnSome, IfErr, IfSome};
ghost use Rattle.spa_sink.specs.declared.gen_error.GenError.{GenError};
ghost use Rattle.spa_sink.specs.declared.gen_error.GenError.TheVariants.{Full, TooLarge, NulInText, OutOfMemory};
ghost use Rattle.std.proofs.Common.{ap, arith, append_assoc, length-append};

use crate::gen_error::GenError;
use arrayvec::ArrayVec;
use std::alloc::Global;

/// A sink: takes bytes at its end.
///
/// Its contracts relate the sink before and after, so that a device whose bytes aren't known is a sink, too.
pub trait PodSink: Drop {
    /// The sink before, with these bytes appended, is the sink after.
    ghost appends: { Self → List ℕ → Self → Type 0 };

    /// The sink before, asked to take this many bytes in all, may answer this error and be the sink after.
    ghost refuses: { Self → ℕ → Self → GenError → Type 0 };

    /// Appends the bytes. After a refusal a beginning of them may have been appended.
    fn append(&mut self, bytes: &[u8]) -> Result<(), GenError>
        ensures ok { OnOk result (appends self.old bytes.now self.new) }
        ensures begun { OnErr result ((count : ℕ) × appends self.old (take count bytes.now) self.new) }
        ensures cause { IfErr result (λ e. refuses self.old (length bytes.now) self.new e) };

    /// The allocator of the sink's bytes, where it has one. A writer may put together bytes in memory of this allocator before it appends them:
    /// so the sink may always refuse for want of memory, and stay as it was. A sink without an allocator keeps the default.
    fn own_allocator(&self) -> Option<Global>
        ensures memory { OnSome result ((n : ℕ) → refuses self.now n self.now OutOfMemory) }
    {
        None
    }

    /// The greatest number of bytes that the sink still takes, where it knows that. A writer may answer `Full` for more bytes before
    /// it appends one. A sink that doesn't know keeps the default.
    fn room(&self) -> Option<usize>
        ensures full { IfSome result (λ room. (n : ℕ) → room < n → refuses self.now n self.now Full) }
    {
        None
    }

    ghost appends_more: { (a b c : Self) (xs ys : List ℕ) → appends a xs b → appends b ys c → appends a (xs ++ ys) c };

    ghost refuses_longer: { (a b : Self) (m n : ℕ) (e : GenError) → m ≤ n → refuses a m b e → refuses a n b e };

    ghost refuses_after: { (a b c : Self) (xs : List ℕ) (n : ℕ) (e : GenError) → appends a xs b → refuses b n c e → refuses a (length xs + n) c e };

    /// A sink never refuses for a text or for a size.
    ghost never_nul: { (a b : Self) (n : ℕ) → refuses a n b NulInText → ⊥ };

    ghost never_large: { (a b : Self) (n : ℕ) → refuses a n b TooLarge → ⊥ };
}

/// An output: a sink whose bytes are known, and can be changed after they were written.
pub trait PodOutput: PodSink {
    /// The bytes of the output.
    ghost content: { Self → List ℕ };

    /// How many bytes the output has.
    fn len(&self) -> usize
        ensures { result ≡ length (content self.now) };

    /// Overwrites the four bytes at the offset `at`.
    fn overwrite(&mut self, at: usize, bytes: [u8; 4])
        requires { at + 4 ≤ length (content self.old) }
        ensures value { content self.new ≡ take at (content self.old) ++ (bytes ++ drop (at + 4) (content self.old)) }
        ensures room { (c : Self) (n : ℕ) (e : GenError) → Self.refuses self.new n c e → Self.refuses self.old n c e };

    ghost content_appends: { (a b : Self) (xs : List ℕ) → Self.appends a xs b → content b ≡ content a ++ xs };
}

impl PodSink for Vec<u8> {
    ghost appends = { λ a xs b. b.items ≡ a.items ++ xs };

    ghost refuses = { λ _ _ _ e. e ≡ OutOfMemory };

    ghost appends_more = { λ a b c xs ys p q. Prim.rw (q, p) (append_assoc a.items xs ys) };

    ghost refuses_longer = { λ a b m n e h r. r };

    ghost refuses_after = { λ a b c xs n e p r. r };

    ghost never_nul = { λ a b n r. Prim.cc (r) };

    ghost never_large = { λ a b n r. Prim.cc (r) };

    fn append(&mut self, bytes: &[u8]) -> Result<(), GenError>
        ensures ok { OnOk result (self.new.items ≡ self.old.items ++ bytes.now) }
        ensures begun { OnErr result ((count : ℕ) × (self.new.items ≡ self.old.items ++ take count bytes.now)) }
        ensures cause { IfErr result (λ e. e ≡ OutOfMemory) }
        ensures unchanged { OnErr result (self.new.items ≡ self.old.items) }
    {
        match self.extend_from_slice(bytes) {
            Ok(()) => Ok(()),
            Err(_) => Err(GenError::OutOfMemory),
        }
    }

    #[inline(always)]
    fn own_allocator(&self) -> Option<Global> {
        Some(*self.allocator())
    }
}

impl PodOutput for Vec<u8> {
    ghost content = { λ it. it.items };

    ghost content_appends = { λ a b xs p. p };

    fn len(&self) -> usize {
        Vec::len(self)
    }

    fn overwrite(&mut self, at: usize, bytes: [u8; 4]) {
        self[at..at + bytes.len()].copy_from_slice(&bytes);
    }
}

impl<const N: usize> PodSink for ArrayVec<u8, N> {
    ghost appends = { λ a xs b. b.items ≡ a.items ++ xs };

    ghost refuses = { λ a n _ e. (e ≡ Full) × (N < length a.items + n) };

    ghost appends_more = { λ a b c xs ys p q. Prim.rw (q, p) (append_assoc a.items xs ys) };

    ghost refuses_longer = { λ a b m n e h r. (r.0, Prim.omega (arith, r.1)) };

    ghost refuses_after = { λ a b c xs n e p r. (r.0, Prim.omega (arith, r.1, ap length p, length-append a.items xs)) };

    ghost never_nul = { λ a b n r. Prim.cc (r.0) };

    ghost never_large = { λ a b n r. Prim.cc (r.0) };

    fn append(&mut self, bytes: &[u8]) -> Result<(), GenError>
        ensures ok { OnOk result (self.new.items ≡ self.old.items ++ bytes.now) }
        ensures begun { OnErr result ((count : ℕ) × (self.new.items ≡ self.old.items ++ take count bytes.now)) }
        ensures cause { IfErr result (λ e. (e ≡ Full) × (N < length self.old.items + length bytes.now)) }
        ensures unchanged { OnErr result (self.new.items ≡ self.old.items) }
    {
        match self.try_extend_from_slice(bytes) {
            Ok(()) => Ok(()),
            Err(_) => Err(GenError::Full),
        }
    }

    #[inline(always)]
    fn room(&self) -> Option<usize> {
        Some(self.remaining_capacity())
    }
}

impl<const N: usize> PodOutput for ArrayVec<u8, N> {
    ghost content = { λ it. it.items };

    ghost content_appends = { λ a b xs p. p };

    fn len(&self) -> usize {
        self.len()
    }

    fn overwrite(&mut self, at: usize, bytes: [u8; 4]) {
        self[at..at + 4].copy_from_slice(&bytes);
    }
}
