//! A struct, and one that holds it, declared by what they are made of, written and read.
ghost use Rattle.std.specs.Prelude.{◌≡◌, ◌+◌, ◌<◌, ◌≤◌, ◌++◌, ℕ, IfErr, IfOk, IsOk, List, OnOk, length};
ghost use Rattle.libspa.specs.Encoding.{encoding_of};
ghost use Rattle.libspa.specs.Front.{Begins, rest_of};
ghost use Rattle.libspa.specs.Kind as kind;
ghost use Rattle.libspa.specs.Tree.{Tree, fixed, member, no_trees, struct};
ghost use Rattle.example_types.specs.declared.mode.Mode.{Mode};
ghost use Rattle.libspa.specs.GenErrors.{Full};

use arrayvec::ArrayVec;
use libspa::pod::deserialize::{DeserializeAs, DeserializeError, PodDeserializer, StructOf};
use libspa::pod::laws::{encodings_read_back, pods_have_one_value};
use libspa::pod::serialize::{GenError, PodOutput, SerializeAs, laws, write_struct};
use std::alloc::Global;

/// A width and a height.
#[derive(Clone, Copy)]
pub struct Size {
    pub width: i32,
    pub height: i32,
}

/// Read as a struct of these two, and refused exactly where no such struct is there.
impl DeserializeAs for Size {
    type Content = StructOf<(i32, (i32, ()))>;

    ghost content = { λ s. record { 0 = (s.width, (s.height, tt)) } };

    fn of_content(StructOf((width, (height, ()))): Self::Content) -> Size {
        Size { width, height }
    }
}

impl SerializeAs for Size {
    ghost says = { λ s. struct (member (fixed (kind.int s.width)) (member (fixed (kind.int s.height)) no_trees)) };

    fn write_as<O: PodOutput>(&self, out: &mut O) -> Result<(), GenError> {
        write_struct(out, &(&self.width, (&self.height, ())))
    }
}

/// A size, and how often it is shown each second.
#[derive(Clone, Copy)]
pub struct Mode {
    pub size: Size,
    pub rate: i64,
}

/// Read as a struct of these two, and refused exactly where no such struct is there.
impl DeserializeAs for Mode {
    type Content = StructOf<(Size, (i64, ()))>;

    ghost content = { λ m. record { 0 = (m.size, (m.rate, tt)) } };

    fn of_content(StructOf((size, (rate, ()))): Self::Content) -> Mode {
        Mode { size, rate }
    }
}

impl SerializeAs for Mode {
    ghost says = { λ m. struct
        (member (⟦<Size as SerializeAs>⟧.says m.size)
        (member (fixed (kind.long m.rate)) no_trees)) };

    fn write_as<O: PodOutput>(&self, out: &mut O) -> Result<(), GenError> {
        write_struct(out, &(&self.size, (&self.rate, ())))
    }
}

/// The encoding of a mode, which is 64 bytes, behind what the output holds, and its length: exactly where it fits.
pub fn put_mode(out: ArrayVec<u8, 128>, mode: &Mode) -> Result<(ArrayVec<u8, 128>, u64), GenError>
    ensures encoding { IfOk result
        (λ done. done.0.items ≡ out.items ++ encoding_of (⟦<Mode as SerializeAs>⟧.says mode.now)) }
    ensures count { IfOk result (λ done. done.1 ≡ length (encoding_of (⟦<Mode as SerializeAs>⟧.says mode.now))) }
    // It reads back, whatever follows it.
    ensures back { OnOk result ((r : List ℕ)
        → Begins (encoding_of (⟦<Mode as SerializeAs>⟧.says mode.now) ++ r) (⟦<Mode as SerializeAs>⟧.says mode.now)) }
    ensures room { length out.items + 64 ≤ 128 → IsOk result }
    ensures full { IfErr result (λ e. (e ≡ Full) × (128 < length out.items + 64)) }
{
    encodings_read_back();
    laws::declared_pods_are_written_where_they_fit(out, mode)
}

/// The mode at the front of the input, and what follows it. It is refused exactly where no mode is there: it takes no memory.
pub fn read_mode(alloc: Global, input: &[u8]) -> Result<(&[u8], Mode), DeserializeError<&[u8]>>
    // The front is a pod of the mode,
    ensures mode { IfOk result (λ read. Begins input.now (⟦<Mode as SerializeAs>⟧.says read.1)) }
    // of nothing else,
    ensures one { IfOk result (λ read. (v : Tree) → Begins input.now v → v ≡ ⟦<Mode as SerializeAs>⟧.says read.1) }
    // and what follows it is the rest.
    ensures rest { IfOk result (λ read. read.0.now ≡ rest_of input.now) }
    ensures refused { IfErr result (λ _. (mode : Mode) → ¬ (Begins input.now (⟦<Mode as SerializeAs>⟧.says mode))) }
{
    pods_have_one_value();
    PodDeserializer::deserialize_from(alloc, input)
}

/// A mode written and read back: the same one.
pub fn sent(alloc: Global, mode: &Mode) -> Mode
    ensures { result ≡ mode.now }
{
    let Ok((bytes, _)) = put_mode(ArrayVec::new(), mode) else {
        unreachable!()
    };
    let Ok((_, back)) = read_mode(alloc, bytes.as_slice()) else {
        unreachable!()
    };
    back
}
