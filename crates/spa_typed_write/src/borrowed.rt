//! Writes borrowed texts, bytes and bitmaps, and pointers.
ghost use Rattle.spa_format.specs.Tree as tree;

use crate::exact::{SerializeAs, write_bytes, write_text};
use spa_bodies::{put_bitmap, put_pointer};
use spa_sink::{GenError, PodOutput};
use spa_value::Bitmap;

impl SerializeAs for &str {
    ghost says = { λ s. tree.string s.now };

    fn write_as<O: PodOutput>(&self, out: &mut O) -> Result<(), GenError> {
        write_text(out, self)
    }
}

impl SerializeAs for &[u8] {
    ghost says = { λ s. tree.bytes s.now };

    fn write_as<O: PodOutput>(&self, out: &mut O) -> Result<(), GenError> {
        write_bytes(out, self)
    }
}

impl SerializeAs for Bitmap<'_> {
    ghost says = { λ s. tree.bitmap s.0.now };

    fn write_as<O: PodOutput>(&self, out: &mut O) -> Result<(), GenError> {
        let Bitmap(bytes) = self;
        put_bitmap(out, bytes)
    }
}

impl SerializeAs for (u32, u64) {
    ghost says = { λ p. tree.pointer p.0 p.1 };

    fn write_as<O: PodOutput>(&self, out: &mut O) -> Result<(), GenError> {
        let (type_, address) = *self;
        put_pointer(out, type_, address)
    }
}
