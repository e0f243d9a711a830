//! Writes owned texts, bytes and values, as the borrowed ones are written.
ghost use Rattle.std.specs.Prelude.{string_bytes};
ghost use Rattle.spa_format.specs.Tree as tree;
ghost use Rattle.spa_value.specs.View.{view};

use crate::exact::{SerializeAs, write_bytes, write_text};
use spa_sink::{GenError, PodOutput};
use spa_value::{Held, Value};

impl SerializeAs for String {
    ghost says = { λ s. tree.string (string_bytes s) };

    fn write_as<O: PodOutput>(&self, out: &mut O) -> Result<(), GenError> {
        write_text(out, self.as_str())
    }
}

impl SerializeAs for Held {
    ghost says = { λ held. view held };

    fn write_as<O: PodOutput>(&self, out: &mut O) -> Result<(), GenError> {
        let value: &Value = &**self;
        value.write_as(out)
    }
}

impl SerializeAs for Vec<u8> {
    ghost says = { λ s. tree.bytes s.items };

    fn write_as<O: PodOutput>(&self, out: &mut O) -> Result<(), GenError> {
        write_bytes(out, self.as_slice())
    }
}
