//! Deeply nested pods, and the values that are read of them.
use spa_fixed_sized::DeserializeError;
use spa_typed_read::PodDeserializer;
use spa_value::Held;
use std::alloc::{AllocError, Global};
use std::test::Fail;

/// The value at the front, which is there. A crate that drops a `Value` proves how that is taken apart; a `Held`'s drop is proved.
pub(crate) fn read(alloc: Global, input: &[u8]) -> Result<Held, Fail> {
    match PodDeserializer::deserialize_any_from(alloc, input) {
        Ok((_, value)) => Ok(Held::from(value)),
        Err(DeserializeError::OutOfMemory) => Err(Fail::from(AllocError)),
        Err(_) => Err(Fail::from("it isn't read")),
    }
}
