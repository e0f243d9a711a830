//! What writers answer to too many elements or too few, and after a refusal.
ghost use Rattle.std.specs.Prelude.{[]};
ghost use Rattle.libspa.specs.Kind as kind;
ghost use Rattle.libspa.specs.Tree.{array, fixed};

use crate::declared::declared_written;
use crate::writes::{Place, written};
use bitflags::Flags;
use libspa::pod::PropertyFlags;
use libspa::pod::serialize::{GenError, PodOutput, PodSerialize, PodSerializer, SerializeSuccess};
use std::alloc::{AllocError, Global};

/// An array of so many Ints, of which none is written.
struct Promised(u32);

impl PodSerialize for Promised {
    ghost value = { λ _. array kind.int_kind [] };

    fn serialize<O: PodOutput>(
        &self,
        serializer: PodSerializer<O>,
    ) -> Result<SerializeSuccess<O>, GenError> {
        serializer.serialize_array::<i32>(self.0)?.end()
    }
}

/// Three elements where two were promised, and the end. It answers what the end answers.
struct Third;

impl PodSerialize for Third {
    ghost value = { λ _. fixed kind.none };

    fn serialize<O: PodOutput>(
        &self,
        serializer: PodSerializer<O>,
    ) -> Result<SerializeSuccess<O>, GenError> {
        let mut elements = serializer.serialize_array::<i32>(2)?;
        let first = elements.serialize_element(&1)?;
        let second = elements.serialize_element(&2)?;
        let third = elements.serialize_element(&3);
        if first == 4 && second == 4 && third.err() == Some(GenError::WrongCount) {
            return elements.end();
        }
        Err(GenError::Io)
    }
}

/// A struct with a refused member, another member, and the end. It answers what the end answers.
struct Refused;

impl PodSerialize for Refused {
    ghost value = { λ _. fixed kind.none };

    fn serialize<O: PodOutput>(
        &self,
        serializer: PodSerializer<O>,
    ) -> Result<SerializeSuccess<O>, GenError> {
        let mut members = serializer.serialize_struct()?;
        let Err(GenError::NulInText) = members.serialize_field(&"a\0b") else {
            return Err(GenError::Io);
        };
        let Err(GenError::Failed) = members.serialize_field(&1) else {
            return Err(GenError::Io);
        };
        members.end()
    }
}

/// An object whose writer refuses a text, and then any call.
struct RefusedProperty;

impl PodSerialize for RefusedProperty {
    ghost value = { λ _. fixed kind.none };

    fn serialize<O: PodOutput>(
        &self,
        serializer: PodSerializer<O>,
    ) -> Result<SerializeSuccess<O>, GenError> {
        let mut properties = serializer.serialize_object(5, 3)?;
        let flags = PropertyFlags::empty();
        let Err(GenError::NulInText) = properties.serialize_property(1, &"a\0b", flags) else {
            return Err(GenError::Io);
        };
        let Err(GenError::Failed) = properties.serialize_property(1, &1, flags) else {
            return Err(GenError::Io);
        };
        properties.end()
    }
}

/// What is written of a pod of one of these types.
pub(crate) fn misused(alloc: Global, place: Place, name: &str) -> Result<String, AllocError> {
    match name {
        "too many elements" => written(alloc, place, &Promised(1073741822)),
        "missing elements" => written(alloc, place, &Promised(1073741821)),
        "no elements" => written(alloc, place, &Promised(0)),
        "a third element" => written(alloc, place, &Third),
        "a refused member" => written(alloc, place, &Refused),
        "a refused property" => written(alloc, place, &RefusedProperty),
        _ => declared_written(alloc, place, name),
    }
}
