//! Objects.
ghost use Rattle.libspa.specs.Kind as kind;
ghost use Rattle.libspa.specs.Tree.{fixed, no_properties, object, property, string};

use crate::mode::Mode;
use bitflags::Flags;
use libspa::pod::PropertyFlags;
use libspa::pod::deserialize::{DeserializeAs, ObjectOf, Required};
use libspa::pod::serialize::{
    GenError, PodOutput, PodSerialize, PodSerializer, SerializeAs, SerializeSuccess, write_object,
};
use libspa::utils::Float32;

/// The type of both objects.
const OBJECT_TYPE: u32 = 5;

/// The id of both objects.
const OBJECT_ID: u32 = 3;

/// The key of what comes first.
const FIRST_KEY: u32 = 1;

/// The key of what comes second.
const SECOND_KEY: u32 = 2;

/// A device with its name and its volume, written as an object.
#[derive(Clone, Copy)]
pub struct Device<'a> {
    pub name: &'a str,
    pub volume: Float32,
}

/// Read as an object of this type and id with these properties in any order, and refused exactly where no such object is there.
impl<'a> DeserializeAs for Device<'a> {
    type Content = ObjectOf<5, 3, (Required<1, &'a str>, (Required<2, Float32>, ()))>;

    ghost content = { λ device. record { 0 = (record { 0 = device.name }, (record { 0 = device.volume }, tt)) } };

    fn of_content(ObjectOf((name, (volume, ()))): Self::Content) -> Device<'a> {
        Device {
            name: name.0,
            volume: volume.0,
        }
    }
}

impl SerializeAs for Device<'_> {
    ghost says = { λ device. object 5 3
        (property 1 0 (string device.name.now)
        (property 2 0 (fixed (kind.float device.volume.0)) no_properties)) };

    fn write_as<O: PodOutput>(&self, out: &mut O) -> Result<(), GenError> {
        let volume = ((SECOND_KEY, &self.volume), ());
        write_object(
            out,
            OBJECT_TYPE,
            OBJECT_ID,
            &((FIRST_KEY, &self.name), volume),
        )
    }
}

/// A screen with a mode, whatever type that is, written as an object.
#[derive(Drop)]
pub struct Screen<M: PodSerialize + Drop> {
    pub mode: M,
}

/// Read as an object of this type and id with this property, and refused exactly where no such object is there.
impl DeserializeAs for Screen<Mode> {
    type Content = ObjectOf<5, 3, (Required<1, Mode>, ())>;

    ghost content = { λ screen. record { 0 = (record { 0 = screen.mode }, tt) } };

    fn of_content(ObjectOf((mode, ())): Self::Content) -> Screen<Mode> {
        Screen { mode: mode.0 }
    }
}

impl<M: PodSerialize + Drop> PodSerialize for Screen<M> {
    ghost value = { λ screen. object 5 3 (property 1 0 (M.value screen.mode) no_properties) };

    fn serialize<O: PodOutput>(
        &self,
        serializer: PodSerializer<O>,
    ) -> Result<SerializeSuccess<O>, GenError> {
        let mut properties = serializer.serialize_object(OBJECT_TYPE, OBJECT_ID)?;
        properties.serialize_property(FIRST_KEY, &self.mode, PropertyFlags::empty())?;
        properties.end()
    }
}
