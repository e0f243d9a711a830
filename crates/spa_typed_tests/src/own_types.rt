//! What types of a program's own are written as.
ghost use Rattle.std.specs.Prelude.{[], ◌∷◌};
ghost use Rattle.libspa.specs.Kind as kind;
ghost use Rattle.libspa.specs.Tree.{array, fixed, member, no_properties, no_trees, object, property, struct};

use crate::compare::{assert_holds, assert_words};
use crate::refusals::misused;
use crate::writes::{Place, written};
use arrayvec::ArrayVec;
use bitflags::Flags;
use example_types::{
    Cover, Device, Level, Mode, Pair, Screen, Size, Song, is_number, put_mode, tagged_number,
};
use libspa::pod::serialize::{GenError, PodOutput, PodSerialize, PodSerializer, SerializeSuccess};
use libspa::pod::{FixedSizedPod, PropertyFlags};
use libspa::utils::{Float32, Id, Rectangle};
use std::alloc::{AllocError, Global};
use std::test::Fail;

/// A type of one's own that says nothing.
#[derive(Clone, Copy)]
struct Silence;

impl FixedSizedPod for Silence {
    type CanonicalType = ();

    ghost to_canonical = { λ _. tt };

    ghost of_canonical = { λ _. record {} };

    fn as_canonical_type(&self) {}

    fn from_canonical_type(_canonical: &()) -> Silence {
        Silence
    }
}

/// Three of them.
struct Silences;

impl PodSerialize for Silences {
    ghost value = { λ _. array kind.none_kind (kind.none ∷ kind.none ∷ kind.none ∷ []) };

    fn serialize<O: PodOutput>(
        &self,
        serializer: PodSerializer<O>,
    ) -> Result<SerializeSuccess<O>, GenError> {
        let mut elements = serializer.serialize_array::<Silence>(3)?;
        elements.serialize_element(&Silence)?;
        elements.serialize_element(&Silence)?;
        elements.serialize_element(&Silence)?;
        elements.end()
    }
}

/// An id in a struct, refused as `Io` where the answer isn't its encoding's length.
struct Counted;

impl PodSerialize for Counted {
    ghost value = { λ _. struct (member (fixed (kind.id 3)) no_trees) };

    fn serialize<O: PodOutput>(
        &self,
        serializer: PodSerializer<O>,
    ) -> Result<SerializeSuccess<O>, GenError> {
        let mut members = serializer.serialize_struct()?;
        if members.serialize_field(&Id(3))? != 16 {
            return Err(GenError::Io);
        }
        members.end()
    }
}

/// An object of one property, whose key and flags the writer counts with its value: 24 bytes.
struct CountedProperty;

impl PodSerialize for CountedProperty {
    ghost value = { λ _. object 5 3 (property 1 0 (fixed (kind.id 3)) no_properties) };

    fn serialize<O: PodOutput>(
        &self,
        serializer: PodSerializer<O>,
    ) -> Result<SerializeSuccess<O>, GenError> {
        let mut properties = serializer.serialize_object(5, 3)?;
        if properties.serialize_property(1, &Id(3), PropertyFlags::empty())? != 24 {
            return Err(GenError::Io);
        }
        properties.end()
    }
}

const SIZE: Size = Size {
    width: 640,
    height: 480,
};

const MODE: Mode = Mode {
    size: SIZE,
    rate: 60,
};

const SONG: Song<'static> = Song {
    number: 313,
    title: "foo",
    cover: Cover {
        size: Rectangle {
            width: 31,
            height: 14,
        },
    },
};

const DEVICE: Device<'static> = Device {
    name: "hw:0",
    volume: Float32(1138491392),
};

const PAIR: Pair = Pair {
    left: Level { steps: 7 },
    right: Level { steps: -1 },
};

/// What is written of a pod of one of these types.
pub(crate) fn own_written(alloc: Global, place: Place, name: &str) -> Result<String, AllocError> {
    match name {
        "silences" => written(alloc, place, &Silences),
        "song" => written(alloc, place, &SONG),
        "mode" => written(alloc, place, &MODE),
        "device" => written(alloc, place, &DEVICE),
        "screen" => written(alloc, place, &Screen { mode: MODE }),
        "level" => written(alloc, place, &PAIR.left),
        "pair" => written(alloc, place, &PAIR),
        "tagged number" => written(alloc, place, &tagged_number(Id(9), 313)),
        "counted" => written(alloc, place, &Counted),
        "counted property" => written(alloc, place, &CountedProperty),
        _ => misused(alloc, place, name),
    }
}

#[test]
fn a_value_in_a_struct_is_a_number(rt: HostRuntime) {
    let tagged = tagged_number(Id(9), 313);
    let is_number = is_number(&tagged.value);
    drop(tagged);
    assert_holds(&rt, is_number, "a number under an id");
}

/// The words of a mode.
const MODE_WORDS: &str = "56 14 32 14 4 4 640 0 4 4 480 0 8 5 60 0";

#[test]
fn a_mode_is_put_where_it_fits(rt: HostRuntime) -> Result<(), Fail> {
    let (out, count) = put_mode(ArrayVec::new(), &MODE)?;
    assert_holds(&rt, count == 64, MODE_WORDS);
    assert_words(&rt, rt.alloc(), out.as_slice(), MODE_WORDS)?;
    let (out, _) = put_mode(out, &MODE)?;
    let refused = put_mode(out, &MODE).err();
    assert_holds(&rt, refused == Some(GenError::Full), "no room");
    Ok(())
}
