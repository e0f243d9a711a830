//! An object with a property of an enum of one's own, which may be missing.
ghost use Rattle.std.specs.Prelude.{◌≡◌};
ghost use Rattle.libspa.specs.Kind as kind;
ghost use Rattle.libspa.specs.Listed.{optional_property};
ghost use Rattle.libspa.specs.Tree.{fixed, no_properties, object, property};
ghost use Rattle.spa_names.specs.declared.ids.TheConstants as ids;
ghost use Rattle.spa_names.specs.declared.keys.TheConstants as keys;
ghost use Rattle.spa_names.specs.declared.types.TheConstants as types;
ghost use Rattle.example_types.specs.Profile.{id_of};

use libspa::pod::deserialize::{DeserializeAs, ObjectOf, Optional, Required};
use libspa::pod::serialize::{GenError, Maybe, PodOutput, SerializeAs, write_object};
use libspa::utils::Id;
use spa_names::{ids, keys, types};

/// Whether something can be used.
#[derive(Clone, Copy)]
pub enum Availability {
    Unknown,
    No,
    Yes,
    /// A number that isn't known here.
    Other(Id),
}

impl Availability {
    /// The id that says this.
    pub fn id(self) -> Id
        ensures { result ≡ id_of self }
    {
        match self {
            Availability::Unknown => Id(ids::PARAM_AVAILABILITY_UNKNOWN),
            Availability::No => Id(ids::PARAM_AVAILABILITY_NO),
            Availability::Yes => Id(ids::PARAM_AVAILABILITY_YES),
            Availability::Other(id) => id,
        }
    }
}

/// Read as an Id, and refused exactly where none is there.
impl DeserializeAs for Availability {
    type Content = Id;

    ghost content = { id_of };

    fn of_content(given: Id) -> Availability {
        match given.0 {
            ids::PARAM_AVAILABILITY_UNKNOWN => Availability::Unknown,
            ids::PARAM_AVAILABILITY_NO => Availability::No,
            ids::PARAM_AVAILABILITY_YES => Availability::Yes,
            _ => Availability::Other(given),
        }
    }
}

/// Written as an Id.
impl SerializeAs for Availability {
    ghost says = { λ it. fixed (kind.id (id_of it).0) };

    fn write_as<O: PodOutput>(&self, out: &mut O) -> Result<(), GenError> {
        self.id().write_as(out)
    }
}

/// A profile of a card: its number, and whether it can be used, where that is said.
#[derive(Clone, Copy)]
pub struct Profile {
    pub index: i32,
    pub available: Option<Availability>,
}

/// Its properties.
type Properties = (
    Required<{ keys::PARAM_PROFILE_INDEX }, i32>,
    (
        Optional<{ keys::PARAM_PROFILE_AVAILABLE }, Availability>,
        (),
    ),
);

/// Read as a profile with these properties in any order, and refused exactly where no such object is there.
impl DeserializeAs for Profile {
    type Content = ObjectOf<{ types::OBJECT_PARAM_PROFILE }, { ids::PARAM_PROFILE }, Properties>;

    ghost content = { λ it. record { 0 = (record { 0 = it.index }, (record { 0 = it.available }, tt)) } };

    fn of_content(ObjectOf((index, (available, ()))): Self::Content) -> Profile {
        Profile {
            index: index.0,
            available: available.0,
        }
    }
}

/// Written as this object, its properties in this order.
impl SerializeAs for Profile {
    ghost says = { λ it. object types.OBJECT_PARAM_PROFILE ids.PARAM_PROFILE
        (property keys.PARAM_PROFILE_INDEX 0 (fixed (kind.int it.index))
        (optional_property keys.PARAM_PROFILE_AVAILABLE (λ a. ⟦<Availability as SerializeAs>⟧.says a) it.available no_properties)) };

    fn write_as<O: PodOutput>(&self, out: &mut O) -> Result<(), GenError> {
        let last = ((keys::PARAM_PROFILE_AVAILABLE, Maybe(&self.available)), ());
        let properties = ((keys::PARAM_PROFILE_INDEX, &self.index), last);
        write_object(
            out,
            types::OBJECT_PARAM_PROFILE,
            ids::PARAM_PROFILE,
            &properties,
        )
    }
}
