//! An object that is declared by what it is made of.
ghost use Rattle.std.specs.Prelude.{◌≡◌, ◌+◌, ◌≤◌, ◌++◌, IfErr, IfOk, IsOk, length, map};
ghost use Rattle.libspa.specs.Complete.{RefusesAtLimit};
ghost use Rattle.libspa.specs.Encoding.{encoding_of};
ghost use Rattle.libspa.specs.Kind as kind;
ghost use Rattle.libspa.specs.Listed.{optional_property};
ghost use Rattle.libspa.specs.Tree.{array, fixed, no_properties, object, property};
ghost use Rattle.libspa.specs.Writable.{IsWritable};
ghost use Rattle.spa_names.specs.declared.ids.TheConstants as ids;
ghost use Rattle.spa_names.specs.declared.keys.TheConstants as keys;
ghost use Rattle.spa_names.specs.declared.types.TheConstants as types;
ghost use Rattle.example_types.specs.declared.format.TheConstants.{CURVE};

use crate::curve::Curve;
use arrayvec::ArrayVec;
use libspa::pod::deserialize::{DeserializeAs, ObjectOf, Optional, Required};
use libspa::pod::serialize::{GenError, Maybe, PodOutput, SerializeAs, laws, write_object};
use libspa::utils::Id;
use spa_names::{ids, keys, types};

/// The key of the curve, which is a program's own.
const CURVE: u32 = 65550;

/// An audio format.
#[derive(Drop)]
pub struct AudioFormat {
    pub encoding: Id,
    pub rate: i32,
    pub channels: Option<i32>,
    pub positions: Vec<Id>,
    pub curve: Curve,
}

type Last = (
    Required<{ keys::FORMAT_AUDIO_POSITION }, Vec<Id>>,
    (Required<CURVE, Curve>, ()),
);

type Behind = (
    Required<{ keys::FORMAT_AUDIO_RATE }, i32>,
    (Optional<{ keys::FORMAT_AUDIO_CHANNELS }, i32>, Last),
);

type Properties = (Required<{ keys::FORMAT_AUDIO_FORMAT }, Id>, Behind);

/// Read as a format with these properties in any order, and refused exactly where no such object is there.
impl DeserializeAs for AudioFormat {
    type Content = ObjectOf<{ types::OBJECT_FORMAT }, { ids::PARAM_FORMAT }, Properties>;

    ghost content = { λ f. record {
      0 = (
        record { 0 = f.encoding },
        (
          record { 0 = f.rate },
          (record { 0 = f.channels }, (record { 0 = f.positions }, (record { 0 = f.curve }, tt))),
        ),
      );
    } };

    fn of_content(ObjectOf(all): Self::Content) -> AudioFormat {
        let (encoding, (rate, (channels, (positions, (curve, ()))))) = all;
        AudioFormat {
            encoding: encoding.0,
            rate: rate.0,
            channels: channels.0,
            positions: positions.0,
            curve: curve.0,
        }
    }
}

/// Written as this object, its properties in this order, wherever it can be.
impl SerializeAs for AudioFormat {
    ghost says = { λ f. object types.OBJECT_FORMAT ids.PARAM_FORMAT
        (property keys.FORMAT_AUDIO_FORMAT 0 (fixed (kind.id f.encoding.0))
        (property keys.FORMAT_AUDIO_RATE 0 (fixed (kind.int f.rate))
        (optional_property keys.FORMAT_AUDIO_CHANNELS (λ n. fixed (kind.int n)) f.channels
        (property keys.FORMAT_AUDIO_POSITION 0 (array kind.id_kind (map (λ x. kind.id x.0) f.positions.items))
        (property CURVE 0 (⟦<Curve as SerializeAs>⟧.says f.curve) no_properties))))) };

    fn write_as<O: PodOutput>(&self, out: &mut O) -> Result<(), GenError> {
        let last = ((CURVE, &self.curve), ());
        let last = ((keys::FORMAT_AUDIO_POSITION, &self.positions), last);
        let last = ((keys::FORMAT_AUDIO_CHANNELS, Maybe(&self.channels)), last);
        let behind = ((keys::FORMAT_AUDIO_RATE, &self.rate), last);
        let properties = ((keys::FORMAT_AUDIO_FORMAT, &self.encoding), behind);
        write_object(out, types::OBJECT_FORMAT, ids::PARAM_FORMAT, &properties)
    }
}

/// The encoding of a format behind what the output holds, and its length: exactly where it can be written and fits.
pub fn put_format<const N: usize>(
    out: ArrayVec<u8, N>,
    format: &AudioFormat,
) -> Result<(ArrayVec<u8, N>, u64), GenError>
    ensures encoding { IfOk result
        (λ done. done.0.items ≡ out.entry.items ++ encoding_of (⟦<AudioFormat as SerializeAs>⟧.says format.now)) }
    ensures count { IfOk result
        (λ done. done.1 ≡ length (encoding_of (⟦<AudioFormat as SerializeAs>⟧.says format.now))) }
    ensures writable { IsOk result → IsWritable (⟦<AudioFormat as SerializeAs>⟧.says format.now) }
    ensures room { IsWritable (⟦<AudioFormat as SerializeAs>⟧.says format.now)
        → length out.entry.items + length (encoding_of (⟦<AudioFormat as SerializeAs>⟧.says format.now)) ≤ N
        → IsOk result }
    ensures cause { IfErr result (RefusesAtLimit (length out.entry.items) N
        (⟦<AudioFormat as SerializeAs>⟧.says format.now)) }
{
    laws::declared_pods_are_written_where_they_fit(out, format)
}
