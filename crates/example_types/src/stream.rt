//! An object whose properties are read settled: also where fixation left None choices in it.
ghost use Rattle.std.specs.Prelude.{◌≡◌, List, ℕ, IfErr, IfOk};
ghost use Rattle.libspa.specs.Exactly.{RefusesExactly};
ghost use Rattle.libspa.specs.Kind.{Fixed, Kind};
ghost use Rattle.libspa.specs.Lookup.{HasFirst};
ghost use Rattle.libspa.specs.Reading.{IsRead};
ghost use Rattle.libspa.specs.Tree.{Properties, choice, object, range_choice};
ghost use Rattle.spa_names.specs.declared.ids.TheConstants as ids;
ghost use Rattle.spa_names.specs.declared.keys.TheConstants as keys;
ghost use Rattle.spa_names.specs.declared.types.TheConstants as types;
ghost use Rattle.example_types.specs.Stream.{IsStreamFormat};
ghost use Rattle.example_types.specs.declared.stream.StreamFormat.{StreamFormat};

use libspa::pod::deserialize::{
    DeserializeAs, DeserializeError, ExactDeserialize, ObjectOf, PodDeserializer, Required,
    Settled, laws,
};
use libspa::utils::Id;
use spa_names::{ids, keys, types};
use std::alloc::Global;

/// The format of a stream of samples.
#[derive(Clone, Copy)]
pub struct StreamFormat {
    /// How a sample is encoded: one of `spa_names::formats`.
    pub encoding: Id,
    /// Samples a second of each channel.
    pub rate: i32,
    /// How many channels there are.
    pub channels: i32,
}

/// The properties that it is read from.
type Properties = (
    Required<{ keys::FORMAT_AUDIO_FORMAT }, Settled<Id>>,
    (
        Required<{ keys::FORMAT_AUDIO_RATE }, Settled<i32>>,
        (Required<{ keys::FORMAT_AUDIO_CHANNELS }, Settled<i32>>, ()),
    ),
);

/// Read as a format with these properties in any order, each a value or a None choice of one.
impl DeserializeAs for StreamFormat {
    type Content = ObjectOf<{ types::OBJECT_FORMAT }, { ids::PARAM_FORMAT }, Properties>;

    ghost content = { λ it. record {
      0 = (
        record { 0 = record { 0 = it.encoding } },
        (record { 0 = record { 0 = it.rate } }, (record { 0 = record { 0 = it.channels } }, tt)),
      );
    } };

    fn of_content(ObjectOf((encoding, (rate, (channels, ())))): Self::Content) -> StreamFormat {
        StreamFormat {
            encoding: encoding.0.0,
            rate: rate.0.0,
            channels: channels.0.0,
        }
    }
}

/// The format at the front of the input, and what follows it.
pub fn read_stream_format(
    alloc: Global,
    input: &[u8],
) -> Result<(&[u8], StreamFormat), DeserializeError<&[u8]>>
    ensures read { IfOk result (λ read. IsRead input.now read.0.now (λ value. IsStreamFormat value read.1)) }
    // But for lack of memory it is refused only where no such format is there: where a property is missing, is of another type, or is a
    // choice that isn't fixated.
    ensures exactly { IfErr result (RefusesExactly IsStreamFormat
        (⟦<StreamFormat as ExactDeserialize<'static>>⟧.takes_memory input.now) input.now) }
{
    laws::exact_types_come_back::<StreamFormat>();
    PodDeserializer::deserialize_from(alloc, input)
}

/// A format that offers a range of rates is no stream's.
pub fn ranges_of_rates_are_refused()
    ensures { (it : StreamFormat) (ps : Properties) (f : ℕ) (k : Kind) (x : Fixed) (xs : List Fixed)
        → HasFirst keys.FORMAT_AUDIO_RATE (λ v. v ≡ choice range_choice f k x xs) ps
        → ¬ (IsStreamFormat (object types.OBJECT_FORMAT ids.PARAM_FORMAT ps) it) }
{}
