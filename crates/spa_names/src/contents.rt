// Written by tables/generate.py from the headers of PipeWire 0.3.65. Do not edit.
//! The contents of the tables.
ghost use Rattle.std.specs.Prelude.{◌≡◌, map};
ghost use Rattle.spa_names.specs.Rows.{naming_of, row_of};
ghost use Rattle.spa_names.specs.Tables.{aliases_of, id_rows_of, rows_of};

use crate::entry::{Entry, Naming};
use crate::table::Table;
use crate::{aliases, id_entries, key_entries};

/// The entries of a table, by their numbers.
pub(crate) fn entries_of(table: Table) -> &'static [Entry]
    ensures { map row_of result.now ≡ rows_of table }
{
    match table {
        Table::DeviceKeys => key_entries::ENTRIES_OF_DEVICE_KEYS,
        Table::NodeKeys => key_entries::ENTRIES_OF_NODE_KEYS,
        Table::CommandNodeKeys => key_entries::ENTRIES_OF_COMMAND_NODE_KEYS,
        Table::PropInfoKeys => key_entries::ENTRIES_OF_PROP_INFO_KEYS,
        Table::PropsKeys => key_entries::ENTRIES_OF_PROPS_KEYS,
        Table::FormatKeys => key_entries::ENTRIES_OF_FORMAT_KEYS,
        Table::BuffersKeys => key_entries::ENTRIES_OF_BUFFERS_KEYS,
        Table::ParamMetaKeys => key_entries::ENTRIES_OF_PARAM_META_KEYS,
        Table::IOKeys => key_entries::ENTRIES_OF_IOKEYS,
        Table::ProfileKeys => key_entries::ENTRIES_OF_PROFILE_KEYS,
        Table::PortConfigKeys => key_entries::ENTRIES_OF_PORT_CONFIG_KEYS,
        Table::RouteKeys => key_entries::ENTRIES_OF_ROUTE_KEYS,
        Table::ProfilerKeys => key_entries::ENTRIES_OF_PROFILER_KEYS,
        Table::LatencyKeys => key_entries::ENTRIES_OF_LATENCY_KEYS,
        Table::ProcessLatencyKeys => key_entries::ENTRIES_OF_PROCESS_LATENCY_KEYS,
        _ => id_entries_of(table),
    }
}

/// The entries of a table of types or ids; of any other none.
fn id_entries_of(table: Table) -> &'static [Entry]
    ensures { map row_of result.now ≡ id_rows_of table }
{
    match table {
        Table::Types => id_entries::ENTRIES_OF_TYPES,
        Table::Choices => id_entries::ENTRIES_OF_CHOICES,
        Table::Controls => id_entries::ENTRIES_OF_CONTROLS,
        Table::DeviceEventId => id_entries::ENTRIES_OF_DEVICE_EVENT_ID,
        Table::Node => id_entries::ENTRIES_OF_NODE,
        Table::CommandNode => id_entries::ENTRIES_OF_COMMAND_NODE,
        Table::ParamId => id_entries::ENTRIES_OF_PARAM_ID,
        Table::BluetoothAudioCodec => id_entries::ENTRIES_OF_BLUETOOTH_AUDIO_CODEC,
        Table::MediaType => id_entries::ENTRIES_OF_MEDIA_TYPE,
        Table::MediaSubtype => id_entries::ENTRIES_OF_MEDIA_SUBTYPE,
        Table::AudioFormat => id_entries::ENTRIES_OF_AUDIO_FORMAT,
        Table::AudioFlags => id_entries::ENTRIES_OF_AUDIO_FLAGS,
        Table::AudioIEC958Codec => id_entries::ENTRIES_OF_AUDIO_IEC958_CODEC,
        Table::ParamBitorder => id_entries::ENTRIES_OF_PARAM_BITORDER,
        Table::AudioAACStreamFormat => id_entries::ENTRIES_OF_AUDIO_AACSTREAM_FORMAT,
        Table::AudioWMAProfile => id_entries::ENTRIES_OF_AUDIO_WMAPROFILE,
        Table::AudioAMRBandMode => id_entries::ENTRIES_OF_AUDIO_AMRBAND_MODE,
        Table::VideoFormat => id_entries::ENTRIES_OF_VIDEO_FORMAT,
        Table::VideoInterlaceMode => id_entries::ENTRIES_OF_VIDEO_INTERLACE_MODE,
        Table::Meta => id_entries::ENTRIES_OF_META,
        Table::IO => id_entries::ENTRIES_OF_IO,
        Table::ParamAvailability => id_entries::ENTRIES_OF_PARAM_AVAILABILITY,
        Table::Direction => id_entries::ENTRIES_OF_DIRECTION,
        Table::ParamPortConfigMode => id_entries::ENTRIES_OF_PARAM_PORT_CONFIG_MODE,
        Table::AudioChannel => id_entries::ENTRIES_OF_AUDIO_CHANNEL,
        _ => &[],
    }
}

/// The further names of numbers in a table.
pub(crate) fn aliases_of(table: Table) -> &'static [Naming]
    ensures { map naming_of result.now ≡ aliases_of table }
{
    match table {
        Table::AudioFormat => aliases::ALIASES_OF_AUDIO_FORMAT,
        _ => &[],
    }
}
