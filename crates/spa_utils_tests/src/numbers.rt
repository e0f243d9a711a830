//! The constants of PipeWire's numbers, by the names that its type tables give these.
use crate::compare::assert_same;
use spa_names::{Table, formats, ids, keys, path_of, shapes, types};

/// Each a table, a constant of one of its numbers, and PipeWire's name for that.
const NAMED: &[(Table, u32, &str)] = &[
    (
        Table::Types,
        types::OBJECT_FORMAT,
        "Spa:Pod:Object:Param:Format",
    ),
    (
        Table::Types,
        types::OBJECT_PARAM_ROUTE,
        "Spa:Pod:Object:Param:Route",
    ),
    (
        Table::Types,
        types::COMMAND_NODE,
        "Spa:Pod:Object:Command:Node",
    ),
    (Table::Choices, shapes::NONE, "Spa:Enum:Choice:None"),
    (Table::Choices, shapes::FLAGS, "Spa:Enum:Choice:Flags"),
    (
        Table::FormatKeys,
        keys::FORMAT_AUDIO_RATE,
        "Spa:Pod:Object:Param:Format:Audio:rate",
    ),
    (
        Table::FormatKeys,
        keys::FORMAT_VIDEO_SIZE,
        "Spa:Pod:Object:Param:Format:Video:size",
    ),
    (
        Table::PropsKeys,
        keys::PROP_VOLUME,
        "Spa:Pod:Object:Param:Props:volume",
    ),
    (
        Table::BuffersKeys,
        keys::PARAM_BUFFERS_SIZE,
        "Spa:Pod:Object:Param:Buffers:BlockInfo:size",
    ),
    (
        Table::RouteKeys,
        keys::PARAM_ROUTE_NAME,
        "Spa:Pod:Object:Param:Route:name",
    ),
    (
        Table::ParamId,
        ids::PARAM_ENUM_FORMAT,
        "Spa:Enum:ParamId:EnumFormat",
    ),
    (
        Table::AudioChannel,
        ids::AUDIO_CHANNEL_FL,
        "Spa:Enum:AudioChannel:FL",
    ),
    (
        Table::AudioFormat,
        formats::AUDIO_FORMAT_S16_LE,
        "Spa:Enum:AudioFormat:S16LE",
    ),
    (
        Table::VideoFormat,
        formats::VIDEO_FORMAT_I420,
        "Spa:Enum:VideoFormat:I420",
    ),
];

/// Those rows. This function alone names them: one that does is proved with all of them.
fn named_numbers() -> &'static [(Table, u32, &'static str)] {
    NAMED
}

#[test]
fn constants_have_their_names(rt: HostRuntime) {
    for (table, number, name) in named_numbers() {
        assert_same(&rt, &path_of(*table, *number), &Some(*name), *name);
    }
}
