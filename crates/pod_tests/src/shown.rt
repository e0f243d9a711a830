//! Inputs shown, and params read.
use crate::streams::{Broken, INPUT_WANTING, NO_SCREEN, WANTING};
use pod_commands::answer::report;
use pod_commands::run::{Start, run};
use spa_meet_commands::progress::Unwatched;
use std::alloc::{AllocError, Global};
use std::io::ErrorKind;
use test_bytes::nested_structs;
use test_bytes::streams::{ALL, Device, PIECE, Source};

/// What is wanted of a run: the end of what it writes, what it says, and its status.
type Wanted<'a> = (&'a [u8], &'a [u8], u8);

/// Whether a run of these words answers so over this input, with this room for what it writes, unless it says that memory is wanting.
fn answers(
    rt: &HostRuntime,
    words: &[&str],
    mut source: Source<'_>,
    room: &mut [u8],
    wanted: Wanted<'_>,
) -> Result<bool, AllocError> {
    let device = Device::new(room, ALL);
    let start = Start {
        words,
        screen: NO_SCREEN,
    };
    let (answer, mut device) = run(
        rt.alloc(),
        start,
        &mut source,
        &mut Broken,
        &mut Unwatched,
        device,
    );
    let mut line = [0; 120];
    let mut faults = Device::new(&mut line, PIECE);
    let is_reported = report(&mut device, &mut faults, &answer).is_ok();
    if faults.taken() == WANTING.as_bytes() || faults.taken() == INPUT_WANTING.as_bytes() {
        return Err(AllocError);
    }
    let (end, said, status) = wanted;
    let is_said = is_reported && faults.taken() == said && answer.status() == status;
    Ok(is_said && device.taken().ends_with(end))
}

#[test]
fn an_input_that_breaks_off_is_refused(rt: HostRuntime) -> Result<(), AllocError> {
    let source = Source::broken(&[0, 0, 0, 0, 1, 0, 0, 0], ErrorKind::Other, PIECE);
    // What was read is shown.
    let holds = answers(
        &rt,
        &["show"],
        source,
        &mut [0; 100],
        (
            b"pod 1, byte 0\nNone: size 0\n",
            b"pod: standard input: read failed\n",
            1,
        ),
    )?;
    assert!(rt; holds);
    Ok(())
}

/// So many pods None and one of no type are more than two blocks.
const COUNT: usize = 20_000;

/// The pod of no type, and what is shown of it at the end: its number and its byte, also behind blocks.
const WRONG: [u8; 8] = [0, 0, 0, 0, 99, 0, 0, 0];

const SHOWN: &[u8] = b"pod 20001, byte 160000\nType 99: size 0\n! byte 160000: InvalidType\n";

/// Whether `show` counts pods and bytes over several blocks, and the refused one.
fn are_blocks_shown(rt: &HostRuntime) -> Result<bool, AllocError> {
    let mut given = Vec::new(rt.alloc());
    for _ in 0..COUNT {
        given.extend_from_slice(&[0, 0, 0, 0, 1, 0, 0, 0])?;
    }
    given.extend_from_slice(&WRONG)?;
    let mut room = vec![in rt.alloc(); 0; COUNT * 50]?;
    let source = Source::whole(given.as_slice(), ALL);
    let wanted: Wanted<'_> = (SHOWN, b"pod: refused pods: 1\n", 1);
    answers(rt, &["show"], source, room.as_mut_slice(), wanted)
}

#[test]
fn blocks_are_shown(rt: HostRuntime) -> Result<(), AllocError> {
    let holds = are_blocks_shown(&rt)?;
    assert!(rt; holds);
    Ok(())
}

/// How many levels the deepest pod has.
const LEVELS: u32 = 100_000;

/// Room for this many lines, whose length doesn't grow with their depth.
const ROOM: usize = LEVELS as usize * 120;

/// Whether `show` shows this many levels.
fn is_deep_shown(rt: &HostRuntime) -> Result<bool, AllocError> {
    let bytes = nested_structs(rt.alloc(), LEVELS - 1, &[0, 14])?;
    let mut room = vec![in rt.alloc(); 0; ROOM]?;
    let source = Source::whole(bytes.as_slice(), ALL);
    let wanted: Wanted<'_> = (b"(99999) Struct: size 0\n", b"", 0);
    answers(rt, &["show"], source, room.as_mut_slice(), wanted)
}

#[test]
fn deep_pods_are_shown(rt: HostRuntime) -> Result<(), AllocError> {
    let holds = is_deep_shown(&rt)?;
    assert!(rt; holds);
    Ok(())
}

/// Whether `show` shows so many levels without the innermost one, whose eight bytes aren't there.
fn is_deep_cut_shown(rt: &HostRuntime) -> Result<bool, AllocError> {
    let bytes = nested_structs(rt.alloc(), LEVELS - 1, &[0, 14])?;
    let there = bytes.len().saturating_sub(8);
    let mut room = vec![in rt.alloc(); 0; ROOM]?;
    let source = Source::whole(&bytes.as_slice()[..there], ALL);
    let wanted: Wanted<'_> = (
        b"(99998) Struct: size 0\n.. cut: 799992 of 800000 bytes are there\n",
        b"pod: standard input: pod 1 (Struct), byte 0: the bytes are cut short: 799992 of 800000 are there (Short)\n",
        1,
    );
    answers(rt, &["show"], source, room.as_mut_slice(), wanted)
}

#[test]
fn deep_pods_that_are_cut_are_shown(rt: HostRuntime) -> Result<(), AllocError> {
    let holds = is_deep_cut_shown(&rt)?;
    assert!(rt; holds);
    Ok(())
}

/// Two params as pw-dump prints them: one without properties, and one whose channels are an Enum.
const PARAMS: &[u8] = b"[{},\n{\"channels\":{\"default\":2,\"alt1\":1}}]\n";

/// The pod of the second as a format among those that may be chosen: type 0x40003, id 3, key 0x10004.
const SECOND_PARAM: [u8; 56] = [
    48, 0, 0, 0, 15, 0, 0, 0, 3, 0, 4, 0, 3, 0, 0, 0, 4, 0, 1, 0, 0, 0, 0, 0, 24, 0, 0, 0, 19, 0,
    0, 0, 3, 0, 0, 0, 0, 0, 0, 0, 4, 0, 0, 0, 4, 0, 0, 0, 2, 0, 0, 0, 1, 0, 0, 0,
];

#[test]
fn params_are_read(rt: HostRuntime) -> Result<(), AllocError> {
    let words = [
        "read",
        "--pw-dump",
        "--type",
        "Format",
        "--id",
        "EnumFormat",
    ];
    let source = Source::whole(PARAMS, PIECE);
    let wanted: Wanted<'_> = (&SECOND_PARAM, b"", 0);
    let holds = answers(&rt, &words, source, &mut [0; 100], wanted)?;
    assert!(rt; holds);
    Ok(())
}
