//! Inputs that are written of as they come.
use crate::streams::{Broken, NO_SCREEN, WANTING};
use pod_commands::answer::report;
use pod_commands::run::{Start, run};
use spa_meet_commands::progress::Unwatched;
use std::alloc::{AllocError, Global};
use test_bytes::streams::{ALL, Device, PIECE, Source};

/// A struct of a Bool of 7 with padding that is no zeros, which is rewritten as `CLEAN`. A block ends within one of them,
/// since 24 doesn't divide 65536.
const PADDED: [u8; 24] = [
    16, 0, 0, 0, 14, 0, 0, 0, 4, 0, 0, 0, 2, 0, 0, 0, 7, 0, 0, 0, 9, 9, 9, 9,
];

const CLEAN: [u8; 24] = [
    16, 0, 0, 0, 14, 0, 0, 0, 4, 0, 0, 0, 2, 0, 0, 0, 1, 0, 0, 0, 0, 0, 0, 0,
];

/// An Int of eight bytes, which is no pod.
const WRONG: [u8; 16] = [8, 0, 0, 0, 4, 0, 0, 0, 3, 0, 0, 0, 0, 0, 0, 0];

/// So many of them are more than two blocks.
const COUNT: usize = 6000;

/// What is wanted of a run: what it writes, what it says, and its status.
type Wanted<'a> = (&'a [u8], &'a [u8], u8);

/// Whether a run by these words answers so over this input, unless it says that memory is wanting and has written a beginning of that.
fn streams(
    rt: &HostRuntime,
    words: &[&str],
    mut source: Source<'_>,
    room: &mut [u8],
    wanted: Wanted<'_>,
) -> Result<bool, AllocError> {
    let device = Device::new(room, ALL);
    let start = Start {
        words,
        screen: NO_SCREEN,
    };
    let (answer, mut device) = run(
        rt.alloc(),
        start,
        &mut source,
        &mut Broken,
        &mut Unwatched,
        device,
    );
    let mut line = [0; 200];
    let mut faults = Device::new(&mut line, PIECE);
    let is_reported = report(&mut device, &mut faults, &answer).is_ok();
    let (written, said, status) = wanted;
    if faults.taken() == WANTING.as_bytes() && written.starts_with(device.taken()) {
        return Err(AllocError);
    }
    let is_said = is_reported && faults.taken() == said && answer.status() == status;
    Ok(is_said && device.taken() == written)
}

/// So many times these bytes.
fn times(alloc: Global, bytes: &[u8], count: usize) -> Result<Vec<u8>, AllocError> {
    let mut all = Vec::new(alloc);
    for _ in 0..count {
        all.extend_from_slice(bytes)?;
    }
    Ok(all)
}

/// What is said of `WRONG` behind so many of `PADDED`.
const REFUSED: &[u8] =
    b"pod: standard input: pod 6001 (Int), byte 144000: a body or the size of elements isn't as long as its type's (WrongSize)\n";

/// Whether all pods of several blocks are rewritten that come in pieces of so many bytes, and the first refused one is named.
fn are_blocks_rewritten(rt: &HostRuntime, piece: usize) -> Result<bool, AllocError> {
    let mut given = times(rt.alloc(), &PADDED, COUNT)?;
    let mut room = times(rt.alloc(), &[0], COUNT * PADDED.len())?;
    let written = times(rt.alloc(), &CLEAN, COUNT)?;
    let source = Source::whole(given.as_slice(), piece);
    let all: Wanted<'_> = (written.as_slice(), b"", 0);
    let holds = streams(
        rt,
        &["rewrite", "--stream"],
        source,
        room.as_mut_slice(),
        all,
    )?;
    given.extend_from_slice(&WRONG)?;
    given.extend_from_slice(&PADDED)?;
    let source = Source::whole(given.as_slice(), piece);
    let some: Wanted<'_> = (written.as_slice(), REFUSED, 1);
    Ok(
        streams(
            rt,
            &["rewrite", "--stream"],
            source,
            room.as_mut_slice(),
            some,
        )? && holds,
    )
}

/// Whether all pods of several blocks are checked, and the first refused one is named.
fn are_blocks_checked(rt: &HostRuntime) -> Result<bool, AllocError> {
    let mut given = times(rt.alloc(), &PADDED, COUNT)?;
    let source = Source::whole(given.as_slice(), ALL);
    let holds = streams(rt, &["check"], source, &mut [], (b"", b"", 0))?;
    given.extend_from_slice(&WRONG)?;
    given.extend_from_slice(&PADDED)?;
    let source = Source::whole(given.as_slice(), ALL);
    Ok(streams(rt, &["check"], source, &mut [], (b"", REFUSED, 1))? && holds)
}

#[test]
fn blocks_are_checked(rt: HostRuntime) -> Result<(), AllocError> {
    let holds = are_blocks_checked(&rt)?;
    assert!(rt; holds);
    Ok(())
}

/// The text of `PADDED`.
const TEXT: &[u8] = b"[true]\n";

/// Whether the texts are printed of all pods of several blocks.
fn are_blocks_printed(rt: &HostRuntime) -> Result<bool, AllocError> {
    let given = times(rt.alloc(), &PADDED, COUNT)?;
    let mut room = times(rt.alloc(), &[0], COUNT * TEXT.len())?;
    let written = times(rt.alloc(), TEXT, COUNT)?;
    let source = Source::whole(given.as_slice(), ALL);
    let all: Wanted<'_> = (written.as_slice(), b"", 0);
    streams(rt, &["json", "--stream"], source, room.as_mut_slice(), all)
}

#[test]
fn blocks_are_printed(rt: HostRuntime) -> Result<(), AllocError> {
    let holds = are_blocks_printed(&rt)?;
    assert!(rt; holds);
    Ok(())
}

#[test]
fn blocks_are_rewritten(rt: HostRuntime) -> Result<(), AllocError> {
    let holds = are_blocks_rewritten(&rt, ALL)?;
    assert!(rt; holds);
    Ok(())
}

#[test]
fn blocks_in_pieces_are_rewritten(rt: HostRuntime) -> Result<(), AllocError> {
    let holds = are_blocks_rewritten(&rt, PIECE)?;
    assert!(rt; holds);
    Ok(())
}

/// A None choice over an array of the Ints 1 and 2, which conveys that array; a block ends within one of them, too.
const WRAPPED: [u8; 40] = [
    32, 0, 0, 0, 19, 0, 0, 0, 0, 0, 0, 0, 0, 0, 0, 0, 16, 0, 0, 0, 13, 0, 0, 0, 4, 0, 0, 0, 4, 0,
    0, 0, 1, 0, 0, 0, 2, 0, 0, 0,
];

const UNWRAPPED: [u8; 24] = [
    16, 0, 0, 0, 13, 0, 0, 0, 4, 0, 0, 0, 4, 0, 0, 0, 1, 0, 0, 0, 2, 0, 0, 0,
];

/// What is said of `WRONG` behind so many of `WRAPPED`.
const REFUSED_LENIENTLY: &[u8] =
    b"pod: standard input: pod 6001 (Int), byte 240000: a body or the size of elements isn't as long as its type's (WrongSize)\n";

/// What is shown of the last of so many of `WRAPPED`: its byte is that of the encodings.
const LAST_SHOWN: &[u8] =
    b"pod 6000, byte 143976\nArray: child.size 4, child.type Spa:Int\n  Int 1\n  Int 2\n";

/// Whether the pods of several blocks are read leniently, and the first that conveys nothing is named.
fn are_blocks_read_leniently(rt: &HostRuntime, piece: usize) -> Result<bool, AllocError> {
    let mut given = times(rt.alloc(), &WRAPPED, COUNT)?;
    given.extend_from_slice(&WRONG)?;
    given.extend_from_slice(&WRAPPED)?;
    let mut room = times(rt.alloc(), &[0], COUNT * UNWRAPPED.len())?;
    let written = times(rt.alloc(), &UNWRAPPED, COUNT)?;
    let source = Source::whole(given.as_slice(), piece);
    let some: Wanted<'_> = (written.as_slice(), REFUSED_LENIENTLY, 1);
    let holds = streams(
        rt,
        &["rewrite", "--stream", "--lenient"],
        source,
        room.as_mut_slice(),
        some,
    )?;
    let source = Source::whole(given.as_slice(), piece);
    Ok(
        streams(
            rt,
            &["show", "--stream", "--lenient", "--nth", "6000"],
            source,
            room.as_mut_slice(),
            (LAST_SHOWN, REFUSED_LENIENTLY, 1),
        )? && holds,
    )
}

#[test]
fn blocks_are_read_leniently(rt: HostRuntime) -> Result<(), AllocError> {
    let holds = are_blocks_read_leniently(&rt, ALL)?;
    assert!(rt; holds);
    Ok(())
}

#[test]
fn blocks_in_pieces_are_read_leniently(rt: HostRuntime) -> Result<(), AllocError> {
    let holds = are_blocks_read_leniently(&rt, PIECE)?;
    assert!(rt; holds);
    Ok(())
}

/// The header of a Bytes pod with a body of 99,999 bytes, behind which one byte of padding stands.
const LONG: [u8; 8] = [159, 134, 1, 0, 9, 0, 0, 0];

/// Whether a pod is rewritten that is longer than a block, and one behind it.
fn is_long_rewritten(rt: &HostRuntime) -> Result<bool, AllocError> {
    let mut given = times(rt.alloc(), &LONG, 1)?;
    given.resize(100_008, 5)?;
    let mut written = times(rt.alloc(), given.as_slice(), 1)?;
    written.truncate(100_007);
    written.push(0)?;
    given.extend_from_slice(&PADDED)?;
    written.extend_from_slice(&CLEAN)?;
    let mut room = times(rt.alloc(), &[0], given.len())?;
    let source = Source::whole(given.as_slice(), ALL);
    let wanted: Wanted<'_> = (written.as_slice(), b"", 0);
    streams(
        rt,
        &["rewrite", "--stream"],
        source,
        room.as_mut_slice(),
        wanted,
    )
}

#[test]
fn long_pods_are_rewritten(rt: HostRuntime) -> Result<(), AllocError> {
    let holds = is_long_rewritten(&rt)?;
    assert!(rt; holds);
    Ok(())
}
