//! Streams that break off, are full, or can't be flushed.
use spa_pod_commands::run::run;
use std::alloc::{AllocError, Global};
use std::io::ErrorKind;
use std::process::Abort;
use test_bytes::streams::{Device, PIECE, Source};

/// What is said where memory is refused.
const WANTING: &str = "podtool: out of memory\n";

/// What is wanted of a run: its status, what it says, and what it writes.
pub(crate) type Wanted<'a> = (u8, &'a str, &'a [u8]);

/// Compares the run of a word with what is wanted. Where memory is refused it says so and writes nothing, which is the test's error.
pub(crate) fn assert_run(
    rt: &impl Abort,
    alloc: Global,
    word: &str,
    mut input: Source<'_>,
    mut output: Device<'_>,
    mut faults: Device<'_>,
    wanted: Wanted<'_>,
) -> Result<(), AllocError> {
    let status = run(alloc, &[word], &mut input, &mut output, &mut faults);
    let is_refused = faults.taken() == WANTING.as_bytes() && wanted.1 != WANTING;
    let (its, said, written) = if is_refused {
        (1, WANTING, &[][..])
    } else {
        wanted
    };
    assert_eq!(rt; status, its, "the status of {word}");
    assert_eq!(rt; faults.taken(), said.as_bytes(), "what {word} says");
    assert_eq!(rt; output.taken(), written, "what {word} writes");
    if is_refused {
        return Err(AllocError);
    }
    Ok(())
}

/// One Int pod.
const INT: [u8; 16] = [4, 0, 0, 0, 4, 0, 0, 0, 3, 0, 0, 0, 0, 0, 0, 0];

/// The three words of the program, and what each writes of an Int.
const WORDS: &[(&str, &[u8])] = &[("rewrite", &INT), ("fixate", &INT), ("show", b"0 4 4\n")];

/// Those words. This function alone names them: one that does is proved with all of them.
fn words() -> &'static [(&'static str, &'static [u8])] {
    WORDS
}

/// More bytes than any of these runs writes, or says.
const ROOM: usize = 100;

/// Compares the run of a word over these bytes, or over a source that breaks off behind an Int, whose output is a device.
fn assert_said(
    rt: &impl Abort,
    alloc: Global,
    word: &str,
    input: Source<'_>,
    output: Device<'_>,
    wanted: Wanted<'_>,
) -> Result<(), AllocError> {
    let mut room = [0; ROOM];
    let faults = Device::new(&mut room, PIECE);
    assert_run(rt, alloc, word, input, output, faults, wanted)
}

/// Compares what a word says of a source that breaks off.
fn assert_broken(
    rt: &impl Abort,
    alloc: Global,
    word: &str,
    refusal: ErrorKind,
    line: &str,
) -> Result<(), AllocError> {
    let mut room = [0; ROOM];
    let output = Device::new(&mut room, PIECE);
    let input = Source::broken(&INT, refusal, PIECE);
    assert_said(rt, alloc, word, input, output, (1, line, &[]))
}

#[test]
fn sources_break_off(rt: HostRuntime) -> Result<(), AllocError> {
    for (word, _) in words() {
        let line = "podtool: read failed\n";
        assert_broken(&rt, rt.alloc(), word, ErrorKind::UnexpectedEof, line)?;
        assert_broken(&rt, rt.alloc(), word, ErrorKind::OutOfMemory, WANTING)?;
    }
    Ok(())
}

/// What is said where a write is refused.
const FAILED: &str = "podtool: write failed\n";

/// Compares what a word writes of these bytes to a device that can't be flushed.
fn assert_unflushed(
    rt: &impl Abort,
    alloc: Global,
    word: &str,
    given: &[u8],
    wanted: &[u8],
) -> Result<(), AllocError> {
    let mut room = [0; ROOM];
    let output = Device::unflushed(&mut room, PIECE);
    let input = Source::whole(given, PIECE);
    assert_said(rt, alloc, word, input, output, (1, FAILED, wanted))
}

#[test]
fn outputs_are_not_flushed(rt: HostRuntime) -> Result<(), AllocError> {
    for (word, written) in words() {
        assert_unflushed(&rt, rt.alloc(), word, &[], &[])?;
        assert_unflushed(&rt, rt.alloc(), word, &INT, written)?;
    }
    Ok(())
}

/// Compares what a word writes of an Int to a device that takes the first bytes of this alone, as many as are said.
fn assert_full(
    rt: &impl Abort,
    alloc: Global,
    word: &str,
    written: &[u8],
    count: usize,
) -> Result<(), AllocError> {
    let (taken, _) = written.split_at(count.min(written.len()));
    let mut room = [0; ROOM];
    let (room, _) = room.split_at_mut(count.min(ROOM));
    let output = Device::new(room, PIECE);
    let input = Source::whole(&INT, PIECE);
    assert_said(rt, alloc, word, input, output, (1, FAILED, taken))
}

#[test]
fn outputs_are_full(rt: HostRuntime) -> Result<(), AllocError> {
    for (word, written) in words() {
        for count in 0..6 {
            assert_full(&rt, rt.alloc(), word, written, count)?;
        }
    }
    Ok(())
}

/// Words, their status for a byte that is no pod, and the three bytes of it for which there is room.
const CUT: &[(&str, u8, &str)] = &[
    ("rewrite", 1, "pod"),
    ("fixate", 1, "pod"),
    ("show", 1, "pod"),
    ("other", 2, "usa"),
];

/// Compares what a word says of a byte that is no pod where there is room for three bytes of it.
fn assert_cut(
    rt: &impl Abort,
    alloc: Global,
    (word, status, said): (&str, u8, &str),
) -> Result<(), AllocError> {
    let (mut room, mut line_room) = ([0; ROOM], [0; 3]);
    let output = Device::new(&mut room, PIECE);
    let faults = Device::new(&mut line_room, PIECE);
    let input = Source::whole(&[1], PIECE);
    assert_run(rt, alloc, word, input, output, faults, (status, said, &[]))
}

#[test]
fn refusals_that_cannot_be_said_change_nothing(rt: HostRuntime) -> Result<(), AllocError> {
    for row in CUT {
        assert_cut(&rt, rt.alloc(), *row)?;
    }
    Ok(())
}
