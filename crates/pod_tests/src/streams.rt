//! Streams and files that break off, are full, or can't be flushed.
use pod_commands::answer::report;
use pod_commands::files::Files;
use pod_commands::run::{Start, run};
use pod_commands::screen::Screen;
use spa_meet_commands::progress::Unwatched;
use std::alloc::{AllocError, Global};
use std::io::{self, Error, ErrorKind};
use std::process::Abort;
use test_bytes::streams::{Device, PIECE, Source};

/// A file `broken`, which can't be read for want of memory, and no other. None can be written.
#[derive(Drop)]
pub(crate) struct Broken;

impl Files for Broken {
    type Opened = &'static [u8];

    ghost use Rattle.std.specs.Prelude.{None};

    ghost holds = { λ _ _. None };

    fn read_file(&self, _alloc: Global, name: &str) -> io::Result<Vec<u8>> {
        Err(refused(name))
    }

    fn open_file(&self, _alloc: Global, name: &str) -> io::Result<&'static [u8]> {
        Err(refused(name))
    }

    fn is_regular(&self, _name: &str) -> bool {
        false
    }

    fn write_file(&mut self, _name: &str, _bytes: &[u8]) -> io::Result<()> {
        Err(Error::from(ErrorKind::NotFound))
    }
}

/// Why a file of this name isn't read.
fn refused(name: &str) -> Error {
    if name == "broken" {
        return Error::from(ErrorKind::OutOfMemory);
    }
    Error::from(ErrorKind::NotFound)
}

/// No terminal.
pub(crate) const NO_SCREEN: Screen = Screen {
    is_terminal: false,
    no_color: false,
};

/// What is said where memory is refused.
pub(crate) const WANTING: &str = "pod: out of memory\n";

/// What is said where it is refused to what reads or changes the input.
pub(crate) const INPUT_WANTING: &str = "pod: standard input: out of memory\n";

/// What is wanted of a run: its status, what it says, and what it writes.
type Wanted<'a> = (u8, &'a str, &'a [u8]);

/// Compares a run by these words with what is wanted. What it writes and what it says have these rooms, the first of which can be flushed
/// where `flushes` is set. Where memory is refused it says so and writes nothing, which is the test's error.
fn assert_run(
    rt: &impl Abort,
    alloc: Global,
    words: &[&str],
    mut input: Source<'_>,
    flushes: bool,
    room: &mut [u8],
    line_room: &mut [u8],
    wanted: Wanted<'_>,
) -> Result<(), AllocError> {
    let device = if flushes {
        Device::new(room, PIECE)
    } else {
        Device::unflushed(room, PIECE)
    };
    let mut faults = Device::new(line_room, PIECE);
    let start = Start {
        words: &*words,
        screen: NO_SCREEN,
    };
    let (answer, mut output) = run(
        alloc,
        start,
        &mut input,
        &mut Broken,
        &mut Unwatched,
        device,
    );
    // Where the line can't be written, nothing changes.
    let _ = report(&mut output, &mut faults, &answer);
    let line = if faults.taken() == INPUT_WANTING.as_bytes() {
        INPUT_WANTING
    } else {
        WANTING
    };
    let is_refused = faults.taken() == line.as_bytes() && wanted.1 != WANTING;
    let (status, said, written) = if is_refused {
        (1, line, &[][..])
    } else {
        wanted
    };
    assert_eq!(rt; answer.status(), status, "the status of {words:?}");
    assert_eq!(rt; faults.taken(), said.as_bytes(), "what {words:?} says");
    assert_eq!(rt; output.taken(), written, "what {words:?} writes");
    if is_refused {
        return Err(AllocError);
    }
    Ok(())
}

/// An object without properties, and another one behind it. The first is what they meet in.
const FIRST: [u8; 16] = [8, 0, 0, 0, 15, 0, 0, 0, 5, 0, 0, 0, 3, 0, 0, 0];

const BOTH: [u8; 32] = [
    8, 0, 0, 0, 15, 0, 0, 0, 5, 0, 0, 0, 3, 0, 0, 0, 8, 0, 0, 0, 15, 0, 0, 0, 5, 0, 0, 0, 7, 0, 0,
    0,
];

/// The words that seek what the two objects of an input agree on.
const WORDS: [&[&str]; 2] = [&["meet"], &["filter"]];

/// More bytes than any of these runs writes, or says.
const ROOM: usize = 100;

#[test]
fn sources_break_off(rt: HostRuntime) -> Result<(), AllocError> {
    let rows = [
        (
            ErrorKind::UnexpectedEof,
            "pod: standard input: read failed\n",
        ),
        (ErrorKind::OutOfMemory, WANTING),
    ];
    for words in WORDS {
        for (refusal, line) in rows {
            let (mut room, mut line_room) = ([0; ROOM], [0; ROOM]);
            let input = Source::broken(&BOTH, refusal, PIECE);
            assert_run(
                &rt,
                rt.alloc(),
                words,
                input,
                true,
                &mut room,
                &mut line_room,
                (1, line, &[]),
            )?;
        }
    }
    Ok(())
}

#[test]
fn files_want_memory(rt: HostRuntime) -> Result<(), AllocError> {
    let words = ["filter", "broken", "nowhere"];
    let (mut room, mut line_room) = ([0; ROOM], [0; ROOM]);
    // The standard input isn't read: this source would refuse.
    let input = Source::broken(&[], ErrorKind::UnexpectedEof, PIECE);
    assert_run(
        &rt,
        rt.alloc(),
        &words,
        input,
        true,
        &mut room,
        &mut line_room,
        (1, WANTING, &[]),
    )
}

/// What is said where a write is refused.
const FAILED: &str = "pod: standard output: write failed\n";

#[test]
fn outputs_are_not_flushed(rt: HostRuntime) -> Result<(), AllocError> {
    for words in WORDS {
        let (mut room, mut line_room) = ([0; ROOM], [0; ROOM]);
        let input = Source::whole(&BOTH, PIECE);
        assert_run(
            &rt,
            rt.alloc(),
            words,
            input,
            false,
            &mut room,
            &mut line_room,
            (1, FAILED, &FIRST),
        )?;
    }
    Ok(())
}

#[test]
fn outputs_are_full(rt: HostRuntime) -> Result<(), AllocError> {
    for words in WORDS {
        for count in 0..6 {
            let (mut room, mut line_room) = ([0; ROOM], [0; ROOM]);
            let input = Source::whole(&BOTH, PIECE);
            let wanted = (1, FAILED, &FIRST[..count]);
            assert_run(
                &rt,
                rt.alloc(),
                words,
                input,
                true,
                &mut room[..count],
                &mut line_room,
                wanted,
            )?;
        }
    }
    Ok(())
}

#[test]
fn refusals_that_cannot_be_said_change_nothing(rt: HostRuntime) -> Result<(), AllocError> {
    for words in WORDS {
        let (mut room, mut line_room) = ([0; ROOM], [0; 3]);
        let input = Source::whole(&[1], PIECE);
        assert_run(
            &rt,
            rt.alloc(),
            words,
            input,
            true,
            &mut room,
            &mut line_room,
            (1, "pod", &[]),
        )?;
    }
    Ok(())
}
