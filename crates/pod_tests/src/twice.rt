//! Files that are read twice.
use crate::streams::{NO_SCREEN, WANTING};
use pod_commands::answer::report;
use pod_commands::files::Files;
use pod_commands::run::{Start, run};
use spa_meet_commands::progress::Unwatched;
use std::alloc::{AllocError, Global};
use std::cell::Cell;
use std::io::{self, Error, ErrorKind};
use test_bytes::streams::{ALL, Device, PIECE, Source};

/// A Bool of 7 with padding that is no zeros, and one that is rewritten as it is.
const BEFORE: &[u8] = &[
    4, 0, 0, 0, 2, 0, 0, 0, 7, 0, 0, 0, 9, 9, 9, 9, 4, 0, 0, 0, 2, 0, 0, 0, 1, 0, 0, 0, 0, 0, 0, 0,
];

/// The first of them, and an Int of no bytes, which is no pod.
const AFTER: &[u8] = &[
    4, 0, 0, 0, 2, 0, 0, 0, 7, 0, 0, 0, 9, 9, 9, 9, 0, 0, 0, 0, 4, 0, 0, 0,
];

/// What the first is rewritten as.
const CLEAN: &[u8] = &[4, 0, 0, 0, 2, 0, 0, 0, 1, 0, 0, 0, 0, 0, 0, 0];

/// Files that have other bytes from the second time on that one is opened. They can't be read whole.
#[derive(Drop)]
struct Changing {
    is_opened: Cell<bool>,
    /// Whether they are no regular files with bytes from then on.
    are_emptied: bool,
}

impl Files for Changing {
    type Opened = &'static [u8];

    ghost use Rattle.std.specs.Prelude.{None};

    ghost holds = { λ _ _. None };

    fn read_file(&self, _alloc: Global, _name: &str) -> io::Result<Vec<u8>> {
        Err(Error::from(ErrorKind::NotFound))
    }

    fn open_file(&self, _alloc: Global, _name: &str) -> io::Result<&'static [u8]> {
        if self.is_opened.replace(true) {
            return Ok(AFTER);
        }
        Ok(BEFORE)
    }

    fn is_regular(&self, _name: &str) -> bool {
        !(self.are_emptied && self.is_opened.get())
    }

    fn write_file(&mut self, _name: &str, _bytes: &[u8]) -> io::Result<()> {
        Err(Error::from(ErrorKind::NotFound))
    }
}

/// What is wanted of a run: its status, what it says, and what it writes.
type Wanted<'a> = (u8, &'a str, &'a [u8]);

/// Whether `rewrite` of these files answers so, unless it says that memory is wanting.
fn rewrites(
    rt: &HostRuntime,
    words: &[&str],
    are_emptied: bool,
    wanted: Wanted<'_>,
) -> Result<bool, AllocError> {
    let mut files = Changing {
        is_opened: Cell::new(false),
        are_emptied,
    };
    let mut room = [0; 100];
    let device = Device::new(&mut room, ALL);
    // It isn't read: this source would refuse.
    let mut input = Source::broken(&[], ErrorKind::UnexpectedEof, PIECE);
    let start = Start {
        words,
        screen: NO_SCREEN,
    };
    let (answer, mut device) = run(
        rt.alloc(),
        start,
        &mut input,
        &mut files,
        &mut Unwatched,
        device,
    );
    let mut line = [0; 200];
    let mut faults = Device::new(&mut line, PIECE);
    let is_reported = report(&mut device, &mut faults, &answer).is_ok();
    let (status, said, written) = wanted;
    if faults.taken() == WANTING.as_bytes() && written.starts_with(device.taken()) {
        return Err(AllocError);
    }
    let is_said = is_reported && faults.taken() == said.as_bytes() && answer.status() == status;
    Ok(is_said && device.taken() == written)
}

#[test]
fn a_file_changes_between_the_passes(rt: HostRuntime) -> Result<(), AllocError> {
    let wanted: Wanted<'_> = (
        1,
        "pod: changing: pod 2 (Int), byte 16: a body or the size of elements isn't as long as its type's (WrongSize)\n",
        CLEAN,
    );
    let holds = rewrites(&rt, &["rewrite", "changing"], false, wanted)?;
    assert!(rt; holds);
    Ok(())
}

#[test]
fn nothing_is_written_before_all_files_are_accepted(rt: HostRuntime) -> Result<(), AllocError> {
    let wanted: Wanted<'_> = (
        1,
        "pod: second: pod 2 (Int), byte 16: a body or the size of elements isn't as long as its type's (WrongSize)\n",
        &[],
    );
    let holds = rewrites(&rt, &["rewrite", "first", "second"], false, wanted)?;
    assert!(rt; holds);
    Ok(())
}

#[test]
fn a_file_is_emptied_between_the_passes(rt: HostRuntime) -> Result<(), AllocError> {
    let wanted: Wanted<'_> = (1, "pod: emptied: emptied while it was read\n", &[]);
    let holds = rewrites(&rt, &["rewrite", "emptied"], true, wanted)?;
    assert!(rt; holds);
    Ok(())
}
