//! The files that the program reads, and the one that it writes.
ghost use Rattle.std.specs.Prelude.{ℕ, List, Option, IfErr, IfOk, OnOk};
ghost use Rattle.spa_device.specs.Whole.{IsAllOf};
ghost use Rattle.pod_commands.specs.Answers.{IsUnread};
ghost use Rattle.pod_commands.specs.Inputs.{IsKnown, IsOpened, content_of, left_behind};

use crate::answer::Failure;
use spa_device::{ReadError, read_whole};
use std::alloc::Global;
use std::fs::{self, File, Metadata};
use std::io::{self, ErrorKind, Read, Take, Write};

/// Files that have names.
pub trait Files {
    /// A file that is read piece by piece.
    type Opened: Read + Drop;

    /// The bytes of the file of this name, where they are known.
    ghost holds: { Self → List ℕ → Option (List ℕ) };

    /// All bytes of the file of this name.
    fn read_file(&self, alloc: Global, name: &str) -> io::Result<Vec<u8>>
        ensures all { IfOk result (λ bytes. IsAllOf (holds self.now name.now) bytes.items) };

    /// The file of this name, to be read from its beginning.
    fn open_file(&self, alloc: Global, name: &str) -> io::Result<Self::Opened>
        ensures opened { IfOk result (λ file. IsOpened (holds self.now name.now) (Self.Opened.remaining file)) };

    /// Whether the file of this name is a regular one, which can be read twice.
    fn is_regular(&self, name: &str) -> bool;

    /// Makes these the bytes of the file of this name.
    fn write_file(&mut self, name: &str, bytes: &[u8]) -> io::Result<()>
        ensures written { OnOk result (IsAllOf (holds self.new name.now) bytes.now) };
}

/// What inputs are read from.
#[derive(Drop)]
pub(crate) struct Inputs<'io, R, S> {
    /// The standard input.
    pub(crate) input: &'io mut R,
    pub(crate) files: &'io S,
}

/// The files of the system, of which nothing is known. A regular file that is opened is read as far as it is long then, so that it ends also where
/// it is written to meanwhile.
#[derive(Clone, Copy)]
pub struct SystemFiles<'a> {
    pub rt: &'a HostRuntime,
}

impl Files for SystemFiles<'_> {
    type Opened = Take<File>;

    ghost use Rattle.std.specs.Prelude.{None};

    ghost holds = { λ _ _. None };

    fn read_file(&self, _alloc: Global, name: &str) -> io::Result<Vec<u8>> {
        fs::read(self.rt, name)
    }

    fn open_file(&self, _alloc: Global, name: &str) -> io::Result<Take<File>> {
        let file = File::open(self.rt, name)?;
        let metadata = file.metadata()?;
        if metadata.is_dir() {
            return Err(io::Error::from(ErrorKind::IsADirectory));
        }
        let end = if has_length(&metadata) {
            metadata.len()
        } else {
            u64::MAX
        };
        Ok(file.take(end))
    }

    fn is_regular(&self, name: &str) -> bool {
        match fs::metadata(self.rt, name) {
            Ok(metadata) => has_length(&metadata),
            Err(_) => false,
        }
    }

    fn write_file(&mut self, name: &str, bytes: &[u8]) -> io::Result<()> {
        let mut file = File::create(self.rt, name)?;
        file.write_all(bytes)
    }
}

/// Whether a file is a regular one that says how long it is; those of /proc don't.
fn has_length(metadata: &Metadata) -> bool {
    metadata.is_file() && metadata.len() > 0
}

/// Why the system doesn't let a file be read, in its words where it is one of the usual causes.
fn reason_of(kind: ErrorKind) -> &'static str {
    match kind {
        ErrorKind::NotFound => "no such file or directory",
        ErrorKind::PermissionDenied => "permission denied",
        ErrorKind::IsADirectory => "is a directory",
        ErrorKind::NotADirectory => "not a directory",
        _ => "read failed",
    }
}

/// The file of this name, to be read from its beginning.
pub(crate) fn open_named<'a, S: Files>(
    alloc: Global,
    name: &'a str,
    files: &S,
) -> Result<S::Opened, Failure<'a>>
    ensures opened { IfOk result (λ file. IsOpened (S.holds files.now name.entry.now) (S.Opened.remaining file)) }
    ensures cause { IfErr result IsUnread }
{
    match files.open_file(alloc, name) {
        Ok(file) => Ok(file),
        Err(error) if error.kind() == ErrorKind::OutOfMemory => Err(Failure::OutOfMemory),
        Err(error) => Err(Failure::Unread(name, reason_of(error.kind()))),
    }
}

/// All bytes of the input of this name: what is left of the standard input, or a file's.
pub(crate) fn read_named<'a, R: Read, S: Files>(
    alloc: Global,
    name: &'a str,
    inputs: Inputs<'_, R, S>,
) -> Result<Vec<u8>, Failure<'a>>
    ensures all { IfOk result
        (λ bytes. IsAllOf (content_of (R.remaining inputs.entry.input.now) (S.holds inputs.entry.files.now) name.entry.now) bytes.items) }
    ensures left { IsKnown (left_behind (R.remaining inputs.entry.input.now) name.entry.now) (R.remaining inputs.exit.0.now) }
    ensures cause { IfErr result IsUnread }
{
    if name == "-" {
        return match read_whole(alloc, inputs.input) {
            Ok(bytes) => Ok(bytes),
            Err(ReadError::OutOfMemory) => Err(Failure::OutOfMemory),
            Err(ReadError::Failed) => Err(Failure::Unread(name, "read failed")),
        };
    }
    match inputs.files.read_file(alloc, name) {
        Ok(bytes) => Ok(bytes),
        Err(error) if error.kind() == ErrorKind::OutOfMemory => Err(Failure::OutOfMemory),
        Err(error) => Err(Failure::Unread(name, reason_of(error.kind()))),
    }
}
