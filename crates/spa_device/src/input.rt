//! Reads a whole input.
ghost use Rattle.std.specs.Prelude.{IfOk};
ghost use Rattle.spa_device.specs.Whole.{IsAllOf};

use std::alloc::Global;
use std::error::Error;
use std::fmt;
use std::io::{ErrorKind, Read};

/// Why an input wasn't read whole.
#[derive(Clone, Copy, Debug)]
pub enum ReadError {
    /// Memory ran out.
    OutOfMemory,
    /// The reader failed.
    Failed,
}

impl fmt::Display for ReadError {
    ghost use Rattle.spa_device.specs.ErrorTexts.{error_text};
    ghost use Rattle.std.specs.Prelude.{Some};

    ghost output = { λ e. Some (error_text e) };

    fn fmt<W: fmt::Write>(&self, f: &mut fmt::Formatter<W>) -> fmt::Result {
        match self {
            ReadError::OutOfMemory => write!(f, "out of memory"),
            ReadError::Failed => write!(f, "read failed"),
        }
    }
}

impl Error for ReadError {}

/// Reads all bytes that the reader gives.
pub fn read_whole<R: Read>(alloc: Global, input: &mut R) -> Result<Vec<u8>, ReadError>
    ensures { IfOk result (λ bytes. IsAllOf (R.remaining input.old) bytes.items) }
{
    let mut bytes = Vec::new(alloc);
    match input.read_to_end(&mut bytes) {
        Ok(_) => Ok(bytes),
        Err(error) if error.kind() == ErrorKind::OutOfMemory => Err(ReadError::OutOfMemory),
        Err(_) => Err(ReadError::Failed),
    }
}
