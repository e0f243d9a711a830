//! The error that a code below 0 stands for.
ghost use Rattle.std.specs.Prelude.{◌≡◌};

use spa_utils::Errno;

/// A call failed. It prints the error's number.
#[derive(Debug, PartialEq, Eq, Drop, thiserror::Error)]
#[error("{0}")]
pub struct Error(pub(crate) Errno);

impl Error {
    /// The error's number.
    pub fn errno(&self) -> Errno
        ensures { result ≡ self.now.0 }
    {
        self.0
    }
}
