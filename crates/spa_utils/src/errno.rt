//! Error numbers of the operating system.
ghost use Rattle.std.specs.Prelude.{◌≡◌};

use std::error::Error;
use std::fmt;

/// An error number. It prints as the number alone.
#[derive(Clone, Copy, Debug, PartialEq, Eq)]
pub struct Errno(u32);

impl Errno {
    /// There is no memory left: `ENOMEM`.
    pub const NOMEM: Errno = Errno(12);

    /// An argument isn't allowed here: `EINVAL`.
    pub const INVAL: Errno = Errno(22);

    /// There is no room left: `ENOSPC`.
    pub const NOSPC: Errno = Errno(28);

    /// Nothing is left to read: `EPIPE`.
    pub const PIPE: Errno = Errno(32);

    /// A value is of another type than the one asked for: `EPROTO`.
    pub const PROTO: Errno = Errno(71);

    /// The error of that number.
    pub fn from_raw(number: u32) -> Errno
        ensures { result.0 ≡ number }
    {
        Errno(number)
    }

    /// The number.
    pub fn raw_os_error(&self) -> u32
        ensures { result ≡ self.now.0 }
    {
        self.0
    }
}

impl fmt::Display for Errno {
    ghost use Rattle.std.specs.Fmt.{decimal};
    ghost use Rattle.std.specs.Prelude.{Some};

    ghost output = { λ errno. Some (decimal errno.0) };

    fn fmt<W: fmt::Write>(&self, f: &mut fmt::Formatter<W>) -> fmt::Result {
        write!(f, "{}", self.0)
    }
}

impl Error for Errno {}
