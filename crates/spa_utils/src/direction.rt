//! The direction of a port.
ghost use Rattle.std.specs.Prelude.{◌≡◌};
ghost use Rattle.spa_utils.specs.Reversal.{reversed};

use std::fmt;

/// A port's direction, as a number. A number that is neither `Input` nor `Output` is kept as it is.
#[derive(Clone, Copy, PartialEq, Eq)]
pub struct Direction(u32);

impl Direction {
    /// Into the node.
    pub const Input: Direction = Direction(0);

    /// Out of the node.
    pub const Output: Direction = Direction(1);

    /// The direction of that number.
    pub fn from_raw(raw: u32) -> Direction
        ensures { result.0 ≡ raw }
    {
        Direction(raw)
    }

    /// The number.
    pub fn as_raw(&self) -> u32
        ensures { result ≡ self.now.0 }
    {
        self.0
    }

    /// The other of the two directions. Any other number stays.
    pub fn reverse(&self) -> Direction
        ensures { result.0 ≡ reversed self.now.0 }
    {
        match *self {
            Direction::Input => Direction::Output,
            Direction::Output => Direction::Input,
            other => other,
        }
    }
}

impl fmt::Debug for Direction {
    fn fmt<W: fmt::Write>(&self, f: &mut fmt::Formatter<W>) -> fmt::Result {
        f.write_str(match *self {
            Direction::Input => "Direction::Input",
            Direction::Output => "Direction::Output",
            _ => "Direction::Unknown",
        })
    }
}
