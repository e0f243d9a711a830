//! The two sides of a negotiation or of a filter.
use std::fmt;

/// One of the two objects that meet or are filtered. It prints `first` or `second`.
#[derive(Clone, Copy, PartialEq, Eq, Debug)]
pub enum Side {
    /// The first input.
    First,
    /// The second input.
    Second,
}

impl fmt::Display for Side {
    ghost use Rattle.spa_keyed_objects.specs.Sides.{side_text};
    ghost use Rattle.std.specs.Prelude.{Some};

    ghost output = { λ side. Some (side_text side) };

    fn fmt<W: fmt::Write>(&self, f: &mut fmt::Formatter<W>) -> fmt::Result {
        match self {
            Side::First => write!(f, "first"),
            Side::Second => write!(f, "second"),
        }
    }
}
