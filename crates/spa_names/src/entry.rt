//! The entries of the tables.
use crate::table::Table;
use spa_utils::SpaTypes;

/// What is expected of the value under a key.
#[derive(Clone, Copy, Debug, PartialEq, Eq)]
pub struct Expected {
    /// The type of the value, or of a choice's values: the type of an object means an object of this type, 20 any pod, and
    /// 0 that nothing is known.
    pub type_: SpaTypes,
    /// The type of an array's elements; 0 where `type_` isn't Array.
    pub element: SpaTypes,
    /// The names of the ids under the key, also of those in an array.
    pub ids: Table,
}

impl Expected {
    /// Nothing is known of the value.
    pub const NOTHING: Expected = Expected {
        type_: SpaTypes(0),
        element: SpaTypes(0),
        ids: Table::Nothing,
    };
}

/// A table's entry of a number: the number; PipeWire's name for it; how many bytes of that are before its own name, which no other number
/// in the table has; and where the number is a key the index in `EXPECTED` of what is expected under it. A constant of structs with texts in
/// them has no name in clauses, so these are tuples.
pub(crate) type Entry = (u32, &'static str, usize, usize);

/// A further name of a number, and the number.
pub(crate) type Naming = (&'static str, u32);
