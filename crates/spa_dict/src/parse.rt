//! Reads values of a dictionary as truth values and integers.
ghost use Rattle.std.specs.Prelude.{◌≡◌, ℕ, List, Option, codes};
ghost use Rattle.std.specs.Int.{w8, w16, w32, w64, w128};
ghost use Rattle.spa_dict.specs.Parsing.{ReadsBool, ReadsSigned, ReadsUnsigned};

use std::error::Error;
use std::fmt;

/// A type that a dictionary's value can be read as.
pub trait ParsableValue: Copy {
    /// The type's name, as a refusal prints it.
    const TYPE_NAME: &'static str;

    /// The bytes of the type's name.
    ghost its_name: { List ℕ };

    // The relation of a text's bytes and the answers of `parse_value` for them.
    ghost reads: { List ℕ → Option Self → Type 0 };

    /// The type's name, which is `TYPE_NAME`: a call, so that contracts can speak of it.
    fn name() -> &'static str
        ensures { result.now ≡ its_name };

    /// The value as which the text reads. None: it is no text of this type.
    fn parse_value(value: &str) -> Option<Self>
        ensures { reads value.now result };
}

/// `true`, and each text of the number 1 in 32 bits, read as true, and every other text as false.
impl ParsableValue for bool {
    const TYPE_NAME: &'static str = "bool";

    ghost its_name = { codes "bool" };

    ghost reads = { ReadsBool };

    fn name() -> &'static str {
        Self::TYPE_NAME
    }

    fn parse_value(value: &str) -> Option<bool> {
        Some(value == "true" || value.parse::<i32>() == Ok(1))
    }
}

impl ParsableValue for i8 {
    const TYPE_NAME: &'static str = "i8";

    ghost its_name = { codes "i8" };

    ghost reads = { ReadsSigned w8 };

    fn name() -> &'static str {
        Self::TYPE_NAME
    }

    fn parse_value(value: &str) -> Option<i8> {
        value.parse().ok()
    }
}

impl ParsableValue for i16 {
    const TYPE_NAME: &'static str = "i16";

    ghost its_name = { codes "i16" };

    ghost reads = { ReadsSigned w16 };

    fn name() -> &'static str {
        Self::TYPE_NAME
    }

    fn parse_value(value: &str) -> Option<i16> {
        value.parse().ok()
    }
}

impl ParsableValue for i32 {
    const TYPE_NAME: &'static str = "i32";

    ghost its_name = { codes "i32" };

    ghost reads = { ReadsSigned w32 };

    fn name() -> &'static str {
        Self::TYPE_NAME
    }

    fn parse_value(value: &str) -> Option<i32> {
        value.parse().ok()
    }
}

impl ParsableValue for i64 {
    const TYPE_NAME: &'static str = "i64";

    ghost its_name = { codes "i64" };

    ghost reads = { ReadsSigned w64 };

    fn name() -> &'static str {
        Self::TYPE_NAME
    }

    fn parse_value(value: &str) -> Option<i64> {
        value.parse().ok()
    }
}

impl ParsableValue for i128 {
    const TYPE_NAME: &'static str = "i128";

    ghost its_name = { codes "i128" };

    ghost reads = { ReadsSigned w128 };

    fn name() -> &'static str {
        Self::TYPE_NAME
    }

    fn parse_value(value: &str) -> Option<i128> {
        value.parse().ok()
    }
}

impl ParsableValue for isize {
    const TYPE_NAME: &'static str = "isize";

    ghost its_name = { codes "isize" };

    ghost reads = { ReadsSigned w64 };

    fn name() -> &'static str {
        Self::TYPE_NAME
    }

    fn parse_value(value: &str) -> Option<isize> {
        value.parse().ok()
    }
}

impl ParsableValue for u8 {
    const TYPE_NAME: &'static str = "u8";

    ghost its_name = { codes "u8" };

    ghost reads = { ReadsUnsigned 8 };

    fn name() -> &'static str {
        Self::TYPE_NAME
    }

    fn parse_value(value: &str) -> Option<u8> {
        value.parse().ok()
    }
}

impl ParsableValue for u16 {
    const TYPE_NAME: &'static str = "u16";

    ghost its_name = { codes "u16" };

    ghost reads = { ReadsUnsigned 16 };

    fn name() -> &'static str {
        Self::TYPE_NAME
    }

    fn parse_value(value: &str) -> Option<u16> {
        value.parse().ok()
    }
}

impl ParsableValue for u32 {
    const TYPE_NAME: &'static str = "u32";

    ghost its_name = { codes "u32" };

    ghost reads = { ReadsUnsigned 32 };

    fn name() -> &'static str {
        Self::TYPE_NAME
    }

    fn parse_value(value: &str) -> Option<u32> {
        value.parse().ok()
    }
}

impl ParsableValue for u64 {
    const TYPE_NAME: &'static str = "u64";

    ghost its_name = { codes "u64" };

    ghost reads = { ReadsUnsigned 64 };

    fn name() -> &'static str {
        Self::TYPE_NAME
    }

    fn parse_value(value: &str) -> Option<u64> {
        value.parse().ok()
    }
}

impl ParsableValue for u128 {
    const TYPE_NAME: &'static str = "u128";

    ghost its_name = { codes "u128" };

    ghost reads = { ReadsUnsigned 128 };

    fn name() -> &'static str {
        Self::TYPE_NAME
    }

    fn parse_value(value: &str) -> Option<u128> {
        value.parse().ok()
    }
}

impl ParsableValue for usize {
    const TYPE_NAME: &'static str = "usize";

    ghost its_name = { codes "usize" };

    ghost reads = { ReadsUnsigned 64 };

    fn name() -> &'static str {
        Self::TYPE_NAME
    }

    fn parse_value(value: &str) -> Option<usize> {
        value.parse().ok()
    }
}

/// The refusal of a text that can't be read as the type that was asked for.
#[derive(Debug, PartialEq, Eq, Drop)]
pub struct ParseValueError<'a> {
    pub(crate) text: &'a str,
    pub(crate) type_name: &'static str,
}

impl fmt::Display for ParseValueError<'_> {
    ghost use Rattle.std.specs.Prelude.{◌++◌, Some};

    ghost output = { λ e. Some (codes "'" ++ (e.text.now ++ (codes "' cannot be parsed to " ++ e.type_name.now))) };

    fn fmt<W: fmt::Write>(&self, f: &mut fmt::Formatter<W>) -> fmt::Result {
        write!(f, "'{}' cannot be parsed to {}", self.text, self.type_name)
    }
}

impl Error for ParseValueError<'_> {}
