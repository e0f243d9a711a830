//! Why a text isn't read.
ghost use Rattle.std.specs.Prelude.{◌≡◌};

use std::alloc::AllocError;
use std::fmt;

/// Why a text isn't read. It prints the cause in words; `kind` is its name.
#[derive(Clone, Copy, Debug, PartialEq, Eq)]
pub enum Cause {
    /// Memory ran out.
    OutOfMemory,
    /// Another token is looked for, or the text isn't JSON.
    Token,
    /// A key that is none there, or a name that isn't in its table.
    Name,
    /// A number that doesn't fit its type, or digits, or a text where a number is looked for.
    Number,
    /// A type that is unknown there, or a value of another type than the others of an array or a choice.
    Type,
    /// A choice has more or fewer values than its shape takes.
    Count,
    /// Read strictly, a value that isn't of the type that belongs under its key.
    KeyType,
    /// Something follows the value.
    End,
}

impl Cause {
    ghost use Rattle.spa_text_read.specs.ErrorTexts.{kind_text};

    /// Its name, as docs/TEXT.md has it.
    pub fn kind(&self) -> &'static str
        ensures { result.now ≡ kind_text self.now }
    {
        match self {
            Cause::OutOfMemory => "OutOfMemory",
            Cause::Token => "Token",
            Cause::Name => "Name",
            Cause::Number => "Number",
            Cause::Type => "Type",
            Cause::Count => "Count",
            Cause::KeyType => "KeyType",
            Cause::End => "End",
        }
    }
}

impl fmt::Display for Cause {
    ghost use Rattle.spa_text_read.specs.ErrorTexts.{cause_text};
    ghost use Rattle.std.specs.Prelude.{Some};

    ghost output = { λ cause. Some (cause_text cause) };

    fn fmt<W: fmt::Write>(&self, f: &mut fmt::Formatter<W>) -> fmt::Result {
        match self {
            Cause::OutOfMemory => write!(f, "out of memory"),
            Cause::Token => write!(f, "another token is looked for, or the text isn't JSON"),
            Cause::Name => write!(f, "a key or a name is unknown there"),
            Cause::Number => write!(f, "a number is malformed or doesn't fit its type"),
            Cause::Type => write!(f, "an array or a choice can't have a value of this type"),
            Cause::Count => write!(f, "a choice has more or fewer values than its shape takes"),
            Cause::KeyType => write!(f, "a value isn't of the type that belongs under its key"),
            Cause::End => write!(f, "something follows the value"),
        }
    }
}

impl From<AllocError> for Cause {
    ghost use Rattle.spa_text_read.specs.declared.cause.Cause.TheVariants.{OutOfMemory};

    ghost from_gives = { λ _ e. e ≡ OutOfMemory };

    fn from(_refused: AllocError) -> Cause {
        Cause::OutOfMemory
    }
}
