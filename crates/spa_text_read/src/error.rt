//! Why and where a text isn't read.
use crate::cause::Cause;
use crate::fitting::{InPlace, Misfit};
use std::error::Error;
use std::fmt;

/// Why and where a text isn't read. It prints the place, the cause in words, and where there are such the path and the two types.
#[derive(Debug, Drop)]
pub struct TextError {
    /// Why.
    pub cause: Cause,
    /// How many bytes stand before the place up to which it was read.
    pub offset: usize,
    /// The line of that place, the first being 1.
    pub line: usize,
    /// How many bytes of that line stand before it, and one.
    pub column: usize,
    /// Where the last token that was read stands, by keys and places in arrays, as `.props.rate` or `[2].props.volume`: a key that is refused
    /// is the last of them. Two points stand for a key of more than 64 bytes, and for what follows 256 bytes. In a key a quote and a backslash
    /// stand behind a backslash, and a control character is written by its number, as `\u001b`. Empty for the outermost, and where memory ran
    /// out, also for the path itself.
    pub path: String,
    /// Where the cause is KeyType, the value's type and the one that belongs there.
    pub misfit: Option<Misfit>,
}

impl fmt::Display for TextError {
    ghost use Rattle.spa_text_read.specs.ErrorTexts.{error_text};
    ghost use Rattle.std.specs.Prelude.{Some};

    ghost output = { λ e. Some (error_text e) };

    fn fmt<W: fmt::Write>(&self, f: &mut fmt::Formatter<W>) -> fmt::Result {
        let at = AtPath(self.path.as_str());
        let types = InPlace(self.misfit);
        write!(
            f,
            "line {}, column {}: {}{at}{types}",
            self.line, self.column, self.cause
        )
    }
}

impl Error for TextError {}

/// A path as an error prints it behind its cause: nothing where there is none.
#[derive(Clone, Copy)]
pub struct AtPath<'a>(pub &'a str);

impl fmt::Display for AtPath<'_> {
    ghost use Rattle.spa_text_read.specs.ErrorTexts.{path_text};
    ghost use Rattle.std.specs.Prelude.{Some};

    ghost output = { λ at. Some (path_text at.0.now) };

    #[tactic(auto, using(crate::proofs::Paths::no_path, crate::proofs::Paths::some_path))]
    fn fmt<W: fmt::Write>(&self, f: &mut fmt::Formatter<W>) -> fmt::Result {
        if self.0.is_empty() {
            return Ok(());
        }
        write!(f, " at {}", self.0)
    }
}
