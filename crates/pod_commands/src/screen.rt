//! The standard output, as far as it decides what is written to it.

/// What the standard output is.
#[derive(Clone, Copy)]
pub struct Screen {
    /// Whether it is a terminal.
    pub is_terminal: bool,
    /// Whether `NO_COLOR` is set, and not to nothing: a terminal gets no colours then, unless `--color` asks for them.
    pub no_color: bool,
}
