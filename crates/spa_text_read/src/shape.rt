//! The shapes of choices.

/// The shape of a choice.
#[derive(Clone, Copy)]
pub enum Shape {
    None,
    Range,
    Step,
    Enum,
    Flags,
}
