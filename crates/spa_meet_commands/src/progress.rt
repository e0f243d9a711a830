//! The progress of a search.

/// What shows the progress of a search for two objects that agree.
pub trait Progress {
    /// Called before each of the `objects` objects of the first list is tried with those of the second.
    fn tell(&mut self, objects: usize);
}

/// Shows nothing.
#[derive(Drop)]
pub struct Unwatched;

impl Progress for Unwatched {
    fn tell(&mut self, _objects: usize) {}
}
