//! The visitor of arrays.
ghost use Rattle.std.specs.Prelude.{◌≡◌, ◌≢◌, IfNone, IfSome};
ghost use Rattle.spa_typed_read.specs.declared.visitor.Visit.TheVariants as visit;

use spa_typed_read::{VariantVisitor, Visit};
use std::marker::PhantomData;

/// Answers the elements that it is given.
#[derive(Drop)]
pub struct VecVisitor<E> {
    element: PhantomData<E>,
}

impl<E> Default for VecVisitor<E> {
    fn default() -> VecVisitor<E> {
        VecVisitor {
            element: PhantomData,
        }
    }
}

impl<'de, E: Drop> VariantVisitor<'de> for VecVisitor<E> {
    type Made = Vec<E>;

    type Element = E;

    ghost handed = { λ items. visit.Array items };

    fn of_visit(given: Visit<'de, E>) -> Option<Vec<E>>
        ensures there { IfSome result (λ items. given.entry ≡ visit.Array items) }
        ensures other { IfNone result ((items : _) → given.entry ≢ visit.Array items) }
    {
        match given {
            Visit::Array(items) => Some(items),
            _ => None,
        }
    }
}
