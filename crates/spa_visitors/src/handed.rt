//! One visitor for all types that have a variant of `Visit`.
ghost use Rattle.std.specs.Prelude.{◌≡◌, ◌≢◌, IfNone, IfSome};
ghost use Rattle.spa_typed_read.specs.declared.visitor.Never.{Never};
ghost use Rattle.spa_typed_read.specs.declared.visitor.Visit.{Visit};

use spa_typed_read::{Never, VariantVisitor, Visit};
use std::marker::PhantomData;

/// A type that has a variant of its own of `Visit`.
pub trait Handed: Sized + Drop {
    /// That variant, of a value.
    ghost handed: { Self → Visit Never };

    /// The value of that variant. None: the content is of another one.
    fn of_visit(given: Visit<'_, Never>) -> Option<Self>
        ensures there { IfSome result (λ x. given.entry ≡ handed x) }
        ensures other { IfNone result ((x : Self) → given.entry ≢ handed x) };
}

/// Answers the values of the type `T` that it is given.
#[derive(Drop)]
pub struct HandedVisitor<T>(pub(crate) PhantomData<T>);

impl<T> Default for HandedVisitor<T> {
    fn default() -> HandedVisitor<T> {
        HandedVisitor(PhantomData)
    }
}

impl<'de, T: Handed> VariantVisitor<'de> for HandedVisitor<T> {
    type Made = T;

    type Element = Never;

    ghost handed = { T.handed };

    fn of_visit(given: Visit<'de, Never>) -> Option<T>
        ensures there { IfSome result (λ x. given.entry ≡ T.handed x) }
        ensures other { IfNone result ((x : T) → given.entry ≢ T.handed x) }
    {
        <T as Handed>::of_visit(given)
    }
}
