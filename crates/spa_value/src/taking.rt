//! Places into which a value is put as soon as it is made, so that it isn't moved again.
ghost use Rattle.std.specs.Prelude.{◌≡◌, ⊤, IsSomeAnd};
ghost use Rattle.spa_format.specs.Tree.{Tree};
ghost use Rattle.spa_value.specs.View.{view};

use crate::value::Value;

/// A place that takes a value that is read or copied.
#[doc(hidden)]
pub trait Takes {
    /// There is room for a value.
    ghost has_room: { Self → Type 0 };

    /// The relation of the place before, the tree of the value that it took, and the place after.
    ghost takes: { Self → Tree → Self → Type 0 };

    /// Puts the value into the place.
    fn put(&mut self, value: Value)
        requires { has_room self.old }
        ensures { takes self.old (view value) self.new };
}

/// A place for one value: what was in it before is dropped.
impl Takes for Option<Value> {
    ghost has_room = { λ _. ⊤ };

    ghost takes = { λ _ value it. IsSomeAnd it (λ v. view v ≡ value) };

    #[inline(always)]
    fn put(&mut self, value: Value) {
        drop(self.replace(value));
    }
}
