//! A value that is dropped by a loop where it goes out of scope.
ghost use Rattle.std.specs.Prelude.{◌≡◌};

use crate::emptying::discard;
use crate::value::Value;
use std::marker::Model;
use std::ops::Deref;

/// A value that is dropped by `discard`, a loop, where it goes out of scope: so its nesting depth may be whatever untrusted bytes made it.
///
/// `*` borrows the value. `into_inner` hands it over, after which its own drop calls itself for each level of nesting.
pub struct Held {
    value: Value,
}

impl Model for Held {
    ghost use Rattle.std.specs.Coded.{codes};
    ghost use Rattle.spa_value.specs.contracts.value.Value as whole;
    ghost use Rattle.spa_value.specs.declared.value.Value.{Value as AnyValue};

    ghost Value = { AnyValue };

    ghost coded = { Prim.hlevel (codes, whole.the_row.coded) };

    ghost view = { λ held. held.value };
}

impl From<Value> for Held {
    ghost from_gives = { λ value held. held ≡ value };

    fn from(value: Value) -> Held {
        Held { value }
    }
}

impl Held {
    /// The value itself, which the caller has to drop.
    pub fn into_inner(self) -> Value
        ensures { result ≡ self }
    {
        let Held { value } = self;
        value
    }
}

impl Deref for Held {
    type Target = Value;

    ghost deref_gives = { λ held value. value ≡ held };

    fn deref(&self) -> &Value {
        &self.value
    }
}

impl Drop for Held {
    fn drop(self) {
        let Held { value } = self;
        discard(value);
    }
}
