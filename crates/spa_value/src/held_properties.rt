//! The properties of an object that a macro makes one by one; they are dropped by a loop where they go out of scope.
ghost use Rattle.std.specs.Prelude.{◌≡◌, ◌++◌, ◌∷◌, [], IfErr, OnErr, OnOk};
ghost use Rattle.spa_value.specs.declared.object.Object.{out-Object};

use crate::emptying::discard;
use crate::object::{Object, Property};
use crate::value::Value;
use spa_utils::Errno;
use std::alloc::Global;
use std::marker::Model;

/// The properties, in order, that an object of a macro has so far. Where they aren't handed over, `discard` drops their values, at any nesting
/// depth.
#[doc(hidden)]
pub struct HeldProperties {
    properties: Vec<Property>,
}

impl Model for HeldProperties {
    ghost use Rattle.std.specs.Prelude.{List};
    ghost use Rattle.std.specs.Coded.{codes};
    ghost use Rattle.spa_value.specs.contracts.object.Property as whole;
    ghost use Rattle.spa_value.specs.declared.object.Property.{Property as AnyProperty};

    ghost Value = { List AnyProperty };

    ghost coded = { Prim.hlevel (codes, whole.the_row.coded) };

    ghost view = { λ held. held.properties.items };
}

impl HeldProperties {
    /// No properties.
    pub fn new(alloc: Global) -> HeldProperties
        ensures { result ≡ [] }
    {
        HeldProperties {
            properties: Vec::new(alloc),
        }
    }

    /// Appends a property. Refused as NOMEM where there is no memory for it: the properties stay as they were.
    pub fn put(&mut self, property: Property) -> Result<(), Errno>
        ensures put { OnOk result (self.new ≡ self.old ++ property ∷ []) }
        ensures kept { OnErr result (self.new ≡ self.old) }
        ensures cause { IfErr result (λ e. e ≡ Errno.NOMEM) }
    {
        if self.properties.reserve(1).is_err() {
            discard(property.value);
            return Err(Errno::NOMEM);
        }
        self.properties.push_reserved(property);
        Ok(())
    }

    /// The object with this type, this id and these properties.
    pub fn into_object(self, type_: u32, id: u32) -> Object
        ensures type_ { (out-Object result).type_ ≡ type_ }
        ensures id { (out-Object result).id ≡ id }
        ensures properties { (out-Object result).properties.items ≡ self }
    {
        let HeldProperties { properties } = self;
        Object {
            type_,
            id,
            properties,
        }
    }
}

impl Drop for HeldProperties {
    fn drop(self) {
        let HeldProperties { properties } = self;
        discard(Value::Object(Object {
            type_: 0,
            id: 0,
            properties,
        }));
    }
}
