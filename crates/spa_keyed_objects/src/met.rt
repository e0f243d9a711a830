//! The properties of an outcome, as they are made one by one.
ghost use Rattle.std.specs.Prelude.{◌≡◌, [], OnErr, OnOk};
ghost use Rattle.spa_keyed_objects.specs.PropertyLists.{IsPushed};

use spa_value::laws::property_lists_are_in_order;
use spa_value::{Object, Property, Value, discard};
use std::alloc::{AllocError, Global};

/// The properties of an outcome. They are dropped by a loop, at any nesting depth.
pub struct Met {
    /// The properties so far.
    pub properties: Vec<Property>,
}

impl Met {
    /// No properties yet.
    pub fn new(alloc: Global) -> Met
        ensures { result.properties.items ≡ [] }
    {
        Met {
            properties: Vec::new(alloc),
        }
    }

    /// The properties, which the caller owns then.
    pub fn into_properties(self) -> Vec<Property>
        ensures { result ≡ self.properties }
    {
        let Met { properties } = self;
        properties
    }
}

impl Drop for Met {
    fn drop(self) {
        let Met { properties } = self;
        discard(Value::Object(Object {
            type_: 0,
            id: 0,
            properties,
        }));
    }
}

/// Appends a property. Refused only for want of memory: the property is dropped then, and the others stay.
pub fn push(met: &mut Met, property: Property) -> Result<(), AllocError>
    ensures pushed { OnOk result (IsPushed met.old.properties.items property met.new.properties.items) }
    ensures unchanged { OnErr result (met.new.properties.items ≡ met.old.properties.items) }
{
    property_lists_are_in_order();
    if let Err(error) = met.properties.reserve(1) {
        discard(property.value);
        return Err(error);
    }
    met.properties.push_reserved(property);
    Ok(())
}
