//! Settles an object: each choice at its default.
ghost use Rattle.std.specs.Prelude.{◌≡◌, IfOk, OnOk};
ghost use Rattle.spa_fixed_sized.specs.Choices.{choice_tree};
ghost use Rattle.spa_value.specs.View.{choice_view, object_view, view};
ghost use Rattle.spa_value.specs.Views.{property_views};
ghost use Rattle.spa_filter_offers.specs.Admits.{plain_of};
ghost use Rattle.spa_filter.specs.Settling.{settled_of, settled_properties};

use spa_filter_offers::{Element, default_of, offer_of};
use spa_keyed_objects::{Met, push};
use spa_utils::Choice;
use spa_value::laws::{objects_are_their_fields, property_lists_are_in_order};
use spa_value::{ChoiceValue, Object, Property, Value};
use std::alloc::{AllocError, Global};

/// The object with each property's choice at its default, and its type, id, keys and flags as they are. Of an object to which two were filtered
/// this is a fixed object that both admit. Refused only for want of memory.
pub fn settle(alloc: Global, object: &Object) -> Result<Object, AllocError>
    ensures { IfOk result (λ settled. object_view settled ≡ settled_of (object_view object.now)) }
{
    objects_are_their_fields();
    let properties = settled_list(alloc, object.properties.as_slice())?;
    Ok(Object {
        type_: object.type_,
        id: object.id,
        properties,
    })
}

/// The properties with each choice at its default. Refused only for want of memory.
fn settled_list(alloc: Global, properties: &[Property]) -> Result<Vec<Property>, AllocError>
    ensures { IfOk result
        (λ settled. property_views settled.items ≡ settled_properties (property_views properties.now)) }
{
    property_lists_are_in_order();
    let mut met = Met::new(alloc);
    for property in properties {
        let value = settled(&property.value)?;
        push(
            &mut met,
            Property {
                key: property.key,
                flags: property.flags,
                value,
            },
        )?;
    }
    Ok(met.into_properties())
}

/// A copy of the value where it is plain, and the default where it is a choice. Refused only for want of memory.
pub fn settled(value: &Value) -> Result<Value, AllocError>
    ensures { IfOk result (λ settled. view settled ≡ plain_of (view value.now)) }
{
    match value {
        Value::Choice(choice) => Ok(settled_choice(choice)),
        _ => Ok(value.clone()?),
    }
}

/// The value itself where it is plain, and the default where it is a choice.
pub fn into_settled(value: Value) -> Value
    ensures { view result ≡ plain_of (view value) }
{
    match value {
        Value::Choice(choice) => settled_choice(&choice),
        plain => plain,
    }
}

/// The default of a choice over any type.
fn settled_choice(choice: &ChoiceValue) -> Value
    ensures { view result ≡ plain_of (choice_view choice.now) }
{
    match choice {
        ChoiceValue::Bool(choice) => default_value(choice),
        ChoiceValue::Id(choice) => default_value(choice),
        ChoiceValue::Int(choice) => default_value(choice),
        ChoiceValue::Long(choice) => default_value(choice),
        ChoiceValue::Float(choice) => default_value(choice),
        ChoiceValue::Double(choice) => default_value(choice),
        ChoiceValue::Rectangle(choice) => default_value(choice),
        ChoiceValue::Fraction(choice) => default_value(choice),
        ChoiceValue::Fd(choice) => default_value(choice),
    }
}

/// The default of a choice over the type `T`, as a value.
fn default_value<T: Element>(choice: &Choice<T>) -> Value
    ensures { view result ≡ plain_of (choice_tree T.kind T.fixed choice.now) }
{
    let default = default_of(&offer_of(&choice.1));
    default.value()
}
