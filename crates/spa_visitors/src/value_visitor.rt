//! The visitor that makes a `Value` of any content.
ghost use Rattle.std.specs.Prelude.{◌≡◌, IfErr, IfOk, OnOk};
ghost use Rattle.spa_format.specs.Tree.{object, struct};
ghost use Rattle.spa_typed_read.specs.Members.{AllMembers, AllProperties, AtEnd, Further, FurtherIn};
ghost use Rattle.spa_typed_read.specs.Visiting.{SaysValue};
ghost use Rattle.spa_value.specs.View.{view};
ghost use Rattle.spa_visitors.specs.Declining.{DeclinesMembers, DeclinesProperties, DeclinesValue};
ghost use Rattle.spa_value.specs.Views.{property_views, views};

use spa_fixed_sized::DeserializeError;
use spa_typed_read::{Never, ObjectPodDeserializer, StructPodDeserializer, Visit, Visitor};
use spa_value::{Object, Property, Value, discard};
use std::alloc::Global;

/// Makes a `Value` of any content, of a struct's members and of an object's properties. It declines the elements of an array,
/// as `UnsupportedType`: `PodDeserializer::deserialize_any` reads those.
#[derive(Drop)]
pub struct ValueVisitor {
    /// The allocator of the values that it makes.
    pub alloc: Global,
}

impl<'de> Visitor<'de> for ValueVisitor {
    type Value = Value;

    type ArrayElem = Never;

    ghost visits = { λ _ given value. SaysValue given (view value) };

    ghost visits_struct = { λ _ members value. view value ≡ struct members };

    ghost visits_object = { λ _ type id properties value. view value ≡ object type id properties };

    ghost declines = { λ _ given e. DeclinesValue given e };

    ghost declines_struct = { λ _ lent _ e. DeclinesMembers lent e };

    ghost leaves_struct = { λ _ _ now. AtEnd now };

    ghost declines_object = { λ _ lent _ e. DeclinesProperties lent e };

    ghost leaves_object = { λ _ _ now. AtEnd now.reader };

    fn visit(&self, given: Visit<'de, Never>) -> Result<Value, DeserializeError<&'de [u8]>>
        ensures made { IfOk result (λ value. SaysValue given.entry (view value)) }
        ensures declined { IfErr result (DeclinesValue given.entry) }
    {
        match given {
            Visit::None => Ok(Value::None),
            Visit::Bool(x) => Ok(Value::Bool(x)),
            Visit::Int(x) => Ok(Value::Int(x)),
            Visit::Long(x) => Ok(Value::Long(x)),
            Visit::Float(x) => Ok(Value::Float(x)),
            Visit::Double(x) => Ok(Value::Double(x)),
            Visit::String(text) => Ok(Value::String(String::from_str(self.alloc, text)?)),
            Visit::Bytes(bytes) => Ok(Value::Bytes(Vec::from_slice(self.alloc, bytes)?)),
            Visit::Bitmap(bytes) => Ok(Value::Bitmap(Vec::from_slice(self.alloc, bytes)?)),
            Visit::Rectangle(x) => Ok(Value::Rectangle(x)),
            Visit::Fraction(x) => Ok(Value::Fraction(x)),
            Visit::Id(x) => Ok(Value::Id(x)),
            Visit::Fd(x) => Ok(Value::Fd(x)),
            Visit::Array(_) => Err(DeserializeError::UnsupportedType),
            Visit::Choice(choice) => Ok(Value::Choice(choice)),
            Visit::Pointer(type_, address) => Ok(Value::Pointer(type_, address)),
        }
    }

    fn visit_struct(
        &self,
        reader: &mut StructPodDeserializer<'de>,
    ) -> Result<Value, DeserializeError<&'de [u8]>> {
        let members = read_members(self.alloc, reader)?;
        Ok(Value::Struct(members))
    }

    fn visit_object(
        &self,
        reader: &mut ObjectPodDeserializer<'de>,
    ) -> Result<Value, DeserializeError<&'de [u8]>> {
        let properties = read_properties(self.alloc, reader)?;
        Ok(object_of(reader, properties))
    }
}

/// Reads all members that are left. Where one is refused, those before it are dropped by a loop, at any nesting depth.
fn read_members<'de>(
    alloc: Global,
    reader: &mut StructPodDeserializer<'de>,
) -> Result<Vec<Value>, DeserializeError<&'de [u8]>>
    ensures same { Further reader.old reader.new }
    ensures read { IfOk result (λ members. AllMembers reader.old (λ trees. trees ≡ views members.items)) }
    ensures end { OnOk result (AtEnd reader.new) }
    ensures refused { IfErr result (DeclinesMembers reader.old) }
{
    let mut members = Vec::new(alloc);
    loop {
        match reader.deserialize_field::<Value>() {
            Ok(Some(member)) => {
                if members.reserve(1).is_err() {
                    discard(member);
                    discard(Value::Struct(members));
                    return Err(DeserializeError::OutOfMemory);
                }
                members.push_reserved(member);
            }
            Ok(None) => return Ok(members),
            Err(why) => {
                discard(Value::Struct(members));
                return Err(why);
            }
        }
    }
}

/// Reads all properties that are left. Where one is refused, those before it are dropped by a loop, at any nesting depth.
fn read_properties<'de>(
    alloc: Global,
    reader: &mut ObjectPodDeserializer<'de>,
) -> Result<Vec<Property>, DeserializeError<&'de [u8]>>
    ensures same { FurtherIn reader.old reader.new }
    ensures read { IfOk result (λ properties. AllProperties reader.old
        (λ trees. trees ≡ property_views properties.items)) }
    ensures end { OnOk result (AtEnd reader.new.reader) }
    ensures refused { IfErr result (DeclinesProperties reader.old) }
{
    let mut properties = Vec::new(alloc);
    loop {
        match reader.deserialize_property::<Value>() {
            Ok(Some((value, key, flags))) => {
                if properties.reserve(1).is_err() {
                    discard(value);
                    discard(object_of(reader, properties));
                    return Err(DeserializeError::OutOfMemory);
                }
                properties.push_reserved(Property { key, flags, value });
            }
            Ok(None) => return Ok(properties),
            Err(why) => {
                discard(object_of(reader, properties));
                return Err(why);
            }
        }
    }
}

/// The object of these properties.
fn object_of(reader: &ObjectPodDeserializer, properties: Vec<Property>) -> Value
    ensures { view result ≡ object reader.now.type reader.now.id (property_views properties.items) }
{
    Value::Object(Object {
        type_: reader.type_(),
        id: reader.id(),
        properties,
    })
}
