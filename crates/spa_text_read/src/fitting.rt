//! Values under keys, and the types that belong there.
ghost use Rattle.std.specs.Prelude.{◌≡◌, MatchOption, false, true};
ghost use Rattle.spa_format.specs.Kind.{type_number};
ghost use Rattle.spa_text_read.specs.Fitting as spec;
ghost use Rattle.spa_text_read.specs.Names as names;
ghost use Rattle.spa_text_read.specs.Seen.{kind_in};
ghost use Rattle.spa_value.specs.View.{choice_view, view};

use crate::names::{expected_under, keys_of, name_of};
use spa_names::keys::{PARAM_ROUTE_DEVICES, PARAM_ROUTE_PROFILES};
use spa_names::types::OBJECT_PARAM_ROUTE;
use spa_names::{Expected, Table};
use spa_utils::SpaTypes;
use spa_value::{ChoiceValue, Value, ValueArray};
use std::fmt;

/// Which values are read under a key of an object.
#[derive(Clone, Copy, Debug, PartialEq, Eq)]
pub enum Strictness {
    /// Any.
    Plain,
    /// Those of the type that belongs there.
    Strict,
}

/// A type, and of an array also that of its elements. It prints their names, `Int` or `Array of Id`, or the number of a type without one.
#[derive(Clone, Copy, Debug, PartialEq, Eq)]
pub struct FullType {
    /// The type; of a choice that of its values, of an object the object's own.
    pub type_: SpaTypes,
    /// The type of an array's elements; 0 where `type_` isn't Array.
    pub element: SpaTypes,
}

/// A value that isn't of the type that belongs under its key.
#[derive(Clone, Copy, Debug, PartialEq, Eq)]
pub struct Misfit {
    /// The value's type.
    pub found: FullType,
    /// The type that belongs there.
    pub wanted: FullType,
}

/// A type's name, or its number where it has none.
#[derive(Clone, Copy)]
struct TypeName(u32);

impl fmt::Display for TypeName {
    ghost use Rattle.spa_text_read.specs.ErrorTexts.{type_name};
    ghost use Rattle.std.specs.Prelude.{Some};

    ghost output = { λ it. Some (type_name it.0) };

    fn fmt<W: fmt::Write>(&self, f: &mut fmt::Formatter<W>) -> fmt::Result {
        match name_of(Table::Types, self.0) {
            Some(name) => write!(f, "{name}"),
            None => write!(f, "{}", self.0),
        }
    }
}

impl fmt::Display for FullType {
    ghost use Rattle.spa_text_read.specs.ErrorTexts.{type_text};
    ghost use Rattle.std.specs.Prelude.{Some};

    ghost output = { λ it. Some (type_text it) };

    fn fmt<W: fmt::Write>(&self, f: &mut fmt::Formatter<W>) -> fmt::Result {
        let of = TypeName(self.type_.0);
        if self.element.0 == 0 {
            return write!(f, "{of}");
        }
        let element = TypeName(self.element.0);
        write!(f, "{of} of {element}")
    }
}

/// The types of a misfit as an error prints them: nothing where there is none.
#[derive(Clone, Copy)]
pub struct InPlace(pub Option<Misfit>);

impl fmt::Display for InPlace {
    ghost use Rattle.spa_text_read.specs.ErrorTexts.{misfit_text};
    ghost use Rattle.std.specs.Prelude.{Some};

    ghost output = { λ it. Some (misfit_text it.0) };

    fn fmt<W: fmt::Write>(&self, f: &mut fmt::Formatter<W>) -> fmt::Result {
        match self.0 {
            Some(misfit) => write!(f, ": {} in place of {}", misfit.found, misfit.wanted),
            None => Ok(()),
        }
    }
}

/// The type that belongs under a key of an object of this type.
pub fn type_under(type_: u32, key: u32) -> FullType
    ensures { result ≡ spec.type_under type_ key }
{
    wanted_under(type_, key, expected_under(keys_of(type_), key))
}

/// The type that belongs under a key of an object of this type, where `expected` is the key's entry in the table of the object's keys.
pub(crate) fn wanted_under(type_: u32, key: u32, expected: Expected) -> FullType
    requires { expected ≡ names.expected_under (names.keys_of type_) key }
    ensures { result ≡ spec.type_under type_ key }
{
    if type_ == OBJECT_PARAM_ROUTE && (key == PARAM_ROUTE_PROFILES || key == PARAM_ROUTE_DEVICES) {
        return FullType {
            type_: SpaTypes::Array,
            element: SpaTypes::Int,
        };
    }
    FullType {
        type_: expected.type_,
        element: expected.element,
    }
}

/// The type of the elements of an array.
pub(crate) fn element_type(values: &ValueArray) -> SpaTypes
    ensures { result.0 ≡ type_number (kind_in values.now) }
{
    match values {
        ValueArray::None(_) => SpaTypes::None,
        ValueArray::Bool(_) => SpaTypes::Bool,
        ValueArray::Id(_) => SpaTypes::Id,
        ValueArray::Int(_) => SpaTypes::Int,
        ValueArray::Long(_) => SpaTypes::Long,
        ValueArray::Float(_) => SpaTypes::Float,
        ValueArray::Double(_) => SpaTypes::Double,
        ValueArray::Rectangle(_) => SpaTypes::Rectangle,
        ValueArray::Fraction(_) => SpaTypes::Fraction,
        ValueArray::Fd(_) => SpaTypes::Fd,
    }
}

/// The type of the values of a choice.
fn choice_type(choice: &ChoiceValue) -> SpaTypes
    ensures { spec.full_type (choice_view choice.now) ≡ spec.full result.0 0 }
{
    match choice {
        ChoiceValue::Bool(_) => SpaTypes::Bool,
        ChoiceValue::Id(_) => SpaTypes::Id,
        ChoiceValue::Int(_) => SpaTypes::Int,
        ChoiceValue::Long(_) => SpaTypes::Long,
        ChoiceValue::Float(_) => SpaTypes::Float,
        ChoiceValue::Double(_) => SpaTypes::Double,
        ChoiceValue::Rectangle(_) => SpaTypes::Rectangle,
        ChoiceValue::Fraction(_) => SpaTypes::Fraction,
        ChoiceValue::Fd(_) => SpaTypes::Fd,
    }
}

/// The type of a value.
#[tactic(auto, using(crate::proofs::Strictly::object_full))]
fn full_type(value: &Value) -> FullType
    ensures { result ≡ spec.full_type (view value.now) }
{
    let type_ = match value {
        Value::None => SpaTypes::None,
        Value::Bool(_) => SpaTypes::Bool,
        Value::Id(_) => SpaTypes::Id,
        Value::Int(_) => SpaTypes::Int,
        Value::Long(_) => SpaTypes::Long,
        Value::Float(_) => SpaTypes::Float,
        Value::Double(_) => SpaTypes::Double,
        Value::String(_) => SpaTypes::String,
        Value::Bytes(_) => SpaTypes::Bytes,
        Value::Bitmap(_) => SpaTypes::Bitmap,
        Value::Rectangle(_) => SpaTypes::Rectangle,
        Value::Fraction(_) => SpaTypes::Fraction,
        Value::Fd(_) => SpaTypes::Fd,
        Value::Pointer(_, _) => SpaTypes::Pointer,
        Value::Struct(_) => SpaTypes::Struct,
        Value::Choice(choice) => choice_type(choice),
        Value::Object(object) => SpaTypes(object.type_),
        Value::ValueArray(values) => {
            return FullType {
                type_: SpaTypes::Array,
                element: element_type(values),
            };
        }
    };
    FullType {
        type_,
        element: SpaTypes(0),
    }
}

/// The first number of a type of objects: events, commands and parameters.
const OBJECT_TYPES: u32 = 131072;

/// Tells whether PipeWire's parser takes None where this type belongs.
fn may_miss(type_: u32) -> bool
    ensures { result ≡ spec.may_miss type_ }
{
    type_ == SpaTypes::String.0 || type_ == SpaTypes::Struct.0 || type_ > OBJECT_TYPES
}

/// Tells whether a value of the second type may stand where the first one belongs.
fn takes(wanted: FullType, found: FullType) -> bool
    ensures { result ≡ spec.takes wanted found }
{
    if wanted.type_.0 == 0 || wanted.type_.0 == SpaTypes::Pod.0 {
        return true;
    }
    if wanted.type_.0 == found.type_.0 && wanted.element.0 == found.element.0 {
        return true;
    }
    found.type_.0 == SpaTypes::None.0 && may_miss(wanted.type_.0)
}

/// What a value has in place of the type that belongs there.
pub(crate) fn misfit_of(wanted: FullType, value: &Value) -> Option<Misfit>
    ensures { MatchOption result (spec.takes wanted (spec.full_type (view value.now)) ≡ true)
        (λ _. spec.takes wanted (spec.full_type (view value.now)) ≡ false) }
{
    let found = full_type(value);
    if takes(wanted, found) {
        return None;
    }
    Some(Misfit { found, wanted })
}
