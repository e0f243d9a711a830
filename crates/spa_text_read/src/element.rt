//! Elements of arrays, and values of choices.
ghost use Rattle.std.specs.Prelude.{◌≡◌, ◌≢◌, ◌++◌, [], ◌∷◌, IfErr, OnOk, Some, None, option_map};
ghost use Rattle.spa_text_read.specs.Seen.{items_in, kind_in, said_by};
ghost use Rattle.spa_text_read.specs.Steps.{fixed_part, of_kind};
ghost use Rattle.spa_format.specs.Tree.{fixed};
ghost use Rattle.spa_value.specs.View.{view};

use crate::cause::Cause;
use spa_utils::{Fd, Float32, Float64, Fraction, Id, Rectangle};
use spa_value::{Value, ValueArray};

/// A value of fixed size.
#[derive(Clone, Copy)]
pub(crate) enum Element {
    None,
    Bool(bool),
    Id(Id),
    Int(i32),
    Long(i64),
    Float(Float32),
    Double(Float64),
    Rectangle(Rectangle),
    Fraction(Fraction),
    Fd(Fd),
}

/// What a value of fixed size says.
#[tactic(auto, using(crate::proofs::ViewLaws::object_part))]
pub(crate) fn element_of(value: &Value) -> Option<Element>
    ensures { option_map said_by result ≡ fixed_part (view value.now) }
{
    match value {
        Value::None => Some(Element::None),
        Value::Bool(x) => Some(Element::Bool(*x)),
        Value::Id(x) => Some(Element::Id(*x)),
        Value::Int(x) => Some(Element::Int(*x)),
        Value::Long(x) => Some(Element::Long(*x)),
        Value::Float(x) => Some(Element::Float(*x)),
        Value::Double(x) => Some(Element::Double(*x)),
        Value::Rectangle(x) => Some(Element::Rectangle(*x)),
        Value::Fraction(x) => Some(Element::Fraction(*x)),
        Value::Fd(x) => Some(Element::Fd(*x)),
        Value::String(_) => None,
        Value::Bytes(_) => None,
        Value::Bitmap(_) => None,
        Value::Pointer(_, _) => None,
        Value::ValueArray(_) => None,
        Value::Choice(_) => None,
        Value::Struct(_) => None,
        Value::Object(_) => None,
    }
}

/// The value that an element is.
#[inline(always)]
pub(crate) fn value_of(element: Element) -> Value
    ensures { view result ≡ fixed (said_by element) }
{
    match element {
        Element::None => Value::None,
        Element::Bool(x) => Value::Bool(x),
        Element::Id(x) => Value::Id(x),
        Element::Int(x) => Value::Int(x),
        Element::Long(x) => Value::Long(x),
        Element::Float(x) => Value::Float(x),
        Element::Double(x) => Value::Double(x),
        Element::Rectangle(x) => Value::Rectangle(x),
        Element::Fraction(x) => Value::Fraction(x),
        Element::Fd(x) => Value::Fd(x),
    }
}

/// Puts an element behind the others, where it is of their type.
#[inline(always)]
pub(crate) fn put_element(values: &mut ValueArray, element: Element) -> Result<(), Cause>
    ensures put { OnOk result
        (option_map (λ x. items_in values.old ++ x ∷ [])
        (of_kind (kind_in values.old) (said_by element)) ≡ Some (items_in values.new)) }
    ensures kind { OnOk result (kind_in values.new ≡ kind_in values.old) }
    ensures refused { IfErr result
        (λ e. e ≢ Cause.OutOfMemory → of_kind (kind_in values.old) (said_by element) ≡ None) }
{
    match (values, element) {
        (ValueArray::None(values), Element::None) => push(values, ()),
        (ValueArray::Bool(values), Element::Bool(x)) => push(values, x),
        (ValueArray::Id(values), Element::Id(x)) => push(values, x),
        (ValueArray::Int(values), Element::Int(x)) => push(values, x),
        (ValueArray::Long(values), Element::Long(x)) => push(values, x),
        (ValueArray::Float(values), Element::Float(x)) => push(values, x),
        (ValueArray::Double(values), Element::Double(x)) => push(values, x),
        (ValueArray::Rectangle(values), Element::Rectangle(x)) => push(values, x),
        (ValueArray::Fraction(values), Element::Fraction(x)) => push(values, x),
        (ValueArray::Fd(values), Element::Fd(x)) => push(values, x),
        _ => Err(Cause::Type),
    }
}

/// For how many values there is room at first: as many as most choices have.
const FIRST_ROOM: usize = 8;

fn push<T: Copy>(values: &mut Vec<T>, value: T) -> Result<(), Cause>
    ensures ok { OnOk result (values.new.items ≡ values.old.items ++ value ∷ []) }
    ensures memory { IfErr result (λ e. e ≡ Cause.OutOfMemory) }
{
    if values.is_empty() {
        let Ok(()) = values.reserve(FIRST_ROOM) else {
            return Err(Cause::OutOfMemory);
        };
    }
    match values.push(value) {
        Ok(()) => Ok(()),
        Err(_) => Err(Cause::OutOfMemory),
    }
}
