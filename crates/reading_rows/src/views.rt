//! Views: on accepted pods they show what the reader reads; on any bytes they end.
use bitflags::Flags;
use spa_utils::{Errno, Id};
use spa_value::{Object, Property, Value};
use spa_view::{Pod, PodObject, PodProp, PodStruct};
use std::alloc::AllocError;
use test_bytes::push_spelling;

/// Does the view show the value?
#[cycle(shows)]
pub(crate) fn shows(pod: Pod<'_>, value: &Value) -> bool {
    match value {
        Value::Struct(members) => match pod.as_struct() {
            Ok(view) => shows_members(view, members.as_slice()),
            Err(_) => false,
        },
        Value::Object(object) => match pod.as_object() {
            Ok(view) => shows_object(view, object),
            Err(_) => false,
        },
        leaf => shows_leaf(pod, leaf),
    }
}

/// Does the view show a value that holds no other values?
fn shows_leaf(pod: Pod<'_>, value: &Value) -> bool {
    match value {
        Value::String(text) => pod.get_string_raw() == Ok(text.as_bytes()),
        Value::Bytes(bytes) => pod.get_bytes() == Ok(bytes.as_slice()),
        Value::Bitmap(bytes) => pod.get_bitmap() == Ok(bytes.as_slice()),
        Value::Pointer(type_, address) => pod.get_pointer() == Ok((*address, Id(*type_))),
        Value::ValueArray(_) => pod.is_array(),
        Value::Choice(_) => pod.is_choice(),
        Value::Struct(_) | Value::Object(_) => false,
        fixed => shows_fixed(pod, fixed),
    }
}

/// Does the view show a value of fixed size?
fn shows_fixed(pod: Pod<'_>, value: &Value) -> bool {
    match value {
        Value::None => pod.is_none(),
        Value::Bool(x) => pod.get_bool() == Ok(*x),
        Value::Id(x) => pod.get_id() == Ok(*x),
        Value::Int(x) => pod.get_int() == Ok(*x),
        Value::Long(x) => pod.get_long() == Ok(*x),
        Value::Float(x) => pod.get_float() == Ok(*x),
        Value::Double(x) => pod.get_double() == Ok(*x),
        Value::Rectangle(x) => pod.get_rectangle() == Ok(*x),
        Value::Fraction(x) => pod.get_fraction() == Ok(*x),
        Value::Fd(x) => pod.get_fd() == Ok(x.0),
        _ => false,
    }
}

#[cycle(shows)]
fn shows_members(view: PodStruct<'_>, members: &[Value]) -> bool {
    let mut fields = view.fields();
    for member in members {
        match fields.next() {
            Some(field) if shows(field, member) => {}
            _ => return false,
        }
    }
    fields.next().is_none()
}

#[cycle(shows)]
fn shows_object(view: PodObject<'_>, object: &Object) -> bool {
    if !is_typed_alike(view, object) {
        return false;
    }
    let mut props = view.props();
    for property in object.properties.as_slice() {
        let Some(prop) = props.next() else {
            return false;
        };
        if !is_headed_alike(prop, property) || !shows(prop.value(), &property.value) {
            return false;
        }
    }
    props.next().is_none()
}

/// Has the object that is viewed this one's type and id?
fn is_typed_alike(view: PodObject<'_>, object: &Object) -> bool {
    view.type_().as_raw() == object.type_ && view.id().as_raw() == object.id
}

/// Has the property that is viewed this one's key and flags?
fn is_headed_alike(prop: PodProp<'_>, property: &Property) -> bool {
    prop.key().as_raw() == property.key && prop.flags().bits() == property.flags.bits()
}

/// Appends the words of the object at the front once it is fixated, and whether it is fixated then.
pub(crate) fn answer_fixation(bytes: &mut [u8], answers: &mut String) -> Result<(), AllocError> {
    match PodObject::fixate(bytes) {
        Ok(()) => (),
        Err(Errno::INVAL) => answers.push_str(" refused")?,
        Err(_) => answers.push_str(" refused by another number")?,
    }
    push_spelling(answers, bytes)?;
    match Pod::from_bytes(bytes) {
        Some(pod) => push_state(pod, answers),
        None => Ok(()),
    }
}

/// Appends whether an object is fixated.
fn push_state(pod: Pod<'_>, answers: &mut String) -> Result<(), AllocError> {
    match pod.as_object() {
        Ok(object) if object.is_fixated() => answers.push_str(" fixated"),
        Ok(_) => answers.push_str(" open"),
        Err(_) => Ok(()),
    }
}

/// Appends what the view of the front shows: its size; of an object the Ints under the keys 1 and 2, the first of each; of a struct how
/// many members it has; of a string its text.
pub(crate) fn answer_view(input: &[u8], answers: &mut String) -> Result<(), AllocError> {
    let Some(pod) = Pod::from_bytes(input) else {
        return answers.push_str(" none");
    };
    write!(answers, " size {}", pod.size())?;
    if let Ok(object) = pod.as_object() {
        push_int(object, 1, answers)?;
        push_int(object, 2, answers)?;
    }
    if let Ok(members) = pod.as_struct() {
        write!(answers, ", {} members", members.fields().count())?;
    }
    if pod.is_string() {
        push_text(pod, answers)?;
    }
    Ok(())
}

/// Appends the Int of the first property with a key.
fn push_int(object: PodObject<'_>, key: u32, answers: &mut String) -> Result<(), AllocError> {
    match object.find_prop(Id(key)) {
        Some(prop) => match prop.value().get_int() {
            Ok(number) => write!(answers, ", {number} under {key}"),
            Err(_) => write!(answers, ", no Int under {key}"),
        },
        None => write!(answers, ", nothing under {key}"),
    }
}

/// Appends the text of a string, without its end.
fn push_text(pod: Pod<'_>, answers: &mut String) -> Result<(), AllocError> {
    match pod.get_string_raw() {
        Ok(text) => write!(answers, ", the text {text:?}"),
        Err(Errno::INVAL) => answers.push_str(", no text"),
        Err(_) => answers.push_str(", another refusal"),
    }
}
