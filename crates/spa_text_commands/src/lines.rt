//! The lines of shown pods, without their ends.
use crate::inside::Label;
use crate::parts::{Parts, Scalar, Shown};
use ryu::Buffer;
use spa_names::{Table, ids_of, name_of, path_of};
use spa_text_read::letters::{push_letter, push_letters};
use std::alloc::AllocError;
use std::fmt::{Display, Write};
use std::num::{f32_from_bits_with_nan, f64_from_bits_with_nan};

/// The deepest lines that are indented in full; deeper ones are indented as these, and tell their depth.
const DEEPEST: usize = 40;

/// What stands where a number has no name.
const UNKNOWN: &str = "unknown";

/// The bits of a float that tell how large it is, and those of an infinity.
const FLOAT_MAGNITUDE: u32 = 0x7fff_ffff;

const FLOAT_INFINITY: u32 = 0x7f80_0000;

/// The bits of a double that give its magnitude, and those of an infinity.
const DOUBLE_MAGNITUDE: u64 = 0x7fff_ffff_ffff_ffff;

const DOUBLE_INFINITY: u64 = 0x7ff0_0000_0000_0000;

/// PipeWire's name for a number.
fn path_or_unknown(table: Table, number: u32) -> &'static str {
    path_of(table, number).unwrap_or(UNKNOWN)
}

/// Begins a line inside so many values.
pub(crate) fn put_indent(text: &mut String, depth: usize) -> Result<(), AllocError> {
    for _ in 0..depth.min(DEEPEST) {
        text.push_str("  ")?;
    }
    if depth > DEEPEST {
        return write!(text, "({depth}) ");
    }
    Ok(())
}

/// Writes the line of a property's key, or of a control's offset and type.
pub(crate) fn put_label(text: &mut String, depth: usize, label: Label) -> Result<(), AllocError> {
    put_indent(text, depth)?;
    match label {
        Label::Bare => Ok(()),
        Label::Property { keys, key, flags } => write!(
            text,
            "Prop: key {} ({key}), flags {flags:08x}",
            path_or_unknown(keys, key)
        ),
        Label::Control { offset, type_ } => put_pair(
            text,
            "Control: offset",
            offset,
            ", type ",
            path_or_unknown(Table::Controls, type_),
        ),
    }
}

/// Writes the line of a value: its type, and what it says or is made of.
pub(crate) fn put_value(
    text: &mut String,
    depth: usize,
    value: Shown<'_>,
    parts: Parts<'_>,
) -> Result<(), AllocError> {
    put_indent(text, depth)?;
    let size = value.body.len();
    match parts {
        Parts::Scalar(scalar) => put_scalar(text, scalar),
        Parts::Struct(_) => put_word(text, "Struct: size", size),
        Parts::Object { type_, id, .. } => write!(
            text,
            "Object: size {size}, type {} ({}), id {} ({id})",
            path_or_unknown(Table::Types, type_.0),
            type_.0,
            path_or_unknown(ids_of(type_), id)
        ),
        Parts::Sequence { unit, .. } => put_pair(
            text,
            "Sequence: size",
            size,
            ", unit ",
            path_or_unknown(Table::Types, unit),
        ),
        Parts::Array { size, type_, .. } => put_pair(
            text,
            "Array: child.size",
            size,
            ", child.type ",
            path_or_unknown(Table::Types, type_.0),
        ),
        Parts::Choice {
            shape,
            flags,
            size: child,
            ..
        } => write!(
            text,
            "Choice: type {}, flags {flags:08x} {size} {child}",
            path_or_unknown(Table::Choices, shape)
        ),
        Parts::Bytes(_) => put_size(text, value.type_.0, size),
    }
}

/// Writes the type of bytes, by its name where it has one, and how many they are.
fn put_size(text: &mut String, type_: u32, size: usize) -> Result<(), AllocError> {
    match name_of(Table::Types, type_) {
        Some(name) => {
            text.push_str(name)?;
            put_word(text, ": size", size)
        }
        None => put_pair(text, "Type", type_, ": size ", size),
    }
}

/// Writes what a value without others inside says.
fn put_scalar(text: &mut String, scalar: Scalar<'_>) -> Result<(), AllocError> {
    match scalar {
        Scalar::Bool(value) => put_word(text, "Bool", value),
        Scalar::Id(number, names) => write!(
            text,
            "Id {number:<8} ({})",
            path_or_unknown(names, number)
        ),
        Scalar::Int(number) => put_word(text, "Int", number),
        Scalar::Long(number) => put_word(text, "Long", number),
        Scalar::Float(bits) => put_float(text, bits),
        Scalar::Double(bits) => put_double(text, bits),
        Scalar::Text(body) => put_text(text, body),
        Scalar::Rectangle(width, height) => put_pair(text, "Rectangle", width, "x", height),
        Scalar::Fraction(num, denom) => put_pair(text, "Fraction", num, "/", denom),
        Scalar::Fd(number) => put_word(text, "Fd", number),
        Scalar::Pointer(type_, address) => write!(
            text,
            "Pointer {} {address:#x}",
            path_or_unknown(Table::Types, type_)
        ),
    }
}

/// Writes a word, and what follows it.
fn put_word<T: Display + Copy>(text: &mut String, word: &str, value: T) -> Result<(), AllocError> {
    write!(text, "{word} {value}")
}

/// Writes a word, and what follows it, with this between.
fn put_pair<S: Display + Copy, T: Display + Copy>(
    text: &mut String,
    word: &str,
    first: S,
    between: &str,
    second: T,
) -> Result<(), AllocError> {
    write!(text, "{word} {first}{between}{second}")
}

/// Writes a float by its shortest digits, one that is no number by its bits.
fn put_float(text: &mut String, bits: u32) -> Result<(), AllocError> {
    if bits & FLOAT_MAGNITUDE > FLOAT_INFINITY {
        return write!(text, "Float nan ({bits:#x})");
    }
    text.push_str("Float ")?;
    text.push_str(Buffer::new().format(f32_from_bits_with_nan(bits)))
}

/// Writes a double by its shortest digits, one that is no number by its bits.
fn put_double(text: &mut String, bits: u64) -> Result<(), AllocError> {
    if bits & DOUBLE_MAGNITUDE > DOUBLE_INFINITY {
        return write!(text, "Double nan ({bits:#x})");
    }
    text.push_str("Double ")?;
    text.push_str(Buffer::new().format(f64_from_bits_with_nan(bits)))
}

/// Writes a text without the NUL behind it. What could move a terminal is written by its number, and so are the bytes of what is
/// no UTF-8.
fn put_text(text: &mut String, body: &[u8]) -> Result<(), AllocError> {
    let shown = match body {
        [shown @ .., 0] => shown,
        _ => body,
    };
    text.push_str("String \"")?;
    match str::from_utf8(shown) {
        Ok(shown) => push_letters(text, shown)?,
        Err(_) => put_bytes(text, shown)?,
    }
    text.push_str("\"")
}

fn put_bytes(text: &mut String, bytes: &[u8]) -> Result<(), AllocError> {
    for byte in bytes {
        put_byte(text, *byte)?;
    }
    Ok(())
}

/// Writes a byte of what is no UTF-8.
fn put_byte(text: &mut String, byte: u8) -> Result<(), AllocError> {
    if byte.is_ascii() {
        return push_letter(text, byte as char);
    }
    write!(text, "\\x{byte:02x}")
}

/// Writes the line of bytes that are no whole item.
pub(crate) fn put_rest(text: &mut String, depth: usize, size: usize) -> Result<(), AllocError> {
    put_indent(text, depth)?;
    put_word(text, "Rest: size", size)
}

/// Writes the line of a refusal of the pod that begins at this byte.
pub(crate) fn put_refusal(
    text: &mut String,
    depth: usize,
    place: usize,
    refusal: &str,
) -> Result<(), AllocError> {
    put_indent(text, depth)?;
    put_pair(text, "! byte", place, ": ", refusal)
}
