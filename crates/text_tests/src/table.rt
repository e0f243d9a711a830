//! Values, from outside. A table that takes memory is a function of its rows.
use bitflags::Flags;
use spa_utils::{Choice, ChoiceEnum, ChoiceFlags, Fd, Float32, Float64, Fraction, Id, Rectangle};
use spa_value::{ChoiceValue, Object, Property, PropertyFlags, Value, ValueArray};
use std::alloc::{AllocError, Global};

const NARROW: Rectangle = Rectangle {
    width: 1,
    height: 2,
};

const HALF: Fraction = Fraction { num: 1, denom: 2 };

fn text(alloc: Global, text: &str) -> Result<Value, AllocError> {
    Ok(Value::String(String::from_str(alloc, text)?))
}

fn bytes(alloc: Global, bytes: &[u8]) -> Result<Value, AllocError> {
    Ok(Value::Bytes(copied(alloc, bytes)?))
}

fn bitmap(alloc: Global, bytes: &[u8]) -> Result<Value, AllocError> {
    Ok(Value::Bitmap(copied(alloc, bytes)?))
}

/// A struct of these members.
fn struct_of(members: Result<Vec<Value>, AllocError>) -> Result<Value, AllocError> {
    Ok(Value::Struct(members?))
}

/// A copy of the elements.
fn copied<T: Copy>(alloc: Global, elements: &[T]) -> Result<Vec<T>, AllocError> {
    let mut copy = Vec::new(alloc);
    copy.extend_from_slice(elements)?;
    Ok(copy)
}

/// One value alone.
fn single<T: Drop>(alloc: Global, value: T) -> Result<Vec<T>, AllocError> {
    let mut values = Vec::new(alloc);
    values.push(value)?;
    Ok(values)
}

/// Two values.
fn pair<T: Drop>(alloc: Global, first: T, second: T) -> Result<Vec<T>, AllocError> {
    let mut values = single(alloc, first)?;
    values.push(second)?;
    Ok(values)
}

/// Puts a value at the end of a list.
fn add<T: Drop>(values: &mut Vec<T>, value: Result<T, AllocError>) -> Result<(), AllocError> {
    values.push(value?)?;
    Ok(())
}

pub(crate) fn int_property(key: u32, flags: u32, value: i32) -> Property {
    Property {
        key,
        flags: PropertyFlags::from_bits_retain(flags),
        value: Value::Int(value),
    }
}

fn object(type_: u32, id: u32, properties: Vec<Property>) -> Value {
    Value::Object(Object {
        type_,
        id,
        properties,
    })
}

/// An object of type 5 and id 3.
fn object_of(properties: Result<Vec<Property>, AllocError>) -> Result<Value, AllocError> {
    Ok(object(5, 3, properties?))
}

fn int_choice(flags: u32, values: ChoiceEnum<i32>) -> Value {
    Value::Choice(ChoiceValue::Int(Choice(ChoiceFlags::from_bits_retain(flags), values)))
}

fn range(default: i32, min: i32, max: i32) -> ChoiceEnum<i32> {
    ChoiceEnum::Range { default, min, max }
}

fn step(default: i32, min: i32, max: i32, step: i32) -> ChoiceEnum<i32> {
    ChoiceEnum::Step {
        default,
        min,
        max,
        step,
    }
}

/// A property of key 9, whose flags have the lowest and the highest bit, and whose value holds 3.
fn flagged_property(alloc: Global) -> Result<Property, AllocError> {
    Ok(Property {
        key: 9,
        flags: PropertyFlags::from_bits_retain(2147483649),
        value: struct_of(single(alloc, Value::Int(3)))?,
    })
}

/// Type 5, id 3, with that property.
fn flagged_object(alloc: Global) -> Result<Value, AllocError> {
    object_of(single(alloc, flagged_property(alloc)?))
}

/// Flags over Id: the default 1, the flags [2], and the choice flags 1.
fn id_flags(alloc: Global) -> Result<Value, AllocError> {
    let flags = copied(alloc, &[Id(2)])?;
    let default = Id(1);
    Ok(Value::Choice(ChoiceValue::Id(Choice(
        ChoiceFlags::from_bits_retain(1),
        ChoiceEnum::Flags { default, flags },
    ))))
}

const WORKED_VALUES: usize = 9;

/// The worked values: texts, a struct, an object, bytes, a bitmap, an array and two choices.
fn worked_value(alloc: Global, row: usize) -> Result<Value, AllocError> {
    match row {
        0 => text(alloc, "1234567"),
        1 => text(alloc, ""),
        2 => struct_of(single(alloc, Value::Int(3))),
        3 => flagged_object(alloc),
        4 => bytes(alloc, &[1, 2, 3]),
        5 => bitmap(alloc, &[1, 2, 3]),
        6 => array_of(alloc, 4, &[10, 15, 19]).map(Value::ValueArray),
        7 => Ok(int_choice(0, range(5, 2, 10))),
        _ => id_flags(alloc),
    }
}

const FIXED_VALUES: usize = 24;

/// Values of fixed size, no two of them equal.
fn fixed_value(row: usize) -> Value {
    match row {
        0 => Value::None,
        1 => Value::Bool(false),
        2 => Value::Bool(true),
        3 => Value::Id(Id(1)),
        4 => Value::Id(Id(2)),
        5 => Value::Int(1),
        6 => Value::Int(-1),
        7 => Value::Long(1),
        8 => Value::Long(-1),
        9 => Value::Float(Float32(0)),
        10 => Value::Float(Float32(0x8000_0000)),
        11 => Value::Double(Float64(0)),
        12 => Value::Double(Float64(0x8000_0000_0000_0000)),
        13 => Value::Fd(Fd(1)),
        14 => Value::Fd(Fd(-1)),
        15 => Value::Pointer(7, 4096),
        16 => Value::Pointer(8, 4096),
        17 => Value::Pointer(7, 4097),
        18 => Value::Rectangle(NARROW),
        19 => Value::Rectangle(Rectangle { width: 2, ..NARROW }),
        20 => Value::Rectangle(Rectangle {
            height: 4,
            ..NARROW
        }),
        21 => Value::Fraction(HALF),
        22 => Value::Fraction(Fraction { num: 2, ..HALF }),
        _ => Value::Fraction(Fraction { denom: 4, ..HALF }),
    }
}

const LISTS: usize = 17;

/// Texts, bytes, bitmaps and structs, no two of them equal.
fn list(alloc: Global, row: usize) -> Result<Value, AllocError> {
    match row {
        0 => text(alloc, ""),
        1 => text(alloc, "a"),
        2 => text(alloc, "b"),
        3 => text(alloc, "ab"),
        4 => bytes(alloc, &[]),
        5 => bytes(alloc, &[97]),
        6 => bytes(alloc, &[98]),
        7 => bytes(alloc, &[97, 98]),
        8 => bitmap(alloc, &[]),
        9 => bitmap(alloc, &[97]),
        10 => bitmap(alloc, &[98]),
        11 => Ok(Value::Struct(Vec::new(alloc))),
        12 => struct_of(single(alloc, Value::None)),
        13 => struct_of(pair(alloc, Value::None, Value::None)),
        14 => struct_of(pair(alloc, Value::None, Value::Int(3))),
        15 => struct_of(pair(alloc, Value::Int(3), Value::None)),
        _ => nested_structs(alloc, 2),
    }
}

/// Arrays, no two of them equal, by their type and what their elements are made of: of units where they differ in number, of
/// other types also by an element.
const ARRAYS: &[(u32, &[u8])] = &[
    (1, &[]),
    (1, &[0, 0]),
    (2, &[]),
    (2, &[1]),
    (3, &[1]),
    (4, &[]),
    (4, &[1]),
    (4, &[1, 2]),
    (4, &[2, 1]),
    (5, &[1]),
    (6, &[1]),
    (7, &[1]),
    (10, &[1]),
    (10, &[1, 1]),
    (11, &[1]),
    (18, &[1]),
    (18, &[2]),
];

/// An array over the type of this number, without elements.
fn empty_array(alloc: Global, type_: u32) -> ValueArray {
    match type_ {
        2 => ValueArray::Bool(Vec::new(alloc)),
        3 => ValueArray::Id(Vec::new(alloc)),
        4 => ValueArray::Int(Vec::new(alloc)),
        5 => ValueArray::Long(Vec::new(alloc)),
        6 => ValueArray::Float(Vec::new(alloc)),
        7 => ValueArray::Double(Vec::new(alloc)),
        10 => ValueArray::Rectangle(Vec::new(alloc)),
        11 => ValueArray::Fraction(Vec::new(alloc)),
        18 => ValueArray::Fd(Vec::new(alloc)),
        _ => ValueArray::None(Vec::new(alloc)),
    }
}

/// Puts an element that is made of a number at the end of an array.
fn push_element(array: &mut ValueArray, number: u8) -> Result<(), AllocError> {
    match array {
        ValueArray::None(units) => add(units, Ok(())),
        ValueArray::Bool(bools) => add(bools, Ok(number != 0)),
        ValueArray::Id(ids) => add(ids, Ok(Id(number.into()))),
        ValueArray::Int(ints) => add(ints, Ok(number.into())),
        ValueArray::Long(longs) => add(longs, Ok(number.into())),
        ValueArray::Float(floats) => add(floats, Ok(Float32(number.into()))),
        ValueArray::Double(doubles) => add(doubles, Ok(Float64(number.into()))),
        ValueArray::Rectangle(rectangles) => add(rectangles, Ok(NARROW)),
        ValueArray::Fraction(fractions) => add(fractions, Ok(HALF)),
        ValueArray::Fd(fds) => add(fds, Ok(Fd(number.into()))),
    }
}

/// An array over the type of this number, of elements that are made of these numbers.
fn array_of(alloc: Global, type_: u32, numbers: &[u8]) -> Result<ValueArray, AllocError> {
    let mut array = empty_array(alloc, type_);
    for number in numbers {
        if let Err(error) = push_element(&mut array, *number) {
            drop(array);
            return Err(error);
        }
    }
    Ok(array)
}

/// The array in this row.
fn array(alloc: Global, row: usize) -> Result<ValueArray, AllocError> {
    match ARRAYS.get(row) {
        Some((type_, numbers)) => array_of(alloc, *type_, numbers),
        None => Err(AllocError),
    }
}

const INT_CHOICES: usize = 12;

/// Choices over Int, no two of them equal.
fn choice_over_int(alloc: Global, row: usize) -> Result<Value, AllocError> {
    let default = 5;
    let values = match row {
        0 | 1 => ChoiceEnum::None(default),
        2 => ChoiceEnum::None(6),
        3 => range(default, 2, 10),
        4 => range(default, 10, 2),
        5 => range(2, default, 10),
        6 => step(default, 2, 10, 1),
        7 => step(default, 2, 10, 2),
        8 => {
            let alternatives = Vec::new(alloc);
            ChoiceEnum::Enum {
                default,
                alternatives,
            }
        }
        9 => {
            let alternatives = copied(alloc, &[2, 10])?;
            ChoiceEnum::Enum {
                default,
                alternatives,
            }
        }
        10 => {
            let alternatives = copied(alloc, &[10, 2])?;
            ChoiceEnum::Enum {
                default,
                alternatives,
            }
        }
        _ => {
            let flags = copied(alloc, &[2, 10])?;
            ChoiceEnum::Flags { default, flags }
        }
    };
    let flags = if row == 1 { 1 } else { 0 };
    Ok(int_choice(flags, values))
}

const CHOICES: usize = 8;

/// A choice of the one value over each type but Int.
fn choice(row: usize) -> ChoiceValue {
    let none = ChoiceFlags::empty();
    match row {
        0 => ChoiceValue::Bool(Choice(none, ChoiceEnum::None(true))),
        1 => ChoiceValue::Id(Choice(none, ChoiceEnum::None(Id(5)))),
        2 => ChoiceValue::Long(Choice(none, ChoiceEnum::None(5))),
        3 => ChoiceValue::Float(Choice(none, ChoiceEnum::None(Float32(5)))),
        4 => ChoiceValue::Double(Choice(none, ChoiceEnum::None(Float64(5)))),
        5 => ChoiceValue::Rectangle(Choice(none, ChoiceEnum::None(NARROW))),
        6 => ChoiceValue::Fraction(Choice(none, ChoiceEnum::None(HALF))),
        _ => ChoiceValue::Fd(Choice(none, ChoiceEnum::None(Fd(5)))),
    }
}

const PROPERTIES: usize = 4;

/// Properties, no two of them equal.
fn property(row: usize) -> Property {
    match row {
        0 => int_property(1, 0, 3),
        1 => int_property(2, 0, 3),
        2 => int_property(1, 1, 3),
        _ => int_property(1, 0, 4),
    }
}

const OBJECTS: usize = 9;

/// Objects, no two of them equal.
fn distinct_object(alloc: Global, row: usize) -> Result<Value, AllocError> {
    match row {
        0 => object_of(Ok(Vec::new(alloc))),
        1 => Ok(object(6, 3, Vec::new(alloc))),
        2 => Ok(object(5, 4, Vec::new(alloc))),
        3 => object_of(pair(alloc, property(0), property(1))),
        4 => object_of(pair(alloc, property(1), property(0))),
        _ => object_of(single(alloc, property(row % 5))),
    }
}

/// Tables of values of which no two are equal.
#[derive(Clone, Copy)]
enum Table {
    Fixed,
    Lists,
    Arrays,
    IntChoices,
    Choices,
    Objects,
}

/// The tables, and how many rows each has.
const TABLES: &[(Table, usize)] = &[
    (Table::Fixed, FIXED_VALUES),
    (Table::Lists, LISTS),
    (Table::Arrays, ARRAYS.len()),
    (Table::IntChoices, INT_CHOICES),
    (Table::Choices, CHOICES),
    (Table::Objects, OBJECTS),
];

/// Those rows. This function alone names them: one that does is proved with all of them.
fn tables() -> &'static [(Table, usize)] {
    TABLES
}

/// The value in this row of a table.
fn value_in(alloc: Global, table: Table, row: usize) -> Result<Value, AllocError> {
    match table {
        Table::Fixed => Ok(fixed_value(row)),
        Table::Lists => list(alloc, row),
        Table::Arrays => array(alloc, row).map(Value::ValueArray),
        Table::IntChoices => choice_over_int(alloc, row),
        Table::Choices => Ok(Value::Choice(choice(row))),
        Table::Objects => distinct_object(alloc, row),
    }
}

/// Values of each variant, no two of them equal.
pub(crate) fn distinct_values(alloc: Global) -> Result<Vec<Value>, AllocError> {
    let mut values = Vec::new(alloc);
    for (table, rows) in tables() {
        for row in 0..*rows {
            add(&mut values, value_in(alloc, *table, row))?;
        }
    }
    Ok(values)
}

/// The worked values.
pub(crate) fn worked_values(alloc: Global) -> Result<Vec<Value>, AllocError> {
    let mut values = Vec::new(alloc);
    for row in 0..WORKED_VALUES {
        add(&mut values, worked_value(alloc, row))?;
    }
    Ok(values)
}

/// Arrays, no two of them equal.
pub(crate) fn arrays(alloc: Global) -> Result<Vec<ValueArray>, AllocError> {
    let mut arrays = Vec::new(alloc);
    for (type_, numbers) in ARRAYS {
        add(&mut arrays, array_of(alloc, *type_, numbers))?;
    }
    Ok(arrays)
}

/// Choices, no two of them equal.
pub(crate) fn choices(alloc: Global) -> Result<Vec<ChoiceValue>, AllocError> {
    let mut choices = Vec::new(alloc);
    for row in 0..CHOICES {
        add(&mut choices, Ok(choice(row)))?;
    }
    Ok(choices)
}

/// Properties, no two of them equal.
pub(crate) fn properties(alloc: Global) -> Result<Vec<Property>, AllocError> {
    let mut properties = Vec::new(alloc);
    for row in 0..PROPERTIES {
        add(&mut properties, Ok(property(row)))?;
    }
    Ok(properties)
}

/// An object of two properties, alone.
pub(crate) fn objects(alloc: Global) -> Result<Vec<Object>, AllocError> {
    let properties = pair(alloc, property(0), property(1))?;
    let object = Object {
        type_: 5,
        id: 3,
        properties,
    };
    single(alloc, object)
}

/// This many structs, each nested in the one before, with a None behind it.
fn nested_structs(alloc: Global, count: usize) -> Result<Value, AllocError> {
    let mut value = Value::Struct(Vec::new(alloc));
    for _ in 1..count {
        value = Value::Struct(pair(alloc, value, Value::None)?);
    }
    Ok(value)
}

/// How many structs are nested in one another: one alone, as many as are copied by calls, one more, and far more.
const DEPTHS: &[usize] = &[301, 66, 65, 1];

/// Structs nested deep, and one struct.
pub(crate) fn deep_values(alloc: Global) -> Result<Vec<Value>, AllocError> {
    let mut values = Vec::new(alloc);
    for depth in DEPTHS {
        add(&mut values, nested_structs(alloc, *depth))?;
    }
    Ok(values)
}
