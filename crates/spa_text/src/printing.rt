//! Values printed as text.
ghost use Rattle.std.specs.Prelude.{◌≡◌, ◌+◌, ◌≤◌, ◌++◌, [], List, ℕ, IfOk, OnErr, OnOk, IfSome, MatchOption, Some, None, decimal};
ghost use Rattle.std.specs.Str.{IsUtf8};
ghost use Rattle.json.specs.Lex.{tokens};
ghost use Rattle.json.specs.Print as json;
ghost use Rattle.spa_format.specs.Tree.{member_node_count, node_count, struct};
ghost use Rattle.spa_text_read.specs.Grammar.{IsTextOf, an_object, key_number, nothing};
ghost use Rattle.spa_text.specs.Line.{AreGood, HasNoEnd};
ghost use Rattle.spa_text.specs.Left.{IsLess, PrintsNext, PrintsOrBegins, PrintsWhole, left_count};
ghost use Rattle.spa_text.specs.Printed as printed;
ghost use Rattle.spa_text.specs.Printed.{HasNoFloat, key_text, tokens_of};
ghost use Rattle.spa_text.specs.Written.{BeginsProperty, Opens, Prints, PutsKey};
ghost use Rattle.spa_text.specs.declared.printing.Left.TheVariants as left;
ghost use Rattle.spa_value.specs.View.{object_view, view};
ghost use Rattle.spa_value.specs.Views.{property_views, views};

use crate::leaves::{
    print_array, print_bitmap, print_bytes, print_choice, print_pointer, print_text,
};
use crate::out::Out;
use crate::printed::{Printed, begin_keyed_object, end_braced, print_name};
use bitflags::Flags;
use spa_names::{Expected, Table};
use spa_text_read::names::{expected_under, ids_of, keys_of, name_of};
use spa_text_read::numerals::number_of_digits;
use spa_value::{Object, Property, Value};
use std::alloc::{AllocError, Global};
use std::mem;

/// The members or properties of an open struct or object that aren't printed yet.
#[derive(Clone, Copy)]
enum Left<'a> {
    Members(&'a [Value]),
    Properties(&'a [Property], Table),
}

/// A struct or an object that is begun, and whether a brace follows the value in it that is printed.
#[derive(Clone, Copy)]
struct Begun<'a> {
    left: Left<'a>,
    braced: bool,
}

/// What is printed next of a struct or of an object.
#[derive(Clone, Copy)]
enum Next<'a> {
    /// Its end.
    Ended,
    /// A value was printed, and this is left.
    Printed(Begun<'a>),
    /// A struct or object in it was opened: what is left of the one around it, and of itself.
    Begun(Begun<'a>, Begun<'a>),
}

/// Prints values one after another, in memory that it keeps.
#[derive(Drop)]
pub struct TextPrinter {
    alloc: Global,
    line: Vec<u8>,
}

impl TextPrinter {
    /// One that has printed nothing.
    pub fn new(alloc: Global) -> TextPrinter {
        TextPrinter {
            alloc,
            line: Vec::new(alloc),
        }
    }

    /// Prints a value behind what is in `out`, as `print` does.
    pub fn print(&mut self, value: &Value, out: &mut Vec<u8>) -> Result<(), AllocError>
        ensures printed { OnOk result
            ((text : List ℕ) × (out.new.items ≡ out.old.items ++ text) × IsUtf8 text
            × IsTextOf (view value.now) text × HasNoEnd text) }
        ensures exact { OnOk result
            (HasNoFloat (view value.now) →
            out.new.items ≡ out.old.items ++ printed.line_of (view value.now)) }
        ensures kept { OnErr result (out.new.items ≡ out.old.items) }
    {
        let mut buffer = mem::replace(&mut self.line, Vec::new(self.alloc));
        buffer.clear();
        let line = line_of(self.alloc, value, buffer)?;
        let added = out.extend_from_slice(line.as_slice());
        self.line = line;
        added
    }
}

/// Prints a value behind what is in `out`: one line of JSON, without the line feed, as docs/TEXT.md says. For many values a `TextPrinter`
/// asks for less memory.
///
/// It is refused only where memory runs out, and then leaves `out` as it was. A value that is nested deep is printed too, by a loop.
pub fn print(alloc: Global, value: &Value, out: &mut Vec<u8>) -> Result<(), AllocError>
    ensures printed { OnOk result
        ((text : List ℕ) × (out.new.items ≡ out.old.items ++ text) × IsUtf8 text
        × IsTextOf (view value.now) text × HasNoEnd text) }
    ensures exact { OnOk result
        (HasNoFloat (view value.now) →
        out.new.items ≡ out.old.items ++ printed.line_of (view value.now)) }
    ensures kept { OnErr result (out.new.items ≡ out.old.items) }
{
    let mut printer = TextPrinter::new(alloc);
    printer.print(value, out)
}

/// The line of a value, in this buffer.
pub(crate) fn line_of(alloc: Global, value: &Value, buffer: Vec<u8>) -> Result<Vec<u8>, AllocError>
    requires { buffer.items ≡ [] }
    ensures reads { IfOk result (λ line. IsTextOf (view value.now) line.items) }
    ensures utf8 { IfOk result (λ line. IsUtf8 line.items) }
    ensures no_end { IfOk result (λ line. HasNoEnd line.items) }
    ensures good { IfOk result (λ line. AreGood (tokens line.items)) }
    ensures printed { IfOk result (λ line. line.items ≡ json.print (tokens line.items)) }
    ensures exact { IfOk result
        (λ line. HasNoFloat (view value.now) → (line.items ≡ printed.line_of (view value.now))
        × (tokens line.items ≡ tokens_of nothing (view value.now))) }
{
    let mut out = Out::new(buffer);
    print_value(alloc, &mut out, value)?;
    Ok(out.into_bytes())
}

/// Prints a value: also one that is nested deep, since what is begun is kept in a list.
fn print_value(alloc: Global, out: &mut Out, value: &Value) -> Result<(), AllocError>
    ensures { OnOk result (Prints nothing (view value.now) out.old.tokens out.new.tokens) }
{
    let Some(first) = print_or_begin(alloc, out, value, Expected::NOTHING)? else {
        return Ok(());
    };
    let mut inner = first;
    let mut outer = Vec::new(alloc);
    loop {
        match print_next(alloc, out, inner.left)? {
            Next::Ended => {
                let Some(around) = outer.pop() else {
                    return Ok(());
                };
                inner = around;
                end_braced(out, inner.braced)?;
            }
            Next::Printed(rest) => {
                inner = rest;
            }
            Next::Begun(rest, begun) => {
                outer.reserve(1)?;
                outer.push_reserved(rest);
                inner = begun;
            }
        }
    }
}

/// Prints a value that has no members, or begins one that has.
#[tactic(auto, using(crate::proofs::Counting::some_node, crate::proofs::Counting::struct_nodes))]
fn print_or_begin<'a>(
    alloc: Global,
    out: &mut Out,
    value: &'a Value,
    expected: Expected,
) -> Result<Option<Begun<'a>>, AllocError>
    ensures written { IfOk result
        (λ begun. PrintsOrBegins expected (view value.now) begun out.old.tokens out.new.tokens) }
    ensures fewer { IfOk result
        (λ begun. MatchOption begun (1 ≤ node_count (view value.now))
        (λ b. left_count b.left + 1 ≡ node_count (view value.now))) }
{
    match value {
        Value::Struct(members) => match begin_struct(out, members.as_slice()) {
            Ok(begun) => Ok(Some(begun)),
            Err(refused) => Err(refused),
        },
        Value::Object(object) => match begin_object(out, object) {
            Ok(begun) => Ok(Some(begun)),
            Err(refused) => Err(refused),
        },
        _ => match print_whole(alloc, out, value, expected) {
            Ok(()) => Ok(None),
            Err(refused) => Err(refused),
        },
    }
}

/// Prints a value that has no members; nothing of one that has.
#[inline(always)]
fn print_whole(
    alloc: Global,
    out: &mut Out,
    value: &Value,
    expected: Expected,
) -> Result<(), AllocError>
    ensures { OnOk result (PrintsWhole expected value.now out.old.tokens out.new.tokens) }
{
    match value {
        Value::Struct(_) => Ok(()),
        Value::Object(_) => Ok(()),
        Value::None => ().print(alloc, out, expected),
        Value::Bool(x) => x.print(alloc, out, expected),
        Value::Id(x) => x.print(alloc, out, expected),
        Value::Int(x) => x.print(alloc, out, expected),
        Value::Long(x) => x.print(alloc, out, expected),
        Value::Float(x) => x.print(alloc, out, expected),
        Value::Double(x) => x.print(alloc, out, expected),
        Value::Rectangle(x) => x.print(alloc, out, expected),
        Value::Fraction(x) => x.print(alloc, out, expected),
        Value::Fd(x) => x.print(alloc, out, expected),
        Value::String(text) => print_text(out, text.as_str(), expected),
        Value::Bytes(bytes) => print_bytes(alloc, out, bytes.as_slice(), expected),
        Value::Bitmap(bytes) => print_bitmap(alloc, out, bytes.as_slice(), expected),
        Value::Pointer(type_, at) => print_pointer(alloc, out, *type_, *at, expected),
        Value::ValueArray(array) => print_array(alloc, out, array, expected),
        Value::Choice(choice) => print_choice(alloc, out, choice, expected),
    }
}

/// Prints a struct up to its members.
fn begin_struct<'a>(out: &mut Out, members: &'a [Value]) -> Result<Begun<'a>, AllocError>
    ensures written { IfOk result
        (λ b. (expected : Expected) →
        PrintsOrBegins expected (struct (views members.now)) (Some b)
        out.old.tokens out.new.tokens) }
    ensures fewer { IfOk result (λ b. left_count b.left ≡ member_node_count (views members.now)) }
{
    out.begin_array()?;
    Ok(Begun {
        left: Left::Members(members),
        braced: false,
    })
}

/// Prints an object up to its properties.
#[tactic(auto, using(crate::proofs::Counting::object_nodes))]
fn begin_object<'a>(out: &mut Out, object: &'a Object) -> Result<Begun<'a>, AllocError>
    ensures written { IfOk result
        (λ b. (expected : Expected) →
        PrintsOrBegins expected (object_view object.now) (Some b)
        out.old.tokens out.new.tokens) }
    ensures fewer { IfOk result (λ b. left_count b.left + 1 ≡ node_count (object_view object.now)) }
{
    open_object(out, object.type_, object.id)?;
    Ok(Begun {
        left: Left::Properties(object.properties.as_slice(), keys_of(object.type_)),
        braced: false,
    })
}

/// Prints an object of this type and id up to its properties.
fn open_object(out: &mut Out, type_: u32, id: u32) -> Result<(), AllocError>
    ensures { OnOk result ((expected : Expected) → Opens expected (an_object type_ id) out.old.tokens out.new.tokens) }
{
    begin_keyed_object(out, "type")?;
    print_name(out, Table::Types, type_)?;
    out.key("id")?;
    print_name(out, ids_of(type_), id)?;
    out.key("props")?;
    out.begin_object()
}

/// Prints the next value of a struct or of an object, or begins it, or prints the end.
fn print_next<'a>(alloc: Global, out: &mut Out, left: Left<'a>) -> Result<Next<'a>, AllocError>
    ensures written { IfOk result (λ next. PrintsNext left.entry next out.old.tokens out.new.tokens) }
    ensures less { IfOk result (λ next. IsLess left.entry next) }
{
    match left {
        Left::Members(members) => next_member(alloc, out, members),
        Left::Properties(properties, keys) => next_property(alloc, out, properties, keys),
    }
}

/// Prints the next member of a struct, or begins it, or prints the end.
fn next_member<'a>(
    alloc: Global,
    out: &mut Out,
    members: &'a [Value],
) -> Result<Next<'a>, AllocError>
    ensures written { IfOk result (λ next. PrintsNext (left.Members members.entry) next out.old.tokens out.new.tokens) }
    ensures less { IfOk result (λ next. IsLess (left.Members members.entry) next) }
{
    let Some((member, behind)) = members.split_first() else {
        out.end_array()?;
        return Ok(Next::Ended);
    };
    let rest = Begun {
        left: Left::Members(behind),
        braced: false,
    };
    match print_or_begin(alloc, out, member, Expected::NOTHING)? {
        Some(begun) => Ok(Next::Begun(rest, begun)),
        None => Ok(Next::Printed(rest)),
    }
}

/// Prints the next property of an object, or begins it, or prints the end.
fn next_property<'a>(
    alloc: Global,
    out: &mut Out,
    properties: &'a [Property],
    keys: Table,
) -> Result<Next<'a>, AllocError>
    ensures written { IfOk result
        (λ next. PrintsNext (left.Properties properties.entry keys) next
        out.old.tokens out.new.tokens) }
    ensures less { IfOk result (λ next. IsLess (left.Properties properties.entry keys) next) }
{
    let Some((property, behind)) = properties.split_first() else {
        out.end_object()?;
        out.end_object()?;
        return Ok(Next::Ended);
    };
    let braced = begin_property(out, keys, property.key, property.flags.bits())?;
    let rest = Begun {
        left: Left::Properties(behind, keys),
        braced,
    };
    let expected = expected_under(keys, property.key);
    match print_or_begin(alloc, out, &property.value, expected)? {
        Some(begun) => Ok(Next::Begun(rest, begun)),
        None => {
            end_braced(out, braced)?;
            Ok(Next::Printed(rest))
        }
    }
}

/// The name that is printed for a key: none that would be read as a number.
fn key_name(keys: Table, key: u32) -> Option<&'static str>
    ensures number { IfSome result (λ name. key_number keys name.now ≡ Some key) }
    ensures text { MatchOption result (key_text keys key ≡ decimal key) (λ name. key_text keys key ≡ name.now) }
{
    let name = name_of(keys, key)?;
    match number_of_digits(name) {
        Some(_) => None,
        None => Some(name),
    }
}

/// Prints a key, by its name where the table has one.
fn print_key(out: &mut Out, keys: Table, key: u32) -> Result<(), AllocError>
    ensures { OnOk result (PutsKey keys key out.old.tokens out.new.tokens) }
{
    match key_name(keys, key) {
        Some(name) => out.key(name),
        None => {
            let mut buffer = itoa::Buffer::new();
            out.key(buffer.format(key))
        }
    }
}

/// Prints a property's key and its flags, where it has any. Whether a brace follows its value.
fn begin_property(out: &mut Out, keys: Table, key: u32, flags: u32) -> Result<bool, AllocError>
    ensures { IfOk result (λ braced. BeginsProperty braced keys key flags out.old.tokens out.new.tokens) }
{
    print_key(out, keys, key)?;
    if flags == 0 {
        return Ok(false);
    }
    begin_keyed_object(out, "flags")?;
    out.u64(flags as u64)?;
    out.key("value")?;
    Ok(true)
}
