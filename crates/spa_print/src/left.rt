//! What is left to print of a container.
ghost use Rattle.std.specs.Prelude.{◌≡◌, ◌+◌, IfOk, IfSome};
ghost use Rattle.spa_format.specs.Tree.{member_node_count, node_count, property_node_count};
ghost use Rattle.spa_value.specs.View.{view};
ghost use Rattle.spa_value.specs.Views.{property_views, views};
ghost use Rattle.spa_print.specs.Counting.{GoesInside, left_count};

use spa_value::{Property, Value};
use std::fmt;

/// The members of a struct, or the properties of an object, that are left to print.
#[derive(Clone, Copy)]
pub(crate) enum Left<'a> {
    Members(&'a [Value]),
    Properties(&'a [Property]),
}

/// A container that is begun inside another one, and what is left behind it there.
#[derive(Clone, Copy)]
pub(crate) struct Inside<'a> {
    pub(crate) inner: Left<'a>,
    pub(crate) behind: Left<'a>,
}

/// Prints a value that is no container; of a container it prints the text before the members or properties, and answers these.
pub(crate) fn begin_printing<'a, W: fmt::Write>(
    f: &mut fmt::Formatter<W>,
    value: &'a Value,
) -> Result<Option<Left<'a>>, fmt::Error>
    ensures { IfOk result (λ begun. IfSome begun (λ left. left_count left + 1 ≡ node_count (view value.now))) }
{
    match value {
        Value::Struct(members) => {
            f.write_str("Struct([")?;
            Ok(Some(Left::Members(members.as_slice())))
        }
        Value::Object(object) => {
            let (type_, id) = (object.type_, object.id);
            write!(
                f,
                "Object(Object {{ type_: {type_}, id: {id}, properties: ["
            )?;
            Ok(Some(Left::Properties(object.properties.as_slice())))
        }
        leaf => {
            write!(f, "{leaf:?}")?;
            Ok(None)
        }
    }
}

impl<'a> Left<'a> {
    /// Prints up to the next container, which is begun, or to the end.
    pub(crate) fn print_on<W: fmt::Write>(
        self,
        f: &mut fmt::Formatter<W>,
    ) -> Result<Option<Inside<'a>>, fmt::Error>
        ensures { IfOk result (λ inside. IfSome inside (GoesInside (left_count self.entry))) }
    {
        match self {
            Left::Members(members) => print_members(f, members),
            Left::Properties(properties) => print_properties(f, properties),
        }
    }

    /// Prints the text between the value before these and the next of them.
    pub(crate) fn part<W: fmt::Write>(self, f: &mut fmt::Formatter<W>) -> fmt::Result {
        match self {
            Left::Members(members) => part_members(f, members),
            Left::Properties(properties) => part_properties(f, properties),
        }
    }
}

fn part_members<W: fmt::Write>(f: &mut fmt::Formatter<W>, left: &[Value]) -> fmt::Result {
    if left.is_empty() {
        Ok(())
    } else {
        f.write_str(", ")
    }
}

fn part_properties<W: fmt::Write>(f: &mut fmt::Formatter<W>, left: &[Property]) -> fmt::Result {
    if left.is_empty() {
        f.write_str(" }")
    } else {
        f.write_str(" }, ")
    }
}

/// Prints members up to the next container, which is begun, or to the end.
fn print_members<'a, W: fmt::Write>(
    f: &mut fmt::Formatter<W>,
    members: &'a [Value],
) -> Result<Option<Inside<'a>>, fmt::Error>
    ensures { IfOk result (λ inside. IfSome inside (GoesInside (member_node_count (views members.now)))) }
{
    let mut left = members;
    while let Some((member, behind)) = left.split_first() {
        if let Some(inner) = begin_printing(f, member)? {
            return Ok(Some(Inside {
                inner,
                behind: Left::Members(behind),
            }));
        }
        part_members(f, behind)?;
        left = behind;
    }
    f.write_str("])")?;
    Ok(None)
}

/// Prints properties up to the next whose value is a container, which is begun, or to the end.
fn print_properties<'a, W: fmt::Write>(
    f: &mut fmt::Formatter<W>,
    properties: &'a [Property],
) -> Result<Option<Inside<'a>>, fmt::Error>
    ensures { IfOk result (λ inside. IfSome inside (GoesInside (property_node_count (property_views properties.now)))) }
{
    let mut left = properties;
    while let Some((property, behind)) = left.split_first() {
        let (key, flags) = (property.key, property.flags);
        write!(f, "Property {{ key: {key}, flags: {flags:?}, value: ")?;
        if let Some(inner) = begin_printing(f, &property.value)? {
            return Ok(Some(Inside {
                inner,
                behind: Left::Properties(behind),
            }));
        }
        part_properties(f, behind)?;
        left = behind;
    }
    f.write_str("] })")?;
    Ok(None)
}
