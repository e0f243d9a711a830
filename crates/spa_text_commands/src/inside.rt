//! What stands inside a value, one item after another: members, properties, controls, elements, rows of bytes.
use crate::dump::ROW_LEN;
use crate::parts::{Parts, Shown, split_words};
use spa_names::{Table, expected_under, keys_of};
use spa_utils::SpaTypes;
use spa_view::split_first;

/// How many bytes the words at the front of the body of an object, an array or a sequence take.
const SHORT_FRONT_LEN: usize = 8;

/// How many bytes those of a choice take.
const LONG_FRONT_LEN: usize = 16;

/// What stands before a value.
#[derive(Clone, Copy)]
pub(crate) enum Label {
    /// Nothing.
    Bare,
    /// A key of this table, and the flags of its property.
    Property { keys: Table, key: u32, flags: u32 },
    /// A control's offset and type.
    Control { offset: u32, type_: u32 },
}

/// Something inside a value.
#[derive(Clone, Copy)]
pub(crate) enum Item<'a> {
    /// A value.
    Value(Label, Shown<'a>),
    /// A row of a dump.
    Row(&'a [u8]),
    /// Bytes that are no whole member, property, control or element.
    Rest(&'a [u8]),
}

/// What the items inside a value are.
#[derive(Clone, Copy)]
enum Kind {
    Members,
    /// Properties, whose keys are of this table.
    Properties(Table),
    Controls,
    /// Elements of a type and a size, where ids have these names.
    Elements(SpaTypes, usize, Table),
    Rows,
}

/// What is left inside an open value.
#[derive(Clone, Copy)]
pub(crate) struct Inside<'a> {
    kind: Kind,
    left: &'a [u8],
    /// Where what is left begins, counted from the front of the input.
    pub(crate) place: usize,
    /// How many values are open around its items.
    pub(crate) depth: usize,
}

impl<'a> Inside<'a> {
    /// What is inside these parts of a value inside so many, whose body begins at this place; None where its own line says all.
    pub(crate) fn of(
        parts: Parts<'a>,
        ids: Table,
        place: usize,
        depth: usize,
    ) -> Option<Inside<'a>> {
        let (kind, left, front) = match parts {
            Parts::Scalar(_) => return None,
            Parts::Struct(members) => (Kind::Members, members, 0),
            Parts::Object {
                type_,
                properties,
                ..
            } => (
                Kind::Properties(keys_of(type_)),
                properties,
                SHORT_FRONT_LEN,
            ),
            Parts::Sequence { controls, .. } => (Kind::Controls, controls, SHORT_FRONT_LEN),
            Parts::Array {
                size,
                type_,
                elements,
            } => (
                Kind::Elements(type_, size as usize, ids),
                elements,
                SHORT_FRONT_LEN,
            ),
            Parts::Choice {
                size,
                type_,
                values,
                ..
            } => (
                Kind::Elements(type_, size as usize, ids),
                values,
                LONG_FRONT_LEN,
            ),
            Parts::Bytes(bytes) => (Kind::Rows, bytes, 0),
        };
        Some(Inside {
            kind,
            left,
            place: place.saturating_add(front),
            depth: depth.saturating_add(1),
        })
    }

    /// The next item.
    pub(crate) fn next(&mut self) -> Option<Item<'a>> {
        if self.left.is_empty() {
            return None;
        }
        let (item, left) = match self.split() {
            Some(split) => split,
            None => (Item::Rest(self.left), self.left.split_at(self.left.len()).1),
        };
        self.place = self
            .place
            .saturating_add(self.left.len().saturating_sub(left.len()));
        self.left = left;
        Some(item)
    }

    /// The first whole item, and what follows it.
    fn split(&self) -> Option<(Item<'a>, &'a [u8])> {
        match self.kind {
            Kind::Members => split_value(self.left, Label::Bare, Table::Nothing),
            Kind::Properties(keys) => {
                let (key, flags, value) = split_words(self.left)?;
                let label = Label::Property { keys, key, flags };
                split_value(value, label, expected_under(keys, key).ids)
            }
            Kind::Controls => {
                let (offset, type_, value) = split_words(self.left)?;
                split_value(value, Label::Control { offset, type_ }, Table::Nothing)
            }
            Kind::Elements(type_, size, ids) => split_element(self.left, type_, size, ids),
            Kind::Rows => {
                let (row, left) = self.left.split_at(self.left.len().min(ROW_LEN));
                Some((Item::Row(row), left))
            }
        }
    }
}

/// The value of the whole pod at the front, under its label, and what follows it.
fn split_value<'a>(bytes: &'a [u8], label: Label, ids: Table) -> Option<(Item<'a>, &'a [u8])> {
    let (pod, left) = split_first(bytes)?;
    Some((Item::Value(label, Shown::of_pod(pod, ids)), left))
}

/// The element at the front, and what follows it.
fn split_element<'a>(
    bytes: &'a [u8],
    type_: SpaTypes,
    size: usize,
    ids: Table,
) -> Option<(Item<'a>, &'a [u8])> {
    if size == 0 || bytes.len() < size {
        return None;
    }
    let (body, left) = bytes.split_at(size);
    let element = Shown {
        type_,
        body,
        ids,
        pod: None,
    };
    Some((Item::Value(Label::Bare, element), left))
}
