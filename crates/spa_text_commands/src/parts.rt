//! Values taken apart, whatever their bytes are.
use spa_bytes::{HEADER_LEN, u32_at, u64_at};
use spa_names::Table;
use spa_utils::SpaTypes;
use spa_view::{Pod, body_bytes};

/// How many bytes a word takes.
const WORD_LEN: usize = 4;

/// How many bytes a pointer's body takes where its address has four, and where it has eight.
const SHORT_POINTER_LEN: usize = 12;

const POINTER_LEN: usize = 16;

/// A value as it is shown: its type and its body.
#[derive(Clone, Copy)]
pub(crate) struct Shown<'a> {
    /// Its type.
    pub(crate) type_: SpaTypes,
    /// Its body.
    pub(crate) body: &'a [u8],
    /// The names of ids there.
    pub(crate) ids: Table,
    /// Its pod; an element has none.
    pub(crate) pod: Option<Pod<'a>>,
}

/// What a value without others inside says.
#[derive(Clone, Copy)]
pub(crate) enum Scalar<'a> {
    Bool(bool),
    /// A number, and the table of its name.
    Id(u32, Table),
    Int(i32),
    Long(i64),
    /// The bits.
    Float(u32),
    /// The bits.
    Double(u64),
    /// The body as it is, with what should be a NUL behind the text.
    Text(&'a [u8]),
    Rectangle(u32, u32),
    Fraction(u32, u32),
    Fd(i64),
    /// The type of what is there, and its address.
    Pointer(u32, u64),
}

/// What a value is made of.
#[derive(Clone, Copy)]
pub(crate) enum Parts<'a> {
    /// It has nothing inside.
    Scalar(Scalar<'a>),
    /// Pods one after another.
    Struct(&'a [u8]),
    /// A type and an id, then properties.
    Object {
        type_: SpaTypes,
        id: u32,
        properties: &'a [u8],
    },
    /// A unit, then controls.
    Sequence {
        unit: u32,
        controls: &'a [u8],
    },
    /// The size and the type of elements, then these.
    Array {
        size: u32,
        type_: SpaTypes,
        elements: &'a [u8],
    },
    /// A shape and flags, the size and the type of values, then these.
    Choice {
        shape: u32,
        flags: u32,
        size: u32,
        type_: SpaTypes,
        values: &'a [u8],
    },
    /// Nothing but bytes: of a type that says no more, or too few for its type.
    Bytes(&'a [u8]),
}

impl<'a> Shown<'a> {
    /// The value of a pod, where ids have these names.
    pub(crate) fn of_pod(pod: Pod<'a>, ids: Table) -> Shown<'a> {
        Shown {
            type_: pod.type_(),
            body: body_bytes(&pod),
            ids,
            pod: Some(pod),
        }
    }

    /// Where its body begins, where it begins itself at this place: a pod's behind its header.
    pub(crate) fn body_place(&self, place: usize) -> usize {
        match self.pod {
            Some(_) => place.saturating_add(HEADER_LEN),
            None => place,
        }
    }

    /// The value taken apart.
    pub(crate) fn parts(&self) -> Parts<'a> {
        match self.members() {
            Some(parts) => parts,
            None => match self.scalar() {
                Some(scalar) => Parts::Scalar(scalar),
                None => Parts::Bytes(self.body),
            },
        }
    }

    /// The parts of a value that has others inside.
    fn members(&self) -> Option<Parts<'a>> {
        if self.type_ == SpaTypes::Struct {
            return Some(Parts::Struct(self.body));
        }
        let (first, second, rest) = split_words(self.body)?;
        match self.type_ {
            SpaTypes::Object => Some(Parts::Object {
                type_: SpaTypes(first),
                id: second,
                properties: rest,
            }),
            SpaTypes::Sequence => Some(Parts::Sequence {
                unit: first,
                controls: rest,
            }),
            SpaTypes::Array => Some(Parts::Array {
                size: first,
                type_: SpaTypes(second),
                elements: rest,
            }),
            SpaTypes::Choice => choice_of(first, second, rest),
            _ => None,
        }
    }

    /// What a value without others inside says; None where its body has too few bytes, or its type isn't such a one.
    fn scalar(&self) -> Option<Scalar<'a>> {
        let body = self.body;
        match self.type_ {
            SpaTypes::String => Some(Scalar::Text(body)),
            SpaTypes::Pointer => pointer_of(body),
            SpaTypes::Rectangle => {
                let (width, height, _) = split_words(body)?;
                Some(Scalar::Rectangle(width, height))
            }
            SpaTypes::Fraction => {
                let (num, denom, _) = split_words(body)?;
                Some(Scalar::Fraction(num, denom))
            }
            SpaTypes::Bool => Some(Scalar::Bool(word_of(body)? != 0)),
            SpaTypes::Id => Some(Scalar::Id(word_of(body)?, self.ids)),
            SpaTypes::Int => Some(Scalar::Int(i32::from_le_bytes(word_of(body)?.to_le_bytes()))),
            SpaTypes::Float => Some(Scalar::Float(word_of(body)?)),
            SpaTypes::Long => Some(Scalar::Long(i64::from_le_bytes(wide_of(body)?.to_le_bytes()))),
            SpaTypes::Fd => Some(Scalar::Fd(i64::from_le_bytes(wide_of(body)?.to_le_bytes()))),
            SpaTypes::Double => Some(Scalar::Double(wide_of(body)?)),
            _ => None,
        }
    }
}

/// The parts of a choice of this shape and these flags, whose values and what is said of them follow.
fn choice_of<'a>(shape: u32, flags: u32, child: &'a [u8]) -> Option<Parts<'a>> {
    let (size, type_, values) = split_words(child)?;
    Some(Parts::Choice {
        shape,
        flags,
        size,
        type_: SpaTypes(type_),
        values,
    })
}

/// A pointer, whose address has eight bytes or four.
fn pointer_of<'a>(body: &[u8]) -> Option<Scalar<'a>> {
    if body.len() >= POINTER_LEN {
        return Some(Scalar::Pointer(u32_at(body, 0), u64_at(body, HEADER_LEN)));
    }
    if body.len() >= SHORT_POINTER_LEN {
        return Some(Scalar::Pointer(u32_at(body, 0), u32_at(body, HEADER_LEN) as u64));
    }
    None
}

/// The four bytes at the front.
fn word_of(body: &[u8]) -> Option<u32> {
    if body.len() < WORD_LEN {
        return None;
    }
    Some(u32_at(body, 0))
}

/// The eight bytes at the front.
fn wide_of(body: &[u8]) -> Option<u64> {
    if body.len() < HEADER_LEN {
        return None;
    }
    Some(u64_at(body, 0))
}

/// The two words at the front, and what follows them.
pub(crate) fn split_words(bytes: &[u8]) -> Option<(u32, u32, &[u8])> {
    if bytes.len() < HEADER_LEN {
        return None;
    }
    let (words, rest) = bytes.split_at(HEADER_LEN);
    Some((u32_at(words, 0), u32_at(words, WORD_LEN), rest))
}
