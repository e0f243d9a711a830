//! Lists of calls, what each is answered, and the words in the vector at the end.
use crate::rows::Listed::{
    Abandon, AddBool, AddId, AddInt, AddLong, AddNone, AddProp, AddString, Pop, PushArray,
    PushChoice, PushObject, PushStruct,
};
use spa_builder::BuildCall;
use spa_utils::{Errno, Float32, Float64, Fraction, Frame, Id, Rectangle};
use spa_value::ValueArray;

/// A call's answer.
pub(crate) type Answer = Result<(), Errno>;

pub(crate) const ACCEPTED: Answer = Ok(());

pub(crate) const INVAL: Answer = Err(Errno::INVAL);

/// A call as a constant holds it, which no `BuildCall` can stand in.
#[derive(Clone, Copy)]
pub(crate) enum Listed {
    AddNone,
    AddBool(bool),
    AddId(u32),
    AddInt(i32),
    AddLong(i64),
    AddString(&'static str),
    AddProp(u32, u32),
    PushArray,
    PushChoice(u32, u32),
    PushStruct,
    PushObject(u32, u32),
    Pop(usize),
    Abandon(usize),
}

/// The call itself.
pub(crate) fn call_of(listed: Listed) -> BuildCall<'static> {
    match listed {
        Listed::AddNone => BuildCall::AddNone,
        Listed::AddBool(value) => BuildCall::AddBool(value),
        Listed::AddId(value) => BuildCall::AddId(Id(value)),
        Listed::AddInt(value) => BuildCall::AddInt(value),
        Listed::AddLong(value) => BuildCall::AddLong(value),
        Listed::AddString(text) => BuildCall::AddString(text),
        Listed::AddProp(key, flags) => BuildCall::AddProp(key, flags),
        Listed::PushArray => BuildCall::PushArray,
        Listed::PushChoice(shape, flags) => BuildCall::PushChoice(shape, flags),
        Listed::PushStruct => BuildCall::PushStruct,
        Listed::PushObject(type_, id) => BuildCall::PushObject(type_, id),
        Listed::Pop(frame) => BuildCall::Pop(Frame(frame)),
        Listed::Abandon(frame) => BuildCall::Abandon(Frame(frame)),
    }
}

/// Calls, each with its answer, and the words that they build.
#[derive(Clone, Copy)]
pub(crate) struct Row {
    pub(crate) case: &'static str,
    pub(crate) calls: &'static [(Listed, Answer)],
    pub(crate) words: &'static [u32],
}

const ROWS: &[Row] = &[
    Row {
        case: "a text with a NUL in a struct",
        calls: &[
            (PushStruct, ACCEPTED),
            (AddString("a\0b"), INVAL),
            (AddInt(3), ACCEPTED),
            (Pop(1), ACCEPTED),
        ],
        words: &[16, 14, 4, 4, 3, 0],
    },
    Row {
        case: "a range, which takes three values of one kind",
        calls: &[
            (PushChoice(1, 0), ACCEPTED),
            (AddInt(5), ACCEPTED),
            (Pop(1), INVAL),
            (AddLong(1), INVAL),
            (AddInt(2), ACCEPTED),
            (AddInt(10), ACCEPTED),
            (AddInt(9), INVAL),
            (Pop(1), ACCEPTED),
        ],
        words: &[28, 19, 1, 0, 4, 4, 5, 2, 10, 0],
    },
    Row {
        case: "a property, which is a key and then a value",
        calls: &[
            (PushObject(5, 3), ACCEPTED),
            (AddInt(3), INVAL),
            (AddProp(1, 0), ACCEPTED),
            (Pop(1), INVAL),
            (AddInt(3), ACCEPTED),
            (Pop(1), ACCEPTED),
        ],
        words: &[32, 15, 5, 3, 1, 0, 4, 4, 3, 0],
    },
    Row {
        case: "an array without elements",
        calls: &[(PushArray, ACCEPTED), (Pop(1), ACCEPTED)],
        words: &[8, 13, 0, 1],
    },
    Row {
        case: "the innermost frame is popped",
        calls: &[
            (PushStruct, ACCEPTED),
            (PushStruct, ACCEPTED),
            (Pop(1), INVAL),
            (Pop(2), ACCEPTED),
            (Pop(1), ACCEPTED),
        ],
        words: &[8, 14, 0, 14],
    },
    Row {
        case: "an array of units",
        calls: &[
            (PushArray, ACCEPTED),
            (AddNone, ACCEPTED),
            (AddNone, ACCEPTED),
            (AddInt(1), INVAL),
            (Pop(1), ACCEPTED),
        ],
        words: &[8, 13, 0, 1],
    },
    Row {
        case: "a choice of one value, with flags",
        calls: &[
            (PushChoice(5, 0), INVAL),
            (PushChoice(0, 9), ACCEPTED),
            (AddId(7), ACCEPTED),
            (AddId(8), INVAL),
            (Pop(1), ACCEPTED),
        ],
        words: &[20, 19, 0, 9, 4, 3, 7, 0],
    },
    Row {
        case: "what can't come there",
        calls: &[
            (AddProp(1, 0), INVAL),
            (Pop(1), INVAL),
            (Pop(0), INVAL),
            (PushObject(5, 3), ACCEPTED),
            (PushStruct, INVAL),
            (AddProp(1, 0), ACCEPTED),
            (AddProp(2, 0), INVAL),
            (Pop(1), INVAL),
            (PushArray, ACCEPTED),
            (AddString("a"), INVAL),
            (AddBool(true), ACCEPTED),
            (AddInt(1), INVAL),
            (PushStruct, INVAL),
            (Pop(1), INVAL),
            (Pop(2), ACCEPTED),
            (Pop(1), ACCEPTED),
        ],
        words: &[40, 15, 5, 3, 1, 0, 12, 13, 4, 2, 1, 0],
    },
    Row {
        case: "a struct given up, for whose value a key waits again, and an array",
        calls: &[
            (Abandon(0), INVAL),
            (PushObject(5, 3), ACCEPTED),
            (AddProp(1, 0), ACCEPTED),
            (PushStruct, ACCEPTED),
            (AddInt(4), ACCEPTED),
            (Abandon(1), INVAL),
            (Abandon(3), INVAL),
            (Abandon(2), ACCEPTED),
            (AddProp(2, 0), INVAL),
            (AddInt(3), ACCEPTED),
            (Pop(1), ACCEPTED),
            (PushArray, ACCEPTED),
            (AddLong(4), ACCEPTED),
            (Abandon(1), ACCEPTED),
            (AddId(9), ACCEPTED),
        ],
        words: &[32, 15, 5, 3, 1, 0, 4, 4, 3, 0, 4, 3, 9, 0],
    },
    Row {
        case: "an Int, and a text in a struct, in a struct",
        calls: &[
            (PushStruct, ACCEPTED),
            (AddInt(5), ACCEPTED),
            (PushStruct, ACCEPTED),
            (AddString("abc"), ACCEPTED),
            (Pop(2), ACCEPTED),
            (Pop(1), ACCEPTED),
        ],
        words: &[40, 14, 4, 4, 5, 0, 16, 14, 4, 8, 6513249, 0],
    },
];

/// Those rows. This function alone names them: one that does is proved with all of them.
pub(crate) fn all_rows() -> &'static [Row] {
    ROWS
}

/// The words that a struct of every add is.
pub(crate) const EVERY_ADD: &[u32] = &[
    200, 14, 4, 2, 1, 0, 8, 5, 1, 0, 4, 6, 1138491392, 0, 8, 7, 1, 0, 2, 8, 97, 0, 3, 9, 197121, 0,
    16, 17, 7, 0, 4096, 0, 8, 18, 9, 0, 8, 10, 31, 14, 8, 11, 16, 9, 20, 13, 4, 4, 10, 15, 19, 0,
];

/// The calls of that struct, with an array behind the others. Each is accepted.
pub(crate) fn every_add(array: &ValueArray) -> [BuildCall<'_>; 13] {
    let wide = Rectangle {
        width: 31,
        height: 14,
    };
    [
        BuildCall::PushStruct,
        BuildCall::AddBool(true),
        BuildCall::AddLong(1),
        BuildCall::AddFloat(Float32(1138491392)),
        BuildCall::AddDouble(Float64(1)),
        BuildCall::AddString("a"),
        BuildCall::AddBytes(&[1, 2, 3]),
        BuildCall::AddPointer(Id(7), 4096),
        BuildCall::AddFd(9),
        BuildCall::AddRectangle(wide),
        BuildCall::AddFraction(Fraction { num: 16, denom: 9 }),
        BuildCall::AddArray(array),
        BuildCall::Pop(Frame(1)),
    ]
}
