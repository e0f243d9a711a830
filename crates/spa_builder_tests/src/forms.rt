//! The forms of `builder_add!`.
use crate::bytes::{are_words, assert_holds, assert_holds_at};
use bitflags::Flags;
use spa_builder::{Builder, builder_add};
use spa_utils::{
    Choice, ChoiceEnum, ChoiceFlags, Errno, Float32, Float64, Fraction, Id, Rectangle,
};
use spa_value::Value;
use std::alloc::{AllocError, Global};

/// What is added.
#[derive(Clone, Copy)]
enum Form {
    Nothing,
    EmptyStruct,
    SmallStruct,
    StructInStruct,
    EmptyObject,
    Object,
    ObjectOfIds,
    ObjectOfAll,
    EveryPlainForm,
    ObjectWithFlags,
    Lists,
    Choices,
    WholeChoices,
}

/// The words of each form, by the rules of the format.
const FORMS: &[(Form, &[u32])] = &[
    (Form::Nothing, &[0, 1]),
    (Form::EmptyStruct, &[0, 14]),
    (Form::SmallStruct, &[16, 14, 4, 4, 3, 0]),
    (
        Form::StructInStruct,
        &[
            56, 14, 32, 14, 4, 6, 1106929254, 0, 4, 8, 7303014, 0, 4, 4, 3, 0,
        ],
    ),
    (Form::EmptyObject, &[8, 15, 4, 0]),
    (Form::Object, &[32, 15, 5, 3, 1, 0, 4, 4, 3, 0]),
    (
        Form::ObjectOfIds,
        &[56, 15, 4, 0, 1, 0, 4, 3, 2, 0, 2, 0, 4, 3, 7, 0],
    ),
    (
        Form::ObjectOfAll,
        &[
            80, 15, 5, 3, 1, 0, 0, 1, 2, 0, 8, 15, 6, 7, 3, 0, 16, 14, 4, 4, 3, 0,
        ],
    ),
    (
        Form::EveryPlainForm,
        &[
            176, 14, 0, 1, 4, 2, 1, 0, 8, 5, 1, 0, 4, 6, 1138491392, 0, 8, 7, 1, 0, 2, 8, 97, 0, 3,
            9, 197121, 0, 16, 17, 7, 0, 4096, 0, 8, 18, 9, 0, 8, 10, 31, 14, 8, 11, 16, 9,
        ],
    ),
    (
        Form::ObjectWithFlags,
        &[
            80, 15, 5, 3, 1, 16, 4, 4, 3, 0, 2, 0, 28, 19, 1, 0, 4, 4, 5, 2, 10, 0,
        ],
    ),
    (
        Form::Lists,
        &[
            96, 14, 16, 13, 4, 4, 1, 2, 16, 13, 8, 5, 9, 0, 20, 19, 0, 9, 4, 3, 7, 0, 4, 4, 8, 0,
        ],
    ),
    (
        Form::Choices,
        &[
            184, 15, 5, 3, 1, 0, 28, 19, 1, 0, 4, 4, 5, 2, 10, 0, 2, 0, 32, 19, 2, 0, 4, 4, 5, 2,
            10, 4, 3, 0, 20, 19, 3, 0, 4, 3, 7, 0, 4, 0, 24, 19, 4, 0, 4, 3, 1, 2,
        ],
    ),
    (
        Form::WholeChoices,
        &[
            72, 14, 28, 19, 1, 9, 4, 4, 5, 2, 10, 0, 24, 19, 0, 0, 8, 5, 7, 0,
        ],
    ),
];

/// Those rows. This function alone names them: one that does is proved with all of them.
fn forms() -> &'static [(Form, &'static [u32])] {
    FORMS
}

fn add_struct_in_struct(builder: &mut Builder) -> Result<(), Errno> {
    builder_add!(builder, Struct { Struct { Float(Float32(1106929254)), String("foo") }, Int(3) })
}

fn add_object_of_ids(builder: &mut Builder) -> Result<(), Errno> {
    builder_add!(builder, Object(4, 0,) { 1 => Id(Id(2)), 2 => Id(Id(7)), })
}

fn add_object_of_all(builder: &mut Builder) -> Result<(), Errno> {
    builder_add!(builder, Object(5, 3) { 1 => None, 2 => Object(6, 7) {}, 3 => Struct { Int(3) } })
}

fn add_every_plain_form(builder: &mut Builder) -> Result<(), Errno> {
    let size = Rectangle {
        width: 31,
        height: 14,
    };
    let rate = Fraction { num: 16, denom: 9 };
    builder_add!(builder, Struct {
        None, Bool(true), Long(1), Float(Float32(1138491392)), Double(Float64(1)), String("a"),
        Bytes(&[1, 2, 3]), Pointer(Id(7), 4096), Fd(9), Rectangle(size), Fraction(rate),
    })
}

fn add_object_with_flags(builder: &mut Builder) -> Result<(), Errno> {
    builder_add!(builder, Object(5, 3) {
        1, 16 => Int(3),
        2 => Choice(1, 0) { Int(5), Int(2), Int(10) },
    })
}

fn add_lists(builder: &mut Builder) -> Result<(), Errno> {
    let longs: [i64; 1] = [9];
    builder_add!(builder, Struct {
        Array { Int(1), Int(2) },
        Array(longs.as_slice()),
        Choice(0, 9,) { Id(Id(7)) },
        Value(&Value::Int(8)),
    })
}

fn add_choices(builder: &mut Builder) -> Result<(), Errno> {
    builder_add!(builder, Object(5, 3) {
        1 => Range { Int(5), Int(2), Int(10) },
        2 => Step { Int(5), Int(2), Int(10), Int(4) },
        3 => Enum { Id(Id(7)) },
        4 => Flags { Id(Id(1)), Id(Id(2)) },
    })
}

fn add_whole_choices(builder: &mut Builder) -> Result<(), Errno> {
    let range = ChoiceEnum::Range {
        default: 5,
        min: 2,
        max: 10,
    };
    let ints = Choice::<i32>(ChoiceFlags::from_bits_retain(9), range);
    let long = Choice::<i64>(ChoiceFlags::empty(), ChoiceEnum::None(7));
    builder_add!(builder, Struct { Choice(&ints), Choice(&long) })
}

fn add(builder: &mut Builder, form: Form) -> Result<(), Errno> {
    match form {
        Form::Nothing => builder_add!(builder, None),
        Form::EmptyStruct => builder_add!(builder, Struct {}),
        Form::SmallStruct => builder_add!(builder, Struct { Int(3) }),
        Form::StructInStruct => add_struct_in_struct(builder),
        Form::EmptyObject => builder_add!(builder, Object(4, 0) {}),
        Form::Object => builder_add!(builder, Object(5, 3) { 1 => Int(3) }),
        Form::ObjectOfIds => add_object_of_ids(builder),
        Form::ObjectOfAll => add_object_of_all(builder),
        Form::EveryPlainForm => add_every_plain_form(builder),
        Form::ObjectWithFlags => add_object_with_flags(builder),
        Form::Lists => add_lists(builder),
        Form::Choices => add_choices(builder),
        Form::WholeChoices => add_whole_choices(builder),
    }
}

/// Whether the form is accepted, and these are its words.
fn gives(alloc: Global, form: Form, words: &[u32]) -> Result<bool, AllocError> {
    let mut builder = Builder::new(Vec::new(alloc));
    match add(&mut builder, form) {
        Ok(()) => are_words(alloc, builder.as_bytes(), words),
        Err(Errno::NOMEM) => Err(AllocError),
        Err(_) => Ok(false),
    }
}

#[test]
fn each_form(rt: HostRuntime) -> Result<(), AllocError> {
    for (form, words) in forms() {
        let given = gives(rt.alloc(), *form, words)?;
        assert_holds_at(&rt, given, "a form", words);
    }
    Ok(())
}

/// Adds a struct whose second member is refused.
fn add_with_nul(builder: &mut Builder) -> Result<(), Errno> {
    builder_add!(builder, Struct { Int(3), String("a\0b"), Int(4) })
}

/// Whether a form with a refused member leaves what stood before it, and its struct open.
fn leaves_it_open(alloc: Global) -> Result<bool, AllocError> {
    let mut builder = Builder::new(Vec::new(alloc));
    let refused = add_with_nul(&mut builder);
    let left = builder.pop(spa_utils::Frame(1));
    if refused == Err(Errno::NOMEM) || left == Err(Errno::NOMEM) {
        return Err(AllocError);
    }
    let words = are_words(alloc, builder.as_bytes(), &[16, 14, 4, 4, 3, 0])?;
    Ok(refused == Err(Errno::INVAL) && left.is_ok() && words)
}

#[test]
fn a_refused_member(rt: HostRuntime) -> Result<(), AllocError> {
    let open = leaves_it_open(rt.alloc())?;
    assert_holds(&rt, open, "its struct stays open");
    Ok(())
}
