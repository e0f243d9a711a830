//! Sizes that are wrong: they are refused by name, and before any memory is asked for. No test here takes memory of
//! its own: `rt try --test --fail-alloc 1` refuses the first request of all, and finds the same answers.
use spa_typed_read::PodDeserializer;
use spa_value::discard;
use std::alloc::Global;
use std::process::Abort;

/// Inputs, and the name of their refusal. A pod's first word is its size, its second one its type: 13 is an array, 19 a choice,
/// 14 a struct, 15 an object.
const ROWS: &[(&[u8], &str)] = &[
    // Sizes past the end of the input.
    (
        &[252, 255, 255, 255, 13, 0, 0, 0, 4, 0, 0, 0, 4, 0, 0, 0],
        "Short",
    ),
    (&[255, 255, 255, 255, 19, 0, 0, 0], "Short"),
    (&[248, 255, 255, 255, 14, 0, 0, 0], "Short"),
    (&[248, 255, 255, 255, 15, 0, 0, 0], "Short"),
    (&[255, 255, 255, 127, 8, 0, 0, 0], "Short"),
    (&[255, 255, 255, 127, 9, 0, 0, 0], "Short"),
    // An array of Ints whose child size is 8, 4294967295 or 0, and one with two bytes too many.
    (
        &[
            16, 0, 0, 0, 13, 0, 0, 0, 8, 0, 0, 0, 4, 0, 0, 0, 1, 0, 0, 0, 2, 0, 0, 0,
        ],
        "WrongSize",
    ),
    (
        &[
            16, 0, 0, 0, 13, 0, 0, 0, 255, 255, 255, 255, 4, 0, 0, 0, 1, 0, 0, 0, 2, 0, 0, 0,
        ],
        "WrongSize",
    ),
    (
        &[
            16, 0, 0, 0, 13, 0, 0, 0, 0, 0, 0, 0, 4, 0, 0, 0, 1, 0, 0, 0, 2, 0, 0, 0,
        ],
        "WrongSize",
    ),
    (
        &[
            14, 0, 0, 0, 13, 0, 0, 0, 4, 0, 0, 0, 4, 0, 0, 0, 1, 0, 0, 0, 2, 0, 0, 0,
        ],
        "WrongSize",
    ),
    // A choice with alternatives over Ints whose child size is 8, one with no value at all, and one of shape 7.
    (
        &[
            24, 0, 0, 0, 19, 0, 0, 0, 3, 0, 0, 0, 0, 0, 0, 0, 8, 0, 0, 0, 4, 0, 0, 0, 1, 0, 0, 0,
            2, 0, 0, 0,
        ],
        "WrongSize",
    ),
    (
        &[
            16, 0, 0, 0, 19, 0, 0, 0, 3, 0, 0, 0, 0, 0, 0, 0, 4, 0, 0, 0, 4, 0, 0, 0,
        ],
        "MissingChoiceValues",
    ),
    (
        &[
            24, 0, 0, 0, 19, 0, 0, 0, 7, 0, 0, 0, 0, 0, 0, 0, 4, 0, 0, 0, 4, 0, 0, 0, 1, 0, 0, 0,
            2, 0, 0, 0,
        ],
        "InvalidChoiceType",
    ),
    // A size past the end of a struct, and of an object behind its type, its id, a key and flags. What a member's own body is
    // refused for comes later: the list of the members grows before it is looked into.
    (
        &[8, 0, 0, 0, 14, 0, 0, 0, 252, 255, 255, 255, 13, 0, 0, 0],
        "Short",
    ),
    (
        &[
            24, 0, 0, 0, 15, 0, 0, 0, 5, 0, 0, 0, 3, 0, 0, 0, 1, 0, 0, 0, 0, 0, 0, 0, 252, 255,
            255, 255, 13, 0, 0, 0,
        ],
        "Short",
    ),
];

/// Those rows. This function alone names them: one that does is proved with all of them.
fn rows() -> &'static [(&'static [u8], &'static str)] {
    ROWS
}

/// The name of the refusal, or that there is none.
fn answer_to(alloc: Global, input: &[u8]) -> &'static str {
    match PodDeserializer::deserialize_any_from(alloc, input) {
        Ok((_, value)) => {
            discard(value);
            "accepted"
        }
        Err(error) => error.kind(),
    }
}

/// Compares an answer with the wanted one.
fn assert_answer(rt: &impl Abort, found: &str, wanted: &str, input: &[u8]) {
    assert_eq!(rt; found, wanted, "at {input:?}");
}

#[test]
fn wrong_sizes_are_refused_before_memory_is_asked_for(rt: HostRuntime) {
    for (input, wanted) in rows() {
        assert_answer(&rt, answer_to(rt.alloc(), input), wanted, input);
    }
}
