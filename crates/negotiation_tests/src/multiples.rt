//! Multiples that were found by hand.
ghost use Rattle.std.specs.Prelude.{◌≡◌};

use spa_filter_elements::{
    NumberSteps, common_multiple, first_multiple, first_signed, is_multiple, narrowed,
};

/// Two numbers, and their least common multiple.
const COMMON: &[(u64, u64, Option<u64>)] = &[
    (4, 6, Some(12)),
    (6, 4, Some(12)),
    (5, 5, Some(5)),
    (1, 9, Some(9)),
    (0, 7, Some(0)),
    (7, 0, Some(0)),
    (1 << 63, 2, Some(1 << 63)),
    (1 << 63, 3, None),
    (u64::MAX, u64::MAX - 1, None),
];

/// Those rows. This function alone names them: one that does is proved with all of them.
fn pairs() -> &'static [(u64, u64, Option<u64>)] {
    COMMON
}

#[test]
fn common_multiples_are_the_least(rt: HostRuntime) {
    for (x, y, wanted) in pairs() {
        assert_eq!(rt; common_multiple(*x, *y), *wanted, "of {x} and {y}");
    }
}

/// Two ends, a step, and its first multiple within them.
const FIRST: &[(u64, u64, u64, Option<u64>)] = &[
    (7, 30, 5, Some(10)),
    (10, 10, 5, Some(10)),
    (11, 14, 5, None),
    (0, 3, 5, Some(0)),
    (3, 2, 1, None),
    (1, 9, 0, None),
    (u64::MAX - 1, u64::MAX, 1 << 32, None),
];

/// Those rows. This function alone names them: one that does is proved with all of them.
fn ranges() -> &'static [(u64, u64, u64, Option<u64>)] {
    FIRST
}

#[test]
fn the_first_multiple_is_within_both_ends(rt: HostRuntime) {
    for (low, high, step, wanted) in ranges() {
        assert_eq!(rt;
            first_multiple(*low, *high, *step),
            *wanted,
            "of {step} from {low} to {high}"
        );
    }
}

/// Bounds with signs, a step, and the first multiple of the step between the bounds.
const SIGNED: &[(i64, i64, u64, Option<i64>)] = &[
    (-7, 30, 5, Some(-5)),
    (-10, -10, 5, Some(-10)),
    (-4, 9, 5, Some(0)),
    (-4, -1, 5, None),
    (2, 9, 5, Some(5)),
    (2, -9, 5, None),
    (-9, 9, 0, None),
    (i64::MIN, 0, 1 << 63, Some(i64::MIN)),
];

/// Those rows. This function alone names them: one that does is proved with all of them.
fn signed_ranges() -> &'static [(i64, i64, u64, Option<i64>)] {
    SIGNED
}

#[test]
fn numbers_below_zero_have_multiples_too(rt: HostRuntime) {
    for (low, high, step, wanted) in signed_ranges() {
        assert_eq!(rt;
            first_signed(*low, *high, *step),
            *wanted,
            "of {step} from {low} to {high}"
        );
    }
}

/// A number, a step, and whether the number is a multiple of it.
const OF_A_STEP: &[(u64, u64, bool)] = &[
    (0, 0, false),
    (6, 0, false),
    (0, 6, true),
    (12, 6, true),
    (13, 6, false),
];

/// Those rows. This function alone names them: one that does is proved with all of them.
fn numbers() -> &'static [(u64, u64, bool)] {
    OF_A_STEP
}

#[test]
fn no_number_is_a_multiple_of_zero(rt: HostRuntime) {
    for (number, step, wanted) in numbers() {
        assert_eq!(rt; is_multiple(*number, *step), *wanted, "{number} by {step}");
    }
}

/// Steps between two ends, another step, and what they are narrowed to, all of 32 bits.
const NARROWED: &[((i32, i32, i32), i64, (i32, i32, i32))] = &[
    ((-20, 90, 4), 6, (-20, 90, 12)),
    ((-20, 90, -4), -6, (-20, 90, 12)),
    ((-20, 90, 4), 0, (-20, 90, 0)),
    (
        (i32::MIN, i32::MAX, 1 << 30),
        1 << 16,
        (i32::MIN, i32::MAX, 1 << 30),
    ),
    (
        (i32::MIN, i32::MAX, i32::MIN),
        8,
        (i32::MIN, i32::MAX, i32::MIN),
    ),
    ((-20, 90, 65_536), 65_537, (0, 0, 65_536)),
    ((7, 90, 65_536), 65_537, (7, 0, 65_536)),
];

/// Those rows. This function alone names them: one that does is proved with all of them.
fn steps_narrowed() -> &'static [((i32, i32, i32), i64, (i32, i32, i32))] {
    NARROWED
}

/// Steps of numbers of 32 bits.
fn steps(low: i32, high: i32, step: i32) -> NumberSteps
    ensures { result.low ≡ low × result.high ≡ high × result.step ≡ step }
{
    NumberSteps {
        low: i64::from(low),
        high: i64::from(high),
        step: i64::from(step),
    }
}

#[test]
fn steps_are_narrowed_by_another(rt: HostRuntime) {
    for ((low, high, step), other, (least_met, greatest_met, step_met)) in steps_narrowed() {
        let found = narrowed(
            &steps(*low, *high, *step),
            *other,
            i64::from(i32::MIN),
            i64::from(i32::MAX),
        );
        let wanted = steps(*least_met, *greatest_met, *step_met);
        assert_eq!(rt; found, wanted, "{low} {high} {step} {other}");
    }
}
