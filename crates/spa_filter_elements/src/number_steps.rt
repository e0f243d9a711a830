//! Multiples between bounds.
ghost use Rattle.spa_filter_elements.specs.NumberSteps.{AreNarrowed, IsCommonStep, IsFrom, IsOfMagnitude, IsRange};

use crate::common_multiples::common_multiple;

/// The multiples of a step from one number to another: the numbers whose magnitude is a multiple of the step's.
#[derive(Clone, Copy, PartialEq, Eq, Debug)]
pub struct NumberSteps {
    /// The least number that may be one of them.
    pub low: i64,
    /// The greatest number that may be one of them.
    pub high: i64,
    /// The step, which may be below 0.
    pub step: i64,
}

/// The numbers of `steps` that are multiples of another step, too. `least` and `greatest` are the bounds of a number type. The new step is as far from 0
/// as the least common multiple of the two, and above 0 where that is within the bounds: for the steps -16 and -2147483648 over 32 bits it is -2147483648.
/// Where the bounds hold no such number, only 0 may be a multiple of both: then `low` becomes at least 0, `high` at most 0, and the step stays.
pub fn narrowed(steps: &NumberSteps, other: i64, least: i64, greatest: i64) -> NumberSteps
    requires range { IsRange least greatest }
    requires low { IsFrom least greatest steps.now.low }
    requires high { IsFrom least greatest steps.now.high }
    requires step { IsFrom least greatest steps.now.step }
    ensures each { AreNarrowed steps.now.low steps.now.high steps.now.step other result.low result.high result.step }
    ensures low { IsFrom least greatest result.low }
    ensures high { IsFrom least greatest result.high }
    ensures step { IsFrom least greatest result.step }
{
    match common_step(steps.step, other, least, greatest) {
        Some(step) => NumberSteps {
            low: steps.low,
            high: steps.high,
            step,
        },
        None => NumberSteps {
            low: steps.low.max(0),
            high: steps.high.min(0),
            step: steps.step,
        },
    }
}

/// The step from `least` to `greatest` whose multiples are the common multiples of both steps. None: only 0 is one there.
fn common_step(x: i64, y: i64, least: i64, greatest: i64) -> Option<i64>
    requires { IsRange least greatest }
    ensures { IsCommonStep x y least greatest result }
{
    match common_multiple(x.unsigned_abs(), y.unsigned_abs()) {
        Some(common) => of_magnitude(common, least, greatest),
        None => None,
    }
}

/// The number from `least` to `greatest` with this magnitude, the positive one where it is there. None: neither is there.
fn of_magnitude(magnitude: u64, least: i64, greatest: i64) -> Option<i64>
    requires { IsRange least greatest }
    ensures { IsOfMagnitude magnitude least greatest result }
{
    if magnitude <= greatest.unsigned_abs() {
        return Some(magnitude as i64);
    }
    if magnitude == least.unsigned_abs() {
        return Some(least);
    }
    None
}
