//! Steps: the multiples of an element from another to a third.
ghost use Rattle.std.specs.Prelude.{◌≡◌, ◌↔◌, IsTrue};
ghost use Rattle.spa_filter_elements.specs.Multiples.{IsFirstMultiple};
ghost use Rattle.spa_filter_elements.specs.Narrowing.{AreInBoth, AreNarrowed, AreOfBoth, AreSidesNarrowed, IsFirst, IsInStepsOf};
ghost use Rattle.spa_filter_elements.specs.Steps.{IsMultipleOf, IsStepKind};

use crate::common_multiples::is_multiple;
use crate::first::{first_multiple, first_signed};
use crate::lattice::Lattice;
use crate::number_steps::{NumberSteps, narrowed};
use crate::ordered::{Ordered, Plain};
use spa_utils::{Id, Rectangle};

/// The multiples of a step from one element to another.
#[derive(Clone, Copy)]
pub struct Steps<T> {
    /// The least element that may be one of them.
    pub low: T,
    /// The greatest element that may be one of them.
    pub high: T,
    /// The step.
    pub step: T,
}

/// One of the nine types over which there are choices, with its steps where it has them.
pub trait Stepped: Lattice {
    /// Whether this element is a multiple of the other.
    fn is_multiple(&self, step: &Self) -> bool
        ensures { IsTrue result ↔ IsMultipleOf (Self.fixed self.now) (Self.fixed step.now) };

    /// The multiples of `steps` that are multiples of another step, too.
    fn narrowed(steps: &Steps<Self>, other: &Self) -> Steps<Self>
        ensures { AreNarrowed Self.fixed steps.now other.now result };

    /// The first of the multiples of `steps`; of rectangles that with the first width and the first height. None: there are none.
    fn first(steps: &Steps<Self>) -> Option<Self>
        ensures { IsFirst Self.fixed steps.now result };
}

/// Whether an element is one of these multiples.
pub fn is_in_steps<T: Stepped>(steps: &Steps<T>, x: &T) -> bool
    ensures { IsTrue result ↔ IsInStepsOf T.fixed steps.now (T.fixed x.now) }
{
    steps.low.is_at_most(x) && x.is_at_most(&steps.high) && x.is_multiple(&steps.step)
}

/// The multiples of `steps` that are from `low` to `high`.
pub fn within<T: Stepped>(steps: &Steps<T>, low: &T, high: &T) -> Steps<T>
    ensures { AreInBoth T.fixed steps.now (T.fixed low.now) (T.fixed high.now) result }
{
    Steps {
        low: steps.low.greater(low),
        high: steps.high.lesser(high),
        step: steps.step,
    }
}

/// The multiples that both lists of steps have.
pub fn multiples_of_both<T: Stepped>(steps: &Steps<T>, others: &Steps<T>) -> Steps<T>
    ensures { AreOfBoth T.fixed steps.now others.now result }
{
    T::narrowed(&within(steps, &others.low, &others.high), &others.step)
}

/// The multiples of another step, of a type that has no steps: any answer fits the contract.
fn narrowed_of_none<T: Ordered>(steps: &Steps<T>, other: &T) -> Steps<T>
    requires { ¬ (IsStepKind T.kind) }
    ensures { AreNarrowed T.fixed steps.now other.now result }
{
    let _other = *other;
    *steps
}

/// The first multiple, of a type that has no steps: there is none.
fn first_of_none<T: Ordered>(steps: &Steps<T>) -> Option<T>
    requires { ¬ (IsStepKind T.kind) }
    ensures { IsFirst T.fixed steps.now result }
{
    let _steps = *steps;
    None
}

/// The least number of an Int.
const INT_LEAST: i64 = -0x8000_0000;

/// The greatest number of an Int.
const INT_GREATEST: i64 = 0x7fff_ffff;

/// The greatest length of a side of a rectangle.
const SIDE_GREATEST: i64 = 0xffff_ffff;

/// The widths of rectangles.
fn widths(steps: &Steps<Rectangle>) -> Steps<u32>
    ensures low { result.low ≡ steps.now.low.width }
    ensures high { result.high ≡ steps.now.high.width }
    ensures step { result.step ≡ steps.now.step.width }
{
    Steps {
        low: steps.low.width,
        high: steps.high.width,
        step: steps.step.width,
    }
}

/// The heights of rectangles.
fn heights(steps: &Steps<Rectangle>) -> Steps<u32>
    ensures low { result.low ≡ steps.now.low.height }
    ensures high { result.high ≡ steps.now.high.height }
    ensures step { result.step ≡ steps.now.step.height }
{
    Steps {
        low: steps.low.height,
        high: steps.high.height,
        step: steps.step.height,
    }
}

/// The lengths of a side that are multiples of another step, too.
fn narrowed_side(steps: &Steps<u32>, other: u32) -> Steps<u32>
    ensures { AreSidesNarrowed steps.now other result }
{
    let wide = NumberSteps {
        low: i64::from(steps.low),
        high: i64::from(steps.high),
        step: i64::from(steps.step),
    };
    let met = narrowed(&wide, i64::from(other), 0, SIDE_GREATEST);
    Steps {
        low: met.low as u32,
        high: met.high as u32,
        step: met.step as u32,
    }
}

/// The first of these lengths of a side. None: there are none.
fn first_side(steps: &Steps<u32>) -> Option<u32>
    ensures { IsFirstMultiple steps.now.low steps.now.high steps.now.step result }
{
    let low = u64::from(steps.low);
    match first_multiple(low, u64::from(steps.high), u64::from(steps.step)) {
        Some(found) => Some(found as u32),
        None => None,
    }
}

impl<T: Plain> Stepped for T {
    fn is_multiple(&self, step: &Self) -> bool {
        let _step = *step;
        false
    }

    fn narrowed(steps: &Steps<Self>, other: &Self) -> Steps<Self> {
        narrowed_of_none(steps, other)
    }

    fn first(steps: &Steps<Self>) -> Option<Self> {
        first_of_none(steps)
    }
}

impl Stepped for Id {
    fn is_multiple(&self, step: &Self) -> bool {
        let _step = *step;
        false
    }

    fn narrowed(steps: &Steps<Self>, other: &Self) -> Steps<Self> {
        narrowed_of_none(steps, other)
    }

    fn first(steps: &Steps<Self>) -> Option<Self> {
        first_of_none(steps)
    }
}

impl Stepped for i32 {
    fn is_multiple(&self, step: &Self) -> bool {
        is_multiple(
            u64::from(self.unsigned_abs()),
            u64::from(step.unsigned_abs()),
        )
    }

    fn narrowed(steps: &Steps<Self>, other: &Self) -> Steps<Self> {
        let wide = NumberSteps {
            low: i64::from(steps.low),
            high: i64::from(steps.high),
            step: i64::from(steps.step),
        };
        let met = narrowed(&wide, i64::from(*other), INT_LEAST, INT_GREATEST);
        Steps {
            low: met.low as i32,
            high: met.high as i32,
            step: met.step as i32,
        }
    }

    fn first(steps: &Steps<Self>) -> Option<Self> {
        let step = u64::from(steps.step.unsigned_abs());
        match first_signed(i64::from(steps.low), i64::from(steps.high), step) {
            Some(found) => Some(found as i32),
            None => None,
        }
    }
}

impl Stepped for i64 {
    fn is_multiple(&self, step: &Self) -> bool {
        is_multiple(self.unsigned_abs(), step.unsigned_abs())
    }

    fn narrowed(steps: &Steps<Self>, other: &Self) -> Steps<Self> {
        let all = NumberSteps {
            low: steps.low,
            high: steps.high,
            step: steps.step,
        };
        let met = narrowed(&all, *other, i64::MIN, i64::MAX);
        Steps {
            low: met.low,
            high: met.high,
            step: met.step,
        }
    }

    fn first(steps: &Steps<Self>) -> Option<Self> {
        first_signed(steps.low, steps.high, steps.step.unsigned_abs())
    }
}

impl Stepped for Rectangle {
    fn is_multiple(&self, step: &Self) -> bool {
        is_multiple(u64::from(self.width), u64::from(step.width))
            && is_multiple(u64::from(self.height), u64::from(step.height))
    }

    fn narrowed(steps: &Steps<Self>, other: &Self) -> Steps<Self> {
        let width = narrowed_side(&widths(steps), other.width);
        let height = narrowed_side(&heights(steps), other.height);
        Steps {
            low: Rectangle {
                width: width.low,
                height: height.low,
            },
            high: Rectangle {
                width: width.high,
                height: height.high,
            },
            step: Rectangle {
                width: width.step,
                height: height.step,
            },
        }
    }

    fn first(steps: &Steps<Self>) -> Option<Self> {
        let width = first_side(&widths(steps))?;
        let height = first_side(&heights(steps))?;
        Some(Rectangle { width, height })
    }
}
