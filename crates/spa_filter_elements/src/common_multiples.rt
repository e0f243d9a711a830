//! Multiples that two numbers have in common.
ghost use Rattle.std.specs.Prelude.{◌<◌, ◌↔◌, IsTrue};
ghost use Rattle.spa_filter_elements.specs.Multiples.{IsCommonMultiple, IsMultiple};
ghost use Rattle.spa_filter_elements.specs.Ratios.{HasRatio};

/// Whether a number is a multiple of a step. No number is a multiple of 0.
pub fn is_multiple(number: u64, step: u64) -> bool
    ensures { IsTrue result ↔ IsMultiple number step }
{
    step > 0 && number % step == 0
}

/// The number whose multiples are the common multiples of both: their least common multiple, or 0 where one of them is 0. None: it is 2^64 or
/// more, so that of the numbers below 2^64 only 0 is a multiple of both.
pub fn common_multiple(x: u64, y: u64) -> Option<u64>
    ensures { IsCommonMultiple x y result }
{
    if x == 0 || y == 0 {
        return Some(0);
    }
    least_common(x, y)
}

/// The least common multiple of two numbers above 0.
fn least_common(x: u64, y: u64) -> Option<u64>
    requires first { 0 < x }
    requires second { 0 < y }
    ensures { IsCommonMultiple x y result }
{
    let divisor = greatest_divisor(x, y);
    let factor = y / divisor;
    x.checked_mul(factor)
}

/// The greatest common divisor of two numbers.
fn greatest_divisor(x: u64, y: u64) -> u64
    requires { 0 < x }
    ensures positive { 0 < result }
    ensures ratio { HasRatio x y result }
{
    let mut first = x;
    let mut second = y;
    while second > 0 {
        let rest = first % second;
        first = second;
        second = rest;
    }
    first
}
