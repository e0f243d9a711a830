//! Values of fixed size, printed.
ghost use Rattle.std.specs.Prelude.{◌≡◌, ◌∷◌, ◌++◌, [], codes, IfOk, OnOk, IfSome, Some};
ghost use Rattle.hex.specs.Hex.{encode_lower};
ghost use Rattle.json.specs.Token as token;
ghost use Rattle.spa_format.specs.Kind.{float, double};
ghost use Rattle.spa_format.specs.Tree.{fixed};
ghost use Rattle.spa_text_read.specs.Grammar.{bare, double_of, float_of};
ghost use Rattle.spa_text.specs.Printed.{scalar_text, two_tokens};
ghost use Rattle.spa_text.specs.Written.{BeginsNumber, Prints, Puts, PutsName, closing};

use crate::out::Out;
use spa_fixed_sized::CanonicalFixedSizedPod;
use spa_names::{Expected, Table};
use spa_text_read::names::name_of;
use spa_text_read::tag::{Scalar, bare};
use spa_utils::{Fd, Float32, Float64, Fraction, Id, Rectangle};
use std::alloc::{AllocError, Global};

/// A value of fixed size, which is printed bare where its type is expected, and else as an object of its type's name.
pub(crate) trait Printed: CanonicalFixedSizedPod {
    /// Prints it.
    fn print(self, alloc: Global, out: &mut Out, expected: Expected) -> Result<(), AllocError>
        ensures { OnOk result (Prints expected (fixed (Self.fixed self)) out.old.tokens out.new.tokens) };
}

impl Printed for () {
    fn print(self, _alloc: Global, out: &mut Out, _expected: Expected) -> Result<(), AllocError> {
        out.null()
    }
}

impl Printed for bool {
    fn print(self, _alloc: Global, out: &mut Out, _expected: Expected) -> Result<(), AllocError> {
        out.boolean(self)
    }
}

impl Printed for Id {
    fn print(self, _alloc: Global, out: &mut Out, expected: Expected) -> Result<(), AllocError> {
        let braced = begin_number(out, Scalar::Id, expected.type_.0)?;
        print_name(out, expected.ids, self.0)?;
        end_braced(out, braced)
    }
}

impl Printed for i32 {
    fn print(self, _alloc: Global, out: &mut Out, expected: Expected) -> Result<(), AllocError> {
        let braced = begin_number(out, Scalar::Int, expected.type_.0)?;
        out.i64(self as i64)?;
        end_braced(out, braced)
    }
}

impl Printed for i64 {
    fn print(self, _alloc: Global, out: &mut Out, expected: Expected) -> Result<(), AllocError> {
        let braced = begin_number(out, Scalar::Long, expected.type_.0)?;
        out.i64(self)?;
        end_braced(out, braced)
    }
}

impl Printed for Fd {
    fn print(self, _alloc: Global, out: &mut Out, expected: Expected) -> Result<(), AllocError> {
        let braced = begin_number(out, Scalar::Fd, expected.type_.0)?;
        out.i64(self.0)?;
        end_braced(out, braced)
    }
}

impl Printed for Float32 {
    fn print(self, alloc: Global, out: &mut Out, expected: Expected) -> Result<(), AllocError> {
        let braced = begin_number(out, Scalar::Float, expected.type_.0)?;
        print_float(alloc, out, self.0)?;
        end_braced(out, braced)
    }
}

impl Printed for Float64 {
    fn print(self, alloc: Global, out: &mut Out, expected: Expected) -> Result<(), AllocError> {
        let braced = begin_number(out, Scalar::Double, expected.type_.0)?;
        print_double(alloc, out, self.0)?;
        end_braced(out, braced)
    }
}

impl Printed for Rectangle {
    fn print(self, _alloc: Global, out: &mut Out, _expected: Expected) -> Result<(), AllocError> {
        print_two(out, "width", self.width, "height", self.height)
    }
}

impl Printed for Fraction {
    fn print(self, _alloc: Global, out: &mut Out, _expected: Expected) -> Result<(), AllocError> {
        print_two(out, "num", self.num, "denom", self.denom)
    }
}

/// Begins a JSON object, and writes its first key.
pub(crate) fn begin_keyed_object(out: &mut Out, name: &str) -> Result<(), AllocError>
    ensures { OnOk result (out.new.tokens ≡ out.old.tokens ++ (token.begin_object ∷ token.key name.now ∷ [])) }
{
    out.begin_object()?;
    out.key(name)
}

/// The name of a type whose values are numbers in a text.
fn scalar_name(scalar: Scalar) -> &'static str
    ensures { result.now ≡ scalar_text scalar }
{
    match scalar {
        Scalar::Id => "id",
        Scalar::Int => "int",
        Scalar::Long => "long",
        Scalar::Float => "float",
        Scalar::Double => "double",
        Scalar::Fd => "fd",
    }
}

/// Begins a number of this type: with a JSON object whose key is the type's name, unless a bare number is read as that type here. Answers whether
/// a brace has to close it.
#[inline(always)]
fn begin_number(out: &mut Out, scalar: Scalar, expected: u32) -> Result<bool, AllocError>
    ensures { IfOk result (λ braced. BeginsNumber braced expected scalar out.old.tokens out.new.tokens) }
{
    if bare(expected) == scalar {
        return Ok(false);
    }
    begin_keyed_object(out, scalar_name(scalar))?;
    Ok(true)
}

/// Prints the brace that follows a value, where one does.
pub(crate) fn end_braced(out: &mut Out, braced: bool) -> Result<(), AllocError>
    ensures { OnOk result (out.new.tokens ≡ out.old.tokens ++ closing braced) }
{
    if braced {
        return out.end_object();
    }
    Ok(())
}

/// Prints a number of 32 bits, by its name where the table has one.
pub(crate) fn print_name(out: &mut Out, table: Table, number: u32) -> Result<(), AllocError>
    ensures { OnOk result (PutsName table number out.old.tokens out.new.tokens) }
{
    match name_of(table, number) {
        Some(name) => out.string(name),
        None => out.u64(number as u64),
    }
}

/// Prints an object of two numbers under these keys.
fn print_two(out: &mut Out, first: &str, m: u32, second: &str, n: u32) -> Result<(), AllocError>
    ensures { OnOk result (out.new.tokens ≡ out.old.tokens ++ two_tokens first.now m second.now n) }
{
    begin_keyed_object(out, first)?;
    out.u64(m as u64)?;
    out.key(second)?;
    out.u64(n as u64)?;
    out.end_object()
}

/// Prints a float by its digits where it is finite, else by its bits.
fn print_float(alloc: Global, out: &mut Out, bits: u32) -> Result<(), AllocError>
    ensures { OnOk result (Puts float_of (float bits) out.old.tokens out.new.tokens) }
{
    if bits % 0x8000_0000 <= 0x7f80_0000 {
        let float = f32::from_bits(bits);
        if float.is_finite() {
            return out.float(float);
        }
    }
    print_bits(alloc, out, &bits.to_be_bytes())
}

/// Prints a double likewise.
fn print_double(alloc: Global, out: &mut Out, bits: u64) -> Result<(), AllocError>
    ensures { OnOk result (Puts double_of (double bits) out.old.tokens out.new.tokens) }
{
    if bits % 0x8000_0000_0000_0000 <= 0x7ff0_0000_0000_0000 {
        let double = f64::from_bits(bits);
        if double.is_finite() {
            return out.float(double);
        }
    }
    print_bits(alloc, out, &bits.to_be_bytes())
}

/// Prints the bytes of a number, the highest first, as `0x` and two digits for each.
pub(crate) fn print_bits(alloc: Global, out: &mut Out, bytes: &[u8]) -> Result<(), AllocError>
    ensures { OnOk result
        (out.new.tokens ≡ out.old.tokens ++ (token.string (codes "0x" ++ encode_lower bytes.now) ∷ [])) }
{
    let digits = hex::encode(alloc, bytes)?;
    let mut text = String::from_str(alloc, "0x")?;
    text.push_str(digits.as_str())?;
    out.string(text.as_str())
}
