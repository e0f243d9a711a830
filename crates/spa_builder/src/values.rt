//! Adds values of any type.
ghost use Rattle.std.specs.Prelude.{◌≡◌, ◌≢◌, ◌++◌, IfErr, IfOk, OnErr, OnOk, length};
ghost use Rattle.spa_format.specs.Encoding.{encoding_of};
ghost use Rattle.spa_format.specs.Kind.{Fixed};
ghost use Rattle.spa_format.specs.Tree.{fixed};
ghost use Rattle.spa_format.specs.Writable.{IsWritable};
ghost use Rattle.spa_value.specs.View.{view};
ghost use Rattle.spa_builder.specs.State.{State};
ghost use Rattle.spa_builder.specs.Fields.{IsAt, HasState, fields_of};
ghost use Rattle.spa_builder.specs.Answers.{MakesValue, RefusesValue, errno_of};

use crate::building::{add_elements, add_fixed};
use crate::frames::{Frames, fill, takes_trees};
use spa_sink::GenError;
use spa_spare_capacity::Written;
use spa_utils::Errno;
use spa_value::Value;
use spa_value::laws::trees_have_their_types;
use spa_write::write_sized;

/// The builder's error for a value that can't be written.
fn errno_of(refusal: GenError) -> Errno
    ensures { result ≡ errno_of refusal }
{
    match refusal {
        GenError::NulInText => Errno::INVAL,
        GenError::TooLarge => Errno::NOSPC,
        _ => Errno::NOMEM,
    }
}

/// Appends the encoding of a value, and answers its length in bytes. A refused value changes nothing.
fn put_value(bytes: &mut Written, value: &Value) -> Result<usize, Errno>
    ensures length { IfOk result (λ n. n ≡ length (encoding_of (view value.now))) }
    ensures put { OnOk result (bytes.new ≡ bytes.old ++ encoding_of (view value.now)) }
    ensures writable { OnOk result (IsWritable (view value.now)) }
    ensures unchanged { OnErr result (bytes.new ≡ bytes.old) }
    ensures refused { IfErr result (RefusesValue (view value.now)) }
{
    let had = bytes.len();
    match write_sized(bytes, value) {
        Ok(len) => Ok(len as usize),
        Err(refusal) => {
            bytes.truncate(had);
            Err(errno_of(refusal))
        }
    }
}

/// Adds a value that isn't of fixed size, by its encoding.
fn add_written(bytes: &mut Written, frames: &mut Frames, value: &Value) -> Result<(), Errno>
    requires holds { HasState (fields_of bytes.old frames.old) }
    requires long { (x : Fixed) → view value.now ≢ fixed x }
    ensures { (s : State) → IsAt (fields_of bytes.old frames.old) s
        → MakesValue s (view value.now) (fields_of bytes.old frames.old) (fields_of bytes.new frames.new) result }
{
    let innermost = frames.innermost();
    if !takes_trees(innermost) {
        return Err(Errno::INVAL);
    }
    let had = bytes.len();
    let len = put_value(bytes, value)?;
    if !frames.has_room(had, len) {
        bytes.truncate(had);
        return Err(Errno::NOSPC);
    }
    fill(frames, innermost);
    Ok(())
}

/// Adds a value: one of fixed size as the call of its kind does, and an array as a whole one.
pub(crate) fn add_any(bytes: &mut Written, frames: &mut Frames, value: &Value) -> Result<(), Errno>
    requires { HasState (fields_of bytes.old frames.old) }
    ensures { (s : State) → IsAt (fields_of bytes.old frames.old) s
        → MakesValue s (view value.now) (fields_of bytes.old frames.old) (fields_of bytes.new frames.new) result }
{
    trees_have_their_types();
    match value {
        Value::None => add_fixed(bytes, frames, &()),
        Value::Bool(truth) => add_fixed(bytes, frames, truth),
        Value::Id(id) => add_fixed(bytes, frames, id),
        Value::Int(number) => add_fixed(bytes, frames, number),
        Value::Long(number) => add_fixed(bytes, frames, number),
        Value::Float(bits) => add_fixed(bytes, frames, bits),
        Value::Double(bits) => add_fixed(bytes, frames, bits),
        Value::Rectangle(rectangle) => add_fixed(bytes, frames, rectangle),
        Value::Fraction(fraction) => add_fixed(bytes, frames, fraction),
        Value::Fd(fd) => add_fixed(bytes, frames, fd),
        Value::ValueArray(values) => add_elements(bytes, frames, values),
        long => add_written(bytes, frames, long),
    }
}
