//! Pods as text with names, and back.
ghost use Rattle.std.specs.Prelude.{◌≡◌, ◌<◌, ◌≤◌, List, length, ℕ};
ghost use Rattle.spa_format.specs.Encoding.{encoding_of};
ghost use Rattle.spa_format.specs.Front.{Begins, IsRefused};
ghost use Rattle.spa_format.specs.Tree.{Tree};
ghost use Rattle.spa_format.specs.Writable.{HasNul, IsTooLarge};
ghost use Rattle.spa_text_read.specs.Grammar.{IsTextOf};
ghost use Rattle.spa_value.specs.View.{view};
ghost use Rattle.spav.specs.Answers.{IsDone, IsInvalid, IsJsonRead, IsNoMemory, IsNoRoom, IsPast, IsRewritten};
ghost use Rattle.spav.specs.Text.{HasNoPod, IsJsonOf};
ghost use Rattle.spav.specs.Lists.{IsWritten};
ghost use Rattle.spav.specs.Reading.{TextIsPut};

use crate::answers::{INVALID, NO_MEMORY, PAST};
use crate::lists::put_front;
use crate::reading::put_text;
use spa_fixed_sized::DeserializeError;
use spa_sink::GenError;
use spa_text::{Cause, print, read};
use spa_typed_read::PodDeserializer;
use spa_value::{Held, Value};
use spa_write::write_value;
use std::alloc::Global;
use std::str;

/// Writes the text of the pod at the front of the input, one line of JSON with PipeWire's names, and one NUL to the front of `out`.
///
/// 0: `len` is the text's length, without the NUL. -ENOSPC: `out` has no more than that. -EINVAL: no pod is at the front. -ENOMEM: memory was asked for
/// and refused. Where the answer isn't 0, `out` is unchanged.
#[unsafe(no_mangle)]
pub extern "C" fn spav_json(alloc: Global, input: &[u8], out: &mut [u8], len: &mut usize) -> i32
    ensures text { IsDone result → (value : Tree) × (text : List ℕ) × Begins input.now value × IsJsonOf value text
        × TextIsPut text len.new out.old out.new }
    ensures room { IsNoRoom result → (value : Tree) × (text : List ℕ) × Begins input.now value × IsJsonOf value text
        × (len.new ≡ length text) × (length out.old ≤ length text) }
    ensures refused { IsInvalid result → IsRefused input.now }
    ensures answers { IsRewritten result }
    ensures unchanged { ¬ (IsDone result) → out.new ≡ out.old }
{
    let value = match PodDeserializer::deserialize_any_from(alloc, input) {
        Ok((_rest, value)) => Held::from(value),
        Err(DeserializeError::OutOfMemory) => return NO_MEMORY,
        Err(_) => return INVALID,
    };
    let mut text = Vec::new(alloc);
    match print(alloc, &*value, &mut text) {
        Ok(()) => put_text(text.as_slice(), out, len),
        Err(_) => NO_MEMORY,
    }
}

/// Writes the pod of the value that a text is to the front of `out`.
///
/// 0: `written` is the pod's length in bytes, and `out` is unchanged behind it. -ENOSPC: that length, `written`, is more than `out` has. -EINVAL: the
/// text isn't UTF-8, or isn't that of a value, and was read up to the byte `at`; or a string in the value holds NUL, and `at` is 0. -EOVERFLOW: a size in
/// the pod is 2^32 or more. -ENOMEM: memory was asked for and refused. Where the answer isn't 0, `out` is unchanged.
#[unsafe(no_mangle)]
pub extern "C" fn spav_from_json(
    alloc: Global,
    text: &[u8],
    out: &mut [u8],
    written: &mut usize,
    at: &mut usize,
) -> i32
    ensures done { IsDone result → (value : Tree) × IsTextOf value text.now
        × IsWritten (encoding_of value) written.new out.old out.new }
    ensures room { IsNoRoom result → (value : Tree) × IsTextOf value text.now
        × (written.new ≡ length (encoding_of value)) × (length out.old < length (encoding_of value)) }
    ensures refused { IsInvalid result → HasNoPod text.now }
    ensures past { IsPast result → (value : Tree) × IsTextOf value text.now × IsTooLarge value }
    ensures answers { IsJsonRead result }
    ensures unchanged { ¬ (IsDone result) → out.new ≡ out.old }
{
    let text = match str::from_utf8(text) {
        Ok(text) => text,
        Err(error) => {
            *at = error.valid_up_to();
            return INVALID;
        }
    };
    match read(alloc, text) {
        Ok(value) => put_value(alloc, &*Held::from(value), out, written, at),
        Err(error) => {
            if error.cause == Cause::OutOfMemory {
                return NO_MEMORY;
            }
            *at = error.offset;
            INVALID
        }
    }
}

/// Writes the pod of a value to the front of the output.
fn put_value(
    alloc: Global,
    value: &Value,
    out: &mut [u8],
    written: &mut usize,
    at: &mut usize,
) -> i32
    ensures done { IsDone result → IsWritten (encoding_of (view value.now)) written.new out.old out.new }
    ensures room { IsNoRoom result → (written.new ≡ length (encoding_of (view value.now)))
        × (length out.old < length (encoding_of (view value.now))) }
    ensures refused { IsInvalid result → HasNul (view value.now) }
    ensures past { IsPast result → IsTooLarge (view value.now) }
    ensures answers { IsJsonRead result }
    ensures unchanged { ¬ (IsDone result) → out.new ≡ out.old }
{
    let mut pod = Vec::new(alloc);
    match write_value(alloc, &mut pod, value) {
        Ok(_) => put_front(pod.as_slice(), out, written),
        Err(GenError::NulInText) => {
            *at = 0;
            INVALID
        }
        Err(GenError::TooLarge) => PAST,
        Err(_) => NO_MEMORY,
    }
}
