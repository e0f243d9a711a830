//! Where pods plausibly begin in damaged bytes.
ghost use Rattle.std.specs.Prelude.{◌<◌, Decides, IfNone, IfSome, length};
ghost use Rattle.spa_events.specs.Inside.{key_size};
ghost use Rattle.spa_recordings.specs.Plausible.{AreWholeFirst, IsNextPlausible, IsNoneBehind, IsParameter, IsPlausible, looked_at};

use spa_bytes::{HEADER_LEN, open, u32_at};
use spa_events::open_first;
use spa_utils::SpaTypes;

/// How many pods inside one are looked at.
const LOOKED_AT: usize = 64;

/// The types of objects of PipeWire's parameters: from the first on, and below the end.
const FIRST_PARAMETER: u32 = 0x40001;

const PARAMETERS_END: u32 = 0x41000;

/// The first byte from this one on, at a multiple of 8, where a pod plausibly begins: a whole struct whose first 64 members are whole, or a whole object
/// of a type of PipeWire's parameters whose first 64 properties are. It takes time in proportion to the bytes that are passed.
pub fn next_plausible(input: &[u8], from: usize) -> Option<usize>
    ensures next { IfSome result (IsNextPlausible input.now from) }
    ensures within { IfSome result (λ at. at < length input.now) }
    ensures none { IfNone result (IsNoneBehind input.now from) }
{
    if from >= input.len() {
        return None;
    }
    let mut at = from.div_ceil(HEADER_LEN) * HEADER_LEN;
    while at < input.len() {
        if is_plausible(input.split_at(at).1) {
            return Some(at);
        }
        at += HEADER_LEN;
    }
    None
}

/// Whether a pod plausibly begins these bytes.
pub(crate) fn is_plausible(bytes: &[u8]) -> bool
    ensures { Decides result (IsPlausible bytes.now) }
{
    let Some(front) = open(bytes) else {
        return false;
    };
    if front.type_ == SpaTypes::Struct.0 {
        return are_whole_first(false, front.body);
    }
    if front.type_ != SpaTypes::Object.0 || front.body.len() < HEADER_LEN {
        return false;
    }
    let (_, properties) = front.body.split_at(HEADER_LEN);
    is_parameter(u32_at(bytes, HEADER_LEN)) && are_whole_first(true, properties)
}

/// Whether this is the type of the object of a parameter.
fn is_parameter(type_: u32) -> bool
    ensures { Decides result (IsParameter type_) }
{
    FIRST_PARAMETER <= type_ && type_ < PARAMETERS_END
}

/// Whether the first pods are whole, each with a key and flags before it where `keyed` is set.
fn are_whole_first(keyed: bool, pods: &[u8]) -> bool
    ensures { Decides result (AreWholeFirst looked_at (key_size keyed) pods.now) }
{
    let mut left = pods;
    for _count in 0..LOOKED_AT {
        let Some(front) = open_first(keyed, left) else {
            return left.is_empty();
        };
        left = front.rest;
    }
    true
}
