//! The path from a refused pod to the innermost one that its fault is in.
ghost use Rattle.std.specs.Prelude.{◌≡◌, ◌<◌, ◌≤◌, IfNone, IfOk, IfSome, string_bytes};
ghost use Rattle.spa_bodies.specs.Refusing.{Says};
ghost use Rattle.spa_canonical.specs.Look.{from_members, from_pod, from_properties};
ghost use Rattle.spa_format.specs.Faults.{Stands};
ghost use Rattle.spa_refusals.specs.Paths.{HaveRead, HoldsMember, HoldsProperty, IsBehind, IsFaultIn, IsInnermost, IsPath, IsWithin, StepsTo};

use crate::names::push_key;
use spa_bytes::{HEADER_LEN, open, u32_at};
use spa_events::inside_of;
use spa_fixed_sized::Refusal;
use std::alloc::{AllocError, Global};
use std::fmt::Write;

/// How many bytes stand before the properties of an object: its header, its type and its id.
const PROPERTIES_AT: usize = 16;

/// A fault.
#[derive(Clone, Copy)]
pub(crate) struct Fault<'b> {
    /// The bytes from it to the end of the struct or object around it, or of the input.
    pub(crate) place: &'b [u8],
    pub(crate) why: Refusal,
}

/// The path from this pod to the innermost one that the fault at this offset is in, and that one.
pub(crate) fn descend<'b>(
    alloc: Global,
    pod: &'b [u8],
    at: usize,
    fault: Fault<'b>,
) -> Result<(String, &'b [u8]), AllocError>
    requires { IsFaultIn from_pod pod.now fault.place.now at fault.why }
    ensures path { IfOk result (λ found. IsPath pod.now (string_bytes found.0) found.1.now) }
    ensures fault { IfOk result (λ found. Says (λ k. Stands k fault.entry.place.now found.1.now) ⊥ fault.entry.why) }
{
    let mut path = String::new(alloc);
    let (mut inner, mut left) = (pod, at);
    loop {
        let found = inside(inner, left, fault, &mut path)?;
        match found {
            Some((next, further)) => {
                inner = next;
                left = further;
            }
            None => return Ok((path, inner)),
        }
    }
}

/// The pod directly inside this one that the fault at this offset is in, and its offset there; the step is added to the path.
fn inside<'b>(
    pod: &'b [u8],
    at: usize,
    fault: Fault<'b>,
    path: &mut String,
) -> Result<Option<(&'b [u8], usize)>, AllocError>
    requires { IsFaultIn from_pod pod.now fault.place.now at fault.why }
    ensures step { IfOk result (λ found. IfSome found
        (λ it. StepsTo pod.now (string_bytes path.old) it.0.now (string_bytes path.new))) }
    ensures fault { IfOk result (λ found. IfSome found
        (λ it. IsFaultIn from_pod it.0.now fault.entry.place.now it.1 fault.entry.why)) }
    ensures less { IfOk result (λ found. IfSome found (λ it. it.1 < at)) }
    ensures none { IfOk result (λ found. IfNone found (IsInnermost pod.now)) }
    ensures kept { IfOk result (λ found. IfNone found (string_bytes path.new ≡ string_bytes path.old)) }
{
    let Some(front) = open(pod) else {
        return Ok(None);
    };
    let Some(inner) = inside_of(front.type_, front.body) else {
        return Ok(None);
    };
    if inner.keyed {
        let type_ = u32_at(front.body, 0);
        return in_properties(type_, inner.pods, at - PROPERTIES_AT, fault, path);
    }
    let found = in_members(inner.pods, at - HEADER_LEN, fault, path)?;
    Ok(Some(found))
}

/// The one of these members that the fault at this offset is in, and its offset there.
fn in_members<'b>(
    members: &'b [u8],
    at: usize,
    fault: Fault<'b>,
    path: &mut String,
) -> Result<(&'b [u8], usize), AllocError>
    requires { IsFaultIn from_members members.now fault.place.now at fault.why }
    ensures step { IfOk result
        (λ it. HoldsMember members.now (string_bytes path.old) it.0.now (string_bytes path.new)) }
    ensures fault { IfOk result (λ it. IsFaultIn from_pod it.0.now fault.entry.place.now it.1 fault.entry.why) }
    ensures within { IfOk result (λ it. it.1 ≤ at) }
{
    let (mut left, mut offset) = (members, at);
    let mut count: usize = 0;
    while let Some((rest, further)) = behind_first(left, offset, fault) {
        left = rest;
        offset = further;
        count += 1;
    }
    write!(path, "[{count}]")?;
    Ok((left, offset))
}

/// The value, in an object of this type, of the one of these properties that the fault at this offset is in, and its offset there. None: the next key is
/// cut short.
fn in_properties<'b>(
    type_: u32,
    properties: &'b [u8],
    at: usize,
    fault: Fault<'b>,
    path: &mut String,
) -> Result<Option<(&'b [u8], usize)>, AllocError>
    requires { IsFaultIn from_properties properties.now fault.place.now at fault.why }
    ensures step { IfOk result (λ found. IfSome found
        (λ it. HoldsProperty type_ properties.now (string_bytes path.old) it.0.now (string_bytes path.new))) }
    ensures fault { IfOk result (λ found. IfSome found
        (λ it. IsFaultIn from_pod it.0.now fault.entry.place.now it.1 fault.entry.why)) }
    ensures within { IfOk result (λ found. IfSome found (λ it. it.1 ≤ at)) }
    ensures none { IfOk result (λ found. IfNone found (HaveRead properties.now)) }
    ensures kept { IfOk result (λ found. IfNone found (string_bytes path.new ≡ string_bytes path.old)) }
{
    let (mut left, mut offset) = (properties, at);
    while left.len() >= HEADER_LEN {
        let (words, value) = left.split_at(HEADER_LEN);
        let in_value = offset - HEADER_LEN;
        match behind_first(value, in_value, fault) {
            Some((rest, further)) => {
                left = rest;
                offset = further;
            }
            None => {
                push_key(path, type_, u32_at(words, 0))?;
                return Ok(Some((value, in_value)));
            }
        }
    }
    Ok(None)
}

/// What follows the first of these pods, and the fault's offset in that. None: the fault is in the first pod. So it is also at the end of that pod, if
/// the fault has no bytes: an object that ends there lacks the value of its last property.
fn behind_first<'b>(pods: &'b [u8], at: usize, fault: Fault<'b>) -> Option<(&'b [u8], usize)>
    ensures behind { IfSome result (λ it. IsBehind pods.now fault.entry.place.now at it.0.now it.1) }
    ensures within { IfNone result (IsWithin pods.now fault.entry.place.now at) }
{
    let front = open(pods)?;
    let len = pods.len() - front.rest.len();
    if at < len || (at == len && fault.place.is_empty()) {
        return None;
    }
    Some((front.rest, at - len))
}
