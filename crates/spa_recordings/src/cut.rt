//! A pod of which not all is there, ended where its bytes end.
ghost use Rattle.std.specs.Prelude.{◌≡◌, ◌≤◌, ◌<◌, ◌+◌, ◌%◌, ◌∷◌, ◌++◌, [], IfNone, IfSome, OnOk, drop, length, take};
ghost use Rattle.spa_events.specs.Inside.{key_size};
ghost use Rattle.spa_format.specs.Front.{HasFront};
ghost use Rattle.spa_format.specs.Walk.{walk};
ghost use Rattle.spa_format.specs.Words.{header_size, padded_size, padding};
ghost use Rattle.spa_recordings.specs.Cut as spec;
ghost use Rattle.spa_recordings.specs.Cut.{IsEnded, sized};

use crate::streaming::are_bytes;
use spa_bytes::{HEADER_LEN, u32_at};
use spa_events::open_first;
use spa_utils::SpaTypes;
use std::alloc::AllocError;

/// How many bytes a size word takes.
const WORD_LEN: usize = 4;

/// Ends the pod at the front, whose header is there and not all of it, where the bytes end: its size word says no more than is there, and so do those of the
/// pods inside in which the bytes end, of structs and objects at any depth; zeros pad the innermost of them. No other byte changes.
pub fn end_cut(bytes: &mut Vec<u8>) -> Result<(), AllocError>
    requires header { header_size ≤ length bytes.old.items }
    requires cut { ¬ (HasFront bytes.old.items) }
    ensures ended { OnOk result (IsEnded bytes.old.items bytes.new.items) }
    ensures whole { OnOk result (walk bytes.new.items ≡ bytes.new.items ∷ []) }
    ensures long { OnOk result (length bytes.new.items ≡ padded_size (length bytes.old.items)) }
{
    are_bytes(bytes.as_slice());
    let there = bytes.len();
    let zeros = [0; HEADER_LEN];
    bytes.extend_from_slice(&zeros[..(HEADER_LEN - there % HEADER_LEN) % HEADER_LEN])?;
    end_padded(bytes.as_mut_slice(), there);
    Ok(())
}

/// Ends the pod of which so many bytes are there, behind which zeros stand up to a multiple of 8.
fn end_padded(bytes: &mut [u8], there: usize)
    requires header { header_size ≤ there }
    requires within { there ≤ length bytes.old }
    requires padded { drop there bytes.old ≡ padding there }
    ensures ended { IsEnded (take there bytes.old) bytes.new }
    ensures long { length bytes.new ≡ length bytes.old }
{
    let mut at = 0;
    while let Some(inner) = cut_at(&bytes[at..there]) {
        limit_size(&mut bytes[at..]);
        at += inner;
    }
    limit_size(&mut bytes[at..there]);
}

/// Lets the size word of the pod that takes these bytes, or begins with them, say no more than they have behind its header.
#[tactic(auto, unfolding(spa_format::specs::Words::word_bytes))]
fn limit_size(pod: &mut [u8])
    requires { header_size ≤ length pod.old }
    ensures { pod.new ≡ sized (length pod.old) pod.old }
{
    let size = u32_at(pod, 0);
    let size = match u32::try_from(pod.len() - HEADER_LEN) {
        Ok(there) => size.min(there),
        Err(_) => size,
    };
    pod[..WORD_LEN].copy_from_slice(&size.to_le_bytes());
}

/// Where, in a pod of which not all is there, the pod begins in which the bytes end, if its header is there.
fn cut_at(pod: &[u8]) -> Option<usize>
    requires { header_size ≤ length pod.now }
    ensures there { IfSome result (λ at. drop at pod.now ≡ spec.cut_inside pod.now) }
    ensures within { IfSome result (λ at. at + header_size ≤ length pod.now) }
    ensures behind { IfSome result (λ at. header_size ≤ at) }
    ensures aligned { IfSome result (λ at. at % 8 ≡ 0) }
    ensures none { IfNone result (length (spec.cut_inside pod.now) < header_size) }
{
    let inner = cut_inside(pod);
    if inner.len() < HEADER_LEN {
        return None;
    }
    Some(pod.len() - inner.len())
}

/// The bytes of that pod, or fewer than a header has.
fn cut_inside(pod: &[u8]) -> &[u8]
    requires { header_size ≤ length pod.now }
    ensures { result.now ≡ spec.cut_inside pod.now }
{
    let type_ = u32_at(pod, WORD_LEN);
    if type_ == SpaTypes::Struct.0 {
        return behind_whole(false, behind_header(pod));
    }
    if type_ == SpaTypes::Object.0 {
        let properties = behind_header(behind_header(pod));
        return behind_header(behind_whole(true, properties));
    }
    &[]
}

/// What stands behind a header, or two other words; nothing, where these aren't there.
fn behind_header(bytes: &[u8]) -> &[u8]
    ensures { result.now ≡ drop header_size bytes.now }
{
    bytes.split_at(bytes.len().min(HEADER_LEN)).1
}

/// What stands behind the whole pods at the front, each with a key and flags before it where `keyed` is set.
fn behind_whole(keyed: bool, pods: &[u8]) -> &[u8]
    ensures { result.now ≡ spec.behind_whole (key_size keyed) pods.now }
{
    let mut left = pods;
    while let Some(front) = open_first(keyed, left) {
        left = front.rest;
    }
    left
}
