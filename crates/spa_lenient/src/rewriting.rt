//! Rewrites pods leniently: to the encoding of the value that the bytes convey.
ghost use Rattle.std.specs.Prelude.{◌≡◌, ◌+◌, ◌<◌, ◌≤◌, ◌++◌, IfErr, IfNone, IfOk, IfSome, OnErr, OnOk, length, true};
ghost use Rattle.spa_fixed_sized.specs.declared.fault.Refusal.TheVariants as refusal;
ghost use Rattle.spa_format.specs.Encoding.{encoding_of};
ghost use Rattle.spa_format.specs.Front.{HasFront, rest_of};
ghost use Rattle.spa_format.specs.Words.{size_limit};
ghost use Rattle.spa_format.specs.Writable.{IsWritable};
ghost use Rattle.spa_value.specs.View.{view};
ghost use Rattle.spa_bodies.specs.Refusing.{error_of};
ghost use Rattle.spa_lenient.specs.Rewriting.{AppendsFirst, AppendsFront, AppendsStruct, AreRewrittenLeniently, Grows, IsLenientRewriting, RefusesFront, RefusesList};
ghost use Rattle.spa_canonical.specs.Rewriting.{IsLeft};

use spa_bodies::{close, error_at};
use spa_bytes::{open, two_words};
use spa_fixed_sized::{DeserializeError, Refusal};
use spa_read::{Refused, read_value_leniently};
use spa_rewrite::{rewrite, rewrite_all};
use spa_sink::GenError;
use spa_utils::SpaTypes;
use spa_value::{Value, discard};
use spa_write::write_value;
use std::alloc::{AllocError, AllocFailed, Global};

/// Rewrites the front of the input leniently: answers the bytes that follow the front, and the encoding of the value that it conveys in the
/// lenient reading.
///
/// Unless memory runs out, this succeeds exactly where the front that the first size word names is there and conveys a value. An accepted pod costs
/// what `rewrite` costs, and gives the same. The lenient rewriting is a canonical pod, which a lenient rewriting doesn't change:
/// `lenient_rewritings_are_pods` and `lenient_rewritings_stay` of `spa_format` say so. The refusals are those of
/// `PodDeserializer::deserialize_any_leniently_from`, but that memory may also run out for the encoding.
pub fn rewrite_leniently(
    alloc: Global,
    input: &[u8],
) -> Result<(&[u8], Vec<u8>), DeserializeError<&[u8]>>
    ensures rewriting { IfOk result (λ rewritten. IsLenientRewriting input.now rewritten.1.items) }
    ensures rest { IfOk result (λ rewritten. rewritten.0.now ≡ rest_of input.now) }
    ensures refused { IfErr result (RefusesFront input.now) }
{
    match rewrite(alloc, input) {
        Ok(rewritten) => return Ok(rewritten),
        Err(DeserializeError::OutOfMemory) => return Err(DeserializeError::OutOfMemory),
        Err(_) => {}
    }
    let mut out = Vec::new(alloc);
    match append_leniently(input, &mut out) {
        Ok(rest) => Ok((rest, out)),
        Err(refused) => Err(error_at(refused.place, refused.why)),
    }
}

/// Appends the lenient rewritings of all pods that the input consists of. Memory is asked for by the allocator of `out`.
///
/// Unless memory runs out, this succeeds exactly where the input conveys values one after another without remainder, or is empty. A refusal gives
/// the remaining input from the refused pod on, with the refusal of that pod, and `out` is unchanged. The time is proportional to the input: pods
/// that the exact reading accepts are rewritten as by `rewrite_all`, and twice where one that it doesn't accept follows them. The members of a
/// struct that it doesn't accept are rewritten in the same way, and only the members that it doesn't accept are read as values.
pub fn rewrite_all_leniently<'a>(
    input: &'a [u8],
    out: &mut Vec<u8>,
) -> Result<(), (&'a [u8], DeserializeError<&'a [u8]>)>
    ensures rewritten { OnOk result (AreRewrittenLeniently input.now out.old.items out.new.items) }
    ensures within { OnOk result (length out.new.items ≤ length out.old.items + length input.now) }
    ensures unchanged { OnErr result (out.new.items ≡ out.old.items) }
    ensures refused { IfErr result (λ refusal. RefusesList input.now refusal.0.now refusal.1) }
{
    match append_all(input, out) {
        Ok(()) => Ok(()),
        Err((left, refused)) => Err((left, error_at(refused.place, refused.why))),
    }
}

/// Appends the lenient rewritings as `rewrite_all_leniently` does, but gives the inner refusal.
pub(crate) fn append_all<'a>(
    input: &'a [u8],
    out: &mut Vec<u8>,
) -> Result<(), (&'a [u8], Refused<'a>)>
    ensures rewritten { OnOk result (AreRewrittenLeniently input.now out.old.items out.new.items) }
    ensures within { OnOk result (length out.new.items ≤ length out.old.items + length input.now) }
    ensures unchanged { OnErr result (out.new.items ≡ out.old.items) }
    ensures refused { IfErr result
        (λ refusal. RefusesList input.now refusal.0.now (error_of refusal.1.place refusal.1.why)) }
{
    let start = out.len();
    let mut left = input;
    loop {
        let pod = match append_accepted(left, out) {
            Ok(pod) => pod,
            Err(pod) => {
                out.truncate(start);
                return Err((pod, lacking_memory(pod)));
            }
        };
        if pod.is_empty() {
            return Ok(());
        }
        match append_leniently(pod, out) {
            Ok(rest) => left = rest,
            Err(refused) => {
                out.truncate(start);
                return Err((pod, refused));
            }
        }
    }
}

/// The refusal for want of memory at this place.
fn lacking_memory(place: &[u8]) -> Refused<'_>
    ensures { result.why ≡ refusal.OutOfMemory }
{
    Refused {
        place,
        why: Refusal::OutOfMemory,
    }
}

/// Appends the encodings of the first pods, up to one that the exact reading doesn't accept, and answers the bytes from that one on, which are none
/// where it accepts all. Refused for want of memory with the bytes from the pod on at which it ran out: nothing is appended then.
fn append_accepted<'a>(input: &'a [u8], out: &mut Vec<u8>) -> Result<&'a [u8], &'a [u8]>
    ensures appended { IfOk result (λ rest. AppendsFirst input.now rest.now out.old.items out.new.items) }
    ensures unchanged { OnErr result (out.new.items ≡ out.old.items) }
    ensures lacking { IfErr result (λ pod. IsLeft input.now pod.now × HasFront pod.now) }
{
    let pod = match rewrite_all(input, out) {
        Ok(()) => {
            let (_, nothing) = input.split_at(input.len());
            return Ok(nothing);
        }
        Err((pod, DeserializeError::OutOfMemory)) => return Err(pod),
        Err((pod, _)) => pod,
    };
    let (accepted, _) = input.split_at(input.len() - pod.len());
    match rewrite_all(accepted, out) {
        Ok(()) => Ok(pod),
        Err((_, DeserializeError::OutOfMemory)) => Err(input),
        Err(_) => unreachable!(),
    }
}

/// Appends the lenient rewriting of the front of the input, and answers what follows the front. Of a struct only those members are read that are
/// not accepted as they are.
fn append_leniently<'a>(input: &'a [u8], out: &mut Vec<u8>) -> Result<&'a [u8], Refused<'a>>
    ensures appended { IfOk result (λ rest. AppendsFront input.now rest.now out.old.items out.new.items) }
    ensures unchanged { OnErr result (out.new.items ≡ out.old.items) }
    ensures refused { IfErr result (λ refused. RefusesFront input.now (error_of refused.place refused.why)) }
{
    match append_struct(input, out) {
        Some(rest) => Ok(rest),
        None => append_by_value(input, out),
    }
}

/// Appends the lenient rewriting of the struct at the front, and answers the bytes that follow it. None, and nothing appended: the front is no
/// struct, a member conveys no value, or memory ran out.
fn append_struct<'a>(input: &'a [u8], out: &mut Vec<u8>) -> Option<&'a [u8]>
    ensures appended { IfSome result (λ rest. AppendsFront input.now rest.now out.old.items out.new.items) }
    ensures unchanged { IfNone result (out.new.items ≡ out.old.items) }
{
    let front = open(input)?;
    if front.type_ != SpaTypes::Struct.0 {
        return None;
    }
    let start = out.len();
    if append_struct_of(front.body, out) {
        return Some(front.rest);
    }
    out.truncate(start);
    None
}

/// Appends the encoding of a struct of the values that these bytes convey one after another. False: they don't, or memory ran out.
fn append_struct_of(body: &[u8], out: &mut Vec<u8>) -> bool
    requires { length body.now < size_limit }
    ensures appended { result ≡ true → AppendsStruct body.now out.old.items out.new.items }
    ensures kept { Grows out.old.items out.new.items }
{
    let start = out.len();
    let header = two_words(0, SpaTypes::Struct.0);
    let Ok(()) = out.extend_from_slice(&header) else {
        return false;
    };
    if !append_members(body, out) {
        return false;
    }
    let Ok(()) = close(out, start) else {
        unreachable!();
    };
    true
}

/// Appends the encodings of the values that these bytes convey one after another. False: they don't, or memory ran out.
fn append_members(body: &[u8], out: &mut Vec<u8>) -> bool
    ensures appended { result ≡ true → AreRewrittenLeniently body.now out.old.items out.new.items }
    ensures kept { Grows out.old.items out.new.items }
{
    let mut left = body;
    loop {
        let Ok(pod) = append_accepted(left, out) else {
            return false;
        };
        if pod.is_empty() {
            return true;
        }
        let Ok(rest) = append_by_value(pod, out) else {
            return false;
        };
        left = rest;
    }
}

/// Reads the front of the input leniently, appends the value's encoding, and answers the bytes that follow the front.
fn append_by_value<'a>(input: &'a [u8], out: &mut Vec<u8>) -> Result<&'a [u8], Refused<'a>>
    ensures appended { IfOk result (λ rest. AppendsFront input.now rest.now out.old.items out.new.items) }
    ensures unchanged { OnErr result (out.new.items ≡ out.old.items) }
    ensures refused { IfErr result (λ refused. RefusesFront input.now (error_of refused.place refused.why)) }
{
    let (rest, value) = read_value_leniently(*out.allocator(), input)?;
    let written = append_value(&value, out);
    discard(value);
    match written {
        Ok(()) => Ok(rest),
        Err(_) => Err(lacking_memory(input)),
    }
}

/// Appends the encoding of a value that can be written. Refused only for want of memory: nothing is appended then.
fn append_value(value: &Value, out: &mut Vec<u8>) -> Result<(), AllocError>
    requires { IsWritable (view value.now) }
    ensures appended { OnOk result (out.new.items ≡ out.old.items ++ encoding_of (view value.now)) }
    ensures unchanged { OnErr result (out.new.items ≡ out.old.items) }
{
    let start = out.len();
    let alloc = *out.allocator();
    match write_value(alloc, out, value) {
        Ok(_) => Ok(()),
        Err(GenError::OutOfMemory) => {
            out.truncate(start);
            Err(AllocError)
        }
        Err(_) => unreachable!(),
    }
}
