//! Writes an object property by property.
ghost use Rattle.std.specs.Prelude.{◌≡◌, ◌-◌, ◌<◌, ◌≤◌, ◌++◌, IfNone, IfOk, IfSome, drop, false, length, true};
ghost use Rattle.spa_format.specs.Words.{size_limit, word_bytes};
ghost use Rattle.spa_object_view.specs.Answers.{IsEnded, IsUnended};
ghost use Rattle.spa_object_view.specs.Written.{open_header};

use crate::object_view::ObjectView;
use spa_bytes::{HEADER_LEN, joined, two_words};
use spa_sink::PodOutput;
use spa_utils::SpaTypes;
use std::alloc::{AllocError, Global};

/// The offset in an object's pod at which its properties begin: behind its header, its type and its id.
const PROPERTIES_AT: usize = 16;

/// An object, as far as it is written.
#[derive(Drop)]
pub struct Answer {
    /// The header, with a size word of 0 for now, and the properties so far.
    pub bytes: Vec<u8>,
    /// Whether a value was left out since it can't be written.
    pub is_large: bool,
}

/// An object without properties, with the type and the id of this one, and room for properties of the same length. Refused only for want of memory.
#[inline(always)]
pub(crate) fn begun(alloc: Global, object: &ObjectView<'_>) -> Result<Answer, AllocError>
    ensures begun { IfOk result (λ out. out.bytes.items ≡ open_header object.now.type_ object.now.id) }
    ensures small { IfOk result (λ out. out.is_large ≡ false) }
{
    let mut bytes = Vec::with_capacity(alloc, PROPERTIES_AT + object.properties.len())?;
    if !put_header(&mut bytes, object.type_, object.id) {
        return Err(AllocError);
    }
    Ok(Answer {
        bytes,
        is_large: false,
    })
}

/// The bytes of an object that has all its properties. None: they can't be written.
pub(crate) fn ended(out: Answer) -> Option<Vec<u8>>
    ensures ended { IfSome result (λ bytes. IsEnded out bytes.items) }
    ensures large { IfNone result (IsUnended out) }
{
    let Answer {
        mut bytes,
        is_large,
    } = out;
    if is_large {
        return None;
    }
    if !finish(&mut bytes) {
        return None;
    }
    Some(bytes)
}

/// Appends the header of an object with a size word of 0, which `finish` sets, and its type and its id. False: memory is refused.
fn put_header(out: &mut Vec<u8>, type_: u32, id: u32) -> bool
    ensures { result ≡ true → out.new.items ≡ out.old.items ++ open_header type_ id }
{
    let header = joined(two_words(0, SpaTypes::Object.0), two_words(type_, id));
    out.extend_from_slice(&header).is_ok()
}

/// Appends the key and the flags of a property. False: memory is refused.
pub fn put_key(out: &mut Vec<u8>, key: u32, flags: u32) -> bool
    ensures items { result ≡ true → out.new.items ≡ out.old.items ++ (word_bytes key ++ word_bytes flags) }
    ensures words { (key < size_limit) × (flags < size_limit) }
{
    out.extend_from_slice(&two_words(key, flags)).is_ok()
}

/// Appends the bytes of a pod. False: memory is refused.
pub fn put_pod(out: &mut Vec<u8>, pod: &[u8]) -> bool
    ensures { result ≡ true → out.new.items ≡ out.old.items ++ pod.now }
{
    out.extend_from_slice(pod).is_ok()
}

/// Sets the size word of the header to the length of all that follows, and answers true. False: that is 4294967296 or more.
fn finish(out: &mut Vec<u8>) -> bool
    ensures size { result ≡ true → length out.old.items - 8 < size_limit }
    ensures large { result ≡ false → 16 ≤ length out.old.items → size_limit ≤ length out.old.items - 8 }
    ensures bytes { result ≡ true → out.new.items ≡ word_bytes (length out.old.items - 8) ++ drop 4 out.old.items }
{
    if out.len() < PROPERTIES_AT {
        return false;
    }
    let Ok(size) = u32::try_from(out.len() - HEADER_LEN) else {
        return false;
    };
    out.overwrite(0, size.to_le_bytes());
    true
}
