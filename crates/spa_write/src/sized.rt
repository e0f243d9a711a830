//! Writes values with their members front to back: each size is computed before it is written.
ghost use Rattle.std.specs.Prelude.{◌≡◌, ◌+◌, ◌<◌, ◌++◌, ℕ, IfErr, IfOk, IfSome, OnErr, OnOk, Some, drop, length, take};
ghost use Rattle.spa_sink.specs.Writing.{Begun, RefusesPiece};
ghost use Rattle.spa_sink.specs.declared.gen_error.GenError.TheVariants.{OutOfMemory};
ghost use Rattle.spa_format.specs.Encoding.{encoding_of, member_encodings, property_encodings};
ghost use Rattle.spa_format.specs.Tree as tree;
ghost use Rattle.spa_format.specs.Writable.{HasNul, IsTooLarge, IsWritable};
ghost use Rattle.spa_canonical.specs.Depth.{depth_of};
ghost use Rattle.spa_value.specs.View.{view};
ghost use Rattle.spa_value.specs.Views.{property_views, views};
ghost use Rattle.spa_write.specs.Measured.{ArePropertiesPut, ArePut, PropertiesAreWritable};
ghost use Rattle.spa_write.specs.DeepValues.{LacksMemory, RefusesEncoding};
ghost use Rattle.spa_bodies.specs.Written.{IsLeaf, IsPut, Stops};
ghost use Rattle.spa_format.specs.Words.{header_size, size_limit, word_bytes};

use crate::count::{
    INNER_LEVELS, is_beyond, is_nested, is_small, may_be_deep, members_nest_within, only_struct,
    properties_nest_within,
};
use crate::largest::{largest_member, largest_property};
use crate::leaf::put_leaf;
use crate::nested::write_by_loop;
use crate::short::short_encoding;
use crate::size::{encoded_len, members_len, properties_len};
use bitflags::Flags;
use spa_bodies::put_clean_text;
use spa_bytes::{HEADER_LEN, joined, two_words};
use spa_fixed_sized::LONGEST_POD_LEN;
use spa_sink::{GenError, PodSink, put_two};
use spa_utils::SpaTypes;
use spa_value::{Property, Value};
use std::alloc::Global;

/// The length in bytes of a key, flags and a pod of sixteen bytes.
const KEYED_LEN: usize = 24;

/// Appends the encoding of a value to any sink, front to back, and answers its length in bytes. A text with NUL is refused as `NulInText`, and a
/// size word of 4294967296 or more as `TooLarge`, before a byte is appended. Where the sink refuses it, with an error of the sink's, the sink
/// may have taken a beginning of the encoding.
///
/// Where the sink names an allocator, the encoding of a struct or an object with more than 64 values in it is put together in memory of that
/// allocator by a loop, and appended at once; a struct that is the only member of another one isn't counted. A smaller value, and any value into
/// a sink without an allocator, is written by functions that call themselves for each level of nesting, but not for such structs, and takes no
/// memory. Where a sink without an allocator knows how many bytes it has room for, calls nest no deeper than an eighth of that number: a struct
/// or an object that consists of more values than that is refused as `Full`.
///
/// Calls nest no deeper than 512 levels. What nests deeper is put together by the loop for any sink: where the sink names no allocator, in memory
/// of that of the value's own vectors. Where that memory is refused, the answer is `OutOfMemory`, and the sink is as it was.
pub fn write_sized<S: PodSink>(sink: &mut S, value: &Value) -> Result<u64, GenError>
    ensures put { OnOk result (IsPut S.appends sink.old (view value.now) sink.new) }
    ensures count { IfOk result (λ n. n ≡ length (encoding_of (view value.now))) }
    ensures begun { OnErr result (Begun S.appends sink.old (encoding_of (view value.now)) sink.new) }
    ensures refused { IfErr result (RefusesEncoding S.refuses (LacksMemory (depth_of (view value.now)))
        sink.old (view value.now) sink.new) }
{
    if !is_nested(value) {
        return write_measured(sink, value);
    }
    if let Some(alloc) = sink.own_allocator() {
        if is_small(value) {
            return write_measured(sink, value);
        }
        return write_value(alloc, sink, value);
    }
    write_without_allocator(sink, value)
}

/// Appends the encoding of a value to a sink without an allocator, and answers its length in bytes.
fn write_without_allocator<S: PodSink>(sink: &mut S, value: &Value) -> Result<u64, GenError>
    ensures put { OnOk result (IsPut S.appends sink.old (view value.now) sink.new) }
    ensures count { IfOk result (λ n. n ≡ length (encoding_of (view value.now))) }
    ensures begun { OnErr result (Begun S.appends sink.old (encoding_of (view value.now)) sink.new) }
    ensures refused { IfErr result (RefusesEncoding S.refuses (LacksMemory (depth_of (view value.now)))
        sink.old (view value.now) sink.new) }
{
    if may_be_deep(sink.room(), value) {
        match value {
            Value::Struct(members) => {
                if !members_nest_within(members.as_slice(), INNER_LEVELS) {
                    return write_value(*members.allocator(), sink, value);
                }
            }
            Value::Object(object) => {
                if !properties_nest_within(object.properties.as_slice(), INNER_LEVELS) {
                    return write_value(*object.properties.allocator(), sink, value);
                }
            }
            _ => {}
        }
    }
    write_by_calls(sink, value)
}

/// Appends the encoding of a value by calls into a sink that may know how many bytes it has room for, and answers its length in bytes.
fn write_by_calls<S: PodSink>(sink: &mut S, value: &Value) -> Result<u64, GenError>
    ensures put { OnOk result (IsPut S.appends sink.old (view value.now) sink.new) }
    ensures count { IfOk result (λ n. n ≡ length (encoding_of (view value.now))) }
    ensures begun { OnErr result (Begun S.appends sink.old (encoding_of (view value.now)) sink.new) }
    ensures refused { IfErr result (RefusesPiece (HasNul (view value.now)) (IsTooLarge (view value.now))
        (S.refuses sink.old (length (encoding_of (view value.now))) sink.new) sink.old sink.new) }
{
    if is_beyond(sink.room(), value) {
        return Err(GenError::Full);
    }
    write_measured(sink, value)
}

/// Appends the encoding of a value to any sink, at once, and answers its length in bytes. The encoding is put together by a loop, in memory of
/// this allocator, so the nesting depth of the value is bounded by that memory alone, whatever the sink is. Refused before a byte is appended: a
/// text with NUL as `NulInText`, a size word of 4294967296 or more as `TooLarge`, want of that memory as `OutOfMemory`. Where the sink refuses
/// it, with an error of the sink's, the sink may have taken a beginning of the encoding.
pub fn write_value<S: PodSink>(alloc: Global, sink: &mut S, value: &Value) -> Result<u64, GenError>
    ensures put { OnOk result (IsPut S.appends sink.old (view value.now) sink.new) }
    ensures count { IfOk result (λ n. n ≡ length (encoding_of (view value.now))) }
    ensures begun { OnErr result (Begun S.appends sink.old (encoding_of (view value.now)) sink.new) }
    ensures refused { IfErr result (RefusesEncoding S.refuses (λ e. e ≡ OutOfMemory)
        sink.old (view value.now) sink.new) }
{
    let made = write_by_loop(alloc, value)?;
    sink.append(made.as_slice())?;
    Ok(made.len() as u64)
}

/// Appends the encoding of a value by calls, and answers its length in bytes. All sizes are computed before a byte is appended.
#[inline(always)]
fn write_measured<S: PodSink>(sink: &mut S, value: &Value) -> Result<u64, GenError>
    ensures put { OnOk result (IsPut S.appends sink.old (view value.now) sink.new) }
    ensures count { IfOk result (λ n. n ≡ length (encoding_of (view value.now))) }
    ensures begun { OnErr result (Begun S.appends sink.old (encoding_of (view value.now)) sink.new) }
    ensures refused { IfErr result (RefusesPiece (HasNul (view value.now)) (IsTooLarge (view value.now))
        (S.refuses sink.old (length (encoding_of (view value.now))) sink.new) sink.old sink.new) }
{
    let len = encoded_len(value)?;
    put_value(sink, value, Some(len))?;
    Ok(len)
}

/// Appends the encoding of a value that can be written. `known` is the length in bytes of its encoding, where the caller knows it.
#[cycle(put)]
#[inline(always)]
fn put_value<S: PodSink>(sink: &mut S, value: &Value, known: Option<u64>) -> Result<(), GenError>
    requires writable { IsWritable (view value.now) }
    requires known { IfSome known (λ n. n ≡ length (encoding_of (view value.now))) }
    ensures put { OnOk result (IsPut S.appends sink.old (view value.now) sink.new) }
    ensures stops { IfErr result (λ e. Stops S.appends S.refuses sink.old (encoding_of (view value.now)) sink.new e) }
{
    match value {
        Value::Struct(members) => {
            let size = len_of(value, known) - HEADER_LEN as u64;
            put_two(sink, size as u32, SpaTypes::Struct.0)?;
            put_members(sink, members.as_slice(), size)
        }
        Value::Object(object) => {
            let size = len_of(value, known) - HEADER_LEN as u64;
            put_four(
                sink,
                size as u32,
                SpaTypes::Object.0,
                object.type_,
                object.id,
            )?;
            put_properties(sink, object.properties.as_slice(), size - HEADER_LEN as u64)
        }
        leaf => put_checked_leaf(sink, leaf),
    }
}

/// The length in bytes of a value's encoding, which is computed where the caller doesn't know it.
#[inline(always)]
fn len_of(value: &Value, known: Option<u64>) -> u64
    requires writable { IsWritable (view value.now) }
    requires known { IfSome known (λ n. n ≡ length (encoding_of (view value.now))) }
    ensures { result ≡ length (encoding_of (view value.now)) }
{
    match known {
        Some(len) => len,
        None => match encoded_len(value) {
            Ok(len) => len,
            Err(_) => unreachable!(),
        },
    }
}

/// Appends the encodings of the members of one struct, which have `size` bytes in all.
///
/// Each member's size is computed but that of the largest, which has what the others leave of `size`. So a value is measured only as part of a
/// member that isn't the largest, and at any nesting depth the time grows as the number of values times its logarithm.
#[cycle(put)]
fn put_members<S: PodSink>(sink: &mut S, members: &[Value], size: u64) -> Result<(), GenError>
    requires writable { IsWritable (tree.struct (views members.now)) }
    requires size { size ≡ length (member_encodings (views members.now)) }
    ensures put { OnOk result (ArePut S.appends sink.old (views members.now) sink.new) }
    ensures stops { IfErr result
        (λ e. Stops S.appends S.refuses sink.old (member_encodings (views members.now)) sink.new e) }
{
    let mut left = members;
    let mut size = size;
    while let Some(inner) = only_struct(left) {
        size -= HEADER_LEN as u64;
        put_two(sink, size as u32, SpaTypes::Struct.0)?;
        left = inner;
    }
    put_all(sink, left, size)
}

/// Appends the encodings of members, which have `size` bytes in all, as `put_members` does for members other than a lone struct. It is a
/// function of its own since the loop of `put_members` is faster so.
#[cycle(put)]
#[inline(never)]
fn put_all<S: PodSink>(sink: &mut S, members: &[Value], size: u64) -> Result<(), GenError>
    requires writable { IsWritable (tree.struct (views members.now)) }
    requires size { size ≡ length (member_encodings (views members.now)) }
    ensures put { OnOk result (ArePut S.appends sink.old (views members.now) sink.new) }
    ensures stops { IfErr result
        (λ e. Stops S.appends S.refuses sink.old (member_encodings (views members.now)) sink.new e) }
{
    if members.len() == 1 {
        return put_value(sink, &members[0], Some(size));
    }
    let largest = largest_member(members, size);
    let left = left_for_member(members, largest, size);
    for (index, member) in members.iter().enumerate() {
        put_value(sink, member, known_at(index, largest, left))?;
    }
    Ok(())
}

/// The length in bytes of this member's encoding: `size`, the length of all members' encodings, less that of the others. None: it isn't found so.
fn left_for_member(members: &[Value], index: usize, size: u64) -> Option<u64>
    ensures { IfSome result
        (λ n. size ≡ length (member_encodings (views (take index members.now))) + n + length
        (member_encodings (views (drop (index + 1) members.now)))) }
{
    if index >= members.len() {
        return None;
    }
    let Ok(before) = members_len(&members[..index]) else {
        return None;
    };
    let Ok(behind) = members_len(&members[index + 1..]) else {
        return None;
    };
    size.checked_sub(before + behind)
}

/// Appends the properties of one object, which have `size` bytes in all. Sizes are computed as in `put_members`.
#[cycle(put)]
fn put_properties<S: PodSink>(
    sink: &mut S,
    properties: &[Property],
    size: u64,
) -> Result<(), GenError>
    requires writable { PropertiesAreWritable (property_views properties.now) }
    requires size { size ≡ length (property_encodings (property_views properties.now)) }
    ensures put { OnOk result (ArePropertiesPut S.appends sink.old (property_views properties.now) sink.new) }
    ensures stops { IfErr result
        (λ e. Stops S.appends S.refuses sink.old (property_encodings (property_views properties.now)) sink.new e) }
{
    let largest = largest_property(properties, size);
    let left = left_for_property(properties, largest, size);
    for (index, property) in properties.iter().enumerate() {
        match short_encoding(&property.value) {
            Some(pod) => put_keyed(sink, property.key, property.flags.bits(), &pod)?,
            None => {
                let known = known_at(index, largest, left);
                put_two(sink, property.key, property.flags.bits())?;
                put_value(sink, &property.value, known)?;
            }
        }
    }
    Ok(())
}

/// The length in bytes of the encoding of this property's value: `size`, the length of all properties, less that of the others, and of its key
/// and flags. None: it isn't found so.
fn left_for_property(properties: &[Property], index: usize, size: u64) -> Option<u64>
    ensures { IfSome result
        (λ n. size ≡ length (property_encodings (property_views (take index properties.now))) +
        (header_size + n) + length (property_encodings (property_views (drop (index + 1) properties.now)))) }
{
    if index >= properties.len() {
        return None;
    }
    let Ok(before) = properties_len(&properties[..index]) else {
        return None;
    };
    let Ok(behind) = properties_len(&properties[index + 1..]) else {
        return None;
    };
    size.checked_sub(before + HEADER_LEN as u64 + behind)
}

/// The length of the value at `index`, where one is known: that of the value at `place`.
fn known_at(index: usize, place: usize, known: Option<u64>) -> Option<u64>
    ensures { IfSome result (λ n. (index ≡ place) × (known ≡ Some n)) }
{
    if index == place { known } else { None }
}

/// Appends the encoding of a value that is neither a struct nor an object, and can be written.
#[inline(always)]
fn put_checked_leaf<S: PodSink>(sink: &mut S, value: &Value) -> Result<(), GenError>
    requires leaf { IsLeaf (view value.now) }
    requires writable { IsWritable (view value.now) }
    ensures put { OnOk result (IsPut S.appends sink.old (view value.now) sink.new) }
    ensures stops { IfErr result (λ e. Stops S.appends S.refuses sink.old (encoding_of (view value.now)) sink.new e) }
{
    match value {
        Value::String(text) => put_checked_text(sink, text.as_str()),
        _ => match short_encoding(value) {
            Some(pod) => sink.append(&pod),
            None => put_leaf(sink, value),
        },
    }
}

/// Appends the pod of a text that can be written.
#[inline(always)]
fn put_checked_text<S: PodSink>(sink: &mut S, text: &str) -> Result<(), GenError>
    requires { IsWritable (tree.string text.now) }
    ensures put { OnOk result (IsPut S.appends sink.old (tree.string text.now) sink.new) }
    ensures stops { IfErr result
        (λ e. Stops S.appends S.refuses sink.old (encoding_of (tree.string text.now)) sink.new e) }
{
    put_clean_text(sink, text)
}

/// Appends a key, flags and a pod of sixteen bytes, in one call of the sink.
#[inline(always)]
fn put_keyed<S: PodSink>(
    sink: &mut S,
    key: u32,
    flags: u32,
    pod: &[u8; LONGEST_POD_LEN],
) -> Result<(), GenError>
    ensures ok { OnOk result (S.appends sink.old ((word_bytes key ++ word_bytes flags) ++ pod.now) sink.new) }
    ensures begun { OnErr result ((count : ℕ)
        × S.appends sink.old (take count ((word_bytes key ++ word_bytes flags) ++ pod.now)) sink.new) }
    ensures cause { IfErr result
        (λ e. S.refuses sink.old (length ((word_bytes key ++ word_bytes flags) ++ pod.now)) sink.new e) }
{
    sink.append(&keyed_pod(two_words(key, flags), pod))
}

/// The eight bytes of a key and flags, and the sixteen of a pod behind them.
#[inline(always)]
fn keyed_pod(key: [u8; HEADER_LEN], pod: &[u8; LONGEST_POD_LEN]) -> [u8; KEYED_LEN]
    ensures { result ≡ key ++ pod.now }
{
    let mut bytes = [0; KEYED_LEN];
    let (first, last) = bytes.split_at_mut(HEADER_LEN);
    first.copy_from_slice(&key);
    last.copy_from_slice(pod);
    bytes
}

/// Appends four words in one call of the sink.
fn put_four<S: PodSink>(
    sink: &mut S,
    first: u32,
    second: u32,
    third: u32,
    fourth: u32,
) -> Result<(), GenError>
    ensures ok { OnOk result (S.appends sink.old
        ((word_bytes first ++ word_bytes second) ++ (word_bytes third ++ word_bytes fourth)) sink.new) }
    ensures within { (third < size_limit) × (fourth < size_limit) }
    ensures begun { OnErr result ((count : ℕ)
        × S.appends sink.old (take count
        ((word_bytes first ++ word_bytes second) ++ (word_bytes third ++ word_bytes fourth))) sink.new) }
    ensures cause { IfErr result (λ e. S.refuses sink.old 16 sink.new e) }
{
    sink.append(&joined(two_words(first, second), two_words(third, fourth)))
}
