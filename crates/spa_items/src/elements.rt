//! Lists the elements of arrays, and the values of choices.
ghost use Rattle.std.specs.Prelude.{◌≡◌, ◌+◌, ◌*◌, ◌≤◌, ◌<◌, ◌^◌, ◌∷◌, [], IfNone, IfSome, drop, length};
ghost use Rattle.spa_format.specs.Words.{header_size};
ghost use Rattle.spa_items.specs.Contents as c;
ghost use Rattle.spa_items.specs.Puts.{AreElements, ArePut};

use crate::contents::{fixed_content, word_or};
use crate::item::Item;
use spa_bytes::{HEADER_LEN, SECOND_WORD};
use spa_fixed_sized::count_taken;
use spa_utils::SpaTypes;

/// Values of one type and size, one after another.
#[derive(Clone, Copy)]
pub(crate) struct Elements<'a> {
    pub(crate) type_: u32,
    pub(crate) size: usize,
    pub(crate) count: usize,
    /// The byte of the input at which the first begins.
    pub(crate) at: usize,
    pub(crate) bytes: &'a [u8],
}

/// The bytes of an array's or a choice's body from its child header on; of any other pod none.
pub(crate) fn values_of(type_: u32, body: &[u8]) -> &[u8]
    ensures { result.now ≡ c.values_of type_ body.now }
{
    match SpaTypes(type_) {
        SpaTypes::Array => body,
        SpaTypes::Choice => behind(body),
        _ => &[],
    }
}

/// The bytes behind the first 8; none where there are fewer.
fn behind(bytes: &[u8]) -> &[u8]
    ensures { result.now ≡ drop header_size bytes.now }
{
    if bytes.len() < HEADER_LEN {
        return &[];
    }
    &bytes[HEADER_LEN..]
}

/// How many of `count` values a choice of this shape takes.
fn values_taken(shape: u32, count: usize) -> usize
    ensures taken { result ≡ c.values_taken shape count }
    ensures few { result ≤ count }
{
    match count_taken(shape) {
        Some(most) => count.min(most),
        None => count,
    }
}

/// How many whole values follow a child header.
fn values_behind(values: &[u8]) -> usize
    ensures behind { result ≡ c.values_behind values.now }
    ensures fit { result * c.word_or values.now 0 ≤ length (drop header_size values.now) }
    ensures few { result ≤ length (drop header_size values.now) }
{
    let size = word_or(values, 0) as usize;
    if size == 0 {
        return 0;
    }
    behind(values).len() / size
}

/// How many elements an array has, or how many values a choice takes.
pub(crate) fn element_count(type_: u32, body: &[u8]) -> usize
    ensures count { result ≡ c.element_count type_ body.now }
    ensures fit { let values = c.values_of type_ body.now in result * c.word_or values 0 ≤ length
        (drop header_size values) }
    ensures few { result ≤ length (drop header_size (c.values_of type_ body.now)) }
{
    let count = values_behind(values_of(type_, body));
    if SpaTypes(type_) == SpaTypes::Choice {
        return values_taken(word_or(body, 0), count);
    }
    count
}

/// How many bytes of a body are before an array's elements, or before a choice's values.
fn before_values(type_: u32) -> usize
    ensures { result ≡ c.before_values type_ }
{
    if SpaTypes(type_) == SpaTypes::Choice {
        2 * HEADER_LEN
    } else {
        HEADER_LEN
    }
}

/// The elements of an array, or the values that a choice takes, where the body begins at the byte `at`.
fn elements_of(type_: u32, at: usize, body: &[u8]) -> Elements<'_>
    requires { at + length body.now + header_size + header_size < 2 ^ 64 }
    ensures them { AreElements type_ at body.now result }
    ensures place { result.at ≤ at + header_size + header_size }
    ensures fit { result.count * result.size ≤ length result.bytes.now }
    ensures few { result.count ≤ length result.bytes.now }
    ensures within { length result.bytes.now ≤ length body.now }
{
    let values = values_of(type_, body);
    Elements {
        type_: word_or(values, SECOND_WORD),
        size: word_or(values, 0) as usize,
        count: element_count(type_, body),
        at: at + before_values(type_),
        bytes: behind(values),
    }
}

/// The item of an element or value, which begins at the byte `at`.
fn element(type_: u32, depth: usize, at: usize, bytes: &[u8]) -> Item
    ensures { result ≡ c.element type_ depth at bytes.now }
{
    let content = fixed_content(type_, bytes);
    Item {
        type_,
        key: 0,
        flags: 0,
        child: 0,
        choice_flags: 0,
        reserved: 0,
        depth,
        at,
        first: content.first,
        second: content.second,
    }
}

/// The item of the element of a number, counted from 0, of an array, or of the value of that number of a choice. `at` is the byte of the input at which
/// the body begins, `depth` how many structs, objects, arrays and choices the element is in. None: there are no more elements.
pub fn element_item(type_: u32, depth: usize, at: usize, body: &[u8], number: usize) -> Option<Item>
    requires within { at + length body.now + header_size + header_size < 2 ^ 64 }
    ensures there { IfSome result (λ item. number < c.element_count type_ body.now) }
    ensures item { IfSome result (λ item. item ≡ c.element_at type_ depth at number body.now) }
    ensures none { IfNone result (c.element_count type_ body.now ≤ number) }
{
    let elements = elements_of(type_, at, body);
    if elements.count <= number {
        return None;
    }
    let before = number * elements.size;
    let (_, left) = elements.bytes.split_at(before);
    let (value, _) = left.split_at(elements.size);
    Some(element(elements.type_, depth, elements.at + before, value))
}

/// Writes an item at an index of the output, where the output is that long.
pub(crate) fn put(out: &mut [Item], place: usize, item: Item)
    ensures { ArePut place (item ∷ []) out.old (place + 1) out.new }
{
    if place < out.len() {
        out[place] = item;
    }
}

/// Writes the items of the elements of an array, or of the values that a choice takes, from an index on, and answers the index behind them. The
/// body begins at the byte `at`.
pub(crate) fn put_elements(
    out: &mut [Item],
    place: usize,
    depth: usize,
    type_: u32,
    at: usize,
    body: &[u8],
) -> usize
    requires room { place + length body.now < 2 ^ 64 }
    requires within { at + length body.now + header_size + header_size < 2 ^ 64 }
    ensures put { ArePut place (c.elements type_ depth at body.now) out.old result out.new }
    ensures few { result ≤ place + length body.now }
{
    if type_ != SpaTypes::Array.0 && type_ != SpaTypes::Choice.0 {
        return place;
    }
    let elements = elements_of(type_, at, body);
    let mut done = 0;
    let mut left = elements.bytes;
    let mut begins = elements.at;
    while done < elements.count {
        let (first, others) = left.split_at(elements.size);
        put(
            out,
            place + done,
            element(elements.type_, depth, begins, first),
        );
        left = others;
        begins += elements.size;
        done += 1;
    }
    place + done
}
