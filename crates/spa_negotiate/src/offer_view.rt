//! Zero-copy views of offers.
ghost use Rattle.std.specs.Prelude.{◌≡◌, ◌<◌, ◌≤◌, IfSome, List, length, take, true};
ghost use Rattle.spa_format.specs.Kind.{Fixed, Kind, body_size, type_number};
ghost use Rattle.spa_format.specs.Pod.{AreElements, IsBody, IsPod};
ghost use Rattle.spa_format.specs.Tree.{Tree, choice_type, type_of};
ghost use Rattle.std.specs.List.{Contains};
ghost use Rattle.spa_filter_elements.specs.Order.{IsAtMost};
ghost use Rattle.spa_negotiate.specs.Admits.{IsRangeKind};
ghost use Rattle.spa_negotiate.specs.Offering.{AreAdmitting, HasValues, IsElementType, IsOffer, IsShared, Offers, value_of};

use spa_bodies::{CHOICE_HEADER_LEN, VALUE_TYPE_AT};
use spa_bytes::{HEADER_LEN, open, u32_at, u64_at};
use spa_canonical::fixed_len;
use spa_filter_elements::Ordered;
use spa_fixed_sized::{ENUM_SHAPE, NONE_SHAPE, RANGE_SHAPE};
use spa_utils::{Id, SpaTypes};
use std::alloc::{AllocError, Global};

/// The length in bytes of a body of one word.
pub(crate) const ONE_WORD: usize = 4;

/// The length in bytes of a body of two words.
pub(crate) const TWO_WORDS: usize = 8;

/// How long the values of an Enum are, in bytes, that are looked for one by one beside those of another: 16 values of two words.
const SHORT_LEN: usize = 128;

/// A zero-copy view of a value as an offer: a choice, or a plain value as a None choice of it.
#[derive(Clone, Copy)]
pub(crate) struct OfferView<'a> {
    /// The shape of the choice.
    pub(crate) shape: u32,
    /// The type of the values.
    pub(crate) type_: u32,
    /// The length of a value in bytes.
    pub(crate) size: usize,
    /// The default, and behind it the further values.
    pub(crate) values: &'a [u8],
}

/// The offer of a pod's value. None: the value is neither a choice nor of a type over which there are choices.
pub(crate) fn offer_view(pod: &[u8]) -> Option<OfferView<'_>>
    ensures { IfSome result (λ offer. (v : Tree) → IsPod pod.now v → IsOffer v offer) }
{
    let front = open(pod)?;
    let body = front.body;
    if front.type_ == SpaTypes::Choice.0 {
        return choice_view(body);
    }
    if !is_element_type(front.type_) {
        return None;
    }
    Some(OfferView {
        shape: NONE_SHAPE,
        type_: front.type_,
        size: body.len(),
        values: body,
    })
}

/// The offer of the choice with this body. None: it has none.
fn choice_view(body: &[u8]) -> Option<OfferView<'_>>
    ensures { IfSome result (λ offer. (v : Tree) → type_of v ≡ choice_type → IsBody v body.now → IsOffer v offer) }
{
    if body.len() < CHOICE_HEADER_LEN {
        return None;
    }
    let type_ = u32_at(body, VALUE_TYPE_AT);
    if !is_element_type(type_) {
        return None;
    }
    let size = u32_at(body, HEADER_LEN) as usize;
    let (_, values) = body.split_at(CHOICE_HEADER_LEN);
    Some(OfferView {
        shape: u32_at(body, 0),
        type_,
        size,
        values,
    })
}

/// Whether there are choices over values of this type.
fn is_element_type(type_: u32) -> bool
    ensures { result ≡ true → IsElementType type_ }
{
    let len = fixed_len(type_);
    0 < len && len <= TWO_WORDS as u32
}

/// Whether two values of this length are the same bytes. Others than the first ones don't count.
#[inline(always)]
fn is_same(size: usize, value: &[u8], other: &[u8]) -> bool
    requires { (size ≤ length value.now) × (size ≤ length other.now) }
    ensures { result ≡ true → take size value.now ≡ take size other.now }
{
    match size {
        ONE_WORD => u32_at(value, 0) == u32_at(other, 0),
        TWO_WORDS => u64_at(value, 0) == u64_at(other, 0),
        _ => false,
    }
}

/// Whether the first value is no greater than the second, of a type over which Ranges are supported.
fn is_at_most(type_: u32, value: &[u8], other: &[u8]) -> bool
    ensures { result ≡ true → (k : Kind) → type_ ≡ type_number k → IsRangeKind k
        × IsAtMost (value_of k value.now) (value_of k other.now) }
{
    match SpaTypes(type_) {
        SpaTypes::Id => is_in_order::<Id>(value, other),
        SpaTypes::Int => is_in_order::<i32>(value, other),
        SpaTypes::Long => is_in_order::<i64>(value, other),
        _ => false,
    }
}

/// Whether the first value of the type `T` is no greater than the second. The bytes behind the two don't count.
fn is_in_order<T: Ordered>(value: &[u8], other: &[u8]) -> bool
    ensures { result ≡ true → IsAtMost (value_of T.kind value.now) (value_of T.kind other.now) }
{
    if value.len() < T::SIZE || other.len() < T::SIZE {
        return false;
    }
    T::of_body(&value[..T::SIZE]).is_at_most(&T::of_body(&other[..T::SIZE]))
}

/// Whether the value is among these, by a linear search.
fn is_among(size: usize, values: &[u8], value: &[u8]) -> bool
    requires { (0 < size) × (size ≤ length value.now) }
    ensures { result ≡ true → (k : Kind) (ys : List Fixed) → size ≡ body_size k → AreElements k ys values.now
        → Contains ys (value_of k value.now) }
{
    let mut left = values;
    while left.len() >= size {
        if is_same(size, left, value) {
            return true;
        }
        let (_, rest) = left.split_at(size);
        left = rest;
    }
    false
}

/// Whether the offer has a supported shape, and admits this value of its type. `false` promises nothing.
fn admits(offer: &OfferView<'_>, value: &[u8]) -> bool
    requires values { HasValues offer.now }
    requires value { offer.now.size ≤ length value.now }
    ensures { result ≡ true → (v : Tree) (o : IsOffer v offer.now) → Offers v (value_of o.kind value.now) }
{
    let size = offer.size;
    match offer.shape {
        NONE_SHAPE => is_same(size, offer.values, value),
        ENUM_SHAPE => is_among(size, offer.values, value),
        RANGE_SHAPE => {
            let (_, low) = offer.values.split_at(size);
            if low.len() < size {
                return false;
            }
            let (_, high) = low.split_at(size);
            if high.len() < size {
                return false;
            }
            is_at_most(offer.type_, low, value) && is_at_most(offer.type_, value, high)
        }
        _ => false,
    }
}

/// Whether both offers admit a value of their type.
fn both_admit(a: &OfferView<'_>, b: &OfferView<'_>, value: &[u8]) -> bool
    requires first { HasValues a.now }
    requires second { HasValues b.now }
    requires value { (a.now.size ≤ length value.now) × (b.now.size ≤ length value.now) }
    ensures { result ≡ true → AreAdmitting a.now b.now value.now }
{
    admits(a, value) && admits(b, value)
}

/// The first of these values that both offers admit. The first offer is asked before the second.
fn first_of<'v>(a: &OfferView<'_>, b: &OfferView<'_>, values: &'v [u8]) -> Option<&'v [u8]>
    requires first { HasValues a.now }
    requires second { HasValues b.now }
    requires sizes { b.now.size ≡ a.now.size }
    ensures long { IfSome result (λ value. a.now.size ≤ length value.now) }
    ensures admitted { IfSome result (λ value. AreAdmitting a.now b.now value.now) }
{
    let mut left = values;
    while left.len() >= a.size {
        if both_admit(a, b, left) {
            return Some(left);
        }
        let (_, rest) = left.split_at(a.size);
        left = rest;
    }
    None
}

/// The first of a's values that b has, too, by binary search in a sorted list of b's values.
fn first_by_halves<'v>(alloc: Global, a: &OfferView<'v>, b: &OfferView<'_>) -> Option<&'v [u8]>
    requires first { HasValues a.now }
    requires second { HasValues b.now }
    requires sizes { b.now.size ≡ a.now.size }
    ensures long { IfSome result (λ value. a.now.size ≤ length value.now) }
    ensures admitted { IfSome result (λ value. AreAdmitting a.now b.now value.now) }
{
    let Ok(order) = order_of(alloc, b.size, b.values) else {
        return None;
    };
    let mut left = a.values;
    while left.len() >= a.size {
        if order
            .as_slice()
            .binary_search(&number_of(a.size, left))
            .is_ok()
            && both_admit(a, b, left)
        {
            return Some(left);
        }
        let (_, rest) = left.split_at(a.size);
        left = rest;
    }
    None
}

/// The values as numbers, in ascending order. Refused only for want of memory.
fn order_of(alloc: Global, size: usize, values: &[u8]) -> Result<Vec<u64>, AllocError>
    requires { 0 < size }
{
    let mut order = Vec::new(alloc);
    let mut left = values;
    while left.len() >= size {
        order.push(number_of(size, left))?;
        let (_, rest) = left.split_at(size);
        left = rest;
    }
    order.sort_unstable();
    Ok(order)
}

/// A value as a number.
fn number_of(size: usize, value: &[u8]) -> u64
    requires { size ≤ length value.now }
{
    match size {
        ONE_WORD => u64::from(u32_at(value, 0)),
        TWO_WORDS => u64_at(value, 0),
        _ => 0,
    }
}

/// Whether two offers are Enums, one of them with many values.
fn are_long_enums(a: &OfferView<'_>, b: &OfferView<'_>) -> bool {
    a.shape == ENUM_SHAPE
        && b.shape == ENUM_SHAPE
        && (a.values.len() > SHORT_LEN || b.values.len() > SHORT_LEN)
}

/// The first of these that both offers admit: a's default, b's default, a's alternatives, b's alternatives, a's minimum, b's
/// minimum. The bytes behind it don't count. `None` says nothing.
pub(crate) fn first_common<'v>(
    alloc: Global,
    a: &OfferView<'v>,
    b: &OfferView<'v>,
) -> Option<&'v [u8]>
    ensures { IfSome result (λ value. (v w : Tree) → IsOffer v a.now → IsOffer w b.now
        → IsShared v w a.now.type_ value.now) }
{
    if a.type_ != b.type_ || a.size != b.size || a.size == 0 {
        return None;
    }
    if a.values.len() < a.size || b.values.len() < b.size {
        return None;
    }
    if both_admit(a, b, a.values) {
        return Some(a.values);
    }
    if both_admit(a, b, b.values) {
        return Some(b.values);
    }
    if are_long_enums(a, b) {
        let value = first_by_halves(alloc, a, b)?;
        return Some(value);
    }
    if a.shape == ENUM_SHAPE {
        if let Some(value) = first_of(b, a, a.values) {
            return Some(value);
        }
    }
    if b.shape == ENUM_SHAPE {
        if let Some(value) = first_of(a, b, b.values) {
            return Some(value);
        }
    }
    if a.shape == RANGE_SHAPE {
        let (_, low) = a.values.split_at(a.size);
        if low.len() >= a.size && both_admit(a, b, low) {
            return Some(low);
        }
    }
    if b.shape == RANGE_SHAPE {
        let (_, low) = b.values.split_at(b.size);
        if low.len() >= b.size && both_admit(a, b, low) {
            return Some(low);
        }
    }
    None
}
