//! Filters two choices of which one is an Enum of few values, by the borrowed body of the Enum, without reading it first.
ghost use Rattle.std.specs.Prelude.{◌≡◌, ◌↔◌, ◌+◌, ◌<◌, ◌≤◌, Contains, IfErr, IfSome, IsTrue, OnOk, length, map, take};
ghost use Rattle.spa_format.specs.Kind.{Fixed, content};
ghost use Rattle.spa_format.specs.Tree.{Tree, choice_type};
ghost use Rattle.spa_format.specs.Words.{word_at};
ghost use Rattle.spa_filter.specs.CommonPods.{AreBoth, AreEnumValues, HasBody, IsCommonAppended, IsCommonRefused, IsMetAppended, IsMetRefused, IsValueOf, SideAdmits, side_default};
ghost use Rattle.spa_filter_offers.specs.Offers.{IsDefault, IsKept, IsOneMoreKept};

use crate::choices::{choice_over, put_element, put_enum_of, put_read};
use crate::refused::Refused;
use spa_bytes::{HEADER_LEN, SECOND_WORD, u32_at};
use spa_filter_offers::{Element, Offer, admits, default_of, is_among, is_same, offer_of};
use spa_fixed_sized::{ENUM_SHAPE, open_array};
use std::alloc::Global;

/// The greatest length in bytes of an Enum's body whose values are searched one by one: 17 values of two words each.
const SHORT_LEN: usize = 152;

/// The greatest number of values of an Enum whose body has `SHORT_LEN` bytes: of one word each.
pub(crate) const MOST: usize = 34;

/// Whether a choice's body is that of an Enum.
pub(crate) fn is_enum(body: &[u8]) -> bool {
    body.len() >= HEADER_LEN && u32_at(body, 0) == ENUM_SHAPE
}

/// Whether a choice's body is that of an Enum of at most `SHORT_LEN` bytes.
pub(crate) fn is_short_enum(body: &[u8]) -> bool {
    body.len() <= SHORT_LEN && is_enum(body)
}

/// The default of the Enum over the type `T` with this body, and the bodies of its values, of `N` bytes each, the default's first. None: it isn't
/// the body of such an Enum.
fn enum_view<T: Element, const N: usize>(body: &[u8]) -> Option<(T, &[[u8; N]])>
    requires size { T.SIZE ≡ N }
    ensures { IfSome result (λ found. AreEnumValues T.kind (T.fixed found.0) found.1.now body.now) }
{
    if body.len() < 2 * HEADER_LEN || u32_at(body, HEADER_LEN + SECOND_WORD) != T::TYPE {
        return None;
    }
    if u32_at(body, 0) != ENUM_SHAPE {
        return None;
    }
    let (_, array) = body.split_at(HEADER_LEN);
    let elements = open_array::<T>(array)?;
    let (values, _) = elements.as_chunks::<N>();
    let first = values.first()?;
    Some((T::of_body(first), values))
}

/// Whether an element is among the values with these bodies.
fn is_one<T: Element, const N: usize>(x: &T, values: &[[u8; N]]) -> bool
    requires { T.SIZE ≡ N }
    ensures { IsTrue result ↔ Contains (map (content T.kind) values.now) (T.fixed x.now) }
{
    for value in values {
        if is_same(x, &T::of_body(value)) {
            return true;
        }
    }
    false
}

/// Whether an element is one of the values of the Enum over the type `T` with this body. None: it isn't the body of such an Enum of at most
/// `SHORT_LEN` bytes.
pub(crate) fn is_value_of<T: Element, const N: usize>(x: &T, body: &[u8]) -> Option<bool>
    requires size { T.SIZE ≡ N }
    ensures { IfSome result (IsValueOf T.kind (T.fixed x.now) body.now) }
{
    if !is_short_enum(body) {
        return None;
    }
    let (_, values) = enum_view::<T, N>(body)?;
    Some(is_one(x, values))
}

/// One choice of a pair, by what it admits.
#[derive(Clone, Copy)]
enum Side<'a, T, B> {
    /// An Enum: its default, and the bodies of its values, among them the default's.
    Values(T, &'a [B]),
    /// A choice that was read as an offer.
    Offered(Offer<'a, T>),
}

/// Whether a side admits an element.
fn admits_side<T: Element, const N: usize>(side: &Side<'_, T, [u8; N]>, x: &T) -> bool
    requires size { T.SIZE ≡ N }
    ensures { IsTrue result ↔ SideAdmits T.kind T.fixed side.now (T.fixed x.now) }
{
    match side {
        Side::Values(_, values) => is_one(x, values),
        Side::Offered(offer) => admits(offer, x),
    }
}

/// The default of a side.
fn default_of_side<T: Element, const N: usize>(side: &Side<'_, T, [u8; N]>) -> T
    ensures { T.fixed result ≡ side_default T.fixed side.now }
{
    match side {
        Side::Values(default, _) => *default,
        Side::Offered(offer) => default_of(offer),
    }
}

/// Whether a side is a None choice, which admits its default alone.
fn is_only<T: Element, const N: usize>(side: &Side<'_, T, [u8; N]>) -> bool
    ensures { IsTrue result → (x : Fixed) → SideAdmits T.kind T.fixed side.now x → x ≡ side_default T.fixed side.now }
{
    match side {
        Side::Offered(Offer::Only(_)) => true,
        _ => false,
    }
}

/// Puts those of an Enum's values that another choice admits to the front of `room`, each once, in their order, and answers how many these are.
fn put_kept<T: Element, const N: usize>(
    room: &mut [T],
    values: &[[u8; N]],
    other: &Side<'_, T, [u8; N]>,
) -> usize
    requires size { T.SIZE ≡ N }
    requires room { length values.now ≤ length room.old }
    ensures kept { IsKept (SideAdmits T.kind T.fixed other.now) (map (content T.kind) values.now)
        (map T.fixed (take result room.new)) }
    ensures within { result ≤ length room.new }
{
    let mut count = 0;
    for value in values {
        count = keep_shared(room, count, &T::of_body(value), other);
    }
    count
}

/// Puts an element behind the first `count` where a choice admits it and these don't have it yet, and answers how many there are then.
fn keep_shared<T: Element, const N: usize>(
    values: &mut [T],
    count: usize,
    value: &T,
    other: &Side<'_, T, [u8; N]>,
) -> usize
    requires size { T.SIZE ≡ N }
    requires room { count < length values.old }
    ensures kept { IsOneMoreKept (SideAdmits T.kind T.fixed other.now) (T.fixed value.now)
        (map T.fixed (take count values.old)) (map T.fixed (take result values.new)) }
    ensures few { result ≤ count + 1 }
    ensures same_length { length values.new ≡ length values.old }
{
    if !admits_side(other, value) {
        return count;
    }
    if is_among(value, &values[..count]) {
        return count;
    }
    values[count] = *value;
    count + 1
}

/// The first of three elements that both choices admit: the default of the one, the default of the other, and an element that both do admit.
fn shared_default<T: Element, const N: usize>(
    a: &Side<'_, T, [u8; N]>,
    b: &Side<'_, T, [u8; N]>,
    other: &T,
) -> T
    requires size { T.SIZE ≡ N }
    requires other { SideAdmits T.kind T.fixed a.now (T.fixed other.now) × SideAdmits T.kind T.fixed b.now (T.fixed other.now) }
    ensures { IsDefault (SideAdmits T.kind T.fixed a.now) (SideAdmits T.kind T.fixed b.now) (side_default T.fixed a.now)
        (side_default T.fixed b.now) (T.fixed result) }
{
    let first = default_of_side(a);
    if admits_side(a, &first) && admits_side(b, &first) {
        return first;
    }
    let second = default_of_side(b);
    if admits_side(a, &second) && admits_side(b, &second) {
        return second;
    }
    *other
}

/// Appends the canonical pod of what two choices both admit, which is what an Enum of these values and the other choice admit: of an element where
/// one of the two is a None choice, else of an Enum. The values that are admitted are written over those in `room`.
fn put_sides<T: Element, const N: usize>(
    out: &mut Vec<u8>,
    a: &Side<'_, T, [u8; N]>,
    b: &Side<'_, T, [u8; N]>,
    values: &[[u8; N]],
    other: &Side<'_, T, [u8; N]>,
    room: &mut [T],
) -> Result<(), Refused>
    requires size { T.SIZE ≡ N }
    requires room { length values.now ≤ length room.old }
    requires shared { AreBoth (Contains (map (content T.kind) values.now)) (SideAdmits T.kind T.fixed other.now)
        (SideAdmits T.kind T.fixed a.now) (SideAdmits T.kind T.fixed b.now) }
    ensures appended { OnOk result (IsMetAppended (SideAdmits T.kind T.fixed a.now) (SideAdmits T.kind T.fixed b.now)
        (side_default T.fixed a.now) (side_default T.fixed b.now) out.old.items out.new.items) }
    ensures cause { IfErr result (IsMetRefused (SideAdmits T.kind T.fixed a.now) (SideAdmits T.kind T.fixed b.now)
        (side_default T.fixed a.now) (side_default T.fixed b.now)) }
{
    let count = put_kept::<T, N>(room, values, other);
    let kept = &room[..count];
    let Some(one) = kept.first() else {
        return Err(Refused::Apart);
    };
    let default = shared_default(a, b, one);
    if is_only(a) {
        return put_element::<T>(out, &default);
    }
    if is_only(b) {
        return put_element::<T>(out, &default);
    }
    put_enum_of::<T>(out, &default, kept)
}

/// What `enum_view` gives of an Enum of at most `most` values. None: it isn't the body of such an Enum, or has more values.
fn short_view<T: Element, const N: usize>(body: &[u8], most: usize) -> Option<(T, &[[u8; N]])>
    requires size { T.SIZE ≡ N }
    ensures values { IfSome result (λ found. AreEnumValues T.kind (T.fixed found.0) found.1.now body.now) }
    ensures few { IfSome result (λ found. length found.1.now ≤ most) }
{
    let found = enum_view::<T, N>(body)?;
    if found.1.len() > most {
        return None;
    }
    Some(found)
}

/// Appends the canonical pod of the value to which the choices of two bodies filter, the first of which is an Enum over the type `T` with these
/// values.
fn put_values_first<T: Element, const N: usize>(
    alloc: Global,
    out: &mut Vec<u8>,
    a: &[u8],
    b: &[u8],
    ours: (T, &[[u8; N]]),
    room: &mut [T],
) -> Result<(), Refused>
    requires size { T.SIZE ≡ N }
    requires over { word_at a.now 12 ≡ T.TYPE }
    requires values { AreEnumValues T.kind (T.fixed ours.0) ours.1.now a.now }
    requires room { length ours.1.now ≤ length room.old }
    ensures appended { OnOk result ((v w : Tree) → HasBody v choice_type a.now → HasBody w choice_type b.now
        → IsCommonAppended v w out.old.items out.new.items) }
    ensures cause { IfErr result (λ e. (v w : Tree) → HasBody v choice_type a.now → HasBody w choice_type b.now
        → IsCommonRefused v w e) }
{
    let choice = choice_over::<T>(alloc, b)?;
    let first = Side::Values(ours.0, ours.1);
    let second = Side::Offered(offer_of(&choice.1));
    put_sides(out, &first, &second, ours.1, &second, room)
}

/// Appends the canonical pod of the value to which the choices of two bodies filter, the first of which is an Enum over the type `T`. Where `room` is
/// for fewer values than it has, they are read.
pub(crate) fn put_enum_first<T: Element, const N: usize>(
    alloc: Global,
    out: &mut Vec<u8>,
    a: &[u8],
    b: &[u8],
    room: &mut [T],
) -> Result<(), Refused>
    requires size { T.SIZE ≡ N }
    requires over { word_at a.now 12 ≡ T.TYPE }
    ensures appended { OnOk result ((v w : Tree) → HasBody v choice_type a.now → HasBody w choice_type b.now
        → IsCommonAppended v w out.old.items out.new.items) }
    ensures cause { IfErr result (λ e. (v w : Tree) → HasBody v choice_type a.now → HasBody w choice_type b.now
        → IsCommonRefused v w e) }
{
    let Some(ours) = short_view::<T, N>(a, room.len()) else {
        return put_read::<T>(alloc, out, a, b);
    };
    let Some(theirs) = enum_view::<T, N>(b) else {
        return put_values_first::<T, N>(alloc, out, a, b, ours, room);
    };
    let first = Side::Values(ours.0, ours.1);
    let second = Side::Values(theirs.0, theirs.1);
    put_sides(out, &first, &second, ours.1, &second, room)
}

/// Appends the canonical pod of the value to which the choices of two bodies filter, the second of which is an Enum, and the first over the type `T`.
/// Where the Enum has more values than `room`, both choices are read first, which takes memory.
pub(crate) fn put_enum_second<T: Element, const N: usize>(
    alloc: Global,
    out: &mut Vec<u8>,
    a: &[u8],
    b: &[u8],
    room: &mut [T],
) -> Result<(), Refused>
    requires size { T.SIZE ≡ N }
    requires over { word_at a.now 12 ≡ T.TYPE }
    ensures appended { OnOk result ((v w : Tree) → HasBody v choice_type a.now → HasBody w choice_type b.now
        → IsCommonAppended v w out.old.items out.new.items) }
    ensures cause { IfErr result (λ e. (v w : Tree) → HasBody v choice_type a.now → HasBody w choice_type b.now
        → IsCommonRefused v w e) }
{
    let Some(theirs) = short_view::<T, N>(b, room.len()) else {
        return put_read::<T>(alloc, out, a, b);
    };
    let choice = choice_over::<T>(alloc, a)?;
    let first = Side::Offered(offer_of(&choice.1));
    let second = Side::Values(theirs.0, theirs.1);
    put_sides(out, &first, &second, theirs.1, &first, room)
}
