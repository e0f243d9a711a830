//! How many values a value consists of, counted no further than to a number.
ghost use Rattle.std.specs.Prelude.{◌≡◌, ◌+◌, ◌<◌, ◌≤◌, IfNone, IfSome, IsSomeAnd, false, length, true};
ghost use Rattle.spa_format.specs.Encoding.{encoding_of};
ghost use Rattle.spa_format.specs.Tree as tree;
ghost use Rattle.spa_format.specs.Tree.{member_node_count, node_count, property_node_count};
ghost use Rattle.spa_canonical.specs.Depth.{depth_of, member_depth, property_depth};
ghost use Rattle.spa_value.specs.View.{view};
ghost use Rattle.spa_value.specs.Views.{property_views, views};

use spa_bytes::HEADER_LEN;
use spa_value::{Property, Value};

/// Is it a struct or an object?
#[inline(always)]
pub(crate) fn is_nested(value: &Value) -> bool {
    matches!(value, Value::Struct(_) | Value::Object(_))
}

/// How many members and properties the structs and objects in a value may have in all for the calls that write it to cost less
/// than a list of what is open and a copy.
const FEW: usize = 64;

/// Whether the structs and objects in a value have no more members and properties than these. A struct that is the only member
/// of another one isn't counted, and takes no call: so no call that goes through the value is nested deeper.
pub(crate) fn is_small(value: &Value) -> bool {
    few_left(value, FEW + 1) != 0
}

/// How much of this number is left by these members and properties. 0: they are as many, or more.
#[cycle(few)]
#[inline(always)]
fn few_left(value: &Value, number: usize) -> usize {
    match value {
        Value::Struct(members) => few_left_of_members(members.as_slice(), number),
        Value::Object(object) => few_left_of_properties(object.properties.as_slice(), number),
        _ => number,
    }
}

/// What is left of the number once the values in the members of one struct are counted off; 0 where it is too small.
#[cycle(few)]
fn few_left_of_members(members: &[Value], number: usize) -> usize {
    let inner = innermost(members);
    if inner.len() >= number {
        return 0;
    }
    let mut left = number - inner.len();
    for member in inner {
        if is_nested(member) {
            left = few_left(member, left);
            if left == 0 {
                return 0;
            }
        }
    }
    left
}

/// What is left of the number once the values in the properties of one object are counted off; 0 where it is too small.
#[cycle(few)]
fn few_left_of_properties(properties: &[Property], number: usize) -> usize {
    if properties.len() >= number {
        return 0;
    }
    let mut left = number - properties.len();
    for property in properties {
        if is_nested(&property.value) {
            left = few_left(&property.value, left);
            if left == 0 {
                return 0;
            }
        }
    }
    left
}

/// The members of the innermost of structs of which each is the only member of the one around it.
#[inline(always)]
fn innermost(members: &[Value]) -> &[Value]
    ensures fewer { member_node_count (views result.now) ≤ member_node_count (views members.now) }
    ensures depth { member_depth (views result.now) ≤ member_depth (views members.now) }
{
    let mut left = members;
    while let Some(inner) = only_struct(left) {
        left = inner;
    }
    left
}

/// The members of the struct that is the only one of these.
#[inline(always)]
pub(crate) fn only_struct(members: &[Value]) -> Option<&[Value]>
    ensures { IfSome result (λ inner. views members.now ≡ tree.member (tree.struct (views inner.now)) tree.no_trees) }
{
    if members.len() != 1 {
        return None;
    }
    match &members[0] {
        Value::Struct(inner) => Some(inner.as_slice()),
        _ => None,
    }
}

/// How deep what is in a value may nest that is written by calls into a sink without an allocator.
pub(crate) const INNER_LEVELS: usize = 511;

/// Whether a value may nest deeper than calls write it into a sink without an allocator: it isn't small, and there may be room for more levels.
pub(crate) fn may_be_deep(room: Option<usize>, value: &Value) -> bool {
    let most = room.unwrap_or(usize::MAX) / HEADER_LEN;
    most > INNER_LEVELS + 1 && !is_small(value)
}

/// Whether at most so many structs and objects stand in one another in a value. A struct that is the only member of another one isn't counted. No
/// call is nested deeper than `levels`.
#[cycle(levels)]
#[inline(always)]
fn nests_within(value: &Value, levels: usize) -> bool
    ensures { result ≡ false → levels < depth_of (view value.now) }
{
    match value {
        Value::Struct(members) => levels != 0
            && members_nest_within(members.as_slice(), levels - 1),
        Value::Object(object) => {
            levels != 0 && properties_nest_within(object.properties.as_slice(), levels - 1)
        }
        _ => true,
    }
}

/// Whether at most so many stand in one another in each of these members of one struct.
#[cycle(levels)]
pub(crate) fn members_nest_within(members: &[Value], levels: usize) -> bool
    ensures { result ≡ false → levels < member_depth (views members.now) }
{
    for member in innermost(members) {
        if is_nested(member) && !nests_within(member, levels) {
            return false;
        }
    }
    true
}

/// Whether at most so many stand in one another in each value of these properties.
#[cycle(levels)]
pub(crate) fn properties_nest_within(properties: &[Property], levels: usize) -> bool
    ensures { result ≡ false → levels < property_depth (property_views properties.now) }
{
    for property in properties {
        if is_nested(&property.value) && !nests_within(&property.value, levels) {
            return false;
        }
    }
    true
}

/// Whether a value's encoding has more bytes than there is room for, as the number of its values tells: each has eight at least.
/// No call in it is nested deeper than an eighth of the room.
pub(crate) fn is_beyond(room: Option<usize>, value: &Value) -> bool
    ensures { result ≡ true → IsSomeAnd room (λ n. n < length (encoding_of (view value.now))) }
{
    match room {
        Some(room) => left_of(value, room / HEADER_LEN).is_none(),
        None => false,
    }
}

/// `number` less the count of values of which this value consists, itself among them. None where they are more than `number`.
#[cycle(count)]
pub(crate) fn left_of(value: &Value, number: usize) -> Option<usize>
    ensures left { IfSome result (λ left. number ≡ left + node_count (view value.now)) }
    ensures more { IfNone result (number < node_count (view value.now)) }
{
    let Some(left) = number.checked_sub(1) else {
        return None;
    };
    match value {
        Value::Struct(members) => left_of_members(members.as_slice(), left),
        Value::Object(object) => left_of_properties(object.properties.as_slice(), left),
        _ => Some(left),
    }
}

/// What is left of the number once all values in these members are counted off; `None` where it is too small. A struct that is the only member
/// of another one takes no call.
#[cycle(count)]
fn left_of_members(members: &[Value], number: usize) -> Option<usize>
    ensures left { IfSome result (λ left. number ≡ left + member_node_count (views members.now)) }
    ensures more { IfNone result (number < member_node_count (views members.now)) }
{
    let mut left = number;
    let mut inner = members;
    while let Some(lone) = only_struct(inner) {
        let Some(behind) = left.checked_sub(1) else {
            return None;
        };
        left = behind;
        inner = lone;
    }
    left_of_all(inner, left)
}

/// What is left of the number once all values in these members are counted off, one by one; `None` where it is too small.
#[cycle(count)]
fn left_of_all(members: &[Value], number: usize) -> Option<usize>
    ensures left { IfSome result (λ left. number ≡ left + member_node_count (views members.now)) }
    ensures more { IfNone result (number < member_node_count (views members.now)) }
{
    let mut left = number;
    for member in members {
        let Some(behind) = left_of(member, left) else {
            return None;
        };
        left = behind;
    }
    Some(left)
}

/// What is left of the number once all values in these properties are counted off; `None` where it is too small.
#[cycle(count)]
fn left_of_properties(properties: &[Property], number: usize) -> Option<usize>
    ensures left { IfSome result (λ left. number ≡ left + property_node_count (property_views properties.now)) }
    ensures more { IfNone result (number < property_node_count (property_views properties.now)) }
{
    let mut left = number;
    for property in properties {
        let Some(behind) = left_of(&property.value, left) else {
            return None;
        };
        left = behind;
    }
    Some(left)
}
