//! Zero-copy views of objects and their properties.
ghost use Rattle.std.specs.Prelude.{◌≡◌, ◌+◌, ◌<◌, ◌≤◌, IfNone, IfSome, MatchOption, None, drop, length};
ghost use Rattle.spa_format.specs.Front.{HasFront};
ghost use Rattle.spa_format.specs.Tree.{Properties};
ghost use Rattle.spa_format.specs.Words.{header_size, size_limit};
ghost use Rattle.spa_object_view.specs.KeyOrder.{length_behind};
ghost use Rattle.spa_object_view.specs.Written.{AreWritten, HasFirst, IsFound};
ghost use Rattle.spa_keyed_objects.specs.Keys.{offered_at};

use spa_bytes::{HEADER_LEN, SECOND_WORD, extent_of, u32_at};

/// A zero-copy view of an object.
#[derive(Clone, Copy)]
pub struct ObjectView<'a> {
    /// The object's type.
    pub type_: u32,
    /// The object's id.
    pub id: u32,
    /// The bytes of the object's properties.
    pub properties: &'a [u8],
}

/// A zero-copy view of a property, and the properties behind it.
#[derive(Clone, Copy)]
pub struct PropertyView<'a> {
    /// The property's key.
    pub key: u32,
    /// The property's flags.
    pub flags: u32,
    /// The pod of the property's value.
    pub pod: &'a [u8],
    /// The bytes of the properties behind it.
    pub rest: &'a [u8],
}

/// The property at the front of the bytes. None: there is no whole one.
#[inline(always)]
pub(crate) fn first_property(properties: &[u8]) -> Option<PropertyView<'_>>
    ensures first { IfSome result
        (λ first. HasFirst properties.now first.key first.flags first.pod.now first.rest.now) }
    ensures words { IfSome result (λ first. (first.key < size_limit) × (first.flags < size_limit)) }
    ensures shorter { IfSome result (λ first. length first.rest.now + 16 ≤ length properties.now) }
    ensures none { IfNone result (header_size ≤ length properties.now
        → ¬ (HasFront (drop header_size properties.now))) }
{
    if properties.len() < HEADER_LEN {
        return None;
    }
    let (_, behind) = properties.split_at(HEADER_LEN);
    if behind.len() < HEADER_LEN {
        return None;
    }
    let extent = extent_of(u32_at(behind, 0));
    if behind.len() < extent {
        return None;
    }
    let (pod, rest) = behind.split_at(extent);
    Some(PropertyView {
        key: u32_at(properties, 0),
        flags: u32_at(properties, SECOND_WORD),
        pod,
        rest,
    })
}

/// The first property with this key, by a linear search. None: no property has it.
#[inline(always)]
pub(crate) fn find(properties: &[u8], key: u32) -> Option<PropertyView<'_>>
    ensures found { (ps : Properties) → AreWritten ps properties.now
        → MatchOption result (offered_at key ps ≡ None)
        (λ first. IsFound (offered_at key ps) first.flags first.pod.now) }
    ensures behind { IfSome result (λ first. (ps : Properties) → AreWritten ps properties.now
        → length first.rest.now ≡ length_behind key ps properties.now) }
    ensures words { IfSome result (λ first. (first.key < size_limit) × (first.flags < size_limit)) }
{
    let mut left = properties;
    while let Some(first) = first_property(left) {
        if first.key == key {
            return Some(first);
        }
        left = first.rest;
    }
    None
}
