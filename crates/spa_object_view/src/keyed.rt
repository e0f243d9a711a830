//! Finds properties by their keys, in a zero-copy view.
ghost use Rattle.std.specs.Prelude.{◌≡◌, ◌≤◌, ◌<◌, IfOk, IfSome, MatchOption, None, length, not, true};
ghost use Rattle.std.specs.List.Sorted.{IsNonDecreasingBy};
ghost use Rattle.spa_format.specs.Tree.{Properties};
ghost use Rattle.spa_format.specs.Words.{size_limit};
ghost use Rattle.spa_object_view.specs.KeyOrder.{HasNoWord, IsFirstFrom, IsKeyed, IsLeastWord, IsOrder, SaysFirst, SaysNew, SaysNewBeside, length_behind, place_words};
ghost use Rattle.spa_object_view.specs.Written.{AreWritten, IsFound};
ghost use Rattle.spa_keyed_objects.specs.Keys.{offered_at, has_key};

use crate::object_view::{PropertyView, find, first_property};
use std::alloc::{AllocError, Global};

/// The length in bytes up to which properties are few, without being counted.
const SHORT_LEN: usize = 512;

/// The greatest number of properties that are searched one by one.
const FEW: usize = 16;

/// The offsets of properties are below this number.
const PLACES: u64 = 4294967296;

/// Borrowed properties, and, where there are many, a sorted index of their keys for binary search.
#[derive(Drop)]
pub(crate) struct Keyed<'a> {
    /// The bytes of the properties.
    pub(crate) properties: &'a [u8],
    /// The index: key and offset of each property as one number, in ascending order.
    order: Option<Vec<u64>>,
}

impl<'a> Keyed<'a> {
    /// These properties, with an index where there are many. Refused only for want of memory.
    #[inline(always)]
    pub(crate) fn new(alloc: Global, properties: &'a [u8]) -> Result<Keyed<'a>, AllocError>
        ensures properties { IfOk result (λ keyed. keyed.properties.now ≡ properties.now) }
        ensures keyed { IfOk result (λ keyed. IsKeyed keyed) }
    {
        if are_few(properties) || properties.len() as u64 >= PLACES {
            return Ok(Keyed {
                properties,
                order: None,
            });
        }
        let order = order_of(alloc, properties)?;
        Ok(Keyed {
            properties,
            order: Some(order),
        })
    }

    /// The first property with this key. None: no property has it.
    #[inline(always)]
    pub(crate) fn find(&self, key: u32) -> Option<PropertyView<'a>>
        requires { IsKeyed self.now }
        ensures found { (ps : Properties) → AreWritten ps self.now.properties.now
            → MatchOption result (offered_at key ps ≡ None)
            (λ first. IsFound (offered_at key ps) first.flags first.pod.now) }
        ensures behind { IfSome result (λ first. (ps : Properties) → AreWritten ps self.now.properties.now
            → length first.rest.now ≡ length_behind key ps self.now.properties.now) }
        ensures words { IfSome result (λ first. (first.key < size_limit) × (first.flags < size_limit)) }
    {
        match &self.order {
            None => find(self.properties, key),
            Some(order) => find_by(order.as_slice(), self.properties, key),
        }
    }

    /// Whether no property has this key.
    #[inline(always)]
    pub(crate) fn lacks(&self, key: u32) -> bool
        requires { IsKeyed self.now }
        ensures { (ps : Properties) → AreWritten ps self.now.properties.now → has_key key ps ≡ not result }
    {
        match self.find(key) {
            Some(_) => false,
            None => true,
        }
    }

    /// Whether no property of `other` and none before `first` here has the key of `first`. All keys before it are below `bound`.
    #[inline(always)]
    pub(crate) fn is_new_beside(
        &self,
        other: &Keyed<'_>,
        first: &PropertyView<'_>,
        bound: u64,
    ) -> bool
        requires itself { IsKeyed self.now }
        requires other { IsKeyed other.now }
        ensures { SaysNewBeside result other.now.properties.now self.now.properties.now first.now bound }
    {
        other.lacks(first.key) && self.is_new(first, bound)
    }

    /// Whether no property before `first` has its key. All keys before it are below `bound`.
    #[inline(always)]
    pub(crate) fn is_new(&self, first: &PropertyView<'_>, bound: u64) -> bool
        requires { IsKeyed self.now }
        ensures { SaysNew result self.now.properties.now first.now bound }
    {
        if u64::from(first.key) >= bound {
            return true;
        }
        self.is_first(first)
    }

    /// Whether a property is the first with its key.
    #[inline(never)]
    fn is_first(&self, first: &PropertyView<'_>) -> bool
        requires { IsKeyed self.now }
        ensures { SaysFirst result self.now.properties.now first.now }
    {
        match self.find(first.key) {
            Some(found) => found.rest.len() == first.rest.len(),
            None => false,
        }
    }
}

/// The bound raised so that this key is below it, too.
#[inline(always)]
pub(crate) fn raised(bound: u64, key: u32) -> u64
    ensures { (bound ≤ result) × (key < result) }
{
    let key = u64::from(key);
    if key < bound { bound } else { key + 1 }
}

/// Whether there are at most `FEW` properties, or at most `SHORT_LEN` bytes.
fn are_few(properties: &[u8]) -> bool {
    if properties.len() <= SHORT_LEN {
        return true;
    }
    let mut left = properties;
    for _ in 0..FEW {
        match first_property(left) {
            Some(first) => left = first.rest,
            None => return true,
        }
    }
    left.is_empty()
}

/// Key and offset of each property as one number, in the order of the properties. Refused only for want of memory.
fn places_of(alloc: Global, properties: &[u8]) -> Result<Vec<u64>, AllocError>
    requires { length properties.now < size_limit }
    ensures { IfOk result (λ places. (ps : Properties) → AreWritten ps properties.now
        → places.items ≡ place_words (length properties.now) ps properties.now) }
{
    let mut places = Vec::new(alloc);
    let mut left = properties;
    while let Some(first) = first_property(left) {
        let place = (properties.len() - left.len()) as u64;
        places.push(u64::from(first.key) * PLACES + place)?;
        left = first.rest;
    }
    Ok(places)
}

/// Key and offset of each property as one number, in ascending order. Refused only for want of memory.
#[inline(never)]
fn order_of(alloc: Global, properties: &[u8]) -> Result<Vec<u64>, AllocError>
    requires { length properties.now < size_limit }
    ensures order { IfOk result (λ order. (ps : Properties) → AreWritten ps properties.now
        → IsOrder ps properties.now order.items) }
    ensures ascending { IfOk result (λ order. IsNonDecreasingBy (λ x. x) order.items) }
{
    let mut order = places_of(alloc, properties)?;
    order.sort_unstable();
    Ok(order)
}

/// The first property with this key, by binary search in the index. None: no property has it.
#[inline(never)]
fn find_by<'a>(order: &[u64], properties: &'a [u8], key: u32) -> Option<PropertyView<'a>>
    requires order { (ps : Properties) → AreWritten ps properties.now → IsOrder ps properties.now order.now }
    requires ascending { IsNonDecreasingBy (λ x. x) order.now }
    ensures found { (ps : Properties) → AreWritten ps properties.now
        → MatchOption result (offered_at key ps ≡ None)
        (λ first. IsFound (offered_at key ps) first.flags first.pod.now) }
    ensures behind { IfSome result (λ first. (ps : Properties) → AreWritten ps properties.now
        → length first.rest.now ≡ length_behind key ps properties.now) }
    ensures words { IfSome result (λ first. (first.key < size_limit) × (first.flags < size_limit)) }
{
    let Some(place) = place_by(order, key) else {
        return None;
    };
    if place > properties.len() {
        return None;
    }
    let (_, left) = properties.split_at(place);
    first_property(left)
}

/// The offset of the first property with this key, by binary search in the index. None: no property has it.
fn place_by(order: &[u64], key: u32) -> Option<usize>
    requires { IsNonDecreasingBy (λ x. x) order.now }
    ensures { MatchOption result (HasNoWord key order.now) (λ place. IsLeastWord key order.now place) }
{
    let least = u64::from(key) * PLACES;
    let at = first_from(order, least);
    if at >= order.len() {
        return None;
    }
    let place = order[at] - least;
    if place >= PLACES {
        return None;
    }
    Some(place as usize)
}

/// The index of the first of ascending numbers that isn't below `least`, or of one that is equal to it.
fn first_from(order: &[u64], least: u64) -> usize
    requires { IsNonDecreasingBy (λ x. x) order.now }
    ensures { IsFirstFrom order.now least result }
{
    match order.binary_search(&least) {
        Ok(at) => at,
        Err(at) => at,
    }
}
