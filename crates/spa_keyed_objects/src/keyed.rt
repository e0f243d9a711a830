//! Finds properties by their keys, and keeps sets of keys.
ghost use Rattle.std.specs.Prelude.{◌≡◌, IfOk, MatchOption, None, Some};
ghost use Rattle.spa_keyed_objects.specs.PropertyLists.{HasPlaces, IsAdded, IsKeyed, offered_in, offered_by};

use spa_value::Property;
use std::alloc::{AllocError, Global};
use std::collections::{BTreeMap, BTreeSet};

/// Properties, and the index of the first one with each key.
#[derive(Drop)]
pub struct Keyed<'a> {
    /// The properties.
    pub properties: &'a [Property],
    places: BTreeMap<u32, usize>,
}

impl<'a> Keyed<'a> {
    /// Indexes these properties, in a time that grows with n log n for n of them.
    ///
    /// # Errors
    /// Where memory for the index is refused.
    pub fn new(alloc: Global, properties: &'a [Property]) -> Result<Keyed<'a>, AllocError>
        ensures properties { IfOk result (λ keyed. keyed.properties.now ≡ properties.now) }
        ensures keyed { IfOk result (λ keyed. IsKeyed keyed) }
    {
        let places = places_of(alloc, properties)?;
        Ok(Keyed { properties, places })
    }

    /// The first property with this key, in a time that grows with log n.
    pub fn find(&self, key: u32) -> Option<&'a Property>
        requires { IsKeyed self.now }
        ensures { MatchOption result (offered_in key self.now.properties.now ≡ None)
            (λ p. offered_in key self.now.properties.now ≡ Some (offered_by p.now)) }
    {
        match self.places.get(&key) {
            Some(place) => Some(&self.properties[*place]),
            None => None,
        }
    }
}

/// The index of the first property with each key. The last property is inserted first, and each one replaces a later one with
/// its key.
fn places_of(alloc: Global, properties: &[Property]) -> Result<BTreeMap<u32, usize>, AllocError>
    ensures { IfOk result (λ places. HasPlaces places properties.now) }
{
    let mut places = BTreeMap::new(alloc);
    let mut left = properties.len();
    while left > 0 {
        left -= 1;
        places.insert(properties[left].key, left)?;
    }
    Ok(places)
}

/// Adds a key to the set, and answers whether it is new there. Refused only for want of memory.
pub fn add_key(keys: &mut BTreeSet<u32>, key: u32) -> Result<bool, AllocError>
    ensures { IfOk result (λ is_new. IsAdded keys.old key is_new keys.new) }
{
    let is_new = keys.insert(key)?;
    Ok(is_new)
}
