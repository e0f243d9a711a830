//! Finds the offset of a property, or of a member of a struct.
ghost use Rattle.std.specs.Prelude.{◌≡◌, ◌≤◌, IfNone, IfSome, None, Some, length, true, false};
ghost use Rattle.spa_format.specs.Walk.{walk_behind};
ghost use Rattle.spa_format.specs.Words.{header_size};
ghost use Rattle.spa_items.specs.Places.{place_of_key, place_of_number};

use crate::listing::first_pod;

/// How many bytes of other properties are before the first property with a key. None: no property has it.
pub fn place_of_key(properties: &[u8], key: u32) -> Option<usize>
    ensures place { result ≡ place_of_key key (walk_behind header_size properties.now) }
    ensures within { IfSome result (λ place. place ≤ length properties.now) }
{
    let mut left = properties;
    while let Some(first) = first_pod(true, left) {
        if first.key == key {
            return Some(properties.len() - left.len());
        }
        left = first.rest;
    }
    None
}

/// How many bytes of other members are before the member of this number, counted from 0. None: there are no more.
pub fn place_of_number(members: &[u8], number: usize) -> Option<usize>
    ensures place { result ≡ place_of_number number (walk_behind 0 members.now) }
    ensures within { IfSome result (λ place. place ≤ length members.now) }
{
    let mut left = members;
    let mut before = number;
    while let Some(first) = first_pod(false, left) {
        if before == 0 {
            return Some(members.len() - left.len());
        }
        before -= 1;
        left = first.rest;
    }
    None
}
