//! The elements of an Enum that another offer admits.
ghost use Rattle.std.specs.Prelude.{◌≡◌, ◌↔◌, ◌∷◌, Contains, IfOk, IfSome, IsTrue, OnOk, map};
ghost use Rattle.spa_filter_offers.specs.Numbering.{HasAll};
ghost use Rattle.spa_filter_offers.specs.declared.kept.Slot.TheVariants.{Known};
ghost use Rattle.spa_filter_offers.specs.Offers.{IsIndexed, IsKept, IsOneMoreKept, OfferAdmits};

use crate::element::Element;
use crate::numbers::{Numbers, add};
use crate::offer::{Offer, admits, is_among, is_same};
use std::alloc::{AllocError, Global};
use std::collections::BTreeSet;

/// The greatest number of alternatives that are searched one by one.
const FEW: usize = 16;

/// The greatest number of slots of a hash table that are searched for an element.
const MOST_SEARCHED: usize = 256;

/// Of an element and others, those that an offer admits, each once, in order. Refused only for want of memory.
#[inline(never)]
pub(crate) fn kept<T: Element>(
    alloc: Global,
    first: &T,
    others: &[T],
    other: &Offer<'_, T>,
) -> Result<Vec<T>, AllocError>
    ensures { IfOk result
        (λ kept. IsKept (OfferAdmits T.fixed other.now) (T.fixed first.now ∷ map T.fixed others.now)
        (map T.fixed kept.items)) }
{
    if others.len() <= FEW && is_short(other) {
        return kept_of_few(alloc, first, others, other);
    }
    if let Offer::Among(_, _) = other {
        return kept_of_many(alloc, first, others, other);
    }
    match kept_by_hash(alloc, first, others, other)? {
        Some(values) => Ok(values),
        None => kept_of_many(alloc, first, others, other),
    }
}

/// Whether an offer isn't an Enum of more than `FEW` alternatives.
fn is_short<T>(offer: &Offer<'_, T>) -> bool {
    match offer {
        Offer::Among(_, others) => others.len() <= FEW,
        _ => true,
    }
}

/// Of an element and others, those that an offer admits, by linear searches.
fn kept_of_few<T: Element>(
    alloc: Global,
    first: &T,
    others: &[T],
    other: &Offer<'_, T>,
) -> Result<Vec<T>, AllocError>
    ensures { IfOk result
        (λ kept. IsKept (OfferAdmits T.fixed other.now) (T.fixed first.now ∷ map T.fixed others.now)
        (map T.fixed kept.items)) }
{
    let mut values = Vec::new(alloc);
    keep_one(&mut values, first, other)?;
    for value in others {
        keep_one(&mut values, value, other)?;
    }
    Ok(values)
}

/// Appends an element that the offer admits to the list, where the list doesn't have it yet, by a linear search.
fn keep_one<T: Element>(
    values: &mut Vec<T>,
    value: &T,
    offer: &Offer<'_, T>,
) -> Result<(), AllocError>
    ensures { OnOk result (IsOneMoreKept (OfferAdmits T.fixed offer.now) (T.fixed value.now)
        (map T.fixed values.old.items) (map T.fixed values.new.items)) }
{
    if !admits(offer, value) {
        return Ok(());
    }
    if is_among(value, values.as_slice()) {
        return Ok(());
    }
    values.push(*value)?;
    Ok(())
}

/// Where the search for an element in a hash table ends.
#[derive(Clone, Copy)]
enum Slot {
    /// The list has the element.
    Known,
    /// The slot at this index is free for it.
    Free(usize),
    /// Too many slots are taken.
    Crowded,
}

/// The index of the first slot that is searched for a search key, one of so many: products of the key with 2^64 over the golden ratio are spread over
/// these.
fn first_slot(numbers: &Numbers, firsts: u64) -> usize {
    let key = numbers.signed.cast_unsigned() ^ numbers.first ^ numbers.second.rotate_left(32);
    let hash = key.wrapping_mul(0x9e37_79b9_7f4a_7c15) >> 32;
    (hash.wrapping_mul(firsts) >> 32) as usize
}

/// Searches for an element of a list in its hash table. A slot holds the index of an element, counted from 1, or 0 where it is free.
fn search<T: Element>(slots: &[u32], values: &[T], value: &T, first: usize) -> Slot
    ensures { result ≡ Known → Contains (map T.fixed values.now) (T.fixed value.now) }
{
    for place in first..first.saturating_add(MOST_SEARCHED) {
        let Some(index) = slots.get(place) else {
            return Slot::Crowded;
        };
        if *index == 0 {
            return Slot::Free(place);
        }
        let Some(known) = values.get(*index as usize - 1) else {
            return Slot::Crowded;
        };
        if is_same(value, known) {
            return Slot::Known;
        }
    }
    Slot::Crowded
}

/// Appends an element that the offer admits to the list, where the hash table of the list doesn't have it yet. False: the table is too crowded for
/// it.
fn keep_hashed<T: Element>(
    values: &mut Vec<T>,
    slots: &mut [u32],
    value: &T,
    offer: &Offer<'_, T>,
) -> Result<bool, AllocError>
    ensures { IfOk result (λ is_done. IsTrue is_done
        → IsOneMoreKept (OfferAdmits T.fixed offer.now) (T.fixed value.now)
        (map T.fixed values.old.items) (map T.fixed values.new.items)) }
{
    if !admits(offer, value) {
        return Ok(true);
    }
    // The search never comes to the end of the table.
    let firsts = slots.len().saturating_sub(MOST_SEARCHED);
    let first = first_slot(&value.numbers(), firsts as u64);
    let place = match search(slots, values.as_slice(), value, first) {
        Slot::Known => return Ok(true),
        Slot::Free(place) => place,
        Slot::Crowded => return Ok(false),
    };
    values.push(*value)?;
    let Ok(index) = u32::try_from(values.len()) else {
        return Ok(false);
    };
    if let Some(slot) = slots.get_mut(place) {
        *slot = index;
    }
    Ok(true)
}

/// Of an element and others, those that an offer admits, in a time that grows with their number. None: the hash table of those that are kept is too
/// crowded.
fn kept_by_hash<T: Element>(
    alloc: Global,
    first: &T,
    others: &[T],
    other: &Offer<'_, T>,
) -> Result<Option<Vec<T>>, AllocError>
    ensures { IfOk result (λ found. IfSome found
        (λ kept. IsKept (OfferAdmits T.fixed other.now) (T.fixed first.now ∷ map T.fixed others.now)
        (map T.fixed kept.items))) }
{
    let mut values = Vec::with_capacity(alloc, others.len())?;
    let mut slots = vec![in alloc; 0; others
        .len()
        .saturating_mul(2)
        .saturating_add(MOST_SEARCHED)]?;
    if !keep_hashed(&mut values, &mut slots, first, other)? {
        return Ok(None);
    }
    for value in others {
        if !keep_hashed(&mut values, &mut slots, value, other)? {
            return Ok(None);
        }
    }
    Ok(Some(values))
}

/// Of an element and others, those that an offer admits, by sets of search keys.
fn kept_of_many<T: Element>(
    alloc: Global,
    first: &T,
    others: &[T],
    other: &Offer<'_, T>,
) -> Result<Vec<T>, AllocError>
    ensures { IfOk result
        (λ kept. IsKept (OfferAdmits T.fixed other.now) (T.fixed first.now ∷ map T.fixed others.now)
        (map T.fixed kept.items)) }
{
    let index = index_of(alloc, other)?;
    let mut values = Vec::new(alloc);
    let mut seen = BTreeSet::new(alloc);
    keep(&mut values, &mut seen, first, other, &index)?;
    for value in others {
        keep(&mut values, &mut seen, value, other, &index)?;
    }
    Ok(values)
}

/// Appends the element to the list if the offer admits it and its search key isn't in `seen` yet, to which that is added then.
fn keep<T: Element>(
    values: &mut Vec<T>,
    seen: &mut BTreeSet<Numbers>,
    value: &T,
    offer: &Offer<'_, T>,
    index: &BTreeSet<Numbers>,
) -> Result<(), AllocError>
    requires indexed { IsIndexed T.fixed offer.now index.now }
    requires seen { HasAll seen.old (map T.fixed values.old.items) }
    ensures kept { OnOk result (IsOneMoreKept (OfferAdmits T.fixed offer.now) (T.fixed value.now)
        (map T.fixed values.old.items) (map T.fixed values.new.items)) }
    ensures seen { OnOk result (HasAll seen.new (map T.fixed values.new.items)) }
{
    if !admits_by(offer, index, value) {
        return Ok(());
    }
    if add(seen, value.numbers())? {
        values.push(*value)?;
    }
    Ok(())
}

/// The search keys of the default and of the alternatives of an Enum; of any other offer an empty set.
fn index_of<T: Element>(
    alloc: Global,
    offer: &Offer<'_, T>,
) -> Result<BTreeSet<Numbers>, AllocError>
    ensures { IfOk result (λ index. IsIndexed T.fixed offer.now index) }
{
    match offer {
        Offer::Among(default, others) => index_of_all(alloc, default, others),
        _ => Ok(BTreeSet::new(alloc)),
    }
}

/// The search keys of an element and of others. Refused only for want of memory.
pub fn index_of_all<T: Element>(
    alloc: Global,
    first: &T,
    others: &[T],
) -> Result<BTreeSet<Numbers>, AllocError>
    ensures { IfOk result (λ index. HasAll index (T.fixed first.now ∷ map T.fixed others.now)) }
{
    let mut index = BTreeSet::new(alloc);
    add(&mut index, first.numbers())?;
    for other in others {
        add(&mut index, other.numbers())?;
    }
    Ok(index)
}

/// Whether an offer admits an element, by `index_of` the offer where it is an Enum.
fn admits_by<T: Element>(offer: &Offer<'_, T>, index: &BTreeSet<Numbers>, x: &T) -> bool
    requires { IsIndexed T.fixed offer.now index.now }
    ensures { IsTrue result ↔ OfferAdmits T.fixed offer.now (T.fixed x.now) }
{
    match offer {
        Offer::Among(_, _) => index.contains(&x.numbers()),
        _ => admits(offer, x),
    }
}
