//! Looks names up by numbers, and numbers by names.
ghost use Rattle.std.specs.Prelude.{◌≡◌, MatchOption, None, Some, get_or};
ghost use Rattle.std.specs.Option.{option_map};
ghost use Rattle.std.specs.Str.{bytes_eq};
ghost use Rattle.spa_names.specs.declared.entry.TheConstants.Expected.{NOTHING};
ghost use Rattle.spa_names.specs.declared.key_entries.TheConstants.{EXPECTED};
ghost use Rattle.spa_names.specs.Rows.{name_in, row_of};
ghost use Rattle.spa_names.specs.Lookup.{alias_of, expected_under, ids_of, keys_of, name_of, number_of, object_at, path_of, row_at};

use crate::contents::{aliases_of, entries_of};
use crate::entry::{Entry, Expected};
use crate::guess::guess_of;
use crate::key_entries::EXPECTED;
use crate::table::{OBJECTS, Table};
use crate::types::OBJECT_PROP_INFO;
use spa_utils::SpaTypes;

/// The name of a number. None: the table has none.
#[tactic(auto, using(crate::proofs::Coming::name_begins))]
pub fn name_of(table: Table, number: u32) -> Option<&'static str>
    ensures { option_map (λ name. name.now) result ≡ name_of table number }
{
    match entry_of(table, number) {
        Some(entry) => Some(&entry.1[entry.2..]),
        None => None,
    }
}

/// PipeWire's own name for a number, which ends in its name. None: the table has none.
pub fn path_of(table: Table, number: u32) -> Option<&'static str>
    ensures { option_map (λ path. path.now) result ≡ path_of table number }
{
    match entry_of(table, number) {
        Some(entry) => Some(entry.1),
        None => None,
    }
}

/// What is expected of the value under a key, by the table of its object's keys.
pub fn expected_under(keys: Table, key: u32) -> Expected
    ensures { result ≡ expected_under keys key }
{
    match entry_of(keys, key) {
        Some(entry) => expected_at(entry.3),
        None => Expected::NOTHING,
    }
}

/// The element of `EXPECTED` at this index.
fn expected_at(place: usize) -> Expected
    ensures { result ≡ get_or EXPECTED place NOTHING }
{
    let expected: &'static [Expected] = &EXPECTED;
    match expected.get(place) {
        Some(found) => *found,
        None => Expected::NOTHING,
    }
}

/// The number of a name. None: the table doesn't have it.
pub fn number_of(table: Table, name: &str) -> Option<u32>
    ensures { result ≡ number_of table name.now }
{
    let entries = entries_of(table);
    if let Some(entry) = entries.get(guess_of(name, entries.len())) {
        if has_name(entry, name) {
            return Some(entry.0);
        }
    }
    searched(table, name)
}

/// The number of a name by a linear search, which is for the few names that no hash leads to. It is out of line, so that `number_of` keeps fewer
/// registers.
#[cold]
#[inline(never)]
fn searched(table: Table, name: &str) -> Option<u32>
    ensures { result ≡ number_of table name.now }
{
    let entries = entries_of(table);
    for entry in entries {
        if has_name(entry, name) {
            return Some(entry.0);
        }
    }
    alias_of(table, name)
}

/// The number of a key by its name, and what is expected of the value under it. None: the table of its object's keys doesn't have the name.
#[inline(always)]
pub fn key_named(keys: Table, name: &str) -> Option<(u32, Expected)>
    ensures { MatchOption result (number_of keys name.now ≡ None)
        (λ key. (number_of keys name.now ≡ Some key.0) × (key.1 ≡ expected_under keys key.0)) }
{
    let entries = entries_of(keys);
    if let Some(key) = entries.get(guess_of(name, entries.len())) {
        if has_name(key, name) {
            return Some((key.0, expected_at(key.3)));
        }
    }
    match number_of(keys, name) {
        Some(number) => Some((number, expected_under(keys, number))),
        None => None,
    }
}

/// Whether this is the name of an entry.
fn has_name(entry: &Entry, name: &str) -> bool
    ensures { result ≡ bytes_eq (name_in (row_of entry.now)) name.now }
{
    match entry.1.as_bytes().get(entry.2..) {
        Some(own) => own == name.as_bytes(),
        None => name.is_empty(),
    }
}

/// The number of a further name. None: the table doesn't have it.
fn alias_of(table: Table, name: &str) -> Option<u32>
    ensures { result ≡ alias_of table name.now }
{
    let aliases = aliases_of(table);
    for alias in aliases {
        if alias.0 == name {
            return Some(alias.1);
        }
    }
    None
}

/// The table of the keys of objects of this type.
pub fn keys_of(type_: SpaTypes) -> Table
    ensures { result ≡ keys_of type_ }
{
    match object_of(type_) {
        Some((_, keys, _)) => keys,
        None => Table::Nothing,
    }
}

/// The table of the ids of objects of this type.
pub fn ids_of(type_: SpaTypes) -> Table
    ensures { result ≡ ids_of type_ }
{
    match object_of(type_) {
        Some((_, _, ids)) => ids,
        None => Table::Nothing,
    }
}

/// The number of the first type of parameters less its index in `OBJECTS`.
const FIRST_PLACE: u32 = OBJECT_PROP_INFO - 3;

/// The tables of a type of objects.
fn object_of(type_: SpaTypes) -> Option<(u32, Table, Table)>
    ensures { result ≡ object_at type_.0 }
{
    let objects: &'static [(u32, Table, Table)] = &OBJECTS;
    // The types of parameters stand last, and leave out no number.
    if let Some(object) = objects.get(type_.0.wrapping_sub(FIRST_PLACE) as usize) {
        if object.0 == type_.0 {
            return Some(*object);
        }
    }
    match objects.binary_search_by_key(&type_.0, |object| object.0) {
        Ok(at) => Some(objects[at]),
        Err(_) => None,
    }
}

/// A table's entry of a number. None: it has none.
fn entry_of(table: Table, number: u32) -> Option<Entry>
    ensures { option_map row_of result ≡ row_at table number }
{
    let entries = entries_of(table);
    // Where the table leaves out no number before this one, the index of its entry is its distance from the first number.
    if let Some(first) = entries.first() {
        if let Some(entry) = entries.get(number.wrapping_sub(first.0) as usize) {
            if entry.0 == number {
                return Some(*entry);
            }
        }
    }
    match entries.binary_search_by_key(&number, |entry| entry.0) {
        Ok(at) => Some(entries[at]),
        Err(_) => None,
    }
}
