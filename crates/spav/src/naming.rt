//! Looks PipeWire's names up.
ghost use Rattle.std.specs.Prelude.{◌≡◌, ◌≤◌, ◌⊎◌, List, None, Some, length, ℕ};
ghost use Rattle.std.specs.Str.{IsUtf8};
ghost use Rattle.spa_names.specs.Lookup.{name_of, number_of};
ghost use Rattle.spav.specs.Answers.{IsDone, IsFound, IsInvalid, IsMissing, IsNoRoom, IsPut};
ghost use Rattle.spav.specs.Names.{table_of};
ghost use Rattle.spav.specs.Reading.{TextIsPut};

use crate::answers::{DONE, INVALID, MISSING};
use crate::reading::put_text;
use spa_names::{Table, expected_under, ids_of, keys_of, name_of, number_of};
use spa_utils::SpaTypes;
use std::str;

/// The numbers of pod types and of types of objects.
const TYPES: u32 = 0;

/// The shapes of choices.
const SHAPES: u32 = 1;

/// The types of controls.
const CONTROLS: u32 = 2;

/// The keys of objects of a type.
const KEYS: u32 = 3;

/// The ids of objects of a type.
const IDS: u32 = 4;

/// The Ids under a key of objects of a type.
const VALUES: u32 = 5;

/// Writes the name of a number and one NUL to the front of `out`: that of a type, a shape or a control, of a key or an id of objects of the type `type_`,
/// or of an Id under the key `key` of such objects, as `names` says.
///
/// 0: `len` is the name's length, without the NUL. -ENOSPC: `out` has no more than that. -ENOENT: the number has no name, and `len` is unchanged. Where
/// the answer isn't 0, `out` is unchanged.
#[unsafe(no_mangle)]
pub extern "C" fn spav_name(
    names: u32,
    type_: u32,
    key: u32,
    number: u32,
    out: &mut [u8],
    len: &mut usize,
) -> i32
    ensures name { IsDone result → (name : List ℕ) × (name_of (table_of names type_ key) number ≡ Some name)
        × TextIsPut name len.new out.old out.new }
    ensures room { IsNoRoom result → (name : List ℕ) × (name_of (table_of names type_ key) number ≡ Some name)
        × (len.new ≡ length name) × (length out.old ≤ length name) }
    ensures missing { IsMissing result → name_of (table_of names type_ key) number ≡ None }
    ensures answers { IsPut result ⊎ IsMissing result }
    ensures unchanged { ¬ (IsDone result) → out.new ≡ out.old }
    ensures kept { IsMissing result → len.new ≡ len.old }
{
    match name_of(table_of(names, type_, key), number) {
        Some(name) => put_text(name.as_bytes(), out, len),
        None => MISSING,
    }
}

/// Finds the number of a name, one of those that `spav_name` gives or of PipeWire's others for the same numbers.
///
/// 0: done. -EINVAL: the name isn't UTF-8. -ENOENT: no number has it. Where the answer isn't 0, nothing is written.
#[unsafe(no_mangle)]
pub extern "C" fn spav_number(
    names: u32,
    type_: u32,
    key: u32,
    name: &[u8],
    number: &mut u32,
) -> i32
    ensures number { IsDone result → number_of (table_of names type_ key) name.now ≡ Some number.new }
    ensures missing { IsMissing result → number_of (table_of names type_ key) name.now ≡ None }
    ensures refused { IsInvalid result → ¬ (IsUtf8 name.now) }
    ensures answers { IsFound result }
    ensures unchanged { ¬ (IsDone result) → number.new ≡ number.old }
{
    let Ok(text) = str::from_utf8(name) else {
        return INVALID;
    };
    match number_of(table_of(names, type_, key), text) {
        Some(found) => {
            *number = found;
            DONE
        }
        None => MISSING,
    }
}

/// The table of the names that are meant: of numbers that mean none it is the one without names.
fn table_of(names: u32, type_: u32, key: u32) -> Table
    ensures { result ≡ table_of names type_ key }
{
    match names {
        TYPES => Table::Types,
        SHAPES => Table::Choices,
        CONTROLS => Table::Controls,
        KEYS => keys_of(SpaTypes(type_)),
        IDS => ids_of(SpaTypes(type_)),
        VALUES => expected_under(keys_of(SpaTypes(type_)), key).ids,
        _ => Table::Nothing,
    }
}
