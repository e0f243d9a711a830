//! Names that types, keys and ids of objects have.
ghost use Rattle.std.specs.Prelude.{◌≡◌, ◌≢◌, ◌<◌, ◌≤◌, ◌^◌, ◌+◌, ℕ, false, true};
ghost use Rattle.std.specs.Fmt.{decimal};
ghost use Rattle.spa_text_commands.specs.Naming as spec;
ghost use Rattle.spa_text_commands.specs.Naming.{AreNames, HasNone, IsName, is_counted};
ghost use Rattle.spa_text_commands.specs.Selection as selection;

use crate::selection::is_named;
use itoa::Buffer;
use spa_names::{Table, ids_of, keys_of, types};
use spa_utils::SpaTypes;

/// What of objects has names.
#[derive(Clone, Copy, Debug)]
pub enum Named {
    /// Their types.
    Types,
    /// Their ids.
    Ids,
    /// Their keys.
    Keys,
}

/// The table of the names of types, or of those of the ids or the keys of objects of this type.
pub fn table_of(named: Named, type_: u32) -> Table
    ensures { result ≡ spec.table_of named type_ }
{
    match named {
        Named::Types => Table::Types,
        Named::Ids => ids_of(SpaTypes(type_)),
        Named::Keys => keys_of(SpaTypes(type_)),
    }
}

/// Whether each of these names, which stand between commas, is that of a type, or of an id or a key of objects of some type.
pub fn are_names(named: Named, names: &str) -> bool
    ensures named { result ≡ true → AreNames named names.now }
    ensures other { result ≡ false → ¬ (AreNames named names.now) }
{
    names.split(',').all(|name| is_name(named, name))
}

/// Whether a type, or an id or a key of objects of some type, has this name, or this is the number of one.
pub(crate) fn is_name(named: Named, name: &str) -> bool
    ensures named { result ≡ true → IsName named name.now }
    ensures other { result ≡ false → ¬ (IsName named name.now) }
{
    if is_number(name) {
        return true;
    }
    if has_name_between(named, types::EVENT_DEVICE, types::EVENT_NODE + 1, name) {
        return true;
    }
    if has_name_between(named, types::COMMAND_NODE, types::COMMAND_NODE + 1, name) {
        return true;
    }
    has_name_between(
        named,
        types::OBJECT_PROP_INFO,
        types::OBJECT_PARAM_PROCESS_LATENCY + 1,
        name,
    )
}

/// Whether these are the digits of a number.
fn is_number(name: &str) -> bool
    ensures number { result ≡ true → (number : ℕ) × (number < 2 ^ 32) × (decimal number ≡ name.now) }
    ensures other { result ≡ false → (number : ℕ) → number < 2 ^ 32 → decimal number ≢ name.now }
{
    match name.parse::<u32>() {
        Ok(number) => Buffer::new().format(number) == name,
        Err(_) => false,
    }
}

/// Whether the table of a type from this one on and below this end has this name.
fn has_name_between(named: Named, first: u32, end: u32, name: &str) -> bool
    ensures named { result ≡ true → IsName named name.now }
    ensures other { result ≡ false → HasNone named first end name.now }
{
    for type_ in first..end {
        if has_name(table_of(named, type_), name) {
            return true;
        }
    }
    false
}

/// Whether a number of this table has this name.
fn has_name(table: Table, name: &str) -> bool
    ensures named { result ≡ true → (number : ℕ) × (number < 2 ^ 32) × (selection.is_named table number name.now ≡ true) }
    ensures other { result ≡ false → (number : ℕ) → is_counted number ≡ true → selection.is_named table number name.now ≡ false }
{
    if has_name_from(table, 0, name) {
        return true;
    }
    if has_name_from(table, START_DEVICE, name) {
        return true;
    }
    if has_name_from(table, START_AUDIO, name) {
        return true;
    }
    if has_name_from(table, START_VIDEO, name) {
        return true;
    }
    if has_name_from(table, START_COMMANDS, name) {
        return true;
    }
    if has_name_from(table, START_OBJECTS, name) {
        return true;
    }
    has_name_from(table, START_OTHER, name)
}

/// PipeWire's headers count types, ids and keys from 0 on, and from these numbers: `SPA_PROP_START_Device`, `SPA_TYPE_COMMAND_START` and their like.
const START_DEVICE: u32 = 0x100;

const START_AUDIO: u32 = 0x10000;

const START_VIDEO: u32 = 0x20000;

const START_COMMANDS: u32 = 0x30000;

const START_OBJECTS: u32 = 0x40000;

const START_OTHER: u32 = 0x80000;

/// There are fewer from each of them on.
const MOST: u32 = 32;

/// Whether one of the first numbers of this table from this one on has this name.
fn has_name_from(table: Table, start: u32, name: &str) -> bool
    requires { start < 1000000 }
    ensures named { result ≡ true → (number : ℕ) × (number < 2 ^ 32) × (selection.is_named table number name.now ≡ true) }
    ensures other { result ≡ false → (number : ℕ) → start ≤ number → number < start + 32 → selection.is_named table number name.now ≡ false }
{
    for number in start..start + MOST {
        if is_named(table, number, name) {
            return true;
        }
    }
    false
}
