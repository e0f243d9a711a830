//! What the tables of names say.
ghost use Rattle.std.specs.Prelude.{◌≡◌, IfSome, MatchOption, None, Some, option_map};
ghost use Rattle.spa_text_read.specs.Names as spec;

use spa_names::laws::names_come_back;
use spa_names::{Expected, Table};
use spa_utils::SpaTypes;

/// The number of a name.
#[tactic(auto, unfolding(crate::specs::Names::number_of))]
pub(crate) fn number_of(table: Table, name: &str) -> Option<u32>
    ensures { result ≡ spec.number_of table name.now }
{
    spa_names::number_of(table, name)
}

/// The number of a key by its name, and what is expected of the value under it.
#[tactic(auto, unfolding(crate::specs::Names::expected_under, crate::specs::Names::number_of))]
pub(crate) fn key_named(keys: Table, name: &str) -> Option<(u32, Expected)>
    ensures { MatchOption result (spec.number_of keys name.now ≡ None)
        (λ key. (spec.number_of keys name.now ≡ Some key.0)
        × (key.1 ≡ spec.expected_under keys key.0)) }
{
    spa_names::key_named(keys, name)
}

/// The name of a number.
#[tactic(auto, unfolding(crate::specs::Names::name_of, crate::specs::Names::number_of))]
pub fn name_of(table: Table, number: u32) -> Option<&'static str>
    ensures name { option_map (λ name. name.now) result ≡ spec.name_of table number }
    ensures back { IfSome result (λ name. spec.number_of table name.now ≡ Some number) }
{
    names_come_back();
    spa_names::name_of(table, number)
}

/// The table of the keys of objects of this type.
#[tactic(auto, unfolding(crate::specs::Names::keys_of))]
pub fn keys_of(type_: u32) -> Table
    ensures { result ≡ spec.keys_of type_ }
{
    spa_names::keys_of(SpaTypes(type_))
}

/// The table of the ids of objects of this type.
#[tactic(auto, unfolding(crate::specs::Names::ids_of))]
pub fn ids_of(type_: u32) -> Table
    ensures { result ≡ spec.ids_of type_ }
{
    spa_names::ids_of(SpaTypes(type_))
}

/// What is expected under a key, by the table of its object's keys.
#[tactic(auto, unfolding(crate::specs::Names::expected_under))]
pub fn expected_under(keys: Table, key: u32) -> Expected
    ensures { result ≡ spec.expected_under keys key }
{
    spa_names::expected_under(keys, key)
}
