//! An object that is begun.
ghost use Rattle.std.specs.Prelude.{◌≡◌, Some};
ghost use Rattle.spa_text_read.specs.Fitting.{type_under};
ghost use Rattle.spa_text_read.specs.Names.{keys_of};
ghost use Rattle.spa_text_read.specs.declared.fitting.FullType.{FullType};

use crate::fitting::FullType;
use spa_names::Table;
use spa_value::{Property, PropertyFlags};

/// An object that is begun.
#[derive(Drop)]
pub(crate) struct OpenObject {
    pub(crate) type_: u32,
    pub(crate) id: u32,
    /// The table of its keys.
    pub(crate) keys: Table,
    pub(crate) properties: Vec<Property>,
    /// The key and flags of the property whose value is read.
    pub(crate) key: u32,
    pub(crate) flags: PropertyFlags,
    /// Whether a brace follows that value.
    pub(crate) braced: bool,
    /// The type that belongs under that key, once one is read.
    pub(crate) wanted: Option<FullType>,
    ghost in_table: { keys ≡ keys_of type_ },
    ghost under_key: { (w : FullType) → wanted ≡ Some w → w ≡ type_under type_ key },
}
