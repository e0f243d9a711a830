//! The bytes with which an open pod begins: its header, with a size word of 0, and the words before its members.
ghost use Rattle.std.specs.Prelude.{◌≡◌, []};
ghost use Rattle.spa_format.specs.Tree.{Shape, no_properties, no_trees, shape_number};
ghost use Rattle.spa_builder.specs.State.{open_array, open_choice, open_object, open_struct};
ghost use Rattle.spa_builder.specs.Fields.{so_far};

use spa_bytes::{HEADER_LEN, two_words};
use spa_utils::SpaTypes;

/// The length in bytes of a header and two words.
const LONG_HEAD_LEN: usize = 2 * HEADER_LEN;

/// The length in bytes of a header and four words.
const LONGEST_HEAD_LEN: usize = 3 * HEADER_LEN;

/// The header of an open struct.
pub(crate) fn struct_head() -> [u8; HEADER_LEN]
    ensures { result ≡ so_far (open_struct no_trees) }
{
    two_words(0, SpaTypes::Struct.0)
}

/// The header of an open object, its type and its id.
pub(crate) fn object_head(type_: u32, id: u32) -> [u8; LONG_HEAD_LEN]
    ensures { result ≡ so_far (open_object type_ id no_properties) }
{
    let mut head = [0; LONG_HEAD_LEN];
    let (header, words) = head.split_at_mut(HEADER_LEN);
    header.copy_from_slice(&two_words(0, SpaTypes::Object.0));
    words.copy_from_slice(&two_words(type_, id));
    head
}

/// The header of an open array, and a child header for no elements.
pub(crate) fn array_head() -> [u8; LONG_HEAD_LEN]
    ensures { result ≡ so_far (open_array []) }
{
    let mut head = [0; LONG_HEAD_LEN];
    let (header, child) = head.split_at_mut(HEADER_LEN);
    header.copy_from_slice(&two_words(0, SpaTypes::Array.0));
    child.copy_from_slice(&two_words(0, SpaTypes::None.0));
    head
}

/// The header of an open choice, its shape and flags, and a child header for no values.
pub(crate) fn choice_head(shape: u32, flags: u32) -> [u8; LONGEST_HEAD_LEN]
    ensures { (h : Shape) → shape ≡ shape_number h → result ≡ so_far (open_choice h flags []) }
{
    let mut head = [0; LONGEST_HEAD_LEN];
    let (header, rest) = head.split_at_mut(HEADER_LEN);
    let (words, child) = rest.split_at_mut(HEADER_LEN);
    header.copy_from_slice(&two_words(0, SpaTypes::Choice.0));
    words.copy_from_slice(&two_words(shape, flags));
    child.copy_from_slice(&two_words(0, SpaTypes::None.0));
    head
}
