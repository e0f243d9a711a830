//! The names of types and keys.
ghost use Rattle.std.specs.Prelude.{◌≡◌, ◌≤◌, ◌++◌, OnOk, length, option_map, string_bytes};
ghost use Rattle.spa_format.specs.Words.{body_of, header_size};
ghost use Rattle.spa_refusals.specs.Paths as spec;
ghost use Rattle.spa_refusals.specs.Paths.{key_step, name_text, type_number};

use spa_bytes::{HEADER_LEN, SECOND_WORD, u32_at};
use spa_names::{Table, keys_of, name_of};
use spa_utils::SpaTypes;
use std::alloc::AllocError;
use std::fmt;
use std::fmt::Write;

/// A type in words. It prints its name, or `type 99`.
#[derive(Clone, Copy, Debug)]
pub enum TypeName {
    /// PipeWire's name for it.
    Named(&'static str),
    /// The number of a type without a name.
    Numbered(u32),
}

impl fmt::Display for TypeName {
    ghost use Rattle.std.specs.Prelude.{Some};
    ghost use Rattle.spa_refusals.specs.Paths.{name_text};

    ghost output = { λ type_. Some (name_text type_) };

    fn fmt<W: fmt::Write>(&self, f: &mut fmt::Formatter<W>) -> fmt::Result {
        match self {
            TypeName::Named(name) => write!(f, "{name}"),
            TypeName::Numbered(number) => write!(f, "type {number}"),
        }
    }
}

/// How many bytes the type of an object takes, at the front of its body.
const OBJECT_TYPE_LEN: usize = 4;

/// The type of the pod at the front; of an object, whose body has room for it, the object's type. None where its header isn't there.
#[tactic(auto, unfolding(crate::specs::Paths::type_name))]
pub(crate) fn type_name(pod: &[u8]) -> Option<TypeName>
    ensures { option_map name_text result ≡ spec.type_name pod.now }
{
    if pod.len() < HEADER_LEN {
        return None;
    }
    Some(named(type_number(pod)))
}

/// The type of this number.
fn named(number: u32) -> TypeName
    ensures { name_text result ≡ spec.type_text number }
{
    match name_of(Table::Types, number) {
        Some(name) => TypeName::Named(name),
        None => TypeName::Numbered(number),
    }
}

/// The number of that type.
fn type_number(pod: &[u8]) -> u32
    requires { header_size ≤ length pod.now }
    ensures { result ≡ type_number pod.now }
{
    let type_ = u32_at(pod, SECOND_WORD);
    let body = body_ahead(pod);
    if type_ == SpaTypes::Object.0 && body.len() >= OBJECT_TYPE_LEN {
        return u32_at(body, 0);
    }
    type_
}

/// The body of the pod at the front, as far as it is there.
#[tactic(auto, using(crate::proofs::Saying::body_there))]
fn body_ahead(pod: &[u8]) -> &[u8]
    requires { header_size ≤ length pod.now }
    ensures { result.now ≡ body_of pod.now }
{
    let (_, behind) = pod.split_at(HEADER_LEN);
    let size = u32_at(pod, 0) as usize;
    &behind[..size.min(behind.len())]
}

/// The name of a key of objects of this type.
#[tactic(auto, unfolding(crate::specs::Paths::key_name))]
fn key_name(type_: u32, key: u32) -> Option<&'static str>
    ensures { option_map (λ name. name.now) result ≡ spec.key_name type_ key }
{
    name_of(keys_of(SpaTypes(type_)), key)
}

/// Adds a key of objects of this type to a path: its name, or its number where it has none.
pub(crate) fn push_key(path: &mut String, type_: u32, key: u32) -> Result<(), AllocError>
    ensures { OnOk result (string_bytes path.new ≡ string_bytes path.old ++ key_step type_ key) }
{
    match key_name(type_, key) {
        Some(name) => {
            path.push_str(".")?;
            path.push_str(name)
        }
        None => write!(path, ".{key}"),
    }
}
