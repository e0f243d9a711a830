//! Why two objects don't agree, and the text of it.
ghost use Rattle.std.specs.Prelude.{◌≡◌, option_map};
ghost use Rattle.spa_meet_commands.specs.Answers.{key_name};

use spa_filter_pods::{FilterError, Side};
use spa_names::{keys_of, name_of};
use spa_utils::SpaTypes;
use std::fmt;

/// Why no object is given.
#[derive(Debug, Drop)]
pub enum Failure {
    /// The two objects, the first of which is of this type, don't agree, for this reason.
    Apart(u32, FilterError),
    /// Bytes follow the second object of the input.
    More,
    /// No object of the first file agrees with one of the second.
    NoPair,
    /// At this byte of a side's file the front isn't there or is no pod.
    NoPod { side: Side, place: usize },
    /// At this byte of a side's file there is a pod, but not an object's.
    NoObject { side: Side, place: usize },
    /// Memory ran out.
    OutOfMemory,
}

/// The name of a key of objects of this type, where it has one.
#[tactic(auto, unfolding(crate::specs::Answers::key_name))]
fn key_name(type_: u32, key: u32) -> Option<&'static str>
    ensures { option_map (λ name. name.now) result ≡ key_name type_ key }
{
    name_of(keys_of(SpaTypes(type_)), key)
}

/// A key of objects of a type, as text: its name, where it has one, and its number.
#[derive(Drop)]
struct Key {
    type_: u32,
    key: u32,
}

impl fmt::Display for Key {
    ghost use Rattle.std.specs.Prelude.{Some};
    ghost use Rattle.spa_meet_commands.specs.Answers.{key_text};

    ghost output = { λ it. Some (key_text it.type_ it.key) };

    fn fmt<W: fmt::Write>(&self, f: &mut fmt::Formatter<W>) -> fmt::Result {
        match key_name(self.type_, self.key) {
            Some(name) => write!(f, "{name} ({})", self.key),
            None => write!(f, "{}", self.key),
        }
    }
}

/// The text of a refusal of two objects, the first of which is of this type.
#[derive(Drop)]
struct Cause {
    type_: u32,
    error: FilterError,
}

impl Cause {
    /// A key of the objects.
    fn key(&self, key: u32) -> Key
        ensures { (result.type_ ≡ self.now.type_) × (result.key ≡ key) }
    {
        Key {
            type_: self.type_,
            key,
        }
    }
}

impl fmt::Display for Cause {
    ghost use Rattle.std.specs.Prelude.{Some};
    ghost use Rattle.spa_meet_commands.specs.Answers.{cause_text};

    ghost output = { λ cause. Some (cause_text cause.type_ cause.error) };

    fn fmt<W: fmt::Write>(&self, f: &mut fmt::Formatter<W>) -> fmt::Result {
        match self.error {
            FilterError::TypeMismatch => write!(f, "{}", self.error),
            FilterError::Missing(key) => {
                let key = self.key(key);
                write!(
                    f,
                    "key {key} is mandatory in one object, and the other lacks it"
                )
            }
            FilterError::Unsupported(key) => {
                let key = self.key(key);
                write!(f, "no value is looked for in the choices for key {key}")
            }
            FilterError::Disjoint(key) => {
                let key = self.key(key);
                write!(f, "no value for key {key} is in both")
            }
            FilterError::Unread(_) => write!(f, "{}", self.error),
            FilterError::NotObject(_) => write!(f, "{}", self.error),
            FilterError::TooLarge => write!(f, "{}", self.error),
            FilterError::OutOfMemory => write!(f, "{}", self.error),
        }
    }
}

impl fmt::Display for Failure {
    ghost use Rattle.std.specs.Prelude.{Some};
    ghost use Rattle.spa_meet_commands.specs.Answers.{failure_text};

    ghost output = { λ failure. Some (failure_text failure) };

    fn fmt<W: fmt::Write>(&self, f: &mut fmt::Formatter<W>) -> fmt::Result {
        match self {
            Failure::Apart(type_, error) => {
                let cause = Cause {
                    type_: *type_,
                    error: *error,
                };
                write!(f, "{cause}")
            }
            Failure::More => write!(f, "more follows the second object"),
            Failure::NoPair => write!(f, "no two of the objects agree"),
            Failure::NoPod { side, place } => write!(f, "{side} file, byte {place}: no pod"),
            Failure::NoObject { side, place } => write!(f, "{side} file, byte {place}: no object"),
            Failure::OutOfMemory => write!(f, "out of memory"),
        }
    }
}
