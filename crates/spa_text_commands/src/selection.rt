//! Which pods of an input are printed, which values of them, and how.
ghost use Rattle.std.specs.Prelude.{◌≡◌, ◌+◌, ◌<◌, ◌^◌};
ghost use Rattle.spa_text_commands.specs.Lines.{is_pods};
ghost use Rattle.spa_text_commands.specs.Selection as spec;

use crate::printing::Layout;
use itoa::Buffer;
use spa_names::{Table, path_of};

/// What is printed of an input, and how.
#[derive(Clone, Copy)]
pub struct Printout<'a> {
    pub form: Form,
    pub selection: Selection<'a>,
}

/// How pods are printed.
#[derive(Clone, Copy)]
pub enum Form {
    /// A line for each value, with names, also of refused pods.
    Lines,
    /// Those lines, and below those of a pod its bytes in hex.
    LinesAndBytes,
    /// A text in this layout; nothing of a refused pod.
    Text(Layout),
    /// The bytes in hex, as a JSON string on a line, also of refused pods.
    Bytes,
    /// The bytes themselves, also of refused pods.
    Pods,
}

impl Form {
    /// Whether pods themselves are printed, which are no lines.
    pub fn is_pods(self) -> bool
        ensures { result ≡ is_pods self }
    {
        match self {
            Form::Pods => true,
            _ => false,
        }
    }
}

/// Which pods of an input are printed, and which values of them.
#[derive(Clone, Copy, Debug)]
pub struct Selection<'a> {
    /// The number of the only top-level pod that is printed, the first being 1; without one, each is.
    pub nth: Option<usize>,
    /// The path to the pod that alone is printed: the number of a top-level one, and the steps from there.
    pub path: Option<&'a str>,
    /// The names, between commas, of the keys whose values are printed, of objects at any depth. Without them objects themselves are printed where a
    /// type or an id is asked for, and else the pods.
    pub key: Option<&'a str>,
    /// The names, between commas, of the types of those objects; without them, they are of any type.
    pub type_: Option<&'a str>,
    /// The names of their ids.
    pub id: Option<&'a str>,
}

impl Selection<'_> {
    /// Whether the top-level pod is selected which so many stand before.
    pub(crate) fn has_pod(&self, count: usize) -> bool
        requires { count + 1 < 2 ^ 64 }
        ensures { result ≡ spec.is_selected self.now.nth count }
    {
        match self.nth {
            Some(number) => number == count + 1,
            None => true,
        }
    }

    /// Whether not the top-level pods themselves are printed, but what is inside them.
    pub fn looks_inside(&self) -> bool
        ensures { result ≡ spec.looks_inside self.now }
    {
        self.path.is_some() || (self.key.is_some() || (self.type_.is_some() || self.id.is_some()))
    }
}

/// Whether a number of this table has one of the names that are asked for, if some are.
pub(crate) fn is_asked(names: Option<&str>, table: Table, number: u32) -> bool
    ensures { result ≡ spec.is_asked names.entry table number }
{
    match names {
        Some(names) => is_among(table, number, names),
        None => true,
    }
}

/// Whether a number of this table has one of these names, which stand between commas.
pub(crate) fn is_among(table: Table, number: u32, names: &str) -> bool
    ensures { result ≡ spec.is_among table number names.now }
{
    names.split(',').any(|name| is_named(table, number, name))
}

/// Whether a number of this table has this name, or these digits.
pub(crate) fn is_named(table: Table, number: u32, name: &str) -> bool
    ensures { result ≡ spec.is_named table number name.now }
{
    let is_end = match path_of(table, number) {
        Some(path) => is_end_of(path, name),
        None => false,
    };
    is_end || Buffer::new().format(number) == name
}

/// Whether a name is the whole of PipeWire's name for a number, or an end of it behind a colon.
fn is_end_of(path: &str, name: &str) -> bool
    ensures { result ≡ spec.is_end_of path.now name.now }
{
    let path = path.as_bytes();
    let name = name.as_bytes();
    if !path.ends_with(name) {
        return false;
    }
    path.len() == name.len() || path[path.len() - name.len() - 1] == b':'
}
