//! Dictionaries: views of a borrowed list of pairs.
ghost use Rattle.std.specs.Prelude.{⊤, ◌≡◌, ◌∷◌, [], codes, IsTrue, ◌↔◌, length};

use crate::iter::{CIter, Iter, Keys, Values};
use crate::parse::{ParsableValue, ParseValueError};
use bitflags::{Flag, bitflag_items};

/// A dictionary's flags. All bits are kept, and no bit changes a look-up.
#[derive(Clone, Copy, Debug, PartialEq, Eq)]
pub struct Flags(u32);

bitflag_items! {
    impl Flags: u32 {
        /// The keys are in order.
        const SORTED = 1;
    }
}

impl bitflags::Flags for Flags {
    type Bits = u32;

    ghost exact = { ⊤ };

    ghost table = { (codes "SORTED", 1) ∷ [] };

    ghost set_of = { λ f. f.0 };

    fn flags<'a>() -> &'a [Flag<Flags>] {
        Flags::FLAGS
    }

    fn bits(&self) -> u32 {
        self.0
    }

    fn from_bits_retain(bits: u32) -> Flags {
        Flags(bits)
    }
}

/// A dictionary: pairs of a key and a value, both bytes, in the order in which they were given. A key may stand twice.
#[derive(Debug, Drop)]
pub struct DictRef<'a> {
    pub(crate) items: &'a [(&'a [u8], &'a [u8])],
    flags: Flags,
}

impl<'a> DictRef<'a> {
    ghost use Rattle.std.specs.Option.{option_map};
    ghost use Rattle.spa_dict.specs.Pairs.{first_value, pairs_of, text_keys, text_pairs, text_values};
    ghost use Rattle.spa_dict.specs.Left.{pairs_left, text_keys_left, text_pairs_left, text_values_left};
    ghost use Rattle.spa_dict.specs.Reading.{IsReadingOf, pairs};

    /// The dictionary of these pairs, with these flags.
    pub fn new(items: &'a [(&'a [u8], &'a [u8])], flags: Flags) -> DictRef<'a>
        ensures pairs { pairs result ≡ pairs_of items.now }
        ensures flags { result.flags ≡ flags }
    {
        DictRef { items, flags }
    }

    /// All pairs in order, as bytes.
    pub fn iter_cstr(&self) -> CIter<'a>
        ensures { pairs_left result ≡ pairs self.now }
    {
        CIter { items: self.items }
    }

    /// The pairs whose key and value both are UTF-8, in order.
    pub fn iter(&self) -> Iter<'a>
        ensures { text_pairs_left result ≡ text_pairs (pairs self.now) }
    {
        Iter {
            inner: self.iter_cstr(),
        }
    }

    /// The keys that are UTF-8, in order.
    pub fn keys(&self) -> Keys<'a>
        ensures { text_keys_left result ≡ text_keys (pairs self.now) }
    {
        Keys {
            inner: self.iter_cstr(),
        }
    }

    /// The values that are UTF-8, in order.
    pub fn values(&self) -> Values<'a>
        ensures { text_values_left result ≡ text_values (pairs self.now) }
    {
        Values {
            inner: self.iter_cstr(),
        }
    }

    /// How many pairs there are, text or not.
    pub fn len(&self) -> usize
        ensures { result ≡ length (pairs self.now) }
    {
        self.items.len()
    }

    /// Whether there is no pair.
    pub fn is_empty(&self) -> bool
        ensures { IsTrue result ↔ pairs self.now ≡ [] }
    {
        self.items.is_empty()
    }

    /// The dictionary's flags.
    pub fn flags(&self) -> Flags
        ensures { result ≡ self.now.flags }
    {
        self.flags
    }

    /// The value of the first pair with this key, among the pairs whose key and value are UTF-8. None: no such pair has it.
    pub fn get(&self, key: &str) -> Option<&'a str>
        ensures { option_map (λ value. value.now) result ≡ first_value key.now (text_pairs (pairs self.now)) }
    {
        let mut pairs = self.iter();
        while let Some((name, value)) = pairs.next() {
            if name == key {
                return Some(value);
            }
        }
        None
    }

    /// The text that `get` answers, read as a `T`; None where `get` answers none. Refused where the text is no text of a `T`, with
    /// the text and the name of `T`.
    pub fn parse<T: ParsableValue>(&self, key: &str) -> Option<Result<T, ParseValueError<'a>>>
        ensures { IsReadingOf T.its_name T.reads (first_value key.now (text_pairs (pairs self.now))) result }
    {
        let text = self.get(key)?;
        Some(T::parse_value(text).ok_or(ParseValueError {
            text,
            type_name: T::name(),
        }))
    }
}

impl<'a> AsRef<DictRef<'a>> for DictRef<'a> {
    /// The dictionary itself.
    fn as_ref(&self) -> &DictRef<'a>
        ensures { result.now ≡ self.now }
    {
        self
    }
}
