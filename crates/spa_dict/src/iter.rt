//! Iterators over the pairs of a dictionary, as bytes or as text.
ghost use Rattle.std.specs.Prelude.{◌≡◌, length, IfSome, Some};
ghost use Rattle.std.specs.Iterator.{UpTo, YieldsFirstBy, item_count};
ghost use Rattle.std.specs.Iterator.SizeHint.{IsWithinCount};
ghost use Rattle.spa_dict.specs.Pairs.{pair_of, text_keys, text_pairs, text_values};

use std::str;

/// An iterator over all pairs in order, as bytes.
#[derive(Clone, Debug, Drop)]
pub struct CIter<'a> {
    pub(crate) items: &'a [(&'a [u8], &'a [u8])],
}

impl<'a> Iterator for CIter<'a> {
    ghost use Rattle.spa_dict.specs.Left.{pairs_left};

    type Item = (&'a [u8], &'a [u8]);

    ghost next_gives = { YieldsFirstBy pair_of pairs_left };

    ghost remaining = { item_count pairs_left };

    fn next(&mut self) -> Option<(&'a [u8], &'a [u8])> {
        let [first, rest @ ..] = self.items else {
            return None;
        };
        self.items = rest;
        Some(*first)
    }

    /// Exactly the number of pairs that are left.
    fn size_hint(&self) -> (usize, Option<usize>)
        ensures lower { IsWithinCount result.0 (item_count pairs_left self.now) }
        ensures upper { IfSome result.1 (UpTo (item_count pairs_left self.now)) }
        ensures exact { result ≡ (length (pairs_left self.now), Some (length (pairs_left self.now))) }
    {
        (self.items.len(), Some(self.items.len()))
    }
}

/// An iterator over the pairs whose key and value both are UTF-8, in order.
#[derive(Debug, Drop)]
pub struct Iter<'a> {
    pub(crate) inner: CIter<'a>,
}

impl<'a> Iterator for Iter<'a> {
    ghost use Rattle.spa_dict.specs.Left.{pairs_left, text_pairs_left};

    type Item = (&'a str, &'a str);

    ghost next_gives = { YieldsFirstBy pair_of text_pairs_left };

    ghost remaining = { item_count text_pairs_left };

    fn next(&mut self) -> Option<(&'a str, &'a str)> {
        while let Some((key, value)) = self.inner.next() {
            let Ok(key) = str::from_utf8(key) else {
                continue;
            };
            if let Ok(value) = str::from_utf8(value) {
                return Some((key, value));
            }
        }
        None
    }

    /// The lower bound is 0, and the upper one the number of pairs that are left, since any of them may not be text.
    #[tactic(auto, using(crate::proofs::Filtering::fewer_pairs, crate::proofs::Filtering::pairs_counted))]
    fn size_hint(&self) -> (usize, Option<usize>)
        ensures lower { IsWithinCount result.0 (item_count text_pairs_left self.now) }
        ensures upper { IfSome result.1 (UpTo (item_count text_pairs_left self.now)) }
        ensures hint { result ≡ (0, Some (length (pairs_left self.now.inner))) }
    {
        (0, Some(self.inner.items.len()))
    }
}

/// An iterator over the keys that are UTF-8, in order, whatever their values are.
#[derive(Debug, Drop)]
pub struct Keys<'a> {
    pub(crate) inner: CIter<'a>,
}

impl<'a> Iterator for Keys<'a> {
    ghost use Rattle.spa_dict.specs.Left.{pairs_left, text_keys_left};

    type Item = &'a str;

    ghost next_gives = { YieldsFirstBy (λ key. key.now) text_keys_left };

    ghost remaining = { item_count text_keys_left };

    fn next(&mut self) -> Option<&'a str> {
        while let Some((key, _)) = self.inner.next() {
            if let Ok(key) = str::from_utf8(key) {
                return Some(key);
            }
        }
        None
    }

    /// The lower bound is 0, and the upper one the number of pairs that are left, since any of them may not be text.
    #[tactic(auto, using(crate::proofs::Filtering::fewer_keys, crate::proofs::Filtering::pairs_counted))]
    fn size_hint(&self) -> (usize, Option<usize>)
        ensures lower { IsWithinCount result.0 (item_count text_keys_left self.now) }
        ensures upper { IfSome result.1 (UpTo (item_count text_keys_left self.now)) }
        ensures hint { result ≡ (0, Some (length (pairs_left self.now.inner))) }
    {
        (0, Some(self.inner.items.len()))
    }
}

/// An iterator over the values that are UTF-8, in order, whatever their keys are.
#[derive(Debug, Drop)]
pub struct Values<'a> {
    pub(crate) inner: CIter<'a>,
}

impl<'a> Iterator for Values<'a> {
    ghost use Rattle.spa_dict.specs.Left.{pairs_left, text_values_left};

    type Item = &'a str;

    ghost next_gives = { YieldsFirstBy (λ value. value.now) text_values_left };

    ghost remaining = { item_count text_values_left };

    fn next(&mut self) -> Option<&'a str> {
        while let Some((_, value)) = self.inner.next() {
            if let Ok(value) = str::from_utf8(value) {
                return Some(value);
            }
        }
        None
    }

    /// The lower bound is 0, and the upper one the number of pairs that are left, since any of them may not be text.
    #[tactic(auto, using(crate::proofs::Filtering::fewer_values, crate::proofs::Filtering::pairs_counted))]
    fn size_hint(&self) -> (usize, Option<usize>)
        ensures lower { IsWithinCount result.0 (item_count text_values_left self.now) }
        ensures upper { IfSome result.1 (UpTo (item_count text_values_left self.now)) }
        ensures hint { result ≡ (0, Some (length (pairs_left self.now.inner))) }
    {
        (0, Some(self.inner.items.len()))
    }
}
