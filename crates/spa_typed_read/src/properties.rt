//! Reads the properties of an object one by one, or finds them by their keys.
ghost use Rattle.std.specs.Prelude.{◌≡◌, ◌≢◌, ℕ, ◌<◌, ◌≤◌, ◌⊎◌, [], drop, false, length, true, IfErr, IfNone, IfOk, IsErrAnd, IsOk, MatchOption, OnErr, OnOk};
ghost use Rattle.spa_fixed_sized.specs.declared.fault.DeserializeError.TheVariants as error;
ghost use Rattle.spa_format.specs.Pod.{AreProperties};
ghost use Rattle.spa_format.specs.Tree.{Properties};
ghost use Rattle.spa_format.specs.Words.{header_size};
ghost use Rattle.spa_typed_read.specs.Asking.{LacksObject};
ghost use Rattle.spa_typed_read.specs.Lookup.{FindsFirst, FindsIn, HoldsDeep, LeadsToAll, NoneRead, RefusesProperties, RefusesUnder, place_or};
ghost use Rattle.spa_typed_read.specs.Members.{AtEnd, FurtherIn, OpensObject, RefusesEnd, RefusesKey, RefusesNext, TakesProperty};
ghost use Rattle.spa_bodies.specs.Reading.{IsShortAt, OnFault, OnMemory};

use crate::deserializer::{DeserializeSuccess, PodDeserialize, PodDeserializer};
use crate::object_content::DeserializeProperties;
use crate::passing::Skipped;
use crate::typed::open_as;
use bitflags::Flags;
use spa_bytes::{HEADER_LEN, SECOND_WORD, open, u32_at};
use spa_fixed_sized::{DeserializeError, Fault, FaultKind};
use spa_utils::SpaTypes;
use spa_value::PropertyFlags;
use std::alloc::Global;
use std::marker::Model;

/// The refusal `Nom` with `Short` at this place.
fn short_at(place: &[u8]) -> DeserializeError<&[u8]>
    ensures { IsShortAt place.now result }
{
    DeserializeError::Nom(Fault {
        input: place,
        kind: FaultKind::Short,
    })
}

/// The first place of a property whose key `R` asks for: the one that was met before, else this one if its key is asked for.
#[inline(always)]
fn first_asked<'de, R: DeserializeProperties<'de>>(
    before: Option<&'de [u8]>,
    left: &'de [u8],
    key: u32,
) -> Option<&'de [u8]>
    ensures same { place_or result left.now ≡ place_or before.entry left.now }
    ensures none { IfNone result (¬ (R.asks key)) }
{
    match before {
        Some(place) => Some(place),
        None => { if R::asks_for(key) { Some(left) } else { None } }
    }
}

/// Reads an object's properties one by one. Once a property was refused, every call answers `FailedReader`.
///
/// Its model: the object's type and id, the remaining bytes of its body, the bytes that follow the object, and whether it has
/// failed.
#[derive(Drop)]
pub struct ObjectPodDeserializer<'de> {
    type_: u32,
    id: u32,
    left: &'de [u8],
    after: &'de [u8],
    failed: bool,
    alloc: Global,
}

impl<'de> Model for ObjectPodDeserializer<'de> {
    ghost use Rattle.spa_typed_read.specs.Members.{ObjectReader};

    ghost Value = { ObjectReader };

    ghost view = { λ it. record { type = it.type_; id = it.id; reader = record { left = it.left.now; after = it.after.now; failed = it.failed } } };
}

impl<'de> ObjectPodDeserializer<'de> {
    /// The reader of the object at the front of the input. Refusals: `Nom` with `Short` or `Tag`, and `WrongSize` where the body lacks the
    /// object's type or id.
    pub(crate) fn open(
        deserializer: PodDeserializer<'de>,
    ) -> Result<ObjectPodDeserializer<'de>, DeserializeError<&'de [u8]>>
        ensures opens { IfOk result (OpensObject deserializer.entry) }
        ensures refused { IfErr result (LacksObject deserializer.entry) }
    {
        let front = open_as(deserializer.input, SpaTypes::Object.0)?;
        if front.body.len() < HEADER_LEN {
            return Err(DeserializeError::WrongSize);
        }
        let (_, left) = front.body.split_at(HEADER_LEN);
        Ok(ObjectPodDeserializer {
            type_: u32_at(front.body, 0),
            id: u32_at(front.body, SECOND_WORD),
            left,
            after: front.rest,
            failed: false,
            alloc: deserializer.alloc,
        })
    }

    /// Whether a property was refused before.
    #[inline(always)]
    pub(crate) fn has_failed(&self) -> bool
        ensures { result ≡ self.now.reader.failed }
    {
        self.failed
    }

    /// The object's type.
    pub fn type_(&self) -> u32
        ensures { result ≡ self.now.type }
    {
        self.type_
    }

    /// The object's id.
    pub fn id(&self) -> u32
        ensures { result ≡ self.now.id }
    {
        self.id
    }

    /// Reads the next property's value as one of the type `P`, and answers it with its key and flags. None: there are no more
    /// properties.
    ///
    /// Refusals: `Nom` with `Short`, at the key, where fewer bytes are left than a key and flags; those of `P`, for the
    /// remaining bytes of the object's body behind key and flags; and `FailedReader` where a property was refused before. After
    /// a refusal the reader has failed.
    pub fn deserialize_property<P: PodDeserialize<'de>>(
        &mut self,
    ) -> Result<Option<(P, u32, PropertyFlags)>, DeserializeError<&'de [u8]>>
        ensures property { IfOk result (λ read. MatchOption read ((self.new ≡ self.old) × AtEnd self.old.reader)
            (λ x. TakesProperty self.old self.new x.1 x.2.0 (λ value. P.reads value x.0))) }
        ensures same { FurtherIn self.old self.new }
        ensures failed { OnErr result (self.new.reader.failed ≡ true) }
        // A reader that has failed stays so,
        ensures stays { self.old.reader.failed ≡ true → IsErrAnd result (λ e. e ≡ error.FailedReader) }
        // another one is refused where a key is short, and else only as the value's type refuses what is left behind it.
        ensures ends { AtEnd self.old.reader → IsOk result }
        ensures short { self.old.reader.failed ≡ false → self.old.reader.left ≢ []
            → length self.old.reader.left < header_size → IsErrAnd result (IsShortAt self.old.reader.left) }
        ensures refused { self.old.reader.failed ≡ false → header_size ≤ length self.old.reader.left
            → IfErr result (λ e. P.refuses (drop header_size self.old.reader.left) e) }
    {
        if self.failed {
            return Err(DeserializeError::FailedReader);
        }
        if self.left.is_empty() {
            return Ok(None);
        }
        self.failed = true;
        if self.left.len() < HEADER_LEN {
            return Err(short_at(self.left));
        }
        let (_, input) = self.left.split_at(HEADER_LEN);
        let key = u32_at(self.left, 0);
        let flags = PropertyFlags::from_bits_retain(u32_at(self.left, SECOND_WORD));
        let (value, success) = P::deserialize(PodDeserializer {
            input,
            alloc: self.alloc,
        })?;
        self.left = success.rest();
        self.failed = false;
        Ok(Some((value, key, flags)))
    }

    /// Reads the next property, which has to have this key, and answers its value and its flags.
    ///
    /// Refusals: `PropertyMissing` where there are no more properties, and `PropertyWrongKey` with the next property's key
    /// where that is another one; the reader is then behind that property. After these two the reader hasn't failed. The others
    /// are those of `deserialize_property`.
    pub fn deserialize_property_key<P: PodDeserialize<'de>>(
        &mut self,
        key: u32,
    ) -> Result<(P, PropertyFlags), DeserializeError<&'de [u8]>>
        ensures property { IfOk result (λ read. TakesProperty self.old self.new key read.1.0
            (λ value. P.reads value read.0)) }
        ensures same { FurtherIn self.old self.new }
        ensures stays { self.old.reader.failed ≡ true → (self.new.reader.failed ≡ true)
            × IsErrAnd result (λ e. e ≡ error.FailedReader) }
        ensures missing { AtEnd self.old.reader → (self.new ≡ self.old)
            × IsErrAnd result (λ e. e ≡ error.PropertyMissing) }
        // A refusal makes the reader fail, or is for the end, or for another key.
        ensures refused { IfErr result (RefusesKey
            (λ found flags. (x : P) × TakesProperty self.old self.new found flags
            (λ value. P.reads value x)) key self.old self.new) }
        ensures short { self.old.reader.failed ≡ false → self.old.reader.left ≢ []
            → length self.old.reader.left < header_size → IsErrAnd result (IsShortAt self.old.reader.left) }
        ensures value { self.old.reader.failed ≡ false → header_size ≤ length self.old.reader.left
            → IfErr result (λ e. self.new.reader.failed ≡ true → P.refuses (drop header_size self.old.reader.left) e) }
        // So a reader that hadn't failed is refused for the next property's cause.
        ensures cause { self.old.reader.failed ≡ false → IfErr result (RefusesNext P.refuses key self.old.reader.left) }
    {
        match self.deserialize_property::<P>() {
            Ok(Some((value, found, flags))) => {
                if found != key {
                    return Err(DeserializeError::PropertyWrongKey(found));
                }
                Ok((value, flags))
            }
            Ok(None) => Err(DeserializeError::PropertyMissing),
            Err(e) => Err(e),
        }
    }

    /// Finds the first property with this key among the remaining ones, and reads its value as one of the type `P`. None: no
    /// property has the key. The reader doesn't move, so that properties can be found in any order. The search reads 16 bytes of
    /// each property before that one, and nothing behind it.
    ///
    /// Refusals: `FailedReader` where a property was refused before; `Nom` with `Short` where the search comes to a property that
    /// isn't whole; else those of `P`.
    pub fn find_property<P: PodDeserialize<'de>>(
        &self,
        key: u32,
    ) -> Result<Option<P>, DeserializeError<&'de [u8]>>
        // The property is behind whole properties with other keys, or there are only such.
        ensures found { self.now.reader.failed ≡ false → IfOk result (FindsIn P.reads key self.now.reader.left) }
        // Where the remaining bytes are properties, it is the first of them with the key, or none has it.
        ensures first { self.now.reader.failed ≡ false → IfOk result (FindsFirst P.reads key self.now.reader.left) }
        ensures stays { self.now.reader.failed ≡ true → IsErrAnd result (λ e. e ≡ error.FailedReader) }
        // A refusal is for a property that isn't whole, or is that of the type for the first one's value.
        ensures refused { self.now.reader.failed ≡ false
            → IfErr result (RefusesUnder P.refuses key self.now.reader.left) }
    {
        match self.find_from::<P, ()>(key, self.left) {
            Ok((found, _)) => Ok(found),
            Err(e) => Err(e),
        }
    }

    /// Finds these properties among the remaining ones, each the first with its key, and doesn't move the reader. Where the object has them in the
    /// order in which they are asked for, one walk finds them all; each search that finds none takes one walk more.
    ///
    /// Refusals: `PropertyMissing` where a `Required` one isn't there, else those of `find_property`; where several aren't read, that of the first
    /// in the order in which they are asked for.
    pub fn find_properties<P: DeserializeProperties<'de>>(
        &self,
    ) -> Result<P, DeserializeError<&'de [u8]>>
        ensures found { self.now.reader.failed ≡ false
            → IfOk result (λ x. (ps : Properties) → AreProperties ps self.now.reader.left → P.reads_properties ps x) }
        ensures stays { self.now.reader.failed ≡ true → IsErrAnd result (λ e. e ≡ error.FailedReader) }
        // A refusal is that of the first property that isn't read. Unless it is for want of memory, these bytes are no such properties.
        ensures named { self.now.reader.failed ≡ false → IfErr result (P.refuses_properties self.now.reader.left) }
        ensures refused { self.now.reader.failed ≡ false
            → IfErr result (λ e. OnFault (NoneRead P.reads_properties self.now.reader.left) e) }
        ensures memory { self.now.reader.failed ≡ false
            → IfErr result (OnMemory (P.takes_memory self.now.reader.left)) }
    {
        P::find_from(self, self.left)
    }

    /// Finds the first property with this key from a place on, as `find_property` does. It also answers the place from which to search for the
    /// properties of `R`: that of the first of them which it met, or else the place behind those it walked over.
    #[inline(always)]
    pub(crate) fn find_from<P: PodDeserialize<'de>, R: DeserializeProperties<'de>>(
        &self,
        key: u32,
        from: &'de [u8],
    ) -> Result<(Option<P>, &'de [u8]), DeserializeError<&'de [u8]>>
        ensures found { self.now.reader.failed ≡ false → IfOk result (λ found. FindsIn P.reads key from.now found.0) }
        ensures next { self.now.reader.failed ≡ false → IfOk result (λ found. LeadsToAll R.asks found.1.now from.now) }
        ensures stays { self.now.reader.failed ≡ true → IsErrAnd result (λ e. e ≡ error.FailedReader) }
        ensures refused { self.now.reader.failed ≡ false → IfErr result (RefusesUnder P.refuses key from.now) }
    {
        if self.failed {
            return Err(DeserializeError::FailedReader);
        }
        let mut left = from;
        let mut next = None;
        while !left.is_empty() {
            if left.len() < HEADER_LEN {
                return Err(short_at(left));
            }
            let (_, behind) = left.split_at(HEADER_LEN);
            let found = u32_at(left, 0);
            next = first_asked::<R>(next, left, found);
            if found == key {
                return match P::deserialize(PodDeserializer {
                    input: behind,
                    alloc: self.alloc,
                }) {
                    Ok((value, success)) => Ok((Some(value), next.unwrap_or(success.rest()))),
                    Err(e) => Err(e),
                };
            }
            let Some(front) = open(behind) else {
                return Err(short_at(behind));
            };
            left = front.rest;
        }
        Ok((None, next.unwrap_or(left)))
    }

    /// Checks all remaining properties, of any types, and skips them. The refusals are those of `deserialize_property` into a
    /// `Skipped`; after one the reader has failed.
    pub fn skip_properties(&mut self) -> Result<(), DeserializeError<&'de [u8]>>
        ensures same { FurtherIn self.old self.new }
        ensures end { OnOk result (AtEnd self.new.reader) }
        ensures failed { OnErr result (self.new.reader.failed ≡ true) }
        // A reader that has failed stays so, and another one is refused only where the remaining bytes aren't properties.
        ensures stays { self.old.reader.failed ≡ true → IsErrAnd result (λ e. e ≡ error.FailedReader) }
        ensures refused { self.old.reader.failed ≡ false → IfErr result (RefusesProperties self.old.reader.left) }
        ensures memory { self.old.reader.failed ≡ false → IfErr result (OnMemory (HoldsDeep self.old.reader.left)) }
    {
        loop {
            match self.deserialize_property::<Skipped>() {
                Ok(Some((value, _, _))) => drop(value),
                Ok(None) => return Ok(()),
                Err(e) => return Err(e),
            }
        }
    }

    /// Ends the object, all of whose properties have to be read. Refusals: `FailedReader` where a property was refused, else
    /// `UnreadMembers` where one is left.
    pub fn end(self) -> Result<DeserializeSuccess<'de>, DeserializeError<&'de [u8]>>
        ensures ok { IfOk result (λ success. (success ≡ self.entry.reader.after) × AtEnd self.entry.reader) }
        ensures done { AtEnd self.entry.reader → IsOk result }
        ensures failed { self.entry.reader.failed ≡ true → IsErrAnd result (λ e. e ≡ error.FailedReader) }
        ensures unread { self.entry.reader.failed ≡ false → self.entry.reader.left ≢ []
            → IsErrAnd result (λ e. e ≡ error.UnreadMembers) }
        ensures refused { IfErr result (RefusesEnd self.entry.reader) }
    {
        if self.failed {
            return Err(DeserializeError::FailedReader);
        }
        if !self.left.is_empty() {
            return Err(DeserializeError::UnreadMembers);
        }
        Ok(DeserializeSuccess::before(self.alloc, self.after))
    }

    /// The allocator that the reader was given.
    pub fn allocator(&self) -> Global {
        self.alloc
    }
}
