//! Objects whose properties are found by their keys, in any order.
ghost use Rattle.std.specs.Prelude.{◌≡◌, ◌⊎◌, ℕ, List, MatchOption, Option, false, true, ⊤, IfErr, IfOk, IsErrAnd};
ghost use Rattle.spa_fixed_sized.specs.declared.fault.DeserializeError.TheVariants as error;
ghost use Rattle.spa_format.specs.Pod.{AreProperties};
ghost use Rattle.spa_format.specs.Tree.{Properties, Tree};
ghost use Rattle.spa_typed_read.specs.Asking.{ReadRefusal};
ghost use Rattle.spa_typed_read.specs.Exactly.{RefusesExactly};
ghost use Rattle.spa_typed_read.specs.ExactlyLaws.{made_exactly};
ghost use Rattle.spa_typed_read.specs.Lookup.{FindsIn, FindsUnder, HasFirst, IsUnder, LacksProperty, LeadsToAll, NoneRead, ReadsObject, RefusesObjectOf, RefusesRequired, RefusesUnder, TakesIn};
ghost use Rattle.spa_bodies.specs.Reading.{OnFault, OnMemory};

use crate::deserializer::{PodDeserialize, PodDeserializer, ReadResult};
use crate::exact::ExactDeserialize;
use crate::properties::ObjectPodDeserializer;
use spa_fixed_sized::DeserializeError;

/// A property that has to be there: the value of the first property with the key `KEY`.
#[derive(Drop)]
pub struct Required<const KEY: u32, P>(pub P);

/// A property that may be there: the value of the first property with the key `KEY`, or None.
#[derive(Drop)]
pub struct Optional<const KEY: u32, P>(pub Option<P>);

/// The properties of an object, the first and those behind it, up to `()`. The object may have them in any order, and others too.
pub trait DeserializeProperties<'de>: Sized + Drop {
    /// The results as which these properties may be read.
    ghost reads_properties: { Properties → Self → Type 0 };

    /// The refusals of these properties in these bytes: that of the first of them which isn't read.
    ghost refuses_properties: { List ℕ → ReadRefusal → Type 0 };

    /// Whether their reads take memory, in these bytes.
    ghost takes_memory: { List ℕ → Type 0 };

    /// The keys of these properties.
    ghost asks: { ℕ → Type 0 };

    /// Whether this is one of their keys.
    fn asks_for(key: u32) -> bool
        ensures yes { result ≡ true → asks key }
        ensures no { result ≡ false → ¬ (asks key) };

    /// Finds these properties in an object, from `from` on: no property before that place has one of their keys.
    ///
    /// Refusals: `PropertyMissing` where a `Required` one isn't there, else those of `find_property`; where several aren't read, that of the first
    /// in the order of this type.
    fn find_from(
        reader: &ObjectPodDeserializer<'de>,
        from: &'de [u8],
    ) -> Result<Self, DeserializeError<&'de [u8]>>
        ensures found { reader.now.reader.failed ≡ false → (b : List ℕ) → LeadsToAll asks from.now b
            → IfOk result (λ x. (ps : Properties) → AreProperties ps b → reads_properties ps x) }
        ensures stays { reader.now.reader.failed ≡ true → IsErrAnd result (λ e. e ≡ error.FailedReader) }
        // A refusal is that of the first property that isn't read. Unless it is for want of memory, these bytes are no such properties.
        ensures named { reader.now.reader.failed ≡ false → (b : List ℕ) → LeadsToAll asks from.now b
            → IfErr result (refuses_properties b) }
        ensures refused { reader.now.reader.failed ≡ false → (b : List ℕ) → LeadsToAll asks from.now b
            → IfErr result (λ e. OnFault (NoneRead reads_properties b) e) }
        ensures memory { reader.now.reader.failed ≡ false → (b : List ℕ) → LeadsToAll asks from.now b →
            IfErr result (OnMemory (takes_memory b)) };
}

impl<'de> DeserializeProperties<'de> for () {
    ghost reads_properties = { λ _ _. ⊤ };

    ghost refuses_properties = { λ _ _. ⊥ };

    ghost takes_memory = { λ _. ⊥ };

    ghost asks = { λ _. ⊥ };

    #[inline(always)]
    fn asks_for(_key: u32) -> bool {
        false
    }

    #[inline(always)]
    fn find_from(
        reader: &ObjectPodDeserializer<'de>,
        _from: &'de [u8],
    ) -> Result<(), DeserializeError<&'de [u8]>> {
        if reader.has_failed() {
            return Err(DeserializeError::FailedReader);
        }
        Ok(())
    }
}

impl<
    'de,
    const KEY: u32,
    A: ExactDeserialize<'de>,
    R: DeserializeProperties<'de>,
> DeserializeProperties<'de> for (Required<KEY, A>, R) {
    ghost reads_properties = { λ properties x. HasFirst KEY (λ value. A.reads value x.0.0) properties × R.reads_properties properties x.1 };

    ghost refuses_properties = { λ b e. RefusesRequired A.refuses KEY b e ⊎ ((x : A) × FindsUnder A.reads KEY b x × R.refuses_properties b e) };

    ghost takes_memory = { λ b. IsUnder KEY A.takes_memory b ⊎ R.takes_memory b };

    ghost asks = { λ key. (key ≡ KEY) ⊎ R.asks key };

    #[inline(always)]
    fn asks_for(key: u32) -> bool {
        key == KEY || R::asks_for(key)
    }

    #[inline(always)]
    fn find_from(
        reader: &ObjectPodDeserializer<'de>,
        from: &'de [u8],
    ) -> Result<(Required<KEY, A>, R), DeserializeError<&'de [u8]>> {
        let (found, next) = match reader.find_from::<A, R>(KEY, from) {
            Ok(found) => found,
            Err(e) => return Err(e),
        };
        let Some(first) = found else {
            return Err(DeserializeError::PropertyMissing);
        };
        match R::find_from(reader, next) {
            Ok(others) => Ok((Required(first), others)),
            Err(e) => Err(e),
        }
    }
}

impl<
    'de,
    const KEY: u32,
    A: ExactDeserialize<'de>,
    R: DeserializeProperties<'de>,
> DeserializeProperties<'de> for (Optional<KEY, A>, R) {
    ghost reads_properties = { λ properties x. MatchOption x.0.0 (LacksProperty KEY properties) (λ a. HasFirst KEY (λ value. A.reads value a) properties) × R.reads_properties properties x.1 };

    ghost refuses_properties = { λ b e. RefusesUnder A.refuses KEY b e ⊎ ((x : Option A) × FindsIn A.reads KEY b x × R.refuses_properties b e) };

    ghost takes_memory = { λ b. IsUnder KEY A.takes_memory b ⊎ R.takes_memory b };

    ghost asks = { λ key. (key ≡ KEY) ⊎ R.asks key };

    #[inline(always)]
    fn asks_for(key: u32) -> bool {
        key == KEY || R::asks_for(key)
    }

    #[inline(always)]
    fn find_from(
        reader: &ObjectPodDeserializer<'de>,
        from: &'de [u8],
    ) -> Result<(Optional<KEY, A>, R), DeserializeError<&'de [u8]>> {
        let (first, next) = match reader.find_from::<A, R>(KEY, from) {
            Ok(found) => found,
            Err(e) => return Err(e),
        };
        match R::find_from(reader, next) {
            Ok(others) => Ok((Optional(first), others)),
            Err(e) => Err(e),
        }
    }
}

/// The content of an object of this type and id with these properties.
#[derive(Drop)]
pub struct ObjectOf<const TYPE: u32, const ID: u32, P>(pub P);

/// An object of this type and id, which has these properties in any order, and may have others. Refusals: `Nom` with `Short` or
/// `Tag` where the front isn't there or is no object; `WrongSize` where it lacks its type or id, `UnsupportedType` where its
/// type or its id is another one; else those of `DeserializeProperties` and of `skip_properties`.
impl<'de, const TYPE: u32, const ID: u32, P: DeserializeProperties<'de>> PodDeserialize<'de>
    for ObjectOf<TYPE, ID, P> {
    ghost reads = { λ value it. ReadsObject TYPE ID P.reads_properties value it.0 };

    ghost refuses = { λ input e. RefusesObjectOf TYPE ID P.refuses_properties input e × RefusesExactly (λ value (properties : P). ReadsObject TYPE ID P.reads_properties value properties) (TakesIn P.takes_memory input) input e };

    fn deserialize(deserializer: PodDeserializer<'de>) -> ReadResult<'de, ObjectOf<TYPE, ID, P>> {
        let mut reader = match ObjectPodDeserializer::open(deserializer) {
            Ok(reader) => reader,
            Err(e) => return Err(e),
        };
        if reader.type_() != TYPE || reader.id() != ID {
            return Err(DeserializeError::UnsupportedType);
        }
        let properties = match reader.find_properties::<P>() {
            Ok(properties) => properties,
            Err(e) => return Err(e),
        };
        if let Err(e) = reader.skip_properties() {
            return Err(e);
        }
        match reader.end() {
            Ok(success) => Ok((ObjectOf(properties), success)),
            Err(e) => Err(e),
        }
    }
}

impl<'de, const TYPE: u32, const ID: u32, P: DeserializeProperties<'de>> ExactDeserialize<'de>
    for ObjectOf<TYPE, ID, P> {
    ghost takes_memory = { TakesIn P.takes_memory };

    ghost exactly = { λ b e r. made_exactly (λ value (properties : P). ReadsObject TYPE ID P.reads_properties value properties) (TakesIn P.takes_memory b) (λ it. it.0) b e r.1 };
}
