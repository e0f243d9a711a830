//! The deserializer, which reads one pod from the front of an input.
ghost use Rattle.std.specs.Prelude.{⊤, ◌≡◌, ℕ, ◌*◌, ◌<◌, ◌≤◌, List, IfErr, IfOk, IsErrAnd, length};
ghost use Rattle.spa_format.specs.Faults.{Stands};
ghost use Rattle.spa_format.specs.Front.{Begins, HasFront, IsRefused, rest_of};
ghost use Rattle.spa_format.specs.Opened.{OpensHeaders};
ghost use Rattle.spa_format.specs.Tree.{Tree, node_count};
ghost use Rattle.spa_format.specs.Words.{header_size};
ghost use Rattle.spa_bodies.specs.Reading.{IsRead, IsShortAt, MayLackMemory, Names, OnFault, OnMemory, RefusesInput};
ghost use Rattle.spa_read.specs.Reading.{ConveysAtFront, ConveysNothing, StandsLeniently};
ghost use Rattle.spa_value.specs.View.{view};
ghost use Rattle.spa_typed_read.specs.Asking.{ReadRefusal};

use spa_bodies::error_at;
use spa_fixed_sized::DeserializeError;
use spa_read::{read_value, read_value_leniently};
use spa_value::Value;
use std::alloc::Global;
use std::marker::Model;

/// The answer of a typed read: the value, and the bytes that follow its pod; or the refusal, which may name bytes of the input.
pub type ReadResult<'de, T> = Result<(T, DeserializeSuccess<'de>), DeserializeError<&'de [u8]>>;

/// A type that is read from a pod.
pub trait PodDeserialize<'de>: Sized + Drop {
    /// The results as which a value may be read.
    ghost reads: { Tree → Self → Type 0 };

    /// The refusals of an input. A type that promises nothing of its refusals keeps the default.
    ghost refuses: { List ℕ → ReadRefusal → Type 0 } = { λ _ _. ⊤ };

    /// Reads the pod at the front of the deserializer's input. `refuses` states the refusals.
    fn deserialize(deserializer: PodDeserializer<'de>) -> ReadResult<'de, Self>
        ensures read { IfOk result (λ read. IsRead deserializer.entry read.1 (λ value. reads value read.0)) }
        ensures refused { IfErr result (λ e. refuses deserializer.entry e) };
}

/// Any value, whose tree is the pod's one value. The refusals are those of `deserialize_any_from`.
impl<'de> PodDeserialize<'de> for Value {
    ghost reads = { λ value it. view it ≡ value };

    ghost refuses = { RefusesInput };

    fn deserialize(deserializer: PodDeserializer<'de>) -> ReadResult<'de, Value> {
        deserializer.deserialize_any()
    }
}

/// Reads one pod from the front of an input. Its model is the remaining bytes.
#[derive(Drop)]
pub struct PodDeserializer<'de> {
    pub(crate) input: &'de [u8],
    pub(crate) alloc: Global,
}

impl<'de> Model for PodDeserializer<'de> {
    ghost use Rattle.std.specs.Prelude.{ℕ, List};

    ghost Value = { List ℕ };

    ghost view = { λ it. it.input.now };
}

/// A pod was read. The model is the bytes that follow it.
#[derive(Drop)]
pub struct DeserializeSuccess<'de>(PodDeserializer<'de>);

impl<'de> Model for DeserializeSuccess<'de> {
    ghost use Rattle.std.specs.Prelude.{ℕ, List};

    ghost Value = { List ℕ };

    ghost view = { λ it. it.0 };
}

impl<'de> DeserializeSuccess<'de> {
    /// A pod was read, and `rest` follows it.
    pub(crate) fn before(alloc: Global, rest: &'de [u8]) -> DeserializeSuccess<'de>
        ensures { result ≡ rest.now }
    {
        DeserializeSuccess(PodDeserializer { input: rest, alloc })
    }

    /// The bytes that follow the pod.
    pub(crate) fn rest(self) -> &'de [u8]
        ensures { result.now ≡ self.entry }
    {
        self.0.input
    }
}

impl<'de> PodDeserializer<'de> {
    /// Reads the pod at the front of the input as a value of the type `P`, and answers the bytes that follow it. The refusals are
    /// those of `P`.
    pub fn deserialize_from<P: PodDeserialize<'de>>(
        alloc: Global,
        input: &'de [u8],
    ) -> Result<(&'de [u8], P), DeserializeError<&'de [u8]>>
        ensures read { IfOk result (λ read. IsRead input.now read.0.now (λ value. P.reads value read.1)) }
        ensures refused { IfErr result (λ e. P.refuses input.now e) }
    {
        let (value, success) = P::deserialize(PodDeserializer { input, alloc })?;
        Ok((success.0.input, value))
    }

    /// Reads the pod at the front of the input, of any type, and answers the bytes that follow it.
    ///
    /// Unless memory runs out, this succeeds exactly where the front that the first size word names is there and is a
    /// pod. Refusals: `Nom` with `Short` or `Text`, `InvalidType`, `InvalidChoiceType`, `MissingChoiceValues`,
    /// `WrongSize`, each where that fault stands in the input, and `OutOfMemory`.
    pub fn deserialize_any_from(
        alloc: Global,
        input: &'de [u8],
    ) -> Result<(&'de [u8], Value), DeserializeError<&'de [u8]>>
        // The front is a pod of the value,
        ensures value { IfOk result (λ read. Begins input.now (view read.1)) }
        // of no other,
        ensures one { IfOk result (λ read. (w : Tree) → Begins input.now w → w ≡ view read.1) }
        // and what follows it is the rest.
        ensures rest { IfOk result (λ read. read.0.now ≡ rest_of input.now) }
        // Any refusal but one for lack of memory says that the front isn't there or is a pod of no value,
        ensures refused { IfErr result (OnFault (IsRefused input.now)) }
        // and names a fault that stands.
        ensures named { IfErr result (Names (λ fault place. Stands fault place input.now)) }
        // Where the front isn't there, the input is short, whatever else it declares.
        ensures short_first { ¬ (HasFront input.now) → IsErrAnd result (IsShortAt input.now) }
        // A refusal for lack of memory comes only where the front is there and its type takes memory.
        ensures memory { IfErr result (OnMemory (MayLackMemory input.now)) }
    {
        let mut opened = 0;
        match read_value(alloc, input, &mut opened) {
            Ok(read) => Ok(read),
            Err(refused) => Err(error_at(refused.place, refused.why)),
        }
    }

    /// Reads the value that the front of the input conveys in the lenient reading (docs/FORMAT.md), and answers the bytes that follow the front.
    /// Beyond the exact reading, it finds the value of a None choice over an array, and the text of a string that ends in several NULs, at any
    /// nesting depth: `spa_pod_filter` and ALSA leave such bytes.
    ///
    /// Unless memory runs out, this succeeds exactly where the front that the first size word names is there and conveys a value. A pod conveys its
    /// own value: where `deserialize_any_from` accepts, this gives the same. Refusals are those of that call, each where that fault stands in
    /// the lenient reading.
    pub fn deserialize_any_leniently_from(
        alloc: Global,
        input: &'de [u8],
    ) -> Result<(&'de [u8], Value), DeserializeError<&'de [u8]>>
        // The front conveys the value,
        ensures value { IfOk result (λ read. ConveysAtFront input.now (view read.1)) }
        // and no other; so a pod is read as its own.
        ensures one { IfOk result (λ read. (w : Tree) → ConveysAtFront input.now w → w ≡ view read.1) }
        ensures same { IfOk result (λ read. (w : Tree) → Begins input.now w → w ≡ view read.1) }
        ensures rest { IfOk result (λ read. read.0.now ≡ rest_of input.now) }
        // Any refusal but one for lack of memory says that the front isn't there or conveys no value,
        ensures refused { IfErr result (OnFault (ConveysNothing input.now)) }
        // and names a fault that stands in the lenient reading.
        ensures named { IfErr result (Names (λ fault place. StandsLeniently fault place input.now)) }
        ensures short_first { ¬ (HasFront input.now) → IsErrAnd result (IsShortAt input.now) }
        ensures memory { IfErr result (OnMemory (MayLackMemory input.now)) }
    {
        match read_value_leniently(alloc, input) {
            Ok(read) => Ok(read),
            Err(fault) => Err(error_at(fault.place, fault.why)),
        }
    }

    /// Reads as `deserialize_any_from` does, and counts the pod headers that are opened on the way.
    ///
    /// A pod header is opened where 8 bytes are read as a pod's size and type: that of the pod at the front, and at any depth
    /// those of a struct's members and of the values of an object's properties. Child headers of arrays and choices aren't
    /// counted, nor are an object's type and id, or a property's key and flags.
    ///
    /// Where the pod is read, the number is that of the pods in it. Where it is refused for another cause than lack of memory,
    /// the number is that of the pods read up to the refused one, of those around it, and one more for itself where 8 bytes of
    /// it are there. An input of fewer than 8 bytes has 0; any other has 1 at least, and at most one for each 8 bytes.
    ///
    /// The refusals are those of `deserialize_any_from`, each of the first pod that can't be read:
    ///
    /// - `Nom` with `Short`: fewer bytes are there than a header, than its size word says with the padding, or than a
    ///   property's key and flags. The place is what is left from the pod on, or from the key on.
    /// - `Nom` with `Text`: a string's body is empty, doesn't end in NUL, holds another NUL, or isn't UTF-8 before the last one.
    ///   The place is what is left from the pod on.
    /// - `InvalidType`: the type number of a pod, of an array's elements or of a choice's values is none that is read.
    /// - `InvalidChoiceType`: a choice's shape word is above 4.
    /// - `MissingChoiceValues`: a choice has fewer values than its shape needs.
    /// - `WrongSize`: a body isn't as long as its type's bodies are, or isn't made of whole elements.
    /// - `OutOfMemory`: memory ran out.
    pub fn deserialize_any_counted(
        alloc: Global,
        input: &'de [u8],
    ) -> (Result<(&'de [u8], Value), DeserializeError<&'de [u8]>>, u64)
        // It answers as `deserialize_any_from` does.
        ensures value { IfOk result.0 (λ read. Begins input.now (view read.1)) }
        ensures one { IfOk result.0 (λ read. (w : Tree) → Begins input.now w → w ≡ view read.1) }
        ensures rest { IfOk result.0 (λ read. read.0.now ≡ rest_of input.now) }
        ensures refused { IfErr result.0 (RefusesInput input.now) }
        // Where it accepts, these are the pods of the value,
        ensures counted { IfOk result.0 (λ read. result.1 ≡ node_count (view read.1)) }
        // and where it refuses for another cause than memory, those up to the fault.
        ensures opened { IfErr result.0 (OnFault (OpensHeaders input.now result.1)) }
        // At most one is opened for each 8 bytes, and one at least where 8 are there.
        ensures few { 8 * result.1 ≤ length input.now }
        ensures some { header_size ≤ length input.now → 0 < result.1 }
    {
        let mut opened = 0;
        match read_value(alloc, input, &mut opened) {
            Ok(read) => (Ok(read), opened),
            Err(refused) => (Err(error_at(refused.place, refused.why)), opened),
        }
    }

    /// Reads the pod at the front of the remaining bytes, of any type. The refusals are those of `deserialize_any_from`.
    pub fn deserialize_any(self) -> ReadResult<'de, Value>
        ensures value { IfOk result (λ read. Begins self.entry (view read.0)) }
        ensures one { IfOk result (λ read. (w : Tree) → Begins self.entry w → w ≡ view read.0) }
        ensures rest { IfOk result (λ read. read.1 ≡ rest_of self.entry) }
        ensures refused { IfErr result (RefusesInput self.entry) }
    {
        let (rest, value) = PodDeserializer::deserialize_any_from(self.alloc, self.input)?;
        Ok((value, self.after(rest)))
    }

    /// The allocator that the deserializer was given.
    pub fn allocator(&self) -> Global {
        self.alloc
    }

    /// A pod was read, and `rest` follows it.
    pub(crate) fn after(self, rest: &'de [u8]) -> DeserializeSuccess<'de>
        ensures { result ≡ rest.now }
    {
        DeserializeSuccess::before(self.alloc, rest)
    }
}
