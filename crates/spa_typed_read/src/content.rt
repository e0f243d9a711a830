//! Types that are made of a content that is read: of a struct's members, or of any other readable type.
ghost use Rattle.std.specs.Prelude.{◌≡◌, ◌⊎◌, ℕ, List, false, true, IfErr, IfOk, IsErrAnd};
ghost use Rattle.spa_fixed_sized.specs.declared.fault.DeserializeError.TheVariants as error;
ghost use Rattle.spa_format.specs.Front.{rest_of};
ghost use Rattle.spa_format.specs.Tree.{Tree, Trees, no_trees};
ghost use Rattle.spa_format.specs.Words.{body_of};
ghost use Rattle.spa_typed_read.specs.Asking.{ReadRefusal};
ghost use Rattle.spa_typed_read.specs.Exactly.{AreUnread, ReadsFirst, ReadsStruct, RefusesExactly, RefusesFirst, RefusesMore, RefusesStructOf};
ghost use Rattle.spa_typed_read.specs.ExactlyLaws.{made_exactly};
ghost use Rattle.spa_typed_read.specs.Members.{AllMembers, AtEnd, Further};
ghost use Rattle.spa_bodies.specs.Reading.{OnFault, OnMemory};

use crate::deserializer::{PodDeserialize, PodDeserializer, ReadResult};
use crate::exact::ExactDeserialize;
use crate::members::StructPodDeserializer;
use spa_fixed_sized::DeserializeError;
use spa_value::{Held, Value};

/// A type of a program's own that is made of another type, its content, which is what is read. So, unless memory runs out, it is read exactly
/// where the front is a pod of such a content.
///
/// The content of a struct is `StructOf` its members, that of an object `ObjectOf` its properties.
pub trait DeserializeAs: Sized + Drop {
    /// The type of the content, which is read.
    type Content: Drop;

    /// The content of which a value is made.
    ghost content: { Self → Self.Content };

    /// Makes a value of its content.
    fn of_content(given: Self::Content) -> Self
        ensures { content result ≡ given };
}

impl<'de, T> PodDeserialize<'de> for T
where
    T: DeserializeAs,
    T::Content: PodDeserialize<'de>,
{
    ghost reads = { λ value it. T.Content.reads value (T.content it) };

    ghost refuses = { λ input e. T.Content.refuses input e };

    fn deserialize(deserializer: PodDeserializer<'de>) -> ReadResult<'de, T> {
        match T::Content::deserialize(deserializer) {
            Ok((content, success)) => Ok((T::of_content(content), success)),
            Err(e) => Err(e),
        }
    }
}

impl<'de, T> ExactDeserialize<'de> for T
where
    T: DeserializeAs,
    T::Content: ExactDeserialize<'de>,
{
    ghost takes_memory = { T.Content.takes_memory };

    ghost exactly = { λ b e r. made_exactly T.Content.reads (T.Content.takes_memory b) T.content b e (T.Content.exactly b e r) };
}

/// Any value, which is dropped by a loop: also where a later member is refused.
impl DeserializeAs for Held {
    type Content = Value;

    ghost content = { λ held. held };

    fn of_content(given: Value) -> Held {
        Held::from(given)
    }
}

/// The members of a struct, the first one and those behind it, up to `()`: `(A, (B, (C, ())))` are three.
pub trait DeserializeMembers<'de>: Sized + Drop {
    /// The results as which these members may be read.
    ghost reads_members: { Trees → Self → Type 0 };

    /// The refusals of such members in these bytes.
    ghost refuses_members: { List ℕ → ReadRefusal → Type 0 };

    /// Whether their reads take memory, in these bytes.
    ghost takes_memory: { List ℕ → Type 0 };

    /// Reads all members that are left.
    ///
    /// Refusals: `PropertyMissing` where a member isn't there, `UnreadMembers` where there is one more, else the refusal of the
    /// member's type.
    fn read_members(
        reader: &mut StructPodDeserializer<'de>,
    ) -> Result<Self, DeserializeError<&'de [u8]>>
        ensures same { Further reader.old reader.new }
        ensures end { IfOk result (λ _. AtEnd reader.new) }
        ensures read { IfOk result (λ x. AllMembers reader.old (λ members. reads_members members x)) }
        ensures stays { reader.old.failed ≡ true → (reader.new.failed ≡ true)
            × IsErrAnd result (λ e. e ≡ error.FailedReader) }
        // A refusal is that of the member that isn't read. Unless it is for want of memory, these bytes are no such members.
        ensures named { reader.old.failed ≡ false → IfErr result (refuses_members reader.old.left) }
        ensures refused { reader.old.failed ≡ false
            → IfErr result (λ e. OnFault (AreUnread reads_members reader.old.left) e) }
        ensures memory { reader.old.failed ≡ false → IfErr result (OnMemory (takes_memory reader.old.left)) };
}

impl<'de> DeserializeMembers<'de> for () {
    ghost reads_members = { λ members _. members ≡ no_trees };

    ghost refuses_members = { RefusesMore };

    ghost takes_memory = { λ _. ⊥ };

    fn read_members(
        reader: &mut StructPodDeserializer<'de>,
    ) -> Result<(), DeserializeError<&'de [u8]>> {
        reader.ended()
    }
}

impl<'de, A: ExactDeserialize<'de>, R: DeserializeMembers<'de>> DeserializeMembers<'de> for (A, R) {
    ghost reads_members = { λ members x. ReadsFirst A.reads R.reads_members members x.0 x.1 };

    ghost refuses_members = { RefusesFirst A.reads A.refuses R.refuses_members };

    ghost takes_memory = { λ b. A.takes_memory b ⊎ R.takes_memory (rest_of b) };

    fn read_members(
        reader: &mut StructPodDeserializer<'de>,
    ) -> Result<(A, R), DeserializeError<&'de [u8]>> {
        let first = match reader.deserialize_field::<A>() {
            Ok(Some(first)) => first,
            Ok(None) => return Err(DeserializeError::PropertyMissing),
            Err(e) => return Err(e),
        };
        match R::read_members(reader) {
            Ok(behind) => Ok((first, behind)),
            Err(e) => Err(e),
        }
    }
}

/// The content of a struct with these members: `StructOf<(i32, (Rectangle, ()))>` is a struct of an Int and a Rectangle.
#[derive(Drop)]
pub struct StructOf<M>(pub M);

/// A struct of these members and no others. Refusals: those of `DeserializeMembers`, and `Nom` with `Short` or `Tag` where
/// the front isn't there or is no struct.
impl<'de, M: DeserializeMembers<'de>> PodDeserialize<'de> for StructOf<M> {
    ghost reads = { λ value it. ReadsStruct M.reads_members value it.0 };

    ghost refuses = { λ input e. RefusesStructOf M.refuses_members input e × RefusesExactly (λ value (members : M). ReadsStruct M.reads_members value members) (M.takes_memory (body_of input)) input e };

    fn deserialize(deserializer: PodDeserializer<'de>) -> ReadResult<'de, StructOf<M>> {
        let mut reader = match StructPodDeserializer::open(deserializer) {
            Ok(reader) => reader,
            Err(e) => return Err(e),
        };
        let members = match M::read_members(&mut reader) {
            Ok(members) => members,
            Err(e) => return Err(e),
        };
        match reader.end() {
            Ok(success) => Ok((StructOf(members), success)),
            Err(e) => Err(e),
        }
    }
}

impl<'de, M: DeserializeMembers<'de>> ExactDeserialize<'de> for StructOf<M> {
    ghost takes_memory = { λ b. M.takes_memory (body_of b) };

    ghost exactly = { λ b e r. made_exactly (λ value (members : M). ReadsStruct M.reads_members value members) (M.takes_memory (body_of b)) (λ it. it.0) b e r.1 };
}
