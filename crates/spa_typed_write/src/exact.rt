//! Types whose write is refused only where their value can't be written or the output refuses it.
ghost use Rattle.std.specs.Prelude.{◌≡◌, ◌≤◌, IfErr, OnErr, OnOk, length, map};
ghost use Rattle.spa_format.specs.Tree as tree;
ghost use Rattle.spa_format.specs.Tree.{Tree};
ghost use Rattle.spa_value.specs.View.{view};
ghost use Rattle.spa_typed_write.specs.Parts.{IsPart};
ghost use Rattle.spa_typed_write.specs.Complete.{IsWritten, KeepsBytes, RefusesValue, Unwritable};

use crate::serializer::{PodSerialize, PodSerializer, SerializeSuccess};
use crate::whole::written_since;
use spa_bodies::{put_bytes, put_elements, put_text};
use spa_fixed_sized::CanonicalFixedSizedPod;
use spa_sink::{GenError, PodOutput};
use spa_value::Value;
use spa_write::write_sized;

/// A type whose write is refused only where its value can't be written, or where the output may refuse its encoding.
///
/// The members and the properties that `write_struct` and `write_object` write have to be of such types. A `SerializeAs` is one, and so is each
/// built-in type.
pub trait ExactSerialize: PodSerialize {
    /// Appends the value's encoding. After a refusal the output holds the bytes that it held before, and behind
    /// them a beginning of the encoding, in which the size words of the structs and objects that aren't closed are 0.
    fn write_exactly<O: PodOutput>(&self, out: &mut O) -> Result<(), GenError>
        ensures written { OnOk result (IsWritten O.content O.refuses out.old (Self.value self.now) out.new) }
        ensures refused { IfErr result (RefusesValue O.refuses out.old (Self.value self.now)) }
        ensures keeps { OnErr result (KeepsBytes O.content out.old (IsPart (Self.value self.now)) out.new) };
}

/// A type that is written as another value: each built-in type, and a type of a program's own, by `write_struct` of its members or by
/// `write_object` of its properties. Refused only as `NulInText` where a text in the value holds NUL, as `TooLarge` where a size word would be
/// 4294967296 or more, as `OutOfMemory` where a `Value` in it nests in more than 512 levels, and with the output's error where that refuses the
/// encoding.
pub trait SerializeAs {
    /// The tree of the value that is written.
    ghost says: { Self → Tree };

    /// Appends the encoding of that value. After a refusal the output holds the bytes that it held before, and behind
    /// them a beginning of the encoding, in which the size words of the structs and objects that aren't closed are 0.
    fn write_as<O: PodOutput>(&self, out: &mut O) -> Result<(), GenError>
        ensures written { OnOk result (IsWritten O.content O.refuses out.old (says self.now) out.new) }
        ensures refused { IfErr result (RefusesValue O.refuses out.old (says self.now)) }
        ensures keeps { OnErr result (KeepsBytes O.content out.old (IsPart (says self.now)) out.new) };
}

impl<T: SerializeAs> PodSerialize for T {
    ghost value = { λ it. T.says it };

    ghost refuses = { λ it. Unwritable (T.says it) };

    #[inline(always)]
    fn serialize<O: PodOutput>(
        &self,
        serializer: PodSerializer<O>,
    ) -> Result<SerializeSuccess<O>, GenError> {
        let PodSerializer { mut out } = serializer;
        let start = out.len();
        match self.write_as(&mut out) {
            Ok(()) => Ok(written_since(start, out)),
            Err(e) => Err(e),
        }
    }
}

impl<T: SerializeAs> ExactSerialize for T {
    #[inline(always)]
    fn write_exactly<O: PodOutput>(&self, out: &mut O) -> Result<(), GenError> {
        self.write_as(out)
    }
}

impl SerializeAs for Value {
    ghost says = { view };

    fn write_as<O: PodOutput>(&self, out: &mut O) -> Result<(), GenError> {
        match write_sized(out, self) {
            Ok(_) => Ok(()),
            Err(e) => Err(e),
        }
    }
}

/// Appends the encoding of an array of these elements.
pub(crate) fn write_elements<T: CanonicalFixedSizedPod, O: PodOutput>(
    out: &mut O,
    values: &[T],
) -> Result<(), GenError>
    ensures written { OnOk result (IsWritten O.content O.refuses out.old
        (tree.array T.kind (map T.fixed values.now)) out.new) }
    ensures refused { IfErr result (RefusesValue O.refuses out.old (tree.array T.kind (map T.fixed values.now))) }
    ensures keeps { OnErr result (KeepsBytes O.content out.old
        (IsPart (tree.array T.kind (map T.fixed values.now))) out.new) }
{
    put_elements(out, values)
}

/// Appends the encoding of a text.
pub(crate) fn write_text<O: PodOutput>(out: &mut O, text: &str) -> Result<(), GenError>
    ensures written { OnOk result (IsWritten O.content O.refuses out.old (tree.string text.now) out.new) }
    ensures refused { IfErr result (RefusesValue O.refuses out.old (tree.string text.now)) }
    ensures keeps { OnErr result (KeepsBytes O.content out.old (IsPart (tree.string text.now)) out.new) }
{
    put_text(out, text)
}

/// Appends the encoding of bytes.
pub(crate) fn write_bytes<O: PodOutput>(out: &mut O, bytes: &[u8]) -> Result<(), GenError>
    ensures written { OnOk result (IsWritten O.content O.refuses out.old (tree.bytes bytes.now) out.new) }
    ensures refused { IfErr result (RefusesValue O.refuses out.old (tree.bytes bytes.now)) }
    ensures keeps { OnErr result (KeepsBytes O.content out.old (IsPart (tree.bytes bytes.now)) out.new) }
{
    put_bytes(out, bytes)
}
