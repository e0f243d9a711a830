//! Writes the members of a struct and the properties of an object, one after another.
ghost use Rattle.std.specs.Prelude.{◌≡◌, ◌≤◌, ◌++◌, ◌⊎◌, IfErr, IfOk, OnErr, OnOk, length};
ghost use Rattle.spa_sink.specs.Writing.{MayRefuse};
ghost use Rattle.spa_format.specs.Encoding.{encoding_of};
ghost use Rattle.spa_format.specs.Tree.{Properties, Trees, member, no_properties, no_trees, object, property, struct};
ghost use Rattle.spa_format.specs.Typed.{IsTyped};
ghost use Rattle.spa_format.specs.Writable.{IsWritable};
ghost use Rattle.spa_typed_write.specs.Parts.{ArePropertyParts, AreParts, IsPart};
ghost use Rattle.spa_typed_write.specs.Complete.{ArePropertiesWritten, AreWritten, IsWritten, KeepsBytes, RefusesMembers, RefusesProperties, RefusesValue, Unwritable};
ghost use Rattle.spa_typed_write.specs.Listed.{optional_property};

use crate::exact::ExactSerialize;
use crate::serializer::{PodSerializer, SerializeSuccess};
use crate::whole::written_since;
use bitflags::Flags;
use spa_bodies::{begin, close};
use spa_sink::{GenError, PodOutput, put_two};
use spa_utils::SpaTypes;
use spa_value::PropertyFlags;

/// The members of a struct, the first and those behind it, up to `()`: `(&a, (&b, (&c, ())))` are three.
pub trait SerializeMembers {
    /// The trees of the members.
    ghost members: { Self → Trees };

    /// Appends the encodings of the members one after another.
    fn write_members<O: PodOutput>(&self, out: &mut O) -> Result<(), GenError>
        ensures written { OnOk result (AreWritten O.content O.refuses out.old (members self.now) out.new) }
        ensures refused { IfErr result (RefusesMembers O.refuses out.old (members self.now)) }
        ensures keeps { OnErr result (KeepsBytes O.content out.old (AreParts (members self.now)) out.new) };
}

impl SerializeMembers for () {
    ghost members = { λ _. no_trees };

    #[tactic(auto, using(crate::proofs::Completing::none_written))]
    fn write_members<O: PodOutput>(&self, _out: &mut O) -> Result<(), GenError> {
        Ok(())
    }
}

impl<A: ExactSerialize, R: SerializeMembers> SerializeMembers for (&A, R) {
    ghost members = { λ x. member (A.value x.0.now) (R.members x.1) };

    fn write_members<O: PodOutput>(&self, out: &mut O) -> Result<(), GenError> {
        match self.0.write_exactly(out) {
            Ok(()) => self.1.write_members(out),
            Err(e) => Err(e),
        }
    }
}

/// The value of a property that may be missing: None writes no property.
#[derive(Drop)]
pub struct Maybe<'a, P>(pub &'a Option<P>);

/// The properties of an object: the first key and value and those behind it, up to `()`. So `((1, &a), ((2, Maybe(&b)), ()))` is a property of a
/// and, where b is Some, a property of b. A property has no flags, unless they stand between its key and its value: `((1, flags, &a), ())`.
pub trait SerializeProperties {
    /// The properties that are written.
    ghost properties: { Self → Properties };

    /// Appends them one after another.
    fn write_properties<O: PodOutput>(&self, out: &mut O) -> Result<(), GenError>
        ensures written { OnOk result (ArePropertiesWritten O.content O.refuses out.old (properties self.now) out.new) }
        ensures refused { IfErr result (RefusesProperties O.refuses out.old (properties self.now)) }
        ensures keeps { OnErr result (KeepsBytes O.content out.old (ArePropertyParts (properties self.now)) out.new) };
}

impl SerializeProperties for () {
    ghost properties = { λ _. no_properties };

    #[tactic(auto, using(crate::proofs::Completing::no_properties_written))]
    fn write_properties<O: PodOutput>(&self, _out: &mut O) -> Result<(), GenError> {
        Ok(())
    }
}

/// Appends a property, and those behind it.
fn write_property<A: ExactSerialize, R: SerializeProperties, O: PodOutput>(
    out: &mut O,
    key: u32,
    flags: u32,
    value: &A,
    others: &R,
) -> Result<(), GenError>
    ensures written { OnOk result (ArePropertiesWritten O.content O.refuses out.old
        (property key flags (A.value value.now) (R.properties others.now)) out.new) }
    ensures refused { IfErr result (RefusesProperties O.refuses out.old
        (property key flags (A.value value.now) (R.properties others.now))) }
    ensures keeps { OnErr result (KeepsBytes O.content out.old
        (ArePropertyParts (property key flags (A.value value.now) (R.properties others.now))) out.new) }
{
    if let Err(e) = put_two(out, key, flags) {
        return Err(e);
    }
    if let Err(e) = value.write_exactly(out) {
        return Err(e);
    }
    others.write_properties(out)
}

impl<A: ExactSerialize, R: SerializeProperties> SerializeProperties for ((u32, &A), R) {
    ghost properties = { λ x. property x.0.0 0 (A.value x.0.1.now) (R.properties x.1) };

    fn write_properties<O: PodOutput>(&self, out: &mut O) -> Result<(), GenError> {
        write_property(out, self.0.0, 0, self.0.1, &self.1)
    }
}

impl<A: ExactSerialize, R: SerializeProperties> SerializeProperties
    for ((u32, PropertyFlags, &A), R) {
    ghost properties = { λ x. property x.0.0 x.0.1.0 (A.value x.0.2.now) (R.properties x.1) };

    fn write_properties<O: PodOutput>(&self, out: &mut O) -> Result<(), GenError> {
        write_property(out, self.0.0, self.0.1.bits(), self.0.2, &self.1)
    }
}

impl<A: ExactSerialize, R: SerializeProperties> SerializeProperties for ((u32, Maybe<'_, A>), R) {
    ghost properties = { λ x. optional_property x.0.0 A.value x.0.1.0.now (R.properties x.1) };

    fn write_properties<O: PodOutput>(&self, out: &mut O) -> Result<(), GenError> {
        match self.0.1.0 {
            Some(value) => write_property(out, self.0.0, 0, value, &self.1),
            None => self.1.write_properties(out),
        }
    }
}

/// Appends the encoding of a struct of these members. Refused as `NulInText` only where a text in them holds NUL, as `TooLarge` only where a size
/// word, the struct's own among them, would be 4294967296 or more, as `OutOfMemory` where a `Value` in them nests in more than 512 levels, and else
/// only with the output's error where that refuses the encoding. After a refusal the output holds the bytes that it held before, and behind them a
/// beginning of the encoding, in which the size words of the structs and objects that aren't closed are 0.
pub fn write_struct<M: SerializeMembers, O: PodOutput>(
    out: &mut O,
    members: &M,
) -> Result<(), GenError>
    ensures written { OnOk result (IsWritten O.content O.refuses out.old (struct (M.members members.now)) out.new) }
    ensures refused { IfErr result (RefusesValue O.refuses out.old (struct (M.members members.now))) }
    ensures keeps { OnErr result (KeepsBytes O.content out.old (IsPart (struct (M.members members.now))) out.new) }
{
    let start = match begin(out, SpaTypes::Struct.0) {
        Ok(start) => start,
        Err(e) => return Err(e),
    };
    if let Err(e) = members.write_members(out) {
        return Err(e);
    }
    close(out, start)
}

/// Appends the encoding of an object of this type and id with these properties. Refused as `NulInText` only where a text in them holds NUL, as
/// `TooLarge` only where a size word, the object's own among them, would be 4294967296 or more, as `OutOfMemory` where a `Value` in them nests in
/// more than 512 levels, and else only with the output's error where that refuses the encoding. After a refusal the output holds what it holds
/// after one of `write_struct`.
pub fn write_object<P: SerializeProperties, O: PodOutput>(
    out: &mut O,
    type_: u32,
    id: u32,
    properties: &P,
) -> Result<(), GenError>
    ensures written { OnOk result (IsWritten O.content O.refuses out.old
        (object type_ id (P.properties properties.now)) out.new) }
    ensures refused { IfErr result (RefusesValue O.refuses out.old (object type_ id (P.properties properties.now))) }
    ensures keeps { OnErr result (KeepsBytes O.content out.old
        (IsPart (object type_ id (P.properties properties.now))) out.new) }
{
    let start = match begin(out, SpaTypes::Object.0) {
        Ok(start) => start,
        Err(e) => return Err(e),
    };
    if let Err(e) = put_two(out, type_, id) {
        return Err(e);
    }
    if let Err(e) = properties.write_properties(out) {
        return Err(e);
    }
    close(out, start)
}

impl<O: PodOutput> PodSerializer<O> {
    /// Writes a struct of these members, with the refusals of `write_struct`.
    pub fn serialize_members<M: SerializeMembers>(
        self,
        members: &M,
    ) -> Result<SerializeSuccess<O>, GenError>
        ensures encoding { IfOk result
            (λ s. O.content s.output ≡ O.content self ++ encoding_of (struct (M.members members.now))) }
        ensures count { IfOk result (λ s. s.count ≡ length (encoding_of (struct (M.members members.now)))) }
        ensures typed { OnOk result (IsTyped (struct (M.members members.now))) }
        ensures writable { OnOk result (IsWritable (struct (M.members members.now))) }
        ensures cause { IfErr result (λ e. Unwritable (struct (M.members members.now)) e
            ⊎ MayRefuse O.refuses self (length (encoding_of (struct (M.members members.now)))) e) }
    {
        let PodSerializer { mut out } = self;
        let start = out.len();
        match write_struct(&mut out, members) {
            Ok(()) => Ok(written_since(start, out)),
            Err(e) => Err(e),
        }
    }

    /// Writes an object of this type and id with these properties, with the refusals of `write_object`.
    pub fn serialize_properties<P: SerializeProperties>(
        self,
        type_: u32,
        id: u32,
        properties: &P,
    ) -> Result<SerializeSuccess<O>, GenError>
        ensures encoding { IfOk result
            (λ s. O.content s.output ≡ O.content self ++ encoding_of (object type_ id (P.properties properties.now))) }
        ensures count { IfOk result
            (λ s. s.count ≡ length (encoding_of (object type_ id (P.properties properties.now)))) }
        ensures typed { OnOk result (IsTyped (object type_ id (P.properties properties.now))) }
        ensures writable { OnOk result (IsWritable (object type_ id (P.properties properties.now))) }
        ensures cause { IfErr result (λ e. Unwritable (object type_ id (P.properties properties.now)) e
            ⊎ MayRefuse O.refuses self (length (encoding_of (object type_ id (P.properties properties.now)))) e) }
    {
        let PodSerializer { mut out } = self;
        let start = out.len();
        match write_object(&mut out, type_, id, properties) {
            Ok(()) => Ok(written_since(start, out)),
            Err(e) => Err(e),
        }
    }
}
