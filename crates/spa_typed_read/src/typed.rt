//! Typed reads: reads a pod of one type at the front, and hands its content to a visitor.
ghost use Rattle.std.specs.Prelude.{◌≡◌, ◌≢◌, ℕ, IfErr, IfOk, map};
ghost use Rattle.spa_bytes.specs.Opening.{Opens};
ghost use Rattle.spa_fixed_sized.specs.declared.fault.Refusal.TheVariants as refusal;
ghost use Rattle.spa_format.specs.Kind as k;
ghost use Rattle.spa_format.specs.Kind.{type_number};
ghost use Rattle.spa_format.specs.Tree.{Properties, Trees, array, array_type, bitmap_type, bytes_type, choice_type, object, object_type, pointer_type, string_type, struct, struct_type};
ghost use Rattle.spa_typed_read.specs.Asking.{LacksFront, RefusesAsked, array_of};
ghost use Rattle.spa_typed_read.specs.Members.{OpensArray};
ghost use Rattle.spa_bodies.specs.Reading.{IsRead};
ghost use Rattle.spa_bodies.specs.Refusing.{RefusesBody};
ghost use Rattle.spa_typed_read.specs.Visiting.{IsVisited, RefusesArrayVisit, RefusesObject, RefusesStruct, RefusesVisit, SaysBody};
ghost use Rattle.spa_typed_read.specs.declared.visitor.Visit.TheVariants as visit;

use crate::deserializer::{PodDeserializer, ReadResult};
use crate::items::ArrayPodDeserializer;
use crate::members::StructPodDeserializer;
use crate::properties::ObjectPodDeserializer;
use crate::visitor::{Visit, Visitor};
use spa_bodies::{error_at, read_fixed, read_pointer, text_of};
use spa_bytes::{Front, open};
use spa_fixed_sized::{
    CanonicalFixedSizedPod, DeserializeError, Fault, FaultKind, FixedSizedPod, Refusal,
};
use spa_read::read_any_choice;
use spa_utils::{Fd, Float32, Float64, Fraction, Id, Rectangle, SpaTypes};
use std::alloc::Global;

/// Opens the pod at the front of the input, which has to have this type number. Refusals: `Nom` with `Short` where the front isn't there, else
/// `Nom` with `Tag` where its type number is another one.
#[inline(always)]
pub(crate) fn open_as<'de>(
    input: &'de [u8],
    type_: u32,
) -> Result<Front<'de>, DeserializeError<&'de [u8]>>
    ensures there { IfOk result (λ front. Opens input.now type_ front.body.now front.rest.now) }
    ensures refused { IfErr result (LacksFront type_ input.now) }
{
    let Some(front) = open(input) else {
        return Err(DeserializeError::Nom(Fault {
            input,
            kind: FaultKind::Short,
        }));
    };
    if front.type_ != type_ {
        return Err(DeserializeError::Nom(Fault {
            input,
            kind: FaultKind::Tag,
        }));
    }
    Ok(front)
}

/// The content of a body of this type, for a visitor. The type isn't that of arrays, structs or objects. Only a choice asks for memory.
#[inline(always)]
fn content<'de, E>(alloc: Global, type_: u32, body: &'de [u8]) -> Result<Visit<'de, E>, Refusal>
    requires no_array { type_ ≢ array_type }
    requires no_struct { type_ ≢ struct_type }
    requires no_object { type_ ≢ object_type }
    ensures read { IfOk result (SaysBody type_ body.now) }
    ensures refused { IfErr result (RefusesBody type_ body.now) }
    ensures memory { IfErr result (λ why. why ≡ refusal.OutOfMemory → type_ ≡ choice_type) }
{
    match SpaTypes(type_) {
        SpaTypes::None => {
            read_fixed::<()>(body)?;
            Ok(Visit::None)
        }
        SpaTypes::Bool => Ok(Visit::Bool(read_fixed::<bool>(body)?)),
        SpaTypes::Id => Ok(Visit::Id(read_fixed::<Id>(body)?)),
        SpaTypes::Int => Ok(Visit::Int(read_fixed::<i32>(body)?)),
        SpaTypes::Long => Ok(Visit::Long(read_fixed::<i64>(body)?)),
        SpaTypes::Float => Ok(Visit::Float(read_fixed::<Float32>(body)?)),
        SpaTypes::Double => Ok(Visit::Double(read_fixed::<Float64>(body)?)),
        SpaTypes::Rectangle => Ok(Visit::Rectangle(read_fixed::<Rectangle>(body)?)),
        SpaTypes::Fraction => Ok(Visit::Fraction(read_fixed::<Fraction>(body)?)),
        SpaTypes::Fd => Ok(Visit::Fd(read_fixed::<Fd>(body)?)),
        SpaTypes::String => match text_of(body) {
            Some(text) => Ok(Visit::String(text)),
            None => Err(Refusal::Text),
        },
        SpaTypes::Bytes => Ok(Visit::Bytes(body)),
        SpaTypes::Bitmap => Ok(Visit::Bitmap(body)),
        SpaTypes::Choice => Ok(Visit::Choice(read_any_choice(alloc, body)?)),
        SpaTypes::Pointer => {
            let (type_, address) = read_pointer(body)?;
            Ok(Visit::Pointer(type_, address))
        }
        _ => Err(Refusal::InvalidType),
    }
}

impl<'de> PodDeserializer<'de> {
    /// Reads the pod at the front, which has to be of this type, and hands its content to the visitor.
    fn deserialize_as<V: Visitor<'de>>(self, type_: u32, visitor: V) -> ReadResult<'de, V::Value>
        requires no_array { type_ ≢ array_type }
        requires no_struct { type_ ≢ struct_type }
        requires no_object { type_ ≢ object_type }
        ensures read { IfOk result (λ read. IsVisited type_ (V.visits visitor) self.entry read.1 read.0) }
        ensures refused { IfErr result (RefusesVisit type_ (V.declines visitor) self.entry) }
    {
        let front = open_as(self.input, type_)?;
        let given = match content::<V::ArrayElem>(self.alloc, type_, front.body) {
            Ok(given) => given,
            Err(why) => return Err(error_at(self.input, why)),
        };
        let value = visitor.visit(given)?;
        Ok((value, self.after(front.rest)))
    }

    /// Hands no value to the visitor.
    ///
    /// Refusals: `Nom` with `Short` where the front isn't there, `Nom` with `Tag` where it is of another type,
    /// `WrongSize` where the body has another size; else the visitor's.
    pub fn deserialize_none<V: Visitor<'de>>(self, visitor: V) -> ReadResult<'de, V::Value>
        ensures read { IfOk result
            (λ read. IsVisited (type_number k.none_kind) (V.visits visitor) self.entry read.1 read.0) }
        ensures refused { IfErr result (RefusesVisit (type_number k.none_kind) (V.declines visitor) self.entry) }
    {
        self.deserialize_as(SpaTypes::None.0, visitor)
    }

    /// Hands a truth value to the visitor.
    ///
    /// Refusals: `Nom` with `Short` where the front isn't there, `Nom` with `Tag` where it is of another type,
    /// `WrongSize` where the body has another size; else the visitor's.
    pub fn deserialize_bool<V: Visitor<'de>>(self, visitor: V) -> ReadResult<'de, V::Value>
        ensures read { IfOk result
            (λ read. IsVisited (type_number k.bool_kind) (V.visits visitor) self.entry read.1 read.0) }
        ensures refused { IfErr result (RefusesVisit (type_number k.bool_kind) (V.declines visitor) self.entry) }
    {
        self.deserialize_as(SpaTypes::Bool.0, visitor)
    }

    /// Hands a signed number of 32 bits to the visitor.
    ///
    /// Refusals: `Nom` with `Short` where the front isn't there, `Nom` with `Tag` where it is of another type,
    /// `WrongSize` where the body has another size; else the visitor's.
    pub fn deserialize_int<V: Visitor<'de>>(self, visitor: V) -> ReadResult<'de, V::Value>
        ensures read { IfOk result
            (λ read. IsVisited (type_number k.int_kind) (V.visits visitor) self.entry read.1 read.0) }
        ensures refused { IfErr result (RefusesVisit (type_number k.int_kind) (V.declines visitor) self.entry) }
    {
        self.deserialize_as(SpaTypes::Int.0, visitor)
    }

    /// Hands a signed number of 64 bits to the visitor.
    ///
    /// Refusals: `Nom` with `Short` where the front isn't there, `Nom` with `Tag` where it is of another type,
    /// `WrongSize` where the body has another size; else the visitor's.
    pub fn deserialize_long<V: Visitor<'de>>(self, visitor: V) -> ReadResult<'de, V::Value>
        ensures read { IfOk result
            (λ read. IsVisited (type_number k.long_kind) (V.visits visitor) self.entry read.1 read.0) }
        ensures refused { IfErr result (RefusesVisit (type_number k.long_kind) (V.declines visitor) self.entry) }
    {
        self.deserialize_as(SpaTypes::Long.0, visitor)
    }

    /// Hands a float of 32 bits to the visitor.
    ///
    /// Refusals: `Nom` with `Short` where the front isn't there, `Nom` with `Tag` where it is of another type,
    /// `WrongSize` where the body has another size; else the visitor's.
    pub fn deserialize_float<V: Visitor<'de>>(self, visitor: V) -> ReadResult<'de, V::Value>
        ensures read { IfOk result
            (λ read. IsVisited (type_number k.float_kind) (V.visits visitor) self.entry read.1 read.0) }
        ensures refused { IfErr result (RefusesVisit (type_number k.float_kind) (V.declines visitor) self.entry) }
    {
        self.deserialize_as(SpaTypes::Float.0, visitor)
    }

    /// Hands a float of 64 bits to the visitor.
    ///
    /// Refusals: `Nom` with `Short` where the front isn't there, `Nom` with `Tag` where it is of another type,
    /// `WrongSize` where the body has another size; else the visitor's.
    pub fn deserialize_double<V: Visitor<'de>>(self, visitor: V) -> ReadResult<'de, V::Value>
        ensures read { IfOk result
            (λ read. IsVisited (type_number k.double_kind) (V.visits visitor) self.entry read.1 read.0) }
        ensures refused { IfErr result (RefusesVisit (type_number k.double_kind) (V.declines visitor) self.entry) }
    {
        self.deserialize_as(SpaTypes::Double.0, visitor)
    }

    /// Hands a text, borrowed from the input, to the visitor.
    ///
    /// Refusals: `Nom` with `Short` where the front isn't there, `Nom` with `Tag` where it is of another type, `Nom`
    /// with `Text` where the body is no text with one NUL behind it; else the visitor's.
    pub fn deserialize_str<V: Visitor<'de>>(self, visitor: V) -> ReadResult<'de, V::Value>
        ensures read { IfOk result (λ read. IsVisited string_type (V.visits visitor) self.entry read.1 read.0) }
        ensures refused { IfErr result (RefusesVisit string_type (V.declines visitor) self.entry) }
    {
        self.deserialize_as(SpaTypes::String.0, visitor)
    }

    /// Hands bytes, borrowed from the input, to the visitor.
    ///
    /// Refusals: `Nom` with `Short` where the front isn't there, `Nom` with `Tag` where it is of another type; else the
    /// visitor's.
    pub fn deserialize_bytes<V: Visitor<'de>>(self, visitor: V) -> ReadResult<'de, V::Value>
        ensures read { IfOk result (λ read. IsVisited bytes_type (V.visits visitor) self.entry read.1 read.0) }
        ensures refused { IfErr result (RefusesVisit bytes_type (V.declines visitor) self.entry) }
    {
        self.deserialize_as(SpaTypes::Bytes.0, visitor)
    }

    /// Hands the bytes of a bitmap, borrowed from the input, to the visitor.
    ///
    /// Refusals: `Nom` with `Short` where the front isn't there, `Nom` with `Tag` where it is of another type; else the
    /// visitor's.
    pub fn deserialize_bitmap<V: Visitor<'de>>(self, visitor: V) -> ReadResult<'de, V::Value>
        ensures read { IfOk result (λ read. IsVisited bitmap_type (V.visits visitor) self.entry read.1 read.0) }
        ensures refused { IfErr result (RefusesVisit bitmap_type (V.declines visitor) self.entry) }
    {
        self.deserialize_as(SpaTypes::Bitmap.0, visitor)
    }

    /// Hands a width and a height to the visitor.
    ///
    /// Refusals: `Nom` with `Short` where the front isn't there, `Nom` with `Tag` where it is of another type,
    /// `WrongSize` where the body has another size; else the visitor's.
    pub fn deserialize_rectangle<V: Visitor<'de>>(self, visitor: V) -> ReadResult<'de, V::Value>
        ensures read { IfOk result
            (λ read. IsVisited (type_number k.rectangle_kind) (V.visits visitor) self.entry read.1 read.0) }
        ensures refused { IfErr result (RefusesVisit (type_number k.rectangle_kind) (V.declines visitor) self.entry) }
    {
        self.deserialize_as(SpaTypes::Rectangle.0, visitor)
    }

    /// Hands a numerator and a denominator to the visitor.
    ///
    /// Refusals: `Nom` with `Short` where the front isn't there, `Nom` with `Tag` where it is of another type,
    /// `WrongSize` where the body has another size; else the visitor's.
    pub fn deserialize_fraction<V: Visitor<'de>>(self, visitor: V) -> ReadResult<'de, V::Value>
        ensures read { IfOk result
            (λ read. IsVisited (type_number k.fraction_kind) (V.visits visitor) self.entry read.1 read.0) }
        ensures refused { IfErr result (RefusesVisit (type_number k.fraction_kind) (V.declines visitor) self.entry) }
    {
        self.deserialize_as(SpaTypes::Fraction.0, visitor)
    }

    /// Hands an id to the visitor.
    ///
    /// Refusals: `Nom` with `Short` where the front isn't there, `Nom` with `Tag` where it is of another type,
    /// `WrongSize` where the body has another size; else the visitor's.
    pub fn deserialize_id<V: Visitor<'de>>(self, visitor: V) -> ReadResult<'de, V::Value>
        ensures read { IfOk result
            (λ read. IsVisited (type_number k.id_kind) (V.visits visitor) self.entry read.1 read.0) }
        ensures refused { IfErr result (RefusesVisit (type_number k.id_kind) (V.declines visitor) self.entry) }
    {
        self.deserialize_as(SpaTypes::Id.0, visitor)
    }

    /// Hands a file descriptor's index to the visitor.
    ///
    /// Refusals: `Nom` with `Short` where the front isn't there, `Nom` with `Tag` where it is of another type,
    /// `WrongSize` where the body has another size; else the visitor's.
    pub fn deserialize_fd<V: Visitor<'de>>(self, visitor: V) -> ReadResult<'de, V::Value>
        ensures read { IfOk result
            (λ read. IsVisited (type_number k.fd_kind) (V.visits visitor) self.entry read.1 read.0) }
        ensures refused { IfErr result (RefusesVisit (type_number k.fd_kind) (V.declines visitor) self.entry) }
    {
        self.deserialize_as(SpaTypes::Fd.0, visitor)
    }

    /// Hands a type number and an address to the visitor.
    ///
    /// Refusals: `Nom` with `Short` where the front isn't there, `Nom` with `Tag` where it is of another type,
    /// `WrongSize` where the body has neither 12 nor 16 bytes; else the visitor's.
    pub fn deserialize_pointer<V: Visitor<'de>>(self, visitor: V) -> ReadResult<'de, V::Value>
        ensures read { IfOk result (λ read. IsVisited pointer_type (V.visits visitor) self.entry read.1 read.0) }
        ensures refused { IfErr result (RefusesVisit pointer_type (V.declines visitor) self.entry) }
    {
        self.deserialize_as(SpaTypes::Pointer.0, visitor)
    }

    /// Hands a choice over any of the nine types of fixed size that have bytes to the visitor.
    ///
    /// Refusals: `Nom` with `Short` where the front isn't there, `Nom` with `Tag` where it is of another type;
    /// `WrongSize`, `InvalidChoiceType` and `MissingChoiceValues` as its body has them, `InvalidType` where its values
    /// are of another type than these nine; `OutOfMemory`; else the visitor's.
    pub fn deserialize_choice<V: Visitor<'de>>(self, visitor: V) -> ReadResult<'de, V::Value>
        ensures read { IfOk result (λ read. IsVisited choice_type (V.visits visitor) self.entry read.1 read.0) }
        ensures refused { IfErr result (RefusesVisit choice_type (V.declines visitor) self.entry) }
    {
        self.deserialize_as(SpaTypes::Choice.0, visitor)
    }

    /// Hands the elements of an array to the visitor.
    ///
    /// Refusals: `Nom` with `Short` where the front isn't there, `Nom` with `Tag` where it is of another type or its elements
    /// are, `WrongSize` where the child size isn't the type's or the elements aren't whole, `OutOfMemory`; else the visitor's.
    pub fn deserialize_array<V, T>(self, visitor: V) -> ReadResult<'de, V::Value>
    where
        V: Visitor<'de, ArrayElem = T>,
        T: CanonicalFixedSizedPod,
        ensures read { IfOk result (λ read. IsRead self.entry read.1
            (λ value. (items : _) × (value ≡ array T.kind (map T.fixed items.items))
            × V.visits visitor (visit.Array items) read.0)) }
        ensures refused { IfErr result (RefusesArrayVisit T.kind T.fixed (V.declines visitor) self.entry) }
    {
        let (items, success) = self.array_pod::<T>()?;
        let value = visitor.visit(Visit::Array(items))?;
        Ok((value, success))
    }

    /// Lets the visitor read the members of a struct. It succeeds only where all of them are read.
    ///
    /// Refusals: `Nom` with `Short` where the front isn't there, `Nom` with `Tag` where it is of another type; else the
    /// visitor's, `FailedReader` where a member was refused, and `UnreadMembers` where one is left.
    pub fn deserialize_struct<V: Visitor<'de>>(self, visitor: V) -> ReadResult<'de, V::Value>
        ensures read { IfOk result (λ read. IsRead self.entry read.1
            (λ value. (members : Trees) × (value ≡ struct members) × V.visits_struct visitor members read.0)) }
        ensures refused { IfErr result (RefusesStruct (V.declines_struct visitor)
            (V.leaves_struct visitor) self.entry) }
    {
        let mut reader = StructPodDeserializer::open(self)?;
        let value = visitor.visit_struct(&mut reader)?;
        let success = reader.end()?;
        Ok((value, success))
    }

    /// Lets the visitor read the properties of an object. It succeeds only where all of them are read.
    ///
    /// Refusals: `Nom` with `Short` where the front isn't there, `Nom` with `Tag` where it is of another type, `WrongSize`
    /// where its body lacks the object's type or id; else the visitor's, `FailedReader` where a property was refused, and
    /// `UnreadMembers` where one is left.
    pub fn deserialize_object<V: Visitor<'de>>(self, visitor: V) -> ReadResult<'de, V::Value>
        ensures read { IfOk result (λ read. IsRead self.entry read.1
            (λ value. (type : ℕ) × (id : ℕ) × (properties : Properties) × (value ≡ object type id properties)
            × V.visits_object visitor type id properties read.0)) }
        ensures refused { IfErr result (RefusesObject (V.declines_object visitor)
            (V.leaves_object visitor) self.entry) }
    {
        let mut reader = ObjectPodDeserializer::open(self)?;
        let value = visitor.visit_object(&mut reader)?;
        let success = reader.end()?;
        Ok((value, success))
    }

    /// Opens an array for its elements to be read one by one, as values of this type, and answers how many there are: 0 for
    /// `()`, whose bodies have no bytes. It asks for no memory.
    ///
    /// Refusals: `Nom` with `Short` where the front isn't there, `Nom` with `Tag` where it is of another type or its elements
    /// are, `WrongSize` where the child size isn't the type's or the elements aren't whole.
    pub fn new_array_deserializer<E: FixedSizedPod>(
        self,
    ) -> Result<(ArrayPodDeserializer<'de, E>, u32), DeserializeError<&'de [u8]>>
        ensures opens { IfOk result (λ opened. OpensArray E.CanonicalType.kind self.entry opened.0) }
        ensures count { IfOk result (λ opened. opened.1 ≡ opened.0.count) }
        ensures refused { IfErr result (RefusesAsked (array_of E.CanonicalType.kind) ⊥ self.entry) }
    {
        ArrayPodDeserializer::open(self)
    }
}
