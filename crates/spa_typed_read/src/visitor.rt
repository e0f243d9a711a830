//! Visitors, which make a value of the pod that a typed read finds.
ghost use Rattle.std.specs.Prelude.{⊤, ◌≡◌, ◌≢◌, ℕ, IfErr, IfNone, IfOk, IfSome, OnOk};
ghost use Rattle.spa_fixed_sized.specs.declared.fault.DeserializeError.TheVariants as error;
ghost use Rattle.spa_format.specs.Tree.{Properties, Trees};
ghost use Rattle.spa_typed_read.specs.Asking.{ReadRefusal};
ghost use Rattle.spa_typed_read.specs.Members.{AllMembers, AllProperties, AtEnd, Further, FurtherIn, ObjectReader, Reader};
ghost use Rattle.spa_typed_read.specs.declared.visitor.Visit.{Visit};

use crate::members::StructPodDeserializer;
use crate::properties::ObjectPodDeserializer;
use spa_fixed_sized::DeserializeError;
use spa_utils::{Fd, Float32, Float64, Fraction, Id, Rectangle};
use spa_value::ChoiceValue;

/// The content of a pod, of any type but structs and objects, as it is handed to a visitor.
#[derive(Drop)]
pub enum Visit<'de, E> {
    /// No value.
    None,
    /// A truth value.
    Bool(bool),
    /// A signed number of 32 bits.
    Int(i32),
    /// A signed number of 64 bits.
    Long(i64),
    /// A float of 32 bits, by its bits.
    Float(Float32),
    /// A float of 64 bits, by its bits.
    Double(Float64),
    /// A text, borrowed from the input.
    String(&'de str),
    /// Bytes, borrowed from the input.
    Bytes(&'de [u8]),
    /// The bytes of a bitmap, borrowed from the input.
    Bitmap(&'de [u8]),
    /// A width and a height.
    Rectangle(Rectangle),
    /// A numerator and a denominator.
    Fraction(Fraction),
    /// An id.
    Id(Id),
    /// A file descriptor's index.
    Fd(Fd),
    /// The elements of an array.
    Array(Vec<E>),
    /// A choice over one of the nine types of fixed size that have bytes.
    Choice(ChoiceValue),
    /// A type number and an address.
    Pointer(u32, u64),
}

/// The element type of visitors that take no array. It has no values.
#[derive(Drop)]
pub enum Never {}

/// Makes a value of the pod that a typed read finds. Each call may decline what it is handed, with any error:
/// `UnsupportedType` is the usual one.
pub trait Visitor<'de>: Sized + Drop {
    /// The type of the values that the visitor makes.
    type Value: Drop;

    /// The element type of the arrays that the visitor takes; `Never` where it takes none.
    type ArrayElem;

    /// The values that the visitor may make of a content.
    ghost visits: { Self → Visit Self.ArrayElem → Self.Value → Type 0 };

    /// The values that the visitor may make of a struct with these members.
    ghost visits_struct: { Self → Trees → Self.Value → Type 0 };

    /// The values that the visitor may make of an object of this type and id with these properties.
    ghost visits_object: { Self → ℕ → ℕ → Properties → Self.Value → Type 0 };

    /// The contents that the visitor may decline, and with which error. A visitor that promises nothing of that keeps the default.
    ghost declines: { Self → Visit Self.ArrayElem → ReadRefusal → Type 0 } = { λ _ _ _. ⊤ };

    /// The structs that the visitor may decline, and with which error: by the borrowed reader before and after the call.
    ghost declines_struct: { Self → Reader → Reader → ReadRefusal → Type 0 } = { λ _ _ _ _. ⊤ };

    /// How the visitor may leave the borrowed reader of a struct where it makes a value: by the reader before and after the call.
    ghost leaves_struct: { Self → Reader → Reader → Type 0 } = { λ _ _ _. ⊤ };

    /// The objects that the visitor may decline, and with which error.
    ghost declines_object: { Self → ObjectReader → ObjectReader → ReadRefusal → Type 0 } = { λ _ _ _ _. ⊤ };

    /// How the visitor may leave the borrowed reader of an object where it makes a value.
    ghost leaves_object: { Self → ObjectReader → ObjectReader → Type 0 } = { λ _ _ _. ⊤ };

    /// Makes a value of the content of a pod that is neither a struct nor an object.
    fn visit(
        &self,
        given: Visit<'de, Self::ArrayElem>,
    ) -> Result<Self::Value, DeserializeError<&'de [u8]>>
        ensures made { IfOk result (λ x. visits self.now given.entry x) }
        ensures declined { IfErr result (λ e. declines self.now given.entry e) };

    /// Reads a struct's members and makes a value of them. It should read all: `made` is owed only then, and otherwise
    /// the typed read is refused.
    fn visit_struct(
        &self,
        reader: &mut StructPodDeserializer<'de>,
    ) -> Result<Self::Value, DeserializeError<&'de [u8]>>
        ensures same { Further reader.old reader.new }
        ensures declined { IfErr result (λ e. declines_struct self.now reader.old reader.new e) }
        ensures left { OnOk result (leaves_struct self.now reader.old reader.new) }
        ensures made { IfOk result (λ x. AtEnd reader.new →
            AllMembers reader.old (λ members. visits_struct self.now members x)) };

    /// Reads an object's properties and makes a value of them. It should read all: `made` is owed only then, and otherwise
    /// the typed read is refused.
    fn visit_object(
        &self,
        reader: &mut ObjectPodDeserializer<'de>,
    ) -> Result<Self::Value, DeserializeError<&'de [u8]>>
        ensures same { FurtherIn reader.old reader.new }
        ensures declined { IfErr result (λ e. declines_object self.now reader.old reader.new e) }
        ensures left { OnOk result (leaves_object self.now reader.old reader.new) }
        ensures made { IfOk result (λ x. AtEnd reader.new.reader →
            AllProperties reader.old (λ properties. visits_object self.now reader.old.type reader.old.id properties x)) };
}

/// A visitor that takes the contents of one variant of `Visit`, and declines any other, each struct and each object as `UnsupportedType`. It is a
/// `Visitor`.
pub trait VariantVisitor<'de>: Sized + Drop {
    /// The type of the values in that variant.
    type Made: Drop;

    /// The element type of the arrays that the visitor takes; `Never` where it takes none.
    type Element;

    /// The variant, of a value.
    ghost handed: { Self.Made → Visit Self.Element };

    /// The value in that variant. None: the content is of another one.
    fn of_visit(given: Visit<'de, Self::Element>) -> Option<Self::Made>
        ensures there { IfSome result (λ x. given.entry ≡ handed x) }
        ensures other { IfNone result ((x : Self.Made) → given.entry ≢ handed x) };
}

impl<'de, V: VariantVisitor<'de>> Visitor<'de> for V {
    type Value = V::Made;

    type ArrayElem = V::Element;

    ghost visits = { λ _ given x. given ≡ V.handed x };

    ghost visits_struct = { λ _ _ _. ⊥ };

    ghost visits_object = { λ _ _ _ _ _. ⊥ };

    ghost declines = { λ _ given e. (e ≡ error.UnsupportedType) × ((x : V.Made) → given ≢ V.handed x) };

    ghost declines_struct = { λ _ _ _ e. e ≡ error.UnsupportedType };

    ghost leaves_struct = { λ _ _ _. ⊥ };

    ghost declines_object = { λ _ _ _ e. e ≡ error.UnsupportedType };

    ghost leaves_object = { λ _ _ _. ⊥ };

    fn visit(&self, given: Visit<'de, V::Element>) -> Result<V::Made, DeserializeError<&'de [u8]>>
        ensures made { IfOk result (λ x. given.entry ≡ V.handed x) }
        ensures declined { IfErr result (λ e. (e ≡ error.UnsupportedType) × ((x : V.Made) → given.entry ≢ V.handed x)) }
    {
        match V::of_visit(given) {
            Some(x) => Ok(x),
            None => Err(DeserializeError::UnsupportedType),
        }
    }

    #[tactic(auto, using(crate::proofs::Stepping::further_same))]
    fn visit_struct(
        &self,
        _reader: &mut StructPodDeserializer<'de>,
    ) -> Result<V::Made, DeserializeError<&'de [u8]>> {
        Err(DeserializeError::UnsupportedType)
    }

    #[tactic(auto, using(crate::proofs::Stepping::further_in_same))]
    fn visit_object(
        &self,
        _reader: &mut ObjectPodDeserializer<'de>,
    ) -> Result<V::Made, DeserializeError<&'de [u8]>> {
        Err(DeserializeError::UnsupportedType)
    }
}
