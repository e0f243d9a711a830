//! The built-in types that are read from a pod: what each reads, and how it refuses an input.
ghost use Rattle.std.specs.Prelude.{⊤, ◌≡◌, map, string_bytes};
ghost use Rattle.spa_fixed_sized.specs.Choices.{choice_tree};
ghost use Rattle.spa_format.specs.Kind as k;
ghost use Rattle.spa_format.specs.Kind.{type_number};
ghost use Rattle.spa_format.specs.Tree.{array, bitmap, bitmap_type, bytes, bytes_type, fixed, pointer, pointer_type, string, string_type};
ghost use Rattle.spa_typed_read.specs.Asking.{RefusesAsked, array_of, choice_of, of_type};

use crate::array_element::ArrayElement;
use crate::deserializer::{PodDeserialize, PodDeserializer, ReadResult};
use spa_fixed_sized::ChoiceElement;
use spa_utils::{Choice, Fd, Float32, Float64, Fraction, Id, Rectangle};
use spa_value::Bitmap;

/// The text of a string, borrowed from the input. It asks for no memory.
impl<'de> PodDeserialize<'de> for &'de str {
    ghost reads = { λ value s. value ≡ string s.now };

    ghost refuses = { RefusesAsked (of_type string_type) ⊥ };

    fn deserialize(deserializer: PodDeserializer<'de>) -> ReadResult<'de, &'de str> {
        deserializer.text_pod()
    }
}

/// The text of a string.
impl<'de> PodDeserialize<'de> for String {
    ghost reads = { λ value s. value ≡ string (string_bytes s) };

    ghost refuses = { RefusesAsked (of_type string_type) ⊤ };

    fn deserialize(deserializer: PodDeserializer<'de>) -> ReadResult<'de, String> {
        let alloc = deserializer.alloc;
        let (text, success) = deserializer.text_pod()?;
        Ok((String::from_str(alloc, text)?, success))
    }
}

/// Bytes, borrowed from the input. It asks for no memory.
impl<'de> PodDeserialize<'de> for &'de [u8] {
    ghost reads = { λ value b. value ≡ bytes b.now };

    ghost refuses = { RefusesAsked (of_type bytes_type) ⊥ };

    fn deserialize(deserializer: PodDeserializer<'de>) -> ReadResult<'de, &'de [u8]> {
        deserializer.bytes_pod()
    }
}

/// Bytes.
impl<'de> PodDeserialize<'de> for Vec<u8> {
    ghost reads = { λ value b. value ≡ bytes b.items };

    ghost refuses = { RefusesAsked (of_type bytes_type) ⊤ };

    fn deserialize(deserializer: PodDeserializer<'de>) -> ReadResult<'de, Vec<u8>> {
        let alloc = deserializer.alloc;
        let (bytes, success) = deserializer.bytes_pod()?;
        Ok((Vec::from_slice(alloc, bytes)?, success))
    }
}

/// The bytes of a bitmap, borrowed from the input. It asks for no memory.
impl<'de> PodDeserialize<'de> for Bitmap<'de> {
    ghost reads = { λ value b. value ≡ bitmap b.0.now };

    ghost refuses = { RefusesAsked (of_type bitmap_type) ⊥ };

    fn deserialize(deserializer: PodDeserializer<'de>) -> ReadResult<'de, Bitmap<'de>> {
        let (bytes, success) = deserializer.bitmap_pod()?;
        Ok((Bitmap(bytes), success))
    }
}

/// A pointer's type number and address. It asks for no memory.
impl<'de> PodDeserialize<'de> for (u32, u64) {
    ghost reads = { λ value p. value ≡ pointer p.0 p.1 };

    ghost refuses = { RefusesAsked (of_type pointer_type) ⊥ };

    fn deserialize(deserializer: PodDeserializer<'de>) -> ReadResult<'de, (u32, u64)> {
        deserializer.pointer_pod()
    }
}

/// No value. It asks for no memory.
impl<'de> PodDeserialize<'de> for () {
    ghost reads = { λ value _. value ≡ fixed (k.none) };

    ghost refuses = { RefusesAsked (of_type (type_number k.none_kind)) ⊥ };

    fn deserialize(deserializer: PodDeserializer<'de>) -> ReadResult<'de, ()> {
        deserializer.fixed_pod::<()>()
    }
}

/// A truth value. It asks for no memory.
impl<'de> PodDeserialize<'de> for bool {
    ghost reads = { λ value x. value ≡ fixed (k.bool x) };

    ghost refuses = { RefusesAsked (of_type (type_number k.bool_kind)) ⊥ };

    fn deserialize(deserializer: PodDeserializer<'de>) -> ReadResult<'de, bool> {
        deserializer.fixed_pod::<bool>()
    }
}

/// An id. It asks for no memory.
impl<'de> PodDeserialize<'de> for Id {
    ghost reads = { λ value x. value ≡ fixed (k.id x.0) };

    ghost refuses = { RefusesAsked (of_type (type_number k.id_kind)) ⊥ };

    fn deserialize(deserializer: PodDeserializer<'de>) -> ReadResult<'de, Id> {
        deserializer.fixed_pod::<Id>()
    }
}

/// A signed number of 32 bits. It asks for no memory.
impl<'de> PodDeserialize<'de> for i32 {
    ghost reads = { λ value x. value ≡ fixed (k.int x) };

    ghost refuses = { RefusesAsked (of_type (type_number k.int_kind)) ⊥ };

    fn deserialize(deserializer: PodDeserializer<'de>) -> ReadResult<'de, i32> {
        deserializer.fixed_pod::<i32>()
    }
}

/// A signed number of 64 bits. It asks for no memory.
impl<'de> PodDeserialize<'de> for i64 {
    ghost reads = { λ value x. value ≡ fixed (k.long x) };

    ghost refuses = { RefusesAsked (of_type (type_number k.long_kind)) ⊥ };

    fn deserialize(deserializer: PodDeserializer<'de>) -> ReadResult<'de, i64> {
        deserializer.fixed_pod::<i64>()
    }
}

/// A float of 32 bits, by its bits. It asks for no memory.
impl<'de> PodDeserialize<'de> for Float32 {
    ghost reads = { λ value x. value ≡ fixed (k.float x.0) };

    ghost refuses = { RefusesAsked (of_type (type_number k.float_kind)) ⊥ };

    fn deserialize(deserializer: PodDeserializer<'de>) -> ReadResult<'de, Float32> {
        deserializer.fixed_pod::<Float32>()
    }
}

/// A float of 64 bits, by its bits. It asks for no memory.
impl<'de> PodDeserialize<'de> for Float64 {
    ghost reads = { λ value x. value ≡ fixed (k.double x.0) };

    ghost refuses = { RefusesAsked (of_type (type_number k.double_kind)) ⊥ };

    fn deserialize(deserializer: PodDeserializer<'de>) -> ReadResult<'de, Float64> {
        deserializer.fixed_pod::<Float64>()
    }
}

/// A width and a height. It asks for no memory.
impl<'de> PodDeserialize<'de> for Rectangle {
    ghost reads = { λ value x. value ≡ fixed (k.rectangle x.width x.height) };

    ghost refuses = { RefusesAsked (of_type (type_number k.rectangle_kind)) ⊥ };

    fn deserialize(deserializer: PodDeserializer<'de>) -> ReadResult<'de, Rectangle> {
        deserializer.fixed_pod::<Rectangle>()
    }
}

/// A numerator and a denominator. It asks for no memory.
impl<'de> PodDeserialize<'de> for Fraction {
    ghost reads = { λ value x. value ≡ fixed (k.fraction x.num x.denom) };

    ghost refuses = { RefusesAsked (of_type (type_number k.fraction_kind)) ⊥ };

    fn deserialize(deserializer: PodDeserializer<'de>) -> ReadResult<'de, Fraction> {
        deserializer.fixed_pod::<Fraction>()
    }
}

/// A file descriptor's index. It asks for no memory.
impl<'de> PodDeserialize<'de> for Fd {
    ghost reads = { λ value x. value ≡ fixed (k.fd x.0) };

    ghost refuses = { RefusesAsked (of_type (type_number k.fd_kind)) ⊥ };

    fn deserialize(deserializer: PodDeserializer<'de>) -> ReadResult<'de, Fd> {
        deserializer.fixed_pod::<Fd>()
    }
}

/// The elements of an array.
impl<'de, T: ArrayElement> PodDeserialize<'de> for Vec<T> {
    ghost reads = { λ value xs. value ≡ array T.kind (map T.fixed xs.items) };

    ghost refuses = { RefusesAsked (array_of T.kind) ⊤ };

    fn deserialize(deserializer: PodDeserializer<'de>) -> ReadResult<'de, Vec<T>> {
        deserializer.array_pod()
    }
}

/// A choice over one of the nine types that have bytes. A choice over another of the nine is refused as `UnsupportedType`.
impl<'de, T: ChoiceElement> PodDeserialize<'de> for Choice<T> {
    ghost reads = { λ value it. value ≡ choice_tree T.kind T.fixed it };

    ghost refuses = { RefusesAsked (choice_of T.kind) ⊤ };

    fn deserialize(deserializer: PodDeserializer<'de>) -> ReadResult<'de, Choice<T>> {
        deserializer.choice_pod()
    }
}
