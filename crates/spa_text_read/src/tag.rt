//! What the first key of an object says, and what a number is without one.
ghost use Rattle.std.specs.Prelude.{◌≡◌};
ghost use Rattle.spa_text_read.specs.Grammar as grammar;
ghost use Rattle.spa_text_read.specs.Grammar.{tag_named};

/// A type whose values are numbers in a text.
#[derive(Clone, Copy, PartialEq, Eq)]
pub enum Scalar {
    Id,
    Int,
    Long,
    Float,
    Double,
    Fd,
}

/// Which kind of value a JSON object stands for, by its first key.
#[derive(Clone, Copy)]
pub enum Tag {
    Scalar(Scalar),
    String,
    Bytes,
    Bitmap,
    Width,
    Num,
    Pointer,
    Struct,
    Array,
    Choice,
    Object,
    Other,
}

/// The tag of this name.
pub(crate) fn tag_of(name: &str) -> Tag
    ensures { result ≡ tag_named name.now }
{
    match name {
        "type" => Tag::Object,
        "choice" => Tag::Choice,
        "width" => Tag::Width,
        "num" => Tag::Num,
        "int" => Tag::Scalar(Scalar::Int),
        "id" => Tag::Scalar(Scalar::Id),
        "long" => Tag::Scalar(Scalar::Long),
        "float" => Tag::Scalar(Scalar::Float),
        "double" => Tag::Scalar(Scalar::Double),
        "fd" => Tag::Scalar(Scalar::Fd),
        "array" => Tag::Array,
        "struct" => Tag::Struct,
        "string" => Tag::String,
        "bytes" => Tag::Bytes,
        "bitmap" => Tag::Bitmap,
        "pointer" => Tag::Pointer,
        _ => Tag::Other,
    }
}

/// What a bare number is where this type is expected.
pub fn bare(type_: u32) -> Scalar
    ensures { result ≡ grammar.bare type_ }
{
    match type_ {
        3 => Scalar::Id,
        5 => Scalar::Long,
        6 => Scalar::Float,
        7 => Scalar::Double,
        18 => Scalar::Fd,
        _ => Scalar::Int,
    }
}

/// Whether a bare text is a number there.
pub fn takes_text(type_: u32) -> bool
    ensures { result ≡ grammar.takes_text type_ }
{
    type_ == 3 || type_ == 6 || type_ == 7
}
