//! Visitors of texts, bytes, bitmaps and pointers.
ghost use Rattle.std.specs.Prelude.{◌≡◌, ◌≢◌, ℕ, IfNone, IfSome};
ghost use Rattle.spa_typed_read.specs.declared.visitor.Visit.TheVariants as visit;

use spa_typed_read::{Never, VariantVisitor, Visit};

/// Answers the text that it is given, borrowed from the input.
#[derive(Drop)]
pub struct StringVisitor;

impl<'de> VariantVisitor<'de> for StringVisitor {
    type Made = &'de str;

    type Element = Never;

    ghost handed = { λ x. visit.String x };

    fn of_visit(given: Visit<'de, Never>) -> Option<&'de str>
        ensures there { IfSome result (λ x. given.entry ≡ visit.String x) }
        ensures other { IfNone result ((x : _) → given.entry ≢ visit.String x) }
    {
        match given {
            Visit::String(x) => Some(x),
            _ => None,
        }
    }
}

/// Answers the bytes that it is given, borrowed from the input.
#[derive(Drop)]
pub struct BytesVisitor;

impl<'de> VariantVisitor<'de> for BytesVisitor {
    type Made = &'de [u8];

    type Element = Never;

    ghost handed = { λ x. visit.Bytes x };

    fn of_visit(given: Visit<'de, Never>) -> Option<&'de [u8]>
        ensures there { IfSome result (λ x. given.entry ≡ visit.Bytes x) }
        ensures other { IfNone result ((x : _) → given.entry ≢ visit.Bytes x) }
    {
        match given {
            Visit::Bytes(x) => Some(x),
            _ => None,
        }
    }
}

/// Answers the bytes of the bitmap that it is given, borrowed from the input.
#[derive(Drop)]
pub struct BitmapVisitor;

impl<'de> VariantVisitor<'de> for BitmapVisitor {
    type Made = &'de [u8];

    type Element = Never;

    ghost handed = { λ x. visit.Bitmap x };

    fn of_visit(given: Visit<'de, Never>) -> Option<&'de [u8]>
        ensures there { IfSome result (λ x. given.entry ≡ visit.Bitmap x) }
        ensures other { IfNone result ((x : _) → given.entry ≢ visit.Bitmap x) }
    {
        match given {
            Visit::Bitmap(x) => Some(x),
            _ => None,
        }
    }
}

/// Answers the type number and the address that it is given.
#[derive(Default, Drop)]
pub struct PointerVisitor;

impl<'de> VariantVisitor<'de> for PointerVisitor {
    type Made = (u32, u64);

    type Element = Never;

    ghost handed = { λ x. visit.Pointer x.0 x.1 };

    fn of_visit(given: Visit<'de, Never>) -> Option<(u32, u64)>
        ensures there { IfSome result (λ x. given.entry ≡ visit.Pointer x.0 x.1) }
        ensures other { IfNone result ((x : ℕ × ℕ) → given.entry ≢ visit.Pointer x.0 x.1) }
    {
        match given {
            Visit::Pointer(type_, address) => Some((type_, address)),
            _ => None,
        }
    }
}
