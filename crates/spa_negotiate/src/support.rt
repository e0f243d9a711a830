//! Whether a common value is sought for a value.
ghost use Rattle.std.specs.Prelude.{◌≡◌, ◌↔◌, IsTrue};
ghost use Rattle.spa_format.specs.Kind.{Kind, type_number};
ghost use Rattle.spa_format.specs.Tree.{Tree};
ghost use Rattle.spa_value.specs.View.{view};
ghost use Rattle.spa_filter_offers.specs.Forms.{IsFormOf};
ghost use Rattle.spa_negotiate.specs.Admits.{IsRangeKind, IsSupported};

use spa_filter_offers::{Form, form_of};
use spa_fixed_sized::{FLAGS_SHAPE, RANGE_SHAPE, STEP_SHAPE};
use spa_utils::SpaTypes;
use spa_value::Value;

/// Whether a common value is sought for this value and another: it is plain, a None choice, an Enum, or a Range over `Id`, `i32` or `i64`.
pub fn is_supported(value: &Value) -> bool
    ensures { IsTrue result ↔ IsSupported (view value.now) }
{
    is_form_supported(form_of(value))
}

/// Whether a common value is sought for a value of this form.
fn is_form_supported(form: Form) -> bool
    ensures { (v : Tree) → IsFormOf v form → IsTrue result ↔ IsSupported v }
{
    match form.shape {
        RANGE_SHAPE => are_ranges_supported(form.type_),
        STEP_SHAPE => false,
        FLAGS_SHAPE => false,
        _ => true,
    }
}

/// Whether a common value is sought for a Range over this type.
fn are_ranges_supported(type_: u32) -> bool
    ensures { (k : Kind) → type_ ≡ type_number k → IsTrue result ↔ IsRangeKind k }
{
    type_ == SpaTypes::Id.0 || type_ == SpaTypes::Int.0 || type_ == SpaTypes::Long.0
}
