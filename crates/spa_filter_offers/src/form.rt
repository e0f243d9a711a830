//! The form of a value: the shape of its choice, and the type of the choice's values.
ghost use Rattle.spa_fixed_sized.specs.Choices.{choice_tree};
ghost use Rattle.spa_value.specs.View.{choice_view, view};
ghost use Rattle.spa_filter_offers.specs.Forms.{IsFormOf};

use crate::element::Element;
use spa_fixed_sized::{ENUM_SHAPE, FLAGS_SHAPE, NONE_SHAPE, RANGE_SHAPE, STEP_SHAPE};
use spa_utils::{Choice, ChoiceEnum};
use spa_value::laws::trees_have_their_types;
use spa_value::{ChoiceValue, Value};

/// The shape and the type of a choice, as the numbers that its pod has.
#[derive(Clone, Copy)]
pub struct Form {
    /// The shape.
    pub shape: u32,
    /// The type of the values.
    pub type_: u32,
}

impl Form {
    /// The form of a plain value, which is taken for a None choice. Its type doesn't count.
    pub const PLAIN: Form = Form {
        shape: NONE_SHAPE,
        type_: 0,
    };
}

/// The form of a value.
pub fn form_of(value: &Value) -> Form
    ensures { IsFormOf (view value.now) result }
{
    trees_have_their_types();
    match value {
        Value::Choice(choice) => choice_form(choice),
        _ => Form::PLAIN,
    }
}

/// The form of a choice over any type.
fn choice_form(choice: &ChoiceValue) -> Form
    ensures { IsFormOf (choice_view choice.now) result }
{
    match choice {
        ChoiceValue::Bool(choice) => typed_form(choice),
        ChoiceValue::Id(choice) => typed_form(choice),
        ChoiceValue::Int(choice) => typed_form(choice),
        ChoiceValue::Long(choice) => typed_form(choice),
        ChoiceValue::Float(choice) => typed_form(choice),
        ChoiceValue::Double(choice) => typed_form(choice),
        ChoiceValue::Rectangle(choice) => typed_form(choice),
        ChoiceValue::Fraction(choice) => typed_form(choice),
        ChoiceValue::Fd(choice) => typed_form(choice),
    }
}

/// The form of a choice over the type `T`.
fn typed_form<T: Element>(choice: &Choice<T>) -> Form
    ensures { IsFormOf (choice_tree T.kind T.fixed choice.now) result }
{
    let shape = match &choice.1 {
        ChoiceEnum::None(_) => NONE_SHAPE,
        ChoiceEnum::Range { .. } => RANGE_SHAPE,
        ChoiceEnum::Step { .. } => STEP_SHAPE,
        ChoiceEnum::Enum { .. } => ENUM_SHAPE,
        ChoiceEnum::Flags { .. } => FLAGS_SHAPE,
    };
    Form {
        shape,
        type_: T::TYPE,
    }
}
