//! The nine types over which there are choices.
ghost use Rattle.std.specs.Prelude.{◌≡◌};
ghost use Rattle.spa_format.specs.Kind.{bool, bool_kind, double, double_kind, fd, fd_kind, float, float_kind, fraction, fraction_kind, id, id_kind, int, int_kind, long, long_kind, rectangle, rectangle_kind};
ghost use Rattle.spa_fixed_sized.specs.Choices.{choice_enum_tree};
ghost use Rattle.spa_value.specs.View.{view};

use crate::element::Element;
use crate::numbers::Numbers;
use bitflags::Flags;
use spa_fixed_sized::CanonicalFixedSizedPod;
use spa_utils::{Choice, ChoiceEnum, ChoiceFlags, Fd, Float32, Float64, Fraction, Id, Rectangle};
use spa_value::{ChoiceValue, Value};

impl Element for bool {
    fn numbers(&self) -> Numbers {
        Numbers::unsigned(Self::TYPE, u64::from(*self), 0)
    }

    fn value(&self) -> Value {
        Value::Bool(*self)
    }

    fn choice(choice: ChoiceEnum<bool>) -> Value
        ensures { view result ≡ choice_enum_tree bool_kind (λ x. bool x) 0 choice }
    {
        Value::Choice(ChoiceValue::Bool(Choice(ChoiceFlags::empty(), choice)))
    }

    #[tactic(auto, using(crate::proofs::Variants::not_bool))]
    fn in_value(value: &Value) -> Option<Self> {
        match value {
            Value::Bool(x) => Some(*x),
            _ => None,
        }
    }

    #[tactic(auto, using(crate::proofs::Variants::admitted_type))]
    fn in_choice(choice: &ChoiceValue) -> Option<&Choice<Self>> {
        match choice {
            ChoiceValue::Bool(choice) => Some(choice),
            _ => None,
        }
    }
}

impl Element for Id {
    fn numbers(&self) -> Numbers {
        Numbers::unsigned(Self::TYPE, u64::from(self.0), 0)
    }

    fn value(&self) -> Value {
        Value::Id(*self)
    }

    fn choice(choice: ChoiceEnum<Id>) -> Value
        ensures { view result ≡ choice_enum_tree id_kind (λ x. id x.0) 0 choice }
    {
        Value::Choice(ChoiceValue::Id(Choice(ChoiceFlags::empty(), choice)))
    }

    #[tactic(auto, using(crate::proofs::Variants::not_id))]
    fn in_value(value: &Value) -> Option<Self> {
        match value {
            Value::Id(x) => Some(*x),
            _ => None,
        }
    }

    #[tactic(auto, using(crate::proofs::Variants::admitted_type))]
    fn in_choice(choice: &ChoiceValue) -> Option<&Choice<Self>> {
        match choice {
            ChoiceValue::Id(choice) => Some(choice),
            _ => None,
        }
    }
}

impl Element for i32 {
    fn numbers(&self) -> Numbers {
        Numbers::signed(Self::TYPE, i64::from(*self))
    }

    fn value(&self) -> Value {
        Value::Int(*self)
    }

    fn choice(choice: ChoiceEnum<i32>) -> Value
        ensures { view result ≡ choice_enum_tree int_kind (λ x. int x) 0 choice }
    {
        Value::Choice(ChoiceValue::Int(Choice(ChoiceFlags::empty(), choice)))
    }

    #[tactic(auto, using(crate::proofs::Variants::not_int))]
    fn in_value(value: &Value) -> Option<Self> {
        match value {
            Value::Int(x) => Some(*x),
            _ => None,
        }
    }

    #[tactic(auto, using(crate::proofs::Variants::admitted_type))]
    fn in_choice(choice: &ChoiceValue) -> Option<&Choice<Self>> {
        match choice {
            ChoiceValue::Int(choice) => Some(choice),
            _ => None,
        }
    }
}

impl Element for i64 {
    fn numbers(&self) -> Numbers {
        Numbers::signed(Self::TYPE, *self)
    }

    fn value(&self) -> Value {
        Value::Long(*self)
    }

    fn choice(choice: ChoiceEnum<i64>) -> Value
        ensures { view result ≡ choice_enum_tree long_kind (λ x. long x) 0 choice }
    {
        Value::Choice(ChoiceValue::Long(Choice(ChoiceFlags::empty(), choice)))
    }

    #[tactic(auto, using(crate::proofs::Variants::not_long))]
    fn in_value(value: &Value) -> Option<Self> {
        match value {
            Value::Long(x) => Some(*x),
            _ => None,
        }
    }

    #[tactic(auto, using(crate::proofs::Variants::admitted_type))]
    fn in_choice(choice: &ChoiceValue) -> Option<&Choice<Self>> {
        match choice {
            ChoiceValue::Long(choice) => Some(choice),
            _ => None,
        }
    }
}

impl Element for Float32 {
    fn numbers(&self) -> Numbers {
        Numbers::unsigned(Self::TYPE, u64::from(self.0), 0)
    }

    fn value(&self) -> Value {
        Value::Float(*self)
    }

    fn choice(choice: ChoiceEnum<Float32>) -> Value
        ensures { view result ≡ choice_enum_tree float_kind (λ x. float x.0) 0 choice }
    {
        Value::Choice(ChoiceValue::Float(Choice(ChoiceFlags::empty(), choice)))
    }

    #[tactic(auto, using(crate::proofs::Variants::not_float))]
    fn in_value(value: &Value) -> Option<Self> {
        match value {
            Value::Float(x) => Some(*x),
            _ => None,
        }
    }

    #[tactic(auto, using(crate::proofs::Variants::admitted_type))]
    fn in_choice(choice: &ChoiceValue) -> Option<&Choice<Self>> {
        match choice {
            ChoiceValue::Float(choice) => Some(choice),
            _ => None,
        }
    }
}

impl Element for Float64 {
    fn numbers(&self) -> Numbers {
        Numbers::unsigned(Self::TYPE, self.0, 0)
    }

    fn value(&self) -> Value {
        Value::Double(*self)
    }

    fn choice(choice: ChoiceEnum<Float64>) -> Value
        ensures { view result ≡ choice_enum_tree double_kind (λ x. double x.0) 0 choice }
    {
        Value::Choice(ChoiceValue::Double(Choice(ChoiceFlags::empty(), choice)))
    }

    #[tactic(auto, using(crate::proofs::Variants::not_double))]
    fn in_value(value: &Value) -> Option<Self> {
        match value {
            Value::Double(x) => Some(*x),
            _ => None,
        }
    }

    #[tactic(auto, using(crate::proofs::Variants::admitted_type))]
    fn in_choice(choice: &ChoiceValue) -> Option<&Choice<Self>> {
        match choice {
            ChoiceValue::Double(choice) => Some(choice),
            _ => None,
        }
    }
}

impl Element for Rectangle {
    fn numbers(&self) -> Numbers {
        Numbers::unsigned(Self::TYPE, u64::from(self.width), u64::from(self.height))
    }

    fn value(&self) -> Value {
        Value::Rectangle(*self)
    }

    fn choice(choice: ChoiceEnum<Rectangle>) -> Value
        ensures { view result ≡ choice_enum_tree rectangle_kind (λ x. rectangle x.width x.height) 0 choice }
    {
        Value::Choice(ChoiceValue::Rectangle(Choice(ChoiceFlags::empty(), choice)))
    }

    #[tactic(auto, using(crate::proofs::Variants::not_rectangle))]
    fn in_value(value: &Value) -> Option<Self> {
        match value {
            Value::Rectangle(x) => Some(*x),
            _ => None,
        }
    }

    #[tactic(auto, using(crate::proofs::Variants::admitted_type))]
    fn in_choice(choice: &ChoiceValue) -> Option<&Choice<Self>> {
        match choice {
            ChoiceValue::Rectangle(choice) => Some(choice),
            _ => None,
        }
    }
}

impl Element for Fraction {
    fn numbers(&self) -> Numbers {
        Numbers::unsigned(Self::TYPE, u64::from(self.num), u64::from(self.denom))
    }

    fn value(&self) -> Value {
        Value::Fraction(*self)
    }

    fn choice(choice: ChoiceEnum<Fraction>) -> Value
        ensures { view result ≡ choice_enum_tree fraction_kind (λ x. fraction x.num x.denom) 0 choice }
    {
        Value::Choice(ChoiceValue::Fraction(Choice(ChoiceFlags::empty(), choice)))
    }

    #[tactic(auto, using(crate::proofs::Variants::not_fraction))]
    fn in_value(value: &Value) -> Option<Self> {
        match value {
            Value::Fraction(x) => Some(*x),
            _ => None,
        }
    }

    #[tactic(auto, using(crate::proofs::Variants::admitted_type))]
    fn in_choice(choice: &ChoiceValue) -> Option<&Choice<Self>> {
        match choice {
            ChoiceValue::Fraction(choice) => Some(choice),
            _ => None,
        }
    }
}

impl Element for Fd {
    fn numbers(&self) -> Numbers {
        Numbers::signed(Self::TYPE, self.0)
    }

    fn value(&self) -> Value {
        Value::Fd(*self)
    }

    fn choice(choice: ChoiceEnum<Fd>) -> Value
        ensures { view result ≡ choice_enum_tree fd_kind (λ x. fd x.0) 0 choice }
    {
        Value::Choice(ChoiceValue::Fd(Choice(ChoiceFlags::empty(), choice)))
    }

    #[tactic(auto, using(crate::proofs::Variants::not_fd))]
    fn in_value(value: &Value) -> Option<Self> {
        match value {
            Value::Fd(x) => Some(*x),
            _ => None,
        }
    }

    #[tactic(auto, using(crate::proofs::Variants::admitted_type))]
    fn in_choice(choice: &ChoiceValue) -> Option<&Choice<Self>> {
        match choice {
            ChoiceValue::Fd(choice) => Some(choice),
            _ => None,
        }
    }
}
