//! Compares two values up to the structs and objects in them.
ghost use Rattle.std.specs.Prelude.{◌≡◌, IsTrue, true};
ghost use Rattle.spa_format.specs.Tree.{member_node_count, object, property_node_count};
ghost use Rattle.spa_value.specs.Comparison.{Compares, Steps, first_count, pair_eq};
ghost use Rattle.spa_value.specs.Equality.{members_eq, properties_eq};
ghost use Rattle.spa_value.specs.View.{object_view, view};
ghost use Rattle.spa_value.specs.Views.{property_views, views};

use crate::object::{Object, Property};
use crate::value::Value;

/// What is left to compare of two containers of one type: two structs' members, or two objects' properties.
#[derive(Clone, Copy)]
pub(crate) enum Pair<'a> {
    Members(&'a [Value], &'a [Value]),
    Properties(&'a [Property], &'a [Property]),
}

/// How two values compare, without the contents of containers.
#[derive(Clone, Copy)]
pub(crate) enum Verdict<'a> {
    /// It is settled: whether they are equal.
    Settled(bool),
    /// They are equal exactly where these contents of the two are.
    Inside(Pair<'a>),
}

/// How far a comparison of two structs' members, or of two objects' properties, has come.
#[derive(Clone, Copy)]
pub(crate) enum Step<'a> {
    /// It is settled: whether they are equal.
    Ended(bool),
    /// They are equal exactly where the contents of the next two containers in them are, and what is left behind those two.
    Inside(Pair<'a>, Pair<'a>),
}

/// The answer where the value has this variant, and false otherwise. (From a guard, as in `matches!`, the proof would not learn that the value
/// is of another variant.)
macro_rules! where_of {
    ($value:expr, $variant:pat => $answer:expr) => {
        match $value {
            $variant => Verdict::Settled($answer),
            _ => Verdict::Settled(false),
        }
    };
}

/// Compares two values, but not the contents of two structs, or of two objects of one type and one id, which it answers.
#[inline(always)]
pub(crate) fn compare<'a>(value: &'a Value, other: &'a Value) -> Verdict<'a>
    ensures { Compares (view value.now) (view other.now) result }
{
    match value {
        Value::None => where_of!(other, Value::None => true),
        Value::Bool(x) => where_of!(other, Value::Bool(y) => x == y),
        Value::Id(x) => where_of!(other, Value::Id(y) => x == y),
        Value::Int(x) => where_of!(other, Value::Int(y) => x == y),
        Value::Long(x) => where_of!(other, Value::Long(y) => x == y),
        Value::Float(x) => where_of!(other, Value::Float(y) => x == y),
        Value::Double(x) => where_of!(other, Value::Double(y) => x == y),
        Value::String(s) => where_of!(other, Value::String(t) => s == t),
        Value::Bytes(s) => where_of!(other, Value::Bytes(t) => s == t),
        Value::Bitmap(s) => where_of!(other, Value::Bitmap(t) => s == t),
        Value::Rectangle(x) => where_of!(other, Value::Rectangle(y) => x == y),
        Value::Fraction(x) => where_of!(other, Value::Fraction(y) => x == y),
        Value::Fd(x) => where_of!(other, Value::Fd(y) => x == y),
        Value::ValueArray(a) => where_of!(other, Value::ValueArray(b) => a == b),
        Value::Struct(ms) => match other {
            Value::Struct(ns) => Verdict::Inside(Pair::Members(ms.as_slice(), ns.as_slice())),
            _ => Verdict::Settled(false),
        },
        Value::Object(o) => match other {
            Value::Object(p) => compare_objects(o, p),
            _ => Verdict::Settled(false),
        },
        Value::Choice(c) => where_of!(other, Value::Choice(d) => c == d),
        Value::Pointer(t, a) => where_of!(other, Value::Pointer(u, b) => t == u && a == b),
    }
}

/// Compares the types and the ids of two objects, and answers their properties where those are equal.
#[inline(always)]
pub(crate) fn compare_objects<'a>(object: &'a Object, other: &'a Object) -> Verdict<'a>
    ensures { Compares (object_view object.now) (object_view other.now) result }
{
    if object.type_ != other.type_ || object.id != other.id {
        return Verdict::Settled(false);
    }
    Verdict::Inside(Pair::Properties(object.properties.as_slice(), other.properties.as_slice()))
}

impl<'a> Pair<'a> {
    /// Compares up to the next two containers of one type, to a difference or to the end.
    #[inline(always)]
    pub(crate) fn step(self) -> Step<'a>
        ensures { Steps (pair_eq self.entry) (first_count self.entry) result }
    {
        match self {
            Pair::Members(members, others) => members_step(members, others),
            Pair::Properties(properties, others) => properties_step(properties, others),
        }
    }

    /// Is nothing left?
    #[inline(always)]
    pub(crate) fn is_done(self) -> bool
        ensures { IsTrue result → pair_eq self.entry ≡ true }
    {
        match self {
            Pair::Members(members, others) => members.is_empty() && others.is_empty(),
            Pair::Properties(properties, others) => properties.is_empty() && others.is_empty(),
        }
    }
}

/// Compares members up to the next two containers of one type, to a difference or to the end.
#[inline(always)]
fn members_step<'a>(members: &'a [Value], others: &'a [Value]) -> Step<'a>
    ensures { Steps (members_eq (views members.now) (views others.now)) (member_node_count (views members.now)) result }
{
    let mut left = members;
    let mut others_left = others;
    while let Some((member, behind)) = left.split_first() {
        let Some((other, others_behind)) = others_left.split_first() else {
            return Step::Ended(false);
        };
        match compare(member, other) {
            Verdict::Settled(true) => {}
            Verdict::Settled(false) => return Step::Ended(false),
            Verdict::Inside(inner) => {
                return Step::Inside(inner, Pair::Members(behind, others_behind));
            }
        }
        left = behind;
        others_left = others_behind;
    }
    Step::Ended(others_left.is_empty())
}

/// Compares properties up to the next two values that are containers of one type, to a difference or to the end.
#[inline(always)]
fn properties_step<'a>(properties: &'a [Property], others: &'a [Property]) -> Step<'a>
    ensures { Steps (properties_eq (property_views properties.now) (property_views others.now))
        (property_node_count (property_views properties.now)) result }
{
    let mut left = properties;
    let mut others_left = others;
    while let Some((property, behind)) = left.split_first() {
        let Some((other, others_behind)) = others_left.split_first() else {
            return Step::Ended(false);
        };
        if property.key != other.key || property.flags != other.flags {
            return Step::Ended(false);
        }
        match compare(&property.value, &other.value) {
            Verdict::Settled(true) => {}
            Verdict::Settled(false) => return Step::Ended(false),
            Verdict::Inside(inner) => {
                return Step::Inside(inner, Pair::Properties(behind, others_behind));
            }
        }
        left = behind;
        others_left = others_behind;
    }
    Step::Ended(others_left.is_empty())
}
