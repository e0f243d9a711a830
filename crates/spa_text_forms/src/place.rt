//! Values that are printed with their place: the path to them, and the head of the message in which they were found.
ghost use Rattle.std.specs.Prelude.{◌≡◌, unwrap_or};
ghost use Rattle.json.specs.Tree.{HasNumbers, MembersHaveNumbers};
ghost use Rattle.json.specs.Value.{members_view, value_view};
ghost use Rattle.spa_text_forms.specs.Order as spec;

use json::Value;

/// A value without its place; another one as it is.
pub(crate) fn without_place<'a, 'b>(value: &'a Value<'b>) -> &'a Value<'b>
    ensures value { value_view result.now ≡ spec.without_place (value_view value.now) }
    ensures numbers { HasNumbers (value_view value.now) → HasNumbers (value_view result.now) }
{
    match value {
        Value::Object(members) => placed_or(members.as_slice(), value),
        _ => value,
    }
}

/// The value that these members have beside its place, or this one where they aren't a value and its place.
fn placed_or<'a, 'b>(members: &'a [(&'b str, Value<'b>)], other: &'a Value<'b>) -> &'a Value<'b>
    ensures value { value_view result.now ≡ unwrap_or (spec.placed_in (members_view members.now)) (value_view other.now) }
    ensures numbers { MembersHaveNumbers (members_view members.now) → HasNumbers (value_view other.now) → HasNumbers (value_view result.now) }
{
    if !has_place(members) {
        return other;
    }
    for member in members {
        if !is_place(member.0, &member.1) {
            return &member.1;
        }
    }
    other
}

/// Whether these members are a place, and one under `value`.
fn has_place(members: &[(&str, Value<'_>)]) -> bool
    ensures { result ≡ spec.has_place (members_view members.now) }
{
    let mut found = false;
    for member in members {
        if !is_place(member.0, &member.1) {
            if found || member.0 != "value" {
                return false;
            }
            found = true;
        }
    }
    found
}

/// Whether a member is of a value's place.
fn is_place(key: &str, value: &Value<'_>) -> bool
    ensures { result ≡ spec.is_place key.now (value_view value.now) }
{
    match value {
        Value::String(_) => key == "path" || key == "head",
        _ => false,
    }
}
