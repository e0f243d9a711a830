//! A struct that holds any value.
ghost use Rattle.std.specs.Prelude.{◌≡◌, true};
ghost use Rattle.libspa.specs.Kind as kind;
ghost use Rattle.libspa.specs.Tree.{fixed, member, no_trees, struct};
ghost use Rattle.libspa.specs.View.{view};

use libspa::pod::deserialize::{DeserializeAs, StructOf};
use libspa::pod::serialize::{GenError, PodOutput, SerializeAs, write_struct};
use libspa::pod::{Held, Value};
use libspa::utils::Id;

/// A value under an id. Untrusted bytes decide its nesting depth, so it is dropped by a loop.
#[derive(Drop)]
pub struct Tagged {
    pub id: Id,
    pub value: Held,
}

/// Read as a struct of these two, and refused exactly where no such struct is there.
impl DeserializeAs for Tagged {
    type Content = StructOf<(Id, (Held, ()))>;

    ghost content = { λ t. record { 0 = (t.id, (t.value, tt)) } };

    fn of_content(StructOf((id, (value, ()))): Self::Content) -> Tagged {
        Tagged { id, value }
    }
}

impl SerializeAs for Tagged {
    ghost says = { λ t. struct (member (fixed (kind.id t.id.0)) (member (view t.value) no_trees)) };

    fn write_as<O: PodOutput>(&self, out: &mut O) -> Result<(), GenError> {
        write_struct(out, &(&self.id, (&self.value, ())))
    }
}

/// A number under an id.
pub fn tagged_number(id: Id, number: i32) -> Tagged
    ensures id { result.id ≡ id }
    ensures value { view result.value ≡ fixed (kind.int number) }
{
    Tagged {
        id,
        value: Held::from(Value::Int(number)),
    }
}

/// Whether a value is a number.
pub fn is_number(value: &Value) -> bool
    ensures { result ≡ true → (n : _) × (view value.now ≡ fixed (kind.int n)) }
{
    match value {
        Value::Int(_) => true,
        _ => false,
    }
}
