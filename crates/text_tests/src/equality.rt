//! What a caller knows of `==` on flags: the contract says it, for all values.
ghost use Rattle.std.specs.Prelude.{◌≡◌, ◌↔◌, IsTrue};

use spa_value::PropertyFlags;

fn same_property_flags(a: PropertyFlags, b: PropertyFlags) -> bool
    ensures { IsTrue result ↔ a.0 ≡ b.0 }
{
    a == b
}
