//! What a caller knows of `==` on flags: the contract says it, for all values.
ghost use Rattle.std.specs.Prelude.{◌≡◌, ◌↔◌, IsTrue};

use spa_view::PodPropFlags;

fn same_pod_flags(a: PodPropFlags, b: PodPropFlags) -> bool
    ensures { IsTrue result ↔ a.0 ≡ b.0 }
{
    a == b
}
