//! What a caller knows of `==` on errors: the contract of each function says it, for all values.
ghost use Rattle.std.specs.Prelude.{◌≡◌, ◌↔◌, IsTrue};
ghost use Rattle.spa_fixed_sized.specs.Faults.{IsSameError};

use spa_fixed_sized::{DeserializeError, Fault, FaultKind};
use spa_sink::GenError;

fn same_kind(a: FaultKind, b: FaultKind) -> bool
    ensures { IsTrue result ↔ a ≡ b }
{
    a == b
}

fn same_fault(a: &Fault<&[u8]>, b: &Fault<&[u8]>) -> bool
    ensures { IsTrue result ↔ (a.now.input.now ≡ b.now.input.now) × (a.now.kind ≡ b.now.kind) }
{
    a == b
}

fn same_read_error(a: &DeserializeError<&[u8]>, b: &DeserializeError<&[u8]>) -> bool
    ensures { IsTrue result ↔ IsSameError a.now b.now }
{
    a == b
}

fn same_gen_error(a: GenError, b: GenError) -> bool
    ensures { IsTrue result ↔ a ≡ b }
{
    a == b
}
