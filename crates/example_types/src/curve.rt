//! A struct that is declared by what it is made of.
ghost use Rattle.std.specs.Prelude.{◌≡◌, ◌+◌, ◌≤◌, ◌++◌, IfErr, IfOk, IsOk, length, map, string_bytes};
ghost use Rattle.libspa.specs.Complete.{RefusesAtLimit};
ghost use Rattle.libspa.specs.Encoding.{encoding_of};
ghost use Rattle.libspa.specs.Kind as kind;
ghost use Rattle.libspa.specs.Tree.{array, fixed, member, no_trees, string, struct};
ghost use Rattle.libspa.specs.Writable.{IsWritable};

use arrayvec::ArrayVec;
use libspa::pod::deserialize::{DeserializeAs, StructOf};
use libspa::pod::serialize::{GenError, PodOutput, SerializeAs, laws, write_struct};
use libspa::utils::{Float32, Id};

/// A curve with its name, its order, its channel and its points.
#[derive(Drop)]
pub struct Curve {
    pub name: String,
    pub order: i32,
    pub channel: Id,
    pub points: Vec<Float32>,
}

/// Read as a struct of these four, and refused exactly where no such struct is there.
impl DeserializeAs for Curve {
    type Content = StructOf<(String, (i32, (Id, (Vec<Float32>, ()))))>;

    ghost content = { λ c. record { 0 = (c.name, (c.order, (c.channel, (c.points, tt)))) } };

    fn of_content(StructOf((name, (order, (channel, (points, ()))))): Self::Content) -> Curve {
        Curve {
            name,
            order,
            channel,
            points,
        }
    }
}

/// Written as this struct, wherever it can be.
impl SerializeAs for Curve {
    ghost says = { λ c. struct
        (member (string (string_bytes c.name))
        (member (fixed (kind.int c.order))
        (member (fixed (kind.id c.channel.0))
        (member (array kind.float_kind (map (λ x. kind.float x.0) c.points.items)) no_trees)))) };

    fn write_as<O: PodOutput>(&self, out: &mut O) -> Result<(), GenError> {
        let behind = (&self.order, (&self.channel, (&self.points, ())));
        write_struct(out, &(&self.name, behind))
    }
}

/// The encoding of a curve behind what the output holds, and its length: exactly where it can be written and fits.
pub fn put_curve<const N: usize>(
    out: ArrayVec<u8, N>,
    curve: &Curve,
) -> Result<(ArrayVec<u8, N>, u64), GenError>
    ensures encoding { IfOk result
        (λ done. done.0.items ≡ out.entry.items ++ encoding_of (⟦<Curve as SerializeAs>⟧.says curve.now)) }
    ensures count { IfOk result (λ done. done.1 ≡ length (encoding_of (⟦<Curve as SerializeAs>⟧.says curve.now))) }
    ensures writable { IsOk result → IsWritable (⟦<Curve as SerializeAs>⟧.says curve.now) }
    ensures room { IsWritable (⟦<Curve as SerializeAs>⟧.says curve.now)
        → length out.entry.items + length (encoding_of (⟦<Curve as SerializeAs>⟧.says curve.now)) ≤ N → IsOk result }
    ensures cause { IfErr result (RefusesAtLimit (length out.entry.items) N (⟦<Curve as SerializeAs>⟧.says curve.now)) }
{
    laws::declared_pods_are_written_where_they_fit(out, curve)
}
