//! Laws of writing a value, for each output. The functions only call the writer: their contracts are the laws.
ghost use Rattle.std.specs.Prelude.{◌≡◌, ◌+◌, ◌<◌, ◌≤◌, ◌++◌, IfErr, IfOk, IsOk, length};
ghost use Rattle.spa_sink.specs.Writing.{RefusedFor};
ghost use Rattle.spa_sink.specs.declared.gen_error.GenError.{GenError};
ghost use Rattle.spa_sink.specs.declared.gen_error.GenError.TheVariants.{Full, OutOfMemory};
ghost use Rattle.spa_format.specs.Encoding.{encoding_of};
ghost use Rattle.spa_format.specs.Typed.{IsTyped};
ghost use Rattle.spa_format.specs.Writable.{HasNul, IsTooLarge, IsWritable};
ghost use Rattle.spa_canonical.specs.Depth.{depth_of};
ghost use Rattle.spa_value.specs.View.{view};
ghost use Rattle.spa_write.specs.DeepValues.{levels_without_memory};
ghost use Rattle.spa_typed_write.specs.Complete.{RefusesAtLimit};

use crate::exact::SerializeAs;
use crate::serializer::{PodSerialize, PodSerializer};
use arrayvec::ArrayVec;
use spa_sink::GenError;
use spa_value::Value;

/// To an output of fixed size each value that can be written and nests in at most 512 levels is written where its encoding fits, and no value
/// that can't be written ever is. It is refused as `NulInText` only where a text in it holds NUL, as `TooLarge` only where a size word would be
/// 4294967296 or more, as `OutOfMemory` only where it nests in more than 512 levels, as `Full` only where its encoding doesn't fit, and never
/// otherwise.
pub fn values_are_written_where_they_fit<const N: usize>(
    out: ArrayVec<u8, N>,
    value: &Value,
) -> Result<(ArrayVec<u8, N>, u64), GenError>
    ensures encoding { IfOk result (λ done. done.0.items ≡ out.entry.items ++ encoding_of (view value.now)) }
    ensures count { IfOk result (λ done. done.1 ≡ length (encoding_of (view value.now))) }
    ensures writable { IsOk result → IsWritable (view value.now) }
    ensures room { IsWritable (view value.now) → depth_of (view value.now) ≤ levels_without_memory
        → length out.entry.items + length (encoding_of (view value.now)) ≤ N → IsOk result }
    ensures cause { IfErr result (RefusesAtLimit (length out.entry.items) N (view value.now)) }
{
    PodSerializer::serialize(out, value)
}

/// To an output in memory a value that can be written is refused only for want of memory, and one that can't be written is
/// never written.
pub fn values_are_written_into_memory(
    out: Vec<u8>,
    value: &Value,
) -> Result<(Vec<u8>, u64), GenError>
    ensures encoding { IfOk result (λ done. done.0.items ≡ out.items ++ encoding_of (view value.now)) }
    ensures count { IfOk result (λ done. done.1 ≡ length (encoding_of (view value.now))) }
    ensures writable { IsOk result → IsWritable (view value.now) }
    ensures memory { IsWritable (view value.now) → IfErr result (λ e. e ≡ OutOfMemory) }
    ensures cause { IfErr result (RefusedFor (HasNul (view value.now)) (IsTooLarge (view value.now))
        (λ e. e ≡ OutOfMemory)) }
{
    PodSerializer::<Vec<u8>>::serialize(out, value)
}

/// To an output of fixed size a value that its type doesn't refuse is written exactly where its encoding fits, and else refused as `Full`.
pub fn pods_are_written_where_they_fit<P: PodSerialize, const N: usize>(
    out: ArrayVec<u8, N>,
    pod: &P,
) -> Result<(ArrayVec<u8, N>, u64), GenError>
    ensures encoding { IfOk result (λ done. done.0.items ≡ out.entry.items ++ encoding_of (P.value pod.now)) }
    ensures room { ((e : GenError) → ¬ (P.refuses pod.now e))
        → length out.entry.items + length (encoding_of (P.value pod.now)) ≤ N → IsOk result }
    ensures full { ((e : GenError) → ¬ (P.refuses pod.now e))
        → IfErr result (λ e. (e ≡ Full) × (N < length out.entry.items + length (encoding_of (P.value pod.now)))) }
{
    PodSerializer::serialize(out, pod)
}

/// To an output of fixed size a `SerializeAs` that nests in at most 512 levels, such as a type of a program's own, is written exactly where its
/// value can be written and the encoding fits. It is refused as `NulInText` only where a text in the value holds NUL, as `TooLarge` only where a
/// size word would be 4294967296 or more, as `OutOfMemory` only where it nests in more than 512 levels, as `Full` only where the encoding doesn't
/// fit, and never otherwise.
pub fn declared_pods_are_written_where_they_fit<P: SerializeAs, const N: usize>(
    out: ArrayVec<u8, N>,
    pod: &P,
) -> Result<(ArrayVec<u8, N>, u64), GenError>
    ensures encoding { IfOk result (λ done. done.0.items ≡ out.entry.items ++ encoding_of (P.says pod.now)) }
    ensures count { IfOk result (λ done. done.1 ≡ length (encoding_of (P.says pod.now))) }
    ensures typed { IsOk result → IsTyped (P.says pod.now) }
    ensures writable { IsOk result → IsWritable (P.says pod.now) }
    ensures room { IsWritable (P.says pod.now) → depth_of (P.says pod.now) ≤ levels_without_memory
        → length out.entry.items + length (encoding_of (P.says pod.now)) ≤ N → IsOk result }
    ensures cause { IfErr result (RefusesAtLimit (length out.entry.items) N (P.says pod.now)) }
{
    PodSerializer::serialize(out, pod)
}
