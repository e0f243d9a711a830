//! Values whose pods have sixteen bytes: those of the nine types of fixed size whose bodies aren't empty.
ghost use Rattle.std.specs.Prelude.{◌≡◌, IfSome, OnSome, true};
ghost use Rattle.spa_format.specs.Encoding.{encoding_of};
ghost use Rattle.spa_format.specs.Tree as tree;
ghost use Rattle.spa_format.specs.Typed.{IsTyped};
ghost use Rattle.spa_format.specs.Words.{extent};
ghost use Rattle.spa_format.specs.Writable.{IsWritable};
ghost use Rattle.spa_value.specs.View.{view};
ghost use Rattle.spa_write.specs.Measured.{AreShort, IsMeasured};

use spa_fixed_sized::{CanonicalFixedSizedPod, LONGEST_POD_LEN, pod_bytes, pod_len};
use spa_value::Value;

/// The encoding of a value of one of the nine types whose pods have sixteen bytes. None: the value is of another type.
#[inline(always)]
pub(crate) fn short_encoding(value: &Value) -> Option<[u8; LONGEST_POD_LEN]>
    ensures encoding { IfSome result (λ pod. pod ≡ encoding_of (view value.now)) }
    ensures typed { OnSome result (IsTyped (view value.now)) }
    ensures writable { OnSome result (IsWritable (view value.now)) }
{
    match value {
        Value::Bool(value) => Some(short_pod(value)),
        Value::Id(id) => Some(short_pod(id)),
        Value::Int(number) => Some(short_pod(number)),
        Value::Long(number) => Some(short_pod(number)),
        Value::Float(bits) => Some(short_pod(bits)),
        Value::Double(bits) => Some(short_pod(bits)),
        Value::Rectangle(rectangle) => Some(short_pod(rectangle)),
        Value::Fraction(fraction) => Some(short_pod(fraction)),
        Value::Fd(fd) => Some(short_pod(fd)),
        _ => None,
    }
}

/// The encoding of a value of one of the nine types whose pods have sixteen bytes.
#[inline(always)]
fn short_pod<T: CanonicalFixedSizedPod>(value: &T) -> [u8; LONGEST_POD_LEN]
    requires { extent T.SIZE ≡ LONGEST_POD_LEN }
    ensures encoding { result ≡ encoding_of (tree.fixed (T.fixed value.now)) }
    ensures typed { IsTyped (tree.fixed (T.fixed value.now)) }
    ensures writable { IsWritable (tree.fixed (T.fixed value.now)) }
{
    pod_bytes(value)
}

/// How many parts of a list of values are looked at in turn, so that memory is read at several places at once.
const PLACES: usize = 4;

/// Whether the pod of each of these values has sixteen bytes. The contract states what a yes means; a no promises nothing.
pub(crate) fn are_short(values: &[Value]) -> bool
    ensures { result ≡ true → AreShort values.now }
{
    let part = values.len() / PLACES;
    for index in 0..part {
        let near = has_short_pod(&values[index]) & has_short_pod(&values[part + index]);
        let far = has_short_pod(&values[2 * part + index])
            & has_short_pod(&values[3 * part + index]);
        if !(near & far) {
            return false;
        }
    }
    for index in PLACES * part..values.len() {
        if !has_short_pod(&values[index]) {
            return false;
        }
    }
    true
}

/// Whether the pod of the value has sixteen bytes, which those of the nine types have.
#[inline(always)]
fn has_short_pod(value: &Value) -> bool
    ensures { result ≡ true → IsMeasured (view value.now) LONGEST_POD_LEN }
{
    match value {
        Value::Bool(value) => is_short(value),
        Value::Id(id) => is_short(id),
        Value::Int(number) => is_short(number),
        Value::Long(number) => is_short(number),
        Value::Float(bits) => is_short(bits),
        Value::Double(bits) => is_short(bits),
        Value::Rectangle(rectangle) => is_short(rectangle),
        Value::Fraction(fraction) => is_short(fraction),
        Value::Fd(fd) => is_short(fd),
        _ => false,
    }
}

/// Whether the pod of this value of a type of fixed size has sixteen bytes.
#[inline(always)]
fn is_short<T: CanonicalFixedSizedPod>(value: &T) -> bool
    ensures { result ≡ true → IsMeasured (tree.fixed (T.fixed value.now)) LONGEST_POD_LEN }
{
    pod_len(value) == LONGEST_POD_LEN
}
