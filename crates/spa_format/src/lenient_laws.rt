//! Laws of the lenient reading, over its definitions alone. Each function does nothing: its contract is the law.
ghost use Rattle.std.specs.Prelude.{◌≡◌, ◌≤◌, List, length, ℕ};
ghost use Rattle.spa_format.specs.Tree.{Tree};
ghost use Rattle.spa_format.specs.Pod.{IsPod};
ghost use Rattle.spa_format.specs.Encoding.{encoding_of};
ghost use Rattle.spa_format.specs.Lenient.{Conveys};
ghost use Rattle.spa_format.specs.Typed.{IsBytes, IsTyped};
ghost use Rattle.spa_format.specs.Writable.{IsWritable};

/// Bytes convey at most one value.
pub fn bytes_convey_one_value()
    ensures { (b : List ℕ) (v w : Tree) → Conveys b v → Conveys b w → v ≡ w }
{}

/// A pod conveys its value, and no other.
pub fn pods_convey_their_values()
    ensures conveyed { (b : List ℕ) (v : Tree) → IsPod b v → Conveys b v }
    ensures no_other { (b : List ℕ) (v w : Tree) → IsPod b v → Conveys b w → w ≡ v }
{}

/// A value that bytes convey has its numbers within their types and can be written. Its encoding, the lenient rewriting of the bytes, is a pod
/// of it, and is no longer than they are.
pub fn lenient_rewritings_are_pods()
    ensures typed { (b : List ℕ) (v : Tree) → IsBytes b → Conveys b v → IsTyped v }
    ensures writable { (b : List ℕ) (v : Tree) → IsBytes b → Conveys b v → IsWritable v }
    ensures pod { (b : List ℕ) (v : Tree) → IsBytes b → Conveys b v → IsPod (encoding_of v) v }
    ensures shorter { (b : List ℕ) (v : Tree) → IsBytes b → Conveys b v → length (encoding_of v) ≤ length b }
{}

/// Rewriting leniently what was rewritten leniently changes nothing, and on pods the lenient rewriting is the rewriting.
pub fn lenient_rewritings_stay()
    ensures stays { (b : List ℕ) (v w : Tree) → IsBytes b → Conveys b v → Conveys (encoding_of v) w
        → encoding_of w ≡ encoding_of v }
    ensures same { (b : List ℕ) (v w : Tree) → IsPod b v → Conveys b w → encoding_of w ≡ encoding_of v }
{}
