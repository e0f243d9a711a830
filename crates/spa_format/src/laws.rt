//! Laws of the format, over its definitions alone. Each function does nothing: its contract is the law.
ghost use Rattle.std.specs.Prelude.{◌≡◌, ◌≢◌, ◌≤◌, ◌↔◌, ◌++◌, [], List, length, ℕ};
ghost use Rattle.spa_format.specs.Tree.{Tree, Trees};
ghost use Rattle.spa_format.specs.Pod.{AreMembers, IsPod};
ghost use Rattle.spa_format.specs.Before.{HasBitmap, WasPod};
ghost use Rattle.spa_format.specs.Encoding.{encoding_of};
ghost use Rattle.spa_format.specs.Normal.{normal_of};
ghost use Rattle.spa_format.specs.Faults.{Fault, Stands};
ghost use Rattle.spa_format.specs.Front.{Begins, IsRefused, front_of};
ghost use Rattle.spa_format.specs.Typed.{IsBytes, IsTyped};
ghost use Rattle.spa_format.specs.Words.{extent, word_at};
ghost use Rattle.spa_format.specs.Writable.{IsWritable};

/// Bytes are a pod of at most one value.
pub fn pods_have_one_value()
    ensures { (b : List ℕ) (v w : Tree) → IsPod b v → IsPod b w → v ≡ w }
{}

/// A pod takes as many bytes as its size word says: a header and the body, padded to a multiple of 8.
pub fn sizes_fix_extents()
    ensures { (b : List ℕ) (v : Tree) → IsPod b v → length b ≡ extent (word_at b 0) }
{}

/// No pod is a proper front of another.
pub fn no_pod_begins_another()
    ensures { (b r : List ℕ) (v w : Tree) → IsPod b v → IsPod (b ++ r) w → r ≡ [] }
{}

/// The encoding of a value that can be written reads back as the value's normal form, whatever follows it.
pub fn encodings_read_back()
    ensures there { (v : Tree) (r : List ℕ) → IsTyped v → IsWritable v → front_of (encoding_of v ++ r) ≡ encoding_of v }
    ensures value { (v : Tree) (r : List ℕ) → IsTyped v → IsWritable v → Begins (encoding_of v ++ r) (normal_of v) }
{}

/// A normal form is its own normal form.
pub fn normal_forms_stay()
    ensures { (v : Tree) → normal_of (normal_of v) ≡ normal_of v }
{}

/// The value of a pod is a normal form, its numbers are within their types, and it can be written.
pub fn readings_are_normal()
    ensures normal { (b : List ℕ) (v : Tree) → IsPod b v → normal_of v ≡ v }
    ensures typed { (b : List ℕ) (v : Tree) → IsBytes b → IsPod b v → IsTyped v }
    ensures writable { (b : List ℕ) (v : Tree) → IsBytes b → IsPod b v → IsWritable v }
{}

/// The encoding of a pod's value is a pod of the same value. So it is canonical: the encoding of what it says.
pub fn rewritings_are_pods()
    ensures { (b : List ℕ) (v : Tree) → IsBytes b → IsPod b v → IsPod (encoding_of v) v }
{}

/// No pod of a value is shorter than the value's encoding.
pub fn encodings_are_shortest()
    ensures { (b : List ℕ) (v : Tree) → IsPod b v → length (encoding_of v) ≤ length b }
{}

/// Two pods are rewritten to the same bytes exactly where they are pods of one value.
pub fn same_rewriting_same_value()
    ensures { (b c : List ℕ) (v w : Tree) → IsBytes b → IsBytes c → IsPod b v → IsPod c w
        → (encoding_of v ≡ encoding_of w) ↔ (v ≡ w) }
{}

/// Where a fault stands in an input, it is refused: its front isn't there, or is a pod of no value.
pub fn faults_refuse()
    ensures { (k : Fault) (place b : List ℕ) → Stands k place b → IsRefused b }
{}

/// Bytes aren't pods one after another where what is left of them behind their first members is refused.
pub fn refused_members_refuse()
    ensures { (vs ws : Trees) (first left : List ℕ) → AreMembers vs first → left ≢ [] → IsRefused left
        → ¬ (AreMembers ws (first ++ left)) }
{}

/// A pod of the version before, which had no bitmaps, is a pod of the same value and of no other, so it is rewritten to the same bytes.
/// The pods of that version are exactly the pods of values in which there is no bitmap.
pub fn pods_of_before_stay()
    ensures same { (b : List ℕ) (v : Tree) → WasPod b v → IsPod b v }
    ensures one { (b : List ℕ) (v w : Tree) → WasPod b v → IsPod b w → w ≡ v }
    ensures rewriting { (b : List ℕ) (v w : Tree) → WasPod b v → IsPod b w → encoding_of w ≡ encoding_of v }
    ensures exactly { (b : List ℕ) (v : Tree) → WasPod b v ↔ (IsPod b v × ¬ (HasBitmap v)) }
{}
