//! Laws of values that are written and read back, of refusals, of arrays that are read element by element, and of borrowed readers. Each
//! function does nothing: its contract is the law.
ghost use Rattle.std.specs.Prelude.{◌≡◌, ◌<◌, ◌≤◌, ◌++◌, [], List, drop, length, ℕ};
ghost use Rattle.spa_fixed_sized.specs.declared.fault.DeserializeError.TheVariants as error;
ghost use Rattle.spa_format.specs.Encoding.{encoding_of};
ghost use Rattle.spa_format.specs.Normal.{normal_of};
ghost use Rattle.spa_format.specs.Front.{Begins, rest_of};
ghost use Rattle.spa_format.specs.Pod.{AreMembers, AreProperties};
ghost use Rattle.spa_format.specs.Tree.{Properties, Tree, Trees, fixed, member, object, property};
ghost use Rattle.spa_format.specs.Typed.{IsTyped};
ghost use Rattle.spa_format.specs.Words.{body_of, header_size, word_at};
ghost use Rattle.spa_format.specs.Writable.{IsWritable};
ghost use Rattle.spa_canonical.specs.Depth.{levels_looked_into, property_depth};
ghost use Rattle.spa_typed_read.specs.Asking.{ReadRefusal};
ghost use Rattle.spa_typed_read.specs.Exactly.{RefusesExactly};
ghost use Rattle.spa_typed_read.specs.Lookup.{TakesIn};
ghost use Rattle.spa_typed_read.specs.Members.{ArrayReader, ElementsAreTheArrays, EncodingBegins, Further, FurtherIn, ListsComeBack, ObjectReader, OpensArray, Reader, TakesElements, list_tree, single_tree};
ghost use Rattle.spa_bodies.specs.Reading.{IsRead};

use crate::exact::ExactDeserialize;
use crate::object_content::DeserializeProperties;
use spa_fixed_sized::{CanonicalFixedSizedPod, FixedSizedPod};

/// The elements that an array's reader gives, up to where no element is left, are all elements of the array, in order.
pub fn elements_are_the_arrays<E: FixedSizedPod>()
    ensures { ElementsAreTheArrays E.CanonicalType.kind E.CanonicalType.fixed E.of_canonical }
{}

/// A list that is written as an array is read back element by element as that list, where `of_canonical` of its type undoes `to_canonical`.
/// Of units, which have no bytes, no element is read back.
pub fn lists_come_back<E: FixedSizedPod>()
    // From a pod of that array,
    ensures pod { ListsComeBack E.CanonicalType.kind E.CanonicalType.fixed E.to_canonical E.of_canonical }
    // such as its encoding,
    ensures encoding { (rest : List ℕ) (xs : List E) → 0 < E.CanonicalType.SIZE
        → EncodingBegins rest (list_tree E.CanonicalType.kind E.CanonicalType.fixed E.to_canonical xs) }
    // but not of units.
    ensures units { (input : List ℕ) (ys : List E) (first last : ArrayReader) → E.CanonicalType.SIZE ≡ 0
        → OpensArray E.CanonicalType.kind input first
        → TakesElements E.CanonicalType.kind E.CanonicalType.fixed E.of_canonical first ys last → ys ≡ [] }
{}

/// A value is read back as itself from a pod of its canonical value, where `of_canonical` of its type undoes `to_canonical`.
pub fn values_come_back<E: FixedSizedPod>()
    // From a pod of its canonical value,
    ensures pod { (input rest : List ℕ) (x : E) (c : E.CanonicalType) → E.of_canonical (E.to_canonical x) ≡ x
        → Begins input (single_tree E.CanonicalType.fixed E.to_canonical x)
        → IsRead input rest (λ v. v ≡ fixed (E.CanonicalType.fixed c)) → E.of_canonical c ≡ x }
    // such as its encoding.
    ensures encoding { (rest : List ℕ) (x : E) → IsTyped (single_tree E.CanonicalType.fixed E.to_canonical x)
        → Begins (encoding_of (single_tree E.CanonicalType.fixed E.to_canonical x) ++ rest)
        (single_tree E.CanonicalType.fixed E.to_canonical x) }
{}

/// A value of an exact type is read back from its encoding, whatever bytes follow that.
pub fn exact_types_come_back<'de, P: ExactDeserialize<'de>>()
    // A refusal, unless for want of memory, says that the input begins with no value that is read so.
    ensures exactly { (b : List ℕ) (e : ReadRefusal) → P.refuses b e
        → RefusesExactly P.reads (P.takes_memory b) b e }
    // The encoding of a value is read as its normal form, and the bytes that follow are left.
    ensures read { (v : Tree) (rest left : List ℕ) (x : P) → IsTyped v → IsWritable v
        → IsRead (encoding_of v ++ rest) left (λ w. P.reads w x) → P.reads (normal_of v) x × (left ≡ rest) }
    // Where the normal form is read as a value of the type, only memory can be wanting, and only where such a read takes memory.
    ensures refused { (v : Tree) (rest : List ℕ) (x : P) (e : ReadRefusal) → IsTyped v
        → IsWritable v → P.reads (normal_of v) x → P.refuses (encoding_of v ++ rest) e → (e ≡ error.OutOfMemory)
        × P.takes_memory (encoding_of v ++ rest) }
{}

/// The read of an accepted object whose properties' values have a nesting depth of at most 1000 takes memory only for the properties asked for.
pub fn passing_takes_no_memory<'de, P: DeserializeProperties<'de>>()
    ensures { (b : List ℕ) (type id : ℕ) (ps : Properties) → Begins b (object type id ps)
        → property_depth ps ≤ levels_looked_into → TakesIn P.takes_memory b
        → P.takes_memory (drop header_size (body_of b)) }
{}

/// Each call of a borrowed reader takes it further.
pub fn readers_go_further()
    ensures no_member { (r : Reader) → Further r r }
    ensures members { (a b c : Reader) → Further a b → Further b c → Further a c }
    ensures no_property { (r : ObjectReader) → FurtherIn r r }
    ensures properties { (a b c : ObjectReader) → FurtherIn a b → FurtherIn b c → FurtherIn a c }
{}

/// Members are the pod of the first and, behind it, those of the others. Properties have a key and flags before each pod.
pub fn members_are_fronts()
    ensures parts { (b : List ℕ) (v : Tree) (vs : Trees) → AreMembers (member v vs) b → Begins b v
        × AreMembers vs (rest_of b) }
    ensures whole { (b : List ℕ) (v : Tree) (vs : Trees) → Begins b v → AreMembers vs (rest_of b)
        → AreMembers (member v vs) b }
    ensures property_parts { (b : List ℕ) (k f : ℕ) (v : Tree) (ps : Properties) → AreProperties (property k f v ps) b
        → (header_size ≤ length b) × (k ≡ word_at b 0) × (f ≡ word_at b 4) × Begins (drop header_size b) v
        × AreProperties ps (rest_of (drop header_size b)) }
    ensures property_whole { (b : List ℕ) (k f : ℕ) (v : Tree) (ps : Properties) → header_size ≤ length b
        → k ≡ word_at b 0 → f ≡ word_at b 4 → Begins (drop header_size b) v
        → AreProperties ps (rest_of (drop header_size b)) → AreProperties (property k f v ps) b }
{}
