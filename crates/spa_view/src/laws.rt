//! Laws of views: an accepted pod passes its value's test, and its getter then gives that value. Each function does nothing: its
//! contract is the law.
ghost use Rattle.std.specs.Prelude.{◌≡◌, List, ℕ};
ghost use Rattle.spa_format.specs.Kind.{Fixed, Kind, content, kind_of};
ghost use Rattle.spa_format.specs.Pod.{IsPod};
ghost use Rattle.spa_format.specs.Tree.{Properties, Shape, Trees, array, bitmap, bytes, choice, fixed, object, pointer, string, struct};
ghost use Rattle.spa_format.specs.Words.{body_of, word_at};
ghost use Rattle.spa_view.specs.Tests as t;

/// A pod of a value of fixed size passes the test of its kind, and its content is the value.
pub fn fixed_pods_are_read()
    ensures test { (b : List ℕ) (x : Fixed) → IsPod b (fixed x) → t.IsOfKind (kind_of x) b }
    ensures value { (b : List ℕ) (x : Fixed) → IsPod b (fixed x) → content (kind_of x) (body_of b) ≡ x }
{}

/// A string's pod passes its test, and the bytes before the first NUL are its text.
pub fn strings_are_read()
    ensures test { (b s : List ℕ) → IsPod b (string s) → t.IsNulEnded b }
    ensures value { (b s : List ℕ) → IsPod b (string s) → t.before_nul (body_of b) ≡ s }
{}

/// A pod of bytes passes its test, and the body is the bytes.
pub fn bytes_are_read()
    ensures test { (b s : List ℕ) → IsPod b (bytes s) → t.IsBytesPod b }
    ensures value { (b s : List ℕ) → IsPod b (bytes s) → body_of b ≡ s }
{}

/// A bitmap's pod passes its test, and the body is its bytes.
pub fn bitmaps_are_read()
    ensures test { (b s : List ℕ) → IsPod b (bitmap s) → t.IsBitmapPod b }
    ensures value { (b s : List ℕ) → IsPod b (bitmap s) → body_of b ≡ s }
{}

/// A pointer's pod passes its test, and its body has its type and, by its size, no address but its own.
pub fn pointers_are_read()
    ensures test { (b : List ℕ) (type a : ℕ) → IsPod b (pointer type a) → t.IsPointerPod b }
    ensures type_of_target { (b : List ℕ) (type a : ℕ) → IsPod b (pointer type a) → word_at (body_of b) 0 ≡ type }
    ensures address { (b : List ℕ) (type a c : ℕ) → IsPod b (pointer type a) → t.IsAddress c b → c ≡ a }
{}

/// The pods of arrays, choices, structs and objects pass their tests, and an object's body has its type and its id.
pub fn parts_are_seen()
    ensures array { (b : List ℕ) (k : Kind) (xs : List Fixed) → IsPod b (array k xs) → t.IsArrayPod b }
    ensures choice { (b : List ℕ) (s : Shape) (f : ℕ) (k : Kind) (x : Fixed) (xs : List Fixed) →
        IsPod b (choice s f k x xs) → t.IsChoicePod b }
    ensures members { (b : List ℕ) (vs : Trees) → IsPod b (struct vs) → t.IsStructPod b }
    ensures object { (b : List ℕ) (type id : ℕ) (ps : Properties) → IsPod b (object type id ps) → t.IsObjectPod b }
    ensures object_type { (b : List ℕ) (type id : ℕ) (ps : Properties) → IsPod b (object type id ps) →
        word_at (body_of b) 0 ≡ type }
    ensures object_id { (b : List ℕ) (type id : ℕ) (ps : Properties) → IsPod b (object type id ps) →
        word_at (body_of b) 4 ≡ id }
{}
