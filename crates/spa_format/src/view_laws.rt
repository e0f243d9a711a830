//! Laws of walks over whole pods and of fixation, over their definitions alone. Each function does nothing: its
//! contract is the law.
ghost use Rattle.std.specs.Prelude.{◌≡◌, ◌≤◌, ◌<◌, ◌+◌, ◌*◌, ◌⊎◌, ◌∷◌, [], List, length, slice_index, ℕ};
ghost use Rattle.spa_format.specs.Fixation.{IsFixatedPlace, all_settled, are_settled, default_properties, fixated_bytes};
ghost use Rattle.spa_format.specs.Fixation.{fixated_properties};
ghost use Rattle.spa_format.specs.Front.{Begins, HasFront, front_of, rest_of};
ghost use Rattle.spa_format.specs.Pod.{AreMembers, AreProperties, IsPod};
ghost use Rattle.spa_format.specs.Tree.{Properties, Trees, none_choice, object, shape_number, struct};
ghost use Rattle.spa_format.specs.Walk.{ArePodsOf, ArePropertiesOf, HasObject, HasProperty, behind_property, properties_of};
ghost use Rattle.spa_format.specs.Walk.{property_of, property_walk, walk};
ghost use Rattle.spa_format.specs.Words.{body_of, header_size, word_at};

/// A walk over pods is the front, where it is there, and then the walk over the rest; where the front isn't there it is empty.
pub fn walks_follow_fronts()
    ensures there { (b : List ℕ) → HasFront b → walk b ≡ front_of b ∷ walk (rest_of b) }
    ensures end { (b : List ℕ) → ¬ (HasFront b) → walk b ≡ [] }
{}

/// A walk over properties is the first property, where it is there, and then the walk over what follows it; where it isn't there it is empty.
pub fn walks_follow_properties()
    ensures there { (b : List ℕ) → HasProperty b →
        property_walk b ≡ property_of b ∷ property_walk (behind_property b) }
    ensures end { (b : List ℕ) → ¬ (HasProperty b) → property_walk b ≡ [] }
{}

/// Both walks end on any bytes, since each pod takes at least the 8 bytes of a header.
pub fn walks_are_short()
    ensures pods { (b : List ℕ) → length (walk b) * header_size ≤ length b }
    ensures properties { (b : List ℕ) → length (property_walk b) * header_size ≤ length b }
{}

/// The walk over the body of an accepted struct or object gives its members or properties in order.
pub fn walks_find_members()
    ensures members { (vs : Trees) (b : List ℕ) → AreMembers vs b → ArePodsOf vs (walk b) }
    ensures properties { (ps : Properties) (b : List ℕ) → AreProperties ps b →
        ArePropertiesOf ps (property_walk b) }
    ensures of_struct { (vs : Trees) (b : List ℕ) → IsPod b (struct vs) → ArePodsOf vs (walk (body_of b)) }
    ensures of_object { (t i : ℕ) (ps : Properties) (b : List ℕ) → IsPod b (object t i ps) →
        ArePropertiesOf ps (property_walk (properties_of b)) }
{}

/// Fixating the bytes of an accepted object gives a pod of the fixated value.
pub fn fixation_is_of_the_value()
    ensures properties { (ps : Properties) (b : List ℕ) → AreProperties ps b →
        AreProperties (default_properties ps) (fixated_properties b) }
    ensures object { (t i : ℕ) (ps : Properties) (b : List ℕ) → Begins b (object t i ps) →
        Begins (fixated_bytes b) (object t i (default_properties ps)) }
{}

/// Fixating the object at the front of any bytes sets to 0, the number of None, the shape word of each choice that is the value of a property
/// without DONT_FIXATE. It changes no other byte and no length.
pub fn fixation_changes_shape_words()
    ensures length { (b : List ℕ) → HasObject b → length (fixated_bytes b) ≡ length b }
    ensures shape_words { (b : List ℕ) (i : ℕ) → HasObject b → IsFixatedPlace b i →
        word_at (fixated_bytes b) i ≡ shape_number none_choice }
    ensures others { (b : List ℕ) (i : ℕ) → HasObject b →
        ((k : ℕ) → IsFixatedPlace b k → (i < k) ⊎ (k + 4 ≤ i)) → slice_index (fixated_bytes b) i ≡ slice_index b i }
    ensures rest { (b : List ℕ) → HasObject b → rest_of (fixated_bytes b) ≡ rest_of b }
{}

/// The properties of an accepted object need no fixation exactly where none of their values is a choice of a shape other than None.
pub fn settled_properties_are_settled()
    ensures { (ps : Properties) (bs : List (List ℕ)) → ArePropertiesOf ps bs → all_settled bs ≡ are_settled ps }
{}
