//! Laws of negotiation, over the definitions. Each contract is the law.
ghost use Rattle.std.specs.Prelude.{◌≡◌, ℕ, List, IsTrue, true};
ghost use Rattle.spa_format.specs.Fixation.{all_settled, are_settled};
ghost use Rattle.spa_format.specs.Normal.{normal_of};
ghost use Rattle.spa_format.specs.Tree.{Properties, Tree, object};
ghost use Rattle.spa_format.specs.Walk.{properties_of, property_walk};
ghost use Rattle.spa_format.specs.Writable.{HasNul};
ghost use Rattle.spa_object_view.specs.Fronts.{BeginBoth};
ghost use Rattle.spa_negotiate.specs.Meeting.{CanMeet, Meet};
ghost use Rattle.spa_negotiate.specs.declared.error.NegotiateError.{NegotiateError};
ghost use Rattle.spa_negotiate.specs.Fronts.{AreFrontsRefused, MeetIn, OnNoMeeting};

use spa_format::laws::pods_have_one_value;
use spa_format::view_laws::{settled_properties_are_settled, walks_find_members};

/// The object in which two meet has a text with NUL only where one of the two has, is a normal form where both are, and needs no fixation.
pub fn meetings_are_plain()
    ensures no_nul { (v w x : Tree) → ¬ (HasNul v) → ¬ (HasNul w) → Meet v w x → ¬ (HasNul x) }
    ensures normal { (v w x : Tree) → normal_of v ≡ v → normal_of w ≡ w → Meet v w x → normal_of x ≡ x }
    ensures settled { (v w : Tree) (t i : ℕ) (ps : Properties) → Meet v w (object t i ps) → are_settled ps ≡ true }
{}

/// Two inputs that are refused for a cause other than memory or the size of the answer don't begin with objects that can meet.
pub fn refused_fronts_cannot_meet()
    ensures { (a b : List ℕ) (e : NegotiateError) → AreFrontsRefused a b e → OnNoMeeting (¬ (BeginBoth a b CanMeet)) e }
{
    pods_have_one_value();
}

/// The encoding of the object in which the objects at two fronts meet needs no fixation.
pub fn meetings_need_no_fixation()
    ensures { (a b bytes : List ℕ) → BeginBoth a b (MeetIn bytes)
        → IsTrue (all_settled (property_walk (properties_of bytes))) }
{
    walks_find_members();
    settled_properties_are_settled();
    meetings_are_plain();
}
