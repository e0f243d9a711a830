//! Laws of building, over the definitions alone. Each function does nothing: its contract is the law.
ghost use Rattle.std.specs.Prelude.{◌≡◌, ◌<◌, ◌^◌, ◌∷◌, [], ℕ, List, IfErr, OnOk, Result, Some, length};
ghost use Rattle.spa_format.specs.Tree.{Properties, Tree, object, property_node_count};
ghost use Rattle.spa_format.specs.Writable.{IsWritable};
ghost use Rattle.spa_builder.specs.State.{State, start};
ghost use Rattle.spa_builder.specs.Step.{Accepts, Call, add, pop, step};
ghost use Rattle.spa_builder.specs.Fields.{BuilderFields, IsAt};
ghost use Rattle.spa_builder.specs.Answers.{MakesStep};
ghost use Rattle.spa_builder.specs.Replay.{state_after_calls, state_from};
ghost use Rattle.spa_builder.specs.Making.{AreFixed, ComesTo, GoesOn, state_of_value, calls_for};
ghost use Rattle.spa_utils.specs.declared.errno.Errno.{Errno};
ghost use Rattle.spa_utils.specs.declared.frame.Frame.{Frame};
ghost use Rattle.spa_utils.specs.declared.errno.TheConstants.Errno.{NOMEM};

/// Building a value call by call gives the state that adding it as one value gives: each call is accepted where that would be.
pub fn values_are_made_call_by_call()
    ensures made { (s t : State) (v : Tree) → step s (add v) ≡ Accepts t
        → state_from s (calls_for (length s.opened) v) ≡ Some t }
    ensures begins { (v : Tree) (b : BuilderFields) → IsWritable v → IsAt b start
        → ComesTo 0 (state_of_value v) (calls_for 0 v) b }
    ensures built { (v : Tree) → IsWritable v → state_after_calls (calls_for 0 v) ≡ Some (state_of_value v) }
{}

/// A builder that these calls bring to a state is brought there by the calls behind the first, once that is answered `Ok`; it refuses the
/// first only for want of memory. The last call brings it to the state.
pub fn calls_go_on()
    ensures answered { (n : ℕ) (t : State) (c : Call) (cs : List Call) (old new : BuilderFields)
        (r : Result (Unit {0}) Errno) → ComesTo n t (c ∷ cs) old
        → MakesStep c old new r
        → GoesOn n t c cs old new r }
    ensures begun { (n : ℕ) (t : State) (c : Call) (cs : List Call) (old new : BuilderFields) (r : Result Frame Errno)
        → ComesTo n t (c ∷ cs) old → MakesStep c old new r
        → GoesOn n t c cs old new r }
    ensures last { (n : ℕ) (t : State) (c : Call) (old new : BuilderFields) (r : Result (Unit {0}) Errno)
        → ComesTo n t (c ∷ []) old → MakesStep c old new r → OnOk r (IsAt new t)
        × IfErr r (λ e. e ≡ NOMEM) }
    // A pod is closed by the frame that opening it answered.
    ensures frame { (n m frame : ℕ) (t : State) (cs : List Call) (b : BuilderFields) → frame ≡ m
        → ComesTo n t (pop m ∷ cs) b → ComesTo n t (pop frame ∷ cs) b }
{}

/// An object of fewer than 134,217,728 properties, whose values are of fixed size, can be written.
pub fn objects_of_numbers_can_be_written()
    ensures { (t i : ℕ) (ps : Properties) → AreFixed ps → property_node_count ps < 2 ^ 27 → IsWritable (object t i ps) }
{}
