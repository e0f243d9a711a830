//! Laws of the events of an input, over the definitions alone. Each function does nothing: its contract is the law.
ghost use Rattle.std.specs.Prelude.{◌≡◌, ◌≤◌, ◌*◌, List, length, ℕ};
ghost use Rattle.spa_format.specs.Words.{extent, header_size, word_at};
ghost use Rattle.spa_events.specs.Events.{events_of, events_within};

/// An input has no more pods in it than headers have room in it.
pub fn events_are_few()
    ensures { (input : List ℕ) → length (events_of input) * header_size ≤ length input }
{}

/// No list ends at the bound on levels: any two numbers of levels that aren't less than the pod's length give the same events.
pub fn levels_are_enough()
    ensures { (n m depth parent index at : ℕ) (pod : List ℕ) →
        length pod ≡ extent (word_at pod 0) → length pod ≤ n → length pod ≤ m →
        events_within n depth parent index at pod ≡ events_within m depth parent index at pod }
{}
