//! Laws of parsers over accepted pods. Each function does nothing: its contract is the law.
ghost use Rattle.std.specs.Prelude.{◌≡◌, None};
ghost use Rattle.spa_format.specs.Tree.{Tree, Trees, member, no_trees};
ghost use Rattle.spa_parser.specs.State.{ParserState, state_behind, next_pod};
ghost use Rattle.spa_parser.specs.Steps.{HoldsMembers, NextIs};

/// Members come in order: where some are left, the first is the next pod, and the others are left behind it; where none
/// is left, there is no next pod.
pub fn members_come_in_order()
    ensures first { (s : ParserState) (v : Tree) (vs : Trees) → HoldsMembers (member v vs) s → NextIs v s }
    ensures others { (s : ParserState) (v : Tree) (vs : Trees) → HoldsMembers (member v vs) s
        → HoldsMembers vs (state_behind s) }
    ensures end { (s : ParserState) → HoldsMembers no_trees s → next_pod s ≡ None }
{}
