//! Pushes that want memory. `rt try --test --fail-alloc N` refuses the Nth request: the push that makes it answers NOMEM and
//! changes nothing, and made again it is accepted. Nothing here but the parser asks for memory.
use crate::compare::assert_holds;
use spa_parser::Parser;
use spa_utils::Errno;
use std::alloc::Global;

/// Structs inside one another, the innermost of which is empty.
const DEPTH: usize = 6;

/// Their bytes: six headers, each with the size of what follows it.
const NESTED: &[u8] = &[
    40, 0, 0, 0, 14, 0, 0, 0, 32, 0, 0, 0, 14, 0, 0, 0, 24, 0, 0, 0, 14, 0, 0, 0, 16, 0, 0, 0, 14,
    0, 0, 0, 8, 0, 0, 0, 14, 0, 0, 0, 0, 0, 0, 0, 14, 0, 0, 0,
];

/// Opens the next struct, at the second call where the first one wants memory, and answers its frame.
fn opened(parser: &mut Parser<'_>) -> Option<usize> {
    match parser.push_struct() {
        Ok(frame) => Some(frame.0),
        Err(Errno::NOMEM) => Some(parser.push_struct().ok()?.0),
        Err(_) => None,
    }
}

/// Whether all of them are opened, each in its turn, and the innermost has no member.
fn are_opened(alloc: Global) -> bool {
    let mut parser = Parser::new(alloc, NESTED);
    for depth in 0..DEPTH {
        if opened(&mut parser) != Some(depth + 1) {
            return false;
        }
    }
    matches!(parser.get_pod(), Err(Errno::PIPE))
}

#[test]
fn a_push_is_made_again(rt: HostRuntime) {
    assert_holds(&rt, are_opened(rt.alloc()), "structs inside one another");
}
