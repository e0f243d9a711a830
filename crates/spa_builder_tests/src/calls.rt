//! Lists of calls, made at once over a vector that held something.
use crate::bytes::{assert_holds, spell};
use crate::rows::{Answer, EVERY_ADD, Row, all_rows, call_of, every_add};
use spa_builder::{BuildCall, replay};
use spa_utils::Errno;
use spa_value::ValueArray;
use std::alloc::{AllocError, Global};
use std::process::Abort;

/// The calls of the row, in a vector.
fn calls_of(alloc: Global, row: Row) -> Result<Vec<BuildCall<'static>>, AllocError> {
    let mut calls = Vec::new(alloc);
    for (call, _) in row.calls {
        if calls.push(call_of(*call)).is_err() {
            return Err(AllocError);
        }
    }
    Ok(calls)
}

/// What the calls over a vector that held something are answered, and what it holds then.
fn replayed(alloc: Global, calls: &[BuildCall<'_>]) -> Result<(Vec<Answer>, Vec<u8>), AllocError> {
    let mut held = [7, 7, 7].to_vec(alloc)?;
    match replay(&mut held, calls) {
        Ok(answers) => Ok((answers, held)),
        Err(_) => Err(AllocError),
    }
}

/// Whether these are the answers of the row, up to the first call that wants memory.
fn are_answers(found: &[Answer], row: Row) -> Result<bool, AllocError> {
    for (answer, (_, wanted)) in found.iter().zip(row.calls) {
        if *answer == Err(Errno::NOMEM) {
            return Err(AllocError);
        }
        if answer != wanted {
            return Ok(false);
        }
    }
    Ok(found.len() == row.calls.len())
}

/// The row's answers come, and its words.
fn assert_row(rt: &impl Abort, alloc: Global, row: Row) -> Result<(), AllocError> {
    let calls = calls_of(alloc, row)?;
    let (answers, held) = replayed(alloc, calls.as_slice())?;
    let is_answered = are_answers(answers.as_slice(), row)?;
    assert_holds(rt, is_answered, row.case);
    assert_holds(rt, spell(held.as_slice(), row.words), row.case);
    Ok(())
}

#[test]
fn calls_are_answered(rt: HostRuntime) -> Result<(), AllocError> {
    for row in all_rows() {
        assert_row(&rt, rt.alloc(), *row)?;
    }
    Ok(())
}

/// Whether all are accepted, up to the first call that wants memory.
fn are_accepted(found: &[Answer]) -> Result<bool, AllocError> {
    for answer in found {
        match answer {
            Ok(()) => {}
            Err(Errno::NOMEM) => return Err(AllocError),
            Err(_) => return Ok(false),
        }
    }
    Ok(true)
}

/// Whether every add is accepted, and its words are built.
fn are_all_added(alloc: Global) -> Result<bool, AllocError> {
    let array = ValueArray::Int([10, 15, 19].to_vec(alloc)?);
    let (answers, held) = replayed(alloc, &every_add(&array))?;
    Ok(are_accepted(answers.as_slice())? && spell(held.as_slice(), EVERY_ADD))
}

#[test]
fn every_add_is_accepted(rt: HostRuntime) -> Result<(), AllocError> {
    let are_all_added = are_all_added(rt.alloc())?;
    assert_holds(&rt, are_all_added, "every add");
    Ok(())
}
