//! The law of reading, as the contract of a function.
ghost use Rattle.spa_text_read.specs.Laws.{ReadsOneValue};

/// Tokens that are read with the same expected type are read as the same value, and leave the same tokens behind it.
pub fn reads_one_value()
    ensures { ReadsOneValue }
{}
