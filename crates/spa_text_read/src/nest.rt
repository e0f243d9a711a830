//! The values with others in them that are begun, each within the next one.
ghost use Rattle.std.specs.Prelude.{◌≡◌, ◌≢◌, ◌<◌, ◌≤◌, [], ◌∷◌, IfErr, IfOk, OnOk, length, true, Some};
ghost use Rattle.json.specs.Reads.{token_of};
ghost use Rattle.spa_text_read.specs.Begun.{Begins, EndsWithin, Steps, stack_of};
ghost use Rattle.spa_text_read.specs.Grammar.{opens};
ghost use Rattle.spa_text_read.specs.Seen.{frame_of};
ghost use Rattle.spa_text_read.specs.Steps as steps;
ghost use Rattle.spa_value.specs.View.{view};

use crate::cause::Cause;
use crate::inside::{Inside, Next, Opened};
use crate::opening::open;
use crate::scalars::plain_number;
use json::{Reader, Token};
use spa_names::Expected;
use spa_value::{Value, discard};
use std::alloc::Global;
use std::mem;

/// Values that are begun, each within the next one.
#[derive(Drop)]
pub(crate) struct Nest {
    /// The innermost.
    pub(crate) inner: Inside,
    /// Those around it, the outermost first.
    pub(crate) outer: Vec<Inside>,
}

impl Nest {
    /// Reads on to the next value, or to the end of the innermost, which is put into the one around it. Whether something is left to
    /// read: where not, the innermost is the outermost, and is read.
    #[tactic(auto, using(crate::proofs::Nesting::step_not_next))]
    pub(crate) fn step(&mut self, alloc: Global, reader: &mut Reader<'_>) -> Result<bool, Cause>
        ensures taken { IfOk result (λ goes_on. Steps goes_on self.old reader.old self.new reader.new) }
        ensures refused { IfErr result
            (λ e. e ≢ Cause.OutOfMemory →
            steps.step (frame_of self.old.inner) (stack_of self.old.outer.items) reader.old
            ≡ steps.refused) }
        ensures fewer { OnOk result (length reader.new < length reader.old) }
    {
        match self.inner.next(reader) {
            Ok(Next::Ended) => self.end(reader),
            Ok(Next::Wants(head, expected)) => self.begin_value(alloc, reader, head, expected),
            Err(cause) => Err(cause),
        }
    }

    /// Reads the value that begins with this token, or goes into it. Something is left to read.
    fn begin_value(
        &mut self,
        alloc: Global,
        reader: &mut Reader<'_>,
        head: Token<'_>,
        expected: Expected,
    ) -> Result<bool, Cause>
        ensures taken { IfOk result
            (λ goes_on. Begins goes_on self.old expected (token_of head.entry) reader.old
            self.new reader.new) }
        ensures refused { IfErr result
            (λ e. e ≢ Cause.OutOfMemory →
            steps.after_opening (frame_of self.old.inner ∷ stack_of self.old.outer.items)
            (opens expected (token_of head.entry) reader.old) ≡ steps.refused) }
        ensures no_more { length reader.new ≤ length reader.old }
    {
        if let Some(number) = plain_number(head, expected) {
            self.inner.put_number(number, reader)?;
            return Ok(true);
        }
        match open(alloc, reader, head, expected) {
            Ok(Opened::Leaf(value)) => self.inner.put(value, reader)?,
            Ok(Opened::Begun(begun)) => self.push(begun)?,
            Err(cause) => return Err(cause),
        }
        Ok(true)
    }

    /// Goes into the one that is begun.
    fn push(&mut self, begun: Inside) -> Result<(), Cause>
        ensures inner { OnOk result (self.new.inner ≡ begun) }
        ensures outer { OnOk result
            (stack_of self.new.outer.items
            ≡ frame_of self.old.inner ∷ stack_of self.old.outer.items) }
        ensures memory { IfErr result (λ e. e ≡ Cause.OutOfMemory) }
    {
        let Ok(()) = self.outer.reserve(1) else {
            begun.give_up();
            return Err(Cause::OutOfMemory);
        };
        let last = mem::replace(&mut self.inner, begun);
        self.outer.push_reserved(last);
        Ok(())
    }

    /// Puts the innermost, which is read, into the one around it. Whether there is one.
    fn end(&mut self, reader: &mut Reader<'_>) -> Result<bool, Cause>
        ensures ended { IfOk result (λ within. EndsWithin within self.old reader.old self.new reader.new) }
        ensures refused { IfErr result
            (λ e. e ≢ Cause.OutOfMemory →
            steps.give_ended (steps.value_of (frame_of self.old.inner))
            (stack_of self.old.outer.items) reader.old ≡ steps.refused) }
        ensures no_more { length reader.new ≤ length reader.old }
    {
        let Some(around) = self.outer.pop() else {
            return Ok(false);
        };
        let ended = mem::replace(&mut self.inner, around);
        match ended.into_value() {
            Ok(value) => match self.inner.put(value, reader) {
                Ok(()) => Ok(true),
                Err(cause) => Err(cause),
            },
            Err(cause) => Err(cause),
        }
    }

    /// Drops what was read, by loops, since it may be nested deep.
    pub(crate) fn give_up(self) {
        let Nest { inner, outer } = self;
        for around in outer {
            around.give_up();
        }
        inner.give_up();
    }
}
