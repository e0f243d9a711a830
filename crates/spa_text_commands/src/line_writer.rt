//! Lines of values, each behind what stands before it.
ghost use Rattle.std.specs.Prelude.{◌≡◌, [], IfErr, OnOk};
ghost use Rattle.spa_text_commands.specs.Unread.{AddsLine};
ghost use Rattle.spa_text_commands.specs.declared.answer.Failure as Failure;
ghost use Rattle.spa_value.specs.View.{view};

use crate::answer::Failure;
use spa_text::TextPrinter;
use spa_value::Value;
use std::alloc::Global;

/// Lines that are written one behind another.
#[derive(Drop)]
pub(crate) struct LineWriter {
    pub(crate) alloc: Global,
    printer: TextPrinter,
    /// What is written.
    pub(crate) lines: Vec<u8>,
}

impl LineWriter {
    /// One that has written nothing.
    pub(crate) fn new(alloc: Global) -> LineWriter
        ensures { result.lines.items ≡ [] }
    {
        LineWriter {
            alloc,
            printer: TextPrinter::new(alloc),
            lines: Vec::new(alloc),
        }
    }

    /// Adds the text of a value on a line of its own, behind this head.
    pub(crate) fn add(&mut self, head: &str, value: &Value) -> Result<(), Failure>
        ensures added { OnOk result (AddsLine head.now (view value.now) self.old.lines.items self.new.lines.items) }
        ensures cause { IfErr result (λ why. why ≡ Failure.OutOfMemory) }
    {
        self.lines.extend_from_slice(head.as_bytes())?;
        self.printer.print(value, &mut self.lines)?;
        self.lines.extend_from_slice(b"\n")?;
        Ok(())
    }
}
