//! Lines of pods, and one that is begun.
ghost use Rattle.std.specs.Prelude.{◌≡◌, ◌+◌, ◌<◌, ◌^◌, ◌++◌, [], OnOk};
ghost use Rattle.spa_text_commands.specs.Lines.{Adds, head_line};

use crate::dump::add_row;
use std::alloc::{AllocError, Global};
use std::fmt::Write as _;

/// Lines, and one that is begun.
#[derive(Drop)]
pub(crate) struct Page {
    pub(crate) lines: Vec<u8>,
    pub(crate) line: String,
}

impl Page {
    /// A page without lines.
    pub(crate) fn new(alloc: Global) -> Page
        ensures { result.lines.items ≡ [] }
    {
        Page {
            lines: Vec::new(alloc),
            line: String::new(alloc),
        }
    }

    /// Adds the line before those of a pod, to which these steps lead from the top-level one that so many stand before, and which begins at this byte.
    pub(crate) fn add_head(
        &mut self,
        count: usize,
        place: usize,
        path: &str,
    ) -> Result<(), AllocError>
        requires { count + 1 < 2 ^ 64 }
        ensures { OnOk result (self.new.lines.items ≡ self.old.lines.items ++ head_line count place path.now) }
    {
        self.line.clear();
        writeln!(self.line, "pod {}{path}, byte {place}", count + 1)?;
        self.lines.extend_from_slice(self.line.as_bytes())?;
        self.line.clear();
        Ok(())
    }

    /// Ends the line that is begun, where there was memory to begin it.
    pub(crate) fn end_line(&mut self, begun: Result<(), AllocError>) -> Result<(), AllocError>
        ensures { OnOk result (Adds self.old.lines.items self.new.lines.items) }
    {
        begun?;
        self.line.push_str("\n")?;
        self.lines.extend_from_slice(self.line.as_bytes())?;
        self.line.clear();
        Ok(())
    }

    /// Ends the line that is begun, where there was memory to begin it, with a row of these bytes, the first of which stands at this byte.
    pub(crate) fn end_row(
        &mut self,
        begun: Result<(), AllocError>,
        place: usize,
        row: &[u8],
    ) -> Result<(), AllocError>
        ensures { OnOk result (Adds self.old.lines.items self.new.lines.items) }
    {
        begun?;
        self.lines.extend_from_slice(self.line.as_bytes())?;
        self.line.clear();
        add_row(&mut self.lines, place, row)
    }
}
