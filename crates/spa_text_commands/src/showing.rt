//! Pods printed one after another, refused ones too.
ghost use Rattle.std.specs.Prelude.{◌≡◌, ◌+◌, ◌<◌, ◌^◌, IfErr, IfOk, length};
ghost use Rattle.spa_text_commands.specs.Answers.{IsNotShown, ShowsAll};
ghost use Rattle.spa_text_commands.specs.Dump.{hex_lines};
ghost use Rattle.spa_text_commands.specs.Lines.{Lists};

use crate::answer::Failure;
use crate::dump::add_rows;
use crate::listing::add_selected;
use crate::page::Page;
use crate::selection::Printout;
use spa_view::split_first;
use std::alloc::{AllocError, Global};

/// What is printed of some pods.
#[derive(Drop)]
pub struct Printed {
    pub bytes: Vec<u8>,
    /// How many of the pods that are printed are refused.
    pub refused: usize,
}

/// What is printed of pods that stand one after another, refused ones too, behind so many pods and bytes of an input. Only what isn't whole pods is
/// refused.
pub fn show_pods(
    alloc: Global,
    printout: Printout<'_>,
    count: usize,
    place: usize,
    bytes: &[u8],
) -> Result<Printed, Failure>
    requires count { count + length bytes.now < 2 ^ 64 }
    requires place { place + length bytes.now < 2 ^ 64 }
    ensures shown { IfOk result (ShowsAll printout.entry count place bytes.now) }
    ensures cause { IfErr result (IsNotShown bytes.now) }
{
    let mut page = Page::new(alloc);
    let listed = list_all(alloc, printout, count, place, bytes, &mut page)?;
    if listed.left > 0 {
        return Err(Failure::NoPods);
    }
    Ok(Printed {
        bytes: page.lines,
        refused: listed.refused,
    })
}

/// Lines of these bytes in hex, the first of which stands at this byte of the input.
pub fn hex_rows(alloc: Global, place: usize, bytes: &[u8]) -> Result<Vec<u8>, AllocError>
    requires { place + length bytes.now < 2 ^ 64 }
    ensures { IfOk result (λ rows. rows.items ≡ hex_lines place bytes.now) }
{
    let mut rows = Vec::new(alloc);
    add_rows(&mut rows, place, bytes)?;
    Ok(rows)
}

/// What was listed of some bytes.
#[derive(Clone, Copy)]
pub(crate) struct Listed {
    /// How many bytes follow the whole pods.
    pub(crate) left: usize,
    /// How many of the printed pods are refused.
    pub(crate) refused: usize,
}

/// Lists the pods that the bytes begin with, behind so many pods and bytes of an input.
fn list_all(
    alloc: Global,
    printout: Printout<'_>,
    count: usize,
    place: usize,
    bytes: &[u8],
    page: &mut Page,
) -> Result<Listed, AllocError>
    requires count { count + length bytes.now < 2 ^ 64 }
    requires place { place + length bytes.now < 2 ^ 64 }
    ensures { IfOk result (Lists printout.entry count place bytes.now page.old.lines.items page.new.lines.items) }
{
    let mut left = bytes;
    let mut before = count;
    let mut refused: usize = 0;
    while let Some((pod, behind)) = split_first(left) {
        let at = place + (bytes.len() - left.len());
        refused += add_selected(alloc, page, printout, pod, before, at)?;
        before += 1;
        left = behind;
    }
    Ok(Listed {
        left: left.len(),
        refused,
    })
}
