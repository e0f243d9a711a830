//! What is shown of a last pod of which not all is there.
ghost use Rattle.std.specs.Prelude.{◌≡◌, ◌+◌, ◌≤◌, ◌<◌, ◌^◌, ◌∷◌, ◌++◌, [], ℕ, IfOk, IfSome, length};
ghost use Rattle.spa_format.specs.Front.{HasFront};
ghost use Rattle.spa_format.specs.Walk.{walk};
ghost use Rattle.spa_format.specs.Words.{header_size};
ghost use Rattle.pod_commands.specs.Cut as spec;
ghost use Rattle.pod_commands.specs.Cut.{ShowsCut, ShowsEnded, cut_line, rows_in, without_bytes};
ghost use Rattle.spa_text_commands.specs.Parts.{ShowsPods};

use crate::colours::in_colours;
use crate::request::Printing;
use spa_bytes::{HEADER_LEN, extent_of, u32_at};
use spa_recordings::cut::end_cut;
use spa_text_commands::answer::Failure;
use spa_text_commands::selection::{Form, Printout};
use spa_text_commands::showing::{Printed, hex_rows, show_pods};
use std::alloc::{AllocError, Global};
use std::fmt::Write;

/// What is printed of a pod of which these bytes are there and not all, which so many pods and bytes of the input stand before: the lines of the pod that
/// they are when they are ended, and below them how many bytes are there. Nothing, where no lines are printed or its header isn't there.
pub(crate) fn show_cut(
    alloc: Global,
    printing: Printing<'_>,
    count: usize,
    place: usize,
    there: Vec<u8>,
) -> Result<Vec<u8>, AllocError>
    requires { ¬ (HasFront there.items) }
    ensures { IfOk result (λ out. ShowsCut printing.entry count place there.items out.items) }
{
    if !are_lines(printing.printout.form) || there.len() < HEADER_LEN {
        return Ok(Vec::new(alloc));
    }
    let (Some(_), Some(_)) = (
        end_behind(count, there.len()),
        end_behind(place, there.len()),
    ) else {
        // So many can't be counted.
        return Err(AllocError);
    };
    show_ended(alloc, printing, count, place, there)
}

/// The number behind so many more than these, and a header's length more, if it can be counted.
fn end_behind(first: usize, more: usize) -> Option<usize>
    ensures { IfSome result (λ _. first + more + header_size < 2 ^ 64) }
{
    first.checked_add(more)?.checked_add(HEADER_LEN)
}

/// That of a pod whose header is there, where lines are printed.
fn show_ended(
    alloc: Global,
    printing: Printing<'_>,
    count: usize,
    place: usize,
    there: Vec<u8>,
) -> Result<Vec<u8>, AllocError>
    requires header { header_size ≤ length there.items }
    requires cut { ¬ (HasFront there.items) }
    requires count { count + length there.items + header_size < 2 ^ 64 }
    requires place { place + length there.items + header_size < 2 ^ 64 }
    ensures { IfOk result (λ out. ShowsEnded printing.entry count place there.items out.items) }
{
    let last = last_lines(alloc, printing.printout.form, place, there.as_slice())?;
    let mut pod = there;
    end_cut(&mut pod)?;
    let lines = lines_of(alloc, printing.printout, count, place, pod.as_slice())?;
    in_colours(alloc, printing.colours, joined(lines, last)?)
}

/// The lines of a whole pod.
fn lines_of(
    alloc: Global,
    printout: Printout<'_>,
    count: usize,
    place: usize,
    pod: &[u8],
) -> Result<Vec<u8>, AllocError>
    requires whole { walk pod.now ≡ pod.now ∷ [] }
    requires count { count + length pod.now < 2 ^ 64 }
    requires place { place + length pod.now < 2 ^ 64 }
    ensures { IfOk result (λ lines. (refused : ℕ)
        × ShowsPods (without_bytes printout.entry) count place pod.now lines.items refused) }
{
    let printout = Printout {
        form: Form::Lines,
        selection: printout.selection,
    };
    match show_pods(alloc, printout, count, place, pod) {
        Ok(printed) => {
            let Printed { bytes, .. } = printed;
            Ok(bytes)
        }
        Err(Failure::OutOfMemory) => Err(AllocError),
        // What is whole pods is refused for want of memory alone.
        Err(_) => unreachable!(),
    }
}

/// These lines and the last ones below them, where there are any.
fn joined(lines: Vec<u8>, last: Vec<u8>) -> Result<Vec<u8>, AllocError>
    ensures { IfOk result (λ all. all.items ≡ spec.lines_above lines.items last.items) }
{
    let mut lines = lines;
    if !lines.is_empty() {
        lines.extend_from_slice(last.as_slice())?;
    }
    Ok(lines)
}

/// Whether pods are printed as lines.
fn are_lines(form: Form) -> bool
    ensures { result ≡ spec.are_lines form }
{
    match form {
        Form::Lines => true,
        Form::LinesAndBytes => true,
        Form::Text(_) => false,
        Form::Bytes => false,
        Form::Pods => false,
    }
}

/// The lines below those of a pod: its bytes in hex, where these are printed, and how many of them are there.
fn last_lines(alloc: Global, form: Form, place: usize, there: &[u8]) -> Result<Vec<u8>, AllocError>
    requires header { header_size ≤ length there.now }
    requires place { place + length there.now < 2 ^ 64 }
    ensures { IfOk result (λ lines. lines.items ≡ rows_in form place there.now ++ cut_line there.now) }
{
    let mut lines = match form {
        Form::LinesAndBytes => hex_rows(alloc, place, there)?,
        _ => Vec::new(alloc),
    };
    let takes = extent_of(u32_at(there, 0));
    let mut line = String::new(alloc);
    writeln!(line, ".. cut: {} of {takes} bytes are there", there.len())?;
    lines.extend_from_slice(line.as_bytes())?;
    Ok(lines)
}
