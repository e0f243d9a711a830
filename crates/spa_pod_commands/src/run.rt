//! The program's work, over a reader and two writers.
ghost use Rattle.std.specs.Prelude.{◌≡◌, codes, IfErr, OnOk};
ghost use Rattle.std.specs.Io.KnownBytes.{Keeps};
ghost use Rattle.spa_pod_commands.specs.Answers.{Fixates, IsNotListed, IsOneWord, IsUndone, IsUse, OnAnswer, Rewrites, Writes};
ghost use Rattle.spa_pod_commands.specs.Lines.{Lists};
ghost use Rattle.spa_pod_commands.specs.Runs.{EndsBy, IsAnswer};
ghost use Rattle.spa_pod_commands.specs.declared.answer.Answer.TheVariants.{Misused};

use crate::answer::{Answer, Failure, report};
use crate::listing::list;
use crate::making::{fixated, rewritten};
use crate::output::{answered, write};
use crate::pods::first_short;
use spa_device::read_whole;
use std::alloc::Global;
use std::io::{Read, Write};

/// Does all of `podtool`: what the words ask for, exactly one of `rewrite`, `fixate` and `show`, and then writes the line of what
/// became of it to `faults`. The status is 0 where the work was done, 1 where it was refused, and 2 where the words are others.
///
/// Where the line can't be written, nothing changes.
pub fn run<R: Read, W: Write, E: Write>(
    alloc: Global,
    words: &[&str],
    input: &mut R,
    output: &mut W,
    faults: &mut E,
) -> u8
    ensures { EndsBy (IsAnswer words.now (R.remaining input.old) (W.contents output.old) (W.contents output.new)) result
        (E.contents faults.old) (E.contents faults.new) }
{
    let answer = answer(alloc, words, input, output);
    let _ = report(faults, &answer);
    answer.status()
}

/// Does what the words ask for.
///
/// The words are settled before anything is read, the input is read whole, and nothing is written to the output before
/// the whole input was accepted.
#[tactic(auto, using(crate::proofs::Keeping::answered, crate::proofs::Keeping::answered_list))]
pub fn answer<R: Read, W: Write>(
    alloc: Global,
    words: &[&str],
    input: &mut R,
    output: &mut W,
) -> Answer
    ensures rewrite { IsOneWord words.now (codes "rewrite") → OnAnswer result
        (Writes Rewrites (R.remaining input.old) (W.contents output.old) (W.contents output.new))
        (IsUndone Rewrites (R.remaining input.old) (W.contents output.old) (W.contents output.new)) }
    ensures fixate { IsOneWord words.now (codes "fixate") → OnAnswer result
        (Writes Fixates (R.remaining input.old) (W.contents output.old) (W.contents output.new))
        (IsUndone Fixates (R.remaining input.old) (W.contents output.old) (W.contents output.new)) }
    ensures show { IsOneWord words.now (codes "show") → OnAnswer result
        (Writes Lists (R.remaining input.old) (W.contents output.old) (W.contents output.new))
        (IsNotListed (R.remaining input.old) (W.contents output.old) (W.contents output.new)) }
    ensures misuse { ¬ (IsUse words.now) → (result ≡ Misused) × Keeps (W.contents output.old) (W.contents output.new) }
{
    match words {
        ["rewrite"] => {
            let done = rewrite(alloc, input, output);
            answered(done, output)
        }
        ["fixate"] => {
            let done = fixate(alloc, input, output);
            answered(done, output)
        }
        ["show"] => {
            let done = show(alloc, input, output);
            answered(done, output)
        }
        _ => Answer::Misused,
    }
}

/// Writes the rewritings of the pods that the input consists of.
#[tactic(auto, using(crate::proofs::Keeping::unmade_undone))]
fn rewrite<R: Read, W: Write>(alloc: Global, input: &mut R, output: &mut W) -> Result<(), Failure>
    ensures done { OnOk result
        (Writes Rewrites (R.remaining input.old) (W.contents output.old) (W.contents output.new)) }
    ensures undone { IfErr result
        (IsUndone Rewrites (R.remaining input.old) (W.contents output.old) (W.contents output.new)) }
{
    let bytes = read_whole(alloc, input)?;
    let made = rewritten(alloc, bytes)?;
    write(output, made.as_slice())
}

/// Writes the input with each top-level object fixated.
#[tactic(auto, using(crate::proofs::Keeping::unmade_undone))]
fn fixate<R: Read, W: Write>(alloc: Global, input: &mut R, output: &mut W) -> Result<(), Failure>
    ensures done { OnOk result
        (Writes Fixates (R.remaining input.old) (W.contents output.old) (W.contents output.new)) }
    ensures undone { IfErr result
        (IsUndone Fixates (R.remaining input.old) (W.contents output.old) (W.contents output.new)) }
{
    let bytes = read_whole(alloc, input)?;
    let made = fixated(alloc, bytes)?;
    write(output, made.as_slice())
}

/// Lists the pods that the input consists of, and the pods inside them.
#[tactic(auto, using(crate::proofs::Keeping::cut_off))]
fn show<R: Read, W: Write>(alloc: Global, input: &mut R, output: &mut W) -> Result<(), Failure>
    ensures done { OnOk result
        (Writes Lists (R.remaining input.old) (W.contents output.old) (W.contents output.new)) }
    ensures undone { IfErr result
        (IsNotListed (R.remaining input.old) (W.contents output.old) (W.contents output.new)) }
{
    let bytes = read_whole(alloc, input)?;
    if let Some(place) = first_short(bytes.as_slice()) {
        return Err(Failure::Pod {
            place,
            kind: "Short",
        });
    }
    let mut lines = String::new(alloc);
    list(alloc, bytes.as_slice(), &mut lines, output)?;
    write(output, lines.as_bytes())
}
