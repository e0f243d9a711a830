//! Inputs that are worked on as they come, and whose refused pods are left out or kept.
ghost use Rattle.std.specs.Prelude.{◌≡◌, ◌+◌, ◌<◌, ◌^◌, ℕ, IfErr, IfOk, List};
ghost use Rattle.std.specs.Io.KnownBytes.{Appends};
ghost use Rattle.pod_commands.specs.Inputs.{IsKnown, content_of, left_behind};
ghost use Rattle.pod_commands.specs.Streaming.{IsBrokenInPart, IsBrokenInPartAt, IsMadeInBlocks, PassesOver};
ghost use Rattle.pod_commands.specs.Working.{AreWorked};

use crate::answer::Failure;
use crate::files::{Files, Inputs, open_named};
use crate::making::{Job, work_on};
use crate::request::Making;
use crate::streaming::failure_of;
use spa_recordings::going_on::Manner;
use spa_recordings::passing::{BlockWorker, Unworked, stream_through};
use spa_recordings::streaming::write_made;
use spa_refusals::NamedRefusal;
use std::alloc::Global;
use std::io::{Read, Write};

/// Writes what is made of each of the inputs of these names, whose refused pods are left out or kept, as they come; and answers what is said of these.
pub(crate) fn pass_all<'a, R: Read, S: Files, W: Write>(
    alloc: Global,
    making: Making<'_>,
    manner: Manner,
    names: &[&'a str],
    inputs: Inputs<'_, R, S>,
    output: &mut W,
) -> Result<Vec<NamedRefusal<'a>>, Failure<'a>>
    requires { IsMadeInBlocks manner.refused making }
    ensures passed { IfOk result (λ said. (out : List ℕ)
        × AreWorked manner.reading manner.refused making.entry (R.remaining inputs.entry.input.now) (S.holds inputs.entry.files.now)
        names.now out said.items
        × Appends (W.contents output.old) (W.contents output.new) out) }
    ensures broken { IfErr result (IsBrokenInPart manner.reading manner.refused making.entry (R.remaining inputs.entry.input.now)
        (S.holds inputs.entry.files.now) names.now (W.contents output.old) (W.contents output.new)) }
{
    let Inputs { input, files } = inputs;
    let mut said = Vec::new(alloc);
    for name in names {
        let job = Job {
            making,
            manner,
            name: *name,
        };
        match pass_named(alloc, job, Inputs { input, files }, output, said) {
            Ok(more) => said = more,
            Err(why) => return Err(why),
        }
    }
    Ok(said)
}

/// Writes what is made of an input, and answers what is said of the refused pods, its own behind these.
fn pass_named<'a, R: Read, S: Files, W: Write>(
    alloc: Global,
    job: Job<'a, '_>,
    inputs: Inputs<'_, R, S>,
    output: &mut W,
    said: Vec<NamedRefusal<'a>>,
) -> Result<Vec<NamedRefusal<'a>>, Failure<'a>>
    requires { IsMadeInBlocks job.manner.refused job.making }
    ensures passed { IfOk result (λ more. PassesOver job.entry.manner.reading job.entry.manner.refused job.entry.making job.entry.name.now
        (content_of (R.remaining inputs.entry.input.now) (S.holds inputs.entry.files.now) job.entry.name.now)
        (W.contents output.old) (W.contents output.new) said.entry.items more.items) }
    ensures broken { IfErr result (IsBrokenInPartAt job.entry.manner.reading job.entry.manner.refused job.entry.making job.entry.name.now
        (content_of (R.remaining inputs.entry.input.now) (S.holds inputs.entry.files.now) job.entry.name.now)
        (W.contents output.old) (W.contents output.new)) }
    ensures left { IsKnown (left_behind (R.remaining inputs.entry.input.now) job.entry.name.now) (R.remaining inputs.exit.0.now) }
{
    if job.name == "-" {
        return pass_reader(alloc, job, inputs.input, output, said);
    }
    let mut file = match open_named(alloc, job.name, inputs.files) {
        Ok(file) => file,
        Err(why) => return Err(why),
    };
    pass_reader(alloc, job, &mut file, output, said)
}

/// Writes what is made of what the reader gives, and answers what is said of the refused pods.
fn pass_reader<'a, R: Read, W: Write>(
    alloc: Global,
    job: Job<'a, '_>,
    input: &mut R,
    output: &mut W,
    said: Vec<NamedRefusal<'a>>,
) -> Result<Vec<NamedRefusal<'a>>, Failure<'a>>
    requires { IsMadeInBlocks job.manner.refused job.making }
    ensures passed { IfOk result (λ more. PassesOver job.entry.manner.reading job.entry.manner.refused job.entry.making job.entry.name.now
        (R.remaining input.old)
        (W.contents output.old) (W.contents output.new) said.entry.items more.items) }
    ensures broken { IfErr result (IsBrokenInPartAt job.entry.manner.reading job.entry.manner.refused job.entry.making job.entry.name.now
        (R.remaining input.old) (W.contents output.old) (W.contents output.new)) }
{
    let mut worker = Worker { job, said };
    match stream_through(alloc, &mut worker, input, output) {
        Ok(()) => {
            let Worker { said, .. } = worker;
            Ok(said)
        }
        Err(why) => Err(failure_of(alloc, job.manner.reading, job.name, why)),
    }
}

/// What works on the blocks of an input, and what is said of the refused pods so far.
#[derive(Drop)]
pub(crate) struct Worker<'a, 'b> {
    job: Job<'a, 'b>,
    said: Vec<NamedRefusal<'a>>,
}

impl BlockWorker for Worker<'_, '_> {
    ghost use Rattle.pod_commands.specs.Passing.{WorksOnBlock};

    ghost works = { λ old new count place block out. WorksOnBlock old new count place block out };

    fn work_on<W: Write>(
        &mut self,
        alloc: Global,
        count: usize,
        place: usize,
        block: &[u8],
        output: &mut W,
    ) -> Result<(), Unworked> {
        let Ok(out) = work_on(alloc, self.job, count, place, block, &mut self.said) else {
            return Err(Unworked::OutOfMemory);
        };
        match write_made(output, out.as_slice()) {
            Ok(()) => Ok(()),
            Err(_) => Err(Unworked::Unwritten),
        }
    }
}
