//! Inputs that are written of as they come.
ghost use Rattle.std.specs.Prelude.{◌≡◌, ◌+◌, ◌<◌, ◌^◌, [], ℕ, Decides, IfErr, IfOk, List, OnOk, length};
ghost use Rattle.std.specs.Io.KnownBytes.{Appends};
ghost use Rattle.pod_commands.specs.Answers.{AreUnmade};
ghost use Rattle.pod_commands.specs.Inputs.{AreMade, IsKnown, content_of, left_behind};
ghost use Rattle.pod_commands.specs.Making.{MakesAll};
ghost use Rattle.pod_commands.specs.Streaming as spec;
ghost use Rattle.pod_commands.specs.Streaming.{HasNoPod, IsBroken, IsBrokenAt, IsCutIn, IsEndOf, IsFailureOf, MayRefuse, StreamsAs, WritesOf};
ghost use Rattle.pod_commands.specs.declared.request.Making.TheVariants.{Check};
ghost use Rattle.pod_commands.specs.declared.request.Streaming.TheVariants as streaming;
ghost use Rattle.spa_recordings.specs.Streaming.{IsNotMade, Streams, WritesMade};

use crate::answer::Failure;
use crate::colours::{colours_of, in_colours};
use crate::cut::show_cut;
use crate::files::{Files, Inputs, open_named};
use crate::request::{Printing, Streaming, Style};
use spa_pod_commands::making::check;
use spa_recordings::reading::Reading;
use spa_recordings::streaming::{BlockWriter, Made, NotMade, Rewriter, Stop, stream, write_made};
use spa_refusals::refusal_of;
use spa_text_commands::answer;
use spa_text_commands::printing::print_all;
use spa_text_commands::showing::{Printed, show_pods};
use std::alloc::Global;
use std::io::{self, Read, Write};

/// Writes this of the inputs of these names, which are read so, and answers how many of their pods are refused, and whether it is nothing.
pub(crate) fn stream_all<'a, R: Read, S: Files, W: Write>(
    alloc: Global,
    reading: Reading,
    streaming: Streaming<'_>,
    names: &[&'a str],
    inputs: Inputs<'_, R, S>,
    output: &mut W,
) -> Result<Made, Failure<'a>>
    ensures streamed { IfOk result (λ made. (out : List ℕ)
        × AreMade (StreamsAs reading streaming.entry) (R.remaining inputs.entry.input.now) (S.holds inputs.entry.files.now) names.now out made.refused
        × Decides made.nothing (out ≡ [])
        × Appends (W.contents output.old) (W.contents output.new) out) }
    ensures broken { IfErr result (IsBroken reading streaming.entry (R.remaining inputs.entry.input.now) (S.holds inputs.entry.files.now) names.now
        (W.contents output.old) (W.contents output.new)) }
{
    let Inputs { input, files } = inputs;
    let mut made = Made {
        refused: 0,
        nothing: true,
    };
    for name in names {
        match stream_named(
            alloc,
            reading,
            streaming,
            *name,
            Inputs { input, files },
            output,
        ) {
            Ok(more) => match made.refused.checked_add(more.refused) {
                Some(refused) => {
                    made = Made {
                        refused,
                        nothing: made.nothing & more.nothing,
                    };
                }
                // So many can't be counted.
                None => return Err(Failure::OutOfMemory),
            },
            Err(why) => return Err(why),
        }
    }
    Ok(made)
}

/// Passes where the inputs of these names are read so, which it looks at block by block; nothing is written.
#[tactic(auto, using(crate::proofs::Checked::all_checked))]
pub(crate) fn check_all<'a, R: Read, S: Files>(
    alloc: Global,
    reading: Reading,
    names: &[&'a str],
    inputs: Inputs<'_, R, S>,
) -> Result<(), Failure<'a>>
    ensures accepted { OnOk result
        (AreMade (MakesAll reading Check) (R.remaining inputs.entry.input.now) (S.holds inputs.entry.files.now) names.now [] 0) }
    ensures refused { IfErr result
        (AreUnmade reading Check (R.remaining inputs.entry.input.now) (S.holds inputs.entry.files.now) names.now) }
{
    let mut nowhere = io::sink();
    match stream_all(
        alloc,
        reading,
        Streaming::Check,
        names,
        inputs,
        &mut nowhere,
    ) {
        Ok(_) => Ok(()),
        Err(why) => Err(why),
    }
}

/// Writes this of the input of this name, which is read so, and answers how many of its pods are refused, and whether it is nothing.
fn stream_named<'a, R: Read, S: Files, W: Write>(
    alloc: Global,
    reading: Reading,
    streaming: Streaming<'_>,
    name: &'a str,
    inputs: Inputs<'_, R, S>,
    output: &mut W,
) -> Result<Made, Failure<'a>>
    ensures streamed { IfOk result (Streams (StreamsAs reading streaming.entry)
        (content_of (R.remaining inputs.entry.input.now) (S.holds inputs.entry.files.now) name.entry.now)
        (W.contents output.old) (W.contents output.new)) }
    ensures broken { IfErr result (IsBrokenAt reading streaming.entry name.entry.now
        (content_of (R.remaining inputs.entry.input.now) (S.holds inputs.entry.files.now) name.entry.now)
        (W.contents output.old) (W.contents output.new)) }
    ensures left { IsKnown (left_behind (R.remaining inputs.entry.input.now) name.entry.now) (R.remaining inputs.exit.0.now) }
{
    if name == "-" {
        return stream_reader(alloc, reading, streaming, name, inputs.input, output);
    }
    let mut file = match open_named(alloc, name, inputs.files) {
        Ok(file) => file,
        Err(why) => return Err(why),
    };
    stream_reader(alloc, reading, streaming, name, &mut file, output)
}

/// Writes this of what the reader of this name gives, read so, and answers how many of its pods are refused, and whether it is nothing.
fn stream_reader<'a, R: Read, W: Write>(
    alloc: Global,
    reading: Reading,
    streaming: Streaming<'_>,
    name: &'a str,
    input: &mut R,
    output: &mut W,
) -> Result<Made, Failure<'a>>
    ensures streamed { IfOk result (Streams (StreamsAs reading streaming.entry) (R.remaining input.old)
        (W.contents output.old) (W.contents output.new)) }
    ensures broken { IfErr result (IsBrokenAt reading streaming.entry name.entry.now (R.remaining input.old)
        (W.contents output.old) (W.contents output.new)) }
{
    match stream(alloc, reading, &streaming, input, output) {
        Ok(made) => Ok(made),
        Err(why) => {
            let shown = shown_as(reading, streaming);
            Err(end(alloc, reading, shown, name, why, output))
        }
    }
}

/// How parts of inputs that are read exactly are printed, if they are.
fn shown_as<'a>(reading: Reading, streaming: Streaming<'a>) -> Option<Printing<'a>>
    ensures { result ≡ spec.shown_as reading streaming.entry }
{
    match (reading, streaming) {
        (Reading::Exact, Streaming::Print(printing)) => Some(printing),
        _ => None,
    }
}

/// The failure of the input of this name, which is read so, for this reason. Of a last pod that is shown so, of which not all is there, it writes what is
/// there.
fn end<'a, W: Write>(
    alloc: Global,
    reading: Reading,
    shown: Option<Printing<'_>>,
    name: &'a str,
    why: Stop,
    output: &mut W,
) -> Failure<'a>
    requires nothing { HasNoPod reading why }
    requires cut { IsCutIn shown why }
    ensures { IsEndOf shown.entry reading name.entry why (W.contents output.old) (W.contents output.new) result }
{
    match (shown, why) {
        (
            Some(printing),
            Stop::Pod {
                number,
                place,
                read,
            },
        ) => {
            let Ok(refusal) = refusal_of(alloc, reading, read.as_slice(), place, number) else {
                return Failure::OutOfMemory;
            };
            let Ok(shown) = show_cut(alloc, printing, number.saturating_sub(1), place, read) else {
                return Failure::OutOfMemory;
            };
            match write_made(output, shown.as_slice()) {
                Ok(()) => Failure::Pods(name, refusal),
                Err(_) => Failure::Unwritten(None),
            }
        }
        (_, why) => failure_of(alloc, reading, name, why),
    }
}

/// The failure of the input of this name, which is read so, for this reason.
pub(crate) fn failure_of<'a>(
    alloc: Global,
    reading: Reading,
    name: &'a str,
    why: Stop,
) -> Failure<'a>
    requires { HasNoPod reading why }
    ensures { IsFailureOf reading name.entry why result }
{
    match why {
        Stop::Pod {
            number,
            place,
            read,
        } => match refusal_of(alloc, reading, read.as_slice(), place, number) {
            Ok(refusal) => Failure::Pods(name, refusal),
            Err(_) => Failure::OutOfMemory,
        },
        Stop::OutOfMemory => Failure::OutOfMemory,
        Stop::ReadFailed => Failure::Unread(name, "read failed"),
        Stop::WriteFailed => Failure::Unwritten(None),
    }
}

impl BlockWriter for Streaming<'_> {
    ghost use Rattle.pod_commands.specs.StreamLaws.{nothing_written, written_more};

    ghost makes = { λ streaming count place pods out refused. WritesOf streaming count place pods out refused };

    ghost refuses = { λ streaming. MayRefuse streaming };

    fn write_block<W: Write>(
        &self,
        alloc: Global,
        count: usize,
        place: usize,
        block: &mut [u8],
        output: &mut W,
    ) -> Result<Made, NotMade> {
        match self {
            Streaming::Json(style) => write_texts(alloc, *style, count, place, &*block, output),
            Streaming::Rewrite => Rewriter.write_block(alloc, count, place, block, output),
            Streaming::Print(printing) => {
                write_printed(alloc, *printing, count, place, &*block, output)
            }
            Streaming::Check => match check(alloc, &*block) {
                Ok(()) => Ok(Made::of(0, &[])),
                Err(_) => Err(NotMade::Refused),
            },
        }
    }

    ghost makes_nothing = { λ streaming count place. nothing_written streaming count place };

    ghost makes_more = { λ streaming count place first others out more m n h k.
        written_more streaming count place first others out more m n h k };
}

/// Writes the texts of the pods of a block, which so many pods and bytes of the input stand before. None of them is refused.
#[tactic(auto, using(crate::proofs::Blocks::texts_written, crate::proofs::Blocks::texts_begun))]
fn write_texts<W: Write>(
    alloc: Global,
    style: Style,
    count: usize,
    place: usize,
    block: &[u8],
    output: &mut W,
) -> Result<Made, NotMade>
    ensures written { IfOk result (WritesMade (WritesOf (streaming.Json style) count place) block.now
        (W.contents output.old) (W.contents output.new)) }
    ensures refused { IfErr result (IsNotMade (MayRefuse (streaming.Json style))
        (WritesOf (streaming.Json style) count place) block.now block.now
        (W.contents output.old) (W.contents output.new)) }
{
    let texts = match print_all(alloc, style.layout, block) {
        Ok(texts) => texts,
        Err(answer::Failure::OutOfMemory) => return Err(NotMade::OutOfMemory),
        Err(_) => return Err(NotMade::Refused),
    };
    let Ok(made) = in_colours(alloc, style.colours, texts) else {
        return Err(NotMade::OutOfMemory);
    };
    match write_made(output, made.as_slice()) {
        Ok(()) => Ok(Made::of(0, made.as_slice())),
        Err(_) => Err(NotMade::Unwritten),
    }
}

/// Writes what is printed of the pods of a block, which so many pods and bytes of the input stand before, and answers how many of the printed pods
/// are refused, and whether that is nothing.
#[tactic(auto, using(crate::proofs::Blocks::printed_written, crate::proofs::Blocks::printed_begun))]
fn write_printed<W: Write>(
    alloc: Global,
    printing: Printing<'_>,
    count: usize,
    place: usize,
    block: &[u8],
    output: &mut W,
) -> Result<Made, NotMade>
    requires count { count + length block.now < 2 ^ 64 }
    requires place { place + length block.now < 2 ^ 64 }
    ensures written { IfOk result (WritesMade (WritesOf (streaming.Print printing.entry) count place) block.now
        (W.contents output.old) (W.contents output.new)) }
    ensures refused { IfErr result (IsNotMade (MayRefuse (streaming.Print printing.entry))
        (WritesOf (streaming.Print printing.entry) count place) block.now block.now
        (W.contents output.old) (W.contents output.new)) }
{
    let Ok(printed) = show_pods(alloc, printing.printout, count, place, block) else {
        // What the whole pods that a block consists of are printed as is there, unless memory runs out.
        return Err(NotMade::OutOfMemory);
    };
    let Printed { bytes, refused } = printed;
    let colours = colours_of(printing.printout.form, printing.colours);
    let Ok(made) = in_colours(alloc, colours, bytes) else {
        return Err(NotMade::OutOfMemory);
    };
    match write_made(output, made.as_slice()) {
        Ok(()) => Ok(Made::of(refused, made.as_slice())),
        Err(_) => Err(NotMade::Unwritten),
    }
}
