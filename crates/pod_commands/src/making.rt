//! What is made of each input.
ghost use Rattle.std.specs.Prelude.{◌≡◌, ◌+◌, ◌<◌, ◌^◌, ◌++◌, true, IfErr, IfOk, IfSome, OnOk, length};
ghost use Rattle.pod_commands.specs.Answers.{AreUnmade, IsUnworked};
ghost use Rattle.pod_commands.specs.Colours.{DumpsIn, PrintsIn, ShowsIn};
ghost use Rattle.pod_commands.specs.Inputs.{AreMade};
ghost use Rattle.pod_commands.specs.Making.{AreNoDumps, AreNoPods, AreNoTexts, AreUnread, Makes, MakesAll, Reads, RefusesBy, RefusesIn};
ghost use Rattle.pod_commands.specs.Working as spec;
ghost use Rattle.pod_commands.specs.Working.{AreWorked, StandsBehind, WorksOn, WorksThrough};
ghost use Rattle.spa_meet_commands.specs.Settling.{SettlesAll};
ghost use Rattle.spa_pod_commands.specs.Answers.{Fixates, Rewrites};
ghost use Rattle.spa_recordings.specs.GoingOn.{MakesOf};
ghost use Rattle.spa_text_commands.specs.Texts.{ReadsTexts};
ghost use Rattle.spa_recordings.specs.declared.reading.Reading as Reading;

use crate::answer::Failure;
use crate::colours::{Colours, colours_of, in_colours};
use crate::files::{Files, Inputs, read_named};
use crate::reading::read_leniently;
use crate::refusing::{
    FormlessPod, first_formless, formless, refusal_of_formless, refused, unmade,
};
use crate::request::{Making, Printing, Style, Texts};
use crate::streaming::check_all;
use spa_meet_commands::settling::settle_all;
use spa_pod_commands::making::{check, fixated};
use spa_recordings::going_on::{Made, Maker, Manner, Overlap, Progress, Refused, make_each};
use spa_recordings::reading::Reading;
use spa_refusals::{NamedRefusal, add_refusals};
use spa_rewrite::rewrite_in_place;
use spa_text_commands::answer::Failure as TextFailure;
use spa_text_commands::hexadecimal::read_hexadecimal;
use spa_text_commands::params::{Unprinted, print_params};
use spa_text_commands::printing::print_all;
use spa_text_commands::reading::read_all;
use spa_text_commands::showing::show_pods;
use spa_text_forms::Form;
use std::alloc::{AllocError, Global};
use std::io::Read;

/// What is made of each of the inputs of these names, read so, one behind another. Inputs that are checked are held block by
/// block, and else whole.
#[tactic(auto, using(crate::proofs::Checked::made_by_check, crate::proofs::Checked::unmade_by_check))]
pub(crate) fn make_all<'a, R: Read, S: Files>(
    alloc: Global,
    making: Making<'_>,
    reading: Reading,
    names: &[&'a str],
    inputs: Inputs<'_, R, S>,
) -> Result<Vec<u8>, Failure<'a>>
    ensures made { IfOk result
        (λ out. AreMade (MakesAll reading making.entry) (R.remaining inputs.entry.input.now) (S.holds inputs.entry.files.now) names.now out.items 0) }
    ensures refused { IfErr result (AreUnmade reading making.entry (R.remaining inputs.entry.input.now) (S.holds inputs.entry.files.now) names.now) }
{
    if let Making::Check = making {
        return match check_all(alloc, reading, names, inputs) {
            Ok(()) => Ok(Vec::new(alloc)),
            Err(why) => Err(why),
        };
    }
    let Inputs { input, files } = inputs;
    let mut out = Vec::new(alloc);
    for name in names {
        let bytes = read_named(alloc, *name, Inputs { input, files })?;
        let made = make_read(alloc, making, reading, *name, bytes)?;
        add(&mut out, made)?;
    }
    Ok(out)
}

/// What is made of these bytes, which are those of the input of this name, read so.
fn make_read<'a>(
    alloc: Global,
    making: Making<'_>,
    reading: Reading,
    name: &'a str,
    bytes: Vec<u8>,
) -> Result<Vec<u8>, Failure<'a>>
    ensures made { IfOk result (λ out. MakesOf reading (Makes making.entry) bytes.items out.items) }
    ensures refused { IfErr result (RefusesBy reading making.entry name.entry.now bytes.items) }
{
    match reading {
        Reading::Exact => make(alloc, making, name, bytes),
        Reading::Lenient => make_leniently(alloc, making, name, bytes),
    }
}

/// What is made of the values that these bytes convey.
fn make_leniently<'a>(
    alloc: Global,
    making: Making<'_>,
    name: &'a str,
    bytes: Vec<u8>,
) -> Result<Vec<u8>, Failure<'a>>
    ensures made { IfOk result (λ out. MakesOf Reading.Lenient (Makes making.entry) bytes.items out.items) }
    ensures refused { IfErr result (RefusesBy Reading.Lenient making.entry name.entry.now bytes.items) }
{
    let pods = match read_leniently(alloc, name, bytes.as_slice()) {
        Ok(pods) => pods,
        Err(why) => return Err(why),
    };
    match make(alloc, making, name, pods) {
        Ok(made) => Ok(made),
        Err(_) => Err(unmade(alloc, making, Reading::Lenient, name, bytes.as_slice())),
    }
}

/// What is made of these bytes, which are those of the input of this name.
fn make<'a>(
    alloc: Global,
    making: Making<'_>,
    name: &'a str,
    bytes: Vec<u8>,
) -> Result<Vec<u8>, Failure<'a>>
    ensures made { IfOk result (λ out. Makes making.entry bytes.items out.items) }
    ensures refused { IfErr result (RefusesIn making.entry name.entry.now bytes.items) }
{
    match making {
        Making::Json(style) => print(alloc, style, name, bytes.as_slice()),
        Making::Dump(colours) => dump(alloc, colours, name, bytes.as_slice()),
        Making::Read(texts) => read(alloc, texts, name, bytes.as_slice()),
        Making::Rewrite => rewrite(alloc, name, bytes),
        Making::Fixate => fixate(alloc, name, bytes),
        Making::Settle => settle(alloc, name, bytes.as_slice()),
        Making::Print(printing) => print_parts(alloc, printing, name, bytes.as_slice()),
        Making::Check => match check(alloc, bytes.as_slice()) {
            Ok(()) => Ok(Vec::new(alloc)),
            Err(_) => Err(refused(alloc, Reading::Exact, name, bytes.as_slice())),
        },
    }
}

/// The pods of the texts that these bytes are, read so.
fn read<'a>(
    alloc: Global,
    texts: Texts,
    name: &'a str,
    bytes: &[u8],
) -> Result<Vec<u8>, Failure<'a>>
    ensures made { IfOk result (λ out. Reads texts bytes.now out.items) }
    ensures refused { IfErr result (AreUnread texts name.entry.now bytes.now) }
{
    match texts {
        Texts::Named(strictness) => read_in(alloc, Form::Named(strictness), name, bytes),
        Texts::Dump { type_, id } => read_in(alloc, Form::Dump { type_, id }, name, bytes),
        Texts::Hex => match read_hexadecimal(alloc, bytes) {
            Ok(read) => Ok(read),
            Err(why) => Err(Failure::Texts(name, why)),
        },
    }
}

/// The pods of the texts in this form.
fn read_in<'a>(
    alloc: Global,
    form: Form,
    name: &'a str,
    bytes: &[u8],
) -> Result<Vec<u8>, Failure<'a>>
    ensures made { IfOk result (λ out. ReadsTexts form bytes.now out.items) }
    ensures refused { IfErr result (AreNoTexts form name.entry.now bytes.now) }
{
    match read_all(alloc, form, bytes) {
        Ok(pods) => Ok(pods),
        Err(why) => Err(Failure::Texts(name, why)),
    }
}

/// The texts of the pods that these bytes consist of, in this style.
#[tactic(auto, using(crate::proofs::Coloured::printed_in))]
fn print<'a>(
    alloc: Global,
    style: Style,
    name: &'a str,
    bytes: &[u8],
) -> Result<Vec<u8>, Failure<'a>>
    ensures made { IfOk result (λ out. PrintsIn style bytes.now out.items) }
    ensures refused { IfErr result (AreNoPods Reading.Exact name.entry.now bytes.now) }
{
    let Ok(texts) = print_all(alloc, style.layout, bytes) else {
        return Err(refused(alloc, Reading::Exact, name, bytes));
    };
    match in_colours(alloc, style.colours, texts) {
        Ok(out) => Ok(out),
        Err(_) => Err(Failure::OutOfMemory),
    }
}

/// What `pw-dump` prints of the pods that these bytes consist of, in colours if it is to have them.
#[tactic(auto, using(crate::proofs::Coloured::dumped_in))]
fn dump<'a>(
    alloc: Global,
    colours: Colours,
    name: &'a str,
    bytes: &[u8],
) -> Result<Vec<u8>, Failure<'a>>
    ensures made { IfOk result (λ out. DumpsIn colours bytes.now out.items) }
    ensures refused { IfErr result (AreNoDumps name.entry.now bytes.now) }
{
    let lines = match print_params(alloc, bytes) {
        Ok(lines) => lines,
        Err(Unprinted::NoForm) => return Err(formless(alloc, Reading::Exact, name, bytes)),
        Err(Unprinted::NoPods) => return Err(refused(alloc, Reading::Exact, name, bytes)),
        Err(Unprinted::OutOfMemory) => return Err(Failure::OutOfMemory),
    };
    match in_colours(alloc, colours, lines) {
        Ok(out) => Ok(out),
        Err(_) => Err(Failure::OutOfMemory),
    }
}

/// What is printed of the pods that these bytes consist of, where none of those that are printed is refused.
#[tactic(auto, using(crate::proofs::Coloured::parts_in))]
fn print_parts<'a>(
    alloc: Global,
    printing: Printing<'_>,
    name: &'a str,
    bytes: &[u8],
) -> Result<Vec<u8>, Failure<'a>>
    ensures made { IfOk result (λ out. ShowsIn printing.entry 0 0 bytes.now out.items 0) }
    ensures refused { IfErr result (AreNoPods Reading.Exact name.entry.now bytes.now) }
{
    let Ok(printed) = show_pods(alloc, printing.printout, 0, 0, bytes) else {
        return Err(refused(alloc, Reading::Exact, name, bytes));
    };
    if printed.refused != 0 {
        return Err(refused(alloc, Reading::Exact, name, bytes));
    }
    let colours = colours_of(printing.printout.form, printing.colours);
    match in_colours(alloc, colours, printed.bytes) {
        Ok(out) => Ok(out),
        Err(_) => Err(Failure::OutOfMemory),
    }
}

/// The rewritings of the pods that these bytes consist of, made in place.
fn rewrite<'a>(alloc: Global, name: &'a str, mut bytes: Vec<u8>) -> Result<Vec<u8>, Failure<'a>>
    ensures made { IfOk result (λ out. Rewrites bytes.items out.items) }
    ensures refused { IfErr result (AreNoPods Reading.Exact name.entry.now bytes.items) }
{
    match rewrite_in_place(alloc, bytes.as_mut_slice()) {
        Ok(len) => {
            bytes.truncate(len);
            Ok(bytes)
        }
        Err(_) => Err(refused(alloc, Reading::Exact, name, bytes.as_slice())),
    }
}

/// These bytes with each top-level object fixated in place.
fn fixate<'a>(alloc: Global, name: &'a str, bytes: Vec<u8>) -> Result<Vec<u8>, Failure<'a>>
    ensures made { IfOk result (λ out. Fixates bytes.items out.items) }
    ensures refused { IfErr result (AreNoPods Reading.Exact name.entry.now bytes.items) }
{
    if check(alloc, bytes.as_slice()).is_err() {
        return Err(refused(alloc, Reading::Exact, name, bytes.as_slice()));
    }
    // What is accepted is refused for want of memory alone.
    match fixated(alloc, bytes) {
        Ok(pods) => Ok(pods),
        Err(_) => Err(Failure::OutOfMemory),
    }
}

/// The canonical encodings of the values of the pods that these bytes consist of, objects with plain values in place of choices.
fn settle<'a>(alloc: Global, name: &'a str, bytes: &[u8]) -> Result<Vec<u8>, Failure<'a>>
    ensures made { IfOk result (λ out. SettlesAll bytes.now out.items) }
    ensures refused { IfErr result (AreNoPods Reading.Exact name.entry.now bytes.now) }
{
    if check(alloc, bytes).is_err() {
        return Err(refused(alloc, Reading::Exact, name, bytes));
    }
    match settle_all(alloc, bytes) {
        Ok(pods) => Ok(pods),
        Err(AllocError) => Err(Failure::OutOfMemory),
    }
}

/// Adds these bytes. What is added to nothing isn't copied.
fn add(out: &mut Vec<u8>, more: Vec<u8>) -> Result<(), AllocError>
    ensures { OnOk result (out.new.items ≡ out.old.items ++ more.items) }
{
    if out.is_empty() {
        *out = more;
        return Ok(());
    }
    out.extend_from_slice(more.as_slice())
}

impl Maker for Making<'_> {
    ghost makes = { λ making pods out. Makes making pods out };

    fn make(&self, alloc: Global, pods: Vec<u8>) -> Result<Vec<u8>, AllocError> {
        match make(alloc, *self, "", pods) {
            Ok(made) => Ok(made),
            Err(_) => Err(AllocError),
        }
    }
}

/// What is made of the input of a name, and how that is read.
#[derive(Clone, Copy)]
pub(crate) struct Job<'a, 'b> {
    pub(crate) making: Making<'b>,
    pub(crate) manner: Manner,
    pub(crate) name: &'a str,
}

/// What was made of inputs, and what is said of their refused pods.
#[derive(Drop)]
pub(crate) struct Worked<'a> {
    pub(crate) out: Vec<u8>,
    pub(crate) refused: Vec<NamedRefusal<'a>>,
}

/// What is made of each of the inputs of these names, whose refused pods are left out or kept, one behind another.
pub(crate) fn make_what_is_read<'a, R: Read, S: Files>(
    alloc: Global,
    making: Making<'_>,
    manner: Manner,
    names: &[&'a str],
    inputs: Inputs<'_, R, S>,
) -> Result<Worked<'a>, Failure<'a>>
    ensures made { IfOk result (λ worked. AreWorked manner.reading manner.refused making.entry
        (R.remaining inputs.entry.input.now) (S.holds inputs.entry.files.now) names.now worked.out.items worked.refused.items) }
    ensures refused { IfErr result (IsUnworked manner.refused making.entry) }
{
    let Inputs { input, files } = inputs;
    let mut out = Vec::new(alloc);
    let mut refused = Vec::new(alloc);
    for name in names {
        let bytes = read_named(alloc, *name, Inputs { input, files })?;
        let job = Job {
            making,
            manner,
            name: *name,
        };
        let Ok(made) = work_through(alloc, job, bytes.as_slice(), &mut refused) else {
            return Err(unworked(alloc, job, bytes.as_slice()));
        };
        add(&mut out, made)?;
    }
    Ok(Worked { out, refused })
}

/// Why nothing is made of an input whose refused pods are left out or kept: `pw-dump` has no form for a pod that isn't left out for that, or memory ran out.
fn unworked<'a>(alloc: Global, job: Job<'a, '_>, input: &[u8]) -> Failure<'a>
    ensures { IsUnworked job.entry.manner.refused job.entry.making result }
{
    if leaves_formless_out(job.manner.refused, job.making) {
        return Failure::OutOfMemory;
    }
    unmade(alloc, job.making, job.manner.reading, job.name, input)
}

/// Whether pods for which `pw-dump` has no form are left out.
fn leaves_formless_out(refused: Refused, making: Making<'_>) -> bool
    ensures { result ≡ spec.leaves_formless_out refused making.entry }
{
    match (refused, making) {
        (Refused::LeftOut, Making::Dump(_)) => true,
        _ => false,
    }
}

/// The first pod for which `pw-dump` has no form, where such pods are left out.
fn formless_ahead(
    alloc: Global,
    job: Job<'_, '_>,
    left: &[u8],
) -> Result<Option<FormlessPod>, AllocError>
    ensures left_out { IfOk result (λ found. IfSome found
        (λ _. spec.leaves_formless_out job.entry.manner.refused job.entry.making ≡ true)) }
    ensures behind { IfOk result (λ found. IfSome found (StandsBehind left.now)) }
{
    if leaves_formless_out(job.manner.refused, job.making) {
        return first_formless(alloc, job.manner.reading, left);
    }
    Ok(None)
}

/// What is made of an input, whose refused pods are left out or kept. What is said of these is added.
fn work_through<'a>(
    alloc: Global,
    job: Job<'a, '_>,
    input: &[u8],
    said: &mut Vec<NamedRefusal<'a>>,
) -> Result<Vec<u8>, AllocError>
    ensures { IfOk result (λ out. WorksThrough job.entry.manner.reading job.entry.manner.refused job.entry.making job.entry.name.now
        input.now out.items said.old.items said.new.items) }
{
    let mut out = Vec::new(alloc);
    let mut before: usize = 0;
    let mut left = input;
    loop {
        let place = input.len() - left.len();
        match formless_ahead(alloc, job, left)? {
            Some(found) => {
                let (first, pod) = left.split_at(found.at);
                let made = work_on(alloc, job, before, place, first, said)?;
                add(&mut out, made)?;
                before += found.before + 1;
                let refusal = refusal_of_formless(alloc, pod, place + found.at, before)?;
                said.push(NamedRefusal {
                    name: job.name,
                    refusal,
                    left_out: None,
                })?;
                let (_, rest) = pod.split_at(found.len);
                left = rest;
            }
            None => {
                let made = work_on(alloc, job, before, place, left, said)?;
                add(&mut out, made)?;
                return Ok(out);
            }
        }
    }
}

/// What is made of a part of an input, which so many pods and bytes of it stand before. What is said of its refused pods is added.
pub(crate) fn work_on<'a>(
    alloc: Global,
    job: Job<'a, '_>,
    count: usize,
    place: usize,
    part: &[u8],
    said: &mut Vec<NamedRefusal<'a>>,
) -> Result<Vec<u8>, AllocError>
    requires few { count + length part.now < 2 ^ 64 }
    requires within { place + length part.now < 2 ^ 64 }
    ensures { IfOk result (λ out. WorksOn job.entry.manner.reading job.entry.manner.refused job.entry.making job.entry.name.now
        count place part.now out.items said.old.items said.new.items) }
{
    let mut made = Made {
        out: Vec::new(alloc),
        refused: Vec::new(alloc),
    };
    let start = Progress {
        name: job.name,
        count,
        place,
        overlap: Overlap { more: 0, end: 0 },
    };
    make_each(alloc, &job.making, job.manner, start, part, &mut made)?;
    add_refusals(
        alloc,
        job.manner.reading,
        place,
        part,
        made.refused.as_slice(),
        said,
    )?;
    Ok(made.out)
}
