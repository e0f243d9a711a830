//! The program's work, over a reader, files and a writer.
ghost use Rattle.std.specs.Prelude.{◌≡◌, ◌≢◌, ◌⊎◌, IfNone, IfSome, None, false, true};
ghost use Rattle.pod_commands.specs.Answers as spec;
ghost use Rattle.pod_commands.specs.Answers.{AreFiles, IsAgreed, IsAnswer, IsCompared, IsDone, IsExcluded, IsMadeBy, IsMadeInPart, IsPrinted, IsPrintedLeniently, IsShownIn, IsStreamed, IsStreamedBy, IsStreamedInPart, IsOutcome, IsWrittenAs, MayReadTwice, MayStream, course_of};
ghost use Rattle.pod_commands.specs.Streaming as streams;
ghost use Rattle.pod_commands.specs.Streaming.{IsMadeInBlocks, IsMadeOfEach};
ghost use Rattle.pod_commands.specs.declared.request.Fate.TheVariants.{Stops};
ghost use Rattle.pod_commands.specs.declared.request.Making.TheVariants.{Rewrite};
ghost use Rattle.spa_recordings.specs.declared.reading.Reading.TheVariants.{Exact};

use crate::answer::{Answer, Failure};
use crate::files::{Files, Inputs};
use crate::making::{Worked, make_all, make_what_is_read};
use crate::misuse::{Excluded, Misuse};
use crate::pairs::{Two, agree, agree_of_lists, compare};
use crate::passing::pass_all;
use crate::request::{
    Fate, Making, Manner, Printing, Request, Streaming, Word, file_of, fills_terminal, request_of,
};
use crate::screen::Screen;
use crate::sending::answered;
use crate::streaming::{check_all, stream_all};
use clap::error::ErrorKind;
use spa_meet_commands::pair::Work;
use spa_meet_commands::progress::Progress;
use spa_recordings::going_on as recordings;
use spa_recordings::going_on::Refused;
use spa_recordings::reading::Reading;
use spa_recordings::streaming::Made;
use spa_text_commands::comparing::Comparison;
use spa_text_commands::selection::Selection;
use std::alloc::Global;
use std::io::{Read, Write};

/// What the program is started with.
#[derive(Clone, Copy)]
pub struct Start<'a> {
    /// The words, the program's own name not among them.
    pub words: &'a [&'a str],
    /// What the standard output is.
    pub screen: Screen,
}

/// What is worked on: the inputs of these names, of which what is made goes to this file, or without one to the device.
#[derive(Clone, Copy)]
struct Task<'n, 'a> {
    alloc: Global,
    names: &'n [&'a str],
    target: Option<&'a str>,
}

/// What a run reads and writes.
#[derive(Drop)]
struct Io<'io, R, S, P, W: Drop> {
    files: &'io mut S,
    input: &'io mut R,
    progress: &'io mut P,
    device: W,
}

/// Does what the words ask for.
///
/// The words are settled before anything is read. But for `--stream`, and without `--lenient` for `show`, and for `json` with `--nth`, `--type`, `--id`, `--key` or
/// `--hex`, nothing is written before all inputs are read and accepted; a file that is to be written is written at the end, by all words. Where the device is a terminal, `show` and `json`
/// print in colours, unless `NO_COLOR` or `--color` says other, and no pods are written, unless `-o -` asks for it. A search among two lists tells how
/// far it is.
pub fn run<'a, R: Read, S: Files, P: Progress, W: Write + Drop>(
    alloc: Global,
    start: Start<'a>,
    input: &mut R,
    files: &mut S,
    progress: &mut P,
    device: W,
) -> (Answer<'a>, W)
    ensures { IsAnswer start.entry.words.now start.entry.screen (R.remaining input.old)
        (W.contents device) (W.contents result.1) (S.holds files.old) (S.holds files.new) result.0 }
{
    match request_of(alloc, start.words, start.screen) {
        Ok(Ok(request)) => {
            if fills_terminal(&request, start.screen) {
                return (Answer::Misused(Misuse::ToTerminal), device);
            }
            let io = Io {
                files,
                input,
                progress,
                device,
            };
            let task = Task {
                alloc,
                names: request.names.as_slice(),
                target: file_of(request.target),
            };
            let done = io.do_work(task, request.word);
            done
        }
        Ok(Err(why)) => (Answer::Misused(why), device),
        Err(error) => match error.kind() {
            ErrorKind::OutOfMemory => (Answer::Refused(Failure::OutOfMemory), device),
            _ => (Answer::Said(error), device),
        },
    }
}

impl<R: Read, S: Files, P: Progress, W: Write + Drop> Io<'_, R, S, P, W> {
    /// Does the work of this word.
    fn do_work<'a>(self, task: Task<'_, 'a>, word: Word<'a>) -> (Answer<'a>, W)
        ensures { IsDone word.entry result.0 (course_of R.remaining W.contents S.holds task.entry.names.now task.entry.target self.entry result.1 self.exit.0.now) }
    {
        match word {
            Word::Print(printing, manner) => self.print(task, printing, manner),
            Word::Make(making, manner) => self.make(task, making, manner),
            Word::Stream(streaming, manner) => self.stream(task, streaming, manner),
            Word::Diff(comparison, reading) => self.diff(task, comparison, reading),
            Word::Agree(work, reading) => self.seek(task, work, reading),
        }
    }

    /// Makes this of the inputs.
    fn make<'a>(self, task: Task<'_, 'a>, making: Making<'_>, manner: Manner) -> (Answer<'a>, W)
        ensures { IsMadeBy manner.reading manner.fate making.entry result.0 (course_of R.remaining W.contents S.holds task.entry.names.now task.entry.target self.entry result.1 self.exit.0.now) }
    {
        match manner.fate {
            Fate::Stops => {
                let reading = manner.reading;
                if may_read_twice(making, reading, task.names, task.target, &*self.files) {
                    return self.rewrite_twice(task);
                }
                let input = self.input;
                let files = self.files;
                let inputs = Inputs { input, files };
                let made = make_all(task.alloc, making, reading, task.names, inputs);
                answered(files, task.target, self.device, made, Answer::Done)
            }
            Fate::GoesOn(refused) => {
                let manner = recordings::Manner {
                    reading: manner.reading,
                    refused,
                };
                self.go_on(task, making, manner)
            }
        }
    }

    /// Rewrites the inputs, which are files that are read twice: nothing is written before all are accepted, and neither pass holds more than a block.
    fn rewrite_twice<'a>(self, task: Task<'_, 'a>) -> (Answer<'a>, W)
        requires { MayReadTwice Exact Rewrite task.names.now None }
        ensures { IsMadeBy Exact Stops Rewrite result.0 (course_of R.remaining W.contents S.holds task.entry.names.now None self.entry result.1 self.exit.0.now) }
    {
        // Of files alone, nothing of the standard input is read.
        let mut nothing: &[u8] = &[];
        let inputs = Inputs {
            input: &mut nothing,
            files: &*self.files,
        };
        match check_all(task.alloc, Reading::Exact, task.names, inputs) {
            Ok(()) => {}
            Err(why) => return (Answer::Refused(why), self.device),
        }
        if let Some(name) = emptied(task.names, &*self.files) {
            let why = Failure::Unread(name, "emptied while it was read");
            return (Answer::Refused(why), self.device);
        }
        let streaming = Streaming::Rewrite;
        self.write_as(task, Reading::Exact, streaming)
    }

    /// Works on what is read of the inputs, and answers which pods of them are refused.
    fn go_on<'a>(
        self,
        task: Task<'_, 'a>,
        making: Making<'_>,
        manner: recordings::Manner,
    ) -> (Answer<'a>, W)
        ensures { IsMadeInPart manner.reading manner.refused making.entry result.0 (course_of R.remaining W.contents S.holds task.entry.names.now task.entry.target self.entry result.1 self.exit.0.now) }
    {
        let input = self.input;
        let files = self.files;
        let inputs = Inputs { input, files };
        let made = match make_what_is_read(task.alloc, making, manner, task.names, inputs) {
            Ok(made) => made,
            Err(why) => return (Answer::Refused(why), self.device),
        };
        let Worked { out, refused } = made;
        if refused.is_empty() {
            return answered(files, task.target, self.device, Ok(out), Answer::Done);
        }
        let done = Answer::Passed(refused);
        answered(files, task.target, self.device, Ok(out), done)
    }

    /// Writes this of the inputs as they come, where no option that `--stream` excludes is given.
    #[tactic(auto, using(crate::proofs::Streamed::streamed, crate::proofs::Streamed::misused))]
    fn stream<'a>(
        self,
        task: Task<'_, 'a>,
        streaming: Streaming<'a>,
        manner: Manner,
    ) -> (Answer<'a>, W)
        ensures { IsStreamed streaming.entry manner.reading manner.fate result.0 (course_of R.remaining W.contents S.holds task.entry.names.now task.entry.target self.entry result.1 self.exit.0.now) }
    {
        if let Some(other) = excluded_in(manner.fate, task.target) {
            return (Answer::Misused(Misuse::WithStream(other)), self.device);
        }
        self.stream_by(task, streaming, manner)
    }

    /// Writes this of the inputs as they come; no file is written.
    #[tactic(auto, using(crate::proofs::Streamed::stopped_by, crate::proofs::Streamed::passed_by, crate::proofs::Streamed::parts_by, crate::proofs::Streamed::blocks_by))]
    fn stream_by<'a>(
        self,
        task: Task<'_, 'a>,
        streaming: Streaming<'a>,
        manner: Manner,
    ) -> (Answer<'a>, W)
        requires { MayStream manner.fate }
        ensures { IsStreamedBy streaming.entry manner.reading manner.fate result.0 (course_of R.remaining W.contents S.holds task.entry.names.now None self.entry result.1 self.exit.0.now) }
    {
        match manner.fate {
            Fate::Stops => self.write_as(task, manner.reading, streaming),
            Fate::GoesOn(refused) => match made_as(streaming) {
                Some(making) => {
                    let manner = recordings::Manner {
                        reading: manner.reading,
                        refused,
                    };
                    self.pass(task, making, manner)
                }
                None => (Answer::Misused(Misuse::WithPart(refused)), self.device),
            },
        }
    }

    /// Writes what is made of what is read of the inputs as they come, and answers which pods of them are refused; no file is written.
    #[tactic(auto, using(crate::proofs::Passed::none_refused, crate::proofs::Passed::some_refused, crate::proofs::Passed::ended))]
    fn pass<'a>(
        self,
        task: Task<'_, 'a>,
        making: Making<'_>,
        manner: recordings::Manner,
    ) -> (Answer<'a>, W)
        requires { IsMadeInBlocks manner.refused making }
        ensures { IsStreamedInPart manner.reading manner.refused making.entry result.0 (course_of R.remaining W.contents S.holds task.entry.names.now None self.entry result.1 self.exit.0.now) }
    {
        let input = self.input;
        let files = self.files;
        let inputs = Inputs { input, files };
        let mut device = self.device;
        match pass_all(task.alloc, making, manner, task.names, inputs, &mut device) {
            Ok(said) => {
                if said.is_empty() {
                    return (Answer::Done, device);
                }
                (Answer::Passed(said), device)
            }
            Err(why) => (Answer::Refused(why), device),
        }
    }

    /// Writes this of the inputs, which are read so, as they come; no file is written.
    #[tactic(auto, using(crate::proofs::Streamed::all_written, crate::proofs::Streamed::part_written))]
    fn write_as<'a>(
        self,
        task: Task<'_, 'a>,
        reading: Reading,
        streaming: Streaming<'a>,
    ) -> (Answer<'a>, W)
        ensures { IsWrittenAs reading streaming.entry result.0 (course_of R.remaining W.contents S.holds task.entry.names.now None self.entry result.1 self.exit.0.now) }
    {
        let input = self.input;
        let files = self.files;
        let inputs = Inputs { input, files };
        let mut device = self.device;
        let made = match stream_all(
            task.alloc,
            reading,
            streaming,
            task.names,
            inputs,
            &mut device,
        ) {
            Ok(made) => made,
            Err(why) => return (Answer::Refused(why), device),
        };
        (shown(made, looked_for(streaming)), device)
    }

    /// Prints this of the inputs, where no refused pod is to be left out: as they come, or where a file is written or they are read leniently, all of it at the end.
    fn print<'a>(
        self,
        task: Task<'_, 'a>,
        printing: Printing<'a>,
        manner: Manner,
    ) -> (Answer<'a>, W)
        ensures { IsPrinted printing.entry manner.reading manner.fate result.0 (course_of R.remaining W.contents S.holds task.entry.names.now task.entry.target self.entry result.1 self.exit.0.now) }
    {
        match (manner.fate, manner.reading, task.target) {
            (Fate::GoesOn(refused), _, _) => {
                (Answer::Misused(Misuse::WithPart(refused)), self.device)
            }
            (Fate::Stops, Reading::Lenient, _) => self.print_leniently(task, printing),
            (Fate::Stops, Reading::Exact, Some(_)) => self.print_to_file(task, printing),
            (Fate::Stops, Reading::Exact, None) => {
                self.write_as(task, Reading::Exact, Streaming::Print(printing))
            }
        }
    }

    /// Prints this of the values that the inputs convey, once all are read.
    fn print_leniently<'a>(self, task: Task<'_, 'a>, printing: Printing<'a>) -> (Answer<'a>, W)
        ensures { IsPrintedLeniently printing.entry result.0 (course_of R.remaining W.contents S.holds task.entry.names.now task.entry.target self.entry result.1 self.exit.0.now) }
    {
        let input = self.input;
        let files = self.files;
        let inputs = Inputs { input, files };
        let making = Making::Print(printing);
        let made = match make_all(task.alloc, making, Reading::Lenient, task.names, inputs) {
            Ok(made) => made,
            Err(why) => return (Answer::Refused(why), self.device),
        };
        let sought = sought_in(printing.printout.selection);
        let done = shown(Made::of(0, made.as_slice()), sought);
        answered(files, task.target, self.device, Ok(made), done)
    }

    /// Prints this of the inputs in the file that is written.
    fn print_to_file<'a>(self, task: Task<'_, 'a>, printing: Printing<'a>) -> (Answer<'a>, W)
        ensures { IsShownIn printing.entry result.0 (course_of R.remaining W.contents S.holds task.entry.names.now task.entry.target self.entry result.1 self.exit.0.now) }
    {
        let input = self.input;
        let files = self.files;
        let inputs = Inputs { input, files };
        let streaming = Streaming::Print(printing);
        let mut printed = Vec::new(task.alloc);
        match stream_all(
            task.alloc,
            Reading::Exact,
            streaming,
            task.names,
            inputs,
            &mut printed,
        ) {
            Ok(made) => {
                let done = shown(made, looked_for(streaming));
                answered(files, task.target, self.device, Ok(printed), done)
            }
            Err(Failure::Unwritten(_)) => (Answer::Refused(Failure::OutOfMemory), self.device),
            Err(why) => (Answer::Refused(why), self.device),
        }
    }

    /// Compares two inputs, which are read so, as this.
    fn diff<'a>(
        self,
        task: Task<'_, 'a>,
        comparison: Comparison,
        reading: Reading,
    ) -> (Answer<'a>, W)
        ensures { IsCompared comparison reading result.0 task.entry.names.now (course_of R.remaining W.contents S.holds task.entry.names.now task.entry.target self.entry result.1 self.exit.0.now) }
    {
        let [ours, theirs] = task.names else {
            return (Answer::Misused(misuse_of(task.names)), self.device);
        };
        let input = self.input;
        let files = self.files;
        let both = Two {
            ours: *ours,
            theirs: *theirs,
        };
        let inputs = Inputs { input, files };
        let lines = match compare(task.alloc, comparison, reading, both, inputs) {
            Ok(lines) => lines,
            Err(why) => return (Answer::Refused(why), self.device),
        };
        if lines.is_empty() {
            return answered(files, task.target, self.device, Ok(lines), Answer::Done);
        }
        answered(files, task.target, self.device, Ok(lines), Answer::Differs)
    }

    /// Seeks the object on which two of the inputs, which are read so, agree.
    fn seek<'a>(self, task: Task<'_, 'a>, work: Work, reading: Reading) -> (Answer<'a>, W)
        ensures { IsAgreed work reading result.0 task.entry.names.now (course_of R.remaining W.contents S.holds task.entry.names.now task.entry.target self.entry result.1 self.exit.0.now) }
    {
        let names = task.names;
        match names {
            [name] => {
                let input = self.input;
                let files = self.files;
                let made = agree(task.alloc, work, reading, *name, Inputs { input, files });
                answered(files, task.target, self.device, made, Answer::Done)
            }
            [ours, theirs] => {
                let both = Two {
                    ours: *ours,
                    theirs: *theirs,
                };
                let input = self.input;
                let files = self.files;
                let inputs = Inputs { input, files };
                let made = agree_of_lists(task.alloc, work, reading, both, inputs, self.progress);
                answered(files, task.target, self.device, made, Answer::Done)
            }
            _ => (Answer::Misused(misuse_of(names)), self.device),
        }
    }
}

/// Whether pods are read exactly and rewritten to the standard output, and each of these names is a regular file's.
fn may_read_twice<S: Files>(
    making: Making<'_>,
    reading: Reading,
    names: &[&str],
    target: Option<&str>,
    files: &S,
) -> bool
    ensures { result ≡ true → MayReadTwice reading making.entry names.now target.entry }
{
    match (reading, making, target) {
        (Reading::Exact, Making::Rewrite, None) => are_regular(names, files),
        _ => false,
    }
}

/// Whether each of these names is a regular file's.
fn are_regular<S: Files>(names: &[&str], files: &S) -> bool
    ensures { result ≡ true → AreFiles names.now }
{
    for name in names {
        if *name == "-" || !files.is_regular(*name) {
            return false;
        }
    }
    true
}

/// The first of these names, each of which was a regular file's with bytes, that isn't any more.
fn emptied<'a, S: Files>(names: &[&'a str], files: &S) -> Option<&'a str> {
    for name in names {
        if !files.is_regular(*name) {
            return Some(*name);
        }
    }
    None
}

/// An option that `--stream` excludes, if one is given.
fn excluded_in(fate: Fate, target: Option<&str>) -> Option<Excluded>
    ensures to_output { IfNone result (target.entry ≡ None) }
    ensures streams { IfNone result (MayStream fate) }
    ensures other { IfSome result (IsExcluded fate target.entry) }
{
    match (fate, target) {
        (_, Some(_)) => Some(Excluded::Output),
        (Fate::Stops, None) => None,
        (Fate::GoesOn(Refused::LeftOut), None) => None,
        (Fate::GoesOn(Refused::Kept), None) => None,
        (Fate::GoesOn(Refused::Resynced), None) => Some(Excluded::Resync),
    }
}

/// What is made of each pod, where no parts of inputs are printed.
fn made_as<'a>(streaming: Streaming<'a>) -> Option<Making<'a>>
    ensures making { result ≡ streams.made_as streaming.entry }
    ensures each { IfSome result IsMadeOfEach }
{
    match streaming {
        Streaming::Json(style) => Some(Making::Json(style)),
        Streaming::Rewrite => Some(Making::Rewrite),
        Streaming::Print(_) => None,
        Streaming::Check => Some(Making::Check),
    }
}

/// What is looked for inside pods, if something is.
fn looked_for<'a>(streaming: Streaming<'a>) -> Option<Selection<'a>>
    ensures { result ≡ spec.looked_for streaming.entry }
{
    match streaming {
        Streaming::Json(_) => None,
        Streaming::Rewrite => None,
        Streaming::Print(printing) => sought_in(printing.printout.selection),
        Streaming::Check => None,
    }
}

/// The selection where something is looked for inside pods.
fn sought_in<'a>(selection: Selection<'a>) -> Option<Selection<'a>>
    ensures { result ≡ spec.sought_in selection.entry }
{
    if selection.looks_inside() {
        Some(selection)
    } else {
        None
    }
}

/// The answer where all is printed, of which this is answered, and this was looked for.
fn shown<'a>(made: Made, sought: Option<Selection<'a>>) -> Answer<'a>
    ensures { IsOutcome sought.entry made result }
{
    if made.refused != 0 {
        return Answer::Shown(made.refused);
    }
    let Some(selection) = sought else {
        return Answer::Done;
    };
    if made.nothing {
        return Answer::Missing(selection);
    }
    Answer::Done
}

/// What is wrong with another number of inputs than a word takes.
fn misuse_of<'a>(names: &[&'a str]) -> Misuse<'a>
    ensures { result ≡ spec.misuse_of names.now }
{
    match names {
        [_, _, other, ..] => Misuse::TooMany(*other),
        _ => Misuse::TooFew,
    }
}
