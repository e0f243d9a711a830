//! The outcome of a run: its status, and the line that it writes.
ghost use Rattle.std.specs.Prelude.{◌≡◌, ◌++◌, OnOk, length};
ghost use Rattle.std.specs.Io.KnownBytes.{Appends};
ghost use Rattle.pod_commands.specs.Answers.{count_line, line_of, line_of_pod, lines_of_pods, missing_line, status_of};
ghost use Rattle.pod_commands.specs.Misuses.{misuse_line};

use crate::misuse::Misuse;
use crate::plain::Plain;
use clap::Error;
use spa_recordings::going_on::Gap;
use spa_refusals::{NamedRefusal, Refusal};
use spa_text_commands::selection::Selection;
use std::alloc::AllocError;
use std::fmt;
use std::io::{self, Write};

/// What became of a run.
#[derive(Debug, Drop)]
pub enum Answer<'a> {
    /// The work was done; two inputs that were compared say the same values.
    Done,
    /// The two inputs say other values, and the lines that differ were written.
    Differs,
    /// The work was done on what is read, and these pods, of which there are some, were refused.
    Passed(Vec<NamedRefusal<'a>>),
    /// All was printed, and so many of the printed pods, of which there are some, are refused.
    Shown(usize),
    /// All was printed, which is nothing: what is looked for inside pods isn't there.
    Missing(Selection<'a>),
    /// The work was refused, for this reason.
    Refused(Failure<'a>),
    /// The command line is wrong, for this reason.
    Misused(Misuse<'a>),
    /// The words ask for help or the version, or are none of the program's.
    Said(Error),
}

impl Answer<'_> {
    /// The program's status: 0 where the work was done or help given, 1 where it was refused, two inputs differ or what is looked for isn't there, 2 where the words
    /// are none of the program's.
    pub fn status(&self) -> u8
        ensures { result ≡ status_of self.now }
    {
        match self {
            Answer::Done => 0,
            Answer::Differs => 1,
            Answer::Passed(_) => 1,
            Answer::Shown(_) => 1,
            Answer::Missing(_) => 1,
            Answer::Refused(_) => 1,
            Answer::Misused(_) => 2,
            Answer::Said(error) => { if error.use_stderr() { 2 } else { 0 } }
        }
    }
}

/// Why a run was refused.
#[derive(Debug, Drop)]
pub enum Failure<'a> {
    /// The input of this name isn't pods, which is said of the first refused one, or by `show` of what follows the whole ones.
    Pods(&'a str, Refusal),
    /// The input of this name isn't texts.
    Texts(&'a str, spa_text_commands::answer::Failure),
    /// The two objects of the input of this name don't agree.
    Pair(&'a str, spa_meet_commands::answer::Failure),
    /// The objects of the inputs of these names don't agree.
    Lists(&'a str, &'a str, spa_meet_commands::answer::Failure),
    /// A growth was refused.
    OutOfMemory,
    /// The input of this name couldn't be read, which is said so.
    Unread(&'a str, &'static str),
    /// The file of this name, or without one the standard output, couldn't be written.
    Unwritten(Option<&'a str>),
}

/// What is said of an input's name.
#[derive(Clone, Copy)]
struct Name<'a>(&'a str);

impl fmt::Display for Name<'_> {
    ghost use Rattle.std.specs.Prelude.{Some};
    ghost use Rattle.pod_commands.specs.Answers.{name_text};

    ghost output = { λ it. Some (name_text it.0.now) };

    fn fmt<W: fmt::Write>(&self, f: &mut fmt::Formatter<W>) -> fmt::Result {
        if self.0 == "-" {
            return f.write_str("standard input");
        }
        let name = Plain(self.0);
        write!(f, "{name}")
    }
}

/// What is said of the file that is written.
#[derive(Clone, Copy)]
struct Target<'a>(Option<&'a str>);

impl fmt::Display for Target<'_> {
    ghost use Rattle.std.specs.Prelude.{Some};
    ghost use Rattle.pod_commands.specs.Answers.{target_text};

    ghost output = { λ it. Some (target_text it.0) };

    fn fmt<W: fmt::Write>(&self, f: &mut fmt::Formatter<W>) -> fmt::Result {
        match self.0 {
            Some(name) => {
                let name = Plain(name);
                write!(f, "{name}")
            }
            None => f.write_str("standard output"),
        }
    }
}

/// What is said of the objects that are looked for, by the names of their types and their ids.
#[derive(Clone, Copy)]
struct Objects<'a> {
    type_: Option<&'a str>,
    id: Option<&'a str>,
}

impl fmt::Display for Objects<'_> {
    ghost use Rattle.std.specs.Prelude.{Some};
    ghost use Rattle.pod_commands.specs.Answers.{objects_text};

    ghost output = { λ it. Some (objects_text it.type_ it.id) };

    fn fmt<W: fmt::Write>(&self, f: &mut fmt::Formatter<W>) -> fmt::Result {
        match (self.type_, self.id) {
            (Some(type_), Some(id)) => write!(f, "the type '{type_}' and the id '{id}'"),
            (Some(type_), None) => write!(f, "the type '{type_}'"),
            (None, Some(id)) => write!(f, "the id '{id}'"),
            (None, None) => Ok(()),
        }
    }
}

/// What is said of an object or a value that isn't there, of the key, the types and the ids that are given.
#[derive(Clone, Copy)]
struct Absent<'a> {
    key: Option<&'a str>,
    type_: Option<&'a str>,
    id: Option<&'a str>,
}

impl fmt::Display for Absent<'_> {
    ghost use Rattle.std.specs.Prelude.{Some};
    ghost use Rattle.pod_commands.specs.Answers.{missing_text};

    ghost output = { λ it. Some (missing_text it.key it.type_ it.id) };

    fn fmt<W: fmt::Write>(&self, f: &mut fmt::Formatter<W>) -> fmt::Result {
        let objects = Objects {
            type_: self.type_,
            id: self.id,
        };
        match (self.key, self.type_, self.id) {
            (None, _, _) => write!(f, "object has {objects}"),
            (Some(key), None, None) => write!(f, "value has the key '{key}'"),
            (Some(key), Some(_), _) | (Some(key), None, Some(_)) => {
                write!(f, "value has the key '{key}' in an object with {objects}")
            }
        }
    }
}

/// What is said of bytes that are left out.
#[derive(Clone, Copy)]
struct LeftOut(Option<Gap>);

impl fmt::Display for LeftOut {
    ghost use Rattle.std.specs.Prelude.{Some};
    ghost use Rattle.pod_commands.specs.Answers.{left_out_text};

    ghost output = { λ it. Some (left_out_text it.0) };

    fn fmt<W: fmt::Write>(&self, f: &mut fmt::Formatter<W>) -> fmt::Result {
        match self.0 {
            Some(gap) => {
                write!(
                    f,
                    "; {} bytes are left out, up to byte {}",
                    gap.len, gap.end
                )
            }
            None => Ok(()),
        }
    }
}

impl fmt::Display for Failure<'_> {
    ghost use Rattle.std.specs.Prelude.{Some};
    ghost use Rattle.pod_commands.specs.Answers.{failure_text};

    ghost output = { λ failure. Some (failure_text failure) };

    fn fmt<W: fmt::Write>(&self, f: &mut fmt::Formatter<W>) -> fmt::Result {
        match self {
            Failure::Pods(name, why) => write!(f, "{}: {why}", Name(*name)),
            Failure::Texts(name, why) => write!(f, "{}: {why}", Name(*name)),
            Failure::Pair(name, why) => write!(f, "{}: {why}", Name(*name)),
            Failure::Lists(ours, theirs, why) => {
                write!(f, "{}, {}: {why}", Name(*ours), Name(*theirs))
            }
            Failure::OutOfMemory => write!(f, "out of memory"),
            Failure::Unread(name, why) => write!(f, "{}: {why}", Name(*name)),
            Failure::Unwritten(target) => write!(f, "{}: write failed", Target(*target)),
        }
    }
}

impl From<AllocError> for Failure<'_> {
    ghost use Rattle.pod_commands.specs.declared.answer.Failure.TheVariants.{OutOfMemory};
    ghost use Rattle.std.specs.Prelude.{◌≡◌};

    ghost from_gives = { λ _ e. e ≡ OutOfMemory };

    fn from(_refused: AllocError) -> Self {
        Failure::OutOfMemory
    }
}

/// Writes what is said of this answer: help and the version to the output, a refusal or a misuse to the other writer, of work that was
/// done nothing.
pub fn report<W: Write, E: Write>(
    output: &mut W,
    faults: &mut E,
    answer: &Answer<'_>,
) -> io::Result<()> {
    match answer {
        Answer::Done => Ok(()),
        Answer::Differs => Ok(()),
        Answer::Passed(pods) => report_pods(faults, pods.as_slice()),
        Answer::Shown(refused) => report_count(faults, *refused),
        Answer::Missing(selection) => report_missing(faults, *selection),
        Answer::Refused(why) => report_failure(faults, why),
        Answer::Misused(why) => report_misuse(faults, why),
        Answer::Said(error) => {
            if error.use_stderr() {
                write!(faults, "{error}")
            } else {
                write!(output, "{error}")?;
                output.flush()
            }
        }
    }
}

/// Writes a line of each of these refused pods, and how many they are.
pub fn report_pods<E: Write>(faults: &mut E, pods: &[NamedRefusal<'_>]) -> io::Result<()>
    ensures written { OnOk result (Appends (E.contents faults.old) (E.contents faults.new)
        (lines_of_pods pods.now ++ count_line (length pods.now))) }
{
    for pod in pods {
        report_pod(faults, pod)?;
    }
    report_count(faults, pods.len())
}

/// Writes the line that says how many pods are refused.
fn report_count<E: Write>(faults: &mut E, count: usize) -> io::Result<()>
    ensures written { OnOk result (Appends (E.contents faults.old) (E.contents faults.new) (count_line count)) }
{
    writeln!(faults, "pod: refused pods: {count}")
}

/// Writes the line that says that what is looked for isn't there.
pub fn report_missing<E: Write>(faults: &mut E, selection: Selection<'_>) -> io::Result<()>
    ensures written { OnOk result (Appends (E.contents faults.old) (E.contents faults.new) (missing_line selection.entry)) }
{
    let absent = Absent {
        key: selection.key,
        type_: selection.type_,
        id: selection.id,
    };
    match selection.path {
        Some(path) => writeln!(faults, "pod: no pod stands at {}", Plain(path)),
        None => writeln!(faults, "pod: no {absent}"),
    }
}

/// Writes the line of a refused pod.
fn report_pod<E: Write>(faults: &mut E, pod: &NamedRefusal<'_>) -> io::Result<()>
    ensures written { OnOk result (Appends (E.contents faults.old) (E.contents faults.new) (line_of_pod pod.now)) }
{
    let left_out = LeftOut(pod.left_out);
    writeln!(faults, "pod: {}: {}{left_out}", Name(pod.name), pod.refusal)
}

/// Writes the line of a wrong command line.
pub fn report_misuse<E: Write>(faults: &mut E, why: &Misuse<'_>) -> io::Result<()>
    ensures written { OnOk result (Appends (E.contents faults.old) (E.contents faults.new) (misuse_line why.now)) }
{
    writeln!(faults, "pod: {why}; try 'pod --help'")
}

/// Writes the line of a refusal.
pub fn report_failure<E: Write>(faults: &mut E, why: &Failure<'_>) -> io::Result<()>
    ensures written { OnOk result (Appends (E.contents faults.old) (E.contents faults.new) (line_of why.now)) }
{
    writeln!(faults, "pod: {why}")
}
